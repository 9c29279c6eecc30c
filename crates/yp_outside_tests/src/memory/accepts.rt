//! A hall in memory to which all have come: connections up to a number, those that are closed, and accepts that fail.

use crate::given::{assert_same, listed};
use crate::memory::hall::call;
use std::alloc::Global;
use std::process::Abort;
use yp_io::{Coming, Failed, Hall};
use yp_memory::{HallCall, HallCloser, MemHall};

// A hall to which the ports 1 and 2 call, and which is to accept so many connections. These calls of it fail.
fn door(rt: &impl Abort, alloc: Global, most: u32, failing: &[u64]) -> MemHall {
    let (first, second) = (call(rt, alloc, 1), call(rt, alloc, 2));
    let arrivals = vec![in alloc; first, second].expect(rt, "memory for connections");
    let (failing, pausing) = (listed(rt, alloc, failing), Vec::new(alloc));
    MemHall::new(alloc, arrivals, most, failing, pausing, Vec::new(alloc))
}

// A call of the hall: an accept, or the first connection that is out is closed.
#[derive(Clone, Copy)]
enum Step {
    Accept,
    Close,
}

// What it answers; a connection by its port.
#[derive(Clone, Copy, Debug, PartialEq, Eq)]
enum Outcome {
    Came(u16),
    NotNow,
    Closed,
    Failed,
    Shut,
}

// A call, its outcome, and behind it how many connections were accepted and how many were closed.
type Row = (Step, Outcome, u32, usize);

fn accept(rt: &impl Abort, hall: &mut MemHall, out: &mut Vec<HallCall>) -> Outcome {
    match hall.try_accept() {
        Ok(Coming::Came(call)) => {
            let port = call.origin.peer().port;
            out.push(call).expect(rt, "memory for a connection");
            Outcome::Came(port)
        }
        Ok(Coming::NotNow) => Outcome::NotNow,
        Ok(Coming::Closed) => Outcome::Closed,
        Err(Failed) => Outcome::Failed,
    }
}

fn close(closer: &mut HallCloser, out: &mut Vec<HallCall>) -> Outcome {
    if !out.is_empty() {
        <MemHall as Hall>::close(closer, out.remove(0));
    }
    Outcome::Shut
}

fn play_row(
    rt: &impl Abort,
    hall: &mut MemHall,
    closer: &mut HallCloser,
    out: &mut Vec<HallCall>,
    row: &Row,
) {
    let (step, outcome, accepted, closed) = *row;
    let came = match step {
        Step::Accept => accept(rt, hall, out),
        Step::Close => close(closer, out),
    };
    let found = (came, hall.accepted(), closer.calls().len());
    assert_same(rt, &found, &(outcome, accepted, closed), "a call of a hall");
}

// Plays rows with one closer, which is taken in.
fn play(rt: &impl Abort, hall: &mut MemHall, out: &mut Vec<HallCall>, rows: &[Row]) {
    let mut closer = hall.closer();
    for row in rows {
        play_row(rt, hall, &mut closer, out, row);
    }
    hall.take_in(closer);
}

fn played(rt: &impl Abort, alloc: Global, most: u32, failing: &[u64], rows: &[Row]) -> MemHall {
    let mut hall = door(rt, alloc, most, failing);
    let mut out = Vec::new(alloc);
    play(rt, &mut hall, &mut out, rows);
    hall
}

// Whether connections have these ports, one by one.
fn have_ports(calls: &[HallCall], ports: &[u16]) -> bool {
    let mut are_same = calls.len() == ports.len();
    for (call, port) in calls.iter().zip(ports) {
        are_same = are_same && call.origin.peer().port == *port;
    }
    are_same
}

// Whether the closers have closed connections of these ports, in this order.
fn have_closed(hall: &MemHall, wanted: &[&[u16]]) -> bool {
    let mut have = hall.closers().len() == wanted.len();
    for (closer, ports) in hall.closers().iter().zip(wanted) {
        have = have && have_ports(closer.calls(), *ports);
    }
    have
}

static TWO: [Row; 6] = [
    (Step::Accept, Outcome::Came(1), 1, 0),
    (Step::Accept, Outcome::Came(2), 2, 0),
    (Step::Accept, Outcome::Closed, 2, 0),
    (Step::Close, Outcome::Shut, 2, 1),
    (Step::Accept, Outcome::Closed, 2, 1),
    (Step::Close, Outcome::Shut, 2, 2),
];

static ONE: [Row; 2] = [
    (Step::Accept, Outcome::Came(1), 1, 0),
    (Step::Accept, Outcome::Closed, 1, 0),
];

#[test]
fn accepts_up_to_its_number(rt: HostRuntime) {
    let hall = played(&rt, rt.alloc(), 2, &[], &TWO);
    let has = have_closed(&hall, &[&[1, 2]]);
    assert_same(&rt, &has, &true, "the connections of a closer");
    played(&rt, rt.alloc(), 1, &[], &ONE);
}

// The first call fails and the third, and one where nobody calls.
static FAILING: [Row; 6] = [
    (Step::Accept, Outcome::Failed, 0, 0),
    (Step::Accept, Outcome::Came(1), 1, 0),
    (Step::Accept, Outcome::Failed, 1, 0),
    (Step::Accept, Outcome::Came(2), 2, 0),
    (Step::Accept, Outcome::Failed, 2, 0),
    (Step::Close, Outcome::Shut, 2, 1),
];

#[test]
fn accepts_that_fail(rt: HostRuntime) {
    played(&rt, rt.alloc(), 3, &[0, 2], &FAILING);
}

// Accepts two connections, of which each of two closers closes one.
fn close_two(rt: &impl Abort, hall: &mut MemHall, out: &mut Vec<HallCall>) {
    let (mut first, mut second) = (hall.closer(), hall.closer());
    accept(rt, hall, out);
    accept(rt, hall, out);
    close(&mut second, out);
    close(&mut first, out);
    hall.take_in(second);
    hall.take_in(first);
}

#[test]
fn two_closers(rt: HostRuntime) {
    let mut hall = door(&rt, rt.alloc(), 2, &[]);
    let mut out = Vec::new(rt.alloc());
    close_two(&rt, &mut hall, &mut out);
    let has = have_closed(&hall, &[&[1], &[2]]);
    assert_same(&rt, &has, &true, "the connections of two closers");
}
