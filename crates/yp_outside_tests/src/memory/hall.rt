//! A hall in memory: connections that come, or don't now, wires that go on at some calls alone, and what a watch tells.

ghost use Rattle.yp_memory.specs.inside.MemHall.{EntryIsNew};

use crate::given::{assert_same, listed, owned};
use std::alloc::Global;
use std::process::Abort;
use yp_io::{
    Awaited, CallOrigin, Called, Coming, Failed, Hall, Notice, Pair, Peer, TrySink, TrySource,
    Watch,
};
use yp_memory::{HallCall, HallCloser, MemHall, MemSink, MemSource, MemWatch, Scheduled};

// A connection of this port. The second call of each half of its wire says "not now".
pub(crate) fn call(rt: &impl Abort, alloc: Global, port: u16) -> HallCall
    ensures { EntryIsNew result }
{
    let input = owned(rt, alloc, b"call");
    let source = MemSource::new(input, 1000, Vec::new(alloc));
    let sink = MemSink::new(alloc, 1000, Vec::new(alloc));
    let peer = Peer {
        addr: [127, 0, 0, 1],
        port,
    };
    let wire = Pair {
        source: Scheduled::new(source, listed(rt, alloc, &[1])),
        sink: Scheduled::new(sink, listed(rt, alloc, &[1])),
    };
    Called {
        origin: CallOrigin::new(peer, &wire),
        wire,
    }
}

// A hall to which the ports 1 and 2 call, and which is to accept so many. The call 1 of it fails, and at the calls 0
// and 3 nobody comes. Its watch has a script.
fn hall(rt: &impl Abort, alloc: Global, most: u32) -> MemHall {
    let (first, second) = (call(rt, alloc, 1), call(rt, alloc, 2));
    let arrivals = vec![in alloc; first, second].expect(rt, "memory for connections");
    let script = vec![in alloc; Notice::Quiet, Notice::Late { place: 3 }];
    let script = script.expect(rt, "memory for notices");
    let scripts = vec![in alloc; script].expect(rt, "memory for a script");
    let (failing, pausing) = (listed(rt, alloc, &[1]), listed(rt, alloc, &[0, 3]));
    MemHall::new(alloc, arrivals, most, failing, pausing, scripts)
}

// What trying to accept answers; a connection by its port.
#[derive(Clone, Copy, Debug, PartialEq, Eq)]
enum Outcome {
    Came(u16),
    NotNow,
    Closed,
    Failed,
}

// Tries to accept, and closes what came.
fn accept(hall: &mut MemHall, closer: &mut HallCloser) -> Outcome {
    match hall.try_accept() {
        Ok(Coming::Came(call)) => {
            let port = call.origin.peer().port;
            <MemHall as Hall>::close(closer, call);
            Outcome::Came(port)
        }
        Ok(Coming::NotNow) => Outcome::NotNow,
        Ok(Coming::Closed) => Outcome::Closed,
        Err(Failed) => Outcome::Failed,
    }
}

// What seven tries answer, how many connections were accepted then, and how many the closer has closed that was taken
// in.
fn accept_seven(hall: &mut MemHall) -> ([Outcome; 7], u32, usize) {
    let mut closer = hall.closer();
    let mut outcomes = [Outcome::Failed; 7];
    for outcome in &mut outcomes {
        *outcome = accept(hall, &mut closer);
    }
    hall.take_in(closer);
    let closed = match hall.closers().first() {
        Some(closer) => closer.calls().len(),
        None => 0,
    };
    (outcomes, hall.accepted(), closed)
}

#[test]
fn hall_says_not_now(rt: HostRuntime) {
    let one = [
        Outcome::NotNow,
        Outcome::Failed,
        Outcome::Came(1),
        Outcome::Closed,
        Outcome::Closed,
        Outcome::Closed,
        Outcome::Closed,
    ];
    let came = accept_seven(&mut hall(&rt, rt.alloc(), 1));
    assert_same(&rt, &came, &(one, 1, 1), "one connection");
    // Where nobody is left, a further accept is a fault.
    let three = [
        Outcome::NotNow,
        Outcome::Failed,
        Outcome::Came(1),
        Outcome::NotNow,
        Outcome::Came(2),
        Outcome::Failed,
        Outcome::Failed,
    ];
    let came = accept_seven(&mut hall(&rt, rt.alloc(), 3));
    assert_same(&rt, &came, &(three, 2, 2), "three connections");
}

// What three reads answer, and then three writes and two flushes.
type Talked = (
    [Result<Option<usize>, Failed>; 6],
    [Result<bool, Failed>; 2],
);

fn talk(call: &mut HallCall) -> Talked {
    let wire = &mut call.wire;
    let mut buf = [0; 3];
    let tries = [
        wire.source.try_read(&mut buf),
        wire.source.try_read(&mut buf),
        wire.source.try_read(&mut buf),
        wire.sink.try_write(b"reply"),
        wire.sink.try_write(b"reply"),
        wire.sink.try_write(b"re"),
    ];
    (tries, [wire.sink.try_flush(), wire.sink.try_flush()])
}

#[test]
fn wires_that_go_on_at_some_calls(rt: HostRuntime) {
    let mut call = call(&rt, rt.alloc(), 1);
    let tries = [
        Ok(Some(3)),
        Ok(None),
        Ok(Some(1)),
        Ok(Some(5)),
        Ok(None),
        Ok(Some(2)),
    ];
    let came = talk(&mut call);
    assert_same(
        &rt,
        &came,
        &(tries, [Ok(true); 2]),
        "reads, writes and flushes",
    );
}

// What is told in turn, where two places are entered, and one leaves behind seven notices.
fn notices(rt: &impl Abort, alloc: Global, watch: &mut MemWatch) -> ([Notice; 7], [Notice; 3]) {
    for place in [5, 7] {
        let entered = watch.enter(place, &call(rt, alloc, 1).wire.source);
        assert_same(rt, &entered, &Ok(()), "a place");
    }
    let mut first = [Notice::Quiet; 7];
    for notice in &mut first {
        *notice = watch.next();
    }
    watch.awaits(7, Awaited::Rest, true);
    watch.again(7);
    watch.leave(5);
    (first, [watch.next(), watch.next(), watch.next()])
}

#[test]
fn watch_goes_round(rt: HostRuntime) {
    let mut hall = hall(&rt, rt.alloc(), 2);
    let mut watch = hall.watch(true).expect(&rt, "a watch");
    let (five, seven) = (Notice::Ready { place: 5 }, Notice::Ready { place: 7 });
    let late = Notice::Late { place: 3 };
    let first = [Notice::Quiet, late, five, seven, Notice::Door, five, seven];
    let came = notices(&rt, rt.alloc(), &mut watch);
    let wanted = (first, [Notice::Door, seven, Notice::Door]);
    assert_same(&rt, &came, &wanted, "notices");
    let fails = hall.watch(true).is_err();
    assert_same(&rt, &fails, &true, "the second call");
}
