//! Callers of a hall of this machine, none of whom holds up another.

use crate::given::{assert_same, sent};
use crate::system::dial::{ANY, address_of, local};
use std::alloc::Global;
use std::io::{Read, Write};
use std::net::{Net, TcpListener, TcpStream};
use std::process::Abort;
use std::time::{Clock, Duration};
use yp_io::{Awaited, Coming, Failed, Hall, Notice, TrySink, TrySource, Watch};
use yp_system::{Limits, SocketCall, TcpHall, TcpWatch};

// Longer than a test takes.
fn long() -> Duration {
    Duration::from_secs(60)
}

fn patient() -> Limits {
    Limits {
        record: long(),
        rest: long(),
        payment: long(),
    }
}

// So many notices come at the most until what a test waits for has come.
const NOTICES: u32 = 5000;

// A listener at a free port, and the port.
fn listener<R: Net<Stream = TcpStream, Listener = TcpListener> + Abort>(
    rt: &R,
) -> (TcpListener, u16) {
    let listener = TcpListener::bind(rt, address_of(ANY)).expect(rt, "a port");
    let address = listener.local_addr().expect(rt, "an address");
    (listener, address.port())
}

// A worker alone: its hall, and its connections by their places.
#[derive(Drop)]
struct Worker<R> {
    rt: R,
    port: u16,
    hall: TcpHall<R>,
    watch: TcpWatch<R>,
    calls: Vec<SocketCall>,
}

impl<R: Net<Stream = TcpStream, Listener = TcpListener> + Clock + Copy + Drop + Abort> Worker<R> {
    // One whose hall accepts so many connections, at a free port.
    fn new(rt: R, alloc: Global, most: u64, limits: Limits) -> Worker<R> {
        let (_, port) = listener(&rt);
        let mut hall = TcpHall::with_limits(alloc, rt, port, most, limits);
        let watch = hall.watch(true).expect(&rt, "a watch");
        let calls = Vec::new(alloc);
        Worker {
            rt,
            port,
            hall,
            watch,
            calls,
        }
    }

    // Somebody calls, who waits for no answer for longer than a test takes.
    fn caller(&self) -> TcpStream {
        let stream = TcpStream::connect(&self.rt, address_of(local(self.port)));
        let stream = stream.expect(&self.rt, "a connection");
        let is_set = stream.set_read_timeout(Some(long())).is_ok();
        assert_same(&self.rt, &is_set, &true, "a limit");
        stream
    }

    // Tries to accept, and answers whether nobody comes any more.
    fn accept(&mut self) -> bool {
        match self.hall.try_accept() {
            Ok(Coming::Came(call)) => {
                let place = u32::try_from(self.calls.len()).unwrap_or(u32::MAX);
                let entered = self.watch.enter(place, &call.wire.source);
                let is_kept = self.calls.push(sent(call)).is_ok();
                assert_same(&self.rt, &(entered, is_kept), &(Ok(()), true), "a place");
                false
            }
            Ok(Coming::NotNow) | Err(Failed) => false,
            Ok(Coming::Closed) => true,
        }
    }

    // The next notice but for those of the door, at which it accepts.
    fn notice(&mut self) -> Notice {
        for _ in 0..NOTICES {
            match self.watch.next() {
                Notice::Door => {
                    self.accept();
                }
                notice => return notice,
            }
        }
        Notice::Door
    }

    // Lets in so many.
    fn let_in(&mut self, count: usize) {
        for _ in 0..NOTICES {
            if self.calls.len() >= count {
                return;
            }
            if self.watch.next() == Notice::Door {
                self.accept();
            }
        }
    }

    // The next read of a connection that doesn't say "not now": its place, and what it answers.
    fn read(&mut self, buf: &mut [u8; 8]) -> Option<(u32, Result<Option<usize>, Failed>)> {
        for _ in 0..NOTICES {
            if let Notice::Ready { place } = self.notice() {
                if let Some(call) = self.calls.get_mut(place as usize) {
                    let answer = call.wire.source.try_read(buf);
                    if answer != Ok(None) {
                        return Some((place, answer));
                    }
                }
            }
        }
        None
    }

    // The first that is told late.
    fn late(&mut self) -> Option<u32> {
        for _ in 0..NOTICES {
            if let Notice::Late { place } = self.notice() {
                return Some(place);
            }
        }
        None
    }

    // The port of the caller at a place.
    fn port_at(&self, place: u32) -> Option<u16> {
        Some(self.calls.get(place as usize)?.origin.peer().port)
    }
}

fn callers<R: Net<Stream = TcpStream, Listener = TcpListener> + Clock + Copy + Drop + Abort>(
    worker: &Worker<R>,
    alloc: Global,
    count: usize,
) -> Vec<TcpStream> {
    let mut callers = Vec::new(alloc);
    for _ in 0..count {
        callers
            .push(worker.caller())
            .expect(&worker.rt, "memory for callers");
    }
    callers
}

// What a worker reads of a caller who asks, whether its port is the caller's, and what the caller gets.
type Asked = (Result<Option<usize>, Failed>, [u8; 8], bool, [u8; 5]);

fn ask<R: Net<Stream = TcpStream, Listener = TcpListener> + Clock + Copy + Drop + Abort>(
    worker: &mut Worker<R>,
    caller: &mut TcpStream,
) -> Option<Asked> {
    caller.write_all(b"call").ok()?;
    let mut buf = [0; 8];
    let (place, answer) = worker.read(&mut buf)?;
    let is_its = worker.port_at(place) == Some(caller.local_addr().ok()?.port());
    let call = worker.calls.get_mut(place as usize)?;
    call.wire.sink.try_write(b"reply").ok()?;
    call.wire.sink.try_flush().ok()?;
    let mut got = [0; 5];
    caller.read_exact(&mut got).ok()?;
    Some((answer, buf, is_its, got))
}

#[test]
fn one_of_two_hundred_asks(rt: HostRuntime) {
    let mut worker = Worker::new(rt, rt.alloc(), 201, patient());
    let mut callers = callers(&worker, rt.alloc(), 200);
    worker.let_in(200);
    let came = match callers.get_mut(100) {
        Some(caller) => ask(&mut worker, caller),
        None => None,
    };
    let asked = (Ok(Some(4)), *b"call\0\0\0\0", true, *b"reply");
    assert_same(&rt, &came, &Some(asked), "a call among idle callers");
}

// Writes to the caller at a place until it takes no more, and answers how much it took.
fn fill<R: Net<Stream = TcpStream, Listener = TcpListener> + Clock + Copy + Drop + Abort>(
    worker: &mut Worker<R>,
    place: usize,
    piece: &[u8; 65_536],
) -> usize {
    let mut taken = 0usize;
    if let Some(call) = worker.calls.get_mut(place) {
        for _ in 0..NOTICES {
            match call.wire.sink.try_write(piece) {
                Ok(Some(count)) => taken = taken.saturating_add(count),
                _ => return taken,
            }
        }
    }
    taken
}

// Which of two connections is late, where this is awaited of the second again and again, and something else of the
// first. One that is to take a byte takes none any more.
fn late_of_two<R: Net<Stream = TcpStream, Listener = TcpListener> + Clock + Copy + Drop + Abort>(
    rt: R,
    alloc: Global,
    limits: Limits,
    other: Awaited,
    what: Awaited,
) -> Option<u32> {
    let mut worker = Worker::new(rt, alloc, 2, limits);
    let _callers = callers(&worker, alloc, 2);
    worker.let_in(2);
    for (place, awaited) in [(0, other), (1, what)] {
        if awaited == Awaited::Payment {
            fill(&mut worker, place, &[7; 65_536]);
        }
    }
    worker.watch.awaits(0, other, true);
    worker.watch.awaits(1, what, false);
    worker.watch.awaits(1, what, false);
    worker.late()
}

#[test]
fn callers_who_are_late(rt: HostRuntime) {
    let short = Duration::from_millis(50);
    let came = [
        late_of_two(
            rt,
            rt.alloc(),
            Limits {
                record: short,
                ..patient()
            },
            Awaited::Rest,
            Awaited::Record,
        ),
        late_of_two(
            rt,
            rt.alloc(),
            Limits {
                rest: short,
                ..patient()
            },
            Awaited::Payment,
            Awaited::Rest,
        ),
        late_of_two(
            rt,
            rt.alloc(),
            Limits {
                payment: short,
                ..patient()
            },
            Awaited::Record,
            Awaited::Payment,
        ),
    ];
    assert_same(&rt, &came, &[Some(1); 3], "idle, half a record, unread");
}

// A caller sends a half, and then the rest, and ends.
#[test]
fn half_a_record_and_an_end(rt: HostRuntime) {
    let mut worker = Worker::new(rt, rt.alloc(), 1, patient());
    let mut caller = worker.caller();
    let mut buf = [0; 8];
    let is_sent = caller.write_all(b"ha").is_ok();
    let half = worker.read(&mut buf);
    let is_sent = is_sent && caller.write_all(b"lf").is_ok();
    let rest = worker.read(&mut buf);
    drop(caller);
    let end = worker.read(&mut buf);
    let read = Some((0, Ok(Some(2))));
    let wanted = (true, read, read, Some((0, Ok(Some(0)))));
    assert_same(
        &rt,
        &(is_sent, half, rest, end),
        &wanted,
        "a half, the rest and the end",
    );
}

// A caller who ends with bytes unread resets its connection.
#[test]
fn caller_who_resets(rt: HostRuntime) {
    let mut worker = Worker::new(rt, rt.alloc(), 1, patient());
    let caller = worker.caller();
    worker.let_in(1);
    let written = match worker.calls.first_mut() {
        Some(call) => call.wire.sink.try_write(b"unread"),
        None => Ok(None),
    };
    let is_there = caller.peek(&mut [0; 1]).is_ok();
    drop(caller);
    let read = worker.read(&mut [0; 8]);
    let wanted = (Ok(Some(6)), true, Some((0, Err(Failed))));
    assert_same(&rt, &(written, is_there, read), &wanted, "a reset");
}

// Whether so many bytes can be read.
fn drain(caller: &mut TcpStream, piece: &mut [u8; 65_536], count: usize) -> bool {
    let mut left = count;
    for _ in 0..u32::MAX {
        if left == 0 {
            return true;
        }
        match caller.read(piece) {
            Ok(read) if read > 0 => left = left.saturating_sub(read),
            _ => return false,
        }
    }
    false
}

// What a write answers once the connection is told ready.
fn write_on<R: Net<Stream = TcpStream, Listener = TcpListener> + Clock + Copy + Drop + Abort>(
    worker: &mut Worker<R>,
) -> Result<Option<usize>, Failed> {
    for _ in 0..NOTICES {
        if let Notice::Ready { place: 0 } = worker.notice() {
            if let Some(call) = worker.calls.first_mut() {
                return call.wire.sink.try_write(b"more");
            }
        }
    }
    Ok(None)
}

#[test]
fn caller_who_does_not_read(rt: HostRuntime) {
    let mut worker = Worker::new(rt, rt.alloc(), 1, patient());
    let mut caller = worker.caller();
    let mut piece = [7; 65_536];
    // The first notice is that it has entered.
    worker.let_in(1);
    let is_told = worker.notice() == Notice::Ready { place: 0 };
    let taken = fill(&mut worker, 0, &piece);
    worker.watch.awaits(0, Awaited::Payment, true);
    let is_read = drain(&mut caller, &mut piece, taken);
    let came = (is_told, taken > 0, is_read, write_on(&mut worker));
    assert_same(
        &rt,
        &came,
        &(true, true, true, Ok(Some(4))),
        "an unread reply",
    );
}

// Two callers are let in, a third is not; then nothing happens, and the door is told once more.
#[test]
fn nobody_comes_any_more(rt: HostRuntime) {
    let mut worker = Worker::new(rt, rt.alloc(), 2, patient());
    let callers = callers(&worker, rt.alloc(), 3);
    worker.let_in(2);
    let is_closed = [worker.accept(), worker.accept()];
    let mut quiet = Notice::Door;
    for _ in 0..NOTICES {
        quiet = worker.notice();
        if quiet == Notice::Quiet {
            break;
        }
    }
    let came = (
        is_closed,
        quiet,
        worker.watch.next(),
        worker.accept(),
        callers.len(),
    );
    let wanted = ([true; 2], Notice::Quiet, Notice::Door, true, 3);
    assert_same(&rt, &came, &wanted, "the end of a hall");
}

// What two watches of one hall tell first, and once somebody has called; and what comes of trying to accept then.
#[test]
fn two_watches_of_one_door(rt: HostRuntime) {
    let mut worker = Worker::new(rt, rt.alloc(), 1, patient());
    let mut other = sent(worker.hall.watch(true).expect(&rt, "a watch"));
    let first = [worker.watch.next(), other.next()];
    let _caller = worker.caller();
    let then = [worker.watch.next(), other.next()];
    let is_closed = [worker.accept(), worker.accept()];
    let came = (first, then, is_closed, worker.calls.len());
    let wanted = ([Notice::Door; 2], [Notice::Door; 2], [false, true], 1);
    assert_same(&rt, &came, &wanted, "two watches");
}

// What is told of a connection that goes on by itself, and whether it is told once it has left, though a call comes.
#[test]
fn connection_that_goes_on_and_leaves(rt: HostRuntime) {
    let mut worker = Worker::new(rt, rt.alloc(), 1, patient());
    let mut caller = worker.caller();
    worker.let_in(1);
    let entered = worker.notice();
    worker.watch.again(0);
    let again = worker.notice();
    worker.watch.again(0);
    worker.watch.leave(0);
    let is_sent = caller.write_all(b"call").is_ok();
    let came = (entered, again, is_sent, worker.notice());
    let ready = Notice::Ready { place: 0 };
    let wanted = (ready, ready, true, Notice::Quiet);
    assert_same(&rt, &came, &wanted, "on and away");
}

#[test]
fn port_that_another_listens_at(rt: HostRuntime) {
    let (_other, port) = listener(&rt);
    let mut hall = sent(TcpHall::new(rt.alloc(), rt, port, 1));
    hall.open();
    let came = (hall.try_accept().is_err(), hall.watch(true).is_err());
    assert_same(&rt, &came, &(true, true), "no port");
}
