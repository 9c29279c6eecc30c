//! Halls in memory, and what is taken of their connections.

ghost use Rattle.std.specs.Prelude.{IfSome};
ghost use Rattle.yp_memory.specs.inside.MemHall.{EntryIsNew};

use std::alloc::Global;
use yp_for_tests::named;
use yp_io::{CallOrigin, Called, Notice, Pair, Peer};
use yp_memory::{HallCall, HallCloser, MemHall, MemSink, MemSource, Scheduled};

/// What a caller sends, and which of the first 64 reads of it and which of the first 64 writes to it say "not now":
/// two sets of numbers by their bits. A flush is a write, too.
pub type Caller = (&'static str, u64, u64);

/// What happens at a hall: who calls in turn, the first from port 1, the next from port 2, and so on, how many are to
/// be accepted, the call of the hall that fails, and those that say "not now", as bits. Then what its watch tells
/// first.
#[derive(Clone, Copy)]
pub struct Visit<'v> {
    pub callers: &'v [Caller],
    pub most: u32,
    pub failing: u64,
    pub pausing: u64,
    pub script: &'v [Notice],
}

/// The numbers of the bits of a set.
fn numbers(alloc: Global, set: u64) -> Option<Vec<u64>> {
    let mut numbers = Vec::new(alloc);
    for number in 0..64u32 {
        if set >> number & 1 == 1 {
            numbers.push(u64::from(number)).ok()?;
        }
    }
    Some(numbers)
}

/// A connection from this port of the own host. Its source gives at most 40 bytes in a read, so that no two records are
/// whole at once, and its sink takes at most 30 in a write.
fn call(alloc: Global, names: &str, port: u16, caller: &Caller) -> Option<HallCall>
    ensures { IfSome result EntryIsNew }
{
    let (input, idle_reads, idle_writes) = *caller;
    let input = named(alloc, names, input)?;
    let idle_reads = numbers(alloc, idle_reads)?;
    let idle_writes = numbers(alloc, idle_writes)?;
    let wire = Pair {
        source: Scheduled::new(MemSource::new(input, 40, Vec::new(alloc)), idle_reads),
        sink: Scheduled::new(MemSink::new(alloc, 30, Vec::new(alloc)), idle_writes),
    };
    let peer = Peer {
        addr: [127, 0, 0, 1],
        port,
    };
    Some(Called {
        origin: CallOrigin::new(peer, &wire),
        wire,
    })
}

/// A hall, where what callers send is spelled by these names of words.
pub fn hall(alloc: Global, names: &str, visit: &Visit<'_>) -> Option<MemHall> {
    let failing = vec![in alloc; visit.failing].ok()?;
    let pausing = numbers(alloc, visit.pausing)?;
    let script = Vec::from_slice(alloc, visit.script).ok()?;
    let scripts = vec![in alloc; script].ok()?;
    let mut arrivals = Vec::new(alloc);
    let mut port: u16 = 0;
    for caller in visit.callers {
        port = port.saturating_add(1);
        let call = call(alloc, names, port, caller)?;
        arrivals.push(call).ok()?;
    }
    Some(MemHall::new(alloc, arrivals, visit.most, failing, pausing, scripts))
}

/// The port of a connection that was closed, and what it had taken.
pub type Closed = (u16, Vec<u8>);

/// Adds what the connections had taken that this closer has closed.
fn add_closed(alloc: Global, closer: &HallCloser, all: &mut Vec<Closed>) -> Option<()> {
    for call in closer.calls() {
        let taken = Vec::from_slice(alloc, call.wire.sink.wire.taken()).ok()?;
        all.push((call.origin.peer().port, taken)).ok()?;
    }
    Some(())
}

/// What the connections that were closed had taken, by the worker that closed them, and of each in their order.
pub fn closed(alloc: Global, listen: &MemHall) -> Option<Vec<Closed>> {
    let mut all = Vec::new(alloc);
    for closer in listen.closers() {
        add_closed(alloc, closer, &mut all)?;
    }
    Some(all)
}

/// Adds what the connection from this port had taken.
fn add_taken(closed: &[Closed], port: u16, all: &mut Vec<u8>) -> Option<()> {
    for (from, taken) in closed {
        if *from == port {
            all.extend_from_slice(taken).ok()?;
        }
    }
    Some(())
}

/// What the connections that were closed had taken, in the order in which they came.
pub fn taken(alloc: Global, listen: &MemHall) -> Option<Vec<u8>> {
    let closed = closed(alloc, listen)?;
    let mut all = Vec::new(alloc);
    for port in 1..10 {
        add_taken(&closed, port, &mut all)?;
    }
    Some(all)
}
