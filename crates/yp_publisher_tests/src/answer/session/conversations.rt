//! Conversations over wires in memory that say "not now", by schedules.

ghost use Rattle.std.specs.Prelude.{◌≡◌, ◌<◌, None, length, IfSome};
ghost use Rattle.yp_answer.specs.inside.session.Errands.{IsDue};

use crate::answer::lengths::{EIGHT_ROWS, items_between, version_with};
use crate::answer::session::host::TestHost;
use crate::answer::session::runs::{ALL_REPLY, LAST_FRAGMENT};
use crate::answer::session::sample::*;
use crate::answer::session::transfer::host;
use crate::given::assert_same;
use std::alloc::Global;
use std::process::Abort;
use yp_answer::session::{Advance, Buffers, Conversation, End, Terms};
use yp_io::Pair;
use yp_memory::{MemSink, MemSource, Scheduled};

type MemConversation = Conversation<Scheduled<MemSource>, Scheduled<MemSink>>;

// A wire: how many bytes a read gives at most, and a write takes, and which calls of its source and of its sink fail
// or say "not now", where each of these is a set of numbers under 64 by its bits.
#[derive(Drop)]
struct Course {
    read: usize,
    written: usize,
    failing_read: u64,
    failing_write: u64,
    idle_reads: u64,
    idle_writes: u64,
    most: u64,
    carries: bool,
}

const STEADY: Course = Course {
    read: 1000,
    written: 10,
    failing_read: NEVER,
    failing_write: NEVER,
    idle_reads: 0,
    idle_writes: 0,
    most: 9,
    carries: true,
};

// How a conversation ended, how many records it read, and what it wrote.
type Talked = (Advance, u64, Vec<u8>);

// The numbers of the bits of a set.
fn numbers(rt: &impl Abort, alloc: Global, set: u64) -> Vec<u64> {
    let mut numbers = Vec::new(alloc);
    for number in 0..64u32 {
        if set >> number & 1 == 1 {
            numbers.push(u64::from(number)).expect(rt, "a number");
        }
    }
    numbers
}

fn one(rt: &impl Abort, alloc: Global, number: u64) -> Vec<u64> {
    vec![in alloc; number].expect(rt, "a number")
}

fn conversation(rt: &impl Abort, alloc: Global, input: Vec<u8>, course: &Course) -> MemConversation
    requires { (0 < course.now.read) × (0 < course.now.written) }
    ensures { result.waiting ≡ None }
{
    let source = MemSource::new(input, course.read, one(rt, alloc, course.failing_read));
    let sink = MemSink::new(alloc, course.written, one(rt, alloc, course.failing_write));
    let wire = Pair {
        source: Scheduled::new(source, numbers(rt, alloc, course.idle_reads)),
        sink: Scheduled::new(sink, numbers(rt, alloc, course.idle_writes)),
    };
    Conversation::new(alloc, wire)
}

// Goes on until the conversation is over.
fn last(
    conversation: &mut MemConversation,
    host: &mut TestHost,
    buffers: &mut Buffers,
    terms: &Terms,
) -> Advance
    requires { IfSome conversation.old.waiting (IsDue (length host.old.board.catalogue.maps)) }
{
    for _ in 0..100_000u32 {
        match conversation.advance(host, buffers, terms, 3) {
            Advance::Moved | Advance::Waits => {}
            over => return over,
        }
    }
    Advance::Waits
}

// Has a conversation over a wire with this input.
fn talk(
    rt: &impl Abort,
    alloc: Global,
    host: &mut TestHost,
    buffers: &mut Buffers,
    input: Vec<u8>,
    course: &Course,
) -> Talked
    requires { (0 < course.now.read) × (0 < course.now.written) }
{
    let terms = Terms {
        peer: PEER,
        most: course.most,
        carries: course.carries,
    };
    let mut conversation = conversation(rt, alloc, input, course);
    let over = last(&mut conversation, host, buffers, &terms);
    let calls = conversation.calls();
    let wire = conversation.into_wire();
    let output = Vec::from_slice(alloc, wire.sink.wire.taken()).expect(rt, "bytes");
    (over, calls, output)
}

// A wire, and what comes of a conversation over it.
#[derive(Drop)]
struct Ending {
    name: &'static str,
    input: &'static str,
    course: Course,
    over: Advance,
    calls: u64,
    output: &'static str,
}

const CLEAN: Ending = Ending {
    name: "three records",
    input: "NULL NONACK DOMAIN",
    course: STEADY,
    over: Advance::Ended(End::Clean),
    calls: 3,
    output: "NULL_REPLY DOMAIN_REPLY",
};

const TWO: Ending = Ending {
    input: "NULL DOMAIN",
    calls: 2,
    ..CLEAN
};

static ENDINGS: [Ending; 9] = [
    CLEAN,
    Ending {
        name: "a torn head",
        input: "NULL 800000",
        over: Advance::Ended(End::Torn { at: 44 }),
        calls: 1,
        output: "NULL_REPLY",
        ..CLEAN
    },
    Ending {
        name: "a torn body",
        input: "80000028 0000",
        over: Advance::Ended(End::Torn { at: 0 }),
        calls: 0,
        output: "",
        ..CLEAN
    },
    Ending {
        name: "a record that is too long",
        input: "NULL 80040001 6162",
        over: Advance::Ended(End::TooLong { at: 44 }),
        calls: 1,
        output: "NULL_REPLY",
        ..CLEAN
    },
    Ending {
        name: "nothing is read",
        course: Course {
            failing_read: 0,
            ..STEADY
        },
        over: Advance::Ended(End::ReadFault),
        calls: 0,
        output: "",
        ..CLEAN
    },
    Ending {
        name: "the end isn't read",
        course: Course {
            failing_read: 1,
            ..STEADY
        },
        over: Advance::Ended(End::ReadFault),
        ..TWO
    },
    // Both replies are owed together, and go out by ten bytes.
    Ending {
        name: "the second write fails",
        course: Course {
            failing_write: 1,
            ..STEADY
        },
        over: Advance::Ended(End::WriteFault),
        output: "80000018 00000001 0000",
        ..TWO
    },
    Ending {
        name: "fewer records than there are",
        course: Course { most: 1, ..STEADY },
        over: Advance::Ended(End::Enough),
        calls: 1,
        output: "NULL_REPLY",
        ..CLEAN
    },
    Ending {
        name: "no record is to be read",
        course: Course { most: 0, ..STEADY },
        over: Advance::Ended(End::Enough),
        calls: 0,
        output: "",
        ..CLEAN
    },
];

static LEFT: [Ending; 3] = [
    Ending {
        name: "a transfer that is left to another",
        input: "FIRST_XFR DOMAIN",
        course: Course {
            carries: false,
            ..STEADY
        },
        over: Advance::TakesLong,
        calls: 1,
        output: "FIRST_XFR_REPLY",
        ..CLEAN
    },
    Ending {
        name: "a MAKE that is left to another",
        input: "NULL DOMAIN MAKE 00000001 NULL",
        course: Course {
            carries: false,
            ..STEADY
        },
        over: Advance::TakesLong,
        calls: 2,
        output: "NULL_REPLY DOMAIN_REPLY",
        ..CLEAN
    },
    Ending {
        name: "a MAKE by name that is left to another",
        input: "NULL DOMAIN MAKE_M NULL",
        course: Course {
            carries: false,
            ..STEADY
        },
        over: Advance::TakesLong,
        calls: 2,
        output: "NULL_REPLY DOMAIN_REPLY",
        ..CLEAN
    },
];

fn try_ending(
    rt: &impl Abort,
    alloc: Global,
    host: &mut TestHost,
    buffers: &mut Buffers,
    row: &Ending,
)
    requires { (0 < row.now.course.read) × (0 < row.now.course.written) }
{
    let input = words(rt, alloc, row.input);
    let output = words(rt, alloc, row.output);
    let came = talk(rt, alloc, host, buffers, input, &row.course);
    assert_same(rt, &came, &(row.over, row.calls, output), row.name);
}

#[test]
fn conversations_end(rt: HostRuntime) {
    let alloc = rt.alloc();
    let mut host = host(&rt, rt, alloc);
    let mut buffers = Buffers::new(alloc).expect(&rt, "buffers");
    for row in &ENDINGS {
        try_ending(&rt, alloc, &mut host, &mut buffers, row);
    }
}

#[test]
fn conversations_are_left(rt: HostRuntime) {
    let alloc = rt.alloc();
    let mut host = host(&rt, rt, alloc);
    let mut buffers = Buffers::new(alloc).expect(&rt, "buffers");
    for row in &LEFT {
        try_ending(&rt, alloc, &mut host, &mut buffers, row);
    }
}

// Three records over a wire whose first calls say "not now" where these two sets say so.
fn try_schedule(
    rt: &impl Abort,
    alloc: Global,
    host: &mut TestHost,
    buffers: &mut Buffers,
    idle_reads: u64,
    idle_writes: u64,
) {
    let row = Ending {
        name: "a schedule",
        input: "NULL FIRST_XFR DOMAIN",
        course: Course {
            read: 70,
            idle_reads,
            idle_writes,
            ..STEADY
        },
        output: "NULL_REPLY FIRST_XFR_REPLY DOMAIN_REPLY",
        ..CLEAN
    };
    try_ending(rt, alloc, host, buffers, &row);
}

#[test]
fn every_schedule(rt: HostRuntime) {
    let alloc = rt.alloc();
    let mut host = host(&rt, rt, alloc);
    let mut buffers = Buffers::new(alloc).expect(&rt, "buffers");
    for set in 0..2048u64 {
        try_schedule(&rt, alloc, &mut host, &mut buffers, set % 16, set / 16);
    }
    assert_same(&rt, &host.transfers, &2048, "transfers");
}

// A reply of two fragments by pieces, and one behind it, over a wire whose calls say "not now" where this set says so.
fn try_stream(
    rt: &impl Abort,
    alloc: Global,
    host: &mut TestHost,
    buffers: &mut Buffers,
    idle_writes: u64,
) {
    let input = words(rt, alloc, "ALL NULL");
    let mut output = items_between(rt, alloc, ALL_REPLY, &EIGHT_ROWS, LAST_FRAGMENT);
    output
        .extend_from_slice(&words(rt, alloc, "NULL_REPLY"))
        .expect(rt, "bytes");
    let course = Course {
        written: 3000,
        idle_writes,
        ..STEADY
    };
    let came = talk(rt, alloc, host, buffers, input, &course);
    let wanted = (Advance::Ended(End::Clean), 2, output);
    assert_same(rt, &came, &wanted, "ALL");
}

#[test]
fn streams_by_schedule(rt: HostRuntime) {
    let alloc = rt.alloc();
    let mut host = host_with(&rt, rt, alloc, version_with(&rt, alloc, &EIGHT_ROWS));
    let mut buffers = Buffers::new(alloc).expect(&rt, "buffers");
    for set in 0..64u64 {
        try_stream(&rt, alloc, &mut host, &mut buffers, set);
    }
}
