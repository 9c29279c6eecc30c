//! Wires written out by hand, from RFC 5531 sections 9 and 11 and yp.x.

use crate::answer::lengths::{EIGHT_ROWS, Item, items_between, version_with};
use crate::answer::sample::version;
use crate::answer::session::host::TestHost;
use crate::answer::session::sample::*;
use crate::given::assert_same;
use std::alloc::Global;
use std::process::Abort;
use std::random::RandomSource;
use yp_answer::session::*;
use yp_memory::MemWire;

const CLEAN: Row = Row {
    name: "three records",
    input: "NULL NONACK DOMAIN",
    calls: 3,
    output: "NULL_REPLY DOMAIN_REPLY",
    ..EMPTY
};

static ROWS: [Row; 14] = [
    CLEAN,
    EMPTY,
    Row {
        name: "a torn head",
        input: "NULL NONACK DOMAIN 800000",
        end: End::Torn { at: 148 },
        ..CLEAN
    },
    Row {
        name: "a torn body",
        input: "80000028 0000",
        end: End::Torn { at: 0 },
        calls: 0,
        output: "",
        ..CLEAN
    },
    Row {
        name: "a record that is too long",
        input: "NULL 80040001 6162",
        end: End::TooLong { at: 44 },
        calls: 1,
        left: 2,
        output: "NULL_REPLY",
        ..CLEAN
    },
    // A head is a call of the source, and so is a body. The three records have 44, 52 and 52 bytes.
    Row {
        name: "the first head isn't read",
        bounds: Bounds {
            read: 0,
            ..UNBOUNDED
        },
        end: End::ReadFault,
        calls: 0,
        left: 148,
        output: "",
        ..CLEAN
    },
    Row {
        name: "the second head isn't read",
        bounds: Bounds {
            read: 2,
            ..UNBOUNDED
        },
        end: End::ReadFault,
        calls: 1,
        left: 104,
        output: "NULL_REPLY",
        ..CLEAN
    },
    Row {
        name: "the third body isn't read",
        bounds: Bounds {
            read: 5,
            ..UNBOUNDED
        },
        end: End::ReadFault,
        calls: 2,
        left: 48,
        output: "NULL_REPLY",
        ..CLEAN
    },
    // A reply of 28 bytes is three writes and a flush, one of 32 is four and a flush.
    Row {
        name: "the second write fails",
        bounds: Bounds {
            write: 1,
            ..UNBOUNDED
        },
        end: End::WriteFault,
        calls: 1,
        left: 104,
        output: "80000018 00000001 0000",
        ..CLEAN
    },
    Row {
        name: "the flush fails",
        bounds: Bounds {
            write: 3,
            ..UNBOUNDED
        },
        end: End::WriteFault,
        calls: 1,
        left: 104,
        output: "NULL_REPLY",
        ..CLEAN
    },
    Row {
        name: "the third write of the second reply fails",
        bounds: Bounds {
            write: 6,
            ..UNBOUNDED
        },
        end: End::WriteFault,
        output: "NULL_REPLY 8000001c 00000002 00000001 00000000 00000000",
        ..CLEAN
    },
    Row {
        name: "as many records as there are",
        bounds: Bounds {
            most: 3,
            ..UNBOUNDED
        },
        end: End::Enough,
        ..CLEAN
    },
    Row {
        name: "fewer records",
        bounds: Bounds {
            most: 1,
            ..UNBOUNDED
        },
        end: End::Enough,
        calls: 1,
        left: 104,
        output: "NULL_REPLY",
        ..CLEAN
    },
    Row {
        name: "no record is to be read",
        bounds: Bounds {
            most: 0,
            ..UNBOUNDED
        },
        end: End::Enough,
        calls: 0,
        left: 148,
        output: "",
        ..CLEAN
    },
];

// A host of the map `m`, which has no rows.
fn bare_host<R: RandomSource + Abort>(rt: &R, runtime: HostRuntime, alloc: Global) -> TestHost {
    host_with(rt, runtime, alloc, version(rt, alloc, &[]))
}

#[test]
fn ends(rt: HostRuntime) {
    let host = bare_host(&rt, rt, rt.alloc());
    try_rows(&rt, rt.alloc(), host, &ROWS);
}

// What comes of a step, and how many records and bytes of replies there are then.
type Stepped = (Step, u64, usize);

fn step(session: &mut Session, host: &mut TestHost, wire: &mut MemWire) -> Stepped {
    let step = session.step(wire, host, PEER);
    (step, session.calls(), wire.sink.taken().len())
}

// The steps over a wire of three records and a torn one.
static STEPS: [Stepped; 4] = [
    (Step::Answered, 1, 28),
    (Step::Answered, 2, 28),
    (Step::Answered, 3, 60),
    (Step::Ended(End::Torn { at: 148 }), 3, 60),
];

// Steps, and one behind a new beginning.
fn try_steps(rt: &impl Abort, session: &mut Session, host: &mut TestHost, wire: &mut MemWire) {
    assert_same(rt, &session.calls(), &0, "a new session");
    for wanted in &STEPS {
        assert_same(rt, &step(session, host, wire), wanted, "a step");
    }
    session.begin();
    assert_same(rt, &session.calls(), &0, "a session that is begun anew");
    let came = session.step(wire, host, PEER);
    assert_same(rt, &came, &Step::Ended(End::Clean), "begun anew");
}

#[test]
fn step_by_step(rt: HostRuntime) {
    let alloc = rt.alloc();
    let input = words(&rt, alloc, "NULL NONACK DOMAIN 800000");
    let mut session = Session::new(alloc).expect(&rt, "a session");
    let mut wire = wire(&rt, alloc, input, NEVER, NEVER);
    let mut host = bare_host(&rt, rt, alloc);
    try_steps(&rt, &mut session, &mut host, &mut wire);
}

// Runs a session over a wire with this input, where these are the rows.
fn run_over<R: RandomSource + Abort>(
    rt: &R,
    runtime: HostRuntime,
    alloc: Global,
    items: &[Item],
    input: Vec<u8>,
) -> Came {
    let mut session = Session::new(alloc).expect(rt, "a session");
    let mut host = host_with(rt, runtime, alloc, version_with(rt, alloc, items));
    let incoming = Incoming {
        peer: PEER,
        input,
        bounds: &UNBOUNDED,
    };
    run(rt, alloc, &mut session, &mut host, incoming)
}

// The head of a reply to `ALL` whose first fragment has 8,192 bytes, and the second fragment, behind its items.
pub const ALL_REPLY: &str = "00002000 00000004 00000001 00000000 00000000 00000000 00000000";

pub const LAST_FRAGMENT: &str = "80000004 00000000";

#[test]
fn all_in_two_fragments(rt: HostRuntime) {
    let alloc = rt.alloc();
    let input = words(&rt, alloc, "ALL");
    let output = items_between(&rt, alloc, ALL_REPLY, &EIGHT_ROWS, LAST_FRAGMENT);
    let len = output.len();
    let came = run_over(&rt, rt, alloc, &EIGHT_ROWS, input);
    let wanted = (End::Clean, 1, 0, output);
    assert_same(&rt, &(len, came), &(4 + 8_192 + 4 + 4, wanted), "ALL");
}

// Nothing of the wire before is left in the session.
const SECOND_WIRE: Row = Row {
    name: "the second wire",
    input: "DOMAIN 80",
    end: End::Torn { at: 52 },
    calls: 1,
    output: "DOMAIN_REPLY",
    ..EMPTY
};

static TWO_WIRES: [Row; 4] = [
    Row {
        name: "a torn wire",
        input: "NULL DOMAIN 80",
        end: End::Torn { at: 96 },
        calls: 2,
        output: "NULL_REPLY DOMAIN_REPLY",
        ..EMPTY
    },
    SECOND_WIRE,
    Row {
        name: "a failed write",
        input: "NULL DOMAIN 80",
        bounds: Bounds {
            write: 6,
            ..UNBOUNDED
        },
        end: End::WriteFault,
        calls: 2,
        left: 1,
        output: "NULL_REPLY 8000001c 00000002 00000001 00000000 00000000",
        ..EMPTY
    },
    SECOND_WIRE,
];

#[test]
fn two_wires(rt: HostRuntime) {
    let host = bare_host(&rt, rt, rt.alloc());
    try_rows(&rt, rt.alloc(), host, &TWO_WIRES);
}
