//! `setport` and `unsetport`: the calls, the answer, and what isn't one.

use crate::given::try_rows;
use yp_io::Peer;
use yp_stage::{Datagram, FAIR, QUIET, Row};

const SETS: &[&str] = &[
    "setport",
    "1000",
    "2",
    "127.0.0.1:111",
    "100004",
    "2",
    "17",
    "834",
];

const UNSETS: &[&str] = &["unsetport", "1000", "2", "127.0.0.1:111", "100004", "2"];

const MAPPER: Peer = Peer {
    addr: [127, 0, 0, 1],
    port: 111,
};

/// SET of version 2 of program 100004 over UDP at port 834.
const SET: Datagram = Datagram {
    peer: MAPPER,
    bytes: &[
        "00000001 00000000 00000002 000186a0 00000002 00000001 00000000 00000000 00000000 00000000",
        "000186a4 00000002 00000011 00000342",
    ],
};

/// UNSET of version 2 of program 100004.
const UNSET: Datagram = Datagram {
    peer: MAPPER,
    bytes: &[
        "00000001 00000000 00000002 000186a0 00000002 00000002 00000000 00000000 00000000 00000000",
        "000186a4 00000002 00000000 00000000",
    ],
};

const TRUE: Datagram = Datagram {
    peer: MAPPER,
    bytes: &["00000001 00000001 00000000 00000000 00000000 00000000 00000001"],
};

const FALSE: Datagram = Datagram {
    peer: MAPPER,
    bytes: &["00000001 00000001 00000000 00000000 00000000 00000000 00000000"],
};

/// A truth value that is neither.
const TWO: Datagram = Datagram {
    peer: MAPPER,
    bytes: &["00000001 00000001 00000000 00000000 00000000 00000000 00000002"],
};

/// The answer of a machine that isn't the port mapper's.
const OTHER: Datagram = Datagram {
    peer: Peer {
        addr: [127, 0, 0, 2],
        port: 111,
    },
    ..TRUE
};

/// No such procedure, and a version that isn't answered.
const UNAVAILABLE: Datagram = Datagram {
    peer: MAPPER,
    bytes: &["00000001 00000001 00000000 00000000 00000000 00000003"],
};

const MISMATCH: Datagram = Datagram {
    peer: MAPPER,
    bytes: &["00000001 00000001 00000000 00000000 00000000 00000002 00000003 00000004"],
};

const SET_DONE: Row = Row {
    name: "set at once",
    words: SETS,
    brings: &[TRUE],
    output: "set\n",
    sends: &[SET],
    turns: 1,
    ..FAIR
};

const UNSET_DONE: Row = Row {
    name: "unset at once",
    words: UNSETS,
    output: "unset\n",
    sends: &[UNSET],
    ..SET_DONE
};

static ROWS: [Row; 12] = [
    SET_DONE,
    UNSET_DONE,
    Row {
        name: "not set",
        brings: &[FALSE],
        code: 1,
        output: "refused\n",
        ..SET_DONE
    },
    Row {
        name: "not unset",
        brings: &[FALSE],
        code: 1,
        output: "refused\n",
        ..UNSET_DONE
    },
    Row {
        name: "set behind a quiet turn",
        brings: &[QUIET, TRUE],
        sends: &[SET, SET],
        turns: 2,
        ..SET_DONE
    },
    Row {
        name: "unset behind a quiet turn",
        brings: &[QUIET, TRUE],
        sends: &[UNSET, UNSET],
        turns: 2,
        ..UNSET_DONE
    },
    Row {
        name: "the answer of another isn't one, and nothing is asked again behind it",
        brings: &[OTHER, FALSE],
        code: 1,
        output: "refused\n",
        turns: 2,
        ..SET_DONE
    },
    Row {
        name: "nobody answers",
        brings: &[],
        code: 24,
        output: "",
        note: "yp: unanswered after 2 turns\n",
        sends: &[SET, SET],
        turns: 2,
        ..SET_DONE
    },
    Row {
        name: "neither true nor false",
        brings: &[TWO],
        code: 13,
        output: "",
        note: "yp: bad reply at 24\n",
        ..SET_DONE
    },
    Row {
        name: "not unset, and neither true nor false",
        brings: &[TWO],
        code: 13,
        output: "",
        note: "yp: bad reply at 24\n",
        ..UNSET_DONE
    },
    Row {
        name: "no such procedure",
        brings: &[UNAVAILABLE],
        code: 12,
        output: "",
        note: "yp: refused by rpc\n",
        ..SET_DONE
    },
    Row {
        name: "no such version",
        brings: &[MISMATCH],
        code: 12,
        output: "",
        note: "yp: refused by rpc\n",
        ..UNSET_DONE
    },
];

/// Calls of the inbox, and of the output, that fail.
static FAULTS: [Row; 5] = [
    Row {
        name: "the call fails",
        inbox: 0,
        code: 22,
        output: "",
        note: "yp: inbox fault\n",
        sends: &[],
        turns: 0,
        ..SET_DONE
    },
    Row {
        name: "the turn fails",
        inbox: 1,
        code: 22,
        output: "",
        note: "yp: inbox fault\n",
        turns: 0,
        ..UNSET_DONE
    },
    Row {
        name: "the output fails",
        writes: 0,
        code: 4,
        output: "",
        note: "yp: write fault\n",
        ..SET_DONE
    },
    Row {
        name: "the output of a refusal fails",
        brings: &[FALSE],
        writes: 0,
        code: 4,
        output: "",
        note: "yp: write fault\n",
        ..UNSET_DONE
    },
    Row {
        name: "the output isn't flushed",
        writes: 1,
        code: 4,
        note: "yp: write fault\n",
        ..UNSET_DONE
    },
];

#[test]
fn setport_over_memory(rt: HostRuntime) {
    try_rows(&rt, rt.alloc(), &ROWS);
}

#[test]
fn each_call_fails(rt: HostRuntime) {
    try_rows(&rt, rt.alloc(), &FAULTS);
}
