//! `getport`: the calls, the answer, and what isn't one.

use crate::given::try_rows;
use yp_io::Peer;
use yp_stage::{Datagram, FAIR, QUIET, Row};

const WORDS: &[&str] = &["getport", "7112", "2", "127.0.0.1:7111", "100004", "2", "6"];

const MAPPER: Peer = Peer {
    addr: [127, 0, 0, 1],
    port: 7_111,
};

/// Another port of the same host.
const OTHER: Peer = Peer {
    addr: [127, 0, 0, 1],
    port: 7_113,
};

/// The call of GETPORT for version 2 of program 100004 over TCP.
const CALL: Datagram = Datagram {
    peer: MAPPER,
    bytes: &[
        "00000001 00000000 00000002 000186a0 00000002 00000003 00000000 00000000 00000000 00000000",
        "000186a4 00000002 00000006 00000000",
    ],
};

const ANSWER: Datagram = Datagram {
    peer: MAPPER,
    bytes: &["00000001 00000001 00000000 00000000 00000000 00000000 00000342"],
};

/// The answer to a call with another number, and a call.
const OTHER_ANSWER: Datagram = Datagram {
    peer: MAPPER,
    bytes: &["00000002 00000001 00000000 00000000 00000000 00000000 00000342"],
};

const ANOTHER_CALL: Datagram = Datagram {
    peer: MAPPER,
    bytes: &["00000001 00000000 00000000 00000000 00000000 00000000 00000342"],
};

const SILENT: Row = Row {
    name: "two quiet turns",
    words: WORDS,
    code: 24,
    note: "yp: unanswered after 2 turns\n",
    sends: &[CALL, CALL],
    turns: 2,
    ..FAIR
};

const FOUND: Row = Row {
    name: "answered at once",
    brings: &[ANSWER],
    code: 0,
    output: "port 834\n",
    note: "",
    sends: &[CALL],
    turns: 1,
    ..SILENT
};

static ROWS: [Row; 10] = [
    SILENT,
    FOUND,
    Row {
        name: "answered at the last turn",
        brings: &[QUIET, ANSWER],
        sends: &[CALL, CALL],
        turns: 2,
        ..FOUND
    },
    Row {
        name: "no port",
        brings: &[Datagram {
            peer: MAPPER,
            bytes: &["00000001 00000001 00000000 00000000 00000000 00000000 00000000"],
        }],
        code: 1,
        output: "port 0\n",
        ..FOUND
    },
    Row {
        name: "no turn",
        words: &["getport", "7112", "0", "127.0.0.1:7111", "100004", "2", "6"],
        note: "yp: unanswered after 0 turns\n",
        sends: &[],
        turns: 0,
        ..SILENT
    },
    Row {
        name: "other mail isn't asked after, and isn't an answer",
        brings: &[
            Datagram {
                peer: OTHER,
                ..ANSWER
            },
            OTHER_ANSWER,
        ],
        sends: &[CALL],
        ..SILENT
    },
    Row {
        name: "neither a call nor a part of an answer is one",
        brings: &[
            ANOTHER_CALL,
            Datagram {
                peer: MAPPER,
                bytes: &["00000001 000000"],
            },
        ],
        sends: &[CALL],
        ..SILENT
    },
    Row {
        name: "an answer without its port",
        brings: &[Datagram {
            peer: MAPPER,
            bytes: &["00000001 00000001 00000000 00000000 00000000 00000000"],
        }],
        code: 13,
        output: "",
        note: "yp: bad reply at 24\n",
        ..FOUND
    },
    Row {
        name: "two words alone",
        brings: &[Datagram {
            peer: MAPPER,
            bytes: &["00000001 00000001"],
        }],
        code: 13,
        output: "",
        note: "yp: bad reply at 8\n",
        ..FOUND
    },
    Row {
        name: "refused by rpc",
        brings: &[Datagram {
            peer: MAPPER,
            bytes: &["00000001 00000001 00000000 00000000 00000000 00000001"],
        }],
        code: 12,
        output: "",
        note: "yp: refused by rpc\n",
        ..FOUND
    },
];

/// Calls of the inbox, and of the output, that fail.
static FAULTS: [Row; 7] = [
    Row {
        name: "the call fails",
        inbox: 0,
        code: 22,
        note: "yp: inbox fault\n",
        sends: &[],
        turns: 0,
        ..SILENT
    },
    Row {
        name: "the turn fails",
        inbox: 1,
        code: 22,
        note: "yp: inbox fault\n",
        sends: &[CALL],
        turns: 0,
        ..SILENT
    },
    Row {
        name: "the second call fails",
        inbox: 2,
        code: 22,
        note: "yp: inbox fault\n",
        sends: &[CALL],
        turns: 1,
        ..SILENT
    },
    Row {
        name: "the second turn fails",
        inbox: 3,
        code: 22,
        note: "yp: inbox fault\n",
        turns: 1,
        ..SILENT
    },
    Row {
        name: "the output fails",
        writes: 0,
        code: 4,
        output: "",
        note: "yp: write fault\n",
        ..FOUND
    },
    Row {
        name: "no note of a call that fails",
        inbox: 0,
        notes: 0,
        code: 22,
        note: "",
        sends: &[],
        turns: 0,
        ..SILENT
    },
    Row {
        name: "the output isn't flushed",
        writes: 1,
        code: 4,
        note: "yp: write fault\n",
        ..FOUND
    },
];

#[test]
fn getport_over_memory(rt: HostRuntime) {
    try_rows(&rt, rt.alloc(), &ROWS);
}

#[test]
fn each_call_fails(rt: HostRuntime) {
    try_rows(&rt, rt.alloc(), &FAULTS);
}
