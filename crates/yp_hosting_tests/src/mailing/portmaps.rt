//! `portmap`: calls and their replies, and what is told at the end.

use crate::given::try_rows;
use yp_io::Peer;
use yp_stage::{Datagram, FAIR, Row};

const WORDS: &[&str] = &["portmap", "7111", "3"];

const HERE: Peer = Peer {
    addr: [127, 0, 0, 1],
    port: 1_021,
};

const STRANGER: Peer = Peer {
    addr: [10, 0, 0, 9],
    port: 1_021,
};

/// SET of version 2 of program 100004 over TCP at port 834, and what it gets the first time and the second.
const SET: Datagram = Datagram {
    peer: HERE,
    bytes: &[
        "00000001 00000000 00000002 000186a0 00000002 00000001 00000000 00000000 00000000 00000000",
        "000186a4 00000002 00000006 00000342",
    ],
};

const TRUE: Datagram = Datagram {
    peer: HERE,
    bytes: &["00000001 00000001 00000000 00000000 00000000 00000000 00000001"],
};

const FALSE: Datagram = Datagram {
    peer: HERE,
    bytes: &["00000001 00000001 00000000 00000000 00000000 00000000 00000000"],
};

/// DUMP, and the list of that mapping.
const DUMP: Datagram = Datagram {
    peer: HERE,
    bytes: &[
        "00000002 00000000 00000002 000186a0 00000002 00000004 00000000 00000000 00000000 00000000",
    ],
};

const LIST: Datagram = Datagram {
    peer: HERE,
    bytes: &[
        "00000002 00000001 00000000 00000000 00000000 00000000",
        "00000001 000186a4 00000002 00000006 00000342 00000000",
    ],
};

const NO_LIST: Datagram = Datagram {
    peer: HERE,
    bytes: &["00000002 00000001 00000000 00000000 00000000 00000000 00000000"],
};

const SETS: &[Datagram] = &[SET, SET, DUMP];

const SET_TWICE: Row = Row {
    name: "set twice, and dumped",
    words: WORDS,
    brings: SETS,
    output: "100004 2 6 834\n",
    sends: &[TRUE, FALSE, LIST],
    turns: 3,
    ..FAIR
};

static ROWS: [Row; 4] = [
    SET_TWICE,
    Row {
        name: "no turn",
        words: &["portmap", "7111", "0"],
        output: "",
        sends: &[],
        turns: 0,
        ..SET_TWICE
    },
    Row {
        name: "set by a stranger",
        brings: &[
            Datagram {
                peer: STRANGER,
                ..SET
            },
            Datagram {
                peer: STRANGER,
                ..DUMP
            },
        ],
        output: "",
        sends: &[
            Datagram {
                peer: STRANGER,
                ..FALSE
            },
            Datagram {
                peer: STRANGER,
                ..NO_LIST
            },
        ],
        ..SET_TWICE
    },
    Row {
        name: "no call gets no reply, CALLIT is no procedure, and a set that is short is garbage",
        brings: &[
            Datagram {
                peer: HERE,
                bytes: &["00000001 00000001 00000002"],
            },
            Datagram {
                peer: HERE,
                bytes: &[
                    "00000003 00000000 00000002 000186a0 00000002 00000005 00000000 00000000 00000000 00000000",
                ],
            },
            Datagram {
                peer: HERE,
                bytes: &[
                    "00000004 00000000 00000002 000186a0 00000002 00000001 00000000 00000000 00000000 00000000",
                ],
            },
        ],
        output: "",
        sends: &[
            Datagram {
                peer: HERE,
                bytes: &["00000003 00000001 00000000 00000000 00000000 00000003"],
            },
            Datagram {
                peer: HERE,
                bytes: &["00000004 00000001 00000000 00000000 00000000 00000004"],
            },
        ],
        ..SET_TWICE
    },
];

/// Calls of the inbox, and of the output, that fail.
static FAULTS: [Row; 10] = [
    Row {
        name: "the first turn fails",
        inbox: 0,
        code: 22,
        output: "",
        note: "yp: inbox fault\n",
        sends: &[],
        turns: 0,
        ..SET_TWICE
    },
    Row {
        name: "the first reply fails",
        inbox: 1,
        code: 22,
        output: "",
        note: "yp: inbox fault\n",
        sends: &[],
        turns: 1,
        ..SET_TWICE
    },
    Row {
        name: "the second turn fails",
        inbox: 2,
        code: 22,
        output: "",
        note: "yp: inbox fault\n",
        sends: &[TRUE],
        turns: 1,
        ..SET_TWICE
    },
    Row {
        name: "the second reply fails",
        inbox: 3,
        code: 22,
        output: "",
        note: "yp: inbox fault\n",
        sends: &[TRUE],
        turns: 2,
        ..SET_TWICE
    },
    Row {
        name: "the last turn fails",
        inbox: 4,
        code: 22,
        output: "",
        note: "yp: inbox fault\n",
        sends: &[TRUE, FALSE],
        turns: 2,
        ..SET_TWICE
    },
    Row {
        name: "the last reply fails",
        inbox: 5,
        code: 22,
        output: "",
        note: "yp: inbox fault\n",
        sends: &[TRUE, FALSE],
        turns: 3,
        ..SET_TWICE
    },
    Row {
        name: "the output fails",
        writes: 0,
        code: 4,
        output: "",
        note: "yp: write fault\n",
        ..SET_TWICE
    },
    Row {
        name: "no note of a turn that fails",
        inbox: 0,
        notes: 0,
        code: 22,
        output: "",
        sends: &[],
        turns: 0,
        ..SET_TWICE
    },
    Row {
        name: "the output isn't flushed",
        writes: 1,
        code: 4,
        note: "yp: write fault\n",
        ..SET_TWICE
    },
    Row {
        name: "an output that fails isn't written without a mapping",
        brings: &[],
        writes: 0,
        output: "",
        sends: &[],
        ..SET_TWICE
    },
];

#[test]
fn portmap_over_memory(rt: HostRuntime) {
    try_rows(&rt, rt.alloc(), &ROWS);
}

#[test]
fn each_call_fails(rt: HostRuntime) {
    try_rows(&rt, rt.alloc(), &FAULTS);
}
