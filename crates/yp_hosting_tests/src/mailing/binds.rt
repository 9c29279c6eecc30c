//! `bind`: the pings of its rounds, offers, questions, and what is told at the end.

use crate::given::try_rows;
use yp_io::Peer;
use yp_stage::{Datagram, FAIR, QUIET, Row};

const WORDS: &[&str] = &["bind", "7100", "fixed", "2", "lab", "z1@10.0.0.2:834"];

const SERVER: Peer = Peer {
    addr: [10, 0, 0, 2],
    port: 834,
};

const CALLER: Peer = Peer {
    addr: [10, 0, 0, 9],
    port: 1_000,
};

/// The first ping and the second.
const PING: Datagram = Datagram {
    peer: SERVER,
    bytes: &[
        "00000001 00000000 00000002 000186a4 00000002 00000002 00000000 00000000 00000000 00000000",
        "00000003 6c616200",
    ],
};

const SECOND_PING: Datagram = Datagram {
    peer: SERVER,
    bytes: &[
        "00000002 00000000 00000002 000186a4 00000002 00000002 00000000 00000000 00000000 00000000",
        "00000003 6c616200",
    ],
};

const OFFER: Datagram = Datagram {
    peer: SERVER,
    bytes: &["00000001 00000001 00000000 00000000 00000000 00000000 00000001"],
};

const NO_OFFER: Datagram = Datagram {
    peer: SERVER,
    bytes: &["00000001 00000001 00000000 00000000 00000000 00000000 00000000"],
};

/// DOMAIN of `lab`, and what it gets: that no server is found, or the server.
const QUESTION: Datagram = Datagram {
    peer: CALLER,
    bytes: &[
        "00000007 00000000 00000002 000186a7 00000002 00000001 00000000 00000000 00000000 00000000",
        "00000003 6c616200",
    ],
};

const UNBOUND: Datagram = Datagram {
    peer: CALLER,
    bytes: &["00000007 00000001 00000000 00000000 00000000 00000000 00000002 00000002"],
};

const BOUND: Datagram = Datagram {
    peer: CALLER,
    bytes: &["00000007 00000001 00000000 00000000 00000000 00000000 00000001 0a000002 03420000"],
};

/// SETDOM of `lab` to 10.0.0.3 port 834, version 2, and its empty result.
const SETDOM: Datagram = Datagram {
    peer: CALLER,
    bytes: &[
        "00000008 00000000 00000002 000186a7 00000002 00000002 00000000 00000000 00000000 00000000",
        "00000003 6c616200 0a000003 03420000 00000002",
    ],
};

const EMPTY: Datagram = Datagram {
    peer: CALLER,
    bytes: &["00000008 00000001 00000000 00000000 00000000 00000000"],
};

const OFFERED: Row = Row {
    name: "offered, and quiet",
    words: WORDS,
    brings: &[OFFER],
    output: "lab 10.0.0.2:834\n",
    sends: &[PING],
    turns: 2,
    ..FAIR
};

const SILENT: Row = Row {
    name: "no server answers",
    brings: &[],
    output: "lab none\n",
    sends: &[PING, SECOND_PING],
    ..OFFERED
};

/// Rounds of pings, and what comes of them.
static ROUNDS: [Row; 6] = [
    OFFERED,
    SILENT,
    Row {
        name: "no turn",
        words: &["bind", "7100", "fixed", "0", "lab", "z1@10.0.0.2:834"],
        sends: &[],
        turns: 0,
        ..SILENT
    },
    Row {
        name: "a server that hasn't the domain",
        brings: &[NO_OFFER],
        sends: &[PING],
        ..SILENT
    },
    Row {
        name: "an offer of another peer",
        brings: &[Datagram {
            peer: CALLER,
            bytes: &["00000001 00000001 00000000 00000000 00000000 00000000 00000001"],
        }],
        sends: &[PING],
        ..SILENT
    },
    Row {
        name: "an offer that is cut, and one that rpc refused",
        brings: &[
            Datagram {
                peer: SERVER,
                bytes: &["00000001 00000001 00000000 00000000 00000000 00000000 0000"],
            },
            Datagram {
                peer: SERVER,
                bytes: &["00000001 00000001 00000000 00000000 00000000 00000001 00000001"],
            },
        ],
        sends: &[PING],
        ..SILENT
    },
];

/// Calls to the binder, and turns that are quiet.
static CALLS: [Row; 4] = [
    Row {
        name: "asked before the offer and behind it",
        words: &["bind", "7100", "fixed", "3", "lab", "z1@10.0.0.2:834"],
        brings: &[QUESTION, OFFER, QUESTION],
        sends: &[PING, UNBOUND, BOUND],
        turns: 3,
        ..OFFERED
    },
    Row {
        name: "set by a stranger under ypsetme",
        words: &["bind", "7100", "ypsetme", "2", "lab", "z1@10.0.0.2:834"],
        brings: &[SETDOM, QUESTION],
        sends: &[PING, EMPTY, UNBOUND],
        ..SILENT
    },
    Row {
        name: "set by a stranger under ypset",
        words: &["bind", "7100", "ypset", "1", "lab", "z1@10.0.0.2:834"],
        brings: &[SETDOM],
        output: "lab 10.0.0.3:834\n",
        sends: &[PING, EMPTY],
        turns: 1,
        ..SILENT
    },
    Row {
        name: "the third quiet turn unbinds",
        words: &["bind", "7100", "fixed", "4", "lab", "z1@10.0.0.2:834"],
        brings: &[OFFER, QUIET, QUIET, QUIET],
        output: "lab none\n",
        sends: &[
            PING,
            SECOND_PING,
            Datagram {
                peer: SERVER,
                bytes: &[
                    "00000003 00000000 00000002 000186a4 00000002 00000002",
                    "00000000 00000000 00000000 00000000 00000003 6c616200",
                ],
            },
        ],
        turns: 4,
        ..SILENT
    },
];

/// Calls of the inbox, and of the output, that fail.
static FAULTS: [Row; 8] = [
    Row {
        name: "a ping fails",
        inbox: 0,
        code: 22,
        output: "",
        note: "yp: inbox fault\n",
        sends: &[],
        turns: 0,
        ..SILENT
    },
    Row {
        name: "a turn fails",
        inbox: 1,
        code: 22,
        output: "",
        note: "yp: inbox fault\n",
        sends: &[PING],
        turns: 0,
        ..SILENT
    },
    Row {
        name: "the second ping fails",
        inbox: 2,
        code: 22,
        output: "",
        note: "yp: inbox fault\n",
        sends: &[PING],
        turns: 1,
        ..SILENT
    },
    Row {
        name: "the second turn fails",
        inbox: 3,
        code: 22,
        output: "",
        note: "yp: inbox fault\n",
        turns: 1,
        ..SILENT
    },
    Row {
        name: "a reply fails",
        brings: &[QUESTION],
        inbox: 2,
        code: 22,
        output: "",
        note: "yp: inbox fault\n",
        sends: &[PING],
        turns: 1,
        ..SILENT
    },
    Row {
        name: "the output fails",
        writes: 0,
        code: 4,
        output: "",
        note: "yp: write fault\n",
        ..OFFERED
    },
    Row {
        name: "no note of a ping that fails",
        inbox: 0,
        notes: 0,
        code: 22,
        output: "",
        sends: &[],
        turns: 0,
        ..SILENT
    },
    Row {
        name: "the output isn't flushed",
        writes: 1,
        code: 4,
        note: "yp: write fault\n",
        ..OFFERED
    },
];

#[test]
fn bind_over_memory(rt: HostRuntime) {
    try_rows(&rt, rt.alloc(), &ROUNDS);
}

#[test]
fn a_binder_is_called(rt: HostRuntime) {
    try_rows(&rt, rt.alloc(), &CALLS);
}

#[test]
fn each_call_of_the_inbox_fails(rt: HostRuntime) {
    try_rows(&rt, rt.alloc(), &FAULTS);
}
