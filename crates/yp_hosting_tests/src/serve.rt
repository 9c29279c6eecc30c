//! What is served, and how a server ends of which the listener, the inbox, the output or the note fails.

use crate::bytes::{FILE, FIRST, MADE, MAKE, NULL, NULL_REPLY, SENDER};
use crate::given::try_rows_after;
use yp_stage::{Datagram, FAIR, NEVER, Row, Words};

/// NULL and its reply as records.
const CALL: Words = &["80000028", NULL];

const REPLY: Words = &["80000018", NULL_REPLY];

/// They as datagrams.
const MAIL: Datagram = Datagram {
    peer: SENDER,
    bytes: &[NULL],
};

const MAIL_REPLY: Datagram = Datagram {
    peer: SENDER,
    bytes: &[NULL_REPLY],
};

const TWO_CONNECTIONS: Row = Row {
    name: "a third call isn't accepted",
    words: &["serve", "m1", "7001", "1", "2", "0", "lab/hosts.byname"],
    calls: &[CALL, CALL, CALL],
    most: 2,
    output: "connections 2 calls 2\n",
    takes: &[REPLY, REPLY],
    ..FAIR
};

/// One accept fails. Behind each that doesn't, a connection is served. The worker asks for its watch before the first,
/// and the one that does what takes long asks once more, behind it, whether all were accepted.
const UNACCEPTED: Row = Row {
    name: "the first accept fails",
    accepts: 1,
    code: 21,
    output: "",
    note: "yp: listen fault\n",
    takes: &[],
    ..TWO_CONNECTIONS
};

static TWO: [Row; 1] = [TWO_CONNECTIONS];

#[test]
fn two_connections(rt: HostRuntime) {
    try_rows_after(&rt, rt.alloc(), &TWO, &[]);
}

static LISTENS: [Row; 7] = [
    Row {
        name: "there is no watch",
        accepts: 0,
        ..UNACCEPTED
    },
    UNACCEPTED,
    Row {
        name: "the second accept fails",
        accepts: 2,
        takes: &[REPLY],
        ..UNACCEPTED
    },
    Row {
        name: "the accept fails that would tell that all were accepted",
        accepts: 3,
        takes: &[REPLY, REPLY],
        ..UNACCEPTED
    },
    Row {
        name: "the accept fails that would tell another worker",
        accepts: 4,
        takes: &[REPLY, REPLY],
        ..UNACCEPTED
    },
    Row {
        name: "the accept fails that would tell the third worker",
        accepts: 5,
        takes: &[REPLY, REPLY],
        ..UNACCEPTED
    },
    Row {
        name: "no sixth accept",
        accepts: 6,
        ..TWO_CONNECTIONS
    },
];

#[test]
fn listen_fault(rt: HostRuntime) {
    try_rows_after(&rt, rt.alloc(), &LISTENS, &[]);
}

const DATAGRAM: Row = Row {
    name: "a datagram and a quiet turn, beside a connection",
    words: &["serve", "m1", "7001", "1", "1", "2", "lab/hosts.byname"],
    calls: &[CALL],
    most: 1,
    brings: &[MAIL],
    output: "connections 1 calls 1\n",
    takes: &[REPLY],
    sends: &[MAIL_REPLY],
    turns: 2,
    ..FAIR
};

/// Nobody is to connect.
static ALONE: [Row; 1] = [Row {
    name: "a datagram and a quiet turn",
    words: &["serve", "m1", "7001", "1", "0", "2", "lab/hosts.byname"],
    calls: &[],
    most: 0,
    output: "connections 0 calls 0\n",
    takes: &[],
    ..DATAGRAM
}];

#[test]
fn datagram_null(rt: HostRuntime) {
    try_rows_after(&rt, rt.alloc(), &ALONE, &[]);
}

/// A call of the inbox fails. The connection is served.
const UNHEARD: Row = Row {
    name: "the first turn fails",
    inbox: 0,
    code: 22,
    output: "",
    note: "yp: inbox fault\n",
    sends: &[],
    turns: 0,
    ..DATAGRAM
};

/// The map is made, and nobody is told, whether the reply leaves from the inbox or late.
const MADE_UNTOLD: Row = Row {
    name: "the reply to MAKE isn't sent",
    brings: &[Datagram {
        peer: SENDER,
        bytes: &["00000002", MAKE],
    }],
    inbox: 1,
    outbox: 0,
    sources: &[("hosts", "10.0.0.1 alpha\n")],
    moment: 100,
    turns: 1,
    stands: FIRST,
    left: FILE,
    ..UNHEARD
};

static INBOXES: [Row; 7] = [
    DATAGRAM,
    UNHEARD,
    Row {
        name: "the reply isn't sent",
        inbox: 1,
        turns: 1,
        ..UNHEARD
    },
    Row {
        name: "the second turn fails",
        inbox: 2,
        sends: &[MAIL_REPLY],
        turns: 1,
        ..UNHEARD
    },
    Row {
        name: "no fourth call of the inbox",
        inbox: 3,
        ..DATAGRAM
    },
    MADE_UNTOLD,
    Row {
        name: "the reply to MAKE is sent, and a later turn fails",
        words: &["serve", "m1", "7001", "1", "1", "3", "lab/hosts.byname"],
        inbox: 2,
        outbox: NEVER,
        sends: &[Datagram {
            peer: SENDER,
            bytes: &["00000002", MADE],
        }],
        // The next turn fails behind a letter of the inbox, and the one behind that where the reply is late.
        turns: NEVER,
        ..MADE_UNTOLD
    },
];

#[test]
fn each_call_of_the_inbox_fails(rt: HostRuntime) {
    try_rows_after(&rt, rt.alloc(), &INBOXES, &[]);
}

/// The line takes a write and a flush.
const UNTOLD: Row = Row {
    name: "no line",
    writes: 0,
    code: 4,
    output: "",
    note: "yp: write fault\n",
    ..DATAGRAM
};

static ENDS: [Row; 6] = [
    UNTOLD,
    Row {
        name: "no flush",
        writes: 1,
        output: "connections 1 calls 1\n",
        ..UNTOLD
    },
    Row {
        name: "no third call of the output",
        writes: 2,
        ..DATAGRAM
    },
    Row {
        name: "no line, and no note",
        notes: 0,
        note: "",
        ..UNTOLD
    },
    Row {
        name: "no note of an accept",
        notes: 0,
        note: "",
        ..UNACCEPTED
    },
    Row {
        name: "an accept and a turn fail",
        accepts: 1,
        code: 21,
        note: "yp: listen fault\n",
        takes: &[],
        ..UNHEARD
    },
];

#[test]
fn ends(rt: HostRuntime) {
    try_rows_after(&rt, rt.alloc(), &ENDS, &[]);
}
