//! A map that a caller has fetched: each call of the dial, its wire, the disk and the connection fails in turn.

use crate::bytes::{ADDRESS, FILE, FIRST, MATCH, NOMAP, NULL, NULL_REPLY};
use crate::given::{try_all, try_each, try_rows_after};
use yp_io::Peer;
use yp_stage::{After, Datagram, DiskCalls, FAIR, Row, Words, try_reads, try_writes};

/// XFR of hosts.byname of `lab` from `m1`, which asks to be told at port 7002 of transaction 9 in program 0x40000000;
/// behind the word of its number. Then the reply.
const XFR: &str = "00000000 00000002 000186a4 00000002 00000006 00000000 00000000 00000000 00000000
    00000003 6c616200 0000000c 686f7374 732e6279 6e616d65 00000000 00000002 6d310000
    00000009 40000000 00001b5a";

const TAKEN: &str = "00000001 00000000 00000000 00000000 00000000 00000009 00000001";

/// Where the letter of a transfer goes.
const ASKER: Peer = Peer {
    addr: [127, 0, 0, 1],
    port: 7_002,
};

/// The letter of transaction 9, up to its status; and the statuses of transfers.
const LETTER: &str = "00000009 00000000 00000002 40000000 00000001 00000001
    00000000 00000000 00000000 00000000 00000009";

const SUCC: Datagram = Datagram {
    peer: ASKER,
    bytes: &[LETTER, "00000001"],
};

const AGE: Datagram = Datagram {
    peer: ASKER,
    bytes: &[LETTER, "00000002"],
};

const RPC: Datagram = Datagram {
    peer: ASKER,
    bytes: &[LETTER, "fffffffc"],
};

const NO_FILE: Datagram = Datagram {
    peer: ASKER,
    bytes: &[LETTER, "fffffff7"],
};

/// What the source sends: order 100, master `m1`, the row of `alpha`, and order 100 again.
const SOURCE: Words = &[
    "80000020 00000001 00000001 00000000 00000000 00000000 00000000 00000001 00000064",
    "80000024 00000002 00000001 00000000 00000000 00000000 00000000 00000001 00000002 6d310000",
    "80000044 00000003 00000001 00000000 00000000 00000000 00000000 00000001 00000001",
    "0000000e 31302e30 2e302e31 20616c70 68610000 00000005 616c7068 61000000 00000000",
    "80000020 00000004 00000001 00000000 00000000 00000000 00000000 00000001 00000064",
];

/// XFR and MATCH, over a map without a version.
const FETCHED: Row = Row {
    name: "nothing fails",
    words: &[
        "serve",
        "s1",
        "7101",
        "1",
        "1",
        "0",
        "lab/hosts.byname",
        "m1@127.0.0.1:7001",
    ],
    calls: &[&["80000058 00000002", XFR, "8000004c 00000003", MATCH]],
    most: 1,
    wire: SOURCE,
    output: "connections 1 calls 2\n",
    takes: &[&["80000020 00000002", TAKEN, "80000030 00000003", ADDRESS]],
    posts: &[SUCC],
    wires: 1,
    stands: FIRST,
    left: FILE,
    ..FAIR
};

/// Whatever fails, the connection goes on: XFR had SUCC before.
const UNFETCHED: Row = Row {
    name: "a call of the wire fails",
    takes: &[&["80000020 00000002", TAKEN, "80000020 00000003", NOMAP]],
    posts: &[RPC],
    stands: None,
    left: &[],
    ..FETCHED
};

/// The same calls over a file without a version, and over one that has it.
const FETCHED_ANEW: After = After {
    stands: None,
    again: Row {
        name: "the next server fetches it",
        torn: true,
        ..FETCHED
    },
};

const HAS_IT: After = After {
    stands: FIRST,
    again: Row {
        name: "the next server has it",
        posts: &[AGE],
        torn: true,
        ..FETCHED
    },
};

static AFTER: [After; 2] = [FETCHED_ANEW, HAS_IT];

// ---- the dial and its wire

/// The words of a server that is to tell what it does.
const LOGGING: &[&str] = &[
    "serve",
    "s1",
    "7101",
    "1",
    "1",
    "0",
    "lab/hosts.byname",
    "m1@127.0.0.1:7001",
    "log",
];

const TOLD: Row = Row {
    name: "it is told that the map was fetched",
    words: LOGGING,
    note: "fetched lab/hosts.byname order 100 for 127.0.0.1:40000\n\
        made 0, not made by file 0, transfers 1, reached 1, \
        failed by address 0, memory 0, file 0, source 0\n",
    ..FETCHED
};

static WHOLE: [Row; 3] = [
    FETCHED,
    TOLD,
    Row {
        name: "it is told that the map wasn't fetched",
        words: LOGGING,
        note: "not fetched lab/hosts.byname -4 RPC for 127.0.0.1:40000\n\
            made 0, not made by file 0, transfers 1, reached 0, \
            failed by address 0, memory 0, file 0, source 1\n",
        dials: 0,
        wires: 0,
        ..UNFETCHED
    },
];

#[test]
fn worker_transfer(rt: HostRuntime) {
    try_rows_after(&rt, rt.alloc(), &WHOLE, &AFTER);
}

static DIALS: [Row; 3] = [
    Row {
        name: "no wire",
        dials: 0,
        wires: 0,
        ..UNFETCHED
    },
    Row {
        name: "no letter",
        dials: 1,
        posts: &[],
        ..FETCHED
    },
    Row {
        name: "no third call of the dial",
        dials: 2,
        ..FETCHED
    },
];

#[test]
fn each_call_of_the_dial_fails(rt: HostRuntime) {
    try_rows_after(&rt, rt.alloc(), &DIALS, &AFTER);
}

static IN_PIECES: Row = Row {
    piece: 48,
    ..UNFETCHED
};

/// A read or a write takes 48 bytes at most, so each of four calls of 68 bytes takes two writes and a flush, and each
/// of four replies a read of the head, and one of the body, or two.
#[test]
fn each_call_of_the_wire_fails(rt: HostRuntime) {
    let alloc = rt.alloc();
    try_reads(alloc, &rt, &IN_PIECES, 9, &AFTER).expect(&rt, "a read");
    try_writes(alloc, &rt, &IN_PIECES, 12, &AFTER).expect(&rt, "a write");
}

// ---- the disk

const NOT_LOADED: Row = Row {
    name: "the file isn't loaded",
    code: 10,
    output: "",
    note: "yp: disk fault in lab/hosts.byname\n",
    takes: &[],
    posts: &[],
    wires: 0,
    ..UNFETCHED
};

/// What was fetched isn't installed.
const UNINSTALLED: Row = Row {
    name: "an install fails",
    posts: &[NO_FILE],
    torn: true,
    ..UNFETCHED
};

/// Two calls load the empty file, and nine install a version. Where the last one fails, the file reads as the version
/// until a crash.
static CALLS: [DiskCalls; 4] = [
    DiskCalls {
        row: NOT_LOADED,
        first: 0,
        last: 1,
        after: &[FETCHED_ANEW],
    },
    DiskCalls {
        row: UNINSTALLED,
        first: 2,
        last: 9,
        after: &[FETCHED_ANEW],
    },
    DiskCalls {
        row: Row {
            name: "the last call of an install fails",
            stands: FIRST,
            ..UNINSTALLED
        },
        first: 10,
        last: 10,
        after: &[FETCHED_ANEW, HAS_IT],
    },
    DiskCalls {
        row: FETCHED,
        first: 11,
        last: 11,
        after: &[HAS_IT],
    },
];

#[test]
fn each_disk_call_fails(rt: HostRuntime) {
    let alloc = rt.alloc();
    try_each(&rt, alloc, &CALLS);
    try_all(&rt, alloc, &CALLS);
}

// ---- the connection

/// XFR and MATCH over a connection that fails, and beside it NULL over another one. All go in pieces of 52 bytes at
/// most: two reads bring all of XFR, two more all of MATCH, and one the end of the input.
const SERVED: Row = Row {
    words: &[
        "serve",
        "s1",
        "7101",
        "1",
        "2",
        "0",
        "lab/hosts.byname",
        "m1@127.0.0.1:7001",
    ],
    calls: &[
        &["80000058 00000002", XFR, "8000004c 00000003", MATCH],
        &["80000028", NULL],
    ],
    most: 2,
    piece: 52,
    output: "connections 2 calls 3\n",
    takes: &[
        &["80000020 00000002", TAKEN, "80000030 00000003", ADDRESS],
        &["80000018", NULL_REPLY],
    ],
    ..FETCHED
};

/// XFR isn't read, or its reply isn't flushed: nothing is fetched.
const UNASKED: Row = Row {
    output: "connections 2 calls 1\n",
    takes: &[&[], &["80000018", NULL_REPLY]],
    posts: &[],
    wires: 0,
    stands: None,
    left: &[],
    ..SERVED
};

/// XFR was carried out, and the first connection has its reply alone.
const TOLD_OF_XFR: &[Words] = &[&["80000020 00000002", TAKEN], &["80000018", NULL_REPLY]];

const UNREAD_BEHIND: Row = Row {
    name: "more of MATCH isn't read",
    call_reads: 2,
    output: "connections 2 calls 2\n",
    takes: TOLD_OF_XFR,
    ..SERVED
};

const UNWRITTEN: Row = Row {
    name: "the reply to XFR isn't written",
    call_writes: 0,
    output: "connections 2 calls 2\n",
    ..UNASKED
};

/// The same calls, and the front of a record behind them, in pieces of 100 bytes at most: the reply to MATCH is held
/// back until that front was looked at, and then takes a write and a flush.
const FOLLOWED: Row = Row {
    name: "the front of a third call comes",
    calls: &[
        &[
            "80000058 00000002",
            XFR,
            "8000004c 00000003",
            MATCH,
            "80000028",
        ],
        &["80000028", NULL],
    ],
    piece: 100,
    ..SERVED
};

static CONNECTIONS: [Row; 13] = [
    SERVED,
    Row {
        name: "the front of XFR isn't read",
        call_reads: 0,
        ..UNASKED
    },
    Row {
        name: "the rest of XFR isn't read",
        call_reads: 1,
        ..UNASKED
    },
    UNREAD_BEHIND,
    Row {
        name: "the rest of MATCH isn't read",
        call_reads: 3,
        ..UNREAD_BEHIND
    },
    Row {
        name: "the end of the connection isn't read",
        call_reads: 4,
        ..SERVED
    },
    Row {
        name: "no sixth read",
        call_reads: 5,
        ..SERVED
    },
    UNWRITTEN,
    Row {
        name: "the reply to XFR isn't flushed",
        call_writes: 1,
        takes: &[&["80000020 00000002", TAKEN], &["80000018", NULL_REPLY]],
        ..UNWRITTEN
    },
    FOLLOWED,
    Row {
        name: "the reply to MATCH isn't written",
        call_writes: 2,
        takes: TOLD_OF_XFR,
        ..FOLLOWED
    },
    Row {
        name: "the reply to MATCH isn't flushed",
        call_writes: 3,
        ..FOLLOWED
    },
    Row {
        name: "no fifth call of the output",
        call_writes: 4,
        ..FOLLOWED
    },
];

/// The same calls over what a crash may leave.
const SERVED_ANEW: After = After {
    stands: None,
    again: SERVED,
};

const SERVED_OVER: After = After {
    stands: FIRST,
    again: Row {
        name: "the next server has it",
        posts: &[AGE],
        ..SERVED
    },
};

static SERVED_AFTER: [After; 2] = [SERVED_ANEW, SERVED_OVER];

#[test]
fn each_call_of_the_connection_fails(rt: HostRuntime) {
    try_rows_after(&rt, rt.alloc(), &CONNECTIONS, &SERVED_AFTER);
}
