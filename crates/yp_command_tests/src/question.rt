//! Client commands over a wire in memory: what `once` sends for calls that are written out by hand, from RFC 5531 and
//! yp.x; and each call outside that fails in turn.

use crate::given::try_rows;
use std::alloc::Global;
use std::process::Abort;
use std::random::RandomSource;
use std::sync::Wait;
use std::thread::Threads;
use std::time::Clock;
use yp_memory::{MemDial, MemDisk, MemInbox, MemSink, MemSource, MemTexts, SetClock};
use yp_program::laws;
use yp_stage::{FAIR, Row, try_reads, try_row, try_writes};

/// ALL of a map, xid 1, up to the map, and a MATCH of hosts.byname, up to its key.
const ALL: &str = "00000001 00000000 00000002 000186a4 00000002 00000008
    00000000 00000000 00000000 00000000 00000003 6c616200";

const MATCH_IN: &str = "00000001 00000000 00000002 000186a4 00000002 00000003
    00000000 00000000 00000000 00000000 00000003 6c616200
    0000000c 686f7374 732e6279 6e616d65";

const HOSTS: &str = "0000000c 686f7374 732e6279 6e616d65";

const MASTER: &str = "80000040 00000001 00000000 00000002 000186a4 00000002 00000009
    00000000 00000000 00000000 00000000 00000003 6c616200 0000000c 686f7374 732e6279 6e616d65";

const ORDER: &str = "80000040 00000001 00000000 00000002 000186a4 00000002 0000000a
    00000000 00000000 00000000 00000000 00000003 6c616200 0000000c 686f7374 732e6279 6e616d65";

const SECOND_MASTER: &str = "80000040 00000002 00000000 00000002 000186a4 00000002 00000009
    00000000 00000000 00000000 00000000 00000003 6c616200 0000000c 686f7374 732e6279 6e616d65";

const MAPLIST: &str = "80000030 00000001 00000000 00000002 000186a4 00000002 0000000b
    00000000 00000000 00000000 00000000 00000003 6c616200";

/// XFR of a map, up to the map, and what is behind it: order 0, the host m1, and transaction, program and port 0.
const XFR: &str = "00000001 00000000 00000002 000186a4 00000002 00000006
    00000000 00000000 00000000 00000000 00000003 6c616200";

const FROM_M1: &str = "00000000 00000002 6d310000 00000000 00000000 00000000";

/// MAKE_NAMED of the make program, up to the map.
const MAKE_NAMED: &str = "00000001 00000000 00000002 20004e49 00000001 00000002
    00000000 00000000 00000000 00000000 00000003 6c616200";

const CAT: Row = Row {
    name: "cat",
    words: &["cat", "10.0.0.1:834", "lab", "hosts.byname"],
    server: &[
        "once",
        "lab/hosts.byname",
        "alpha=10.0.0.1 alpha",
        "beta=10.0.0.2 beta",
    ],
    wire: &["80000040", ALL, HOSTS],
    output: "10.0.0.1 alpha\n10.0.0.2 beta\n",
    wires: 1,
    ..FAIR
};

const POLL: Row = Row {
    name: "poll",
    words: &["poll", "10.0.0.1:834", "lab", "hosts.byname"],
    wire: &[ORDER, SECOND_MASTER],
    output: "order 1\nmaster once\n",
    ..CAT
};

/// A client that makes two calls.
static POLLS: [Row; 1] = [POLL];

/// Clients that make one call.
static CLIENTS: [Row; 6] = [
    CAT,
    Row {
        name: "catk",
        words: &["catk", "10.0.0.1:834", "lab", "hosts.byname"],
        output: "alpha 10.0.0.1 alpha\nbeta 10.0.0.2 beta\n",
        ..CAT
    },
    Row {
        name: "match",
        words: &["match", "10.0.0.1:834", "lab", "hosts.byname", "alpha"],
        wire: &["8000004c", MATCH_IN, "00000005 616c7068 61000000"],
        output: "10.0.0.1 alpha\n",
        ..CAT
    },
    Row {
        name: "which",
        words: &["which", "10.0.0.1:834", "lab", "hosts.byname"],
        wire: &[MASTER],
        output: "once\n",
        ..CAT
    },
    Row {
        name: "maps",
        words: &["maps", "10.0.0.1:834", "lab"],
        wire: &[MAPLIST],
        output: "hosts.byname\n",
        ..CAT
    },
    Row {
        name: "innetgr",
        words: &["innetgr", "10.0.0.1:834", "lab", "a", "*", "joe", "*"],
        server: &["once", "lab/netgroup", "a=b", "b=a (-,joe,)"],
        wire: &["8000003c", ALL, "00000008 6e657467 726f7570"],
        output: "yes\n",
        ..CAT
    },
];

/// What the server refuses: `once` is the master of its map, and makes no map, since it is nobody's own host.
static REFUSED: [Row; 2] = [PULL, MAKE];

const PULL: Row = Row {
    name: "pull",
    words: &["pull", "10.0.0.1:834", "lab", "hosts.byname", "m1"],
    wire: &["80000058", XFR, HOSTS, FROM_M1],
    code: 1,
    output: "lab/hosts.byname -14 REFUSED\n",
    ..CAT
};

const MAKE: Row = Row {
    name: "make",
    words: &["make", "10.0.0.1:834", "lab", "hosts.byname"],
    wire: &["80000040", MAKE_NAMED, HOSTS],
    code: 1,
    output: "lab/hosts.byname -14 REFUSED\n",
    ..CAT
};

/// A reply of SUCC to the call of a transfer.
const TAKEN: &str =
    "80000020 00000001 00000001 00000000 00000000 00000000 00000000 00000000 00000001";

/// What isn't there.
static ABSENT: [Row; 3] = [
    Row {
        name: "cat of no such map",
        words: &["cat", "10.0.0.1:834", "lab", "bare"],
        wire: &["80000038", ALL, "00000004 62617265"],
        code: 11,
        output: "",
        note: "yp: server says -1\n",
        ..CAT
    },
    Row {
        name: "match of no such key",
        words: &["match", "10.0.0.1:834", "lab", "hosts.byname", "delta"],
        wire: &["8000004c", MATCH_IN, "00000005 64656c74 61000000"],
        code: 1,
        output: "",
        ..CAT
    },
    Row {
        name: "pull of no such map",
        words: &["pull", "10.0.0.1:834", "lab", "bare", "m1"],
        wire: &["80000050", XFR, "00000004 62617265", FROM_M1],
        code: 1,
        output: "lab/bare -1 NOMAP\n",
        ..CAT
    },
];

/// A transfer that is taken, of a map that another host is the master of, and a map that is made.
static TAKES: [Row; 2] = [TAKES_TRANSFER, MAKES_MAP];

const TAKES_TRANSFER: Row = Row {
    name: "pull that is taken",
    server: &[],
    wire: &[TAKEN],
    code: 0,
    output: "lab/hosts.byname 1 SUCC\n",
    ..PULL
};

const MAKES_MAP: Row = Row {
    name: "make of a map",
    server: &[],
    wire: &["8000001c 00000001 00000001 00000000 00000000 00000000 00000000 00000001"],
    code: 0,
    output: "lab/hosts.byname made\n",
    ..MAKE
};

#[test]
fn answers_of_a_server(rt: HostRuntime) {
    laws::session_is_printed::<
        MemSource,
        MemSink,
        MemDisk,
        SetClock,
        MemDial,
        MemInbox,
        MemTexts,
    >();
    let alloc = rt.alloc();
    try_rows(&rt, alloc, &CLIENTS);
    try_rows(&rt, alloc, &ABSENT);
    try_rows(&rt, alloc, &POLLS);
    try_rows(&rt, alloc, &REFUSED);
    try_rows(&rt, alloc, &TAKES);
}

/// Each call of the dial and the wire fails in turn: a call takes a write and a flush, its reply a read of the head and
/// one of the body.
fn try_wire<R: Threads + Wait + RandomSource + Clock + Abort + Sync>(
    rt: &R,
    alloc: Global,
    client: &Row,
    parts: u64,
) {
    let no_dial = Row {
        dials: 0,
        code: 15,
        cut: 0,
        note: "yp: cannot dial\n",
        wires: 0,
        ..*client
    };
    try_row(alloc, rt, &no_dial).expect(rt, client.name);
    let no_read = Row {
        code: 3,
        cut: 0,
        note: "yp: read fault\n",
        ..*client
    };
    try_reads(alloc, rt, &no_read, parts, &[]).expect(rt, client.name);
    let no_write = Row {
        code: 4,
        cut: 0,
        note: "yp: write fault\n",
        ..*client
    };
    try_writes(alloc, rt, &no_write, parts, &[]).expect(rt, client.name);
}

/// The text takes a write and a flush.
fn try_output<R: Threads + Wait + RandomSource + Clock + Abort + Sync>(
    rt: &R,
    alloc: Global,
    client: &Row,
) {
    let no_text = Row {
        writes: 0,
        code: 4,
        cut: 0,
        note: "yp: write fault\n",
        ..*client
    };
    try_row(alloc, rt, &no_text).expect(rt, client.name);
    let no_flush = Row {
        writes: 1,
        code: 4,
        note: "yp: write fault\n",
        ..*client
    };
    try_row(alloc, rt, &no_flush).expect(rt, client.name);
}

#[test]
fn each_call_fails(rt: HostRuntime) {
    for client in &CLIENTS {
        try_wire(&rt, rt.alloc(), client, 2);
        try_output(&rt, rt.alloc(), client);
    }
    try_wire(&rt, rt.alloc(), &POLLS[0], 4);
    try_output(&rt, rt.alloc(), &POLLS[0]);
    try_wire(&rt, rt.alloc(), &PULL, 2);
    try_output(&rt, rt.alloc(), &PULL);
    try_wire(&rt, rt.alloc(), &MAKE, 2);
    try_output(&rt, rt.alloc(), &MAKE);
}
