//! `orders` over wires in memory: what servers say is written out by hand, from RFC 5531 and yp.x; and each call
//! outside that fails in turn.

use crate::given::try_rows;
use std::alloc::Global;
use std::process::Abort;
use std::random::RandomSource;
use std::sync::Wait;
use std::thread::Threads;
use std::time::Clock;
use yp_stage::{FAIR, Row, try_reads, try_row, try_writes};

/// The first server has the map `hosts.byname` of the master `m1`, of order 100: its replies to MAPLIST, to MASTER and
/// to ORDER.
const MAPS: &str = "80000034 00000001 00000001 00000000 00000000 00000000 00000000 00000001
    00000001 0000000c 686f7374 732e6279 6e616d65 00000000";

const MASTER: &str =
    "80000024 00000002 00000001 00000000 00000000 00000000 00000000 00000001 00000002 6d310000";

const ORDER: &str =
    "80000020 00000003 00000001 00000000 00000000 00000000 00000000 00000001 00000064";

/// The replies to ORDER of the second server: the same order, another one, and YP_NOMAP.
const SAME: &str =
    "80000020 00000001 00000001 00000000 00000000 00000000 00000000 00000001 00000064";

const OTHER: &str =
    "80000020 00000001 00000001 00000000 00000000 00000000 00000000 00000001 00000065";

const NONE: &str =
    "80000020 00000001 00000001 00000000 00000000 00000000 00000000 ffffffff 00000000";

/// Both servers are asked. The calls to the first take 52, 68 and 68 bytes.
const LEVEL: Row = Row {
    name: "the same orders",
    words: &["orders", "10.0.0.1:834", "10.0.0.2:834", "lab"],
    wire: &[MAPS, MASTER, ORDER],
    second_wire: &[SAME],
    output: "hosts.byname m1 100 100\n",
    wires: 2,
    asked: 188,
    ..FAIR
};

/// No line is printed, and the second server isn't asked.
const REFUSED: Row = Row {
    output: "",
    wires: 1,
    asked: 0,
    ..LEVEL
};

static ROWS: [Row; 9] = [
    LEVEL,
    Row {
        name: "another order",
        second_wire: &[OTHER],
        code: 1,
        output: "hosts.byname m1 100 101\n",
        ..LEVEL
    },
    Row {
        name: "no order",
        second_wire: &[NONE],
        code: 1,
        output: "hosts.byname m1 100 none\n",
        ..LEVEL
    },
    Row {
        name: "one server",
        words: &["orders", "10.0.0.1:834", "lab"],
        output: "hosts.byname m1 100\n",
        wires: 1,
        ..LEVEL
    },
    Row {
        name: "no such domain",
        wire: &["80000020 00000001 00000001 00000000 00000000 00000000 00000000 fffffffe 00000000"],
        code: 11,
        note: "yp: server says -2\n",
        ..REFUSED
    },
    Row {
        name: "a master that isn't said",
        wire: &[
            MAPS,
            "80000020 00000002 00000001 00000000 00000000 00000000 00000000 ffffffff 00000000",
        ],
        code: 11,
        note: "yp: server says -1\n",
        ..REFUSED
    },
    Row {
        name: "an order that is refused",
        wire: &[
            MAPS,
            MASTER,
            "80000014 00000003 00000001 00000001 00000001 00000002",
        ],
        code: 12,
        note: "yp: refused by rpc\n",
        ..REFUSED
    },
    Row {
        name: "a reply to another call",
        second_wire: &[ORDER],
        code: 14,
        note: "yp: wrong xid 3 wanted 1\n",
        wires: 2,
        ..REFUSED
    },
    Row {
        name: "no reply of the second server",
        second_wire: &[],
        code: 5,
        note: "yp: torn record at 0\n",
        wires: 2,
        ..REFUSED
    },
];

#[test]
fn orders_of_servers(rt: HostRuntime) {
    try_rows(&rt, rt.alloc(), &ROWS);
}

/// No dial, and no second one.
static UNDIALED: [Row; 2] = [
    Row {
        name: "no dial",
        dials: 0,
        code: 15,
        note: "yp: cannot dial\n",
        wires: 0,
        ..REFUSED
    },
    Row {
        name: "no second dial",
        dials: 1,
        code: 15,
        note: "yp: cannot dial\n",
        ..REFUSED
    },
];

/// Each call of the first wire fails in turn: a call takes a write and a flush, its reply a read of the head and one of
/// the body. Then the text, which takes a write and a flush.
fn try_calls<R: Threads + Wait + RandomSource + Clock + Abort + Sync>(rt: &R, alloc: Global) {
    let no_read = Row {
        code: 3,
        note: "yp: read fault\n",
        ..REFUSED
    };
    try_reads(alloc, rt, &no_read, 6, &[]).expect(rt, "a read");
    let no_write = Row {
        code: 4,
        note: "yp: write fault\n",
        ..REFUSED
    };
    try_writes(alloc, rt, &no_write, 6, &[]).expect(rt, "a write");
    let no_text = Row {
        writes: 0,
        code: 4,
        cut: 0,
        note: "yp: write fault\n",
        ..LEVEL
    };
    try_row(alloc, rt, &no_text).expect(rt, "the text");
    let no_flush = Row {
        writes: 1,
        code: 4,
        note: "yp: write fault\n",
        ..LEVEL
    };
    try_row(alloc, rt, &no_flush).expect(rt, "the flush");
}

#[test]
fn each_call_of_orders_fails(rt: HostRuntime) {
    try_rows(&rt, rt.alloc(), &UNDIALED);
    try_calls(&rt, rt.alloc());
}
