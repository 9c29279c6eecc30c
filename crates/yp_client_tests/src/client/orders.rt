//! Servers whose orders are compared over wires in memory: calls and replies written out by hand, from RFC 5531 and
//! yp.x.

use crate::client::asked::{SERVER, text};
use crate::given::{assert_same, bytes, list};
use std::alloc::Global;
use std::process::Abort;
use yp_client::ClientFault;
use yp_client::orders::compare_orders;
use yp_client::query::QueryFault;
use yp_io::{Pair, Peer};
use yp_memory::{MemDial, MemSink, MemSource};
use yp_messages::YpStat;
use yp_rpc::ReplyHead;

const SECOND: Peer = Peer {
    addr: [10, 0, 0, 2],
    port: 834,
};

const THIRD: Peer = Peer {
    addr: [10, 0, 0, 3],
    port: 65_535,
};

/// The number of no call.
const NEVER: u64 = u64::MAX;

/// The calls for `lab`: MAPLIST; MASTER of `b` and `a` behind it, and then ORDER of both; and ORDER of both at first.
const MAPLIST_CALL: &str = "80000030 00000001 00000000 00000002 000186a4 00000002 0000000b \
    00000000 00000000 00000000 00000000 00000003 6c616200";

const MASTER_CALLS: &str = "80000038 00000002 00000000 00000002 000186a4 00000002 00000009 \
    00000000 00000000 00000000 00000000 00000003 6c616200 00000001 62000000 \
    80000038 00000003 00000000 00000002 000186a4 00000002 00000009 \
    00000000 00000000 00000000 00000000 00000003 6c616200 00000001 61000000";

const FIRST_ORDER_CALLS: &str = "80000038 00000004 00000000 00000002 000186a4 00000002 0000000a \
    00000000 00000000 00000000 00000000 00000003 6c616200 00000001 62000000 \
    80000038 00000005 00000000 00000002 000186a4 00000002 0000000a \
    00000000 00000000 00000000 00000000 00000003 6c616200 00000001 61000000";

const ORDER_CALLS: &str = "80000038 00000001 00000000 00000002 000186a4 00000002 0000000a \
    00000000 00000000 00000000 00000000 00000003 6c616200 00000001 62000000 \
    80000038 00000002 00000000 00000002 000186a4 00000002 0000000a \
    00000000 00000000 00000000 00000000 00000003 6c616200 00000001 61000000";

/// The maps `b` and `a`, and no maps.
const MAPS: &str = "80000038 00000001 00000001 00000000 00000000 00000000 00000000 00000001 \
    00000001 00000001 62000000 00000001 00000001 61000000 00000000";

const NO_MAPS: &str =
    "80000020 00000001 00000001 00000000 00000000 00000000 00000000 00000001 00000000";

/// The master `m1` of `b`, and `m2` of `a`.
const MASTERS: &str =
    "80000024 00000002 00000001 00000000 00000000 00000000 00000000 00000001 00000002 6d310000 \
    80000024 00000003 00000001 00000000 00000000 00000000 00000000 00000001 00000002 6d320000";

/// At the first server order 100 of `b` and 7 of `a`; and the status YP_YPERR for `a`.
const FIRST_ORDERS: &str =
    "80000020 00000004 00000001 00000000 00000000 00000000 00000000 00000001 00000064 \
    80000020 00000005 00000001 00000000 00000000 00000000 00000000 00000001 00000007";

const FIRST_LACKS: &str =
    "80000020 00000004 00000001 00000000 00000000 00000000 00000000 00000001 00000064 \
    80000020 00000005 00000001 00000000 00000000 00000000 00000000 fffffffa 00000000";

/// At another server the same orders; 99 of `b`; the status YP_NOMAP for `a`; the last order there is of `a`; and
/// YP_NODOM for both.
const SAME: &str =
    "80000020 00000001 00000001 00000000 00000000 00000000 00000000 00000001 00000064 \
    80000020 00000002 00000001 00000000 00000000 00000000 00000000 00000001 00000007";

const OLDER: &str =
    "80000020 00000001 00000001 00000000 00000000 00000000 00000000 00000001 00000063 \
    80000020 00000002 00000001 00000000 00000000 00000000 00000000 00000001 00000007";

const LACKS: &str =
    "80000020 00000001 00000001 00000000 00000000 00000000 00000000 00000001 00000064 \
    80000020 00000002 00000001 00000000 00000000 00000000 00000000 ffffffff 00000000";

const LAST: &str =
    "80000020 00000001 00000001 00000000 00000000 00000000 00000000 00000001 00000064 \
    80000020 00000002 00000001 00000000 00000000 00000000 00000000 00000001 ffffffff";

const NO_DOMAIN: &str =
    "80000020 00000001 00000001 00000000 00000000 00000000 00000000 fffffffe 00000000 \
    80000020 00000002 00000001 00000000 00000000 00000000 00000000 fffffffe 00000000";

/// All calls to the first server.
const FIRST_CALLS: &[&str] = &[MAPLIST_CALL, MASTER_CALLS, FIRST_ORDER_CALLS];

/// All calls to two servers.
const TWO_CALLS: &[&str] = &[MAPLIST_CALL, MASTER_CALLS, FIRST_ORDER_CALLS, ORDER_CALLS];

/// The other servers, what each wire gives, the call of each object that fails, counted from 0, and what comes: the
/// peers of the wires, which all went back, the calls that they took one behind the other, and what is printed.
#[derive(Clone, Copy)]
struct Row {
    name: &'static str,
    others: &'static [Peer],
    replies: [&'static [&'static str]; 3],
    dials: u64,
    reads: [u64; 2],
    writes: [u64; 2],
    prints: u64,
    result: Result<bool, QueryFault>,
    came: &'static [Peer],
    calls: &'static [&'static str],
    printed: &'static str,
}

const LEVEL: Row = Row {
    name: "the same orders",
    others: &[SECOND],
    replies: [&[MAPS, MASTERS, FIRST_ORDERS], &[SAME], &[]],
    dials: NEVER,
    reads: [NEVER, NEVER],
    writes: [NEVER, NEVER],
    prints: NEVER,
    result: Ok(true),
    came: &[SERVER, SECOND],
    calls: TWO_CALLS,
    printed: "b m1 100 100\na m2 7 7\n",
};

static ANSWERS: [Row; 10] = [
    LEVEL,
    Row {
        name: "an older map",
        replies: [&[MAPS, MASTERS, FIRST_ORDERS], &[OLDER], &[]],
        result: Ok(false),
        printed: "b m1 100 99\na m2 7 7\n",
        ..LEVEL
    },
    Row {
        name: "a map that isn't there",
        replies: [&[MAPS, MASTERS, FIRST_ORDERS], &[LACKS], &[]],
        result: Ok(false),
        printed: "b m1 100 100\na m2 7 none\n",
        ..LEVEL
    },
    Row {
        name: "no domain",
        replies: [&[MAPS, MASTERS, FIRST_ORDERS], &[NO_DOMAIN], &[]],
        result: Ok(false),
        printed: "b m1 100 none\na m2 7 none\n",
        ..LEVEL
    },
    Row {
        name: "no order at the first",
        replies: [&[MAPS, MASTERS, FIRST_LACKS], &[SAME], &[]],
        result: Ok(false),
        printed: "b m1 100 100\na m2 none 7\n",
        ..LEVEL
    },
    Row {
        name: "no order at both",
        replies: [&[MAPS, MASTERS, FIRST_LACKS], &[LACKS], &[]],
        printed: "b m1 100 100\na m2 none none\n",
        ..LEVEL
    },
    Row {
        name: "one server",
        others: &[],
        came: &[SERVER],
        calls: FIRST_CALLS,
        printed: "b m1 100\na m2 7\n",
        ..LEVEL
    },
    Row {
        name: "three servers",
        others: &[SECOND, THIRD],
        replies: [&[MAPS, MASTERS, FIRST_ORDERS], &[SAME], &[LAST]],
        result: Ok(false),
        came: &[SERVER, SECOND, THIRD],
        calls: &[
            MAPLIST_CALL,
            MASTER_CALLS,
            FIRST_ORDER_CALLS,
            ORDER_CALLS,
            ORDER_CALLS,
        ],
        printed: "b m1 100 100 100\na m2 7 7 4294967295\n",
        ..LEVEL
    },
    Row {
        name: "a server twice",
        others: &[SERVER],
        came: &[SERVER, SERVER],
        ..LEVEL
    },
    Row {
        name: "no maps",
        replies: [&[NO_MAPS], &[], &[]],
        calls: &[MAPLIST_CALL],
        printed: "",
        ..LEVEL
    },
];

/// A dial of the wires of a row.
fn dial_of<R: Abort>(rt: &R, alloc: Global, row: &Row) -> MemDial {
    let first = Pair {
        source: MemSource::new(
            bytes(rt, alloc, row.replies[0]),
            9,
            list(rt, alloc, &[row.reads[0]]),
        ),
        sink: MemSink::new(alloc, 16, list(rt, alloc, &[row.writes[0]])),
    };
    let second = Pair {
        source: MemSource::new(
            bytes(rt, alloc, row.replies[1]),
            9,
            list(rt, alloc, &[row.reads[1]]),
        ),
        sink: MemSink::new(alloc, 16, list(rt, alloc, &[row.writes[1]])),
    };
    let third = Pair {
        source: MemSource::new(bytes(rt, alloc, row.replies[2]), 9, Vec::new(alloc)),
        sink: MemSink::new(alloc, 16, Vec::new(alloc)),
    };
    let wires = vec![in alloc; first, second, third].expect(rt, "a list of wires");
    MemDial::new(alloc, wires, list(rt, alloc, &[row.dials]))
}

/// The peers of the wires that came.
fn peers_of<R: Abort>(rt: &R, alloc: Global, dial: &MemDial) -> Vec<Peer> {
    let mut peers = Vec::new(alloc);
    for wire in dial.came() {
        peers.push(wire.peer).expect(rt, "a list of peers");
    }
    peers
}

/// What the wires took that went back, one behind the other, and how many they are.
fn taken_by<R: Abort>(rt: &R, alloc: Global, dial: &MemDial) -> (Vec<u8>, usize) {
    let mut taken = Vec::new(alloc);
    for wire in dial.past() {
        taken
            .extend_from_slice(wire.sink.taken())
            .expect(rt, "a copy");
    }
    (taken, dial.past().len())
}

/// What came of a row: the result, the peers of the wires that came, what those took that went back, how many these
/// are, and what was printed.
#[derive(Drop)]
struct Came {
    result: Result<bool, QueryFault>,
    peers: Vec<Peer>,
    taken: Vec<u8>,
    back: usize,
    printed: Vec<u8>,
}

fn compare<R: Abort>(rt: &R, alloc: Global, row: &Row) -> Came {
    let mut dial = dial_of(rt, alloc, row);
    let mut sink = MemSink::new(alloc, 8, list(rt, alloc, &[row.prints]));
    let result = compare_orders(alloc, &mut dial, SERVER, row.others, b"lab", &mut sink);
    let (taken, back) = taken_by(rt, alloc, &dial);
    Came {
        result,
        peers: peers_of(rt, alloc, &dial),
        taken,
        back,
        printed: text(rt, alloc, sink.taken()),
    }
}

fn try_row<R: Abort>(rt: &R, alloc: Global, row: &Row) {
    let calls = bytes(rt, alloc, row.calls);
    let came = compare(rt, alloc, row);
    let said = (came.result, came.back, came.printed.as_slice());
    let wanted = (row.result, row.came.len(), row.printed.as_bytes());
    assert_same(rt, &said, &wanted, row.name);
    assert_same(rt, &came.peers.as_slice(), &row.came, row.name);
    assert_same(rt, &came.taken.as_slice(), &calls.as_slice(), row.name);
}

#[test]
fn orders_are_compared(rt: HostRuntime) {
    for row in &ANSWERS {
        try_row(&rt, rt.alloc(), row);
    }
}

/// A refusal of MAPLIST with YP_NODOM, of MASTER of `b` with YP_NOMAP, of MASTER by RPC, and a reply to MASTER with
/// another number.
const NO_LIST: &str =
    "80000020 00000001 00000001 00000000 00000000 00000000 00000000 fffffffe 00000000";

const NO_MASTER: &str =
    "80000020 00000002 00000001 00000000 00000000 00000000 00000000 ffffffff 00000000";

const DENIED_MASTER: &str = "80000014 00000002 00000001 00000001 00000001 00000002";

const OTHER_MASTER: &str =
    "80000024 00000009 00000001 00000000 00000000 00000000 00000000 00000001 00000002 6d310000";

/// A reply to ORDER that ends behind the status.
const SHORT_ORDER: &str = "8000001c 00000001 00000001 00000000 00000000 00000000 00000000 00000001";

const DENIED_ORDER: &str = "80000014 00000001 00000001 00000001 00000001 00000002";

/// The calls up to MASTER of `b`, and up to ORDER of `b` at the first server and at the second.
const MASTER_OF_B: &str = "80000038 00000002 00000000 00000002 000186a4 00000002 00000009 \
    00000000 00000000 00000000 00000000 00000003 6c616200 00000001 62000000";

const FIRST_ORDER_OF_B: &str = "80000038 00000004 00000000 00000002 000186a4 00000002 0000000a \
    00000000 00000000 00000000 00000000 00000003 6c616200 00000001 62000000";

const ORDER_OF_B: &str = "80000038 00000001 00000000 00000002 000186a4 00000002 0000000a \
    00000000 00000000 00000000 00000000 00000003 6c616200 00000001 62000000";

const UP_TO_MASTER: &[&str] = &[MAPLIST_CALL, MASTER_OF_B];

const UP_TO_FIRST_ORDER: &[&str] = &[MAPLIST_CALL, MASTER_CALLS, FIRST_ORDER_OF_B];

const UP_TO_ORDER: &[&str] = &[MAPLIST_CALL, MASTER_CALLS, FIRST_ORDER_CALLS, ORDER_OF_B];

const DENIED: ClientFault = ClientFault::Denied(ReplyHead::AuthError { stat: 2 });

/// A call to the first server is refused, and nothing is printed.
const FIRST_REFUSED: Row = Row {
    name: "no domain at the first",
    replies: [&[NO_LIST], &[SAME], &[]],
    result: Err(QueryFault::Client(ClientFault::Yp(YpStat::Nodom))),
    came: &[SERVER],
    calls: &[MAPLIST_CALL],
    printed: "",
    ..LEVEL
};

const SECOND_REFUSED: Row = Row {
    name: "no call to the second answered",
    replies: [&[MAPS, MASTERS, FIRST_ORDERS], &[], &[]],
    result: Err(QueryFault::Client(ClientFault::Torn { at: 0 })),
    calls: UP_TO_ORDER,
    printed: "",
    ..LEVEL
};

static REFUSALS: [Row; 10] = [
    FIRST_REFUSED,
    Row {
        name: "no reply at all",
        replies: [&[], &[SAME], &[]],
        result: Err(QueryFault::Client(ClientFault::Torn { at: 0 })),
        ..FIRST_REFUSED
    },
    Row {
        name: "no master",
        replies: [&[MAPS, NO_MASTER], &[SAME], &[]],
        result: Err(QueryFault::Client(ClientFault::Yp(YpStat::Nomap))),
        calls: UP_TO_MASTER,
        ..FIRST_REFUSED
    },
    Row {
        name: "a master denied",
        replies: [&[MAPS, DENIED_MASTER], &[SAME], &[]],
        result: Err(QueryFault::Client(DENIED)),
        calls: UP_TO_MASTER,
        ..FIRST_REFUSED
    },
    Row {
        name: "another reply",
        replies: [&[MAPS, OTHER_MASTER], &[SAME], &[]],
        result: Err(QueryFault::Client(ClientFault::BadXid { want: 2, got: 9 })),
        calls: UP_TO_MASTER,
        ..FIRST_REFUSED
    },
    // The reply to MAPLIST has 60 bytes, and each to MASTER 40.
    Row {
        name: "no order at the first",
        replies: [&[MAPS, MASTERS], &[SAME], &[]],
        result: Err(QueryFault::Client(ClientFault::Torn { at: 140 })),
        calls: UP_TO_FIRST_ORDER,
        ..FIRST_REFUSED
    },
    SECOND_REFUSED,
    Row {
        name: "a short order",
        replies: [&[MAPS, MASTERS, FIRST_ORDERS], &[SHORT_ORDER], &[]],
        result: Err(QueryFault::Client(ClientFault::BadReply { at: 28 })),
        ..SECOND_REFUSED
    },
    Row {
        name: "an order denied",
        replies: [&[MAPS, MASTERS, FIRST_ORDERS], &[DENIED_ORDER], &[]],
        result: Err(QueryFault::Client(DENIED)),
        ..SECOND_REFUSED
    },
    Row {
        name: "the second order is another reply",
        replies: [
            &[MAPS, MASTERS, FIRST_ORDERS],
            &[
                "80000020 00000001 00000001 00000000 00000000 00000000 00000000 00000001 00000064",
                "80000020 00000001 00000001 00000000 00000000 00000000 00000000 00000001 00000007",
            ],
            &[],
        ],
        result: Err(QueryFault::Client(ClientFault::BadXid { want: 2, got: 1 })),
        calls: TWO_CALLS,
        ..SECOND_REFUSED
    },
];

#[test]
fn refusals_print_no_line(rt: HostRuntime) {
    for row in &REFUSALS {
        try_row(&rt, rt.alloc(), row);
    }
}

/// A dial, a read or a write fails, and nothing is printed. The calls of a wire take 52 and 60 bytes, in pieces of 16.
const FAILS: Row = Row {
    printed: "",
    ..LEVEL
};

static FAILING: [Row; 9] = [
    Row {
        name: "the first dial",
        dials: 0,
        result: Err(QueryFault::Dial),
        came: &[],
        calls: &[],
        ..FAILS
    },
    Row {
        name: "the second dial",
        dials: 1,
        result: Err(QueryFault::Dial),
        came: &[SERVER],
        calls: FIRST_CALLS,
        ..FAILS
    },
    Row {
        name: "the first read",
        reads: [0, NEVER],
        result: Err(QueryFault::Client(ClientFault::ReadFault)),
        came: &[SERVER],
        calls: &[MAPLIST_CALL],
        ..FAILS
    },
    Row {
        name: "the first read of the second wire",
        reads: [NEVER, 0],
        result: Err(QueryFault::Client(ClientFault::ReadFault)),
        calls: UP_TO_ORDER,
        ..FAILS
    },
    Row {
        name: "the first write",
        writes: [0, NEVER],
        result: Err(QueryFault::Client(ClientFault::WriteFault)),
        came: &[SERVER],
        calls: &[],
        ..FAILS
    },
    Row {
        name: "the first write of the second wire",
        writes: [NEVER, 0],
        result: Err(QueryFault::Client(ClientFault::WriteFault)),
        calls: FIRST_CALLS,
        ..FAILS
    },
    // The text goes out in three writes of eight bytes, and a flush.
    Row {
        name: "the first print",
        prints: 0,
        result: Err(QueryFault::Output),
        ..FAILS
    },
    Row {
        name: "the second print",
        prints: 1,
        result: Err(QueryFault::Output),
        printed: "b m1 100",
        ..FAILS
    },
    Row {
        name: "the flush",
        prints: 3,
        result: Err(QueryFault::Output),
        printed: "b m1 100 100\na m2 7 7\n",
        ..FAILS
    },
];

#[test]
fn each_call_of_orders_fails(rt: HostRuntime) {
    for row in &FAILING {
        try_row(&rt, rt.alloc(), row);
    }
}
