//! Maps that workers fetch.

use crate::given::{NEVER, assert_same, named};
use crate::sample::{PROGRAM, fetching_desk};
use crate::workhost::stage::*;
use std::alloc::Global;
use std::marker::Brand;
use std::process::Abort;
use std::random::RandomSource;
use std::sync::Wait;
use yp_board::readers::Opened;
use yp_host::workers::{Outcomes, Totals};

// Names of words: what is posted of the transaction 9 to the program 0x40000000 up to its status, the statuses, what
// the source sends (order 100, master `m1`, the row `alpha`, and the order 100 or 101), and a file of order 100 by the
// master `m1`.
static NAMES: &str = "\
CALL_BACK = 00000009 00000000 00000002 40000000 00000001 00000001 00000000 00000000 00000000 \
    00000000 00000009
SUCC = 00000001
AGE = 00000002
SKEW = fffffff6
MADDR = fffffffb
RPC = fffffffc
ORDER_MASTER_ALL = 80000020 00000001 00000001 00000000 00000000 00000000 00000000 00000001 \
    00000064 80000024 00000002 00000001 00000000 00000000 00000000 00000000 00000001 00000002 \
    6d310000 80000044 00000003 00000001 00000000 00000000 00000000 00000000 00000001 00000001 \
    0000000e 31302e30 2e302e31 20616c70 68610000 00000005 616c7068 61000000 00000000
ORDER_100 = 80000020 00000004 00000001 00000000 00000000 00000000 00000000 00000001 00000064
ORDER_101 = 80000020 00000004 00000001 00000000 00000000 00000000 00000000 00000001 00000065
FILE = 01000000 00000000 00000000 00000001 00000000 00000040 00000000 00000034 00000000 00000000 \
    00000000 00000000 00000000 00000000 00000000 00000000 00000001 00000064 00000002 6d310000 \
    00000001 00000005 616c7068 61000000 0000000e 31302e30 2e302e31 20616c70 68610000
";

const NONE: Outcomes = Outcomes {
    no_address: 0,
    no_memory: 0,
    file: 0,
    source: 0,
    reached: 0,
};

const REACHED: Outcomes = Outcomes { reached: 1, ..NONE };

const FAILED: Outcomes = Outcomes { source: 1, ..NONE };

const UNKNOWN: Outcomes = Outcomes {
    no_address: 1,
    ..NONE
};

// The own name, the file, what the source sends, the call of the dial that fails, what the first worker then holds,
// what its transfer came to, and what is posted.
struct Row {
    name: &'static str,
    own: &'static [u8],
    source: &'static [u8],
    file: &'static str,
    replies: &'static str,
    refused: u64,
    held: Option<u32>,
    outcomes: Outcomes,
    posted: &'static str,
}

const FETCHED: Row = Row {
    name: "a map that is fetched",
    own: b"s1",
    source: b"m1",
    file: "",
    replies: "ORDER_MASTER_ALL ORDER_100",
    refused: NEVER,
    held: Some(100),
    outcomes: REACHED,
    posted: "CALL_BACK SUCC",
};

static ROWS: [Row; 6] = [
    FETCHED,
    Row {
        name: "one that is shown already",
        file: "FILE",
        posted: "CALL_BACK AGE",
        ..FETCHED
    },
    Row {
        name: "a source that changes meanwhile",
        replies: "ORDER_MASTER_ALL ORDER_101",
        held: None,
        outcomes: FAILED,
        posted: "CALL_BACK SKEW",
        ..FETCHED
    },
    Row {
        name: "a source that sends nothing",
        replies: "",
        held: None,
        outcomes: FAILED,
        posted: "CALL_BACK RPC",
        ..FETCHED
    },
    Row {
        name: "a source that is not reached",
        refused: 0,
        held: None,
        outcomes: FAILED,
        posted: "CALL_BACK RPC",
        ..FETCHED
    },
    Row {
        name: "a source without an address",
        source: b"m2",
        held: None,
        outcomes: UNKNOWN,
        posted: "CALL_BACK MADDR",
        ..FETCHED
    },
];

// What comes of a row.
fn came_of<R: RandomSource + Wait + Abort>(rt: &R, alloc: Global, row: &Row) -> Played {
    let file = named(rt, alloc, NAMES, row.file);
    let replies = named(rt, alloc, NAMES, row.replies);
    let desk = fetching_desk(rt, alloc, b"m1", replies, row.refused);
    let script = Script {
        acts: &[(true, Act::Transfer)],
        source: row.source,
        fetching: false,
    };
    let place = Place {
        own: row.own,
        file,
        desk,
    };
    staged::<Brand, _, R>(rt, alloc, Opened::new(), place, script)
}

// What is wanted of a row.
fn wanted_of(rt: &impl Abort, alloc: Global, row: &Row) -> Played {
    let came = vec![in alloc; (None, row.held)].expect(rt, "what came");
    let letter = (PROGRAM, named(rt, alloc, NAMES, row.posted));
    let posted = vec![in alloc; letter].expect(rt, "a letter");
    let totals = Totals {
        files: 0,
        made: 0,
        transfers: 1,
        outcomes: row.outcomes,
    };
    (came, totals, posted)
}

fn try_row<R: RandomSource + Wait + Abort>(rt: &R, alloc: Global, row: &Row) {
    let wanted = wanted_of(rt, alloc, row);
    let came = came_of(rt, alloc, row);
    assert_same(rt, &came, &wanted, row.name);
}

#[test]
fn worker_transfer(rt: HostRuntime) {
    for row in &ROWS {
        try_row(&rt, rt.alloc(), row);
    }
}
