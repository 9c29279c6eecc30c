//! Maps that workers make.

use crate::given::{NEVER, assert_same, named};
use crate::sample::desk_of;
use crate::workhost::stage::*;
use std::alloc::Global;
use std::marker::Brand;
use std::process::Abort;
use std::random::RandomSource;
use std::sync::Wait;
use yp_board::readers::Opened;
use yp_messages::XfrStat;

const TEXT: &[u8] = b"10.0.0.1 alpha\n";

// Files of a version of master `m1`: two cells, the first of generation 1 or of the last one, and a body of the order
// 100 or of the last one.
static NAMES: &str = "\
ORDER_100 = 01000000 00000000 00000000 00000001 00000000 00000040 00000000 00000034 00000000 \
    00000000 00000000 00000000 00000000 00000000 00000000 00000000 00000001 00000064 00000002 \
    6d310000 00000001 00000005 616c7068 61000000 0000000e 31302e30 2e302e31 20616c70 68610000
LAST_ORDER = 01000000 00000000 00000000 00000001 00000000 00000040 00000000 00000034 00000000 \
    00000000 00000000 00000000 00000000 00000000 00000000 00000000 00000001 ffffffff 00000002 \
    6d310000 00000001 00000005 616c7068 61000000 0000000e 31302e30 2e302e31 20616c70 68610000
LAST_STORED = 01000000 00000000 ffffffff ffffffff 00000000 00000040 00000000 00000034 00000000 \
    00000000 00000000 00000000 00000000 00000000 00000000 00000000 00000001 00000064 00000002 \
    6d310000 00000001 00000005 616c7068 61000000 0000000e 31302e30 2e302e31 20616c70 68610000
";

// A host's own name, a file, the read of the text that fails, what is done, whether the dial is held meanwhile, what
// comes of it, and how often that is FILE and how often SUCC.
struct Row {
    name: &'static str,
    own: &'static [u8],
    file: &'static str,
    failing: u64,
    acts: &'static [(bool, Act)],
    fetching: bool,
    came: &'static [Came],
    files: u64,
    made: u64,
}

const FIRST: bool = true;

const SECOND: bool = false;

const EMPTY: Row = Row {
    name: "a map that is made is known",
    own: b"m1",
    file: "",
    failing: NEVER,
    acts: &[(FIRST, Act::Make)],
    fetching: false,
    came: &[(Some(XfrStat::Succ), Some(100))],
    files: 0,
    made: 1,
};

static ROWS: [Row; 10] = [
    EMPTY,
    Row {
        name: "no map that is made waits for one that is fetched",
        acts: &[(FIRST, Act::Make), (SECOND, Act::Make)],
        fetching: true,
        came: &[
            (Some(XfrStat::Succ), Some(100)),
            (Some(XfrStat::Succ), Some(101)),
        ],
        made: 2,
        ..EMPTY
    },
    Row {
        name: "the order rises where the clock does not",
        file: "ORDER_100",
        came: &[(Some(XfrStat::Succ), Some(101))],
        ..EMPTY
    },
    Row {
        name: "what another worker made meanwhile is under what is made",
        acts: &[
            (FIRST, Act::Make),
            (SECOND, Act::Make),
            (FIRST, Act::Make),
            (SECOND, Act::CatchUp),
            (FIRST, Act::Refresh),
        ],
        came: &[
            (Some(XfrStat::Succ), Some(100)),
            (Some(XfrStat::Succ), Some(101)),
            (Some(XfrStat::Succ), Some(102)),
            (None, Some(102)),
            (None, Some(102)),
        ],
        made: 3,
        ..EMPTY
    },
    Row {
        name: "another worker knows of it once it asks",
        acts: &[
            (SECOND, Act::CatchUp),
            (FIRST, Act::Make),
            (SECOND, Act::CatchUp),
        ],
        came: &[
            (None, None),
            (Some(XfrStat::Succ), Some(100)),
            (None, Some(100)),
        ],
        ..EMPTY
    },
    Row {
        name: "a read step sees it too",
        acts: &[(FIRST, Act::Make), (SECOND, Act::Refresh)],
        came: &[(Some(XfrStat::Succ), Some(100)), (None, Some(100))],
        ..EMPTY
    },
    Row {
        name: "the orders are spent",
        file: "LAST_ORDER",
        came: &[(Some(XfrStat::Age), Some(u32::MAX))],
        made: 0,
        ..EMPTY
    },
    Row {
        name: "another master",
        own: b"m2",
        file: "ORDER_100",
        came: &[(Some(XfrStat::Refused), Some(100))],
        made: 0,
        ..EMPTY
    },
    Row {
        name: "a text that is not read, and then is",
        failing: 0,
        acts: &[(FIRST, Act::Make), (SECOND, Act::Make)],
        came: &[
            (Some(XfrStat::File), None),
            (Some(XfrStat::Succ), Some(100)),
        ],
        files: 1,
        ..EMPTY
    },
    Row {
        name: "the generations are spent",
        file: "LAST_STORED",
        came: &[(Some(XfrStat::File), Some(100))],
        files: 1,
        made: 0,
        ..EMPTY
    },
];

// What comes of a row.
fn came_of<R: RandomSource + Wait + Abort>(rt: &R, alloc: Global, row: &Row) -> Played {
    let file = named(rt, alloc, NAMES, row.file);
    let desk = desk_of(rt, alloc, TEXT, 100, row.failing);
    let script = Script {
        acts: row.acts,
        source: b"m1",
        fetching: row.fetching,
    };
    let place = Place {
        own: row.own,
        file,
        desk,
    };
    staged::<Brand, _, R>(rt, alloc, Opened::new(), place, script)
}

fn try_row<R: RandomSource + Wait + Abort>(rt: &R, alloc: Global, row: &Row) {
    let (came, totals, _) = came_of(rt, alloc, row);
    let found = (came.as_slice(), totals.files, totals.made, totals.transfers);
    assert_same(rt, &found, &(row.came, row.files, row.made, 0), row.name);
}

#[test]
fn made_maps(rt: HostRuntime) {
    for row in &ROWS {
        try_row(&rt, rt.alloc(), row);
    }
}
