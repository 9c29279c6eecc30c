//! Netgroups that are reversed: what is stored and told, each refusal, and each call outside that fails in turn.

use crate::given::{try_disks, try_rows};
use crate::storing::source::{
    BROKEN_FILE, BY_USER_FILE, LAST_GENERATION_FILE, LAST_ORDER_FILE, NETGROUP_FILE, SECURE_FILE,
};
use yp_stage::{After, DiskCalls, FAIR, Row, Stands};

const BY_USER: &[&str] = &["revnet", "m1", "lab/netgroup.byuser"];

const BY_HOST: &[&str] = &["revnet", "m1", "lab/netgroup.byhost"];

const STORED: &str = "lab/netgroup.byuser order 500 rows 1 generation 1\n";

/// What is made of the netgroups.
const NEW: Stands = Some((500, 1, false));

const FIRST: Row = Row {
    name: "users",
    words: BY_USER,
    other: NETGROUP_FILE,
    output: STORED,
    stands: NEW,
    left: BY_USER_FILE,
    ..FAIR
};

/// Nothing is made.
const REFUSED: Row = Row {
    output: "",
    stands: None,
    left: &[],
    ..FIRST
};

static ROWS: [Row; 9] = [
    FIRST,
    Row {
        name: "no hosts",
        words: BY_HOST,
        output: "lab/netgroup.byhost order 500 rows 0 generation 1\n",
        stands: Some((500, 0, false)),
        torn: true,
        ..FIRST
    },
    Row {
        name: "behind a secure version",
        file: SECURE_FILE,
        output: "lab/netgroup.byuser order 500 rows 1 generation 2\n",
        stands: Some((500, 1, true)),
        torn: true,
        ..FIRST
    },
    Row {
        name: "no netgroups",
        other: &[],
        code: 9,
        note: "yp: no version of lab/netgroup\n",
        ..REFUSED
    },
    Row {
        name: "damaged netgroups",
        other: BROKEN_FILE,
        code: 8,
        note: "yp: damaged lab/netgroup at 79 rule 5\n",
        ..REFUSED
    },
    Row {
        name: "both are damaged",
        file: BROKEN_FILE,
        other: BROKEN_FILE,
        code: 8,
        note: "yp: damaged lab/netgroup.byuser at 79 rule 5\n",
        left: BROKEN_FILE,
        ..REFUSED
    },
    Row {
        name: "another master, before a spent order",
        words: &["revnet", "m2", "lab/netgroup.byuser"],
        file: LAST_ORDER_FILE,
        code: 19,
        note: "yp: mastered by m1\n",
        stands: Some((4_294_967_295, 1, false)),
        left: LAST_ORDER_FILE,
        ..REFUSED
    },
    Row {
        name: "a spent order",
        file: LAST_ORDER_FILE,
        code: 18,
        note: "yp: order spent\n",
        stands: Some((4_294_967_295, 1, false)),
        left: LAST_ORDER_FILE,
        ..REFUSED
    },
    Row {
        name: "spent generations",
        file: LAST_GENERATION_FILE,
        code: 20,
        note: "yp: generations spent in lab/netgroup.byuser\n",
        stands: Some((100, 1, false)),
        left: LAST_GENERATION_FILE,
        ..REFUSED
    },
];

#[test]
fn reverses_and_refusals(rt: HostRuntime) {
    try_rows(&rt, rt.alloc(), &ROWS);
}

const NOT_LOADED: Row = Row {
    name: "a call of the netgroups fails",
    code: 10,
    note: "yp: disk fault in lab/netgroup\n",
    ..REFUSED
};

/// Four calls load the netgroups. The line takes a write and a flush; where one of them fails the map is stored.
static FAULTS: [Row; 8] = [
    Row {
        other_disk: 0,
        ..NOT_LOADED
    },
    Row {
        other_disk: 1,
        ..NOT_LOADED
    },
    Row {
        other_disk: 2,
        ..NOT_LOADED
    },
    Row {
        other_disk: 3,
        ..NOT_LOADED
    },
    Row {
        name: "no fifth call of the netgroups",
        other_disk: 4,
        ..FIRST
    },
    Row {
        name: "no note",
        other_disk: 0,
        notes: 0,
        note: "",
        ..NOT_LOADED
    },
    Row {
        name: "no line",
        writes: 0,
        code: 4,
        output: "",
        note: "yp: write fault\n",
        ..FIRST
    },
    Row {
        name: "no flush",
        writes: 1,
        code: 4,
        note: "yp: write fault\n",
        ..FIRST
    },
];

#[test]
fn netgroups_and_output_fail(rt: HostRuntime) {
    try_rows(&rt, rt.alloc(), &FAULTS);
}

const MAP_NOT_LOADED: Row = Row {
    name: "the map isn't loaded",
    note: "yp: disk fault in lab/netgroup.byuser\n",
    ..NOT_LOADED
};

const NOT_STORED: Row = Row {
    name: "the version isn't stored",
    torn: true,
    ..MAP_NOT_LOADED
};

/// The last call is the sync behind the write that shows the version.
const NOT_SYNCED: Row = Row {
    stands: NEW,
    ..NOT_STORED
};

/// The same words over a file without a version, and over one that has it.
const MADE_ANEW: After = After {
    stands: None,
    again: Row {
        name: "behind a crash that lost the version",
        torn: true,
        ..FIRST
    },
};

const MADE_NEXT: After = After {
    stands: NEW,
    again: Row {
        name: "behind a crash that kept the version",
        output: "lab/netgroup.byuser order 501 rows 1 generation 2\n",
        stands: Some((501, 1, false)),
        torn: true,
        ..FIRST
    },
};

/// Two calls load an empty file, and nine store a version on it.
static DISK: [DiskCalls; 4] = [
    DiskCalls {
        row: MAP_NOT_LOADED,
        first: 0,
        last: 1,
        after: &[MADE_ANEW],
    },
    DiskCalls {
        row: NOT_STORED,
        first: 2,
        last: 9,
        after: &[MADE_ANEW],
    },
    DiskCalls {
        row: NOT_SYNCED,
        first: 10,
        last: 10,
        after: &[MADE_ANEW, MADE_NEXT],
    },
    DiskCalls {
        row: FIRST,
        first: 11,
        last: 11,
        after: &[MADE_NEXT],
    },
];

#[test]
fn each_call_of_the_map_fails(rt: HostRuntime) {
    try_disks(&rt, rt.alloc(), &DISK);
}
