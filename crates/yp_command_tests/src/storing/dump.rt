//! `dump` over a file in memory, laid out by hand.

use crate::given::try_rows;
use yp_stage::{FAIR, Row, Words};

/// A closed cell.
const CLOSED: &str = "00000000 00000000 00000000 00000000 00000000 00000000 00000000 00000000";

/// An open cell: generation 1, a body of 68 bytes at 64.
const CELL: &str = "01000000 00000000 00000000 00000001 00000000 00000040 00000000 00000044";

/// Order 100, master `m1`, and three rows: `a` with `b  c`, `alone` with nothing, and `k` with `v`.
const FILE: Words = &[
    CELL,
    CLOSED,
    "00000001 00000064 00000002 6d310000 00000003",
    "00000001 61000000 00000004 62202063",
    "00000005 616c6f6e 65000000 00000000",
    "00000001 6b000000 00000001 76000000",
];

/// The same, but byte 79, behind the master, is 1.
const DAMAGED: Words = &[
    CELL,
    CLOSED,
    "00000001 00000064 00000002 6d310001 00000003",
    "00000001 61000000 00000004 62202063",
    "00000005 616c6f6e 65000000 00000000",
    "00000001 6b000000 00000001 76000000",
];

/// What `load` makes of blanks and marks.
const BLANKS: Words = &[
    "01000000 00000000 00000000 00000001 00000000 00000040 00000000 00000070",
    CLOSED,
    "00000001 00000064 00000002 6d310000 00000006",
    "00000000 00000005 656d7074 79000000",
    "00000002 236b0000 00000002 76200000",
    "00000004 6c617374 00000000",
    "00000001 78000000 00000001 79000000",
    "00000001 79000000 00000002 207a0000",
    "00000001 7a000000 00000003 09775c00",
];

/// A version without a row.
const NO_ROW: Words = &[
    "01000000 00000000 00000000 00000001 00000000 00000040 00000000 00000014",
    CLOSED,
    "00000001 00000064 00000002 6d310000 00000000",
];

/// An open cell of a body of 52 bytes.
const SHORT_CELL: &str = "01000000 00000000 00000000 00000001 00000000 00000040 00000000 00000034";

/// Two rows: `a` with `b`, and `b c` with `d`.
const BLANK_IN_KEY: Words = &[
    SHORT_CELL,
    CLOSED,
    "00000001 00000064 00000002 6d310000 00000002",
    "00000001 61000000 00000001 62000000",
    "00000003 62206300 00000001 64000000",
];

/// The same, but with a line feed in place of the blank.
const LINE_FEED_IN_KEY: Words = &[
    SHORT_CELL,
    CLOSED,
    "00000001 00000064 00000002 6d310000 00000002",
    "00000001 61000000 00000001 62000000",
    "00000003 620a6300 00000001 64000000",
];

/// Two rows: `a` with a line feed between `b` and `c`, and `b` with `d`.
const LINE_FEED_IN_VALUE: Words = &[
    SHORT_CELL,
    CLOSED,
    "00000001 00000064 00000002 6d310000 00000002",
    "00000001 61000000 00000003 620a6300",
    "00000001 62000000 00000001 64000000",
];

const TOLD: Row = Row {
    name: "no fifth call of the disk",
    words: &["dump", "lab/auto.home"],
    text: "left",
    read: 4,
    file: FILE,
    disk: 4,
    output: "a\tb  c\nalone\t\nk\tv\n",
    stands: Some((100, 3, false)),
    left: FILE,
    ..FAIR
};

const UNFIT: Row = Row {
    name: "a blank in a key",
    file: BLANK_IN_KEY,
    code: 17,
    output: "",
    note: "yp: row 2 rule 1\n",
    stands: Some((100, 2, false)),
    left: BLANK_IN_KEY,
    ..TOLD
};

const NO_VERSION: Row = Row {
    name: "no version",
    file: &[],
    code: 9,
    output: "",
    note: "yp: no version of lab/auto.home\n",
    stands: None,
    left: &[],
    ..TOLD
};

static FILES: [Row; 9] = [
    TOLD,
    Row {
        name: "blanks and marks",
        file: BLANKS,
        output: "\tempty\n#k\tv \nlast\t\nx\ty\ny\t z\nz\t\tw\\\n",
        stands: Some((100, 6, false)),
        left: BLANKS,
        ..TOLD
    },
    Row {
        name: "a version without a row",
        file: NO_ROW,
        output: "",
        stands: Some((100, 0, false)),
        left: NO_ROW,
        ..TOLD
    },
    UNFIT,
    Row {
        name: "a line feed in a key",
        file: LINE_FEED_IN_KEY,
        left: LINE_FEED_IN_KEY,
        ..UNFIT
    },
    Row {
        name: "a line feed in a value",
        file: LINE_FEED_IN_VALUE,
        note: "yp: row 1 rule 2\n",
        left: LINE_FEED_IN_VALUE,
        ..UNFIT
    },
    NO_VERSION,
    Row {
        name: "closed cells",
        file: &[CLOSED, CLOSED],
        left: &[CLOSED, CLOSED],
        ..NO_VERSION
    },
    Row {
        name: "a padding that isn't zero",
        file: DAMAGED,
        code: 8,
        note: "yp: damaged lab/auto.home at 79 rule 5\n",
        left: DAMAGED,
        ..NO_VERSION
    },
];

#[test]
fn dumps(rt: HostRuntime) {
    try_rows(&rt, rt.alloc(), &FILES);
}

const NOT_LOADED: Row = Row {
    name: "no sync",
    disk: 0,
    code: 10,
    output: "",
    note: "yp: disk fault in lab/auto.home\n",
    ..TOLD
};

const UNWRITTEN: Row = Row {
    name: "no write",
    writes: 0,
    code: 4,
    output: "",
    note: "yp: write fault\n",
    ..TOLD
};

/// Of the disk there are the sync, the length, the cells and the body, and no fifth call, and of the output the write
/// and the flush, or three writes where each takes 6 bytes. Where there is no row, there is the flush alone.
static FAULTS: [Row; 9] = [
    NOT_LOADED,
    Row {
        name: "no length",
        disk: 1,
        ..NOT_LOADED
    },
    Row {
        name: "no cells",
        disk: 2,
        ..NOT_LOADED
    },
    Row {
        name: "no body",
        disk: 3,
        ..NOT_LOADED
    },
    Row {
        name: "no note",
        notes: 0,
        note: "",
        ..NOT_LOADED
    },
    UNWRITTEN,
    Row {
        name: "no flush",
        writes: 1,
        output: "a\tb  c\nalone\t\nk\tv\n",
        ..UNWRITTEN
    },
    Row {
        name: "no third write",
        write: 6,
        writes: 2,
        output: "a\tb  c\nalone",
        ..UNWRITTEN
    },
    Row {
        name: "no flush behind no row",
        file: NO_ROW,
        stands: Some((100, 0, false)),
        left: NO_ROW,
        ..UNWRITTEN
    },
];

#[test]
fn one_failing_call_of_dump(rt: HostRuntime) {
    try_rows(&rt, rt.alloc(), &FAULTS);
}
