//! `load` over files in memory, laid out by hand.

use crate::given::{try_disks, try_rows};
use std::alloc::Global;
use std::process::Abort;
use std::random::RandomSource;
use std::sync::Wait;
use std::thread::Threads;
use std::time::Clock;
use yp_stage::{After, DiskCalls, FAIR, Row, Stands, strings_of, try_made};

const SECURE: &[&str] = &["load", "m1", "lab/auto.home", "secure"];

/// A closed cell.
const CLOSED: &str = "00000000 00000000 00000000 00000000 00000000 00000000 00000000 00000000";

/// An open cell: generation 1, a body of 68 bytes at 64.
const CELL: &str = "01000000 00000000 00000000 00000001 00000000 00000040 00000000 00000044";

/// The next one: generation 2, a body of 68 bytes at 132.
const NEXT_CELL: &str = "01000000 00000000 00000000 00000002 00000000 00000084 00000000 00000044";

/// The format of a version, and of a secure one, and order 100; and the order 101 behind the format.
const OPEN: &str = "00000001 00000064";

const SHUT: &str = "00000002 00000064";

const OPEN_101: &str = "00000001 00000065";

/// Master `m1`, and three rows, by their keys: `a` with `b  c`, `alone` with nothing, and `k` with `v`.
const REST: &str = "00000002 6d310000 00000003
    00000001 61000000 00000004 62202063
    00000005 616c6f6e 65000000 00000000
    00000001 6b000000 00000001 76000000";

/// A tab behind the key, blanks, an empty line, a line without a blank, and a key that was there.
const TEXT: &str = "k\tv\na b  c\n\nalone\nk\tw\n";

const NEW: Stands = Some((100, 3, false));

const FIRST: Row = Row {
    name: "rows",
    words: &["load", "m1", "lab/auto.home"],
    text: TEXT,
    moment: 100,
    output: "lab/auto.home order 100 rows 3 generation 1\n",
    stands: NEW,
    left: &[CELL, CLOSED, OPEN, REST],
    ..FAIR
};

const NEXT: Stands = Some((101, 3, false));

const SECOND: Row = Row {
    name: "the same again",
    file: &[CELL, CLOSED, OPEN, REST],
    output: "lab/auto.home order 101 rows 3 generation 2\n",
    stands: NEXT,
    left: &[CELL, NEXT_CELL, OPEN, REST, OPEN_101, REST],
    ..FIRST
};

/// A body of 20 bytes, which has no row.
const NO_ROW: Row = Row {
    name: "an empty input",
    text: "",
    output: "lab/auto.home order 100 rows 0 generation 1\n",
    stands: Some((100, 0, false)),
    left: &[
        "01000000 00000000 00000000 00000001 00000000 00000040 00000000 00000014",
        CLOSED,
        OPEN,
        "00000002 6d310000 00000000",
    ],
    ..FIRST
};

/// Blanks go but behind a tab, where the value begins, and a key may be empty. No line is a comment or goes on in the
/// next one. The body has 112 bytes.
const BLANKS: Row = Row {
    name: "blanks and marks",
    text: "#k\tv \nx \ty\ny\t z\nz\t\tw\\\n\tempty\nlast",
    output: "lab/auto.home order 100 rows 6 generation 1\n",
    stands: Some((100, 6, false)),
    left: &[
        "01000000 00000000 00000000 00000001 00000000 00000040 00000000 00000070",
        CLOSED,
        OPEN,
        "00000002 6d310000 00000006",
        "00000000 00000005 656d7074 79000000",
        "00000002 236b0000 00000002 76200000",
        "00000004 6c617374 00000000",
        "00000001 78000000 00000001 79000000",
        "00000001 79000000 00000002 207a0000",
        "00000001 7a000000 00000003 09775c00",
    ],
    ..FIRST
};

/// The last file is that of a build of the same row: a body of 52 bytes, with the row of `alpha`.
static LOADS: [Row; 9] = [
    FIRST,
    SECOND,
    NO_ROW,
    BLANKS,
    Row {
        name: "empty lines alone",
        text: "\n\n",
        ..NO_ROW
    },
    Row {
        name: "what a dump tells",
        text: "a\tb  c\nalone\t\nk\tv\n",
        ..FIRST
    },
    Row {
        name: "secure",
        words: SECURE,
        stands: Some((100, 3, true)),
        left: &[CELL, CLOSED, SHUT, REST],
        ..FIRST
    },
    Row {
        name: "another master",
        words: &["load", "m2", "lab/auto.home"],
        code: 19,
        output: "",
        note: "yp: mastered by m1\n",
        stands: NEW,
        left: &[CELL, CLOSED, OPEN, REST],
        ..SECOND
    },
    Row {
        name: "a map that has a kind",
        words: &["load", "m1", "lab/hosts.byname"],
        text: "alpha\t10.0.0.1 alpha\n",
        output: "lab/hosts.byname order 100 rows 1 generation 1\n",
        stands: Some((100, 1, false)),
        left: &[
            "01000000 00000000 00000000 00000001 00000000 00000040 00000000 00000034",
            CLOSED,
            OPEN,
            "00000002 6d310000 00000001",
            "00000005 616c7068 61000000 0000000e 31302e30 2e302e31 20616c70 68610000",
        ],
        ..FIRST
    },
];

#[test]
fn loads(rt: HostRuntime) {
    try_rows(&rt, rt.alloc(), &LOADS);
}

/// A row, and a text of so many `x` between two others.
type Long = (Row, &'static str, usize, &'static str);

const REFUSED: Row = Row {
    name: "a key over its limit",
    code: 17,
    output: "",
    note: "yp: row 3 rule 1\n",
    stands: None,
    left: &[],
    ..FIRST
};

const TAKEN: Row = Row {
    name: "the longest key",
    output: "lab/auto.home order 100 rows 2 generation 1\n",
    stands: Some((100, 2, false)),
    torn: true,
    ..FIRST
};

/// Keys and values at their limit of 65,536 bytes, and over it.
static LONG: [Long; 5] = [
    (TAKEN, "k\tv\n\n", 65_536, "\tv\n"),
    (REFUSED, "k\tv\n\n", 65_537, "\tv\n"),
    (
        Row {
            name: "a version that stands",
            file: &[CELL, CLOSED, OPEN, REST],
            stands: NEW,
            left: &[CELL, CLOSED, OPEN, REST],
            ..REFUSED
        },
        "k\tv\n\n",
        65_537,
        "\tv\n",
    ),
    (
        Row {
            name: "the longest value",
            ..TAKEN
        },
        "k\tv\n\na ",
        65_536,
        "\n",
    ),
    (
        Row {
            name: "a value over its limit",
            note: "yp: row 3 rule 2\n",
            ..REFUSED
        },
        "k\tv\n\na ",
        65_537,
        "\n",
    ),
];

fn long_text<R: Abort>(rt: &R, alloc: Global, front: &str, len: usize, back: &str) -> String {
    let middle = "x".repeat(alloc, len).expect(rt, "memory");
    format!(in alloc; "{front}{middle}{back}").expect(rt, "memory")
}

fn try_long<R: Threads + Wait + RandomSource + Clock + Abort + Sync>(
    rt: &R,
    alloc: Global,
    long: &Long,
) {
    let (row, front, len, back) = long;
    let text = long_text(rt, alloc, *front, *len, *back);
    let words = strings_of(alloc, row.words).expect(rt, "memory");
    let output = row.output.as_bytes();
    try_made(alloc, rt, row, &words, text.as_bytes(), output).expect(rt, row.name);
}

#[test]
fn loads_long_rows(rt: HostRuntime) {
    for long in &LONG {
        try_long(&rt, rt.alloc(), long);
    }
}

/// Nothing is stored.
const UNREAD: Row = Row {
    name: "the rows aren't read",
    reads: 0,
    code: 3,
    output: "",
    note: "yp: read fault\n",
    stands: None,
    left: &[],
    ..FIRST
};

/// The rows take a read, and one more that finds their end; the line takes a write and a flush.
static FAULTS: [Row; 7] = [
    UNREAD,
    Row {
        name: "the end of the rows isn't read",
        reads: 1,
        ..UNREAD
    },
    Row {
        name: "no third read",
        reads: 2,
        ..FIRST
    },
    Row {
        name: "no note",
        notes: 0,
        note: "",
        ..UNREAD
    },
    Row {
        name: "the line isn't written",
        writes: 0,
        code: 4,
        output: "",
        note: "yp: write fault\n",
        ..FIRST
    },
    Row {
        name: "the line isn't flushed",
        writes: 1,
        code: 4,
        note: "yp: write fault\n",
        ..FIRST
    },
    Row {
        name: "no third call of the output",
        writes: 2,
        ..FIRST
    },
];

#[test]
fn rows_and_output_fail(rt: HostRuntime) {
    try_rows(&rt, rt.alloc(), &FAULTS);
}

const NOT_LOADED: Row = Row {
    name: "the disk fails",
    code: 10,
    output: "",
    note: "yp: disk fault in lab/auto.home\n",
    left: &[CELL, CLOSED, OPEN, REST],
    stands: NEW,
    ..SECOND
};

const NOT_STORED: Row = Row {
    torn: true,
    ..NOT_LOADED
};

/// The last call is the sync behind the write that shows the version.
const NOT_SYNCED: Row = Row {
    stands: NEXT,
    ..NOT_STORED
};

/// The same rows over the version before, and over the next one, behind a crash.
const LOADS_NEXT: After = After {
    stands: NEW,
    again: Row {
        torn: true,
        ..SECOND
    },
};

const LOADS_THIRD: After = After {
    stands: NEXT,
    again: Row {
        output: "lab/auto.home order 102 rows 3 generation 3\n",
        stands: Some((102, 3, false)),
        torn: true,
        ..SECOND
    },
};

/// Four calls load a version, and five store the next one.
static DISK: [DiskCalls; 4] = [
    DiskCalls {
        row: NOT_LOADED,
        first: 0,
        last: 3,
        after: &[LOADS_NEXT],
    },
    DiskCalls {
        row: NOT_STORED,
        first: 4,
        last: 7,
        after: &[LOADS_NEXT],
    },
    DiskCalls {
        row: NOT_SYNCED,
        first: 8,
        last: 8,
        after: &[LOADS_NEXT, LOADS_THIRD],
    },
    DiskCalls {
        row: SECOND,
        first: 9,
        last: 9,
        after: &[LOADS_THIRD],
    },
];

#[test]
fn each_disk_call_of_load_fails(rt: HostRuntime) {
    try_disks(&rt, rt.alloc(), &DISK);
}
