//! `sample` over memory. A row takes 24 bytes of the stored body, behind 24 bytes of its head, and 32 bytes of the
//! reply to ALL, behind 24 bytes of its head and before 4 bytes of its end.

use crate::given::try_rows;
use yp_stage::{FAIR, Row};

/// Writes take ten bytes at most.
const ONE: Row = Row {
    name: "one row",
    words: &["sample", "0", "1"],
    write: 10,
    output: "rows 1 body 48 all 60 matched 1\n",
    ..FAIR
};

/// The start and the count, and the line that comes.
static LINES: [Row; 5] = [
    ONE,
    Row {
        name: "no row",
        words: &["sample", "0", "0"],
        output: "rows 0 body 24 all 28 matched 0\n",
        ..ONE
    },
    Row {
        name: "three rows",
        words: &["sample", "0", "3"],
        output: "rows 3 body 96 all 124 matched 3\n",
        ..ONE
    },
    Row {
        name: "three rows from the last number",
        words: &["sample", "4294967295", "3"],
        output: "rows 3 body 96 all 124 matched 3\n",
        ..ONE
    },
    Row {
        name: "a thousand rows",
        words: &["sample", "0", "1000"],
        output: "rows 1000 body 24024 all 32028 matched 1000\n",
        ..ONE
    },
];

#[test]
fn numbers_told(rt: HostRuntime) {
    try_rows(&rt, rt.alloc(), &LINES);
}

const UNWRITTEN: Row = Row {
    name: "the first write fails",
    writes: 0,
    code: 4,
    cut: 0,
    note: "yp: write fault\n",
    ..ONE
};

/// The line of one row takes four writes, and a flush. Where one of them fails, so much of the line is there.
static FAULTS: [Row; 6] = [
    UNWRITTEN,
    Row {
        name: "the second write fails",
        writes: 1,
        cut: 10,
        ..UNWRITTEN
    },
    Row {
        name: "the third write fails",
        writes: 2,
        cut: 20,
        ..UNWRITTEN
    },
    Row {
        name: "the fourth write fails",
        writes: 3,
        cut: 30,
        ..UNWRITTEN
    },
    Row {
        name: "the flush fails",
        writes: 4,
        cut: 32,
        ..UNWRITTEN
    },
    Row {
        name: "no note",
        notes: 0,
        note: "",
        ..UNWRITTEN
    },
];

#[test]
fn each_call_of_the_output_fails(rt: HostRuntime) {
    try_rows(&rt, rt.alloc(), &FAULTS);
}
