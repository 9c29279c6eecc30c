//! `check` over a file in memory, laid out by hand.

use crate::given::try_rows;
use yp_stage::{FAIR, Row, Words};

/// The first cell is open: generation 1, a body of 52 bytes at 64. The second is closed. The version has order 100,
/// master `m1` and the row of `alpha`.
const FILE: Words = &[
    "01000000 00000000 00000000 00000001 00000000 00000040 00000000 00000034",
    "00000000 00000000 00000000 00000000 00000000 00000000 00000000 00000000",
    "00000001 00000064 00000002 6d310000 00000001 00000005 616c7068 61000000",
    "0000000e 31302e30 2e302e31 20616c70 68610000",
];

const TOLD: Row = Row {
    name: "no sixth call of the disk",
    words: &["check", "lab/hosts.byname"],
    text: "left",
    read: 4,
    file: FILE,
    disk: 5,
    output: "lab/hosts.byname order 100 master m1 rows 1 generation 1\n",
    stands: Some((100, 1, false)),
    left: FILE,
    ..FAIR
};

const NOT_LOADED: Row = Row {
    name: "no sync",
    disk: 0,
    code: 10,
    output: "",
    note: "yp: disk fault in lab/hosts.byname\n",
    ..TOLD
};

/// Of the disk there are the sync, the length, the cells, what stands before the rows, and the rows, and no sixth call,
/// and of the output the write and the flush.
static FAULTS: [Row; 9] = [
    TOLD,
    NOT_LOADED,
    Row {
        name: "no length",
        disk: 1,
        ..NOT_LOADED
    },
    Row {
        name: "no cells",
        disk: 2,
        ..NOT_LOADED
    },
    Row {
        name: "nothing before the rows",
        disk: 3,
        ..NOT_LOADED
    },
    Row {
        name: "no rows",
        disk: 4,
        ..NOT_LOADED
    },
    Row {
        name: "no note",
        notes: 0,
        note: "",
        ..NOT_LOADED
    },
    Row {
        name: "no write",
        writes: 0,
        code: 4,
        output: "",
        note: "yp: write fault\n",
        ..TOLD
    },
    Row {
        name: "no flush",
        writes: 1,
        code: 4,
        note: "yp: write fault\n",
        ..TOLD
    },
];

#[test]
fn one_failing_call_of_check(rt: HostRuntime) {
    try_rows(&rt, rt.alloc(), &FAULTS);
}
