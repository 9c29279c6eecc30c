//! `build` over files in memory, laid out by hand.

use crate::given::{try_disks, try_rows};
use yp_stage::{After, DiskCalls, FAIR, Row, Stands};

const SECURE: &[&str] = &["build", "m1", "lab/hosts.byname", "secure"];

const PLAIN: &[&str] = &["build", "m1", "lab/hosts.byname", "plain"];

/// The first cell is open: generation 1, a body of 52 bytes at 64. The second is closed.
const CELLS: &str = "01000000 00000000 00000000 00000001 00000000 00000040 00000000 00000034
    00000000 00000000 00000000 00000000 00000000 00000000 00000000 00000000";

/// Both are open, the second with generation 2 and a body of 52 bytes at 116.
const BOTH_CELLS: &str = "01000000 00000000 00000000 00000001 00000000 00000040 00000000 00000034
    01000000 00000000 00000000 00000002 00000000 00000074 00000000 00000034";

/// The format of a version, and of a secure one, and order 100; and the orders 101 and 500 behind either format.
const OPEN: &str = "00000001 00000064";

const SHUT: &str = "00000002 00000064";

const OPEN_101: &str = "00000001 00000065";

const OPEN_500: &str = "00000001 000001f4";

const SHUT_101: &str = "00000002 00000065";

/// Master `m1`, and the row of `alpha`, behind the order.
const REST: &str = "00000002 6d310000 00000001
    00000005 616c7068 61000000 0000000e 31302e30 2e302e31 20616c70 68610000";

const LINE_101: &str = "lab/hosts.byname order 101 rows 1 generation 2\n";

const FIRST: Row = Row {
    name: "open",
    words: &["build", "m1", "lab/hosts.byname"],
    text: "10.0.0.1 alpha\n",
    moment: 100,
    output: "lab/hosts.byname order 100 rows 1 generation 1\n",
    stands: NEW,
    left: &[CELLS, OPEN, REST],
    ..FAIR
};

const NEW: Stands = Some((100, 1, false));

const SECOND: Row = Row {
    name: "open, after the clock went back",
    file: &[CELLS, OPEN, REST],
    moment: 50,
    output: LINE_101,
    stands: NEXT,
    left: &[BOTH_CELLS, OPEN, REST, OPEN_101, REST],
    ..FIRST
};

const NEXT: Stands = Some((101, 1, false));

/// The order rises where the clock went back, and follows it else. The mark stays, but for the flag.
static BUILDS: [Row; 7] = [
    FIRST,
    Row {
        name: "secure",
        words: SECURE,
        stands: Some((100, 1, true)),
        left: &[CELLS, SHUT, REST],
        ..FIRST
    },
    SECOND,
    Row {
        name: "open, later",
        moment: 500,
        output: "lab/hosts.byname order 500 rows 1 generation 2\n",
        stands: Some((500, 1, false)),
        left: &[BOTH_CELLS, OPEN, REST, OPEN_500, REST],
        ..SECOND
    },
    Row {
        name: "secure, unmarked",
        file: &[CELLS, SHUT, REST],
        moment: 100,
        stands: Some((101, 1, true)),
        left: &[BOTH_CELLS, SHUT, REST, SHUT_101, REST],
        ..SECOND
    },
    Row {
        name: "secure, then plain",
        words: PLAIN,
        file: &[CELLS, SHUT, REST],
        moment: 100,
        left: &[BOTH_CELLS, SHUT, REST, OPEN_101, REST],
        ..SECOND
    },
    Row {
        name: "open, then secure",
        words: SECURE,
        moment: 100,
        stands: Some((101, 1, true)),
        left: &[BOTH_CELLS, OPEN, REST, SHUT_101, REST],
        ..SECOND
    },
];

#[test]
fn builds(rt: HostRuntime) {
    try_rows(&rt, rt.alloc(), &BUILDS);
}

/// Nothing is stored.
const UNREAD: Row = Row {
    name: "the text isn't read",
    reads: 0,
    code: 3,
    output: "",
    note: "yp: read fault\n",
    stands: None,
    left: &[],
    ..FIRST
};

/// The text takes a read, and one more that finds its end; the line takes a write and a flush.
static FAULTS: [Row; 7] = [
    UNREAD,
    Row {
        name: "the end of the text isn't read",
        reads: 1,
        ..UNREAD
    },
    Row {
        name: "no third read",
        reads: 2,
        ..FIRST
    },
    Row {
        name: "no note",
        notes: 0,
        note: "",
        ..UNREAD
    },
    Row {
        name: "the line isn't written",
        writes: 0,
        code: 4,
        output: "",
        note: "yp: write fault\n",
        ..FIRST
    },
    Row {
        name: "the line isn't flushed",
        writes: 1,
        code: 4,
        note: "yp: write fault\n",
        ..FIRST
    },
    Row {
        name: "no third call of the output",
        writes: 2,
        ..FIRST
    },
];

#[test]
fn text_and_output_fail(rt: HostRuntime) {
    try_rows(&rt, rt.alloc(), &FAULTS);
}

const NOT_LOADED: Row = Row {
    name: "the disk fails",
    code: 10,
    output: "",
    note: "yp: disk fault in lab/hosts.byname\n",
    stands: None,
    left: &[],
    ..FIRST
};

const NOT_STORED: Row = Row {
    torn: true,
    ..NOT_LOADED
};

/// The last call is the sync behind the write that shows the version.
const NOT_SYNCED: Row = Row {
    stands: NEW,
    ..NOT_STORED
};

/// The same build over a file without a version, and over those with one, behind a crash.
const BUILDS_ANEW: After = After {
    stands: None,
    again: Row {
        torn: true,
        ..FIRST
    },
};

const BUILDS_NEXT: After = After {
    stands: NEW,
    again: Row {
        moment: 100,
        torn: true,
        ..SECOND
    },
};

/// Two calls load an empty file, and nine store a version on it.
static DISK: [DiskCalls; 4] = [
    DiskCalls {
        row: NOT_LOADED,
        first: 0,
        last: 1,
        after: &[BUILDS_ANEW],
    },
    DiskCalls {
        row: NOT_STORED,
        first: 2,
        last: 9,
        after: &[BUILDS_ANEW],
    },
    DiskCalls {
        row: NOT_SYNCED,
        first: 10,
        last: 10,
        after: &[BUILDS_ANEW, BUILDS_NEXT],
    },
    DiskCalls {
        row: FIRST,
        first: 11,
        last: 11,
        after: &[BUILDS_NEXT],
    },
];

#[test]
fn each_disk_call_fails(rt: HostRuntime) {
    try_disks(&rt, rt.alloc(), &DISK);
}

const OLD_NOT_LOADED: Row = Row {
    file: &[CELLS, OPEN, REST],
    stands: NEW,
    left: &[CELLS, OPEN, REST],
    ..NOT_LOADED
};

const NEXT_NOT_STORED: Row = Row {
    torn: true,
    ..OLD_NOT_LOADED
};

const NEXT_NOT_SYNCED: Row = Row {
    stands: NEXT,
    ..NEXT_NOT_STORED
};

const BUILDS_THIRD: After = After {
    stands: NEXT,
    again: Row {
        output: "lab/hosts.byname order 102 rows 1 generation 3\n",
        moment: 100,
        stands: Some((102, 1, false)),
        torn: true,
        ..SECOND
    },
};

/// Four calls load a version, and five store the next one.
static SECOND_DISK: [DiskCalls; 4] = [
    DiskCalls {
        row: OLD_NOT_LOADED,
        first: 0,
        last: 3,
        after: &[BUILDS_NEXT],
    },
    DiskCalls {
        row: NEXT_NOT_STORED,
        first: 4,
        last: 7,
        after: &[BUILDS_NEXT],
    },
    DiskCalls {
        row: NEXT_NOT_SYNCED,
        first: 8,
        last: 8,
        after: &[BUILDS_NEXT, BUILDS_THIRD],
    },
    DiskCalls {
        row: SECOND,
        first: 9,
        last: 9,
        after: &[BUILDS_THIRD],
    },
];

#[test]
fn each_disk_call_over_a_version_fails(rt: HostRuntime) {
    try_disks(&rt, rt.alloc(), &SECOND_DISK);
}
