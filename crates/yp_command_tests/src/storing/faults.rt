//! Each call outside of a transfer fails in turn, and the program stops at each call of the disk.

use crate::given::{try_disks, try_rows};
use crate::storing::source::{HOSTS_FILE, OLDER_FILE, REPLIES};
use yp_stage::{After, DiskCalls, FAIR, Row, Stands, try_reads, try_writes};

const WORDS: &[&str] = &[
    "xfr",
    "s1",
    "newer",
    "lab/hosts.byname",
    "m1@127.0.0.1:7001",
];

/// What is fetched.
const NEW: Stands = Some((100, 1, false));

const FETCHED: Row = Row {
    name: "nothing fails",
    words: WORDS,
    wire: REPLIES,
    output: "lab/hosts.byname order 100 generation 1\n",
    wires: 1,
    stands: NEW,
    left: HOSTS_FILE,
    ..FAIR
};

/// Nothing is fetched.
const UNFETCHED: Row = Row {
    name: "a call of the wire fails",
    code: 16,
    output: "",
    note: "yp: transfer -4\n",
    stands: None,
    left: &[],
    ..FETCHED
};

/// The line takes a write and a flush. Where one of them fails the map is stored.
static FAULTS: [Row; 6] = [
    Row {
        name: "no wire",
        dials: 0,
        wires: 0,
        ..UNFETCHED
    },
    Row {
        name: "no wire, and no note",
        dials: 0,
        notes: 0,
        note: "",
        wires: 0,
        ..UNFETCHED
    },
    Row {
        name: "no second call of the dial",
        dials: 1,
        ..FETCHED
    },
    Row {
        name: "no line",
        writes: 0,
        code: 4,
        output: "",
        note: "yp: write fault\n",
        ..FETCHED
    },
    Row {
        name: "no flush",
        writes: 1,
        code: 4,
        note: "yp: write fault\n",
        ..FETCHED
    },
    Row {
        name: "no third call of the output",
        writes: 2,
        ..FETCHED
    },
];

#[test]
fn dial_and_output_fail(rt: HostRuntime) {
    try_rows(&rt, rt.alloc(), &FAULTS);
}

static IN_PIECES: Row = Row {
    piece: 48,
    ..UNFETCHED
};

static AGAIN: [After; 1] = [FETCHES_ANEW];

/// A read or a write takes 48 bytes at most, so each of four calls of 68 bytes takes two writes and a flush, and each
/// of four replies a read of the head, and one of the body, or two.
#[test]
fn each_wire_call_fails(rt: HostRuntime) {
    let alloc = rt.alloc();
    try_reads(alloc, &rt, &IN_PIECES, 9, &AGAIN).expect(&rt, "a read");
    try_writes(alloc, &rt, &IN_PIECES, 12, &AGAIN).expect(&rt, "a write");
}

const NOT_LOADED: Row = Row {
    name: "the file isn't loaded",
    code: 10,
    note: "yp: disk fault in lab/hosts.byname\n",
    wires: 0,
    ..UNFETCHED
};

const NOT_STORED: Row = Row {
    name: "the version isn't stored",
    note: "yp: transfer -9\n",
    torn: true,
    ..UNFETCHED
};

/// The last call is the sync behind the write that shows the version.
const NOT_SYNCED: Row = Row {
    stands: NEW,
    ..NOT_STORED
};

/// The same transfer over a file without a version, and over one that has it.
const FETCHES_ANEW: After = After {
    stands: None,
    again: Row {
        name: "behind a crash that lost the version",
        torn: true,
        ..FETCHED
    },
};

const HAS_IT: After = After {
    stands: NEW,
    again: Row {
        name: "behind a crash that kept the version",
        code: 16,
        output: "",
        note: "yp: transfer 2 100 100\n",
        torn: true,
        ..FETCHED
    },
};

/// Two calls load the empty file, and nine store a version on it.
static DISK: [DiskCalls; 4] = [
    DiskCalls {
        row: NOT_LOADED,
        first: 0,
        last: 1,
        after: &[FETCHES_ANEW],
    },
    DiskCalls {
        row: NOT_STORED,
        first: 2,
        last: 9,
        after: &[FETCHES_ANEW],
    },
    DiskCalls {
        row: NOT_SYNCED,
        first: 10,
        last: 10,
        after: &[FETCHES_ANEW, HAS_IT],
    },
    DiskCalls {
        row: FETCHED,
        first: 11,
        last: 11,
        after: &[HAS_IT],
    },
];

#[test]
fn each_disk_call_fails(rt: HostRuntime) {
    try_disks(&rt, rt.alloc(), &DISK);
}

const OLDER: Stands = Some((99, 1, false));

const SECOND: Row = Row {
    name: "nothing fails over a version",
    file: OLDER_FILE,
    output: "lab/hosts.byname order 100 generation 2\n",
    torn: true,
    ..FETCHED
};

const OLDER_NOT_LOADED: Row = Row {
    name: "the older version isn't loaded",
    file: OLDER_FILE,
    stands: OLDER,
    left: OLDER_FILE,
    ..NOT_LOADED
};

const OLDER_STAYS: Row = Row {
    name: "the next version isn't stored",
    file: OLDER_FILE,
    stands: OLDER,
    ..NOT_STORED
};

const NEXT_NOT_SYNCED: Row = Row {
    stands: NEW,
    ..OLDER_STAYS
};

const FETCHES_NEXT: After = After {
    stands: OLDER,
    again: SECOND,
};

/// Four calls load a version, and five store the next one.
static SECOND_DISK: [DiskCalls; 4] = [
    DiskCalls {
        row: OLDER_NOT_LOADED,
        first: 0,
        last: 3,
        after: &[FETCHES_NEXT],
    },
    DiskCalls {
        row: OLDER_STAYS,
        first: 4,
        last: 7,
        after: &[FETCHES_NEXT],
    },
    DiskCalls {
        row: NEXT_NOT_SYNCED,
        first: 8,
        last: 8,
        after: &[FETCHES_NEXT, HAS_IT],
    },
    DiskCalls {
        row: SECOND,
        first: 9,
        last: 9,
        after: &[HAS_IT],
    },
];

#[test]
fn each_disk_call_over_a_version_fails(rt: HostRuntime) {
    try_disks(&rt, rt.alloc(), &SECOND_DISK);
}
