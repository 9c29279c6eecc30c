//! A map that callers make: each call of its text, of its disk and of a connection fails in turn.

use crate::bytes::{
    ADDRESS, FILE, FIRST, MADE, MAKE, MATCH, NEXT, NOMAP, NULL, NULL_REPLY, UNMADE, VERSION_100,
};
use crate::given::{try_all, try_each, try_rows_after};
use yp_stage::{After, DiskCalls, FAIR, Row, Stands, Words};

/// The file with both versions, of order 100 at generation 1, and of order 101 at generation 2.
const BOTH_FILE: Words = &[
    "01000000 00000000 00000000 00000001 00000000 00000040 00000000 00000034",
    "01000000 00000000 00000000 00000002 00000000 00000074 00000000 00000034",
    VERSION_100,
    "00000001 00000065 00000002 6d310000 00000001",
    "00000005 616c7068 61000000 0000000e 31302e30 2e302e31 20616c70 68610000",
];

/// The file whose master has a padding byte that isn't 0.
const BAD_PADDING: Words = &[
    "01000000 00000000 00000000 00000001 00000000 00000040 00000000 00000034",
    "00000000 00000000 00000000 00000000 00000000 00000000 00000000 00000000",
    "00000001 00000064 00000002 6d310001 00000001",
    "00000005 616c7068 61000000 0000000e 31302e30 2e302e31 20616c70 68610000",
];

/// The orders behind those of both versions.
const THIRD: Stands = Some((102, 1, false));

const FOURTH: Stands = Some((103, 1, false));

/// MATCH, MAKE and MATCH, and MAKE and MATCH once more, over a map without a version.
const MADE_TWICE: Row = Row {
    name: "nothing fails",
    words: &["serve", "m1", "7001", "1", "1", "0", "lab/hosts.byname"],
    calls: &[&[
        "8000004c 00000001",
        MATCH,
        "80000034 00000002",
        MAKE,
        "8000004c 00000003",
        MATCH,
        "80000034 00000004",
        MAKE,
        "8000004c 00000005",
        MATCH,
    ]],
    most: 1,
    sources: &[("hosts", "10.0.0.1 alpha\n")],
    moment: 100,
    output: "connections 1 calls 5\n",
    takes: &[&[
        "80000020 00000001",
        NOMAP,
        "8000001c 00000002",
        MADE,
        "80000030 00000003",
        ADDRESS,
        "8000001c 00000004",
        MADE,
        "80000030 00000005",
        ADDRESS,
    ]],
    stands: NEXT,
    left: BOTH_FILE,
    ..FAIR
};

/// The first MAKE has FILE, and the second one makes the map.
const MADE_LATE: Row = Row {
    name: "the first MAKE has FILE",
    takes: &[&[
        "80000020 00000001",
        NOMAP,
        "8000001c 00000002",
        UNMADE,
        "80000020 00000003",
        NOMAP,
        "8000001c 00000004",
        MADE,
        "80000030 00000005",
        ADDRESS,
    ]],
    stands: FIRST,
    left: FILE,
    ..MADE_TWICE
};

/// The second MAKE has FILE.
const MADE_EARLY: Row = Row {
    name: "the second MAKE has FILE",
    takes: &[&[
        "80000020 00000001",
        NOMAP,
        "8000001c 00000002",
        MADE,
        "80000030 00000003",
        ADDRESS,
        "8000001c 00000004",
        UNMADE,
        "80000030 00000005",
        ADDRESS,
    ]],
    stands: FIRST,
    left: FILE,
    ..MADE_TWICE
};

/// The same calls over what a crash may leave: a file without a version, and one with the version of order 100, or with
/// that of order 101.
const MADE_ANEW: After = After {
    stands: None,
    again: Row {
        name: "behind a crash that lost the version",
        torn: true,
        ..MADE_TWICE
    },
};

const MADE_OVER: After = After {
    stands: FIRST,
    again: MADE_BEHIND,
};

const MADE_OVER_NEXT: After = After {
    stands: NEXT,
    again: Row {
        stands: FOURTH,
        ..MADE_BEHIND
    },
};

const MADE_BEHIND: Row = Row {
    name: "behind a crash that kept a version",
    takes: &[&[
        "80000030 00000001",
        ADDRESS,
        "8000001c 00000002",
        MADE,
        "80000030 00000003",
        ADDRESS,
        "8000001c 00000004",
        MADE,
        "80000030 00000005",
        ADDRESS,
    ]],
    stands: THIRD,
    torn: true,
    ..MADE_TWICE
};

// ---- the text

static TEXTS: [Row; 3] = [
    Row {
        name: "the first read of the text fails",
        texts: 0,
        ..MADE_LATE
    },
    Row {
        name: "the second read of the text fails",
        texts: 1,
        ..MADE_EARLY
    },
    Row {
        name: "no third read of the text",
        texts: 2,
        ..MADE_TWICE
    },
];

static MADE_AFTER: [After; 2] = [MADE_OVER, MADE_OVER_NEXT];

#[test]
fn each_read_of_the_text_fails(rt: HostRuntime) {
    try_rows_after(&rt, rt.alloc(), &TEXTS, &MADE_AFTER);
}

// ---- the disk

const NOT_LOADED: Row = Row {
    name: "the file isn't loaded",
    code: 10,
    output: "",
    note: "yp: disk fault in lab/hosts.byname\n",
    takes: &[],
    stands: None,
    left: &[],
    ..MADE_TWICE
};

/// No connection is accepted.
static DAMAGED: [Row; 1] = [Row {
    name: "a damaged file",
    file: BAD_PADDING,
    code: 8,
    note: "yp: damaged lab/hosts.byname at 79 rule 5\n",
    left: BAD_PADDING,
    ..NOT_LOADED
}];

#[test]
fn damaged_file(rt: HostRuntime) {
    try_rows_after(&rt, rt.alloc(), &DAMAGED, &[]);
}

/// Two calls load the empty file, nine install the first version, and five the second one. Where one of these fails
/// alone, the next MAKE opens the file again.
static CALLS: [DiskCalls; 6] = [
    DiskCalls {
        row: NOT_LOADED,
        first: 0,
        last: 1,
        after: &[MADE_ANEW],
    },
    DiskCalls {
        row: MADE_LATE,
        first: 2,
        last: 9,
        after: &[MADE_OVER],
    },
    DiskCalls {
        row: Row {
            name: "the last call of the first install fails",
            stands: NEXT,
            left: BOTH_FILE,
            ..MADE_LATE
        },
        first: 10,
        last: 10,
        after: &[MADE_OVER_NEXT],
    },
    DiskCalls {
        row: NEXT_UNSTORED,
        first: 11,
        last: 14,
        after: &[MADE_OVER],
    },
    DiskCalls {
        row: NEXT_UNSYNCED,
        first: 15,
        last: 15,
        after: &[MADE_OVER, MADE_OVER_NEXT],
    },
    DiskCalls {
        row: MADE_TWICE,
        first: 16,
        last: 16,
        after: &[MADE_OVER_NEXT],
    },
];

const NEXT_UNSTORED: Row = Row {
    name: "a call of the second install fails",
    torn: true,
    ..MADE_EARLY
};

/// The file reads as the new version until a crash.
const NEXT_UNSYNCED: Row = Row {
    name: "the last call of the second install fails",
    stands: NEXT,
    ..NEXT_UNSTORED
};

/// The disk stops: both MAKEs have FILE.
const STOPPED: Row = Row {
    name: "the disk stops",
    takes: &[&[
        "80000020 00000001",
        NOMAP,
        "8000001c 00000002",
        UNMADE,
        "80000020 00000003",
        NOMAP,
        "8000001c 00000004",
        UNMADE,
        "80000020 00000005",
        NOMAP,
    ]],
    stands: None,
    torn: true,
    ..MADE_TWICE
};

static STOPS: [DiskCalls; 6] = [
    DiskCalls {
        row: NOT_LOADED,
        first: 0,
        last: 1,
        after: &[MADE_ANEW],
    },
    DiskCalls {
        row: STOPPED,
        first: 2,
        last: 9,
        after: &[MADE_ANEW],
    },
    DiskCalls {
        row: Row {
            name: "the disk stops at the last call of the first install",
            stands: FIRST,
            ..STOPPED
        },
        first: 10,
        last: 10,
        after: &[MADE_ANEW, MADE_OVER],
    },
    DiskCalls {
        row: NEXT_UNSTORED,
        first: 11,
        last: 14,
        after: &[MADE_OVER],
    },
    DiskCalls {
        row: NEXT_UNSYNCED,
        first: 15,
        last: 15,
        after: &[MADE_OVER, MADE_OVER_NEXT],
    },
    DiskCalls {
        row: MADE_TWICE,
        first: 16,
        last: 16,
        after: &[MADE_OVER_NEXT],
    },
];

#[test]
fn each_disk_call_fails(rt: HostRuntime) {
    try_each(&rt, rt.alloc(), &CALLS);
}

#[test]
fn disk_stops_at_each_call(rt: HostRuntime) {
    try_all(&rt, rt.alloc(), &STOPS);
}

// ---- a connection

/// MAKE and MATCH over a connection that fails, and beside it NULL over another one. Both go in pieces of 40 bytes at
/// most.
const SERVED: Row = Row {
    name: "nothing fails",
    words: &["serve", "m1", "7001", "1", "2", "0", "lab/hosts.byname"],
    calls: &[
        &["80000034 00000004", MAKE, "8000004c 00000005", MATCH],
        &["80000028", NULL],
    ],
    most: 2,
    piece: 40,
    sources: &[("hosts", "10.0.0.1 alpha\n")],
    moment: 100,
    output: "connections 2 calls 3\n",
    takes: TOLD_OF_BOTH,
    stands: FIRST,
    left: FILE,
    ..FAIR
};

const TOLD_OF_BOTH: &[Words] = &[
    &["8000001c 00000004", MADE, "80000030 00000005", ADDRESS],
    &["80000018", NULL_REPLY],
];

/// No call of the first connection is read. Two reads bring all of MAKE, two more all of MATCH, and one the end of the
/// input.
const UNREAD: Row = Row {
    name: "the front of MAKE isn't read",
    call_reads: 0,
    output: "connections 2 calls 1\n",
    takes: &[&[], &["80000018", NULL_REPLY]],
    stands: None,
    left: &[],
    ..SERVED
};

/// The first connection has the reply to MAKE alone.
const TOLD_OF_MAKE: &[Words] = &[&["8000001c 00000004", MADE], &["80000018", NULL_REPLY]];

const UNREAD_BEHIND: Row = Row {
    name: "more of MATCH isn't read",
    call_reads: 2,
    output: "connections 2 calls 2\n",
    takes: TOLD_OF_MAKE,
    ..SERVED
};

/// The reply to MAKE takes a write and a flush, and MAKE is carried out before it.
const UNWRITTEN: Row = Row {
    name: "the reply to MAKE isn't written",
    call_writes: 0,
    output: "connections 2 calls 2\n",
    takes: &[&[], &["80000018", NULL_REPLY]],
    ..SERVED
};

/// The same calls, and the front of a record behind them, in pieces of 84 bytes at most: the reply to MATCH is held
/// back until that front was looked at, and then takes a write and a flush.
const FOLLOWED: Row = Row {
    name: "the front of a third call comes",
    calls: &[
        &[
            "80000034 00000004",
            MAKE,
            "8000004c 00000005",
            MATCH,
            "80000028",
        ],
        &["80000028", NULL],
    ],
    piece: 84,
    ..SERVED
};

const UNWRITTEN_BEHIND: Row = Row {
    name: "the reply to MATCH isn't written",
    call_writes: 2,
    takes: TOLD_OF_MAKE,
    ..FOLLOWED
};

/// Pieces of 48 bytes at most.
const IN_PIECES: Row = Row {
    name: "the second piece of the reply to MATCH isn't written",
    piece: 48,
    call_writes: 3,
    takes: &[
        &[
            "8000001c 00000004",
            MADE,
            "80000030 00000005 00000001 00000000 00000000 00000000 00000000",
            "00000001 0000000e 31302e30 2e302e31 20616c70",
        ],
        &["80000018", NULL_REPLY],
    ],
    ..FOLLOWED
};

/// All that the first connection sends comes at once, and so both replies go out together, in a write and a flush.
const TOGETHER: Row = Row {
    name: "both replies aren't written",
    piece: 4_096,
    call_writes: 0,
    takes: &[&[], &["80000018", NULL_REPLY]],
    ..SERVED
};

static CONNECTIONS: [Row; 17] = [
    SERVED,
    UNREAD,
    Row {
        name: "the rest of MAKE isn't read",
        call_reads: 1,
        ..UNREAD
    },
    UNREAD_BEHIND,
    Row {
        name: "the rest of MATCH isn't read",
        call_reads: 3,
        ..UNREAD_BEHIND
    },
    Row {
        name: "the end of the connection isn't read",
        call_reads: 4,
        ..SERVED
    },
    Row {
        name: "no sixth read",
        call_reads: 5,
        ..SERVED
    },
    UNWRITTEN,
    Row {
        name: "the reply to MAKE isn't flushed",
        call_writes: 1,
        takes: TOLD_OF_MAKE,
        ..UNWRITTEN
    },
    FOLLOWED,
    UNWRITTEN_BEHIND,
    Row {
        name: "the reply to MATCH isn't flushed",
        call_writes: 3,
        ..FOLLOWED
    },
    Row {
        name: "no fifth call of the output",
        call_writes: 4,
        ..FOLLOWED
    },
    IN_PIECES,
    TOGETHER,
    Row {
        name: "both replies aren't flushed",
        call_writes: 1,
        takes: TOLD_OF_BOTH,
        ..TOGETHER
    },
    Row {
        name: "no third call of the output",
        call_writes: 2,
        takes: TOLD_OF_BOTH,
        ..TOGETHER
    },
];

/// The same calls over what a crash may leave.
const SERVED_ANEW: After = After {
    stands: None,
    again: Row {
        torn: true,
        ..SERVED
    },
};

const SERVED_OVER: After = After {
    stands: FIRST,
    again: Row {
        name: "over a version",
        stands: NEXT,
        torn: true,
        ..SERVED
    },
};

static SERVED_AFTER: [After; 2] = [SERVED_ANEW, SERVED_OVER];

#[test]
fn each_call_of_a_connection_fails(rt: HostRuntime) {
    try_rows_after(&rt, rt.alloc(), &CONNECTIONS, &SERVED_AFTER);
}
