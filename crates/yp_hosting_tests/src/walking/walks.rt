//! Walks over an inbox: what the network does, what is stored, and what fails.

use crate::given::{try_disks, try_rows};
use crate::walking::source::{
    BROKEN_FILE, CALL_1, CALL_2, CALL_3, CALL_4, CALL_5, FOREIGN_1, HOSTS_FILE, LATER_5, NOMAP_1,
    REPLY_1, REPLY_2, REPLY_3, REPLY_4, REPLY_5, SECURE_FILE, TWICE_FILE,
};
use yp_stage::{After, Datagram, DiskCalls, FAIR, QUIET, Row, Stands};

/// A walk over eight turns, and the same over seven.
const WORDS: &[&str] = &[
    "walk",
    "s1",
    "newer",
    "lab/hosts.byname",
    "m1@127.0.0.1:7001",
    "7120",
    "8",
];

const SEVEN: &[&str] = &[
    "walk",
    "s1",
    "newer",
    "lab/hosts.byname",
    "m1@127.0.0.1:7001",
    "7120",
    "7",
];

const NONE: &[&str] = &[
    "walk",
    "s1",
    "newer",
    "lab/hosts.byname",
    "m1@127.0.0.1:7001",
    "7120",
    "0",
];

const FORCED: &[&str] = &[
    "walk",
    "s1",
    "force",
    "lab/hosts.byname",
    "m1@127.0.0.1:7001",
    "7120",
    "8",
];

const OWN: &[&str] = &[
    "walk",
    "m1",
    "force",
    "lab/hosts.byname",
    "m1@127.0.0.1:7001",
    "7120",
    "8",
];

const SECURE: &[&str] = &[
    "walk",
    "s1",
    "newer",
    "lab/hosts.byname",
    "m1@127.0.0.1:7001",
    "7120",
    "8",
    "secure",
];

const FIRST_LINE: &str = "lab/hosts.byname order 100 generation 1\n";

const INBOX_FAULT: &str = "yp: inbox fault\n";

/// The replies in turn, and the calls that they answer.
const REPLIES: &[Datagram] = &[REPLY_1, REPLY_2, REPLY_3, REPLY_4, REPLY_5];

const CALLS: &[Datagram] = &[CALL_1, CALL_2, CALL_3, CALL_4, CALL_5];

/// Replies that come late and twice, and a quiet turn.
const LATE: &[Datagram] = &[
    REPLY_1, QUIET, REPLY_1, REPLY_2, REPLY_3, REPLY_3, REPLY_4, REPLY_5,
];

/// What is stored.
const NEW: Stands = Some((100, 1, false));

const WALKED: Row = Row {
    name: "late replies",
    words: WORDS,
    brings: LATE,
    output: FIRST_LINE,
    sends: &[CALL_1, CALL_2, CALL_2, CALL_3, CALL_4, CALL_5],
    turns: 8,
    stands: NEW,
    left: HOSTS_FILE,
    ..FAIR
};

const AT_ONCE: Row = Row {
    name: "each reply at once",
    brings: REPLIES,
    sends: CALLS,
    turns: 5,
    ..WALKED
};

static WALKS: [Row; 8] = [
    WALKED,
    Row {
        name: "late replies, and one turn less",
        words: SEVEN,
        code: 24,
        output: "",
        note: "yp: unanswered after 7 turns\n",
        sends: &[CALL_1, CALL_2, CALL_2, CALL_3, CALL_4],
        turns: 7,
        stands: None,
        left: &[],
        ..WALKED
    },
    Row {
        name: "a source that changes",
        brings: &[
            REPLY_1, QUIET, REPLY_1, REPLY_2, REPLY_3, REPLY_3, REPLY_4, LATER_5,
        ],
        code: 16,
        output: "",
        note: "yp: transfer -10 100 101\n",
        stands: None,
        left: &[],
        ..WALKED
    },
    AT_ONCE,
    Row {
        name: "a quiet first turn",
        brings: &[QUIET, REPLY_1, REPLY_2, REPLY_3, REPLY_4, REPLY_5],
        sends: &[CALL_1, CALL_1, CALL_2, CALL_3, CALL_4, CALL_5],
        turns: 6,
        ..WALKED
    },
    Row {
        name: "a mail of another port",
        brings: &[FOREIGN_1, REPLY_1, REPLY_2, REPLY_3, REPLY_4, REPLY_5],
        turns: 6,
        ..AT_ONCE
    },
    Row {
        name: "quiet turns alone",
        words: SEVEN,
        brings: &[],
        code: 24,
        output: "",
        note: "yp: unanswered after 7 turns\n",
        sends: &[CALL_1, CALL_1, CALL_1, CALL_1, CALL_1, CALL_1, CALL_1],
        turns: 7,
        stands: None,
        left: &[],
        ..WALKED
    },
    Row {
        name: "no turn",
        words: NONE,
        code: 24,
        output: "",
        note: "yp: unanswered after 0 turns\n",
        sends: &[],
        turns: 0,
        stands: None,
        left: &[],
        ..WALKED
    },
];

#[test]
fn turns(rt: HostRuntime) {
    try_rows(&rt, rt.alloc(), &WALKS);
}

/// What is stored, by the mode, the flag and what stood.
static STORED: [Row; 6] = [
    Row {
        name: "the same order",
        file: HOSTS_FILE,
        code: 16,
        output: "",
        note: "yp: transfer 2 100 100\n",
        sends: &[CALL_1],
        turns: 1,
        ..AT_ONCE
    },
    Row {
        name: "the same order, forced",
        words: FORCED,
        file: HOSTS_FILE,
        output: "lab/hosts.byname order 100 generation 2\n",
        left: TWICE_FILE,
        ..AT_ONCE
    },
    Row {
        name: "an own map",
        words: OWN,
        file: HOSTS_FILE,
        code: 16,
        output: "",
        note: "yp: transfer -14\n",
        ..AT_ONCE
    },
    Row {
        name: "secure",
        words: SECURE,
        stands: Some((100, 1, true)),
        left: SECURE_FILE,
        ..AT_ONCE
    },
    Row {
        name: "a damaged file",
        file: BROKEN_FILE,
        code: 8,
        output: "",
        note: "yp: damaged lab/hosts.byname at 79 rule 5\n",
        sends: &[],
        turns: 0,
        stands: None,
        left: BROKEN_FILE,
        ..AT_ONCE
    },
    Row {
        name: "no such map",
        brings: &[NOMAP_1],
        code: 16,
        output: "",
        note: "yp: transfer -1\n",
        sends: &[CALL_1],
        turns: 1,
        stands: None,
        left: &[],
        ..AT_ONCE
    },
];

#[test]
fn stored(rt: HostRuntime) {
    try_rows(&rt, rt.alloc(), &STORED);
}

const NO_INBOX: Row = Row {
    name: "call 0 of the inbox fails",
    inbox: 0,
    code: 22,
    output: "",
    note: INBOX_FAULT,
    sends: &[],
    turns: 0,
    stands: None,
    left: &[],
    ..AT_ONCE
};

/// Each call of the inbox fails in turn: a letter, a turn, a letter and so on.
static FAILING: [Row; 5] = [
    NO_INBOX,
    Row {
        name: "call 1 fails",
        inbox: 1,
        sends: &[CALL_1],
        ..NO_INBOX
    },
    Row {
        name: "call 2 fails",
        inbox: 2,
        sends: &[CALL_1],
        turns: 1,
        ..NO_INBOX
    },
    Row {
        name: "call 3 fails",
        inbox: 3,
        sends: &[CALL_1, CALL_2],
        turns: 1,
        ..NO_INBOX
    },
    Row {
        name: "call 4 fails",
        inbox: 4,
        sends: &[CALL_1, CALL_2],
        turns: 2,
        ..NO_INBOX
    },
];

/// The same of the later calls.
static FAILING_LATE: [Row; 5] = [
    Row {
        name: "call 5 fails",
        inbox: 5,
        sends: &[CALL_1, CALL_2, CALL_3],
        turns: 2,
        ..NO_INBOX
    },
    Row {
        name: "call 6 fails",
        inbox: 6,
        sends: &[CALL_1, CALL_2, CALL_3],
        turns: 3,
        ..NO_INBOX
    },
    Row {
        name: "call 7 fails",
        inbox: 7,
        sends: &[CALL_1, CALL_2, CALL_3, CALL_4],
        turns: 3,
        ..NO_INBOX
    },
    Row {
        name: "call 8 fails",
        inbox: 8,
        sends: &[CALL_1, CALL_2, CALL_3, CALL_4],
        turns: 4,
        ..NO_INBOX
    },
    Row {
        name: "call 9 fails",
        inbox: 9,
        sends: CALLS,
        turns: 4,
        ..NO_INBOX
    },
];

#[test]
fn each_early_inbox_call_fails(rt: HostRuntime) {
    try_rows(&rt, rt.alloc(), &FAILING);
}

#[test]
fn each_later_inbox_call_fails(rt: HostRuntime) {
    try_rows(&rt, rt.alloc(), &FAILING_LATE);
}

/// The line takes a write and a flush; the version is stored before.
static FAULTS: [Row; 2] = [
    Row {
        name: "the line isn't written",
        writes: 0,
        code: 4,
        output: "",
        note: "yp: write fault\n",
        ..AT_ONCE
    },
    Row {
        name: "the line isn't flushed",
        writes: 1,
        code: 4,
        note: "yp: write fault\n",
        ..AT_ONCE
    },
];

#[test]
fn output_fails(rt: HostRuntime) {
    try_rows(&rt, rt.alloc(), &FAULTS);
}

/// The note of each of these isn't written.
static NOTES: [Row; 2] = [
    Row {
        name: "no note of an inbox that fails",
        notes: 0,
        note: "",
        ..NO_INBOX
    },
    Row {
        name: "no note of a file that isn't loaded",
        disk: 0,
        notes: 0,
        note: "",
        ..NOT_LOADED
    },
];

#[test]
fn notes_fail(rt: HostRuntime) {
    try_rows(&rt, rt.alloc(), &NOTES);
}

const NOT_LOADED: Row = Row {
    name: "the file isn't loaded",
    code: 10,
    output: "",
    note: "yp: disk fault in lab/hosts.byname\n",
    sends: &[],
    turns: 0,
    stands: None,
    left: &[],
    ..AT_ONCE
};

const NOT_STORED: Row = Row {
    name: "the version isn't stored",
    code: 16,
    output: "",
    note: "yp: transfer -9\n",
    stands: None,
    torn: true,
    ..AT_ONCE
};

/// The last call is the sync behind the write that shows the version.
const NOT_SYNCED: Row = Row {
    stands: NEW,
    ..NOT_STORED
};

/// The same walk over a file without a version, and over one that has it.
const WALKS_ANEW: After = After {
    stands: None,
    again: Row {
        name: "behind a crash that lost the version",
        torn: true,
        ..AT_ONCE
    },
};

const HAS_IT: After = After {
    stands: NEW,
    again: Row {
        name: "behind a crash that kept the version",
        code: 16,
        output: "",
        note: "yp: transfer 2 100 100\n",
        sends: &[CALL_1],
        turns: 1,
        torn: true,
        ..AT_ONCE
    },
};

/// Two calls load the empty file, and nine store the version on it.
static DISK: [DiskCalls; 4] = [
    DiskCalls {
        row: NOT_LOADED,
        first: 0,
        last: 1,
        after: &[WALKS_ANEW],
    },
    DiskCalls {
        row: NOT_STORED,
        first: 2,
        last: 9,
        after: &[WALKS_ANEW],
    },
    DiskCalls {
        row: NOT_SYNCED,
        first: 10,
        last: 10,
        after: &[WALKS_ANEW, HAS_IT],
    },
    DiskCalls {
        row: AT_ONCE,
        first: 11,
        last: 11,
        after: &[HAS_IT],
    },
];

#[test]
fn each_call_of_the_disk_fails(rt: HostRuntime) {
    try_disks(&rt, rt.alloc(), &DISK);
}
