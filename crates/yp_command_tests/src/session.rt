//! Sessions over memory: their calls, replies and files written out by hand, from RFC 5531, yp.x and docs/FORMATS.md.

use crate::given::{try_disks, try_rows};
use yp_io::Peer;
use yp_stage::{
    After, Datagram, DiskCalls, FAIR, NEVER, Row, Stands, Words, try_alone, try_reads, try_stops,
    try_writes,
};

/// The file of the map with one row, at order 100, made by m1.
const FILE: Words = &[
    "01000000 00000000 00000000 00000001 00000000 00000040 00000000 00000034",
    "00000000 00000000 00000000 00000000 00000000 00000000 00000000 00000000",
    VERSION_100,
];

const VERSION_100: &str = "00000001 00000064 00000002 6d310000 00000001
    00000005 616c7068 61000000 0000000e 31302e30 2e302e31 20616c70 68610000";

/// The file with both versions, of order 100 at generation 1, and of order 101 at generation 2.
const BOTH_FILE: Words = &[
    "01000000 00000000 00000000 00000001 00000000 00000040 00000000 00000034",
    "01000000 00000000 00000000 00000002 00000000 00000074 00000000 00000034",
    VERSION_100,
    "00000001 00000065 00000002 6d310000 00000001",
    "00000005 616c7068 61000000 0000000e 31302e30 2e302e31 20616c70 68610000",
];

/// MATCH of `alpha` in that map, behind the word of its number.
const MATCH: &str =
    "00000000 00000002 000186a4 00000002 00000003 00000000 00000000 00000000 00000000
    00000003 6c616200 0000000c 686f7374 732e6279 6e616d65 00000005 616c7068 61000000";

/// MAKE of the map of hosts by name, number 2, and number 4.
const MAKE: &str = "80000034 00000002 00000000 00000002 20004e49 00000001 00000001
    00000000 00000000 00000000 00000000 00000003 6c616200 00000005";

const SECOND_MAKE: &str = "80000034 00000004 00000000 00000002 20004e49 00000001 00000001
    00000000 00000000 00000000 00000000 00000003 6c616200 00000005";

/// Replies to MATCH, behind the word of their number: the row of `alpha`, and no such map.
const ADDRESS: &str = "00000001 00000000 00000000 00000000 00000000
    00000001 0000000e 31302e30 2e302e31 20616c70 68610000";

const NOMAP: &str = "00000001 00000000 00000000 00000000 00000000 ffffffff 00000000";

/// Replies to MAKE: SUCC, and FILE.
const MADE: &str = "00000001 00000000 00000000 00000000 00000000 00000001";

const UNMADE: &str = "00000001 00000000 00000000 00000000 00000000 fffffff7";

/// MATCH, MAKE and MATCH, over a map without a version.
const MADE_ONCE: Row = Row {
    name: "make, then match",
    words: &["session", "m1", "127.0.0.1:40000", "lab/hosts.byname"],
    input: &["8000004c 00000001", MATCH, MAKE, "8000004c 00000003", MATCH],
    sources: &[("hosts", "10.0.0.1 alpha\n")],
    moment: 100,
    replies: &[
        "80000020 00000001",
        NOMAP,
        "8000001c 00000002",
        MADE,
        "80000030 00000003",
        ADDRESS,
    ],
    stands: FIRST,
    left: FILE,
    ..FAIR
};

const FIRST: Stands = Some((100, 1, false));

const NEXT: Stands = Some((101, 1, false));

/// The same calls, and MAKE and MATCH once more.
const TWICE: Words = &[
    "8000004c 00000001",
    MATCH,
    MAKE,
    "8000004c 00000003",
    MATCH,
    SECOND_MAKE,
    "8000004c 00000005",
    MATCH,
];

/// A text that can't be read: the first MAKE has FILE, and the next one makes the map.
const NO_TEXT: Row = Row {
    name: "no text at first",
    input: TWICE,
    texts: 0,
    replies: &[
        "80000020 00000001",
        NOMAP,
        "8000001c 00000002",
        UNMADE,
        "80000020 00000003",
        NOMAP,
        "8000001c 00000004",
        MADE,
        "80000030 00000005",
        ADDRESS,
    ],
    ..MADE_ONCE
};

/// MATCH of `alpha` in the map `addr` of `lab`, behind the word of its number.
const MATCH_ADDR: &str =
    "00000000 00000002 000186a4 00000002 00000003 00000000 00000000 00000000 00000000
    00000003 6c616200 00000004 61646472 00000005 616c7068 61000000";

/// The making of that map by its name, number 2.
const MAKE_ADDR: &str = "80000038 00000002 00000000 00000002 20004e49 00000001 00000002
    00000000 00000000 00000000 00000000 00000003 6c616200 00000004 61646472";

/// The same of the map of hosts by name.
const MAKE_HOSTS: &str = "80000040 00000002 00000000 00000002 20004e49 00000001 00000002
    00000000 00000000 00000000 00000000 00000003 6c616200 0000000c 686f7374 732e6279 6e616d65";

/// Its reply with REFUSED.
const REFUSED: &str = "00000001 00000000 00000000 00000000 00000000 fffffff2";

/// MATCH, the making of a map of rows by its name, and MATCH, over a map without a version.
const NAMED: Row = Row {
    name: "a map of rows by its name",
    words: &["session", "m1", "127.0.0.1:40000", "lab/addr"],
    input: &[
        "80000044 00000001",
        MATCH_ADDR,
        MAKE_ADDR,
        "80000044 00000003",
        MATCH_ADDR,
    ],
    sources: &[("addr", "alpha\t10.0.0.1 alpha\n")],
    ..MADE_ONCE
};

/// What can't be made.
const NAMED_UNMADE: Row = Row {
    name: "there is no text with the name of the map",
    sources: &[("hosts", "10.0.0.1 alpha\n")],
    replies: &[
        "80000020 00000001",
        NOMAP,
        "8000001c 00000002",
        UNMADE,
        "80000020 00000003",
        NOMAP,
    ],
    stands: None,
    left: &[],
    ..NAMED
};

static MADE_BY_NAME: [Row; 4] = [
    NAMED,
    Row {
        name: "a map of a kind by its name",
        input: &[
            "8000004c 00000001",
            MATCH,
            MAKE_HOSTS,
            "8000004c 00000003",
            MATCH,
        ],
        ..MADE_ONCE
    },
    NAMED_UNMADE,
    Row {
        name: "by its name for another host",
        words: &["session", "m1", "10.0.0.9:700", "lab/addr"],
        sources: &[("addr", "alpha\t10.0.0.1 alpha\n")],
        replies: &[
            "80000020 00000001",
            NOMAP,
            "8000001c 00000002",
            REFUSED,
            "80000020 00000003",
            NOMAP,
        ],
        ..NAMED_UNMADE
    },
];

/// No call is read. Each record takes a read for its head and one for its body, and the end of the input one.
const UNREAD: Row = Row {
    name: "the first head isn't read",
    reads: 0,
    code: 3,
    cut: 0,
    note: "yp: read fault\n",
    stands: None,
    left: &[],
    ..MADE_ONCE
};

/// MAKE was read and done.
const UNREAD_BEHIND: Row = Row {
    name: "the third head isn't read",
    reads: 4,
    cut: 68,
    stands: FIRST,
    left: FILE,
    ..UNREAD
};

static READS: [Row; 9] = [
    MADE_ONCE,
    UNREAD,
    Row {
        name: "the first body isn't read",
        reads: 1,
        ..UNREAD
    },
    Row {
        name: "the second head isn't read",
        reads: 2,
        cut: 36,
        ..UNREAD
    },
    Row {
        name: "the second body isn't read",
        reads: 3,
        cut: 36,
        ..UNREAD
    },
    UNREAD_BEHIND,
    Row {
        name: "the third body isn't read",
        reads: 5,
        ..UNREAD_BEHIND
    },
    Row {
        name: "the end isn't read",
        reads: 6,
        cut: 120,
        ..UNREAD_BEHIND
    },
    Row {
        name: "no eighth read",
        reads: 7,
        ..MADE_ONCE
    },
];

/// No reply is written. Each takes a write and a flush; MAKE is carried out before its reply.
const UNWRITTEN: Row = Row {
    name: "the first reply isn't written",
    writes: 0,
    code: 4,
    cut: 0,
    note: "yp: write fault\n",
    stands: None,
    left: &[],
    ..MADE_ONCE
};

const UNWRITTEN_BEHIND: Row = Row {
    name: "the second reply isn't written",
    writes: 2,
    cut: 36,
    stands: FIRST,
    left: FILE,
    ..UNWRITTEN
};

static WRITES: [Row; 8] = [
    UNWRITTEN,
    Row {
        name: "the first reply isn't flushed",
        writes: 1,
        cut: 36,
        ..UNWRITTEN
    },
    UNWRITTEN_BEHIND,
    Row {
        name: "the second reply isn't flushed",
        writes: 3,
        cut: 68,
        ..UNWRITTEN_BEHIND
    },
    Row {
        name: "the third reply isn't written",
        writes: 4,
        cut: 68,
        ..UNWRITTEN_BEHIND
    },
    Row {
        name: "the third reply isn't flushed",
        writes: 5,
        cut: 120,
        ..UNWRITTEN_BEHIND
    },
    Row {
        name: "no seventh call of the output",
        writes: 6,
        ..MADE_ONCE
    },
    NO_TEXT,
];

#[test]
fn made_by_name(rt: HostRuntime) {
    try_rows(&rt, rt.alloc(), &MADE_BY_NAME);
}

#[test]
fn each_read_fails(rt: HostRuntime) {
    try_rows(&rt, rt.alloc(), &READS);
}

#[test]
fn each_call_of_the_output_and_a_text_fail(rt: HostRuntime) {
    try_rows(&rt, rt.alloc(), &WRITES);
}

// ---- the disk

const NOT_LOADED: Row = Row {
    name: "the file isn't loaded",
    input: TWICE,
    code: 10,
    replies: &[],
    note: "yp: disk fault in lab/hosts.byname\n",
    stands: None,
    left: &[],
    ..MADE_ONCE
};

/// The first MAKE isn't installed, and the next one is: behind what the file stands for then, which is none up to the
/// last call of the first install.
const INSTALLED_LATE: Row = Row {
    name: "an install fails",
    texts: NEVER,
    ..NO_TEXT
};

const INSTALLED_BEHIND: Row = Row {
    name: "the last call of an install fails",
    stands: NEXT,
    left: BOTH_FILE,
    ..INSTALLED_LATE
};

/// The disk stops: both MAKEs have FILE.
const STOPPED: Row = Row {
    name: "the disk stops",
    replies: &[
        "80000020 00000001",
        NOMAP,
        "8000001c 00000002",
        UNMADE,
        "80000020 00000003",
        NOMAP,
        "8000001c 00000004",
        UNMADE,
        "80000020 00000005",
        NOMAP,
    ],
    stands: None,
    torn: true,
    ..INSTALLED_LATE
};

/// The same calls over a file without a version, and over one with the version of order 100, behind a crash.
const BOTH_MADE: After = After {
    stands: None,
    again: Row {
        name: "behind a crash that lost the version",
        replies: &[
            "80000020 00000001",
            NOMAP,
            "8000001c 00000002",
            MADE,
            "80000030 00000003",
            ADDRESS,
            "8000001c 00000004",
            MADE,
            "80000030 00000005",
            ADDRESS,
        ],
        stands: NEXT,
        torn: true,
        ..INSTALLED_LATE
    },
};

const MADE_OVER: After = After {
    stands: FIRST,
    again: Row {
        name: "behind a crash that kept the version",
        replies: &[
            "80000030 00000001",
            ADDRESS,
            "8000001c 00000002",
            MADE,
            "80000030 00000003",
            ADDRESS,
            "8000001c 00000004",
            MADE,
            "80000030 00000005",
            ADDRESS,
        ],
        stands: Some((102, 1, false)),
        torn: true,
        ..INSTALLED_LATE
    },
};

/// Two calls load the empty file, and nine install the first version.
static LOADS: [DiskCalls; 1] = [DiskCalls {
    row: NOT_LOADED,
    first: 0,
    last: 1,
    after: &[BOTH_MADE],
}];

static INSTALLS: [DiskCalls; 2] = [
    DiskCalls {
        row: INSTALLED_LATE,
        first: 2,
        last: 9,
        after: &[MADE_OVER],
    },
    DiskCalls {
        row: INSTALLED_BEHIND,
        first: 10,
        last: 10,
        after: &[],
    },
];

/// Where the disk stops at the last call, the sync, the file reads as the new version until a crash.
static STOPS: [DiskCalls; 2] = [
    DiskCalls {
        row: STOPPED,
        first: 2,
        last: 9,
        after: &[BOTH_MADE],
    },
    DiskCalls {
        row: Row {
            stands: FIRST,
            ..STOPPED
        },
        first: 10,
        last: 10,
        after: &[BOTH_MADE, MADE_OVER],
    },
];

#[test]
fn disk_that_is_not_loaded(rt: HostRuntime) {
    try_disks(&rt, rt.alloc(), &LOADS);
}

#[test]
fn each_disk_call_fails(rt: HostRuntime) {
    let alloc = rt.alloc();
    for calls in &INSTALLS {
        try_alone(alloc, &rt, calls).expect(&rt, calls.row.name);
    }
}

#[test]
fn disk_stops_at_each_call(rt: HostRuntime) {
    let alloc = rt.alloc();
    for calls in &STOPS {
        try_stops(alloc, &rt, calls).expect(&rt, calls.row.name);
    }
}

// ---- a transfer

/// Where the letter of a transfer goes.
const CALLER: Peer = Peer {
    addr: [127, 0, 0, 1],
    port: 7_002,
};

/// The letter of transaction 9, up to its status; and the statuses of transfers.
const LETTER: &str = "00000009 00000000 00000002 40000000 00000001 00000001
    00000000 00000000 00000000 00000000 00000009";

const SUCC: Datagram = Datagram {
    peer: CALLER,
    bytes: &[LETTER, "00000001"],
};

const RPC: Datagram = Datagram {
    peer: CALLER,
    bytes: &[LETTER, "fffffffc"],
};

const NO_FILE: Datagram = Datagram {
    peer: CALLER,
    bytes: &[LETTER, "fffffff7"],
};

/// XFR of the map from `m1`, number 2, which asks to be told at port 7002 of transaction 9 in program 0x40000000; and
/// MATCH. The source sends order 100, master `m1`, the row of `alpha`, and order 100 again.
const FETCHED: Row = Row {
    name: "nothing fails",
    words: &[
        "session",
        "s1",
        "127.0.0.1:40000",
        "lab/hosts.byname",
        "m1@127.0.0.1:7001",
    ],
    input: &[
        "80000058 00000002 00000000 00000002 000186a4 00000002 00000006",
        "00000000 00000000 00000000 00000000 00000003 6c616200 0000000c 686f7374 732e6279 6e616d65",
        "00000000 00000002 6d310000 00000009 40000000 00001b5a",
        "8000004c 00000003",
        MATCH,
    ],
    wire: &[
        "80000020 00000001 00000001 00000000 00000000 00000000 00000000 00000001 00000064",
        "80000024 00000002 00000001 00000000 00000000 00000000 00000000 00000001 00000002 6d310000",
        "80000044 00000003 00000001 00000000 00000000 00000000 00000000 00000001 00000001",
        "0000000e 31302e30 2e302e31 20616c70 68610000 00000005 616c7068 61000000 00000000",
        "80000020 00000004 00000001 00000000 00000000 00000000 00000000 00000001 00000064",
    ],
    replies: &[
        "80000020 00000002 00000001 00000000 00000000 00000000 00000000 00000009 00000001",
        "80000030 00000003",
        ADDRESS,
    ],
    posts: &[SUCC],
    wires: 1,
    stands: FIRST,
    left: FILE,
    ..FAIR
};

/// Whatever fails, the session goes on: XFR had SUCC before.
const UNFETCHED: Row = Row {
    replies: &[
        "80000020 00000002 00000001 00000000 00000000 00000000 00000000 00000009 00000001",
        "80000020 00000003",
        NOMAP,
    ],
    posts: &[RPC],
    stands: None,
    left: &[],
    ..FETCHED
};

/// GETPORT of program 0x40000000, version 1, over UDP, with the number of the transaction, to the caller's port mapper.
const QUESTION: Datagram = Datagram {
    peer: Peer {
        addr: [127, 0, 0, 1],
        port: 111,
    },
    bytes: &[
        "00000009 00000000 00000002 000186a0 00000002 00000003 00000000 00000000 00000000 00000000",
        "40000000 00000001 00000011 00000000",
    ],
};

/// The same XFR with port 0, and no answer of the port mapper.
const UNNAMED: Row = Row {
    name: "port 0, and a silent port mapper",
    input: &[
        "80000058 00000002 00000000 00000002 000186a4 00000002 00000006",
        "00000000 00000000 00000000 00000000 00000003 6c616200 0000000c 686f7374 732e6279 6e616d65",
        "00000000 00000002 6d310000 00000009 40000000 00000000",
        "8000004c 00000003",
        MATCH,
    ],
    asks: &[QUESTION],
    posts: &[],
    ..FETCHED
};

static TRANSFERS: [Row; 8] = [
    FETCHED,
    UNNAMED,
    Row {
        name: "port 0, and a port mapper that tells 834",
        answers: &[&["00000009 00000001 00000000 00000000 00000000 00000000 00000342"]],
        posts: &[Datagram {
            peer: Peer {
                addr: [127, 0, 0, 1],
                port: 834,
            },
            bytes: &[LETTER, "00000001"],
        }],
        ..UNNAMED
    },
    Row {
        name: "port 0, and a port mapper without the program",
        answers: &[&["00000009 00000001 00000000 00000000 00000000 00000000 00000000"]],
        ..UNNAMED
    },
    Row {
        name: "no question to the port mapper",
        dials: 1,
        asks: &[],
        ..UNNAMED
    },
    Row {
        name: "no wire",
        dials: 0,
        wires: 0,
        ..UNFETCHED
    },
    Row {
        name: "no letter",
        dials: 1,
        posts: &[],
        ..FETCHED
    },
    Row {
        name: "no third call of the dial",
        dials: 2,
        ..FETCHED
    },
];

static UNSENT: Row = UNFETCHED;

static SENT_ANEW: [After; 1] = [FETCHED_ANEW];

/// The same calls over a file without a version.
const FETCHED_ANEW: After = After {
    stands: None,
    again: Row {
        torn: true,
        ..FETCHED
    },
};

/// What was fetched isn't installed.
const UNINSTALLED: Row = Row {
    name: "an install fails",
    posts: &[NO_FILE],
    torn: true,
    ..UNFETCHED
};

static TRANSFER_INSTALLS: [DiskCalls; 2] = [
    DiskCalls {
        row: UNINSTALLED,
        first: 2,
        last: 9,
        after: &[FETCHED_ANEW],
    },
    DiskCalls {
        row: Row {
            stands: FIRST,
            ..UNINSTALLED
        },
        first: 10,
        last: 10,
        after: &[],
    },
];

#[test]
fn calls_of_a_transfer_fail(rt: HostRuntime) {
    try_rows(&rt, rt.alloc(), &TRANSFERS);
}

/// Each of four calls takes a write and a flush, and each of four replies a read of the head and one of the body.
#[test]
fn each_wire_call_of_a_transfer_fails(rt: HostRuntime) {
    let alloc = rt.alloc();
    try_reads(alloc, &rt, &UNSENT, 8, &SENT_ANEW).expect(&rt, "a read");
    try_writes(alloc, &rt, &UNSENT, 8, &SENT_ANEW).expect(&rt, "a write");
}

#[test]
fn each_disk_call_of_a_transfer_fails(rt: HostRuntime) {
    try_disks(&rt, rt.alloc(), &TRANSFER_INSTALLS);
}
