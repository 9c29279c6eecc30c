//! `push`: what its files say, what slaves answer and tell, and what fails.

use crate::given::try_rows;
use yp_io::Peer;
use yp_stage::{Datagram, FAIR, Row, Stands};

const WORDS: &[&str] = &[
    "push",
    "m1",
    "7001",
    "3",
    "5",
    "lab/hosts.byname",
    "s1@127.0.0.1:7011",
    "s2@127.0.0.1:7012",
];

/// The order 100, the master `m1`, and the row of `alpha`.
const FILE: &[&str] = &[
    "01000000 00000000 00000000 00000001 00000000 00000040 00000000 00000034",
    "00000000 00000000 00000000 00000000 00000000 00000000 00000000 00000000",
    "00000001 00000064 00000002 6d310000 00000001",
    "00000005 616c7068 61000000 0000000e 31302e30 2e302e31 20616c70 68610000",
];

/// The keys `m1`, `s1` and `s2` with empty values.
const SERVERS: &[&str] = &[
    "01000000 00000000 00000000 00000001 00000000 00000040 00000000 00000038",
    "00000000 00000000 00000000 00000000 00000000 00000000 00000000 00000000",
    "00000001 00000064 00000002 6d310000 00000003",
    "00000002 6d310000 00000000 00000002 73310000 00000000 00000002 73320000 00000000",
];

/// The key `m1` alone.
const ALONE: &[&str] = &[
    "01000000 00000000 00000000 00000001 00000000 00000040 00000000 00000020",
    "00000000 00000000 00000000 00000000 00000000 00000000 00000000 00000000",
    "00000001 00000064 00000002 6d310000 00000001 00000002 6d310000 00000000",
];

/// Replies to XFR: SUCC with each transaction.
const FIRST: &[&str] = &[
    "80000020 00000001 00000001 00000000 00000000 00000000 00000000 000001f4 00000001",
];

const SECOND: &[&str] = &[
    "80000020 00000001 00000001 00000000 00000000 00000000 00000000 000001f5 00000001",
];

/// A slave's address for datagrams.
const SLAVE: Peer = Peer {
    addr: [127, 0, 0, 1],
    port: 1_021,
};

/// Calls of XFRRESP: a transaction and its status.
const FIRST_SUCC: Datagram = Datagram {
    peer: SLAVE,
    bytes: &[
        "00000007 00000000 00000002 40000000 00000001 00000001 00000000 00000000 00000000 00000000",
        "000001f4 00000001",
    ],
};

const FIRST_SKEW: Datagram = Datagram {
    peer: SLAVE,
    bytes: &[
        "00000007 00000000 00000002 40000000 00000001 00000001 00000000 00000000 00000000 00000000",
        "000001f4 fffffff6",
    ],
};

const SECOND_AGE: Datagram = Datagram {
    peer: SLAVE,
    bytes: &[
        "00000007 00000000 00000002 40000000 00000001 00000001 00000000 00000000 00000000 00000000",
        "000001f5 00000002",
    ],
};

/// The reply to each of them.
const HEARD: Datagram = Datagram {
    peer: SLAVE,
    bytes: &["00000007 00000001 00000000 00000000 00000000 00000000"],
};

/// What the file stands for, before and after.
const STANDING: Stands = Some((100, 1, false));

const CALLED: Row = Row {
    name: "both slaves call back",
    words: WORDS,
    file: FILE,
    other: SERVERS,
    wire: FIRST,
    second_wire: SECOND,
    brings: &[FIRST_SUCC, FIRST_SKEW, SECOND_AGE],
    output: "s1 1\ns2 2\n",
    sends: &[HEARD, HEARD, HEARD],
    turns: 3,
    wires: 2,
    stands: STANDING,
    left: FILE,
    ..FAIR
};

/// Nothing is asked.
const STOPPED: Row = Row {
    output: "",
    sends: &[],
    turns: 0,
    wires: 0,
    ..CALLED
};

const INBOX_FAULT: Row = Row {
    code: 22,
    output: "",
    note: "yp: inbox fault\n",
    ..CALLED
};

const WRITE_FAULT: Row = Row {
    code: 4,
    note: "yp: write fault\n",
    ..CALLED
};

static ROWS: [Row; 7] = [
    CALLED,
    Row {
        name: "there is no fifth call of a disk",
        disk: 4,
        other_disk: 4,
        ..CALLED
    },
    Row {
        name: "a slave doesn't call",
        brings: &[FIRST_SUCC],
        code: 1,
        output: "s1 1\ns2 none\n",
        sends: &[HEARD],
        turns: 5,
        ..CALLED
    },
    Row {
        name: "no turn",
        words: &["push", "m1", "7001", "3", "0", "lab/hosts.byname"],
        code: 1,
        output: "s1 none\ns2 none\n",
        ..STOPPED
    },
    Row {
        name: "one without an address, and one that can't be reached",
        words: &[
            "push",
            "m1",
            "7001",
            "3",
            "5",
            "lab/hosts.byname",
            "s2@127.0.0.1:7012",
        ],
        dials: 0,
        code: 1,
        output: "s1 -5\ns2 -4\n",
        ..STOPPED
    },
    Row {
        name: "the second slave can't be reached",
        dials: 1,
        brings: &[FIRST_SUCC],
        code: 1,
        output: "s1 1\ns2 -4\n",
        sends: &[HEARD],
        turns: 1,
        wires: 1,
        ..CALLED
    },
    Row {
        name: "the map of servers itself",
        words: &[
            "push",
            "m1",
            "7001",
            "1",
            "5",
            "lab/ypservers",
            "s1@127.0.0.1:7011",
            "s2@127.0.0.1:7012",
        ],
        file: &[],
        brings: &[FIRST_SUCC, SECOND_AGE],
        sends: &[HEARD, HEARD],
        turns: 2,
        stands: Some((100, 3, false)),
        left: SERVERS,
        ..CALLED
    },
];

/// Calls of XFRRESP with a status that isn't one, and of version 2; and the replies: the arguments aren't read, and
/// version 1 alone is here.
const BAD_STATUS: Datagram = Datagram {
    peer: SLAVE,
    bytes: &[
        "00000007 00000000 00000002 40000000 00000001 00000001 00000000 00000000 00000000 00000000",
        "000001f4 00000007",
    ],
};

const BAD_VERSION: Datagram = Datagram {
    peer: SLAVE,
    bytes: &[
        "00000007 00000000 00000002 40000000 00000002 00000001 00000000 00000000 00000000 00000000",
        "000001f4 00000001",
    ],
};

const GARBAGE: Datagram = Datagram {
    peer: SLAVE,
    bytes: &["00000007 00000001 00000000 00000000 00000000 00000004"],
};

const MISMATCH: Datagram = Datagram {
    peer: SLAVE,
    bytes: &["00000007 00000001 00000000 00000000 00000000 00000002 00000001 00000001"],
};

/// Neither changes a result.
static HOSTILE: [Row; 2] = [
    Row {
        name: "a callback with status 7",
        brings: &[BAD_STATUS, FIRST_SUCC, SECOND_AGE],
        sends: &[GARBAGE, HEARD, HEARD],
        ..CALLED
    },
    Row {
        name: "a callback of version 2",
        brings: &[FIRST_SUCC, BAD_VERSION, SECOND_AGE],
        sends: &[HEARD, MISMATCH, HEARD],
        ..CALLED
    },
];

#[test]
fn hostile_slaves(rt: HostRuntime) {
    try_rows(&rt, rt.alloc(), &HOSTILE);
}

/// Each callback takes a turn and a reply.
static INBOX: [Row; 6] = [
    Row {
        name: "the first turn fails",
        inbox: 0,
        sends: &[],
        turns: 0,
        ..INBOX_FAULT
    },
    Row {
        name: "the first reply fails",
        inbox: 1,
        sends: &[],
        turns: 1,
        ..INBOX_FAULT
    },
    Row {
        name: "the second turn fails",
        inbox: 2,
        sends: &[HEARD],
        turns: 1,
        ..INBOX_FAULT
    },
    Row {
        name: "the second reply fails",
        inbox: 3,
        sends: &[HEARD],
        turns: 2,
        ..INBOX_FAULT
    },
    Row {
        name: "the last turn fails",
        inbox: 4,
        sends: &[HEARD, HEARD],
        turns: 2,
        ..INBOX_FAULT
    },
    Row {
        name: "the last reply fails",
        inbox: 5,
        sends: &[HEARD, HEARD],
        turns: 3,
        ..INBOX_FAULT
    },
];

/// The first slave is missed where a call of its wire fails: a call takes a write and a flush, and its reply two reads.
const MISSED: Row = Row {
    brings: &[SECOND_AGE],
    code: 1,
    output: "s1 -4\ns2 2\n",
    sends: &[HEARD],
    turns: 1,
    ..CALLED
};

static FAULTS: [Row; 6] = [
    Row {
        name: "the call isn't written",
        wire_writes: 0,
        ..MISSED
    },
    Row {
        name: "the call isn't flushed",
        wire_writes: 1,
        ..MISSED
    },
    Row {
        name: "the head of the reply isn't read",
        wire_reads: 0,
        ..MISSED
    },
    Row {
        name: "the reply isn't read",
        wire_reads: 1,
        ..MISSED
    },
    Row {
        name: "the output isn't written",
        writes: 0,
        output: "",
        ..WRITE_FAULT
    },
    Row {
        name: "the output isn't flushed",
        writes: 1,
        ..WRITE_FAULT
    },
];

const NO_MAP: Row = Row {
    code: 10,
    note: "yp: disk fault in lab/hosts.byname\n",
    ..STOPPED
};

const NO_SERVERS: Row = Row {
    code: 10,
    note: "yp: disk fault in lab/ypservers\n",
    ..STOPPED
};

/// Four calls load each file.
static DISKS: [Row; 8] = [
    Row {
        name: "the first call of the map fails",
        disk: 0,
        ..NO_MAP
    },
    Row {
        name: "the second",
        disk: 1,
        ..NO_MAP
    },
    Row {
        name: "the third",
        disk: 2,
        ..NO_MAP
    },
    Row {
        name: "the fourth, and the first of the servers",
        disk: 3,
        other_disk: 0,
        ..NO_MAP
    },
    Row {
        name: "the first call of the servers fails",
        other_disk: 0,
        ..NO_SERVERS
    },
    Row {
        name: "the second of the servers",
        other_disk: 1,
        ..NO_SERVERS
    },
    Row {
        name: "the third of the servers",
        other_disk: 2,
        ..NO_SERVERS
    },
    Row {
        name: "the fourth of the servers",
        other_disk: 3,
        ..NO_SERVERS
    },
];

static FILES: [Row; 7] = [
    Row {
        name: "no version of the map, nor of the servers",
        file: &[],
        other: &[],
        stands: None,
        left: &[],
        code: 9,
        note: "yp: no version of lab/hosts.byname\n",
        ..STOPPED
    },
    Row {
        name: "no version of the servers",
        other: &[],
        code: 9,
        note: "yp: no version of lab/ypservers\n",
        ..STOPPED
    },
    Row {
        name: "no slave",
        other: ALONE,
        ..STOPPED
    },
    Row {
        name: "both disks fail",
        disk: 0,
        other_disk: 0,
        ..NO_MAP
    },
    Row {
        name: "no note of a disk that fails",
        disk: 0,
        notes: 0,
        note: "",
        ..NO_MAP
    },
    Row {
        name: "the servers' disk fails, and no version of the map",
        file: &[],
        other_disk: 1,
        stands: None,
        left: &[],
        ..NO_SERVERS
    },
    Row {
        name: "the own name is no slave's",
        words: &["push", "s2", "7001", "3", "0", "lab/hosts.byname"],
        code: 1,
        output: "m1 none\ns1 none\n",
        ..STOPPED
    },
];

#[test]
fn push_over_memory(rt: HostRuntime) {
    try_rows(&rt, rt.alloc(), &ROWS);
}

#[test]
fn push_from_files(rt: HostRuntime) {
    try_rows(&rt, rt.alloc(), &FILES);
}

#[test]
fn each_call_of_the_inbox_fails(rt: HostRuntime) {
    try_rows(&rt, rt.alloc(), &INBOX);
}

#[test]
fn each_call_of_the_disks_fails(rt: HostRuntime) {
    try_rows(&rt, rt.alloc(), &DISKS);
}

#[test]
fn calls_of_a_wire_and_of_the_output_fail(rt: HostRuntime) {
    try_rows(&rt, rt.alloc(), &FAULTS);
}
