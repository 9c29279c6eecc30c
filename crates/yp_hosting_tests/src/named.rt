//! Maps that callers make by their names, over a connection and by datagrams.

use crate::bytes::{ADDRESS, FILE, FIRST, MADE, MATCH, NEXT, NOMAP, SENDER, UNMADE};
use crate::given::try_rows_after;
use yp_io::Peer;
use yp_stage::{Datagram, FAIR, Row, Words};

/// MATCH of `alpha` in the map `addr` of `lab`, behind the word of its number.
const MATCH_ADDR: &str =
    "00000000 00000002 000186a4 00000002 00000003 00000000 00000000 00000000 00000000
    00000003 6c616200 00000004 61646472 00000005 616c7068 61000000";

/// The making of a map of `lab` by its name, behind the word of its number and up to that name.
const MAKE_NAMED: &str =
    "00000000 00000002 20004e49 00000001 00000002 00000000 00000000 00000000 00000000
    00000003 6c616200";

/// Names of maps: `addr`, hosts.byname, `none`, of which there is no map, and an empty one.
const ADDR: &str = "00000004 61646472";

const HOSTS: &str = "0000000c 686f7374 732e6279 6e616d65";

const NONE: &str = "00000004 6e6f6e65";

const EMPTY: &str = "00000000";

/// The making of `addr` of the domain `zzz`, which isn't served, and of one without a name.
const OF_NO_DOMAIN: &str =
    "00000000 00000002 20004e49 00000001 00000002 00000000 00000000 00000000 00000000
    00000003 7a7a7a00 00000004 61646472";

const OF_EMPTY_DOMAIN: &str =
    "00000000 00000002 20004e49 00000001 00000002 00000000 00000000 00000000 00000000
    00000000 00000004 61646472";

/// Replies to these, behind the word of their number: no such map, no such domain, names without a byte, and refused.
const NO_MAP: &str = "00000001 00000000 00000000 00000000 00000000 ffffffff";

const NO_DOMAIN: &str = "00000001 00000000 00000000 00000000 00000000 fffffffe";

const BAD_NAMES: &str = "00000001 00000000 00000000 00000000 00000000 fffffff9";

const REFUSED: &str = "00000001 00000000 00000000 00000000 00000000 fffffff2";

/// MATCH, the making and MATCH, over a map of rows without a version.
const OF_ROWS: Row = Row {
    name: "a map of the rows of its text",
    words: &["serve", "m1", "7001", "1", "1", "0", "lab/addr"],
    calls: &[&[
        "80000044 00000001",
        MATCH_ADDR,
        "80000038 00000002",
        MAKE_NAMED,
        ADDR,
        "80000044 00000003",
        MATCH_ADDR,
    ]],
    most: 1,
    sources: &[
        ("hosts", "10.0.0.2 alpha\n"),
        ("addr", "alpha\t10.0.0.1 alpha\n"),
    ],
    moment: 100,
    output: "connections 1 calls 3\n",
    takes: &[&[
        "80000020 00000001",
        NOMAP,
        "8000001c 00000002",
        MADE,
        "80000030 00000003",
        ADDRESS,
    ]],
    stands: FIRST,
    left: FILE,
    ..FAIR
};

/// What can't be made.
const NOT_MADE: Row = Row {
    name: "no text has the name of the map",
    sources: &[("hosts", "10.0.0.1 alpha\n")],
    takes: &[&[
        "80000020 00000001",
        NOMAP,
        "8000001c 00000002",
        UNMADE,
        "80000020 00000003",
        NOMAP,
    ]],
    stands: None,
    left: &[],
    ..OF_ROWS
};

static OVER_CONNECTIONS: [Row; 5] = [
    OF_ROWS,
    Row {
        name: "the order rises where the clock doesn't",
        file: FILE,
        takes: &[&[
            "80000030 00000001",
            ADDRESS,
            "8000001c 00000002",
            MADE,
            "80000030 00000003",
            ADDRESS,
        ]],
        stands: NEXT,
        torn: true,
        ..OF_ROWS
    },
    Row {
        name: "a map of a kind",
        words: &["serve", "m1", "7001", "1", "1", "0", "lab/hosts.byname"],
        calls: &[&[
            "8000004c 00000001",
            MATCH,
            "80000040 00000002",
            MAKE_NAMED,
            HOSTS,
            "8000004c 00000003",
            MATCH,
        ]],
        sources: &[
            ("hosts", "10.0.0.1 alpha\n"),
            ("hosts.byname", "alpha\t10.0.0.2 alpha\n"),
        ],
        ..OF_ROWS
    },
    NOT_MADE,
    Row {
        name: "names that no map has",
        calls: &[&[
            "80000038 00000001",
            MAKE_NAMED,
            NONE,
            "80000034 00000002",
            MAKE_NAMED,
            EMPTY,
            "80000038 00000003",
            OF_NO_DOMAIN,
            "80000034 00000004",
            OF_EMPTY_DOMAIN,
        ]],
        output: "connections 1 calls 4\n",
        takes: &[&[
            "8000001c 00000001",
            NO_MAP,
            "8000001c 00000002",
            BAD_NAMES,
            "8000001c 00000003",
            NO_DOMAIN,
            "8000001c 00000004",
            BAD_NAMES,
        ]],
        ..NOT_MADE
    },
];

#[test]
fn made_by_name(rt: HostRuntime) {
    try_rows_after(&rt, rt.alloc(), &OVER_CONNECTIONS, &[]);
}

/// Another host.
const STRANGER: Peer = Peer {
    addr: [10, 0, 0, 9],
    port: 700,
};

/// A datagram and a quiet turn. Nobody is to connect.
const MAILED: Row = Row {
    name: "by a datagram",
    words: &["serve", "m1", "7001", "1", "0", "2", "lab/addr"],
    calls: &[],
    most: 0,
    brings: &[Datagram {
        peer: SENDER,
        bytes: &["00000002", MAKE_NAMED, ADDR],
    }],
    output: "connections 0 calls 0\n",
    takes: &[],
    sends: &[Datagram {
        peer: SENDER,
        bytes: &["00000002", MADE],
    }],
    turns: 2,
    ..OF_ROWS
};

static BY_DATAGRAMS: [Row; 2] = [
    MAILED,
    Row {
        name: "by a datagram from another host",
        brings: &[Datagram {
            peer: STRANGER,
            bytes: &["00000002", MAKE_NAMED, ADDR],
        }],
        sends: &[Datagram {
            peer: STRANGER,
            bytes: &["00000002", REFUSED],
        }],
        stands: None,
        left: &[],
        ..MAILED
    },
];

#[test]
fn made_by_datagrams(rt: HostRuntime) {
    try_rows_after(&rt, rt.alloc(), &BY_DATAGRAMS, &[]);
}
