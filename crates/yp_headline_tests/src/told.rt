//! Runs of `once`, `session`, `build`, `walk` and `serve` by [`run_told`]. Their calls, replies and files are written
//! out by hand, from RFC 5531, yp.x and docs/FORMATS.md.

use std::alloc::Global;
use std::process::Abort;
use std::random::RandomSource;
use std::sync::Wait;
use std::thread::Threads;
use std::time::Clock;
use yp_headline::whole::run_told;
use yp_io::{OWN_HOST, Peer};
use yp_stage::{Datagram, FAIR, Row, SetUp, Stands, Words, set_up, try_ended};

/// MATCH of `alpha` in the map `hosts.byname` of the domain `lab`, behind the word of its number.
const MATCH: &str =
    "00000000 00000002 000186a4 00000002 00000003 00000000 00000000 00000000 00000000
    00000003 6c616200 0000000c 686f7374 732e6279 6e616d65 00000005 616c7068 61000000";

/// MAKE of the map of hosts by name, with its number.
const MAKE: &str = "80000034 00000002 00000000 00000002 20004e49 00000001 00000001
    00000000 00000000 00000000 00000000 00000003 6c616200 00000005";

/// What MATCH is answered, behind the word of its number: the row of `alpha`, and that there is no such map.
const ADDRESS: &str = "00000001 00000000 00000000 00000000 00000000
    00000001 0000000e 31302e30 2e302e31 20616c70 68610000";

const NOMAP: &str = "00000001 00000000 00000000 00000000 00000000 ffffffff 00000000";

/// What MAKE is answered: SUCC.
const MADE: &str = "00000001 00000000 00000000 00000000 00000000 00000001";

/// The file of the map with one row, at order 100, made by m1.
const FILE: Words = &[
    "01000000 00000000 00000000 00000001 00000000 00000040 00000000 00000034",
    "00000000 00000000 00000000 00000000 00000000 00000000 00000000 00000000",
    "00000001 00000064 00000002 6d310000 00000001",
    "00000005 616c7068 61000000 0000000e 31302e30 2e302e31 20616c70 68610000",
];

/// The server of a walk.
const SOURCE: Peer = Peer {
    addr: OWN_HOST,
    port: 7_001,
};

/// The domain `lab` and the map `hosts.byname`.
const MAP: &str = "00000003 6c616200 0000000c 686f7374 732e6279 6e616d65";

/// The front of a reply that is SUCCESS, behind its number.
const SUCCESS: &str = "00000001 00000000 00000000 00000000 00000000";

/// The calls ORDER, MASTER, FIRST, NEXT behind `alpha`, and ORDER.
const CALLS: &[Datagram] = &[
    Datagram {
        peer: SOURCE,
        bytes: &[
            "00000001 00000000 00000002 000186a4 00000002 0000000a 00000000 00000000 00000000 00000000",
            MAP,
        ],
    },
    Datagram {
        peer: SOURCE,
        bytes: &[
            "00000002 00000000 00000002 000186a4 00000002 00000009 00000000 00000000 00000000 00000000",
            MAP,
        ],
    },
    Datagram {
        peer: SOURCE,
        bytes: &[
            "00000003 00000000 00000002 000186a4 00000002 00000004 00000000 00000000 00000000 00000000",
            MAP,
        ],
    },
    Datagram {
        peer: SOURCE,
        bytes: &[
            "00000004 00000000 00000002 000186a4 00000002 00000005 00000000 00000000 00000000 00000000",
            MAP,
            "00000005 616c7068 61000000",
        ],
    },
    Datagram {
        peer: SOURCE,
        bytes: &[
            "00000005 00000000 00000002 000186a4 00000002 0000000a 00000000 00000000 00000000 00000000",
            MAP,
        ],
    },
];

/// Their replies: order 100, the master `m1`, the row, YP_NOMORE, and order 100 again.
const MAILS: &[Datagram] = &[
    Datagram {
        peer: SOURCE,
        bytes: &["00000001", SUCCESS, "00000001 00000064"],
    },
    Datagram {
        peer: SOURCE,
        bytes: &["00000002", SUCCESS, "00000001 00000002 6d310000"],
    },
    Datagram {
        peer: SOURCE,
        bytes: &[
            "00000003",
            SUCCESS,
            "00000001 0000000e 31302e30 2e302e31 20616c70 68610000 00000005 616c7068 61000000",
        ],
    },
    Datagram {
        peer: SOURCE,
        bytes: &["00000004", SUCCESS, "00000002 00000000 00000000"],
    },
    Datagram {
        peer: SOURCE,
        bytes: &["00000005", SUCCESS, "00000001 00000064"],
    },
];

const STANDS: Stands = Some((100, 1, false));

static RUNS: [Row; 6] = [
    Row {
        name: "once",
        words: &["once", "lab/hosts.byname", "alpha=10.0.0.1 alpha"],
        input: &["8000004c 00000001", MATCH],
        replies: &["80000030 00000001", ADDRESS],
        ..FAIR
    },
    Row {
        name: "session",
        words: &["session", "m1", "127.0.0.1:40000", "lab/hosts.byname"],
        input: &["8000004c 00000001", MATCH, MAKE, "8000004c 00000003", MATCH],
        sources: &[("hosts", "10.0.0.1 alpha\n")],
        moment: 100,
        replies: &[
            "80000020 00000001",
            NOMAP,
            "8000001c 00000002",
            MADE,
            "80000030 00000003",
            ADDRESS,
        ],
        stands: STANDS,
        left: FILE,
        ..FAIR
    },
    Row {
        name: "build",
        words: &["build", "m1", "lab/hosts.byname"],
        text: "10.0.0.1 alpha\n",
        moment: 100,
        output: "lab/hosts.byname order 100 rows 1 generation 1\n",
        stands: STANDS,
        left: FILE,
        ..FAIR
    },
    Row {
        name: "walk",
        words: &[
            "walk",
            "s1",
            "newer",
            "lab/hosts.byname",
            "m1@127.0.0.1:7001",
            "7120",
            "5",
        ],
        brings: MAILS,
        output: "lab/hosts.byname order 100 generation 1\n",
        sends: CALLS,
        turns: 5,
        stands: STANDS,
        left: FILE,
        ..FAIR
    },
    Row {
        name: "serve",
        words: &["serve", "m1", "7001", "1", "1", "0", "lab/hosts.byname"],
        file: FILE,
        calls: &[&["8000004c 00000001", MATCH]],
        most: 1,
        output: "connections 1 calls 1\n",
        takes: &[&["80000030 00000001", ADDRESS]],
        stands: STANDS,
        left: FILE,
        ..FAIR
    },
    Row {
        name: "serve, and a map that is made",
        words: &["serve", "m1", "7001", "1", "1", "0", "lab/hosts.byname"],
        calls: &[&["8000004c 00000001", MATCH, MAKE, "8000004c 00000003", MATCH]],
        most: 1,
        sources: &[("hosts", "10.0.0.1 alpha\n")],
        moment: 100,
        output: "connections 1 calls 3\n",
        takes: &[&[
            "80000020 00000001",
            NOMAP,
            "8000001c 00000002",
            MADE,
            "80000030 00000003",
            ADDRESS,
        ]],
        stands: STANDS,
        left: FILE,
        ..FAIR
    },
];

/// Runs a row, where the headline is told of the run, and compares what came of it.
fn try_told<R: Threads + Wait + RandomSource + Clock + Abort + Sync>(
    rt: &R,
    alloc: Global,
    row: &Row,
) {
    let SetUp { words, outside } = set_up(alloc, rt, row).expect(rt, "memory");
    let (status, outside) = run_told(alloc, rt, &words, outside);
    try_ended(alloc, rt, row, &status, &outside).expect(rt, row.name);
}

#[test]
fn runs_are_told(rt: HostRuntime) {
    for row in &RUNS {
        try_told(&rt, rt.alloc(), row);
    }
}
