//! Calls of MAKE in a session.

use crate::answer::sample::{shared, version_of};
use crate::answer::session::host::TestHost;
use crate::answer::session::sample::*;
use std::alloc::Global;
use std::process::Abort;
use std::random::RandomSource;
use yp_answer::session::*;
use yp_io::Peer;

// The maps of the kinds 1 to 6, and one of no kind.
static MAPS: [(&[u8], &[u8]); 7] = [
    (b"d", b"passwd.byname"),
    (b"d", b"passwd.byuid"),
    (b"d", b"group.byname"),
    (b"d", b"group.bygid"),
    (b"d", b"hosts.byname"),
    (b"d", b"hosts.byaddr"),
    (b"d", b"m"),
];

// A host that shows two versions, one of another master and one of the last order.
fn unmade<R: RandomSource + Abort>(rt: &R, runtime: HostRuntime, alloc: Global) -> TestHost {
    let foreign = shared(rt, alloc, version_of(rt, alloc, 7, b"m2", &[]));
    let last = shared(rt, alloc, version_of(rt, alloc, u32::MAX, b"m1", &[]));
    let start = vec![in alloc; None, Some(foreign), Some(last), None, None, None, None];
    host_of(rt, runtime, alloc, &MAPS, start.expect(rt, "versions"))
}

// Calls in turn, and how often a map was to be made and had FILE by then. The domain has no map of the kind 7, so that
// none is made.
static STATUSES: [Row; 7] = [
    Row {
        name: "kind 1",
        input: "MAKE 00000001",
        calls: 1,
        output: "MADE 00000001",
        counts: (1, 0, true, 0, 0),
        ..EMPTY
    },
    Row {
        name: "kind 2",
        input: "MAKE 00000002",
        calls: 1,
        output: "MADE fffffff2",
        counts: (2, 0, true, 0, 0),
        ..EMPTY
    },
    Row {
        name: "kind 3",
        input: "MAKE 00000003",
        calls: 1,
        output: "MADE 00000002",
        counts: (3, 0, true, 0, 0),
        ..EMPTY
    },
    Row {
        name: "kind 4",
        input: "MAKE 00000004",
        calls: 1,
        output: "MADE fffffff8",
        counts: (4, 0, true, 0, 0),
        ..EMPTY
    },
    Row {
        name: "kind 5",
        input: "MAKE 00000005",
        calls: 1,
        output: "MADE fffffff7",
        counts: (5, 1, true, 0, 0),
        ..EMPTY
    },
    Row {
        name: "kind 6",
        input: "MAKE 00000006",
        calls: 1,
        output: "MADE fffffffd",
        counts: (6, 1, true, 0, 0),
        ..EMPTY
    },
    Row {
        name: "kind 7",
        input: "MAKE 00000007",
        calls: 1,
        output: "MADE ffffffff",
        counts: (6, 1, true, 0, 0),
        ..EMPTY
    },
];

#[test]
fn statuses_of_makes(rt: HostRuntime) {
    let host = unmade(&rt, rt, rt.alloc());
    try_rows(&rt, rt.alloc(), host, &STATUSES);
}

// Each is a session over a host of its own.
static MADE: [[Row; 1]; 3] = [
    [Row {
        name: "MATCH, MAKE, MATCH",
        input: "MATCH MAKE 00000001 MATCH",
        calls: 3,
        output: "NO_MAP MADE 00000001 VALUE",
        counts: (1, 0, true, 0, 0),
        ..EMPTY
    }],
    [Row {
        name: "the same by the map's name",
        input: "MATCH MAKE_PASSWD MATCH",
        calls: 3,
        output: "NO_MAP MADE 00000001 VALUE",
        counts: (1, 0, true, 0, 0),
        ..EMPTY
    }],
    [Row {
        name: "a map of no kind, of rows",
        input: "MATCH_M MAKE_M MATCH_M",
        calls: 3,
        output: "NO_MAP MADE 00000001 NO_VALUE",
        counts: (1, 0, true, 0, 0),
        ..EMPTY
    }],
];

#[test]
fn make_then_match(rt: HostRuntime) {
    for rows in &MADE {
        try_rows(&rt, rt.alloc(), unmade(&rt, rt, rt.alloc()), rows);
    }
}

static FROM_ANOTHER: [Row; 1] = [Row {
    name: "MAKE, by a kind and by names, MATCH",
    peer: Peer {
        addr: [10, 0, 0, 9],
        port: 700,
    },
    input: "MAKE 00000001 MAKE_PASSWD MAKE_M MATCH",
    calls: 4,
    output: "MADE fffffff2 MADE fffffff2 MADE fffffff2 NO_MAP",
    ..EMPTY
}];

#[test]
fn make_from_another_host(rt: HostRuntime) {
    let host = unmade(&rt, rt, rt.alloc());
    try_rows(&rt, rt.alloc(), host, &FROM_ANOTHER);
}

// A reply of 32 bytes is four writes and a flush. The record of MATCH, of 84 bytes, isn't read.
const FIRST_LOST: Row = Row {
    name: "the first write fails",
    input: "MAKE 00000001 MATCH",
    bounds: Bounds {
        write: 0,
        ..UNBOUNDED
    },
    end: End::WriteFault,
    calls: 1,
    left: 84,
    counts: (1, 0, true, 0, 0),
    ..EMPTY
};

// Each is a session over a host of its own.
static LOST: [[Row; 1]; 4] = [
    [FIRST_LOST],
    [Row {
        name: "the second write fails",
        bounds: Bounds {
            write: 1,
            ..UNBOUNDED
        },
        output: "8000001c 00000002 0000",
        ..FIRST_LOST
    }],
    [Row {
        name: "the fourth write fails",
        bounds: Bounds {
            write: 3,
            ..UNBOUNDED
        },
        output: "MADE 0000",
        ..FIRST_LOST
    }],
    [Row {
        name: "the flush fails",
        bounds: Bounds {
            write: 4,
            ..UNBOUNDED
        },
        output: "MADE 00000001",
        ..FIRST_LOST
    }],
];

#[test]
fn make_whose_reply_is_lost(rt: HostRuntime) {
    for rows in &LOST {
        try_rows(&rt, rt.alloc(), unmade(&rt, rt, rt.alloc()), rows);
    }
}
