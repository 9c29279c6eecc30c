//! Connections one after another by one worker, and the points of its gate.

use crate::gate::Recorder;
use crate::given::assert_same;
use crate::host::version;
use crate::run::{BOTH, Row, TWO, Versions, try_row, visited};
use std::alloc::Global;
use std::process::Abort;
use std::random::RandomSource;
use std::sync::Wait;
use yp_for_server_tests::Visit;
use yp_io::Notice;
use yp_worker::{Point, Tally};

// The worker catches up before each connection, and serves it to its end before the next.
const ONE_BY_ONE: Row<'static> = Row {
    name: "nothing is shown, and the worker goes on with what it knew",
    visit: Visit {
        callers: &[("MATCH", 0, 0), ("MATCH MATCH", 0, 0)],
        script: &[
            Notice::Quiet,
            Notice::Ready { place: 0 },
            Notice::Quiet,
            Notice::Ready { place: 0 },
        ],
        ..TWO
    },
    tally: Tally {
        connections: 2,
        calls: 3,
        listen_fault: false,
    },
    closed: &[(1, "ONE"), (2, "ONE ONE")],
    ..BOTH
};

static ROWS: [Row<'static>; 3] = [
    ONE_BY_ONE,
    Row {
        name: "a newer version",
        shown: &[b"alpha:2"],
        closed: &[(1, "TWO"), (2, "TWO TWO")],
        ..ONE_BY_ONE
    },
    Row {
        name: "a newer version for the second alone",
        shown: &[b"alpha:1", b"alpha:2"],
        closed: &[(1, "ONE"), (2, "TWO TWO")],
        ..ONE_BY_ONE
    },
];

#[test]
fn two_connections(rt: HostRuntime) {
    for row in &ROWS {
        try_row(&rt, rt.alloc(), row);
    }
}

// The points of a worker that serves two connections.
fn points<R: Wait + RandomSource + Abort>(rt: &R, alloc: Global) -> Vec<Point> {
    let gate = Recorder::new(alloc);
    let visit = Visit {
        callers: &[("MATCH", 0, 0), ("", 0, 0)],
        ..TWO
    };
    let versions = Versions {
        first: version(rt, alloc, 7, b"alpha:1"),
        waiting: Vec::new(alloc),
    };
    visited(rt, alloc, &visit, versions, &gate);
    gate.into_points()
}

#[test]
fn points_of_a_gate(rt: HostRuntime) {
    // A reply of 44 bytes is two writes and a flush.
    let wanted = [
        Point::Begun,
        Point::Accepted { connection: 1 },
        Point::Piece { connection: 1 },
        Point::Piece { connection: 1 },
        Point::Replied { connection: 1 },
        Point::Accepted { connection: 2 },
    ];
    let came = points(&rt, rt.alloc());
    assert_same(
        &rt,
        &came.as_slice(),
        &wanted.as_slice(),
        "the points of two connections",
    );
}
