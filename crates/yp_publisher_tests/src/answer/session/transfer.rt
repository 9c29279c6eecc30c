//! Calls of XFR: a transfer that is taken is carried out behind its reply.

use crate::answer::sample::{shared, version_of};
use crate::answer::session::host::TestHost;
use crate::answer::session::sample::*;
use std::alloc::Global;
use std::process::Abort;
use std::random::RandomSource;
use yp_answer::session::End;

const TWO: Row = Row {
    name: "two transfers",
    input: "FIRST_XFR SECOND_XFR",
    calls: 2,
    output: "FIRST_XFR_REPLY SECOND_XFR_REPLY",
    counts: (0, 0, false, 2, 20),
    ..EMPTY
};

// A reply of 36 bytes is four writes and a flush. Each is a session over a host of its own.
static ROWS: [[Row; 1]; 4] = [
    [TWO],
    [Row {
        name: "a map of the host's own",
        input: "OWN_XFR",
        calls: 1,
        output: "OWN_XFR_REPLY",
        ..EMPTY
    }],
    // The second record has 84 bytes.
    [Row {
        name: "the flush of the first reply fails",
        bounds: Bounds {
            write: 4,
            ..UNBOUNDED
        },
        end: End::WriteFault,
        calls: 1,
        left: 84,
        output: "FIRST_XFR_REPLY",
        counts: NOTHING,
        ..TWO
    }],
    [Row {
        name: "the flush of the second reply fails",
        bounds: Bounds {
            write: 9,
            ..UNBOUNDED
        },
        end: End::WriteFault,
        counts: (0, 0, false, 1, 9),
        ..TWO
    }],
];

// A host that shows a version of the map `m`, and has none of the map `n`.
pub fn host<R: RandomSource + Abort>(rt: &R, runtime: HostRuntime, alloc: Global) -> TestHost {
    let shown = shared(rt, alloc, version_of(rt, alloc, 7, b"m1", &[]));
    let start = vec![in alloc; Some(shown), None].expect(rt, "versions");
    host_of(rt, runtime, alloc, &[(b"d", b"m"), (b"d", b"n")], start)
}

#[test]
fn transfers_behind_replies(rt: HostRuntime) {
    for rows in &ROWS {
        try_rows(&rt, rt.alloc(), host(&rt, rt, rt.alloc()), rows);
    }
}
