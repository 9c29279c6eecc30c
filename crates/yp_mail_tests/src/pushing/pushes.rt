//! What comes of each slave.

use crate::given::NEVER;
use crate::pushing::sample::{Row, try_row};
use std::alloc::Global;
use std::process::Abort;
use yp_io::Failed;
use yp_rpc::Ended;

/// The first callback of a slave counts, and the last slave doesn't call.
const CALLED: Row = Row {
    name: "callbacks, then quiet",
    window: 3,
    most: 5,
    known: (true, true, true),
    wires: ("FIRST", "SECOND", "THIRD"),
    dials: NEVER,
    reads: NEVER,
    failing: NEVER,
    brings: "FIRST_SUCC FIRST_SKEW SECOND_AGE UNKNOWN_SUCC",
    ended: Ok(Ended::Spent),
    text: "s1 1\ns2 2\ns3 none\n",
    all: false,
    replies: 4,
    turns: 5,
    came: 3,
};

static ROWS: [Row; 10] = [
    CALLED,
    Row {
        name: "no address, and a dial that fails",
        known: (true, false, true),
        dials: 1,
        ended: Ok(Ended::Done),
        text: "s1 1\ns2 -5\ns3 -4\n",
        replies: 1,
        turns: 1,
        came: 1,
        ..CALLED
    },
    Row {
        name: "no turn",
        most: 0,
        text: "s1 none\ns2 none\ns3 none\n",
        replies: 0,
        turns: 0,
        came: 0,
        ..CALLED
    },
    Row {
        name: "another status at once, a read that fails, and a reply that is cut",
        wires: ("REFUSED", "SECOND", "CUT"),
        reads: 0,
        ended: Ok(Ended::Done),
        text: "s1 -14\ns2 -4\ns3 -4\n",
        replies: 0,
        turns: 0,
        ..CALLED
    },
    Row {
        name: "one at a time",
        window: 1,
        brings: "FIRST_SUCC SECOND_AGE THIRD_SUCC",
        ended: Ok(Ended::Done),
        text: "s1 1\ns2 2\ns3 1\n",
        all: true,
        replies: 3,
        turns: 3,
        ..CALLED
    },
    Row {
        name: "a callback before its request",
        window: 1,
        most: 2,
        brings: "SECOND_AGE FIRST_SUCC",
        text: "s1 1\ns2 none\ns3 none\n",
        replies: 2,
        turns: 2,
        came: 1,
        ..CALLED
    },
    Row {
        name: "a slave that is passed over",
        window: 1,
        most: 3,
        brings: "QUIET FIRST_SUCC QUIET",
        text: "s1 1\ns2 none\ns3 none\n",
        replies: 1,
        turns: 3,
        came: 2,
        ..CALLED
    },
    Row {
        name: "a callback of a slave whose dial failed",
        dials: 2,
        most: 1,
        brings: "THIRD_SUCC",
        text: "s1 none\ns2 none\ns3 1\n",
        replies: 1,
        turns: 1,
        came: 2,
        ..CALLED
    },
    Row {
        name: "the first turn fails",
        failing: 0,
        ended: Err(Failed),
        text: "s1 none\ns2 none\ns3 none\n",
        replies: 0,
        turns: 0,
        ..CALLED
    },
    Row {
        name: "the first reply fails",
        failing: 1,
        ended: Err(Failed),
        text: "s1 1\ns2 none\ns3 none\n",
        replies: 0,
        turns: 1,
        ..CALLED
    },
];

#[test]
fn push_results(rt: HostRuntime) {
    for row in &ROWS {
        try_row(&rt, rt.alloc(), row);
    }
}
