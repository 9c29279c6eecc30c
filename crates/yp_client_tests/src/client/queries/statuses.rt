//! The statuses with which a transfer that is asked for ends, and a map that is to be made.

use crate::client::asked::{FAIR, Fixed, ask};
use crate::client::queries::questions::{MAKE, PULL, PULL_CALL};
use crate::given::{assert_same, bytes};
use std::alloc::Global;
use std::process::Abort;
use std::random::RandomSource;
use yp_client::query::QueryFault;
use yp_messages::XfrStat;

/// The reply to XFR, up to its status, of the transaction 0.
const TAKEN_REPLY: &str = "80000020 00000001 00000001 00000000 00000000 00000000 00000000 00000000";

/// The status of a reply, the result, and the line.
type Taken = (&'static str, Result<(), QueryFault>, &'static [u8]);

static STATUSES: [Taken; 16] = [
    ("00000001", Ok(()), b"lab/hosts.byname 1 SUCC\n"),
    (
        "00000002",
        Err(QueryFault::NotDone(XfrStat::Age)),
        b"lab/hosts.byname 2 AGE\n",
    ),
    (
        "ffffffff",
        Err(QueryFault::NotDone(XfrStat::Nomap)),
        b"lab/hosts.byname -1 NOMAP\n",
    ),
    (
        "fffffffe",
        Err(QueryFault::NotDone(XfrStat::Nodom)),
        b"lab/hosts.byname -2 NODOM\n",
    ),
    (
        "fffffffd",
        Err(QueryFault::NotDone(XfrStat::Rsrc)),
        b"lab/hosts.byname -3 RSRC\n",
    ),
    (
        "fffffffc",
        Err(QueryFault::NotDone(XfrStat::Rpc)),
        b"lab/hosts.byname -4 RPC\n",
    ),
    (
        "fffffffb",
        Err(QueryFault::NotDone(XfrStat::Maddr)),
        b"lab/hosts.byname -5 MADDR\n",
    ),
    (
        "fffffffa",
        Err(QueryFault::NotDone(XfrStat::Yperr)),
        b"lab/hosts.byname -6 YPERR\n",
    ),
    (
        "fffffff9",
        Err(QueryFault::NotDone(XfrStat::Badargs)),
        b"lab/hosts.byname -7 BADARGS\n",
    ),
    (
        "fffffff8",
        Err(QueryFault::NotDone(XfrStat::Dbm)),
        b"lab/hosts.byname -8 DBM\n",
    ),
    (
        "fffffff7",
        Err(QueryFault::NotDone(XfrStat::File)),
        b"lab/hosts.byname -9 FILE\n",
    ),
    (
        "fffffff6",
        Err(QueryFault::NotDone(XfrStat::Skew)),
        b"lab/hosts.byname -10 SKEW\n",
    ),
    (
        "fffffff5",
        Err(QueryFault::NotDone(XfrStat::Clear)),
        b"lab/hosts.byname -11 CLEAR\n",
    ),
    (
        "fffffff4",
        Err(QueryFault::NotDone(XfrStat::Force)),
        b"lab/hosts.byname -12 FORCE\n",
    ),
    (
        "fffffff3",
        Err(QueryFault::NotDone(XfrStat::Xfrerr)),
        b"lab/hosts.byname -13 XFRERR\n",
    ),
    (
        "fffffff2",
        Err(QueryFault::NotDone(XfrStat::Refused)),
        b"lab/hosts.byname -14 REFUSED\n",
    ),
];

fn try_status<R: RandomSource + Abort>(
    rt: &R,
    alloc: Global,
    question: &Fixed,
    call: &str,
    reply: &'static str,
    taken: &Taken,
) {
    let (stat, wanted, line) = taken;
    let input = bytes(rt, alloc, &[reply, *stat]);
    let calls = bytes(rt, alloc, &[call]);
    let (result, wires, sent, printed) = ask(rt, alloc, question, input, 4, &FAIR);
    let came = (result, wires, sent.as_slice(), printed.as_slice());
    assert_same(rt, &came, &(*wanted, 1, calls.as_slice(), *line), *stat);
}

#[test]
fn each_status_of_a_transfer(rt: HostRuntime) {
    for taken in &STATUSES {
        try_status(&rt, rt.alloc(), &PULL, PULL_CALL, TAKEN_REPLY, taken);
    }
}

/// The call of MAKE_NAMED for `hosts.byname` in `lab`.
const MAKE_CALL: &str =
    "80000040 00000001 00000000 00000002 20004e49 00000001 00000002 00000000 00000000 \
    00000000 00000000 00000003 6c616200 0000000c 686f7374 732e6279 6e616d65";

/// The reply to a call of the make program, up to its status.
const MADE_REPLY: &str = "8000001c 00000001 00000001 00000000 00000000 00000000 00000000";

static MADE: [Taken; 6] = [
    ("00000001", Ok(()), b"lab/hosts.byname made\n"),
    (
        "00000002",
        Err(QueryFault::NotDone(XfrStat::Age)),
        b"lab/hosts.byname 2 AGE\n",
    ),
    (
        "fffffffd",
        Err(QueryFault::NotDone(XfrStat::Rsrc)),
        b"lab/hosts.byname -3 RSRC\n",
    ),
    (
        "fffffff8",
        Err(QueryFault::NotDone(XfrStat::Dbm)),
        b"lab/hosts.byname -8 DBM\n",
    ),
    (
        "fffffff7",
        Err(QueryFault::NotDone(XfrStat::File)),
        b"lab/hosts.byname -9 FILE\n",
    ),
    (
        "fffffff2",
        Err(QueryFault::NotDone(XfrStat::Refused)),
        b"lab/hosts.byname -14 REFUSED\n",
    ),
];

#[test]
fn statuses_of_maps_that_are_made(rt: HostRuntime) {
    for made in &MADE {
        try_status(&rt, rt.alloc(), &MAKE, MAKE_CALL, MADE_REPLY, made);
    }
}
