//! Fetches over wires in memory: calls and replies written out by hand, from RFC 5531 and yp.x.

use crate::given::{assert_same, bytes, sent};
use crate::transfer::sample::{
    ALL_REPLY, CALLS, FAIR, MASTER_REPLY, ORDER_REPLY, SECOND_REPLY, SKEWED_REPLY, Weather, dial,
    table,
};
use std::alloc::Global;
use std::process::Abort;
use std::random::RandomSource;
use yp_memory::MemDial;
use yp_messages::YpStat;
use yp_transfer::{FetchRequest, Hosts, XfrFault, fetch_from};
use yp_version::{Order, Version};

/// A version: its order, its master, whether it is secure, how many rows it has, and the first one.
type Seen<'a> = (u32, &'a [u8], bool, usize, Option<(&'a [u8], &'a [u8])>);

/// What a source sends, what the wire does, what is shown, and whether the fetch is forced; and what comes of it, how
/// many wires are given back, and how many calls are made.
#[derive(Clone, Copy)]
struct Case {
    name: &'static str,
    replies: &'static [&'static str],
    weather: Weather<'static>,
    shown: Option<u32>,
    force: bool,
    came: Result<Seen<'static>, XfrFault>,
    wires: usize,
    calls: usize,
}

// The version that the good replies say.
const HOSTS: Seen<'static> = (100, b"m1", false, 1, Some((b"alpha", b"10.0.0.1 alpha")));

const FIRST: Case = Case {
    name: "nothing is shown",
    replies: &[ORDER_REPLY, MASTER_REPLY, ALL_REPLY, SECOND_REPLY],
    weather: FAIR,
    shown: None,
    force: false,
    came: Ok(HOSTS),
    wires: 1,
    calls: 4,
};

fn seen(fetched: &Result<Version, XfrFault>) -> Result<Seen<'_>, XfrFault> {
    match fetched {
        Ok(version) => Ok((
            version.order().number(),
            version.master(),
            version.secure(),
            version.len(),
            version.row(0),
        )),
        Err(fault) => Err(*fault),
    }
}

// Fetches `hosts.byname` of `lab` from `m1`.
fn fetch_over<R: RandomSource>(
    rt: &R,
    alloc: Global,
    dial: &mut MemDial,
    hosts: &Hosts,
    shown: Option<u32>,
    force: bool,
) -> Result<Version, XfrFault> {
    let request = FetchRequest {
        domain: b"lab",
        map: b"hosts.byname",
        shown: shown.map(|number| Order(number)),
        force,
    };
    fetch_from(alloc, rt, dial, hosts, b"m1", &request)
}

fn assert_came<R: Abort>(
    rt: &R,
    alloc: Global,
    fetched: &Result<Version, XfrFault>,
    dial: &MemDial,
    case: &Case,
) {
    assert_same(rt, &seen(fetched), &case.came, case.name);
    assert_same(rt, &dial.past().len(), &case.wires, case.name);
    let calls = CALLS.get(..case.calls).expect(rt, "four calls at most");
    let calls = bytes(rt, alloc, calls);
    assert_same(rt, &sent(rt, alloc, dial), &calls, case.name);
}

fn try_over<R: RandomSource + Abort>(rt: &R, alloc: Global, input: Vec<u8>, case: &Case) {
    let mut dial = dial(rt, alloc, input, &case.weather);
    let hosts = table(rt, alloc);
    let fetched = fetch_over(rt, alloc, &mut dial, &hosts, case.shown, case.force);
    assert_came(rt, alloc, &fetched, &dial, case);
}

fn try_cases<R: RandomSource + Abort>(rt: &R, alloc: Global, cases: &[Case]) {
    for case in cases {
        try_over(rt, alloc, bytes(rt, alloc, case.replies), case);
    }
}

const OLDER: XfrFault = XfrFault::Age {
    shown: 100,
    offered: 100,
};

static AGES: [Case; 5] = [
    FIRST,
    Case {
        name: "an older one is shown",
        shown: Some(99),
        ..FIRST
    },
    Case {
        name: "the same is shown",
        shown: Some(100),
        came: Err(OLDER),
        calls: 1,
        ..FIRST
    },
    Case {
        name: "the same, forced",
        shown: Some(100),
        force: true,
        ..FIRST
    },
    Case {
        name: "a newer one, forced",
        shown: Some(101),
        force: true,
        ..FIRST
    },
];

#[test]
fn age_and_force(rt: HostRuntime) {
    try_cases(&rt, rt.alloc(), &AGES);
}

// Replies of a hostile source: refusals of the first call, those of the second, of ALL, and of the last.
const NOMAP: &str =
    "80000020 00000001 00000001 00000000 00000000 00000000 00000000 ffffffff 00000000";

const NODOM: &str =
    "80000020 00000001 00000001 00000000 00000000 00000000 00000000 fffffffe 00000000";

const OTHER_NUMBER: &str =
    "80000020 00000009 00000001 00000000 00000000 00000000 00000000 00000001 00000064";

const NO_MASTER: &str =
    "80000020 00000002 00000001 00000000 00000000 00000000 00000000 00000001 00000000";

const DENIED: &str = "80000014 00000002 00000001 00000001 00000001 00000002";

const GUARDED: &str = "8000002c 00000003 00000001 00000000 00000000 00000000 00000000
    00000001 fffffffa 00000000 00000000 00000000";

const LONG_VALUE: &str = "80000028 00000003 00000001 00000000 00000000 00000000 00000000
    00000001 00000001 00010001 00000000";

const BAD_PADDING: &str = "80000044 00000003 00000001 00000000 00000000 00000000 00000000
    00000001 00000001 0000000e 31302e30 2e302e31 20616c70 68610001 00000005 616c7068 61000000
    00000000";

const LONG_REPLY: &str = "82000001";

const INSIDE: &str = "80000044 00000003 00000001 00000000 00000000 00000000 00000000
    00000001 00000001 0000000e 31302e30";

const LAST_YPERR: &str =
    "80000020 00000004 00000001 00000000 00000000 00000000 00000000 fffffffa 00000000";

const YPERR: XfrFault = XfrFault::Yperr {
    stat: Some(YpStat::Yperr),
};

const SKEW: XfrFault = XfrFault::Skew {
    first: 100,
    second: 101,
};

static HOSTILE: [Case; 13] = [
    Case {
        name: "no such map",
        replies: &[NOMAP],
        came: Err(XfrFault::Nomap),
        calls: 1,
        ..FIRST
    },
    Case {
        name: "no such domain",
        replies: &[NODOM],
        came: Err(XfrFault::Nodom),
        calls: 1,
        ..FIRST
    },
    Case {
        name: "another number",
        replies: &[OTHER_NUMBER],
        came: Err(XfrFault::Xfrerr { at: 0 }),
        calls: 1,
        ..FIRST
    },
    Case {
        name: "no input",
        replies: &[],
        came: Err(XfrFault::Rpc),
        calls: 1,
        ..FIRST
    },
    Case {
        name: "no master",
        replies: &[ORDER_REPLY, NO_MASTER],
        came: Err(XfrFault::Dbm),
        calls: 2,
        ..FIRST
    },
    Case {
        name: "denied",
        replies: &[ORDER_REPLY, DENIED],
        came: Err(XfrFault::Yperr { stat: None }),
        calls: 2,
        ..FIRST
    },
    Case {
        name: "a secure map",
        replies: &[ORDER_REPLY, MASTER_REPLY, GUARDED],
        came: Err(YPERR),
        calls: 3,
        ..FIRST
    },
    Case {
        name: "a long value",
        replies: &[ORDER_REPLY, MASTER_REPLY, LONG_VALUE],
        came: Err(XfrFault::Xfrerr { at: 32 }),
        calls: 3,
        ..FIRST
    },
    Case {
        name: "bad padding",
        replies: &[ORDER_REPLY, MASTER_REPLY, BAD_PADDING],
        came: Err(XfrFault::Xfrerr { at: 51 }),
        calls: 3,
        ..FIRST
    },
    Case {
        name: "a long reply",
        replies: &[ORDER_REPLY, MASTER_REPLY, LONG_REPLY],
        came: Err(XfrFault::Xfrerr { at: 76 }),
        calls: 3,
        ..FIRST
    },
    Case {
        name: "an end inside ALL",
        replies: &[ORDER_REPLY, MASTER_REPLY, INSIDE],
        came: Err(XfrFault::Rpc),
        calls: 3,
        ..FIRST
    },
    Case {
        name: "a status at last",
        replies: &[ORDER_REPLY, MASTER_REPLY, ALL_REPLY, LAST_YPERR],
        came: Err(YPERR),
        calls: 4,
        ..FIRST
    },
    Case {
        name: "skewed",
        replies: &[ORDER_REPLY, MASTER_REPLY, ALL_REPLY, SKEWED_REPLY],
        came: Err(SKEW),
        calls: 4,
        ..FIRST
    },
];

#[test]
fn hostile_sources(rt: HostRuntime) {
    try_cases(&rt, rt.alloc(), &HOSTILE);
}

fn push_word<R: Abort>(rt: &R, reply: &mut Vec<u8>, word: u32) {
    reply
        .extend_from_slice(&word.to_be_bytes())
        .expect(rt, "a reply");
}

// The head of a reply of ALL with 262,145 rows of 20 bytes, and the front of a row, with an empty value.
const MANY_HEAD: &str = "80500030 00000003 00000001 00000000 00000000 00000000 00000000";

const MANY_ROW: [u8; 16] = [0, 0, 0, 1, 0, 0, 0, 1, 0, 0, 0, 0, 0, 0, 0, 4];

// That reply, behind those of ORDER and MASTER. Each row has a key of four bytes of its own.
fn many_rows<R: Abort>(rt: &R, alloc: Global) -> Vec<u8> {
    let mut reply = bytes(rt, alloc, &[ORDER_REPLY, MASTER_REPLY, MANY_HEAD]);
    for key in 0..262_145 {
        reply.extend_from_slice(&MANY_ROW).expect(rt, "a reply");
        push_word(rt, &mut reply, key);
    }
    push_word(rt, &mut reply, 0);
    reply
}

static MANY_ROWS: Case = Case {
    name: "262,145 rows",
    came: Err(XfrFault::Dbm),
    calls: 3,
    ..FIRST
};

#[test]
fn too_many_rows(rt: HostRuntime) {
    try_over(&rt, rt.alloc(), many_rows(&rt, rt.alloc()), &MANY_ROWS);
}

const ALPHA_TWICE: &str = "80000060 00000003 00000001 00000000 00000000 00000000 00000000 \
    00000001 00000001 0000000e 31302e30 2e302e31 20616c70 68610000 00000005 616c7068 61000000 \
    00000001 00000001 00000004 6e6f6e65 00000005 616c7068 61000000 00000000";

static TWICE: [Case; 1] = [Case {
    name: "alpha twice",
    replies: &[ORDER_REPLY, MASTER_REPLY, ALPHA_TWICE, SECOND_REPLY],
    ..FIRST
}];

#[test]
fn first_of_a_key_stands(rt: HostRuntime) {
    try_cases(&rt, rt.alloc(), &TWICE);
}

static NO_FAILURE: Case = FIRST;

// Whether a fetch fails over a wire that fails at a call: it is Rpc then, and else the version.
fn fails<R: RandomSource + Abort>(rt: &R, alloc: Global, weather: &Weather<'_>) -> bool {
    let mut dial = dial(rt, alloc, bytes(rt, alloc, NO_FAILURE.replies), weather);
    let hosts = table(rt, alloc);
    let fetched = fetch_over(rt, alloc, &mut dial, &hosts, None, false);
    let has_failed = seen(&fetched) == Err(XfrFault::Rpc);
    if has_failed {
        assert_begun(rt, alloc, &dial);
    } else {
        assert_came(rt, alloc, &fetched, &dial, &NO_FAILURE);
    }
    has_failed
}

fn assert_begun<R: Abort>(rt: &R, alloc: Global, dial: &MemDial) {
    let begun = bytes(rt, alloc, &CALLS).starts_with(&sent(rt, alloc, dial));
    assert_same(rt, &begun, &true, "what was sent begins the calls");
}

// A read fails, or a write.
fn try_read<R: RandomSource + Abort>(rt: &R, alloc: Global, call: u64) {
    let reads: &[u64] = &[call];
    let has_failed = fails(rt, alloc, &Weather { reads, ..FAIR });
    assert_same(rt, &(call, has_failed), &(call, true), "a read");
}

fn try_write<R: RandomSource + Abort>(rt: &R, alloc: Global, call: u64) {
    let writes: &[u64] = &[call];
    let has_failed = fails(rt, alloc, &Weather { writes, ..FAIR });
    assert_same(rt, &(call, has_failed), &(call, true), "a write");
}

#[test]
fn one_failing_call(rt: HostRuntime) {
    // Each reply takes two reads or more, and each call two writes and a flush.
    for call in 0..8 {
        try_read(&rt, rt.alloc(), call);
    }
    for call in 0..12 {
        try_write(&rt, rt.alloc(), call);
    }
    let late = Weather {
        reads: &[99],
        writes: &[99],
        ..FAIR
    };
    let has_failed = fails(&rt, rt.alloc(), &late);
    assert_same(&rt, &has_failed, &false, "no call is made so late");
}

static UNKNOWN: Case = Case {
    name: "an empty table",
    came: Err(XfrFault::Maddr),
    wires: 0,
    calls: 0,
    ..FIRST
};

#[test]
fn no_address(rt: HostRuntime) {
    let alloc = rt.alloc();
    let mut dial = dial(&rt, alloc, Vec::new(alloc), &FAIR);
    let hosts = Hosts::new(alloc);
    let fetched = fetch_over(&rt, alloc, &mut dial, &hosts, None, false);
    assert_came(&rt, alloc, &fetched, &dial, &UNKNOWN);
}

static NOT_DIALED: [Case; 1] = [Case {
    name: "a dial that fails",
    replies: &[],
    weather: Weather {
        dials: &[0],
        ..FAIR
    },
    came: Err(XfrFault::Rpc),
    wires: 0,
    calls: 0,
    ..FIRST
}];

#[test]
fn not_dialed(rt: HostRuntime) {
    try_cases(&rt, rt.alloc(), &NOT_DIALED);
}
