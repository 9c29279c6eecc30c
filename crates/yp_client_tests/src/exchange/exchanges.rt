//! Clients that ask a server in memory: calls written out by hand, from RFC 5531 and yp.x, what the server replies to
//! them, and what the client makes of that.

use crate::client::asked::{FAIR, Fixed, ask};
use crate::client::lent::{MemClient, client_over};
use crate::exchange::server::{Given, add_record, add_reply, board, show};
use crate::exchange::told;
use crate::given::{assert_same, bytes, number};
use std::alloc::Global;
use std::process::Abort;
use std::random::RandomSource;
use yp_board::PlainBoard;
use yp_client::query::QueryFault;
use yp_client::{ClientFault, Question, Row};
use yp_io::Pair;
use yp_memory::{MemSink, MemSource};
use yp_messages::{MapList, XfrStat, YpStat};
use yp_version::{Order, VersionBuilder};

const HOSTS: Given<'static> = Given {
    order: 100,
    master: b"m1",
    rows: &[(b"beta", b"10.0.0.2 beta"), (b"alpha", b"10.0.0.1 alpha")],
};

const NEWER: Given<'static> = Given {
    order: 101,
    master: b"m2",
    rows: &[(b"gamma", b"10.0.0.3 gamma")],
};

// ---- calls of `lab`, most of hosts.byname

const ALPHA_CALL: &str = "00000001 00000000 00000002 000186a4 00000002 00000003 00000000 00000000 \
    00000000 00000000 00000003 6c616200 0000000c 686f7374 732e6279 6e616d65 00000005 616c7068 61000000";

const DELTA_CALL: &str = "00000001 00000000 00000002 000186a4 00000002 00000003 00000000 00000000 \
    00000000 00000000 00000003 6c616200 0000000c 686f7374 732e6279 6e616d65 00000005 64656c74 61000000";

const ALL_CALL: &str = "00000001 00000000 00000002 000186a4 00000002 00000008 00000000 00000000 \
    00000000 00000000 00000003 6c616200 0000000c 686f7374 732e6279 6e616d65";

const ALL_BARE_CALL: &str =
    "00000001 00000000 00000002 000186a4 00000002 00000008 00000000 00000000 \
    00000000 00000000 00000003 6c616200 00000004 62617265";

const GROUPS_CALL: &str = "00000001 00000000 00000002 000186a4 00000002 00000008 00000000 00000000 \
    00000000 00000000 00000003 6c616200 00000008 6e657467 726f7570";

const MASTER_CALL: &str = "00000001 00000000 00000002 000186a4 00000002 00000009 00000000 00000000 \
    00000000 00000000 00000003 6c616200 0000000c 686f7374 732e6279 6e616d65";

const ORDER_CALL: &str = "00000001 00000000 00000002 000186a4 00000002 0000000a 00000000 00000000 \
    00000000 00000000 00000003 6c616200 0000000c 686f7374 732e6279 6e616d65";

const ORDER_BARE_CALL: &str =
    "00000001 00000000 00000002 000186a4 00000002 0000000a 00000000 00000000 \
    00000000 00000000 00000003 6c616200 00000004 62617265";

const SECOND_MASTER_CALL: &str =
    "00000002 00000000 00000002 000186a4 00000002 00000009 00000000 00000000 \
    00000000 00000000 00000003 6c616200 0000000c 686f7374 732e6279 6e616d65";

const MAPS_CALL: &str = "00000001 00000000 00000002 000186a4 00000002 0000000b 00000000 00000000 \
    00000000 00000000 00000003 6c616200";

const PULL_CALL: &str = "00000001 00000000 00000002 000186a4 00000002 00000006 00000000 00000000 \
    00000000 00000000 00000003 6c616200 0000000c 686f7374 732e6279 6e616d65 00000000 00000002 6d390000 \
    00000000 00000000 00000000";

const PULL_BARE_CALL: &str =
    "00000001 00000000 00000002 000186a4 00000002 00000006 00000000 00000000 \
    00000000 00000000 00000003 6c616200 00000004 62617265 00000000 00000002 6d390000 \
    00000000 00000000 00000000";

const PULL_NONE_CALL: &str =
    "00000001 00000000 00000002 000186a4 00000002 00000006 00000000 00000000 \
    00000000 00000000 00000003 6c616200 00000004 6e6f6e65 00000000 00000002 6d390000 \
    00000000 00000000 00000000";

const PULL_NODOM_CALL: &str =
    "00000001 00000000 00000002 000186a4 00000002 00000006 00000000 00000000 \
    00000000 00000000 00000002 6e6f0000 00000004 62617265 00000000 00000002 6d390000 \
    00000000 00000000 00000000";

/// A call of the make program's procedure 2.
const MAKE_CALL: &str = "00000001 00000000 00000002 20004e49 00000001 00000002 00000000 00000000 \
    00000000 00000000 00000003 6c616200 0000000c 686f7374 732e6279 6e616d65";

// ---- questions

const CAT: Fixed = Question::Cat {
    domain: b"lab",
    map: b"hosts.byname",
};

const CATK: Fixed = Question::Catk {
    domain: b"lab",
    map: b"hosts.byname",
};

const CAT_BARE: Fixed = Question::Cat {
    domain: b"lab",
    map: b"bare",
};

const ALPHA: Fixed = Question::Match {
    domain: b"lab",
    map: b"hosts.byname",
    key: b"alpha",
};

const DELTA: Fixed = Question::Match {
    domain: b"lab",
    map: b"hosts.byname",
    key: b"delta",
};

const WHICH: Fixed = Question::Which {
    domain: b"lab",
    map: b"hosts.byname",
};

const POLL: Fixed = Question::Poll {
    domain: b"lab",
    map: b"hosts.byname",
};

const POLL_BARE: Fixed = Question::Poll {
    domain: b"lab",
    map: b"bare",
};

const MAPS: Fixed = Question::Maps { domain: b"lab" };

const PULL: Fixed = Question::Pull {
    domain: b"lab",
    map: b"hosts.byname",
    source: b"m9",
};

const PULL_BARE: Fixed = Question::Pull {
    domain: b"lab",
    map: b"bare",
    source: b"m9",
};

const PULL_NONE: Fixed = Question::Pull {
    domain: b"lab",
    map: b"none",
    source: b"m9",
};

const PULL_NODOM: Fixed = Question::Pull {
    domain: b"no",
    map: b"bare",
    source: b"m9",
};

const MAKE: Fixed = Question::Make {
    domain: b"lab",
    map: b"hosts.byname",
};

const ANYBODY: Fixed = Question::Innetgr {
    domain: b"lab",
    group: b"a",
    host: None,
    user: None,
    user_domain: None,
};

const NO_MAP: QueryFault = QueryFault::Client(ClientFault::Yp(YpStat::Nomap));

/// A call as texts of words.
type Call = &'static [&'static str];

// Adds what a server sends for these calls.
fn add_replies<R: Abort>(
    rt: &R,
    alloc: Global,
    maps: &mut PlainBoard,
    calls: &[Call],
    stream: &mut Vec<u8>,
) {
    for call in calls {
        add_reply(rt, alloc, maps, *call, stream);
    }
}

// Adds these calls in records, each of one fragment.
fn add_records<R: Abort>(rt: &R, alloc: Global, calls: &[Call], stream: &mut Vec<u8>) {
    for call in calls {
        add_record(rt, stream, &bytes(rt, alloc, *call));
    }
}

/// A question, the calls that are made for it, and those before which the newer version is shown; what the server
/// sends, and what is printed or why nothing is.
struct Case {
    row: &'static str,
    question: Fixed,
    calls: &'static [Call],
    newer: &'static [Call],
    replies: &'static str,
    result: Result<(), QueryFault>,
    printed: &'static [u8],
}

// What a server sends for the calls of a case.
fn served<R: RandomSource + Abort>(rt: &R, alloc: Global, case: &Case) -> Vec<u8> {
    let mut maps = board(rt, alloc, &HOSTS);
    let mut stream = Vec::new(alloc);
    add_replies(rt, alloc, &mut maps, case.calls, &mut stream);
    show(rt, alloc, &mut maps, &NEWER);
    add_replies(rt, alloc, &mut maps, case.newer, &mut stream);
    stream
}

// Those calls.
fn records<R: Abort>(rt: &R, alloc: Global, case: &Case) -> Vec<u8> {
    let mut stream = Vec::new(alloc);
    add_records(rt, alloc, case.calls, &mut stream);
    add_records(rt, alloc, case.newer, &mut stream);
    stream
}

static CASES: [Case; 18] = [
    Case {
        row: "values",
        question: CAT,
        calls: &[&[ALL_CALL]],
        newer: &[],
        replies: "80000068 00000001 00000001 00000000 00000000 00000000 00000000 \
            00000001 00000001 0000000e 31302e30 2e302e31 20616c70 68610000 00000005 616c7068 61000000 \
            00000001 00000001 0000000d 31302e30 2e302e32 20626574 61000000 00000004 62657461 00000000",
        result: Ok(()),
        printed: b"10.0.0.1 alpha\n10.0.0.2 beta\n",
    },
    Case {
        row: "rows",
        question: CATK,
        calls: &[&[ALL_CALL]],
        newer: &[],
        replies: "80000068 00000001 00000001 00000000 00000000 00000000 00000000 \
            00000001 00000001 0000000e 31302e30 2e302e31 20616c70 68610000 00000005 616c7068 61000000 \
            00000001 00000001 0000000d 31302e30 2e302e32 20626574 61000000 00000004 62657461 00000000",
        result: Ok(()),
        printed: b"alpha 10.0.0.1 alpha\nbeta 10.0.0.2 beta\n",
    },
    Case {
        row: "rows of the newer version alone",
        question: CATK,
        calls: &[],
        newer: &[&[ALL_CALL]],
        replies: "80000044 00000001 00000001 00000000 00000000 00000000 00000000 \
            00000001 00000001 0000000e 31302e30 2e302e33 2067616d 6d610000 00000005 67616d6d 61000000 00000000",
        result: Ok(()),
        printed: b"gamma 10.0.0.3 gamma\n",
    },
    Case {
        row: "rows of no version",
        question: CAT_BARE,
        calls: &[&[ALL_BARE_CALL]],
        newer: &[],
        replies: "8000002c 00000001 00000001 00000000 00000000 00000000 00000000 \
            00000001 ffffffff 00000000 00000000 00000000",
        result: Err(NO_MAP),
        printed: b"",
    },
    Case {
        row: "members of no map",
        question: ANYBODY,
        calls: &[&[GROUPS_CALL]],
        newer: &[],
        replies: "8000002c 00000001 00000001 00000000 00000000 00000000 00000000 \
            00000001 ffffffff 00000000 00000000 00000000",
        result: Err(NO_MAP),
        printed: b"",
    },
    Case {
        row: "a value",
        question: ALPHA,
        calls: &[&[ALPHA_CALL]],
        newer: &[],
        replies: "80000030 00000001 00000001 00000000 00000000 00000000 00000000 \
            00000001 0000000e 31302e30 2e302e31 20616c70 68610000",
        result: Ok(()),
        printed: b"10.0.0.1 alpha\n",
    },
    Case {
        row: "no value",
        question: DELTA,
        calls: &[&[DELTA_CALL]],
        newer: &[],
        replies: "80000020 00000001 00000001 00000000 00000000 00000000 00000000 fffffffd 00000000",
        result: Err(QueryFault::NoKey),
        printed: b"",
    },
    Case {
        row: "a master",
        question: WHICH,
        calls: &[&[MASTER_CALL]],
        newer: &[],
        replies: "80000024 00000001 00000001 00000000 00000000 00000000 00000000 00000001 00000002 6d310000",
        result: Ok(()),
        printed: b"m1\n",
    },
    Case {
        row: "a standing",
        question: POLL,
        calls: &[&[ORDER_CALL], &[SECOND_MASTER_CALL]],
        newer: &[],
        replies: "80000020 00000001 00000001 00000000 00000000 00000000 00000000 00000001 00000064 \
            80000024 00000002 00000001 00000000 00000000 00000000 00000000 00000001 00000002 6d310000",
        result: Ok(()),
        printed: b"order 100\nmaster m1\n",
    },
    Case {
        row: "a master that is shown behind the order",
        question: POLL,
        calls: &[&[ORDER_CALL]],
        newer: &[&[SECOND_MASTER_CALL]],
        replies: "80000020 00000001 00000001 00000000 00000000 00000000 00000000 00000001 00000064 \
            80000024 00000002 00000001 00000000 00000000 00000000 00000000 00000001 00000002 6d320000",
        result: Ok(()),
        printed: b"order 100\nmaster m2\n",
    },
    Case {
        row: "no standing",
        question: POLL_BARE,
        calls: &[&[ORDER_BARE_CALL]],
        newer: &[],
        replies: "80000020 00000001 00000001 00000000 00000000 00000000 00000000 ffffffff 00000000",
        result: Err(NO_MAP),
        printed: b"",
    },
    Case {
        row: "maps",
        question: MAPS,
        calls: &[&[MAPS_CALL]],
        newer: &[],
        replies: "80000034 00000001 00000001 00000000 00000000 00000000 00000000 \
            00000001 00000001 0000000c 686f7374 732e6279 6e616d65 00000000",
        result: Ok(()),
        printed: b"hosts.byname\n",
    },
    Case {
        row: "a transfer that the master refuses",
        question: PULL,
        calls: &[&[PULL_CALL]],
        newer: &[],
        replies: "80000020 00000001 00000001 00000000 00000000 00000000 00000000 00000000 fffffff2",
        result: Err(QueryFault::NotDone(XfrStat::Refused)),
        printed: b"lab/hosts.byname -14 REFUSED\n",
    },
    Case {
        row: "a transfer once another host is the master",
        question: PULL,
        calls: &[],
        newer: &[&[PULL_CALL]],
        replies: "80000020 00000001 00000001 00000000 00000000 00000000 00000000 00000000 00000001",
        result: Ok(()),
        printed: b"lab/hosts.byname 1 SUCC\n",
    },
    Case {
        row: "a transfer of a map without a version",
        question: PULL_BARE,
        calls: &[&[PULL_BARE_CALL]],
        newer: &[],
        replies: "80000020 00000001 00000001 00000000 00000000 00000000 00000000 00000000 00000001",
        result: Ok(()),
        printed: b"lab/bare 1 SUCC\n",
    },
    Case {
        row: "a transfer of no map",
        question: PULL_NONE,
        calls: &[&[PULL_NONE_CALL]],
        newer: &[],
        replies: "80000020 00000001 00000001 00000000 00000000 00000000 00000000 00000000 ffffffff",
        result: Err(QueryFault::NotDone(XfrStat::Nomap)),
        printed: b"lab/none -1 NOMAP\n",
    },
    Case {
        row: "a transfer of no domain",
        question: PULL_NODOM,
        calls: &[&[PULL_NODOM_CALL]],
        newer: &[],
        replies: "80000020 00000001 00000001 00000000 00000000 00000000 00000000 00000000 fffffffe",
        result: Err(QueryFault::NotDone(XfrStat::Nodom)),
        printed: b"no/bare -2 NODOM\n",
    },
    Case {
        row: "a map that is made for its own host alone",
        question: MAKE,
        calls: &[&[MAKE_CALL]],
        newer: &[],
        replies: "8000001c 00000001 00000001 00000000 00000000 00000000 00000000 fffffff2",
        result: Err(QueryFault::NotDone(XfrStat::Refused)),
        printed: b"lab/hosts.byname -14 REFUSED\n",
    },
];

fn try_case<R: RandomSource + Abort>(rt: &R, alloc: Global, case: &Case) {
    let replies = bytes(rt, alloc, &[case.replies]);
    let calls = records(rt, alloc, case);
    let input = served(rt, alloc, case);
    assert_same(rt, &input, &replies, case.row);
    let (result, _wires, sent, printed) = ask(rt, alloc, &case.question, input, 16, &FAIR);
    let came = (result, sent.as_slice(), printed.as_slice());
    assert_same(
        rt,
        &came,
        &(case.result, calls.as_slice(), case.printed),
        case.row,
    );
}

#[test]
fn queries_print_what_is_shown(rt: HostRuntime) {
    for case in &CASES {
        try_case(&rt, rt.alloc(), case);
    }
}

// ---- calls of a client

/// The calls from number 1 on: each up to its procedure, its procedure, and its arguments.
static CALLS: [Call; 9] = [
    &[
        "00000001 00000000 00000002 000186a4 00000002 00000001",
        UNCHECKED,
        LAB,
    ],
    &[
        "00000002 00000000 00000002 000186a4 00000002 00000003",
        UNCHECKED,
        LAB,
        HOSTS_MAP,
        ALPHA_KEY,
    ],
    &[
        "00000003 00000000 00000002 000186a4 00000002 00000004",
        UNCHECKED,
        LAB,
        HOSTS_MAP,
    ],
    &[
        "00000004 00000000 00000002 000186a4 00000002 00000005",
        UNCHECKED,
        LAB,
        HOSTS_MAP,
        ALPHA_KEY,
    ],
    &[
        "00000005 00000000 00000002 000186a4 00000002 00000005",
        UNCHECKED,
        LAB,
        HOSTS_MAP,
        BETA_KEY,
    ],
    &[
        "00000006 00000000 00000002 000186a4 00000002 0000000a",
        UNCHECKED,
        LAB,
        HOSTS_MAP,
    ],
    &[
        "00000007 00000000 00000002 000186a4 00000002 00000009",
        UNCHECKED,
        LAB,
        HOSTS_MAP,
    ],
    &[
        "00000008 00000000 00000002 000186a4 00000002 0000000b",
        UNCHECKED,
        LAB,
    ],
    &[
        "00000009 00000000 00000002 000186a4 00000002 00000008",
        UNCHECKED,
        LAB,
        HOSTS_MAP,
    ],
];

// No credential and no verifier.
const UNCHECKED: &str = "00000000 00000000 00000000 00000000";

const LAB: &str = "00000003 6c616200";

const HOSTS_MAP: &str = "0000000c 686f7374 732e6279 6e616d65";

const ALPHA_KEY: &str = "00000005 616c7068 61000000";

const BETA_KEY: &str = "00000004 62657461";

// The lengths of a value and a key.
type Lens = Result<(usize, usize), ClientFault>;

// Whether DOMAIN says that the domain is served, and how long the value of MATCH is, and the rows of FIRST, of NEXT
// behind `alpha` and of NEXT behind `beta`.
type Found = (
    Result<bool, ClientFault>,
    Result<usize, ClientFault>,
    [Lens; 3],
);

// What ORDER says, how long the name is that MASTER says, how many names MAPLIST says, what ALL came to, and how
// many rows the builder then has.
type Told = (
    Result<u32, ClientFault>,
    Result<usize, ClientFault>,
    Result<usize, ClientFault>,
    (Result<(), ClientFault>, usize),
);

fn row_lens(found: Result<Row<'_>, ClientFault>) -> Lens {
    match found {
        Ok(row) => Ok((row.value.len(), row.key.len())),
        Err(fault) => Err(fault),
    }
}

fn len(found: Result<&[u8], ClientFault>) -> Result<usize, ClientFault> {
    match found {
        Ok(bytes) => Ok(bytes.len()),
        Err(fault) => Err(fault),
    }
}

fn count(found: Result<MapList, ClientFault>) -> Result<usize, ClientFault> {
    match found {
        Ok(list) => Ok(list.maps.len()),
        Err(fault) => Err(fault),
    }
}

fn find_rows(client: &mut MemClient) -> [Lens; 3] {
    let first = row_lens(told::first(client, b"lab", b"hosts.byname"));
    let next = row_lens(told::next(client, b"lab", b"hosts.byname", b"alpha"));
    let last = row_lens(told::next(client, b"lab", b"hosts.byname", b"beta"));
    [first, next, last]
}

fn find(client: &mut MemClient) -> Found {
    let served = told::domain(client, b"lab");
    let value = len(told::match_key(client, b"lab", b"hosts.byname", b"alpha"));
    (served, value, find_rows(client))
}

fn tell(client: &mut MemClient, into: &mut VersionBuilder) -> Told {
    let order = number(told::order(client, b"lab", b"hosts.byname"));
    let master = len(told::master(client, b"lab", b"hosts.byname"));
    let names = count(told::maplist(client, b"lab"));
    let all = told::all(client, b"lab", b"hosts.byname", into);
    (order, master, names, (all, into.len()))
}

// Makes the calls over a wire with this input.
fn call<R: RandomSource + Abort>(rt: &R, alloc: Global, input: Vec<u8>) -> (Found, Told) {
    let wire = Pair {
        source: MemSource::new(input, 9, Vec::new(alloc)),
        sink: MemSink::new(alloc, 16, Vec::new(alloc)),
    };
    let mut client = client_over(rt, alloc, wire, 1);
    let mut into = VersionBuilder::new(alloc, rt, Order(100), b"m1").expect(rt, "a builder");
    let found = find(&mut client);
    (found, tell(&mut client, &mut into))
}

// What a server sends for the calls.
fn replies<R: RandomSource + Abort>(rt: &R, alloc: Global) -> Vec<u8> {
    let mut maps = board(rt, alloc, &HOSTS);
    let mut stream = Vec::new(alloc);
    add_replies(rt, alloc, &mut maps, &CALLS, &mut stream);
    stream
}

#[test]
fn calls_answer_what_is_shown(rt: HostRuntime) {
    let alloc = rt.alloc();
    let found = (
        Ok(true),
        Ok(14),
        [
            Ok((14, 5)),
            Ok((13, 4)),
            Err(ClientFault::Yp(YpStat::Nomore)),
        ],
    );
    let wanted = (found, (Ok(100), Ok(2), Ok(1), (Ok(()), 2)));
    let input = replies(&rt, alloc);
    let came = call(&rt, alloc, input);
    assert_same(&rt, &came, &wanted, "calls of hosts.byname");
}
