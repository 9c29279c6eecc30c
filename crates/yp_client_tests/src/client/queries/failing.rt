//! Questions where one call outside fails.

use crate::client::asked::{FAIR, Fixed, Weather, ask};
use crate::client::queries::questions::{ALPHA, ALPHA_REPLY, PULL};
use crate::given::{assert_same, bytes};
use std::alloc::Global;
use std::process::Abort;
use std::random::RandomSource;
use yp_client::ClientFault;
use yp_client::query::QueryFault;

const READ_FAULT: QueryFault = QueryFault::Client(ClientFault::ReadFault);

const WRITE_FAULT: QueryFault = QueryFault::Client(ClientFault::WriteFault);

/// What fails, the fault, how many wires were given back, and what was printed.
type Failing = (
    &'static str,
    Weather<'static>,
    QueryFault,
    usize,
    &'static [u8],
);

/// The text goes out in four writes of at most four bytes, and a flush.
static FAILING: [Failing; 9] = [
    (
        "the dial",
        Weather {
            dials: &[0],
            ..FAIR
        },
        QueryFault::Dial,
        0,
        b"",
    ),
    (
        "the first read",
        Weather {
            reads: &[0],
            ..FAIR
        },
        READ_FAULT,
        1,
        b"",
    ),
    (
        "the fifth read",
        Weather {
            reads: &[4],
            ..FAIR
        },
        READ_FAULT,
        1,
        b"",
    ),
    (
        "the first write",
        Weather {
            writes: &[0],
            ..FAIR
        },
        WRITE_FAULT,
        1,
        b"",
    ),
    (
        "the fourth write",
        Weather {
            writes: &[3],
            ..FAIR
        },
        WRITE_FAULT,
        1,
        b"",
    ),
    (
        "the first print",
        Weather {
            prints: &[0],
            ..FAIR
        },
        QueryFault::Output,
        1,
        b"",
    ),
    (
        "the second print",
        Weather {
            prints: &[1],
            ..FAIR
        },
        QueryFault::Output,
        1,
        b"10.0",
    ),
    (
        "the fourth print",
        Weather {
            prints: &[3],
            ..FAIR
        },
        QueryFault::Output,
        1,
        b"10.0.0.1 alp",
    ),
    (
        "the flush",
        Weather {
            prints: &[4],
            ..FAIR
        },
        QueryFault::Output,
        1,
        b"10.0.0.1 alpha\n",
    ),
];

/// A transfer that isn't taken: its line goes out in seven writes of at most four bytes, and a flush.
const NOT_TAKEN_REPLY: &str =
    "80000020 00000001 00000001 00000000 00000000 00000000 00000000 00000000 ffffffff";

static PULL_FAILING: [Failing; 6] = [
    (
        "the dial of a transfer",
        Weather {
            dials: &[0],
            ..FAIR
        },
        QueryFault::Dial,
        0,
        b"",
    ),
    (
        "the read of its status",
        Weather {
            reads: &[0],
            ..FAIR
        },
        READ_FAULT,
        1,
        b"",
    ),
    (
        "the write of its call",
        Weather {
            writes: &[0],
            ..FAIR
        },
        WRITE_FAULT,
        1,
        b"",
    ),
    (
        "the first print of its line",
        Weather {
            prints: &[0],
            ..FAIR
        },
        QueryFault::Output,
        1,
        b"",
    ),
    (
        "the seventh print of its line",
        Weather {
            prints: &[6],
            ..FAIR
        },
        QueryFault::Output,
        1,
        b"lab/hosts.byname -1 NOMA",
    ),
    (
        "the flush of its line",
        Weather {
            prints: &[7],
            ..FAIR
        },
        QueryFault::Output,
        1,
        b"lab/hosts.byname -1 NOMAP\n",
    ),
];

fn try_failing<R: RandomSource + Abort>(
    rt: &R,
    alloc: Global,
    question: &Fixed,
    reply: &str,
    failing: &Failing,
) {
    let (row, weather, fault, wires, printed) = failing;
    let input = bytes(rt, alloc, &[reply]);
    let asked = ask(rt, alloc, question, input, 4, weather);
    let came = (asked.0, asked.1, asked.3.as_slice());
    assert_same(rt, &came, &(Err(*fault), *wires, *printed), *row);
}

#[test]
fn one_failing_call(rt: HostRuntime) {
    for failing in &FAILING {
        try_failing(&rt, rt.alloc(), &ALPHA, ALPHA_REPLY, failing);
    }
    for failing in &PULL_FAILING {
        try_failing(&rt, rt.alloc(), &PULL, NOT_TAKEN_REPLY, failing);
    }
}
