//! What is printed of the replies to each question.

use crate::client::asked::{FAIR, Fixed, ask};
use crate::client::queries::questions::{
    ALPHA, ALPHA_REPLY, CAT, CATK, MAPS, POLL, PULL, PULL_CALL, WHICH,
};
use crate::given::{assert_same, bytes};
use std::alloc::Global;
use std::process::Abort;
use std::random::RandomSource;
use yp_client::query::QueryFault;

const ALPHA_CALL: &str =
    "8000004c 00000001 00000000 00000002 000186a4 00000002 00000003 00000000 00000000 \
    00000000 00000000 00000003 6c616200 0000000c 686f7374 732e6279 6e616d65 00000005 616c7068 61000000";

/// A reply of ALL: `b` with the value `2`, `a` with `1`, and `b` again with `3`.
const ROWS_REPLY: &str = "80000064 00000001 00000001 00000000 00000000 00000000 00000000 \
    00000001 00000001 00000001 32000000 00000001 62000000 00000001 00000001 00000001 31000000 00000001 61000000 \
    00000001 00000001 00000001 33000000 00000001 62000000 00000000";

/// The calls of ALL, MASTER, and ORDER with MASTER behind it, for `hosts.byname` in `lab`, and of MAPLIST for `lab`.
const ALL_CALL: &str =
    "80000040 00000001 00000000 00000002 000186a4 00000002 00000008 00000000 00000000 \
    00000000 00000000 00000003 6c616200 0000000c 686f7374 732e6279 6e616d65";

const MASTER_CALL: &str =
    "80000040 00000001 00000000 00000002 000186a4 00000002 00000009 00000000 00000000 \
    00000000 00000000 00000003 6c616200 0000000c 686f7374 732e6279 6e616d65";

const POLL_CALLS: &str =
    "80000040 00000001 00000000 00000002 000186a4 00000002 0000000a 00000000 00000000 \
    00000000 00000000 00000003 6c616200 0000000c 686f7374 732e6279 6e616d65 \
    80000040 00000002 00000000 00000002 000186a4 00000002 00000009 00000000 00000000 \
    00000000 00000000 00000003 6c616200 0000000c 686f7374 732e6279 6e616d65";

const MAPS_CALL: &str =
    "80000030 00000001 00000000 00000002 000186a4 00000002 0000000b 00000000 00000000 \
    00000000 00000000 00000003 6c616200";

const NO_ROWS: &str = "8000001c 00000001 00000001 00000000 00000000 00000000 00000000 00000000";

const MASTER_REPLY: &str =
    "80000024 00000001 00000001 00000000 00000000 00000000 00000000 00000001 00000002 6d310000";

const POLL_REPLIES: &str =
    "80000020 00000001 00000001 00000000 00000000 00000000 00000000 00000001 00000064 \
    80000024 00000002 00000001 00000000 00000000 00000000 00000000 00000001 00000002 6d310000";

const MAPS_REPLY: &str = "80000038 00000001 00000001 00000000 00000000 00000000 00000000 00000001 \
    00000001 00000001 62000000 00000001 00000001 61000000 00000000";

const NO_MAPS: &str =
    "80000020 00000001 00000001 00000000 00000000 00000000 00000000 00000001 00000000";

const BINARY_REPLY: &str =
    "80000024 00000001 00000001 00000000 00000000 00000000 00000000 00000001 00000003 000aff00";

/// A question, the replies, the calls, and what is printed.
pub struct Answer {
    pub row: &'static str,
    pub question: Fixed,
    pub input: &'static str,
    pub calls: &'static str,
    pub result: Result<(), QueryFault>,
    pub printed: &'static [u8],
}

static ANSWERS: [Answer; 10] = [
    Answer {
        row: "values",
        question: CAT,
        input: ROWS_REPLY,
        calls: ALL_CALL,
        result: Ok(()),
        printed: b"1\n2\n",
    },
    Answer {
        row: "rows",
        question: CATK,
        input: ROWS_REPLY,
        calls: ALL_CALL,
        result: Ok(()),
        printed: b"a 1\nb 2\n",
    },
    Answer {
        row: "no rows",
        question: CATK,
        input: NO_ROWS,
        calls: ALL_CALL,
        result: Ok(()),
        printed: b"",
    },
    Answer {
        row: "a value",
        question: ALPHA,
        input: ALPHA_REPLY,
        calls: ALPHA_CALL,
        result: Ok(()),
        printed: b"10.0.0.1 alpha\n",
    },
    Answer {
        row: "bytes",
        question: ALPHA,
        input: BINARY_REPLY,
        calls: ALPHA_CALL,
        result: Ok(()),
        printed: b"\x00\n\xff\n",
    },
    Answer {
        row: "a master",
        question: WHICH,
        input: MASTER_REPLY,
        calls: MASTER_CALL,
        result: Ok(()),
        printed: b"m1\n",
    },
    Answer {
        row: "a standing",
        question: POLL,
        input: POLL_REPLIES,
        calls: POLL_CALLS,
        result: Ok(()),
        printed: b"order 100\nmaster m1\n",
    },
    Answer {
        row: "maps",
        question: MAPS,
        input: MAPS_REPLY,
        calls: MAPS_CALL,
        result: Ok(()),
        printed: b"b\na\n",
    },
    Answer {
        row: "no maps",
        question: MAPS,
        input: NO_MAPS,
        calls: MAPS_CALL,
        result: Ok(()),
        printed: b"",
    },
    Answer {
        row: "a transfer of another transaction",
        question: PULL,
        input: "80000020 00000001 00000001 00000000 00000000 00000000 00000000 00000007 00000001",
        calls: PULL_CALL,
        result: Ok(()),
        printed: b"lab/hosts.byname 1 SUCC\n",
    },
];

pub fn try_answer<R: RandomSource + Abort>(rt: &R, alloc: Global, answer: &Answer) {
    let input = bytes(rt, alloc, &[answer.input]);
    let calls = bytes(rt, alloc, &[answer.calls]);
    let (result, wires, sent, printed) = ask(rt, alloc, &answer.question, input, 4, &FAIR);
    let came = (result, wires, sent.as_slice(), printed.as_slice());
    let wanted = (answer.result, 1, calls.as_slice(), answer.printed);
    assert_same(rt, &came, &wanted, answer.row);
}

#[test]
fn answers_are_printed(rt: HostRuntime) {
    for answer in &ANSWERS {
        try_answer(&rt, rt.alloc(), answer);
    }
}
