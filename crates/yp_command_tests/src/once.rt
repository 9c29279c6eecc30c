//! `once` over memory: its calls and replies written out by hand, from RFC 5531 and yp.x.

use crate::given::{assert_same, bytes, try_rows};
use std::alloc::Global;
use std::process::Abort;
use std::random::RandomSource;
use std::sync::Wait;
use std::thread::Threads;
use std::time::Clock;
use yp_stage::{FAIR, Row, Words, strings_of, try_made};

/// MATCH of `alpha` in the map `hosts.byname` of the domain `lab`, xid 1, in a record of 80 bytes.
const MATCH: Words = &[
    "8000004c 00000001 00000000 00000002 000186a4 00000002 00000003",
    "00000000 00000000 00000000 00000000 00000003 6c616200",
    "0000000c 686f7374 732e6279 6e616d65 00000005 616c7068 61000000",
];

/// Its reply, of 52 bytes.
const REPLY: &str = "80000030 00000001 00000001 00000000 00000000 00000000 00000000
    00000001 0000000e 31302e30 2e302e31 20616c70 68610000";

/// Its reply where no row has the key.
const NO_KEY_REPLY: &str = "80000020 00000001 00000001 00000000 00000000 00000000 00000000
    fffffffd 00000000";

/// The words serve one row.
const ANSWERED: Row = Row {
    name: "reads of eighty bytes",
    words: &["once", "lab/hosts.byname", "alpha=10.0.0.1 alpha"],
    input: MATCH,
    read: 80,
    replies: &[REPLY],
    ..FAIR
};

/// The most bytes of a read.
static PIECES: [Row; 3] = [
    Row {
        name: "reads of one byte",
        read: 1,
        ..ANSWERED
    },
    Row {
        name: "reads of three bytes",
        read: 3,
        ..ANSWERED
    },
    ANSWERED,
];

#[test]
fn first_match(rt: HostRuntime) {
    try_rows(&rt, rt.alloc(), &PIECES);
}

/// The call of MATCH, each of its bytes in a fragment of its own, and an empty fragment after the tenth.
const FRAGMENTS: Words = &[
    "0000000100 0000000100 0000000100 0000000101 0000000100 0000000100 0000000100 0000000100",
    "0000000100 0000000100 00000000 0000000100 0000000102 0000000100 0000000101 0000000186",
    "00000001a4 0000000100 0000000100 0000000100 0000000102 0000000100 0000000100 0000000100",
    "0000000103 0000000100 0000000100 0000000100 0000000100 0000000100 0000000100 0000000100",
    "0000000100 0000000100 0000000100 0000000100 0000000100 0000000100 0000000100 0000000100",
    "0000000100 0000000100 0000000100 0000000100 0000000103 000000016c 0000000161 0000000162",
    "0000000100 0000000100 0000000100 0000000100 000000010c 0000000168 000000016f 0000000173",
    "0000000174 0000000173 000000012e 0000000162 0000000179 000000016e 0000000161 000000016d",
    "0000000165 0000000100 0000000100 0000000100 0000000105 0000000161 000000016c 0000000170",
    "0000000168 0000000161 0000000100 0000000100 8000000100",
];

const IN_FRAGMENTS: Row = Row {
    input: FRAGMENTS,
    ..ANSWERED
};

static FRAGMENT_PIECES: [Row; 3] = [
    Row {
        name: "fragments, in reads of one byte",
        read: 1,
        ..IN_FRAGMENTS
    },
    Row {
        name: "fragments, in reads of three bytes",
        read: 3,
        ..IN_FRAGMENTS
    },
    IN_FRAGMENTS,
];

#[test]
fn many_fragments(rt: HostRuntime) {
    let call = bytes(&rt, rt.alloc(), FRAGMENTS);
    assert_same(&rt, &call.len(), &384, "the length of the call");
    try_rows(&rt, rt.alloc(), &FRAGMENT_PIECES);
}

/// The most bytes of a value.
const VALUE_MAX: usize = 65_536;

/// The longest value, all of whose bytes are `x`.
fn longest_value<R: Abort>(rt: &R, alloc: Global) -> String {
    "x".repeat(alloc, VALUE_MAX).expect(rt, "memory")
}

/// The words of `once` without a row.
fn once_words<R: Abort>(rt: &R, alloc: Global) -> Vec<String> {
    strings_of(alloc, &["once", "lab/hosts.byname"]).expect(rt, "memory")
}

/// Runs these words over MATCH, and compares what comes with a row whose output is these bytes.
fn try_words<R: Threads + Wait + RandomSource + Clock + Abort + Sync>(
    rt: &R,
    alloc: Global,
    row: &Row,
    words: &[String],
    output: &[u8],
) {
    let call = bytes(rt, alloc, MATCH);
    try_made(alloc, rt, row, words, &call, output).expect(rt, row.name);
}

/// What a fragment of 8,192 bytes has.
static FULL: [u8; 8_192] = [b'x'; 8_192];

fn add<R: Abort>(rt: &R, reply: &mut Vec<u8>, bytes: &[u8]) {
    reply.extend_from_slice(bytes).expect(rt, "memory");
}

/// The reply to MATCH with the longest value: eight fragments of 8,192 bytes, the first of which begins with 32 bytes
/// before the value, and one of 32.
fn reply_of_nine_fragments<R: Abort>(rt: &R, alloc: Global) -> Vec<u8> {
    let mut reply = bytes(
        rt,
        alloc,
        &["00002000 00000001 00000001 00000000 00000000 00000000 00000000 00000001 00010000"],
    );
    add(rt, &mut reply, &FULL[32..]);
    for _ in 0..7 {
        add(rt, &mut reply, &[0, 0, 0x20, 0]);
        add(rt, &mut reply, &FULL);
    }
    add(rt, &mut reply, &[0x80, 0, 0, 32]);
    add(rt, &mut reply, &FULL[..32]);
    reply
}

/// A write takes 4,096 bytes at most.
static LONGEST: Row = Row {
    name: "the longest value",
    ..ANSWERED
};

#[test]
fn value_in_nine_fragments(rt: HostRuntime) {
    let alloc = rt.alloc();
    let reply = reply_of_nine_fragments(&rt, alloc);
    assert_same(&rt, &reply.len(), &65_604, "the length of the reply");
    let value = longest_value(&rt, alloc);
    let row = format!(in alloc; "alpha={value}").expect(&rt, "memory");
    let mut words = once_words(&rt, alloc);
    words.push(row).expect(&rt, "memory");
    try_words(&rt, alloc, &LONGEST, &words, &reply);
}

/// Sixteen letters.
static LETTERS: [char; 16] = [
    'A', 'B', 'C', 'D', 'E', 'F', 'G', 'H', 'I', 'J', 'K', 'L', 'M', 'N', 'O', 'P',
];

/// Adds a row for each key of this letter and another one.
fn add_rows<R: Abort>(rt: &R, alloc: Global, words: &mut Vec<String>, first: char, value: &str) {
    for second in &LETTERS {
        let row = format!(in alloc; "{first}{second}={value}").expect(rt, "memory");
        words.push(row).expect(rt, "memory");
    }
}

/// Words that serve 256 rows with keys of two letters and the longest values.
fn longest_rows<R: Abort>(rt: &R, alloc: Global) -> Vec<String> {
    let value = longest_value(rt, alloc);
    let mut words = once_words(rt, alloc);
    for first in &LETTERS {
        add_rows(rt, alloc, &mut words, *first, &value);
    }
    words
}

static REFUSED: Row = Row {
    name: "258 words",
    code: 17,
    note: "yp: row 257 rule 4\n",
    ..FAIR
};

static TAKEN: Row = Row {
    name: "257 words",
    ..ANSWERED
};

#[test]
fn rows_past_a_limit(rt: HostRuntime) {
    let alloc = rt.alloc();
    // The body of a version is at most 16,777,216 bytes: 20 at its front, and 65,548 of each row.
    let reply = bytes(&rt, alloc, &[NO_KEY_REPLY]);
    let mut words = longest_rows(&rt, alloc);
    assert_same(&rt, &words.len(), &258, "the number of the words");
    try_words(&rt, alloc, &REFUSED, &words, &[]);
    let _ = words.pop();
    try_words(&rt, alloc, &TAKEN, &words, &reply);
}

/// The call twice: each record takes a read for its head and one for its body, and the end of the input one; each reply
/// takes a write and a flush.
const TWICE: Row = Row {
    name: "no sixth read",
    input: &[
        "8000004c 00000001 00000000 00000002 000186a4 00000002 00000003",
        "00000000 00000000 00000000 00000000 00000003 6c616200",
        "0000000c 686f7374 732e6279 6e616d65 00000005 616c7068 61000000",
        "8000004c 00000001 00000000 00000002 000186a4 00000002 00000003",
        "00000000 00000000 00000000 00000000 00000003 6c616200",
        "0000000c 686f7374 732e6279 6e616d65 00000005 616c7068 61000000",
    ],
    reads: 5,
    writes: 4,
    replies: &[REPLY, REPLY],
    ..ANSWERED
};

const UNREAD: Row = Row {
    name: "the first head isn't read",
    reads: 0,
    code: 3,
    cut: 0,
    note: "yp: read fault\n",
    ..TWICE
};

const UNWRITTEN: Row = Row {
    name: "the first reply isn't written",
    writes: 0,
    code: 4,
    cut: 0,
    note: "yp: write fault\n",
    ..TWICE
};

static FAULTS: [Row; 10] = [
    TWICE,
    UNREAD,
    Row {
        name: "the first body isn't read",
        reads: 1,
        ..UNREAD
    },
    Row {
        name: "the second head isn't read",
        reads: 2,
        cut: 52,
        ..UNREAD
    },
    Row {
        name: "the second body isn't read",
        reads: 3,
        cut: 52,
        ..UNREAD
    },
    Row {
        name: "the end isn't read",
        reads: 4,
        cut: 104,
        ..UNREAD
    },
    UNWRITTEN,
    Row {
        name: "the first reply isn't flushed",
        writes: 1,
        cut: 52,
        ..UNWRITTEN
    },
    Row {
        name: "the second reply isn't written",
        writes: 2,
        cut: 52,
        ..UNWRITTEN
    },
    Row {
        name: "the second reply isn't flushed",
        writes: 3,
        cut: 104,
        ..UNWRITTEN
    },
];

#[test]
fn one_failing_call(rt: HostRuntime) {
    try_rows(&rt, rt.alloc(), &FAULTS);
}

/// Calls with a domain of 4,294,967,295 bytes, with padding of the domain that isn't zero, and with a credential of 401
/// bytes, and one that is well. The first two are garbage, and the third gets no reply.
static HOSTILE: [Row; 1] = [Row {
    name: "hostile calls",
    input: &[
        "8000004c 00000001 00000000 00000002 000186a4 00000002 00000003",
        "00000000 00000000 00000000 00000000 ffffffff 6c616200",
        "0000000c 686f7374 732e6279 6e616d65 00000005 616c7068 61000000",
        "8000004c 00000001 00000000 00000002 000186a4 00000002 00000003",
        "00000000 00000000 00000000 00000000 00000003 6c616201",
        "0000000c 686f7374 732e6279 6e616d65 00000005 616c7068 61000000",
        "8000004c 00000001 00000000 00000002 000186a4 00000002 00000003",
        "00000000 00000191 00000000 00000000 00000003 6c616200",
        "0000000c 686f7374 732e6279 6e616d65 00000005 616c7068 61000000",
        "8000004c 00000001 00000000 00000002 000186a4 00000002 00000003",
        "00000000 00000000 00000000 00000000 00000003 6c616200",
        "0000000c 686f7374 732e6279 6e616d65 00000005 616c7068 61000000",
    ],
    replies: &[
        "80000018 00000001 00000001 00000000 00000000 00000000 00000004",
        "80000018 00000001 00000001 00000000 00000000 00000000 00000004",
        REPLY,
    ],
    ..ANSWERED
}];

#[test]
fn hostile_calls(rt: HostRuntime) {
    try_rows(&rt, rt.alloc(), &HOSTILE);
}
