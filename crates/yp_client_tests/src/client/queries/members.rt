//! Who is told to be a member of a netgroup.

use crate::client::queries::answers::{Answer, try_answer};
use yp_client::Question;
use yp_client::query::QueryFault;

/// The calls of ALL for `netgroup` in `lab`.
const GROUPS_CALL: &str =
    "8000003c 00000001 00000000 00000002 000186a4 00000002 00000008 00000000 00000000 \
    00000000 00000000 00000003 6c616200 00000008 6e657467 726f7570";

/// Groups that name each other: `a` with `b`, and `b` with `a (-,joe,)`.
const GROUPS_REPLY: &str = "80000054 00000001 00000001 00000000 00000000 00000000 00000000 \
    00000001 00000001 00000001 62000000 00000001 61000000 \
    00000001 00000001 0000000a 6120282d 2c6a6f65 2c290000 00000001 62000000 00000000";

/// `a` with `(h1,,lab)`, and again with `(h2,,lab)`.
const REPEATED_REPLY: &str = "8000005c 00000001 00000001 00000000 00000000 00000000 00000000 \
    00000001 00000001 00000009 2868312c 2c6c6162 29000000 00000001 61000000 \
    00000001 00000001 00000009 2868322c 2c6c6162 29000000 00000001 61000000 00000000";

/// A member, and nobody.
const MEMBER: Answer = Answer {
    row: "a user",
    question: Question::Innetgr {
        domain: b"lab",
        group: b"a",
        host: None,
        user: Some(b"joe"),
        user_domain: None,
    },
    input: GROUPS_REPLY,
    calls: GROUPS_CALL,
    result: Ok(()),
    printed: b"yes\n",
};

const NOBODY: Answer = Answer {
    row: "no such group",
    question: Question::Innetgr {
        domain: b"lab",
        group: b"c",
        host: None,
        user: None,
        user_domain: None,
    },
    result: Err(QueryFault::NotMember),
    printed: b"no\n",
    ..MEMBER
};

static MEMBERS: [Answer; 6] = [
    MEMBER,
    Answer {
        row: "a dash for the host",
        question: Question::Innetgr {
            domain: b"lab",
            group: b"a",
            host: Some(b"h1"),
            user: Some(b"joe"),
            user_domain: None,
        },
        ..NOBODY
    },
    NOBODY,
    Answer {
        row: "a user in capitals",
        question: Question::Innetgr {
            domain: b"lab",
            group: b"a",
            host: None,
            user: Some(b"Joe"),
            user_domain: None,
        },
        ..NOBODY
    },
    Answer {
        row: "the first of equal keys",
        question: Question::Innetgr {
            domain: b"lab",
            group: b"a",
            host: Some(b"H1"),
            user: None,
            user_domain: None,
        },
        input: REPEATED_REPLY,
        ..MEMBER
    },
    Answer {
        row: "the second",
        question: Question::Innetgr {
            domain: b"lab",
            group: b"a",
            host: Some(b"h2"),
            user: None,
            user_domain: None,
        },
        input: REPEATED_REPLY,
        ..NOBODY
    },
];

#[test]
fn members_of_groups(rt: HostRuntime) {
    for answer in &MEMBERS {
        try_answer(&rt, rt.alloc(), answer);
    }
}
