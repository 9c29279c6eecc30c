//! What the words of client commands ask, reckoned by hand from the sentences of docs/FORMATS.md.

use crate::given::assert_same;
use crate::words::sentences::{LONGEST, LONGEST_BYTES, PEER, TOO_LONG, TOO_LONG_BYTES, parsed};
use std::alloc::Global;
use std::process::Abort;
use yp_client::Question;
use yp_command::Command;
use yp_io::Peer;

/// What a question is, whom it asks, and the domain, the map, and the key or the host.
type Asked<'a> = (&'static str, Peer, [&'a [u8]; 3]);

/// The question to this server. What it doesn't name is empty.
fn asked(addr: Peer, question: &Question<Vec<u8>>) -> Asked<'_> {
    match question {
        Question::Cat { domain, map } => ("cat", addr, [domain, map, b""]),
        Question::Catk { domain, map } => ("catk", addr, [domain, map, b""]),
        Question::Which { domain, map } => ("which", addr, [domain, map, b""]),
        Question::Poll { domain, map } => ("poll", addr, [domain, map, b""]),
        Question::Match { domain, map, key } => ("match", addr, [domain, map, key]),
        Question::Maps { domain } => ("maps", addr, [domain, b"", b""]),
        Question::Pull {
            domain,
            map,
            source,
        } => ("pull", addr, [domain, map, source]),
        Question::Make { domain, map } => ("make", addr, [domain, map, b""]),
        Question::Innetgr { domain, group, .. } => ("innetgr", addr, [domain, group, b""]),
    }
}

/// The question that a command asks.
fn question_of(command: &Command) -> Option<Asked<'_>> {
    match command {
        Command::Ask { addr, question } => Some(asked(*addr, question)),
        _ => None,
    }
}

const HOSTS: [&[u8]; 3] = [b"lab", b"hosts.byname", b""];

static QUESTIONS: [(&[&str], Asked); 10] = [
    (
        &["cat", "127.0.0.1:700", "lab", "hosts.byname"],
        ("cat", PEER, HOSTS),
    ),
    (
        &["catk", "127.0.0.1:700", "lab", "hosts.byname"],
        ("catk", PEER, HOSTS),
    ),
    (
        &["which", "127.0.0.1:700", "lab", "hosts.byname"],
        ("which", PEER, HOSTS),
    ),
    (
        &["poll", "127.0.0.1:700", "lab", "hosts.byname"],
        ("poll", PEER, HOSTS),
    ),
    (
        &["match", "127.0.0.1:700", "lab", "hosts.byname", ""],
        ("match", PEER, HOSTS),
    ),
    (
        &["maps", "127.0.0.1:700", "lab"],
        ("maps", PEER, [b"lab", b"", b""]),
    ),
    (
        &["pull", "127.0.0.1:700", "lab", "hosts.byname", "m1"],
        ("pull", PEER, [b"lab", b"hosts.byname", b"m1"]),
    ),
    (
        &["pull", "127.0.0.1:700", "lab", "a/b", LONGEST],
        ("pull", PEER, [b"lab", b"a/b", LONGEST_BYTES]),
    ),
    (
        &["make", "127.0.0.1:700", "lab", "hosts.byname"],
        ("make", PEER, HOSTS),
    ),
    (
        &["make", "127.0.0.1:700", "lab", LONGEST],
        ("make", PEER, [b"lab", LONGEST_BYTES, b""]),
    ),
];

fn check_question(rt: &impl Abort, alloc: Global, words: &[&str], question: Asked) {
    let command = parsed(rt, alloc, words);
    let came = question_of(&command);
    assert_same(rt, &came, &Some(question), "a question");
}

#[test]
fn questions_parsed(rt: HostRuntime) {
    for (words, question) in &QUESTIONS {
        check_question(&rt, rt.alloc(), *words, *question);
    }
}

const OTHER_PEER: Peer = Peer {
    addr: [10, 0, 0, 2],
    port: 65_535,
};

/// The servers that are compared, and the domain.
type Servers<'a> = (Peer, &'a [Peer], &'a [u8]);

fn compared(command: &Command) -> Option<Servers<'_>> {
    match command {
        Command::Orders {
            first,
            others,
            domain,
        } => Some((*first, others, domain)),
        _ => None,
    }
}

/// Words of `orders`, and what they ask: the last word is the domain, also where it looks like an address.
static COMPARED: [(&[&str], Servers); 5] = [
    (&["orders", "127.0.0.1:700", "lab"], (PEER, &[], b"lab")),
    (
        &["orders", "127.0.0.1:700", "10.0.0.2:65535"],
        (PEER, &[], b"10.0.0.2:65535"),
    ),
    (
        &["orders", "127.0.0.1:700", "10.0.0.2:65535", "lab"],
        (PEER, &[OTHER_PEER], b"lab"),
    ),
    (
        &[
            "orders",
            "10.0.0.2:65535",
            "127.0.0.1:700",
            "10.0.0.2:65535",
            LONGEST,
        ],
        (OTHER_PEER, &[PEER, OTHER_PEER], LONGEST_BYTES),
    ),
    (
        &["orders", "127.0.0.1:700", "10.0.0.2:65535", "127.0.0.1:700"],
        (PEER, &[OTHER_PEER], b"127.0.0.1:700"),
    ),
];

fn check_compared(rt: &impl Abort, alloc: Global, words: &[&str], wanted: Servers) {
    let command = parsed(rt, alloc, words);
    assert_same(rt, &compared(&command), &Some(wanted), "orders");
}

#[test]
fn orders_parsed(rt: HostRuntime) {
    for (words, wanted) in &COMPARED {
        check_compared(&rt, rt.alloc(), *words, *wanted);
    }
}

/// A domain, a group, and who may be in it: a host, a user and a domain.
type Membership<'a> = ([&'a [u8]; 2], [Option<&'a [u8]>; 3]);

fn lent(given: &Option<Vec<u8>>) -> Option<&[u8]> {
    match given {
        Some(bytes) => Some(bytes.as_slice()),
        None => None,
    }
}

fn membership(command: &Command) -> Option<Membership<'_>> {
    match command {
        Command::Ask {
            question: Question::Innetgr {
                domain,
                group,
                host,
                user,
                user_domain,
            },
            ..
        } => Some(([domain, group], [lent(host), lent(user), lent(user_domain)])),
        _ => None,
    }
}

/// Words of `innetgr`, and what they ask: an asterisk stands for any, and an empty word for the empty name.
const MEMBERSHIPS: [(&[&str], Membership); 3] = [
    (
        &["innetgr", "127.0.0.1:700", "lab", "a", "*", "joe", "*"],
        ([b"lab", b"a"], [None, Some(b"joe"), None]),
    ),
    (
        &["innetgr", "127.0.0.1:700", "lab", "", "h1", "*", ""],
        ([b"lab", b""], [Some(b"h1"), None, Some(b"")]),
    ),
    (
        &[
            "innetgr",
            "127.0.0.1:700",
            LONGEST,
            "*",
            "**",
            "-",
            TOO_LONG,
        ],
        (
            [LONGEST_BYTES, b"*"],
            [Some(b"**"), Some(b"-"), Some(TOO_LONG_BYTES)],
        ),
    ),
];

fn check_membership(rt: &impl Abort, alloc: Global, words: &[&str], wanted: Membership) {
    let command = parsed(rt, alloc, words);
    assert_same(rt, &membership(&command), &Some(wanted), "innetgr");
}

#[test]
fn memberships_parsed(rt: HostRuntime) {
    for (words, wanted) in &MEMBERSHIPS {
        check_membership(&rt, rt.alloc(), *words, *wanted);
    }
}
