//! What datagrams get of the push response program, and which of them count.

ghost use Rattle.std.specs.Prelude.{◌≡◌};

use crate::given::{assert_same, named, parts};
use std::alloc::Global;
use std::process::Abort;
use yp_push::turns::hear_callback;
use yp_push::{Outcome, Push};

static NAMES: &str = "\
NONE = 00000000 00000000 00000000 00000000
XFRRESP = 00000007 00000000 00000002 40000000 00000001 00000001 00000000 00000000 00000000 00000000
TOLD = 000001f4 00000001
DONE = 00000007 00000001 00000000 00000000 00000000 00000000
";

/// A datagram and its reply. The slave with the transaction 500 has an answer behind it.
static COUNTED: [&str; 1] = ["XFRRESP: XFRRESP TOLD -> DONE"];

/// It has none behind these.
static UNCOUNTED: [&str; 9] = [
    "NULL: 00000007 00000000 00000002 40000000 00000001 00000000 NONE -> DONE",
    "a status that there isn't: XFRRESP 000001f4 00000007 \
        -> 00000007 00000001 00000000 00000000 00000000 00000004",
    "no status: XFRRESP 000001f4 -> 00000007 00000001 00000000 00000000 00000000 00000004",
    "another version: 00000007 00000000 00000002 40000000 00000002 00000001 NONE TOLD \
        -> 00000007 00000001 00000000 00000000 00000000 00000002 00000001 00000001",
    "another program: 00000007 00000000 00000002 40000001 00000001 00000001 NONE TOLD \
        -> 00000007 00000001 00000000 00000000 00000000 00000001",
    "another procedure: 00000007 00000000 00000002 40000000 00000001 00000002 NONE TOLD \
        -> 00000007 00000001 00000000 00000000 00000000 00000003",
    "another version of RPC: 00000007 00000000 00000003 \
        -> 00000007 00000001 00000001 00000000 00000002 00000002",
    "another credential: 00000007 00000000 00000002 40000000 00000001 00000001 \
        00000006 00000000 00000000 00000000 TOLD \
        -> 00000007 00000001 00000001 00000001 00000002",
    "a reply: 00000007 00000001 00000000 00000000 00000000 00000000 ->",
];

/// A push to one slave with the transaction 500, which was asked.
fn push_of<R: Abort>(rt: &R, alloc: Global) -> Push
    ensures { result.slaves ≡ 1 }
{
    let mut push = Push::new(alloc, 1, 500, 1).expect(rt, "memory for a push");
    push.next_send();
    push
}

/// Hears a datagram, and answers whether this was the reply, and whether the slave has an answer.
fn hear(push: &mut Push, datagram: &[u8], reply: &[u8]) -> (bool, bool)
    requires { push.old.slaves ≡ 1 }
{
    let mut buf = [0; 8_192];
    let len = hear_callback(push, datagram, &mut buf);
    let counts = matches!(push.result(0), Outcome::Answered(_));
    (buf.get(..len) == Some(reply), counts)
}

fn try_row<R: Abort>(rt: &R, alloc: Global, row: &str, counts: bool) {
    let (name, datagram, reply) = parts(rt, row);
    let datagram = named(rt, alloc, NAMES, datagram);
    let reply = named(rt, alloc, NAMES, reply);
    let mut push = push_of(rt, alloc);
    let came = hear(&mut push, &datagram, &reply);
    assert_same(rt, &came, &(true, counts), name);
}

fn try_rows<R: Abort>(rt: &R, alloc: Global, rows: &[&str], counts: bool) {
    for row in rows {
        try_row(rt, alloc, *row, counts);
    }
}

#[test]
fn one_reply_to_each_datagram(rt: HostRuntime) {
    try_rows(&rt, rt.alloc(), &COUNTED, true);
    try_rows(&rt, rt.alloc(), &UNCOUNTED, false);
}
