//! Heads of replies written out by hand, from RFC 5531 section 9.

ghost use Rattle.std.specs.Prelude.{◌≤◌};

use crate::given::{assert_same, bytes};
use std::alloc::Global;
use std::process::Abort;
use yp_rpc::*;
use yp_xdr::{NoRoom, XdrFault};

// Each head for a call's number, and its words.
static HEADS: [(u32, ReplyHead, &str); 11] = [
    (
        1,
        ReplyHead::Success,
        "00000001 00000001 00000000 00000000 00000000 00000000",
    ),
    (
        u32::MAX,
        ReplyHead::Success,
        "ffffffff 00000001 00000000 00000000 00000000 00000000",
    ),
    (
        2,
        ReplyHead::ProgUnavail,
        "00000002 00000001 00000000 00000000 00000000 00000001",
    ),
    (
        3,
        ReplyHead::ProgMismatch { low: 2, high: 2 },
        "00000003 00000001 00000000 00000000 00000000 00000002 00000002 00000002",
    ),
    (
        0x0102_0304,
        ReplyHead::ProgMismatch { low: 1, high: 7 },
        "01020304 00000001 00000000 00000000 00000000 00000002 00000001 00000007",
    ),
    (
        4,
        ReplyHead::ProcUnavail,
        "00000004 00000001 00000000 00000000 00000000 00000003",
    ),
    (
        5,
        ReplyHead::GarbageArgs,
        "00000005 00000001 00000000 00000000 00000000 00000004",
    ),
    (
        6,
        ReplyHead::SystemErr,
        "00000006 00000001 00000000 00000000 00000000 00000005",
    ),
    (
        2,
        ReplyHead::RpcMismatch { low: 2, high: 2 },
        "00000002 00000001 00000001 00000000 00000002 00000002",
    ),
    (
        2,
        ReplyHead::RpcMismatch { low: 2, high: 3 },
        "00000002 00000001 00000001 00000000 00000002 00000003",
    ),
    (
        7,
        ReplyHead::AuthError { stat: 2 },
        "00000007 00000001 00000001 00000001 00000002",
    ),
];

// The answer to writing a head into so much room, and the whole buffer, of which each byte was 9.
fn write_head(xid: u32, head: &ReplyHead, room: usize) -> (Result<usize, NoRoom>, [u8; 40])
    requires { room ≤ 40 }
{
    let mut buf = [9; 40];
    let answer = write_reply(&mut buf[..room], xid, head);
    (answer, buf)
}

// Looks at a head in so much room. Where it has room, the buffer is whole, and so many bytes of it are the head.
fn check_room<R: Abort>(rt: &R, row: &(u32, ReplyHead, &str), room: usize, whole: &[u8], len: usize)
    requires { room ≤ 40 }
{
    let (xid, head, text) = *row;
    let (answer, buf) = write_head(xid, &head, room);
    let untouched = [9; 40];
    let wanted = if room < len {
        (room, Err(NoRoom), untouched.as_slice())
    } else {
        (room, Ok(len), whole)
    };
    assert_same(rt, &(room, answer, buf.as_slice()), &wanted, text);
}

fn try_head<R: Abort>(rt: &R, alloc: Global, row: &(u32, ReplyHead, &str)) {
    let mut whole = bytes(rt, alloc, &[row.2]);
    let len = whole.len();
    whole.resize(40, 9).expect(rt, "a whole buffer");
    for room in 0..=40 {
        check_room(rt, row, room, &whole, len);
    }
}

#[test]
fn heads(rt: HostRuntime) {
    for row in &HEADS {
        try_head(&rt, rt.alloc(), row);
    }
}

fn try_read<R: Abort>(rt: &R, alloc: Global, row: &(u32, ReplyHead, &str)) {
    let (xid, head, text) = *row;
    let alone = bytes(rt, alloc, &[text]);
    let with_results = bytes(rt, alloc, &[text, "ffffffff ff"]);
    let body = alone.len();
    let came = [read_reply(&alone), read_reply(&with_results)];
    assert_same(rt, &came, &[Ok(ReplyRead { xid, head, body }); 2], text);
}

#[test]
fn heads_read(rt: HostRuntime) {
    for row in &HEADS {
        try_read(&rt, rt.alloc(), row);
    }
}

// The front of each reply to a call that was accepted, and of one to a call that was denied.
const ACCEPTED: &str = "00000001 00000001 00000000";

const DENIED: &str = "00000001 00000001 00000001";

// The words of a verifier, the zeros that follow, and the place of the results.
static VERIFIERS: [(&str, &[u8], usize); 2] = [
    ("00000006 00000005 01020304 05000000 00000000", &[], 32),
    // AUTH_SYS of the most bytes that there may be.
    ("00000001 00000190", &[0; 404], 424),
];

fn try_verifier<R: Abort>(rt: &R, alloc: Global, row: &(&str, &[u8], usize)) {
    let (text, zeros, body) = *row;
    let mut reply = bytes(rt, alloc, &[ACCEPTED, text]);
    reply.extend_from_slice(zeros).expect(rt, "a reply");
    let read = ReplyRead {
        xid: 1,
        head: ReplyHead::Success,
        body,
    };
    assert_same(rt, &read_reply(&reply), &Ok(read), text);
}

#[test]
fn any_verifier(rt: HostRuntime) {
    for row in &VERIFIERS {
        try_verifier(&rt, rt.alloc(), row);
    }
}

// The two parts of replies that can't be read, and why.
static REFUSALS: [(&str, &str, XdrFault); 22] = [
    // The number, the type of the message and reply_stat.
    ("", "", XdrFault::Short { at: 0 }),
    ("000000", "", XdrFault::Short { at: 0 }),
    ("00000001 0000", "", XdrFault::Short { at: 4 }),
    (
        "00000001 00000000 00000000",
        "",
        XdrFault::BadEnum { at: 4 },
    ),
    (
        "00000001 00000002 00000000",
        "",
        XdrFault::BadEnum { at: 4 },
    ),
    ("00000001 00000001", "", XdrFault::Short { at: 8 }),
    (
        "00000001 00000001 00000002",
        "",
        XdrFault::BadEnum { at: 8 },
    ),
    // The verifier.
    (ACCEPTED, "", XdrFault::Short { at: 12 }),
    (ACCEPTED, "00000000", XdrFault::Short { at: 16 }),
    (
        ACCEPTED,
        "00000000 00000191",
        XdrFault::TooLong { at: 16, len: 401 },
    ),
    (
        ACCEPTED,
        "00000000 00000005 01020304 050000",
        XdrFault::Short { at: 16 },
    ),
    (
        ACCEPTED,
        "00000000 00000005 01020304 05000100 00000000",
        XdrFault::Pad { at: 26 },
    ),
    // accept_stat, and the versions behind it.
    (ACCEPTED, "00000000 00000000", XdrFault::Short { at: 20 }),
    (
        ACCEPTED,
        "00000000 00000000 00000006",
        XdrFault::BadEnum { at: 20 },
    ),
    (
        ACCEPTED,
        "00000000 00000000 ffffffff",
        XdrFault::BadEnum { at: 20 },
    ),
    (
        ACCEPTED,
        "00000000 00000000 00000002",
        XdrFault::Short { at: 24 },
    ),
    (
        ACCEPTED,
        "00000000 00000000 00000002 00000002 000000",
        XdrFault::Short { at: 28 },
    ),
    // reject_stat, the versions of RPC and auth_stat.
    (DENIED, "", XdrFault::Short { at: 12 }),
    (DENIED, "00000002", XdrFault::BadEnum { at: 12 }),
    (DENIED, "00000000", XdrFault::Short { at: 16 }),
    (DENIED, "00000000 00000002", XdrFault::Short { at: 20 }),
    (DENIED, "00000001 0000", XdrFault::Short { at: 16 }),
];

fn try_refusal<R: Abort>(rt: &R, alloc: Global, row: &(&str, &str, XdrFault)) {
    let (front, text, fault) = *row;
    let reply = bytes(rt, alloc, &[front, text]);
    let came = (front, read_reply(&reply));
    assert_same(rt, &came, &(front, Err(fault)), text);
}

#[test]
fn places_of_refusals(rt: HostRuntime) {
    for row in &REFUSALS {
        try_refusal(&rt, rt.alloc(), row);
    }
}
