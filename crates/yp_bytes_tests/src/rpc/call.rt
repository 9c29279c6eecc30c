//! Records written out by hand, from RFC 5531 sections 8.2 and 9.

ghost use Rattle.std.specs.Prelude.{◌≤◌, length};

use crate::given::{assert_same, bytes};
use std::alloc::Global;
use std::process::Abort;
use yp_rpc::*;
use yp_xdr::NoRoom;

// A call of YPPROC_MATCH for the key "alpha" of the map "hosts.byname" in the domain "lab".
const MATCH: &str = "00000001 00000000 00000002 000186a4 00000002 00000003 00000000 00000000 \
    00000000 00000000 00000003 6c616200 0000000c 686f7374 732e6279 6e616d65 \
    00000005 616c7068 61000000";

// The words of a call of YPPROC_NULL in front of its credential.
const NULL: &str = "ffffffff 00000000 00000002 000186a4 00000001 00000000";

// No credential and no verifier.
const NO_AUTH: &str = "00000000 00000000 00000000 00000000";

// What is heard of it, with this flavor of the credential, and this place of the arguments.
fn null_call(flavor: u32, body: usize) -> Heard {
    Heard::Call(CallHead {
        xid: u32::MAX,
        prog: 100_004,
        vers: 1,
        procedure: 0,
        flavor,
        body,
    })
}

const MATCH_CALL: Heard = Heard::Call(CallHead {
    xid: 1,
    prog: 100_004,
    vers: 2,
    procedure: 3,
    flavor: 0,
    body: 40,
});

// Its head has 40 bytes, and whatever follows it is its arguments.
fn check_front<R: Abort>(rt: &R, message: &[u8], end: usize)
    requires { end ≤ length message.now }
{
    let wanted = if end < 40 { Heard::Noise } else { MATCH_CALL };
    let came = (end, read_call(&message[..end]));
    assert_same(rt, &came, &(end, wanted), "so many bytes");
}

#[test]
fn a_call_of_match(rt: HostRuntime) {
    let message = bytes(&rt, rt.alloc(), &[MATCH]);
    for end in 0..=message.len() {
        check_front(&rt, &message, end);
    }
}

// The words of a credential and what follows it, the flavor, and the place of the arguments.
static CREDENTIALS: [(&str, u32, usize); 7] = [
    // No credential, no verifier, and no arguments.
    ("00000000 00000000 00000000 00000000", 0, 40),
    ("00000000 00000000 00000000 00000000 00000007", 0, 40),
    // AUTH_SYS: a stamp, the machine "lab", two ids, and no further groups.
    (
        "00000001 00000018 00004b1d 00000003 6c616200 00000000 00000000 00000000 00000000 00000000",
        1,
        64,
    ),
    // RPCSEC_GSS, which is heard as any other flavor.
    (
        "00000006 00000014 00000001 00000001 00000000 00000001 00000000 00000000 00000000",
        6,
        60,
    ),
    // The arguments stand behind the verifier and its padding.
    (
        "00000000 00000000 00000001 00000008 01020304 05060708",
        0,
        48,
    ),
    (
        "00000000 00000000 00000009 00000005 01020304 05000000 00000007",
        0,
        48,
    ),
    (
        "00000002 00000003 6c616200 00000009 00000001 6c000000 00000007",
        2,
        48,
    ),
];

fn try_credential<R: Abort>(rt: &R, alloc: Global, row: &(&str, u32, usize)) {
    let (text, flavor, body) = *row;
    let message = bytes(rt, alloc, &[NULL, text]);
    assert_same(rt, &read_call(&message), &null_call(flavor, body), text);
}

#[test]
fn credentials_and_verifiers(rt: HostRuntime) {
    for row in &CREDENTIALS {
        try_credential(&rt, rt.alloc(), row);
    }
}

// The words of a credential, and its flavor where it is within the limit. Its arguments are at 440.
static LIMITS: [(&str, Option<u32>); 6] = [
    ("00000001 00000190", Some(1)),
    ("00000001 00000191", None),
    ("00000001 ffffffff", None),
    ("00000000 00000000 00000001 00000190", Some(0)),
    ("00000000 00000000 00000001 00000191", None),
    ("00000000 00000000 00000001 80000000", None),
];

fn try_limit<R: Abort>(rt: &R, alloc: Global, row: &(&str, Option<u32>)) {
    let (text, within) = *row;
    let mut message = bytes(rt, alloc, &[NULL, text]);
    // Zeros, enough for 401 bytes with their padding and for a verifier behind them.
    message.extend_from_slice(&[0; 800]).expect(rt, "zeros");
    let wanted = match within {
        Some(flavor) => null_call(flavor, 440),
        None => Heard::Noise,
    };
    assert_same(rt, &read_call(&message), &wanted, text);
}

#[test]
fn at_the_limit_of_a_body(rt: HostRuntime) {
    for row in &LIMITS {
        try_limit(&rt, rt.alloc(), row);
    }
}

static OTHERS: [(&str, Heard); 13] = [
    ("00000002 00000000 00000003", Heard::WrongRpc { xid: 2 }),
    ("00000002 00000000 00000000", Heard::WrongRpc { xid: 2 }),
    ("00000003 00000000 00000001", Heard::WrongRpc { xid: 3 }),
    ("00000000 00000000 ffffffff", Heard::WrongRpc { xid: 0 }),
    // Nothing behind the version is looked at.
    (
        "00000004 00000000 00000003 ffffffff ff",
        Heard::WrongRpc { xid: 4 },
    ),
    ("", Heard::Noise),
    ("00000001 00000000", Heard::Noise),
    // Replies, and a message that is neither a call nor a reply.
    (
        "00000001 00000001 00000002 000186a4 00000002 00000003 00000000 00000000 00000000 00000000",
        Heard::Noise,
    ),
    ("00000001 00000001 00000003", Heard::Noise),
    (
        "00000001 01000000 00000002 000186a4 00000002 00000003 00000000 00000000 00000000 00000000",
        Heard::Noise,
    ),
    // A call whose verifier isn't all there.
    (
        "00000001 00000000 00000002 000186a4 00000002 00000003 00000000 00000000 00000000 00000004",
        Heard::Noise,
    ),
    // Padding that isn't zero, in a credential and in a verifier.
    (
        "00000001 00000000 00000002 000186a4 00000002 00000003 00000001 00000003 6c616201 00000000 00000000",
        Heard::Noise,
    ),
    (
        "00000001 00000000 00000002 000186a4 00000002 00000003 00000000 00000000 00000001 00000002 6c610100",
        Heard::Noise,
    ),
];

fn try_other<R: Abort>(rt: &R, alloc: Global, row: &(&str, Heard)) {
    let (text, wanted) = *row;
    let message = bytes(rt, alloc, &[text]);
    assert_same(rt, &read_call(&message), &wanted, text);
}

#[test]
fn other_versions_and_noise(rt: HostRuntime) {
    for row in &OTHERS {
        try_other(&rt, rt.alloc(), row);
    }
}

// The answer to writing a head into so much room, and the whole buffer, of which each byte was 9.
fn write_head(numbers: [u32; 4], room: usize) -> (Result<usize, NoRoom>, [u8; 44])
    requires { room ≤ 44 }
{
    let [xid, prog, vers, procedure] = numbers;
    let mut buf = [9; 44];
    let answer = write_call(&mut buf[..room], xid, prog, vers, procedure);
    (answer, buf)
}

// Looks at a head in so much room. Where it has room, the buffer is whole.
fn check_room<R: Abort>(rt: &R, numbers: [u32; 4], room: usize, whole: &[u8], row: &str)
    requires { room ≤ 44 }
{
    let (answer, buf) = write_head(numbers, room);
    let untouched = [9; 44];
    let wanted = if room < 40 {
        (room, Err(NoRoom), untouched.as_slice())
    } else {
        (room, Ok(40), whole)
    };
    assert_same(rt, &(room, answer, buf.as_slice()), &wanted, row);
}

// The number of a call, the program, its version and the procedure, and what stands before the credential.
static HEADS: [([u32; 4], &str); 3] = [
    (
        [1, 100_004, 2, 3],
        "00000001 00000000 00000002 000186a4 00000002 00000003",
    ),
    ([u32::MAX, 100_004, 1, 0], NULL),
    (
        [2, 536_890_953, 1, 1],
        "00000002 00000000 00000002 20004e49 00000001 00000001",
    ),
];

fn try_head<R: Abort>(rt: &R, alloc: Global, row: &([u32; 4], &str)) {
    let (numbers, front) = *row;
    let whole = bytes(rt, alloc, &[front, NO_AUTH, "09090909"]);
    for room in 0..=44 {
        check_room(rt, numbers, room, &whole, front);
    }
}

#[test]
fn heads_written(rt: HostRuntime) {
    for row in &HEADS {
        try_head(&rt, rt.alloc(), row);
    }
}
