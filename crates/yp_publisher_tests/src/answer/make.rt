//! Calls of the make program, and their replies.

ghost use Rattle.std.specs.Prelude.{◌≤◌, length};
ghost use Rattle.yp_answer.specs.Numbers.{record_max};

use crate::answer::sample::*;
use crate::given::{assert_same, parts};
use std::alloc::Global;
use std::process::Abort;
use std::random::RandomSource;
use yp_answer::*;
use yp_board::PlainBoard;
use yp_io::Peer;
use yp_messages::XfrStat;
use yp_rpc::DATAGRAM_MAX;
use yp_texts::{Kind, Reading};

const OWN_HOST: [u8; 4] = [127, 0, 0, 1];

const OTHER_HOST: [u8; 4] = [10, 0, 0, 9];

// The answer to a call from this address, on a path.
fn asked<'a>(
    path: Path,
    board: &mut PlainBoard,
    addr: [u8; 4],
    call: &'a [u8],
    buf: &mut [u8],
) -> Answered<'a>
    requires { record_max ≤ length buf.old }
{
    let peer = Peer { addr, port: 40_000 };
    match path {
        Path::Stream => answer(board, call, peer, buf),
        Path::Datagram => answer_datagram(board, call, peer, buf),
    }
}

// A call, the path on which it comes, and the address that it is from.
#[derive(Clone, Copy)]
struct Incoming<'a> {
    path: Path,
    addr: [u8; 4],
    call: &'a [u8],
}

// The reply to a call that isn't left open, put into this buffer.
fn replied_by(
    rt: &impl Abort,
    alloc: Global,
    board: &mut PlainBoard,
    incoming: &Incoming<'_>,
    buf: &mut [u8],
) -> Vec<u8>
    requires { record_max ≤ length buf.old }
{
    match asked(incoming.path, board, incoming.addr, incoming.call, buf) {
        Answered::Reply { len } => front(rt, alloc, buf, len),
        _ => panic!(rt; "no reply"),
    }
}

// The same, with a buffer of its own.
fn replied(
    rt: &impl Abort,
    alloc: Global,
    board: &mut PlainBoard,
    incoming: &Incoming<'_>,
) -> Vec<u8> {
    let mut buf = filled(rt, alloc, 9, RECORD_MAX);
    replied_by(rt, alloc, board, incoming, &mut buf)
}

// Compares what a call of a row from this address is answered as a record, and as a datagram.
fn try_row(rt: &impl Abort, alloc: Global, board: &mut PlainBoard, addr: [u8; 4], row: &str) {
    let (name, call, reply) = parts(rt, row);
    let call = words(rt, alloc, call);
    let wanted = words(rt, alloc, reply);
    let record = Incoming {
        path: Path::Stream,
        addr,
        call: &call,
    };
    let came = replied(rt, alloc, board, &record);
    assert_same(rt, &came, &wanted, name);
    let datagram = Incoming {
        path: Path::Datagram,
        ..record
    };
    let came = replied(rt, alloc, board, &datagram);
    assert_same(rt, &came, &wanted, name);
}

fn try_from<R: RandomSource + Abort>(rt: &R, alloc: Global, addr: [u8; 4], rows: &[&str]) {
    let mut board = two_domains(rt, alloc);
    for row in rows {
        try_row(rt, alloc, &mut board, addr, *row);
    }
}

static OF_OTHERS: [&str; 6] = [
    "another host: MAKE LAB HOSTS_KIND -> MADE XFR_REFUSED",
    "another host, before all else: MAKE EMPTY KIND_99 -> MADE XFR_REFUSED",
    "another host, by name: NAMED LAB HOSTS -> MADE XFR_REFUSED",
    "another host, by the name of no kind: NAMED LAB BARE_MAP -> MADE XFR_REFUSED",
    "another host, before empty names: NAMED EMPTY EMPTY -> MADE XFR_REFUSED",
    "another host, before no such map: NAMED ZZZ NO_MAP -> MADE XFR_REFUSED",
];

static REFUSED_MAKES: [&str; 19] = [
    "an empty domain: MAKE EMPTY HOSTS_KIND -> MADE YP_BADARGS",
    "an empty domain, before an unknown kind: MAKE EMPTY KIND_99 -> MADE YP_BADARGS",
    "a domain that isn't served: MAKE ZZZ HOSTS_KIND -> MADE YP_NODOM",
    "a domain that isn't served, before an unknown kind: MAKE ZZZ KIND_99 -> MADE YP_NODOM",
    "the kind 99: MAKE LAB KIND_99 -> MADE YP_NOMAP",
    "the kind 0: MAKE LAB KIND_0 -> MADE YP_NOMAP",
    "the kind 11: MAKE LAB KIND_11 -> MADE YP_NOMAP",
    "hosts.byaddr, of which lab has no map: MAKE LAB BY_ADDRESS_KIND -> MADE YP_NOMAP",
    "passwd.byname, of which zoo has no map: MAKE ZOO PASSWD_KIND -> MADE YP_NOMAP",
    "an empty domain, by name: NAMED EMPTY HOSTS -> MADE YP_BADARGS",
    "an empty domain, before no such map: NAMED EMPTY NO_MAP -> MADE YP_BADARGS",
    "an empty map: NAMED LAB EMPTY -> MADE YP_BADARGS",
    "an empty map, before a domain that isn't served: NAMED ZZZ EMPTY -> MADE YP_BADARGS",
    "empty names: NAMED EMPTY EMPTY -> MADE YP_BADARGS",
    "a domain that isn't served, by name: NAMED ZZZ HOSTS -> MADE YP_NODOM",
    "a domain that isn't served, before no such map: NAMED ZZZ NO_MAP -> MADE YP_NODOM",
    "no such map: NAMED LAB NO_MAP -> MADE YP_NOMAP",
    "a map that another domain has: NAMED ZOO BARE_MAP -> MADE YP_NOMAP",
    "a name that goes on: NAMED LAB 00000005 62617265 61000000 -> MADE YP_NOMAP",
];

#[test]
fn refused_makes(rt: HostRuntime) {
    try_from(&rt, rt.alloc(), OTHER_HOST, &OF_OTHERS);
    // Another host of the own net, and one of another net.
    try_from(&rt, rt.alloc(), [127, 0, 0, 2], &OF_OTHERS);
    try_from(&rt, rt.alloc(), [126, 0, 0, 1], &OF_OTHERS);
    try_from(&rt, rt.alloc(), [0, 0, 0, 0], &OF_OTHERS);
    try_from(&rt, rt.alloc(), OWN_HOST, &REFUSED_MAKES);
}

// Whole calls of the make program, and the replies to them.
static OTHER_CALLS: [&str; 10] = [
    "NULL, whose arguments aren't read: 00000002 00000000 00000002 20004e49 00000001 00000000 \
        00000000 00000000 00000000 00000000 \
        -> 00000002 00000001 00000000 00000000 00000000 00000000",
    "the version 2, before an unknown procedure: 00000003 00000000 00000002 20004e49 00000002 \
        00000009 00000000 00000000 00000000 00000000 \
        -> 00000003 00000001 00000000 00000000 00000000 00000002 00000001 00000001",
    "the version 0: 00000003 00000000 00000002 20004e49 00000000 00000001 00000000 00000000 \
        00000000 00000000 \
        -> 00000003 00000001 00000000 00000000 00000000 00000002 00000001 00000001",
    "the procedure 3: 00000002 00000000 00000002 20004e49 00000001 00000003 00000000 00000000 \
        00000000 00000000 \
        -> 00000002 00000001 00000000 00000000 00000000 00000003",
    "MAKE without arguments: 00000002 00000000 00000002 20004e49 00000001 00000001 00000000 \
        00000000 00000000 00000000 \
        -> 00000002 00000001 00000000 00000000 00000000 00000004",
    "MAKE without a kind: 00000002 00000000 00000002 20004e49 00000001 00000001 00000000 \
        00000000 00000000 00000000 00000003 6c616200 \
        -> 00000002 00000001 00000000 00000000 00000000 00000004",
    "MAKE of a domain of 65 bytes: 00000002 00000000 00000002 20004e49 00000001 00000001 \
        00000000 00000000 00000000 00000000 00000041 \
        -> 00000002 00000001 00000000 00000000 00000000 00000004",
    "by name, without arguments: NAMED -> 00000002 00000001 00000000 00000000 00000000 00000004",
    "by name, without a map: NAMED LAB -> 00000002 00000001 00000000 00000000 00000000 00000004",
    "by a name of 65 bytes: NAMED LAB 00000041 \
        -> 00000002 00000001 00000000 00000000 00000000 00000004",
];

#[test]
fn other_calls_of_the_make_program(rt: HostRuntime) {
    try_from(&rt, rt.alloc(), OWN_HOST, &OTHER_CALLS);
    try_from(&rt, rt.alloc(), OTHER_HOST, &OTHER_CALLS);
}

// The xid of a call that is left open, and the map that it asks for.
type Opened = (u32, MakeJob);

fn opened_by(
    rt: &impl Abort,
    path: Path,
    board: &mut PlainBoard,
    call: &[u8],
    buf: &mut [u8],
) -> Opened
    requires { record_max ≤ length buf.old }
{
    match asked(path, board, OWN_HOST, call, buf) {
        Answered::Make { xid, job } => (xid, job),
        _ => panic!(rt; "the MAKE isn't open"),
    }
}

fn open_make(
    rt: &impl Abort,
    alloc: Global,
    path: Path,
    board: &mut PlainBoard,
    call: &[u8],
) -> Opened {
    let mut buf = filled(rt, alloc, 9, RECORD_MAX);
    opened_by(rt, path, board, call, &mut buf)
}

// A call that is left open, the number of the map that it asks for, and what that is made of.
type Open = (&'static str, u32, Making);

const HOSTS_TEXT: Making = Making::Text(Reading::Text(Kind::HostsByname));

const ROWS: Making = Making::Text(Reading::Rows);

// Bytes behind the arguments aren't read.
static OPEN: [Open; 8] = [
    ("MAKE LAB HOSTS_KIND", 0, HOSTS_TEXT),
    ("MAKE LAB HOSTS_KIND 01020304", 0, HOSTS_TEXT),
    ("MAKE ZOO HOSTS_KIND", 1, HOSTS_TEXT),
    ("NAMED LAB HOSTS", 0, HOSTS_TEXT),
    ("NAMED LAB HOSTS 01020304", 0, HOSTS_TEXT),
    ("NAMED ZOO HOSTS", 1, HOSTS_TEXT),
    ("NAMED LAB BARE_MAP", 2, ROWS),
    ("NAMED LAB EMPTY_MAP", 3, ROWS),
];

fn try_open(rt: &impl Abort, alloc: Global, board: &mut PlainBoard, row: &Open) {
    let (name, map, making) = row;
    let call = words(rt, alloc, name);
    let job = MakeJob {
        map: *map,
        making: *making,
    };
    let by_record = open_make(rt, alloc, Path::Stream, board, &call);
    assert_same(rt, &by_record, &(2, job), name);
    let by_datagram = open_make(rt, alloc, Path::Datagram, board, &call);
    assert_same(rt, &by_datagram, &(2, job), name);
}

#[test]
fn open_makes(rt: HostRuntime) {
    let alloc = rt.alloc();
    let mut board = two_domains(&rt, alloc);
    for row in &OPEN {
        try_open(&rt, alloc, &mut board, row);
    }
}

// A status of a MAKE that was tried, and the reply.
static STATUSES: [(XfrStat, &str); 6] = [
    (XfrStat::Succ, "MADE 00000001"),
    (XfrStat::Age, "MADE 00000002"),
    (XfrStat::Rsrc, "MADE fffffffd"),
    (XfrStat::Dbm, "MADE fffffff8"),
    (XfrStat::File, "MADE fffffff7"),
    (XfrStat::Refused, "MADE fffffff2"),
];

// The reply to a MAKE of this status.
fn made(rt: &impl Abort, alloc: Global, stat: XfrStat) -> Vec<u8> {
    let mut buf = filled(rt, alloc, 9, DATAGRAM_MAX);
    let len = make_reply(&mut buf, 2, stat);
    front(rt, alloc, &buf, len)
}

fn try_status(rt: &impl Abort, alloc: Global, row: &(XfrStat, &str)) {
    let (stat, reply) = row;
    let wanted = words(rt, alloc, reply);
    assert_same(rt, &made(rt, alloc, *stat), &wanted, reply);
}

#[test]
fn replies_to_makes(rt: HostRuntime) {
    for row in &STATUSES {
        try_status(&rt, rt.alloc(), row);
    }
}
