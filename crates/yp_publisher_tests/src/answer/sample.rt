//! Boards, calls and their replies, written out by hand from the protocol file yp.x and RFC 5531.

ghost use Rattle.std.specs.Prelude.{◌≡◌, ◌≤◌, length};
ghost use Rattle.yp_version.specs.Limits.{master_max};
ghost use Rattle.yp_rpc.specs.Turns.{datagram_max};
ghost use Rattle.yp_answer.specs.Numbers.{record_max};
ghost use Rattle.yp_answer.specs.Maps.{maps_of};
ghost use Rattle.yp_answer.specs.inside.Answers.{StreamIsInside};

use crate::given::{assert_same, named, parts};
use std::alloc::Global;
use std::process::Abort;
use std::random::RandomSource;
use std::sync::Arc;
use yp_answer::*;
use yp_board::{Catalog, MapName, PlainBoard};
use yp_io::Peer;
use yp_rpc::DATAGRAM_MAX;
use yp_version::{Order, Version, VersionBuilder};

// ---- words

// A name for each word or words of a call or a reply. A procedure stands for a call with the xid 7, without credential
// or verifier, up to its arguments, and MAKE and NAMED, by a kind and by a name, for one of the make program, with the
// xid 2. How a call was accepted stands for a reply up to its results.
static NAMES: &str = "\
NULL = 00000007 00000000 00000002 000186a4 00000002 00000000 00000000 00000000 00000000 00000000
DOMAIN = 00000007 00000000 00000002 000186a4 00000002 00000001 00000000 00000000 00000000 00000000
NONACK = 00000007 00000000 00000002 000186a4 00000002 00000002 00000000 00000000 00000000 00000000
MATCH = 00000007 00000000 00000002 000186a4 00000002 00000003 00000000 00000000 00000000 00000000
FIRST = 00000007 00000000 00000002 000186a4 00000002 00000004 00000000 00000000 00000000 00000000
NEXT = 00000007 00000000 00000002 000186a4 00000002 00000005 00000000 00000000 00000000 00000000
XFR = 00000007 00000000 00000002 000186a4 00000002 00000006 00000000 00000000 00000000 00000000
CLEAR = 00000007 00000000 00000002 000186a4 00000002 00000007 00000000 00000000 00000000 00000000
ALL = 00000007 00000000 00000002 000186a4 00000002 00000008 00000000 00000000 00000000 00000000
MASTER = 00000007 00000000 00000002 000186a4 00000002 00000009 00000000 00000000 00000000 00000000
ORDER = 00000007 00000000 00000002 000186a4 00000002 0000000a 00000000 00000000 00000000 00000000
MAPLIST = 00000007 00000000 00000002 000186a4 00000002 0000000b 00000000 00000000 00000000 00000000
TWELVE = 00000007 00000000 00000002 000186a4 00000002 0000000c 00000000 00000000 00000000 00000000
SUCCESS = 00000007 00000001 00000000 00000000 00000000 00000000
PROC_UNAVAIL = 00000007 00000001 00000000 00000000 00000000 00000003
GARBAGE_ARGS = 00000007 00000001 00000000 00000000 00000000 00000004
YP_TRUE = 00000001
YP_NOMORE = 00000002
YP_NOMAP = ffffffff
YP_NODOM = fffffffe
YP_NOKEY = fffffffd
YP_YPERR = fffffffa
YP_BADARGS = fffffff9
XFR_SUCC = 00000001
XFR_REFUSED = fffffff2
EMPTY = 00000000
MORE = 00000001
END = 00000000
SERVED = 00000001
UNSERVED = 00000000
LAB = 00000003 6c616200
ZOO = 00000003 7a6f6f00
ZZZ = 00000003 7a7a7a00
HOSTS = 0000000c 686f7374 732e6279 6e616d65
BARE_MAP = 00000004 62617265
EMPTY_MAP = 00000005 656d7074 79000000
NO_MAP = 00000005 6e6f6d61 70000000
ALPHA = 00000005 616c7068 61000000
ADDRESS = 0000000e 31302e30 2e302e31 20616c70 68610000
ORDER_0 = 00000000
ORDER_100 = 00000064
M1 = 00000002 6d310000
PEER_X = 00000001 78000000
TRANSACTION = 00000009
CALL_BACK = 00000009 40000000 00001b5a
MAKE = 00000002 00000000 00000002 20004e49 00000001 00000001 00000000 00000000 00000000 00000000
NAMED = 00000002 00000000 00000002 20004e49 00000001 00000002 00000000 00000000 00000000 00000000
MADE = 00000002 00000001 00000000 00000000 00000000 00000000
PASSWD_KIND = 00000001
HOSTS_KIND = 00000005
BY_ADDRESS_KIND = 00000006
KIND_0 = 00000000
KIND_11 = 0000000b
KIND_99 = 00000063
";

// The bytes of a text of these names and of other words. The domains LAB and ZOO are served, ZZZ isn't, and there is no
// map NO_MAP. CALL_BACK is the transaction 9 of the program 0x40000000 at port 7002.
pub fn words(rt: &impl Abort, alloc: Global, text: &str) -> Vec<u8> {
    named(rt, alloc, NAMES, text)
}

// ---- boards

pub type Row<'a> = (&'a [u8], &'a [u8]);

pub const HOST: Row<'static> = (b"alpha", b"10.0.0.1 alpha");

pub fn push_row(rt: &impl Abort, builder: &mut VersionBuilder, row: Row<'_>) {
    let (key, value) = row;
    assert_same(rt, &builder.push(key, value), &Ok(true), "a row of a map");
}

fn push_rows(rt: &impl Abort, builder: &mut VersionBuilder, rows: &[Row<'_>]) {
    for row in rows {
        push_row(rt, builder, *row);
    }
}

// A version of this order and master, with these rows.
pub fn version_of<R: RandomSource + Abort>(
    rt: &R,
    alloc: Global,
    order: u32,
    master: &[u8],
    rows: &[Row<'_>],
) -> Version
    requires { length master.now ≤ master_max }
{
    let mut builder = VersionBuilder::new(alloc, rt, Order(order), master).expect(rt, "a builder");
    push_rows(rt, &mut builder, rows);
    builder.finish().expect(rt, "a version")
}

// One of order 100 of the master `m1`.
pub fn version<R: RandomSource + Abort>(rt: &R, alloc: Global, rows: &[Row<'_>]) -> Version {
    version_of(rt, alloc, 100, b"m1", rows)
}

pub fn shared(rt: &impl Abort, alloc: Global, version: Version) -> Arc<Version> {
    Arc::new(alloc, version).expect(rt, "a shared version")
}

// As many things as a catalogue has maps.
fn assert_fits(rt: &impl Abort, count: usize, catalog: &Catalog)
    ensures { count ≡ length catalog.now.maps }
{
    assert_eq!(rt; count, catalog.len() as usize);
}

// A board of maps of the host `m1`, each named by its domain and its map.
pub fn board(
    rt: &impl Abort,
    alloc: Global,
    names: &[(&[u8], &[u8])],
    start: Vec<Option<Arc<Version>>>,
) -> PlainBoard {
    let mut maps = Vec::new(alloc);
    for (domain, map) in names {
        let domain = Vec::from_slice(alloc, *domain).expect(rt, "a domain");
        let map = Vec::from_slice(alloc, *map).expect(rt, "a map");
        maps.push(MapName { domain, map }).expect(rt, "a name");
    }
    let own = Vec::from_slice(alloc, b"m1").expect(rt, "a name");
    let catalog = Catalog::new(alloc, own, maps).expect(rt, "a catalogue");
    assert_fits(rt, start.len(), &catalog);
    PlainBoard::new(alloc, catalog, start).expect(rt, "a board")
}

// A board of the one map hosts.byname of the domain lab.
pub fn board_of(rt: &impl Abort, alloc: Global, version: Version) -> PlainBoard {
    let start = vec![in alloc; Some(shared(rt, alloc, version))].expect(rt, "versions");
    board(rt, alloc, &[(b"lab", b"hosts.byname")], start)
}

static TWO_DOMAINS: [(&[u8], &[u8]); 4] = [
    (b"lab", b"hosts.byname"),
    (b"zoo", b"hosts.byname"),
    (b"lab", b"bare"),
    (b"lab", b"empty"),
];

// The domain lab has a map with a row, one without a version and one without rows; the domain zoo has one with two
// rows.
pub fn two_domains<R: RandomSource + Abort>(rt: &R, alloc: Global) -> PlainBoard {
    let start = vec![in alloc;
        Some(shared(rt, alloc, version(rt, alloc, &[HOST]))),
        Some(shared(
            rt,
            alloc,
            version(rt, alloc, &[(b"b", b"2"), (b"ab", b"1")])
        )),
        None,
        Some(shared(rt, alloc, version(rt, alloc, &[]))),
    ];
    board(rt, alloc, &TWO_DOMAINS, start.expect(rt, "versions"))
}

// ---- calls and replies

// Adds bytes.
pub fn extend(rt: &impl Abort, bytes: &mut Vec<u8>, more: &[u8]) {
    bytes.extend_from_slice(more).expect(rt, "memory");
}

// Adds so many bytes.
pub fn extend_with(rt: &impl Abort, alloc: Global, bytes: &mut Vec<u8>, byte: u8, count: usize) {
    extend(rt, bytes, &filled(rt, alloc, byte, count));
}

// So many bytes.
pub fn filled(rt: &impl Abort, alloc: Global, byte: u8, count: usize) -> Vec<u8>
    ensures { length result.items ≡ count }
{
    vec![in alloc; byte; count].expect(rt, "memory")
}

// A caller at this port of another host. Rows of secure maps are shown to ports under 1024.
pub fn caller(port: u16) -> Peer {
    Peer {
        addr: [10, 0, 0, 9],
        port,
    }
}

pub const OPEN_PORT: u16 = 40_000;

pub const RESERVED_PORT: u16 = 1_023;

// The first bytes of a buffer, of this length.
pub fn front(rt: &impl Abort, alloc: Global, buf: &[u8], len: usize) -> Vec<u8> {
    let front = buf.get(..len).expect(rt, "a length within the buffer");
    Vec::from_slice(alloc, front).expect(rt, "bytes")
}

// Adds the next piece of a reply of ALL, and answers its length.
fn extend_with_piece(
    rt: &impl Abort,
    board: &PlainBoard,
    stream: &mut AllStream,
    buf: &mut [u8],
    reply: &mut Vec<u8>,
) -> usize
    requires room { record_max ≤ length buf.old }
    requires inside { StreamIsInside (maps_of board.now) stream.old.source }
    ensures inside { StreamIsInside (maps_of board.now) stream.new.source }
    ensures room { length buf.new ≡ length buf.old }
{
    let len = stream.piece(board, buf);
    extend(rt, reply, buf.get(..len).unwrap_or(&[]));
    len
}

// The whole answer to a record, and the lengths of the three pieces in which it goes out where it is a stream. Behind
// the last piece they are empty.
pub type Streamed = (Vec<u8>, [usize; 3]);

// The answer to a record of a stream, put into this buffer.
fn streamed_by(
    rt: &impl Abort,
    alloc: Global,
    board: &mut PlainBoard,
    port: u16,
    record: &[u8],
    buf: &mut [u8],
) -> Streamed
    requires { record_max ≤ length buf.old }
{
    match answer(board, record, caller(port), buf) {
        Answered::Silent => (Vec::new(alloc), [0; 3]),
        Answered::Reply { len } | Answered::Transfer { len, .. } => {
            (front(rt, alloc, buf, len), [0; 3])
        }
        Answered::Make { .. } => panic!(rt; "a MAKE that is left open"),
        Answered::Stream(stream) => {
            let mut stream = stream;
            let mut reply = Vec::new(alloc);
            let lens = [
                extend_with_piece(rt, board, &mut stream, buf, &mut reply),
                extend_with_piece(rt, board, &mut stream, buf, &mut reply),
                extend_with_piece(rt, board, &mut stream, buf, &mut reply),
            ];
            (reply, lens)
        }
    }
}

// The same, with a buffer of its own.
pub fn streamed(
    rt: &impl Abort,
    alloc: Global,
    board: &mut PlainBoard,
    port: u16,
    record: &[u8],
) -> Streamed {
    let mut buf = filled(rt, alloc, 9, RECORD_MAX);
    streamed_by(rt, alloc, board, port, record, &mut buf)
}

// The whole answer to a record of a stream.
pub fn record_reply(
    rt: &impl Abort,
    alloc: Global,
    board: &mut PlainBoard,
    port: u16,
    record: &[u8],
) -> Vec<u8> {
    let (reply, _) = streamed(rt, alloc, board, port, record);
    reply
}

// The answer to a call in a datagram, put into this buffer.
fn datagram_reply_by(
    rt: &impl Abort,
    alloc: Global,
    board: &mut PlainBoard,
    port: u16,
    call: &[u8],
    buf: &mut [u8],
) -> Vec<u8>
    requires { datagram_max ≤ length buf.old }
{
    match answer_datagram(board, call, caller(port), buf) {
        Answered::Silent => Vec::new(alloc),
        Answered::Reply { len } | Answered::Transfer { len, .. } => front(rt, alloc, buf, len),
        Answered::Stream(_) => panic!(rt; "a stream for a datagram"),
        Answered::Make { .. } => panic!(rt; "a MAKE that is left open"),
    }
}

// The same, with a buffer of its own.
pub fn datagram_reply(
    rt: &impl Abort,
    alloc: Global,
    board: &mut PlainBoard,
    port: u16,
    call: &[u8],
) -> Vec<u8> {
    let mut buf = filled(rt, alloc, 9, DATAGRAM_MAX);
    datagram_reply_by(rt, alloc, board, port, call, &mut buf)
}

// Compares what a call of a row is answered as a record, and as a datagram. Behind `|` stands the reply to a datagram,
// where that is another one.
fn try_row(rt: &impl Abort, alloc: Global, board: &mut PlainBoard, port: u16, row: &str) {
    let (name, call, replies) = parts(rt, row);
    let (by_record, by_datagram) = replies.split_once("|").unwrap_or((replies, replies));
    let call = words(rt, alloc, call);
    let wanted = words(rt, alloc, by_record);
    let came = record_reply(rt, alloc, board, port, &call);
    assert_same(rt, &came, &wanted, name);
    let wanted = words(rt, alloc, by_datagram);
    let came = datagram_reply(rt, alloc, board, port, &call);
    assert_same(rt, &came, &wanted, name);
}

// The same for each row, where a caller at this port calls.
pub fn try_rows(rt: &impl Abort, alloc: Global, board: PlainBoard, port: u16, rows: &[&str]) {
    let mut board = board;
    for row in rows {
        try_row(rt, alloc, &mut board, port, *row);
    }
}
