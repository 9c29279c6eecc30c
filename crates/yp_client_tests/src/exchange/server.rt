//! A server of maps in memory, and what it replies to calls.

ghost use Rattle.std.specs.Prelude.{◌≡◌, ◌<◌, ◌≤◌, length};
ghost use Rattle.yp_version.specs.Limits.{master_max};
ghost use Rattle.yp_answer.specs.Numbers.{record_max};

use crate::given::{assert_same, bytes};
use std::alloc::Global;
use std::process::Abort;
use std::random::RandomSource;
use std::sync::Arc;
use yp_answer::{Answered, RECORD_MAX, answer};
use yp_board::{Catalog, MapName, PlainBoard, Show, View};
use yp_io::Peer;
use yp_version::{Order, Version, VersionBuilder};

/// The client, as the server sees it.
const CALLER: Peer = Peer {
    addr: [10, 0, 0, 9],
    port: 40_000,
};

type Row<'a> = (&'a [u8], &'a [u8]);

/// A version of this order and master.
#[derive(Clone, Copy)]
pub struct Given<'a> {
    pub order: u32,
    pub master: &'a [u8],
    pub rows: &'a [Row<'a>],
}

fn push_rows(rt: &impl Abort, builder: &mut VersionBuilder, rows: &[Row<'_>]) {
    for (key, value) in rows {
        assert_same(rt, &builder.push(*key, *value), &Ok(true), "a row of a map");
    }
}

fn assert_is_name<R: Abort>(rt: &R, name: &[u8])
    ensures { length name.now ≤ master_max }
{
    assert!(rt; name.len() <= 64, "a name");
}

fn version<R: RandomSource + Abort>(rt: &R, alloc: Global, given: &Given<'_>) -> Arc<Version> {
    assert_is_name(rt, given.master);
    let mut builder = VersionBuilder::new(alloc, rt, Order(given.order), given.master).expect(
        rt,
        "a builder",
    );
    push_rows(rt, &mut builder, given.rows);
    let version = builder.finish().expect(rt, "a version");
    Arc::new(alloc, version).expect(rt, "a shared version")
}

fn name(rt: &impl Abort, alloc: Global, domain: &[u8], map: &[u8]) -> MapName {
    MapName {
        domain: Vec::from_slice(alloc, domain).expect(rt, "a domain"),
        map: Vec::from_slice(alloc, map).expect(rt, "a map"),
    }
}

// As many things as a catalogue has maps.
fn assert_fits(rt: &impl Abort, count: usize, catalog: &Catalog)
    ensures { count ≡ length catalog.now.maps }
{
    assert_eq!(rt; count, catalog.len() as usize);
}

fn catalog(rt: &impl Abort, alloc: Global) -> Catalog {
    let own = Vec::from_slice(alloc, b"m1").expect(rt, "a name");
    let mut maps = Vec::new(alloc);
    maps.push(name(rt, alloc, b"lab", b"hosts.byname"))
        .expect(rt, "names");
    maps.push(name(rt, alloc, b"lab", b"bare"))
        .expect(rt, "names");
    Catalog::new(alloc, own, maps).expect(rt, "a catalogue")
}

/// A board of the maps hosts.byname, of this version, and `bare`, of none, in the domain lab.
pub fn board<R: RandomSource + Abort>(rt: &R, alloc: Global, given: &Given<'_>) -> PlainBoard {
    let catalog = catalog(rt, alloc);
    let mut start = Vec::new(alloc);
    start
        .push(Some(version(rt, alloc, given)))
        .expect(rt, "versions");
    start.push(None).expect(rt, "versions");
    assert_fits(rt, start.len(), &catalog);
    PlainBoard::new(alloc, catalog, start).expect(rt, "a board")
}

fn assert_has_maps(rt: &impl Abort, catalog: &Catalog)
    ensures { 0 < length catalog.now.maps }
{
    assert!(rt; catalog.len() > 0, "a map");
}

/// Shows another version of hosts.byname.
pub fn show<R: RandomSource + Abort>(
    rt: &R,
    alloc: Global,
    board: &mut PlainBoard,
    given: &Given<'_>,
) {
    let next = version(rt, alloc, given);
    assert_has_maps(rt, board.catalog());
    board.show(0, next).expect(rt, "a version that is shown");
}

// ---- replies

// The first bytes of a buffer, of this length.
fn front(rt: &impl Abort, alloc: Global, buf: &[u8], len: usize) -> Vec<u8> {
    let front = buf.get(..len).expect(rt, "a length within the buffer");
    Vec::from_slice(alloc, front).expect(rt, "bytes")
}

// The reply to a record, which fits in one piece.
fn reply_by(
    rt: &impl Abort,
    alloc: Global,
    board: &mut PlainBoard,
    record: &[u8],
    buf: &mut [u8],
) -> Vec<u8>
    requires { record_max ≤ length buf.old }
{
    match answer(board, record, CALLER, buf) {
        Answered::Silent => Vec::new(alloc),
        Answered::Reply { len } | Answered::Transfer { len, .. } => front(rt, alloc, buf, len),
        Answered::Make { .. } => panic!(rt; "a MAKE that is left open"),
        Answered::Stream(stream) => {
            let mut stream = stream;
            let len = stream.piece(board, buf);
            front(rt, alloc, buf, len)
        }
    }
}

// So many bytes.
fn filled(rt: &impl Abort, alloc: Global, count: usize) -> Vec<u8>
    ensures { length result.items ≡ count }
{
    vec![in alloc; 9; count].expect(rt, "memory")
}

fn reply(rt: &impl Abort, alloc: Global, board: &mut PlainBoard, record: &[u8]) -> Vec<u8> {
    let mut buf = filled(rt, alloc, RECORD_MAX);
    reply_by(rt, alloc, board, record, &mut buf)
}

/// Adds a record of one fragment to a stream.
pub fn add_record(rt: &impl Abort, stream: &mut Vec<u8>, record: &[u8]) {
    let len = u32::try_from(record.len()).expect(rt, "a length");
    let head = (len | 0x8000_0000).to_be_bytes();
    stream.extend_from_slice(&head).expect(rt, "room");
    stream.extend_from_slice(record).expect(rt, "room");
}

/// Adds what the server sends for a call.
pub fn add_reply<R: Abort>(
    rt: &R,
    alloc: Global,
    board: &mut PlainBoard,
    call: &[&str],
    stream: &mut Vec<u8>,
) {
    let record = bytes(rt, alloc, call);
    add_record(rt, stream, &reply(rt, alloc, board, &record));
}
