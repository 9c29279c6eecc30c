//! Long keys, values and replies.

use crate::answer::sample::*;
use crate::given::{assert_same, bytes};
use std::alloc::Global;
use std::process::Abort;
use std::random::RandomSource;
use yp_version::{Order, Version, VersionBuilder};

// The whole reply to a call where the map has this version, and its pieces.
fn reply_on(rt: &impl Abort, alloc: Global, version: Version, call: &[u8]) -> Streamed {
    let mut board = board_of(rt, alloc, version);
    streamed(rt, alloc, &mut board, OPEN_PORT, call)
}

// The reply to a call in a datagram.
fn datagram_on(rt: &impl Abort, alloc: Global, version: Version, call: &[u8]) -> Vec<u8> {
    let mut board = board_of(rt, alloc, version);
    datagram_reply(rt, alloc, &mut board, OPEN_PORT, call)
}

// What a call of MATCH has in the place of `alpha`: a length, the bytes behind it, and the reply.
type LongKey = (&'static str, usize, &'static str);

static LONG_KEYS: [LongKey; 3] = [
    ("00000401", 1_028, "SUCCESS YP_NOKEY EMPTY"),
    ("00010000", 65_536, "SUCCESS YP_NOKEY EMPTY"),
    ("00010001", 65_540, "GARBAGE_ARGS"),
];

fn try_long_key<R: RandomSource + Abort>(rt: &R, alloc: Global, row: &LongKey) {
    let (length, count, reply) = row;
    let mut call = words(rt, alloc, "MATCH LAB HOSTS");
    extend(rt, &mut call, &bytes(rt, alloc, &[*length]));
    extend_with(rt, alloc, &mut call, 0, *count);
    let (came, _) = reply_on(rt, alloc, version(rt, alloc, &[HOST]), &call);
    assert_same(rt, &came, &words(rt, alloc, reply), length);
}

#[test]
fn long_keys(rt: HostRuntime) {
    for row in &LONG_KEYS {
        try_long_key(&rt, rt.alloc(), row);
    }
}

// A success of the status YP_TRUE with a value of so many bytes `x`.
fn value_reply(rt: &impl Abort, alloc: Global, length: &str, count: usize, rest: &str) -> Vec<u8> {
    let mut value = words(rt, alloc, "SUCCESS YP_TRUE");
    extend(rt, &mut value, &bytes(rt, alloc, &[length]));
    extend_with(rt, alloc, &mut value, b'x', count);
    extend(rt, &mut value, &bytes(rt, alloc, &[rest]));
    value
}

// A value: its length, as a word and as a number, its padding, the length of the reply, and whether a datagram has it.
type Value = (&'static str, usize, &'static str, usize, bool);

static VALUES: [Value; 3] = [
    ("00001fe0", 8_160, "", 8_192, true),
    ("00001fe1", 8_161, "000000", 8_196, false),
    ("00010000", 65_536, "", 65_568, false),
];

fn try_value<R: RandomSource + Abort>(rt: &R, alloc: Global, row: &Value) {
    let (length, count, padding, len, fits) = row;
    let call = words(rt, alloc, "MATCH LAB HOSTS ALPHA");
    let refused = words(rt, alloc, "SUCCESS YP_YPERR EMPTY");
    let whole = value_reply(rt, alloc, length, *count, padding);
    let value = filled(rt, alloc, b'x', *count);
    let rows: [Row<'_>; 1] = [(b"alpha", &value)];
    let (by_record, _) = reply_on(rt, alloc, version(rt, alloc, &rows), &call);
    let by_datagram = datagram_on(rt, alloc, version(rt, alloc, &rows), &call);
    let wanted = if *fits { &whole } else { &refused };
    // The length of the reply, and whether it came by record and by datagram.
    let came = (whole.len(), by_record == whole, &by_datagram == wanted);
    assert_same(rt, &came, &(*len, true, true), length);
}

#[test]
fn values_too_long_for_a_datagram(rt: HostRuntime) {
    for row in &VALUES {
        try_value(&rt, rt.alloc(), row);
    }
}

// A row of a map: its key, as bytes and as words, and how many bytes `x` its value has, as a number and as a word.
pub type Item = (&'static [u8], &'static str, usize, &'static str);

fn push_item(rt: &impl Abort, alloc: Global, builder: &mut VersionBuilder, item: &Item) {
    let (key, _, count, _) = item;
    push_row(rt, builder, (*key, &filled(rt, alloc, b'x', *count)));
}

fn push_items(rt: &impl Abort, alloc: Global, builder: &mut VersionBuilder, items: &[Item]) {
    for item in items {
        push_item(rt, alloc, builder, item);
    }
}

// A version of order 100 of the master `m1`, with these rows.
pub fn version_with<R: RandomSource + Abort>(rt: &R, alloc: Global, items: &[Item]) -> Version {
    let mut builder = VersionBuilder::new(alloc, rt, Order(100), b"m1").expect(rt, "a builder");
    push_items(rt, alloc, &mut builder, items);
    builder.finish().expect(rt, "a version")
}

// Adds an item of ALL.
fn extend_with_item(rt: &impl Abort, alloc: Global, reply: &mut Vec<u8>, item: &Item) {
    let (_, key, count, length) = item;
    extend(rt, reply, &words(rt, alloc, "MORE YP_TRUE"));
    extend(rt, reply, &bytes(rt, alloc, &[*length]));
    extend_with(rt, alloc, reply, b'x', *count);
    extend(rt, reply, &bytes(rt, alloc, &[*key]));
}

// Items of ALL between these words.
pub fn items_between(
    rt: &impl Abort,
    alloc: Global,
    head: &str,
    items: &[Item],
    end: &str,
) -> Vec<u8> {
    let mut reply = words(rt, alloc, head);
    for item in items {
        extend_with_item(rt, alloc, &mut reply, item);
    }
    extend(rt, &mut reply, &words(rt, alloc, end));
    reply
}

// With a key of 5 bytes the reply has 8,196 bytes, with one of 1 byte 8,192.
static TWO_ROWS: [Item; 2] = [
    (b"alpha", "00000005 616c7068 61000000", 8_152, "00001fd8"),
    (b"b", "00000001 62000000", 8_152, "00001fd8"),
];

#[test]
fn rows_too_long_for_a_datagram(rt: HostRuntime) {
    let alloc = rt.alloc();
    let first = words(&rt, alloc, "FIRST LAB HOSTS");
    let refused = words(&rt, alloc, "SUCCESS YP_YPERR EMPTY EMPTY");
    let came = datagram_on(&rt, alloc, version_with(&rt, alloc, &TWO_ROWS), &first);
    assert_same(&rt, &came, &refused, "FIRST");
    let next = words(&rt, alloc, "NEXT LAB HOSTS ALPHA");
    let whole = value_reply(&rt, alloc, "00001fd8", 8_152, "00000001 62000000");
    let came = datagram_on(&rt, alloc, version_with(&rt, alloc, &TWO_ROWS), &next);
    let is = (whole.len(), came == whole);
    assert_same(&rt, &is, &(8_192, true), "NEXT");
}

// Items of 65,556 bytes: three fit into 262,144 bytes beside a head of 24, then two and the end.
static FIVE_ROWS: [Item; 5] = [
    (b"1", "00000001 31000000", 65_536, "00010000"),
    (b"2", "00000001 32000000", 65_536, "00010000"),
    (b"3", "00000001 33000000", 65_536, "00010000"),
    (b"4", "00000001 34000000", 65_536, "00010000"),
    (b"5", "00000001 35000000", 65_536, "00010000"),
];

#[test]
fn pieces_are_whole_items(rt: HostRuntime) {
    let alloc = rt.alloc();
    let call = words(&rt, alloc, "ALL LAB HOSTS");
    let whole = items_between(&rt, alloc, "SUCCESS", &FIVE_ROWS, "END");
    let (reply, lens) = reply_on(&rt, alloc, version_with(&rt, alloc, &FIVE_ROWS), &call);
    let came = (reply == whole, lens);
    let wanted = (true, [24 + 3 * 65_556, 2 * 65_556 + 4, 0]);
    assert_same(&rt, &came, &wanted, "three pieces");
}

// Rows whose reply to ALL has 8,196 bytes.
pub static EIGHT_ROWS: [Item; 8] = [
    (b"k001", "00000004 6b303031", 1_024, "00000400"),
    (b"k002", "00000004 6b303032", 1_024, "00000400"),
    (b"k003", "00000004 6b303033", 1_024, "00000400"),
    (b"k004", "00000004 6b303034", 1_024, "00000400"),
    (b"k005", "00000004 6b303035", 1_024, "00000400"),
    (b"k006", "00000004 6b303036", 1_024, "00000400"),
    (b"k007", "00000004 6b303037", 1_024, "00000400"),
    (b"k008", "00000004 6b303038", 840, "00000348"),
];

#[test]
fn all_in_two_fragments(rt: HostRuntime) {
    let alloc = rt.alloc();
    let call = words(&rt, alloc, "ALL LAB HOSTS");
    let whole = items_between(&rt, alloc, "SUCCESS", &EIGHT_ROWS, "END");
    let (reply, _) = reply_on(&rt, alloc, version_with(&rt, alloc, &EIGHT_ROWS), &call);
    let came = (whole.len(), reply == whole);
    assert_same(&rt, &came, &(8_196, true), "the whole reply");
}
