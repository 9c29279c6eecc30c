//! Versions and their builders: look-ups, marks, limits and faults.

use crate::given::{assert_same, bytes};
use std::alloc::Global;
use std::io;
use std::process::Abort;
use std::random::RandomSource;
use yp_version::*;

type Row<'a> = (&'a [u8], &'a [u8]);

// A builder of order 7 of the master `m1`.
fn builder<R: RandomSource + Abort>(rt: &R, alloc: Global) -> VersionBuilder {
    VersionBuilder::new(alloc, rt, Order(7), b"m1").expect(rt, "a builder")
}

// A version of order 7 of the master `m1`, with these rows.
fn version<R: RandomSource + Abort>(rt: &R, alloc: Global, rows: &[Row]) -> Version {
    let mut builder = builder(rt, alloc);
    for (key, value) in rows {
        assert_same(rt, &builder.push(*key, *value), &Ok(true), "a new row");
    }
    builder.finish().expect(rt, "a version")
}

// A key that begins others comes before them, and bytes compare as numbers from 0 to 255, also behind the first eight.
static KEYS: [Row; 9] = [
    (b"b", b"3"),
    (b"\xff\x00", b"6"),
    (b"hostname\xff", b"9"),
    (b"ab", b"2"),
    (b"\x80", b"5"),
    (b"hostname", b"7"),
    (b"a", b"1"),
    (b"hostname1", b"8"),
    (b"b\x00", b""),
];

// The rows by rising keys: the number of each, its key and value, and what comes next.
static IN_ORDER: [(usize, Row, Next); 9] = [
    (0, (b"a", b"1"), Next::Row(b"ab", b"2")),
    (1, (b"ab", b"2"), Next::Row(b"b", b"3")),
    (2, (b"b", b"3"), Next::Row(b"b\x00", b"")),
    (3, (b"b\x00", b""), Next::Row(b"hostname", b"7")),
    (4, (b"hostname", b"7"), Next::Row(b"hostname1", b"8")),
    (5, (b"hostname1", b"8"), Next::Row(b"hostname\xff", b"9")),
    (6, (b"hostname\xff", b"9"), Next::Row(b"\x80", b"5")),
    (7, (b"\x80", b"5"), Next::Row(b"\xff\x00", b"6")),
    (8, (b"\xff\x00", b"6"), Next::Last),
];

// Keys of no row, and what a test calls them.
static ABSENT: [(&[u8], &str); 6] = [
    (b"", "no byte"),
    (b"aa", "aa"),
    (b"abc", "abc"),
    (b"b\x00\x00", "b 00 00"),
    (b"\xff", "ff"),
    (b"\xff\x01", "ff 01"),
];

fn assert_rows<R: Abort>(rt: &R, version: &Version) {
    for (i, (key, value), next) in &IN_ORDER {
        let came = (*i, version.row(*i), version.get(*key), version.next(*key));
        let wanted = (*i, Some((*key, *value)), Some(*value), *next);
        assert_same(rt, &came, &wanted, "a row");
    }
}

// Whether a key has neither a value nor a row behind it.
fn is_absent(version: &Version, key: &[u8]) -> [bool; 2] {
    let has_no_next = matches!(version.next(key), Next::Absent);
    [version.get(key).is_none(), has_no_next]
}

fn assert_absent<R: Abort>(rt: &R, version: &Version) {
    for (key, name) in &ABSENT {
        assert_same(rt, &is_absent(version, *key), &[true; 2], *name);
    }
}

fn assert_ends<R: Abort>(rt: &R, version: &Version) {
    let came = (version.len(), version.first(), version.row(9));
    let first = (b"a".as_slice(), b"1".as_slice());
    assert_same(rt, &came, &(9, Some(first), None), "ends");
}

#[test]
fn looks_up_rows(rt: HostRuntime) {
    let version = version(&rt, rt.alloc(), &KEYS);
    assert_ends(&rt, &version);
    assert_rows(&rt, &version);
    assert_absent(&rt, &version);
}

#[test]
fn empty_version(rt: HostRuntime) {
    let version = version(&rt, rt.alloc(), &[]);
    let has_none = [version.first().is_none(), version.row(0).is_none()];
    assert_same(&rt, &has_none, &[true; 2], "rows");
    assert_same(&rt, &is_absent(&version, b""), &[true; 2], "a key");
    // Format, order, the count and the master's length take 16 bytes, and `m1` 4.
    let size = (version.is_empty(), version.body_len());
    assert_same(&rt, &size, &(true, 20), "size");
}

// The rows of a version of two rows, in the order in which they are pushed.
static TWO: [Row; 2] = [(b"alpha", b"1"), (b"", b"four")];

// What a version of order 7 and two rows answers.
fn assert_marked<R: Abort>(rt: &R, version: &Version, secure: bool, row: &str) {
    let rows = [version.row(0), version.row(1)];
    let facts = (
        version.secure(),
        version.order().number(),
        version.master(),
        version.body_len(),
    );
    let wanted = (secure, 7, b"m1".as_slice(), 20 + (8 + 8 + 4) + (8 + 4));
    let wanted = ([Some(TWO[1]), Some(TWO[0])], wanted);
    assert_same(rt, &(rows, facts), &wanted, row);
}

#[test]
fn marked_version(rt: HostRuntime) {
    let plain = version(&rt, rt.alloc(), &TWO);
    assert_marked(&rt, &plain, false, "plain");
    let secure = plain.marked(true);
    assert_marked(&rt, &secure, true, "secure");
    assert_marked(&rt, &secure.marked(false), false, "plain again");
}

// What a push answers.
type Pushed = Result<bool, VersionFault>;

fn push_long(builder: &mut VersionBuilder, over: &[u8], longest: &[u8]) -> ([Pushed; 5], usize) {
    let answers = [
        builder.push(over, over),
        builder.push(b"alpha", over),
        builder.push(longest, longest),
        builder.push(b"alpha", b"one"),
        builder.push(b"alpha", b"two"),
    ];
    (answers, builder.len())
}

// The same of a new builder, of whose version one value is looked at.
fn pushed_long<R: RandomSource + Abort>(
    rt: &R,
    alloc: Global,
    over: &[u8],
    longest: &[u8],
) -> ([Pushed; 5], usize) {
    let mut builder = builder(rt, alloc);
    let came = push_long(&mut builder, over, longest);
    let version = builder.finish().expect(rt, "a version");
    let value = Some(b"one".as_slice());
    assert_same(rt, &version.get(b"alpha"), &value, "alpha");
    came
}

#[test]
fn builder_limits(rt: HostRuntime) {
    let alloc = rt.alloc();
    let over = vec![in alloc; b'k'; 65_537].expect(&rt, "a key");
    let longest = vec![in alloc; b'k'; 65_536].expect(&rt, "a key");
    let wanted = [
        Err(VersionFault::KeyLong { len: 65_537 }),
        Err(VersionFault::ValueLong { len: 65_537 }),
        Ok(true),
        Ok(true),
        Ok(false),
    ];
    let came = pushed_long(&rt, alloc, &over, &longest);
    assert_same(&rt, &came, &(wanted, 2), "long rows");
}

// Puts so many rows whose keys are the numbers from 0 on.
fn put_numbers<R: Abort>(rt: &R, builder: &mut VersionBuilder, count: u32, value: &[u8]) {
    for number in 0..count {
        let pushed = builder.push(&number.to_be_bytes(), value);
        assert_same(rt, &(number, pushed), &(number, Ok(true)), "a new row");
    }
}

fn push_at_most_rows(builder: &mut VersionBuilder) -> ([Pushed; 2], usize) {
    let answers = [
        builder.push(b"alpha", b""),
        builder.push(&[0, 0, 0, 0], b""),
    ];
    (answers, builder.len())
}

// What pushes into a builder of so many rows answer, of whose version two rows are looked at.
fn pushed_at<R: RandomSource + Abort>(rt: &R, alloc: Global, count: u32) -> ([Pushed; 2], usize) {
    let mut builder = builder(rt, alloc);
    put_numbers(rt, &mut builder, count, b"");
    let came = push_at_most_rows(&mut builder);
    let version = builder.finish().expect(rt, "a version");
    let next = Next::Row(&[0, 3, 255, 255], b"");
    assert_same(rt, &version.next(&[0, 3, 255, 254]), &next, "the last row");
    came
}

#[test]
fn too_many_rows(rt: HostRuntime) {
    let wanted = [Err(VersionFault::TooManyRows), Ok(false)];
    let came = pushed_at(&rt, rt.alloc(), 262_144);
    assert_same(&rt, &came, &(wanted, 262_144), "a row too many");
}

fn push_at_most_bytes(builder: &mut VersionBuilder) -> [Pushed; 4] {
    [
        builder.push(b"more", &[b'v'; 1_024]),
        builder.push(&[0, 0, 0, 0], &[b'v'; 1_024]),
        builder.push(b"more", &[b'v'; 200]),
        builder.push(b"", b""),
    ]
}

// What pushes into a builder of so many rows of 1,036 bytes answer, and how long the body of its version is.
fn pushed_over<R: RandomSource + Abort>(rt: &R, alloc: Global, count: u32) -> ([Pushed; 4], usize) {
    let mut builder = builder(rt, alloc);
    put_numbers(rt, &mut builder, count, &[b'v'; 1_024]);
    let came = push_at_most_bytes(&mut builder);
    let version = builder.finish().expect(rt, "a version");
    (came, version.body_len())
}

#[test]
fn too_big(rt: HostRuntime) {
    // With the head of 20 bytes, 16,194 rows of 1,036 bytes take 16,777,004 of 16,777,216.
    let wanted = [
        Err(VersionFault::TooBig),
        Ok(false),
        Ok(true),
        Err(VersionFault::TooBig),
    ];
    let came = pushed_over(&rt, rt.alloc(), 16_194);
    assert_same(&rt, &came, &(wanted, 16_777_216), "a byte too many");
}

static FAULTS: [(VersionFault, &str); 5] = [
    (
        VersionFault::KeyLong { len: 65_537 },
        "key of 65537 bytes is over the limit",
    ),
    (
        VersionFault::ValueLong { len: 65_537 },
        "value of 65537 bytes is over the limit",
    ),
    (VersionFault::TooManyRows, "too many rows"),
    (VersionFault::TooBig, "the version would be too big"),
    (VersionFault::NoMemory, "out of memory"),
];

#[test]
fn tells_faults(rt: HostRuntime) {
    for (fault, text) in &FAULTS {
        let told = format!(in rt.alloc(); "{fault}").expect(&rt, "a text");
        assert_same(&rt, &told.as_str(), text, *text);
    }
}

// The stored body of order 7, master `m1` and the rows of `TWO`, behind its first word.
const TWO_ROWS: &str = "00000007 00000002 6d310000 00000002 00000000 00000004 666f7572
    00000005 616c7068 61000000 00000001 31000000";

// The stored body of no rows.
const NO_ROWS: &str = "00000001 00000007 00000002 6d310000 00000000";

#[test]
fn stored_bodies(rt: HostRuntime) {
    let alloc = rt.alloc();
    let none = bytes(&rt, alloc, &[NO_ROWS]);
    let plain = bytes(&rt, alloc, &["00000001", TWO_ROWS]);
    let secure = bytes(&rt, alloc, &["00000002", TWO_ROWS]);
    let empty = version(&rt, alloc, &[]);
    assert_same(&rt, &empty.body(), &none.as_slice(), "no rows");
    let two = version(&rt, alloc, &TWO);
    assert_same(&rt, &two.body(), &plain.as_slice(), "two rows");
    let two = two.marked(true);
    assert_same(&rt, &two.body(), &secure.as_slice(), "secure");
}

// So many rows. Their keys are the numbers below this in an order, and their values tell it.
const MANY: u32 = 16_384;

// The key of the row that is pushed after so many others: a multiple, without what is over.
fn key_of(step: u32, factor: u32) -> [u8; 4] {
    (step.wrapping_mul(factor) % MANY).to_be_bytes()
}

// A version of these rows.
fn many_rows<R: RandomSource + Abort>(rt: &R, alloc: Global, factor: u32) -> Version {
    let mut builder = builder(rt, alloc);
    for step in 0..MANY {
        let pushed = builder.push(&key_of(step, factor), &step.to_be_bytes());
        assert_same(rt, &(step, pushed), &(step, Ok(true)), "a new row");
    }
    builder.finish().expect(rt, "a version")
}

fn assert_many<R: Abort>(rt: &R, version: &Version, factor: u32, order: &str) {
    for step in 0..MANY {
        let value = step.to_be_bytes();
        let wanted = (step, Some(value.as_slice()));
        assert_same(
            rt,
            &(step, version.get(&key_of(step, factor))),
            &wanted,
            order,
        );
    }
    let ends = [version.next(&[0, 0, 63, 255]), version.next(&[0, 0, 64, 0])];
    assert_same(rt, &ends, &[Next::Last, Next::Absent], order);
}

// By an odd factor each number comes once: by 1 they rise, and by one less than all they fall but for the first.
static ORDERS: [(u32, &str); 3] = [(1, "rising"), (16_383, "falling"), (10_007, "mixed")];

#[test]
fn many_rows_in_any_order(rt: HostRuntime) {
    for (factor, order) in &ORDERS {
        let version = many_rows(&rt, rt.alloc(), *factor);
        assert_many(&rt, &version, *factor, *order);
        let version = version.indexed(rt.alloc());
        assert_many(&rt, &version, *factor, *order);
    }
}

// A source whose random numbers are all 0.
struct Zeros;

impl RandomSource for Zeros {
    fn fill_bytes(&self, bytes: &mut [u8]) -> io::Result<()> {
        bytes.fill(0);
        Ok(())
    }
}

// By SipHash-1-3 with both keys 0 the hash of each of these is between 0.15 and 0.2 of 2^64, so they share one of 4, 8
// and 20 buckets: those of a table of one row and of five while they are pushed, and of a version of them. Those of
// `cen` and `dmq` also have the same lowest 13 bits.
static COLLIDING: [Row; 8] = [
    (b"dmq", b"7"),
    (b"ap", b"0"),
    (b"cen", b"6"),
    (b"bx", b"1"),
    (b"hz", b"5"),
    (b"de", b"2"),
    (b"ga", b"4"),
    (b"dh", b"3"),
];

fn assert_colliding<R: Abort>(rt: &R, version: &Version) {
    for (key, value) in &COLLIDING {
        assert_same(rt, &version.get(*key), &Some(*value), "a value");
    }
    // The hash of the first has those lowest bits, too.
    let absent = [is_absent(version, b"mbg"), is_absent(version, b"eu")];
    assert_same(rt, &absent, &[[true; 2]; 2], "other keys of that bucket");
}

#[test]
fn colliding_keys(rt: HostRuntime) {
    let builder = VersionBuilder::new(rt.alloc(), &Zeros, Order(7), b"m1");
    let mut builder = builder.expect(&rt, "a builder");
    for (key, value) in &COLLIDING {
        assert_same(&rt, &builder.push(*key, *value), &Ok(true), "a new row");
    }
    assert_same(&rt, &builder.push(b"cen", b"8"), &Ok(false), "a row again");
    let version = builder.finish().expect(&rt, "a version");
    assert_colliding(&rt, &version);
    let version = version.indexed(rt.alloc());
    assert_colliding(&rt, &version);
}
