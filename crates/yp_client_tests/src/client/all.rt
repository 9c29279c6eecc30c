//! Replies to ALL. A row is TRUE, a status, a value and a key (yp.x).

ghost use Rattle.std.specs.Prelude.{◌<◌};

use crate::client::lent::{MemClient, assert_sent, builder, client, with_builder};
use crate::given::{assert_same, bytes, number};
use std::alloc::Global;
use std::process::Abort;
use std::random::RandomSource;
use yp_client::ClientFault;
use yp_messages::YpStat;
use yp_rpc::ReplyHead;
use yp_version::{Version, VersionBuilder, VersionFault};

// The head of a reply to the call 8, of 24 bytes, and a row of as many: the key `k` and the value `v`.
const HEAD: &str = "00000008 00000001 00000000 00000000 00000000 00000000";

const ROW: &str = "00000001 00000001 00000001 76000000 00000001 6b000000";

// The reply to the call 9 of ORDER, which is 7.
const NEXT_REPLY: &str =
    "80000020 00000009 00000001 00000000 00000000 00000000 00000000 00000001 00000007";

// The most bytes of a value, and of a key.
const LONGEST: usize = 65_536;

// The head of a fragment.
fn fragment<R: Abort>(rt: &R, last: bool, len: usize) -> [u8; 4] {
    let mark = if last { 0x8000_0000 } else { 0 };
    (u32::try_from(len).expect(rt, "a length") | mark).to_be_bytes()
}

fn add<R: Abort>(rt: &R, stream: &mut Vec<u8>, bytes: &[u8]) {
    stream.extend_from_slice(bytes).expect(rt, "room");
}

fn assert_positive<R: Abort>(rt: &R, size: usize)
    ensures { 0 < size }
{
    assert!(rt; size > 0, "a size");
}

// A record in fragments of so many bytes.
fn cut<R: Abort>(rt: &R, alloc: Global, record: &[u8], size: usize) -> Vec<u8> {
    assert_positive(rt, size);
    let mut stream = Vec::new(alloc);
    let mut left = record.len();
    for piece in record.chunks(size) {
        left = left.saturating_sub(piece.len());
        add(rt, &mut stream, &fragment(rt, left == 0, piece.len()));
        add(rt, &mut stream, piece);
    }
    stream
}

// The stream of a reply of one fragment with these items, and then NEXT_REPLY.
fn stream<R: Abort>(rt: &R, alloc: Global, first: &str, second: &str) -> Vec<u8> {
    let record = bytes(rt, alloc, &[HEAD, first, second]);
    let mut stream = cut(rt, alloc, &record, 1_000_000);
    add(rt, &mut stream, &bytes(rt, alloc, &[NEXT_REPLY]));
    stream
}

// The same without items, behind so many empty fragments.
fn hollow<R: Abort>(rt: &R, alloc: Global, empty: usize) -> Vec<u8> {
    let mut input = Vec::new(alloc);
    for _ in 0..empty {
        add(rt, &mut input, &[0; 4]);
    }
    add(rt, &mut input, &stream(rt, alloc, "00000000", ""));
    input
}

// The front of a reply with two rows in fragments of ten bytes, 108 in all.
fn torn<R: Abort>(rt: &R, alloc: Global, len: usize) -> Vec<u8> {
    let record = bytes(rt, alloc, &[HEAD, ROW, ROW, "00000000"]);
    let mut stream = cut(rt, alloc, &record, 10);
    stream.truncate(len);
    stream
}

// The most bytes of a value or a key, all of which are one byte.
fn longest<R: Abort>(rt: &R, alloc: Global, byte: u8) -> Vec<u8> {
    vec![in alloc; byte; LONGEST].expect(rt, "a long value")
}

// A row of a key of 65536 bytes and a value of as many, all of which are one byte.
fn put_long_row<R: Abort>(rt: &R, alloc: Global, record: &mut Vec<u8>, byte: u8) {
    let long = longest(rt, alloc, byte);
    add(
        rt,
        record,
        &bytes(rt, alloc, &["00000001 00000001 00010000"]),
    );
    add(rt, record, &long);
    add(rt, record, &bytes(rt, alloc, &["00010000"]));
    add(rt, record, &long);
}

// What came of ALL: its answer, and how many rows the builder has.
type Fetched = (Result<(), ClientFault>, usize);

fn fetch(client: &mut MemClient, into: &mut VersionBuilder) -> Fetched {
    let said = client.all(b"d", b"m", into);
    (said, into.len())
}

// What came of it, and then of ORDER.
type FetchedAndOrder = (Fetched, Result<u32, ClientFault>);

// The answer to ORDER behind ALL, where the client goes on, and where it doesn't.
const GOES_ON: Result<u32, ClientFault> = Ok(7);

const SPENT: Result<u32, ClientFault> = Err(ClientFault::Spent);

fn fetch_and_order(client: &mut MemClient, into: &mut VersionBuilder) -> FetchedAndOrder {
    (fetch(client, into), number(client.order(b"d", b"m")))
}

// The rows of a version where the key `k` came again: its first value stands.
fn assert_three_rows<R: Abort>(rt: &R, version: &Version, row: &str) {
    let (long, short, empty): (&[u8], &[u8], &[u8]) = (b"ww", b"v", b"");
    let values = (version.get(b""), version.get(b"k"), version.get(b"lmnop"));
    assert_same(rt, &values, &(Some(long), Some(short), Some(empty)), row);
    assert_same(rt, &version.len(), &3, row);
}

// ROW, and rows of the empty key, of `k` and of `lmnop`.
const ITEMS: &str = "00000001 00000001 00000002 77770000 00000000 \
    00000001 00000001 00000001 78000000 00000001 6b000000 \
    00000001 00000001 00000000 00000005 6c6d6e6f 70000000 \
    00000000";

const HOSTS_CALL: &str =
    "80000040 00000008 00000000 00000002 000186a4 00000002 00000008 00000000 00000000 \
    00000000 00000000 00000003 6c616200 0000000c 686f7374 732e6279 6e616d65";

fn assert_version<R: Abort>(rt: &R, into: VersionBuilder, row: &str) {
    let version = into.finish().expect(rt, "a version");
    assert_three_rows(rt, &version, row);
}

fn try_fragments<R: RandomSource + Abort>(rt: &R, alloc: Global, size: usize, row: &str) {
    let record = bytes(rt, alloc, &[HEAD, ROW, ITEMS]);
    let mut client = client(rt, alloc, cut(rt, alloc, &record, size), 5);
    let mut into = builder(rt, alloc);
    let said = client.all(b"lab", b"hosts.byname", &mut into);
    assert_sent(rt, alloc, client, HOSTS_CALL, row);
    assert_version(rt, into, row);
    assert_same(rt, &said, &Ok(()), row);
}

static SIZES: [(usize, &str); 4] = [
    (1, "fragments of 1 byte"),
    (3, "fragments of 3 bytes"),
    (8192, "fragments of 8192 bytes"),
    (1_000_000, "one fragment"),
];

#[test]
fn rows_in_any_fragments(rt: HostRuntime) {
    for (size, row) in &SIZES {
        try_fragments(&rt, rt.alloc(), *size, *row);
    }
}

// A reply of seven long rows and a short one.
fn long_rows<R: Abort>(rt: &R, alloc: Global) -> Vec<u8> {
    let mut record = bytes(rt, alloc, &[HEAD]);
    for byte in 0..7 {
        put_long_row(rt, alloc, &mut record, byte);
    }
    add(rt, &mut record, &bytes(rt, alloc, &[ROW, "00000000"]));
    record
}

// Each of the long rows has its key as its value.
fn assert_long_row<R: Abort>(rt: &R, alloc: Global, version: &Version, byte: u8, row: &str) {
    let long = longest(rt, alloc, byte);
    let is_held = version.get(&long) == Some(long.as_slice());
    assert_same(rt, &(byte, is_held), &(byte, true), row);
}

fn assert_long_rows<R: Abort>(rt: &R, alloc: Global, version: &Version, row: &str) {
    for byte in 0..7 {
        assert_long_row(rt, alloc, version, byte, row);
    }
    let short: &[u8] = b"v";
    assert_same(
        rt,
        &(version.len(), version.get(b"k")),
        &(8, Some(short)),
        row,
    );
}

fn assert_long_version<R: Abort>(rt: &R, alloc: Global, into: VersionBuilder, row: &str) {
    let version = into.finish().expect(rt, "a version");
    assert_long_rows(rt, alloc, &version, row);
}

// What comes of ALL, whose rows are looked at.
fn fetch_long_rows<R: RandomSource + Abort>(
    rt: &R,
    alloc: Global,
    size: usize,
    row: &str,
) -> Fetched {
    let record = long_rows(rt, alloc);
    let mut client = client(rt, alloc, cut(rt, alloc, &record, size), 50_000);
    let mut into = builder(rt, alloc);
    let fetched = fetch(&mut client, &mut into);
    assert_long_version(rt, alloc, into, row);
    fetched
}

fn try_long_rows<R: RandomSource + Abort>(rt: &R, alloc: Global, size: usize, row: &str) {
    let fetched = fetch_long_rows(rt, alloc, size, row);
    assert_same(rt, &fetched, &(Ok(()), 8), row);
}

#[test]
fn reply_longer_than_the_buffer(rt: HostRuntime) {
    try_long_rows(&rt, rt.alloc(), 8192, "fragments of 8192 bytes");
    try_long_rows(&rt, rt.alloc(), 10_000_000, "one fragment");
}

// The items of a reply, what came of ALL, how many rows the builder has, and what came of ORDER.
type End = (
    &'static str,
    Result<(), ClientFault>,
    usize,
    Result<u32, ClientFault>,
);

static ENDS: [End; 8] = [
    ("00000000", Ok(()), 0, GOES_ON),
    (ROW, Err(ClientFault::BadReply { at: 48 }), 1, SPENT),
    // NOMORE is a good end, another status is the server's refusal, and what is behind either is skipped.
    ("00000001 00000002", Ok(()), 0, GOES_ON),
    (
        "00000001 00000002 00000000 00000000 00000000",
        Ok(()),
        0,
        GOES_ON,
    ),
    (
        "00000001 fffffffe 00000000 00000000 00000000",
        Err(ClientFault::Yp(YpStat::Nodom)),
        0,
        GOES_ON,
    ),
    (
        "00000001 ffffffff",
        Err(ClientFault::Yp(YpStat::Nomap)),
        0,
        GOES_ON,
    ),
    // Behind FALSE too.
    ("00000000 00000001 00000001 00", Ok(()), 0, GOES_ON),
    ("00000000 00000009 ffffffff ffffffff", Ok(()), 0, GOES_ON),
];

fn try_end<R: RandomSource + Abort>(rt: &R, alloc: Global, end: &End) {
    let (items, said, rows, next) = *end;
    let input = stream(rt, alloc, items, "");
    let came = with_builder(rt, alloc, input, 5, fetch_and_order);
    assert_same(rt, &came, &((said, rows), next), items);
}

#[test]
fn ends_of_rows(rt: HostRuntime) {
    for end in &ENDS {
        try_end(&rt, rt.alloc(), end);
    }
}

// An item, and its first byte that is wrong. A good row goes before each, so that the item begins at 48.
static BAD_ITEMS: [(&str, usize); 12] = [
    // A boolean, and a status.
    ("00000002", 48),
    ("00000001 00000003", 52),
    // A value: its length, and the first byte of its padding that isn't zero.
    ("00000001 00000001 00010001", 56),
    ("00000001 00000001 00000001 76000001", 63),
    // A key.
    ("00000001 00000001 00000001 76000000 00010001", 64),
    ("00000001 00000001 00000001 76000000 00000001 6b010100", 69),
    // What is cut short.
    ("", 48),
    ("0000", 48),
    ("00000001", 52),
    ("00000001 00000001", 56),
    ("00000001 00000001 00000005 76767676 760000", 56),
    ("00000001 00000001 00000001 76000000 00000002 6b", 64),
];

fn fetch_twice(client: &mut MemClient, into: &mut VersionBuilder) -> (Fetched, Fetched) {
    (fetch(client, into), fetch(client, into))
}

fn try_bad_item<R: RandomSource + Abort>(rt: &R, alloc: Global, item: &str, at: usize) {
    let input = stream(rt, alloc, ROW, item);
    let came = with_builder(rt, alloc, input, 5, fetch_twice);
    let bad = (Err(ClientFault::BadReply { at }), 1);
    assert_same(rt, &came, &(bad, (Err(ClientFault::Spent), 1)), item);
}

#[test]
fn places_of_bad_items(rt: HostRuntime) {
    for (item, at) in &BAD_ITEMS {
        try_bad_item(&rt, rt.alloc(), *item, *at);
    }
}

// A reply, what is behind it, why it is refused, and what came of ORDER.
type BadHead = (
    &'static str,
    &'static str,
    ClientFault,
    Result<u32, ClientFault>,
);

static BAD_HEADS: [BadHead; 7] = [
    (
        "80000018 00000007 00000001 00000000 00000000 00000000 00000000",
        "",
        ClientFault::BadXid { want: 8, got: 7 },
        SPENT,
    ),
    (
        "80000008 00000008 00000000",
        "",
        ClientFault::BadReply { at: 4 },
        SPENT,
    ),
    (
        "80000018 00000008 00000001 00000000 00000000 00000000 00000003",
        NEXT_REPLY,
        ClientFault::Denied(ReplyHead::ProcUnavail),
        GOES_ON,
    ),
    ("", "", ClientFault::Torn { at: 0 }, SPENT),
    ("8000", "", ClientFault::Torn { at: 0 }, SPENT),
    // 33,554,432 bytes may be named, and no byte more.
    ("02000000 000000", "", ClientFault::Torn { at: 0 }, SPENT),
    ("82000001", "", ClientFault::TooLong { at: 0 }, SPENT),
];

fn try_bad_head<R: RandomSource + Abort>(rt: &R, alloc: Global, head: &BadHead) {
    let (reply, behind, fault, next) = *head;
    let input = bytes(rt, alloc, &[reply, behind]);
    let came = with_builder(rt, alloc, input, 5, fetch_and_order);
    assert_same(rt, &came, &((Err(fault), 0), next), reply);
}

#[test]
fn refused_heads(rt: HostRuntime) {
    for head in &BAD_HEADS {
        try_bad_head(&rt, rt.alloc(), head);
    }
}

// How many empty fragments go before a reply, and what came of ALL.
static EMPTY: [(usize, Result<(), ClientFault>); 3] = [
    (0, Ok(())),
    (1024, Ok(())),
    (1025, Err(ClientFault::TooLong { at: 0 })),
];

fn try_empty<R: RandomSource + Abort>(
    rt: &R,
    alloc: Global,
    empty: usize,
    said: Result<(), ClientFault>,
) {
    let came = with_builder(rt, alloc, hollow(rt, alloc, empty), 4096, fetch);
    assert_same(rt, &(empty, came.0), &(empty, said), "empty fragments");
}

// The answers to ALL, and then to NULL.
type AllAndNull = (Result<(), ClientFault>, Result<(), ClientFault>);

fn fetch_and_ping(client: &mut MemClient, into: &mut VersionBuilder) -> AllAndNull {
    (client.all(b"d", b"m", into), client.ping())
}

// Makes both, where so many bytes of a reply come.
fn try_torn<R: RandomSource + Abort>(rt: &R, alloc: Global, len: usize) {
    let input = torn(rt, alloc, len);
    let input_len = input.len();
    let came = with_builder(rt, alloc, input, 4096, fetch_and_ping);
    let wanted = (Err(ClientFault::Torn { at: 0 }), Err(ClientFault::Spent));
    assert_same(rt, &(input_len, came), &(len, wanted), "bytes of it");
}

#[test]
fn torn_and_failing_records(rt: HostRuntime) {
    for (empty, said) in &EMPTY {
        try_empty(&rt, rt.alloc(), *empty, *said);
    }
    // They end in the middle of the second row.
    for len in &[1, 30, 90, 107] {
        try_torn(&rt, rt.alloc(), *len);
    }
}

// Whether a builder has added all rows that it was given: 255 of this value.
fn fill(into: &mut VersionBuilder, value: &[u8]) -> bool {
    let mut are_added = true;
    for key in 0..255 {
        are_added &= into.push(&[key, 0], value) == Ok(true);
    }
    are_added
}

// A reply whose third row is long, and then NEXT_REPLY.
fn short_rows_and_a_long<R: Abort>(rt: &R, alloc: Global) -> Vec<u8> {
    let mut record = bytes(rt, alloc, &[HEAD, ROW, ROW]);
    put_long_row(rt, alloc, &mut record, 1);
    add(rt, &mut record, &bytes(rt, alloc, &[ROW]));
    let mut stream = cut(rt, alloc, &record, 8192);
    add(rt, &mut stream, &bytes(rt, alloc, &[NEXT_REPLY]));
    stream
}

// Whether all rows are added that a builder is given, and what comes of both calls then.
fn fetch_behind<R: RandomSource + Abort>(rt: &R, alloc: Global) -> (bool, FetchedAndOrder) {
    let value = longest(rt, alloc, 0);
    let mut client = client(rt, alloc, short_rows_and_a_long(rt, alloc), 4096);
    let mut into = builder(rt, alloc);
    let are_added = fill(&mut into, &value);
    (are_added, fetch_and_order(&mut client, &mut into))
}

#[test]
fn row_that_is_refused(rt: HostRuntime) {
    // 255 rows of 65,548 bytes leave room for 62,456 more, of 16,777,216. The third row is refused, though the second
    // has the key of the first.
    let fault = ClientFault::Rows {
        row: 3,
        fault: VersionFault::TooBig,
    };
    let came = fetch_behind(&rt, rt.alloc());
    let wanted = (true, ((Err(fault), 256), Ok(7)));
    assert_same(&rt, &came, &wanted, "a row too many");
}

// What comes of ALL into a new builder.
fn fetch_anew<R: RandomSource + Abort>(rt: &R, alloc: Global, client: &mut MemClient) -> Fetched {
    let mut into = builder(rt, alloc);
    fetch(client, &mut into)
}

// What comes of ALL three times, over one wire.
fn fetch_thrice<R: RandomSource + Abort>(rt: &R, alloc: Global, input: Vec<u8>) -> [Fetched; 3] {
    let mut client = client(rt, alloc, input, 5);
    let first = fetch_anew(rt, alloc, &mut client);
    let second = fetch_anew(rt, alloc, &mut client);
    [first, second, fetch_anew(rt, alloc, &mut client)]
}

#[test]
fn one_map_after_another(rt: HostRuntime) {
    let alloc = rt.alloc();
    let replies = "80000034 00000008 00000001 00000000 00000000 00000000 00000000 \
        00000001 00000001 00000001 76000000 00000001 6b000000 00000000 \
        8000001c 00000009 00000001 00000000 00000000 00000000 00000000 00000000";
    let wanted = [
        (Ok(()), 1),
        (Ok(()), 0),
        (Err(ClientFault::Torn { at: 88 }), 0),
    ];
    let came = fetch_thrice(&rt, alloc, bytes(&rt, alloc, &[replies]));
    assert_same(&rt, &came, &wanted, "three maps");
}
