//! Streams written out by hand, from RFC 5531 section 11.

ghost use Rattle.std.specs.Prelude.{◌≡◌, ◌<◌, [], length};

use crate::given::{assert_same, assert_shown, bytes, listed};
use std::alloc::Global;
use std::process::Abort;
use yp_io::{Failed, Sink, Source};
use yp_memory::{MemSink, MemSource};
use yp_rpc::*;

// The most bytes of a record.
const RECORD_MAX: usize = 262_144;

// The bytes 0, 1, .. up to `len`, over again from 251 on.
fn counted<R: Abort>(rt: &R, alloc: Global, len: usize) -> Vec<u8> {
    let mut bytes = Vec::new(alloc);
    for i in 0..len {
        bytes.push((i % 251) as u8).expect(rt, "a byte");
    }
    bytes
}

// A number that has to be more than zero.
fn assert_some<R: Abort>(rt: &R, count: usize)
    ensures { 0 < count }
{
    assert!(rt; count > 0);
}

// How a record is cut: how many bytes a fragment has, the words before each of the first ones, how many these are,
// and the words before each other.
#[derive(Clone, Copy)]
struct Cut {
    name: &'static str,
    size: usize,
    head: &'static str,
    full: usize,
    last: &'static str,
}

fn put_fragment<R: Abort>(rt: &R, alloc: Global, stream: &mut Vec<u8>, head: &str, piece: &[u8]) {
    let head = bytes(rt, alloc, &[head]);
    stream.extend_from_slice(&head).expect(rt, "a head");
    stream.extend_from_slice(piece).expect(rt, "a fragment");
}

fn cut_as<R: Abort>(rt: &R, alloc: Global, record: &[u8], how: &Cut) -> Vec<u8> {
    assert_some(rt, how.size);
    let mut stream = Vec::new(alloc);
    for (i, piece) in record.chunks(how.size).enumerate() {
        let head = if i < how.full { how.head } else { how.last };
        put_fragment(rt, alloc, &mut stream, head, piece);
    }
    stream
}

// So many empty fragments, and then a record of one byte.
fn hollow<R: Abort>(rt: &R, alloc: Global, empty: usize) -> Vec<u8> {
    let zeros = empty.saturating_mul(4);
    let mut stream = vec![in alloc; 0; zeros].expect(rt, "empty fragments");
    put_fragment(rt, alloc, &mut stream, "80000001", b"x");
    stream
}

// A record of 76 bytes in fragments.
static CUTS: [Cut; 4] = [
    Cut {
        name: "whole",
        size: 76,
        head: "",
        full: 0,
        last: "8000004c",
    },
    Cut {
        name: "shreds",
        size: 1,
        head: "00000001",
        full: 75,
        last: "80000001",
    },
    Cut {
        name: "threes",
        size: 3,
        head: "00000003",
        full: 25,
        last: "80000001",
    },
    // An empty fragment before each of the others.
    Cut {
        name: "hollows",
        size: 1,
        head: "00000000 00000001",
        full: 75,
        last: "00000000 80000001",
    },
];

// The answer to reading a record.
type Answer = Result<Option<usize>, RecordFault>;

const TORN: Answer = Err(RecordFault::Torn { at: 0 });

const LONG: Answer = Err(RecordFault::TooLong { at: 0 });

// The answers to reading two records, and whether the buffer begins with this one behind the first.
fn read_two<S: Source>(source: &mut S, buf: &mut [u8], record: &[u8]) -> (Answer, bool, Answer) {
    let mut reader = RecordReader::new();
    let answer = reader.next(source, buf);
    let is_same = buf.starts_with(record);
    (answer, is_same, reader.next(source, buf))
}

// What comes of reading two records from a stream: this one, and then what `next` says.
#[derive(Clone, Copy)]
struct Two<'a> {
    row: &'a str,
    record: &'a [u8],
    next: Answer,
}

// Looks at what comes of reading two records from a stream, in pieces of so many bytes.
fn check_two<R: Abort>(rt: &R, alloc: Global, stream: Vec<u8>, piece: usize, two: &Two<'_>)
    requires { 0 < piece }
{
    let mut buf = vec![in alloc; 0; RECORD_MAX].expect(rt, "a buffer");
    let mut source = MemSource::new(stream, piece, Vec::new(alloc));
    let came = (piece, read_two(&mut source, &mut buf, two.record));
    let wanted = (piece, (Ok(Some(two.record.len())), true, two.next));
    assert_same(rt, &came, &wanted, two.row);
}

// Reads a record from a stream, of whose reads these fail.
fn read_one(stream: Vec<u8>, piece: usize, failing: Vec<u64>, buf: &mut [u8]) -> Answer
    requires { 0 < piece }
{
    let mut source = MemSource::new(stream, piece, failing);
    RecordReader::new().next(&mut source, buf)
}

fn try_cut<R: Abort>(rt: &R, alloc: Global, record: &[u8], how: &Cut) {
    let two = Two {
        row: how.name,
        record,
        next: Ok(None),
    };
    check_two(rt, alloc, cut_as(rt, alloc, record, how), 1, &two);
    check_two(rt, alloc, cut_as(rt, alloc, record, how), 3, &two);
    check_two(rt, alloc, cut_as(rt, alloc, record, how), 80, &two);
}

#[test]
fn one_record(rt: HostRuntime) {
    let record = counted(&rt, rt.alloc(), 76);
    for how in &CUTS {
        try_cut(&rt, rt.alloc(), &record, how);
    }
}

static FEW_BYTES: [(&str, Answer); 11] = [
    ("", Ok(None)),
    ("800000", TORN),
    ("80000002 61", TORN),
    ("00000000", TORN),
    ("00000001 61", TORN),
    ("80000000", Ok(Some(0))),
    ("00000003 616263 80000000", Ok(Some(3))),
    ("80000004 61626364", Ok(Some(4))),
    ("80000005 6162636465", LONG),
    ("00000003 616263 80000002 6465", LONG),
    ("ffffffff", LONG),
];

fn try_few<R: Abort>(rt: &R, alloc: Global, row: &(&str, Answer)) {
    let (text, wanted) = *row;
    let stream = bytes(rt, alloc, &[text]);
    let read = read_one(stream, 80, Vec::new(alloc), &mut [0; 4]);
    assert_same(rt, &read, &wanted, text);
}

#[test]
fn few_bytes(rt: HostRuntime) {
    for row in &FEW_BYTES {
        try_few(&rt, rt.alloc(), row);
    }
}

#[test]
fn torn_behind_a_record(rt: HostRuntime) {
    let alloc = rt.alloc();
    let record = counted(&rt, alloc, 76);
    let mut stream = bytes(&rt, alloc, &["8000004c"]);
    stream.extend_from_slice(&record).expect(&rt, "a record");
    stream
        .extend_from_slice(&[0x80, 0, 0])
        .expect(&rt, "a head");
    let two = Two {
        row: "torn",
        record: &record,
        next: Err(RecordFault::Torn { at: 80 }),
    };
    check_two(&rt, alloc, stream, 80, &two);
}

// The answer to a record that is too long, and to reading on behind its head, and what is read then.
type Long = (Answer, Result<usize, Failed>, [u8; 3]);

fn read_long<S: Source>(source: &mut S, buf: &mut [u8]) -> Long {
    let answer = RecordReader::new().next(source, buf);
    let mut behind = [0; 3];
    (answer, source.read(&mut behind), behind)
}

fn check_long<R: Abort>(rt: &R, alloc: Global, text: &str) {
    let stream = bytes(rt, alloc, &[text]);
    let mut buf = vec![in alloc; 0; RECORD_MAX].expect(rt, "a buffer");
    let mut source = MemSource::new(stream, 80, Vec::new(alloc));
    let came = read_long(&mut source, &mut buf);
    assert_same(rt, &came, &(LONG, Ok(2), *b"ab\0"), "one byte more");
}

#[test]
fn largest_record(rt: HostRuntime) {
    let alloc = rt.alloc();
    let record = counted(&rt, alloc, RECORD_MAX);
    let mut stream = bytes(&rt, alloc, &["80040000"]);
    stream.extend_from_slice(&record).expect(&rt, "a record");
    let two = Two {
        row: "as many bytes as a record may have",
        record: &record,
        next: Ok(None),
    };
    check_two(&rt, alloc, stream, 1000, &two);
    check_long(&rt, alloc, "80040001 6162");
}

#[test]
fn empty_fragments(rt: HostRuntime) {
    let alloc = rt.alloc();
    let most = hollow(&rt, alloc, 1024);
    let two = Two {
        row: "1024 empty fragments",
        record: b"x",
        next: Ok(None),
    };
    check_two(&rt, alloc, most, 80, &two);
    let more = hollow(&rt, alloc, 1025);
    let answer = read_one(more, 80, Vec::new(alloc), &mut [0; 80]);
    assert_same(&rt, &answer, &LONG, "1025 empty fragments");
}

fn try_failing_source<R: Abort>(rt: &R, alloc: Global, failing: u64) {
    let stream = bytes(rt, alloc, &["80000004 61626364"]);
    let failing_reads = listed(rt, alloc, &[failing]);
    let answer = read_one(stream, 2, failing_reads, &mut [0; 80]);
    let wanted = (failing, Err(RecordFault::ReadFault));
    assert_same(rt, &(failing, answer), &wanted, "the call that fails");
}

#[test]
fn failing_source(rt: HostRuntime) {
    for failing in 0..4 {
        try_failing_source(&rt, rt.alloc(), failing);
    }
}

// Takes a piece off the front of what is still wanted.
fn after<'a>(wanted: Option<&'a [u8]>, piece: &[u8]) -> Option<&'a [u8]> {
    match wanted {
        Some(wanted) => wanted.strip_prefix(piece),
        None => None,
    }
}

// The answer to reading a record in pieces, and whether the pieces are those of the wanted one.
type Pieces = (Result<(), RecordFault>, bool);

// Reads the next record piece by piece into this buffer.
fn read_pieces<S: Source>(
    reader: &mut RecordReader,
    source: &mut S,
    buf: &mut [u8],
    limit: u64,
    record: &[u8],
) -> Pieces
    requires { 0 < length buf.old }
{
    let mut wanted = Some(record);
    for _ in 0..1_000_000 {
        match reader.piece(source, buf, limit) {
            Ok(0) => break,
            Ok(count) => wanted = after(wanted, &buf[..count]),
            Err(fault) => return (Err(fault), matches!(wanted, Some([]))),
        }
    }
    (Ok(()), matches!(wanted, Some([])))
}

// Reads three records of the limit 76: this one twice, and one of which nothing comes.
fn read_three<S: Source>(source: &mut S, buf: &mut [u8], record: &[u8]) -> [Pieces; 3]
    requires { 0 < length buf.old }
{
    let mut reader = RecordReader::new();
    [
        read_pieces(&mut reader, source, buf, 76, record),
        read_pieces(&mut reader, source, buf, 76, record),
        read_pieces(&mut reader, source, buf, 76, b""),
    ]
}

// The answer to reading a record of a stream, within a limit.
fn pieces_of_one<R: Abort>(
    rt: &R,
    alloc: Global,
    stream: Vec<u8>,
    room: usize,
    limit: u64,
) -> Result<(), RecordFault>
    requires { 0 < room }
{
    let mut buf = vec![in alloc; 0; room].expect(rt, "a buffer");
    let mut source = MemSource::new(stream, 80, Vec::new(alloc));
    let mut reader = RecordReader::new();
    read_pieces(&mut reader, &mut source, &mut buf, limit, b"").0
}

// How many bytes a read gives at most, and how many the buffer has.
static PIECES_AND_ROOMS: [(usize, usize); 9] = [
    (1, 1),
    (1, 5),
    (1, 100),
    (3, 1),
    (3, 5),
    (3, 100),
    (200, 1),
    (200, 5),
    (200, 100),
];

// A stream that has the same record twice, and a torn one.
fn twice_and_torn<R: Abort>(rt: &R, alloc: Global, record: &[u8], how: &Cut) -> Vec<u8> {
    let once = cut_as(rt, alloc, record, how);
    let parts = [once.as_slice(), once.as_slice(), &[0x80, 0]];
    parts.concat(alloc).expect(rt, "a stream")
}

// Looks at what is read of it.
fn try_pieces<R: Abort>(
    rt: &R,
    alloc: Global,
    record: &[u8],
    how: &Cut,
    piece_and_room: &(usize, usize),
) {
    let (piece, room) = *piece_and_room;
    assert_some(rt, piece);
    assert_some(rt, room);
    let mut buf = vec![in alloc; 0; room].expect(rt, "a buffer");
    let stream = twice_and_torn(rt, alloc, record, how);
    // The torn record is the two bytes behind the others.
    let at = stream.len().saturating_sub(2) as u64;
    let mut source = MemSource::new(stream, piece, Vec::new(alloc));
    let came = (piece, room, read_three(&mut source, &mut buf, record));
    let torn = Err(RecordFault::Torn { at });
    let wanted = [(Ok(()), true), (Ok(()), true), (torn, true)];
    assert_same(rt, &came, &(piece, room, wanted), how.name);
}

fn check_pieces<R: Abort>(rt: &R, alloc: Global, record: &[u8], how: &Cut) {
    for piece_and_room in &PIECES_AND_ROOMS {
        try_pieces(rt, alloc, record, how, piece_and_room);
    }
}

#[test]
fn records_in_pieces(rt: HostRuntime) {
    let record = counted(&rt, rt.alloc(), 76);
    for how in &CUTS {
        check_pieces(&rt, rt.alloc(), &record, how);
    }
}

const TORN_PIECES: Result<(), RecordFault> = Err(RecordFault::Torn { at: 0 });

const LONG_PIECES: Result<(), RecordFault> = Err(RecordFault::TooLong { at: 0 });

static FEW_PIECES: [(&str, Result<(), RecordFault>); 11] = [
    ("", TORN_PIECES),
    ("800000", TORN_PIECES),
    ("80000002 61", TORN_PIECES),
    ("00000000", TORN_PIECES),
    ("00000001 61", TORN_PIECES),
    ("80000000", Ok(())),
    ("00000003 616263 80000000", Ok(())),
    ("80000004 61626364", Ok(())),
    ("80000005 6162636465", LONG_PIECES),
    ("00000003 616263 80000002 6465", LONG_PIECES),
    ("ffffffff", LONG_PIECES),
];

fn try_few_pieces<R: Abort>(rt: &R, alloc: Global, row: &(&str, Result<(), RecordFault>)) {
    let (text, wanted) = *row;
    let narrow = pieces_of_one(rt, alloc, bytes(rt, alloc, &[text]), 1, 4);
    let wide = pieces_of_one(rt, alloc, bytes(rt, alloc, &[text]), 80, 4);
    assert_same(rt, &[narrow, wide], &[wanted; 2], text);
}

#[test]
fn few_bytes_in_pieces(rt: HostRuntime) {
    for row in &FEW_PIECES {
        try_few_pieces(&rt, rt.alloc(), row);
    }
}

#[test]
fn empty_fragments_in_pieces(rt: HostRuntime) {
    let alloc = rt.alloc();
    let most = pieces_of_one(&rt, alloc, hollow(&rt, alloc, 1024), 80, 1);
    assert_same(&rt, &most, &Ok(()), "1024 empty fragments");
    let more = pieces_of_one(&rt, alloc, hollow(&rt, alloc, 1025), 80, 1);
    assert_same(&rt, &more, &LONG_PIECES, "1025 empty fragments");
}

// Writes a record in two pieces, the first of which has so many bytes, or all.
fn write_two<K: Sink>(
    writer: &mut RecordWriter,
    sink: &mut K,
    message: &[u8],
    len: usize,
) -> Result<(), Failed>
    requires some { 0 < length message.now }
    requires first { 0 < len }
{
    let (front, back) = message.split_at(len.min(message.len()));
    writer.put(sink, front)?;
    writer.put(sink, back)?;
    writer.end(sink)
}

fn writer_of<R: Abort>(rt: &R, alloc: Global) -> RecordWriter
    ensures { result ≡ [] }
{
    RecordWriter::new(alloc).expect(rt, "a writer")
}

// A record by its length, the length, how many of its fragments aren't the last, and the head of the last.
type Fragments = (&'static str, usize, usize, &'static str);

static FRAGMENTS: [Fragments; 6] = [
    ("1 byte", 1, 0, "80000001"),
    ("8192 bytes", 8192, 0, "80002000"),
    ("8196 bytes", 8196, 1, "80000004"),
    ("65,536 bytes", 65_536, 7, "80002000"),
    ("65,537 bytes", 65_537, 8, "80000001"),
    ("200,000 bytes", 200_000, 24, "80000d40"),
];

// The record in its fragments.
fn in_fragments<R: Abort>(rt: &R, alloc: Global, record: &[u8], row: &Fragments) -> Vec<u8> {
    let (name, _, full, last) = *row;
    let how = Cut {
        name,
        size: 8192,
        head: "00002000",
        full,
        last,
    };
    cut_as(rt, alloc, record, &how)
}

// Looks at what is written of a record in two pieces, the first of which has so many bytes, or all.
fn check_written<R: Abort>(
    rt: &R,
    alloc: Global,
    writer: &mut RecordWriter,
    record: &[u8],
    first: usize,
    row: &Fragments,
) {
    assert_some(rt, record.len());
    assert_some(rt, first);
    let stream = in_fragments(rt, alloc, record, row);
    let mut sink = MemSink::new(alloc, 9000, Vec::new(alloc));
    let answer = write_two(writer, &mut sink, record, first);
    let came = (first, answer, sink.taken() == stream.as_slice());
    assert_same(rt, &came, &(first, Ok(()), true), row.0);
}

static FIRST_PIECES: [usize; 5] = [1, 8191, 8192, 65_536, 65_537];

fn try_written<R: Abort>(rt: &R, alloc: Global, writer: &mut RecordWriter, row: &Fragments) {
    let record = counted(rt, alloc, row.1);
    for first in &FIRST_PIECES {
        check_written(rt, alloc, writer, &record, *first, row);
    }
}

#[test]
fn fragments_written(rt: HostRuntime) {
    let mut writer = writer_of(&rt, rt.alloc());
    for row in &FRAGMENTS {
        try_written(&rt, rt.alloc(), &mut writer, row);
    }
}

// What fails, the length of a record, the most bytes of a write, the call that fails, and what was taken before it.
type Failing = (&'static str, usize, usize, u64, usize);

static FAILING: [Failing; 8] = [
    ("8196 bytes, at call 0", 8196, 4000, 0, 0),
    ("8196 bytes, at call 1", 8196, 4000, 1, 4000),
    ("8196 bytes, at call 2", 8196, 4000, 2, 8000),
    ("8196 bytes, at call 3", 8196, 4000, 3, 8204),
    // Eight fragments are one write, before the flush, and a further byte is another.
    ("65,536 bytes, at call 0", 65_536, 100_000, 0, 0),
    ("65,536 bytes, at call 1", 65_536, 100_000, 1, 65_568),
    ("65,537 bytes, at call 1", 65_537, 100_000, 1, 65_568),
    ("65,537 bytes, at call 2", 65_537, 100_000, 2, 65_573),
];

// Looks at how many bytes are taken of a record.
fn check_torn<R: Abort>(rt: &R, alloc: Global, writer: &mut RecordWriter, row: &Failing) {
    let (name, len, piece, failing, taken) = *row;
    let record = counted(rt, alloc, len);
    assert_some(rt, record.len());
    assert_some(rt, piece);
    let mut sink = MemSink::new(alloc, piece, listed(rt, alloc, &[failing]));
    let answer = write_two(writer, &mut sink, &record, 1);
    let came = (answer, sink.taken().len());
    assert_same(rt, &came, &(Err(Failed), taken), name);
}

// The bytes of a short record in its fragment.
static SHORT: [u8; 6] = [0x80, 0, 0, 2, b'a', b'b'];

// Looks at whether a short record is written as it is to be.
fn check_short<R: Abort>(rt: &R, alloc: Global, writer: &mut RecordWriter, row: &str) {
    let mut sink = MemSink::new(alloc, 4000, Vec::new(alloc));
    let answer = write_two(writer, &mut sink, b"ab", 1);
    let came = (answer, sink.taken());
    assert_same(rt, &came, &(Ok(()), SHORT.as_slice()), row);
}

#[test]
fn failing_sink(rt: HostRuntime) {
    let mut writer = writer_of(&rt, rt.alloc());
    for row in &FAILING {
        check_torn(&rt, rt.alloc(), &mut writer, row);
        check_short(&rt, rt.alloc(), &mut writer, row.0);
    }
}

// Sends a record at once: the answer, and whether this stream is written.
fn sent_as<R: Abort>(
    rt: &R,
    alloc: Global,
    record: &[u8],
    stream: &[u8],
) -> (Result<(), Failed>, bool) {
    assert_some(rt, record.len());
    let mut writer = writer_of(rt, alloc);
    let mut sink = MemSink::new(alloc, 9000, Vec::new(alloc));
    let answer = writer.send(&mut sink, record);
    (answer, sink.taken() == stream)
}

fn try_sent<R: Abort>(rt: &R, alloc: Global, row: &Fragments) {
    let record = counted(rt, alloc, row.1);
    let stream = in_fragments(rt, alloc, &record, row);
    let came = sent_as(rt, alloc, &record, &stream);
    assert_same(rt, &came, &(Ok(()), true), row.0);
}

#[test]
fn records_sent_at_once(rt: HostRuntime) {
    for row in &FRAGMENTS {
        try_sent(&rt, rt.alloc(), row);
    }
}

// Sends a short record at once.
fn send_short<K: Sink>(writer: &mut RecordWriter, sink: &mut K) -> Result<(), Failed>
    requires { writer.old ≡ [] }
    ensures { writer.new ≡ [] }
{
    writer.send(sink, b"ab")
}

// Looks at how many bytes are taken of a short record, of whose calls this one fails, and at what is taken of the same
// without it.
fn try_failing_send<R: Abort>(rt: &R, alloc: Global, row: &(&str, u64, usize)) {
    let (name, failing, taken) = *row;
    let mut writer = writer_of(rt, alloc);
    let mut torn = MemSink::new(alloc, 9000, listed(rt, alloc, &[failing]));
    let mut whole = MemSink::new(alloc, 9000, Vec::new(alloc));
    let answer = send_short(&mut writer, &mut torn);
    let next = send_short(&mut writer, &mut whole);
    let came = (answer, torn.taken().len(), next, whole.taken());
    let wanted = (Err(Failed), taken, Ok(()), SHORT.as_slice());
    assert_same(rt, &came, &wanted, name);
}

// The write fails, and then the flush behind it.
static FAILING_SENDS: [(&str, u64, usize); 2] = [("no write", 0, 0), ("no flush", 1, 6)];

#[test]
fn failing_calls_of_a_record_sent_at_once(rt: HostRuntime) {
    for row in &FAILING_SENDS {
        try_failing_send(&rt, rt.alloc(), row);
    }
}

static TEXTS: [(RecordFault, &str); 3] = [
    (RecordFault::Torn { at: 80 }, "torn record at 80"),
    (
        RecordFault::TooLong { at: 160 },
        "record at 160 is too long",
    ),
    (RecordFault::ReadFault, "read fault"),
];

#[test]
fn faults_as_text(rt: HostRuntime) {
    for (fault, text) in &TEXTS {
        assert_shown(&rt, rt.alloc(), fault, *text);
    }
}
