//! Sources, sinks and wires in memory.

ghost use Rattle.std.specs.Prelude.{◌<◌};

use crate::given::{Read, assert_same, listed, owned, read_two, sent};
use std::alloc::Global;
use std::process::Abort;
use yp_io::*;
use yp_memory::*;

fn seven_reads(source: &mut MemSource) -> [Read; 7] {
    let mut reads = [(Ok(0), [0; 2]); 7];
    for read in &mut reads {
        *read = read_two(source);
    }
    reads
}

#[test]
fn source_in_memory(rt: HostRuntime) {
    let answers = [
        (Ok(2), *b"ab"),
        (Err(Failed), [0, 0]),
        (Ok(2), *b"cd"),
        (Ok(2), *b"ef"),
        (Ok(1), [b'g', 0]),
        (Ok(0), [0, 0]),
        (Ok(0), [0, 0]),
    ];
    // It gives at most three bytes at a time.
    let input = owned(&rt, rt.alloc(), b"abcdefg");
    let mut source = MemSource::new(input, 3, listed(&rt, rt.alloc(), &[1]));
    let came = seven_reads(&mut source);
    assert_same(&rt, &came, &answers, "seven reads");
}

// Compares what four writes and two flushes answer, and what was taken.
fn check_sink(rt: &impl Abort, sink: &mut MemSink) {
    let writes = [
        sink.write(b"abcd"),
        sink.write(b"d"),
        sink.write(b"d"),
        sink.write(b"ef"),
    ];
    let flushes = [sink.flush(), sink.flush()];
    assert_same(
        rt,
        &(writes, flushes, sink.taken()),
        &(
            [Ok(3), Err(Failed), Ok(1), Ok(2)],
            [Err(Failed), Ok(())],
            b"abcdef".as_slice(),
        ),
        "writes, flushes and what was taken",
    );
}

#[test]
fn sink_in_memory(rt: HostRuntime) {
    // It takes at most three bytes at a time.
    let mut sink = MemSink::new(rt.alloc(), 3, listed(&rt, rt.alloc(), &[1, 4]));
    check_sink(&rt, &mut sink);
}

// How much a sink takes at a time, which of its calls fails, the answer to a write of `hello` with a flush, and what
// was taken.
type Piece = (usize, u64, Result<(), Failed>, &'static [u8]);

const PIECES: [Piece; 5] = [
    (1, 9, Ok(()), b"hello"),
    (8, 9, Ok(()), b"hello"),
    (2, 2, Err(Failed), b"hell"),
    (8, 0, Err(Failed), b""),
    (8, 1, Err(Failed), b"hello"),
];

// A sink has to take at least one byte at a time.
fn assert_some(rt: &impl Abort, piece: usize)
    ensures { 0 < piece }
{
    assert!(rt; piece > 0);
}

fn check_piece(rt: &impl Abort, alloc: Global, row: &Piece) {
    let (piece, failing, answer, taken) = *row;
    assert_some(rt, piece);
    let mut sink = MemSink::new(alloc, piece, listed(rt, alloc, &[failing]));
    let answered = write_through(&mut sink, b"hello");
    assert_same(
        rt,
        &(piece, failing, answered, sink.taken()),
        &(piece, failing, answer, taken),
        "the piece, the call that fails, the answer, and what was taken",
    );
}

#[test]
fn whole_pieces(rt: HostRuntime) {
    for row in &PIECES {
        check_piece(&rt, rt.alloc(), row);
    }
}

// Compares what a read answers, what a write of the bytes read does, and what was taken.
fn check_echo(rt: &impl Abort, wire: &mut MemWire) {
    let read = read_two(&mut wire.source);
    let answer = write_through(&mut wire.sink, &read.1);
    assert_same(
        rt,
        &(read, answer, wire.sink.taken()),
        &((Ok(2), *b"hi"), Ok(()), b"hi".as_slice()),
        "what was read, and what was taken",
    );
}

#[test]
fn wire_in_memory(rt: HostRuntime) {
    let alloc = rt.alloc();
    let input = owned(&rt, alloc, b"hi");
    let mut wire = sent(Pair {
        source: MemSource::new(input, 8, Vec::new(alloc)),
        sink: MemSink::new(alloc, 8, Vec::new(alloc)),
    });
    check_echo(&rt, &mut wire);
}

// The most bytes that are wanted, the number of the read that fails, the answer for an input of six bytes, of which
// one read gives at most two, and what was read.
type Whole = (usize, u64, Result<(), Unread>, &'static [u8]);

const WHOLE: [Whole; 6] = [
    (6, 9, Ok(()), b"abcdef"),
    (7, 4, Ok(()), b"abcdef"),
    (5, 9, Err(Unread::TooLong), b""),
    (0, 9, Err(Unread::TooLong), b""),
    (6, 0, Err(Unread::Failed), b""),
    (6, 3, Err(Unread::Failed), b""),
];

fn read_whole(alloc: Global, source: &mut MemSource, most: usize) -> (Result<(), Unread>, Vec<u8>) {
    match read_all(alloc, source, most) {
        Ok(bytes) => (Ok(()), bytes),
        Err(unread) => (Err(unread), Vec::new(alloc)),
    }
}

fn check_whole(rt: &impl Abort, alloc: Global, row: &Whole) {
    let (most, failing, answer, bytes) = *row;
    let input = owned(rt, alloc, b"abcdef");
    let mut source = MemSource::new(input, 2, listed(rt, alloc, &[failing]));
    let (answered, came) = read_whole(alloc, &mut source, most);
    assert_same(
        rt,
        &(answered, came.as_slice()),
        &(answer, bytes),
        "a whole source",
    );
}

#[test]
fn sources_read_whole(rt: HostRuntime) {
    for row in &WHOLE {
        check_whole(&rt, rt.alloc(), row);
    }
}

#[test]
fn three_zeros(rt: HostRuntime) {
    let none = zeros(rt.alloc(), 3).expect(&rt, "memory for three bytes");
    assert_same(&rt, &none.as_slice(), &[0; 3].as_slice(), "three zeros");
}
