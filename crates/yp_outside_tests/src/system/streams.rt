//! Streams that fail, are interrupted or end.

ghost use Rattle.std.specs.Prelude.{◌≡◌, ◌≢◌, ◌<◌, ◌≤◌, IsTrue, length, IfOk, IfErr, OnErr};
ghost use Rattle.std.specs.Io.{ReadsAtMost, WritesAtMost};
ghost use Rattle.std.specs.Io.KnownBytes.{Keeps, ReadConsumes, WriteAppends};
ghost use Rattle.std.specs.Io.Buffered.{reader_remaining};
ghost use Rattle.std.specs.IoError.{error_kind};

use crate::given::assert_same;
use std::alloc::Global;
use std::io;
use std::io::{BufReader, ErrorKind, Read, Stderr, Stdout, Write};
use yp_io::{Failed, NoMemory, Sink, Source, count_fault};
use yp_system::{BlockReader, DirectWriter};

type Answer = Result<usize, ErrorKind>;

// A stream whose calls answer in turn, and then with no bytes.
#[derive(Drop)]
struct Script {
    answers: &'static [Answer],
    calls: usize,
}

impl Script {
    fn answer(&mut self, most: usize) -> io::Result<usize>
        ensures { IfOk result (λ n. n ≤ most) }
    {
        let number = self.calls;
        self.calls = number.saturating_add(1);
        match self.answers.get(number) {
            Some(Ok(count)) => Ok(most.min(*count)),
            Some(Err(kind)) => Err((*kind).into()),
            None => Ok(0),
        }
    }
}

impl Read for Script {
    fn read(&mut self, buf: &mut [u8]) -> io::Result<usize> {
        self.answer(buf.len())
    }
}

impl Write for Script {
    fn write(&mut self, buf: &[u8]) -> io::Result<usize> {
        self.answer(buf.len())
    }

    fn flush(&mut self) -> io::Result<()> {
        self.answer(0)?;
        Ok(())
    }
}

// The answers to five reads, and how many failed.
type Answers = ([Result<usize, Failed>; 5], u64);

fn read_in_turn(source: &mut BlockReader<Script>) -> Answers {
    let mut answers = [Ok(0); 5];
    for answer in &mut answers {
        *answer = source.read(&mut [0; 2]);
    }
    (answers, source.faults())
}

// The same of a reader, where there is memory.
fn reads_of(alloc: Global, script: Script) -> Option<Answers> {
    match BlockReader::new(alloc, script) {
        Ok(mut source) => Some(read_in_turn(&mut source)),
        Err(_) => None,
    }
}

static READS: [Answer; 4] = [
    Err(ErrorKind::Interrupted),
    Ok(3),
    Err(ErrorKind::PermissionDenied),
    Ok(1),
];

#[test]
fn reads(rt: HostRuntime) {
    let script = Script {
        answers: &READS,
        calls: 0,
    };
    let came = reads_of(rt.alloc(), script);
    let wanted = ([Ok(2), Ok(1), Err(Failed), Ok(1), Ok(0)], 1);
    assert_same(&rt, &came, &Some(wanted), "five reads");
}

// What four writes and two flushes answer, and how many failed.
type Written = ([Result<usize, Failed>; 4], [Result<(), Failed>; 2], u64);

fn write_in_turn(sink: &mut DirectWriter<Script>) -> Written {
    let mut answers = [Ok(0); 4];
    for answer in &mut answers {
        *answer = sink.write(b"text");
    }
    (answers, [sink.flush(), sink.flush()], sink.faults())
}

fn writes_of(script: Script) -> Written {
    let mut sink = DirectWriter::new(script);
    write_in_turn(&mut sink)
}

static WRITES: [Answer; 6] = [
    Ok(3),
    Ok(0),
    Err(ErrorKind::BrokenPipe),
    Ok(9),
    Ok(0),
    Err(ErrorKind::StorageFull),
];

#[test]
fn writes(rt: HostRuntime) {
    let script = Script {
        answers: &WRITES,
        calls: 0,
    };
    let written = [Ok(3), Err(Failed), Err(Failed), Ok(4)];
    let wanted = (written, [Ok(()), Err(Failed)], 3);
    assert_same(&rt, &writes_of(script), &wanted, "writes and flushes");
}
