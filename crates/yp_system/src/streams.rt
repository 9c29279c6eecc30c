//! The standard streams as a source and as sinks.
ghost use Rattle.std.specs.Prelude.{◌≡◌, ◌≢◌, ◌<◌, ◌≤◌, IsTrue, length, IfOk, IfErr, OnErr};
ghost use Rattle.std.specs.Io.{ReadsAtMost, WritesAtMost};
ghost use Rattle.std.specs.Io.KnownBytes.{Keeps, ReadConsumes, WriteAppends};
ghost use Rattle.std.specs.Io.Buffered.{reader_remaining};
ghost use Rattle.std.specs.IoError.{error_kind};

use std::alloc::Global;
use std::io;
use std::io::{BufReader, ErrorKind, Read, Stderr, Stdout, Write};
use yp_io::{Failed, NoMemory, Sink, Source, count_fault};

// How many bytes one system call asks for.
const BLOCK: usize = 65_536;

/// A reader as a source. Each read of the reader asks for 64 KiB or more, which is handed out in pieces.
#[derive(Drop)]
pub struct BlockReader<R: Read + Drop> {
    reader: BufReader<R>,
    faults: u64,
}

impl<R: Read + Drop> BlockReader<R> {
    /// `NoMemory` is the only failure: nothing is read yet.
    pub fn new(alloc: Global, reader: R) -> Result<BlockReader<R>, NoMemory>
        ensures input { IfOk result (λ s. ⟦<BlockReader<R> as Source>⟧.input s ≡ R.remaining reader) }
        ensures faults { IfOk result (λ s. ⟦<BlockReader<R> as Source>⟧.faults s ≡ 0) }
    {
        match BufReader::with_capacity(alloc, BLOCK, reader) {
            Ok(reader) => Ok(BlockReader { reader, faults: 0 }),
            Err(_) => Err(NoMemory),
        }
    }

    /// How often it has failed.
    pub fn faults(&self) -> u64
        ensures { result ≡ ⟦<BlockReader<R> as Source>⟧.faults self.now }
    {
        self.faults
    }
}

impl<R: Read + Drop> Source for BlockReader<R> {
    ghost input = { λ s. reader_remaining R.remaining s.reader };

    ghost faults = { λ s. s.faults };

    fn read(&mut self, buf: &mut [u8]) -> Result<usize, Failed> {
        match read_uninterrupted(&mut self.reader, buf) {
            Ok(count) => Ok(count),
            Err(_) => Err(count_fault(&mut self.faults)),
        }
    }
}

// One read, tried again where a signal interrupted it.
pub(crate) fn read_uninterrupted<R: Read>(reader: &mut R, buf: &mut [u8]) -> io::Result<usize>
    ensures within { ReadsAtMost result buf.new }
    ensures bytes { ReadConsumes (R.remaining reader.old) (R.remaining reader.new) result buf.new }
    ensures retried { IfErr result (λ e. error_kind e ≢ ErrorKind.Interrupted) }
{
    for _ in 0..u64::MAX {
        match reader.read(buf) {
            Err(error) if error.kind() == ErrorKind::Interrupted => {}
            answer => return answer,
        }
    }
    Err(ErrorKind::TimedOut.into())
}

// One write, tried again where a signal interrupted it.
pub(crate) fn write_uninterrupted<W: Write>(writer: &mut W, piece: &[u8]) -> io::Result<usize>
    ensures within { WritesAtMost result piece.now }
    ensures bytes { WriteAppends (W.contents writer.old) (W.contents writer.new) result piece.now }
    ensures retried { IfErr result (λ e. error_kind e ≢ ErrorKind.Interrupted) }
{
    for _ in 0..u64::MAX {
        match writer.write(piece) {
            Err(error) if error.kind() == ErrorKind::Interrupted => {}
            answer => return answer,
        }
    }
    Err(ErrorKind::TimedOut.into())
}

/// A writer as a sink. Each write is one write of the writer, with no buffer between.
#[derive(Drop)]
pub struct DirectWriter<W> {
    writer: W,
    // whether a flush came after the last write, for the contract of a sink
    flushed: bool,
    faults: u64,
}

impl<W: Write> DirectWriter<W> {
    pub fn new(writer: W) -> DirectWriter<W>
        ensures output { ⟦<DirectWriter<W> as Sink>⟧.output result ≡ W.contents writer }
        ensures flushed { IsTrue (⟦<DirectWriter<W> as Sink>⟧.flushed result) }
        ensures faults { ⟦<DirectWriter<W> as Sink>⟧.faults result ≡ 0 }
    {
        DirectWriter {
            writer,
            flushed: true,
            faults: 0,
        }
    }

    /// How often it has failed.
    pub fn faults(&self) -> u64
        ensures { result ≡ ⟦<DirectWriter<W> as Sink>⟧.faults self.now }
    {
        self.faults
    }
}

impl<W: Write> Sink for DirectWriter<W> {
    ghost output = { λ s. W.contents s.writer };

    ghost flushed = { λ s. s.flushed };

    ghost faults = { λ s. s.faults };

    // A write that takes nothing fails, as it does in std's `write_all`.
    fn write(&mut self, piece: &[u8]) -> Result<usize, Failed> {
        match write_uninterrupted(&mut self.writer, piece) {
            Ok(count) if count > 0 => {
                self.flushed = false;
                Ok(count)
            }
            _ => Err(count_fault(&mut self.faults)),
        }
    }

    fn flush(&mut self) -> Result<(), Failed> {
        match self.writer.flush() {
            Ok(()) => {
                self.flushed = true;
                Ok(())
            }
            Err(_) => Err(count_fault(&mut self.faults)),
        }
    }
}

/// Standard output or standard error.
#[derive(Drop)]
pub enum StandardStream {
    Output(Stdout),
    Error(Stderr),
}

impl Write for StandardStream {
    fn write(&mut self, buf: &[u8]) -> io::Result<usize> {
        match self {
            StandardStream::Output(stream) => stream.write(buf),
            StandardStream::Error(stream) => stream.write(buf),
        }
    }

    fn flush(&mut self) -> io::Result<()> {
        match self {
            StandardStream::Output(stream) => stream.flush(),
            StandardStream::Error(stream) => stream.flush(),
        }
    }
}
