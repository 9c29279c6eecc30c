//! Text that goes out through a buffer.

ghost use Rattle.std.specs.Prelude.{◌≡◌, ◌+◌, ◌<◌, ◌≤◌, [], ◌∷◌, ◌++◌, length, IsTrue, IfOk, OnOk, OnErr};
ghost use Rattle.std.specs.Io.KnownBytes.{Appends};
ghost use Rattle.yp_io.specs.Counts.{CountsFaults};
ghost use Rattle.yp_client.specs.query.Lines.{line};
ghost use Rattle.yp_io.specs.Streams.{AppendsFront};
ghost use Rattle.yp_client.specs.inside.query.Printed.{Puts};

use std::alloc::Global;
use std::marker::Model;
use yp_io::{Failed, NoMemory, Sink, write_all, write_through};

/// The bytes of the buffer.
pub const BUFFER_LEN: usize = 65_536;

/// The text that waits for a sink. It is written where the next piece has no room behind it.
#[derive(Drop)]
pub struct TextBuffer {
    bytes: Vec<u8>,
}

impl Model for TextBuffer {
    ghost use Rattle.std.specs.Prelude.{ℕ, ◌≤◌, List, vec_capacity};

    ghost Value = { List ℕ };

    ghost view = { λ t. t.bytes.items };

    ghost invariant = { λ t. 65536 ≤ vec_capacity t.bytes };
}

impl TextBuffer {
    /// Nothing waits. It takes all the memory that it ever needs.
    pub fn new(alloc: Global) -> Result<TextBuffer, NoMemory>
        ensures { IfOk result (λ text. text ≡ []) }
    {
        match Vec::with_capacity(alloc, BUFFER_LEN) {
            Ok(bytes) => Ok(TextBuffer { bytes }),
            Err(_) => Err(NoMemory),
        }
    }

    /// Puts a piece behind what waits.
    pub fn put<K: Sink>(&mut self, sink: &mut K, piece: &[u8]) -> Result<(), Failed>
        ensures puts { Puts piece.now result self.old self.new (K.output sink.old) (K.output sink.new) }
        ensures cause { CountsFaults (K.faults sink.old) (K.faults sink.new) result }
    {
        if self.bytes.len() + piece.len() > BUFFER_LEN {
            write_all(sink, &self.bytes)?;
            self.bytes.clear();
            if piece.len() > BUFFER_LEN {
                return write_all(sink, piece);
            }
        }
        let Ok(()) = self.bytes.extend_from_slice(piece) else {
            unreachable!()
        };
        Ok(())
    }

    /// Puts a line: a text, and its line feed.
    pub fn put_line<K: Sink>(&mut self, sink: &mut K, text: &[u8]) -> Result<(), Failed>
        ensures puts { Puts (line text.now) result self.old self.new (K.output sink.old) (K.output sink.new) }
        ensures cause { CountsFaults (K.faults sink.old) (K.faults sink.new) result }
    {
        if self.bytes.len() + text.len() < BUFFER_LEN {
            self.keep_line(text);
            return Ok(());
        }
        self.put(sink, text)?;
        self.put(sink, b"\n")
    }

    /// Keeps a line behind what waits, where there is room for it.
    fn keep_line(&mut self, text: &[u8])
        requires { length self.old + length text.now < 65536 }
        ensures { self.new ≡ self.old ++ line text.now }
    {
        let Ok(()) = self.bytes.extend_from_slice(text) else {
            unreachable!()
        };
        let Ok(()) = self.bytes.push(b'\n') else {
            unreachable!()
        };
    }

    /// Puts a line of two texts, with a space between.
    pub fn put_pair<K: Sink>(
        &mut self,
        sink: &mut K,
        first: &[u8],
        second: &[u8],
    ) -> Result<(), Failed>
        ensures puts { Puts (line (first.now ++ 32 ∷ second.now)) result self.old self.new
            (K.output sink.old) (K.output sink.new) }
        ensures cause { CountsFaults (K.faults sink.old) (K.faults sink.new) result }
    {
        self.put(sink, first)?;
        self.put(sink, b" ")?;
        self.put_line(sink, second)
    }

    /// Writes what waits, and flushes.
    pub fn end<K: Sink>(self, sink: &mut K) -> Result<(), Failed>
        ensures whole { OnOk result (Appends (K.output sink.old) (K.output sink.new) self) }
        ensures flushed { OnOk result (IsTrue (K.flushed sink.new)) }
        ensures front { OnErr result (AppendsFront self (K.output sink.old) (K.output sink.new)) }
        ensures cause { CountsFaults (K.faults sink.old) (K.faults sink.new) result }
    {
        write_through(sink, &self.bytes)
    }
}
