ghost use Rattle.std.specs.Prelude.{◌≡◌, ◌<◌, ◌≤◌, ◌↔◌, true, false, not, ◌&&◌, ◌||◌, is_ok, IsTrue, [], min, length};
ghost use Rattle.std.specs.Prelude.{drop, Some, Contains, IsErr, IfOk, OnOk, MatchResult};
ghost use Rattle.std.specs.Io.KnownBytes.{Keeps, ReadConsumes, WriteAppends};
ghost use Rattle.yp_io.specs.Counts.{CountsFaults, next_count, faults_after};

use crate::plan::Plan;
use std::alloc::Global;
use std::marker::Model;
use yp_io::{Failed, Pair, Sink, Source, count_fault};

/// A source in memory, which tells its input.
#[derive(Debug, Drop)]
pub struct MemSource {
    bytes: Vec<u8>,
    at: usize,
    piece: usize,
    plan: Plan,
}

impl Model for MemSource {
    ghost use Rattle.std.specs.Prelude.{◌<◌, ◌≤◌, length, drop};
    ghost use Rattle.yp_memory.specs.inside.Mem.{Feed};

    ghost Value = { Feed };

    ghost view = { λ s. record {
      input = drop s.at s.bytes.items;
      piece = s.piece;
      failing = s.plan.failing.items;
      calls = s.plan.calls;
      faults = s.plan.faults;
    } };

    ghost invariant = { λ s. (s.at ≤ length s.bytes.items) × (0 < s.piece) };
}

impl MemSource {
    /// Gives `bytes`, at most `piece` of them in a read. A call whose number, from 0, stands in `failing` fails.
    pub fn new(bytes: Vec<u8>, piece: usize, failing: Vec<u64>) -> MemSource
        requires { 0 < piece }
        ensures { result ≡ record
            { input = bytes.items; piece = piece; failing = failing.items; calls = 0; faults = 0 } }
    {
        MemSource {
            bytes,
            at: 0,
            piece,
            plan: Plan::new(failing),
        }
    }
}

impl MemSource {
    /// What is left of its input.
    pub(crate) fn left(&self) -> &[u8]
        ensures { result.now ≡ self.now.input }
    {
        &self.bytes[self.at..]
    }

    /// How often it has failed.
    pub(crate) fn faults(&self) -> u64
        ensures { result ≡ self.now.faults }
    {
        self.plan.faults
    }
}

impl Source for MemSource {
    ghost input = { λ s. Some s.input };

    ghost faults = { λ s. s.faults };

    fn read(&mut self, buf: &mut [u8]) -> Result<usize, Failed>
        ensures within { IfOk result (λ n. n ≤ length buf.new) }
        ensures bytes { ReadConsumes (Some self.old.input) (Some self.new.input) result buf.new }
        ensures cause { CountsFaults self.old.faults self.new.faults result }
        ensures fails { IsErr result ↔ Contains self.old.failing self.old.calls }
        ensures count { IfOk result
            (λ n. n ≡ min (min self.old.piece (length buf.old)) (length self.old.input)) }
        ensures beyond { MatchResult result
            (λ n. drop n buf.new ≡ drop n buf.old) (λ _. buf.new ≡ buf.old) }
        ensures others { self.new ≡ record self.old {
          input = self.new.input;
          calls = next_count self.old.calls;
          faults = faults_after self.old.faults result;
        } }
    {
        self.plan.start_call()?;
        let left = &self.bytes[self.at..];
        let count = self.piece.min(buf.len()).min(left.len());
        buf[..count].copy_from_slice(&left[..count]);
        self.at += count;
        Ok(count)
    }
}

/// A sink in memory, which tells what it has taken.
#[derive(Debug, Drop)]
pub struct MemSink {
    bytes: Vec<u8>,
    flushed: bool,
    piece: usize,
    plan: Plan,
}

impl Model for MemSink {
    ghost use Rattle.std.specs.Prelude.{◌<◌};
    ghost use Rattle.yp_memory.specs.inside.Mem.{Drain};

    ghost Value = { Drain };

    ghost view = { λ k. record {
      output = k.bytes.items;
      flushed = k.flushed;
      piece = k.piece;
      failing = k.plan.failing.items;
      calls = k.plan.calls;
      faults = k.plan.faults;
    } };

    ghost invariant = { λ k. 0 < k.piece };
}

impl MemSink {
    /// Takes at most `piece` bytes in a write. A call whose number, from 0, stands in `failing` fails.
    pub fn new(alloc: Global, piece: usize, failing: Vec<u64>) -> MemSink
        requires { 0 < piece }
        ensures { result ≡ record
            { output = []; flushed = true; piece = piece; failing = failing.items; calls = 0; faults = 0 } }
    {
        MemSink {
            bytes: Vec::new(alloc),
            flushed: true,
            piece,
            plan: Plan::new(failing),
        }
    }

    /// All that it has taken.
    pub fn taken(&self) -> &[u8]
        ensures { result.now ≡ self.now.output }
    {
        &self.bytes
    }
}

impl MemSink {
    /// How often it has failed.
    pub(crate) fn faults(&self) -> u64
        ensures { result ≡ self.now.faults }
    {
        self.plan.faults
    }
}

impl Sink for MemSink {
    ghost output = { λ k. Some k.output };

    ghost flushed = { λ k. k.flushed };

    ghost faults = { λ k. k.faults };

    /// A write also fails where memory has run out.
    fn write(&mut self, piece: &[u8]) -> Result<usize, Failed>
        requires { 0 < length piece.now }
        ensures some { IfOk result (λ n. 0 < n) }
        ensures within { IfOk result (λ n. n ≤ length piece.now) }
        ensures bytes { WriteAppends (Some self.old.output) (Some self.new.output) result piece.now }
        ensures unflushed { OnOk result (self.new.flushed ≡ false) }
        ensures cause { CountsFaults self.old.faults self.new.faults result }
        ensures fails { Contains self.old.failing self.old.calls → IsErr result }
        ensures count { IfOk result (λ n. n ≡ min self.old.piece (length piece.now)) }
        ensures others { self.new ≡ record self.old {
          output = self.new.output;
          flushed = not (is_ok result) && self.old.flushed;
          calls = next_count self.old.calls;
          faults = faults_after self.old.faults result;
        } }
    {
        self.plan.start_call()?;
        let count = self.piece.min(piece.len());
        match self.bytes.extend_from_slice(&piece[..count]) {
            Ok(()) => {
                self.flushed = false;
                Ok(count)
            }
            Err(_) => Err(count_fault(&mut self.plan.faults)),
        }
    }

    fn flush(&mut self) -> Result<(), Failed>
        ensures bytes { Keeps (Some self.old.output) (Some self.new.output) }
        ensures flushed { OnOk result (IsTrue self.new.flushed) }
        ensures cause { CountsFaults self.old.faults self.new.faults result }
        ensures fails { IsErr result ↔ Contains self.old.failing self.old.calls }
        ensures others { self.new ≡ record self.old {
          flushed = is_ok result || self.old.flushed;
          calls = next_count self.old.calls;
          faults = faults_after self.old.faults result;
        } }
    {
        self.plan.start_call()?;
        self.flushed = true;
        Ok(())
    }
}

/// A wire in memory.
pub type MemWire = Pair<MemSource, MemSink>;
