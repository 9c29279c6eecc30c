//! Fragments that are held back, to be written at once.

ghost use Rattle.std.specs.Prelude.{◌≡◌, ℕ, ◌+◌, ◌-◌, ◌≤◌, ◌↔◌, IsTrue, [], ◌++◌, length, take, min, IfOk, OnOk, OnErr};
ghost use Rattle.std.specs.Io.KnownBytes.{Appends};
ghost use Rattle.yp_io.specs.Counts.{CountsFaults};
ghost use Rattle.yp_rpc.specs.Records.{fragment_max, fragment};
ghost use Rattle.yp_rpc.specs.Waiting.{full_len};
ghost use Rattle.yp_rpc.specs.inside.Waiting.{held_room, none};

use crate::record::head::{HEAD, Head};
use crate::record::{FRAGMENT_MAX, HELD_MAX};
use std::alloc::Global;
use std::marker::Model;
use yp_io::{Failed, NoMemory, Sink, write_all};

// The bytes of a full fragment with its head.
const FULL_LEN: usize = HEAD + FRAGMENT_MAX;

// The room for the fragments that are held back.
const HELD_ROOM: usize = HELD_MAX * FULL_LEN;

// Whole fragments, and the bytes of the next one.
#[derive(Drop)]
pub(super) struct Batch {
    // the whole fragments up to `start`, the place of a head, and `len` bytes behind it
    bytes: Vec<u8>,
    start: usize,
    len: usize,
}

impl Model for Batch {
    ghost use Rattle.std.specs.Prelude.{◌≡◌, ◌+◌, ◌-◌, ◌≤◌, length, take, drop};
    ghost use Rattle.yp_rpc.specs.Records.{fragment_max};
    ghost use Rattle.yp_rpc.specs.Waiting.{Waiting};
    ghost use Rattle.yp_rpc.specs.inside.Waiting.{held_room};

    ghost Value = { Waiting };

    ghost view = { λ b. record {
      whole = take b.start b.bytes.items;
      piece = take b.len (drop (b.start + 4) b.bytes.items);
    } };

    ghost invariant = { λ b. (length b.bytes.items ≡ held_room) × (b.start ≤ held_room)
        × (b.len ≤ fragment_max) × (b.len ≤ held_room - (b.start + 4)) };
}

impl Batch {
    // Nothing waits.
    pub(super) fn new(alloc: Global) -> Result<Batch, NoMemory>
        ensures { IfOk result (λ b. b ≡ none) }
    {
        let bytes = vec![in alloc; 0; HELD_ROOM].map_err(|_| NoMemory)?;
        Ok(Batch {
            bytes,
            start: 0,
            len: 0,
        })
    }

    // Whether the next fragment has all its bytes.
    pub(super) fn is_full(&self) -> bool
        ensures full { IsTrue result ↔ length self.now.piece ≡ fragment_max }
        ensures short { length self.now.piece ≤ fragment_max }
    {
        self.len >= FRAGMENT_MAX
    }

    // Whether there is room for a full fragment behind the whole ones.
    pub(super) fn has_room(&self) -> bool
        ensures { IsTrue result ↔ length self.now.whole + full_len ≤ held_room }
    {
        self.start + FULL_LEN <= HELD_ROOM
    }

    // Keeps as many of the first bytes as the next fragment has room for, and answers how many.
    pub(super) fn keep(&mut self, piece: &[u8]) -> usize
        requires { length self.old.whole + full_len ≤ held_room }
        ensures count { result ≡ min (length piece.now) (fragment_max - length self.old.piece) }
        ensures kept { self.new ≡ record self.old { piece = self.old.piece ++ take result piece.now } }
    {
        let count = piece.len().min(FRAGMENT_MAX - self.len);
        let at = self.start + HEAD + self.len;
        self.bytes[at..at + count].copy_from_slice(&piece[..count]);
        self.len += count;
        count
    }

    // Makes a whole fragment of the bytes behind the last one.
    pub(super) fn close(&mut self, last: bool)
        requires { length self.old.whole + full_len ≤ held_room }
        ensures { self.new ≡ record { whole = self.old.whole ++ fragment last self.old.piece; piece = [] } }
    {
        let head = Head {
            last,
            len: self.len,
        };
        self.bytes[self.start..self.start + HEAD].copy_from_slice(&head.to_bytes());
        self.start += HEAD + self.len;
        self.len = 0;
    }

    // Writes the whole fragments at once. Then nothing waits.
    pub(super) fn send<K: Sink>(&mut self, sink: &mut K) -> Result<(), Failed>
        ensures sent { OnOk result (Appends (K.output sink.old) (K.output sink.new) self.old.whole) }
        ensures prefix { OnErr result ((n : ℕ) × (n ≤ length self.old.whole)
            × Appends (K.output sink.old) (K.output sink.new) (take n self.old.whole)) }
        ensures as_new { self.new ≡ none }
        ensures cause { CountsFaults (K.faults sink.old) (K.faults sink.new) result }
    {
        let end = self.start;
        self.start = 0;
        self.len = 0;
        write_all(sink, &self.bytes[..end])
    }
}
