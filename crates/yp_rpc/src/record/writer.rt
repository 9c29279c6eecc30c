//! Records written to a stream.

ghost use Rattle.std.specs.Prelude.{◌≡◌, ℕ, ◌<◌, ◌≤◌, ◌↔◌, IsTrue, List, [], ◌++◌, length, take, IsOk, IfOk, OnOk};
ghost use Rattle.std.specs.Prelude.{OnErr};
ghost use Rattle.std.specs.Io.KnownBytes.{Keeps, Appends};
ghost use Rattle.yp_io.specs.Counts.{CountsFaults};
ghost use Rattle.yp_rpc.specs.Records.{fragment_max, sent};
ghost use Rattle.yp_rpc.specs.Waiting.{waiting, HoldsFragments, RestsBetweenCalls};
ghost use Rattle.yp_rpc.specs.inside.Waiting.{held_bytes, none, promised};

use crate::record::batch::Batch;
use std::alloc::Global;
use std::marker::Model;
use yp_io::{Failed, NoMemory, Sink};

/// Writes one record after another, in fragments of 8,192 bytes; the last one of a record has from 1 to 8,192. It is
/// seen as the bytes of the record that wait to be written, at most those of eight fragments.
#[derive(Drop)]
pub struct RecordWriter {
    batch: Batch,
}

impl Model for RecordWriter {
    ghost use Rattle.std.specs.Prelude.{ℕ, List};
    ghost use Rattle.yp_rpc.specs.Waiting.{waiting, RestsBetweenCalls};

    ghost Value = { List ℕ };

    ghost view = { λ w. waiting w.batch };

    ghost invariant = { λ w. RestsBetweenCalls w.batch };
}

impl RecordWriter {
    /// A writer at which nothing waits. It allocates all that it ever needs.
    pub fn new(alloc: Global) -> Result<RecordWriter, NoMemory>
        ensures { IfOk result (λ w. w ≡ []) }
    {
        let batch = Batch::new(alloc)?;
        Ok(RecordWriter { batch })
    }

    /// Puts a piece of a record. Bytes are written only where the next eight fragments are full and a further byte
    /// comes, and then all at once. After `Failed` nothing waits, and the stream ends inside the record.
    pub fn put<K: Sink>(&mut self, sink: &mut K, piece: &[u8]) -> Result<(), Failed>
        // what is sent of a record does not depend on how it was put
        ensures sent { OnOk result ((out : List ℕ)
            × Appends (K.output sink.old) (K.output sink.new) out
            × ((more : List ℕ) → 0 < length (self.new ++ more)
            → sent (self.old ++ piece.now ++ more) ≡ out ++ sent (self.new ++ more))) }
        // bytes wait for as long as they fit in eight fragments
        ensures held { length (self.old ++ piece.now) ≤ held_bytes → IsOk result
            × Keeps (K.output sink.old) (K.output sink.new) × (self.new ≡ self.old ++ piece.now) }
        // something waits unless nothing was put
        ensures pending { OnOk result (0 < length (self.old ++ piece.now) → 0 < length self.new) }
        ensures prefix { OnErr result ((more : List ℕ) → (n : ℕ)
            × Appends (K.output sink.old) (K.output sink.new)
            (take n (sent (self.old ++ piece.now ++ more)))) }
        ensures as_new { OnErr result (self.new ≡ []) }
        ensures cause { CountsFaults (K.faults sink.old) (K.faults sink.new) result }
    {
        put_all(&mut self.batch, sink, piece)
    }

    /// Ends a record: writes what waits at once, the rest of it as the last fragment, and flushes. Nothing waits then,
    /// even after `Failed`.
    pub fn end<K: Sink>(&mut self, sink: &mut K) -> Result<(), Failed>
        requires { 0 < length self.old }
        ensures sent { OnOk result
            (Appends (K.output sink.old) (K.output sink.new) (sent self.old)) }
        ensures flushed { OnOk result (IsTrue (K.flushed sink.new)) }
        ensures prefix { OnErr result ((n : ℕ)
            × Appends (K.output sink.old) (K.output sink.new) (take n (sent self.old))) }
        ensures as_new { self.new ≡ [] }
        ensures cause { CountsFaults (K.faults sink.old) (K.faults sink.new) result }
    {
        self.batch.close(true);
        self.batch.send(sink)?;
        sink.flush()
    }

    /// Sends a whole message as one record, and flushes. Nothing waits then, even after `Failed`.
    pub fn send<K: Sink>(&mut self, sink: &mut K, message: &[u8]) -> Result<(), Failed>
        requires idle { self.old ≡ [] }
        requires some { 0 < length message.now }
        ensures sent { OnOk result (Appends (K.output sink.old) (K.output sink.new) (sent message.now)) }
        ensures flushed { OnOk result (IsTrue (K.flushed sink.new)) }
        ensures prefix { OnErr result ((n : ℕ)
            × Appends (K.output sink.old) (K.output sink.new) (take n (sent message.now))) }
        ensures as_new { self.new ≡ [] }
        ensures cause { CountsFaults (K.faults sink.old) (K.faults sink.new) result }
    {
        self.put(sink, message)?;
        self.end(sink)
    }
}

// Puts a piece of a record behind what is held back.
fn put_all<K: Sink>(batch: &mut Batch, sink: &mut K, piece: &[u8]) -> Result<(), Failed>
    requires { RestsBetweenCalls batch.old }
    ensures rests { OnOk result (RestsBetweenCalls batch.new) }
    ensures sent { OnOk result ((out : List ℕ)
        × Appends (K.output sink.old) (K.output sink.new) out
        × ((more : List ℕ) → promised batch.old (piece.now ++ more) ≡ out ++ promised batch.new more)) }
    ensures held { length (waiting batch.old ++ piece.now) ≤ held_bytes → IsOk result
        × Keeps (K.output sink.old) (K.output sink.new) × (waiting batch.new ≡ waiting batch.old ++ piece.now) }
    ensures pending { OnOk result (0 < length (batch.old.piece ++ piece.now) ↔ 0 < length batch.new.piece) }
    ensures some { OnErr result (0 < length piece.now) }
    ensures prefix { OnErr result ((more : List ℕ) → (n : ℕ)
        × Appends (K.output sink.old) (K.output sink.new)
        (take n (promised batch.old (piece.now ++ more)))) }
    ensures as_new { OnErr result (batch.new ≡ none) }
    ensures cause { CountsFaults (K.faults sink.old) (K.faults sink.new) result }
{
    let mut rest = piece;
    while !rest.is_empty() {
        make_room(batch, sink)?;
        let count = batch.keep(rest);
        rest = &rest[count..];
    }
    Ok(())
}

// Makes room for a further byte of the record.
fn make_room<K: Sink>(batch: &mut Batch, sink: &mut K) -> Result<(), Failed>
    requires { HoldsFragments batch.old }
    ensures holds { OnOk result (HoldsFragments batch.new) }
    ensures room { OnOk result (length batch.new.piece < fragment_max) }
    ensures sent { OnOk result ((out : List ℕ)
        × Appends (K.output sink.old) (K.output sink.new) out
        × ((more : List ℕ) → 0 < length more
        → promised batch.old more ≡ out ++ promised batch.new more)) }
    ensures held { length (waiting batch.old) < held_bytes → IsOk result
        × Keeps (K.output sink.old) (K.output sink.new) × (waiting batch.new ≡ waiting batch.old) }
    ensures prefix { OnErr result ((more : List ℕ) → 0 < length more → (n : ℕ)
        × Appends (K.output sink.old) (K.output sink.new) (take n (promised batch.old more))) }
    ensures as_new { OnErr result (batch.new ≡ none) }
    ensures cause { CountsFaults (K.faults sink.old) (K.faults sink.new) result }
{
    if !batch.is_full() {
        return Ok(());
    }
    batch.close(false);
    if batch.has_room() {
        return Ok(());
    }
    batch.send(sink)
}
