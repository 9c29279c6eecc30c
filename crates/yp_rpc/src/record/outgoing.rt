//! What is owed to a sink that is never waited for.

ghost use Rattle.std.specs.Prelude.{◌≡◌, ◌<◌, ◌≤◌, [], true, false, IsTrue, length, IfOk, OnOk};
ghost use Rattle.std.specs.Io.KnownBytes.{Keeps, WriteAppends, append_known};
ghost use Rattle.yp_io.specs.Counts.{CountsFaults};
ghost use Rattle.yp_rpc.specs.declared.record.outgoing.Payment.TheVariants.{NotNow};
ghost use Rattle.yp_rpc.specs.inside.Outgoing.{IsPaid, Passes, Pays};

use std::alloc::Global;
use std::marker::Model;
use yp_io::{Failed, Sink, TrySink, count_fault};

/// What came of paying.
#[derive(Clone, Copy, Debug, PartialEq, Eq)]
pub enum Payment {
    /// All that was owed was taken and passed on.
    Whole,
    /// Some of it was taken.
    Part,
    /// Nothing can go on now.
    NotNow,
}

/// A sink that is never waited for, with the bytes that are owed to it. It has memory for them alone.
///
/// What is written to it goes on at once where nothing is owed and nothing is held back, as far as the sink takes it,
/// and is owed else. A write fails only where memory has run out.
#[derive(Drop)]
pub struct Outgoing<K> {
    alloc: Global,
    sink: K,
    written: Vec<u8>,
    paid: usize,
    is_held: bool,
    flushed: bool,
    faults: u64,
}

impl<K> Model for Outgoing<K> {
    ghost use Rattle.std.specs.Prelude.{◌≤◌, length, drop};
    ghost use Rattle.yp_rpc.specs.inside.Outgoing.{Owing};

    ghost Value = { Owing K };

    ghost view = { λ o. record {
      sink = o.sink;
      owed = drop o.paid o.written.items;
      flushed = o.flushed;
      faults = o.faults;
    } };

    ghost invariant = { λ o. o.paid ≤ length o.written.items };
}

impl<K> Outgoing<K> {
    /// Nothing is owed to this sink.
    pub fn new(alloc: Global, sink: K) -> Outgoing<K>
        ensures { result ≡ record { sink = sink; owed = []; flushed = true; faults = 0 } }
    {
        Outgoing {
            alloc,
            sink,
            written: Vec::new(alloc),
            paid: 0,
            is_held: false,
            flushed: true,
            faults: 0,
        }
    }

    /// The sink. What is owed to it is dropped.
    pub fn into_sink(self) -> K
        ensures { result ≡ self.sink }
    {
        let Outgoing {
            alloc: _,
            sink,
            written: _,
            paid: _,
            is_held: _,
            flushed: _,
            faults: _,
        } = self;
        sink
    }

    /// How many bytes are owed.
    pub fn len(&self) -> usize
        ensures { result ≡ length self.now.owed }
    {
        self.written.len() - self.paid
    }

    /// Has what is written held back, so that it goes out together, or no longer.
    pub fn hold(&mut self, is_held: bool)
        ensures { self.new ≡ self.old }
    {
        self.is_held = is_held;
    }

    /// Lets the memory go where nothing is owed.
    fn let_go(&mut self)
        ensures { self.new ≡ self.old }
    {
        if self.paid == self.written.len() {
            self.written = Vec::new(self.alloc);
            self.paid = 0;
        }
    }
}

impl<K: TrySink> Outgoing<K> {
    /// Has the sink take what it can of what is owed, in one write, or pass on what it took where nothing more is owed.
    pub fn pay(&mut self) -> Result<Payment, Failed>
        ensures pays { Pays (K.output self.old.sink) (K.output self.new.sink) self.old.owed self.new.owed }
        ensures kept { Keeps (append_known (K.output self.old.sink) self.old.owed)
            (append_known (K.output self.new.sink) self.new.owed) }
        ensures paid { IfOk result (IsPaid K.flushed self.old self.new) }
        ensures not_now { IfOk result (λ paid. paid ≡ NotNow
            → Keeps (K.output self.old.sink) (K.output self.new.sink)) }
        ensures same { self.new ≡ record self.old { sink = self.new.sink; owed = self.new.owed } }
        ensures cause { CountsFaults (K.faults self.old.sink) (K.faults self.new.sink) result }
    {
        if self.paid == self.written.len() {
            let done = self.sink.try_flush()?;
            return Ok(if done {
                Payment::Whole
            } else {
                Payment::NotNow
            });
        }
        match self.sink.try_write(&self.written[self.paid..])? {
            None => Ok(Payment::NotNow),
            Some(taken) => {
                self.paid += taken;
                self.let_go();
                Ok(Payment::Part)
            }
        }
    }

    /// Has the sink take some of a piece at once, where nothing is owed and nothing is held back.
    fn pass(&mut self, piece: &[u8]) -> Option<usize>
        requires { 0 < length piece.now }
        ensures { Passes K.output K.faults result piece.now self.old self.new }
    {
        if self.is_held || self.paid < self.written.len() {
            return None;
        }
        match self.sink.try_write(piece) {
            Ok(taken) => taken,
            Err(Failed) => None,
        }
    }
}

impl<K: TrySink> Sink for Outgoing<K> {
    ghost output = { λ o. append_known (K.output o.sink) o.owed };

    ghost flushed = { λ o. o.flushed };

    ghost faults = { λ o. o.faults };

    fn write(&mut self, piece: &[u8]) -> Result<usize, Failed>
        requires { 0 < length piece.now }
        ensures some { IfOk result (λ n. 0 < n) }
        ensures within { IfOk result (λ n. n ≤ length piece.now) }
        ensures bytes { WriteAppends (append_known (K.output self.old.sink) self.old.owed)
            (append_known (K.output self.new.sink) self.new.owed) result piece.now }
        ensures unflushed { OnOk result (self.new.flushed ≡ false) }
        ensures cause { CountsFaults self.old.faults self.new.faults result }
        ensures never_falls { K.faults self.old.sink ≤ K.faults self.new.sink }
    {
        if let Some(taken) = self.pass(piece) {
            self.flushed = false;
            return Ok(taken);
        }
        match self.written.extend_from_slice(piece) {
            Ok(()) => {
                self.flushed = false;
                Ok(piece.len())
            }
            Err(_) => Err(count_fault(&mut self.faults)),
        }
    }

    /// It is the owner who has the sink pass on what it took, by paying.
    fn flush(&mut self) -> Result<(), Failed>
        ensures bytes { Keeps (append_known (K.output self.old.sink) self.old.owed)
            (append_known (K.output self.new.sink) self.new.owed) }
        ensures flushed { OnOk result (IsTrue self.new.flushed) }
        ensures cause { CountsFaults self.old.faults self.new.faults result }
        ensures others { self.new ≡ record self.old { flushed = true } }
    {
        self.flushed = true;
        Ok(())
    }
}
