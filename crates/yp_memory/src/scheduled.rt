//! Wires that go on at some calls alone, by a schedule.

ghost use Rattle.std.specs.Prelude.{◌≡◌, ◌<◌, ◌≤◌, ◌↔◌, false, Contains, IsTrue, IfOk, IfSome, None, Ok, length};
ghost use Rattle.std.specs.Io.KnownBytes.{Keeps};
ghost use Rattle.yp_io.specs.Counts.{CountsFaults, next_count};
ghost use Rattle.yp_io.specs.Ready.{TriesToRead, TriesToWrite};

use yp_io::{Failed, Sink, Source, TrySink, TrySource};

/// A source or a sink of which the calls that a schedule names answer "not now", each by its number from 0. All others
/// go on, and wait where it does: with an empty schedule this is a wire that always waits.
#[derive(Debug, Drop)]
pub struct Scheduled<T> {
    pub wire: T,
    pub waiting: Vec<u64>,
    pub calls: u64,
}

impl<T> Scheduled<T> {
    /// Before the first call.
    pub fn new(wire: T, waiting: Vec<u64>) -> Scheduled<T>
        ensures { result ≡ record { wire = wire; waiting = waiting; calls = 0 } }
    {
        Scheduled {
            wire,
            waiting,
            calls: 0,
        }
    }

    /// Counts a call, and answers whether it says "not now".
    fn waits(&mut self) -> bool
        ensures waits { IsTrue result ↔ Contains self.old.waiting.items self.old.calls }
        ensures counts { self.new ≡ record self.old { calls = next_count self.old.calls } }
    {
        let number = self.calls;
        self.calls = number.saturating_add(1);
        self.waiting.contains(&number)
    }
}

impl<S: Source> TrySource for Scheduled<S> {
    ghost input = { λ s. S.input s.wire };

    ghost faults = { λ s. S.faults s.wire };

    fn try_read(&mut self, buf: &mut [u8]) -> Result<Option<usize>, Failed>
        requires { 0 < length buf.old }
        ensures within { IfOk result (λ read. IfSome read (λ n. n ≤ length buf.new)) }
        ensures bytes { TriesToRead (S.input self.old.wire) (S.input self.new.wire) result buf.new }
        ensures cause { CountsFaults (S.faults self.old.wire) (S.faults self.new.wire) result }
        ensures waits { result ≡ Ok None ↔ Contains self.old.waiting.items self.old.calls }
    {
        if self.waits() {
            return Ok(None);
        }
        Ok(Some(self.wire.read(buf)?))
    }
}

impl<K: Sink> TrySink for Scheduled<K> {
    ghost output = { λ k. K.output k.wire };

    ghost flushed = { λ k. K.flushed k.wire };

    ghost faults = { λ k. K.faults k.wire };

    fn try_write(&mut self, piece: &[u8]) -> Result<Option<usize>, Failed>
        requires { 0 < length piece.now }
        ensures some { IfOk result (λ taken. IfSome taken (λ n. 0 < n)) }
        ensures within { IfOk result (λ taken. IfSome taken (λ n. n ≤ length piece.now)) }
        ensures bytes { TriesToWrite (K.output self.old.wire) (K.output self.new.wire) result piece.now }
        ensures unflushed { IfOk result (λ taken. IfSome taken (λ n. K.flushed self.new.wire ≡ false)) }
        ensures cause { CountsFaults (K.faults self.old.wire) (K.faults self.new.wire) result }
        ensures waits { result ≡ Ok None ↔ Contains self.old.waiting.items self.old.calls }
    {
        if self.waits() {
            return Ok(None);
        }
        Ok(Some(self.wire.write(piece)?))
    }

    fn try_flush(&mut self) -> Result<bool, Failed>
        ensures bytes { Keeps (K.output self.old.wire) (K.output self.new.wire) }
        ensures flushed { IfOk result (λ done. IsTrue done → IsTrue (K.flushed self.new.wire)) }
        ensures cause { CountsFaults (K.faults self.old.wire) (K.faults self.new.wire) result }
        ensures waits { result ≡ Ok false ↔ Contains self.old.waiting.items self.old.calls }
    {
        if self.waits() {
            return Ok(false);
        }
        self.wire.flush()?;
        Ok(true)
    }
}
