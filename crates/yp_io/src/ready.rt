//! Wires that are never waited for: what can't go on now says so, and nothing changed.

ghost use Rattle.std.specs.Prelude.{◌≡◌, ℕ, ◌<◌, ◌≤◌, Bool, false, IsTrue, List, length, Option, IfOk, IfSome};
ghost use Rattle.std.specs.Io.KnownBytes.{Keeps};
ghost use Rattle.yp_io.specs.Counts.{CountsFaults};
ghost use Rattle.yp_io.specs.Ready.{TriesToRead, TriesToWrite};

use crate::stream::Failed;

/// Where bytes come from that may not be there yet.
pub trait TrySource {
    /// The bytes that are left of its input, where they are told.
    ghost input: { Self → Option (List ℕ) };

    /// How often it has failed, up to 2^64 - 1.
    ghost faults: { Self → ℕ };

    /// Puts some of the next bytes at the front of `buf`, and answers how many: 0 exactly at the end of input, and
    /// `None` where there are none now. After `None` or `Failed` no byte was read.
    fn try_read(&mut self, buf: &mut [u8]) -> Result<Option<usize>, Failed>
        requires { 0 < length buf.old }
        ensures within { IfOk result (λ read. IfSome read (λ n. n ≤ length buf.new)) }
        ensures bytes { TriesToRead (input self.old) (input self.new) result buf.new }
        ensures cause { CountsFaults (faults self.old) (faults self.new) result };
}

/// Where bytes go that may not be taken yet.
pub trait TrySink {
    /// The bytes that it has taken, where they are told.
    ghost output: { Self → Option (List ℕ) };

    /// Whether it was flushed since it took the last byte, or has taken none.
    ghost flushed: { Self → Bool };

    /// How often it has failed, up to 2^64 - 1.
    ghost faults: { Self → ℕ };

    /// Takes some of the leading bytes of `piece`, at least one, and answers how many: `None` where it takes none now.
    /// After `None` or `Failed` it took none.
    fn try_write(&mut self, piece: &[u8]) -> Result<Option<usize>, Failed>
        requires { 0 < length piece.now }
        ensures some { IfOk result (λ taken. IfSome taken (λ n. 0 < n)) }
        ensures within { IfOk result (λ taken. IfSome taken (λ n. n ≤ length piece.now)) }
        ensures bytes { TriesToWrite (output self.old) (output self.new) result piece.now }
        ensures unflushed { IfOk result (λ taken. IfSome taken (λ n. flushed self.new ≡ false)) }
        ensures cause { CountsFaults (faults self.old) (faults self.new) result };

    /// Passes on what was taken, and answers whether all of it is. It takes no further bytes.
    fn try_flush(&mut self) -> Result<bool, Failed>
        ensures bytes { Keeps (output self.old) (output self.new) }
        ensures flushed { IfOk result (λ done. IsTrue done → IsTrue (flushed self.new)) }
        ensures cause { CountsFaults (faults self.old) (faults self.new) result };
}
