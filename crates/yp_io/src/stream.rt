ghost use Rattle.std.specs.Prelude.{◌≡◌, ℕ, ◌<◌, ◌≤◌, Bool, false, IsTrue, List, length, Option, IfOk, OnOk, OnErr};
ghost use Rattle.std.specs.Io.KnownBytes.{Keeps, Appends, ReadConsumes, WriteAppends};
ghost use Rattle.yp_io.specs.Counts.{CountsFaults, next_count};
ghost use Rattle.yp_io.specs.Streams.{AppendsFront};

/// An object of the outside failed. Its count of faults rose in that call.
#[derive(Clone, Copy, Debug, PartialEq, Eq)]
pub struct Failed;

/// Memory ran out.
#[derive(Clone, Copy, Debug, PartialEq, Eq)]
pub struct NoMemory;

/// An IPv4 address, and a port of TCP or UDP.
#[derive(Clone, Copy, Debug, PartialEq, Eq)]
pub struct Peer {
    pub addr: [u8; 4],
    pub port: u16,
}

/// The address of a caller on the own host.
pub const OWN_HOST: [u8; 4] = [127, 0, 0, 1];

/// Raises a count of faults, which stays at 2^64 - 1, and gives what the call that failed answers.
pub fn count_fault(faults: &mut u64) -> Failed
    ensures raised { faults.new ≡ next_count faults.old }
    ensures never_falls { faults.old ≤ faults.new }
{
    *faults = faults.saturating_add(1);
    Failed
}

/// Where bytes come from.
pub trait Source {
    /// The bytes that are left of its input, where they are told.
    ghost input: { Self → Option (List ℕ) };

    /// How often it has failed, up to 2^64 - 1.
    ghost faults: { Self → ℕ };

    /// Puts some of the next bytes at the front of `buf`, and answers how many: 0 exactly at the end of input.
    /// After `Failed` no byte was read.
    fn read(&mut self, buf: &mut [u8]) -> Result<usize, Failed>
        requires { 0 < length buf.old }
        ensures within { IfOk result (λ n. n ≤ length buf.new) }
        ensures bytes { ReadConsumes (input self.old) (input self.new) result buf.new }
        ensures cause { CountsFaults (faults self.old) (faults self.new) result };
}

/// Where bytes go.
pub trait Sink {
    /// The bytes that it has taken, where they are told.
    ghost output: { Self → Option (List ℕ) };

    /// Whether it was flushed since it took the last byte, or has taken none.
    ghost flushed: { Self → Bool };

    /// How often it has failed, up to 2^64 - 1.
    ghost faults: { Self → ℕ };

    /// Takes some of the leading bytes of `piece`, at least one, and answers how many. After `Failed` it took none.
    fn write(&mut self, piece: &[u8]) -> Result<usize, Failed>
        requires { 0 < length piece.now }
        ensures some { IfOk result (λ n. 0 < n) }
        ensures within { IfOk result (λ n. n ≤ length piece.now) }
        ensures bytes { WriteAppends (output self.old) (output self.new) result piece.now }
        ensures unflushed { OnOk result (flushed self.new ≡ false) }
        ensures cause { CountsFaults (faults self.old) (faults self.new) result };

    /// Passes on what was taken. It takes no further bytes.
    fn flush(&mut self) -> Result<(), Failed>
        ensures bytes { Keeps (output self.old) (output self.new) }
        ensures flushed { OnOk result (IsTrue (flushed self.new)) }
        ensures cause { CountsFaults (faults self.old) (faults self.new) result };
}

/// A wire: what comes in and what goes out, each with its own count of faults.
#[derive(Drop)]
pub struct Pair<S, K> {
    pub source: S,
    pub sink: K,
}

/// Writes the whole piece. After `Failed` a prefix of it was taken.
pub fn write_all<K: Sink>(sink: &mut K, piece: &[u8]) -> Result<(), Failed>
    ensures whole { OnOk result (Appends (K.output sink.old) (K.output sink.new) piece.now) }
    ensures prefix { OnErr result (AppendsFront piece.now (K.output sink.old) (K.output sink.new)) }
    ensures cause { CountsFaults (K.faults sink.old) (K.faults sink.new) result }
{
    let mut rest = piece;
    while !rest.is_empty() {
        let taken = sink.write(rest)?;
        rest = &rest[taken..];
    }
    Ok(())
}

/// Writes the whole piece, and passes it on. After `Failed` a prefix of it was taken.
pub fn write_through<K: Sink>(sink: &mut K, piece: &[u8]) -> Result<(), Failed>
    ensures whole { OnOk result (Appends (K.output sink.old) (K.output sink.new) piece.now) }
    ensures flushed { OnOk result (IsTrue (K.flushed sink.new)) }
    ensures prefix { OnErr result (AppendsFront piece.now (K.output sink.old) (K.output sink.new)) }
    ensures cause { CountsFaults (K.faults sink.old) (K.faults sink.new) result }
{
    write_all(sink, piece)?;
    sink.flush()
}
