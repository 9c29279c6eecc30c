//! What is counted of connections.

ghost use Rattle.std.specs.Prelude.{◌≡◌, ℕ, ◌+◌, ◌<◌, ◌^◌};
ghost use Rattle.yp_io.specs.Counts.{capped};

/// What was served.
#[derive(Clone, Copy, Debug, PartialEq, Eq)]
pub struct Tally {
    /// How many connections came, up to 2^64 - 1.
    pub connections: u64,
    /// How many of their records were read, up to 2^64 - 1.
    pub calls: u64,
    /// Whether an accept has failed, or a worker could have no watch.
    pub listen_fault: bool,
}

impl Tally {
    /// Counts a connection, of which so many records were read.
    pub(crate) fn count(&mut self, calls: u64)
        requires { self.old.connections + 1 < 2 ^ 64 }
        ensures { self.new ≡ record self.old {
          connections = self.old.connections + 1;
          calls = capped self.old.calls calls;
        } }
    {
        self.connections += 1;
        self.calls = self.calls.saturating_add(calls);
    }
}
