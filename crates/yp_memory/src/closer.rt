//! What closes connections in memory, and keeps them.

ghost use Rattle.std.specs.Prelude.{◌≡◌, false, [], ◌∷◌, ◌++◌};
ghost use Rattle.yp_io.specs.Counts.{next_count};

use std::alloc::Global;
use std::marker::Model;
use yp_io::Trail;

/// What closes connections in memory. It tells each, and keeps each for which there is memory.
#[derive(Drop)]
pub struct MemCloser<T> {
    kept: Vec<T>,
    closed: Trail<T>,
    lost: bool,
    count: u64,
}

impl<T> Model for MemCloser<T> {
    ghost use Rattle.std.specs.Prelude.{◌≡◌, false};
    ghost use Rattle.yp_memory.specs.inside.MemHall.{Closing};

    ghost Value = { Closing T };

    ghost view = { λ c. record { closed = c.closed; lost = c.lost; count = c.count } };

    ghost invariant = { λ c. c.lost ≡ false → c.kept.items ≡ c.closed };
}

impl<T: Drop> MemCloser<T> {
    /// A closer that has closed no connection yet.
    pub(crate) fn new(alloc: Global) -> MemCloser<T>
        ensures { result ≡ record { closed = []; lost = false; count = 0 } }
    {
        MemCloser {
            kept: Vec::new(alloc),
            closed: Trail::new(),
            lost: false,
            count: 0,
        }
    }

    /// Closes a connection.
    pub(crate) fn close(&mut self, call: T)
        ensures closed { self.new.closed ≡ self.old.closed ++ call ∷ [] }
        ensures count { self.new.count ≡ next_count self.old.count }
    {
        self.count = self.count.saturating_add(1);
        self.closed.push(&call);
        if self.kept.push(call).is_err() {
            self.lost = true;
        }
    }

    /// How many connections it has closed, up to 2^64 - 1.
    pub(crate) fn count(&self) -> u64
        ensures { result ≡ self.now.count }
    {
        self.count
    }

    /// The connections that it has closed, but for those that there was no memory to keep.
    pub fn calls(&self) -> &[T]
        ensures { self.now.lost ≡ false → result.now ≡ self.now.closed }
    {
        &self.kept
    }
}
