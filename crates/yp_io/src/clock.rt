//! The time.

ghost use Rattle.std.specs.Prelude.{◌≡◌, ℕ, Option, Some, IfSome};

/// A clock of seconds since 1970-01-01 00:00 UTC, which stays at 2^32 - 1 once that is past.
pub trait Clock {
    /// The moment that it shows, where that is told. A told moment never changes.
    ghost moment: { Self → Option ℕ };

    /// The moment now.
    fn now(&mut self) -> u32
        ensures told { IfSome (moment self.old) (λ told. result ≡ told) }
        ensures same { moment self.new ≡ moment self.old };
}
