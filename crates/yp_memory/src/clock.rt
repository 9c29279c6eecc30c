//! A clock that stands still.

ghost use Rattle.std.specs.Prelude.{◌≡◌, Some};

use yp_io::Clock;

/// A clock in memory, which stands still.
#[derive(Clone, Copy, Debug, PartialEq, Eq)]
pub struct SetClock {
    pub moment: u32,
}

impl Clock for SetClock {
    ghost moment = { λ c. Some c.moment };

    fn now(&mut self) -> u32
        ensures told { result ≡ self.old.moment }
        ensures same { self.new ≡ self.old }
    {
        self.moment
    }
}
