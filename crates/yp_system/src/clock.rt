//! The clock of the system.

ghost use Rattle.std.specs.Prelude.{None};

use std::rt;
use std::time::{SystemTime, UNIX_EPOCH};
use yp_io::Clock;

/// The clock of the system, which tells nothing of its moments. One that can't be read, or is set before 1970, shows 0.
#[derive(Drop)]
pub struct SystemClock<R: rt::Clock + Drop> {
    clock: R,
}

impl<R: rt::Clock + Drop> SystemClock<R> {
    pub fn new(clock: R) -> SystemClock<R> {
        SystemClock { clock }
    }
}

impl<R: rt::Clock + Drop> Clock for SystemClock<R> {
    ghost moment = { λ _. None };

    fn now(&mut self) -> u32 {
        let Ok(time) = SystemTime::now(&self.clock) else {
            return 0;
        };
        match time.duration_since(UNIX_EPOCH) {
            Ok(since) => u32::try_from(since.as_secs()).unwrap_or(u32::MAX),
            Err(_) => 0,
        }
    }
}
