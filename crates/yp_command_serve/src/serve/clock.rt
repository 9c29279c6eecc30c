//! A clock that workers share.

ghost use Rattle.std.specs.Prelude.{◌≡◌, IfSome};

use std::marker::{Brand, Model, PhantomData};
use yp_io::Clock;

/// Which moment a clock tells. Each call of a program that shares a clock picks it.
pub(crate) trait ClockMoment {
    ghost use Rattle.std.specs.Prelude.{ℕ, Option};

    /// The moment, where it is told.
    ghost moment: { Option ℕ };
}

impl ClockMoment for Brand {
    ghost use Rattle.std.specs.Prelude.{None};

    ghost moment = { None };
}

/// A clock that goes on telling its moment, whoever uses it. It is seen as that clock.
#[derive(Drop)]
pub(crate) struct SharedClock<M: ClockMoment, C: Clock> {
    clock: C,
    of: PhantomData<M>,
}

impl<M: ClockMoment, C: Clock> Model for SharedClock<M, C> {
    ghost use Rattle.std.specs.Prelude.{◌≡◌};

    ghost Value = { C };

    ghost view = { λ c. c.clock };

    ghost invariant = { λ c. C.moment c.clock ≡ M.moment };
}

impl<M: ClockMoment, C: Clock> SharedClock<M, C> {
    /// A clock that tells this moment.
    pub(crate) fn new(clock: C) -> SharedClock<M, C>
        requires { C.moment clock ≡ M.moment }
        ensures { result ≡ clock }
    {
        SharedClock {
            clock,
            of: PhantomData,
        }
    }

    /// The clock, once nobody else uses it.
    pub(crate) fn into_clock(self) -> C
        ensures clock { result ≡ self }
        ensures moment { C.moment result ≡ M.moment }
    {
        self.clock
    }
}

impl<M: ClockMoment, C: Clock> Clock for SharedClock<M, C> {
    ghost moment = { λ _. M.moment };

    fn now(&mut self) -> u32 {
        self.clock.now()
    }
}
