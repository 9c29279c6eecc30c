//! A guest between two workers.

ghost use Rattle.std.specs.Prelude.{◌≡◌};

use crate::guest::Guest;
use std::marker::Model;

/// A guest that a worker has left to the one that does what takes long, with a front of what the host of the worker
/// knew.
#[derive(Drop)]
pub struct Waiting<S, K, G, F> {
    pub(crate) guest: Guest<S, K, G>,
    pub(crate) front: F,
}

impl<S, K, G, F> Model for Waiting<S, K, G, F> {
    ghost use Rattle.yp_worker.specs.inside.GuestStates.{WaitingGuest};

    ghost Value = { WaitingGuest S K F };

    ghost view = { λ w. record { guest = w.guest; front = w.front } };
}

impl<S, K, G, F> Waiting<S, K, G, F> {
    /// A guest that is left so.
    pub(crate) fn new(guest: Guest<S, K, G>, front: F) -> Waiting<S, K, G, F>
        ensures { result ≡ record { guest = guest; front = front } }
    {
        Waiting { guest, front }
    }

    /// The guest, and that front.
    pub(crate) fn into_parts(self) -> (Guest<S, K, G>, F)
        ensures guest { result.0 ≡ self.guest }
        ensures front { result.1 ≡ self.front }
    {
        let Waiting { guest, front } = self;
        (guest, front)
    }
}
