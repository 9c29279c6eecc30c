//! What a server of datagrams leaves for a carrier.

ghost use Rattle.std.specs.Prelude.{◌≡◌};
ghost use Rattle.yp_worker.specs.datagrams.Mailing.{Transfer, Call};
ghost use Rattle.yp_worker.specs.inside.Queues.{deferred_as};

use crate::Known;
use std::marker::Model;
use yp_answer::session::Errand;
use yp_io::Peer;

/// A call of a peer that isn't answered yet, with a front of what the host of its server knew.
#[derive(Drop)]
pub struct DeferredCall<F> {
    pub peer: Peer,
    pub message: Vec<u8>,
    pub front: F,
}

/// A transfer that was taken, for its caller, or a call that isn't answered yet.
#[derive(Drop)]
pub enum Work<F> {
    Transfer { errand: Errand, peer: Peer },
    Call(DeferredCall<F>),
}

/// What a server of datagrams leaves for a carrier.
#[derive(Drop)]
pub struct Deferred<F: Known> {
    work: Work<F>,
}

impl<F: Known> Model for Deferred<F> {
    ghost use Rattle.yp_worker.specs.datagrams.Mailing.{Deferred};
    ghost use Rattle.yp_worker.specs.inside.Queues.{deferred_as};

    ghost Value = { Deferred };

    ghost view = { λ d. deferred_as F.known d.work };
}

impl<F: Known> Deferred<F> {
    /// A transfer, for its caller.
    pub(crate) fn of_transfer(errand: Errand, peer: Peer) -> Deferred<F>
        ensures { result ≡ Transfer (errand, peer) }
    {
        Deferred {
            work: Work::Transfer { errand, peer },
        }
    }

    /// A call, with what is known.
    pub(crate) fn of_call(peer: Peer, message: Vec<u8>, front: F) -> Deferred<F>
        ensures { result ≡ Call peer message.items (F.known front) }
    {
        Deferred {
            work: Work::Call(DeferredCall {
                peer,
                message,
                front,
            }),
        }
    }

    /// What is to be done.
    pub(crate) fn into_work(self) -> Work<F>
        ensures { deferred_as F.known result ≡ self }
    {
        let Deferred { work } = self;
        work
    }
}
