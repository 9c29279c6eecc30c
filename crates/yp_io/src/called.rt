//! A connection and its caller.

ghost use Rattle.std.specs.Prelude.{◌≡◌};

use crate::{Pair, Peer};
use std::marker::Model;
use std::snapshot::Snapshot;

/// Who called by a connection, and, for contracts alone, the wire of the connection as it came. No call changes that.
#[derive(Drop)]
pub struct CallOrigin<S, K> {
    peer: Peer,
    wire: Snapshot<Pair<S, K>>,
}

impl<S, K> Model for CallOrigin<S, K> {
    ghost use Rattle.yp_io.specs.Callers.{CallerWire};

    ghost Value = { CallerWire S K };

    ghost view = { λ o. record { peer = o.peer; wire = o.wire.value } };
}

impl<S, K> CallOrigin<S, K> {
    /// The origin of a connection that comes with this wire.
    pub fn new(peer: Peer, wire: &Pair<S, K>) -> CallOrigin<S, K>
        ensures { result ≡ record { peer = peer; wire = wire.now } }
    {
        let wire = Snapshot::of(wire);
        CallOrigin { peer, wire }
    }

    /// Who called.
    pub fn peer(&self) -> Peer
        ensures { result ≡ self.now.peer }
    {
        self.peer
    }
}

/// A wire, and where it comes from.
#[derive(Drop)]
pub struct Called<S, K> {
    pub origin: CallOrigin<S, K>,
    pub wire: Pair<S, K>,
}
