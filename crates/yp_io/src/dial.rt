//! Connections that are opened, and datagrams that are sent or ask.

ghost use Rattle.std.specs.Prelude.{◌≡◌, ℕ, ◌+◌, ◌≤◌, List, Option, length, min, IfSome, IfOk, OnOk, OnErr};
ghost use Rattle.yp_io.specs.Counts.{CountsFaults, last_count};
ghost use Rattle.yp_io.specs.Dials.{Wires, Sending, Posted, Asked, came_in, connected, wire_state};
ghost use Rattle.yp_io.specs.Dials.{WireComes, GoesBack, GainsItem, IsFresh};

use crate::stream::{Failed, Pair, Peer, Sink, Source};

/// A datagram that was sent.
#[derive(Debug, Drop)]
pub struct Letter {
    /// Where it was sent.
    pub peer: Peer,
    pub bytes: Vec<u8>,
}

/// What a dial sent.
#[derive(Debug, Drop)]
pub enum Sending {
    /// A datagram that was posted.
    Posted {
        letter: Letter,
    },
    /// A datagram that asked, and as much of the one that came back as there was room for, where one came.
    Asked {
        letter: Letter,
        answer: Option<Vec<u8>>,
    },
}

/// What opens connections to peers, and sends them datagrams.
pub trait Dial {
    type In: Source;

    type Out: Sink;

    ghost use Rattle.yp_io.specs.declared.stream.Peer.{Peer};

    /// Its wires, where they are told.
    ghost past: { Self → Option Wires };

    /// The datagrams that were sent, and what came back of those that asked, where they are told.
    ghost letters: { Self → Option (List Sending) };

    /// How often it has failed, and how often the wires that it got back, up to 2^64 - 1.
    ghost faults: { Self → ℕ };

    /// Opens a connection.
    fn dial(&mut self, to: Peer) -> Result<Pair<Self::In, Self::Out>, Failed>
        ensures fresh { IfOk result (λ wire.
            IsFresh (Self.In.faults wire.source) (Self.Out.faults wire.sink) (Self.Out.output wire.sink)) }
        ensures came { IfOk result (λ wire.
            WireComes (connected to (Self.In.input wire.source) (Self.Out.output wire.sink))
            (past self.old) (past self.new)) }
        ensures none { OnErr result (past self.new ≡ past self.old) }
        ensures letters { letters self.new ≡ letters self.old }
        ensures cause { CountsFaults (faults self.old) (faults self.new) result };

    /// Sends one datagram. After `Failed` none was sent.
    fn post(&mut self, to: Peer, piece: &[u8]) -> Result<(), Failed>
        ensures sent { OnOk result (GainsItem (Posted to piece.now) (letters self.old) (letters self.new)) }
        ensures none { OnErr result (letters self.new ≡ letters self.old) }
        ensures past { past self.new ≡ past self.old }
        ensures cause { CountsFaults (faults self.old) (faults self.new) result };

    /// Sends one datagram, and waits for one that comes back from that address and port, two seconds at most. So many
    /// bytes of it are in the buffer, where it lost what didn't fit; or none came in time, or the port is refused.
    /// After `Failed` none was sent.
    fn ask(&mut self, to: Peer, piece: &[u8], buf: &mut [u8]) -> Result<Option<usize>, Failed>
        ensures within { IfOk result (λ came. IfSome came (λ len. len ≤ length buf.new)) }
        ensures sent { IfOk result (λ came.
            GainsItem (Asked to piece.now (came_in buf.new came)) (letters self.old) (letters self.new)) }
        ensures none { OnErr result (letters self.new ≡ letters self.old) }
        ensures past { past self.new ≡ past self.old }
        ensures cause { CountsFaults (faults self.old) (faults self.new) result };

    /// Closes a wire, and counts its faults as its own.
    fn back(&mut self, wire: Pair<Self::In, Self::Out>)
        ensures past { GoesBack
            (wire_state (Self.In.input wire.source) (Self.Out.output wire.sink) (Self.Out.flushed wire.sink))
            (past self.old) (past self.new) }
        ensures letters { letters self.new ≡ letters self.old }
        ensures faults { min (faults self.old + Self.In.faults wire.source + Self.Out.faults wire.sink) last_count
            ≤ faults self.new };
}
