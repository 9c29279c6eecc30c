//! An inbox and a dial behind a gate.

ghost use Rattle.std.specs.Prelude.{◌≡◌, ◌+◌, ◌≤◌, min};
ghost use Rattle.yp_io.specs.Counts.{last_count};
ghost use Rattle.yp_io.specs.Dials.{wire_state, GoesBack};

use crate::gate::{Holding, Kind};
use std::marker::Model;
use yp_io::{Dial, Failed, Inbox, Mail, Pair, Peer};

/// An inbox or a dial that tells a gate of its calls. It is seen as what is inside.
#[derive(Drop)]
pub struct Behind<'g, 'h, I> {
    inside: I,
    gate: &'g Holding<'h>,
}

impl<'g, 'h, I> Model for Behind<'g, 'h, I> {
    ghost Value = { I };

    ghost view = { λ b. b.inside };
}

impl<'g, 'h, I> Behind<'g, 'h, I> {
    pub fn new(inside: I, gate: &'g Holding<'h>) -> Behind<'g, 'h, I>
        ensures { result ≡ inside }
    {
        Behind { inside, gate }
    }

    /// The inbox or the dial inside.
    pub fn inside(&self) -> &I
        ensures { result.now ≡ self.now }
    {
        &self.inside
    }
}

impl<'g, 'h, I: Inbox> Inbox for Behind<'g, 'h, I> {
    ghost past = { I.past };

    ghost turns = { I.turns };

    ghost quiets = { I.quiets };

    ghost faults = { I.faults };

    fn next(&mut self, buf: &mut [u8]) -> Result<Mail, Failed> {
        self.gate.reach(Kind::Turn, 0);
        self.inside.next(buf)
    }

    fn send(&mut self, to: Peer, piece: &[u8]) -> Result<(), Failed> {
        self.gate.reach(Kind::Asked, 0);
        self.inside.send(to, piece)
    }
}

impl<'g, 'h, A: Dial> Dial for Behind<'g, 'h, A> {
    type In = A::In;

    type Out = A::Out;

    ghost past = { A.past };

    ghost letters = { A.letters };

    ghost faults = { A.faults };

    fn dial(&mut self, to: Peer) -> Result<Pair<A::In, A::Out>, Failed> {
        self.gate.reach(Kind::Dialed, 0);
        self.inside.dial(to)
    }

    fn post(&mut self, to: Peer, piece: &[u8]) -> Result<(), Failed> {
        self.inside.post(to, piece)
    }

    fn ask(&mut self, to: Peer, piece: &[u8], buf: &mut [u8]) -> Result<Option<usize>, Failed> {
        self.inside.ask(to, piece, buf)
    }

    fn back(&mut self, wire: Pair<A::In, A::Out>)
        ensures past { GoesBack
            (wire_state (A.In.input wire.source) (A.Out.output wire.sink) (A.Out.flushed wire.sink))
            (A.past self.old) (A.past self.new) }
        ensures letters { A.letters self.new ≡ A.letters self.old }
        ensures faults { min (A.faults self.old + A.In.faults wire.source + A.Out.faults wire.sink) last_count
            ≤ A.faults self.new }
    {
        self.inside.back(wire);
    }
}
