//! A caller of a worker, and the conversation with it.

ghost use Rattle.std.specs.Prelude.{◌≡◌, [], true, false, None, length, IfSome};
ghost use Rattle.yp_answer.specs.session.Progress.{begun};
ghost use Rattle.yp_answer.specs.inside.session.Hosts.{conduct_by};
ghost use Rattle.yp_answer.specs.inside.session.Cuts.{ComesTo, awaited_in, cut_of};
ghost use Rattle.yp_answer.specs.inside.session.Errands.{IsDue};
ghost use Rattle.yp_worker.specs.inside.Guests.{WorksOn, long_work_in};

use crate::catch_up::CatchUp;
use crate::gate::Gate;
use crate::gated::Gated;
use crate::left::LongWork;
use std::alloc::Global;
use std::marker::Model;
use yp_answer::session::{Advance, Buffers, Conversation, Terms};
use yp_io::{Awaited, CallOrigin, Called, Pair, Peer, TrySink, TrySource};

/// A caller, and the conversation with it, behind a gate. Its number tells it from all others of its worker.
#[derive(Drop)]
pub struct Guest<S, K, G> {
    origin: CallOrigin<S, K>,
    number: u64,
    conversation: Conversation<S, Gated<K, G>>,
}

impl<S, K, G> Model for Guest<S, K, G> {
    ghost use Rattle.yp_worker.specs.inside.GuestStates.{GuestState};

    ghost Value = { GuestState S K };

    ghost view = { λ g. record { origin = g.origin; number = g.number; talk = g.conversation } };
}

impl<S, K, G> Guest<S, K, G> {
    /// Before the first record of a connection, which stands at the gate by this number.
    pub fn new(
        alloc: Global,
        number: u64,
        call: Called<S, K>,
        gate: G,
        connection: u64,
    ) -> Guest<S, K, G>
        ensures origin { result.origin ≡ call.origin }
        ensures number { result.number ≡ number }
        ensures talk { result.talk ≡ record {
          source = call.wire.source;
          sink = call.wire.sink;
          progress = begun;
          incoming = [];
          owed = [];
          stream = None;
          waiting = None;
          settled = true;
          broken = false;
        } }
    {
        let Called { origin, wire } = call;
        let Pair { source, sink } = wire;
        let sink = Gated::new(sink, gate, connection);
        Guest {
            origin,
            number,
            conversation: Conversation::new(alloc, Pair { source, sink }),
        }
    }

    /// Who called.
    pub fn peer(&self) -> Peer
        ensures { result ≡ self.now.origin.peer }
    {
        self.origin.peer()
    }

    /// How many of its records were read whole.
    pub fn calls(&self) -> u64
        ensures { result ≡ self.now.talk.progress.calls }
    {
        self.conversation.calls()
    }

    /// What it waits for, where its wire can't go on.
    pub fn awaited(&self) -> Awaited
        ensures { result ≡ awaited_in self.now.talk.settled self.now.talk.incoming }
    {
        self.conversation.awaited()
    }

    /// What takes long for it, where it can't go on before that.
    pub(crate) fn long_work(&self) -> LongWork
        ensures { result ≡ long_work_in self.now.talk.waiting }
    {
        if self.conversation.has_transfer() {
            LongWork::Transfers
        } else {
            LongWork::Makes
        }
    }

    /// Whether a record was read whole, or some of what is owed was taken, since this was asked last.
    pub fn take_moved(&mut self) -> bool
        ensures { self.new ≡ self.old }
    {
        self.conversation.take_moved()
    }

    /// What its records are read from.
    pub fn source(&self) -> &S
        ensures { result.now ≡ self.now.talk.source }
    {
        self.conversation.source()
    }

    /// Its number is this from now on.
    pub fn renumber(&mut self, number: u64)
        ensures { self.new ≡ record self.old { number = number } }
    {
        self.number = number;
    }

    /// The connection. What is owed to it is dropped.
    pub fn into_call(self) -> Called<S, K>
    where
        G: Drop,
        ensures origin { result.origin ≡ self.origin }
        ensures source { result.wire.source ≡ self.talk.source }
        ensures sink { result.wire.sink ≡ self.talk.sink }
    {
        let Guest {
            origin,
            number: _,
            conversation,
        } = self;
        let Pair { source, sink } = conversation.into_wire();
        Called {
            origin,
            wire: Pair {
                source,
                sink: sink.into_sink(),
            },
        }
    }
}

impl<S: TrySource, K: TrySink, G: Gate> Guest<S, K, G> {
    /// Goes on by at most so many steps. At most `most` of its records are answered, and what takes long is done where
    /// that is said.
    pub fn advance<H: CatchUp>(
        &mut self,
        host: &mut H,
        buffers: &mut Buffers,
        most: u64,
        carries: bool,
        steps: u32,
    ) -> Advance
        requires due { IfSome self.old.talk.waiting (IsDue (length (H.seen host.old).catalogue.maps)) }
        ensures works { WorksOn (conduct_by H.Host) H.counted S.TrySource K.TrySink
            (record { guest = self.old; host = host.old }) (record { guest = self.new; host = host.new }) }
        ensures comes_to { ComesTo self.new.origin.peer most result (cut_of S.TrySource K.TrySink self.new.talk) }
        ensures due { IfSome self.new.talk.waiting (IsDue (length (H.seen host.new).catalogue.maps)) }
    {
        let terms = Terms {
            peer: self.origin.peer(),
            most,
            carries,
        };
        self.conversation.advance(host, buffers, &terms, steps)
    }
}
