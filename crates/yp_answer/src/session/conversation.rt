//! A conversation over a wire that is never waited for.
//!
//! It goes on as far as its wire can, and no further: what came and isn't a whole record yet is kept, and so is what
//! its sink doesn't take yet. Records that came together are answered together, but nothing more is read, and no
//! transfer is carried out, before the replies to all of them are out. What happens between two moments stands on
//! [`Conversation::advance`], and what all of that comes to on the cuts that it speaks of.

ghost use Rattle.std.specs.Prelude.{◌≡◌, ◌≢◌, [], true, false, None, Some, ℕ, length, take, IfSome, is_some};
ghost use Rattle.yp_io.specs.declared.stream.Peer.{Peer};
ghost use Rattle.yp_rpc.specs.Records.{IsUnfinished};
ghost use Rattle.yp_rpc.specs.inside.Incoming.{BeginsWith};
ghost use Rattle.yp_rpc.specs.declared.record.incoming.First.TheVariants.{Whole};
ghost use Rattle.yp_answer.specs.Numbers.{record_max};
ghost use Rattle.yp_answer.specs.session.Progress.{begun};
ghost use Rattle.yp_answer.specs.inside.session.Hosts.{conduct_by};
ghost use Rattle.yp_answer.specs.inside.session.Errands.{IsDue};
ghost use Rattle.yp_answer.specs.declared.procedure.Path.TheVariants.{Stream};
ghost use Rattle.yp_answer.specs.session.Makes.{may_make};
ghost use Rattle.yp_answer.specs.session.Cuts.{IsAtRest};
ghost use Rattle.yp_answer.specs.inside.session.Cuts.{ComesTo, Follows, FollowsRead, GoesOn, awaited_in, cut_of, talking};

use crate::session::buffers::Buffers;
use crate::session::errand::Errand;
use crate::session::host::Host;
use crate::session::makes::may_make;
use crate::session::open::{OpenReply, put_piece};
use crate::session::put::{Request, put_reply};
use crate::session::session::{CALLS_MAX, End};
use crate::{Path, RECORD_MAX};
use std::alloc::Global;
use std::marker::Model;
use std::mem;
use yp_io::{Awaited, Failed, Pair, Peer, TrySink, TrySource};
use yp_rpc::{First, Incoming, Outgoing, Payment};

/// The most bytes that are owed before a further record is answered.
const OWED_MAX: usize = 65_536;

/// What came of going on.
#[derive(Clone, Copy, Debug, PartialEq, Eq)]
pub enum Advance {
    /// It went on, and may go on at once.
    Moved,
    /// It can't go on before its wire can.
    Waits,
    /// It can't go on before a transfer is carried out or a map may be made, which whoever called it leaves to another.
    TakesLong,
    /// It is over.
    Ended(End),
    /// It is over, since memory ran out in a reply.
    NoMemory,
}

/// How a conversation goes on.
#[derive(Clone, Copy)]
pub struct Terms {
    /// The peer that called.
    pub peer: Peer,
    /// The most records that are answered.
    pub most: u64,
    /// Whether transfers are carried out, and records taken that maps may be made for.
    pub carries: bool,
}

/// A conversation: its wire, what came and what is owed, and how far its records were read.
#[derive(Drop)]
pub struct Conversation<S, K> {
    source: S,
    outgoing: Outgoing<K>,
    incoming: Incoming,
    stream: Option<OpenReply>,
    errand: Option<Errand>,
    place: u64,
    calls: u64,
    is_settled: bool,
    is_broken: bool,
    has_moved: bool,
}

impl<S, K> Model for Conversation<S, K> {
    ghost use Rattle.std.specs.Prelude.{◌≡◌, [], true, false, None, IfSome};
    ghost use Rattle.yp_answer.specs.inside.session.Cuts.{Talk, IsBegun};

    ghost Value = { Talk S K };

    ghost view = { λ c. record {
      source = c.source;
      sink = c.outgoing.sink;
      progress = record { place = c.place; calls = c.calls };
      incoming = c.incoming;
      owed = c.outgoing.owed;
      stream = c.stream;
      waiting = c.errand;
      settled = c.is_settled;
      broken = c.is_broken;
    } };

    ghost invariant = { λ c. IfSome c.stream IsBegun
        × (c.is_settled ≡ true → (c.outgoing.owed ≡ []) × (c.stream ≡ None) × (c.is_broken ≡ false)) };
}

impl<S, K> Conversation<S, K> {
    /// Before the first record of a wire.
    pub fn new(alloc: Global, wire: Pair<S, K>) -> Conversation<S, K>
        ensures { result ≡ record {
          source = wire.source;
          sink = wire.sink;
          progress = begun;
          incoming = [];
          owed = [];
          stream = None;
          waiting = None;
          settled = true;
          broken = false;
        } }
    {
        let Pair { source, sink } = wire;
        Conversation {
            source,
            outgoing: Outgoing::new(alloc, sink),
            incoming: Incoming::new(alloc),
            stream: None,
            errand: None,
            place: 0,
            calls: 0,
            is_settled: true,
            is_broken: false,
            has_moved: false,
        }
    }

    /// How many records were read whole.
    pub fn calls(&self) -> u64
        ensures { result ≡ self.now.progress.calls }
    {
        self.calls
    }

    /// What its records are read from.
    pub fn source(&self) -> &S
        ensures { result.now ≡ self.now.source }
    {
        &self.source
    }

    /// What it waits for, where its wire can't go on.
    pub fn awaited(&self) -> Awaited
        ensures { result ≡ awaited_in self.now.settled self.now.incoming }
    {
        if !self.is_settled {
            Awaited::Payment
        } else if self.incoming.len() == 0 {
            Awaited::Record
        } else {
            Awaited::Rest
        }
    }

    /// Whether a transfer waits until what is owed before it is paid, or until it is carried out.
    pub fn has_transfer(&self) -> bool
        ensures { result ≡ is_some self.now.waiting }
    {
        self.errand.is_some()
    }

    /// Whether a record was read whole, or some of what is owed was taken, since this was asked last.
    pub fn take_moved(&mut self) -> bool
        ensures { self.new ≡ self.old }
    {
        mem::take(&mut self.has_moved)
    }

    /// The wire. What is owed to it is dropped.
    pub fn into_wire(self) -> Pair<S, K>
        ensures source { result.source ≡ self.source }
        ensures sink { result.sink ≡ self.sink }
    {
        let Conversation {
            source,
            outgoing,
            incoming: _,
            stream: _,
            errand: _,
            place: _,
            calls: _,
            is_settled: _,
            is_broken: _,
            has_moved: _,
        } = self;
        Pair {
            source,
            sink: outgoing.into_sink(),
        }
    }
}

impl<S: TrySource, K: TrySink> Conversation<S, K> {
    /// Goes on by at most so many steps: a record that is answered, a read, a write, or a transfer. While a reply is
    /// open it goes on by one, so that a long reply leaves others their turn.
    pub fn advance<H: Host>(
        &mut self,
        host: &mut H,
        buffers: &mut Buffers,
        terms: &Terms,
        steps: u32,
    ) -> Advance
        requires due { IfSome self.old.waiting (IsDue (length (H.seen host.old).catalogue.maps)) }
        ensures goes { GoesOn (conduct_by H.Host) terms.now.peer terms.now.carries
            (talking host.old (cut_of S.TrySource K.TrySink self.old))
            (talking host.new (cut_of S.TrySource K.TrySink self.new)) }
        ensures comes_to { ComesTo terms.now.peer terms.now.most result (cut_of S.TrySource K.TrySink self.new) }
        ensures due { IfSome self.new.waiting (IsDue (length (H.seen host.new).catalogue.maps)) }
    {
        for _ in 0..steps {
            match self.step(host, buffers, terms) {
                Advance::Moved => {}
                other => return other,
            }
            if self.stream.is_some() {
                return Advance::Moved;
            }
        }
        Advance::Moved
    }

    /// Goes on by one step.
    fn step<H: Host>(&mut self, host: &mut H, buffers: &mut Buffers, terms: &Terms) -> Advance
        requires due { IfSome self.old.waiting (IsDue (length (H.seen host.old).catalogue.maps)) }
        ensures goes { GoesOn (conduct_by H.Host) terms.now.peer terms.now.carries
            (talking host.old (cut_of S.TrySource K.TrySink self.old))
            (talking host.new (cut_of S.TrySource K.TrySink self.new)) }
        ensures comes_to { ComesTo terms.now.peer terms.now.most result (cut_of S.TrySource K.TrySink self.new) }
        ensures due { IfSome self.new.waiting (IsDue (length (H.seen host.new).catalogue.maps)) }
    {
        if self.is_broken {
            return Advance::NoMemory;
        }
        if self.stream.is_some() {
            return self.go_on(buffers);
        }
        if self.errand.is_some() {
            if !self.is_settled {
                return self.pay();
            }
            if !terms.carries {
                return Advance::TakesLong;
            }
            self.carry_out(host, terms);
            return Advance::Moved;
        }
        if self.outgoing.len() >= OWED_MAX {
            return self.pay();
        }
        self.take(host, buffers, terms)
    }

    /// Goes on with the reply that is open: pays what is owed, and then puts its next piece.
    fn go_on(&mut self, buffers: &mut Buffers) -> Advance
        requires sound { self.old.broken ≡ false }
        requires unpaid { self.old.settled ≡ false }
        ensures follows { Follows [] (cut_of S.TrySource K.TrySink self.old) (cut_of S.TrySource K.TrySink self.new) }
        ensures comes_to { (peer : Peer) (most : ℕ) → ComesTo peer most result (cut_of S.TrySource K.TrySink self.new) }
        ensures waiting { self.new.waiting ≡ self.old.waiting }
    {
        if self.outgoing.len() > 0 {
            return self.pay();
        }
        self.outgoing.hold(false);
        let put = put_piece(&mut self.stream, &mut self.outgoing, &mut buffers.reply);
        self.is_broken = put.is_err();
        Advance::Moved
    }

    /// Pays some of what is owed, or has the sink pass on what it took.
    fn pay(&mut self) -> Advance
        requires sound { self.old.broken ≡ false }
        requires unpaid { self.old.settled ≡ false }
        ensures follows { Follows [] (cut_of S.TrySource K.TrySink self.old) (cut_of S.TrySource K.TrySink self.new) }
        ensures comes_to { (peer : Peer) (most : ℕ) → ComesTo peer most result (cut_of S.TrySource K.TrySink self.new) }
        ensures waiting { self.new.waiting ≡ self.old.waiting }
    {
        match self.outgoing.pay() {
            Ok(Payment::Whole) => {
                self.has_moved = true;
                self.is_settled = self.stream.is_none();
                Advance::Moved
            }
            Ok(Payment::Part) => {
                self.has_moved = true;
                Advance::Moved
            }
            Ok(Payment::NotNow) => Advance::Waits,
            Err(Failed) => Advance::Ended(End::WriteFault),
        }
    }

    /// Carries out the transfer that waits.
    fn carry_out<H: Host>(&mut self, host: &mut H, terms: &Terms)
        requires carries { terms.now.carries ≡ true }
        requires settled { self.old.settled ≡ true }
        requires waits { self.old.waiting ≢ None }
        requires due { IfSome self.old.waiting (IsDue (length (H.seen host.old).catalogue.maps)) }
        ensures goes { GoesOn (conduct_by H.Host) terms.now.peer terms.now.carries
            (talking host.old (cut_of S.TrySource K.TrySink self.old))
            (talking host.new (cut_of S.TrySource K.TrySink self.new)) }
        ensures waiting { self.new.waiting ≡ None }
    {
        let Some(errand) = self.errand.take() else {
            unreachable!()
        };
        host.transfer(&errand.job(), terms.peer);
    }

    /// Answers the next record where all of it came, and else pays what is owed, or reads on.
    fn take<H: Host>(&mut self, host: &mut H, buffers: &mut Buffers, terms: &Terms) -> Advance
        requires sound { self.old.broken ≡ false }
        requires whole { self.old.stream ≡ None }
        requires free { self.old.waiting ≡ None }
        ensures goes { GoesOn (conduct_by H.Host) terms.now.peer terms.now.carries
            (talking host.old (cut_of S.TrySource K.TrySink self.old))
            (talking host.new (cut_of S.TrySource K.TrySink self.new)) }
        ensures comes_to { ComesTo terms.now.peer terms.now.most result (cut_of S.TrySource K.TrySink self.new) }
        ensures due { IfSome self.new.waiting (IsDue (length (H.seen host.new).catalogue.maps)) }
    {
        if self.calls == terms.most {
            return self.rest(Advance::Ended(End::Enough));
        }
        match self.incoming.first(&mut buffers.call) {
            First::Whole { len, spelled } => {
                if !terms.carries && may_make(&Path::Stream, terms.peer, &buffers.call[..len]) {
                    return self.rest(Advance::TakesLong);
                }
                self.answer(host, buffers, terms, len, spelled);
                Advance::Moved
            }
            First::Part => self.read(),
            First::TooLong => {
                let at = self.place;
                self.rest(Advance::Ended(End::TooLong { at }))
            }
        }
    }

    /// Answers a whole record, which stands in the buffer, and takes its bytes away.
    fn answer<H: Host>(
        &mut self,
        host: &mut H,
        buffers: &mut Buffers,
        terms: &Terms,
        len: usize,
        spelled: usize,
    )
        requires sound { self.old.broken ≡ false }
        requires whole { self.old.stream ≡ None }
        requires free { self.old.waiting ≡ None }
        requires record { BeginsWith record_max (Whole len spelled) self.old.incoming buffers.old }
        requires brief { terms.now.carries ≡ false → may_make Stream terms.now.peer (take len buffers.old) ≡ false }
        ensures goes { GoesOn (conduct_by H.Host) terms.now.peer terms.now.carries
            (talking host.old (cut_of S.TrySource K.TrySink self.old))
            (talking host.new (cut_of S.TrySource K.TrySink self.new)) }
        ensures due { IfSome self.new.waiting (IsDue (length (H.seen host.new).catalogue.maps)) }
    {
        self.outgoing.hold(self.incoming.len() > spelled);
        let request = Request {
            message: &buffers.call[..len],
            peer: terms.peer,
        };
        let put = put_reply(
            buffers.alloc,
            &mut buffers.writer,
            &mut self.outgoing,
            host,
            &request,
            &mut buffers.reply,
        );
        self.incoming.pass(spelled);
        self.place = self.place.saturating_add(spelled as u64);
        self.calls = self.calls.saturating_add(1);
        self.has_moved = true;
        self.is_settled = false;
        self.is_broken = put.is_broken;
        self.stream = put.stream;
        self.errand = put.errand;
    }

    /// Pays what is owed, and reads on where nothing is.
    fn read(&mut self) -> Advance
        requires sound { self.old.broken ≡ false }
        requires whole { self.old.stream ≡ None }
        requires free { self.old.waiting ≡ None }
        requires unfinished { IsUnfinished record_max self.old.incoming }
        ensures follows { FollowsRead (cut_of S.TrySource K.TrySink self.old) (cut_of S.TrySource K.TrySink self.new) }
        ensures comes_to { (peer : Peer) (most : ℕ) → ComesTo peer most result (cut_of S.TrySource K.TrySink self.new) }
        ensures waiting { self.new.waiting ≡ None }
    {
        if !self.is_settled {
            return self.pay();
        }
        match self.incoming.fill(&mut self.source) {
            Ok(None) => Advance::Waits,
            Ok(Some(0)) => Advance::Ended(if self.incoming.len() == 0 {
                End::Clean
            } else {
                End::Torn { at: self.place }
            }),
            Ok(Some(_)) => Advance::Moved,
            Err(Failed) => Advance::Ended(End::ReadFault),
        }
    }

    /// Pays what is owed, and comes to that where nothing is.
    fn rest(&mut self, advance: Advance) -> Advance
        requires sound { self.old.broken ≡ false }
        requires whole { self.old.stream ≡ None }
        requires free { self.old.waiting ≡ None }
        ensures follows { Follows [] (cut_of S.TrySource K.TrySink self.old) (cut_of S.TrySource K.TrySink self.new) }
        ensures comes_to { (peer : Peer) (most : ℕ)
            → (IsAtRest (cut_of S.TrySource K.TrySink self.old)
            → ComesTo peer most advance (cut_of S.TrySource K.TrySink self.old))
            → ComesTo peer most result (cut_of S.TrySource K.TrySink self.new) }
        ensures waiting { self.new.waiting ≡ None }
    {
        if !self.is_settled {
            return self.pay();
        }
        advance
    }
}
