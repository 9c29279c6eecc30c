//! What lies under the lock of a listener.

ghost use Rattle.std.specs.Prelude.{◌≡◌, ◌<◌, ◌≤◌, ◌+◌, [], length, false, true, ℕ, Some};
ghost use Rattle.std.specs.Prelude.{IfSome, IfNone, IfOk, OnOk, OnErr, is_some};
ghost use Rattle.slab.specs.Slab.{get};
ghost use Rattle.yp_io.specs.Counts.{capped};
ghost use Rattle.yp_io.specs.Hall.{try_halves_of};
ghost use Rattle.yp_answer.specs.inside.session.Hosts.{conduct_by};
ghost use Rattle.yp_worker.specs.Receptions.{IsListenerState, opening_by};
ghost use Rattle.yp_worker.specs.inside.Receptions.{Admits, IsExpectedCall, IsNotLeft, terms_by};
ghost use Rattle.yp_worker.specs.Summing.{SumsUp, counting_of};
ghost use Rattle.yp_worker.specs.inside.Summing.{HasEnded};
ghost use Rattle.yp_worker.specs.inside.Guests.{IsKept, IsWaiting};

use crate::catch_up::HandsOver;
use crate::guest::Guest;
use crate::left::{LeftGuests, LongWork};
use crate::tally::Tally;
use crate::waiting::Waiting;
use crate::worker::Worker;
use slab::Slab;
use std::alloc::Global;
use std::marker::{Brand, Model};
use std::sync::ledger::{Book, Ledger, Share};
use yp_io::{Called, Coming, Failed, Hall, Watch};
use yp_publisher::sharing::Site;

/// What every connection of a listener gets, and how the listener was before the first. Each call of a program that
/// shares a listener picks it.
pub trait Reception: Site + Ledger {
    ghost use Rattle.std.specs.Prelude.{ℕ};
    ghost use Rattle.yp_board.specs.Logs.{Log};
    ghost use Rattle.yp_worker.specs.Receptions.{ListenTells};

    /// What was shown before the first connection.
    ghost starts: { Log };

    /// The most records of one connection.
    ghost most: { ℕ };

    /// The listener before the first connection.
    ghost opening: { ListenTells };
}

impl Reception for Brand {
    ghost use Rattle.std.specs.Prelude.{[], None};

    ghost starts = { [] };

    ghost most = { 0 };

    ghost opening = { record { past = None; most = 0; accepted = 0; returned = 0; let_go = 0; faults = 0 } };
}

/// What a worker gets of a listener.
#[derive(Drop)]
pub enum Admission<S, K, G, F> {
    /// A connection, with its number, from 1.
    Came { call: Called<S, K>, connection: u64 },
    /// A guest that another worker has left.
    Left(Waiting<S, K, G, F>),
    /// None now.
    NotNow,
    /// None, since as many were accepted as are to be.
    Closed,
    /// None, since an accept has failed, this one or one before it, or a worker could have no watch.
    Failed,
}

/// What a worker holds of a listener, for contracts alone: how many connections it has out, and how often it ended.
#[derive(Drop)]
pub struct Pass<J: Ledger, E: Ledger> {
    out: Share<J>,
    ended: Share<E>,
}

impl<J: Ledger, E: Ledger> Model for Pass<J, E> {
    ghost use Rattle.std.specs.Prelude.{◌<◌};
    ghost use Rattle.yp_worker.specs.inside.Receptions.{Passed};

    ghost Value = { Passed };

    ghost view = { λ p. record { parts = p.out.parts; out = p.out.amount; ended = p.ended.amount } };

    ghost invariant = { λ p. (0 < p.out.parts) × (0 < p.ended.parts) };
}

impl<J: Ledger, E: Ledger> Pass<J, E> {
    /// A pass of these shares.
    pub fn new(out: Share<J>, ended: Share<E>) -> Pass<J, E>
        requires parts { (0 < out.parts) × (0 < ended.parts) }
        ensures { result ≡ record { parts = out.parts; out = out.amount; ended = ended.amount } }
    {
        Pass { out, ended }
    }

    /// Takes in what another worker holds, once that has ended.
    pub fn merge(&mut self, other: Pass<J, E>)
        ensures { self.new ≡ record {
          parts = self.old.parts + other.parts;
          out = self.old.out + other.out;
          ended = self.old.ended + other.ended;
        } }
    {
        let Pass { out, ended } = other;
        self.out.merge(out);
        self.ended.merge(ended);
    }

    /// The shares.
    pub fn into_shares(self) -> (Share<J>, Share<E>)
        ensures parts { result.0.parts ≡ self.parts }
        ensures some { (0 < result.0.parts) × (0 < result.1.parts) }
        ensures out { result.0.amount ≡ self.out }
        ensures ended { result.1.amount ≡ self.ended }
    {
        let Pass { out, ended } = self;
        (out, ended)
    }
}

/// The books of a listener: of the connections that are out, with the share for those that wait between two workers,
/// and of the workers that have ended.
#[derive(Drop)]
pub struct ListenerBooks<J: Ledger, E: Ledger> {
    pub out: Book<J>,
    pub held: Share<J>,
    pub ended: Book<E>,
}

/// A listener, what workers that have ended did with its connections, the guests that they have left to those that do
/// what takes long, and the sum of what was counted in them, with a log of which each was answered on a front.
#[derive(Drop)]
pub struct Listening<J: Reception, E: Ledger, H: HandsOver, L: Hall, G> {
    listen: L,
    connections: u64,
    calls: u64,
    failed: bool,
    out: Book<J>,
    ended: Book<E>,
    sum: H::Sum,
    left: LeftGuests<J, H, L, G>,
    held: Share<J>,
    workers: u32,
}

impl<J: Reception, E: Ledger, H: HandsOver, L: Hall, G> Model for Listening<J, E, H, L, G> {
    ghost use Rattle.yp_answer.specs.session.Hosts.{conduct_of};
    ghost use Rattle.yp_worker.specs.Receptions.{opening_by, terms_of};
    ghost use Rattle.yp_worker.specs.Summing.{counting_of};
    ghost use Rattle.yp_worker.specs.inside.Receptions.{ListenerState};
    ghost use Rattle.yp_worker.specs.inside.Listenings.{IsListening};

    ghost Value = { ListenerState L };

    ghost view = { λ l. record {
      listen = l.listen;
      connections = l.connections;
      calls = l.calls;
      failed = l.failed;
      out = l.out.total;
      ended = l.ended.total;
      waiting = l.left;
    } };

    ghost invariant = { λ l. IsListening (conduct_of H.seen H.told H.counts H.stepped H.made H.carried)
        (counting_of H.counted H.none H.plus) (terms_of J.catalogue J.starts J.most) J.opening (record {
          listen = opening_by L.Hall l.listen;
          connections = l.connections;
          failed = l.failed;
          out = l.out.total;
          ended = l.ended.total;
          totals = record { calls = l.calls; sum = H.summed l.sum; reached = H.reached l.sum };
          waiting = l.left;
          held = l.held.amount;
          held_parts = l.held.parts;
        }) };
}

impl<J: Reception, E: Ledger, H: HandsOver, L: Hall, G> Listening<J, E, H, L, G> {
    /// A listener before its first connection. So many workers will leave to others what takes long. While one of them
    /// hasn't ended, those others accept nothing.
    pub fn new(
        alloc: Global,
        listen: L,
        books: ListenerBooks<J, E>,
        sum: H::Sum,
        workers: u32,
    ) -> Listening<J, E, H, L, G>
        requires held { (books.held.parts ≡ 1) × (books.held.amount ≡ 0) }
        requires opening { opening_by L.Hall listen ≡ J.opening }
        requires none_out { books.out.total ≡ 0 }
        requires none_ended { books.ended.total ≡ 0 }
        requires none_counted { H.summed sum ≡ H.none }
        ensures { result ≡ record {
          listen = listen;
          connections = 0;
          calls = 0;
          failed = false;
          out = 0;
          ended = 0;
          waiting = 0;
        } }
    {
        let ListenerBooks { out, held, ended } = books;
        Listening {
            listen,
            connections: 0,
            calls: 0,
            failed: false,
            out,
            ended,
            sum,
            left: LeftGuests::new(alloc),
            held,
            workers,
        }
    }

    /// Takes the guest that has waited longest for this work, where one waits.
    fn hand_on(
        &mut self,
        pass: &mut Pass<J, E>,
        work: LongWork,
    ) -> Option<Waiting<L::In, L::Out, G, H::Front>>
        ensures waits { IfSome result (IsWaiting L.In.TrySource L.Out.TrySink (conduct_by H.Host)
            (counting_of H.counted H.none H.plus) (terms_by J.Reception) J.opening.past H.Front.known) }
        ensures out { IfSome result (λ _. pass.new ≡ record pass.old { out = pass.old.out + 1 }) }
        ensures none { IfNone result (pass.new ≡ pass.old) }
    {
        let waiting = self.left.take(work)?;
        self.held.transfer(&mut pass.out, 1);
        Some(waiting)
    }

    /// Takes the next guest that a worker left, for one who does such work. While there are none and workers haven't
    /// ended, it is told to come again. Then it takes those that wait for other work, too, and then, as other workers
    /// do, the next connection, where one is there and nothing has failed before.
    pub(crate) fn admit(
        &mut self,
        pass: &mut Pass<J, E>,
        work: Option<LongWork>,
    ) -> Admission<L::In, L::Out, G, H::Front>
        ensures admits { Admits (IsExpectedCall (try_halves_of L.In.TrySource L.Out.TrySink) J.opening.past)
            (IsWaiting L.In.TrySource L.Out.TrySink (conduct_by H.Host) (counting_of H.counted H.none H.plus)
            (terms_by J.Reception) J.opening.past H.Front.known) result pass.old pass.new }
        ensures idle { is_some work ≡ false → IsNotLeft result }
    {
        let Some(work) = work else {
            return self.accept(pass);
        };
        if let Some(waiting) = self.hand_on(pass, work) {
            return Admission::Left(waiting);
        }
        if self.workers > 0 {
            return Admission::NotNow;
        }
        if let Some(waiting) = self.hand_on(pass, work.other()) {
            return Admission::Left(waiting);
        }
        self.accept(pass)
    }

    /// Keeps the guest at a key for one who does what takes long, where that one can be woken and there is memory.
    pub(crate) fn keep(
        &mut self,
        pass: &mut Pass<J, E>,
        guests: &mut Slab<Guest<L::In, L::Out, G>>,
        key: usize,
        front: H::Front,
    ) -> bool
        requires out { IfSome (get guests.old key) (λ _. 0 < pass.old.out) }
        requires waits { IfSome (get guests.old key) (λ guest. IsWaiting L.In.TrySource L.Out.TrySink
            (conduct_by H.Host) (counting_of H.counted H.none H.plus) (terms_by J.Reception) J.opening.past
            H.Front.known (record { guest = guest; front = front })) }
        ensures kept { result ≡ true → IsKept key guests.old guests.new pass.old pass.new }
        ensures same { result ≡ false → (guests.new ≡ guests.old) × (pass.new ≡ pass.old) }
    {
        if !self.left.keep(guests, key, front) {
            return false;
        }
        pass.out.transfer(&mut self.held, 1);
        true
    }

    /// Accepts the next connection where one is there, and nothing has failed before.
    fn accept(&mut self, pass: &mut Pass<J, E>) -> Admission<L::In, L::Out, G, H::Front>
        ensures admits { Admits (IsExpectedCall (try_halves_of L.In.TrySource L.Out.TrySink) J.opening.past)
            (IsWaiting L.In.TrySource L.Out.TrySink (conduct_by H.Host) (counting_of H.counted H.none H.plus)
            (terms_by J.Reception) J.opening.past H.Front.known) result pass.old pass.new }
        ensures idle { IsNotLeft result }
    {
        if self.failed {
            self.ended.add(&mut pass.ended, 1);
            return Admission::Failed;
        }
        match self.listen.try_accept() {
            Ok(Coming::Came(call)) => {
                self.out.add(&mut pass.out, 1);
                self.connections = self.connections.saturating_add(1);
                let connection = self.connections;
                Admission::Came { call, connection }
            }
            Ok(Coming::NotNow) => Admission::NotNow,
            Ok(Coming::Closed) => {
                self.ended.add(&mut pass.ended, 1);
                Admission::Closed
            }
            Err(Failed) => {
                self.ended.add(&mut pass.ended, 1);
                self.failed = true;
                Admission::Failed
            }
        }
    }

    /// What a worker closes its connections by, and what watches them, and the door but for one who does what takes
    /// long. Where it can't have that, the worker has ended.
    pub(crate) fn begin(
        &mut self,
        pass: &mut Pass<J, E>,
        work: Option<LongWork>,
    ) -> Result<(L::Closer, L::Watch), Failed>
        ensures closed { IfOk result (λ begun. IfSome J.opening.past (λ _. L.closed begun.0 ≡ Some [])) }
        ensures count { IfOk result (λ begun. L.closed_count begun.0 ≡ 0) }
        ensures let_go { IfOk result (λ begun. L.Watch.Watch.let_go begun.1 ≡ 0) }
        ensures same { OnOk result (pass.new ≡ pass.old) }
        ensures ended { OnErr result (pass.new ≡ record pass.old { ended = pass.old.ended + 1 }) }
    {
        match self.listen.watch(work.is_none()) {
            Ok(watch) => {
                self.left.attend(work, &watch);
                Ok((self.listen.closer(), watch))
            }
            Err(Failed) => {
                forget(&mut self.workers, &self.left, work);
                self.ended.add(&mut pass.ended, 1);
                self.failed = true;
                Err(Failed)
            }
        }
    }

    /// Takes in the closer and the watch of a worker that has ended, with what it counted: so many connections, and so
    /// many of their records.
    pub(crate) fn retire(
        &mut self,
        pass: &mut Pass<J, E>,
        closer: L::Closer,
        watch: L::Watch,
        tally: &Tally,
        worker: &mut Worker<H, G>,
    )
        requires out { tally.now.connections ≤ pass.old.out }
        requires served { HasEnded (conduct_by H.Host) (counting_of H.counted H.none H.plus)
            (terms_by J.Reception) J.opening.past worker.old (record {
              tally = tally.now;
              closed = L.closed closer;
              closed_count = L.closed_count closer;
              let_go = L.Watch.Watch.let_go watch;
            }) }
        ensures out { pass.new.out + tally.now.connections ≡ pass.old.out }
        ensures same { pass.new ≡ record pass.old { out = pass.new.out } }
        ensures seen { H.seen worker.new.host ≡ H.seen worker.old.host }
        ensures worker { worker.new ≡ record worker.old { host = worker.new.host } }
        ensures none { H.counted worker.new.host ≡ H.none }
    {
        forget(&mut self.workers, &self.left, worker.work);
        self.out.sub(&mut pass.out, tally.connections);
        self.calls = self.calls.saturating_add(tally.calls);
        worker.hand_over(&mut self.sum);
        self.listen.take_in(closer);
        self.listen.end(watch);
    }

    /// Whether no guest waits for a worker.
    pub fn is_drained(&self) -> bool
        ensures { result ≡ true → self.now.waiting ≡ 0 }
    {
        self.left.is_empty()
    }

    /// The listener, once all its workers have ended and been joined and no guest waits for one, with how many
    /// connections came, how many of their records were read, and whether an accept or a watch has failed, and the sum
    /// of what the workers counted.
    pub fn close(self, pass: &mut Pass<J, E>) -> (L, Tally, H::Sum)
    where
        G: Drop,
        requires all { pass.old.parts + 1 ≡ J.parts }
        requires drained { self.waiting ≡ 0 }
        requires none_out { pass.old.out ≡ 0 }
        requires ended { 0 < pass.old.ended }
        ensures kept { IsListenerState J.opening (opening_by L.Hall result.0) result.1.connections
            result.1.listen_fault 0 1 }
        ensures summed { SumsUp (conduct_by H.Host) (counting_of H.counted H.none H.plus) (terms_by J.Reception)
            J.opening (opening_by L.Hall result.0) (record {
              calls = result.1.calls;
              sum = H.summed result.2;
              reached = H.reached result.2;
            }) }
        ensures same { pass.new ≡ record pass.old { parts = J.parts } }
    {
        let Listening {
            listen,
            connections,
            calls,
            failed,
            mut out,
            mut ended,
            sum,
            left: _,
            held,
            workers: _,
        } = self;
        pass.out.merge(held);
        out.audit(&mut pass.out);
        ended.audit(&mut pass.ended);
        let tally = Tally {
            connections,
            calls,
            listen_fault: failed,
        };
        (listen, tally, sum)
    }
}

/// A worker has ended. Where it was one that leaves guests, those who do what takes long look whether none does any
/// more.
fn forget<J: Reception, H: HandsOver, L: Hall, G>(
    workers: &mut u32,
    left: &LeftGuests<J, H, L, G>,
    work: Option<LongWork>,
) {
    if work.is_none() {
        *workers = workers.saturating_sub(1);
        left.wake_all();
    }
}
