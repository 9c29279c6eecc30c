//! What servers of datagrams leave, until a carrier does it.

ghost use Rattle.std.specs.Prelude.{◌≡◌, ◌+◌, ◌<◌, ◌≤◌, [], ◌∷◌, length, IfOk, IfSome, IfNone, MatchResult};
ghost use Rattle.yp_worker.specs.datagrams.Mailing.{held_behind, nothing_held};
ghost use Rattle.yp_worker.specs.datagrams.Queues.{WeighTheSame};
ghost use Rattle.yp_worker.specs.inside.Queues.{IsReady, all_parts};

use crate::Known;
use crate::datagrams::arrivals::Arrivals;
use crate::datagrams::deferred::Deferred;
use crossbeam_queue::protocol::{Join, Lesson, Outcome, Protocol, Split};
use crossbeam_queue::{Pass, RuledArrayQueue};
use std::alloc::Global;
use std::marker::{Model, PhantomData};
use std::sync::Wait;
use yp_io::NoMemory;
use yp_publisher::sharing::Site;

/// The most that waits.
const PENDING_MAX: usize = 64;

/// What a pass knows: its parts of the right to know the whole of the queue, what was left through it, and what was
/// taken over through it. It stands in contracts alone, and no value of it is made.
pub struct Dealt {
    parts: u64,
}

impl Model for Dealt {
    ghost use Rattle.std.specs.Prelude.{[]};
    ghost use Rattle.yp_worker.specs.inside.Queues.{Dealt, dealt};

    ghost Value = { Dealt };

    ghost view = { λ d. dealt d.parts [] [] };
}

/// The rule of the queue: what was left there is what was taken over from there and what waits.
pub struct Fair<J> {
    site: PhantomData<J>,
}

impl<J: Site, F: Known> Protocol<Deferred<F>, Dealt> for Fair<J> {
    ghost use Rattle.std.specs.Prelude.{length};
    ghost use Rattle.yp_worker.specs.inside.Queues.{IsFair, dealt_all};

    ghost holds = { IsFair (length J.catalogue.maps) };

    ghost first = { dealt_all };
}

/// How passes are cut and put together.
struct Parts;

impl Split<Dealt> for Parts {
    ghost use Rattle.std.specs.Prelude.{◌-◌, []};
    ghost use Rattle.yp_worker.specs.inside.Queues.{dealt};

    ghost left = { λ v. dealt (v.parts - 1) v.left v.took };

    ghost right = { λ v. dealt 1 [] [] };
}

impl Join<Dealt> for Parts {
    ghost use Rattle.std.specs.Prelude.{◌+◌, ◌++◌, []};
    ghost use Rattle.yp_worker.specs.inside.Queues.{dealt};

    ghost both = { λ v w. dealt (v.parts + w.parts) (v.left ++ w.left) (v.took ++ w.took) };

    ghost spent = { dealt 0 [] [] };
}

/// One more is left.
struct Leaving;

impl<F: Known> Outcome<Deferred<F>, Dealt> for Leaving {
    ghost use Rattle.yp_worker.specs.inside.Queues.{Leaves};

    ghost then = { Leaves };
}

impl<F: Known> Lesson<Deferred<F>, Dealt> for Leaving {
    ghost use Rattle.std.specs.Prelude.{⊤};

    ghost fact = { λ v items. ⊤ };
}

/// One is taken over.
struct TakingOver<J> {
    site: PhantomData<J>,
}

impl<J: Site, F: Known> Outcome<Deferred<F>, Dealt> for TakingOver<J> {
    ghost use Rattle.std.specs.Prelude.{length};
    ghost use Rattle.yp_worker.specs.inside.Queues.{TakesOver};

    ghost then = { TakesOver (length J.catalogue.maps) };
}

impl<J: Site, F: Known> Lesson<Deferred<F>, Dealt> for TakingOver<J> {
    ghost use Rattle.yp_worker.specs.inside.Queues.{Balances};

    ghost fact = { Balances };
}

/// What a server or a carrier holds of the queue: its parts, what it left there, and what it took over from there, for
/// contracts alone.
#[derive(Drop)]
pub struct DeferredPass<F: Known> {
    pass: Pass<Deferred<F>, Dealt>,
}

impl<F: Known> Model for DeferredPass<F> {
    ghost use Rattle.std.specs.Prelude.{◌≡◌, ◌<◌, []};
    ghost use Rattle.crossbeam_queue.specs.Passes.{view as known};
    ghost use Rattle.yp_worker.specs.datagrams.Mailing.{Holding};

    ghost Value = { Holding };

    ghost view = { λ p. record {
      queue = p.pass.table_id;
      parts = (known p.pass).parts;
      left = (known p.pass).left;
      took = (known p.pass).took;
    } };

    ghost invariant = { λ p. (0 < (known p.pass).parts) × (p.pass.me.1 ≡ []) };
}

/// What servers of datagrams left for a carrier and that isn't done yet, oldest first, and where the carrier is told of
/// that: transfers that datagrams took, and calls for which a map may have to be made.
///
/// It is seen as the name of the queue.
#[derive(Drop)]
pub struct DeferredQueue<J: Site, F: Known> {
    queue: RuledArrayQueue<Deferred<F>, Dealt, Fair<J>>,
    arrivals: Arrivals,
}

impl<J: Site, F: Known> Model for DeferredQueue<J, F> {
    ghost use Rattle.atomic_table.specs.Seated.{TableId};

    ghost Value = { TableId };

    ghost view = { λ p. p.queue.table.shared.table_id };
}

impl<J: Site, F: Known> DeferredQueue<J, F> {
    /// An empty queue, and all parts of it, for so many servers of datagrams. It takes all its memory.
    pub fn new(
        alloc: Global,
        servers: u64,
    ) -> Result<(DeferredQueue<J, F>, DeferredPass<F>), NoMemory>
        ensures { IfOk result (λ made. made.1 ≡ nothing_held made.0 all_parts) }
    {
        let (queue, pass) = RuledArrayQueue::ruled(alloc, PENDING_MAX).map_err(|_| NoMemory)?;
        let pending = DeferredQueue {
            queue,
            arrivals: Arrivals::new(servers),
        };
        Ok((pending, DeferredPass { pass }))
    }

    /// One part, for a server that has left nothing yet.
    pub fn split_off(&self, pass: &mut DeferredPass<F>) -> DeferredPass<F>
        requires queue { pass.old.queue ≡ self.now }
        requires some { 1 < pass.old.parts }
        ensures one { result ≡ nothing_held self.now 1 }
        ensures parts { pass.new.parts + 1 ≡ pass.old.parts }
        ensures same { pass.new ≡ record pass.old { parts = pass.new.parts } }
    {
        DeferredPass {
            pass: self.queue.another::<Parts>(&mut pass.pass),
        }
    }

    /// Takes in what another holds, once that has ended.
    pub(crate) fn merge(&self, pass: &mut DeferredPass<F>, other: DeferredPass<F>)
        requires queue { (pass.old.queue ≡ self.now) × (other.queue ≡ self.now) }
        ensures parts { pass.new.parts ≡ pass.old.parts + other.parts }
        ensures same { pass.new ≡ record (held_behind pass.old other.left other.took) { parts = pass.new.parts } }
    {
        let DeferredPass { pass: other } = other;
        self.queue.absorb::<Parts>(&mut pass.pass, other);
    }

    /// Leaves one more in the queue, and wakes the carrier. Where there is no room, it comes back.
    pub(crate) fn leave<R: Wait>(
        &self,
        rt: &R,
        pass: &mut DeferredPass<F>,
        one: Deferred<F>,
    ) -> Result<(), Deferred<F>>
        requires queue { pass.old.queue ≡ self.now }
        requires ready { IsReady (length J.catalogue.maps) one }
        ensures { MatchResult result (λ _. pass.new ≡ held_behind pass.old (one ∷ []) [])
            (λ back. (back ≡ one) × (pass.new ≡ pass.old)) }
    {
        self.queue.push_as::<Leaving, R>(rt, &mut pass.pass, one)?;
        self.arrivals.tell(rt);
        Ok(())
    }

    /// Tells that a server of datagrams has ended, and leaves nothing any more.
    pub(crate) fn end<R: Wait>(&self, rt: &R) {
        self.arrivals.end(rt);
    }

    /// Tells that a transfer comes, for which the source may hold the carrier for long.
    pub(crate) fn engage<R: Wait>(&self, rt: &R) {
        self.arrivals.engage(rt);
    }

    /// Whether a carrier attends that has no transfer before it. Where none does, what is left may wait for long, or
    /// until all servers have ended.
    pub(crate) fn is_free<R: Wait>(&self, rt: &R) -> bool {
        self.arrivals.is_free(rt)
    }

    /// How often something was left, for one who looks for it then.
    pub(crate) fn told<R: Wait>(&self, rt: &R) -> u64 {
        self.arrivals.told(rt)
    }

    /// Waits until something was left since so much was, or until all servers have ended, and answers whether something
    /// was.
    pub(crate) fn wait_past<R: Wait>(&self, rt: &R, seen: u64) -> bool {
        self.arrivals.wait_past(rt, seen)
    }

    /// Takes over what has waited longest, where something waits.
    pub(crate) fn oldest<R: Wait>(&self, rt: &R, pass: &mut DeferredPass<F>) -> Option<Deferred<F>>
        requires queue { pass.old.queue ≡ self.now }
        ensures one { IfSome result (λ one. (pass.new ≡ held_behind pass.old [] (one ∷ []))
            × IsReady (length J.catalogue.maps) one) }
        ensures none { IfNone result (pass.new ≡ pass.old) }
        ensures all { IfNone result (pass.old.parts ≡ all_parts → WeighTheSame pass.old.left pass.old.took) }
    {
        self.queue.pop_as::<TakingOver<J>, R>(rt, &mut pass.pass)
    }
}
