//! Callers that are to be told what their transfers came to, until one of the workers tells them.

ghost use Rattle.std.specs.Prelude.{◌≡◌, ◌+◌, ◌<◌, [], ◌∷◌, IfOk, IfSome, IfNone, MatchResult};
ghost use Rattle.yp_worker.specs.inside.Queues.{all_parts};
ghost use Rattle.yp_host.specs.inside.workers.CallBacks.{holds_none, holds_more, IsAllTaken};

use crossbeam_queue::protocol::{Join, Lesson, Outcome, Protocol, Split};
use crossbeam_queue::{Pass, RuledArrayQueue};
use std::alloc::Global;
use std::collections::LinkedList;
use std::marker::{Model, PhantomData};
use std::snapshot::Snapshot;
use std::sync::Wait;
use yp_io::NoMemory;
use yp_messages::XfrStat;
use yp_publisher::sharing::{Accounts, FetchesFront};
use yp_transfer::Asker;
use yp_version::Version;

/// The most call backs that wait.
const CALL_BACKS_MAX: usize = 64;

/// Whom a transfer was for, and the status that it came to. For contracts alone it has the version that was shown,
/// where one was.
#[derive(Drop)]
pub struct CallBack {
    pub asker: Asker,
    pub stat: XfrStat,
    pub shown: Option<Snapshot<Version>>,
}

/// What a worker left in a queue and took over from there, and its parts of the right to know the whole. No value of it
/// is made.
pub struct Dealt {
    pub parts: u64,
    pub left: LinkedList<CallBack>,
    pub took: LinkedList<CallBack>,
}

/// The rule of the queue: what was left there is what was taken over from there and what waits, and nothing else.
pub struct Fair;

impl Protocol<CallBack, Dealt> for Fair {
    ghost use Rattle.yp_host.specs.inside.workers.Queues.{IsFair, dealt_all};

    ghost holds = { IsFair };

    ghost first = { dealt_all };
}

/// How passes are cut and put together.
struct Parts;

impl Split<Dealt> for Parts {
    ghost use Rattle.std.specs.Prelude.{◌-◌, []};
    ghost use Rattle.yp_host.specs.inside.workers.Queues.{dealt};

    ghost left = { λ v. dealt (v.parts - 1) v.left v.took };

    ghost right = { λ v. dealt 1 [] [] };
}

impl Join<Dealt> for Parts {
    ghost use Rattle.std.specs.Prelude.{◌+◌, ◌++◌, []};
    ghost use Rattle.yp_host.specs.inside.workers.Queues.{dealt};

    ghost both = { λ v w. dealt (v.parts + w.parts) (v.left ++ w.left) (v.took ++ w.took) };

    ghost spent = { dealt 0 [] [] };
}

/// How the parts of a site's shares are cut off.
struct PartsOf<S> {
    site: PhantomData<S>,
}

impl<S: Accounts> Split<Dealt> for PartsOf<S> {
    ghost use Rattle.std.specs.Prelude.{◌-◌, []};
    ghost use Rattle.yp_host.specs.inside.workers.Queues.{dealt};

    ghost left = { λ v. dealt (v.parts - S.shares) v.left v.took };

    ghost right = { λ v. dealt S.shares [] [] };
}

/// A call back is left.
struct Leaving;

impl Outcome<CallBack, Dealt> for Leaving {
    ghost use Rattle.yp_host.specs.inside.workers.Queues.{Leaves};

    ghost then = { Leaves };
}

impl Lesson<CallBack, Dealt> for Leaving {
    ghost use Rattle.std.specs.Prelude.{⊤};

    ghost fact = { λ v items. ⊤ };
}

/// A call back is taken over.
struct TakingOver;

impl Outcome<CallBack, Dealt> for TakingOver {
    ghost use Rattle.yp_host.specs.inside.workers.Queues.{TakesOver};

    ghost then = { TakesOver };
}

impl Lesson<CallBack, Dealt> for TakingOver {
    ghost use Rattle.yp_host.specs.inside.workers.Queues.{Balances};

    ghost fact = { Balances };
}

/// What a worker holds of the queue: its parts, for contracts alone, and what it left there and took over from there.
#[derive(Drop)]
pub struct CallBackPass {
    pass: Pass<CallBack, Dealt>,
}

impl Model for CallBackPass {
    ghost use Rattle.std.specs.Prelude.{◌≡◌, ◌<◌, []};
    ghost use Rattle.crossbeam_queue.specs.Passes.{view as known};
    ghost use Rattle.yp_host.specs.inside.workers.CallBacks.{HeldCallBacks};

    ghost Value = { HeldCallBacks };

    ghost view = { λ p. record {
      queue = p.pass.table_id;
      parts = (known p.pass).parts;
      left = (known p.pass).left;
      took = (known p.pass).took;
    } };

    ghost invariant = { λ p. (0 < (known p.pass).parts) × (p.pass.me.1 ≡ []) };
}

/// What workers left in a queue of call backs, for contracts alone, and a front of the log of fetches that has the
/// versions of these, where one is known.
#[derive(Drop)]
pub struct LeftCallBacks<S: Accounts> {
    pub pass: CallBackPass,
    pub known: Option<FetchesFront<S>>,
}

/// The call backs of transfers that hosts carried out and that nobody has told yet, oldest first, which the workers of
/// a server share.
///
/// It is seen as the name of the queue.
#[derive(Drop)]
pub struct PendingCallBacks {
    queue: RuledArrayQueue<CallBack, Dealt, Fair>,
}

impl Model for PendingCallBacks {
    ghost use Rattle.atomic_table.specs.Seated.{TableId};

    ghost Value = { TableId };

    ghost view = { λ p. p.queue.table.shared.table_id };
}

impl PendingCallBacks {
    /// An empty queue, and all parts of it. It takes all its memory.
    pub fn new(alloc: Global) -> Result<(PendingCallBacks, CallBackPass), NoMemory>
        ensures { IfOk result (λ made. made.1 ≡ holds_none made.0 all_parts) }
    {
        let (queue, pass) = RuledArrayQueue::ruled(alloc, CALL_BACKS_MAX).map_err(|_| NoMemory)?;
        Ok((PendingCallBacks { queue }, CallBackPass { pass }))
    }

    /// One part, of a worker that has left nothing yet.
    pub fn split_off(&self, pass: &mut CallBackPass) -> CallBackPass
        requires queue { pass.old.queue ≡ self.now }
        requires some { 1 < pass.old.parts }
        ensures one { result ≡ holds_none self.now 1 }
        ensures parts { pass.new.parts + 1 ≡ pass.old.parts }
        ensures same { pass.new ≡ record pass.old { parts = pass.new.parts } }
    {
        CallBackPass {
            pass: self.queue.another::<Parts>(&mut pass.pass),
        }
    }

    /// As many parts as the shares of a site have, of workers that have left nothing yet.
    pub fn split_shares<S: Accounts>(&self, pass: &mut CallBackPass) -> CallBackPass
        requires queue { pass.old.queue ≡ self.now }
        requires some { (0 < S.shares) × (S.shares < pass.old.parts) }
        ensures shares { result ≡ holds_none self.now S.shares }
        ensures parts { pass.new.parts + S.shares ≡ pass.old.parts }
        ensures same { pass.new ≡ record pass.old { parts = pass.new.parts } }
    {
        CallBackPass {
            pass: self.queue.another::<PartsOf<S>>(&mut pass.pass),
        }
    }

    /// Takes in what another worker holds, once that has ended.
    pub fn merge(&self, pass: &mut CallBackPass, other: CallBackPass)
        requires queue { (pass.old.queue ≡ self.now) × (other.queue ≡ self.now) }
        ensures parts { pass.new.parts ≡ pass.old.parts + other.parts }
        ensures same { pass.new ≡ record (holds_more pass.old other.left other.took) { parts = pass.new.parts } }
    {
        let CallBackPass { pass: other } = other;
        self.queue.absorb::<Parts>(&mut pass.pass, other);
    }

    /// Leaves a call back in the queue. Where there is no room, it comes back.
    pub(crate) fn leave<R: Wait>(
        &self,
        rt: &R,
        pass: &mut CallBackPass,
        call_back: CallBack,
    ) -> Result<(), CallBack>
        requires queue { pass.old.queue ≡ self.now }
        ensures { MatchResult result (λ _. pass.new ≡ holds_more pass.old (call_back ∷ []) [])
            (λ back. (back ≡ call_back) × (pass.new ≡ pass.old)) }
    {
        self.queue
            .push_as::<Leaving, R>(rt, &mut pass.pass, call_back)
    }

    /// Takes over the call back that has waited longest, where one waits.
    pub(crate) fn take_over<R: Wait>(&self, rt: &R, pass: &mut CallBackPass) -> Option<CallBack>
        requires queue { pass.old.queue ≡ self.now }
        ensures one { IfSome result (λ one. pass.new ≡ holds_more pass.old [] (one ∷ [])) }
        ensures none { IfNone result (pass.new ≡ pass.old) }
        ensures all { IfNone result (pass.old.parts ≡ all_parts → IsAllTaken pass.old.left pass.old.took) }
    {
        self.queue.pop_as::<TakingOver, R>(rt, &mut pass.pass)
    }
}
