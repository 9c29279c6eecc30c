//! What workers count, and what they are charged with for it.

ghost use Rattle.std.specs.Prelude.{◌≡◌, ◌+◌, ◌++◌, ◌∷◌, ◌<◌, [], List, option_map, IfSome, MatchResult};
ghost use Rattle.yp_board.specs.Views.{IsFront};
ghost use Rattle.yp_host.specs.workers.Charges.{no_totals, totals_plus};
ghost use Rattle.yp_host.specs.declared.workers.call_backs.CallBack.{CallBack};
ghost use Rattle.yp_host.specs.workers.CallBacks.{version_in};
ghost use Rattle.yp_host.specs.inside.workers.CallBacks.{AreKnown, IsKnownIn};
ghost use Rattle.yp_host.specs.inside.workers.Charges.{TotalsAreCharged, charged_both, free_of_charge};

use crate::workers::call_backs::{CallBack, CallBackPass, LeftCallBacks, PendingCallBacks};
use crate::workers::outcome::Totals;
use crate::workers::supplies::{FailedSources, ReachedOrders, Supplies, UnreadTexts};
use std::collections::LinkedList;
use std::marker::Model;
use std::mem;
use std::sync::Wait;
use std::sync::ledger::Share;
use yp_board::Tell;
use yp_publisher::sharing::{Accounts, Debits, FetchesFront};

/// What hosts have counted, and whom they left what to be told. No value of it is made.
pub struct Counted {
    pub totals: Totals,
    pub told: LinkedList<CallBack>,
}

/// What a worker is charged with, for contracts alone: shares of the ledgers of texts that weren't read, of orders that
/// were reached and of sources that failed, what it is charged with as it installs versions, and the call backs that it
/// left in the queue of its site, with a front of the log of fetches that has the versions of these.
#[derive(Drop)]
pub struct Charges<S: Accounts + Supplies> {
    pub(crate) unread: Share<UnreadTexts<S>>,
    pub(crate) orders: Share<ReachedOrders<S>>,
    pub(crate) sources: Share<FailedSources<S>>,
    pub(crate) debits: Debits<S>,
    call_backs: CallBackPass,
    known: Option<FetchesFront<S>>,
}

impl<S: Accounts + Supplies> Model for Charges<S> {
    ghost use Rattle.std.specs.Prelude.{◌≡◌, ◌<◌, []};
    ghost use Rattle.yp_host.specs.inside.workers.CallBacks.{AreKnown};
    ghost use Rattle.yp_host.specs.inside.workers.Charges.{Charged};

    ghost Value = { Charged };

    ghost view = { λ c. record {
      parts = c.unread.parts;
      unread = c.unread.amount;
      failures = c.debits.failures;
      orders = c.orders.amount;
      sources = c.sources.amount;
      made = c.debits.made;
      versions = c.debits.versions;
      left = c.call_backs.left;
    } };

    ghost invariant = { λ c. (0 < c.unread.parts) × (c.orders.parts ≡ c.unread.parts)
        × (c.sources.parts ≡ c.unread.parts) × (c.debits.parts ≡ c.unread.parts)
        × (c.call_backs.queue ≡ S.call_backs) × (c.call_backs.parts ≡ c.unread.parts) × (c.call_backs.took ≡ [])
        × AreKnown c.known c.call_backs.left };
}

impl<S: Accounts + Supplies> Charges<S> {
    /// Charges of these shares, and of what was left in the queue of call backs.
    pub fn new(
        unread: Share<UnreadTexts<S>>,
        orders: Share<ReachedOrders<S>>,
        sources: Share<FailedSources<S>>,
        debits: Debits<S>,
        call_backs: CallBackPass,
    ) -> Charges<S>
        requires some { 0 < unread.parts }
        requires same { (orders.parts ≡ unread.parts) × (sources.parts ≡ unread.parts)
            × (debits.parts ≡ unread.parts) × (call_backs.parts ≡ unread.parts) }
        requires call_backs { (call_backs.queue ≡ S.call_backs) × (call_backs.left ≡ []) × (call_backs.took ≡ []) }
        ensures { result ≡ record {
          parts = unread.parts;
          unread = unread.amount;
          failures = debits.failures;
          orders = orders.amount;
          sources = sources.amount;
          made = debits.made;
          versions = debits.versions;
          left = [];
        } }
    {
        Charges {
            unread,
            orders,
            sources,
            debits,
            call_backs,
            known: None,
        }
    }

    /// One part, which is charged with nothing yet.
    pub fn split_off(&mut self, call_backs: &PendingCallBacks) -> Charges<S>
        requires some { 1 < self.old.parts }
        requires queue { call_backs.now ≡ S.call_backs }
        ensures one { result ≡ free_of_charge 1 }
        ensures left { self.new.parts + 1 ≡ self.old.parts }
        ensures same { self.new ≡ record self.old { parts = self.new.parts } }
    {
        Charges {
            unread: self.unread.split_off(1, 0),
            orders: self.orders.split_off(1, 0),
            sources: self.sources.split_off(1, 0),
            debits: self.debits.split_off(),
            call_backs: call_backs.split_off(&mut self.call_backs),
            known: None,
        }
    }

    /// Leaves a call back in the queue. A version that it has is known to be fetched. Where there is no room, it comes
    /// back.
    pub(crate) fn leave<R: Wait>(
        &mut self,
        rt: &R,
        call_backs: &PendingCallBacks,
        call_back: CallBack,
        known: Option<&FetchesFront<S>>,
    ) -> Result<(), CallBack>
        requires queue { call_backs.now ≡ S.call_backs }
        requires known { IfSome (version_in call_back)
            (IsKnownIn (option_map (λ front. front.now) known)) }
        ensures { MatchResult result (λ _. self.new ≡ record self.old { left = self.old.left ++ call_back ∷ [] })
            (λ back. (back ≡ call_back) × (self.new ≡ self.old)) }
    {
        self.known = longer_of(self.known.take(), again_of(known));
        call_backs.leave(rt, &mut self.call_backs, call_back)
    }

    /// Takes in what another one is charged with.
    pub fn merge(&mut self, call_backs: &PendingCallBacks, other: Charges<S>)
        requires { call_backs.now ≡ S.call_backs }
        ensures { self.new ≡ charged_both self.old other }
    {
        let Charges {
            unread,
            orders,
            sources,
            debits,
            call_backs: theirs,
            known,
        } = other;
        self.unread.merge(unread);
        self.orders.merge(orders);
        self.sources.merge(sources);
        self.debits.merge(debits);
        self.known = longer_of(self.known.take(), known);
        call_backs.merge(&mut self.call_backs, theirs);
    }

    /// The shares, and what was left in the queue of call backs.
    pub fn into_shares(
        self,
    ) -> (
        Share<UnreadTexts<S>>,
        Share<ReachedOrders<S>>,
        Share<FailedSources<S>>,
        Debits<S>,
        LeftCallBacks<S>,
    )
        ensures unread { result.0.amount ≡ self.unread }
        ensures orders { result.1.amount ≡ self.orders }
        ensures sources { result.2.amount ≡ self.sources }
        ensures failures { result.3.failures ≡ self.failures }
        ensures made { result.3.made ≡ self.made }
        ensures versions { result.3.versions ≡ self.versions }
        ensures left { result.4.pass ≡ record {
          queue = S.call_backs;
          parts = self.parts;
          left = self.left;
          took = [];
        } }
        ensures known { AreKnown result.4.known self.left }
    {
        let Charges {
            unread,
            orders,
            sources,
            debits,
            call_backs,
            known,
        } = self;
        let left = LeftCallBacks {
            pass: call_backs,
            known,
        };
        (unread, orders, sources, debits, left)
    }
}

/// The same front once more, where there is one.
fn again_of<S: Accounts>(front: Option<&FetchesFront<S>>) -> Option<FetchesFront<S>>
    ensures { result ≡ option_map (λ front. front.now) front.entry }
{
    Some(front?.again())
}

/// The longer of two fronts, where there are two.
fn longer_of<S: Accounts>(
    one: Option<FetchesFront<S>>,
    other: Option<FetchesFront<S>>,
) -> Option<FetchesFront<S>>
    ensures one { (call_backs : List CallBack) → AreKnown one call_backs → AreKnown result call_backs }
    ensures other { (call_backs : List CallBack) → AreKnown other call_backs → AreKnown result call_backs }
{
    match one {
        Some(front) => Some(front.with_known(other)),
        None => other,
    }
}

/// What several workers have counted, what they are charged with for it, and all that they knew as they handed it over,
/// for contracts alone. It is seen as what they have counted, whom they left what to be told, and what they knew.
#[derive(Drop)]
pub struct Account<S: Accounts + Supplies, B: Tell> {
    totals: Totals,
    charges: Charges<S>,
    front: B::Front,
}

impl<S: Accounts + Supplies, B: Tell> Model for Account<S, B> {
    ghost use Rattle.std.specs.Prelude.{◌≡◌};
    ghost use Rattle.yp_host.specs.inside.workers.Charges.{Accounted, TotalsAreCharged};

    ghost Value = { Accounted };

    ghost view = { λ a. record { totals = a.totals; told = a.charges.left; reached = B.kept a.front } };

    ghost invariant = { λ a. (a.charges.parts ≡ 2) × TotalsAreCharged a.totals a.charges };
}

impl<S: Accounts + Supplies, B: Tell> Account<S, B> {
    /// Nothing was counted yet, and this much known.
    pub fn new(charges: Charges<S>, front: B::Front) -> Account<S, B>
        requires { charges.parts ≡ 2 }
        ensures { result ≡ record { totals = no_totals; told = charges.left; reached = B.kept front } }
    {
        Account {
            totals: Totals::none(),
            charges,
            front,
        }
    }

    /// Takes in what a worker has counted and is charged with for it, and what it knows. The worker is charged with
    /// nothing then.
    pub(crate) fn take_in(
        &mut self,
        call_backs: &PendingCallBacks,
        totals: Totals,
        charges: &mut Charges<S>,
        reader: &B::Reader,
    )
        requires queue { call_backs.now ≡ S.call_backs }
        requires one { charges.old.parts ≡ 1 }
        requires charged { TotalsAreCharged totals charges.old }
        ensures totals { self.new.totals ≡ totals_plus self.old.totals totals }
        ensures told { self.new.told ≡ self.old.told ++ charges.old.left }
        ensures none { charges.new ≡ free_of_charge 1 }
        ensures covered { IsFront (B.Reader.seen reader.now).known self.new.reached }
        ensures kept { IsFront self.old.reached self.new.reached }
    {
        let fresh = self.charges.split_off(call_backs);
        let theirs = mem::replace(charges, fresh);
        self.charges.merge(call_backs, theirs);
        self.totals = self.totals.plus(totals);
        let front = mem::replace(&mut self.front, B::known(reader));
        self.front = B::longer(front, B::known(reader));
    }

    /// What was counted, what that is charged with, and what was known.
    pub fn into_parts(self) -> (Totals, Charges<S>, B::Front)
        ensures totals { result.0 ≡ self.totals }
        ensures parts { result.1.parts ≡ 2 }
        ensures charged { TotalsAreCharged result.0 result.1 }
        ensures told { result.1.left ≡ self.told }
        ensures reached { B.kept result.2 ≡ self.reached }
    {
        let Account {
            totals,
            charges,
            front,
        } = self;
        (totals, charges, front)
    }
}
