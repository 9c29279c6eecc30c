//! The dial that threads share, under one lock, with the addresses of its hosts.

ghost use Rattle.std.specs.Prelude.{◌≡◌, ◌⊎◌, ℕ, List, ◌+◌, ◌<◌, ◌≤◌, ◌↔◌, ◌∷◌, ◌++◌, None, length, IfSome, IfOk};
ghost use Rattle.std.specs.Prelude.{IfErr, IsNone, [], false};
ghost use Rattle.std.specs.Option.{option_map_or};
ghost use Rattle.yp_io.specs.Dials.{wires_told};
ghost use Rattle.yp_transfer.specs.inside.Dials.{dial_by};
ghost use Rattle.yp_messages.specs.Numbers.{name_max};
ghost use Rattle.yp_transfer.specs.Dialing.{FetchesFrom};
ghost use Rattle.yp_transfer.specs.Fetching.{wanted_of};
ghost use Rattle.yp_transfer.specs.HostTable.{find};
ghost use Rattle.yp_host.specs.workers.Wires.{AllCameByWire, CoversBy, CoversOrders, CoversSources, IsGood};
ghost use Rattle.yp_host.specs.inside.workers.Wires.{IsAgedBy, IsNoted};
ghost use Rattle.yp_host.specs.inside.workers.Wires.{orders_in, sources_in, versions_in};
ghost use Rattle.yp_board.specs.Catalogues.{name_view};
ghost use Rattle.yp_host.specs.workers.Uses.{IsAmong};
ghost use Rattle.yp_host.specs.inside.workers.Uses.{TellsAllLeft};
ghost use Rattle.yp_host.specs.declared.workers.call_backs.CallBack.{CallBack};
ghost use Rattle.yp_host.specs.inside.workers.CallBacks.{holds_none, IsAllTaken};
ghost use Rattle.yp_host.specs.inside.workers.CallBacks.{AreKnown, TellsInTurn, TellsWaiting};
ghost use Rattle.yp_host.specs.inside.workers.Uses.{dial_told};
ghost use Rattle.yp_publisher.specs.inside.sharing.Tracing.{IsBeginning};
ghost use Rattle.yp_worker.specs.inside.Queues.{all_parts};

use crate::workers::call_backs::{CallBackPass, LeftCallBacks, PendingCallBacks};
use crate::workers::charges::Charges;
use crate::workers::supplies::{FailedSources, ReachedOrders, Supplies};
use std::alloc::Global;
use std::marker::Model;
use std::random::RandomSource;
use std::sync::Wait;
use std::sync::ledger::{Book, Share};
use yp_board::MapName;
use yp_io::Dial;
use yp_publisher::sharing::{Accounts, FetchedVersions, Fetches, FetchesFront, Site};
use yp_transfer::laws::fetched_is_one;
use yp_transfer::{FetchRequest, Hosts, XfrFault, fetch_from, tell_back};
use yp_version::{Order, Version};

/// What is fetched: a map of a site, from a source, behind what is shown.
#[derive(Clone, Copy)]
pub(crate) struct FetchTask<'a> {
    /// The name of the host that has the map.
    pub source: &'a [u8],
    pub name: &'a MapName,
    /// The order of the version that is shown, if one is.
    pub shown: Option<Order>,
}

/// What maps are fetched by: what opens connections to the hosts that have them, and the addresses of these.
#[derive(Drop)]
pub struct Dialer<A> {
    pub dial: A,
    pub hosts: Hosts,
}

/// Shares of the ledgers of what is counted under the lock of a dial, for contracts alone: of the orders that were
/// reached, of the sources that failed, and of the versions that were fetched.
#[derive(Drop)]
pub struct DialShares<S: Accounts + Supplies> {
    pub orders: Share<ReachedOrders<S>>,
    pub sources: Share<FailedSources<S>>,
    pub versions: Share<FetchedVersions<S>>,
}

/// The dial of a site and the addresses of its hosts, for a lock to keep, with the books of the orders that were
/// reached, of the sources that failed and of the versions that were fetched since it is shared, with the log of these
/// versions, and with what it took over from the queue of call backs. It is seen as that dial, with these addresses.
#[derive(Drop)]
pub struct SharedDial<S: Site + Accounts + Supplies, A: Dial> {
    dialer: Dialer<A>,
    orders: Book<ReachedOrders<S>>,
    sources: Book<FailedSources<S>>,
    versions: Book<FetchedVersions<S>>,
    fetches: Fetches<S>,
    call_backs: CallBackPass,
}

impl<S: Site + Accounts + Supplies, A: Dial> Model for SharedDial<S, A> {
    ghost use Rattle.std.specs.Prelude.{◌≡◌, ◌+◌, []};
    ghost use Rattle.yp_worker.specs.inside.Queues.{all_parts};
    ghost use Rattle.yp_host.specs.declared.workers.dial.Dialer.{Dialer};
    ghost use Rattle.yp_host.specs.workers.Wires.{AllCameByWire, CoversBy, CoversOrders, CoversSources, IsGood};
    ghost use Rattle.yp_transfer.specs.inside.Dials.{dial_by};
    ghost use Rattle.yp_host.specs.workers.Uses.{IsUsedForTransfers};
    ghost use Rattle.yp_host.specs.inside.workers.Uses.{dial_told};

    ghost Value = { Dialer A };

    ghost view = { λ d. d.dialer };

    ghost invariant = { λ d. (d.dialer.hosts ≡ S.hosts)
        × CoversOrders S.wires (A.past d.dialer.dial) d.orders.total
        × CoversSources S.wires (A.past d.dialer.dial) S.dial_faults (A.faults d.dialer.dial) d.sources.total
        × CoversBy IsGood S.wires (A.past d.dialer.dial) d.versions.total
        × AllCameByWire S.wires (A.past d.dialer.dial) d.fetches
        × IsUsedForTransfers S.hosts S.catalogue.maps d.call_backs.took
        (dial_told S.wires S.letters S.dial_faults) (dial_by A.Dial d.dialer.dial)
        × (d.call_backs.queue ≡ S.call_backs) × (d.call_backs.left ≡ [])
        × (d.call_backs.parts + S.shares ≡ all_parts) };
}

impl<S: Site + Accounts + Supplies, A: Dial> SharedDial<S, A> {
    /// A dial and the hosts that its site says, with the books of what is counted from now on, the log of what is
    /// fetched, and all parts of the queue of call backs but those of the shares.
    pub fn new(
        dialer: Dialer<A>,
        orders: Book<ReachedOrders<S>>,
        sources: Book<FailedSources<S>>,
        versions: Book<FetchedVersions<S>>,
        fetches: Fetches<S>,
        call_backs: CallBackPass,
    ) -> SharedDial<S, A>
        requires hosts { dialer.hosts ≡ S.hosts }
        requires before { (A.past dialer.dial ≡ S.wires) × (A.faults dialer.dial ≡ S.dial_faults)
            × (A.letters dialer.dial ≡ S.letters) }
        requires none { (orders.total ≡ 0) × (sources.total ≡ 0) × (versions.total ≡ 0) × (fetches ≡ []) }
        requires call_backs { (call_backs ≡ holds_none S.call_backs call_backs.parts)
            × (call_backs.parts + S.shares ≡ all_parts) }
        ensures { result ≡ dialer }
    {
        SharedDial {
            dialer,
            orders,
            sources,
            versions,
            fetches,
            call_backs,
        }
    }

    /// The dial and its hosts, once the lock is left. What a caller was charged with is covered by the wires and the
    /// faults of the dial. No more versions were fetched than wires came that give one, and for each that is known to
    /// be fetched there came one that gives it. The dial was used for transfers of the maps of its site alone. All
    /// callers that still wait are told, so what was told is what was left by those who held this, where they held all
    /// shares.
    pub fn close<R: Wait>(
        self,
        rt: &R,
        call_backs: &PendingCallBacks,
        others: LeftCallBacks<S>,
        shares: DialShares<S>,
        known: &FetchesFront<S>,
    ) -> Dialer<A>
        requires queue { (call_backs.now ≡ S.call_backs) × (others.pass.queue ≡ S.call_backs) }
        requires left { others.pass.took ≡ [] }
        requires told { AreKnown others.known others.pass.left }
        ensures dialer { result ≡ record self { dial = result.dial } }
        ensures hosts { result.hosts ≡ S.hosts }
        ensures orders { (n : ℕ) → n ≤ shares.orders.amount → CoversOrders S.wires (A.past result.dial) n }
        ensures sources { (n : ℕ) → n ≤ shares.sources.amount
            → CoversSources S.wires (A.past result.dial) S.dial_faults (A.faults result.dial) n }
        ensures versions { (n : ℕ) → n ≤ shares.versions.amount → CoversBy IsGood S.wires (A.past result.dial) n }
        ensures known { AllCameByWire S.wires (A.past result.dial) known.now }
        ensures dialed { TellsAllLeft S.hosts S.catalogue.maps S.shares others.pass
            (dial_told S.wires S.letters S.dial_faults) (dial_by A.Dial result.dial) }
    {
        let mut shared = self;
        let DialShares {
            mut orders,
            mut sources,
            mut versions,
        } = shares;
        shared.orders.audit(&mut orders);
        shared.sources.audit(&mut sources);
        shared.versions.audit(&mut versions);
        shared.fetches.covers(known);
        let LeftCallBacks {
            pass: theirs,
            known: told,
        } = others;
        cover_told(&mut shared.fetches, told);
        let SharedDial {
            mut dialer,
            orders: _,
            sources: _,
            versions: _,
            fetches: _,
            call_backs: mut pass,
        } = shared;
        call_backs.merge(&mut pass, theirs);
        tell_waiting(rt, call_backs, &mut pass, &mut dialer.dial);
        dialer
    }

    /// Fetches a map of the site from a source, and gives the wire back, or answers `None` exactly where the source has
    /// no address. An order that is reached is charged, and so is a source that failed, and a version that came, which
    /// is known to be fetched then, where its log takes it.
    pub(crate) fn fetch(
        &mut self,
        alloc: Global,
        rt: &impl RandomSource,
        task: &FetchTask<'_>,
        known: &mut Option<FetchesFront<S>>,
        charges: &mut Charges<S>,
    ) -> Option<Result<Version, XfrFault>>
        requires named { 0 < length task.now.source.now }
        requires served { IsAmong S.catalogue.maps (name_view task.now.name.now) }
        requires domain { (0 < length task.now.name.now.domain.items)
            × (length task.now.name.now.domain.items ≤ name_max) }
        requires map { (0 < length task.now.name.now.map.items) × (length task.now.name.now.map.items ≤ name_max) }
        ensures none { IsNone result ↔ (find task.now.source.now S.hosts ≡ None) }
        ensures fetches { IfSome result (λ outcome. FetchesFrom S.hosts task.now.source.now
            (wanted_of (name_view task.now.name.now).0 (name_view task.now.name.now).1 task.now.shown false) outcome
            (wires_told (dial_by A.Dial self.old.dial)) (wires_told (dial_by A.Dial self.new.dial))) }
        ensures aged { IfSome result (IsAgedBy task.now.shown) }
        ensures noted { IfSome result (λ outcome. IsNoted outcome known.new) }
        ensures charged { charges.new ≡ record charges.old {
          orders = charges.old.orders + option_map_or orders_in result 0;
          sources = charges.old.sources + option_map_or sources_in result 0;
          versions = charges.old.versions + option_map_or versions_in result 0;
        } }
    {
        fetched_is_one();
        self.dialer.hosts.find(task.source)?;
        let request = FetchRequest {
            domain: &task.name.domain,
            map: &task.name.map,
            shown: task.shown,
            force: false,
        };
        let fetched = fetch_from(
            alloc,
            rt,
            &mut self.dialer.dial,
            &self.dialer.hosts,
            task.source,
            &request,
        );
        self.orders.add(&mut charges.orders, orders_in(&fetched));
        self.sources.add(&mut charges.sources, sources_in(&fetched));
        charge_version(&mut self.versions, charges, &fetched);
        *known = note(&mut self.fetches, &fetched);
        Some(fetched)
    }

    /// Tells all callers that wait, one after the other, until none waits.
    pub(crate) fn post_all<R: Wait>(&mut self, rt: &R, call_backs: &PendingCallBacks)
        requires { call_backs.now ≡ S.call_backs }
        ensures { (told : List CallBack)
            × TellsInTurn told (dial_by A.Dial self.old.dial) (dial_by A.Dial self.new.dial) }
    {
        tell_waiting(rt, call_backs, &mut self.call_backs, &mut self.dialer.dial);
    }
}

/// What is known to be told is a front of the log of fetches, where something is.
fn cover_told<S: Accounts>(fetches: &mut Fetches<S>, told: Option<FetchesFront<S>>)
    ensures front { IfSome told (λ front. IsBeginning front fetches.old) }
    ensures same { fetches.new ≡ fetches.old }
{
    if let Some(told) = told {
        fetches.covers(&told);
    }
}

/// Tells all callers that wait, one after the other, until none waits.
fn tell_waiting<A: Dial, R: Wait>(
    rt: &R,
    call_backs: &PendingCallBacks,
    pass: &mut CallBackPass,
    dial: &mut A,
)
    requires { pass.old.queue ≡ call_backs.now }
    ensures told { TellsWaiting pass.old pass.new (dial_by A.Dial dial.old) (dial_by A.Dial dial.new) }
    ensures all { pass.old.parts ≡ all_parts → IsAllTaken pass.new.left pass.new.took }
{
    for _ in rt.forever() {
        if !tell_next(rt, call_backs, pass, dial) {
            return;
        }
    }
    unreachable!()
}

/// Tells the caller that has waited longest, and answers whether one waited.
#[tactic(auto, using(crate::proofs::workers::Telling::waiting_none, crate::proofs::workers::Telling::waiting_one))]
fn tell_next<A: Dial, R: Wait>(
    rt: &R,
    call_backs: &PendingCallBacks,
    pass: &mut CallBackPass,
    dial: &mut A,
) -> bool
    requires { pass.old.queue ≡ call_backs.now }
    ensures told { TellsWaiting pass.old pass.new (dial_by A.Dial dial.old) (dial_by A.Dial dial.new) }
    ensures all { result ≡ false → pass.old.parts ≡ all_parts → IsAllTaken pass.new.left pass.new.took }
{
    let Some(call_back) = call_backs.take_over(rt, pass) else {
        return false;
    };
    tell_back(dial, &call_back.asker, call_back.stat);
    true
}

/// Adds a version to the log of what was fetched, where one was: the log then, if it takes it.
#[tactic(auto, using(crate::proofs::workers::Noting::noted_last))]
fn note<S: Accounts>(
    fetches: &mut Fetches<S>,
    fetched: &Result<Version, XfrFault>,
) -> Option<FetchesFront<S>>
    ensures noted { IsNoted fetched.now result }
    ensures added { IfOk fetched.now (λ version. (fetches.new ≡ fetches.old)
        ⊎ (fetches.new ≡ fetches.old ++ version ∷ [])) }
    ensures same { IfErr fetched.now (λ why. fetches.new ≡ fetches.old) }
{
    let Ok(version) = fetched else {
        return None;
    };
    if !fetches.push(version) {
        return None;
    }
    Some(fetches.front().again())
}

/// Charges a version, where one was fetched.
fn charge_version<S: Accounts + Supplies>(
    book: &mut Book<FetchedVersions<S>>,
    charges: &mut Charges<S>,
    fetched: &Result<Version, XfrFault>,
)
    ensures total { book.new.total ≡ book.old.total + versions_in fetched.now }
    ensures charged { charges.new ≡ record charges.old {
      versions = charges.old.versions + versions_in fetched.now;
    } }
{
    if fetched.is_ok() {
        charges.debits.fetched(book);
    }
}

/// How many orders a fetch reached.
fn orders_in(fetched: &Result<Version, XfrFault>) -> u64
    ensures { result ≡ orders_in fetched.now }
{
    match fetched {
        Ok(_) | Err(XfrFault::Age { .. }) => 1,
        Err(_) => 0,
    }
}

/// How many sources failed in a fetch.
fn sources_in(fetched: &Result<Version, XfrFault>) -> u64
    ensures { result ≡ sources_in fetched.now }
{
    match fetched {
        Ok(_) | Err(XfrFault::Age { .. } | XfrFault::NoMemory) => 0,
        Err(_) => 1,
    }
}
