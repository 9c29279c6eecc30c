//! A transfer that a worker carries out.

ghost use Rattle.std.specs.Prelude.{◌≡◌, ◌≢◌, ◌<◌, ◌≤◌, [], ◌∷◌, ◌++◌, Contains, length, option_map, None, Ok, Err};
ghost use Rattle.std.specs.Prelude.{IsSome, IfSome};
ghost use Rattle.yp_answer.specs.inside.Transfer.{taken_view};
ghost use Rattle.yp_publisher.specs.sharing.Shares.{Learns};
ghost use Rattle.yp_host.specs.workers.Statuses.{HasStatus, IsInstalledAs};
ghost use Rattle.yp_host.specs.workers.Workers.{IsCarriedTo, IsInstalledTo, ShowsFetched, TellsOf};
ghost use Rattle.yp_host.specs.declared.workers.call_backs.CallBack.{CallBack};
ghost use Rattle.yp_host.specs.workers.CallBacks.{version_in};
ghost use Rattle.yp_host.specs.inside.workers.CallBacks.{IsKnownIn};
ghost use Rattle.yp_host.specs.inside.workers.Charges.{ChargesMore, cost_of_install, cost_of_transfer};
ghost use Rattle.yp_host.specs.inside.workers.Charges.{files_at, orders_at, sources_at};
ghost use Rattle.yp_host.specs.inside.workers.Wires.{orders_in, sources_in, IsAgedBy, IsNoted};

use crate::carrying::asker_of;
use crate::workers::call_backs::CallBack;
use crate::workers::charges::Charges;
use crate::workers::dial::FetchTask;
use crate::workers::outcome::{Group, group_of};
use crate::workers::setting::WorkerSetting;
use crate::workers::supplies::Supplies;
use std::random::RandomSource;
use std::snapshot::Snapshot;
use std::sync::Wait;
use yp_answer::TransferJob;
use yp_board::{Tell, View};
use yp_io::{Clock, Dial, Disk, Peer, Texts};
use yp_messages::XfrStat;
use yp_publisher::Origin;
use yp_publisher::sharing::{Accounts, FetchesFront, MapOffer, Site, install_shared};
use yp_transfer::{Asker, XfrFault};
use yp_version::{Order, Version};

/// Fetches the map of a transfer job and installs it, and tells the caller at `peer` what came of it, where it wants to
/// be told: what that came to, and its status. The dial's lock is held while it is fetched, and again while all callers
/// that wait are told, which may wait for their port mappers; no look-up takes that lock, and no make.
pub(crate) fn carry_out<S, D, B, A, T, C, R>(
    setting: &WorkerSetting<'_, S, D, B, A, T, C, R>,
    reader: &mut B::Reader,
    charges: &mut Charges<S>,
    job: &TransferJob<'_>,
    peer: Peer,
) -> (Group, XfrStat)
where
    S: Site + Accounts + Supplies,
    D: Disk,
    B: Tell,
    A: Dial,
    T: Texts,
    C: Clock,
    R: RandomSource + Wait,
    requires map { job.now.map < length S.catalogue.maps }
    requires named { 0 < length job.now.source.now }
    requires catalogue { (B.Reader.seen reader.old).catalogue ≡ S.catalogue }
    requires queue { setting.now.call_backs.now ≡ S.call_backs }
    ensures outcome { IsCarriedTo S.catalogue.own S.hosts (taken_view job.now) result.0
        (B.Reader.seen reader.old).known (B.Reader.seen reader.new).known }
    ensures status { HasStatus S.catalogue S.hosts (taken_view job.now) result.1
        (B.Reader.seen reader.old).known (B.Reader.seen reader.new).known }
    ensures learned { Learns (B.Reader.seen reader.old) (B.Reader.seen reader.new) }
    ensures charged { ChargesMore (cost_of_transfer result.0) charges.old charges.new }
    ensures told { (call_back : CallBack) × (charges.new.left ≡ charges.old.left ++ call_back ∷ [])
        × (call_back.stat ≡ result.1) × TellsOf S.catalogue.own (taken_view job.now) peer call_back
        (B.Reader.seen reader.old).known (B.Reader.seen reader.new).known }
{
    let Carried { group, stat, shown } = fetch_and_install(setting, reader, charges, job);
    let asker = asker_of(job, peer);
    leave(setting, charges, asker, stat, shown);
    setting
        .dial
        .lock(&setting.rt)
        .post_all(&setting.rt, setting.call_backs);
    (group, stat)
}

/// Leaves a call back in the queue, with the version that was shown, where one was.
fn leave<S, D, B, A, T, C, R>(
    setting: &WorkerSetting<'_, S, D, B, A, T, C, R>,
    charges: &mut Charges<S>,
    asker: Asker,
    stat: XfrStat,
    shown: Option<FetchedVersion<S>>,
)
where
    S: Site + Accounts + Supplies,
    D: Disk,
    B: Tell,
    A: Dial,
    T: Texts,
    C: Clock,
    R: RandomSource + Wait,
    requires queue { setting.now.call_backs.now ≡ S.call_backs }
    requires known { IfSome shown (λ one. Contains one.known one.version.value) }
    ensures left { (call_back : CallBack) × (charges.new ≡ record charges.old {
      left = charges.old.left ++ call_back ∷ [];
    }) × (call_back.asker ≡ asker) × (call_back.stat ≡ stat)
        × (version_in call_back ≡ option_map (λ one. one.version.value) shown) }
{
    let (known, shown) = match shown {
        Some(FetchedVersion { version, known }) => (Some(known), Some(version)),
        None => (None, None),
    };
    let call_back = CallBack { asker, stat, shown };
    leave_call_back(setting, charges, call_back, known.as_ref());
}

/// Leaves a call back in the queue. While there is no room it tells all callers that wait.
fn leave_call_back<S, D, B, A, T, C, R>(
    setting: &WorkerSetting<'_, S, D, B, A, T, C, R>,
    charges: &mut Charges<S>,
    call_back: CallBack,
    known: Option<&FetchesFront<S>>,
)
where
    S: Site + Accounts + Supplies,
    D: Disk,
    B: Tell,
    A: Dial,
    T: Texts,
    C: Clock,
    R: RandomSource + Wait,
    requires queue { setting.now.call_backs.now ≡ S.call_backs }
    requires known { IfSome (version_in call_back) (IsKnownIn (option_map (λ front. front.now) known)) }
    ensures left { charges.new ≡ record charges.old { left = charges.old.left ++ call_back ∷ [] } }
{
    let mut call_back = call_back;
    let rt = &setting.rt;
    for _ in rt.forever() {
        match charges.leave(rt, setting.call_backs, call_back, known) {
            Ok(()) => return,
            Err(back) => call_back = back,
        }
        setting.dial.lock(rt).post_all(rt, setting.call_backs);
    }
    unreachable!()
}

/// A version that is known to be fetched, for contracts alone.
#[derive(Drop)]
struct FetchedVersion<S: Accounts> {
    version: Snapshot<Version>,
    known: FetchesFront<S>,
}

/// What a transfer came to, the status that its caller is told, and the version that was shown, where one was.
#[derive(Drop)]
struct Carried<S: Accounts> {
    group: Group,
    stat: XfrStat,
    shown: Option<FetchedVersion<S>>,
}

impl<S: Accounts> Carried<S> {
    /// No version was shown.
    fn without(group: Group, stat: XfrStat) -> Carried<S>
        ensures { result ≡ record { group = group; stat = stat; shown = None } }
    {
        Carried {
            group,
            stat,
            shown: None,
        }
    }
}

/// Fetches the map of a transfer job and installs it: what that came to, and the status that the caller is told.
fn fetch_and_install<S, D, B, A, T, C, R>(
    setting: &WorkerSetting<'_, S, D, B, A, T, C, R>,
    reader: &mut B::Reader,
    charges: &mut Charges<S>,
    job: &TransferJob<'_>,
) -> Carried<S>
where
    S: Site + Accounts + Supplies,
    D: Disk,
    B: Tell,
    A: Dial,
    T: Texts,
    C: Clock,
    R: RandomSource + Wait,
    requires map { job.now.map < length S.catalogue.maps }
    requires named { 0 < length job.now.source.now }
    requires catalogue { (B.Reader.seen reader.old).catalogue ≡ S.catalogue }
    ensures outcome { IsCarriedTo S.catalogue.own S.hosts (taken_view job.now) result.group
        (B.Reader.seen reader.old).known (B.Reader.seen reader.new).known }
    ensures status { HasStatus S.catalogue S.hosts (taken_view job.now) result.stat
        (B.Reader.seen reader.old).known (B.Reader.seen reader.new).known }
    ensures learned { Learns (B.Reader.seen reader.old) (B.Reader.seen reader.new) }
    ensures charged { ChargesMore (cost_of_transfer result.group) charges.old charges.new }
    ensures left { charges.new.left ≡ charges.old.left }
    ensures shows { ShowsFetched S.catalogue.own job.now.map result.stat
        (option_map (λ one. one.version.value) result.shown)
        (B.Reader.seen reader.old).known (B.Reader.seen reader.new).known }
    ensures known { IfSome result.shown (λ one. Contains one.known one.version.value) }
{
    let task = FetchTask {
        source: job.source,
        name: reader.catalog().name(job.map),
        shown: order_of(reader.held(job.map)),
    };
    let mut known = None;
    let fetched = setting
        .dial
        .lock(&setting.rt)
        .fetch(setting.alloc, &setting.rt, &task, &mut known, charges);
    let shown = order_of(reader.held(job.map));
    match fetched {
        None => Carried::without(Group::NoAddress, XfrStat::Maddr),
        Some(Err(fault)) => Carried::without(failed_group(&fault, shown), fault.stat()),
        Some(Ok(version)) => { install_for(setting, reader, charges, job.map, version, known) },
    }
}

/// The order of the version that is held.
pub(crate) fn order_of(held: Option<&Version>) -> Option<Order>
    ensures { result ≡ option_map (λ version. version.order) (option_map (λ version. version.now) held.entry) }
{
    Some(held?.order())
}

/// The group of a transfer that gave no version. An order that isn't over the one that is shown was told by the source.
fn failed_group(fault: &XfrFault, shown: Option<Order>) -> Group
    requires { IsAgedBy shown (Err fault.now) }
    ensures addressed { result ≢ Group.NoAddress }
    ensures shown { result ≡ Group.Reached → IsSome shown }
    ensures no_file { files_at result ≡ 0 }
    ensures orders { orders_at result ≤ orders_in (Err fault.now) }
    ensures sources { sources_at result ≤ sources_in (Err fault.now) }
{
    match fault {
        XfrFault::NoMemory => Group::NoMemory,
        XfrFault::Age { .. } if shown.is_some() => Group::Reached,
        _ => Group::Source,
    }
}

/// Installs a version that was fetched: what that came to, and its status. Where it isn't known to be fetched, that is
/// as if memory had run out.
#[tactic(auto, using(crate::proofs::workers::Stating::not_known))]
fn install_for<S, D, B, A, T, C, R>(
    setting: &WorkerSetting<'_, S, D, B, A, T, C, R>,
    reader: &mut B::Reader,
    charges: &mut Charges<S>,
    map: u32,
    version: Version,
    known: Option<FetchesFront<S>>,
) -> Carried<S>
where
    S: Site + Accounts + Supplies,
    D: Disk,
    B: Tell,
    A: Dial,
    T: Texts,
    C: Clock,
    R: RandomSource + Wait,
    requires map { map < length S.catalogue.maps }
    requires fetched { 0 < charges.old.versions }
    requires known { IsNoted (Ok version) known }
    ensures outcome { IsInstalledTo S.catalogue.own map result.group
        (B.Reader.seen reader.old).known (B.Reader.seen reader.new).known }
    ensures status { IsInstalledAs S.catalogue.own map version result.stat
        (B.Reader.seen reader.old).known (B.Reader.seen reader.new).known }
    ensures learned { Learns (B.Reader.seen reader.old) (B.Reader.seen reader.new) }
    ensures charged { ChargesMore (cost_of_install result.group) charges.old charges.new }
    ensures left { charges.new.left ≡ charges.old.left }
    ensures shows { ShowsFetched S.catalogue.own map result.stat
        (option_map (λ one. one.version.value) result.shown)
        (B.Reader.seen reader.old).known (B.Reader.seen reader.new).known }
    ensures known { IfSome result.shown (λ one. Contains one.known one.version.value) }
{
    let Some(known) = known else {
        return Carried::without(Group::NoMemory, XfrStat::Rsrc);
    };
    let shown = FetchedVersion {
        version: Snapshot::of(&version),
        known: known.again(),
    };
    match install_shared(
        setting.alloc,
        &setting.rt,
        setting.publisher,
        reader,
        MapOffer {
            map,
            version,
            origin: Origin::Fetched,
            known: Some(known),
        },
        &mut charges.debits,
    ) {
        Ok(()) => Carried {
            group: Group::Reached,
            stat: XfrStat::Succ,
            shown: Some(shown),
        },
        Err(fault) => {
            let stat = fault.stat();
            Carried::without(group_of(stat), stat)
        }
    }
}
