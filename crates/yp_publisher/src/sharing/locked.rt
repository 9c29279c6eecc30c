//! What lies under the lock.

ghost use Rattle.std.specs.Prelude.{◌≡◌, ℕ, ◌+◌, ◌<◌, ◌≤◌, false, length, map, option_map, OnOk, OnErr, IfErr, None};
ghost use Rattle.std.specs.Arc.{arc_value};
ghost use Rattle.std.specs.Option.{option_map_or};
ghost use Rattle.yp_board.specs.Logs.{shown};
ghost use Rattle.yp_board.specs.Views.{IsFront};
ghost use Rattle.yp_publisher.specs.Standing.{Level, OfMap};
ghost use Rattle.yp_publisher.specs.Installs.{Installs, not_following};
ghost use Rattle.yp_publisher.specs.Keeping.{keeping_of};
ghost use Rattle.yp_publisher.specs.Rising.{publisher_state, with_shown, IsRisingLog};
ghost use Rattle.yp_publisher.specs.inside.Rising.{IsStart};
ghost use Rattle.yp_publisher.specs.Grown.{AreTold};
ghost use Rattle.yp_publisher.specs.sharing.Shares.{offer_behind};
ghost use Rattle.yp_publisher.specs.inside.sharing.Shares.{candidate, OpensAndInstalls, IsNotInstalled, OfferIsRefused};
ghost use Rattle.yp_publisher.specs.sharing.Shares.{IsShownBehind, Learns};
ghost use Rattle.yp_publisher.specs.sharing.Shares.{IsReason};
ghost use Rattle.yp_publisher.specs.sharing.Failures.{faults_over, disks_of};
ghost use Rattle.yp_publisher.specs.inside.sharing.Failures.{failures_in, failures_of, made_by, Covers};
ghost use Rattle.yp_publisher.specs.inside.sharing.Debits.{DebitIsCharged};
ghost use Rattle.yp_publisher.specs.sharing.Sources.{IsSourced};
ghost use Rattle.yp_publisher.specs.inside.sharing.Sources.{IsBuiltThere, fetched_in};
ghost use Rattle.yp_publisher.specs.sharing.Tracing.{IsNewBehind, Traces};
ghost use Rattle.yp_publisher.specs.inside.sharing.Tracing.{IsKnownFetched};

use crate::laws::log_rises;
use crate::sharing::debits::Debits;
use crate::sharing::fetches::FetchesFront;
use crate::{InstallFault, Origin, Publisher};
use std::alloc::Global;
use std::marker::{Brand, Model, PhantomData};
use std::random::RandomSource;
use std::sync::Arc;
use std::sync::ledger::{Book, Ledger, Share};
use yp_board::{Show, Tell};
use yp_io::{Disk, NoMemory};
use yp_map_file::SlotFault;
use yp_messages::XfrStat;
use yp_version::Version;

/// Which maps are served. Each call of a program that shares a publisher picks it.
pub trait Site {
    ghost use Rattle.yp_board.specs.Catalogues.{Catalogue};

    /// The own name, and the maps.
    ghost catalogue: { Catalogue };
}

impl Site for Brand {
    ghost use Rattle.std.specs.Prelude.{[]};

    ghost catalogue = { record { own = []; maps = [] } };
}

/// How a site stood before its publisher was shared, what its disks told and how often they had failed, the ledgers of
/// what is counted since then, and the log of what is fetched since then. Each call of a program that shares a
/// publisher picks it.
pub trait Accounts {
    ghost use Rattle.std.specs.Prelude.{ℕ, List, Option};
    ghost use Rattle.logbook.specs.Pages.{Book};
    ghost use Rattle.yp_io.specs.Disk.{History};
    ghost use Rattle.yp_version.specs.Versions.{MapVersion};
    ghost use Rattle.yp_board.specs.Logs.{Log};
    ghost use Rattle.yp_publisher.specs.Rising.{PublisherState};

    /// What it is that a version was built of what a log shows, behind the last one of its map.
    ghost built: { Log → ℕ → Option MapVersion → MapVersion → Type 0 };

    /// What was shown, and how each map stood.
    ghost first: { PublisherState };

    /// What its disks told, in the order of the maps.
    ghost histories: { List (Option History) };

    /// How often its disks had failed.
    ghost disk_faults: { ℕ };

    /// The name of the ledger of files that failed.
    ghost failures: { ℕ };

    /// The name of the ledger of built versions that were shown.
    ghost made: { ℕ };

    /// The name of the ledger of versions that were fetched.
    ghost versions: { ℕ };

    /// The book whose history is the log of those versions.
    ghost fetched: { Book };

    /// Into how many parts its ledgers are cut.
    ghost shares: { ℕ };
}

impl Accounts for Brand {
    ghost use Rattle.std.specs.Prelude.{[]};

    ghost built = { λ log number last version. Unit {0} };

    ghost first = { record { log = []; standings = [] } };

    ghost histories = { [] };

    ghost disk_faults = { 0 };

    ghost failures = { 0 };

    ghost made = { 0 };

    ghost versions = { 0 };

    ghost fetched = { record { number = 0; log_name = 0; cells_name = 0 } };

    ghost shares = { 0 };
}

/// The ledger of the failed files of a site.
#[derive(Drop)]
pub struct FailedFiles<S: Accounts> {
    of: PhantomData<S>,
}

impl<S: Accounts> Ledger for FailedFiles<S> {
    ghost name = { S.failures };

    ghost parts = { S.shares };
}

/// The ledger of the built versions of a site that were shown.
#[derive(Drop)]
pub struct BuiltVersions<S: Accounts> {
    of: PhantomData<S>,
}

impl<S: Accounts> Ledger for BuiltVersions<S> {
    ghost name = { S.made };

    ghost parts = { S.shares };
}

/// The ledger of the versions that were fetched for a site. Its book isn't here. One part more than of the others lies
/// with the publisher.
#[derive(Drop)]
pub struct FetchedVersions<S: Accounts> {
    of: PhantomData<S>,
}

impl<S: Accounts> Ledger for FetchedVersions<S> {
    ghost use Rattle.std.specs.Prelude.{◌+◌};

    ghost name = { S.versions };

    ghost parts = { S.shares + 1 };
}

/// Why a version wasn't installed, or why the reader doesn't know it.
#[derive(Debug, PartialEq, Eq, Drop)]
pub enum ShareFault {
    /// The file of the map, which is behind, wasn't opened again.
    Shut(SlotFault),
    /// The version was refused.
    Unfit(InstallFault),
    /// Whatever came of it, memory ran out while the reader was told.
    Untold,
}

/// A version of a map that is offered to a publisher under its lock. One that was fetched comes with a front of the log
/// of fetched versions that has it.
#[derive(Drop)]
pub struct MapOffer<S: Accounts> {
    /// The number of the map.
    pub map: u32,
    pub version: Version,
    pub origin: Origin,
    pub known: Option<FetchesFront<S>>,
}

/// A publisher of the maps that are served, for a lock to keep, with the books of the files that failed and of the
/// built versions that were shown since it is shared, with what stands for the fetched versions that were installed,
/// and with a front of the log of fetched versions that has them. It is seen as that publisher.
#[derive(Drop)]
pub struct Locked<S: Site + Accounts, D: Disk, B: Show> {
    publisher: Publisher<D, B>,
    failures: Book<FailedFiles<S>>,
    made: Book<BuiltVersions<S>>,
    versions: Share<FetchedVersions<S>>,
    fetches: FetchesFront<S>,
}

impl<S: Site + Accounts, D: Disk, B: Show> Model for Locked<S, D, B> {
    ghost use Rattle.std.specs.Prelude.{◌≡◌, ◌<◌};
    ghost use Rattle.yp_publisher.specs.Standing.{Published};
    ghost use Rattle.yp_publisher.specs.Keeping.{keeping_of};
    ghost use Rattle.yp_publisher.specs.inside.sharing.Failures.{Covers};
    ghost use Rattle.yp_publisher.specs.inside.sharing.Moments.{IsLed};
    ghost use Rattle.yp_publisher.specs.inside.sharing.Sources.{IsSourcedAt};
    ghost use Rattle.yp_publisher.specs.inside.sharing.Tracing.{IsTracedAt};

    ghost Value = { Published D B };

    ghost view = { λ l. l.publisher };

    ghost invariant = { λ l. (l.publisher.catalogue ≡ S.catalogue)
        × Covers D.history D.faults S.disk_faults l.publisher.maps l.failures.total
        × IsLed (keeping_of D.history D.faults B.log) S.first l.publisher
        × IsSourcedAt (keeping_of D.history D.faults B.log) S.built S.first l.publisher l.made.total l.versions.amount
        × IsTracedAt (keeping_of D.history D.faults B.log) S.built l.fetches S.first S.histories l.publisher
        × (0 < l.versions.parts) };
}

impl<S: Site + Accounts, D: Disk, B: Show> Locked<S, D, B> {
    /// A publisher of the maps that are served, with the books of what is counted from now on, a part of the ledger of
    /// fetched versions, and a front of their log.
    pub fn new(
        publisher: Publisher<D, B>,
        failures: Book<FailedFiles<S>>,
        made: Book<BuiltVersions<S>>,
        versions: Share<FetchedVersions<S>>,
        fetches: FetchesFront<S>,
    ) -> Locked<S, D, B>
        requires site { publisher.catalogue ≡ S.catalogue }
        requires first { publisher_state B.log publisher ≡ S.first }
        requires histories { map D.history (disks_of publisher.maps) ≡ S.histories }
        requires before { faults_over D.faults (disks_of publisher.maps) ≡ S.disk_faults }
        requires none { (failures.total ≡ 0) × (made.total ≡ 0) }
        requires part { 0 < versions.parts }
        ensures { result ≡ publisher }
    {
        let _catalog = publisher.catalog();
        Locked {
            publisher,
            failures,
            made,
            versions,
            fetches,
        }
    }

    /// The publisher, once the lock is left, what stands for the fetched versions that were installed, and a front of
    /// the log of fetched versions that has them. The failed files that a caller was charged with are at most as many
    /// as the faults of its disks. From a start, over disks that tell what a crash may leave of them, the orders of
    /// each map rise in the log; at least as many built versions were shown as the caller was charged with; and the
    /// other versions that were shown, with those that maps are behind, are at most as many as were fetched. Each
    /// version was built or fetched. At each moment a crash leaves of a map what a front of the log shows, or a version
    /// that was built or fetched behind that front, and the fronts only grow from moment to moment.
    pub fn close(
        self,
        charge: &mut Debits<S>,
    ) -> (Publisher<D, B>, Share<FetchedVersions<S>>, FetchesFront<S>)
        ensures publisher { result.0 ≡ self }
        ensures catalogue { result.0.catalogue ≡ S.catalogue }
        ensures covered { Covers D.history D.faults S.disk_faults result.0.maps charge.old.failures }
        ensures rises { IsStart S.first → AreTold D.history (disks_of result.0.maps)
            → IsRisingLog (B.log result.0.board) }
        ensures sourced { (made : ℕ) → made ≤ charge.old.made → IsStart S.first
            → AreTold D.history (disks_of result.0.maps)
            → IsSourced S.built S.first (publisher_state B.log result.0) made result.1.amount }
        ensures traced { IsStart S.first → Traces D.history (IsNewBehind S.built result.2) S.first.log
            (B.log result.0.board) S.histories result.0.maps }
    {
        log_rises();
        let Locked {
            publisher,
            mut failures,
            mut made,
            versions,
            fetches,
        } = self;
        failures.audit(&mut charge.failures);
        made.audit(&mut charge.made);
        (publisher, versions, fetches)
    }

    /// Stores a version of a map, and then shows it. A map that is behind is opened again first. The version is marked
    /// as the one that is shown then, and has to have a higher order. At each moment of the call a crash leaves a file
    /// that stands as the map stood, or for that version. Where its file failed, that is charged, and so is a built
    /// version that is shown. What stands for a fetched version goes over to the publisher, and so does a front of the
    /// log of fetched versions that has it.
    pub fn install(
        &mut self,
        alloc: Global,
        rt: &impl RandomSource,
        offer: MapOffer<S>,
        charge: &mut Debits<S>,
    ) -> Result<(), ShareFault>
        requires map { offer.map < length S.catalogue.maps }
        requires built { IsBuiltThere S.built (B.log self.old.board) offer.map S.catalogue.own offer.version
            offer.origin }
        requires fetched { fetched_in offer.origin ≤ charge.old.versions }
        requires known { IsKnownFetched offer.version offer.origin offer.known }
        ensures installed { OnOk result (OpensAndInstalls (keeping_of D.history D.faults B.log)
            (candidate offer.map offer.version offer.origin) self.old self.new) }
        ensures refused { IfErr result (λ fault. IsNotInstalled (keeping_of D.history D.faults B.log)
            (candidate offer.map offer.version offer.origin) fault self.old self.new) }

        // What that is to the log.
        ensures shown { OnOk result (IsShownBehind S.catalogue.own offer.map offer.version offer.origin
            (B.log self.old.board) (B.log self.new.board)) }
        ensures reason { IfErr result (λ fault. IsReason S.catalogue.own offer.map offer.version offer.origin fault
            (B.log self.new.board)) }
        ensures grown { IsFront (B.log self.old.board) (B.log self.new.board) }

        // What it is charged with.
        ensures charged { DebitIsCharged (failures_of result) (made_by offer.origin result)
            (fetched_in offer.origin) charge.old charge.new }
    {
        let MapOffer {
            map,
            version,
            origin,
            known,
        } = offer;
        let _catalog = self.publisher.catalog();
        self.fetches = self.fetches.with_known(known);
        let installed = open_and_offer(alloc, rt, &mut self.publisher, map, version, origin);
        self.failures
            .add(&mut charge.failures, failures_of(&installed));
        self.made.add(&mut charge.made, made_by(origin, &installed));
        charge
            .versions
            .transfer(&mut self.versions, fetched_in(origin));
        installed
    }
}

impl<S: Site + Accounts, D: Disk, B: Tell> Locked<S, D, B> {
    /// Lets a reader of the board know all that was shown. After a refusal nothing has changed.
    pub fn tell_to(&mut self, reader: &mut B::Reader) -> Result<(), NoMemory>
        ensures same { self.new ≡ self.old }
        ensures front { IsFront (B.Reader.seen reader.old).known (B.log self.old.board) }
        ensures told { OnOk result (B.Reader.seen reader.new
            ≡ record (B.Reader.seen reader.old) { known = B.log self.old.board }) }
        ensures refused { OnErr result (reader.new ≡ reader.old) }
    {
        self.publisher.tell_to(reader)
    }

    /// What a reader of the board knew is a front of all that was shown. The call changes nothing.
    pub fn covers(&mut self, front: &B::Front)
        ensures front { IsFront (B.kept front.now) (B.log self.old.board) }
        ensures same { self.new ≡ self.old }
    {
        self.publisher.covers(front);
    }

    /// Installs a version as [`Locked::install`] does, and lets a reader of the board know what was shown.
    #[tactic(auto, using(crate::proofs::sharing::Learning::learned))]
    pub fn install_for(
        &mut self,
        alloc: Global,
        rt: &impl RandomSource,
        reader: &mut B::Reader,
        offer: MapOffer<S>,
        charge: &mut Debits<S>,
    ) -> Result<(), ShareFault>
        requires map { offer.map < length S.catalogue.maps }
        requires built { IsBuiltThere S.built (B.Reader.seen reader.old).known
            offer.map S.catalogue.own offer.version offer.origin }
        requires fetched { fetched_in offer.origin ≤ charge.old.versions }
        requires known { IsKnownFetched offer.version offer.origin offer.known }
        ensures shown { OnOk result (IsShownBehind S.catalogue.own offer.map offer.version offer.origin
            (B.Reader.seen reader.old).known (B.Reader.seen reader.new).known) }
        ensures reason { IfErr result (λ fault. IsReason S.catalogue.own offer.map offer.version offer.origin fault
            (B.Reader.seen reader.new).known) }
        ensures learned { Learns (B.Reader.seen reader.old) (B.Reader.seen reader.new) }
        ensures charged { DebitIsCharged (failures_of result) (made_by offer.origin result)
            (fetched_in offer.origin) charge.old charge.new }
    {
        // It needn't know what was shown before, but that this begins with all that it knows.
        let _ = self.tell_to(reader);
        let installed = self.install(alloc, rt, offer, charge);
        match self.tell_to(reader) {
            Ok(()) => installed,
            Err(NoMemory) => Err(ShareFault::Untold),
        }
    }
}

/// How many built versions an install has shown.
fn made_by(origin: Origin, installed: &Result<(), ShareFault>) -> u64
    ensures { result ≡ made_by origin installed.now }
{
    match (origin, installed) {
        (Origin::Built, Ok(())) => 1,
        _ => 0,
    }
}

/// How many fetched versions an install takes.
fn fetched_in(origin: Origin) -> u64
    ensures { result ≡ fetched_in origin }
{
    match origin {
        Origin::Built => 0,
        Origin::Fetched => 1,
    }
}

/// How many failed files the outcome of an install stands for.
fn failures_of(installed: &Result<(), ShareFault>) -> u64
    ensures { result ≡ failures_of installed.now }
{
    match installed {
        Ok(()) => 0,
        Err(fault) => failures_in(fault),
    }
}

/// How many failed files a fault stands for, by the status that is told of it.
fn failures_in(fault: &ShareFault) -> u64
    ensures { result ≡ failures_in fault.now }
{
    match fault.stat() {
        XfrStat::File => 1,
        _ => 0,
    }
}

/// Opens the file of a map again where it is behind, and offers a version of it, marked as the one that is shown.
fn open_and_offer<D: Disk, B: Show>(
    alloc: Global,
    rt: &impl RandomSource,
    publisher: &mut Publisher<D, B>,
    map: u32,
    version: Version,
    origin: Origin,
) -> Result<(), ShareFault>
    requires { map < length publisher.old.maps }
    ensures installed { OnOk result (OpensAndInstalls (keeping_of D.history D.faults B.log)
        (candidate map version origin) publisher.old publisher.new) }
    ensures refused { IfErr result (λ fault. IsNotInstalled (keeping_of D.history D.faults B.log)
        (candidate map version origin) fault publisher.old publisher.new) }
    ensures shown { OnOk result (IsShownBehind publisher.old.catalogue.own map version origin
        (B.log publisher.old.board) (B.log publisher.new.board)) }
    ensures reason { IfErr result (λ fault. IsReason publisher.old.catalogue.own map version origin fault
        (B.log publisher.new.board)) }
    ensures grown { IsFront (B.log publisher.old.board) (B.log publisher.new.board) }
    ensures catalogue { publisher.new.catalogue ≡ publisher.old.catalogue }
{
    match publisher.reopen(alloc, rt, map) {
        Ok(()) => offer(alloc, publisher, map, version, origin),
        Err(fault) => Err(ShareFault::Shut(fault)),
    }
}

/// Offers a version of a level map, marked as the one that is shown.
#[tactic(auto, using(crate::proofs::sharing::Installing::unshown))]
fn offer<D: Disk, B: Show>(
    alloc: Global,
    publisher: &mut Publisher<D, B>,
    map: u32,
    version: Version,
    origin: Origin,
) -> Result<(), ShareFault>
    requires map { map < length publisher.old.maps }
    requires level { OfMap map publisher.old.maps (λ kept. kept.standing ≡ Level) }
    ensures installed { OnOk result (Installs (keeping_of D.history D.faults B.log) map
        (offer_behind map version origin (B.log publisher.old.board)) publisher.old publisher.new) }
    ensures refused { IfErr result (λ fault. OfferIsRefused (keeping_of D.history D.faults B.log) map
        (offer_behind map version origin (B.log publisher.old.board)) fault publisher.old publisher.new) }
    ensures follows { OnOk result (not_following publisher.old.catalogue.own
        (offer_behind map version origin (B.log publisher.old.board)) (shown map (B.log publisher.old.board)) ≡ None) }
    ensures reason { IfErr result (λ fault. IsReason publisher.old.catalogue.own map version origin fault
        (B.log publisher.old.board)) }
    ensures unshown { OnErr result (publisher.new.board ≡ publisher.old.board) }
    ensures catalogue { publisher.new.catalogue ≡ publisher.old.catalogue }
{
    let secure = was_secure(publisher.shown(map));
    match publisher.install(alloc, map, version.marked(secure), origin, false) {
        Ok(_) => Ok(()),
        Err(fault) => Err(ShareFault::Unfit(fault)),
    }
}

/// Whether the version that is shown is secure, and no where none is.
fn was_secure(shown: Option<&Arc<Version>>) -> bool
    ensures { result ≡ option_map_or (λ version. version.secure)
        (option_map (λ version. arc_value version.now) shown.entry) false }
{
    match shown {
        Some(version) => version.secure(),
        None => false,
    }
}
