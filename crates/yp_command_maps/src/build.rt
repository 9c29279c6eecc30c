//! The command `build`: a map is built of a text, stored behind the version that stands, and told.

ghost use Rattle.std.specs.Prelude.{◌≡◌, ◌≢◌, ◌+◌, ◌≤◌, [], ◌∷◌, ℕ, List, Ok, None, length, IsTrue, IsSome};
ghost use Rattle.std.specs.Prelude.{IfSome, IfOk, IfErr, OnOk};
ghost use Rattle.yp_io.specs.Counts.{HasRisen};
ghost use Rattle.yp_io.specs.Disk.{LeavesOnly, MayLeave};
ghost use Rattle.yp_io.specs.Texts.{text_max};
ghost use Rattle.yp_version.specs.Limits.{master_max};
ghost use Rattle.yp_map_file.specs.Stands.{stands, Stored};
ghost use Rattle.yp_board.specs.Catalogues.{name_max, name_view};
ghost use Rattle.yp_board.specs.inside.Catalogues.{catalog_fault};
ghost use Rattle.yp_publisher.specs.Standing.{Level, OfMap, At};
ghost use Rattle.yp_publisher.specs.Installs.{no_further, IsInstalled};
ghost use Rattle.yp_command.specs.Forms.{kind_of};
ghost use Rattle.yp_command.specs.inside.Words.{IsNamed};
ghost use Rattle.yp_command.specs.office.Disks.{names_of};
ghost use Rattle.yp_command.specs.office.Seeing.{seeing, IsPassedOn};
ghost use Rattle.yp_command.specs.inside.office.Status.{IsTellable};
ghost use Rattle.yp_command_maps.specs.Disks.{only_tells, named_tells};
ghost use Rattle.yp_command_maps.specs.Build.{build_line};
ghost use Rattle.yp_command_maps.specs.inside.Build.{job_view, last_view, plan_of, is_early, StopsInstall};
ghost use Rattle.yp_command_maps.specs.Build.{StandsForPlan};
ghost use Rattle.yp_command_maps.specs.inside.Build.{IsAccepted, StopsBuild, IsBuiltAsPlanned};
ghost use Rattle.yp_command_maps.specs.Build.{LeavesFew};
ghost use Rattle.yp_command_maps.specs.inside.Build.{IsShownOrPlanned};
ghost use Rattle.yp_command_maps.specs.Build.{with_generation, fault_status};
ghost use Rattle.yp_command_maps.specs.inside.Build.{BuildsOn, unread_status, stop_of_open};
ghost use Rattle.yp_command_maps.specs.Build.{TellsLine};
ghost use Rattle.yp_command_maps.specs.inside.Build.{stop_of_build, stop_of_after, IsStatusOfStop, IsBuildEnd};
ghost use Rattle.yp_command_maps.specs.Build.{build_request, JobDoes, BuildDoes, LoadDoes, build_may_end};
ghost use Rattle.yp_command_maps.specs.inside.Build.{IsShortStop};

use crate::catalog::{OnlyMap, catalog_of};
use std::alloc::Global;
use std::random::RandomSource;
use yp_board::{MapName, PlainBoard};
use yp_command::office::{
    Apart, BYTES_RULE, KEY_RULE, Line, NamedDisk, Office, ROWS_RULE, Status, VALUE_RULE, add,
    add_map, add_number, put_together, take_apart,
};
use yp_io::{
    Clock, Dial, Disk, Failed, Inbox, NoMemory, Sink, Source, TEXT_MAX, Texts, Unread, read_all,
    write_through,
};
use yp_map_file::SlotFault;
use yp_publisher::{InstallFault, Installed, OpenFault, Origin, Publisher, open_publisher};
use yp_texts::{AfterFault, BuildFault, Kind, Maker, Reading, SourceText, build_after};
use yp_version::{Order, Version};

/// What is to be built.
#[derive(Drop)]
pub(crate) struct BuildJob {
    /// The own name.
    pub name: Vec<u8>,
    /// The map.
    pub store: MapName,
    /// How its text is read.
    pub reading: Reading,
    /// Whether the version is secure, where that is said.
    pub flag: Option<bool>,
}

/// What was built and stored.
#[derive(Clone, Copy, Drop)]
pub(crate) struct Built {
    pub order: Order,
    pub rows: usize,
    pub generation: u64,
}

/// What stopped a build, once the text was read.
#[derive(Debug, Drop)]
pub(crate) enum BuildStop {
    /// The stored file breaks this rule, first at this place.
    Damaged { at: u64, rule: u8 },
    /// This other host is the master of the version that stands.
    Master { master: Vec<u8> },
    /// The text makes no version.
    Fault(BuildFault),
    /// The file has the last generation.
    Spent,
    /// The disk failed.
    Disk,
    /// Memory ran out.
    NoMemory,
}

/// The line of a version that was stored.
fn line(store: &MapName, built: &Built) -> Line
    requires { IsNamed (name_view store.now) }
    ensures { result.items ≡ build_line (name_view store.now) built.now.order built.now.rows built.now.generation }
{
    let mut line = Line::new();
    add_map(&mut line, store);
    add(&mut line, b" order ");
    add_number(&mut line, u64::from(built.order.number()));
    add(&mut line, b" rows ");
    add_number(&mut line, built.rows as u64);
    add(&mut line, b" generation ");
    add_number(&mut line, built.generation);
    add(&mut line, b"\n");
    line
}

impl From<NoMemory> for BuildStop {
    ghost use Rattle.std.specs.Prelude.{◌≡◌};
    ghost use Rattle.yp_command_maps.specs.declared.build.BuildStop.TheVariants.{NoMemory as WithoutMemory};

    ghost from_gives = { λ fault stop. stop ≡ WithoutMemory };

    fn from(_fault: NoMemory) -> Self {
        BuildStop::NoMemory
    }
}

impl From<OpenFault> for BuildStop {
    ghost use Rattle.std.specs.Prelude.{◌≡◌};
    ghost use Rattle.yp_command_maps.specs.inside.Build.{stop_of_open};

    ghost from_gives = { λ fault stop. stop ≡ stop_of_open fault };

    fn from(fault: OpenFault) -> Self {
        match fault {
            OpenFault::Refused { fault, .. } => match fault {
                SlotFault::Damaged { at, rule } => BuildStop::Damaged { at, rule },
                SlotFault::DiskFault => BuildStop::Disk,
                SlotFault::NoMemory => BuildStop::NoMemory,
            },
            OpenFault::NoMemory => BuildStop::NoMemory,
        }
    }
}

impl From<AfterFault> for BuildStop {
    ghost use Rattle.std.specs.Prelude.{◌≡◌};
    ghost use Rattle.yp_command_maps.specs.inside.Build.{stop_of_after};

    ghost from_gives = { λ fault stop. stop ≡ stop_of_after fault };

    fn from(fault: AfterFault) -> Self {
        match fault {
            AfterFault::Foreign { master } => BuildStop::Master { master },
            AfterFault::Build(BuildFault::NoMemory) => BuildStop::NoMemory,
            AfterFault::Build(fault) => BuildStop::Fault(fault),
        }
    }
}

/// The version that is shown of the only map.
fn shown_of<D: Disk>(publisher: &Publisher<D, PlainBoard>) -> Option<&Version>
    requires { length publisher.now.maps ≡ 1 }
    ensures { OfMap 0 publisher.now.maps (λ kept. last_view result ≡ kept.version) }
{
    match publisher.shown(0) {
        Some(version) => Some(version),
        None => None,
    }
}

/// Stores a version of the only map, which is level.
fn store_version<D: Disk>(
    alloc: Global,
    publisher: &mut Publisher<D, PlainBoard>,
    version: Version,
) -> Result<Installed, BuildStop>
    requires only { length publisher.old.maps ≡ 1 }
    requires accepted { OfMap 0 publisher.old.maps (IsAccepted publisher.old.catalogue.own version) }
    ensures generation { IfOk result (λ installed. OfMap 0 publisher.old.maps
        (λ kept. installed.generation ≡ kept.generation + 1)) }
    ensures further { OnOk result (OfMap 0 publisher.old.maps (λ kept. no_further kept.generation ≡ None)) }
    ensures stored { OnOk result (At 0 publisher.old.maps publisher.new.maps (IsInstalled version)) }
    ensures stop { IfErr result (λ stop. OfMap 0 publisher.old.maps
        (λ kept. StopsInstall (no_further kept.generation) stop)) }
    ensures short { IfErr result IsShortStop }
    ensures early { IfErr result (λ stop. IsTrue (is_early stop) → publisher.new ≡ publisher.old) }
    ensures any_moment { At 0 publisher.old.maps publisher.new.maps (λ before after. LeavesOnly (D.history before.disk)
        (D.history after.disk) (IsShownOrPlanned (with_generation before.generation (Ok version)) before)) }
    ensures now { At 0 publisher.old.maps publisher.new.maps (λ before after. (image : List ℕ)
        → MayLeave (D.history after.disk) image → OnOk result (stands image ≡ Stored version)) }
    ensures few { At 0 publisher.old.maps publisher.new.maps
        (λ before after. LeavesFew (D.history before.disk) (D.history after.disk)) }
    ensures count { length publisher.new.maps ≡ 1 }
    ensures never_falls { At 0 publisher.old.maps publisher.new.maps
        (λ before after. D.faults before.disk ≤ D.faults after.disk) }
    ensures cause { IfErr result (λ stop. stop ≡ BuildStop.Disk
        → At 0 publisher.old.maps publisher.new.maps
        (λ before after. HasRisen (D.faults before.disk) (D.faults after.disk))) }
{
    match publisher.install(alloc, 0, version, Origin::Built, false) {
        Ok(installed) => Ok(installed),
        Err(InstallFault::GenerationsSpent) => Err(BuildStop::Spent),
        Err(InstallFault::DiskFault) => Err(BuildStop::Disk),
        Err(InstallFault::NoMemory) => Err(BuildStop::NoMemory),
        Err(_) => unreachable!(),
    }
}

/// Builds a version of a text behind the one that is shown, and stores it.
fn renew<D: Disk>(
    alloc: Global,
    rt: &impl RandomSource,
    job: &BuildJob,
    text: Vec<u8>,
    now: u32,
    publisher: &mut Publisher<D, PlainBoard>,
) -> Result<Built, BuildStop>
    requires text { length text.items ≤ text_max }
    requires name { length job.now.name.items ≤ master_max }
    requires own { publisher.old.catalogue.own ≡ job.now.name.items }
    requires only { length publisher.old.maps ≡ 1 }
    requires level { OfMap 0 publisher.old.maps (λ kept. kept.standing ≡ Level) }
    ensures built { IfOk result (λ made. OfMap 0 publisher.old.maps
        (λ kept. IsBuiltAsPlanned (plan_of (job_view job.now) text.items now kept) kept.generation made)) }
    ensures stop { IfErr result (λ stop. OfMap 0 publisher.old.maps
        (λ kept. StopsBuild (plan_of (job_view job.now) text.items now kept) stop)) }
    ensures stored { OnOk result (At 0 publisher.old.maps publisher.new.maps (λ before after. (image : List ℕ)
        → MayLeave (D.history after.disk) image → StandsForPlan
        (plan_of (job_view job.now) text.items now before) image)) }
    ensures any_moment { At 0 publisher.old.maps publisher.new.maps (λ before after. LeavesOnly (D.history before.disk)
        (D.history after.disk) (IsShownOrPlanned (plan_of (job_view job.now) text.items now before) before)) }
    ensures few { At 0 publisher.old.maps publisher.new.maps
        (λ before after. LeavesFew (D.history before.disk) (D.history after.disk)) }
    ensures short { IfErr result IsShortStop }
    ensures early { IfErr result (λ stop. IsTrue (is_early stop) → publisher.new ≡ publisher.old) }
    ensures count { length publisher.new.maps ≡ 1 }
    ensures never_falls { At 0 publisher.old.maps publisher.new.maps
        (λ before after. D.faults before.disk ≤ D.faults after.disk) }
    ensures cause { IfErr result (λ stop. stop ≡ BuildStop.Disk → At 0 publisher.old.maps publisher.new.maps
        (λ before after. HasRisen (D.faults before.disk) (D.faults after.disk))) }
{
    let _standing = publisher.standing(0);
    let last = shown_of(publisher);
    let source = SourceText {
        reading: job.reading,
        text,
    };
    let maker = Maker {
        name: &job.name,
        moment: now,
    };
    let version = build_after(alloc, rt, source, last, job.flag, &maker)?;
    let (order, rows) = (version.order(), version.len());
    let installed = store_version(alloc, publisher, version)?;
    Ok(Built {
        order,
        rows,
        generation: installed.generation,
    })
}

/// Builds a version of a text behind the one that the only map has, and stores it there.
fn build_over<D: Disk>(
    alloc: Global,
    rt: &impl RandomSource,
    job: &BuildJob,
    text: Vec<u8>,
    now: u32,
    only: OnlyMap<D>,
) -> (Result<Built, BuildStop>, Vec<D>)
    requires text { length text.items ≤ text_max }
    requires name { length job.now.name.items ≤ master_max }
    requires own { only.catalog.own ≡ job.now.name.items }
    requires map { length only.catalog.maps ≡ 1 }
    requires only { length only.disks.items ≡ 1 }
    ensures builds { BuildsOn (job_view job.now) text.items now result.0
        (only_tells D.history D.faults only.disks.items) (only_tells D.history D.faults result.1.items) }
    ensures short { IfErr result.0 IsShortStop }
    ensures only { length result.1.items ≡ 1 }
{
    match open_publisher(alloc, rt, only.catalog, only.disks) {
        Err(refused) => (Err(refused.fault.into()), refused.disks),
        Ok(mut publisher) => {
            let built = renew(alloc, rt, job, text, now, &mut publisher);
            let (disks, _board) = publisher.into_parts();
            (built, disks)
        }
    }
}

/// Builds a map over its disk, which keeps the name of the map.
fn build_on<D: Disk>(
    alloc: Global,
    rt: &impl RandomSource,
    job: &BuildJob,
    text: Vec<u8>,
    now: u32,
    disks: &mut Vec<NamedDisk<D>>,
) -> Result<Built, BuildStop>
    requires text { length text.items ≤ text_max }
    requires name { length job.now.name.items ≤ master_max }
    requires catalogue { catalog_fault job.now.name.items (name_view job.now.store ∷ []) ≡ None }
    requires only { length disks.old.items ≡ 1 }
    ensures builds { BuildsOn (job_view job.now) text.items now result
        (named_tells D.history D.faults disks.old.items) (named_tells D.history D.faults disks.new.items) }
    ensures short { IfErr result IsShortStop }
    ensures names { names_of disks.new.items ≡ names_of disks.old.items }
{
    let catalog = catalog_of(alloc, &job.name, &job.store)?;
    let Apart {
        names,
        disks: apart,
    } = take_apart(alloc, disks)?;
    let only = OnlyMap {
        catalog,
        disks: apart,
    };
    let (built, apart) = build_over(alloc, rt, job, text, now, only);
    let apart = Apart {
        names,
        disks: apart,
    };
    put_together(disks, apart);
    built
}

/// The status of a text that wasn't read.
fn status_unread(unread: Unread) -> Status
    ensures status { result ≡ unread_status unread }
    ensures may_end { IsTrue (build_may_end result) }
{
    match unread {
        Unread::Failed => Status::ReadFault,
        Unread::TooLong => Status::TooLong {
            at: TEXT_MAX as u64,
        },
        Unread::NoMemory => Status::NoMemory,
    }
}

/// The status of a text that makes no version.
fn status_of_fault(fault: BuildFault) -> Status
    ensures { result ≡ fault_status fault }
{
    let (row, rule) = match fault {
        BuildFault::OrderSpent => return Status::OrderSpent,
        BuildFault::NoMemory => return Status::NoMemory,
        BuildFault::KeyLong { line } => (line, KEY_RULE),
        BuildFault::ValueLong { line } => (line, VALUE_RULE),
        BuildFault::TooManyRows { line } => (line, ROWS_RULE),
        BuildFault::TooBig { line } => (line, BYTES_RULE),
    };
    Status::Rows { row, rule }
}

/// The status of a build that was stopped.
fn status_stopped(store: MapName, stop: BuildStop) -> Status
    ensures { IsStatusOfStop store stop result }
{
    match stop {
        BuildStop::Damaged { at, rule } => Status::Damaged {
            map: store,
            at,
            rule,
        },
        BuildStop::Master { master } => Status::Refused { master },
        BuildStop::Fault(fault) => status_of_fault(fault),
        BuildStop::Spent => Status::GenerationsSpent { map: store },
        BuildStop::Disk => Status::DiskFault { map: store },
        BuildStop::NoMemory => Status::NoMemory,
    }
}

/// Tells what was stored.
pub(crate) fn tell_built<K: Sink>(sink: &mut K, store: &MapName, built: &Built) -> Status
    requires { IsNamed (name_view store.now) }
    ensures tells { TellsLine (build_line (name_view store.now) built.now.order built.now.rows built.now.generation)
        result (K.output sink.old) (K.output sink.new) }
    ensures flushed { result ≢ Status.WriteFault → IsTrue (K.flushed sink.new) }
    ensures write_fault { result ≡ Status.WriteFault → HasRisen (K.faults sink.old) (K.faults sink.new) }
{
    match write_through(sink, &line(store, built)) {
        Ok(()) => Status::Done,
        Err(Failed) => Status::WriteFault,
    }
}

/// Tells what was stored, or what stopped the build.
fn tell_end<K: Sink>(sink: &mut K, store: MapName, built: Result<Built, BuildStop>) -> Status
    requires named { IsNamed (name_view store) }
    requires short { IfErr built IsShortStop }
    ensures ends { IsBuildEnd store built result (K.output sink.old) (K.output sink.new) }
    ensures may_end { IsTrue (build_may_end result) }
    ensures tellable { IsTellable result }
    ensures flushed { result ≢ Status.WriteFault → IsTrue (K.flushed sink.old) → IsTrue (K.flushed sink.new) }
    ensures write_fault { result ≡ Status.WriteFault → HasRisen (K.faults sink.old) (K.faults sink.new) }
{
    match built {
        Ok(built) => tell_built(sink, &store, &built),
        Err(stop) => status_stopped(store, stop),
    }
}

/// Makes a map of the text on the input, stores it on the only disk, and tells what was stored.
fn make_map<S: Source, K: Sink, D: Disk, C: Clock, A: Dial, I: Inbox, T: Texts>(
    alloc: Global,
    rt: &impl RandomSource,
    job: BuildJob,
    office: &mut Office<S, K, D, C, A, I, T>,
) -> Status
    requires named { IsNamed (name_view job.store) }
    requires name { length job.name.items ≤ name_max }
    requires catalogue { catalog_fault job.name.items (name_view job.store ∷ []) ≡ None }
    requires only { names_of office.old.disks.items ≡ name_view job.store ∷ [] }
    ensures does { JobDoes (seeing S.Source K.Sink D.Disk C.Clock A.Dial I.Inbox T.Texts)
        (job_view job) result office.old office.new }
    ensures may_end { IsTrue (build_may_end result) }
    ensures passed_on { IsPassedOn (seeing S.Source K.Sink D.Disk C.Clock A.Dial I.Inbox T.Texts)
        result office.old office.new }
    ensures tellable { IsTellable result }
{
    let text = match read_all(alloc, &mut office.wire.source, TEXT_MAX) {
        Ok(text) => text,
        Err(unread) => return status_unread(unread),
    };
    let now = office.clock.now();
    let built = build_on(alloc, rt, &job, text, now, &mut office.disks);
    tell_end(&mut office.wire.sink, job.store, built)
}

/// Builds a map of the text of its kind on the input, stores it on the only disk, and tells what was stored. `name` is
/// the own name.
pub fn build_map<S: Source, K: Sink, D: Disk, C: Clock, A: Dial, I: Inbox, T: Texts>(
    alloc: Global,
    rt: &impl RandomSource,
    name: Vec<u8>,
    store: MapName,
    flag: Option<bool>,
    office: &mut Office<S, K, D, C, A, I, T>,
) -> Status
    requires named { IsNamed (name_view store) }
    requires name { length name.items ≤ name_max }
    requires catalogue { catalog_fault name.items (name_view store ∷ []) ≡ None }
    requires kind { IsSome (kind_of (name_view store)) }
    requires only { names_of office.old.disks.items ≡ name_view store ∷ [] }
    ensures does { BuildDoes (seeing S.Source K.Sink D.Disk C.Clock A.Dial I.Inbox T.Texts)
        (build_request name.items (name_view store) flag) result office.old office.new }
    ensures may_end { IsTrue (build_may_end result) }
    ensures passed_on { IsPassedOn (seeing S.Source K.Sink D.Disk C.Clock A.Dial I.Inbox T.Texts)
        result office.old office.new }
    ensures tellable { IsTellable result }
{
    let Some(kind) = Kind::of_name(&store.map) else {
        unreachable!()
    };
    let job = BuildJob {
        name,
        store,
        reading: Reading::Text(kind),
        flag,
    };
    make_map(alloc, rt, job, office)
}

/// Makes a map of the rows on the input, stores it on the only disk, and tells what was stored. `name` is the own name.
pub fn load_map<S: Source, K: Sink, D: Disk, C: Clock, A: Dial, I: Inbox, T: Texts>(
    alloc: Global,
    rt: &impl RandomSource,
    name: Vec<u8>,
    store: MapName,
    flag: Option<bool>,
    office: &mut Office<S, K, D, C, A, I, T>,
) -> Status
    requires named { IsNamed (name_view store) }
    requires name { length name.items ≤ name_max }
    requires catalogue { catalog_fault name.items (name_view store ∷ []) ≡ None }
    requires only { names_of office.old.disks.items ≡ name_view store ∷ [] }
    ensures does { LoadDoes (seeing S.Source K.Sink D.Disk C.Clock A.Dial I.Inbox T.Texts)
        (build_request name.items (name_view store) flag) result office.old office.new }
    ensures may_end { IsTrue (build_may_end result) }
    ensures passed_on { IsPassedOn (seeing S.Source K.Sink D.Disk C.Clock A.Dial I.Inbox T.Texts)
        result office.old office.new }
    ensures tellable { IsTellable result }
{
    let job = BuildJob {
        name,
        store,
        reading: Reading::Rows,
        flag,
    };
    make_map(alloc, rt, job, office)
}
