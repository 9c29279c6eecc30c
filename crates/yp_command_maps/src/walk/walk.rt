//! The command `walk`: a map is fetched row by row in datagrams, stored behind the version that stands, and told.

ghost use Rattle.std.specs.Prelude.{◌≡◌, ◌≢◌, true, false, [], ◌∷◌, Err, OnErr, List, None, length, option_map};
ghost use Rattle.std.specs.Prelude.{IsTrue};
ghost use Rattle.yp_io.specs.Counts.{HasRisen};
ghost use Rattle.yp_board.specs.Catalogues.{name_view};
ghost use Rattle.yp_board.specs.inside.Catalogues.{catalog_fault};
ghost use Rattle.yp_board.specs.Logs.{shown};
ghost use Rattle.yp_command.specs.inside.Words.{IsNamed};
ghost use Rattle.yp_rpc.specs.Turns.{InboxTells};
ghost use Rattle.yp_rpc.specs.inside.Turns.{box_by};
ghost use Rattle.yp_publisher.specs.inside.Begins.{BeginsLevel};
ghost use Rattle.yp_transfer.specs.Fetching.{wanted_of};
ghost use Rattle.yp_command.specs.office.Disks.{names_of};
ghost use Rattle.yp_command.specs.office.Seeing.{seeing, IsPassedOn};
ghost use Rattle.yp_command.specs.inside.office.Status.{IsTellable};
ghost use Rattle.yp_command_maps.specs.Disks.{only_tells, named_tells};
ghost use Rattle.yp_command_maps.specs.inside.Xfr.{xfr_job_view, catalogue_of, IsReady};
ghost use Rattle.yp_command_maps.specs.declared.walk.walker.Came.TheVariants.{Failed as HasFailed};
ghost use Rattle.yp_command_maps.specs.declared.walk.walk.WalkStop.TheVariants.{InboxFault as NoInbox};
ghost use Rattle.yp_command_maps.specs.walk.Turns.{WalksTo};
ghost use Rattle.yp_command_maps.specs.walk.Walk.{walk_tells, walk_may_end};
ghost use Rattle.yp_command_maps.specs.inside.walk.Walk.{Moved, is_unmailed, IsWalkEnd};
ghost use Rattle.yp_command_maps.specs.walk.Walk.{WalkDoes};

use crate::walk::walker::{Came, walk_inbox};
use crate::{
    OnlyMap, XfrStop, catalog_of, hand_back, open_only, shown_order, store_fetched, tell_transfer,
};
use std::alloc::Global;
use std::random::RandomSource;
use yp_board::{MapName, PlainBoard};
use yp_command::WalkJob;
use yp_command::office::{Apart, NamedDisk, Office, Status, put_together, take_apart};
use yp_io::{Clock, Dial, Disk, Inbox, NoMemory, Sink, Source, Texts};
use yp_map_file::SlotFault;
use yp_publisher::{Installed, Publisher};
use yp_rpc::Room;

/// Why a map isn't fetched and stored.
#[derive(Clone, Copy, Debug)]
pub enum WalkStop {
    /// What stops a transfer.
    Transfer(XfrStop),
    /// All turns were taken before.
    Unanswered,
    /// The inbox failed.
    InboxFault,
}

impl From<NoMemory> for WalkStop {
    ghost use Rattle.std.specs.Prelude.{◌≡◌};
    ghost use Rattle.yp_map_file.specs.declared.fault.SlotFault.TheVariants.{NoMemory as WithoutMemory};
    ghost use Rattle.yp_command_maps.specs.declared.xfr.XfrStop.TheVariants.{Unloaded};
    ghost use Rattle.yp_command_maps.specs.declared.walk.walk.WalkStop.TheVariants.{Transfer};

    ghost from_gives = { λ fault stop. stop ≡ Transfer (Unloaded WithoutMemory) };

    fn from(_fault: NoMemory) -> Self {
        WalkStop::Transfer(XfrStop::Unloaded(SlotFault::NoMemory))
    }
}

/// Stores what came of a walk over the only map of a publisher, and hands back its disk.
fn store_came<D: Disk>(
    alloc: Global,
    rt: &impl RandomSource,
    job: &WalkJob,
    publisher: Publisher<D, PlainBoard>,
    came: Came,
) -> (Result<Installed, WalkStop>, Vec<D>)
    requires { length publisher.maps ≡ 1 }
    ensures moves { (disks : List D) (before after : InboxTells) → length disks ≡ 1
        → BeginsLevel D.history D.faults (catalogue_of (xfr_job_view job.now.xfr)) disks publisher
        → WalksTo job.now.xfr.host.peer
        (wanted_of job.now.xfr.store.domain.items job.now.xfr.store.map.items
        (option_map (λ version. version.order) (shown 0 publisher.board.known)) job.now.xfr.force)
        job.now.turns came before after
        → Moved (xfr_job_view job.now.xfr) job.now.turns result.0
        (walk_tells before (only_tells D.history D.faults disks))
        (walk_tells after (only_tells D.history D.faults result.1.items)) × (length result.1.items ≡ 1) }
    ensures mailed { is_unmailed result.0 ≡ false }
    ensures failed { result.0 ≡ Err NoInbox → came ≡ HasFailed }
{
    match came {
        Came::Outcome(outcome) => {
            let (done, disks) = store_fetched(alloc, rt, publisher, &job.xfr, outcome);
            match done {
                Ok(installed) => (Ok(installed), disks),
                Err(fault) => (Err(WalkStop::Transfer(XfrStop::Fault(fault))), disks),
            }
        }
        Came::Spent => (Err(WalkStop::Unanswered), hand_back(publisher)),
        Came::Failed => (Err(WalkStop::InboxFault), hand_back(publisher)),
    }
}

/// Walks over the only map.
fn walk_over<D: Disk, I: Inbox, R: RandomSource>(
    alloc: Global,
    rt: &R,
    job: &WalkJob,
    room: &mut Room,
    only: OnlyMap<D>,
    inbox: &mut I,
) -> (Result<Installed, WalkStop>, Vec<D>)
    requires catalogue { only.catalog ≡ catalogue_of (xfr_job_view job.now.xfr) }
    requires named { IsNamed (name_view job.now.xfr.store) }
    requires only { length only.disks.items ≡ 1 }
    ensures moves { Moved (xfr_job_view job.now.xfr) job.now.turns result.0
        (walk_tells (box_by I.Inbox inbox.old) (only_tells D.history D.faults only.disks.items))
        (walk_tells (box_by I.Inbox inbox.new) (only_tells D.history D.faults result.1.items)) }
    ensures unmailed { is_unmailed result.0 ≡ true → inbox.new ≡ inbox.old }
    ensures failed { result.0 ≡ Err NoInbox → HasRisen (I.faults inbox.old) (I.faults inbox.new) }
    ensures only { length result.1.items ≡ 1 }
{
    match open_only(alloc, rt, only) {
        Err(refused) => (
            Err(WalkStop::Transfer(XfrStop::Unloaded(refused.why))),
            refused.disks,
        ),
        Ok(publisher) => {
            let shown = shown_order(&publisher);
            match walk_inbox(alloc, rt, job, shown, room, inbox) {
                Ok(came) => store_came(alloc, rt, job, publisher, came),
                Err(fault) => (Err(fault.into()), hand_back(publisher)),
            }
        }
    }
}

/// Walks a map over its disk, which keeps the name of the map.
fn walk_on<D: Disk, I: Inbox, R: RandomSource>(
    alloc: Global,
    rt: &R,
    job: &WalkJob,
    disks: &mut Vec<NamedDisk<D>>,
    inbox: &mut I,
) -> Result<Installed, WalkStop>
    requires catalogue { catalog_fault job.now.xfr.name.items (name_view job.now.xfr.store ∷ []) ≡ None }
    requires named { IsNamed (name_view job.now.xfr.store) }
    requires only { length disks.old.items ≡ 1 }
    ensures moves { Moved (xfr_job_view job.now.xfr) job.now.turns result
        (walk_tells (box_by I.Inbox inbox.old) (named_tells D.history D.faults disks.old.items))
        (walk_tells (box_by I.Inbox inbox.new) (named_tells D.history D.faults disks.new.items)) }
    ensures unmailed { is_unmailed result ≡ true → inbox.new ≡ inbox.old }
    ensures failed { result ≡ Err NoInbox → HasRisen (I.faults inbox.old) (I.faults inbox.new) }
    ensures names { names_of disks.new.items ≡ names_of disks.old.items }
{
    let mut room = Room::new(alloc)?;
    let catalog = catalog_of(alloc, &job.xfr.name, &job.xfr.store)?;
    let Apart {
        names,
        disks: apart,
    } = take_apart(alloc, disks)?;
    let only = OnlyMap {
        catalog,
        disks: apart,
    };
    let (done, apart) = walk_over(alloc, rt, job, &mut room, only, inbox);
    let apart = Apart {
        names,
        disks: apart,
    };
    put_together(disks, apart);
    done
}

/// Tells what was stored, or what stopped the walk.
fn tell_walk<K: Sink>(
    sink: &mut K,
    turns: u64,
    store: MapName,
    done: Result<Installed, WalkStop>,
) -> Status
    requires { IsNamed (name_view store) }
    ensures ends { IsWalkEnd (name_view store) turns done result (K.output sink.old) (K.output sink.new) }
    ensures may_end { IsTrue (walk_may_end result) }
    ensures tellable { IsTellable result }
    ensures flushed { result ≢ Status.WriteFault → IsTrue (K.flushed sink.old) → IsTrue (K.flushed sink.new) }
    ensures write_fault { result ≡ Status.WriteFault → HasRisen (K.faults sink.old) (K.faults sink.new) }
    ensures silent { OnErr done (sink.new ≡ sink.old) }
    ensures disk_fault { (map : MapName) → result ≡ Status.DiskFault map
        → done ≡ Err (WalkStop.Transfer (XfrStop.Unloaded SlotFault.DiskFault)) }
    ensures inbox_fault { result ≡ Status.InboxFault → done ≡ Err NoInbox }
{
    match done {
        Ok(installed) => tell_transfer(sink, store, Ok(installed)),
        Err(WalkStop::Transfer(stop)) => tell_transfer(sink, store, Err(stop)),
        Err(WalkStop::Unanswered) => Status::Unanswered { turns },
        Err(WalkStop::InboxFault) => Status::InboxFault,
    }
}

/// Asks a host for the only map row by row, in turns of the inbox, stores it on the only disk, and tells what was
/// stored. The version goes in where its order is over the one that stands, or, where it is forced, in any case.
pub fn walk_map<
    S: Source,
    K: Sink,
    D: Disk,
    C: Clock,
    A: Dial,
    I: Inbox,
    T: Texts,
    R: RandomSource,
>(alloc: Global, rt: &R, job: WalkJob, office: &mut Office<S, K, D, C, A, I, T>) -> Status
    requires { IsReady (xfr_job_view job.xfr) (names_of office.old.disks.items) }
    ensures does { WalkDoes (seeing S.Source K.Sink D.Disk C.Clock A.Dial I.Inbox T.Texts)
        (xfr_job_view job.xfr) job.turns result office.old office.new }
    ensures may_end { IsTrue (walk_may_end result) }
    ensures passed_on { IsPassedOn (seeing S.Source K.Sink D.Disk C.Clock A.Dial I.Inbox T.Texts)
        result office.old office.new }
    ensures tellable { IsTellable result }
{
    let done = walk_on(alloc, rt, &job, &mut office.disks, &mut office.inbox);
    tell_walk(&mut office.wire.sink, job.turns, job.xfr.store, done)
}
