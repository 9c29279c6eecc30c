//! The command `check`: what a stored file stands for.

ghost use Rattle.std.specs.Prelude.{◌≡◌, ◌≢◌, ◌≤◌, [], ◌∷◌, length, IsTrue, IfSome};
ghost use Rattle.yp_io.specs.Counts.{HasRisen};
ghost use Rattle.yp_version.specs.Limits.{master_max};
ghost use Rattle.yp_board.specs.Catalogues.{name_view};
ghost use Rattle.yp_command_maps.specs.Build.{TellsLine};
ghost use Rattle.yp_command_maps.specs.Check.{Checks, CheckDoes, check_may_end};
ghost use Rattle.yp_command_maps.specs.inside.Check.{summary_line};
ghost use Rattle.yp_command.specs.office.Disks.{names_of, IsOnlyRead};
ghost use Rattle.yp_command.specs.office.Seeing.{seeing, IsPassedOn};
ghost use Rattle.yp_command.specs.inside.office.Status.{IsTellable};
ghost use Rattle.yp_command.specs.inside.Words.{IsNamed};

use std::alloc::Global;
use yp_board::MapName;
use yp_command::office::{
    Line, NamedDisk, Office, Status, add, add_map, add_number, status_of_file,
};
use yp_io::{Clock, Dial, Disk, Failed, Inbox, Sink, Source, Texts, write_through};
use yp_map_file::{Slot, Summary};

/// The line of a version that stands.
fn line(store: &MapName, generation: u64, summary: &Summary) -> Line
    requires named { IsNamed (name_view store.now) }
    requires master { length summary.now.master.items ≤ master_max }
    ensures { result.items ≡ summary_line (name_view store.now) generation summary.now }
{
    let mut line = Line::new();
    add_map(&mut line, store);
    add(&mut line, b" order ");
    add_number(&mut line, u64::from(summary.order.number()));
    add(&mut line, b" master ");
    add(&mut line, &summary.master);
    add(&mut line, b" rows ");
    add_number(&mut line, u64::from(summary.rows));
    add(&mut line, b" generation ");
    add_number(&mut line, generation);
    add(&mut line, if summary.secure { b" secure" } else { b"" });
    add(&mut line, b"\n");
    line
}

/// Tells the line of a version that stands.
fn tell_summary<K: Sink>(
    store: &MapName,
    generation: u64,
    summary: &Summary,
    sink: &mut K,
) -> Status
    requires named { IsNamed (name_view store.now) }
    requires master { length summary.now.master.items ≤ master_max }
    ensures tells { TellsLine (summary_line (name_view store.now) generation summary.now) result
        (K.output sink.old) (K.output sink.new) }
    ensures may_end { IsTrue (check_may_end result) }
    ensures tellable { IsTellable result }
    ensures flushed { result ≢ Status.WriteFault → IsTrue (K.flushed sink.old) → IsTrue (K.flushed sink.new) }
    ensures write_fault { result ≡ Status.WriteFault → HasRisen (K.faults sink.old) (K.faults sink.new) }
{
    match write_through(sink, &line(store, generation, summary)) {
        Ok(()) => Status::Done,
        Err(Failed) => Status::WriteFault,
    }
}

/// Tells what the file of a map stands for, and hands its disk back. It writes nothing to the disk.
#[tactic(auto, using(crate::proofs::Surveyed::summary_told))]
fn check_disk<D: Disk, K: Sink>(alloc: Global, store: MapName, disk: D, sink: &mut K) -> (Status, D)
    requires { IsNamed (name_view store) }
    ensures checks { IfSome (D.history disk) (λ h.
        Checks (name_view store) h.state.reads result.0 (K.output sink.old) (K.output sink.new)) }
    ensures unwritten { IsOnlyRead (D.history disk) (D.history result.1) }
    ensures may_end { IsTrue (check_may_end result.0) }
    ensures tellable { IsTellable result.0 }
    ensures flushed { result.0 ≢ Status.WriteFault → IsTrue (K.flushed sink.old) → IsTrue (K.flushed sink.new) }
    ensures write_fault { result.0 ≡ Status.WriteFault → HasRisen (K.faults sink.old) (K.faults sink.new) }
    ensures disk_fault { (map : _) → result.0 ≡ Status.DiskFault map → HasRisen (D.faults disk) (D.faults result.1) }
{
    let mut slot = Slot::new(disk);
    let surveyed = slot.survey(alloc);
    let generation = slot.generation();
    let disk = slot.into_disk();
    match surveyed {
        Err(fault) => (status_of_file(store, fault), disk),
        Ok(None) => (Status::NoVersion { map: store }, disk),
        Ok(Some(summary)) => (tell_summary(&store, generation, &summary, sink), disk),
    }
}

/// Tells what the file of the only map stands for. It writes nothing to the disk.
pub fn check_map<S: Source, K: Sink, D: Disk, C: Clock, A: Dial, I: Inbox, T: Texts>(
    alloc: Global,
    store: MapName,
    office: &mut Office<S, K, D, C, A, I, T>,
) -> Status
    requires named { IsNamed (name_view store) }
    requires only { names_of office.old.disks.items ≡ name_view store ∷ [] }
    ensures does { CheckDoes (seeing S.Source K.Sink D.Disk C.Clock A.Dial I.Inbox T.Texts)
        (name_view store) result office.old office.new }
    ensures may_end { IsTrue (check_may_end result) }
    ensures passed_on { IsPassedOn (seeing S.Source K.Sink D.Disk C.Clock A.Dial I.Inbox T.Texts)
        result office.old office.new }
    ensures tellable { IsTellable result }
{
    let Some(NamedDisk { name, disk }) = office.disks.pop() else {
        unreachable!()
    };
    let (status, disk) = check_disk(alloc, store, disk, &mut office.wire.sink);
    office.disks.push_reserved(NamedDisk { name, disk });
    status
}
