//! The command `dump`: the rows of a stored map.

ghost use Rattle.std.specs.Prelude.{◌≡◌, ◌≢◌, [], ◌∷◌, IsTrue, IfSome};
ghost use Rattle.yp_io.specs.Counts.{HasRisen};
ghost use Rattle.yp_board.specs.Catalogues.{name_view};
ghost use Rattle.yp_command_maps.specs.Dump.{unfit_status, TellsRows, Dumps, DumpDoes, dump_may_end};
ghost use Rattle.yp_command.specs.office.Disks.{names_of, IsOnlyRead};
ghost use Rattle.yp_command.specs.office.Seeing.{seeing, IsPassedOn};
ghost use Rattle.yp_command.specs.inside.office.Status.{IsTellable};
ghost use Rattle.yp_command.specs.inside.Words.{IsNamed};

use std::alloc::Global;
use std::random::RandomSource;
use yp_board::MapName;
use yp_command::office::{KEY_RULE, NamedDisk, Office, Status, VALUE_RULE, status_of_file};
use yp_io::{Clock, Dial, Disk, Failed, Inbox, Sink, Source, Texts, write_through};
use yp_map_file::Slot;
use yp_texts::{DumpFault, dump};
use yp_version::Version;

/// The status of rows that make no text.
fn status_unfit(fault: DumpFault) -> Status
    ensures { result ≡ unfit_status fault }
{
    match fault {
        DumpFault::KeyUnfit { row } => Status::Rows {
            row,
            rule: KEY_RULE,
        },
        DumpFault::ValueUnfit { row } => Status::Rows {
            row,
            rule: VALUE_RULE,
        },
        DumpFault::NoMemory => Status::NoMemory,
    }
}

/// Tells the rows of a version.
fn tell_rows<K: Sink>(alloc: Global, version: &Version, sink: &mut K) -> Status
    ensures tells { TellsRows version.now.rows result (K.output sink.old) (K.output sink.new) }
    ensures flushed { result ≢ Status.WriteFault → IsTrue (K.flushed sink.old) → IsTrue (K.flushed sink.new) }
    ensures write_fault { result ≡ Status.WriteFault → HasRisen (K.faults sink.old) (K.faults sink.new) }
{
    let text = match dump(alloc, version) {
        Ok(text) => text,
        Err(fault) => return status_unfit(fault),
    };
    match write_through(sink, &text) {
        Ok(()) => Status::Done,
        Err(Failed) => Status::WriteFault,
    }
}

/// Tells the rows that the file of a map stands for, and hands its disk back. It writes nothing to the disk.
fn dump_disk<D: Disk, K: Sink>(
    alloc: Global,
    rt: &impl RandomSource,
    store: MapName,
    disk: D,
    sink: &mut K,
) -> (Status, D)
    requires { IsNamed (name_view store) }
    ensures dumps { IfSome (D.history disk) (λ h.
        Dumps (name_view store) h.state.reads result.0 (K.output sink.old) (K.output sink.new)) }
    ensures unwritten { IsOnlyRead (D.history disk) (D.history result.1) }
    ensures may_end { IsTrue (dump_may_end result.0) }
    ensures tellable { IsTellable result.0 }
    ensures flushed { result.0 ≢ Status.WriteFault → IsTrue (K.flushed sink.old) → IsTrue (K.flushed sink.new) }
    ensures write_fault { result.0 ≡ Status.WriteFault → HasRisen (K.faults sink.old) (K.faults sink.new) }
    ensures disk_fault { (map : _) → result.0 ≡ Status.DiskFault map → HasRisen (D.faults disk) (D.faults result.1) }
{
    let mut slot = Slot::new(disk);
    let loaded = slot.load(alloc, rt);
    let disk = slot.into_disk();
    let status = match loaded {
        Err(fault) => status_of_file(store, fault),
        Ok(None) => Status::NoVersion { map: store },
        Ok(Some(version)) => tell_rows(alloc, &version, sink),
    };
    (status, disk)
}

/// Tells the rows of the only map. It writes nothing to the disk.
pub fn dump_map<S: Source, K: Sink, D: Disk, C: Clock, A: Dial, I: Inbox, T: Texts>(
    alloc: Global,
    rt: &impl RandomSource,
    store: MapName,
    office: &mut Office<S, K, D, C, A, I, T>,
) -> Status
    requires named { IsNamed (name_view store) }
    requires only { names_of office.old.disks.items ≡ name_view store ∷ [] }
    ensures does { DumpDoes (seeing S.Source K.Sink D.Disk C.Clock A.Dial I.Inbox T.Texts)
        (name_view store) result office.old office.new }
    ensures may_end { IsTrue (dump_may_end result) }
    ensures passed_on { IsPassedOn (seeing S.Source K.Sink D.Disk C.Clock A.Dial I.Inbox T.Texts)
        result office.old office.new }
    ensures tellable { IsTellable result }
{
    let Some(NamedDisk { name, disk }) = office.disks.pop() else {
        unreachable!()
    };
    let (status, disk) = dump_disk(alloc, rt, store, disk, &mut office.wire.sink);
    office.disks.push_reserved(NamedDisk { name, disk });
    status
}
