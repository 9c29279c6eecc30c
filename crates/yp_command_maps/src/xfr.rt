//! The command `xfr`: a map is fetched from another host, stored behind the version that stands, and told.

ghost use Rattle.std.specs.Prelude.{◌≡◌, ◌≢◌, ℕ, true, List, [], ◌∷◌, Option, None, Err, length, IsTrue, IfOk, OnErr};
ghost use Rattle.yp_io.specs.Counts.{HasRisen};
ghost use Rattle.yp_board.specs.Catalogues.{name_view};
ghost use Rattle.yp_board.specs.inside.Catalogues.{catalog_fault};
ghost use Rattle.yp_command.specs.Words.{host_view};
ghost use Rattle.yp_command.specs.inside.Words.{IsNamed};
ghost use Rattle.yp_io.specs.Dials.{dialing_of};
ghost use Rattle.yp_command.specs.office.Disks.{names_of, history_of, only_history};
ghost use Rattle.yp_command.specs.office.Seeing.{seeing, IsPassedOn};
ghost use Rattle.yp_command.specs.inside.office.Status.{IsTellable};
ghost use Rattle.yp_command_maps.specs.Disks.{only_tells, named_tells};
ghost use Rattle.yp_command_maps.specs.Build.{LeavesFew, TellsLine};
ghost use Rattle.yp_command_maps.specs.Xfr.{xfr_line};
ghost use Rattle.yp_command_maps.specs.inside.Xfr.{xfr_job_view, catalogue_of, IsReady, XfrMoves, is_undialed};
ghost use Rattle.yp_command_maps.specs.inside.Xfr.{IsXfrEnd};
ghost use Rattle.yp_command_maps.specs.Xfr.{XfrDoes, xfr_may_end};

use crate::catalog::{OnlyMap, catalog_of};
use crate::fetched::{open_only, request_of};
use std::alloc::Global;
use std::random::RandomSource;
use yp_board::MapName;
use yp_command::office::{
    Apart, Line, NamedDisk, Office, Status, add, add_map, add_number, put_together, status_of_file,
    take_apart,
};
use yp_command::{HostWord, XfrJob};
use yp_io::{Clock, Dial, Disk, Failed, Inbox, NoMemory, Sink, Source, Texts, write_through};
use yp_map_file::SlotFault;
use yp_publisher::Installed;
use yp_transfer::{Hosts, XfrFault, transfer};

/// Why a map isn't transferred.
#[derive(Clone, Copy, Debug)]
pub enum XfrStop {
    /// Its file isn't loaded.
    Unloaded(SlotFault),
    /// It isn't fetched or stored.
    Fault(XfrFault),
}

impl From<NoMemory> for XfrStop {
    ghost use Rattle.std.specs.Prelude.{◌≡◌};
    ghost use Rattle.yp_map_file.specs.declared.fault.SlotFault.TheVariants.{NoMemory as WithoutMemory};
    ghost use Rattle.yp_command_maps.specs.declared.xfr.XfrStop.TheVariants.{Unloaded};

    ghost from_gives = { λ fault stop. stop ≡ Unloaded WithoutMemory };

    fn from(_fault: NoMemory) -> Self {
        XfrStop::Unloaded(SlotFault::NoMemory)
    }
}

/// The line of what was stored.
fn line(store: &MapName, installed: &Installed) -> Line
    requires { IsNamed (name_view store.now) }
    ensures { result.items ≡ xfr_line (name_view store.now) installed.now.order installed.now.generation }
{
    let mut line = Line::new();
    add_map(&mut line, store);
    add(&mut line, b" order ");
    add_number(&mut line, u64::from(installed.order.number()));
    add(&mut line, b" generation ");
    add_number(&mut line, installed.generation);
    add(&mut line, b"\n");
    line
}

/// A table of one host.
fn table_of(alloc: Global, host: &HostWord) -> Result<Hosts, NoMemory>
    ensures { IfOk result (λ hosts. hosts ≡ host_view host.now ∷ []) }
{
    let Ok(name) = Vec::from_slice(alloc, &host.name) else {
        return Err(NoMemory);
    };
    let mut hosts = Hosts::new(alloc);
    hosts.add(name, host.peer)?;
    Ok(hosts)
}

/// Transfers the only map.
fn transfer_over<D: Disk, A: Dial>(
    alloc: Global,
    rt: &impl RandomSource,
    job: &XfrJob,
    hosts: &Hosts,
    only: OnlyMap<D>,
    dial: &mut A,
) -> (Result<Installed, XfrStop>, Vec<D>)
    requires catalogue { only.catalog ≡ catalogue_of (xfr_job_view job.now) }
    requires hosts { hosts.now ≡ host_view job.now.host ∷ [] }
    requires only { length only.disks.items ≡ 1 }
    ensures moves { XfrMoves (xfr_job_view job.now) result.0
        (dialing_of A.past A.faults dial.old) (dialing_of A.past A.faults dial.new)
        (only_tells D.history D.faults only.disks.items) (only_tells D.history D.faults result.1.items) }
    ensures few { LeavesFew (only_history D.history only.disks.items) (only_history D.history result.1.items) }
    ensures undialed { is_undialed result.0 ≡ true → dial.new ≡ dial.old }
    ensures letters { A.letters dial.new ≡ A.letters dial.old }
    ensures only { length result.1.items ≡ 1 }
{
    match open_only(alloc, rt, only) {
        Err(refused) => (Err(XfrStop::Unloaded(refused.why)), refused.disks),
        Ok(mut publisher) => {
            let done = transfer(alloc, rt, &mut publisher, dial, hosts, &request_of(job));
            let (disks, _board) = publisher.into_parts();
            match done {
                Ok(installed) => (Ok(installed), disks),
                Err(fault) => (Err(XfrStop::Fault(fault)), disks),
            }
        }
    }
}

/// Transfers a map over its disk, which keeps the name of the map.
fn transfer_on<D: Disk, A: Dial>(
    alloc: Global,
    rt: &impl RandomSource,
    job: &XfrJob,
    disks: &mut Vec<NamedDisk<D>>,
    dial: &mut A,
) -> Result<Installed, XfrStop>
    requires catalogue { catalog_fault job.now.name.items (name_view job.now.store ∷ []) ≡ None }
    requires only { length disks.old.items ≡ 1 }
    ensures moves { XfrMoves (xfr_job_view job.now) result
        (dialing_of A.past A.faults dial.old) (dialing_of A.past A.faults dial.new)
        (named_tells D.history D.faults disks.old.items) (named_tells D.history D.faults disks.new.items) }
    ensures few { LeavesFew (history_of D.history disks.old.items) (history_of D.history disks.new.items) }
    ensures undialed { is_undialed result ≡ true → dial.new ≡ dial.old }
    ensures letters { A.letters dial.new ≡ A.letters dial.old }
    ensures names { names_of disks.new.items ≡ names_of disks.old.items }
{
    let hosts = table_of(alloc, &job.host)?;
    let catalog = catalog_of(alloc, &job.name, &job.store)?;
    let Apart {
        names,
        disks: apart,
    } = take_apart(alloc, disks)?;
    let only = OnlyMap {
        catalog,
        disks: apart,
    };
    let (done, apart) = transfer_over(alloc, rt, job, &hosts, only, dial);
    let apart = Apart {
        names,
        disks: apart,
    };
    put_together(disks, apart);
    done
}

/// The status of a map that wasn't transferred.
fn status_stopped(store: MapName, stop: XfrStop) -> Status
    requires { IsNamed (name_view store) }
    ensures ends { (output : Option (List ℕ)) → IsXfrEnd (name_view store) (Err stop) result output output }
    ensures may_end { IsTrue (xfr_may_end result) }
    ensures tellable { IsTellable result }
{
    match stop {
        XfrStop::Unloaded(fault) => status_of_file(store, fault),
        XfrStop::Fault(XfrFault::NoMemory) => Status::NoMemory,
        XfrStop::Fault(fault) => Status::Xfr { fault },
    }
}

/// Tells what was stored.
fn tell_stored<K: Sink>(sink: &mut K, store: &MapName, installed: &Installed) -> Status
    requires { IsNamed (name_view store.now) }
    ensures tells { TellsLine (xfr_line (name_view store.now) installed.now.order installed.now.generation)
        result (K.output sink.old) (K.output sink.new) }
    ensures may_end { IsTrue (xfr_may_end result) }
    ensures tellable { IsTellable result }
    ensures flushed { result ≢ Status.WriteFault → IsTrue (K.flushed sink.new) }
    ensures write_fault { result ≡ Status.WriteFault → HasRisen (K.faults sink.old) (K.faults sink.new) }
{
    match write_through(sink, &line(store, installed)) {
        Ok(()) => Status::Done,
        Err(Failed) => Status::WriteFault,
    }
}

/// Tells what was stored, or what stopped the transfer.
pub fn tell_transfer<K: Sink>(
    sink: &mut K,
    store: MapName,
    done: Result<Installed, XfrStop>,
) -> Status
    requires { IsNamed (name_view store) }
    ensures ends { IsXfrEnd (name_view store) done result (K.output sink.old) (K.output sink.new) }
    ensures may_end { IsTrue (xfr_may_end result) }
    ensures tellable { IsTellable result }
    ensures flushed { result ≢ Status.WriteFault → IsTrue (K.flushed sink.old) → IsTrue (K.flushed sink.new) }
    ensures write_fault { result ≡ Status.WriteFault → HasRisen (K.faults sink.old) (K.faults sink.new) }
    ensures disk_fault { (map : MapName) → result ≡ Status.DiskFault map
        → done ≡ Err (XfrStop.Unloaded SlotFault.DiskFault) }
    ensures silent { OnErr done (sink.new ≡ sink.old) }
{
    match done {
        Ok(installed) => tell_stored(sink, &store, &installed),
        Err(stop) => status_stopped(store, stop),
    }
}

/// Fetches the only map from a host, stores it on the only disk, and tells what was stored. The version goes in where
/// its order is over the one that stands, or, where it is forced, in any case.
pub fn transfer_map<S: Source, K: Sink, D: Disk, C: Clock, A: Dial, I: Inbox, T: Texts>(
    alloc: Global,
    rt: &impl RandomSource,
    job: XfrJob,
    office: &mut Office<S, K, D, C, A, I, T>,
) -> Status
    requires { IsReady (xfr_job_view job) (names_of office.old.disks.items) }
    ensures does { XfrDoes (seeing S.Source K.Sink D.Disk C.Clock A.Dial I.Inbox T.Texts)
        (xfr_job_view job) result office.old office.new }
    ensures may_end { IsTrue (xfr_may_end result) }
    ensures passed_on { IsPassedOn (seeing S.Source K.Sink D.Disk C.Clock A.Dial I.Inbox T.Texts)
        result office.old office.new }
    ensures tellable { IsTellable result }
{
    let done = transfer_on(alloc, rt, &job, &mut office.disks, &mut office.dial);
    tell_transfer(&mut office.wire.sink, job.store, done)
}
