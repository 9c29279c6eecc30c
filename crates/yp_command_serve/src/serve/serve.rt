//! The command `serve`: stored maps for many callers at once.

ghost use Rattle.std.specs.Prelude.{◌≡◌, ◌≢◌, ℕ, ◌≤◌, ◌<◌, List, None, IsTrue, All, map, length, IfErr, OnErr};
ghost use Rattle.std.specs.Io.KnownBytes.{Appends};
ghost use Rattle.yp_io.specs.Counts.{HasRisen};
ghost use Rattle.yp_board.specs.Catalogues.{name_view, maps_max};
ghost use Rattle.yp_board.specs.inside.Catalogues.{catalog_fault};
ghost use Rattle.yp_board.specs.readers.Boards.{workers_max};
ghost use Rattle.yp_command.specs.inside.Words.{IsNamed};
ghost use Rattle.yp_command.specs.office.Disks.{names_of};
ghost use Rattle.yp_command.specs.office.Seeing.{seeing, IsPassedOn};
ghost use Rattle.yp_command.specs.inside.office.Status.{IsTellable};
ghost use Rattle.yp_command_serve.specs.serve.Hosting.{outside_by};
ghost use Rattle.yp_command_serve.specs.serve.Serve.{ServeDoes, serve_job_of, serve_may_end};
ghost use Rattle.yp_command_serve.specs.inside.serve.Serve.{serve_job_view};
ghost use Rattle.yp_command_serve.specs.inside.serve.Serve.{TellsServeEnd};
ghost use Rattle.yp_command_serve.specs.inside.serve.Serve.{IsWithin};

use crate::serve::resources::{HostResources, NotHosted};
use crate::serve::tally::{Hosted, tell_served};
use crate::serve::telling::{HostSpec, host_told};
use std::alloc::Global;
use std::random::RandomSource;
use std::sync::Wait;
use std::thread::Threads;
use std::time;
use yp_answer::session::CALLS_MAX;
use yp_board::{Catalog, CatalogFault, MapName};
use yp_command::ServeJob;
use yp_command::office::{
    Apart, Office, Status, put_together, status_of_map, table_of, take_apart,
};
use yp_host::Desk;
use yp_io::{Clock, Dial, Disk, Hall, Inbox, NoMemory, Sink, Source, Texts};
use yp_server::ServeSpec;
use yp_transfer::Hosts;

/// What callers of a server come by, beside the inbox of its office.
#[derive(Drop)]
pub struct Doors<L, I> {
    /// What accepts connections at the port that its words name.
    pub listen: L,
    /// Further ends of the inbox's port, which receive its datagrams beside it while maps are served. There may be
    /// none.
    pub more: Vec<I>,
    /// One more end of that port, from which is replied to what the others leave while maps are served. It is never
    /// received from.
    pub outbox: I,
}

/// What the program reaches outside itself.
#[derive(Drop)]
pub struct Outside<S, K, D, C, L, A, I, T> {
    /// What any command reaches.
    pub office: Office<S, K, D, C, A, I, T>,
    /// What callers of a server come by.
    pub doors: Doors<L, I>,
    /// Where it tells what a server does, and how it ended.
    pub notes: K,
}

/// Tells what was served, or answers why nobody was.
fn tell_end<K: Sink>(
    alloc: Global,
    sink: &mut K,
    hosted: Result<Hosted, NotHosted>,
    names: &[MapName],
) -> Status
    requires number { IfErr hosted (IsWithin (length names.now)) }
    requires named { All IsNamed (map name_view names.now) }
    ensures tells { TellsServeEnd hosted (map name_view names.now) result (K.output sink.old) (K.output sink.new) }
    ensures untold { OnErr hosted (sink.new ≡ sink.old) }
    ensures flushed { result ≢ Status.WriteFault → IsTrue (K.flushed sink.old) → IsTrue (K.flushed sink.new) }
    ensures cause { result ≡ Status.WriteFault → HasRisen (K.faults sink.old) (K.faults sink.new) }
    ensures may_end { IsTrue (serve_may_end result) }
    ensures tellable { IsTellable result }
{
    match hosted {
        Ok(hosted) => tell_served(sink, hosted),
        Err(NotHosted::NoMemory) => Status::NoMemory,
        Err(NotHosted::Unloaded { map, fault }) => status_of_map(alloc, names, map, fault),
    }
}

/// Serves maps from the disks of an office, and tells what was served.
fn serve_catalog<S, K, D, C, L, A, I, T, R>(
    alloc: Global,
    rt: &R,
    spec: HostSpec,
    hosts: Hosts,
    outside: Outside<S, K, D, C, L, A, I, T>,
) -> (Status, Outside<S, K, D, C, L, A, I, T>)
where
    S: Source,
    K: Sink + Send + Drop,
    D: Disk + Send + Drop,
    C: Clock + Send + Drop,
    L: Hall + Send + Drop,
    L::In: Send,
    L::Out: Send,
    L::Closer: Send,
    L::Watch: Send,
    L::Waker: Send,
    A: Dial + Send + Drop,
    A::In: Send,
    A::Out: Send,
    I: Inbox + Send + Drop,
    T: Texts + Send + Drop,
    R: Threads + Wait + RandomSource + time::Clock + Sync,
    requires named { All IsNamed spec.catalog.maps }
    requires disks { names_of outside.office.disks.items ≡ spec.catalog.maps }
    requires workers { (1 ≤ spec.serve.workers) × (spec.serve.workers ≤ workers_max) }
    requires most { spec.serve.most ≡ CALLS_MAX }
    ensures does { (logged : List ℕ)
        × ((connections : ℕ) → ServeDoes (seeing S.Source K.Sink D.Disk C.Clock A.Dial I.Inbox T.Texts)
        (serve_job_of spec.catalog.own connections spec.serve.turns spec.catalog.maps hosts spec.log) result.0
        (outside_by L.Hall I.Inbox outside) (outside_by L.Hall I.Inbox result.1) logged)
        × (¬ HasRisen (K.faults outside.notes) (K.faults result.1.notes)
        → Appends (K.output outside.notes) (K.output result.1.notes) logged) }
    ensures never_falls { K.faults outside.notes ≤ K.faults result.1.notes }
    ensures may_end { IsTrue (serve_may_end result.0) }
    ensures passed_on { IsPassedOn (seeing S.Source K.Sink D.Disk C.Clock A.Dial I.Inbox T.Texts)
        result.0 outside.office result.1.office }
    ensures tellable { IsTellable result.0 }
{
    let mut outside = outside;
    if outside.doors.more.reserve(1).is_err() {
        return (Status::NoMemory, outside);
    }
    let Apart { names, disks } = match take_apart(alloc, &mut outside.office.disks) {
        Ok(apart) => apart,
        Err(NoMemory) => return (Status::NoMemory, outside),
    };
    let Outside {
        office,
        doors,
        notes,
    } = outside;
    let mut inboxes = doors.more;
    inboxes.push_reserved(office.inbox);
    let desk = Desk {
        dial: office.dial,
        texts: office.texts,
        clock: office.clock,
        hosts,
    };
    let resources = HostResources {
        disks,
        desk,
        listen: doors.listen,
        inboxes,
        outbox: doors.outbox,
    };
    let (hosted, resources, notes) = host_told(alloc, rt, spec, resources, &names, notes);
    let (mut wire, mut named) = (office.wire, office.disks);
    let status = tell_end(alloc, &mut wire.sink, hosted, &names);
    let disks = resources.disks;
    put_together(&mut named, Apart { names, disks });
    let mut inboxes = resources.inboxes;
    let Some(inbox) = inboxes.pop() else {
        unreachable!()
    };
    let desk = resources.desk;
    let office = Office {
        wire,
        disks: named,
        clock: desk.clock,
        dial: desk.dial,
        inbox,
        texts: desk.texts,
    };
    let doors = Doors {
        listen: resources.listen,
        more: inboxes,
        outbox: resources.outbox,
    };
    let outside = Outside {
        office,
        doors,
        notes,
    };
    (status, outside)
}

/// Serves stored maps to all who call, and tells how many connections came and how many of their records were read.
/// Where the file of a map can't be loaded, or memory runs out, nobody is served. Where the job says so, the notes are
/// told what is done, each second at most ten lines, and at the end what was counted.
pub fn serve_maps<S, K, D, C, L, A, I, T, R>(
    alloc: Global,
    rt: &R,
    job: ServeJob,
    outside: Outside<S, K, D, C, L, A, I, T>,
) -> (Status, Outside<S, K, D, C, L, A, I, T>)
where
    S: Source,
    K: Sink + Send + Drop,
    D: Disk + Send + Drop,
    C: Clock + Send + Drop,
    L: Hall + Send + Drop,
    L::In: Send,
    L::Out: Send,
    L::Closer: Send,
    L::Watch: Send,
    L::Waker: Send,
    A: Dial + Send + Drop,
    A::In: Send,
    A::Out: Send,
    I: Inbox + Send + Drop,
    T: Texts + Send + Drop,
    R: Threads + Wait + RandomSource + time::Clock + Sync,
    requires catalogue { catalog_fault job.name.items (map name_view job.stores.items) ≡ None }
    requires named { All IsNamed (map name_view job.stores.items) }
    requires disks { names_of outside.office.disks.items ≡ map name_view job.stores.items }
    requires workers { (1 ≤ job.workers) × (job.workers ≤ workers_max) }
    ensures does { (logged : List ℕ) × ServeDoes (seeing S.Source K.Sink D.Disk C.Clock A.Dial I.Inbox T.Texts)
        (serve_job_view job) result.0 (outside_by L.Hall I.Inbox outside) (outside_by L.Hall I.Inbox result.1) logged
        × (¬ HasRisen (K.faults outside.notes) (K.faults result.1.notes)
        → Appends (K.output outside.notes) (K.output result.1.notes) logged) }
    ensures never_falls { K.faults outside.notes ≤ K.faults result.1.notes }
    ensures may_end { IsTrue (serve_may_end result.0) }
    ensures passed_on { IsPassedOn (seeing S.Source K.Sink D.Disk C.Clock A.Dial I.Inbox T.Texts)
        result.0 outside.office result.1.office }
    ensures tellable { IsTellable result.0 }
{
    let ServeJob {
        name,
        port: _,
        workers,
        connections: _,
        turns,
        stores,
        hosts,
        log,
    } = job;
    let Ok(hosts) = table_of(alloc, hosts) else {
        return (Status::NoMemory, outside);
    };
    let catalog = match Catalog::new(alloc, name, stores) {
        Ok(catalog) => catalog,
        Err(CatalogFault::NoMemory) => return (Status::NoMemory, outside),
        Err(_) => unreachable!(),
    };
    let serve = ServeSpec {
        workers,
        most: CALLS_MAX,
        turns,
    };
    let spec = HostSpec {
        catalog,
        serve,
        log,
    };
    serve_catalog(alloc, rt, spec, hosts, outside)
}
