//! Maps that are served from their disks, from the loading of their files to the handing back of all.

ghost use Rattle.std.specs.Prelude.{◌≡◌, ◌∷◌, ℕ, ◌≤◌, ◌<◌, ◌+◌, ◌^◌, List, length, map, option_map, true, vec_len};
ghost use Rattle.std.specs.Prelude.{IfSome, IfOk, IfErr, OnSome, OnOk, OnErr};
ghost use Rattle.std.specs.Arc.{arc_value};
ghost use Rattle.std.specs.List.{All};
ghost use Rattle.yp_board.specs.Logs.{starts};
ghost use Rattle.yp_board.specs.readers.Boards.{workers_max};
ghost use Rattle.yp_publisher.specs.Standing.{Level, versions};
ghost use Rattle.yp_publisher.specs.Rising.{publisher_state};
ghost use Rattle.yp_publisher.specs.inside.Rising.{IsStart};
ghost use Rattle.yp_answer.specs.declared.session.session.TheConstants.{CALLS_MAX};
ghost use Rattle.yp_publisher.specs.sharing.Failures.{disks_of};
ghost use Rattle.yp_server.specs.Serving.{SomeHasRisen};
ghost use Rattle.yp_command_serve.specs.serve.Hosting.{setup_of, first_of, IsServed, IsHosted};
ghost use Rattle.yp_command_serve.specs.inside.serve.Hosting.{tells_by, loaded_tells_by, IsUnhosted};

use crate::serve::clock::{ClockMoment, SharedClock};
use crate::serve::tally::Hosted;
use std::alloc::Global;
use std::marker::Brand;
use std::random::RandomSource;
use std::sync::{Arc, Mutex, Wait};
use std::thread::Threads;
use yp_board::readers::{Naming, Opened, board};
use yp_board::{Catalog, Show};
use yp_host::Desk;
use yp_host::workers::Journal;
use yp_io::{Clock, Dial, Disk, Hall, Inbox, NoMemory, Texts};
use yp_map_file::SlotFault;
use yp_publisher::laws::{beginning_is_start, starts_are_shown};
use yp_publisher::{Loaded, Publisher, StartRefused, load_all};
use yp_server::{ServeRefused, ServeSpec, Served, ServerResources, serve};
use yp_version::Version;
use yp_worker::OpenGate;

/// Why nobody was served.
#[derive(Clone, Copy, Debug, PartialEq, Eq)]
pub enum NotHosted {
    /// The file of this map, by its number from 0, is the first that wasn't loaded.
    Unloaded { map: u32, fault: SlotFault },
    /// Memory ran out once all were loaded.
    NoMemory,
}

/// What maps are served from, and whom to.
#[derive(Drop)]
pub(crate) struct HostResources<D, A, T, C, L, I> {
    /// The disks of the maps, in the order of the catalogue.
    pub(crate) disks: Vec<D>,
    pub(crate) desk: Desk<A, T, C>,
    pub(crate) listen: L,
    /// Ends of one port, at least one.
    pub(crate) inboxes: Vec<I>,
    /// One more, from which is replied to what those leave.
    pub(crate) outbox: I,
}

/// Maps whose files were loaded, and what they are served by.
#[derive(Drop)]
struct LoadedResources<D: Disk, A, T, C, L, I> {
    catalog: Catalog,
    /// The maps, in the order of the catalogue.
    loaded: Loaded<D>,
    desk: Desk<A, T, C>,
    listen: L,
    /// Ends of one port, at least one.
    inboxes: Vec<I>,
    /// One more, from which is replied to what those leave.
    outbox: I,
}

/// The disks of maps that were loaded, once they aren't served, with what they would have been served by.
fn unload<D: Disk, A, T, C, L, I>(
    resources: LoadedResources<D, A, T, C, L, I>,
) -> HostResources<D, A, T, C, L, I>
    ensures disks { result.disks.items ≡ disks_of resources.loaded }
    ensures rest { (result.desk ≡ resources.desk) × (result.listen ≡ resources.listen)
        × (result.inboxes ≡ resources.inboxes) × (result.outbox ≡ resources.outbox) }
{
    HostResources {
        disks: resources.loaded.into_disks(),
        desk: resources.desk,
        listen: resources.listen,
        inboxes: resources.inboxes,
        outbox: resources.outbox,
    }
}

/// What a board begins with: a book, a catalogue once more, the versions of its maps, which were loaded, and how many
/// readers it has.
struct BoardStart {
    opened: Opened,
    catalog: Catalog,
    versions: Vec<Option<Arc<Version>>>,
    readers: u32,
}

/// What the board of a server begins with. Each worker has a reader: so many of connections, the two that do what
/// takes long for them, one for each inbox, and the carrier of what datagrams ask for.
fn starting<D: Disk>(
    alloc: Global,
    catalog: &Catalog,
    loaded: &Loaded<D>,
    workers: u32,
    inboxes: usize,
) -> Result<BoardStart, NoMemory>
    requires { workers ≤ workers_max }
    ensures catalogue { IfOk result (λ starting. starting.catalog ≡ catalog.now) }
    ensures versions { IfOk result (λ starting.
        map (option_map arc_value) starting.versions.items ≡ versions loaded.now) }
    ensures readers { IfOk result (λ starting. starting.readers ≡ workers + 3 + inboxes) }
    ensures few { OnOk result (inboxes < 2 ^ 32) }
{
    let readers = readers_of(workers, inboxes).ok_or(NoMemory)?;
    let copy = catalog.copy(alloc)?;
    let versions = loaded.shown(alloc)?;
    Ok(BoardStart {
        opened: Opened::new(),
        catalog: copy,
        versions,
        readers,
    })
}

/// How many readers a server has with so many workers of connections and so many inboxes, where a board can have so
/// many.
fn readers_of(workers: u32, inboxes: usize) -> Option<u32>
    requires { workers ≤ workers_max }
    ensures readers { IfSome result (λ readers. readers ≡ workers + 3 + inboxes) }
    ensures few { OnSome result (inboxes < 2 ^ 32) }
{
    u32::try_from(inboxes).ok()?.checked_add(workers + 3)
}

/// A publisher of level maps, on a board that shows exactly them. From there on its log rises.
fn publisher_of<D: Disk, B: Show>(loaded: Loaded<D>, catalog: Catalog, board: B) -> Publisher<D, B>
    requires count { length loaded ≡ length catalog.maps }
    requires level { All (λ standing. standing ≡ Level) (map (λ kept. kept.standing) loaded) }
    requires maps { B.maps board ≡ length catalog.maps }
    requires log { B.log board ≡ starts 0 (versions loaded) }
    ensures publisher { result ≡ record { catalogue = catalog; maps = loaded; board = board } }
    ensures start { IsStart (publisher_state B.log result) }
{
    starts_are_shown();
    beginning_is_start();
    Publisher::new(loaded, catalog, board)
}

/// A desk whose clock workers share.
fn shared<M: ClockMoment, A, T, C: Clock>(desk: Desk<A, T, C>) -> Desk<A, T, SharedClock<M, C>>
    requires { C.moment desk.clock ≡ M.moment }
    ensures { result ≡ record { dial = desk.dial; texts = desk.texts; clock = desk.clock; hosts = desk.hosts } }
{
    let Desk {
        dial,
        texts,
        clock,
        hosts,
    } = desk;
    Desk {
        dial,
        texts,
        clock: SharedClock::new(clock),
        hosts,
    }
}

/// The desk with its clock, once no worker shares the clock any more.
fn unshared<M: ClockMoment, A, T, C: Clock>(desk: Desk<A, T, SharedClock<M, C>>) -> Desk<A, T, C>
    ensures desk { result
        ≡ record { dial = desk.dial; texts = desk.texts; clock = desk.clock; hosts = desk.hosts } }
    ensures moment { C.moment result.clock ≡ M.moment }
{
    let Desk {
        dial,
        texts,
        clock,
        hosts,
    } = desk;
    Desk {
        dial,
        texts,
        clock: clock.into_clock(),
        hosts,
    }
}

/// Serves maps over these resources, by workers in threads and a worker of datagrams for each inbox, until all
/// connections were served and all turns taken. Where a file isn't loaded, or memory runs out, nobody is served. Where
/// there is a journal, the workers tell it what they do.
pub(crate) fn host<D, A, T, C, L, I, R>(
    alloc: Global,
    rt: &R,
    catalog: Catalog,
    spec: &ServeSpec,
    resources: HostResources<D, A, T, C, L, I>,
    journal: Option<&Mutex<Journal>>,
) -> (Result<Hosted, NotHosted>, HostResources<D, A, T, C, L, I>)
where
    D: Disk + Send + Drop,
    A: Dial + Send + Drop,
    T: Texts + Send + Drop,
    C: Clock + Send + Drop,
    L: Hall + Send + Drop,
    I: Inbox + Send + Drop,
    L::In: Send,
    L::Out: Send,
    L::Closer: Send,
    L::Watch: Send,
    L::Waker: Send,
    A::In: Send,
    A::Out: Send,
    R: Threads + Wait + RandomSource + Sync,
    requires count { length resources.disks.items ≡ length catalog.maps }
    requires inboxes { 1 ≤ vec_len resources.inboxes }
    requires workers { (1 ≤ spec.now.workers) × (spec.now.workers ≤ workers_max) }
    requires most { spec.now.most ≡ CALLS_MAX }
    ensures hosted { IfOk result.0 (λ hosted. IsHosted D.Disk
        (setup_of catalog (T.text resources.desk.texts) resources.desk.hosts spec.now.turns) hosted
        (tells_by L.Hall I.Inbox T.Texts A.Dial resources) (tells_by L.Hall I.Inbox T.Texts A.Dial result.1)) }
    ensures unhosted { IfErr result.0 (λ why.
        IsUnhosted D.history D.faults why resources.disks.items result.1.disks.items) }
    ensures untouched { OnErr result.0 (result.1 ≡ record resources { disks = result.1.disks }) }
    ensures inbox_fault { IfOk result.0 (λ hosted. hosted.inbox_fault ≡ true
        → SomeHasRisen (map I.faults (resources.outbox ∷ resources.inboxes.items))
        (map I.faults (result.1.outbox ∷ result.1.inboxes.items))) }
    ensures texts { (file : List ℕ) → T.text result.1.desk.texts file ≡ T.text resources.desk.texts file }
    ensures moment { C.moment result.1.desk.clock ≡ C.moment resources.desk.clock }
    ensures count { length result.1.disks.items ≡ length resources.disks.items }
    ensures inboxes { length result.1.inboxes.items ≡ length resources.inboxes.items }
{
    let HostResources {
        disks,
        desk,
        listen,
        inboxes,
        outbox,
    } = resources;
    // A catalogue has at most 64 maps.
    prove!(disks.len() <= catalog.len() as usize);
    match load_all(alloc, rt, disks) {
        Ok(loaded) => {
            let resources = LoadedResources {
                catalog,
                loaded,
                desk,
                listen,
                inboxes,
                outbox,
            };
            host_loaded(alloc, rt, spec, resources, journal)
        },
        Err(StartRefused { disks, map, fault }) => {
            let resources = HostResources {
                disks,
                desk,
                listen,
                inboxes,
                outbox,
            };
            (Err(NotHosted::Unloaded { map, fault }), resources)
        }
    }
}

/// Serves maps whose files were loaded.
fn host_loaded<D, A, T, C, L, I, R>(
    alloc: Global,
    rt: &R,
    spec: &ServeSpec,
    resources: LoadedResources<D, A, T, C, L, I>,
    journal: Option<&Mutex<Journal>>,
) -> (Result<Hosted, NotHosted>, HostResources<D, A, T, C, L, I>)
where
    D: Disk + Send + Drop,
    A: Dial + Send + Drop,
    T: Texts + Send + Drop,
    C: Clock + Send + Drop,
    L: Hall + Send + Drop,
    I: Inbox + Send + Drop,
    L::In: Send,
    L::Out: Send,
    L::Closer: Send,
    L::Watch: Send,
    L::Waker: Send,
    A::In: Send,
    A::Out: Send,
    R: Threads + Wait + RandomSource + Sync,
    requires count { length resources.loaded ≡ length resources.catalog.maps }
    requires level { All (λ standing. standing ≡ Level) (map (λ kept. kept.standing) resources.loaded) }
    requires inboxes { 1 ≤ vec_len resources.inboxes }
    requires workers { (1 ≤ spec.now.workers) × (spec.now.workers ≤ workers_max) }
    requires most { spec.now.most ≡ CALLS_MAX }
    ensures hosted { IfOk result.0 (λ hosted. IsServed D.Disk
        (setup_of resources.catalog (T.text resources.desk.texts) resources.desk.hosts spec.now.turns)
        (first_of resources.loaded) hosted (loaded_tells_by L.Hall I.Inbox T.Texts A.Dial resources)
        (tells_by L.Hall I.Inbox T.Texts A.Dial result.1)) }
    ensures unhosted { IfErr result.0 (λ why. why ≡ NotHosted.NoMemory) }
    ensures disks { OnErr result.0 (result.1.disks.items ≡ disks_of resources.loaded) }
    ensures untouched { OnErr result.0 ((result.1.desk ≡ resources.desk) × (result.1.listen ≡ resources.listen)
        × (result.1.inboxes ≡ resources.inboxes) × (result.1.outbox ≡ resources.outbox)) }
    ensures inbox_fault { IfOk result.0 (λ hosted. hosted.inbox_fault ≡ true
        → SomeHasRisen (map I.faults (resources.outbox ∷ resources.inboxes.items))
        (map I.faults (result.1.outbox ∷ result.1.inboxes.items))) }
    ensures texts { (file : List ℕ) → T.text result.1.desk.texts file ≡ T.text resources.desk.texts file }
    ensures moment { C.moment result.1.desk.clock ≡ C.moment resources.desk.clock }
    ensures count { length result.1.disks.items ≡ length resources.loaded }
    ensures inboxes { length result.1.inboxes.items ≡ length resources.inboxes.items }
{
    let inboxes = resources.inboxes.len();
    let begun = starting(
        alloc,
        &resources.catalog,
        &resources.loaded,
        spec.workers,
        inboxes,
    );
    let Ok(start) = begun else {
        return (Err(NotHosted::NoMemory), unload(resources));
    };
    host_shown::<Brand, Brand, D, A, T, C, L, I, R>(alloc, rt, start, spec, resources, journal)
}

/// Serves maps whose files were loaded, and whose versions are shown on a board for threads.
fn host_shown<J, M, D, A, T, C, L, I, R>(
    alloc: Global,
    rt: &R,
    starting: BoardStart,
    spec: &ServeSpec,
    resources: LoadedResources<D, A, T, C, L, I>,
    journal: Option<&Mutex<Journal>>,
) -> (Result<Hosted, NotHosted>, HostResources<D, A, T, C, L, I>)
where
    J: Naming + Send + Sync,
    M: ClockMoment + Send + Sync,
    D: Disk + Send + Drop,
    A: Dial + Send + Drop,
    T: Texts + Send + Drop,
    C: Clock + Send + Drop,
    L: Hall + Send + Drop,
    I: Inbox + Send + Drop,
    L::In: Send,
    L::Out: Send,
    L::Closer: Send,
    L::Watch: Send,
    L::Waker: Send,
    A::In: Send,
    A::Out: Send,
    R: Threads + Wait + RandomSource + Sync,
    requires opened { starting.opened ≡ J.book }
    requires moment { C.moment resources.desk.clock ≡ M.moment }
    requires copy { starting.catalog ≡ resources.catalog }
    requires start { map (option_map arc_value) starting.versions.items ≡ versions resources.loaded }
    requires readers { starting.readers ≡ spec.now.workers + 3 + vec_len resources.inboxes }
    requires few { vec_len resources.inboxes < 2 ^ 32 }
    requires count { length resources.loaded ≡ length resources.catalog.maps }
    requires level { All (λ standing. standing ≡ Level) (map (λ kept. kept.standing) resources.loaded) }
    requires inboxes { 1 ≤ vec_len resources.inboxes }
    requires workers { (1 ≤ spec.now.workers) × (spec.now.workers ≤ workers_max) }
    requires most { spec.now.most ≡ CALLS_MAX }
    ensures hosted { IfOk result.0 (λ hosted. IsServed D.Disk
        (setup_of resources.catalog (T.text resources.desk.texts) resources.desk.hosts spec.now.turns)
        (first_of resources.loaded) hosted (loaded_tells_by L.Hall I.Inbox T.Texts A.Dial resources)
        (tells_by L.Hall I.Inbox T.Texts A.Dial result.1)) }
    ensures unhosted { IfErr result.0 (λ why. why ≡ NotHosted.NoMemory) }
    ensures disks { OnErr result.0 (result.1.disks.items ≡ disks_of resources.loaded) }
    ensures untouched { OnErr result.0 ((result.1.desk ≡ resources.desk) × (result.1.listen ≡ resources.listen)
        × (result.1.inboxes ≡ resources.inboxes) × (result.1.outbox ≡ resources.outbox)) }
    ensures inbox_fault { IfOk result.0 (λ hosted. hosted.inbox_fault ≡ true
        → SomeHasRisen (map I.faults (resources.outbox ∷ resources.inboxes.items))
        (map I.faults (result.1.outbox ∷ result.1.inboxes.items))) }
    ensures texts { (file : List ℕ) → T.text result.1.desk.texts file ≡ T.text resources.desk.texts file }
    ensures moment { C.moment result.1.desk.clock ≡ C.moment resources.desk.clock }
    ensures count { length result.1.disks.items ≡ length resources.loaded }
    ensures inboxes { length result.1.inboxes.items ≡ length resources.inboxes.items }
{
    let BoardStart {
        opened,
        catalog: copy,
        versions: start,
        readers: count,
    } = starting;
    let Ok((writer, readers)) = board::<J, &R>(alloc, rt, opened, copy, start, count) else {
        return (Err(NotHosted::NoMemory), unload(resources));
    };
    let publisher = publisher_of(resources.loaded, resources.catalog, writer);
    let desk = shared::<M, A, T, C>(resources.desk);
    let lent = ServerResources {
        publisher,
        readers,
        desk,
        listen: resources.listen,
        inboxes: resources.inboxes,
        outbox: resources.outbox,
    };
    match serve(alloc, rt, lent, spec, journal, &OpenGate) {
        Ok(served) => {
            let hosted = Hosted {
                tally: served.tally,
                totals: served.totals,
                inbox_fault: served.inbox_fault,
            };
            let resources = HostResources {
                disks: served.disks,
                desk: unshared(served.desk),
                listen: served.listen,
                inboxes: served.inboxes,
                outbox: served.outbox,
            };
            (Ok(hosted), resources)
        }
        Err(refused) => {
            let resources = HostResources {
                disks: refused.disks,
                desk: unshared(refused.desk),
                listen: refused.listen,
                inboxes: refused.inboxes,
                outbox: refused.outbox,
            };
            (Err(NotHosted::NoMemory), resources)
        }
    }
}
