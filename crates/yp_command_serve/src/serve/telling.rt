//! Maps that are served while a thread beside the server tells what it does.

ghost use Rattle.std.specs.Prelude.{◌≡◌, ◌∷◌, ℕ, ◌≤◌, List, All, length, map, true, vec_len, IfOk, IfErr, OnOk, OnErr};
ghost use Rattle.std.specs.Io.KnownBytes.{Appends};
ghost use Rattle.yp_io.specs.Counts.{HasRisen, CountsFaults};
ghost use Rattle.yp_board.specs.Catalogues.{name_view};
ghost use Rattle.yp_board.specs.readers.Boards.{workers_max};
ghost use Rattle.yp_answer.specs.declared.session.session.TheConstants.{CALLS_MAX};
ghost use Rattle.yp_server.specs.Serving.{SomeHasRisen};
ghost use Rattle.yp_command.specs.inside.Words.{IsNamed};
ghost use Rattle.yp_command_serve.specs.serve.Hosting.{setup_of, IsHosted};
ghost use Rattle.yp_command_serve.specs.serve.Log.{IsLog};
ghost use Rattle.yp_command_serve.specs.inside.serve.Hosting.{tells_by, IsUnhosted};
ghost use Rattle.yp_command_serve.specs.inside.serve.Log.{WritesLines, totals_told};

use crate::serve::log::{end_log, keep_log};
use crate::serve::resources::{HostResources, NotHosted, host};
use crate::serve::tally::Hosted;
use std::alloc::Global;
use std::random::RandomSource;
use std::sync::{Mutex, Wait};
use std::thread::{Threads, join};
use std::time;
use yp_board::{Catalog, MapName};
use yp_host::workers::Journal;
use yp_io::{Clock, Dial, Disk, Failed, Hall, Inbox, Sink, Texts};
use yp_server::ServeSpec;

/// What is served, and how.
#[derive(Drop)]
pub(crate) struct HostSpec {
    /// The names of the maps.
    pub(crate) catalog: Catalog,
    pub(crate) serve: ServeSpec,
    /// Whether it is told what is done.
    pub(crate) log: bool,
}

/// Serves maps as [`host`] does, and tells the notes what is done and at the end what was counted, where that is to be
/// told. A fault of the notes ends nothing else.
pub(crate) fn host_told<D, A, T, C, L, I, N, R>(
    alloc: Global,
    rt: &R,
    spec: HostSpec,
    resources: HostResources<D, A, T, C, L, I>,
    names: &[MapName],
    notes: N,
) -> (
    Result<Hosted, NotHosted>,
    HostResources<D, A, T, C, L, I>,
    N,
)
where
    D: Disk + Send + Drop,
    A: Dial + Send + Drop,
    T: Texts + Send + Drop,
    C: Clock + Send + Drop,
    L: Hall + Send + Drop,
    I: Inbox + Send + Drop,
    L::In: Send,
    L::Out: Send,
    L::Closer: Send,
    L::Watch: Send,
    L::Waker: Send,
    A::In: Send,
    A::Out: Send,
    N: Sink + Send + Drop,
    R: Threads + Wait + RandomSource + time::Clock + Sync,
    requires count { length resources.disks.items ≡ length spec.catalog.maps }
    requires inboxes { 1 ≤ vec_len resources.inboxes }
    requires workers { (1 ≤ spec.serve.workers) × (spec.serve.workers ≤ workers_max) }
    requires most { spec.serve.most ≡ CALLS_MAX }
    requires named { All IsNamed (map name_view names.now) }
    ensures hosted { IfOk result.0 (λ hosted. IsHosted D.Disk
        (setup_of spec.catalog (T.text resources.desk.texts) resources.desk.hosts spec.serve.turns) hosted
        (tells_by L.Hall I.Inbox T.Texts A.Dial resources) (tells_by L.Hall I.Inbox T.Texts A.Dial result.1)) }
    ensures unhosted { IfErr result.0 (λ why.
        IsUnhosted D.history D.faults why resources.disks.items result.1.disks.items) }
    ensures untouched { OnErr result.0 (result.1 ≡ record resources { disks = result.1.disks }) }
    ensures inbox_fault { IfOk result.0 (λ hosted. hosted.inbox_fault ≡ true
        → SomeHasRisen (map I.faults (resources.outbox ∷ resources.inboxes.items))
        (map I.faults (result.1.outbox ∷ result.1.inboxes.items))) }
    ensures texts { (file : List ℕ) → T.text result.1.desk.texts file ≡ T.text resources.desk.texts file }
    ensures moment { C.moment result.1.desk.clock ≡ C.moment resources.desk.clock }
    ensures count { length result.1.disks.items ≡ length resources.disks.items }
    ensures inboxes { length result.1.inboxes.items ≡ length resources.inboxes.items }
    ensures never_falls { N.faults notes ≤ N.faults result.2 }
    ensures logged { (text : List ℕ) × IsLog spec.log (map name_view names.now) (totals_told result.0) text
        × (¬ HasRisen (N.faults notes) (N.faults result.2)
        → Appends (N.output notes) (N.output result.2) text) }
{
    let HostSpec {
        catalog,
        serve: spec,
        log,
    } = spec;
    let spec = &spec;
    if !log {
        let (hosted, resources) = host(alloc, rt, catalog, spec, resources, None);
        return (hosted, resources, notes);
    }
    let journal = Mutex::new(Journal::new());
    let journal = &journal;
    let ((mut notes, told), (hosted, resources)) = join(
        rt,
        move || -> (N, Result<(), Failed>)
            requires { All IsNamed (map name_view names.now) }
            ensures written { OnOk result.1 (WritesLines (map name_view names.entry.now) (N.output notes)
                (N.output result.0)) }
            ensures cause { CountsFaults (N.faults notes) (N.faults result.0) result.1 }
        { keep_log(rt, names, journal, notes) },
        move || -> (Result<Hosted, NotHosted>, HostResources<D, A, T, C, L, I>)
            requires count { length resources.disks.items ≡ length catalog.maps }
            requires inboxes { 1 ≤ vec_len resources.inboxes }
            requires workers { (1 ≤ spec.now.workers) × (spec.now.workers ≤ workers_max) }
            requires most { spec.now.most ≡ CALLS_MAX }
            ensures hosted { IfOk result.0 (λ hosted. IsHosted D.Disk
                (setup_of catalog (T.text resources.desk.texts) resources.desk.hosts spec.entry.now.turns) hosted
                (tells_by L.Hall I.Inbox T.Texts A.Dial resources) (tells_by L.Hall I.Inbox T.Texts A.Dial result.1)) }
            ensures unhosted { IfErr result.0 (λ why.
                IsUnhosted D.history D.faults why resources.disks.items result.1.disks.items) }
            ensures untouched { OnErr result.0 (result.1 ≡ record resources { disks = result.1.disks }) }
            ensures inbox_fault { IfOk result.0 (λ hosted. hosted.inbox_fault ≡ true
                → SomeHasRisen (map I.faults (resources.outbox ∷ resources.inboxes.items))
                (map I.faults (result.1.outbox ∷ result.1.inboxes.items))) }
            ensures texts { (file : List ℕ) → T.text result.1.desk.texts file ≡ T.text resources.desk.texts file }
            ensures moment { C.moment result.1.desk.clock ≡ C.moment resources.desk.clock }
            ensures count { length result.1.disks.items ≡ length resources.disks.items }
            ensures inboxes { length result.1.inboxes.items ≡ length resources.inboxes.items }
        {
            let served = host(alloc, rt, catalog, spec, resources, Some(journal));
            journal.lock(rt).end();
            served
        },
    );
    let _ = end_log(&mut notes, told, &hosted);
    (hosted, resources, notes)
}
