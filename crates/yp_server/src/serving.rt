//! Serving, from what is lent to workers to what comes back.

ghost use Rattle.std.specs.Prelude.{◌≡◌, ◌≤◌, ◌<◌, ◌+◌, ◌^◌, ◌∷◌, true, false, length, map, vec_len, IfOk, IfErr};
ghost use Rattle.std.specs.List.{All};
ghost use Rattle.yp_board.specs.Views.{IsFront};
ghost use Rattle.yp_board.specs.readers.Boards.{workers_max};
ghost use Rattle.yp_host.specs.inside.workers.Desks.{IsSupplied};
ghost use Rattle.yp_worker.specs.Receptions.{IsListenerState, opening_by, terms_of};
ghost use Rattle.yp_worker.specs.datagrams.Mailing.{nothing_held};
ghost use Rattle.yp_worker.specs.inside.Queues.{all_parts};
ghost use Rattle.yp_worker.specs.inside.Receptions.{terms_by};
ghost use Rattle.yp_rpc.specs.Turns.{datagram_max};
ghost use Rattle.yp_rpc.specs.inside.Turns.{box_by};
ghost use Rattle.yp_publisher.specs.Grown.{AreTold};
ghost use Rattle.yp_publisher.specs.Rising.{publisher_state, IsRisingLog};
ghost use Rattle.yp_publisher.specs.inside.Rising.{IsStart};
ghost use Rattle.yp_publisher.specs.sharing.Failures.{disks_of, faults_over};
ghost use Rattle.yp_server.specs.Serving.{conduct_at, IsAtStart, DisksStand, SomeHasRisen};
ghost use Rattle.yp_server.specs.Serving.{ServesInboxes, mail_service};
ghost use Rattle.yp_host.specs.inside.workers.CallBacks.{holds_none};
ghost use Rattle.yp_host.specs.workers.Makings.{IsBuiltAsNamed};
ghost use Rattle.yp_host.specs.inside.workers.Makings.{SiteBuilds};
ghost use Rattle.yp_host.specs.workers.Wires.{CoversOrders, CoversSources};
ghost use Rattle.yp_transfer.specs.inside.Dials.{dial_by};
ghost use Rattle.yp_host.specs.inside.workers.Uses.{dial_told};
ghost use Rattle.yp_server.specs.Counting.{CountsAndTells, FilesAreCovered, file_tells, count_told};
ghost use Rattle.yp_server.specs.Counting.{server_terms, endpoint_tells, network_tells, server_end};
ghost use Rattle.yp_server.specs.Origins.{served_maps, ComesFrom, EachComesFrom};

use crate::datagrams::CarrierResources;
use crate::locks::{Blanks, CallBackParts, lock_up, unlock};
use crate::preparing::{ListenerResources, WorkerMaker, WorkerResources};
use crate::resources::{ServerMemory, refuse};
use crate::spec::{ServeRefused, ServeSpec, Served, ServerResources};
use crate::workers::Staff;
use std::alloc::Global;
use std::marker::Brand;
use std::random::RandomSource;
use std::sync::ledger::Ledger;
use std::sync::{Mutex, Wait};
use std::thread::Threads;
use yp_answer::session::CALLS_MAX;
use yp_board::Tell;
use yp_host::workers::{BoardFront, Journal, Supplies};
use yp_io::{Clock, Dial, Disk, Hall, Inbox, Texts};
use yp_publisher::sharing::Accounts;
use yp_worker::datagrams::{DeferredPass, DeferredQueue};
use yp_worker::{Gate, Reception};

/// Serves the connections of a listener and the datagrams of inboxes, over maps and a desk that all workers share:
/// connections until as many were accepted as are to be or the listener has failed, the datagrams of an inbox until all
/// its turns are taken or it has failed. Each worker has a thread of its own, and each inbox has one more. Two workers
/// more, each in a thread of its own, too, do for those of connections what takes long, in the connections that are left
/// to them: one makes maps, and one fetches them. A carrier, in one more, does so for those of datagrams. Where a thread
/// can't be started, its work is done in another's.
///
/// Where there is a journal, the workers tell it what they do.
pub fn serve<D, B, A, T, C, L, I, G, R>(
    alloc: Global,
    rt: &R,
    resources: ServerResources<D, B, A, T, C, L, I>,
    spec: &ServeSpec,
    journal: Option<&Mutex<Journal>>,
    gate: &G,
) -> Result<Served<D, B, A, T, C, L, I>, ServeRefused<D, A, T, C, L, I>>
where
    D: Disk + Send + Drop,
    B: Tell + Send + Drop,
    B::Reader: Send + Drop,
    B::Front: Send,
    B::Knowledge: Send,
    A: Dial + Send + Drop,
    T: Texts + Send + Drop,
    C: Clock + Send + Drop,
    L: Hall + Send + Drop,
    I: Inbox + Send + Drop,
    L::In: Send,
    L::Out: Send,
    L::Closer: Send,
    L::Watch: Send,
    L::Waker: Send,
    A::In: Send,
    A::Out: Send,
    G: Gate + Sync,
    R: Threads + Wait + RandomSource + Sync,
    requires workers { (1 ≤ spec.now.workers) × (spec.now.workers ≤ workers_max) }
    requires inboxes { (1 ≤ vec_len resources.inboxes) × (vec_len resources.inboxes < 2 ^ 32) }
    requires readers { vec_len resources.readers ≡ spec.now.workers + 3 + vec_len resources.inboxes }
    requires starts { All (λ reader. IsAtStart resources.publisher.catalogue (B.log resources.publisher.board)
        (B.Reader.seen reader)) resources.readers.items }
    requires most { spec.now.most ≤ CALLS_MAX }

    // All connections were closed that came.
    ensures gone { IfOk result (λ served. IsListenerState (opening_by L.Hall resources.listen)
        (opening_by L.Hall served.listen)
        served.tally.connections served.tally.listen_fault 0 1) }

    // Where the listener hasn't failed, as many were accepted as were to be.
    ensures all { IfOk result (λ served. served.tally.listen_fault ≡ false
        → L.accepted served.listen ≡ L.most resources.listen) }

    // What was sent of each inbox for what came, on what a worker knew that began with the start, and what was sent by
    // the carrier of the calls that those workers left. Each that was left was answered once, as often as it was left,
    // on no less than was known then.
    ensures datagrams { IfOk result (λ served. ServesInboxes (mail_service
        (conduct_at B.Reader.seen B.Reader.stepped (T.text resources.desk.texts) resources.desk.hosts) count_told
        resources.publisher.catalogue (B.log resources.publisher.board) (B.log served.writer) spec.now.turns)
        served.inbox_fault
        (map (box_by I.Inbox) resources.inboxes.items) (map (box_by I.Inbox) served.inboxes.items)
        (box_by I.Inbox resources.outbox) (box_by I.Inbox served.outbox)) }
    ensures inbox_fault { IfOk result (λ served. served.inbox_fault ≡ true
        → SomeHasRisen (map I.faults (resources.outbox ∷ resources.inboxes.items))
        (map I.faults (served.outbox ∷ served.inboxes.items))) }

    // How each map stands then. From a start the orders of each map rise, where the disks tell what a crash may leave.
    ensures maps { IfOk result (λ served. DisksStand D.history resources.publisher.catalogue (B.log served.writer)
        served.disks.items) }
    ensures grown { IfOk result (λ served. IsFront (B.log resources.publisher.board) (B.log served.writer)) }
    ensures rises { IfOk result (λ served. IsStart (publisher_state B.log resources.publisher)
        → AreTold D.history served.disks.items → IsRisingLog (B.log served.writer)) }
    ensures desk { IfOk result (λ served. IsSupplied T.Texts (T.text resources.desk.texts) resources.desk.hosts
        served.desk) }

    // What each worker did, step by step, and how each of its connections stood as it was closed; each datagram; what
    // all workers counted; and whom they left what to be told. The dial was used for transfers of the maps alone, and
    // each caller was told what was left it, as often as it was left.
    ensures counted { IfOk result (λ served. CountsAndTells
        (conduct_at B.Reader.seen B.Reader.stepped (T.text resources.desk.texts) resources.desk.hosts)
        (server_terms (terms_of resources.publisher.catalogue (B.log resources.publisher.board) spec.now.most)
        spec.now.turns) resources.desk.hosts
        (network_tells (endpoint_tells (opening_by L.Hall resources.listen)
        (map (box_by I.Inbox) resources.inboxes.items) (box_by I.Inbox resources.outbox))
        (dial_by A.Dial resources.desk.dial))
        (network_tells (endpoint_tells (opening_by L.Hall served.listen)
        (map (box_by I.Inbox) served.inboxes.items) (box_by I.Inbox served.outbox))
        (dial_by A.Dial served.desk.dial))
        (server_end served.tally.calls served.inbox_fault served.totals (B.log served.writer))) }

    // What bounds what was counted: FILEs are at most as many as the faults of the texts and of the disks, orders that
    // were reached as the wires that begin with one, and failed sources as the faults of the dial and the wires that
    // give no version.
    ensures files { IfOk result (λ served. FilesAreCovered D.history D.faults
        (file_tells (T.faults resources.desk.texts) (disks_of resources.publisher.maps))
        (file_tells (T.faults served.desk.texts) served.disks.items) served.totals) }
    ensures orders { IfOk result (λ served. CoversOrders (A.past resources.desk.dial) (A.past served.desk.dial)
        served.totals.outcomes.reached) }
    ensures sources { IfOk result (λ served. CoversSources (A.past resources.desk.dial) (A.past served.desk.dial)
        (A.faults resources.desk.dial) (A.faults served.desk.dial) served.totals.outcomes.source) }

    // Where what was shown came from: so many makes were answered SUCC, and all else was fetched.
    ensures origins { IfOk result (λ served. IsStart (publisher_state B.log resources.publisher)
        → AreTold D.history served.disks.items → ComesFrom D.history
        (IsBuiltAsNamed (T.text resources.desk.texts) resources.publisher.catalogue)
        (served_maps resources.publisher.catalogue (publisher_state B.log resources.publisher)
        (B.log served.writer) served.disks.items) served.totals.made
        (A.past resources.desk.dial) (A.past served.desk.dial)) }

    // Each version that was shown was new behind the log before it: it was built, or a wire gave it. At each moment a
    // crash leaves of each map what it might have left at the start, or bytes that stand for what was shown of it or
    // for a version that was new; and a map that is behind at the end is behind a version that is new.
    ensures traced { IfOk result (λ served. IsStart (publisher_state B.log resources.publisher)
        → EachComesFrom D.history (IsBuiltAsNamed (T.text resources.desk.texts) resources.publisher.catalogue)
        (served_maps resources.publisher.catalogue (publisher_state B.log resources.publisher)
        (B.log served.writer) served.disks.items) (map D.history (disks_of resources.publisher.maps))
        (A.past resources.desk.dial) (A.past served.desk.dial)) }

    // Want of memory, before a connection was accepted or a turn was taken. Nothing has changed.
    ensures refused { IfErr result (λ refused. (refused.desk ≡ resources.desk) × (refused.listen ≡ resources.listen)
        × (refused.inboxes ≡ resources.inboxes) × (refused.outbox ≡ resources.outbox)) }
    ensures disks { IfErr result (λ refused. refused.disks.items ≡ disks_of resources.publisher.maps) }
{
    let workers = spec.workers as usize + 2;
    let inboxes = resources.inboxes.len();
    let Ok(memory) = ServerMemory::new(alloc, workers, inboxes) else {
        return Err(refuse(resources));
    };
    let Ok(blanks) = Blanks::new(alloc, workers as u64, inboxes as u64) else {
        return Err(refuse(resources));
    };
    let setting = Setting {
        alloc,
        rt,
        spec: *spec,
        journal,
        gate,
    };
    with_queue::<Brand, Brand, D, B, A, T, C, L, I, G, R>(setting, resources, memory, blanks)
}

/// What a server has all the time that it serves: what it is to do, the journal, where there is one, and the gate.
#[derive(Drop)]
pub(crate) struct Setting<'a, G, R> {
    pub(crate) alloc: Global,
    pub(crate) rt: &'a R,
    pub(crate) spec: ServeSpec,
    pub(crate) journal: Option<&'a Mutex<Journal>>,
    pub(crate) gate: &'a G,
}

/// Makes the queue of what servers of datagrams leave, and serves with it.
fn with_queue<J, E, D, B, A, T, C, L, I, G, R>(
    setting: Setting<'_, G, R>,
    resources: ServerResources<D, B, A, T, C, L, I>,
    memory: ServerMemory,
    blanks: Blanks,
) -> Result<Served<D, B, A, T, C, L, I>, ServeRefused<D, A, T, C, L, I>>
where
    J: Reception + Accounts + Supplies + Send + Sync,
    E: Ledger + Send + Sync,
    D: Disk + Send + Drop,
    B: Tell + Send + Drop,
    B::Reader: Send + Drop,
    B::Front: Send,
    B::Knowledge: Send,
    A: Dial + Send + Drop,
    T: Texts + Send + Drop,
    C: Clock + Send + Drop,
    L: Hall + Send + Drop,
    I: Inbox + Send + Drop,
    L::In: Send,
    L::Out: Send,
    L::Closer: Send,
    L::Watch: Send,
    L::Waker: Send,
    A::In: Send,
    A::Out: Send,
    G: Gate + Sync,
    R: Threads + Wait + RandomSource + Sync,
    requires site { resources.publisher.catalogue ≡ J.catalogue }
    requires starts { B.log resources.publisher.board ≡ J.starts }
    requires supplied { IsSupplied T.Texts J.text J.hosts resources.desk }
    requires opening { opening_by L.Hall resources.listen ≡ J.opening }
    requires most { (setting.spec.most ≡ J.most) × (setting.spec.most ≤ CALLS_MAX) }
    requires some { (1 < length memory.workers.all_buffers.items)
        × (length memory.workers.all_buffers.items ≤ workers_max + 2) }
    requires inboxes { (0 < length resources.inboxes.items) × (length resources.inboxes.items < 2 ^ 32) }
    requires rooms { length memory.workers.rooms.items ≡ length resources.inboxes.items }
    requires letter { datagram_max ≤ length memory.letter.items }
    requires readers { length resources.readers.items
        ≡ length memory.workers.all_buffers.items + length resources.inboxes.items + 1 }
    requires know { All (λ reader. IsAtStart J.catalogue J.starts (B.Reader.seen reader)) resources.readers.items }
    requires out { (blanks.listener.out.name ≡ J.name) × (blanks.listener.out.parts ≡ J.parts)
        × (J.parts ≡ length memory.workers.all_buffers.items + 2) }
    requires ended { (blanks.listener.ended.name ≡ E.name) × (blanks.listener.ended.parts ≡ E.parts)
        × (E.parts ≡ length memory.workers.all_buffers.items + 1) }
    requires builds { SiteBuilds J.text J.catalogue J.built }
    requires unread { (blanks.charges.desk.unread.name ≡ J.unread) × (blanks.charges.desk.unread.parts ≡ J.shares)
        × (J.shares ≡ length memory.workers.all_buffers.items + length resources.inboxes.items + 3) }
    requires orders { (blanks.charges.desk.orders.name ≡ J.orders) × (blanks.charges.desk.orders.parts ≡ J.shares) }
    requires sources { (blanks.charges.desk.sources.name ≡ J.sources) × (blanks.charges.desk.sources.parts ≡ J.shares) }
    requires failures { (blanks.charges.failures.name ≡ J.failures) × (blanks.charges.failures.parts ≡ J.shares) }
    requires made { (blanks.charges.made.name ≡ J.made) × (blanks.charges.made.parts ≡ J.shares) }
    requires versions { (blanks.charges.versions.name ≡ J.versions) × (blanks.charges.versions.parts ≡ J.shares + 1) }
    requires texts { T.faults resources.desk.texts ≡ J.text_faults }
    requires dial { (A.past resources.desk.dial ≡ J.wires) × (A.faults resources.desk.dial ≡ J.dial_faults)
        × (A.letters resources.desk.dial ≡ J.letters) }
    requires disks { faults_over D.faults (disks_of resources.publisher.maps) ≡ J.disk_faults }
    requires first { publisher_state B.log resources.publisher ≡ J.first }
    requires histories { map D.history (disks_of resources.publisher.maps) ≡ J.histories }
    requires fetches { blanks.fetches ≡ J.fetched }
    requires call_backs { (blanks.call_backs ≡ J.call_backs)
        × (blanks.pass ≡ holds_none J.call_backs all_parts) }
    ensures gone { IfOk result (λ served. IsListenerState J.opening (opening_by L.Hall served.listen)
        served.tally.connections served.tally.listen_fault 0 1) }
    ensures datagrams { IfOk result (λ served. ServesInboxes
        (mail_service (conduct_at B.Reader.seen B.Reader.stepped J.text J.hosts) count_told
        J.catalogue J.starts (B.log served.writer) setting.entry.spec.turns) served.inbox_fault
        (map (box_by I.Inbox) resources.inboxes.items) (map (box_by I.Inbox) served.inboxes.items)
        (box_by I.Inbox resources.outbox) (box_by I.Inbox served.outbox)) }
    ensures inbox_fault { IfOk result (λ served. served.inbox_fault ≡ true
        → SomeHasRisen (map I.faults (resources.outbox ∷ resources.inboxes.items))
        (map I.faults (served.outbox ∷ served.inboxes.items))) }
    ensures maps { IfOk result (λ served. DisksStand D.history J.catalogue (B.log served.writer) served.disks.items) }
    ensures grown { IfOk result (λ served. IsFront J.starts (B.log served.writer)) }
    ensures rises { IfOk result (λ served. IsStart J.first → AreTold D.history served.disks.items
        → IsRisingLog (B.log served.writer)) }
    ensures desk { IfOk result (λ served. IsSupplied T.Texts J.text J.hosts served.desk) }
    ensures counted { IfOk result (λ served. CountsAndTells
        (conduct_at B.Reader.seen B.Reader.stepped J.text J.hosts)
        (server_terms (terms_by J.Reception) setting.entry.spec.turns) J.hosts
        (network_tells (endpoint_tells J.opening
        (map (box_by I.Inbox) resources.inboxes.items) (box_by I.Inbox resources.outbox))
        (dial_told J.wires J.letters J.dial_faults))
        (network_tells (endpoint_tells (opening_by L.Hall served.listen)
        (map (box_by I.Inbox) served.inboxes.items) (box_by I.Inbox served.outbox))
        (dial_by A.Dial served.desk.dial))
        (server_end served.tally.calls served.inbox_fault served.totals (B.log served.writer))) }
    ensures files { IfOk result (λ served. FilesAreCovered D.history D.faults
        (file_tells (T.faults resources.desk.texts) (disks_of resources.publisher.maps))
        (file_tells (T.faults served.desk.texts) served.disks.items) served.totals) }
    ensures orders { IfOk result (λ served. CoversOrders J.wires (A.past served.desk.dial)
        served.totals.outcomes.reached) }
    ensures sources { IfOk result (λ served. CoversSources J.wires (A.past served.desk.dial)
        J.dial_faults (A.faults served.desk.dial) served.totals.outcomes.source) }
    ensures origins { IfOk result (λ served. IsStart J.first → AreTold D.history served.disks.items
        → ComesFrom D.history J.built (served_maps J.catalogue J.first (B.log served.writer) served.disks.items)
        served.totals.made J.wires (A.past served.desk.dial)) }
    ensures traced { IfOk result (λ served. IsStart J.first → EachComesFrom D.history J.built
        (served_maps J.catalogue J.first (B.log served.writer) served.disks.items) J.histories J.wires
        (A.past served.desk.dial)) }
    ensures refused { IfErr result (λ refused. (refused.desk ≡ resources.desk) × (refused.listen ≡ resources.listen)
        × (refused.inboxes ≡ resources.inboxes) × (refused.outbox ≡ resources.outbox)) }
    ensures disks { IfErr result (λ refused. refused.disks.items ≡ disks_of resources.publisher.maps) }
{
    let inboxes = memory.workers.rooms.len() as u64;
    let Ok((pending, all_held)) = DeferredQueue::<J, BoardFront<B>>::new(setting.alloc, inboxes)
    else {
        return Err(refuse(resources));
    };
    under_locks::<J, E, D, B, A, T, C, L, I, G, R>(
        setting, resources, memory, blanks, &pending, all_held,
    )
}

/// Lends all to workers, under three locks, and takes it apart again.
fn under_locks<J, E, D, B, A, T, C, L, I, G, R>(
    setting: Setting<'_, G, R>,
    resources: ServerResources<D, B, A, T, C, L, I>,
    memory: ServerMemory,
    blanks: Blanks,
    pending: &DeferredQueue<J, BoardFront<B>>,
    all_held: DeferredPass<BoardFront<B>>,
) -> Result<Served<D, B, A, T, C, L, I>, ServeRefused<D, A, T, C, L, I>>
where
    J: Reception + Accounts + Supplies + Send + Sync,
    E: Ledger + Send + Sync,
    D: Disk + Send + Drop,
    B: Tell + Send + Drop,
    B::Reader: Send + Drop,
    B::Front: Send,
    B::Knowledge: Send,
    A: Dial + Send + Drop,
    T: Texts + Send + Drop,
    C: Clock + Send + Drop,
    L: Hall + Send + Drop,
    I: Inbox + Send + Drop,
    L::In: Send,
    L::Out: Send,
    L::Closer: Send,
    L::Watch: Send,
    L::Waker: Send,
    A::In: Send,
    A::Out: Send,
    G: Gate + Sync,
    R: Threads + Wait + RandomSource + Sync,
    requires site { resources.publisher.catalogue ≡ J.catalogue }
    requires starts { B.log resources.publisher.board ≡ J.starts }
    requires supplied { IsSupplied T.Texts J.text J.hosts resources.desk }
    requires opening { opening_by L.Hall resources.listen ≡ J.opening }
    requires most { (setting.spec.most ≡ J.most) × (setting.spec.most ≤ CALLS_MAX) }
    requires some { (1 < length memory.workers.all_buffers.items)
        × (length memory.workers.all_buffers.items ≤ workers_max + 2) }
    requires inboxes { (0 < length resources.inboxes.items) × (length resources.inboxes.items < 2 ^ 32) }
    requires rooms { length memory.workers.rooms.items ≡ length resources.inboxes.items }
    requires letter { datagram_max ≤ length memory.letter.items }
    requires readers { length resources.readers.items
        ≡ length memory.workers.all_buffers.items + length resources.inboxes.items + 1 }
    requires know { All (λ reader. IsAtStart J.catalogue J.starts (B.Reader.seen reader)) resources.readers.items }
    requires out { (blanks.listener.out.name ≡ J.name) × (blanks.listener.out.parts ≡ J.parts)
        × (J.parts ≡ length memory.workers.all_buffers.items + 2) }
    requires ended { (blanks.listener.ended.name ≡ E.name) × (blanks.listener.ended.parts ≡ E.parts)
        × (E.parts ≡ length memory.workers.all_buffers.items + 1) }
    requires builds { SiteBuilds J.text J.catalogue J.built }
    requires unread { (blanks.charges.desk.unread.name ≡ J.unread) × (blanks.charges.desk.unread.parts ≡ J.shares)
        × (J.shares ≡ length memory.workers.all_buffers.items + length resources.inboxes.items + 3) }
    requires orders { (blanks.charges.desk.orders.name ≡ J.orders) × (blanks.charges.desk.orders.parts ≡ J.shares) }
    requires sources { (blanks.charges.desk.sources.name ≡ J.sources) × (blanks.charges.desk.sources.parts ≡ J.shares) }
    requires failures { (blanks.charges.failures.name ≡ J.failures) × (blanks.charges.failures.parts ≡ J.shares) }
    requires made { (blanks.charges.made.name ≡ J.made) × (blanks.charges.made.parts ≡ J.shares) }
    requires versions { (blanks.charges.versions.name ≡ J.versions) × (blanks.charges.versions.parts ≡ J.shares + 1) }
    requires texts { T.faults resources.desk.texts ≡ J.text_faults }
    requires dial { (A.past resources.desk.dial ≡ J.wires) × (A.faults resources.desk.dial ≡ J.dial_faults)
        × (A.letters resources.desk.dial ≡ J.letters) }
    requires disks { faults_over D.faults (disks_of resources.publisher.maps) ≡ J.disk_faults }
    requires first { publisher_state B.log resources.publisher ≡ J.first }
    requires histories { map D.history (disks_of resources.publisher.maps) ≡ J.histories }
    requires fetches { blanks.fetches ≡ J.fetched }
    requires parts { all_held ≡ nothing_held pending.now all_parts }
    requires call_backs { (blanks.call_backs ≡ J.call_backs)
        × (blanks.pass ≡ holds_none J.call_backs all_parts) }
    ensures gone { IfOk result (λ served. IsListenerState J.opening (opening_by L.Hall served.listen)
        served.tally.connections served.tally.listen_fault 0 1) }
    ensures datagrams { IfOk result (λ served. ServesInboxes
        (mail_service (conduct_at B.Reader.seen B.Reader.stepped J.text J.hosts) count_told
        J.catalogue J.starts (B.log served.writer) setting.entry.spec.turns) served.inbox_fault
        (map (box_by I.Inbox) resources.inboxes.items) (map (box_by I.Inbox) served.inboxes.items)
        (box_by I.Inbox resources.outbox) (box_by I.Inbox served.outbox)) }
    ensures inbox_fault { IfOk result (λ served. served.inbox_fault ≡ true
        → SomeHasRisen (map I.faults (resources.outbox ∷ resources.inboxes.items))
        (map I.faults (served.outbox ∷ served.inboxes.items))) }
    ensures maps { IfOk result (λ served. DisksStand D.history J.catalogue (B.log served.writer) served.disks.items) }
    ensures grown { IfOk result (λ served. IsFront J.starts (B.log served.writer)) }
    ensures rises { IfOk result (λ served. IsStart J.first → AreTold D.history served.disks.items
        → IsRisingLog (B.log served.writer)) }
    ensures desk { IfOk result (λ served. IsSupplied T.Texts J.text J.hosts served.desk) }
    ensures counted { IfOk result (λ served. CountsAndTells
        (conduct_at B.Reader.seen B.Reader.stepped J.text J.hosts)
        (server_terms (terms_by J.Reception) setting.entry.spec.turns) J.hosts
        (network_tells (endpoint_tells J.opening
        (map (box_by I.Inbox) resources.inboxes.items) (box_by I.Inbox resources.outbox))
        (dial_told J.wires J.letters J.dial_faults))
        (network_tells (endpoint_tells (opening_by L.Hall served.listen)
        (map (box_by I.Inbox) served.inboxes.items) (box_by I.Inbox served.outbox))
        (dial_by A.Dial served.desk.dial))
        (server_end served.tally.calls served.inbox_fault served.totals (B.log served.writer))) }
    ensures files { IfOk result (λ served. FilesAreCovered D.history D.faults
        (file_tells (T.faults resources.desk.texts) (disks_of resources.publisher.maps))
        (file_tells (T.faults served.desk.texts) served.disks.items) served.totals) }
    ensures orders { IfOk result (λ served. CoversOrders J.wires (A.past served.desk.dial)
        served.totals.outcomes.reached) }
    ensures sources { IfOk result (λ served. CoversSources J.wires (A.past served.desk.dial)
        J.dial_faults (A.faults served.desk.dial) served.totals.outcomes.source) }
    ensures origins { IfOk result (λ served. IsStart J.first → AreTold D.history served.disks.items
        → ComesFrom D.history J.built (served_maps J.catalogue J.first (B.log served.writer) served.disks.items)
        served.totals.made J.wires (A.past served.desk.dial)) }
    ensures traced { IfOk result (λ served. IsStart J.first → EachComesFrom D.history J.built
        (served_maps J.catalogue J.first (B.log served.writer) served.disks.items) J.histories J.wires
        (A.past served.desk.dial)) }
    ensures refused { IfErr result (λ refused. (refused.desk ≡ resources.desk) × (refused.listen ≡ resources.listen)
        × (refused.inboxes ≡ resources.inboxes) × (refused.outbox ≡ resources.outbox)) }
    ensures disks { IfErr result (λ refused. refused.disks.items ≡ disks_of resources.publisher.maps) }
{
    let Ok(staff) = Staff::new(setting.alloc, &memory.workers) else {
        return Err(refuse(resources));
    };
    let Blanks {
        listener: blanks,
        charges,
        fetches,
        call_backs,
        pass,
    } = blanks;
    let Some(fetches) = fetches.named::<J>() else {
        return Err(refuse(resources));
    };
    let ServerResources {
        publisher,
        readers,
        desk,
        listen,
        inboxes,
        outbox,
    } = resources;
    let parts = CallBackParts::split::<J>(&call_backs, pass);
    let (locks, charges) = lock_up::<J, D, B, A, T, C>(publisher, desk, charges, fetches, parts);
    let rt = setting.rt;
    let workers = WorkerResources {
        memory: memory.workers,
        readers,
        inboxes,
        turns: setting.spec.turns,
    };
    let carrier = CarrierResources {
        parts: all_held,
        outbox,
        letter: memory.letter,
    };
    let listener = ListenerResources { listen, blanks };
    let maker = WorkerMaker {
        setting,
        locks: &locks,
        pending,
        call_backs: &call_backs,
    };
    let ended = maker.serve::<E, L, I>(staff, workers, carrier, listener, charges);
    Ok(unlock(rt, locks, &call_backs, ended))
}
