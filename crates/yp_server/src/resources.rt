//! What workers are lent, and how it comes back.

ghost use Rattle.std.specs.Prelude.{◌≡◌, ℕ, ◌+◌, ◌≤◌, length, IfOk};
ghost use Rattle.yp_board.specs.Views.{IsFront};
ghost use Rattle.yp_board.specs.readers.Boards.{workers_max};
ghost use Rattle.yp_server.specs.Serving.{DisksStand};
ghost use Rattle.yp_server.specs.Counting.{DiskTellsFaults};
ghost use Rattle.std.specs.List.{All};
ghost use Rattle.yp_publisher.specs.Standing.{OfMap, IsNumbered};
ghost use Rattle.yp_publisher.specs.Rising.{IsRisingLog};
ghost use Rattle.yp_publisher.specs.inside.Rising.{IsStart};
ghost use Rattle.yp_publisher.specs.Grown.{AreTold};
ghost use Rattle.yp_publisher.specs.sharing.Failures.{disks_of, faults_over};
ghost use Rattle.yp_rpc.specs.Turns.{datagram_max};
ghost use Rattle.yp_server.specs.Origins.{served_maps, LeavesTraced, Stems};

use crate::datagrams::EndedMail;
use crate::spec::{ServeRefused, ServerResources};
use std::alloc::Global;
use std::sync::ledger::Share;
use yp_answer::session::Buffers;
use yp_board::{Show, Tell};
use yp_host::Desk;
use yp_host::workers::{Account, Charges, Supplies};
use yp_io::{Disk, NoMemory, zeros};
use yp_publisher::Publisher;
use yp_publisher::sharing::{Accounts, Debits, FetchedVersions, FetchesFront, Locked, Site};
use yp_rpc::{DATAGRAM_MAX, Room};
use yp_worker::Tally;

/// What is handed back where memory has run out.
pub(crate) fn refuse<D: Disk, B: Tell + Drop, A, T, C, L, I>(
    resources: ServerResources<D, B, A, T, C, L, I>,
) -> ServeRefused<D, A, T, C, L, I>
where
    B::Reader: Drop,
    ensures desk { result.desk ≡ resources.desk }
    ensures listen { result.listen ≡ resources.listen }
    ensures inboxes { (result.inboxes ≡ resources.inboxes) × (result.outbox ≡ resources.outbox) }
    ensures disks { result.disks.items ≡ disks_of resources.publisher.maps }
{
    let ServerResources {
        publisher,
        readers: _,
        desk,
        listen,
        inboxes,
        outbox,
    } = resources;
    let (disks, _) = disassemble(publisher);
    ServeRefused {
        disks,
        desk,
        listen,
        inboxes,
        outbox,
    }
}

/// The disks of the maps and the board.
fn disassemble<D: Disk, B: Show>(publisher: Publisher<D, B>) -> (Vec<D>, B)
    ensures board { result.1 ≡ publisher.board }
    ensures stand { (leaves : DisksStand D.history publisher.catalogue (B.log publisher.board) result.0.items)
        × (leaves.kept ≡ publisher.maps) }
    ensures disks { result.0.items ≡ disks_of publisher.maps }
    ensures numbered { (number : ℕ) → OfMap number publisher.maps (IsNumbered D.history) }
{
    let _catalog = publisher.catalog();
    publisher.into_parts()
}

/// The disks of the maps, the writer, of whose log this is a front, what stands for the fetched versions that were
/// installed, and a front of their log. What was charged is covered by the faults of the disks, and by the built
/// versions that were shown. From a start the log rises, where the disks tell what a crash may leave of them, and each
/// version that a crash leaves or that was shown was built or fetched.
pub(crate) fn take_apart<S: Site + Accounts, D: Disk, B: Tell>(
    mut locked: Locked<S, D, B>,
    front: &B::Front,
    charge: &mut Debits<S>,
) -> (Vec<D>, B, Share<FetchedVersions<S>>, FetchesFront<S>)
    ensures stand { DisksStand D.history S.catalogue (B.log result.1) result.0.items }
    ensures grown { IsFront (B.kept front.now) (B.log result.1) }
    ensures covered { All (DiskTellsFaults D.history D.faults) result.0.items
        → S.disk_faults + charge.old.failures ≤ faults_over D.faults result.0.items }
    ensures rises { IsStart S.first → AreTold D.history result.0.items → IsRisingLog (B.log result.1) }
    ensures sourced { (made : ℕ) → made ≤ charge.old.made → IsStart S.first → AreTold D.history result.0.items
        → Stems D.history S.built (served_maps S.catalogue S.first (B.log result.1) result.0.items) made
        result.2.amount }
    ensures traced { IsStart S.first → LeavesTraced D.history S.built result.3
        (served_maps S.catalogue S.first (B.log result.1) result.0.items) S.histories }
{
    locked.covers(front);
    let (publisher, versions, fetches) = locked.close(charge);
    let (disks, board) = disassemble(publisher);
    (disks, board, versions, fetches)
}

/// What comes back of workers once all of them have ended: of the listener, of the inboxes, what all have counted, and
/// what their hosts were charged by.
pub(crate) struct EndedService<S: Accounts + Supplies, B: Tell, L, I> {
    pub(crate) listen: L,
    pub(crate) tally: Tally,
    pub(crate) mailed: EndedMail<I>,
    pub(crate) account: Account<S, B>,
    pub(crate) others: Charges<S>,
}

/// The memory of workers: for the records and replies of each worker of connections, and for a datagram and its reply
/// of each worker of datagrams.
#[derive(Drop)]
pub(crate) struct WorkerMemory {
    pub(crate) all_buffers: Vec<Buffers>,
    pub(crate) rooms: Vec<Room>,
}

impl WorkerMemory {
    /// The memory of so many workers of connections, and of so many of datagrams.
    pub(crate) fn new(
        alloc: Global,
        workers: usize,
        inboxes: usize,
    ) -> Result<WorkerMemory, NoMemory>
        ensures all_buffers { IfOk result (λ memory. length memory.all_buffers.items ≡ workers) }
        ensures rooms { IfOk result (λ memory. length memory.rooms.items ≡ inboxes) }
    {
        let all_buffers = buffers_of(alloc, workers)?;
        let rooms = rooms_of(alloc, inboxes)?;
        Ok(WorkerMemory { all_buffers, rooms })
    }
}

/// The memory of a server: that of its workers, and that of a reply of its carrier.
#[derive(Drop)]
pub(crate) struct ServerMemory {
    pub(crate) workers: WorkerMemory,
    pub(crate) letter: Vec<u8>,
}

impl ServerMemory {
    /// The memory of a server with so many workers of connections, and so many of datagrams.
    pub(crate) fn new(
        alloc: Global,
        workers: usize,
        inboxes: usize,
    ) -> Result<ServerMemory, NoMemory>
        ensures all_buffers { IfOk result (λ memory. length memory.workers.all_buffers.items ≡ workers) }
        ensures rooms { IfOk result (λ memory. length memory.workers.rooms.items ≡ inboxes) }
        ensures letter { IfOk result (λ memory. datagram_max ≤ length memory.letter.items) }
    {
        let workers = WorkerMemory::new(alloc, workers, inboxes)?;
        let letter = zeros(alloc, DATAGRAM_MAX)?;
        Ok(ServerMemory { workers, letter })
    }
}

/// The memory of so many workers of connections.
fn buffers_of(alloc: Global, count: usize) -> Result<Vec<Buffers>, NoMemory>
    ensures { IfOk result (λ all_buffers. length all_buffers.items ≡ count) }
{
    let mut all_buffers = Vec::with_capacity(alloc, count).map_err(|_| NoMemory)?;
    for _ in 0..count {
        all_buffers.push_reserved(Buffers::new(alloc)?);
    }
    Ok(all_buffers)
}

/// The memory of so many workers of datagrams.
fn rooms_of(alloc: Global, count: usize) -> Result<Vec<Room>, NoMemory>
    ensures { IfOk result (λ rooms. length rooms.items ≡ count) }
{
    let mut rooms = Vec::with_capacity(alloc, count).map_err(|_| NoMemory)?;
    for _ in 0..count {
        rooms.push_reserved(Room::new(alloc)?);
    }
    Ok(rooms)
}
