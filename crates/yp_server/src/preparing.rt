//! Where workers work.

ghost use Rattle.std.specs.Prelude.{◌≡◌, ◌≤◌, ◌<◌, ◌+◌, ◌^◌, ℕ, [], ◌∷◌, ◌++◌, List, length, map, true, vec_capacity};
ghost use Rattle.std.specs.List.{All, AllZip};
ghost use Rattle.yp_board.specs.Logs.{Log};
ghost use Rattle.yp_board.specs.Views.{IsFront};
ghost use Rattle.yp_board.specs.readers.Boards.{workers_max};
ghost use Rattle.yp_worker.specs.Receptions.{IsListenerState, IsUnder, opening_by};
ghost use Rattle.yp_worker.specs.inside.Receptions.{terms_by};
ghost use Rattle.yp_worker.specs.datagrams.Mailing.{nothing_held};
ghost use Rattle.yp_worker.specs.inside.Mailing.{carrier_of};
ghost use Rattle.yp_worker.specs.inside.Queues.{all_parts};
ghost use Rattle.yp_host.specs.inside.workers.Makings.{SiteBuilds};
ghost use Rattle.yp_host.specs.workers.Charges.{counted_of, nothing_counted};
ghost use Rattle.yp_host.specs.inside.workers.Charges.{counted_by, free_of_charge};
ghost use Rattle.yp_host.specs.workers.Workers.{WorkerState};
ghost use Rattle.yp_rpc.specs.Turns.{datagram_max};
ghost use Rattle.yp_rpc.specs.inside.Turns.{box_by};
ghost use Rattle.yp_server.specs.Serving.{conduct_at, IsAtStart, SomeHasRisen};
ghost use Rattle.yp_server.specs.declared.datagrams.DatagramWorker.{DatagramWorker};
ghost use Rattle.yp_server.specs.inside.Counting.{mail_start, BeginsMail};
ghost use Rattle.yp_server.specs.inside.Serving.{before_work, fresh_worker};
ghost use Rattle.yp_server.specs.inside.Shares.{SharesFor};
ghost use Rattle.yp_server.specs.inside.Workers.{workers_of, connections_of, datagram_worker_of};
ghost use Rattle.yp_server.specs.Counting.{CountsAll, count_told, server_terms, endpoint_tells, server_end};

use crate::datagrams::{CarrierResources, DatagramResources, DatagramWorker};
use crate::hosts::charges_of;
use crate::locks::{ListenerBlanks, Locks};
use crate::resources::{EndedService, WorkerMemory};
use crate::serving::Setting;
use crate::workers::{ConnectionWorker, ServerWorker, Staff, run_workers};
use std::random::RandomSource;
use std::sync::Wait;
use std::sync::ledger::{Ledger, Share};
use std::thread::Threads;
use yp_answer::session::{Buffers, CALLS_MAX};
use yp_board::Tell;
use yp_host::workers::{
    Account, BoardFront, Charges, PendingCallBacks, Supplies, WorkerHost, WorkerSetting,
};
use yp_io::{Clock, Dial, Disk, Hall, Inbox, Texts};
use yp_publisher::sharing::Accounts;
use yp_rpc::Room;
use yp_worker::datagrams::{Carrier, DeferredPass, DeferredQueue, MailServer};
use yp_worker::{Gate, ListenerBooks, Listening, LongWork, Pass, Reception, Worker};

/// What workers work with: their memory, a reader for each and for the carrier, and the inboxes of those of datagrams,
/// with the most turns of each.
#[derive(Drop)]
pub(crate) struct WorkerResources<I, V> {
    pub(crate) memory: WorkerMemory,
    pub(crate) readers: Vec<V>,
    pub(crate) inboxes: Vec<I>,
    pub(crate) turns: u64,
}

/// The inboxes of workers of datagrams, the memory of a datagram and its reply for each, and the most turns of each.
#[derive(Drop)]
pub(crate) struct InboxResources<I> {
    inboxes: Vec<I>,
    rooms: Vec<Room>,
    turns: u64,
}

/// A listener that nobody has come by yet, and its ledgers, which nothing stands for yet.
pub(crate) struct ListenerResources<L> {
    pub(crate) listen: L,
    pub(crate) blanks: ListenerBlanks,
}

/// What is left for workers that aren't made yet: of what they are charged by, and of what they hold of a listener.
#[derive(Drop)]
pub(crate) struct WorkerShares<J: Reception + Accounts + Supplies, E: Ledger> {
    charges: Charges<J>,
    out: Share<J>,
    ended: Share<E>,
}

/// What each worker is lent: what the server has all the time that it serves, the locks of the publisher, of the texts
/// and of the dial, the queue of what those of datagrams leave, and that of those who are to be told what transfers
/// came to.
#[derive(Drop)]
pub(crate) struct WorkerMaker<
    'a,
    J: Reception + Accounts + Supplies,
    D: Disk,
    B: Tell,
    A: Dial,
    T: Texts,
    C: Clock,
    G: Gate,
    R: RandomSource + Wait,
> {
    pub(crate) setting: Setting<'a, G, R>,
    pub(crate) locks: &'a Locks<J, D, B, A, T, C>,
    pub(crate) pending: &'a DeferredQueue<J, BoardFront<B>>,
    pub(crate) call_backs: &'a PendingCallBacks,
}

impl<
    'a,
    J: Reception + Accounts + Supplies,
    D: Disk,
    B: Tell,
    A: Dial,
    T: Texts,
    C: Clock,
    G: Gate,
    R: RandomSource + Wait,
> WorkerMaker<'a, J, D, B, A, T, C, G, R> {
    /// What each worker has.
    fn setting(&self) -> WorkerSetting<'a, J, D, B, A, T, C, &'a R>
        ensures { result.call_backs.now ≡ self.now.call_backs.now }
    {
        let locks = self.locks;
        WorkerSetting {
            alloc: self.setting.alloc,
            rt: self.setting.rt,
            publisher: &locks.publisher,
            texts: &locks.texts,
            dial: &locks.dial,
            call_backs: self.call_backs,
            journal: self.setting.journal,
        }
    }

    /// A worker with this reader and this memory, which is charged by these, and does what takes long where that is its
    /// work.
    fn worker(
        &self,
        reader: B::Reader,
        buffers: Buffers,
        charges: Charges<J>,
        work: Option<LongWork>,
    ) -> Worker<WorkerHost<'a, J, D, B, A, T, C, &'a R>, &'a G>
        requires most { (self.now.setting.spec.most ≡ J.most) × (self.now.setting.spec.most ≤ CALLS_MAX) }
        requires knows { IsAtStart J.catalogue J.starts (B.Reader.seen reader) }
        requires builds { SiteBuilds J.text J.catalogue J.built }
        requires queue { self.now.call_backs.now ≡ J.call_backs }
        requires charges { charges ≡ free_of_charge 1 }
        ensures under { IsUnder (conduct_at B.Reader.seen B.Reader.stepped J.text J.hosts)
            (terms_by J.Reception) result }
        ensures none { counted_of result.host ≡ nothing_counted }
    {
        let host = WorkerHost::new(self.setting(), reader, charges);
        Worker::new(
            host,
            buffers,
            self.setting.gate,
            self.setting.spec.most,
            work,
        )
    }

    /// A worker with a part of the listener and of the charges.
    fn connection_worker<E: Ledger>(
        &self,
        reader: B::Reader,
        buffers: Buffers,
        work: Option<LongWork>,
        shares: &mut WorkerShares<J, E>,
    ) -> ConnectionWorker<J, E, WorkerHost<'a, J, D, B, A, T, C, &'a R>, &'a G>
        requires most { (self.now.setting.spec.most ≡ J.most) × (self.now.setting.spec.most ≤ CALLS_MAX) }
        requires knows { IsAtStart J.catalogue J.starts (B.Reader.seen reader) }
        requires builds { SiteBuilds J.text J.catalogue J.built }
        requires queue { self.now.call_backs.now ≡ J.call_backs }
        requires out { (1 < shares.old.out.parts) × (shares.old.out.amount ≡ 0) }
        requires ended { (1 < shares.old.ended.parts) × (shares.old.ended.amount ≡ 0) }
        requires charges { 1 < shares.old.charges.parts }
        ensures connection_worker { result ≡ before_work }
        ensures out { (shares.new.out.parts + 1 ≡ shares.old.out.parts) × (shares.new.out.amount ≡ 0) }
        ensures ended { (shares.new.ended.parts + 1 ≡ shares.old.ended.parts) × (shares.new.ended.amount ≡ 0) }
        ensures charges { (shares.new.charges.parts + 1 ≡ shares.old.charges.parts)
            × (shares.new.charges.left ≡ shares.old.charges.left) }
    {
        let charges = shares.charges.split_off(self.call_backs);
        let worker = self.worker(reader, buffers, charges, work);
        ConnectionWorker::new(
            worker,
            Pass::new(shares.out.split_off(1, 0), shares.ended.split_off(1, 0)),
        )
    }

    /// A worker of datagrams with these resources, a part of the charges, and a part of the queue.
    fn datagram_worker<I: Inbox>(
        &self,
        datagram_resources: DatagramResources<I, B::Reader>,
        charges: Charges<J>,
        part: DeferredPass<BoardFront<B>>,
    ) -> DatagramWorker<'a, I, J, WorkerHost<'a, J, D, B, A, T, C, &'a R>, BoardFront<B>, R>
        requires knows { IsAtStart J.catalogue J.starts (B.Reader.seen datagram_resources.reader) }
        requires builds { SiteBuilds J.text J.catalogue J.built }
        requires queue { self.now.call_backs.now ≡ J.call_backs }
        requires charges { charges ≡ free_of_charge 1 }
        requires part { part ≡ nothing_held self.now.pending.now 1 }
        ensures { result ≡ datagram_worker_of self.now.pending.now datagram_resources }
    {
        let DatagramResources {
            inbox,
            turns,
            reader,
            room,
        } = datagram_resources;
        let host = WorkerHost::new(self.setting(), reader, charges);
        let server = MailServer::new(
            self.setting.alloc,
            host,
            self.pending,
            part,
            self.setting.rt,
        );
        DatagramWorker::new(inbox, server, room, turns)
    }

    /// A carrier with this reader, these resources, and a part of the charges.
    fn carrier<I: Inbox>(
        &self,
        reader: B::Reader,
        carrier_resources: CarrierResources<I, BoardFront<B>>,
        charges: Charges<J>,
    ) -> Carrier<'a, I, J, WorkerHost<'a, J, D, B, A, T, C, &'a R>, BoardFront<B>, R>
        requires knows { IsAtStart J.catalogue J.starts (B.Reader.seen reader) }
        requires builds { SiteBuilds J.text J.catalogue J.built }
        requires queue { self.now.call_backs.now ≡ J.call_backs }
        requires charges { charges ≡ free_of_charge 1 }
        requires parts { carrier_resources.parts.queue ≡ self.now.pending.now }
        requires letter { datagram_max ≤ length carrier_resources.letter.items }
        ensures { result ≡ carrier_of (fresh_worker reader) carrier_resources.parts carrier_resources.outbox }
    {
        let CarrierResources {
            parts,
            outbox,
            letter,
        } = carrier_resources;
        let host = WorkerHost::new(self.setting(), reader, charges);
        Carrier::new(host, self.pending, parts, outbox, letter, self.setting.rt)
    }

    /// Makes a worker of each inbox, in their order.
    fn add_datagram_workers<E: Ledger, I: Inbox + Drop>(
        &self,
        all_workers: &mut Vec<
            ServerWorker<
                'a,
                J,
                E,
                WorkerHost<'a, J, D, B, A, T, C, &'a R>,
                BoardFront<B>,
                &'a G,
                I,
                R,
            >,
        >,
        inbox_resources: InboxResources<I>,
        readers: &mut Vec<B::Reader>,
        charges: &mut Charges<J>,
        parts: &mut DeferredPass<BoardFront<B>>,
    )
    where
        B::Reader: Drop,
        requires none { all_workers.old.items ≡ [] }
        requires room { length inbox_resources.inboxes.items ≤ vec_capacity all_workers.old }
        requires rooms { length inbox_resources.rooms.items ≡ length inbox_resources.inboxes.items }
        requires readers { length inbox_resources.inboxes.items ≤ length readers.old.items }
        requires knows { All (λ reader. IsAtStart J.catalogue J.starts (B.Reader.seen reader)) readers.old.items }
        requires builds { SiteBuilds J.text J.catalogue J.built }
        requires queue { self.now.call_backs.now ≡ J.call_backs }
        requires charges { length inbox_resources.inboxes.items < charges.old.parts }
        requires parts { (parts.old ≡ nothing_held self.now.pending.now parts.old.parts)
            × (length inbox_resources.inboxes.items < parts.old.parts) }
        ensures workers { (datagram_workers : List (DatagramWorker I J (WorkerState B.Reader)
            B.Knowledge R)) × (all_workers.new.items ≡ workers_of datagram_workers 0 before_work)
            × AllZip (BeginsMail (conduct_at B.Reader.seen B.Reader.stepped J.text J.hosts) count_told
            (mail_start J.catalogue J.starts self.now.pending.now inbox_resources.turns))
            inbox_resources.inboxes.items datagram_workers }
        ensures count { length all_workers.new.items ≡ length inbox_resources.inboxes.items }
        ensures room { vec_capacity all_workers.new ≡ vec_capacity all_workers.old }
        ensures readers { length readers.new.items + length inbox_resources.inboxes.items
            ≡ length readers.old.items }
        ensures knows { All (λ reader. IsAtStart J.catalogue J.starts (B.Reader.seen reader)) readers.new.items }
        ensures charges { (charges.new.parts + length inbox_resources.inboxes.items ≡ charges.old.parts)
            × (charges.new.left ≡ charges.old.left) }
        ensures parts { (parts.new ≡ nothing_held self.now.pending.now parts.new.parts)
            × (parts.new.parts + length inbox_resources.inboxes.items ≡ parts.old.parts) }
    {
        let InboxResources {
            mut inboxes,
            mut rooms,
            turns,
        } = inbox_resources;
        inboxes.reverse();
        while let Some(inbox) = inboxes.pop() {
            let Some(room) = rooms.pop() else {
                unreachable!();
            };
            let Some(reader) = readers.pop() else {
                unreachable!();
            };
            let datagram_resources = DatagramResources {
                inbox,
                turns,
                reader,
                room,
            };
            let charges = charges.split_off(self.call_backs);
            let part = self.pending.split_off(parts);
            let datagram_worker = self.datagram_worker(datagram_resources, charges, part);
            all_workers.push_reserved(ServerWorker::Datagrams(datagram_worker));
        }
    }

    /// Makes a worker of each reader, behind those of datagrams. The last two do what takes long for all others, so where
    /// there are too few threads they work behind them.
    fn add_connection_workers<E: Ledger, I>(
        &self,
        all_workers: &mut Vec<
            ServerWorker<
                'a,
                J,
                E,
                WorkerHost<'a, J, D, B, A, T, C, &'a R>,
                BoardFront<B>,
                &'a G,
                I,
                R,
            >,
        >,
        mut all_buffers: Vec<Buffers>,
        mut readers: Vec<B::Reader>,
        shares: &mut WorkerShares<J, E>,
    )
    where
        B::Reader: Drop,
        requires most { (self.now.setting.spec.most ≡ J.most) × (self.now.setting.spec.most ≤ CALLS_MAX) }
        requires readers { length readers.items ≡ length all_buffers.items }
        requires knows { All (λ reader. IsAtStart J.catalogue J.starts (B.Reader.seen reader)) readers.items }
        requires builds { SiteBuilds J.text J.catalogue J.built }
        requires queue { self.now.call_backs.now ≡ J.call_backs }
        requires room { length all_workers.old.items + length all_buffers.items ≤ vec_capacity all_workers.old }
        requires shares { SharesFor (length all_buffers.items) 0 shares.old }
        ensures all_workers { all_workers.new.items
            ≡ all_workers.old.items ++ connections_of (length all_buffers.items) before_work }
        ensures shares { SharesFor 0 0 shares.new }
    {
        while let Some(buffers) = all_buffers.pop() {
            let Some(reader) = readers.pop() else {
                unreachable!();
            };
            let work = work_before(all_buffers.len());
            let connection_worker = self.connection_worker(reader, buffers, work, shares);
            all_workers.push_reserved(ServerWorker::Connections(connection_worker));
        }
    }

    /// Makes a worker of each inbox, and behind them a worker of each reader that is left.
    fn add_workers<E: Ledger, I: Inbox + Drop>(
        &self,
        all_workers: &mut Vec<
            ServerWorker<
                'a,
                J,
                E,
                WorkerHost<'a, J, D, B, A, T, C, &'a R>,
                BoardFront<B>,
                &'a G,
                I,
                R,
            >,
        >,
        worker_resources: WorkerResources<I, B::Reader>,
        shares: &mut WorkerShares<J, E>,
        parts: &mut DeferredPass<BoardFront<B>>,
    )
    where
        B::Reader: Drop,
        requires most { (self.now.setting.spec.most ≡ J.most) × (self.now.setting.spec.most ≤ CALLS_MAX) }
        requires rooms { length worker_resources.memory.rooms.items ≡ length worker_resources.inboxes.items }
        requires readers { length worker_resources.readers.items
            ≡ length worker_resources.memory.all_buffers.items + length worker_resources.inboxes.items }
        requires knows { All (λ reader. IsAtStart J.catalogue J.starts (B.Reader.seen reader))
            worker_resources.readers.items }
        requires builds { SiteBuilds J.text J.catalogue J.built }
        requires queue { self.now.call_backs.now ≡ J.call_backs }
        requires none { all_workers.old.items ≡ [] }
        requires room { length worker_resources.memory.all_buffers.items + length worker_resources.inboxes.items
            ≤ vec_capacity all_workers.old }
        requires shares { SharesFor (length worker_resources.memory.all_buffers.items)
            (length worker_resources.inboxes.items) shares.old }
        requires parts { (parts.old ≡ nothing_held self.now.pending.now parts.old.parts)
            × (length worker_resources.inboxes.items < parts.old.parts) }
        ensures workers { (datagram_workers : List (DatagramWorker I J (WorkerState B.Reader)
            B.Knowledge R)) × (all_workers.new.items ≡ workers_of datagram_workers
            (length worker_resources.memory.all_buffers.items) before_work)
            × AllZip (BeginsMail (conduct_at B.Reader.seen B.Reader.stepped J.text J.hosts) count_told
            (mail_start J.catalogue J.starts self.now.pending.now worker_resources.turns))
            worker_resources.inboxes.items datagram_workers }
        ensures count { length all_workers.new.items
            ≡ length worker_resources.memory.all_buffers.items + length worker_resources.inboxes.items }
        ensures shares { SharesFor 0 0 shares.new }
        ensures parts { (parts.new ≡ nothing_held self.now.pending.now parts.new.parts)
            × (parts.new.parts + length worker_resources.inboxes.items ≡ parts.old.parts) }
    {
        let WorkerResources {
            memory,
            mut readers,
            inboxes,
            turns,
        } = worker_resources;
        let WorkerMemory { all_buffers, rooms } = memory;
        let inbox_resources = InboxResources {
            inboxes,
            rooms,
            turns,
        };
        self.add_datagram_workers(
            all_workers,
            inbox_resources,
            &mut readers,
            &mut shares.charges,
            parts,
        );
        self.add_connection_workers(all_workers, all_buffers, readers, shares);
    }
}

impl<
    'a,
    J: Reception + Accounts + Supplies + Send + Sync,
    D: Disk + Send,
    B: Tell + Send,
    A: Dial + Send,
    T: Texts + Send,
    C: Clock + Send,
    G: Gate + Sync,
    R: Threads + Wait + RandomSource + Sync,
> WorkerMaker<'a, J, D, B, A, T, C, G, R> {
    /// Serves the connections of a listener and the datagrams of inboxes by workers in threads, which have room here.
    /// Two of the workers do what takes long for those of connections, and a carrier for those of datagrams.
    pub(crate) fn serve<E: Ledger + Send + Sync, L: Hall + Send, I: Inbox + Send + Drop>(
        &self,
        mut staff: Staff<
            'a,
            J,
            E,
            WorkerHost<'a, J, D, B, A, T, C, &'a R>,
            BoardFront<B>,
            &'a G,
            I,
            R,
        >,
        mut worker_resources: WorkerResources<I, B::Reader>,
        mut carrier_resources: CarrierResources<I, BoardFront<B>>,
        listener: ListenerResources<L>,
        charges: Charges<J>,
    ) -> EndedService<J, B, L, I>
    where
        B::Reader: Send + Drop,
        B::Front: Send,
        B::Knowledge: Send,
        L::In: Send,
        L::Out: Send,
        L::Closer: Send,
        L::Watch: Send,
        L::Waker: Send,
        A::In: Send,
        A::Out: Send,
        requires most { (self.now.setting.spec.most ≡ J.most) × (self.now.setting.spec.most ≤ CALLS_MAX) }
        requires rooms { length worker_resources.memory.rooms.items ≡ length worker_resources.inboxes.items }
        requires readers { length worker_resources.readers.items
            ≡ length worker_resources.memory.all_buffers.items + length worker_resources.inboxes.items + 1 }
        requires knows { All (λ reader. IsAtStart J.catalogue J.starts (B.Reader.seen reader))
            worker_resources.readers.items }
        requires builds { SiteBuilds J.text J.catalogue J.built }
        requires queue { self.now.call_backs.now ≡ J.call_backs }
        requires none { (staff.all_workers.items ≡ []) × (staff.datagram_workers.items ≡ [])
            × (staff.inboxes.items ≡ []) × (staff.hosts.items ≡ []) }
        requires some { (1 < length worker_resources.memory.all_buffers.items)
            × (length worker_resources.memory.all_buffers.items ≤ workers_max + 2) }
        requires room { (length worker_resources.memory.all_buffers.items + length worker_resources.inboxes.items
            ≤ vec_capacity staff.all_workers)
            × (length worker_resources.inboxes.items ≤ vec_capacity staff.datagram_workers)
            × (length worker_resources.inboxes.items ≤ vec_capacity staff.inboxes)
            × (length worker_resources.memory.all_buffers.items + length worker_resources.inboxes.items + 1
            ≤ vec_capacity staff.hosts) }
        requires opening { opening_by L.Hall listener.listen ≡ J.opening }
        requires out { (listener.blanks.out.name ≡ J.name) × (listener.blanks.out.parts ≡ J.parts)
            × (listener.blanks.out.parts ≡ length worker_resources.memory.all_buffers.items + 2) }
        requires ended { (listener.blanks.ended.name ≡ E.name) × (listener.blanks.ended.parts ≡ E.parts)
            × (listener.blanks.ended.parts ≡ length worker_resources.memory.all_buffers.items + 1) }
        requires charges { (charges.parts ≡ length worker_resources.memory.all_buffers.items
            + length worker_resources.inboxes.items + 3) × (charges.left ≡ []) }
        requires parts { carrier_resources.parts ≡ nothing_held self.now.pending.now all_parts }
        requires letter { datagram_max ≤ length carrier_resources.letter.items }
        requires inboxes { (0 < length worker_resources.inboxes.items)
            × (length worker_resources.inboxes.items < 2 ^ 32) }
        ensures kept { IsListenerState J.opening (opening_by L.Hall result.listen) result.tally.connections
            result.tally.listen_fault 0 1 }
        ensures counted { (log : Log) → IsFront result.account.reached log
            → CountsAll (conduct_at B.Reader.seen B.Reader.stepped J.text J.hosts) count_told
            (server_terms (terms_by J.Reception) worker_resources.turns)
            (endpoint_tells J.opening (map (box_by I.Inbox) worker_resources.inboxes.items)
            (box_by I.Inbox carrier_resources.outbox))
            (endpoint_tells (opening_by L.Hall result.listen) (map (box_by I.Inbox) result.mailed.inboxes.items)
            (box_by I.Inbox result.mailed.outbox))
            (server_end result.tally.calls result.mailed.fault (counted_by result.account) log) }
        ensures cause { result.mailed.fault ≡ true
            → SomeHasRisen (map I.faults (carrier_resources.outbox ∷ worker_resources.inboxes.items))
            (map I.faults (result.mailed.outbox ∷ result.mailed.inboxes.items)) }
        ensures others { (result.others.parts ≡ length worker_resources.memory.all_buffers.items
            + length worker_resources.inboxes.items + 1) × (result.others.left ≡ []) }
    {
        let ListenerResources { listen, blanks } = listener;
        let (book, out) = blanks.out.open::<J>();
        let (ends, ended) = blanks.ended.open::<E>();
        let workers = worker_resources.memory.all_buffers.len() as u32 - 2;
        let Some(reader) = worker_resources.readers.pop() else {
            unreachable!();
        };
        let front = B::known(&reader);
        let mut shares = WorkerShares {
            charges,
            out,
            ended,
        };
        self.add_workers(
            &mut staff.all_workers,
            worker_resources,
            &mut shares,
            &mut carrier_resources.parts,
        );
        let WorkerShares {
            mut charges,
            mut out,
            ended,
        } = shares;
        let held = out.split_off(1, 0);
        let charged = charges.split_off(self.call_backs);
        let carrier = self.carrier(reader, carrier_resources, charged);
        let account = Account::new(charges, front);
        let books = ListenerBooks {
            out: book,
            held,
            ended: ends,
        };
        let listening = Listening::new(self.setting.alloc, listen, books, account, workers);
        let (listen, tally, mailed, account, hosts) = run_workers(
            self.setting.rt,
            listening,
            staff,
            Pass::new(out, ended),
            carrier,
        );
        let others = charges_of(self.call_backs, hosts);
        EndedService {
            listen,
            tally,
            mailed,
            account,
            others,
        }
    }
}

/// What takes long and is the work of a worker before so many others: the last one makes maps, and the one before it
/// fetches them.
fn work_before(others: usize) -> Option<LongWork> {
    match others {
        0 => Some(LongWork::Makes),
        1 => Some(LongWork::Transfers),
        _ => None,
    }
}
