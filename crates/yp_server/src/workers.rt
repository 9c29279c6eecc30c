//! Workers that run side by side.

ghost use Rattle.std.specs.Prelude.{◌≡◌, ◌<◌, ◌≤◌, ◌+◌, ◌^◌, ◌∷◌, ◌++◌, ℕ, [], List, length, map, reverse, true};
ghost use Rattle.std.specs.Prelude.{vec_capacity, IfOk};
ghost use Rattle.std.specs.List.{AllZip};
ghost use Rattle.yp_board.specs.Logs.{Log};
ghost use Rattle.yp_board.specs.Views.{IsFront};
ghost use Rattle.yp_answer.specs.inside.session.Hosts.{conduct_by};
ghost use Rattle.yp_worker.specs.Receptions.{IsListenerState, IsUnder, opening_by};
ghost use Rattle.yp_worker.specs.inside.Receptions.{terms_by};
ghost use Rattle.yp_worker.specs.Summing.{counting_of};
ghost use Rattle.yp_worker.specs.inside.Mailing.{CarriesOn};
ghost use Rattle.yp_worker.specs.inside.Queues.{all_parts};
ghost use Rattle.yp_rpc.specs.inside.Turns.{box_by};
ghost use Rattle.yp_server.specs.Counting.{CountsAll, server_terms, endpoint_tells, server_end};
ghost use Rattle.yp_server.specs.Serving.{SomeHasRisen};
ghost use Rattle.yp_server.specs.inside.Counting.{mail_start, BeginsMail, BeginsCarrying};
ghost use Rattle.yp_server.specs.inside.Serving.{before_work, after_work};
ghost use Rattle.yp_server.specs.inside.Workers.{AnswersDatagrams, Works, AllWork, workers_of, IsManned};
ghost use Rattle.yp_server.specs.inside.Workers.{mails_in, held_in};

use crate::datagrams::{DatagramWorker, EndedMail, hand_over_all, hand_over_carrier};
use crate::hosts::RetiredHost;
use crate::resources::WorkerMemory;
use std::alloc::Global;
use std::marker::Model;
use std::sync::ledger::Ledger;
use std::sync::{Mutex, Wait};
use std::thread::{Threads, for_each_mut, join_mut};
use yp_io::{Hall, Inbox, NoMemory};
use yp_publisher::sharing::Site;
use yp_worker::datagrams::Carrier;
use yp_worker::laws::{carriers_go_on, sums_reach_further};
use yp_worker::{Gate, HandsOver, Known, Listening, Pass, Reception, Tally, Worker};

/// A worker of a listener, with what it holds of that. It is seen as this.
#[derive(Drop)]
pub(crate) struct ConnectionWorker<J: Reception, E: Ledger, H: HandsOver, G: Gate + Copy> {
    worker: Worker<H, G>,
    pass: Pass<J, E>,
}

impl<J: Reception, E: Ledger, H: HandsOver, G: Gate + Copy> Model for ConnectionWorker<J, E, H, G> {
    ghost use Rattle.std.specs.Prelude.{◌≡◌};
    ghost use Rattle.yp_answer.specs.session.Hosts.{conduct_of};
    ghost use Rattle.yp_worker.specs.Receptions.{IsUnder, terms_of};
    ghost use Rattle.yp_worker.specs.inside.Receptions.{Passed};

    ghost Value = { Passed };

    ghost view = { λ s. s.pass };

    ghost invariant = { λ s. IsUnder (conduct_of H.seen H.told H.counts H.stepped H.made H.carried)
        (terms_of J.catalogue J.starts J.most) s.worker × (H.counted s.worker.host ≡ H.none) };
}

impl<J: Reception, E: Ledger, H: HandsOver, G: Gate + Copy + Drop> ConnectionWorker<J, E, H, G> {
    /// A worker with what it holds of its listener.
    pub(crate) fn new(worker: Worker<H, G>, pass: Pass<J, E>) -> ConnectionWorker<J, E, H, G>
        requires under { IsUnder (conduct_by H.Host) (terms_by J.Reception) worker }
        requires none { H.counted worker.host ≡ H.none }
        ensures { result ≡ pass }
    {
        ConnectionWorker { worker, pass }
    }

    /// Serves connections until the listener has no more.
    fn work<L: Hall, R: Wait>(&mut self, rt: &R, listening: &Mutex<Listening<J, E, H, L, G>>)
        ensures { self.new ≡ record self.old { ended = self.old.ended + 1 } }
    {
        self.worker.run(rt, listening, &mut self.pass);
    }
}

impl<J: Reception, E: Ledger, H: HandsOver + Drop, G: Gate + Copy + Drop> ConnectionWorker<
    J,
    E,
    H,
    G,
> {
    /// Serves until no guest waits for it. Where all others have ended none is left to come.
    fn drain<L: Hall, R: Wait>(
        &mut self,
        rt: &R,
        listening: Listening<J, E, H, L, G>,
    ) -> Listening<J, E, H, L, G>
        ensures drained { result.waiting ≡ 0 }
        ensures out { (self.new.parts ≡ self.old.parts) × (self.new.out ≡ self.old.out) }
        ensures ended { self.old.ended ≤ self.new.ended }
    {
        let mut listening = listening;
        for _ in rt.forever() {
            if listening.is_drained() {
                return listening;
            }
            let shared = Mutex::new(listening);
            self.work(rt, &shared);
            listening = shared.into_inner();
        }
        unreachable!()
    }

    /// What it holds of its listener, and its host.
    fn into_parts(self) -> (Pass<J, E>, RetiredHost<H>)
        ensures { result.0 ≡ self }
    {
        let ConnectionWorker { worker, pass } = self;
        (pass, RetiredHost::new(worker.into_host()))
    }
}

/// A place at which a server works: one of its connections, or one of its datagrams.
#[derive(Drop)]
pub(crate) enum ServerWorker<
    'a,
    J: Reception,
    E: Ledger,
    H: HandsOver,
    F: Known,
    G: Gate + Copy,
    I,
    R,
> {
    Connections(ConnectionWorker<J, E, H, G>),
    Datagrams(DatagramWorker<'a, I, J, H, F, R>),
}

/// The workers of a server, with room for all of them, for what comes back of those of datagrams, and for the hosts of
/// all and of a carrier.
#[derive(Drop)]
pub(crate) struct Staff<'a, J: Reception, E: Ledger, H: HandsOver, F: Known, G: Gate + Copy, I, R> {
    pub(crate) all_workers: Vec<ServerWorker<'a, J, E, H, F, G, I, R>>,
    pub(crate) datagram_workers: Vec<DatagramWorker<'a, I, J, H, F, R>>,
    pub(crate) inboxes: Vec<I>,
    pub(crate) hosts: Vec<RetiredHost<H>>,
}

impl<
    'a,
    J: Reception,
    E: Ledger,
    H: HandsOver + Drop,
    F: Known,
    G: Gate + Copy + Drop,
    I: Drop,
    R: Wait,
> Staff<'a, J, E, H, F, G, I, R> {
    /// No workers yet, with room for as many of connections and of datagrams as have this memory.
    pub(crate) fn new(
        alloc: Global,
        memory: &WorkerMemory,
    ) -> Result<Staff<'a, J, E, H, F, G, I, R>, NoMemory>
        requires { length memory.now.all_buffers.items + length memory.now.rooms.items + 1 < 2 ^ 64 }
        ensures none { IfOk result (λ staff. (staff.all_workers.items ≡ []) × (staff.datagram_workers.items ≡ [])
            × (staff.inboxes.items ≡ []) × (staff.hosts.items ≡ [])) }
        ensures all_workers { IfOk result (λ staff. length memory.now.all_buffers.items + length memory.now.rooms.items
            ≤ vec_capacity staff.all_workers) }
        ensures datagram_workers { IfOk result (λ staff. length memory.now.rooms.items
            ≤ vec_capacity staff.datagram_workers) }
        ensures inboxes { IfOk result (λ staff. length memory.now.rooms.items ≤ vec_capacity staff.inboxes) }
        ensures hosts { IfOk result (λ staff. length memory.now.all_buffers.items + length memory.now.rooms.items + 1
            ≤ vec_capacity staff.hosts) }
    {
        let workers = memory.all_buffers.len();
        let inboxes = memory.rooms.len();
        Ok(Staff {
            all_workers: room_for(alloc, workers + inboxes)?,
            datagram_workers: room_for(alloc, inboxes)?,
            inboxes: room_for(alloc, inboxes)?,
            hosts: room_for(alloc, workers + inboxes + 1)?,
        })
    }
}

/// Room for so many.
fn room_for<T>(alloc: Global, count: usize) -> Result<Vec<T>, NoMemory>
    ensures none { IfOk result (λ all. all.items ≡ []) }
    ensures room { IfOk result (λ all. count ≤ vec_capacity all) }
{
    Vec::with_capacity(alloc, count).map_err(|_| NoMemory)
}

/// Works at places of a kind, at several at once.
trait Work<P> {
    /// What it makes of a place.
    ghost works: { P → P → Type 0 };

    /// Works at a place until there is nothing more to do.
    fn work(&self, place: &mut P)
        ensures { works place.old place.new };
}

/// Is done beside the places of a server.
trait Beside {
    /// What is made of it.
    ghost does: { Self → Self → Type 0 };

    /// Goes on until there is nothing more to do.
    fn run(&mut self)
        ensures { does self.old self.new };
}

impl<'a, I: Inbox, J: Site, F: Known, H: HandsOver<Front = F>, R: Wait> Beside
    for Carrier<'a, I, J, H, F, R> {
    ghost does = { CarriesOn (conduct_by H.Host) H.counted (box_by I.Inbox) I.faults };

    fn run(&mut self) {
        self.carry_all_that_come();
    }
}

/// What is lent to all places of a server: its listener.
#[derive(Drop)]
struct Lent<'a, J: Reception, E: Ledger, H: HandsOver, G, L: Hall, R> {
    rt: &'a R,
    listening: &'a Mutex<Listening<J, E, H, L, G>>,
}

impl<
    'a,
    'b,
    J: Reception,
    E: Ledger,
    F: Known,
    H: HandsOver<Front = F>,
    G: Gate + Copy + Drop,
    L: Hall,
    I: Inbox,
    R: Wait,
> Work<ServerWorker<'b, J, E, H, F, G, I, R>> for Lent<'a, J, E, H, G, L, R> {
    ghost works = { Works (AnswersDatagrams (conduct_by H.Host) H.counted (box_by I.Inbox) I.faults) };

    fn work(&self, place: &mut ServerWorker<'b, J, E, H, F, G, I, R>) {
        match place {
            ServerWorker::Connections(connection_worker) => {
                connection_worker.work(self.rt, self.listening)
            }
            ServerWorker::Datagrams(datagram_worker) => datagram_worker.work(),
        }
    }
}

/// Serves the datagrams of inboxes at the first workers, one for each inbox, and the connections of a listener at all
/// others, side by side, until all have ended. The last two do for the others what takes long, and a carrier beside
/// them what those of datagrams leave. What came of the connections and of the datagrams, the sum of what was counted,
/// and the hosts of all.
pub(crate) fn run_workers<J, E, H, G, L, I, R: Threads + Wait + Sync>(
    rt: &R,
    listening: Listening<J, E, H, L, G>,
    staff: Staff<'_, J, E, H, H::Front, G, I, R>,
    mut pass: Pass<J, E>,
    mut carrier: Carrier<'_, I, J, H, H::Front, R>,
) -> (L, Tally, EndedMail<I>, H::Sum, Vec<RetiredHost<H>>)
where
    J: Reception + Send + Sync,
    E: Ledger + Send + Sync,
    H: HandsOver + Send + Drop,
    H::Sum: Send,
    H::Front: Send,
    G: Gate + Copy + Send + Drop,
    I: Inbox + Send + Drop,
    L: Hall + Send,
    L::In: Send,
    L::Out: Send,
    L::Closer: Send,
    L::Watch: Send,
    L::Waker: Send,
    requires manned { (datagram_workers : List (DatagramWorker I J H H.Front R))
        × IsManned datagram_workers before_work J.parts staff.all_workers.items
        × (length datagram_workers ≤ vec_capacity staff.datagram_workers)
        × (length datagram_workers ≤ vec_capacity staff.inboxes)
        × (inboxes : List I) × (turns : ℕ)
        × AllZip (BeginsMail (conduct_by H.Host) (counting_of H.counted H.none H.plus)
        (mail_start J.catalogue J.starts carrier.holding.queue turns)) inboxes datagram_workers }
    requires carrier { BeginsCarrying (conduct_by H.Host) (counting_of H.counted H.none H.plus) J.catalogue J.starts
        carrier }
    requires transfers { (0 < length (mails_in staff.all_workers.items))
        × (carrier.holding.parts + length (mails_in staff.all_workers.items) ≡ all_parts) }
    requires none { (staff.datagram_workers.items ≡ []) × (staff.inboxes.items ≡ []) × (staff.hosts.items ≡ []) }
    requires hosts { length staff.all_workers.items + 1 ≤ vec_capacity staff.hosts }
    requires pass { pass ≡ before_work }
    ensures kept { IsListenerState J.opening (opening_by L.Hall result.0) result.1.connections result.1.listen_fault
        0 1 }
    ensures counted { (inboxes : List I) → (datagram_workers : List (DatagramWorker I J H H.Front R))
        → IsManned datagram_workers before_work J.parts staff.entry.all_workers.items → (turns : ℕ)
        → AllZip (BeginsMail (conduct_by H.Host) (counting_of H.counted H.none H.plus)
        (mail_start J.catalogue J.starts carrier.entry.holding.queue turns)) inboxes datagram_workers
        → (log : Log) → IsFront (H.reached result.3) log
        → CountsAll (conduct_by H.Host) (counting_of H.counted H.none H.plus)
        (server_terms (terms_by J.Reception) turns)
        (endpoint_tells J.opening (map (box_by I.Inbox) inboxes) (box_by I.Inbox carrier.entry.inbox))
        (endpoint_tells (opening_by L.Hall result.0) (map (box_by I.Inbox) result.2.inboxes.items)
        (box_by I.Inbox result.2.outbox))
        (server_end result.1.calls result.2.fault (H.summed result.3) log) }
    ensures cause { (inboxes : List I) → (datagram_workers : List (DatagramWorker I J H H.Front R))
        → IsManned datagram_workers before_work J.parts staff.entry.all_workers.items → (turns : ℕ)
        → AllZip (BeginsMail (conduct_by H.Host) (counting_of H.counted H.none H.plus)
        (mail_start J.catalogue J.starts carrier.entry.holding.queue turns)) inboxes datagram_workers
        → result.2.fault ≡ true → SomeHasRisen (map I.faults (carrier.entry.inbox ∷ inboxes))
        (map I.faults (result.2.outbox ∷ result.2.inboxes.items)) }
    ensures hosts { length result.4.items ≡ length staff.entry.all_workers.items + 1 }
{
    let Staff {
        mut all_workers,
        datagram_workers,
        inboxes,
        mut hosts,
    } = staff;
    let listening = Mutex::new(listening);
    work_beside(rt, &listening, &mut all_workers, &mut carrier);
    let mut maker = last_of(&mut all_workers);
    let listening = maker.drain(rt, listening.into_inner());
    let (held, host) = maker.into_parts();
    pass.merge(held);
    hosts.push_reserved(host);
    let datagram_workers = gather(&mut pass, &mut hosts, all_workers, datagram_workers);
    let (listen, tally, mut sum) = listening.close(&mut pass);
    let ended = hand_over_all(
        datagram_workers,
        &mut carrier,
        &mut sum,
        &mut hosts,
        inboxes,
    );
    let (carried, host) = hand_over_carrier(carrier, &mut sum);
    hosts.push_reserved(host);
    sums_reach_further::<H>();
    carriers_go_on::<I, H>();
    let fault = ended.has_fault_with(&carried);
    let mailed = EndedMail {
        inboxes: ended.inboxes,
        outbox: carried.inbox,
        fault,
    };
    (listen, tally, mailed, sum, hosts)
}

/// Works at all places of a server side by side, and lets a carrier do beside them what they leave, until all have
/// ended. The carrier waits for all others, so where it has no thread of its own it works behind them.
fn work_beside<J, E, H, G, L, I, R: Threads + Wait + Sync>(
    rt: &R,
    listening: &Mutex<Listening<J, E, H, L, G>>,
    places: &mut [ServerWorker<'_, J, E, H, H::Front, G, I, R>],
    carrier: &mut Carrier<'_, I, J, H, H::Front, R>,
)
where
    J: Reception + Send + Sync,
    E: Ledger + Send + Sync,
    H: HandsOver + Send + Drop,
    H::Sum: Send,
    H::Front: Send,
    G: Gate + Copy + Send + Drop,
    I: Inbox + Send + Drop,
    L: Hall + Send,
    L::In: Send,
    L::Out: Send,
    L::Closer: Send,
    L::Watch: Send,
    L::Waker: Send,
    ensures count { length places.new ≡ length places.old }
    ensures works { AllWork (Works (AnswersDatagrams (conduct_by H.Host) H.counted (box_by I.Inbox) I.faults))
        places.old places.new }
    ensures carries { CarriesOn (conduct_by H.Host) H.counted (box_by I.Inbox) I.faults carrier.old carrier.new }
{
    let lent = Lent { rt, listening };
    work_all_beside(rt, &lent, carrier, places);
}

/// Works at all places side by side, and does what is done beside them in a thread of its own, until all have ended.
/// Where that thread can't be started, it is done last.
fn work_all_beside<P: Send, W: Work<P> + Sync, T: Beside + Send, R: Threads + Sync>(
    rt: &R,
    work: &W,
    beside: &mut T,
    places: &mut [P],
)
    ensures count { length places.new ≡ length places.old }
    ensures works { AllWork W.works places.old places.new }
    ensures beside { T.does beside.old beside.new }
{
    join_mut(rt, &mut || beside.run(), &mut || work_all(rt, work, places));
}

/// Works at all places side by side, at each in a thread of its own, until all have ended. Where a thread can't be
/// started, its work is done in another's.
fn work_all<P: Send, W: Work<P> + Sync, R: Threads + Sync>(rt: &R, work: &W, places: &mut [P])
    ensures count { length places.new ≡ length places.old }
    ensures works { AllWork W.works places.old places.new }
{
    let threads = places.len().max(1);
    for_each_mut(rt, places, threads, &|_, place| work.work(place));
}

/// Takes the last worker of connections away.
fn last_of<J, E, H, G, I, R: Wait>(
    all_workers: &mut Vec<ServerWorker<'_, J, E, H, H::Front, G, I, R>>,
) -> ConnectionWorker<J, E, H, G>
where
    J: Reception,
    E: Ledger,
    H: HandsOver + Drop,
    G: Gate + Copy + Drop,
    I: Drop,
    requires manned { (datagram_workers : List (DatagramWorker I J H H.Front R)) × (others : ℕ)
        × (all_workers.old.items ≡ workers_of datagram_workers (others + 1) after_work) }
    ensures last { result ≡ after_work }
    ensures others { (datagram_workers : List (DatagramWorker I J H H.Front R)) → (others : ℕ)
        → all_workers.old.items ≡ workers_of datagram_workers (others + 1) after_work
        → all_workers.new.items ≡ workers_of datagram_workers others after_work }
    ensures count { length all_workers.new.items + 1 ≡ length all_workers.old.items }
{
    let Some(server_worker) = all_workers.pop() else {
        unreachable!()
    };
    let ServerWorker::Connections(last) = server_worker else {
        unreachable!()
    };
    last
}

/// Takes in what each worker of connections holds, and its host, which has room here, and answers the workers of
/// datagrams, which have room here, the last one first, once all have ended.
fn gather<'a, J, E, H, G, I, R: Wait>(
    pass: &mut Pass<J, E>,
    hosts: &mut Vec<RetiredHost<H>>,
    mut all_workers: Vec<ServerWorker<'a, J, E, H, H::Front, G, I, R>>,
    mut datagram_workers: Vec<DatagramWorker<'a, I, J, H, H::Front, R>>,
) -> Vec<DatagramWorker<'a, I, J, H, H::Front, R>>
where
    J: Reception,
    E: Ledger,
    H: HandsOver + Drop,
    G: Gate + Copy + Drop,
    I: Drop,
    requires none { datagram_workers.items ≡ [] }
    requires room { length (mails_in all_workers.items) ≤ vec_capacity datagram_workers }
    requires hosts { length hosts.old.items + length all_workers.items ≤ vec_capacity hosts.old }
    ensures datagram_workers { reverse result.items ≡ mails_in all_workers.entry.items }
    ensures parts { pass.new.parts ≡ pass.old.parts + (held_in all_workers.entry.items).parts }
    ensures out { pass.new.out ≡ pass.old.out + (held_in all_workers.entry.items).out }
    ensures ended { pass.new.ended ≡ pass.old.ended + (held_in all_workers.entry.items).ended }
    ensures hosts { length hosts.new.items + length result.items
        ≡ length hosts.old.items + length all_workers.entry.items }
    ensures hosts_room { vec_capacity hosts.new ≡ vec_capacity hosts.old }
{
    while let Some(server_worker) = all_workers.pop() {
        take_in(pass, hosts, &mut datagram_workers, server_worker);
    }
    datagram_workers
}

/// Takes in what a worker of connections holds, and its host, or keeps one of datagrams, which have room here.
fn take_in<'a, J, E, H, G, I, R: Wait>(
    pass: &mut Pass<J, E>,
    hosts: &mut Vec<RetiredHost<H>>,
    datagram_workers: &mut Vec<DatagramWorker<'a, I, J, H, H::Front, R>>,
    server_worker: ServerWorker<'a, J, E, H, H::Front, G, I, R>,
)
where
    J: Reception,
    E: Ledger,
    H: HandsOver + Drop,
    G: Gate + Copy + Drop,
    I: Drop,
    requires room { length datagram_workers.old.items + length (mails_in (server_worker ∷ []))
        ≤ vec_capacity datagram_workers.old }
    requires hosts { length hosts.old.items < vec_capacity hosts.old }
    ensures datagram_workers { datagram_workers.new.items
        ≡ datagram_workers.old.items ++ mails_in (server_worker.entry ∷ []) }
    ensures capacity { vec_capacity datagram_workers.new ≡ vec_capacity datagram_workers.old }
    ensures parts { pass.new.parts ≡ pass.old.parts + (held_in (server_worker.entry ∷ [])).parts }
    ensures out { pass.new.out ≡ pass.old.out + (held_in (server_worker.entry ∷ [])).out }
    ensures ended { pass.new.ended ≡ pass.old.ended + (held_in (server_worker.entry ∷ [])).ended }
    ensures hosts { length hosts.new.items + length (mails_in (server_worker.entry ∷ []))
        ≡ length hosts.old.items + 1 }
    ensures hosts_room { vec_capacity hosts.new ≡ vec_capacity hosts.old }
{
    match server_worker {
        ServerWorker::Connections(connection_worker) => {
            let (held, host) = connection_worker.into_parts();
            pass.merge(held);
            hosts.push_reserved(host);
        }
        ServerWorker::Datagrams(datagram_worker) => datagram_workers.push_reserved(datagram_worker),
    }
}
