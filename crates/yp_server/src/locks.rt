//! The three locks under which workers share what they are lent.

ghost use Rattle.std.specs.Prelude.{◌≡◌, ◌+◌, ◌-◌, ◌^◌, ◌<◌, ◌≤◌, [], map, IfOk};
ghost use Rattle.yp_worker.specs.inside.Queues.{all_parts};
ghost use Rattle.std.specs.List.{All};
ghost use Rattle.yp_io.specs.Counts.{last_count};
ghost use Rattle.yp_board.specs.Views.{IsFront};
ghost use Rattle.yp_publisher.specs.Grown.{AreTold};
ghost use Rattle.yp_publisher.specs.Rising.{publisher_state, IsRisingLog};
ghost use Rattle.yp_publisher.specs.inside.Rising.{IsStart};
ghost use Rattle.yp_publisher.specs.inside.sharing.Debits.{no_debit};
ghost use Rattle.yp_publisher.specs.sharing.Failures.{disks_of, faults_over};
ghost use Rattle.yp_host.specs.inside.workers.Charges.{free_of_charge};
ghost use Rattle.yp_host.specs.inside.workers.Desks.{IsSupplied};
ghost use Rattle.yp_host.specs.workers.Wires.{CoversOrders, CoversSources};
ghost use Rattle.yp_transfer.specs.inside.Dials.{dial_by};
ghost use Rattle.yp_host.specs.inside.workers.CallBacks.{holds_none, holds_more};
ghost use Rattle.yp_host.specs.inside.workers.Uses.{TellsAllLeft};
ghost use Rattle.yp_host.specs.inside.workers.Uses.{dial_told};
ghost use Rattle.yp_server.specs.Counting.{DiskTellsFaults};
ghost use Rattle.yp_server.specs.Origins.{served_maps, ComesFrom, EachComesFrom};
ghost use Rattle.yp_server.specs.Serving.{DisksStand};

use crate::resources::{EndedService, take_apart};
use crate::spec::Served;
use std::alloc::Global;
use std::sync::ledger::{Blank, Book, Share};
use std::sync::{Mutex, Wait};
use yp_board::Tell;
use yp_host::Desk;
use yp_host::workers::{
    CallBackPass, Charges, DialShares, Dialer, FailedSources, Materials, PendingCallBacks,
    ReachedOrders, SharedDial, SharedTexts, Supplies, UnreadTexts,
};
use yp_io::{Clock, Dial, Disk, NoMemory, Texts};
use yp_publisher::Publisher;
use yp_publisher::sharing::{
    Accounts, BuiltVersions, Debits, FailedFiles, FetchedVersions, Fetches, FetchesFront, Locked,
    OpenedFetches, Site,
};

/// Ledgers that nothing stands for yet: those of a listener, and those of what is counted under the locks; the log of
/// what is fetched; and the queue of those who are to be told what transfers came to, with all parts of it.
#[derive(Drop)]
pub(crate) struct Blanks {
    pub(crate) listener: ListenerBlanks,
    pub(crate) charges: ChargeBlanks,
    pub(crate) fetches: OpenedFetches,
    pub(crate) call_backs: PendingCallBacks,
    pub(crate) pass: CallBackPass,
}

impl Blanks {
    /// Ledgers for so many workers of connections, the one that does what takes long among them, for so many of
    /// datagrams, and for a carrier; and an empty log and an empty queue.
    pub(crate) fn new(alloc: Global, workers: u64, inboxes: u64) -> Result<Blanks, NoMemory>
        requires { workers + inboxes + 4 < 2 ^ 64 }
        ensures listener { IfOk result (λ blanks. (blanks.listener.out.parts ≡ workers + 2)
            × (blanks.listener.ended.parts ≡ workers + 1)) }
        ensures unread { IfOk result (λ blanks. blanks.charges.desk.unread.parts ≡ workers + inboxes + 3) }
        ensures orders { IfOk result (λ blanks. blanks.charges.desk.orders.parts ≡ workers + inboxes + 3) }
        ensures sources { IfOk result (λ blanks. blanks.charges.desk.sources.parts ≡ workers + inboxes + 3) }
        ensures failures { IfOk result (λ blanks. blanks.charges.failures.parts ≡ workers + inboxes + 3) }
        ensures made { IfOk result (λ blanks. blanks.charges.made.parts ≡ workers + inboxes + 3) }
        ensures versions { IfOk result (λ blanks. blanks.charges.versions.parts ≡ workers + inboxes + 4) }
        ensures pass { IfOk result (λ blanks. blanks.pass ≡ holds_none blanks.call_backs all_parts) }
    {
        let (call_backs, pass) = PendingCallBacks::new(alloc)?;
        Ok(Blanks {
            listener: ListenerBlanks {
                out: Blank::new(workers + 2),
                ended: Blank::new(workers + 1),
            },
            charges: ChargeBlanks::new(workers + inboxes + 3),
            fetches: OpenedFetches::new(),
            call_backs,
            pass,
        })
    }
}

/// Ledgers that nothing stands for yet, of the connections of a listener and of the workers that have ended.
#[derive(Drop)]
pub(crate) struct ListenerBlanks {
    pub(crate) out: Blank,
    pub(crate) ended: Blank,
}

/// Ledgers that nothing stands for yet, of what is counted under the locks of the texts and of the dial.
#[derive(Drop)]
pub(crate) struct DeskBlanks {
    pub(crate) unread: Blank,
    pub(crate) orders: Blank,
    pub(crate) sources: Blank,
}

/// Ledgers that nothing stands for yet, of what is counted under the locks.
#[derive(Drop)]
pub(crate) struct ChargeBlanks {
    pub(crate) desk: DeskBlanks,
    pub(crate) failures: Blank,
    pub(crate) made: Blank,
    pub(crate) versions: Blank,
}

impl ChargeBlanks {
    /// Ledgers in so many parts, but for one part more of fetched versions, which lies with the publisher.
    fn new(parts: u64) -> ChargeBlanks
        requires { parts < 2 ^ 64 - 1 }
        ensures unread { result.desk.unread.parts ≡ parts }
        ensures orders { result.desk.orders.parts ≡ parts }
        ensures sources { result.desk.sources.parts ≡ parts }
        ensures failures { result.failures.parts ≡ parts }
        ensures made { result.made.parts ≡ parts }
        ensures versions { result.versions.parts ≡ parts + 1 }
    {
        ChargeBlanks {
            desk: DeskBlanks {
                unread: Blank::new(parts),
                orders: Blank::new(parts),
                sources: Blank::new(parts),
            },
            failures: Blank::new(parts),
            made: Blank::new(parts),
            versions: Blank::new(parts + 1),
        }
    }
}

/// The parts of a queue of call backs: those that lie with the dial, by which callers are told, and those of the
/// workers, who leave them there.
#[derive(Drop)]
pub(crate) struct CallBackParts {
    pub(crate) dial: CallBackPass,
    pub(crate) workers: CallBackPass,
}

impl CallBackParts {
    /// As many parts for workers as the shares of a site have, and all others for its dial.
    pub(crate) fn split<S: Accounts>(
        call_backs: &PendingCallBacks,
        mut pass: CallBackPass,
    ) -> CallBackParts
        requires all { pass ≡ holds_none call_backs.now all_parts }
        requires some { (0 < S.shares) × (S.shares < all_parts) }
        ensures dial { result.dial ≡ holds_none call_backs.now result.dial.parts }
        ensures parts { result.dial.parts + S.shares ≡ all_parts }
        ensures workers { result.workers ≡ holds_none call_backs.now S.shares }
    {
        let workers = call_backs.split_shares::<S>(&mut pass);
        CallBackParts {
            dial: pass,
            workers,
        }
    }
}

/// The locks of the publisher, of the texts and of the dial.
pub(crate) struct Locks<
    S: Site + Accounts + Supplies,
    D: Disk,
    B: Tell,
    A: Dial,
    T: Texts,
    C: Clock,
> {
    pub(crate) publisher: Mutex<Locked<S, D, B>>,
    pub(crate) texts: Mutex<SharedTexts<S, T, C>>,
    pub(crate) dial: Mutex<SharedDial<S, A>>,
}

/// The locks of the publisher, of the texts and of the dial, and what all workers are charged by.
pub(crate) fn lock_up<S, D, B, A, T, C>(
    publisher: Publisher<D, B>,
    desk: Desk<A, T, C>,
    blanks: ChargeBlanks,
    fetches: Fetches<S>,
    call_backs: CallBackParts,
) -> (Locks<S, D, B, A, T, C>, Charges<S>)
where
    S: Site + Accounts + Supplies,
    D: Disk,
    B: Tell,
    A: Dial,
    T: Texts,
    C: Clock,
    requires site { publisher.catalogue ≡ S.catalogue }
    requires first { publisher_state B.log publisher ≡ S.first }
    requires histories { map D.history (disks_of publisher.maps) ≡ S.histories }
    requires disks { faults_over D.faults (disks_of publisher.maps) ≡ S.disk_faults }
    requires supplied { IsSupplied T.Texts S.text S.hosts desk }
    requires texts { T.faults desk.texts ≡ S.text_faults }
    requires dial { (A.past desk.dial ≡ S.wires) × (A.faults desk.dial ≡ S.dial_faults)
        × (A.letters desk.dial ≡ S.letters) }
    requires unread { (blanks.desk.unread.name ≡ S.unread) × (blanks.desk.unread.parts ≡ S.shares) }
    requires orders { (blanks.desk.orders.name ≡ S.orders) × (blanks.desk.orders.parts ≡ S.shares) }
    requires sources { (blanks.desk.sources.name ≡ S.sources) × (blanks.desk.sources.parts ≡ S.shares) }
    requires failures { (blanks.failures.name ≡ S.failures) × (blanks.failures.parts ≡ S.shares) }
    requires made { (blanks.made.name ≡ S.made) × (blanks.made.parts ≡ S.shares) }
    requires versions { (blanks.versions.name ≡ S.versions) × (blanks.versions.parts ≡ S.shares + 1) }
    requires fetches { fetches ≡ [] }
    requires tells { (call_backs.dial ≡ holds_none S.call_backs call_backs.dial.parts)
        × (call_backs.dial.parts + S.shares ≡ all_parts) }
    requires leaves { call_backs.workers ≡ holds_none S.call_backs S.shares }
    requires some { 0 < S.shares }
    ensures charges { result.1 ≡ free_of_charge S.shares }
{
    let (fetched, mut own) = blanks.versions.open::<FetchedVersions<S>>();
    let installed = own.split_off(1, 0);
    let (publisher, debits) = lock_publisher(
        publisher,
        blanks.failures,
        blanks.made,
        installed,
        own,
        fetches.front().again(),
    );
    let (texts, dial, charges) = lock_desk(desk, blanks.desk, fetched, fetches, debits, call_backs);
    let locks = Locks {
        publisher,
        texts,
        dial,
    };
    (locks, charges)
}

/// The lock of the publisher, with what stands for the fetched versions that are installed, none yet, and what all
/// workers are charged by as they install versions.
fn lock_publisher<S: Site + Accounts, D: Disk, B: Tell>(
    publisher: Publisher<D, B>,
    failures: Blank,
    made: Blank,
    installed: Share<FetchedVersions<S>>,
    versions: Share<FetchedVersions<S>>,
    known: FetchesFront<S>,
) -> (Mutex<Locked<S, D, B>>, Debits<S>)
    requires site { publisher.catalogue ≡ S.catalogue }
    requires first { publisher_state B.log publisher ≡ S.first }
    requires histories { map D.history (disks_of publisher.maps) ≡ S.histories }
    requires disks { faults_over D.faults (disks_of publisher.maps) ≡ S.disk_faults }
    requires failures { (failures.name ≡ S.failures) × (failures.parts ≡ S.shares) }
    requires made { (made.name ≡ S.made) × (made.parts ≡ S.shares) }
    requires installed { installed.parts ≡ 1 }
    requires versions { (versions.parts ≡ S.shares) × (versions.amount ≡ 0) }
    requires some { 0 < S.shares }
    ensures { result.1 ≡ no_debit S.shares }
{
    let (failures, own_failures) = failures.open::<FailedFiles<S>>();
    let (made, own_made) = made.open::<BuiltVersions<S>>();
    let locked = Locked::new(publisher, failures, made, installed, known);
    (
        Mutex::new(locked),
        Debits::new(own_failures, own_made, versions),
    )
}

/// The locks of the texts and of the dial of a desk, and what all workers are charged by.
fn lock_desk<S: Site + Accounts + Supplies, A: Dial, T: Texts, C: Clock>(
    desk: Desk<A, T, C>,
    blanks: DeskBlanks,
    fetched: Book<FetchedVersions<S>>,
    fetches: Fetches<S>,
    debits: Debits<S>,
    call_backs: CallBackParts,
) -> (
    Mutex<SharedTexts<S, T, C>>,
    Mutex<SharedDial<S, A>>,
    Charges<S>,
)
    requires supplied { IsSupplied T.Texts S.text S.hosts desk }
    requires texts { T.faults desk.texts ≡ S.text_faults }
    requires dial { (A.past desk.dial ≡ S.wires) × (A.faults desk.dial ≡ S.dial_faults)
        × (A.letters desk.dial ≡ S.letters) }
    requires unread { (blanks.unread.name ≡ S.unread) × (blanks.unread.parts ≡ S.shares) }
    requires orders { (blanks.orders.name ≡ S.orders) × (blanks.orders.parts ≡ S.shares) }
    requires sources { (blanks.sources.name ≡ S.sources) × (blanks.sources.parts ≡ S.shares) }
    requires fetched { (fetched.total ≡ 0) × (fetches ≡ []) }
    requires debits { debits ≡ no_debit S.shares }
    requires tells { (call_backs.dial ≡ holds_none S.call_backs call_backs.dial.parts)
        × (call_backs.dial.parts + S.shares ≡ all_parts) }
    requires leaves { call_backs.workers ≡ holds_none S.call_backs S.shares }
    requires some { 0 < S.shares }
    ensures { result.2 ≡ free_of_charge S.shares }
{
    let (unread, own_unread) = blanks.unread.open::<UnreadTexts<S>>();
    let (orders, own_orders) = blanks.orders.open::<ReachedOrders<S>>();
    let (sources, own_sources) = blanks.sources.open::<FailedSources<S>>();
    let CallBackParts {
        dial: tells,
        workers: leaves,
    } = call_backs;
    let Desk {
        dial,
        texts,
        clock,
        hosts,
    } = desk;
    let shared_texts = SharedTexts::new(Materials { texts, clock }, unread);
    let shared_dial = SharedDial::new(
        Dialer { dial, hosts },
        orders,
        sources,
        fetched,
        fetches,
        tells,
    );
    (
        Mutex::new(shared_texts),
        Mutex::new(shared_dial),
        Charges::new(own_unread, own_orders, own_sources, debits, leaves),
    )
}

/// What comes back of a server, once nobody works under the locks any more. What was counted is covered: FILEs by the
/// faults of texts and disks, orders and failed sources by the wires and faults of the dial, and what was shown by the
/// makes and by the wires that gave a version. Each version that was shown, or that a crash leaves at some moment, was
/// built, or came by a wire. All callers that still wait are told, so what callers were told is what was left to be
/// told.
pub(crate) fn unlock<S, D, B, A, T, C, L, I, R: Wait>(
    rt: &R,
    locks: Locks<S, D, B, A, T, C>,
    call_backs: &PendingCallBacks,
    ended: EndedService<S, B, L, I>,
) -> Served<D, B, A, T, C, L, I>
where
    S: Site + Accounts + Supplies,
    D: Disk,
    B: Tell,
    A: Dial,
    T: Texts,
    C: Clock,
    requires queue { call_backs.now ≡ S.call_backs }
    requires others { (ended.others.parts + 2 ≡ S.shares) × (ended.others.left ≡ []) }
    ensures listen { result.listen ≡ ended.listen }
    ensures tally { result.tally ≡ ended.tally }
    ensures inboxes { (result.inboxes ≡ ended.mailed.inboxes) × (result.outbox ≡ ended.mailed.outbox) }
    ensures inbox_fault { result.inbox_fault ≡ ended.mailed.fault }
    ensures totals { result.totals ≡ ended.account.totals }
    ensures stand { DisksStand D.history S.catalogue (B.log result.writer) result.disks.items }
    ensures grown { IsFront ended.account.reached (B.log result.writer) }
    ensures rises { IsStart S.first → AreTold D.history result.disks.items → IsRisingLog (B.log result.writer) }
    ensures desk { IsSupplied T.Texts S.text S.hosts result.desk }
    ensures files { T.faults result.desk.texts < last_count
        → All (DiskTellsFaults D.history D.faults) result.disks.items
        → result.totals.files + result.totals.outcomes.file + (S.text_faults + S.disk_faults)
        ≤ T.faults result.desk.texts + faults_over D.faults result.disks.items }
    ensures orders { CoversOrders S.wires (A.past result.desk.dial) result.totals.outcomes.reached }
    ensures sources { CoversSources S.wires (A.past result.desk.dial) S.dial_faults (A.faults result.desk.dial)
        result.totals.outcomes.source }
    ensures origins { IsStart S.first → AreTold D.history result.disks.items → ComesFrom D.history S.built
        (served_maps S.catalogue S.first (B.log result.writer) result.disks.items) result.totals.made S.wires
        (A.past result.desk.dial) }
    ensures traced { IsStart S.first → EachComesFrom D.history S.built
        (served_maps S.catalogue S.first (B.log result.writer) result.disks.items) S.histories S.wires
        (A.past result.desk.dial) }
    ensures told { TellsAllLeft S.hosts S.catalogue.maps S.shares
        (holds_more (holds_none S.call_backs S.shares) ended.account.told [])
        (dial_told S.wires S.letters S.dial_faults) (dial_by A.Dial result.desk.dial) }
{
    let Locks {
        publisher,
        texts,
        dial,
    } = locks;
    let EndedService {
        listen,
        tally,
        mailed,
        account,
        others,
    } = ended;
    let (totals, mut charges, front) = account.into_parts();
    charges.merge(call_backs, others);
    let (mut unread, orders, sources, mut debits, left) = charges.into_shares();
    let (disks, writer, versions, fetches) = take_apart(
        publisher.into_inner(),
        &front,
        &mut debits,
    );
    let materials = texts.into_inner().close(&mut unread);
    let dialer = dial.into_inner().close(
        rt,
        call_backs,
        left,
        DialShares {
            orders,
            sources,
            versions,
        },
        &fetches,
    );
    let desk = Desk {
        dial: dialer.dial,
        texts: materials.texts,
        clock: materials.clock,
        hosts: dialer.hosts,
    };
    Served {
        disks,
        desk,
        listen,
        inboxes: mailed.inboxes,
        outbox: mailed.outbox,
        writer,
        tally,
        totals,
        inbox_fault: mailed.fault,
    }
}
