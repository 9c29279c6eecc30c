//! Two workers over one map.

ghost use Rattle.std.specs.Prelude.{◌≡◌, All, Some, map};
ghost use Rattle.yp_memory.specs.inside.MemDisk.{Platter, history_of};
ghost use Rattle.yp_memory.specs.inside.MemDial.{wires_of};
ghost use Rattle.yp_publisher.specs.Rising.{publisher_state};
ghost use Rattle.yp_board.specs.inside.readers.Boards.{Written};
ghost use Rattle.yp_publisher.specs.sharing.Failures.{disks_of, faults_over};
ghost use Rattle.yp_host.specs.inside.workers.CallBacks.{holds_none};
ghost use Rattle.yp_host.specs.inside.workers.Desks.{IsSupplied};
ghost use Rattle.yp_host.specs.inside.workers.Makings.{SiteBuilds};
ghost use Rattle.yp_worker.specs.inside.Queues.{all_parts};

use crate::given::publisher;
use crate::sample::{Posted, posted_by};
use std::alloc::Global;
use std::marker::Brand;
use std::process::Abort;
use std::random::RandomSource;
use std::sync::ledger::Blank;
use std::sync::{Mutex, Wait};
use yp_answer::session::Host;
use yp_answer::{MakeJob, TransferJob};
use yp_board::readers::{Naming, Opened, Reader, Writer};
use yp_board::{Catalog, Tell, View};
use yp_for_server_tests::Maps;
use yp_host::Desk;
use yp_host::workers::{
    Account, CallBackPass, Charges, DialShares, Dialer, FailedSources, Materials, PendingCallBacks,
    ReachedOrders, SharedDial, SharedTexts, Supplies, Totals, UnreadTexts, WorkerHost,
    WorkerSetting,
};
use yp_io::{Peer, Texts};
use yp_memory::{MemDial, MemDisk, SetClock};
use yp_messages::XfrStat;
use yp_publisher::sharing::{
    Accounts, BuiltVersions, Debits, FailedFiles, FetchedVersions, Locked, OpenedFetches, Site,
};
use yp_worker::{CatchUp, HandsOver};

/// The locks of a map, of the texts and of the dial.
type SharedMaps<S, J, R> = Mutex<Locked<S, MemDisk, Writer<J, R>>>;

type MapTexts<S, T> = Mutex<SharedTexts<S, T, SetClock>>;

type MapDial<S> = Mutex<SharedDial<S, MemDial>>;

type Worker<'a, S, J, T, R> = WorkerHost<'a, S, MemDisk, Writer<J, R>, MemDial, T, SetClock, R>;

/// What a worker does.
#[derive(Clone, Copy)]
pub enum Act {
    Make,
    Transfer,
    CatchUp,
    Refresh,
}

/// What came of it: the status of a making, and the order that the worker holds then.
pub type Came = (Option<XfrStat>, Option<u32>);

/// The last two readers of a board.
fn two_of<J: Naming>(
    rt: &impl Abort,
    readers: Vec<Reader<J>>,
    catalog: &Catalog,
) -> (Reader<J>, Reader<J>)
    requires { All (λ reader. reader.catalogue ≡ catalog.now) readers.items }
    ensures first { result.0.catalogue ≡ catalog.now }
    ensures second { result.1.catalogue ≡ catalog.now }
{
    let mut readers = readers;
    let second = readers.pop().expect(rt, "a reader");
    let first = readers.pop().expect(rt, "a reader");
    (first, second)
}

/// Does one thing.
fn done_by<
    S: Site + Accounts + Supplies,
    J: Naming,
    T: Texts + Drop,
    R: RandomSource + Wait + Drop,
>(host: &mut Worker<'_, S, J, T, R>, act: Act, source: &[u8]) -> Came {
    if host.catalog().len() == 0 || source.is_empty() || source.len() > 64 {
        return (None, None);
    }
    let stat = match act {
        Act::Make => {
            let Some(map) = host.catalog().find(b"lab", b"hosts.byname") else {
                return (None, None);
            };
            let job = MakeJob::of_map(host.catalog(), map);
            Some(host.make(job))
        }
        Act::Transfer => {
            let job = TransferJob {
                map: 0,
                source,
                transid: 9,
                prog: 0x4000_0000,
                port: 7_002,
            };
            host.transfer(&job, CALLER);
            None
        }
        Act::CatchUp => {
            let _ = host.catch_up();
            None
        }
        Act::Refresh => {
            host.refresh();
            None
        }
    };
    (stat, host.held(0).map(|version| version.order().number()))
}

/// Who asks for a transfer.
const CALLER: Peer = Peer {
    addr: [127, 0, 0, 1],
    port: 40_000,
};

/// What is done, by the first of two workers or by the second, the host that transfers fetch from, and whether the dial
/// is held meanwhile, as by a fetch that waits for its source.
#[derive(Clone, Copy)]
pub struct Script<'a> {
    pub acts: &'a [(bool, Act)],
    pub source: &'a [u8],
    pub fetching: bool,
}

/// What two workers do in turn.
fn play<
    'r,
    S: Site + Accounts + Supplies,
    J: Naming,
    T: Texts + Drop,
    R: RandomSource + Wait + Abort,
>(
    rt: &'r R,
    alloc: Global,
    first: &mut Worker<'_, S, J, T, &'r R>,
    second: &mut Worker<'_, S, J, T, &'r R>,
    script: Script<'_>,
) -> Vec<Came> {
    let mut came = Vec::new(alloc);
    for (by_first, what) in script.acts {
        let one = if *by_first {
            done_by(first, *what, script.source)
        } else {
            done_by(second, *what, script.source)
        };
        came.push(one).expect(rt, "what came");
    }
    came
}

/// What two workers do in turn while the dial is held.
fn play_beside_fetch<
    'r,
    S: Site + Accounts + Supplies,
    J: Naming,
    T: Texts + Drop,
    R: RandomSource + Wait + Abort,
>(
    rt: &'r R,
    alloc: Global,
    dial: &MapDial<S>,
    first: &mut Worker<'_, S, J, T, &'r R>,
    second: &mut Worker<'_, S, J, T, &'r R>,
    script: Script<'_>,
) -> Vec<Came> {
    let _held = dial.lock(rt);
    play(rt, alloc, first, second, script)
}

/// What two workers share, each part under its lock, and the queue of call backs.
#[derive(Clone, Copy)]
struct Locks<'m, S: Site + Accounts + Supplies, J: Naming, T: Texts, R: Wait + Drop> {
    maps: &'m SharedMaps<S, J, R>,
    texts: &'m MapTexts<S, T>,
    dial: &'m MapDial<S>,
    call_backs: &'m PendingCallBacks,
}

/// Two workers, made of their readers and the locks, play. What they counted, and what they are charged by behind that.
fn meet<
    'm,
    'r,
    S: Site + Accounts + Supplies,
    J: Naming,
    T: Texts + Drop,
    R: RandomSource + Wait + Abort,
>(
    rt: &'r R,
    alloc: Global,
    locks: Locks<'m, S, J, T, &'r R>,
    readers: (Reader<J>, Reader<J>),
    charges: Charges<S>,
    script: Script<'_>,
) -> (Vec<Came>, Account<S, Writer<J, &'r R>>, Charges<S>)
    requires builds { SiteBuilds S.text S.catalogue S.built }
    requires first { readers.0.catalogue ≡ S.catalogue }
    requires second { readers.1.catalogue ≡ S.catalogue }
    requires charges { charges.parts ≡ 4 }
    requires queue { locks.call_backs.now ≡ S.call_backs }
{
    let Locks {
        maps,
        texts,
        dial,
        call_backs,
    } = locks;
    let mut charges = charges;
    let one = charges.split_off(call_backs);
    let other = charges.split_off(call_backs);
    let front = Writer::<J, &'r R>::known(&readers.0);
    let setting = WorkerSetting {
        alloc,
        rt,
        publisher: maps,
        texts,
        dial,
        call_backs,
        journal: None,
    };
    let mut first = WorkerHost::new(setting, readers.0, one);
    let setting = WorkerSetting {
        alloc,
        rt,
        publisher: maps,
        texts,
        dial,
        call_backs,
        journal: None,
    };
    let mut second = WorkerHost::new(setting, readers.1, other);
    let mut account = Account::new(charges, front);
    let came = if script.fetching {
        play_beside_fetch(rt, alloc, dial, &mut first, &mut second, script)
    } else {
        play(rt, alloc, &mut first, &mut second, script)
    };
    first.hand_over(&mut account);
    second.hand_over(&mut account);
    let mut others = first.into_charges();
    others.merge(call_backs, second.into_charges());
    (came, account, others)
}

/// What came of a stage: of each act, what both workers counted, and what was posted.
pub type Played = (Vec<Came>, Totals, Posted);

/// A host: its name, the file of its map, and its desk.
pub struct Place<'a, T> {
    pub own: &'a [u8],
    pub file: Vec<u8>,
    pub desk: Desk<MemDial, T, SetClock>,
}

/// What came of a script at a host.
pub fn staged<J: Naming, T: Texts + Drop, R: RandomSource + Wait + Abort>(
    rt: &R,
    alloc: Global,
    opened: Opened,
    place: Place<'_, T>,
    script: Script<'_>,
) -> Played
    requires { opened ≡ J.book }
{
    let Place { own, file, desk } = place;
    let (publisher, readers) = publisher::<J, R>(rt, alloc, opened, own, file, 2);
    let readers = two_of(rt, readers, publisher.catalog());
    let (call_backs, pass) = PendingCallBacks::new(alloc).expect(rt, "a queue");
    let stage = Stage {
        publisher,
        readers,
        desk,
        call_backs,
        pass,
    };
    under_locks::<Brand, J, T, R>(rt, alloc, stage, Blanks::new(), script)
}

/// What two workers share, before it is under its locks: the publisher with two readers of its board, the desk, and the
/// queue of call backs with the pass to all of it.
struct Stage<'r, J: Naming, T: Texts, R: Wait> {
    publisher: Maps<'r, J, R>,
    readers: (Reader<J>, Reader<J>),
    desk: Desk<MemDial, T, SetClock>,
    call_backs: PendingCallBacks,
    pass: CallBackPass,
}

/// What the ledgers of a stage are opened from, and the log of what is fetched.
struct Blanks {
    unread: Blank,
    failures: Blank,
    orders: Blank,
    sources: Blank,
    made: Blank,
    versions: Blank,
    fetches: OpenedFetches,
}

impl Blanks {
    /// Four parts each, and of the one of fetched versions one more, for the publisher.
    fn new() -> Blanks
        ensures unread { result.unread.parts ≡ 4 }
        ensures failures { result.failures.parts ≡ 4 }
        ensures orders { result.orders.parts ≡ 4 }
        ensures sources { result.sources.parts ≡ 4 }
        ensures made { result.made.parts ≡ 4 }
        ensures versions { result.versions.parts ≡ 5 }
    {
        Blanks {
            unread: Blank::new(4),
            failures: Blank::new(4),
            orders: Blank::new(4),
            sources: Blank::new(4),
            made: Blank::new(4),
            versions: Blank::new(5),
            fetches: OpenedFetches::new(),
        }
    }
}

/// What came of it, once the publisher, the texts and the dial are under their locks.
fn under_locks<
    'r,
    S: Site + Accounts + Supplies,
    J: Naming,
    T: Texts + Drop,
    R: RandomSource + Wait + Abort,
>(rt: &'r R, alloc: Global, stage: Stage<'r, J, T, R>, blanks: Blanks, script: Script<'_>) -> Played
    requires site { stage.publisher.catalogue ≡ S.catalogue }
    requires stood { publisher_state (λ (w : Written). w.log) stage.publisher ≡ S.first }
    requires histories { map (λ (p : Platter). Some (history_of p)) (disks_of stage.publisher.maps) ≡ S.histories }
    requires disks { faults_over (λ (p : Platter). p.faults) (disks_of stage.publisher.maps) ≡ S.disk_faults }
    requires builds { SiteBuilds S.text S.catalogue S.built }
    requires first { stage.readers.0.catalogue ≡ S.catalogue }
    requires second { stage.readers.1.catalogue ≡ S.catalogue }
    requires supplied { IsSupplied T.Texts S.text S.hosts stage.desk }
    requires before { (T.faults stage.desk.texts ≡ S.text_faults) × (wires_of stage.desk.dial ≡ S.wires)
        × (stage.desk.dial.faults ≡ S.dial_faults) × (Some stage.desk.dial.letters ≡ S.letters) }
    requires parts { S.shares ≡ 4 }
    requires unread { (blanks.unread.name ≡ S.unread) × (blanks.unread.parts ≡ 4) }
    requires failures { (blanks.failures.name ≡ S.failures) × (blanks.failures.parts ≡ 4) }
    requires orders { (blanks.orders.name ≡ S.orders) × (blanks.orders.parts ≡ 4) }
    requires sources { (blanks.sources.name ≡ S.sources) × (blanks.sources.parts ≡ 4) }
    requires made { (blanks.made.name ≡ S.made) × (blanks.made.parts ≡ 4) }
    requires versions { (blanks.versions.name ≡ S.versions) × (blanks.versions.parts ≡ 5) }
    requires fetches { blanks.fetches ≡ S.fetched }
    requires call_backs { (stage.call_backs ≡ S.call_backs) × (stage.pass ≡ holds_none S.call_backs all_parts) }
{
    let Stage {
        publisher,
        readers,
        desk,
        call_backs,
        pass,
    } = stage;
    let Blanks {
        unread,
        failures,
        orders,
        sources,
        made,
        versions,
        fetches,
    } = blanks;
    let (unread, own_unread) = unread.open::<UnreadTexts<S>>();
    let (failures, own_failures) = failures.open::<FailedFiles<S>>();
    let (orders, own_orders) = orders.open::<ReachedOrders<S>>();
    let (sources, own_sources) = sources.open::<FailedSources<S>>();
    let (made, own_made) = made.open::<BuiltVersions<S>>();
    let (versions, mut own_versions) = versions.open::<FetchedVersions<S>>();
    let publishers = own_versions.split_off(1, 0);
    let debits = Debits::new(own_failures, own_made, own_versions);
    let mut pass = pass;
    let left = call_backs.split_shares::<S>(&mut pass);
    let charges = Charges::new(own_unread, own_orders, own_sources, debits, left);
    let fetches = fetches.named::<S>().expect(rt, "a log");
    let known = fetches.front().again();
    let maps: SharedMaps<S, J, &R> = Mutex::new(Locked::new(
        publisher, failures, made, publishers, known,
    ));
    let Desk {
        dial,
        texts,
        clock,
        hosts,
    } = desk;
    let texts: MapTexts<S, T> = Mutex::new(SharedTexts::new(Materials { texts, clock }, unread));
    let dial: MapDial<S> = Mutex::new(SharedDial::new(
        Dialer { dial, hosts },
        orders,
        sources,
        versions,
        fetches,
        pass,
    ));
    let locks = Locks {
        maps: &maps,
        texts: &texts,
        dial: &dial,
        call_backs: &call_backs,
    };
    let (came, account, others) = meet(rt, alloc, locks, readers, charges, script);
    let unlocked = Unlocked {
        maps: maps.into_inner(),
        texts: texts.into_inner(),
        dial: dial.into_inner(),
    };
    let (totals, dialer) = closed(rt, unlocked, &call_backs, account, others);
    (came, totals, posted_by(rt, alloc, &dialer.dial))
}

/// What two workers shared, from under its locks.
struct Unlocked<S: Site + Accounts + Supplies, J: Naming, T: Texts, R: Wait + Drop> {
    maps: Locked<S, MemDisk, Writer<J, R>>,
    texts: SharedTexts<S, T, SetClock>,
    dial: SharedDial<S, MemDial>,
}

/// Takes the dial out of what two workers shared, with what both of them counted.
fn closed<'r, S: Site + Accounts + Supplies, J: Naming, T: Texts + Drop, R: Wait>(
    rt: &'r R,
    unlocked: Unlocked<S, J, T, &'r R>,
    call_backs: &PendingCallBacks,
    account: Account<S, Writer<J, &'r R>>,
    others: Charges<S>,
) -> (Totals, Dialer<MemDial>)
    requires { call_backs.now ≡ S.call_backs }
{
    let Unlocked { maps, texts, dial } = unlocked;
    let (totals, mut charges, _) = account.into_parts();
    charges.merge(call_backs, others);
    let (mut unread, orders, sources, mut debits, left) = charges.into_shares();
    let (_, versions, known) = maps.close(&mut debits);
    let _materials = texts.close(&mut unread);
    let shares = DialShares {
        orders,
        sources,
        versions,
    };
    let dialer = dial.close(rt, call_backs, left, shares, &known);
    (totals, dialer)
}
