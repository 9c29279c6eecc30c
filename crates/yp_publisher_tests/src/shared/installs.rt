//! Installs and tellings under one lock, in one thread.

ghost use Rattle.std.specs.Prelude.{◌≡◌, ℕ, ◌+◌, ◌<◌, ◌≤◌, length, map, Option, Some};
ghost use Rattle.yp_memory.specs.inside.MemDisk.{Platter, history_of};
ghost use Rattle.yp_version.specs.Versions.{MapVersion};
ghost use Rattle.yp_board.specs.Logs.{Log};
ghost use Rattle.yp_publisher.specs.Rising.{publisher_state};
ghost use Rattle.yp_board.specs.inside.readers.Boards.{Written};
ghost use Rattle.yp_publisher.specs.sharing.Failures.{disks_of, faults_over};
ghost use Rattle.yp_publisher.specs.inside.sharing.Sources.{fetched_in};
ghost use Rattle.yp_publisher.specs.inside.sharing.Tracing.{IsKnownFetched};

use crate::given::{assert_same, held, one_of, version};
use crate::shared::maps::*;
use std::alloc::Global;
use std::marker::Brand;
use std::mem;
use std::process::Abort;
use std::random::RandomSource;
use std::sync::ledger::{Blank, Book};
use std::sync::{Mutex, Wait};
use yp_board::Tell;
use yp_board::readers::{Naming, Opened, Reader, Writer};
use yp_memory::MemDisk;
use yp_publisher::sharing::{
    Accounts, BuiltVersions, Debits, FailedFiles, FetchedVersions, Fetches, FetchesFront, Locked,
    MapOffer, OpenedFetches, ShareFault, Site, install_shared, tell_shared,
};
use yp_publisher::{InstallFault, Origin};
use yp_version::Version;

// The maps, and where they are under their lock.
type Kept<'r, S, J, R> = Locked<S, MemDisk, Writer<J, &'r R>>;

type Shared<'r, S, J, R> = Mutex<Kept<'r, S, J, R>>;

// What came of an install.
#[derive(Clone, Copy, Debug, PartialEq, Eq)]
enum Outcome {
    Installed,
    Age { shown: u32, offered: u32 },
    Refused,
    DiskFault,
    Shut,
    Other,
}

// Where a version comes from, its order, what came of its install, and the order that the caller's reader then holds.
type Row = (Origin, u32, Outcome, Option<u32>);

const FIRST: Row = (Origin::Built, 100, Outcome::Installed, Some(100));

const SECOND: Row = (Origin::Built, 101, Outcome::Installed, Some(101));

// Installs that are made in turn over an empty disk of which these calls fail, and the order that another reader is
// told of then.
#[derive(Clone, Copy)]
struct Script<'a> {
    failing: &'a [u64],
    rows: &'a [Row],
    told: u32,
}

static KNOWN_AND_REFUSED: [Row; 4] = [
    FIRST,
    (
        Origin::Built,
        100,
        Outcome::Age {
            shown: 100,
            offered: 100,
        },
        Some(100),
    ),
    (
        Origin::Built,
        99,
        Outcome::Age {
            shown: 100,
            offered: 99,
        },
        Some(100),
    ),
    SECOND,
];

#[test]
fn installs_known_and_refused(rt: HostRuntime) {
    let script = Script {
        failing: &[],
        rows: &KNOWN_AND_REFUSED,
        told: 101,
    };
    try_installs(&rt, rt.alloc(), script);
}

// The first call of the third install fails, and then the reading of the file. The fifth opens it again.
static FAILING: [Row; 5] = [
    FIRST,
    SECOND,
    (Origin::Built, 102, Outcome::DiskFault, Some(101)),
    (Origin::Built, 103, Outcome::Shut, Some(101)),
    (Origin::Built, 104, Outcome::Installed, Some(104)),
];

#[test]
fn failing_disk(rt: HostRuntime) {
    let script = Script {
        failing: &[16, 17],
        rows: &FAILING,
        told: 104,
    };
    try_installs(&rt, rt.alloc(), script);
}

// Where nothing is shown, a version goes in wherever it comes from. Its master is this host, so that behind it only
// built ones do.
static FETCHED: [Row; 3] = [
    (Origin::Fetched, 100, Outcome::Installed, Some(100)),
    (Origin::Fetched, 101, Outcome::Refused, Some(100)),
    SECOND,
];

#[test]
fn fetched_and_built(rt: HostRuntime) {
    let script = Script {
        failing: &[],
        rows: &FETCHED,
        told: 101,
    };
    try_installs(&rt, rt.alloc(), script);
}

#[test]
fn told_of_an_install(rt: HostRuntime) {
    let script = Script {
        failing: &[],
        rows: &[FIRST],
        told: 100,
    };
    try_installs(&rt, rt.alloc(), script);
}

// Plays a script.
fn try_installs<R: Wait + RandomSource + Abort>(rt: &R, alloc: Global, script: Script<'_>) {
    played::<Brand, R>(rt, alloc, Opened::new(), script);
}

fn played<J: Naming, R: Wait + RandomSource + Abort>(
    rt: &R,
    alloc: Global,
    opened: Opened,
    script: Script<'_>,
)
    requires { opened ≡ J.book }
{
    let disk = disk(rt, alloc, script.failing);
    let (maps, readers) = publisher_of::<J, R>(rt, alloc, opened, disk);
    let blanks = Blanks {
        failures: Blank::new(2),
        made: Blank::new(2),
        versions: Blank::new(3),
        fetches: OpenedFetches::new(),
    };
    play_all::<J, Brand, R>(rt, alloc, maps, readers, blanks, script);
}

// What the ledgers of a site are opened from, and its log of fetched versions.
#[derive(Drop)]
struct Blanks {
    failures: Blank,
    made: Blank,
    versions: Blank,
    fetches: OpenedFetches,
}

// Makes these installs in turn, each as whatever it is offered as, and tells another reader of them.
fn play_all<'r, J: Naming, S: Site + Accounts, R: Wait + RandomSource + Abort>(
    rt: &'r R,
    alloc: Global,
    maps: Maps<'r, J, R>,
    readers: Vec<Reader<J>>,
    blanks: Blanks,
    script: Script<'_>,
)
    requires site { maps.catalogue ≡ S.catalogue }
    requires some { 0 < length S.catalogue.maps }
    requires any { (log : Log) → (number : ℕ) → (last : Option MapVersion) → (version : MapVersion)
        → S.built log number last version }
    requires first { publisher_state (λ (w : Written). w.log) maps ≡ S.first }
    requires histories { map (λ (p : Platter). Some (history_of p)) (disks_of maps.maps) ≡ S.histories }
    requires disks { faults_over (λ (p : Platter). p.faults) (disks_of maps.maps) ≡ S.disk_faults }
    requires names { (blanks.failures.name ≡ S.failures) × (blanks.made.name ≡ S.made)
        × (blanks.versions.name ≡ S.versions) }
    requires parts { (blanks.failures.parts ≡ S.shares) × (blanks.made.parts ≡ S.shares)
        × (blanks.versions.parts ≡ S.shares + 1) }
    requires two { S.shares ≡ 2 }
    requires fetches { blanks.fetches ≡ S.fetched }
{
    let mut readers = readers;
    let reader = one_of(rt, &mut readers);
    let mut other = one_of(rt, &mut readers);
    let (locked, charge, fetched) = open_all::<J, S, R>(rt, maps, blanks);
    let shared = Mutex::new(locked);
    let mut caller = Caller {
        reader,
        charge,
        fetched,
    };
    play_part(rt, alloc, &shared, &mut caller, script.rows);
    assert_told(rt, &shared, &mut other, script.told);
    close_all(shared.into_inner(), caller);
}

// Who installs versions: its reader, what it is charged with, and what it fetched.
#[derive(Drop)]
struct Caller<S: Accounts, J: Naming> {
    reader: Reader<J>,
    charge: Debits<S>,
    fetched: Fetched<S>,
}

// What was fetched: how much, and which versions.
#[derive(Drop)]
struct Fetched<S: Accounts> {
    book: Book<FetchedVersions<S>>,
    log: Fetches<S>,
}

// The maps with what is counted of them, two parts of what a caller is charged with, and what was fetched, nothing yet.
fn open_all<'r, J: Naming, S: Site + Accounts, R: Wait + RandomSource + Abort>(
    rt: &'r R,
    maps: Maps<'r, J, R>,
    blanks: Blanks,
) -> (Kept<'r, S, J, R>, Debits<S>, Fetched<S>)
    requires site { maps.catalogue ≡ S.catalogue }
    requires first { publisher_state (λ (w : Written). w.log) maps ≡ S.first }
    requires histories { map (λ (p : Platter). Some (history_of p)) (disks_of maps.maps) ≡ S.histories }
    requires disks { faults_over (λ (p : Platter). p.faults) (disks_of maps.maps) ≡ S.disk_faults }
    requires names { (blanks.failures.name ≡ S.failures) × (blanks.made.name ≡ S.made)
        × (blanks.versions.name ≡ S.versions) }
    requires parts { (blanks.failures.parts ≡ S.shares) × (blanks.made.parts ≡ S.shares)
        × (blanks.versions.parts ≡ S.shares + 1) }
    requires two { S.shares ≡ 2 }
    requires fetches { blanks.fetches ≡ S.fetched }
    ensures { result.1.parts ≡ 2 }
{
    let (failed, failures) = blanks.failures.open::<FailedFiles<S>>();
    let (shown, made) = blanks.made.open::<BuiltVersions<S>>();
    let (book, mut versions) = blanks.versions.open::<FetchedVersions<S>>();
    let log = blanks.fetches.named::<S>().expect(rt, "a log");
    // One part of the last stays under the lock.
    let kept = versions.split_off(1, 0);
    let locked = Locked::new(maps, failed, shown, kept, log.front().again());
    let debits = Debits::new(failures, made, versions);
    (locked, debits, Fetched { book, log })
}

// Takes the maps from under their lock, of which the caller's reader knows a front.
fn close_all<'r, J: Naming, S: Site + Accounts, R: Wait + RandomSource + Abort>(
    locked: Kept<'r, S, J, R>,
    caller: Caller<S, J>,
) {
    let mut locked = locked;
    let mut caller = caller;
    let known = Writer::<J, &'r R>::known(&caller.reader);
    locked.covers(&known);
    let _ = locked.close(&mut caller.charge);
}

// Makes these installs, each charged to a part of what the caller is charged with.
fn play_part<'r, J: Naming, S: Site + Accounts, R: Wait + RandomSource + Abort>(
    rt: &'r R,
    alloc: Global,
    shared: &Shared<'r, S, J, R>,
    caller: &mut Caller<S, J>,
    rows: &[Row],
)
    requires maps { 0 < length S.catalogue.maps }
    requires any { (log : Log) → (number : ℕ) → (last : Option MapVersion) → (version : MapVersion)
        → S.built log number last version }
    requires parts { 1 < caller.old.charge.parts }
{
    let part = caller.charge.split_off();
    let rest = mem::replace(&mut caller.charge, part);
    for row in rows {
        play(rt, alloc, shared, caller, row);
    }
    caller.charge.merge(rest);
}

// Makes an install, and compares what comes of it.
fn play<'r, J: Naming, S: Site + Accounts, R: Wait + RandomSource + Abort>(
    rt: &'r R,
    alloc: Global,
    shared: &Shared<'r, S, J, R>,
    caller: &mut Caller<S, J>,
    row: &Row,
)
    requires maps { 0 < length S.catalogue.maps }
    requires any { (log : Log) → (number : ℕ) → (last : Option MapVersion) → (version : MapVersion)
        → S.built log number last version }
{
    let (origin, order, outcome, after) = *row;
    let version = version(rt, alloc, order, b"m1");
    let known = fetch(rt, origin, &version, caller);
    let offer = MapOffer {
        map: 0,
        version,
        origin,
        known,
    };
    let came = outcome_of(install_shared(
        alloc,
        rt,
        shared,
        &mut caller.reader,
        offer,
        &mut caller.charge,
    ));
    assert_same(
        rt,
        &(came, held(&caller.reader, 0)),
        &(outcome, after),
        "an install",
    );
}

// Tells the caller's book and log of a version that is fetched.
fn fetch<S: Accounts, J: Naming, R: Abort>(
    rt: &R,
    origin: Origin,
    version: &Version,
    caller: &mut Caller<S, J>,
) -> Option<FetchesFront<S>>
    ensures charged { fetched_in origin ≤ caller.new.charge.versions }
    ensures known { IsKnownFetched version.now origin result }
{
    match origin {
        Origin::Built => None,
        Origin::Fetched => {
            caller.charge.fetched(&mut caller.fetched.book);
            assert!(rt; caller.fetched.log.push(version));
            Some(caller.fetched.log.front().again())
        },
    }
}

fn outcome_of(installed: Result<(), ShareFault>) -> Outcome {
    match installed {
        Ok(()) => Outcome::Installed,
        Err(ShareFault::Unfit(InstallFault::Age { shown, offered })) => {
            Outcome::Age { shown, offered }
        }
        Err(ShareFault::Unfit(InstallFault::Refused { .. })) => Outcome::Refused,
        Err(ShareFault::Unfit(InstallFault::DiskFault)) => Outcome::DiskFault,
        Err(ShareFault::Shut(_)) => Outcome::Shut,
        Err(_) => Outcome::Other,
    }
}

// Ends the test where a reader that holds nothing doesn't hold this order once it is told of all that was shown.
fn assert_told<'r, J: Naming, S: Site + Accounts, R: Wait + RandomSource + Abort>(
    rt: &'r R,
    shared: &Shared<'r, S, J, R>,
    reader: &mut Reader<J>,
    order: u32,
) {
    let before = held(reader, 0);
    tell_shared(rt, shared, reader).expect(rt, "memory for a note");
    let came = (before, held(reader, 0));
    assert_same(
        rt,
        &came,
        &(None, Some(order)),
        "the orders of another reader",
    );
}
