//! Publishers over disks in memory: stopped and failing disks, refusals in their order, and disks that are handed back.

ghost use Rattle.std.specs.Prelude.{◌≤◌};

use crate::given::{assert_fits, assert_same, bytes, catalog, version};
use std::alloc::Global;
use std::process::Abort;
use std::random::RandomSource;
use std::sync::Arc;
use yp_board::PlainBoard;
use yp_map_file::SlotFault;
use yp_memory::MemDisk;
use yp_publisher::*;
use yp_version::{Order, Version};

// A file of 116 bytes: order 100, master `m1`, and the row `alpha`, `10.0.0.1 alpha`, at generation 1.
const HOSTS_FILE: &str = "01000000 00000000 00000000 00000001 00000000 00000040 00000000 00000034
    00000000 00000000 00000000 00000000 00000000 00000000 00000000 00000000
    00000001 00000064 00000002 6d310000 00000001 00000005 616c7068 61000000
    0000000e 31302e30 2e302e31 20616c70 68610000";

// The same at the last generation.
const LAST_FILE: &str = "01000000 00000000 ffffffff ffffffff 00000000 00000040 00000000 00000034
    00000000 00000000 00000000 00000000 00000000 00000000 00000000 00000000
    00000001 00000064 00000002 6d310000 00000001 00000005 616c7068 61000000
    0000000e 31302e30 2e302e31 20616c70 68610000";

// The same with a byte behind the first of the first cell that isn't zero.
const DAMAGED_FILE: &str = "01000000 00000009 00000000 00000001 00000000 00000040 00000000 00000034
    00000000 00000000 00000000 00000000 00000000 00000000 00000000 00000000
    00000001 00000064 00000002 6d310000 00000001 00000005 616c7068 61000000
    0000000e 31302e30 2e302e31 20616c70 68610000";

// A disk with this file, whose calls don't fail.
fn sound_disk(alloc: Global, file: Vec<u8>) -> MemDisk {
    MemDisk::new(alloc, file, None, Vec::new(alloc))
}

// Disks with the files of these texts.
fn disks_of(rt: &impl Abort, alloc: Global, texts: &[&str]) -> Vec<MemDisk> {
    let mut disks = Vec::new(alloc);
    for text in texts {
        disks
            .push(sound_disk(alloc, bytes(rt, alloc, &[*text])))
            .expect(rt, "memory for disks");
    }
    disks
}

type Maps = Publisher<MemDisk, PlainBoard>;

// Ends the test where these are more than a catalogue has maps.
fn assert_few(rt: &impl Abort, count: usize)
    ensures { count ≤ 64 }
{
    assert!(rt; count <= 64);
}

fn load(
    rt: &(impl RandomSource + Abort),
    alloc: Global,
    disks: Vec<MemDisk>,
) -> Result<Loaded<MemDisk>, StartRefused<MemDisk>> {
    assert_few(rt, disks.len());
    load_all(alloc, rt, disks)
}

// Opens a publisher over these disks on a host of this name.
fn open<R: RandomSource + Abort>(
    rt: &R,
    alloc: Global,
    own: &[u8],
    disks: Vec<MemDisk>,
) -> Result<Maps, OpenRefused<MemDisk>> {
    assert_few(rt, disks.len());
    let catalog = catalog(rt, alloc, own, disks.len() as u8);
    assert_fits(rt, disks.len(), &catalog);
    open_publisher(alloc, rt, catalog, disks)
}

// A publisher of these disks on a host of this name.
fn published<R: RandomSource + Abort>(
    rt: &R,
    alloc: Global,
    own: &[u8],
    disks: Vec<MemDisk>,
) -> Maps {
    open(rt, alloc, own, disks).expect(rt, "a publisher")
}

// The order that is shown of a map, its generation, and how it stands.
type State = (Option<u32>, u64, Standing);

fn state(rt: &impl Abort, maps: &Maps, map: u32) -> State {
    assert!(rt; map < maps.catalog().len());
    let order = match maps.shown(map) {
        Some(version) => Some(version.order().number()),
        None => None,
    };
    (order, maps.generation(map), maps.standing(map))
}

// What is offered of a map.
#[derive(Clone, Copy)]
struct Offer {
    map: u32,
    order: u32,
    master: &'static [u8; 2],
    origin: Origin,
    force: bool,
}

fn install<R: RandomSource + Abort>(
    rt: &R,
    alloc: Global,
    maps: &mut Maps,
    offer: Offer,
) -> Result<Installed, InstallFault> {
    assert!(rt; offer.map < maps.catalog().len());
    let version = version(rt, alloc, offer.order, offer.master);
    maps.install(alloc, offer.map, version, offer.origin, offer.force)
}

// A call of map 0.
#[derive(Clone, Copy)]
enum Call {
    Look,
    Build(u32),
    Reopen,
}

// What it answers.
#[derive(Clone, Copy, Debug, PartialEq, Eq)]
enum Answer {
    Looked,
    Done { order: u32, generation: u64 },
    Reopened,
    DiskFault,
    Behind,
    Other,
}

fn build<R: RandomSource + Abort>(rt: &R, alloc: Global, maps: &mut Maps, order: u32) -> Answer {
    let offer = Offer {
        map: 0,
        order,
        master: b"m1",
        origin: Origin::Built,
        force: false,
    };
    match install(rt, alloc, maps, offer) {
        Ok(Installed { order, generation }) => Answer::Done {
            order: order.number(),
            generation,
        },
        Err(InstallFault::DiskFault) => Answer::DiskFault,
        Err(InstallFault::Behind) => Answer::Behind,
        Err(_) => Answer::Other,
    }
}

fn reopen<R: RandomSource + Abort>(rt: &R, alloc: Global, maps: &mut Maps) -> Answer {
    assert!(rt; 0 < maps.catalog().len());
    match maps.reopen(alloc, rt, 0) {
        Ok(()) => Answer::Reopened,
        Err(SlotFault::DiskFault) => Answer::DiskFault,
        Err(_) => Answer::Other,
    }
}

fn make_call<R: RandomSource + Abort>(
    rt: &R,
    alloc: Global,
    maps: &mut Maps,
    call: Call,
) -> Answer {
    match call {
        Call::Look => Answer::Looked,
        Call::Build(order) => build(rt, alloc, maps, order),
        Call::Reopen => reopen(rt, alloc, maps),
    }
}

// A call and its name, its answer, and the state behind it.
type Row = (&'static str, Call, Answer, State);

const AT_SECOND: State = (Some(101), 2, Standing::Level);

const AT_THIRD: State = (Some(102), 3, Standing::Level);

const BEHIND_SECOND: State = (Some(101), 2, Standing::Behind);

const LOOKED: Row = (
    "a look",
    Call::Look,
    Answer::Looked,
    (None, 0, Standing::Level),
);

const FIRST: Row = (
    "the first build",
    Call::Build(100),
    Answer::Done {
        order: 100,
        generation: 1,
    },
    (Some(100), 1, Standing::Level),
);

const SECOND: Row = (
    "the second build",
    Call::Build(101),
    Answer::Done {
        order: 101,
        generation: 2,
    },
    AT_SECOND,
);

const THIRD: Row = (
    "the third build",
    Call::Build(102),
    Answer::Done {
        order: 102,
        generation: 3,
    },
    AT_THIRD,
);

// The third build where the disk stops or fails.
const FAULT: Row = (
    "the third build, with a fault",
    Call::Build(102),
    Answer::DiskFault,
    BEHIND_SECOND,
);

// Makes the calls in turn, where the disk stops or fails at these calls.
fn play<R: RandomSource + Abort>(
    rt: &R,
    alloc: Global,
    maps: &mut Maps,
    rows: &[Row],
    faults: &[u64],
) {
    for (name, made, answer, after) in rows {
        let came = make_call(rt, alloc, maps, *made);
        let found = (faults, came, state(rt, maps, 0));
        assert_same(rt, &found, &(faults, *answer, *after), name);
    }
}

fn one_disk(rt: &impl Abort, alloc: Global, disk: MemDisk) -> Vec<MemDisk> {
    vec![in alloc; disk].expect(rt, "memory for a disk")
}

// A publisher of an empty disk, which stops at a call or fails at some.
fn empty<R: RandomSource + Abort>(
    rt: &R,
    alloc: Global,
    stop: Option<u64>,
    failing: &[u64],
) -> Maps {
    let failing = failing.to_vec(alloc).expect(rt, "memory for numbers");
    let disk = MemDisk::new(alloc, Vec::new(alloc), stop, failing);
    published(rt, alloc, b"m1", one_disk(rt, alloc, disk))
}

// Makes the calls in turn over an empty disk of which these calls fail.
fn play_failing<R: RandomSource + Abort>(rt: &R, alloc: Global, failing: &[u64], rows: &[Row]) {
    let mut maps = empty(rt, alloc, None, failing);
    play(rt, alloc, &mut maps, rows, failing);
}

// On a level map a reopen does nothing.
static THREE_INSTALLS: [Row; 5] = [
    LOOKED,
    FIRST,
    SECOND,
    THIRD,
    ("a reopen", Call::Reopen, Answer::Reopened, AT_THIRD),
];

#[test]
fn three_installs(rt: HostRuntime) {
    play_failing(&rt, rt.alloc(), &[], &THREE_INSTALLS);
}

// The disks of a publisher.
fn disks_behind(maps: Maps) -> Vec<MemDisk> {
    let (disks, _board) = maps.into_parts();
    disks
}

// What a crash leaves of the one disk.
fn left_of(rt: &impl Abort, disks: &[MemDisk], kept: u64) -> Vec<u8> {
    assert!(rt; disks.len() == 1);
    disks[0].crashed(kept).expect(rt, "a file")
}

static STOPPED: [Row; 4] = [LOOKED, FIRST, SECOND, FAULT];

fn stopped<R: RandomSource + Abort>(rt: &R, alloc: Global, stop: u64, kept: u64) -> Vec<u8> {
    let mut maps = empty(rt, alloc, Some(stop), &[]);
    play(rt, alloc, &mut maps, &STOPPED, &[stop]);
    left_of(rt, &disks_behind(maps), kept)
}

// The orders that files stand for.
fn orders(rt: &impl Abort, alloc: Global, shown: &[Option<Arc<Version>>]) -> Vec<Option<u32>> {
    let mut orders = Vec::new(alloc);
    for version in shown {
        let order = version.as_ref().map(|version| version.order().number());
        orders.push(order).expect(rt, "memory for orders");
    }
    orders
}

// The orders of the files that these disks have, loaded anew.
fn loaded_orders<R: RandomSource + Abort>(
    rt: &R,
    alloc: Global,
    disks: Vec<MemDisk>,
) -> Vec<Option<u32>> {
    let loaded = load(rt, alloc, disks).expect(rt, "loaded disks");
    let shown = loaded.shown(alloc).expect(rt, "versions");
    orders(rt, alloc, &shown)
}

// The order of a file, loaded anew.
fn order_of<R: RandomSource + Abort>(rt: &R, alloc: Global, file: Vec<u8>) -> Vec<Option<u32>> {
    loaded_orders(rt, alloc, one_disk(rt, alloc, sound_disk(alloc, file)))
}

// Compares the order of what a crash leaves where the disk stops at this call.
fn check_stop<R: RandomSource + Abort>(rt: &R, alloc: Global, stop: u64, kept: u64) {
    let found = order_of(rt, alloc, stopped(rt, alloc, stop, kept));
    let third = stop == 22 && kept % 2 == 1;
    let order = if third { 102 } else { 101 };
    assert_same(
        rt,
        &(stop, kept, found.as_slice()),
        &(stop, kept, [Some(order)].as_slice()),
        "a stop, what is kept, and the order",
    );
}

#[test]
fn third_install_stopped(rt: HostRuntime) {
    // Two calls load an empty disk. Nine, five and seven calls install a version.
    for stop in 16..23 {
        for kept in 0..4 {
            check_stop(&rt, rt.alloc(), stop, kept);
        }
    }
}

const BEHIND: Row = (
    "a build behind",
    Call::Build(103),
    Answer::Behind,
    BEHIND_SECOND,
);

// The first call of the third install fails, which writes nothing.
static FIRST_CALL_FAILS: [Row; 7] = [
    LOOKED,
    FIRST,
    SECOND,
    FAULT,
    BEHIND,
    ("a reopen", Call::Reopen, Answer::Reopened, AT_SECOND),
    (
        "the next build",
        Call::Build(103),
        Answer::Done {
            order: 103,
            generation: 3,
        },
        (Some(103), 3, Standing::Level),
    ),
];

// Its last sync does.
static LAST_SYNC_FAILS: [Row; 7] = [
    LOOKED,
    FIRST,
    SECOND,
    FAULT,
    BEHIND,
    ("a reopen", Call::Reopen, Answer::Reopened, AT_THIRD),
    (
        "the next build",
        Call::Build(103),
        Answer::Done {
            order: 103,
            generation: 4,
        },
        (Some(103), 4, Standing::Level),
    ),
];

#[test]
fn reopens_behind(rt: HostRuntime) {
    play_failing(&rt, rt.alloc(), &[16], &FIRST_CALL_FAILS);
    play_failing(&rt, rt.alloc(), &[22], &LAST_SYNC_FAILS);
}

// The sync of the reopen fails, too.
static REOPEN_FAILS: [Row; 6] = [
    LOOKED,
    FIRST,
    SECOND,
    FAULT,
    (
        "a reopen with a fault",
        Call::Reopen,
        Answer::DiskFault,
        BEHIND_SECOND,
    ),
    ("a reopen", Call::Reopen, Answer::Reopened, AT_THIRD),
];

#[test]
fn reopen_that_fails(rt: HostRuntime) {
    play_failing(&rt, rt.alloc(), &[22, 23], &REOPEN_FAILS);
}

// What is offered to a host of this own name whose map has this file, of order 100 and master `m1`: where a version
// comes from, its order, and whether it is forced. Then what comes of it.
type Offered = (
    &'static str,
    &'static [u8; 2],
    &'static str,
    Origin,
    u32,
    bool,
    Outcome,
);

#[derive(Clone, Copy)]
enum Outcome {
    Installs,
    Refuses,
    Ages,
    Spent,
}

const BUILT: Origin = Origin::Built;

const FETCHED: Origin = Origin::Fetched;

static OFFERS: [Offered; 14] = [
    (
        "a newer one",
        b"m1",
        HOSTS_FILE,
        BUILT,
        101,
        false,
        Outcome::Installs,
    ),
    (
        "one of the same age",
        b"m1",
        HOSTS_FILE,
        BUILT,
        100,
        false,
        Outcome::Ages,
    ),
    (
        "an older one",
        b"m1",
        HOSTS_FILE,
        BUILT,
        99,
        false,
        Outcome::Ages,
    ),
    (
        "one of the same age, forced",
        b"m1",
        HOSTS_FILE,
        BUILT,
        100,
        true,
        Outcome::Installs,
    ),
    (
        "an older one, forced",
        b"m1",
        HOSTS_FILE,
        BUILT,
        99,
        true,
        Outcome::Installs,
    ),
    (
        "a newer one, fetched by its master",
        b"m1",
        HOSTS_FILE,
        FETCHED,
        101,
        false,
        Outcome::Refuses,
    ),
    (
        "an older one, forced and fetched by its master",
        b"m1",
        HOSTS_FILE,
        FETCHED,
        99,
        true,
        Outcome::Refuses,
    ),
    (
        "a newer one, fetched",
        b"m2",
        HOSTS_FILE,
        FETCHED,
        101,
        false,
        Outcome::Installs,
    ),
    (
        "one of the same age, fetched",
        b"m2",
        HOSTS_FILE,
        FETCHED,
        100,
        false,
        Outcome::Ages,
    ),
    (
        "an older one, built by another host",
        b"m2",
        HOSTS_FILE,
        BUILT,
        99,
        false,
        Outcome::Refuses,
    ),
    (
        "a newer one, where generations are spent",
        b"m1",
        LAST_FILE,
        BUILT,
        101,
        false,
        Outcome::Spent,
    ),
    (
        "an older one, forced, where generations are spent",
        b"m1",
        LAST_FILE,
        BUILT,
        99,
        true,
        Outcome::Spent,
    ),
    (
        "an older one, where generations are spent",
        b"m1",
        LAST_FILE,
        BUILT,
        99,
        false,
        Outcome::Ages,
    ),
    (
        "a newer one, fetched by its master, where generations are spent",
        b"m1",
        LAST_FILE,
        FETCHED,
        101,
        false,
        Outcome::Refuses,
    ),
];

fn done(order: u32, generation: u64) -> Result<Installed, InstallFault> {
    Ok(Installed {
        order: Order(order),
        generation,
    })
}

// The state before an offer of map 0, what it answers, and the state behind it.
type Came = (State, Result<Installed, InstallFault>, State);

fn offer_to<R: RandomSource + Abort>(rt: &R, alloc: Global, maps: &mut Maps, offer: Offer) -> Came {
    let before = state(rt, maps, 0);
    let answer = install(rt, alloc, maps, offer);
    (before, answer, state(rt, maps, 0))
}

fn offer_over<R: RandomSource + Abort>(
    rt: &R,
    alloc: Global,
    own: &[u8],
    text: &str,
    offer: Offer,
) -> Came {
    let mut maps = published(rt, alloc, own, disks_of(rt, alloc, &[text]));
    offer_to(rt, alloc, &mut maps, offer)
}

// What must come of an offer of this order over a file of this generation.
fn offer_wanted(rt: &impl Abort, alloc: Global, order: u32, outcome: Outcome, last: bool) -> Came {
    let generation = if last { u64::MAX } else { 1 };
    let before = (Some(100), generation, Standing::Level);
    match outcome {
        Outcome::Installs => (before, done(order, 2), (Some(order), 2, Standing::Level)),
        Outcome::Refuses => {
            let master = bytes(rt, alloc, &["6d31"]);
            (before, Err(InstallFault::Refused { master }), before)
        }
        Outcome::Ages => {
            let fault = InstallFault::Age {
                shown: 100,
                offered: order,
            };
            (before, Err(fault), before)
        }
        Outcome::Spent => (before, Err(InstallFault::GenerationsSpent), before),
    }
}

fn check_offer<R: RandomSource + Abort>(rt: &R, alloc: Global, row: &Offered) {
    let (name, own, text, origin, order, force, outcome) = *row;
    let offer = Offer {
        map: 0,
        order,
        master: b"m3",
        origin,
        force,
    };
    let came = offer_over(rt, alloc, own, text, offer);
    let wanted = offer_wanted(rt, alloc, order, outcome, text == LAST_FILE);
    assert_same(rt, &came, &wanted, name);
}

#[test]
fn refusals_in_order(rt: HostRuntime) {
    for row in &OFFERS {
        check_offer(&rt, rt.alloc(), row);
    }
}

// The bytes of each disk.
fn bytes_on(rt: &impl Abort, alloc: Global, disks: &[MemDisk]) -> Vec<Vec<u8>> {
    let mut files = Vec::new(alloc);
    for disk in disks {
        let file = disk.bytes().to_vec(alloc).expect(rt, "memory for bytes");
        files.push(file).expect(rt, "memory for files");
    }
    files
}

// The files of these texts.
fn files_of(rt: &impl Abort, alloc: Global, texts: &[&str]) -> Vec<Vec<u8>> {
    let mut files = Vec::new(alloc);
    for text in texts {
        let file = bytes(rt, alloc, &[*text]);
        files.push(file).expect(rt, "memory for files");
    }
    files
}

// Ends the test where disks that were handed back don't have the files of these texts.
fn assert_files(rt: &impl Abort, alloc: Global, disks: &[MemDisk], texts: &[&str]) {
    let wanted = files_of(rt, alloc, texts);
    assert_same(rt, &bytes_on(rt, alloc, disks), &wanted, "the disks");
}

static TEXTS: [&str; 4] = [HOSTS_FILE, DAMAGED_FILE, "", HOSTS_FILE];

const DAMAGED: SlotFault = SlotFault::Damaged { at: 7, rule: 3 };

fn check_load<R: RandomSource + Abort>(rt: &R, alloc: Global) {
    let refused = load(rt, alloc, disks_of(rt, alloc, &TEXTS))
        .err()
        .expect(rt, "a refusal");
    let came = (refused.map, refused.fault);
    assert_same(rt, &came, &(1, DAMAGED), "the second disk");
    assert_files(rt, alloc, &refused.disks, &TEXTS);
}

fn check_open<R: RandomSource + Abort>(rt: &R, alloc: Global) {
    let refused = open(rt, alloc, b"m1", disks_of(rt, alloc, &TEXTS))
        .err()
        .expect(rt, "a refusal");
    let wanted = OpenFault::Refused {
        map: 1,
        fault: DAMAGED,
    };
    assert_same(rt, &refused.fault, &wanted, "a publisher over it");
    assert_files(rt, alloc, &refused.disks, &TEXTS);
}

#[test]
fn damaged_disk_refused(rt: HostRuntime) {
    check_load(&rt, rt.alloc());
    check_open(&rt, rt.alloc());
}

// What a version for map 1 answers, and the states of maps 0 and 2 behind it.
type Second = (Result<Installed, InstallFault>, State, State);

fn offer_second<R: RandomSource + Abort>(rt: &R, alloc: Global, maps: &mut Maps) -> Second {
    let offer = Offer {
        map: 1,
        order: 7,
        master: b"m1",
        origin: Origin::Fetched,
        force: false,
    };
    let answer = install(rt, alloc, maps, offer);
    (answer, state(rt, maps, 0), state(rt, maps, 2))
}

// The same over disks that were loaded and handed back before, with the orders that they have then.
fn second_over<R: RandomSource + Abort>(
    rt: &R,
    alloc: Global,
    texts: &[&str],
) -> (Second, Vec<Option<u32>>) {
    let loaded = load(rt, alloc, disks_of(rt, alloc, texts)).expect(rt, "loaded disks");
    let mut maps = published(rt, alloc, b"m1", loaded.into_disks());
    let came = offer_second(rt, alloc, &mut maps);
    (came, loaded_orders(rt, alloc, disks_behind(maps)))
}

#[test]
fn disks_in_order(rt: HostRuntime) {
    let alloc = rt.alloc();
    let (second, found) = second_over(&rt, alloc, &[HOSTS_FILE, "", LAST_FILE]);
    let first = (Some(100), 1, Standing::Level);
    let third = (Some(100), u64::MAX, Standing::Level);
    assert_same(&rt, &second, &(done(7, 1), first, third), "an offer");
    let orders = [Some(100), Some(7), Some(100)];
    assert_same(&rt, &found.as_slice(), &orders.as_slice(), "the orders");
}

#[test]
fn no_disks(rt: HostRuntime) {
    let alloc = rt.alloc();
    let count = loaded_orders(&rt, alloc, Vec::new(alloc)).len();
    assert_same(&rt, &count, &0, "no disks");
}
