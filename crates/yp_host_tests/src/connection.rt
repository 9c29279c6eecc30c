//! Connections from the loading of their files to the handing back of their disks.

use crate::given::{NEVER, assert_fits, assert_same};
use crate::sample::*;
use std::alloc::Global;
use std::process::Abort;
use std::random::RandomSource;
use yp_answer::session::End;
use yp_board::Catalog;
use yp_host::*;
use yp_io::{Source, Trail};
use yp_map_file::SlotFault;
use yp_memory::{MemDial, MemDisk, MemTexts, MemWire, SetClock};
use yp_publisher::OpenFault;

// A disk with this file. From call `stop` on its calls fail, and the call `failing` fails.
fn disk_of(
    rt: &impl Abort,
    alloc: Global,
    file: Vec<u8>,
    stop: Option<u64>,
    failing: u64,
) -> MemDisk {
    let failing = vec![in alloc; failing].expect(rt, "a number");
    MemDisk::new(alloc, file, stop, failing)
}

// What came of a connection: its end, what it wrote, and what it left of its input.
pub type Came = (Result<End, OpenFault>, Vec<u8>, Vec<u8>);

// What a connection left of its input.
fn input_left(rt: &impl Abort, alloc: Global, wire: &mut MemWire) -> Vec<u8> {
    let mut left = [0; 1000];
    let count = wire.source.read(&mut left).expect(rt, "a read");
    Vec::from_slice(alloc, &left[..count]).expect(rt, "bytes")
}

// How many files of a disk are looked at that a crash may leave: with each of three writes kept or dropped.
const CRASHES: u64 = 8;

// The order that one of them stands for, and 0 where it has no version.
fn order_left<R: RandomSource + Abort>(rt: &R, alloc: Global, disk: &MemDisk, kept: u64) -> u32 {
    let file = disk.crashed(kept).expect(rt, "a file");
    match stored_on(rt, rt, alloc, sound_disk(alloc, file)) {
        (Some((order, _)), _) => order,
        (None, _) => 0,
    }
}

type Resources = ConnectionResources<MemDisk, MemDial, MemTexts, SetClock>;

// Serves calls over a wire to the own host.
fn serve_all<R: RandomSource + Abort>(
    rt: &R,
    alloc: Global,
    catalog: Catalog,
    wire: &mut MemWire,
    disks: Vec<MemDisk>,
    desk: MemDesk,
) -> (Result<End, OpenFault>, Resources) {
    assert_fits(rt, disks.len(), &catalog);
    let resources = ConnectionResources { disks, desk };
    let spec = ConnectionSpec {
        catalog,
        peer: OWN_HOST,
    };
    let mut trail = Trail::new();
    serve_wire(alloc, rt, spec, wire, resources, &mut trail)
}

// Serves calls with this input, and hands back what they are served from.
pub fn served_by<R: RandomSource + Abort>(
    rt: &R,
    alloc: Global,
    catalog: Catalog,
    disks: Vec<MemDisk>,
    desk: MemDesk,
    input: &str,
) -> (Came, Resources) {
    let mut wire = wire_of(alloc, words(rt, alloc, input));
    let (end, resources) = serve_all(rt, alloc, catalog, &mut wire, disks, desk);
    let left = input_left(rt, alloc, &mut wire);
    ((end, output_of(rt, alloc, &wire), left), resources)
}

// Serves calls from these disks, and hands them back. Each is of the map at its place.
fn served<R: RandomSource + Abort>(
    rt: &R,
    alloc: Global,
    maps: &[Map],
    disks: Vec<MemDisk>,
    input: &str,
) -> (Came, Vec<MemDisk>) {
    let catalog = catalog_of(rt, alloc, b"m1", maps);
    let desk = desk_of(rt, alloc, TEXT, 100, NEVER);
    let (came, resources) = served_by(rt, alloc, catalog, disks, desk, input);
    (came, resources.disks)
}

// Disks with the files of these texts. From call `stop` on their calls fail, and the call `failing` fails.
fn disks_of(
    rt: &impl Abort,
    alloc: Global,
    files: &[&str],
    stop: Option<u64>,
    failing: u64,
) -> Vec<MemDisk> {
    let mut disks = Vec::new(alloc);
    for file in files {
        let file = words(rt, alloc, *file);
        disks
            .push(disk_of(rt, alloc, file, stop, failing))
            .expect(rt, "memory for disks");
    }
    disks
}

// The bytes of each disk.
fn bytes_on(rt: &impl Abort, alloc: Global, disks: &[MemDisk]) -> Vec<Vec<u8>> {
    let mut files = Vec::new(alloc);
    for disk in disks {
        let file = Vec::from_slice(alloc, disk.bytes()).expect(rt, "bytes");
        files.push(file).expect(rt, "a file");
    }
    files
}

// The files of these texts.
fn files_of(rt: &impl Abort, alloc: Global, texts: &[&str]) -> Vec<Vec<u8>> {
    let mut files = Vec::new(alloc);
    for text in texts {
        let file = words(rt, alloc, *text);
        files.push(file).expect(rt, "a file");
    }
    files
}

// Ends the test where disks don't have the files of these texts.
fn assert_files(rt: &impl Abort, alloc: Global, disks: &[MemDisk], texts: &[&str], row: &str) {
    let wanted = files_of(rt, alloc, texts);
    assert_same(rt, &bytes_on(rt, alloc, disks), &wanted, row);
}

// Maps, the files on their disks, the call of the disks that fails, and what is asked. What comes of it: the end, the
// replies, what is left of the input, and the files then.
struct Row {
    name: &'static str,
    maps: &'static [Map],
    files: &'static [&'static str],
    failing: u64,
    input: &'static str,
    end: Result<End, OpenFault>,
    output: &'static str,
    left: &'static str,
    after: &'static [&'static str],
}

fn try_row<R: RandomSource + Abort>(rt: &R, alloc: Global, row: &Row) {
    let disks = disks_of(rt, alloc, row.files, None, row.failing);
    let output = words(rt, alloc, row.output);
    let wanted = (row.end, output, words(rt, alloc, row.left));
    let (came, disks) = served(rt, alloc, row.maps, disks, row.input);
    assert_same(rt, &came, &wanted, row.name);
    assert_files(rt, alloc, &disks, row.after, row.name);
}

static MADE: Row = Row {
    name: "MATCH, MAKE, MATCH",
    maps: &[LAB],
    files: &[""],
    failing: NEVER,
    input: "8000004c 00000001 MATCH 80000034 00000002 MAKE 00000005 8000004c 00000003 MATCH",
    end: Ok(End::Clean),
    output: "\
        80000020 00000001 NO_MAP_OF 8000001c 00000002 MADE 00000001 80000030 00000003 VALUE_OF",
    left: "",
    after: &["HOSTS_FILE"],
};

#[test]
fn make_then_match(rt: HostRuntime) {
    try_row(&rt, rt.alloc(), &MADE);
}

static LISTED: Row = Row {
    name: "MAPLIST, MAKE, MAPLIST of both domains",
    maps: &[DEV, LAB],
    files: &["", ""],
    failing: NEVER,
    input: "\
        80000030 00000001 LIST 6c616200 80000034 00000002 MAKE 00000005 80000030 00000003 LIST \
        6c616200 80000030 00000004 LIST 64657600",
    end: Ok(End::Clean),
    output: "\
        80000020 00000001 NO_MAPS 8000001c 00000002 MADE 00000001 80000034 00000003 HOSTS_LISTED \
        80000020 00000004 NO_MAPS",
    left: "",
    after: &["", "HOSTS_FILE"],
};

#[test]
fn made_map_of_one_domain_is_listed(rt: HostRuntime) {
    try_row(&rt, rt.alloc(), &LISTED);
}

static DAMAGED_SECOND: Row = Row {
    name: "a damaged file",
    maps: &[LAB, DEV],
    files: &["HOSTS_FILE", "DAMAGED"],
    failing: NEVER,
    input: "8000004c 00000003 MATCH",
    end: Err(OpenFault::Refused {
        map: 1,
        fault: SlotFault::Damaged { at: 79, rule: 5 },
    }),
    output: "",
    left: "8000004c 00000003 MATCH",
    after: &["HOSTS_FILE", "DAMAGED"],
};

#[test]
fn damaged_disk_is_refused(rt: HostRuntime) {
    try_row(&rt, rt.alloc(), &DAMAGED_SECOND);
}

// Two calls of MAKE, with a call of MATCH before, between and behind them.
const TWICE: &str = "\
    8000004c 00000001 MATCH 80000034 00000002 MAKE 00000005 8000004c 00000003 MATCH 80000034 \
    00000004 MAKE 00000005 8000004c 00000005 MATCH";

// The replies where both succeed, where the first has FILE, where both have, and where the second has.
const BOTH: &str = "\
    80000020 00000001 NO_MAP_OF 8000001c 00000002 MADE 00000001 80000030 00000003 VALUE_OF \
    8000001c 00000004 MADE 00000001 80000030 00000005 VALUE_OF";

const SECOND: &str = "\
    80000020 00000001 NO_MAP_OF 8000001c 00000002 MADE fffffff7 80000020 00000003 NO_MAP_OF \
    8000001c 00000004 MADE 00000001 80000030 00000005 VALUE_OF";

const NEITHER: &str = "\
    80000020 00000001 NO_MAP_OF 8000001c 00000002 MADE fffffff7 80000020 00000003 NO_MAP_OF \
    8000001c 00000004 MADE fffffff7 80000020 00000005 NO_MAP_OF";

const FIRST: &str = "\
    80000020 00000001 NO_MAP_OF 8000001c 00000002 MADE 00000001 80000030 00000003 VALUE_OF \
    8000001c 00000004 MADE fffffff7 80000030 00000005 VALUE_OF";

// What is seen of two makings over an empty disk where a call from `first` to `last` fails: the replies, and the orders
// that its file may stand for after a crash, where none is 0.
struct Failing {
    first: u64,
    last: u64,
    output: &'static str,
    orders: &'static [u32],
}

// Compares the replies where this call fails.
fn assert_replied(rt: &impl Abort, came: &Came, output: &[u8], call: u64) {
    let (end, written, _) = came;
    let seen = (call, end, written.as_slice());
    assert_same(rt, &seen, &(call, &Ok(End::Clean), output), "replies");
}

// Compares the orders that a crash may leave then.
fn assert_orders<R: RandomSource + Abort>(
    rt: &R,
    alloc: Global,
    disk: &MemDisk,
    wanted: &Failing,
    call: u64,
) {
    for kept in 0..CRASHES {
        let order = order_left(rt, alloc, disk, kept);
        let seen = (call, order, wanted.orders.contains(&order));
        assert_same(rt, &seen, &(call, order, true), "order");
    }
}

// The opening at the start makes the disk calls 0 and 1. The first install makes both cells in four calls, writes the
// body and its entry, syncs, and writes and syncs the gate; the second finds the cells made and the other one closed.
// So they make the calls from 2 to 10 and from 11 to 15. After a failed first one the file is opened again in the
// second.
static ONCE_FAILING: [Failing; 5] = [
    Failing {
        first: 2,
        last: 9,
        output: SECOND,
        orders: &[100],
    },
    Failing {
        first: 10,
        last: 10,
        output: SECOND,
        orders: &[101],
    },
    Failing {
        first: 11,
        last: 14,
        output: FIRST,
        orders: &[100],
    },
    Failing {
        first: 15,
        last: 15,
        output: FIRST,
        orders: &[100, 101],
    },
    Failing {
        first: 16,
        last: 16,
        output: BOTH,
        orders: &[101],
    },
];

// Makes twice, where this call fails, and from call `stop` on all calls.
fn try_failing<R: RandomSource + Abort>(
    rt: &R,
    alloc: Global,
    wanted: &Failing,
    stop: Option<u64>,
    failing: u64,
) {
    let output = words(rt, alloc, wanted.output);
    let disks = disks_of(rt, alloc, &[""], stop, failing);
    let (came, disks) = served(rt, alloc, &[LAB], disks, TWICE);
    let call = stop.unwrap_or(failing);
    assert_replied(rt, &came, &output, call);
    for disk in &disks {
        assert_orders(rt, alloc, disk, wanted, call);
    }
}

fn try_once<R: RandomSource + Abort>(rt: &R, alloc: Global, wanted: &Failing) {
    for call in wanted.first..wanted.last.saturating_add(1) {
        try_failing(rt, alloc, wanted, None, call);
    }
}

#[test]
fn each_disk_call_fails_once(rt: HostRuntime) {
    for wanted in &ONCE_FAILING {
        try_once(&rt, rt.alloc(), wanted);
    }
}

static STOPPED: [Failing; 5] = [
    Failing {
        first: 2,
        last: 9,
        output: NEITHER,
        orders: &[0],
    },
    Failing {
        first: 10,
        last: 10,
        output: NEITHER,
        orders: &[0, 100],
    },
    Failing {
        first: 11,
        last: 14,
        output: FIRST,
        orders: &[100],
    },
    Failing {
        first: 15,
        last: 15,
        output: FIRST,
        orders: &[100, 101],
    },
    Failing {
        first: 16,
        last: 16,
        output: BOTH,
        orders: &[101],
    },
];

fn try_stopped<R: RandomSource + Abort>(rt: &R, alloc: Global, wanted: &Failing) {
    for call in wanted.first..wanted.last.saturating_add(1) {
        try_failing(rt, alloc, wanted, Some(call), NEVER);
    }
}

#[test]
fn disk_stops_at_each_call(rt: HostRuntime) {
    for wanted in &STOPPED {
        try_stopped(&rt, rt.alloc(), wanted);
    }
}

// The opening of an empty disk where a call fails.
static UNOPENED: [Row; 2] = [
    Row {
        name: "call 0 fails",
        maps: &[LAB],
        files: &[""],
        failing: 0,
        input: TWICE,
        end: Err(OpenFault::Refused {
            map: 0,
            fault: SlotFault::DiskFault,
        }),
        output: "",
        left: TWICE,
        after: &[""],
    },
    Row {
        name: "call 1 fails",
        maps: &[LAB],
        files: &[""],
        failing: 1,
        input: TWICE,
        end: Err(OpenFault::Refused {
            map: 0,
            fault: SlotFault::DiskFault,
        }),
        output: "",
        left: TWICE,
        after: &[""],
    },
];

#[test]
fn disk_that_is_not_opened(rt: HostRuntime) {
    for row in &UNOPENED {
        try_row(&rt, rt.alloc(), row);
    }
}
