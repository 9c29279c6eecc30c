//! Transfers over wires and disks in memory.

ghost use Rattle.std.specs.Prelude.{◌≡◌, ◌≤◌};

use crate::given::{assert_same, bytes};
use crate::transfer::calls_back::assert_letter;
use crate::transfer::sample::{
    ALL_REPLY, FAIR, MASTER_REPLY, ORDER_REPLY, SECOND_REPLY, SKEWED_REPLY, dial, table,
};
use std::alloc::Global;
use std::process::Abort;
use std::random::RandomSource;
use yp_board::{Catalog, MapName, PlainBoard};
use yp_io::Peer;
use yp_memory::{MemDial, MemDisk};
use yp_publisher::{Installed, Publisher, open_publisher};
use yp_transfer::{AskedTransfer, Asker, Hosts, TransferRequest, XfrFault, transfer, transfer_for};
use yp_version::Order;

// The cells of a file of one version, at generation 1, and the second one of a file of two: the body behind the first.
const CELLS: &str = "01000000 00000000 00000000 00000001 00000000 00000040 00000000 00000034
    00000000 00000000 00000000 00000000 00000000 00000000 00000000 00000000";

const TWO_CELLS: &str = "01000000 00000000 00000000 00000001 00000000 00000040 00000000 00000034
    01000000 00000000 00000000 00000002 00000000 00000074 00000000 00000034";

// A body of 52 bytes: order 100, master `m1`, and the row `alpha`, `10.0.0.1 alpha`.
const BODY: &str = "00000001 00000064 00000002 6d310000 00000001 00000005 616c7068 61000000
    0000000e 31302e30 2e302e31 20616c70 68610000";

// The same, secure.
const SECURE_BODY: &str = "00000002 00000064 00000002 6d310000 00000001 00000005 616c7068 61000000
    0000000e 31302e30 2e302e31 20616c70 68610000";

const HOSTS_FILE: &[&str] = &[CELLS, BODY];

const SECURE_FILE: &[&str] = &[CELLS, SECURE_BODY];

type Maps = Publisher<MemDisk, PlainBoard>;

fn owned(rt: &impl Abort, alloc: Global, bytes: &[u8]) -> Vec<u8> {
    bytes.to_vec(alloc).expect(rt, "memory for bytes")
}

// The catalogue of a host that has `hosts.byname` of `lab`.
fn catalog(rt: &impl Abort, alloc: Global, own: &[u8]) -> Catalog {
    let (domain, map) = (owned(rt, alloc, b"lab"), owned(rt, alloc, b"hosts.byname"));
    let mut maps = Vec::new(alloc);
    maps.push(MapName { domain, map })
        .expect(rt, "memory for a name");
    Catalog::new(alloc, owned(rt, alloc, own), maps).expect(rt, "a catalogue")
}

// Ends the test where there aren't as many disks as maps.
fn assert_equal(rt: &impl Abort, disks: usize, maps: usize)
    ensures { disks ≡ maps }
{
    assert!(rt; disks == maps, "{disks} disks of {maps} maps");
}

// A publisher of a file on a host of this name, whose disk fails at some calls.
fn published<R: RandomSource + Abort>(
    rt: &R,
    alloc: Global,
    own: &[u8],
    file: &[&str],
    failing: &[u64],
) -> Maps {
    let failing = failing.to_vec(alloc).expect(rt, "memory for numbers");
    let mut disks = Vec::new(alloc);
    disks
        .push(MemDisk::new(alloc, bytes(rt, alloc, file), None, failing))
        .expect(rt, "memory for a disk");
    let catalog = catalog(rt, alloc, own);
    assert_equal(rt, disks.len(), catalog.len() as usize);
    open_publisher(alloc, rt, catalog, disks).expect(rt, "a publisher")
}

/// What came of a transfer: its result, and whether what is shown then is secure.
type Came = (Result<(u32, u64), XfrFault>, Option<bool>);

// How a map is transferred: whether it is forced, and its mark.
#[derive(Clone, Copy)]
struct Manner {
    force: bool,
    mark: Option<bool>,
}

const PLAINLY: Manner = Manner {
    force: false,
    mark: None,
};

const FORCEDLY: Manner = Manner {
    force: true,
    ..PLAINLY
};

// Transfers the map from `m1`.
fn transfer_over<R: RandomSource + Abort>(
    rt: &R,
    alloc: Global,
    maps: &mut Maps,
    dial: &mut MemDial,
    hosts: &Hosts,
    manner: Manner,
) -> Came {
    assert!(rt; 0 < maps.catalog().len());
    let request = TransferRequest {
        map: 0,
        source: b"m1",
        force: manner.force,
        mark: manner.mark,
    };
    let came = match transfer(alloc, rt, maps, dial, hosts, &request) {
        Ok(Installed { order, generation }) => Ok((order.number(), generation)),
        Err(fault) => Err(fault),
    };
    let secure = match maps.shown(0) {
        Some(version) => Some(version.secure()),
        None => None,
    };
    (came, secure)
}

// Ends the test where the file of the one disk isn't this one.
fn assert_left<R: Abort>(rt: &R, alloc: Global, maps: Maps, file: &[&str], row: &str) {
    let file = bytes(rt, alloc, file);
    let (disks, _board) = maps.into_parts();
    let left = match disks.as_slice() {
        [disk] => Some(disk.bytes()),
        _ => None,
    };
    assert_same(rt, &left, &Some(file.as_slice()), row);
}

/// A transfer: the own name, the file, the reply behind ORDER, MASTER and ALL, and how it is made. What comes of it:
/// its result; whether what is shown then is secure, and none where nothing is; and its file.
#[derive(Clone, Copy)]
struct Case {
    name: &'static str,
    own: &'static [u8],
    file: &'static [&'static str],
    last: &'static str,
    manner: Manner,
    result: Result<(u32, u64), XfrFault>,
    secure: Option<bool>,
    left: &'static [&'static str],
}

const FIRST: Case = Case {
    name: "an empty file",
    own: b"s1",
    file: &[],
    last: SECOND_REPLY,
    manner: PLAINLY,
    result: Ok((100, 1)),
    secure: Some(false),
    left: HOSTS_FILE,
};

// What the source sends, with this last reply.
fn replies<R: Abort>(rt: &R, alloc: Global, last: &str) -> Vec<u8> {
    bytes(rt, alloc, &[ORDER_REPLY, MASTER_REPLY, ALL_REPLY, last])
}

fn try_case<R: RandomSource + Abort>(rt: &R, alloc: Global, case: &Case) {
    let mut dial = dial(rt, alloc, replies(rt, alloc, case.last), &FAIR);
    let hosts = table(rt, alloc);
    let mut maps = published(rt, alloc, case.own, case.file, &[]);
    let came = transfer_over(rt, alloc, &mut maps, &mut dial, &hosts, case.manner);
    assert_same(rt, &came, &(case.result, case.secure), case.name);
    assert_left(rt, alloc, maps, case.left, case.name);
}

const SKEW: XfrFault = XfrFault::Skew {
    first: 100,
    second: 101,
};

const AGE: XfrFault = XfrFault::Age {
    shown: 100,
    offered: 100,
};

const FORCED: Case = Case {
    name: "forced",
    file: HOSTS_FILE,
    manner: FORCEDLY,
    result: Ok((100, 2)),
    left: &[TWO_CELLS, BODY, BODY],
    ..FIRST
};

const OVER_SECURE: Case = Case {
    name: "a secure one is shown",
    file: SECURE_FILE,
    secure: Some(true),
    left: &[TWO_CELLS, SECURE_BODY, SECURE_BODY],
    ..FORCED
};

static TRANSFERS: [Case; 8] = [
    FIRST,
    Case {
        name: "marked",
        manner: Manner {
            mark: Some(true),
            ..PLAINLY
        },
        secure: Some(true),
        left: SECURE_FILE,
        ..FIRST
    },
    Case {
        name: "skewed",
        last: SKEWED_REPLY,
        result: Err(SKEW),
        secure: None,
        left: &[],
        ..FIRST
    },
    Case {
        name: "the same order",
        file: HOSTS_FILE,
        result: Err(AGE),
        ..FIRST
    },
    FORCED,
    OVER_SECURE,
    Case {
        name: "plain",
        manner: Manner {
            mark: Some(false),
            ..FORCEDLY
        },
        secure: Some(false),
        left: &[TWO_CELLS, SECURE_BODY, BODY],
        ..OVER_SECURE
    },
    Case {
        name: "an own map",
        own: b"m1",
        result: Err(XfrFault::Refused),
        left: HOSTS_FILE,
        ..FORCED
    },
];

#[test]
fn transfers(rt: HostRuntime) {
    for case in &TRANSFERS {
        try_case(&rt, rt.alloc(), case);
    }
}

// The transfer into an empty file, where a call of the disk fails.
fn try_failing<R: RandomSource + Abort>(rt: &R, alloc: Global, call: u64) {
    let mut dial = dial(rt, alloc, replies(rt, alloc, SECOND_REPLY), &FAIR);
    let hosts = table(rt, alloc);
    let mut maps = published(rt, alloc, b"s1", &[], &[call]);
    let came = transfer_over(rt, alloc, &mut maps, &mut dial, &hosts, PLAINLY);
    assert_same(rt, &came, &(Err(XfrFault::File), None), "a disk that fails");
}

#[test]
fn failing_disk(rt: HostRuntime) {
    // The first two calls load the empty file; the install makes nine.
    for call in 2..11 {
        try_failing(&rt, rt.alloc(), call);
    }
}

const ASKER: Asker = Asker {
    addr: [10, 0, 0, 7],
    prog: 0x4000_0000,
    port: 834,
    transid: 9,
};

const PORT_834: Peer = Peer {
    addr: [10, 0, 0, 7],
    port: 834,
};

// The head of a call back, and its arguments: the transaction, and YPXFR_SUCC or YPXFR_SKEW.
const TOLD_SUCC: &str = "00000009 00000000 00000002 40000000 00000001 00000001
    00000000 00000000 00000000 00000000 00000009 00000001";

const TOLD_SKEW: &str = "00000009 00000000 00000002 40000000 00000001 00000001
    00000000 00000000 00000000 00000000 00000009 fffffff6";

/// A caller, the reply to the second ORDER, and where the letter goes that it gets, if it does, and its words.
type Caller = (
    &'static str,
    Asker,
    &'static str,
    Option<(Peer, &'static str)>,
);

static CALLERS: [Caller; 4] = [
    ("stored", ASKER, SECOND_REPLY, Some((PORT_834, TOLD_SUCC))),
    ("skewed", ASKER, SKEWED_REPLY, Some((PORT_834, TOLD_SKEW))),
    ("no program", Asker { prog: 0, ..ASKER }, SECOND_REPLY, None),
    (
        "port 65536",
        Asker {
            port: 65_536,
            ..ASKER
        },
        SECOND_REPLY,
        None,
    ),
];

fn try_caller<R: RandomSource + Abort>(rt: &R, alloc: Global, caller: &Caller) {
    let (name, asker, last, letter) = caller;
    let mut dial = dial(rt, alloc, replies(rt, alloc, *last), &FAIR);
    let hosts = table(rt, alloc);
    let mut maps = published(rt, alloc, b"s1", &[], &[]);
    assert!(rt; 0 < maps.catalog().len());
    let asked = AskedTransfer {
        map: 0,
        source: b"m1",
        asker: *asker,
    };
    transfer_for(alloc, rt, &mut maps, &mut dial, &hosts, &asked);
    assert_letter(rt, alloc, &dial, letter, *name);
}

#[test]
fn callers(rt: HostRuntime) {
    for caller in &CALLERS {
        try_caller(&rt, rt.alloc(), caller);
    }
}
