//! Calls, replies and files, written out by hand from RFC 5531 sections 9 and 11, yp.x and docs/FORMATS.md, and what
//! hosts and connections are made of.

ghost use Rattle.yp_memory.specs.inside.MemDial.{WireIsNew};

use crate::given::{NEVER, named};
use std::alloc::Global;
use std::process::Abort;
use std::random::RandomSource;
use yp_board::Catalog;
pub use yp_for_server_tests::{LAB, Map, sound_disk};
use yp_host::Desk;
use yp_io::{Pair, Peer, Sending};
use yp_map_file::Slot;
use yp_memory::{MemDial, MemDisk, MemSink, MemSource, MemTexts, MemWire, SetClock};
use yp_transfer::Hosts;

// Names of words of calls, replies and files.
//
// MATCH is of `alpha` in hosts.byname of `lab`, behind its transaction, as all calls and replies here. A secure map has
// YPERR for callers at ports from 1024 on. MATCH_ADDR is of `alpha` in the map `addr` of `lab`, which has the name
// ADDR_NAME. MAKE is of `lab`, up to the kind, NAMED up to the map, MADE up to the status. LIST is MAPLIST up to the
// domain, `lab` or `dev`. XFR is of hosts.byname in `lab` from `m1`, up to how to call back, and TAKEN its reply.
//
// A file of 116 bytes has two cells, the first of them at generation 1 or at the last one, and a body: its format, its
// order 100 or the last one, master `m1` and the row `alpha`, `10.0.0.1 alpha`. The damaged one has 1 in the padding of
// its master, which is at 79.
//
// What is told is the transaction 9 of the program 0x40000000 at port 7002, or of no program, or at a port that is
// none; CALL_BACK is what is posted of it up to its status. A source sends order 100, master `m1` and the row `alpha`,
// and then the order 100 or 101.
static NAMES: &str = "\
MATCH = 00000000 00000002 000186a4 00000002 00000003 00000000 00000000 00000000 00000000 \
    00000003 6c616200 0000000c 686f7374 732e6279 6e616d65 00000005 616c7068 61000000
MATCH_ADDR = 00000000 00000002 000186a4 00000002 00000003 00000000 00000000 00000000 00000000 \
    00000003 6c616200 00000004 61646472 00000005 616c7068 61000000
VALUE_OF = 00000001 00000000 00000000 00000000 00000000 00000001 0000000e 31302e30 2e302e31 \
    20616c70 68610000
NO_MAP_OF = 00000001 00000000 00000000 00000000 00000000 ffffffff 00000000
YPERR_OF = 00000001 00000000 00000000 00000000 00000000 fffffffa 00000000
MAKE = 00000000 00000002 20004e49 00000001 00000001 00000000 00000000 00000000 00000000 00000003 \
    6c616200
NAMED = 00000000 00000002 20004e49 00000001 00000002 00000000 00000000 00000000 00000000 00000003 \
    6c616200
HOSTS_NAME = 0000000c 686f7374 732e6279 6e616d65
ADDR_NAME = 00000004 61646472
MADE = 00000001 00000000 00000000 00000000 00000000
HOSTS_FILE = 01000000 00000000 00000000 00000001 00000000 00000040 00000000 00000034 00000000 \
    00000000 00000000 00000000 00000000 00000000 00000000 00000000 00000001 00000064 00000002 \
    6d310000 00000001 00000005 616c7068 61000000 0000000e 31302e30 2e302e31 20616c70 68610000
SECURE_FILE = 01000000 00000000 00000000 00000001 00000000 00000040 00000000 00000034 00000000 \
    00000000 00000000 00000000 00000000 00000000 00000000 00000000 00000002 00000064 00000002 \
    6d310000 00000001 00000005 616c7068 61000000 0000000e 31302e30 2e302e31 20616c70 68610000
LAST_ORDER = 01000000 00000000 00000000 00000001 00000000 00000040 00000000 00000034 00000000 \
    00000000 00000000 00000000 00000000 00000000 00000000 00000000 00000001 ffffffff 00000002 \
    6d310000 00000001 00000005 616c7068 61000000 0000000e 31302e30 2e302e31 20616c70 68610000
LAST_GENERATION = 01000000 00000000 ffffffff ffffffff 00000000 00000040 00000000 00000034 \
    00000000 00000000 00000000 00000000 00000000 00000000 00000000 00000000 00000001 00000064 \
    00000002 6d310000 00000001 00000005 616c7068 61000000 0000000e 31302e30 2e302e31 20616c70 \
    68610000
DAMAGED = 01000000 00000000 00000000 00000001 00000000 00000040 00000000 00000034 00000000 \
    00000000 00000000 00000000 00000000 00000000 00000000 00000000 00000001 00000064 00000002 \
    6d310001 00000001 00000005 616c7068 61000000 0000000e 31302e30 2e302e31 20616c70 68610000
LIST = 00000000 00000002 000186a4 00000002 0000000b 00000000 00000000 00000000 00000000 00000003
NO_MAPS = 00000001 00000000 00000000 00000000 00000000 00000001 00000000
HOSTS_LISTED = 00000001 00000000 00000000 00000000 00000000 00000001 00000001 0000000c 686f7374 \
    732e6279 6e616d65 00000000
XFR = 00000000 00000002 000186a4 00000002 00000006 00000000 00000000 00000000 00000000 00000003 \
    6c616200 0000000c 686f7374 732e6279 6e616d65 00000000 00000002 6d310000
TOLD_AT_7002 = 00000009 40000000 00001b5a
NO_PROGRAM = 00000009 00000000 00001b5a
PORT_65536 = 00000009 40000000 00010000
TAKEN = 00000001 00000000 00000000 00000000 00000000 00000009 00000001
CALL_BACK = 00000009 00000000 00000002 40000000 00000001 00000001 00000000 00000000 00000000 \
    00000000 00000009
SUCC = 00000001
SKEW = fffffff6
MADDR = fffffffb
ORDER_MASTER_ALL = 80000020 00000001 00000001 00000000 00000000 00000000 00000000 00000001 \
    00000064 80000024 00000002 00000001 00000000 00000000 00000000 00000000 00000001 00000002 \
    6d310000 80000044 00000003 00000001 00000000 00000000 00000000 00000000 00000001 00000001 \
    0000000e 31302e30 2e302e31 20616c70 68610000 00000005 616c7068 61000000 00000000
ORDER_100 = 80000020 00000004 00000001 00000000 00000000 00000000 00000000 00000001 00000064
ORDER_101 = 80000020 00000004 00000001 00000000 00000000 00000000 00000000 00000001 00000065
";

// The bytes of a text of these names and of other words.
pub fn words(rt: &impl Abort, alloc: Global, text: &str) -> Vec<u8> {
    named(rt, alloc, NAMES, text)
}

pub const TEXT: &[u8] = b"10.0.0.1 alpha\n";

pub const OWN_HOST: Peer = Peer {
    addr: [127, 0, 0, 1],
    port: 40000,
};

// What a host makes maps of, and fetches them by.
pub type MemDesk = Desk<MemDial, MemTexts, SetClock>;

pub const DEV: Map = (b"dev", b"hosts.byname");

pub const ADDR: Map = (b"lab", b"addr");

fn owned(rt: &impl Abort, alloc: Global, bytes: &[u8]) -> Vec<u8> {
    Vec::from_slice(alloc, bytes).expect(rt, "bytes")
}

// A catalogue of these maps.
pub fn catalog_of(rt: &impl Abort, alloc: Global, own: &[u8], maps: &[Map]) -> Catalog {
    yp_for_server_tests::catalog_of(alloc, own, maps).expect(rt, "a catalogue")
}

// What a file stands for: the order of its version and whether that is secure, and its generation.
pub type Stored = (Option<(u32, bool)>, u64);

fn load_stored(
    rt: &impl Abort,
    random: &impl RandomSource,
    alloc: Global,
    slot: &mut Slot<MemDisk>,
) -> Stored {
    let shown = match slot.load(alloc, random).expect(rt, "a file") {
        Some(version) => Some((version.order().number(), version.secure())),
        None => None,
    };
    (shown, slot.generation())
}

// What the file of a disk stands for.
pub fn stored_on(
    rt: &impl Abort,
    random: &impl RandomSource,
    alloc: Global,
    disk: MemDisk,
) -> Stored {
    let mut slot = Slot::new(disk);
    load_stored(rt, random, alloc, &mut slot)
}

// One text, with its name. The read with this number fails.
fn texts_of(rt: &impl Abort, alloc: Global, name: &[u8], text: &[u8], failing: u64) -> MemTexts {
    yp_for_server_tests::texts_of(alloc, name, text, failing).expect(rt, "a text")
}

// A desk with this text of hosts, at a moment. The read of it with this number fails.
pub fn desk_of(rt: &impl Abort, alloc: Global, text: &[u8], moment: u32, failing: u64) -> MemDesk {
    desk_with(rt, alloc, b"hosts", text, moment, failing)
}

// A desk with the text of this name, at a moment. The read of it with this number fails.
pub fn desk_with(
    rt: &impl Abort,
    alloc: Global,
    name: &[u8],
    text: &[u8],
    moment: u32,
    failing: u64,
) -> MemDesk {
    Desk {
        dial: MemDial::new(alloc, Vec::new(alloc), Vec::new(alloc)),
        hosts: Hosts::new(alloc),
        texts: texts_of(rt, alloc, name, text, failing),
        clock: SetClock { moment },
    }
}

// A wire with this input.
pub fn wire_of(alloc: Global, input: Vec<u8>) -> MemWire
    ensures { WireIsNew result }
{
    Pair {
        source: MemSource::new(input, 1000, Vec::new(alloc)),
        sink: MemSink::new(alloc, 1000, Vec::new(alloc)),
    }
}

// What was written to a wire.
pub fn output_of(rt: &impl Abort, alloc: Global, wire: &MemWire) -> Vec<u8> {
    owned(rt, alloc, wire.sink.taken())
}

// A dial with one wire, which has this input. The call of it with this number fails.
fn dial_of(rt: &impl Abort, alloc: Global, input: Vec<u8>, refused: u64) -> MemDial {
    let mut wires = Vec::new(alloc);
    wires.push(wire_of(alloc, input)).expect(rt, "a wire");
    let refused = vec![in alloc; refused].expect(rt, "a number");
    MemDial::new(alloc, wires, refused)
}

// Where the host is whose address a desk has.
const SOURCE: Peer = Peer {
    addr: [127, 0, 0, 1],
    port: 7_001,
};

// A table with this host.
fn hosts_of(rt: &impl Abort, alloc: Global, host: &[u8]) -> Hosts {
    let mut hosts = Hosts::new(alloc);
    hosts
        .add(owned(rt, alloc, host), SOURCE)
        .expect(rt, "a host");
    hosts
}

// A desk with an empty text of hosts, at the moment 100, which has the address of one host. Its dial has one wire, with
// this input, and the call of it with this number fails.
pub fn fetching_desk(
    rt: &impl Abort,
    alloc: Global,
    host: &[u8],
    input: Vec<u8>,
    refused: u64,
) -> MemDesk {
    Desk {
        dial: dial_of(rt, alloc, input, refused),
        hosts: hosts_of(rt, alloc, host),
        texts: texts_of(rt, alloc, b"hosts", b"", NEVER),
        clock: SetClock { moment: 100 },
    }
}

// The program that a transfer is told to.
pub const PROGRAM: Peer = Peer {
    addr: [127, 0, 0, 1],
    port: 7_002,
};

// What was posted: to whom, and the bytes.
pub type Posted = Vec<(Peer, Vec<u8>)>;

pub fn posted_by(rt: &impl Abort, alloc: Global, dial: &MemDial) -> Posted {
    let mut posted = Vec::new(alloc);
    for sending in dial.letters() {
        if let Sending::Posted { letter } = sending {
            let bytes = owned(rt, alloc, &letter.bytes);
            posted.push((letter.peer, bytes)).expect(rt, "a letter");
        }
    }
    posted
}
