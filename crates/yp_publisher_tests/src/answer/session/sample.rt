//! Hosts, and sessions over wires in memory.

use crate::answer::sample::{board, shared};
use crate::answer::session::host::TestHost;
use crate::given::{assert_same, named};
use std::alloc::Global;
use std::process::Abort;
use std::sync::Arc;
use yp_answer::session::*;
use yp_io::{Pair, Peer, Source, Trail};
use yp_memory::{MemSink, MemSource, MemWire};
use yp_version::Version;

pub const PEER: Peer = Peer {
    addr: [127, 0, 0, 1],
    port: 700,
};

// The number of a call that is never reached.
pub const NEVER: u64 = u64::MAX;

// More records than any of these wires has.
pub const ENOUGH: u8 = 9;

// ---- words

// A name for each record. A call of the domain `d` stands for 52 bytes (DOMAIN) or 44 (NULL); NONACK, also of 52, is of
// the domain `e`, which isn't served, so that it has no reply. ALL is of the map `m`, and MATCH of `alpha` in
// passwd.byname, with the replies where there is no version and where the value is `alpha:1`. MAKE and MADE lack a kind
// and a status. MAKE_PASSWD makes passwd.byname by its name, and MAKE_M the map `m`, of which MATCH_M asks for
// `alpha:1`, with the reply where that has no value. The transfers are of the map `n`, which has no version, from the
// host `x`, with the transactions 9 and 11, and of the map `m`, of which the host is the master.
static NAMES: &str = "\
NULL = 80000028 00000001 00000000 00000002 000186a4 00000002 00000000 00000000 00000000 00000000 \
    00000000
NULL_REPLY = 80000018 00000001 00000001 00000000 00000000 00000000 00000000
DOMAIN = 80000030 00000002 00000000 00000002 000186a4 00000002 00000001 00000000 00000000 \
    00000000 00000000 00000001 64000000
DOMAIN_REPLY = 8000001c 00000002 00000001 00000000 00000000 00000000 00000000 00000001
NONACK = 80000030 00000003 00000000 00000002 000186a4 00000002 00000002 00000000 00000000 \
    00000000 00000000 00000001 65000000
ALL = 80000038 00000004 00000000 00000002 000186a4 00000002 00000008 00000000 00000000 00000000 \
    00000000 00000001 64000000 00000001 6d000000
MAKE = 80000034 00000002 00000000 00000002 20004e49 00000001 00000001 00000000 00000000 00000000 \
    00000000 00000001 64000000
MADE = 8000001c 00000002 00000001 00000000 00000000 00000000 00000000
MAKE_PASSWD = 80000044 00000002 00000000 00000002 20004e49 00000001 00000002 00000000 00000000 \
    00000000 00000000 00000001 64000000 0000000d 70617373 77642e62 796e616d 65000000
MAKE_M = 80000038 00000002 00000000 00000002 20004e49 00000001 00000002 00000000 00000000 00000000 \
    00000000 00000001 64000000 00000001 6d000000
MATCH_M = 80000044 00000001 00000000 00000002 000186a4 00000002 00000003 00000000 00000000 \
    00000000 00000000 00000001 64000000 00000001 6d000000 00000007 616c7068 613a3100
NO_VALUE = 80000020 00000001 00000001 00000000 00000000 00000000 00000000 00000001 00000000
MATCH = 80000050 00000001 00000000 00000002 000186a4 00000002 00000003 00000000 00000000 \
    00000000 00000000 00000001 64000000 0000000d 70617373 77642e62 796e616d 65000000 00000005 \
    616c7068 61000000
NO_MAP = 80000020 00000001 00000001 00000000 00000000 00000000 00000000 ffffffff 00000000
VALUE = 80000028 00000001 00000001 00000000 00000000 00000000 00000000 00000001 00000007 \
    616c7068 613a3100
FIRST_XFR = 80000050 00000005 00000000 00000002 000186a4 00000002 00000006 00000000 00000000 \
    00000000 00000000 00000001 64000000 00000001 6e000000 00000000 00000001 78000000 00000009 \
    40000000 00001b5a
FIRST_XFR_REPLY = 80000020 00000005 00000001 00000000 00000000 00000000 00000000 00000009 \
    00000001
SECOND_XFR = 80000050 00000006 00000000 00000002 000186a4 00000002 00000006 00000000 00000000 \
    00000000 00000000 00000001 64000000 00000001 6e000000 00000000 00000001 78000000 0000000b \
    40000000 00001b5a
SECOND_XFR_REPLY = 80000020 00000006 00000001 00000000 00000000 00000000 00000000 0000000b \
    00000001
OWN_XFR = 80000050 00000005 00000000 00000002 000186a4 00000002 00000006 00000000 00000000 \
    00000000 00000000 00000001 64000000 00000001 6d000000 00000000 00000001 78000000 00000009 \
    40000000 00001b5a
OWN_XFR_REPLY = 80000020 00000005 00000001 00000000 00000000 00000000 00000000 00000009 fffffff2
";

// The bytes of a text of these names and of other words.
pub fn words(rt: &impl Abort, alloc: Global, text: &str) -> Vec<u8> {
    named(rt, alloc, NAMES, text)
}

// ---- hosts

// A host of these maps, which shows these versions.
pub fn host_of(
    rt: &impl Abort,
    runtime: HostRuntime,
    alloc: Global,
    maps: &[(&[u8], &[u8])],
    start: Vec<Option<Arc<Version>>>,
) -> TestHost {
    TestHost {
        board: board(rt, alloc, maps, start),
        alloc,
        rt: runtime,
        makes: 0,
        files: 0,
        shown: false,
        transfers: 0,
        transactions: 0,
    }
}

// A host that shows this version of the map `m` of the domain `d`.
pub fn host_with(
    rt: &impl Abort,
    runtime: HostRuntime,
    alloc: Global,
    version: Version,
) -> TestHost {
    let start = vec![in alloc; Some(shared(rt, alloc, version))].expect(rt, "versions");
    host_of(rt, runtime, alloc, &[(b"d", b"m")], start)
}

// ---- sessions

// A wire with this input, whose sink takes at most 10 bytes in a write. These calls of its halves fail.
pub fn wire(rt: &impl Abort, alloc: Global, input: Vec<u8>, read: u64, write: u64) -> MemWire {
    let reads = vec![in alloc; read].expect(rt, "a number");
    let writes = vec![in alloc; write].expect(rt, "a number");
    Pair {
        source: MemSource::new(input, 1000, reads),
        sink: MemSink::new(alloc, 10, writes),
    }
}

// Numbers of calls of a wire that fail, of its source and of its sink, and the most records of a session over it.
pub struct Bounds {
    pub read: u64,
    pub write: u64,
    pub most: u8,
}

// What a host counted: the maps that were to be made, and those of them that had FILE, whether one was shown, the
// transfers that were carried out, and the sum of their transactions.
pub type Counts = (u64, u64, bool, u64, u64);

pub const NOTHING: Counts = (0, 0, false, 0, 0);

// A wire, what comes of a session over it, and what its host has counted then.
pub struct Row {
    pub name: &'static str,
    pub peer: Peer,
    pub input: &'static str,
    pub bounds: Bounds,
    pub end: End,
    pub calls: u64,
    // The bytes of the input that are left.
    pub left: usize,
    pub output: &'static str,
    pub counts: Counts,
}

// A session over a wire without a record.
pub const EMPTY: Row = Row {
    name: "no record",
    peer: PEER,
    input: "",
    bounds: UNBOUNDED,
    end: End::Clean,
    calls: 0,
    left: 0,
    output: "",
    counts: NOTHING,
};

pub const UNBOUNDED: Bounds = Bounds {
    read: NEVER,
    write: NEVER,
    most: ENOUGH,
};

// What came of a session: its end, how many records it read, how many bytes of the input are left, up to 1000, and what
// it wrote.
pub type Came = (End, u64, usize, Vec<u8>);

// What comes over a wire, from whom, and the bounds of it.
pub struct Incoming<'a> {
    pub peer: Peer,
    pub input: Vec<u8>,
    pub bounds: &'a Bounds,
}

// Runs a session over a wire.
pub fn run(
    rt: &impl Abort,
    alloc: Global,
    session: &mut Session,
    host: &mut TestHost,
    incoming: Incoming<'_>,
) -> Came {
    let Incoming {
        peer,
        input,
        bounds,
    } = incoming;
    let mut wire = wire(rt, alloc, input, bounds.read, bounds.write);
    let mut trail = Trail::new();
    let end = session.run(&mut wire, host, peer, u64::from(bounds.most), &mut trail);
    let left = wire.source.read(&mut [0; 1000]).expect(rt, "a read");
    let output = Vec::from_slice(alloc, wire.sink.taken()).expect(rt, "bytes");
    (end, session.calls(), left, output)
}

fn counts(host: &TestHost) -> Counts {
    (
        host.makes,
        host.files,
        host.shown,
        host.transfers,
        host.transactions,
    )
}

fn try_row(rt: &impl Abort, alloc: Global, session: &mut Session, host: &mut TestHost, row: &Row) {
    let input = words(rt, alloc, row.input);
    let output = words(rt, alloc, row.output);
    let incoming = Incoming {
        peer: row.peer,
        input,
        bounds: &row.bounds,
    };
    let came = run(rt, alloc, session, host, incoming);
    let wanted = (row.end, row.calls, row.left, output);
    assert_same(rt, &came, &wanted, row.name);
    assert_same(rt, &counts(host), &row.counts, row.name);
}

// Runs one session over the wires of rows in turn, and compares what comes of each.
pub fn try_rows(rt: &impl Abort, alloc: Global, host: TestHost, rows: &[Row]) {
    let mut session = Session::new(alloc).expect(rt, "a session");
    let mut host = host;
    for row in rows {
        try_row(rt, alloc, &mut session, &mut host, row);
    }
}
