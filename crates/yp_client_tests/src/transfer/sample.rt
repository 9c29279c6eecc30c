//! The source of the tests of fetches, what it sends, and a dial that reaches it.

use crate::given::list;
use std::alloc::Global;
use std::process::Abort;
use yp_io::{Pair, Peer};
use yp_memory::{MemDial, MemSink, MemSource};
use yp_transfer::Hosts;

/// The source of the tests, and its table.
pub const SOURCE: Peer = Peer {
    addr: [127, 0, 0, 1],
    port: 7001,
};

/// A table with the host `m1`.
pub fn table<R: Abort>(rt: &R, alloc: Global) -> Hosts {
    let mut hosts = Hosts::new(alloc);
    let name = b"m1".to_vec(alloc).expect(rt, "a name");
    hosts.add(name, SOURCE).expect(rt, "a table");
    hosts
}

/// The calls that fail, counted from 0: of the dial, and of the source and the sink of its wire.
#[derive(Clone, Copy)]
pub struct Weather<'a> {
    pub dials: &'a [u64],
    pub reads: &'a [u64],
    pub writes: &'a [u64],
}

/// Nothing fails.
pub const FAIR: Weather<'static> = Weather {
    dials: &[],
    reads: &[],
    writes: &[],
};

/// A dial of one wire with this input, which is read in pieces of up to 64 bytes.
pub fn dial<R: Abort>(rt: &R, alloc: Global, input: Vec<u8>, weather: &Weather<'_>) -> MemDial {
    let reads = list(rt, alloc, weather.reads);
    let writes = list(rt, alloc, weather.writes);
    let dials = list(rt, alloc, weather.dials);
    let mut wires = Vec::new(alloc);
    wires
        .push(Pair {
            source: MemSource::new(input, 64, reads),
            sink: MemSink::new(alloc, 48, writes),
        })
        .expect(rt, "a list of one wire");
    MemDial::new(alloc, wires, dials)
}

/// The calls ORDER, MASTER, ALL and ORDER for `hosts.byname` in `lab`.
pub const CALLS: [&str; 4] = [
    "80000040 00000001 00000000 00000002 000186a4 00000002 0000000a 00000000 00000000 \
    00000000 00000000 00000003 6c616200 0000000c 686f7374 732e6279 6e616d65",
    "80000040 00000002 00000000 00000002 000186a4 00000002 00000009 00000000 00000000 \
    00000000 00000000 00000003 6c616200 0000000c 686f7374 732e6279 6e616d65",
    "80000040 00000003 00000000 00000002 000186a4 00000002 00000008 00000000 00000000 \
    00000000 00000000 00000003 6c616200 0000000c 686f7374 732e6279 6e616d65",
    "80000040 00000004 00000000 00000002 000186a4 00000002 0000000a 00000000 00000000 \
    00000000 00000000 00000003 6c616200 0000000c 686f7374 732e6279 6e616d65",
];

/// Replies to them: order 100, master `m1`, the row `alpha`, and order 100 again.
pub const ORDER_REPLY: &str =
    "80000020 00000001 00000001 00000000 00000000 00000000 00000000 00000001 00000064";

pub const MASTER_REPLY: &str =
    "80000024 00000002 00000001 00000000 00000000 00000000 00000000 00000001 00000002 6d310000";

pub const ALL_REPLY: &str = "80000044 00000003 00000001 00000000 00000000 00000000 00000000 \
    00000001 00000001 0000000e 31302e30 2e302e31 20616c70 68610000 00000005 616c7068 61000000 00000000";

pub const SECOND_REPLY: &str =
    "80000020 00000004 00000001 00000000 00000000 00000000 00000000 00000001 00000064";

/// The second order is 101.
pub const SKEWED_REPLY: &str =
    "80000020 00000004 00000001 00000000 00000000 00000000 00000000 00000001 00000065";
