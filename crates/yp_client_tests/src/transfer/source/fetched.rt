//! A fetch over a wire in memory, which gives the replies of a server.

ghost use Rattle.std.specs.Prelude.{◌≡◌, false};

use crate::given::{assert_same, bytes};
use crate::transfer::source::told::fetch_from_server;
use std::alloc::Global;
use std::process::Abort;
use std::random::RandomSource;
use yp_client::Client;
use yp_io::Pair;
use yp_memory::{MemSink, MemSource};
use yp_transfer::{FetchRequest, XfrFault};

// What a server replies to ORDER, MASTER, ALL and ORDER, where it shows order 100 of the master `m1` and the row
// `alpha`.
const REPLIES: [&str; 4] = [
    "80000020 00000001 00000001 00000000 00000000 00000000 00000000 00000001 00000064",
    "80000024 00000002 00000001 00000000 00000000 00000000 00000000 00000001 00000002 6d310000",
    "80000044 00000003 00000001 00000000 00000000 00000000 00000000 \
    00000001 00000001 0000000e 31302e30 2e302e31 20616c70 68610000 00000005 616c7068 61000000 00000000",
    "80000020 00000004 00000001 00000000 00000000 00000000 00000000 00000001 00000064",
];

// The order and the number of rows.
fn fetch_over<R: RandomSource + Abort>(
    rt: &R,
    alloc: Global,
    input: Vec<u8>,
) -> Result<(u32, usize), XfrFault> {
    let wire = Pair {
        source: MemSource::new(input, 9, Vec::new(alloc)),
        sink: MemSink::new(alloc, 16, Vec::new(alloc)),
    };
    let mut client = Client::new(alloc, wire, 1).ok().expect(rt, "a client");
    let request = FetchRequest {
        domain: b"lab",
        map: b"hosts.byname",
        shown: None,
        force: false,
    };
    let fetched = fetch_from_server(alloc, rt, &mut client, &request);
    match fetched {
        Ok(version) => Ok((version.order().number(), version.len())),
        Err(fault) => Err(fault),
    }
}

#[test]
fn fetched_from_a_server(rt: HostRuntime) {
    let alloc = rt.alloc();
    let came = fetch_over(&rt, alloc, bytes(&rt, alloc, &REPLIES));
    assert_same(&rt, &came, &Ok((100, 1)), "a server's replies");
}
