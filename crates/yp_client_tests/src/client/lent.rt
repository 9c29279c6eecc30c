//! What calls are lent: a client over a wire in memory, and a builder.

ghost use Rattle.std.specs.Prelude.{◌<◌};

use crate::given::{assert_same, bytes};
use std::alloc::Global;
use std::process::Abort;
use std::random::RandomSource;
use yp_client::Client;
use yp_io::Pair;
use yp_memory::{MemSink, MemSource, MemWire};
use yp_version::{Order, VersionBuilder};

/// A client over a wire in memory.
pub type MemClient = Client<MemSource, MemSink>;

/// A client over this wire, whose first call has this number.
pub fn client_over<R: Abort>(rt: &R, alloc: Global, wire: MemWire, xid: u32) -> MemClient {
    Client::new(alloc, wire, xid).ok().expect(rt, "a client")
}

/// A client over a wire with this input, of which a read gives at most so many bytes. Its first call is 8.
pub fn client<R: Abort>(rt: &R, alloc: Global, input: Vec<u8>, piece: usize) -> MemClient
    requires { 0 < piece }
{
    let wire = Pair {
        source: MemSource::new(input, piece, Vec::new(alloc)),
        sink: MemSink::new(alloc, 4096, Vec::new(alloc)),
    };
    client_over(rt, alloc, wire, 8)
}

/// A builder of order 7 of the master `m1`.
pub fn builder<R: RandomSource + Abort>(rt: &R, alloc: Global) -> VersionBuilder {
    VersionBuilder::new(alloc, rt, Order(7), b"m1").expect(rt, "a builder")
}

/// Lends a client over a wire with this input, and a builder.
pub fn with_builder<
    R: RandomSource + Abort,
    T: Drop,
    F: FnOnce(&mut MemClient, &mut VersionBuilder) -> T,
>(rt: &R, alloc: Global, input: Vec<u8>, piece: usize, calls: F) -> T
    requires piece { 0 < piece }
    requires calls { F.IsAlwaysCallable calls }
{
    let mut client = client(rt, alloc, input, piece);
    let mut into = builder(rt, alloc);
    calls(&mut client, &mut into)
}

/// Ends the test where a client didn't send these calls.
pub fn assert_sent<R: Abort>(rt: &R, alloc: Global, client: MemClient, calls: &str, row: &str) {
    let calls = bytes(rt, alloc, &[calls]);
    let wire = client.into_wire();
    assert_same(rt, &wire.sink.taken(), &calls.as_slice(), row);
}
