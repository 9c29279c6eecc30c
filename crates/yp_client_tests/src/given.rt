//! What the tests share. A call of each takes no exit from its caller: an exit costs seconds to prove.

use std::alloc::Global;
use std::fmt::Debug;
use std::process::Abort;
use yp_client::ClientFault;
use yp_memory::MemDial;
use yp_version::Order;

/// The bytes of texts of hexadecimal words, as `8000004c 00000001`.
pub fn bytes<R: Abort>(rt: &R, alloc: Global, texts: &[&str]) -> Vec<u8> {
    yp_for_tests::bytes(alloc, texts).expect(rt, "hexadecimal words")
}

/// Ends the test where what came isn't what is wanted, and tells of which row.
pub fn assert_same<R: Abort, T: PartialEq + Debug>(rt: &R, came: &T, wanted: &T, row: &str) {
    assert!(rt; came == wanted, "{row}: {came:?} came, not {wanted:?}");
}

/// The number of an order that was told.
pub fn number(told: Result<Order, ClientFault>) -> Result<u32, ClientFault> {
    match told {
        Ok(order) => Ok(order.number()),
        Err(fault) => Err(fault),
    }
}

/// The numbers of calls that fail.
pub fn list<R: Abort>(rt: &R, alloc: Global, calls: &[u64]) -> Vec<u64> {
    Vec::from_slice(alloc, calls).expect(rt, "a list")
}

/// What was sent over the wires that were given back.
pub fn sent<R: Abort>(rt: &R, alloc: Global, dial: &MemDial) -> Vec<u8> {
    let mut sent = Vec::new(alloc);
    for wire in dial.past() {
        sent.extend_from_slice(wire.sink.taken())
            .expect(rt, "a copy");
    }
    sent
}
