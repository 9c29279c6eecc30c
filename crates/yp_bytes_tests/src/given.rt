//! What the tests share. A call of each takes no exit from its caller: an exit costs seconds to prove.

use std::alloc::Global;
use std::fmt::{Debug, Display};
use std::process::Abort;
use yp_io::{Letter, Peer};

/// The bytes of texts of hexadecimal words, as `8000004c 00000001`.
pub fn bytes<R: Abort>(rt: &R, alloc: Global, texts: &[&str]) -> Vec<u8> {
    yp_for_tests::bytes(alloc, texts).expect(rt, "hexadecimal words")
}

/// Ends the test where what came isn't what is wanted, and tells of which row.
pub fn assert_same<R: Abort, T: PartialEq + Debug>(rt: &R, came: &T, wanted: &T, row: &str) {
    assert!(rt; came == wanted, "{row}: {came:?} came, not {wanted:?}");
}

/// Ends the test where a value isn't shown as this text.
pub fn assert_shown<R: Abort, T: Display>(rt: &R, alloc: Global, value: &T, text: &str) {
    let shown = format!(in alloc; "{value}").expect(rt, "a text");
    assert_same(rt, &shown.as_str(), &text, text);
}

// The numbers of calls that fail.
pub fn listed(rt: &impl Abort, alloc: Global, calls: &[u64]) -> Vec<u64> {
    calls.to_vec(alloc).expect(rt, "memory for numbers")
}

/// A letter of so many bytes, each of them this one.
pub fn letter<R: Abort>(rt: &R, alloc: Global, peer: Peer, byte: u8, len: usize) -> Letter {
    Letter {
        peer,
        bytes: vec![in alloc; byte; len].expect(rt, "memory for a letter"),
    }
}
