//! What the tests share. A call of each takes no exit from its caller: an exit costs seconds to prove.

ghost use Rattle.std.specs.Prelude.{◌≡◌};

use std::alloc::Global;
use std::fmt::Debug;
use std::process::Abort;
use yp_io::{Failed, Source};

/// The bytes of texts of hexadecimal words, as `8000004c 00000001`.
pub fn bytes<R: Abort>(rt: &R, alloc: Global, texts: &[&str]) -> Vec<u8> {
    yp_for_tests::bytes(alloc, texts).expect(rt, "hexadecimal words")
}

/// Ends the test where what came isn't what is wanted, and tells of which row.
pub fn assert_same<R: Abort, T: PartialEq + Debug>(rt: &R, came: &T, wanted: &T, row: &str) {
    assert!(rt; came == wanted, "{row}: {came:?} came, not {wanted:?}");
}

// Bytes of its own.
pub fn owned(rt: &impl Abort, alloc: Global, bytes: &[u8]) -> Vec<u8> {
    bytes.to_vec(alloc).expect(rt, "memory for bytes")
}

// The numbers of calls that fail.
pub fn listed(rt: &impl Abort, alloc: Global, calls: &[u64]) -> Vec<u64> {
    calls.to_vec(alloc).expect(rt, "memory for numbers")
}

// A value that a thread may be given.
pub fn sent<T: Send>(value: T) -> T
    ensures { result ≡ value }
{
    value
}

// The answer to a read into a buffer of two bytes, and the buffer after it.
pub type Read = (Result<usize, Failed>, [u8; 2]);

pub fn read_two<S: Source>(source: &mut S) -> Read {
    let mut buf = [0; 2];
    let answer = source.read(&mut buf);
    (answer, buf)
}
