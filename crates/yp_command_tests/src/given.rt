//! What the tests share.

use std::alloc::Global;
use std::fmt::Debug;
use std::process::Abort;
use std::random::RandomSource;
use std::sync::Wait;
use std::thread::Threads;
use std::time::Clock;
use yp_stage::{DiskCalls, Row, try_disk, try_row};

/// Runs rows, and ends the test at the first of which something else comes.
pub fn try_rows<R: Threads + Wait + RandomSource + Clock + Abort + Sync>(
    rt: &R,
    alloc: Global,
    rows: &[Row],
) {
    for row in rows {
        try_row(alloc, rt, row).expect(rt, row.name);
    }
}

/// The bytes of texts of hexadecimal words, as `8000004c 00000001`.
pub fn bytes<R: Abort>(rt: &R, alloc: Global, texts: &[&str]) -> Vec<u8> {
    yp_for_tests::bytes(alloc, texts).expect(rt, "hexadecimal words")
}

/// Ends the test where what came isn't what is wanted, and tells of which row.
pub fn assert_same<R: Abort, T: PartialEq + Debug>(rt: &R, came: &T, wanted: &T, row: &str) {
    assert!(rt; came == wanted, "{row}: {came:?} came, not {wanted:?}");
}

/// The same with calls of a disk that fail.
pub fn try_disks<R: Threads + Wait + RandomSource + Clock + Abort + Sync>(
    rt: &R,
    alloc: Global,
    disks: &[DiskCalls],
) {
    for calls in disks {
        try_disk(alloc, rt, calls).expect(rt, calls.row.name);
    }
}
