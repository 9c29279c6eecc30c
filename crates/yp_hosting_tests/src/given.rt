//! What the tests share.

use std::alloc::Global;
use std::process::Abort;
use std::random::RandomSource;
use std::sync::Wait;
use std::thread::Threads;
use std::time::Clock;
use yp_stage::{After, DiskCalls, Row, try_alone, try_crash, try_disk, try_row, try_stops};

/// Runs rows, and ends the test at the first of which something else comes. Where rows are given for behind a crash,
/// each file that one may leave has to stand for one of theirs, and that row is run over it.
pub fn try_rows_after<R: Threads + Wait + RandomSource + Clock + Abort + Sync>(
    rt: &R,
    alloc: Global,
    rows: &[Row],
    after: &[After],
) {
    for row in rows {
        try_crash(alloc, rt, row, after).expect(rt, row.name);
    }
}

/// Runs a row for each call of the disk, which fails alone.
pub fn try_each<R: Threads + Wait + RandomSource + Clock + Abort + Sync>(
    rt: &R,
    alloc: Global,
    disks: &[DiskCalls],
) {
    for calls in disks {
        try_alone(alloc, rt, calls).expect(rt, calls.row.name);
    }
}

/// Runs a row for each call of the disk, which fails, and all behind it do.
pub fn try_all<R: Threads + Wait + RandomSource + Clock + Abort + Sync>(
    rt: &R,
    alloc: Global,
    disks: &[DiskCalls],
) {
    for calls in disks {
        try_stops(alloc, rt, calls).expect(rt, calls.row.name);
    }
}

/// Runs rows, and ends the test at the first of which something else comes.
pub fn try_rows<R: Threads + Wait + RandomSource + Clock + Abort + Sync>(
    rt: &R,
    alloc: Global,
    rows: &[Row],
) {
    for row in rows {
        try_row(alloc, rt, row).expect(rt, row.name);
    }
}

/// The same with calls of a disk that fail.
pub fn try_disks<R: Threads + Wait + RandomSource + Clock + Abort + Sync>(
    rt: &R,
    alloc: Global,
    disks: &[DiskCalls],
) {
    for calls in disks {
        try_disk(alloc, rt, calls).expect(rt, calls.row.name);
    }
}
