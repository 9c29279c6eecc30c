//! Disks in memory, what a crash leaves of them, and disks that stop.

use crate::given::{assert_same, bytes, listed, owned, sent};
use std::process::Abort;
use yp_io::{Disk, Failed};
use yp_memory::MemDisk;

// A write within the disk's length, up to a small place.
fn write(disk: &mut MemDisk, at: u64, piece: &[u8]) -> Result<(), Failed> {
    if at > disk.bytes().len() as u64 || at > 1000 || piece.len() > 1000 {
        return Err(Failed);
    }
    disk.write_at(at, piece)
}

// Three bytes from a place within the disk's length.
fn read_three(disk: &mut MemDisk, at: u64) -> Result<[u8; 3], Failed> {
    let mut buf = [0; 3];
    if at > 1000 || at + 3 > disk.bytes().len() as u64 {
        return Err(Failed);
    }
    disk.read(at, &mut buf)?;
    Ok(buf)
}

// What the writes below make of four bytes.
const WRITTEN: &str = "ff02aabb ccdddd ee";

// The writes that a crash keeps, as bits, and what it leaves.
const CRASHES: [(u64, &str); 6] = [
    (0, "0102aabb cc"),
    (1, "ff02aabb cc"),
    (2, "0102aabb ccdddd"),
    (4, "0102aabb cc0000 ee"),
    (7, "ff02aabb ccdddd ee"),
    (u64::MAX, "ff02aabb ccdddd ee"),
];

// Compares what calls answer in turn, what the disk has then, and what a crash leaves.
fn check_crash(rt: &impl Abort, disk: &mut MemDisk, kept: u64, written: &[u8], left: &[u8]) {
    let lens = [disk.len(), disk.len()];
    let synced = [write(disk, 2, b"\xaa\xbb\xcc"), disk.sync()];
    let writes = [
        write(disk, 0, b"\xff"),
        write(disk, 5, b"\xdd\xdd"),
        write(disk, 7, b"\xee"),
    ];
    let read = read_three(disk, 4);
    let crashed = disk.crashed(kept).expect(rt, "memory for a file");
    assert_same(
        rt,
        &(kept, lens, synced, writes, read),
        &(
            kept,
            [Ok(4), Err(Failed)],
            [Ok(()); 2],
            [Ok(()); 3],
            Ok([0xcc, 0xdd, 0xdd]),
        ),
        "the writes that are kept, and the answers",
    );
    assert_same(
        rt,
        &(kept, disk.bytes(), crashed.as_slice()),
        &(kept, written, left),
        "the writes that are kept, and the bytes",
    );
}

#[test]
fn disk_in_memory(rt: HostRuntime) {
    let alloc = rt.alloc();
    let written = bytes(&rt, alloc, &[WRITTEN]);
    for (kept, left) in &CRASHES {
        let left = bytes(&rt, alloc, &[*left]);
        let file = owned(&rt, alloc, b"\x01\x02\x03\x04");
        let failing = listed(&rt, alloc, &[1]);
        let mut disk = sent(MemDisk::new(alloc, file, None, failing));
        check_crash(&rt, &mut disk, *kept, &written, &left);
    }
}

// Up to which call a disk works, which call fails, how many of its calls are done, and what a crash leaves.
type Stop = (u64, u64, u32, &'static str);

const STOPS: [Stop; 5] = [
    (9, 9, 8, "03"),
    (0, 9, 0, ""),
    (3, 9, 3, "00"),
    (9, 3, 7, "03"),
    (9, 7, 7, "02"),
];

// Compares how many of four writes, each with its sync, succeed, and what a crash leaves of them.
fn check_stop(rt: &impl Abort, disk: &mut MemDisk, row: &Stop, wanted: &[u8]) {
    let mut done = 0u32;
    for byte in 0u8..4 {
        done = done.saturating_add(u32::from(write(disk, 0, &[byte]).is_ok()));
        done = done.saturating_add(u32::from(disk.sync().is_ok()));
    }
    let crashed = disk.crashed(0).expect(rt, "memory for a file");
    let (stop, failing, calls, _) = *row;
    assert_same(
        rt,
        &(stop, failing, done, crashed.as_slice()),
        &(stop, failing, calls, wanted),
        "the stop, the call that fails, those that are done, and the bytes",
    );
}

#[test]
fn disk_stops(rt: HostRuntime) {
    let alloc = rt.alloc();
    for row in &STOPS {
        let (stop, failing, _, left) = *row;
        let left = bytes(&rt, alloc, &[left]);
        let failing = listed(&rt, alloc, &[failing]);
        let mut disk = MemDisk::new(alloc, Vec::new(alloc), Some(stop), failing);
        check_stop(&rt, &mut disk, row, &left);
    }
}
