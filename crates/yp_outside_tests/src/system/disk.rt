//! Files as disks, over a system that does what a test wants.

ghost use Rattle.std.specs.Prelude.{None};
ghost use Rattle.yp_io.specs.Disk.{IsWithin};

use crate::given::assert_same;
use crate::system::scripted::{OneFile, Scripted};
use std::alloc::{AllocError, Global};
use std::cell::Cell;
use std::fs::{DirBuilder, File, OpenFile, OpenOptions};
use std::io::ErrorKind;
use std::os::unix::fs::{DirBuilderExt, FileExt, OpenOptionsExt};
use std::process::Abort;
use std::rt::Files;
use std::time::Clock;
use std::{fs, io};
use yp_io::{Disk, count_fault};
use yp_system::{FileDisk, Locking, MapFile};

// A file that is empty, and where syncs and locks are kept.
fn file<'a>(syncs: &'a Cell<u32>, failing: u32, locks: &'a Cell<u64>) -> Scripted<'a> {
    Scripted {
        len: Some(0),
        is_interrupted: true,
        bytes: 0,
        fault: Some(ErrorKind::Unsupported),
        syncs,
        failing,
        locks,
        is_lock: false,
    }
}

// A system with this file at each path.
fn system<'a>(file: Scripted<'a>, is_shut: &'a Cell<bool>) -> OneFile<'a> {
    OneFile {
        path: None,
        len: Some(0),
        file,
        is_shut,
    }
}

// Whether a write with a sync behind it succeeds.
fn sync_once<D: Disk>(disk: &mut D) -> bool
    requires { IsWithin 0 (D.history disk.old) }
{
    disk.write_at(0, b"version").is_ok() && disk.sync().is_ok()
}

// How three of them end, and how many faults are counted.
type Synced = ([bool; 3], u64);

fn sync_thrice(disk: &mut FileDisk<OneFile<'_>>) -> Synced {
    let synced = [sync_once(disk), sync_once(disk), sync_once(disk)];
    (synced, disk.faults())
}

fn stored(alloc: Global, system: OneFile<'_>) -> Option<Synced> {
    match FileDisk::new(alloc, system, b"lab", b"hosts.byname", Locking::FromStart) {
        Ok(mut disk) => Some(sync_thrice(&mut disk)),
        Err(AllocError) => None,
    }
}

// The sync that fails, and what comes of that. The first is of the file and three folders, each later one of the file
// alone.
static SYNCS: [(u32, Synced); 5] = [
    (0, ([false, false, false], 3)),
    (3, ([false, false, false], 3)),
    (4, ([true, false, false], 2)),
    (5, ([true, true, false], 1)),
    (6, ([true, true, true], 0)),
];

// More syncs than there are.
const ALL_SYNCED: u32 = 100;

fn try_sync<R: Abort>(rt: &R, alloc: Global, row: &(u32, Synced)) {
    let (failing, synced) = *row;
    let (syncs, locks, is_shut) = (Cell::new(0), Cell::new(0), Cell::new(false));
    let file = file(&syncs, failing, &locks);
    let came = (failing, stored(alloc, system(file, &is_shut)));
    assert_same(rt, &came, &(failing, Some(synced)), "the sync that fails");
}

#[test]
fn sync_that_failed_is_not_trusted_again(rt: HostRuntime) {
    for row in &SYNCS {
        try_sync(&rt, rt.alloc(), row);
    }
}

// Syncs while a folder can't be opened, and then where it can.
fn sync_shut(disk: &mut FileDisk<OneFile<'_>>, is_shut: &Cell<bool>) -> Synced {
    is_shut.set(true);
    let shut = sync_once(disk);
    is_shut.set(false);
    ([shut, sync_once(disk), sync_once(disk)], disk.faults())
}

fn stored_shut(alloc: Global, system: OneFile<'_>) -> Option<Synced> {
    match FileDisk::new(alloc, system, b"lab", b"hosts.byname", Locking::FromStart) {
        Ok(mut disk) => Some(sync_shut(&mut disk, system.is_shut)),
        Err(AllocError) => None,
    }
}

#[test]
fn folder_that_is_shut_is_tried_again(rt: HostRuntime) {
    let (syncs, locks, is_shut) = (Cell::new(0), Cell::new(0), Cell::new(false));
    let file = file(&syncs, ALL_SYNCED, &locks);
    let came = stored_shut(rt.alloc(), system(file, &is_shut));
    let wanted = Some(([false, true, true], 1));
    assert_same(&rt, &came, &wanted, "a folder that is shut at first");
}

// Whether a disk can be written that is read and released first. It is released then, too.
fn read_and_write(disk: &mut FileDisk<OneFile<'_>>) -> bool {
    let is_read = disk.sync().is_ok() && disk.len().is_ok();
    disk.release();
    let is_read_again = disk.len().is_ok();
    let is_written = sync_once(disk);
    disk.release();
    is_read && is_read_again && is_written
}

fn is_written(alloc: Global, system: OneFile<'_>, locking: Locking) -> Option<bool> {
    match FileDisk::new(alloc, system, b"lab", b"hosts.byname", locking) {
        Ok(mut disk) => Some(read_and_write(&mut disk)),
        Err(AllocError) => None,
    }
}

// When a map is kept by a program for itself, whether it can be written then, and the locks that are taken and given
// back, in their order. No folder is there before the first write.
static LOCKS: [(Locking, bool, u64); 4] = [
    (Locking::FromStart, true, 2_56),
    (Locking::FromReading, true, 464_256),
    (Locking::FromWriting, true, 1_2_56),
    (Locking::Never, false, 46_46),
];

fn try_locks<R: Abort>(rt: &R, alloc: Global, row: &(Locking, bool, u64)) {
    let (locking, can_write, taken) = *row;
    let (syncs, locks, is_shut) = (Cell::new(0), Cell::new(0), Cell::new(false));
    let file = file(&syncs, ALL_SYNCED, &locks);
    let written = is_written(alloc, system(file, &is_shut), locking);
    let came = (written, locks.get());
    assert_same(rt, &came, &(Some(can_write), taken), "locks");
}

#[test]
fn locks_of_writers_and_readers(rt: HostRuntime) {
    for row in &LOCKS {
        try_locks(&rt, rt.alloc(), row);
    }
}
