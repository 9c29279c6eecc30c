//! Files by their bytes, and what is left of them when the disk stops.

use crate::given::{assert_same, bytes};
use std::alloc::Global;
use std::process::Abort;
use std::random::RandomSource;
use yp_map_file::*;
use yp_memory::MemDisk;
use yp_version::{Order, Version, VersionBuilder};

// A file of 116 bytes: order 100, master `m1`, and the row `alpha`, `10.0.0.1 alpha`, at generation 1.
const HOSTS_FILE: &str = "01000000 00000000 00000000 00000001 00000000 00000040 00000000 00000034
    00000000 00000000 00000000 00000000 00000000 00000000 00000000 00000000
    00000001 00000064 00000002 6d310000 00000001 00000005 616c7068 61000000
    0000000e 31302e30 2e302e31 20616c70 68610000";

// The same with orders 101 behind it and then 102 in its place.
const THIRD_FILE: &str = "01000000 00000000 00000000 00000003 00000000 00000040 00000000 00000034
    01000000 00000000 00000000 00000002 00000000 00000074 00000000 00000034
    00000001 00000066 00000002 6d310000 00000001 00000005 616c7068 61000000
    0000000e 31302e30 2e302e31 20616c70 68610000
    00000001 00000065 00000002 6d310000 00000001 00000005 616c7068 61000000
    0000000e 31302e30 2e302e31 20616c70 68610000";

// What a file stands for, as far as the tests look: its order, whether it is secure, and its generation.
type Found = Result<Option<(u32, bool, u64)>, SlotFault>;

const NOTHING: Found = Ok(None);

const SECURE: Found = Ok(Some((100, true, 1)));

const FAULT: Found = Err(SlotFault::DiskFault);

fn stored(order: u32, generation: u64) -> Found {
    Ok(Some((order, false, generation)))
}

fn load<R: RandomSource>(rt: &R, alloc: Global, slot: &mut Slot<MemDisk>) -> Found {
    match slot.load(alloc, rt) {
        Ok(None) => Ok(None),
        Ok(Some(version)) => Ok(Some((
            version.order().number(),
            version.secure(),
            slot.generation(),
        ))),
        Err(fault) => Err(fault),
    }
}

// What a survey finds, which is what a load finds.
fn survey(alloc: Global, slot: &mut Slot<MemDisk>) -> Found {
    match slot.survey(alloc) {
        Ok(None) => Ok(None),
        Ok(Some(summary)) => Ok(Some((summary.order.number(), summary.secure, slot.generation()))),
        Err(fault) => Err(fault),
    }
}

// What is surveyed of a disk with this file.
fn surveyed_in(alloc: Global, file: Vec<u8>) -> Found {
    let mut slot = Slot::new(MemDisk::new(alloc, file, None, Vec::new(alloc)));
    survey(alloc, &mut slot)
}

// What is loaded of a disk with this file, some of whose calls fail.
fn found_in<R: RandomSource>(rt: &R, alloc: Global, file: Vec<u8>, failing: Vec<u64>) -> Found {
    let mut slot = Slot::new(MemDisk::new(alloc, file, None, failing));
    load(rt, alloc, &mut slot)
}

// Looks at what is loaded of a text of hexadecimal words, some of whose bytes have other values.
fn check_file<R: RandomSource + Abort>(
    rt: &R,
    alloc: Global,
    text: &str,
    changes: &[(usize, u8)],
    found: Found,
) {
    let mut file = bytes(rt, alloc, &[text]);
    for (place, byte) in changes {
        if let Some(old) = file.get_mut(*place) {
            *old = *byte;
        }
    }
    let surveyed = surveyed_in(alloc, file.to_vec(alloc).expect(rt, "memory for a file"));
    let came = found_in(rt, alloc, file, Vec::new(alloc));
    assert_same(rt, &(changes, came), &(changes, found), "other bytes");
    assert_same(
        rt,
        &(changes, surveyed),
        &(changes, found),
        "bytes that are surveyed",
    );
}

// Looks at what is loaded of the first bytes of the hosts file, where the call with this number fails.
fn check_front<R: RandomSource + Abort>(
    rt: &R,
    alloc: Global,
    len: usize,
    failing: u64,
    found: Found,
) {
    let mut file = bytes(rt, alloc, &[HOSTS_FILE]);
    file.truncate(len);
    let failing_calls = vec![in alloc; failing].expect(rt, "a number");
    let came = (len, failing, found_in(rt, alloc, file, failing_calls));
    assert_same(rt, &came, &(len, failing, found), "bytes and a call");
}

static FILES: [(&[(usize, u8)], Found); 12] = [
    (&[], Ok(Some((100, false, 1)))),
    // The first cell is closed.
    (&[(0, 0)], NOTHING),
    (&[(0, 2)], NOTHING),
    // A closed cell isn't looked into.
    (&[(33, 9), (47, 9)], Ok(Some((100, false, 1)))),
    (
        &[(32, 1), (47, 1)],
        Err(SlotFault::Damaged { at: 32, rule: 2 }),
    ),
    (&[(7, 9)], Err(SlotFault::Damaged { at: 7, rule: 3 })),
    (&[(23, 63)], Err(SlotFault::Damaged { at: 16, rule: 4 })),
    (&[(79, 1)], Err(SlotFault::Damaged { at: 79, rule: 5 })),
    (&[(83, 2)], Err(SlotFault::Damaged { at: 116, rule: 5 })),
    (&[(67, 2)], SECURE),
    (&[(67, 3)], Err(SlotFault::Damaged { at: 64, rule: 6 })),
    (&[(83, 0)], Err(SlotFault::Damaged { at: 84, rule: 9 })),
];

#[test]
fn check_files(rt: HostRuntime) {
    for (changes, found) in &FILES {
        check_file(&rt, rt.alloc(), HOSTS_FILE, *changes, *found);
    }
}

// A file of 108 bytes whose body has the rows `b` and `a`, in that order, with empty values.
const FALLING_FILE: &str = "01000000 00000000 00000000 00000001 00000000 00000040 00000000 0000002c
    00000000 00000000 00000000 00000000 00000000 00000000 00000000 00000000
    00000001 00000064 00000002 6d310000 00000002
    00000001 62000000 00000000 00000001 61000000 00000000";

static KEYS_AND_COUNTS: [(&[(usize, u8)], Found); 5] = [
    (&[], Err(SlotFault::Damaged { at: 96, rule: 8 })),
    (&[(100, b'b')], Err(SlotFault::Damaged { at: 96, rule: 8 })),
    (&[(100, b'c')], Ok(Some((100, false, 1)))),
    // A key that isn't whole is refused before it is compared.
    (&[(101, 1)], Err(SlotFault::Damaged { at: 101, rule: 5 })),
    (
        &[(81, 4), (83, 1)],
        Err(SlotFault::Damaged { at: 80, rule: 7 }),
    ),
];

#[test]
fn check_keys_and_counts(rt: HostRuntime) {
    for (changes, found) in &KEYS_AND_COUNTS {
        check_file(&rt, rt.alloc(), FALLING_FILE, *changes, *found);
    }
}

// The number of a call that isn't made.
const NO_CALL: u64 = 1000;

static SHORT_FILES: [(usize, Found); 6] = [
    (0, NOTHING),
    (1, NOTHING),
    (63, NOTHING),
    (64, Err(SlotFault::Damaged { at: 16, rule: 4 })),
    (115, Err(SlotFault::Damaged { at: 16, rule: 4 })),
    (116, Ok(Some((100, false, 1)))),
];

#[test]
fn check_short_files(rt: HostRuntime) {
    for (len, found) in &SHORT_FILES {
        check_front(&rt, rt.alloc(), *len, NO_CALL, *found);
    }
}

// The call with this number fails, if it is made: two calls on an empty disk, four on a file with a version.
static FAILING: [(usize, u64, Found); 8] = [
    (0, 0, FAULT),
    (0, 1, FAULT),
    (0, 2, NOTHING),
    (116, 0, FAULT),
    (116, 1, FAULT),
    (116, 2, FAULT),
    (116, 3, FAULT),
    (116, 4, Ok(Some((100, false, 1)))),
];

#[test]
fn calls_of_a_load(rt: HostRuntime) {
    for (len, failing, found) in &FAILING {
        check_front(&rt, rt.alloc(), *len, *failing, *found);
    }
}

// A version of this order with the row of the hosts file.
fn version<R: RandomSource + Abort>(rt: &R, alloc: Global, order: u32) -> Version {
    let mut builder = VersionBuilder::new(alloc, rt, Order(order), b"m1").expect(rt, "a builder");
    let pushed = builder.push(b"alpha", b"10.0.0.1 alpha");
    assert_same(rt, &pushed, &Ok(true), "a row");
    builder.finish().expect(rt, "a version")
}

// Stores a version, where the slot is ready for it.
fn store(slot: &mut Slot<MemDisk>, version: &Version) -> bool {
    slot.ready() && slot.generation() < u64::MAX && slot.commit(version.body()).is_ok()
}

// How many of three commits after a load are done.
fn commit_three<R: RandomSource + Abort>(rt: &R, alloc: Global, slot: &mut Slot<MemDisk>) -> u32 {
    let mut done = 0;
    if slot.load(alloc, rt).is_ok() {
        for order in 100..103 {
            let version = version(rt, alloc, order);
            if store(slot, &version) {
                done = order - 99;
            }
        }
    }
    done
}

// A value that a thread may be given.
fn sent<T: Send>(value: T) -> T {
    value
}

// What is loaded of the file that a crash leaves.
fn after_crash<R: RandomSource + Abort>(rt: &R, alloc: Global, disk: &MemDisk, kept: u64) -> Found {
    let file = disk.crashed(kept).expect(rt, "a file");
    found_in(rt, alloc, file, Vec::new(alloc))
}

// How many of three commits after a load of an empty disk that stops at a call were done, what the disk has then, and
// what crashes leave that keep the writes 0 to 3.
fn three_commits<R: RandomSource + Abort>(
    rt: &R,
    alloc: Global,
    stop: Option<u64>,
) -> (u32, Vec<u8>, [Found; 4]) {
    let mut slot = sent(Slot::new(MemDisk::new(alloc, Vec::new(alloc), stop, Vec::new(alloc))));
    let commits = commit_three(rt, alloc, &mut slot);
    let disk = slot.into_disk();
    let bytes = disk.bytes().to_vec(alloc).expect(rt, "memory for a file");
    let found = [
        after_crash(rt, alloc, &disk, 0),
        after_crash(rt, alloc, &disk, 1),
        after_crash(rt, alloc, &disk, 2),
        after_crash(rt, alloc, &disk, 3),
    ];
    (commits, bytes, found)
}

#[test]
fn first_commit(rt: HostRuntime) {
    let alloc = rt.alloc();
    let file = bytes(&rt, alloc, &[HOSTS_FILE]);
    // Two calls to load, and nine to commit.
    for (stop, done) in &[(10, 0), (11, 1)] {
        let (commits, bytes, _found) = three_commits(&rt, alloc, Some(*stop));
        let came = (*stop, commits, bytes.as_slice());
        let wanted = (*stop, *done, file.as_slice());
        assert_same(&rt, &came, &wanted, "the call that it stops at");
    }
}

#[test]
fn three_installs(rt: HostRuntime) {
    let alloc = rt.alloc();
    let file = bytes(&rt, alloc, &[THIRD_FILE]);
    let (commits, bytes, _found) = three_commits(&rt, alloc, None);
    let came = (commits, bytes.as_slice());
    assert_same(&rt, &came, &(3, file.as_slice()), "never stopped");
    // Two calls to load, nine for the first commit, five for the second and seven for the third.
    for (stop, done) in &[(10, 0), (11, 1), (15, 1), (16, 2), (22, 2), (23, 3)] {
        let (commits, _bytes, _found) = three_commits(&rt, alloc, Some(*stop));
        let came = (*stop, commits);
        assert_same(&rt, &came, &(*stop, *done), "the call that it stops at");
    }
}

#[test]
fn third_install_stopped(rt: HostRuntime) {
    let (second, third) = (stored(101, 2), stored(102, 3));
    // The calls of the third commit have the numbers 16 to 22. The last would sync the write that opens the cell.
    for stop in 16..23 {
        let wanted = match stop {
            22 => [second, third, second, third],
            _ => [second; 4],
        };
        let (_commits, _bytes, found) = three_commits(&rt, rt.alloc(), Some(stop));
        assert_same(
            &rt,
            &(stop, found),
            &(stop, wanted),
            "the call that it stops at",
        );
    }
}

// What stands after so many commits.
static STANDS: [Found; 5] = [
    NOTHING,
    Ok(Some((100, false, 1))),
    Ok(Some((101, false, 2))),
    Ok(Some((102, false, 3))),
    Ok(Some((103, false, 4))),
];

#[test]
fn every_stop(rt: HostRuntime) {
    for stop in 0..24 {
        let (commits, _bytes, found) = three_commits(&rt, rt.alloc(), Some(stop));
        let before = STANDS.get(commits as usize);
        let after = STANDS.get(commits as usize + 1);
        let is_either = found
            .iter()
            .all(|kept| Some(kept) == before || Some(kept) == after);
        let came = (stop, commits <= 3, is_either, found);
        let wanted = (stop, true, true, found);
        assert_same(&rt, &came, &wanted, "the call that it stops at");
    }
}

#[test]
fn faults_as_text(rt: HostRuntime) {
    let fault = SlotFault::Damaged { at: 79, rule: 5 };
    let text = format!(in rt.alloc(); "{fault}").expect(&rt, "a text");
    let wanted = "damaged at 79 by rule 5";
    assert_same(&rt, &text.as_str(), &wanted, "damaged");
}
