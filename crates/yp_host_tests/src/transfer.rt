//! Calls of XFR on a connection: the map is fetched behind the reply, stored and shown, and the caller is told.

use crate::connection::{Came, served_by};
use crate::given::{NEVER, assert_same};
use crate::sample::*;
use std::alloc::Global;
use std::process::Abort;
use std::random::RandomSource;
use yp_answer::session::End;
use yp_memory::MemDisk;

// The host that the table has, what the source sends, and the calls of XFR and MATCH. What comes of it: what is posted,
// if anything, the replies, and the file.
struct Row {
    name: &'static str,
    host: &'static [u8],
    replies: &'static str,
    input: &'static str,
    posted: &'static str,
    output: &'static str,
    file: &'static str,
}

const FETCHED: Row = Row {
    name: "a map that is fetched",
    host: b"m1",
    replies: "ORDER_MASTER_ALL ORDER_100",
    input: "80000058 00000002 XFR TOLD_AT_7002 8000004c 00000003 MATCH",
    posted: "CALL_BACK SUCC",
    output: "80000020 00000002 TAKEN 80000030 00000003 VALUE_OF",
    file: "HOSTS_FILE",
};

static ROWS: [Row; 5] = [
    FETCHED,
    Row {
        name: "nobody is told without a program",
        input: "80000058 00000002 XFR NO_PROGRAM 8000004c 00000003 MATCH",
        posted: "",
        ..FETCHED
    },
    Row {
        name: "nobody is told at a port that is none",
        input: "80000058 00000002 XFR PORT_65536 8000004c 00000003 MATCH",
        posted: "",
        ..FETCHED
    },
    Row {
        name: "a source that changes meanwhile",
        replies: "ORDER_MASTER_ALL ORDER_101",
        posted: "CALL_BACK SKEW",
        output: "80000020 00000002 TAKEN 80000020 00000003 NO_MAP_OF",
        file: "",
        ..FETCHED
    },
    Row {
        name: "a source without an address",
        host: b"m2",
        posted: "CALL_BACK MADDR",
        output: "80000020 00000002 TAKEN 80000020 00000003 NO_MAP_OF",
        file: "",
        ..FETCHED
    },
];

// What came of a connection, what was posted, and the file.
type Transferred = (Came, Posted, Vec<u8>);

// Serves the calls from an empty disk, by the host `s1`.
fn play<R: RandomSource + Abort>(rt: &R, alloc: Global, row: &Row) -> Transferred {
    let replies = words(rt, alloc, row.replies);
    let desk = fetching_desk(rt, alloc, row.host, replies, NEVER);
    let disks = vec![in alloc; sound_disk(alloc, Vec::new(alloc))].expect(rt, "a disk");
    let catalog = catalog_of(rt, alloc, b"s1", &[LAB]);
    let (came, left) = served_by(rt, alloc, catalog, disks, desk, row.input);
    let posted = posted_by(rt, alloc, &left.desk.dial);
    (came, posted, file_of(rt, alloc, &left.disks))
}

// The file on the one disk.
fn file_of(rt: &impl Abort, alloc: Global, disks: &[MemDisk]) -> Vec<u8> {
    let disk = disks.first().expect(rt, "a disk");
    Vec::from_slice(alloc, disk.bytes()).expect(rt, "bytes")
}

// What is wanted of a row.
fn wanted_of(rt: &impl Abort, alloc: Global, row: &Row) -> Transferred {
    let output = words(rt, alloc, row.output);
    let file = words(rt, alloc, row.file);
    let mut posted = Vec::new(alloc);
    if !row.posted.is_empty() {
        let letter = (PROGRAM, words(rt, alloc, row.posted));
        posted.push(letter).expect(rt, "a letter");
    }
    ((Ok(End::Clean), output, Vec::new(alloc)), posted, file)
}

fn try_row<R: RandomSource + Abort>(rt: &R, alloc: Global, row: &Row) {
    let wanted = wanted_of(rt, alloc, row);
    assert_same(rt, &play(rt, alloc, row), &wanted, row.name);
}

#[test]
fn session_transfer(rt: HostRuntime) {
    for row in &ROWS {
        try_row(&rt, rt.alloc(), row);
    }
}
