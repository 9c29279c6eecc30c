//! Texts in a folder, over a system that does what a test wants.

ghost use Rattle.std.specs.Prelude.{◌≡◌, ◌≤◌, [], length, None, OnOk};
ghost use Rattle.yp_io.specs.Texts.{text_max};

use crate::given::assert_same;
use crate::system::scripted::{OneFile, Scripted};
use std::alloc::Global;
use std::cell::Cell;
use std::fs::{File, OpenFile};
use std::io::{ErrorKind, Read};
use std::process::Abort;
use std::rt::Files;
use std::{fs, io};
use yp_io::{TEXT_MAX, TextFault, Texts, count_fault};
use yp_system::TextFolder;

// The answer to a read of a text, how many bytes came, and how often it failed.
type Came = (Result<(), TextFault>, usize, u64);

fn read_text(alloc: Global, files: OneFile<'_>, name: &[u8]) -> Came {
    let mut texts = TextFolder::new(alloc, files);
    let mut into = Vec::new(alloc);
    let answer = texts.read(name, &mut into);
    (answer, into.len(), texts.faults())
}

const FAILED: Came = (Err(TextFault::Failed), 0, 1);

const NO_MEMORY: Came = (Err(TextFault::NoMemory), 0, 0);

const DENIED: Option<ErrorKind> = Some(ErrorKind::PermissionDenied);

const FULL: Option<ErrorKind> = Some(ErrorKind::OutOfMemory);

const LONG: u64 = TEXT_MAX as u64 + 1;

// A name of 64 bytes, and one of 65.
const LONGEST: &[u8] = b"0123456789abcdef0123456789abcdef0123456789abcdef0123456789abcdef";

const LONGEST_PATH: &str = "ypsrc/0123456789abcdef0123456789abcdef0123456789abcdef0123456789abcdef";

const TOO_LONG: &[u8] = b"0123456789abcdef0123456789abcdef0123456789abcdef0123456789abcdefg";

const TOO_LONG_PATH: &str =
    "ypsrc/0123456789abcdef0123456789abcdef0123456789abcdef0123456789abcdefg";

// The name of a text, the one file, its length, how many bytes its reads give, how they end, and what must come.
type Case = (
    &'static [u8],
    &'static str,
    Option<u64>,
    usize,
    Option<ErrorKind>,
    Came,
);

static CASES: [Case; 19] = [
    (b"passwd", "ypsrc/passwd", Some(5), 5, None, (Ok(()), 5, 0)),
    (b"group", "ypsrc/group", Some(0), 0, None, (Ok(()), 0, 0)),
    (b"a.b-c~", "ypsrc/a.b-c~", Some(5), 5, None, (Ok(()), 5, 0)),
    (LONGEST, LONGEST_PATH, Some(5), 5, None, (Ok(()), 5, 0)),
    (
        b"hosts",
        "ypsrc/hosts",
        Some(0),
        TEXT_MAX,
        None,
        (Ok(()), TEXT_MAX, 0),
    ),
    (b"hosts", "ypsrc/hosts", Some(5), TEXT_MAX + 1, None, FAILED),
    (b"hosts", "hosts", Some(5), 5, None, FAILED),
    (b"services", "ypsrc/services", None, 5, None, FAILED),
    (b"protocols", "ypsrc/protocols", Some(LONG), 5, None, FAILED),
    (b"netgroup", "ypsrc/netgroup", Some(9), 5, DENIED, FAILED),
    (b"ypservers", "ypsrc/ypservers", Some(9), 5, FULL, NO_MEMORY),
    // Names that aren't plain, though there is such a file.
    (b"", "ypsrc/", Some(5), 5, None, FAILED),
    (b".hosts", "ypsrc/.hosts", Some(5), 5, None, FAILED),
    (b"..", "ypsrc/..", Some(5), 5, None, FAILED),
    (b"a/b", "ypsrc/a/b", Some(5), 5, None, FAILED),
    (b"/b", "ypsrc//b", Some(5), 5, None, FAILED),
    (b"a\0", "ypsrc/a\0", Some(5), 5, None, FAILED),
    (b"\xff", "ypsrc/\u{fffd}", Some(5), 5, None, FAILED),
    (TOO_LONG, TOO_LONG_PATH, Some(5), 5, None, FAILED),
];

fn try_text<R: Abort>(rt: &R, alloc: Global, row: &Case) {
    let (name, path, len, bytes, fault, wanted) = *row;
    let (syncs, locks, is_shut) = (Cell::new(0), Cell::new(0), Cell::new(false));
    let file = Scripted {
        len: None,
        is_interrupted: false,
        bytes,
        fault,
        syncs: &syncs,
        failing: 0,
        locks: &locks,
        is_lock: false,
    };
    let files = OneFile {
        path: Some(path),
        len,
        file,
        is_shut: &is_shut,
    };
    let came = (name, len, read_text(alloc, files, name));
    assert_same(rt, &came, &(name, len, wanted), path);
}

#[test]
fn texts_and_what_is_none(rt: HostRuntime) {
    for row in &CASES {
        try_text(&rt, rt.alloc(), row);
    }
}
