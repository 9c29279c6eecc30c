//! Rows that are told as a text, and read again.

use crate::given::{assert_fits, assert_same};
use std::alloc::Global;
use std::process::Abort;
use std::random::RandomSource;
use yp_texts::{DumpFault, Maker, Reading, SourceText, build, dump};
use yp_version::{Order, Version, VersionBuilder};

/// A name, rows, and the text that is told of them.
type Dumped = (
    &'static str,
    &'static [(&'static [u8], &'static [u8])],
    Result<&'static [u8], DumpFault>,
);

static DUMPED: [Dumped; 8] = [
    ("no rows", &[], Ok(b"")),
    (
        "rows in rising order of their keys",
        &[(b"b", b"2"), (b"a", b" 1\t")],
        Ok(b"a\t 1\t\nb\t2\n"),
    ),
    (
        "an empty key and an empty value",
        &[(b"", b"")],
        Ok(b"\t\n"),
    ),
    (
        "a key with a space",
        &[(b"a", b"1"), (b"b c", b"2")],
        Err(DumpFault::KeyUnfit { row: 2 }),
    ),
    (
        "a key with a tab",
        &[(b"\t", b"1")],
        Err(DumpFault::KeyUnfit { row: 1 }),
    ),
    (
        "a key with a line feed",
        &[(b"a\n", b"1")],
        Err(DumpFault::KeyUnfit { row: 1 }),
    ),
    (
        "a value with a line feed",
        &[(b"a", b"1"), (b"b", b"2\n"), (b"c d", b"3")],
        Err(DumpFault::ValueUnfit { row: 2 }),
    ),
    (
        "a key and its value",
        &[(b" ", b"\n")],
        Err(DumpFault::KeyUnfit { row: 1 }),
    ),
];

fn version_of<R: RandomSource + Abort>(rt: &R, alloc: Global, rows: &[(&[u8], &[u8])]) -> Version {
    let mut builder = VersionBuilder::new(alloc, rt, Order(7), b"m1").expect(rt, "a builder");
    for (key, value) in rows {
        builder.push(key, value).expect(rt, "room for a row");
    }
    builder.finish().expect(rt, "a version")
}

// The text of a version, and what that is read as is told so again.
fn told_twice<R: RandomSource + Abort>(
    rt: &R,
    alloc: Global,
    version: &Version,
) -> (Result<Vec<u8>, DumpFault>, Option<Vec<u8>>) {
    let text = dump(alloc, version);
    let again = match dump(alloc, version) {
        Ok(text) => {
            assert_fits(rt, &text);
            let source = SourceText {
                reading: Reading::Rows,
                text,
            };
            let maker = Maker {
                name: b"m1",
                moment: 7,
            };
            build(alloc, rt, source, None, &maker).ok()
        }
        Err(_) => None,
    };
    let again = match again {
        Some(version) => dump(alloc, &version).ok(),
        None => None,
    };
    (text, again)
}

fn try_dump<R: RandomSource + Abort>(rt: &R, alloc: Global, row: &Dumped) {
    let (name, rows, wanted) = row;
    let came = told_twice(rt, alloc, &version_of(rt, alloc, rows));
    let wanted = match wanted {
        Ok(text) => {
            let text = text.to_vec(alloc).expect(rt, "a text");
            let again = text.as_slice().to_vec(alloc).expect(rt, "a text");
            (Ok(text), Some(again))
        }
        Err(fault) => (Err(*fault), None),
    };
    assert_same(rt, &came, &wanted, *name);
}

#[test]
fn rows_that_are_told(rt: HostRuntime) {
    for row in &DUMPED {
        try_dump(&rt, rt.alloc(), row);
    }
}
