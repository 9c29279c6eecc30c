//! Versions of groups.

use crate::given::assert_same;
use std::alloc::Global;
use std::process::Abort;
use std::random::RandomSource;
use yp_version::{Order, Version, VersionBuilder};

/// A row: a group and its text.
pub type Row<'a> = (&'a [u8], &'a [u8]);

/// A version with these rows, no two of which have one key.
pub fn version<R: RandomSource + Abort>(rt: &R, alloc: Global, rows: &[Row]) -> Version {
    let mut builder = VersionBuilder::new(alloc, rt, Order(0), b"").expect(rt, "a builder");
    for (group, text) in rows {
        assert_same(rt, &builder.push(*group, *text), &Ok(true), "a new row");
    }
    builder.finish().expect(rt, "a version")
}
