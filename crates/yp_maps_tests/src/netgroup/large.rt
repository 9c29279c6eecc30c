//! Maps as large as they may be.

ghost use Rattle.std.specs.Prelude.{◌<◌};

use crate::given::assert_same;
use std::alloc::{AllocError, Global};
use std::process::Abort;
use std::random::RandomSource;
use yp_netgroup::{Who, innetgr, spread};
use yp_version::{Order, Version, VersionBuilder};

// A letter for four bits of a number.
fn letter(number: u32, from: u32) -> u8
    requires { from < 32 }
{
    b'a' + ((number >> from) & 15) as u8
}

// A name of five letters for a number under 2^20.
fn long_name(number: u32) -> [u8; 5] {
    [
        letter(number, 16),
        letter(number, 12),
        letter(number, 8),
        letter(number, 4),
        letter(number, 0),
    ]
}

// A name of three letters for a number under 2^12.
fn short_name(number: u32) -> [u8; 3] {
    [letter(number, 8), letter(number, 4), letter(number, 0)]
}

fn builder<R: RandomSource + Abort>(rt: &R, alloc: Global) -> VersionBuilder {
    VersionBuilder::new(alloc, rt, Order(0), b"").expect(rt, "a builder")
}

// Each group names the next, and the last one lists joe.
fn chain<R: RandomSource + Abort>(rt: &R, alloc: Global, groups: u32) -> Version {
    let mut builder = builder(rt, alloc);
    for i in 0..groups {
        let next = long_name(i.wrapping_add(1));
        assert_same(rt, &builder.push(&long_name(i), &next), &Ok(true), "a row");
    }
    assert_same(
        rt,
        &builder.push(&long_name(groups), b"(,joe,)"),
        &Ok(true),
        "a row",
    );
    builder.finish().expect(rt, "a version")
}

// A text that names so many groups.
fn names(alloc: Global, groups: u32) -> Result<Vec<u8>, AllocError> {
    let mut text = Vec::new(alloc);
    for i in 0..groups {
        text.extend_from_slice(&short_name(i))?;
        text.push(b' ')?;
    }
    text.pop();
    Ok(text)
}

// Each group names all groups.
fn clique<R: RandomSource + Abort>(rt: &R, alloc: Global, groups: u32) -> Version {
    let text = names(alloc, groups).expect(rt, "a text");
    let mut builder = builder(rt, alloc);
    for i in 0..groups {
        assert_same(rt, &builder.push(&short_name(i), &text), &Ok(true), "a row");
    }
    builder.finish().expect(rt, "a version")
}

fn assert_member<R: RandomSource + Abort>(
    rt: &R,
    alloc: Global,
    version: &Version,
    group: &[u8],
    wanted: (usize, bool, bool),
) {
    let joe = Who {
        host: None,
        user: Some(b"joe"),
        domain: None,
    };
    let ann = Who {
        host: None,
        user: Some(b"ann"),
        domain: None,
    };
    let names = spread(alloc, rt, version, group).expect(rt, "memory").len();
    let has_joe = innetgr(alloc, rt, version, group, &joe).expect(rt, "memory");
    let has_ann = innetgr(alloc, rt, version, group, &ann).expect(rt, "memory");
    assert_same(rt, &(names, has_joe, has_ann), &wanted, "a large map");
}

#[test]
fn chain_of_groups(rt: HostRuntime) {
    let version = chain(&rt, rt.alloc(), 100_000);
    assert_member(
        &rt,
        rt.alloc(),
        &version,
        &long_name(0),
        (100_001, true, false),
    );
}

#[test]
fn groups_that_name_one_another(rt: HostRuntime) {
    let version = clique(&rt, rt.alloc(), 2_000);
    assert_member(
        &rt,
        rt.alloc(),
        &version,
        &short_name(7),
        (2_000, false, false),
    );
}

// A text of 65,536 bytes: 10,922 names of five letters with a blank behind each, and four bytes of blanks.
#[test]
fn longest_text(rt: HostRuntime) {
    let alloc = rt.alloc();
    let mut text = Vec::new(alloc);
    for i in 0..10_922 {
        text.extend_from_slice(&long_name(i)).expect(&rt, "memory");
        text.push(b' ').expect(&rt, "memory");
    }
    text.extend_from_slice(b"    ").expect(&rt, "memory");
    assert_same(&rt, &text.len(), &65_536, "the length of the text");
    let mut builder = builder(&rt, alloc);
    assert_same(&rt, &builder.push(b"all", &text), &Ok(true), "a row");
    let version = builder.finish().expect(&rt, "a version");
    assert_member(&rt, alloc, &version, b"all", (10_923, false, false));
}
