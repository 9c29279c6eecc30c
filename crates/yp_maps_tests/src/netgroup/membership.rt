//! The groups that are reached, and who is a member.

use crate::given::assert_same;
use crate::netgroup::groups::{Row, version};
use std::alloc::{AllocError, Global};
use std::process::Abort;
use std::random::RandomSource;
use yp_netgroup::{Who, innetgr, spread};
use yp_version::Version;

// A host, a user and a domain.
type Someone = (
    Option<&'static [u8]>,
    Option<&'static [u8]>,
    Option<&'static [u8]>,
);

// A group, who is asked for, whether they are a member, and what a test calls them.
type Asked = (&'static [u8], Someone, bool, &'static str);

const ANYONE: Someone = (None, None, None);

const DASH: Option<&[u8]> = Some(b"-");

const H1: Option<&[u8]> = Some(b"h1");

const JOE: Option<&[u8]> = Some(b"joe");

const ANN: Option<&[u8]> = Some(b"ann");

const EVE: Option<&[u8]> = Some(b"eve");

// Asks for members of groups.
fn assert_asked<R: RandomSource + Abort>(
    rt: &R,
    alloc: Global,
    version: &Version,
    cases: &[Asked],
) {
    for (group, (host, user, domain), wanted, row) in cases {
        let who = Who {
            host: *host,
            user: *user,
            domain: *domain,
        };
        let came = innetgr(alloc, rt, version, *group, &who).expect(rt, "memory");
        assert_same(rt, &came, wanted, *row);
    }
}

// The first name of a spread, and all of them in rising order.
fn spread_of<R: RandomSource + Abort>(
    rt: &R,
    alloc: Global,
    version: &Version,
    group: &[u8],
) -> Result<(Vec<u8>, Vec<Vec<u8>>), AllocError> {
    let mut names = spread(alloc, rt, version, group).expect(rt, "memory");
    let first = names.first().expect(rt, "a name").clone()?;
    names.sort()?;
    Ok((first, names))
}

fn assert_spread<R: RandomSource + Abort>(
    rt: &R,
    alloc: Global,
    version: &Version,
    group: &[u8],
    wanted: &[&[u8]],
) {
    let (first, names) = spread_of(rt, alloc, version, group).expect(rt, "memory");
    assert_same(rt, &first.as_slice(), &group, "the first name");
    assert_same(rt, &names.len(), &wanted.len(), "names");
    for (came, name) in names.iter().zip(wanted) {
        assert_same(rt, &came.as_slice(), name, "a name");
    }
}

static CYCLE: [Row; 2] = [(b"a", b"b"), (b"b", b"a (-,joe,)")];

static IN_CYCLE: [Asked; 4] = [
    (b"a", (None, JOE, None), true, "joe"),
    (b"a", (H1, JOE, None), false, "joe at h1"),
    (b"a", (None, ANN, None), false, "ann"),
    (b"c", ANYONE, false, "group c"),
];

#[test]
fn netgroup_cycle(rt: HostRuntime) {
    let version = version(&rt, rt.alloc(), &CYCLE);
    assert_asked(&rt, rt.alloc(), &version, &IN_CYCLE);
    assert_spread(&rt, rt.alloc(), &version, b"a", &[b"a", b"b"]);
}

// Groups that name themselves, groups without rows, two ways to one group, and names that begin others.
static GROUPS: [Row; 6] = [
    (b"all", b"left right"),
    (b"left", b"left bottom none"),
    (b"right", b"bottom (,ann,)"),
    (b"bottom", b"(,joe,)"),
    (b"bot", b"(,eve,)"),
    (b"lost", b", right"),
];

static REACHED: [(&[u8], &[&[u8]]); 5] = [
    (b"all", &[b"all", b"bottom", b"left", b"none", b"right"]),
    (b"left", &[b"bottom", b"left", b"none"]),
    (b"bot", &[b"bot"]),
    (b"lost", &[b"lost"]),
    (b"none", &[b"none"]),
];

static IN_GROUPS: [Asked; 8] = [
    (b"all", (None, JOE, None), true, "joe in all"),
    (b"all", (None, ANN, None), true, "ann in all"),
    (b"left", (None, JOE, None), true, "joe in left"),
    (b"left", (None, ANN, None), false, "ann in left"),
    (b"all", (None, EVE, None), false, "eve in all"),
    (b"ALL", ANYONE, false, "a group in upper case"),
    (b"lost", ANYONE, false, "a group that isn't read"),
    (b"", ANYONE, false, "an empty name"),
];

#[test]
fn reached_groups(rt: HostRuntime) {
    let version = version(&rt, rt.alloc(), &GROUPS);
    for (group, wanted) in &REACHED {
        assert_spread(&rt, rt.alloc(), &version, *group, *wanted);
    }
    assert_asked(&rt, rt.alloc(), &version, &IN_GROUPS);
}

static LETTERS: [Row; 2] = [(b"case", b"(H1,Joe,Lab.Org)"), (b"any", b"(,,)")];

static IN_LETTERS: [Asked; 7] = [
    (b"case", (H1, None, None), true, "host in lower case"),
    (
        b"case",
        (None, None, Some(b"lAB.oRG")),
        true,
        "domain in other case",
    ),
    (b"case", (None, JOE, None), false, "user in lower case"),
    (
        b"case",
        (Some(b"H1"), Some(b"Joe"), None),
        true,
        "host and user",
    ),
    (
        b"case",
        (None, None, Some(b"lab")),
        false,
        "the beginning of a domain",
    ),
    (b"any", (H1, JOE, Some(b"lab")), true, "empty fields"),
    (b"any", (DASH, DASH, DASH), true, "empty fields, and dashes"),
];

#[test]
fn letters_and_empty_fields(rt: HostRuntime) {
    let version = version(&rt, rt.alloc(), &LETTERS);
    assert_asked(&rt, rt.alloc(), &version, &IN_LETTERS);
}

static DASHES: [Row; 4] = [
    (b"none", b"(-,-,-)"),
    (b"host", b"(h1,-,)"),
    (b"two", b"(h1,joe,) (h2,ann,)"),
    (b"broken", b"(h1,joe) (,,)"),
];

static IN_DASHES: [Asked; 10] = [
    (b"none", ANYONE, true, "dashes, and no arguments"),
    (b"none", (DASH, None, None), false, "a dash for a host"),
    (b"none", (None, DASH, None), false, "a dash for a user"),
    (b"none", (None, None, DASH), false, "a dash for a domain"),
    (b"host", (H1, None, None), true, "a host without users"),
    (
        b"host",
        (H1, JOE, None),
        false,
        "a user where there is none",
    ),
    (b"host", (Some(b""), None, None), false, "an empty argument"),
    (b"two", (H1, JOE, None), true, "fields of one triple"),
    (b"two", (H1, ANN, None), false, "fields of two triples"),
    (b"broken", ANYONE, false, "a triple of two fields"),
];

#[test]
fn dashes_and_arguments(rt: HostRuntime) {
    let version = version(&rt, rt.alloc(), &DASHES);
    assert_asked(&rt, rt.alloc(), &version, &IN_DASHES);
}
