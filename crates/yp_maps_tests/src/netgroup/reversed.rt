//! Reverse maps, reckoned by hand from the texts of groups.

use crate::given::assert_same;
use crate::netgroup::groups::{Row, version};
use std::alloc::Global;
use std::random::RandomSource;
use yp_netgroup::reverse::{Field, listed_in, reverse, split};
use yp_netgroup::{Who, innetgr};
use yp_version::{Order, Version};

/// A map, the rows of its two reverses, and whether each of them is split.
#[derive(Clone, Copy)]
struct Case {
    row: &'static str,
    groups: &'static [Row<'static>],
    by_user: &'static [Row<'static>],
    by_host: &'static [Row<'static>],
    split: (bool, bool),
}

/// The groups of the cases whose reverses are looked up in.
const CYCLE: &[Row<'static>] = &[(b"a", b"b"), (b"b", b"a (-,joe,)")];

const STAFF: &[Row<'static>] = &[(b"g", b"(H1,,Lab) (,ann,)")];

const DOTTED: &[Row<'static>] = &[(b"g", b"(a,,b.c)")];

const STARS: &[Row<'static>] = &[(b"x", b"(,u,*)"), (b"y", b"(*,v,)"), (b"z", b"y y y")];

static CASES: [Case; 6] = [
    Case {
        row: "groups that name each other",
        groups: CYCLE,
        by_user: &[(b"joe.*", b"a,b")],
        by_host: &[],
        split: (true, true),
    },
    Case {
        row: "upper case, and empty parts",
        groups: STAFF,
        by_user: &[(b"*.lab", b"g"), (b"ann.*", b"g")],
        by_host: &[(b"*.*", b"g"), (b"h1.lab", b"g")],
        split: (true, true),
    },
    Case {
        row: "a dot in a domain",
        groups: DOTTED,
        by_user: &[(b"*.b.c", b"g")],
        by_host: &[(b"a.b.c", b"g")],
        split: (false, false),
    },
    Case {
        row: "dashes in either part, and users as they are",
        groups: &[
            (b"inner", b"(h,joe,-) (h,-,d) (-,Joe,D)"),
            (b"outer", b"inner none inner"),
        ],
        by_user: &[(b"Joe.d", b"inner,outer")],
        by_host: &[(b"h.d", b"inner,outer")],
        split: (true, true),
    },
    Case {
        row: "groups that no text can name",
        groups: &[
            (b"", b"(,u,)"),
            (b"a b", b"(,joe,) named"),
            (b"named", b"(,ann,d)"),
            (b"x,y", b"named"),
        ],
        by_user: &[(b"ann.d", b"named")],
        by_host: &[(b"*.d", b"named")],
        split: (true, true),
    },
    Case {
        row: "asterisks",
        groups: STARS,
        by_user: &[(b"u.*", b"x"), (b"v.*", b"y,z")],
        by_host: &[(b"*.*", b"x,y,z")],
        split: (false, false),
    },
];

// Whether a version has these rows, and no others.
fn has_rows(version: &Version, rows: &[Row]) -> bool {
    for (i, row) in rows.iter().enumerate() {
        if version.row(i) != Some(*row) {
            return false;
        }
    }
    version.len() == rows.len()
}

// Whether the reverse of a map has these rows, and the order and the master that were given.
fn has_reverse<R: RandomSource>(
    rt: &R,
    alloc: Global,
    netgroup: &Version,
    field: Field,
    rows: &[Row],
) -> bool {
    match reverse(alloc, rt, netgroup, field, Order(7), b"m1") {
        Ok(version) => {
            has_rows(&version, rows)
                && version.order() == Order(7)
                && version.master() == b"m1".as_slice()
                && !version.secure()
        }
        Err(_) => false,
    }
}

// What is told of a case: whether its reverses have its rows, and whether they are split.
fn told_of<R: RandomSource>(
    rt: &R,
    alloc: Global,
    netgroup: &Version,
    case: &Case,
) -> (bool, bool, Option<bool>, Option<bool>) {
    (
        has_reverse(rt, alloc, netgroup, Field::User, case.by_user),
        has_reverse(rt, alloc, netgroup, Field::Host, case.by_host),
        split(alloc, netgroup, Field::User).ok(),
        split(alloc, netgroup, Field::Host).ok(),
    )
}

#[test]
fn reversed_by_hand(rt: HostRuntime) {
    let alloc = rt.alloc();
    for case in &CASES {
        let netgroup = version(&rt, alloc, case.groups);
        let told = told_of(&rt, alloc, &netgroup, case);
        let wanted = (true, true, Some(case.split.0), Some(case.split.1));
        assert_same(&rt, &told, &wanted, case.row);
    }
}

// Who is looked up in the reverse of which groups, by a group, a name and a domain, and whether they are listed there
// and are a member.
#[derive(Clone, Copy)]
struct Asked {
    groups: &'static [Row<'static>],
    field: Field,
    who: (&'static [u8], &'static [u8], &'static [u8]),
    told: (bool, bool),
}

static LOOK_UPS: [Asked; 8] = [
    Asked {
        groups: CYCLE,
        field: Field::User,
        who: (b"a", b"joe", b"lab"),
        told: (true, true),
    },
    Asked {
        groups: CYCLE,
        field: Field::User,
        who: (b"c", b"joe", b"lab"),
        told: (false, false),
    },
    Asked {
        groups: CYCLE,
        field: Field::Host,
        who: (b"a", b"h", b"lab"),
        told: (false, false),
    },
    Asked {
        groups: STAFF,
        field: Field::Host,
        who: (b"g", b"H1", b"LAB"),
        told: (true, true),
    },
    Asked {
        groups: STAFF,
        field: Field::User,
        who: (b"g", b"Ann", b"dom"),
        told: (false, false),
    },
    Asked {
        groups: STAFF,
        field: Field::User,
        who: (b"g", b"Ann", b"lab"),
        told: (true, true),
    },
    Asked {
        groups: DOTTED,
        field: Field::Host,
        who: (b"g", b"a.b", b"c"),
        told: (true, false),
    },
    Asked {
        groups: STARS,
        field: Field::Host,
        who: (b"z", b"h", b"lab"),
        told: (true, false),
    },
];

// Whether somebody is listed in the reverse, and whether they are a member.
fn looked_up<R: RandomSource>(
    rt: &R,
    alloc: Global,
    netgroup: &Version,
    asked: &Asked,
) -> (Option<bool>, Option<bool>) {
    let (group, name, domain) = asked.who;
    let (host, user) = match asked.field {
        Field::User => (None, Some(name)),
        Field::Host => (Some(name), None),
    };
    let who = Who {
        host,
        user,
        domain: Some(domain),
    };
    let member = innetgr(alloc, rt, netgroup, group, &who).ok();
    match reverse(alloc, rt, netgroup, asked.field, Order(7), b"m1") {
        Ok(reverse) => {
            let listed = listed_in(alloc, &reverse, asked.field, group, name, domain);
            (listed.ok(), member)
        }
        Err(_) => (None, member),
    }
}

#[test]
fn looked_up_by_hand(rt: HostRuntime) {
    let alloc = rt.alloc();
    for asked in &LOOK_UPS {
        let netgroup = version(&rt, alloc, asked.groups);
        let came = looked_up(&rt, alloc, &netgroup, asked);
        let wanted = (Some(asked.told.0), Some(asked.told.1));
        assert_same(&rt, &came, &wanted, "a look-up");
    }
}
