//! A reverse map that passes a limit of a version.

use crate::given::assert_same;
use crate::netgroup::groups::{Row, version};
use std::alloc::Global;
use std::process::Abort;
use std::random::RandomSource;
use yp_netgroup::reverse::{Field, RevFault, reverse};
use yp_version::{Order, Version};

// The first refusal of a reverse by users.
fn refusal<R: RandomSource>(rt: &R, alloc: Global, netgroup: &Version) -> Option<RevFault> {
    match reverse(alloc, rt, netgroup, Field::User, Order(7), b"m1") {
        Ok(_) => None,
        Err(fault) => Some(fault),
    }
}

// A name of so many letters.
fn name<R: Abort>(rt: &R, alloc: Global, letter: u8, letters: usize) -> Vec<u8> {
    vec![in alloc; letter; letters].expect(rt, "a name")
}

// Two groups with names of 40,000 bytes have one key, which is the second one.
#[test]
fn long_value(rt: HostRuntime) {
    let alloc = rt.alloc();
    let first = name(&rt, alloc, b'a', 40_000);
    let second = name(&rt, alloc, b'b', 40_000);
    let rows: [Row; 2] = [(&first, b"(,u,)"), (&second, b"(,u,) (,t,)")];
    let netgroup = version(&rt, alloc, &rows);
    let wanted = RevFault::Row { number: 2, rule: 2 };
    assert_same(
        &rt,
        &refusal(&rt, alloc, &netgroup),
        &Some(wanted),
        "a long value",
    );
}
