//! Orders of versions, and versions of sample rows.

use crate::given::{assert_same, long_text, text_of};
use std::alloc::Global;
use std::process::Abort;
use std::random::RandomSource;
use yp_texts::*;
use yp_version::{Order, Version};

/// The order before, the moment, and the order that follows.
static ORDERS: [(Option<u32>, u32, Result<u32, OrderSpent>); 7] = [
    (None, 7, Ok(7)),
    (Some(100), 100, Ok(101)),
    (Some(100), 50, Ok(101)),
    (Some(100), 500, Ok(500)),
    (Some(u32::MAX), 5, Err(OrderSpent)),
    (Some(u32::MAX - 1), 5, Ok(u32::MAX)),
    (None, u32::MAX, Ok(u32::MAX)),
];

/// The order of a version, its master, and whether it is secure.
fn head(version: &Version) -> (u32, &[u8], bool) {
    (version.order().number(), version.master(), version.secure())
}

/// Why no version of the hosts that serve is built of a text.
fn fault_of<R: RandomSource + Abort>(
    rt: &R,
    alloc: Global,
    text: &[u8],
    previous: Option<Order>,
) -> Option<BuildFault> {
    let source = SourceText {
        reading: Reading::Text(Kind::Ypservers),
        text: text_of(rt, alloc, text),
    };
    let maker = Maker {
        name: b"m1",
        moment: 7,
    };
    build(alloc, rt, source, previous, &maker).err()
}

/// The number of the order that follows.
fn following(previous: Option<u32>, now: u32) -> Result<u32, OrderSpent> {
    match next_order(previous.map(|number| Order(number)), now) {
        Ok(order) => Ok(order.number()),
        Err(fault) => Err(fault),
    }
}

#[test]
fn orders(rt: HostRuntime) {
    let alloc = rt.alloc();
    for (previous, now, order) in &ORDERS {
        let came = (*previous, *now, following(*previous, *now));
        assert_same(&rt, &came, &(*previous, *now, *order), "an order");
    }
    let source = SourceText {
        reading: Reading::Text(Kind::Ypservers),
        text: text_of(&rt, alloc, b"m1"),
    };
    let maker = Maker {
        name: b"m1",
        moment: 50,
    };
    let raised = build(alloc, &rt, source, Some(Order(100)), &maker).expect(&rt, "a version");
    let wanted = (101, b"m1".as_slice(), false);
    assert_same(&rt, &head(&raised), &wanted, "a raised order");
    // A spent order goes before a row that is refused.
    let text = long_text(&rt, alloc, &[(b"a", 65537)]);
    let came = (
        fault_of(&rt, alloc, &text, Some(Order(u32::MAX))),
        fault_of(&rt, alloc, &text, Some(Order(7))),
    );
    let (spent, long) = (BuildFault::OrderSpent, BuildFault::KeyLong { line: 1 });
    assert_same(&rt, &came, &(Some(spent), Some(long)), "a spent order");
}

/// The order of the last version, its master, and whether it is secure.
type Last = (u32, &'static [u8; 2], bool);

/// What comes of a build behind the last version.
#[derive(Clone, Copy, Debug, PartialEq, Eq)]
enum After {
    Built { order: u32, secure: bool },
    Foreign { is_m2: bool },
    Fault(BuildFault),
}

/// The last version, the flag, and what comes of a build by `m1` at the moment 50.
static AFTER: [(Option<Last>, Option<bool>, After); 8] = [
    (
        None,
        None,
        After::Built {
            order: 50,
            secure: false,
        },
    ),
    (
        None,
        Some(true),
        After::Built {
            order: 50,
            secure: true,
        },
    ),
    (
        Some((100, b"m1", true)),
        None,
        After::Built {
            order: 101,
            secure: true,
        },
    ),
    (
        Some((100, b"m1", true)),
        Some(false),
        After::Built {
            order: 101,
            secure: false,
        },
    ),
    (
        Some((7, b"m1", false)),
        Some(true),
        After::Built {
            order: 50,
            secure: true,
        },
    ),
    (
        Some((100, b"m2", false)),
        None,
        After::Foreign { is_m2: true },
    ),
    // Another master goes before a spent order.
    (
        Some((u32::MAX, b"m2", false)),
        None,
        After::Foreign { is_m2: true },
    ),
    (
        Some((u32::MAX, b"m1", false)),
        None,
        After::Fault(BuildFault::OrderSpent),
    ),
];

fn outcome_of<R: RandomSource + Abort>(
    rt: &R,
    alloc: Global,
    last: Option<&Version>,
    flag: Option<bool>,
) -> After {
    let source = SourceText {
        reading: Reading::Text(Kind::Ypservers),
        text: text_of(rt, alloc, b"m1"),
    };
    let maker = Maker {
        name: b"m1",
        moment: 50,
    };
    match build_after(alloc, rt, source, last, flag, &maker) {
        Ok(version) => After::Built {
            order: version.order().number(),
            secure: version.secure(),
        },
        Err(AfterFault::Foreign { master }) => After::Foreign {
            is_m2: master.as_slice() == b"m2".as_slice(),
        },
        Err(AfterFault::Build(fault)) => After::Fault(fault),
    }
}

/// The same behind a version that is made for it.
fn after_last<R: RandomSource + Abort>(
    rt: &R,
    alloc: Global,
    last: Option<Last>,
    flag: Option<bool>,
) -> Result<After, BuildFault> {
    let Some((order, master, secure)) = last else {
        return Ok(outcome_of(rt, alloc, None, flag));
    };
    let source = SourceText {
        reading: Reading::Text(Kind::Ypservers),
        text: text_of(rt, alloc, b"m1"),
    };
    let maker = Maker {
        name: master,
        moment: order,
    };
    let version = build(alloc, rt, source, None, &maker)?.marked(secure);
    Ok(outcome_of(rt, alloc, Some(&version), flag))
}

#[test]
fn behind_the_last_version(rt: HostRuntime) {
    for (last, flag, wanted) in &AFTER {
        let came = after_last(&rt, rt.alloc(), *last, *flag);
        assert_same(&rt, &(last, came), &(last, Ok(*wanted)), "a build");
    }
}

/// How many rows a version of sample rows has, and how many bytes its body.
fn size_of<R: RandomSource>(
    rt: &R,
    alloc: Global,
    start: u32,
    count: u32,
) -> Result<(usize, usize), BuildFault> {
    match sample(alloc, rt, start, count) {
        Ok(version) => Ok((version.len(), version.body_len())),
        Err(fault) => Err(fault),
    }
}

/// A start, how many rows there are, and the size or the fault.
type Size = (u32, u32, Result<(usize, usize), BuildFault>);

static SIZES: [Size; 6] = [
    (0, 0, Ok((0, 24))),
    (0, 1, Ok((1, 48))),
    (0, 3, Ok((3, 96))),
    (0, 1000, Ok((1000, 24024))),
    (7, 262144, Ok((262144, 7336056))),
    (0, 262145, Err(BuildFault::TooManyRows { line: 262145 })),
];

static SAMPLE: [Option<(&[u8], &[u8])>; 3] = [
    Some((b"k3c6ef35f", b"v0")),
    Some((b"k47502932", b"v1")),
    Some((b"kd1ccf6e9", b"v2")),
];

fn assert_sample<R: Abort>(rt: &R, version: &Version) {
    let rows = [version.row(0), version.row(1), version.row(2)];
    assert_same(rt, &rows, &SAMPLE, "three rows");
    let wanted = (1, b"sample".as_slice(), false);
    assert_same(rt, &head(version), &wanted, "their head");
}

#[test]
fn sample_lines(rt: HostRuntime) {
    let version = sample(rt.alloc(), &rt, 0, 3).expect(&rt, "a version");
    assert_sample(&rt, &version);
    for (start, count, size) in &SIZES {
        let came = (*start, *count, size_of(&rt, rt.alloc(), *start, *count));
        assert_same(&rt, &came, &(*start, *count, *size), "a size");
    }
}
