//! Readers that meet no note see what was shown last.

ghost use Rattle.std.specs.Prelude.{◌≡◌};

use crate::given::{assert_same, held};
use crate::readers::boards::*;
use std::alloc::Global;
use std::marker::Brand;
use std::process::Abort;
use std::random::RandomSource;
use std::sync::{Arc, Wait};
use yp_board::View;
use yp_board::readers::{Naming, Opened, Reader, Writer};
use yp_version::Version;

#[test]
fn refresh_newest(rt: HostRuntime) {
    let came = newest::<Brand, _>(&rt, rt.alloc(), Opened::new());
    assert_same(
        &rt,
        &came,
        &900,
        "nine readers hold each of 100 versions that were just shown",
    );
}

// How often a reader held the version that was just shown: 100 are shown, and nine readers look.
fn newest<J: Naming, R: Wait + RandomSource + Abort>(rt: &R, alloc: Global, opened: Opened) -> u32
    requires { opened ≡ J.book }
{
    let (mut writer, mut readers) = board_of::<J, R>(rt, alloc, opened, 9);
    let mut looks: u32 = 0;
    for order in 2..102 {
        let shown = version(rt, alloc, order);
        looks = looks.saturating_add(holders(&mut writer, &mut readers, order % 2, shown, order));
    }
    looks
}

// How many readers hold a version of this order, once it is shown and they have made a read step.
fn holders<J: Naming, R: Wait + Drop>(
    writer: &mut Writer<J, R>,
    readers: &mut [Reader<J>],
    map: u32,
    version: Arc<Version>,
    order: u32,
) -> u32 {
    if !shows(writer, map, version) {
        return 0;
    }
    let mut holders: u32 = 0;
    for reader in readers {
        reader.refresh();
        holders = holders.saturating_add((held(reader, map) == Some(order)) as u32);
    }
    holders
}

#[test]
fn old_versions_are_let_go(rt: HostRuntime) {
    let came = owners::<Brand, _>(&rt, rt.alloc(), Opened::new());
    assert_same(
        &rt,
        &came,
        &[2, 2, 1],
        "the owners of a version that was shown",
    );
}

// How many owners a version has that this test keeps: once it is shown, and a reader holds it; once another one is
// shown in its place; and once the reader has made a read step.
fn owners<J: Naming, R: Wait + RandomSource + Abort>(
    rt: &R,
    alloc: Global,
    opened: Opened,
) -> [usize; 3]
    requires { opened ≡ J.book }
{
    let (mut writer, mut readers) = board_of::<J, R>(rt, alloc, opened, 1);
    owners_on(rt, alloc, &mut writer, &mut readers)
}

fn owners_on<J: Naming, R: Wait + Drop, H: RandomSource + Abort>(
    rt: &H,
    alloc: Global,
    writer: &mut Writer<J, R>,
    readers: &mut [Reader<J>],
) -> [usize; 3] {
    let first = version(rt, alloc, 2);
    let kept = Arc::try_clone(&first).expect(rt, "an owner");
    shows(writer, 0, first);
    refresh_all(readers);
    let held = Arc::strong_count(&kept);
    shows(writer, 0, version(rt, alloc, 3));
    let lagging = Arc::strong_count(&kept);
    refresh_all(readers);
    [held, lagging, Arc::strong_count(&kept)]
}

fn refresh_all<J: Naming>(readers: &mut [Reader<J>]) {
    for reader in readers {
        reader.refresh();
    }
}
