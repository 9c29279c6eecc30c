//! A publisher of one map on a board for threads, and readers of it.

ghost use Rattle.std.specs.Prelude.{◌≡◌, length, map, option_map};
ghost use Rattle.std.specs.Arc.{arc_value};
ghost use Rattle.yp_publisher.specs.Standing.{versions};

use crate::given::{assert_fits, catalog};
use std::alloc::Global;
use std::process::Abort;
use std::random::RandomSource;
use std::sync::{Arc, Wait};
use yp_board::Catalog;
use yp_board::readers::{Naming, Opened, Reader, Writer, board};
use yp_memory::MemDisk;
use yp_publisher::laws::starts_are_shown;
use yp_publisher::{Loaded, Publisher, load_all};
use yp_version::Version;

/// A publisher of one map.
pub type Maps<'r, J, R> = Publisher<MemDisk, Writer<J, &'r R>>;

/// An empty disk, of which these calls fail.
pub fn disk(rt: &impl Abort, alloc: Global, failing: &[u64]) -> MemDisk {
    let failing = failing.to_vec(alloc).expect(rt, "memory for numbers");
    MemDisk::new(alloc, Vec::new(alloc), None, failing)
}

// What the file of a disk stands for.
fn loaded<R: RandomSource + Abort>(rt: &R, alloc: Global, disk: MemDisk) -> Loaded<MemDisk>
    ensures { length result ≡ 1 }
{
    let disks = vec![in alloc; disk].expect(rt, "memory for a disk");
    load_all(alloc, rt, disks).expect(rt, "a loaded disk")
}

// The versions of a loaded map.
fn shown<R: Abort>(rt: &R, alloc: Global, loaded: &Loaded<MemDisk>) -> Vec<Option<Arc<Version>>>
    ensures versions { map (option_map arc_value) result.items ≡ versions loaded.now }
    ensures count { length result.items ≡ 1 }
{
    let shown = loaded.shown(alloc).expect(rt, "memory for versions");
    assert!(rt; shown.len() == 1);
    shown
}

// Another catalogue of the same maps.
fn copied(rt: &impl Abort, alloc: Global, catalog: &Catalog) -> Catalog
    ensures { result ≡ catalog.now }
{
    catalog.copy(alloc).expect(rt, "a catalogue")
}

/// A publisher of one map over this disk, and two readers of its board.
pub fn publisher_of<'r, J: Naming, R: Wait + RandomSource + Abort>(
    rt: &'r R,
    alloc: Global,
    opened: Opened,
    disk: MemDisk,
) -> (Maps<'r, J, R>, Vec<Reader<J>>)
    requires { opened ≡ J.book }
    ensures { length result.0.catalogue.maps ≡ 1 }
{
    let catalog = catalog(rt, alloc, b"m1", 1);
    assert_fits(rt, 1, &catalog);
    let copy = copied(rt, alloc, &catalog);
    let loaded = loaded(rt, alloc, disk);
    let shown = shown(rt, alloc, &loaded);
    let (writer, readers) = board(alloc, rt, opened, copy, shown, 2).expect(rt, "a board");
    starts_are_shown();
    (Publisher::new(loaded, catalog, writer), readers)
}
