//! Publishers of one map, on boards for threads.

ghost use Rattle.std.specs.Prelude.{◌≡◌, ◌≤◌, length, map, option_map, IfSome};
ghost use Rattle.std.specs.List.{All};
ghost use Rattle.std.specs.Arc.{arc_value};
ghost use Rattle.yp_publisher.specs.Standing.{versions};

use crate::maps::{LAB, catalog_of, sound_disk};
use std::alloc::Global;
use std::random::RandomSource;
use std::sync::{Arc, Wait};
use yp_board::Catalog;
use yp_board::readers::{Naming, Opened, Reader, Writer, board};
use yp_memory::MemDisk;
use yp_publisher::laws::starts_are_shown;
use yp_publisher::{Loaded, Publisher, load_all};
use yp_version::Version;

/// A publisher of one map.
pub type Maps<'r, J, R> = Publisher<MemDisk, Writer<J, &'r R>>;

/// A catalogue of one map for a publisher, and the same for its board.
fn two_catalogs(alloc: Global, own: &[u8]) -> Option<(Catalog, Catalog)>
    ensures one { IfSome result (λ both. length both.0.maps ≡ 1) }
    ensures same { IfSome result (λ both. both.1 ≡ both.0) }
{
    let catalog = catalog_of(alloc, own, &[LAB])?;
    if catalog.len() != 1 {
        return None;
    }
    let copy = catalog.copy(alloc).ok()?;
    Some((catalog, copy))
}

/// What a disk with this file stands for.
fn loaded<R: RandomSource>(alloc: Global, rt: &R, file: Vec<u8>) -> Option<Loaded<MemDisk>>
    ensures { IfSome result (λ loaded. length loaded ≡ 1) }
{
    let disks = vec![in alloc; sound_disk(alloc, file)].ok()?;
    load_all(alloc, rt, disks).ok()
}

/// The versions of a loaded map.
fn shown(alloc: Global, loaded: &Loaded<MemDisk>) -> Option<Vec<Option<Arc<Version>>>>
    ensures versions { IfSome result (λ shown. map (option_map arc_value) shown.items ≡ versions loaded.now) }
    ensures count { IfSome result (λ shown. length shown.items ≡ 1) }
{
    let shown = loaded.shown(alloc).ok()?;
    if shown.len() != 1 {
        return None;
    }
    Some(shown)
}

/// A publisher of hosts.byname of `lab` with this file, on a host of this name, and so many readers of its board, at
/// least one.
pub fn publisher<'r, J: Naming, R: Wait + RandomSource>(
    alloc: Global,
    rt: &'r R,
    opened: Opened,
    own: &[u8],
    file: Vec<u8>,
    readers: u32,
) -> Option<(Maps<'r, J, R>, Vec<Reader<J>>)>
    requires opened { opened ≡ J.book }
    requires readers { 1 ≤ readers }
    ensures count { IfSome result (λ made. length made.1.items ≡ readers) }
    ensures seen { IfSome result (λ made. All (λ reader. reader.catalogue ≡ made.0.catalogue) made.1.items) }
    ensures known { IfSome result (λ made. All (λ reader. reader.known ≡ made.0.board.log) made.1.items) }
{
    let (catalog, copy) = two_catalogs(alloc, own)?;
    let loaded = loaded(alloc, rt, file)?;
    let shown = shown(alloc, &loaded)?;
    let (writer, readers) = board(alloc, rt, opened, copy, shown, readers).ok()?;
    starts_are_shown();
    Some((Publisher::new(loaded, catalog, writer), readers))
}
