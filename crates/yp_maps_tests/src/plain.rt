//! Versions that are shown on a board of one thread.

ghost use Rattle.std.specs.Prelude.{◌≡◌, length};

use crate::given::assert_same;
use crate::sample::*;
use std::alloc::Global;
use std::process::Abort;
use std::random::RandomSource;
use std::sync::Arc;
use yp_board::*;
use yp_version::{Order, Version, VersionBuilder};

// A version of this order, without rows.
fn version<R: RandomSource + Abort>(rt: &R, alloc: Global, order: u32) -> Arc<Version> {
    let builder = VersionBuilder::new(alloc, rt, Order(order), b"m1").expect(rt, "a builder");
    let version = builder.finish().expect(rt, "a version");
    Arc::new(alloc, version).expect(rt, "a shared version")
}

// As many things as a catalogue has maps.
fn assert_fits(rt: &impl Abort, count: usize, catalog: &Catalog)
    ensures { count ≡ length catalog.now.maps }
{
    assert!(rt; count == catalog.len() as usize);
}

// A board of `MAPS`, on which versions of the maps 1 and 3 are shown.
fn board<R: RandomSource + Abort>(rt: &R, alloc: Global) -> PlainBoard {
    let start = vec![in alloc;
        None,
        Some(version(rt, alloc, 7)),
        None,
        Some(version(rt, alloc, 8)),
        None,
    ];
    let start = start.expect(rt, "versions");
    let catalog = catalog_of(rt, alloc, &MAPS);
    assert_fits(rt, start.len(), &catalog);
    PlainBoard::new(alloc, catalog, start).expect(rt, "a board")
}

// The order of the version of a map that a view holds.
fn held_order<V: View>(rt: &impl Abort, view: &V, map: u32) -> Option<u32> {
    assert_has(rt, view.catalog(), map);
    match view.held(map) {
        Some(version) => Some(version.order().number()),
        None => None,
    }
}

// The orders of the versions that a board of `MAPS` holds.
fn held_orders(rt: &impl Abort, board: &PlainBoard) -> [Option<u32>; 5] {
    [
        held_order(rt, board, 0),
        held_order(rt, board, 1),
        held_order(rt, board, 2),
        held_order(rt, board, 3),
        held_order(rt, board, 4),
    ]
}

fn assert_shows<R: RandomSource + Abort>(rt: &R, alloc: Global, board: &mut PlainBoard) {
    let before = [None, Some(7), None, Some(8), None];
    assert_same(rt, &held_orders(rt, board), &before, "before");
    // A map and the order of a version that is shown of it, and the orders that are held then.
    let steps: [(u32, u32, [Option<u32>; 5]); 3] = [
        (1, 6, [None, Some(6), None, Some(8), None]),
        (4, 9, [None, Some(6), None, Some(8), Some(9)]),
        (1, 10, [None, Some(10), None, Some(8), Some(9)]),
    ];
    for (map, order, held) in steps {
        assert_has(rt, board.catalog(), map);
        board
            .show(map, version(rt, alloc, order))
            .expect(rt, "memory");
        board.refresh();
        let came = (order, held_orders(rt, board));
        assert_same(rt, &came, &(order, held), "the order that is shown");
    }
    assert_looks_up(rt, board.catalog());
}

#[test]
fn shows_versions(rt: HostRuntime) {
    let mut board = board(&rt, rt.alloc());
    assert_shows(&rt, rt.alloc(), &mut board);
}
