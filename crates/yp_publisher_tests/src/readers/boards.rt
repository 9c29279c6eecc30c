//! Boards of two maps, and what is shown on them.

ghost use Rattle.std.specs.Prelude.{◌≡◌};

use crate::given::{assert_fits, catalog};
use std::alloc::Global;
use std::process::Abort;
use std::random::RandomSource;
use std::sync::{Arc, Wait};
use yp_board::Show;
use yp_board::readers::{Naming, Opened, Reader, Writer, board};
use yp_version::Version;

/// A version of this order.
pub fn version<R: RandomSource + Abort>(rt: &R, alloc: Global, order: u32) -> Arc<Version> {
    let version = crate::given::version(rt, alloc, order, b"m1");
    Arc::new(alloc, version).expect(rt, "a shared version")
}

// What a board begins with: a version of order 1 of the first map.
fn start<R: RandomSource + Abort>(rt: &R, alloc: Global) -> Vec<Option<Arc<Version>>> {
    vec![in alloc; Some(version(rt, alloc, 1)), None].expect(rt, "versions")
}

/// A board of two maps, the first of which shows a version of order 1, with so many readers, 1 to 9.
pub fn board_of<'r, J: Naming, R: Wait + RandomSource + Abort>(
    rt: &'r R,
    alloc: Global,
    opened: Opened,
    readers: u32,
) -> (Writer<J, &'r R>, Vec<Reader<J>>)
    requires { opened ≡ J.book }
{
    let catalog = catalog(rt, alloc, b"m1", 2);
    let start = start(rt, alloc);
    assert_fits(rt, start.len(), &catalog);
    assert!(rt; 1 <= readers && readers <= 9);
    board(alloc, rt, opened, catalog, start, readers).expect(rt, "a board")
}

/// Shows a version of a map, and says whether it did.
pub fn shows<J: Naming, R: Wait + Drop>(
    writer: &mut Writer<J, R>,
    map: u32,
    version: Arc<Version>,
) -> bool {
    (map as usize) < writer.maps() && writer.show(map, version).is_ok()
}
