//! What the tests share. A call of each takes no exit from its caller: an exit costs seconds to prove.

ghost use Rattle.std.specs.Prelude.{◌≡◌, length};

use std::alloc::Global;
use std::fmt::Debug;
use std::process::Abort;
use yp_board::Catalog;
use yp_for_server_tests::{Closed, Map, Visit};
pub use yp_for_tests::NEVER;
use yp_memory::MemHall;

/// The bytes of a text of hexadecimal words and of names, each told by a line.
pub fn named<R: Abort>(rt: &R, alloc: Global, names: &str, text: &str) -> Vec<u8> {
    yp_for_tests::named(alloc, names, text).expect(rt, "hexadecimal words and names")
}

/// Ends the test where what came isn't what is wanted, and tells of which row.
pub fn assert_same<R: Abort, T: PartialEq + Debug>(rt: &R, came: &T, wanted: &T, row: &str) {
    assert!(rt; came == wanted, "{row}: {came:?} came, not {wanted:?}");
}

/// Ends the test where there aren't as many things as a catalogue has maps.
pub fn assert_fits(rt: &impl Abort, count: usize, catalog: &Catalog)
    ensures { count ≡ length catalog.now.maps }
{
    assert!(rt; count == catalog.len() as usize);
}

/// A catalogue of these maps.
pub fn catalog_of(rt: &impl Abort, alloc: Global, own: &[u8], maps: &[Map]) -> Catalog {
    yp_for_server_tests::catalog_of(alloc, own, maps).expect(rt, "a catalogue")
}

/// A hall, where what callers send is spelled by these names of words.
pub fn hall(rt: &impl Abort, alloc: Global, names: &str, visit: &Visit<'_>) -> MemHall {
    yp_for_server_tests::hall(alloc, names, visit).expect(rt, "a hall")
}

/// What the connections that were closed had taken, by the worker that closed them, and of each in their order.
pub fn closed(rt: &impl Abort, alloc: Global, listen: &MemHall) -> Vec<Closed> {
    yp_for_server_tests::closed(alloc, listen).expect(rt, "memory for bytes")
}

/// What the connections that were closed had taken, in the order in which they came.
pub fn taken(rt: &impl Abort, alloc: Global, listen: &MemHall) -> Vec<u8> {
    yp_for_server_tests::taken(alloc, listen).expect(rt, "memory for bytes")
}
