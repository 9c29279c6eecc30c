//! What the tests share. A call of each takes no exit from its caller: an exit costs seconds to prove.

ghost use Rattle.std.specs.Prelude.{◌≡◌, ◌≤◌, length};
ghost use Rattle.std.specs.List.{All};

use std::alloc::Global;
use std::fmt::Debug;
use std::process::Abort;
use std::random::RandomSource;
use std::sync::Wait;
use yp_board::Catalog;
use yp_board::readers::{Naming, Opened, Reader};
use yp_for_server_tests::Maps;
pub use yp_for_tests::NEVER;

/// The bytes of a text of hexadecimal words and of names, each told by a line.
pub fn named<R: Abort>(rt: &R, alloc: Global, names: &str, text: &str) -> Vec<u8> {
    yp_for_tests::named(alloc, names, text).expect(rt, "hexadecimal words and names")
}

/// Ends the test where what came isn't what is wanted, and tells of which row.
pub fn assert_same<R: Abort, T: PartialEq + Debug>(rt: &R, came: &T, wanted: &T, row: &str) {
    assert!(rt; came == wanted, "{row}: {came:?} came, not {wanted:?}");
}

/// Ends the test where there aren't as many things as a catalogue has maps.
pub fn assert_fits(rt: &impl Abort, count: usize, catalog: &Catalog)
    ensures { count ≡ length catalog.now.maps }
{
    assert!(rt; count == catalog.len() as usize);
}

/// A publisher of hosts.byname of `lab` with this file, on a host of this name, and so many readers of its board, at
/// least one.
pub fn publisher<'r, J: Naming, R: Wait + RandomSource + Abort>(
    rt: &'r R,
    alloc: Global,
    opened: Opened,
    own: &[u8],
    file: Vec<u8>,
    readers: u32,
) -> (Maps<'r, J, R>, Vec<Reader<J>>)
    requires opened { opened ≡ J.book }
    requires readers { 1 ≤ readers }
    ensures count { length result.1.items ≡ readers }
    ensures seen { All (λ reader. reader.catalogue ≡ result.0.catalogue) result.1.items }
    ensures known { All (λ reader. reader.known ≡ result.0.board.log) result.1.items }
{
    yp_for_server_tests::publisher(alloc, rt, opened, own, file, readers).expect(rt, "a publisher")
}
