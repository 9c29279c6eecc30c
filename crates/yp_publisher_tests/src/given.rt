//! What the tests share. A call of each takes no exit from its caller: an exit costs seconds to prove.

ghost use Rattle.std.specs.Prelude.{◌≡◌, length};

use std::alloc::Global;
use std::fmt::Debug;
use std::process::Abort;
use std::random::RandomSource;
use yp_board::readers::{Naming, Reader};
use yp_board::{Catalog, MapName, View};
use yp_version::{Order, Version, VersionBuilder};

/// The bytes of texts of hexadecimal words, as `8000004c 00000001`.
pub fn bytes<R: Abort>(rt: &R, alloc: Global, texts: &[&str]) -> Vec<u8> {
    yp_for_tests::bytes(alloc, texts).expect(rt, "hexadecimal words")
}

/// The bytes of a text of hexadecimal words and of names, each told by a line.
pub fn named<R: Abort>(rt: &R, alloc: Global, names: &str, text: &str) -> Vec<u8> {
    yp_for_tests::named(alloc, names, text).expect(rt, "hexadecimal words and names")
}

/// The parts of a row `NAME: CALL -> REPLY`.
pub fn parts<'r, R: Abort>(rt: &R, row: &'r str) -> (&'r str, &'r str, &'r str) {
    yp_for_tests::parts(row).expect(rt, "a row")
}

/// Ends the test where what came isn't what is wanted, and tells of which row.
pub fn assert_same<R: Abort, T: PartialEq + Debug>(rt: &R, came: &T, wanted: &T, row: &str) {
    assert!(rt; came == wanted, "{row}: {came:?} came, not {wanted:?}");
}

/// A version of this order, with the row `alpha`, `10.0.0.1 alpha`.
pub fn version<R: RandomSource + Abort>(
    rt: &R,
    alloc: Global,
    order: u32,
    master: &[u8; 2],
) -> Version {
    let mut builder = VersionBuilder::new(alloc, rt, Order(order), master).expect(rt, "a builder");
    let is_pushed = matches!(builder.push(b"alpha", b"10.0.0.1 alpha"), Ok(true));
    assert!(rt; is_pushed);
    builder.finish().expect(rt, "a version")
}

fn owned(rt: &impl Abort, alloc: Global, bytes: &[u8]) -> Vec<u8> {
    bytes.to_vec(alloc).expect(rt, "memory for bytes")
}

/// The catalogue of a host, with so many maps of the domain `lab`.
pub fn catalog(rt: &impl Abort, alloc: Global, own: &[u8], count: u8) -> Catalog {
    let mut maps = Vec::new(alloc);
    for number in 0..count {
        let (domain, map) = (owned(rt, alloc, b"lab"), owned(rt, alloc, &[number]));
        maps.push(MapName { domain, map })
            .expect(rt, "memory for names");
    }
    Catalog::new(alloc, owned(rt, alloc, own), maps).expect(rt, "a catalogue")
}

/// Ends the test where there aren't as many things as a catalogue has maps.
pub fn assert_fits(rt: &impl Abort, count: usize, catalog: &Catalog)
    ensures { count ≡ length catalog.now.maps }
{
    assert!(rt; count == catalog.len() as usize);
}

/// One of these readers.
pub fn one_of<J: Naming>(rt: &impl Abort, readers: &mut Vec<Reader<J>>) -> Reader<J> {
    readers.pop().expect(rt, "a reader")
}

/// The order of the version of a map that a reader holds.
pub fn held<J: Naming>(reader: &Reader<J>, map: u32) -> Option<u32> {
    if map < reader.catalog().len() {
        Some(reader.held(map)?.order().number())
    } else {
        None
    }
}
