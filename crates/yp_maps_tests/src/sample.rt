//! Maps of two domains, and what is looked up in a catalogue of them.

ghost use Rattle.std.specs.Prelude.{◌<◌, length};

use crate::given::assert_same;
use std::alloc::Global;
use std::process::Abort;
use yp_board::*;

// A map, by its domain and its name.
pub type Pair<'a> = (&'a [u8], &'a [u8]);

pub fn name(rt: &impl Abort, alloc: Global, (domain, map): Pair<'_>) -> MapName {
    MapName {
        domain: Vec::from_slice(alloc, domain).expect(rt, "a domain"),
        map: Vec::from_slice(alloc, map).expect(rt, "a map"),
    }
}

pub fn names(rt: &impl Abort, alloc: Global, pairs: &[Pair<'_>]) -> Vec<MapName> {
    let mut names = Vec::new(alloc);
    for pair in pairs {
        names.push(name(rt, alloc, *pair)).expect(rt, "a name");
    }
    names
}

// Maps out of order. The byte 128 comes behind all letters.
pub static MAPS: [Pair; 5] = [
    (b"e", b"a"),
    (b"d", b"b\x80"),
    (b"d", b"z"),
    (b"d", b"bz"),
    (b"d", b"b"),
];

// A catalogue of these maps, of the host `m1`.
pub fn catalog_of(rt: &impl Abort, alloc: Global, pairs: &[Pair<'_>]) -> Catalog {
    let own = Vec::from_slice(alloc, b"m1").expect(rt, "a name");
    Catalog::new(alloc, own, names(rt, alloc, pairs)).expect(rt, "a catalogue")
}

// A map with this number has to be in a catalogue.
pub fn assert_has(rt: &impl Abort, catalog: &Catalog, number: u32)
    ensures { number < length catalog.now.maps }
{
    assert!(rt; number < catalog.len());
}

// The map with this number of a catalogue, and its name.
fn assert_finds(rt: &impl Abort, catalog: &Catalog, number: u32, pair: Pair<'_>) {
    let (domain, map) = pair;
    assert_has(rt, catalog, number);
    let found = catalog.find(domain, map);
    let name = catalog.name(number);
    let came = (found, name.domain.as_slice(), name.map.as_slice());
    let wanted = (Some(number), domain, map);
    assert_same(rt, &came, &wanted, "a map and its name");
}

// What is looked up in a catalogue of `MAPS`.
pub fn assert_looks_up(rt: &impl Abort, catalog: &Catalog) {
    let came = (
        catalog.own(),
        catalog.is_empty(),
        catalog.len(),
        catalog.listed(),
    );
    let listed = [4, 3, 1, 2, 0];
    let wanted = (b"m1".as_slice(), false, 5, listed.as_slice());
    assert_same(rt, &came, &wanted, "five maps");
    for (place, pair) in MAPS.iter().enumerate() {
        assert_finds(rt, catalog, place as u32, *pair);
    }
}
