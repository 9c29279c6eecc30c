//! What a catalogue finds, and which maps make none.

use crate::given::assert_same;
use crate::sample::*;
use std::alloc::Global;
use std::process::Abort;
use yp_board::*;

// Maps that a catalogue of `MAPS` doesn't have.
static ABSENT: [Pair; 5] = [
    (b"e", b"b"),
    (b"", b"a"),
    (b"e", b""),
    (b"e", b"aa"),
    (b"E", b"a"),
];

// Domains, and whether it serves them.
static DOMAINS: [(&[u8], bool); 6] = [
    (b"d", true),
    (b"e", true),
    (b"", false),
    (b"D", false),
    (b"de", false),
    (b"a", false),
];

#[test]
fn looks_up_maps(rt: HostRuntime) {
    let catalog = catalog_of(&rt, rt.alloc(), &MAPS);
    assert_looks_up(&rt, &catalog);
    for (domain, map) in &ABSENT {
        let came = (*domain, *map, catalog.find(*domain, *map));
        assert_same(&rt, &came, &(*domain, *map, None), "a map that is absent");
    }
    for (domain, served) in &DOMAINS {
        let came = (*domain, catalog.serves(*domain));
        assert_same(&rt, &came, &(*domain, *served), "a domain");
    }
}

#[test]
fn copies_a_catalogue(rt: HostRuntime) {
    let alloc = rt.alloc();
    let catalog = catalog_of(&rt, alloc, &MAPS);
    let copy = catalog.copy(alloc).expect(&rt, "a copy");
    assert_looks_up(&rt, &copy);
}

#[test]
fn serves_no_map(rt: HostRuntime) {
    let catalog = catalog_of(&rt, rt.alloc(), &[]);
    let found = (catalog.find(b"d", b"m"), catalog.serves(b"d"));
    let came = (
        catalog.is_empty(),
        catalog.len(),
        catalog.listed().len(),
        found,
    );
    assert_same(&rt, &came, &(true, 0, 0, (None, false)), "no map");
}

// How many maps a catalogue of a host has, or why there is none.
fn count_or_fault(
    rt: &impl Abort,
    alloc: Global,
    own: &[u8],
    maps: Vec<MapName>,
) -> Result<u32, CatalogFault> {
    let own = Vec::from_slice(alloc, own).expect(rt, "a name");
    match Catalog::new(alloc, own, maps) {
        Ok(catalog) => Ok(catalog.len()),
        Err(fault) => Err(fault),
    }
}

const LONG: &[u8] = &[b'n'; 65];

const FULL: &[u8] = &[b'n'; 64];

// An own name, maps, and how many there are or the fault that they have.
static FAULTS: [(&str, &[u8], &[Pair], Result<u32, CatalogFault>); 9] = [
    (
        "no own name, before a bad one",
        b"",
        &[(b"", b"m")],
        Err(CatalogFault::OwnName),
    ),
    (
        "an own name that is too long",
        LONG,
        &[],
        Err(CatalogFault::OwnName),
    ),
    ("names as long as they may be", FULL, &[(FULL, FULL)], Ok(1)),
    (
        "a map without a name, before a domain without one",
        b"h",
        &[(b"d", b"m"), (b"d", b""), (b"", b"m")],
        Err(CatalogFault::BadName { index: 1 }),
    ),
    (
        "a domain that is too long",
        b"h",
        &[(LONG, b"m")],
        Err(CatalogFault::BadName { index: 0 }),
    ),
    (
        "a map that is too long",
        b"h",
        &[(b"d", LONG)],
        Err(CatalogFault::BadName { index: 0 }),
    ),
    (
        "a bad name behind one that stands twice",
        b"h",
        &[(b"d", b"m"), (b"d", b"m"), (b"", b"m")],
        Err(CatalogFault::BadName { index: 2 }),
    ),
    (
        "a name that stands twice",
        b"h",
        &[(b"d", b"m"), (b"e", b"m"), (b"d", b"n"), (b"d", b"m")],
        Err(CatalogFault::Twice { index: 3 }),
    ),
    (
        "a domain and a map in each other's place",
        b"h",
        &[(b"d", b"m"), (b"e", b"m"), (b"d", b"n"), (b"m", b"d")],
        Ok(4),
    ),
];

#[test]
fn refuses_maps(rt: HostRuntime) {
    let alloc = rt.alloc();
    for (row, own, pairs, wanted) in &FAULTS {
        let maps = names(&rt, alloc, *pairs);
        let made = count_or_fault(&rt, alloc, *own, maps);
        assert_same(&rt, &made, wanted, *row);
    }
}

// Names of maps of the domain `d`, each of one byte: 0, 1, and so on.
fn numbered(rt: &impl Abort, alloc: Global, count: u8) -> Vec<MapName> {
    let mut names = Vec::new(alloc);
    for byte in 0..count {
        names
            .push(name(rt, alloc, (b"d", &[byte])))
            .expect(rt, "a name");
    }
    names
}

#[test]
fn at_most_64_maps(rt: HostRuntime) {
    let alloc = rt.alloc();
    let full = count_or_fault(&rt, alloc, b"h", numbered(&rt, alloc, 64));
    assert_same(&rt, &full, &Ok(64), "64 maps");
    let over = count_or_fault(&rt, alloc, b"h", numbered(&rt, alloc, 65));
    assert_same(&rt, &over, &Err(CatalogFault::TooMany), "65 maps");
    // The map 5 stands once more behind them.
    let mut names = numbered(&rt, alloc, 65);
    names
        .push(name(&rt, alloc, (b"d", b"\x05")))
        .expect(&rt, "a name");
    let twice = count_or_fault(&rt, alloc, b"h", names);
    let wanted = Err(CatalogFault::Twice { index: 65 });
    assert_same(&rt, &twice, &wanted, "65 maps, and one of them twice");
}
