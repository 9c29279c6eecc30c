//! Catalogues, and the disks and texts of their maps.

use std::alloc::Global;
use yp_board::{Catalog, MapName};
use yp_memory::{MemDisk, MemTexts};

/// The domain and the name of a map.
pub type Map = (&'static [u8], &'static [u8]);

pub const LAB: Map = (b"lab", b"hosts.byname");

fn owned(alloc: Global, bytes: &[u8]) -> Option<Vec<u8>> {
    Vec::from_slice(alloc, bytes).ok()
}

/// A catalogue of these maps. There is none where memory runs out, or where it would be no catalogue.
pub fn catalog_of(alloc: Global, own: &[u8], maps: &[Map]) -> Option<Catalog> {
    let mut names = Vec::new(alloc);
    for (domain, map) in maps {
        let (domain, map) = (owned(alloc, *domain)?, owned(alloc, *map)?);
        names.push(MapName { domain, map }).ok()?;
    }
    Catalog::new(alloc, owned(alloc, own)?, names).ok()
}

/// A disk with this file, whose calls don't fail.
pub fn sound_disk(alloc: Global, file: Vec<u8>) -> MemDisk {
    MemDisk::new(alloc, file, None, Vec::new(alloc))
}

/// One text, with its name. The read with this number fails.
pub fn texts_of(alloc: Global, name: &[u8], text: &[u8], failing: u64) -> Option<MemTexts> {
    let text = (owned(alloc, name)?, owned(alloc, text)?);
    let texts = vec![in alloc; text].ok()?;
    let failing = vec![in alloc; failing].ok()?;
    Some(MemTexts::new(texts, failing))
}
