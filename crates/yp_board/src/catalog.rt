//! The maps that are served.

ghost use Rattle.std.specs.Prelude.{◌≡◌, ℕ, ◌<◌, ◌↔◌, ◌⊎◌, [], All, map, length, slice_get, slice_index_or, None, Some};
ghost use Rattle.std.specs.Prelude.{IsTrue, IfOk, IfErr, OnOk};
ghost use Rattle.yp_board.specs.Catalogues.{IsCatalogue, name_view, is_named, find, serves, listed};
ghost use Rattle.yp_board.specs.inside.Catalogues.{catalog_fault};

use crate::faults::fault_of;
use crate::order::rising;
use std::alloc::{AllocError, Global};
use std::marker::Model;
use yp_io::NoMemory;
use yp_messages::protocol;

/// The most bytes of a name (`yp.x`, YPMAXDOMAIN, YPMAXMAP, YPMAXPEER).
pub const NAME_MAX: usize = protocol::NAME_MAX as usize;

/// The most maps of a catalogue.
pub const MAPS_MAX: usize = 64;

/// A map, in the domain that it belongs to.
#[derive(Debug, PartialEq, Eq, Drop)]
pub struct MapName {
    pub domain: Vec<u8>,
    pub map: Vec<u8>,
}

impl MapName {
    /// Whether its domain and its map are these.
    pub(crate) fn is(&self, domain: &[u8], map: &[u8]) -> bool
        ensures { result ≡ is_named domain.now map.now (name_view self.now) }
    {
        self.domain.as_slice() == domain && self.map.as_slice() == map
    }

    /// A copy of the name.
    pub fn copy(&self, alloc: Global) -> Result<MapName, AllocError>
        ensures { IfOk result (λ copy. name_view copy ≡ name_view self.now) }
    {
        let domain = Vec::from_slice(alloc, &self.domain)?;
        let map = Vec::from_slice(alloc, &self.map)?;
        Ok(MapName { domain, map })
    }
}

/// A copy of the names.
pub fn copy_names(alloc: Global, names: &[MapName]) -> Result<Vec<MapName>, AllocError>
    ensures { IfOk result (λ copies. map name_view copies.items ≡ map name_view names.now) }
{
    let mut copies = Vec::with_capacity(alloc, names.len())?;
    for name in names {
        copies.push(name.copy(alloc)?)?;
    }
    Ok(copies)
}

/// Why maps make no catalogue, the first fault that applies.
#[derive(Clone, Copy, Debug, PartialEq, Eq)]
pub enum CatalogFault {
    /// The own name is empty or over 64 bytes.
    OwnName,

    /// The domain or map of the map with this number is empty or over 64 bytes. It is the first such map.
    BadName { index: u32 },

    /// The map with this number has the name of one before it. It is the first such map.
    Twice { index: u32 },

    /// There are over 64 maps.
    TooMany,

    /// Memory ran out.
    NoMemory,
}

/// The own name of a host, and the maps that it serves, numbered from 0.
#[derive(Debug, Drop)]
pub struct Catalog {
    own: Vec<u8>,
    maps: Vec<MapName>,
    listed: Vec<u32>,
}

impl Model for Catalog {
    ghost use Rattle.yp_board.specs.Catalogues.{Catalogue};

    ghost Value = { Catalogue };

    ghost use Rattle.yp_board.specs.inside.Catalog.{catalogue_of, IsKept};

    ghost view = { catalogue_of };

    ghost invariant = { IsKept };
}

impl Catalog {
    /// A catalogue of these maps, in their order.
    pub fn new(alloc: Global, own: Vec<u8>, maps: Vec<MapName>) -> Result<Catalog, CatalogFault>
        ensures ok { IfOk result (λ catalog. catalog ≡ record { own = own.items; maps = map name_view maps.items }) }
        ensures sound { OnOk result (catalog_fault own.items (map name_view maps.items) ≡ None) }
        ensures cause { IfErr result (λ fault. (catalog_fault own.items (map name_view maps.items) ≡ Some fault)
            ⊎ ((fault ≡ CatalogFault.NoMemory) × (catalog_fault own.items (map name_view maps.items) ≡ None))) }
    {
        if let Some(fault) = fault_of(&own, &maps) {
            return Err(fault);
        }
        match rising(alloc, &maps) {
            Ok(listed) => Ok(Catalog { own, maps, listed }),
            Err(_) => Err(CatalogFault::NoMemory),
        }
    }

    /// The own name of the host.
    pub fn own(&self) -> &[u8]
        ensures own { result.now ≡ self.now.own }
        ensures catalogue { IsCatalogue self.now }
    {
        self.own.as_slice()
    }

    /// The number of maps.
    pub fn len(&self) -> u32
        ensures len { result ≡ length self.now.maps }
        ensures catalogue { IsCatalogue self.now }
    {
        self.maps.len() as u32
    }

    /// Whether there are no maps.
    pub fn is_empty(&self) -> bool
        ensures { IsTrue result ↔ (self.now.maps ≡ []) }
    {
        self.maps.is_empty()
    }

    /// The name of the map with this number.
    pub fn name(&self, map: u32) -> &MapName
        requires { map < length self.now.maps }
        ensures name { slice_get self.now.maps map ≡ Some (name_view result.now) }
        ensures catalogue { IsCatalogue self.now }
    {
        &self.maps[map as usize]
    }

    /// The number of the map with this name.
    pub fn find(&self, domain: &[u8], map: &[u8]) -> Option<u32>
        ensures found { result ≡ find domain.now map.now self.now }
        ensures catalogue { IsCatalogue self.now }
    {
        let place = self.maps.iter().position(|name| name.is(domain, map))?;
        Some(place as u32)
    }

    /// Whether some map has this domain.
    pub fn serves(&self, domain: &[u8]) -> bool
        ensures served { result ≡ serves domain.now self.now }
        ensures catalogue { IsCatalogue self.now }
    {
        self.maps
            .iter()
            .any(|name| name.domain.as_slice() == domain)
    }

    /// The numbers of the maps, in rising byte order of their domains and then of their maps.
    pub fn listed(&self) -> &[u32]
        ensures within { All (λ map. map < length self.now.maps) result.now }
        ensures listed { map (λ map. slice_index_or self.now.maps map ([], [])) result.now ≡ listed self.now.maps }
        ensures catalogue { IsCatalogue self.now }
    {
        self.listed.as_slice()
    }

    /// A copy of the catalogue.
    pub fn copy(&self, alloc: Global) -> Result<Catalog, NoMemory>
        ensures { IfOk result (λ catalog. catalog ≡ self.now) }
    {
        let own = Vec::from_slice(alloc, &self.own).map_err(|_| NoMemory)?;
        let maps = copy_names(alloc, &self.maps).map_err(|_| NoMemory)?;
        let listed = Vec::from_slice(alloc, &self.listed).map_err(|_| NoMemory)?;
        Ok(Catalog { own, maps, listed })
    }
}
