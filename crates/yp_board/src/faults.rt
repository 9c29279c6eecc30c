//! What is wrong with maps that are to make a catalogue.

ghost use Rattle.std.specs.Prelude.{◌≡◌, ◌≤◌, ◌^◌, map, length};
ghost use Rattle.std.specs.List.{list_any};
ghost use Rattle.yp_board.specs.Catalogues.{name_view, is_name, is_same};
ghost use Rattle.yp_board.specs.inside.Catalogues.{is_map_name, with_numbers, bad_name, twice};
ghost use Rattle.yp_board.specs.inside.Catalogues.{catalog_fault};

use crate::catalog::{CatalogFault, MAPS_MAX, MapName, NAME_MAX};

/// How many maps have a number of 32 bits.
const NUMBERED: usize = 4_294_967_296;

/// What is wrong with an own name and maps, the first fault that applies.
pub(crate) fn fault_of(own: &[u8], maps: &[MapName]) -> Option<CatalogFault>
    ensures { result ≡ catalog_fault own.now (map name_view maps.now) }
{
    if !is_name(own) {
        return Some(CatalogFault::OwnName);
    }
    if let Some(index) = bad_name(maps) {
        return Some(CatalogFault::BadName { index });
    }
    if let Some(index) = twice(maps) {
        return Some(CatalogFault::Twice { index });
    }
    if maps.len() > MAPS_MAX {
        return Some(CatalogFault::TooMany);
    }
    None
}

/// Whether these bytes are one or more, within the limit.
fn is_name(bytes: &[u8]) -> bool
    ensures { result ≡ is_name bytes.now }
{
    !bytes.is_empty() && bytes.len() <= NAME_MAX
}

/// Whether both parts of a name are such bytes.
fn is_map_name(name: &MapName) -> bool
    ensures { result ≡ is_map_name (name_view name.now) }
{
    is_name(&name.domain) && is_name(&name.map)
}

/// The maps that have a number.
fn with_numbers(maps: &[MapName]) -> &[MapName]
    ensures names { map name_view result.now ≡ with_numbers (map name_view maps.now) }
    ensures count { length result.now ≤ 2 ^ 32 }
{
    &maps[..maps.len().min(NUMBERED)]
}

/// The number of the first map whose name has a part that is empty or too long.
fn bad_name(maps: &[MapName]) -> Option<u32>
    ensures { result ≡ bad_name (map name_view maps.now) }
{
    let place = with_numbers(maps)
        .iter()
        .position(|name| !is_map_name(name))?;
    Some(place as u32)
}

/// Whether the name stands among these.
fn is_among(name: &MapName, names: &[MapName]) -> bool
    ensures { result ≡ list_any (is_same (name_view name.now)) (map name_view names.now) }
{
    names.iter().any(|other| name.is(&other.domain, &other.map))
}

/// The number of the first map whose name stands a second time. Each is compared with all before it.
fn twice(maps: &[MapName]) -> Option<u32>
    ensures { result ≡ twice (map name_view maps.now) }
{
    let names = with_numbers(maps);
    for (index, name) in names.iter().enumerate() {
        if is_among(name, &names[..index]) {
            return Some(index as u32);
        }
    }
    None
}
