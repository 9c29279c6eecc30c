//! The order in which maps are listed.

ghost use Rattle.std.specs.Prelude.{◌≡◌, ◌<◌, ◌≤◌, [], All, map, length, slice_index_or, IfOk};
ghost use Rattle.std.specs.List.{IsDistinct, position_or_len};
ghost use Rattle.std.specs.Ordering.{is_le};
ghost use Rattle.yp_board.specs.Catalogues.{name_view, name_cmp, is_same, maps_max, listed};

use crate::catalog::MapName;
use std::alloc::{AllocError, Global};
use std::cmp::Ordering;

/// The numbers of maps with distinct names, in rising order of their names.
///
/// Each is put in its place among those behind it. There are at most 64.
pub(crate) fn rising(alloc: Global, maps: &[MapName]) -> Result<Vec<u32>, AllocError>
    requires count { length maps.now ≤ maps_max }
    requires distinct { IsDistinct is_same (map name_view maps.now) }
    ensures within { IfOk result (λ numbers. All (λ number. number < length maps.now) numbers.items) }
    ensures rising { IfOk result (λ numbers.
        map (λ number. slice_index_or (map name_view maps.now) number ([], [])) numbers.items
        ≡ listed (map name_view maps.now)) }
{
    let mut numbers = Vec::with_capacity(alloc, maps.len())?;
    for number in (0..maps.len()).rev() {
        let place = place_of(maps, &numbers, &maps[number]);
        numbers.insert(place, number as u32)?;
    }
    Ok(numbers)
}

/// The place that a name has among those with these numbers.
fn place_of(maps: &[MapName], numbers: &[u32], name: &MapName) -> usize
    requires { All (λ number. number < length maps.now) numbers.now }
    ensures place { result ≡ position_or_len
        (λ number. is_le (name_cmp (name_view name.now) (slice_index_or (map name_view maps.now) number ([], []))))
        numbers.now }
    ensures within { result ≤ length numbers.now }
{
    for (place, number) in numbers.iter().enumerate() {
        if name_order(name, &maps[*number as usize]).is_le() {
            return place;
        }
    }
    numbers.len()
}

/// The order of two names: by the bytes of their domains, and then of their maps.
fn name_order(a: &MapName, b: &MapName) -> Ordering
    ensures { result ≡ name_cmp (name_view a.now) (name_view b.now) }
{
    match a.domain.as_slice().cmp(b.domain.as_slice()) {
        Ordering::Equal => a.map.as_slice().cmp(b.map.as_slice()),
        order => order,
    }
}
