//! The places of rows in the order of their keys.

ghost use Rattle.std.specs.Prelude.{◌≡◌, map, slice_index, IfOk, IsPermutation};
ghost use Rattle.std.specs.Ordering.{is_lt};
ghost use Rattle.std.specs.List.Sorted.{IsSortedBy};
ghost use Rattle.yp_xdr.specs.inside.Reading.{IsBytes};
ghost use Rattle.yp_version.specs.Rows.{key_cmp};
ghost use Rattle.yp_version.specs.inside.Slabs.{key_from};
ghost use Rattle.yp_version.specs.inside.Ranks.{front_of, ranked_at, rank_cmp};

use crate::slab::key_from;
use std::alloc::Global;
use std::cmp::Ordering;
use yp_io::NoMemory;

/// The place of a row, with the first bytes of its key as a number, which mostly tell which of two keys is the lower.
#[derive(Clone, Copy)]
pub(crate) struct Ranked {
    front: u64,
    place: u32,
}

// A byte of a key, and 0 behind its last one.
fn byte_at(key: &[u8], i: usize) -> u8
    ensures { result ≡ slice_index key.now i }
{
    if i < key.len() { key[i] } else { 0 }
}

// The first eight bytes of a key as a number.
#[tactic(auto, unfolding(crate::specs::inside::Ranks::front_of))]
fn front_of(key: &[u8]) -> u64
    ensures { result ≡ front_of key.now }
{
    u64::from_be_bytes([
        byte_at(key, 0),
        byte_at(key, 1),
        byte_at(key, 2),
        byte_at(key, 3),
        byte_at(key, 4),
        byte_at(key, 5),
        byte_at(key, 6),
        byte_at(key, 7),
    ])
}

// The rows at these places, with the fronts of their keys.
fn with_fronts(alloc: Global, bytes: &[u8], places: &[u32]) -> Result<Vec<Ranked>, NoMemory>
    ensures items { IfOk result (λ ranked. ranked.items ≡ map (ranked_at bytes.now) places.now) }
    ensures are_bytes { IsBytes bytes.now }
{
    let mut ranked = Vec::with_capacity(alloc, places.len()).map_err(|_| NoMemory)?;
    for place in places {
        let front = front_of(key_from(bytes, *place));
        ranked
            .push(Ranked {
                front,
                place: *place,
            })
            .map_err(|_| NoMemory)?;
    }
    Ok(ranked)
}

// Their places, in the memory of others.
fn places_of(ranked: &[Ranked], others: Vec<u32>) -> Result<Vec<u32>, NoMemory>
    ensures { IfOk result (λ places. places.items ≡ map (λ ranked. ranked.place) ranked.now) }
{
    let mut places = others;
    places.clear();
    for row in ranked {
        places.push(row.place).map_err(|_| NoMemory)?;
    }
    Ok(places)
}

// Which of two rows comes first. Their keys are read only where their first bytes are the same.
fn rank_cmp(bytes: &[u8], a: &Ranked, b: &Ranked) -> Ordering
    ensures { result ≡ rank_cmp bytes.now a.now b.now }
{
    match a.front.cmp(&b.front) {
        Ordering::Equal => key_from(bytes, a.place).cmp(key_from(bytes, b.place)),
        apart => apart,
    }
}

/// These places in rising order of the keys that are spelled there. What sorts them is given back.
pub(crate) fn sorted_places(
    alloc: Global,
    bytes: &[u8],
    places: Vec<u32>,
) -> Result<Vec<u32>, NoMemory>
    ensures moved { IfOk result (λ sorted. IsPermutation places.items sorted.items) }
    ensures sorted { IfOk result (λ sorted.
        IsSortedBy (λ a b. is_lt (key_cmp (key_from bytes.now a) (key_from bytes.now b))) sorted.items) }
{
    let mut ranked = with_fronts(alloc, bytes, &places)?;
    ranked.sort_unstable_by(
        |a: &Ranked, b: &Ranked| -> Ordering
            ensures { result ≡ rank_cmp bytes.entry.now a.now b.now }
        { rank_cmp(bytes, a, b) },
    );
    places_of(&ranked, places)
}
