//! Rows as they stand in the body of a version.

ghost use Rattle.std.specs.Prelude.{◌≡◌, ◌+◌, ◌<◌, ◌≤◌, length, map, option_map, IfSome, slice_get, slice_index_or};
ghost use Rattle.yp_version.specs.Limits.{key_max, value_max};
ghost use Rattle.yp_version.specs.Rows.{row_len};
ghost use Rattle.yp_version.specs.inside.Bodies.{spelled_row};
ghost use Rattle.yp_version.specs.inside.Slabs.{IsRowAt, AreRowsAt, row_from};

use crate::limits::{WORD, padded};
use crate::slab::key_from;
use std::marker::Model;

/// The rows of a version as they stand in its body.
#[derive(Debug, Drop)]
pub struct SpelledRows<'a> {
    bytes: &'a [u8],
    places: &'a [u32],
}

impl<'a> Model for SpelledRows<'a> {
    ghost use Rattle.std.specs.Prelude.{List};
    ghost use Rattle.yp_version.specs.Rows.{Row};

    ghost Value = { List Row };

    ghost use Rattle.yp_version.specs.inside.SpelledRows.{rows_of, IsSpelled};

    ghost view = { rows_of };

    ghost invariant = { IsSpelled };
}

impl<'a> SpelledRows<'a> {
    // The rows that stand at these places.
    pub(crate) fn new(bytes: &'a [u8], places: &'a [u32]) -> SpelledRows<'a>
        requires { AreRowsAt bytes.now places.now }
        ensures { result ≡ map (row_from bytes.now) places.now }
    {
        SpelledRows { bytes, places }
    }

    /// The row with this number: its key and its value, each behind its length and padded.
    pub fn get(&self, i: usize) -> Option<(&'a [u8], &'a [u8])>
        ensures row { option_map (λ row. (row.0.now, row.1.now)) result ≡ option_map spelled_row (slice_get self.now i) }
        ensures key_len { IfSome result (λ row. length row.0.now ≤ 4 + key_max) }
        ensures value_len { IfSome result (λ row. length row.1.now ≤ 4 + value_max) }
    {
        let place = *self.places.get(i)?;
        let end = place_behind(self.places, i, self.bytes.len());
        Some(spelled_from(self.bytes, place, end))
    }
}

// The place behind the row with this number: that of the next row, or the end of all bytes.
fn place_behind(places: &[u32], i: usize, end: usize) -> usize
    requires { i < length places.now }
    ensures { result ≡ slice_index_or places.now (i + 1) end }
{
    match places.get(i + 1) {
        Some(next) => *next as usize,
        None => end,
    }
}

// The row that stands from a place up to another one, as it is spelled there. The length of its value isn't looked at.
fn spelled_from(bytes: &[u8], place: u32, end: usize) -> (&[u8], &[u8])
    requires there { IsRowAt bytes.now place }
    requires end { end ≡ place + row_len (row_from bytes.now place) }
    ensures row { (result.0.now, result.1.now) ≡ spelled_row (row_from bytes.now place) }
    ensures key_len { length result.0.now ≤ 4 + key_max }
    ensures value_len { length result.1.now ≤ 4 + value_max }
{
    let start = place as usize;
    let behind = start + (WORD + padded(key_from(bytes, place).len()));
    (&bytes[start..behind], &bytes[behind..end])
}
