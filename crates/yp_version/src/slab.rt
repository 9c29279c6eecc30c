//! Bytes that stand before rows, and behind them the rows, each spelled as in the body of a version.

ghost use Rattle.std.specs.Prelude.{◌≡◌, ◌+◌, ◌<◌, ◌≤◌, ◌^◌, [], ◌∷◌, ◌++◌, length, replicate, drop, map};
ghost use Rattle.std.specs.Prelude.{ℕ, Some, true, false, option_map, MatchOption, IfSome, IfOk, OnOk, OnErr, IsTrue};
ghost use Rattle.std.specs.Prelude.{slice_get, slice_index_or, All, IsPermutation};
ghost use Rattle.std.specs.List.{flat_map};
ghost use Rattle.yp_xdr.specs.Kind.{U32};
ghost use Rattle.yp_xdr.specs.Spelling.{spelling};
ghost use Rattle.yp_xdr.specs.inside.Writing.{written};
ghost use Rattle.yp_version.specs.Limits.{key_max, value_max, body_max};
ghost use Rattle.yp_version.specs.Rows.{IsRising, key_cmp, row_len, rows_len};
ghost use Rattle.yp_version.specs.inside.Rows.{HasDistinctKeys, is_over_last};
ghost use Rattle.yp_version.specs.inside.Tables.{has_key};
ghost use Rattle.yp_version.specs.inside.Places.{StandsAt, IsAbsent};
ghost use Rattle.yp_version.specs.inside.Bodies.{row_bytes, spelled_row};
ghost use Rattle.yp_version.specs.inside.Slabs.{IsRowAt, opaque_from, key_from, row_from};

use crate::limits::{WORD, padded, row_len};
use crate::ranks::sorted_places;
use crate::spelled_rows::SpelledRows;
use std::alloc::Global;
use std::cmp::Ordering;
use std::marker::Model;
use yp_io::NoMemory;
use yp_xdr::{set_opaque, set_u32};

/// Rows in one piece of memory, each behind the one before it, and the place of each.
#[derive(Debug, Drop)]
pub(crate) struct Slab {
    bytes: Vec<u8>,
    head_len: usize,
    places: Vec<u32>,
}

impl Model for Slab {
    ghost use Rattle.yp_version.specs.inside.Slabs.{Packed};

    ghost Value = { Packed };

    ghost use Rattle.yp_version.specs.inside.Slab.{packed_of, IsPacked};

    ghost view = { packed_of };

    ghost invariant = { IsPacked };
}

impl Slab {
    ghost use Rattle.yp_version.specs.inside.Slabs.{Packed, Lies};

    /// No rows behind these bytes, and room for some.
    pub(crate) fn new(alloc: Global, head: Vec<u8>, rows: usize) -> Result<Slab, NoMemory>
        requires { length head.items ≤ body_max }
        ensures { IfOk result (λ slab. slab ≡ record { head = head.items; rows = [] }) }
    {
        let places = Vec::with_capacity(alloc, rows).map_err(|_| NoMemory)?;
        let head_len = head.len();
        Ok(Slab {
            bytes: head,
            head_len,
            places,
        })
    }

    /// What these bytes are, where the rows behind their head stand at these places. The bytes stay where they are.
    pub(crate) fn of_parts(bytes: Vec<u8>, head_len: usize, places: Vec<u32>) -> Slab
        requires { (packed : Packed) × Lies bytes.items places.items packed × (head_len ≡ length packed.head) }
        ensures { (packed : Packed) → Lies bytes.items places.items packed → head_len ≡ length packed.head
            → result ≡ packed }
    {
        Slab {
            bytes,
            head_len,
            places,
        }
    }

    /// Puts a row behind the others. After a refusal nothing has changed.
    pub(crate) fn push(&mut self, key: &[u8], value: &[u8]) -> Result<(), NoMemory>
        requires key { length key.now ≤ key_max }
        requires value { length value.now ≤ value_max }
        requires room { length self.old.head + rows_len self.old.rows + row_len (key.now, value.now) ≤ body_max }
        ensures ok { OnOk result (self.new ≡ record self.old { rows = self.old.rows ++ (key.now, value.now) ∷ [] }) }
        ensures err { OnErr result (self.new ≡ self.old) }
    {
        let place = self.bytes.len() as u32;
        add_row(&mut self.bytes, key, value)?;
        if self.places.push(place).is_err() {
            self.bytes.truncate(place as usize);
            return Err(NoMemory);
        }
        Ok(())
    }

    // Puts a copy of a row that stands in other bytes behind the others. After a refusal nothing has changed.
    fn push_copy(&mut self, bytes: &[u8], from: u32) -> Result<(), NoMemory>
        requires row { IsRowAt bytes.now from }
        requires room { length self.old.head + rows_len self.old.rows + row_len (row_from bytes.now from) ≤ body_max }
        ensures ok { OnOk result (self.new ≡ record self.old { rows = self.old.rows ++ row_from bytes.now from ∷ [] }) }
        ensures err { OnErr result (self.new ≡ self.old) }
    {
        let place = self.bytes.len() as u32;
        copy_row(&mut self.bytes, bytes, from)?;
        if self.places.push(place).is_err() {
            self.bytes.truncate(place as usize);
            return Err(NoMemory);
        }
        Ok(())
    }

    /// The number of rows.
    pub(crate) fn len(&self) -> usize
        ensures { result ≡ length self.now.rows }
    {
        self.places.len()
    }

    /// The key of the row with this number.
    pub(crate) fn key(&self, i: usize) -> &[u8]
        requires { i < length self.now.rows }
        ensures { option_map (λ row. row.0) (slice_get self.now.rows i) ≡ Some result.now }
    {
        key_from(&self.bytes, self.places[i])
    }

    /// The row with this number.
    pub(crate) fn row(&self, i: usize) -> Option<(&[u8], &[u8])>
        ensures { option_map (λ row. (row.0.now, row.1.now)) result ≡ slice_get self.now.rows i }
    {
        let place = self.places.get(i)?;
        Some(row_from(&self.bytes, *place))
    }

    /// Its rows as they stand.
    pub(crate) fn spelled_rows(&self) -> SpelledRows<'_>
        ensures { result ≡ self.now.rows }
    {
        SpelledRows::new(&self.bytes, &self.places)
    }

    /// The number of the row with this key among rising rows, by halving.
    pub(crate) fn find(&self, key: &[u8]) -> Option<usize>
        requires { IsRising self.now.rows }
        ensures { MatchOption result (IsAbsent key.now self.now.rows) (StandsAt key.now self.now.rows) }
    {
        let bytes = self.bytes.as_slice();
        self.places
            .binary_search_by(
                |place: &u32| -> Ordering
                    ensures { result ≡ key_cmp (key_from bytes.entry.now place.now) key.entry.now }
                { key_from(bytes, *place).cmp(key) },
            )
            .ok()
    }

    /// Whether a key is over that of the last row, if there is one.
    pub(crate) fn is_over(&self, key: &[u8]) -> bool
        ensures { result ≡ is_over_last key.now self.now.rows }
    {
        let Some(last) = self.len().checked_sub(1) else {
            return true;
        };
        self.key(last).cmp(key).is_lt()
    }

    /// Whether a row from this number on has the key.
    pub(crate) fn holds_from(&self, first: usize, key: &[u8]) -> bool
        ensures yes { IsTrue result → (j : ℕ) × (has_key key.now self.now.rows j ≡ true) }
        ensures no { (result ≡ false) → (j : ℕ) → first ≤ j → j < length self.now.rows
            → has_key key.now self.now.rows j ≡ false }
    {
        for row in first..self.len() {
            if self.key(row) == key {
                return true;
            }
        }
        false
    }

    /// All its bytes.
    pub(crate) fn bytes(&self) -> &[u8]
        ensures { result.now ≡ self.now.head ++ flat_map row_bytes self.now.rows }
    {
        self.bytes.as_slice()
    }

    /// Sets the first word of the head.
    pub(crate) fn set_first_word(&mut self, word: u32)
        requires { 4 ≤ length self.old.head }
        ensures { self.new ≡ record self.old { head = spelling U32 word ++ drop 4 self.old.head } }
    {
        set_u32(&mut self.bytes, 0, word);
    }

    /// The rows behind another head, in rising order of their keys. `rises` tells that they are in this order already.
    pub(crate) fn finished(
        self,
        alloc: Global,
        head: Vec<u8>,
        rises: bool,
    ) -> Result<Slab, NoMemory>
        requires rises { IsTrue rises → IsRising self.rows }
        requires distinct { HasDistinctKeys self.rows }
        requires head { length head.items ≡ length self.head }
        ensures head { IfOk result (λ slab. slab.head ≡ head.items) }
        ensures moved { IfOk result (λ slab. IsPermutation self.rows slab.rows) }
        ensures rising { IfOk result (λ slab. IsRising slab.rows) }
    {
        if rises {
            let mut slab = self;
            slab.set_head(&head);
            Ok(slab)
        } else {
            self.sorted(alloc, head)
        }
    }

    // The same behind another head.
    fn set_head(&mut self, head: &[u8])
        requires { length head.now ≡ length self.old.head }
        ensures { self.new ≡ record self.old { head = head.now } }
    {
        overwrite(&mut self.bytes, head);
    }

    // The rows in rising order of their keys, behind another head.
    fn sorted(self, alloc: Global, head: Vec<u8>) -> Result<Slab, NoMemory>
        requires distinct { HasDistinctKeys self.rows }
        requires head { length head.items ≡ length self.head }
        ensures head { IfOk result (λ slab. slab.head ≡ head.items) }
        ensures moved { IfOk result (λ slab. IsPermutation self.rows slab.rows) }
        ensures rising { IfOk result (λ slab. IsRising slab.rows) }
    {
        let Slab {
            bytes,
            head_len: _,
            places,
        } = self;
        let all = bytes.as_slice();
        let sorted = sorted_places(alloc, all, places)?;
        gathered(alloc, head, all, &sorted)
    }
}

// The rows at these places, behind a head. The bytes of each are copied as they stand, into room for as many bytes as
// they are copied from.
fn gathered(alloc: Global, head: Vec<u8>, bytes: &[u8], places: &[u32]) -> Result<Slab, NoMemory>
    requires rows { All (IsRowAt bytes.now) places.now }
    requires room { length head.items + rows_len (map (row_from bytes.now) places.now) ≤ body_max }
    ensures { IfOk result (λ slab. slab ≡ record { head = head.items; rows = map (row_from bytes.now) places.now }) }
{
    let mut head = head;
    head.reserve_exact(bytes.len()).map_err(|_| NoMemory)?;
    let mut slab = Slab::new(alloc, head, places.len())?;
    for place in places {
        slab.push_copy(bytes, *place)?;
    }
    Ok(slab)
}

// Writes a front over the bytes.
fn overwrite(bytes: &mut [u8], front: &[u8])
    requires { length front.now ≤ length bytes.old }
    ensures { bytes.new ≡ written bytes.old 0 front.now }
{
    bytes[..front.len()].copy_from_slice(front);
}

// Spells a row behind bytes. After a refusal they are as before.
fn add_row(bytes: &mut Vec<u8>, key: &[u8], value: &[u8]) -> Result<(), NoMemory>
    requires key { length key.now ≤ key_max }
    requires value { length value.now ≤ value_max }
    requires room { length bytes.old.items + row_len (key.now, value.now) ≤ body_max }
    ensures ok { OnOk result (bytes.new.items ≡ bytes.old.items ++ row_bytes (key.now, value.now)) }
    ensures err { OnErr result (bytes.new.items ≡ bytes.old.items) }
{
    let start = bytes.len();
    grow(bytes, row_len(key, value))?;
    set_row(bytes, start, key, value);
    Ok(())
}

// Copies a row that stands in other bytes behind bytes. After a refusal they are as before.
fn copy_row(bytes: &mut Vec<u8>, others: &[u8], from: u32) -> Result<(), NoMemory>
    requires { IsRowAt others.now from }
    ensures ok { OnOk result (bytes.new.items ≡ bytes.old.items ++ row_bytes (row_from others.now from)) }
    ensures err { OnErr result (bytes.new.items ≡ bytes.old.items) }
{
    let (key, value) = row_from(others, from);
    let start = from as usize;
    let row = &others[start..start + row_len(key, value)];
    bytes.extend_from_slice(row).map_err(|_| NoMemory)
}

// Puts zeros behind bytes. After a refusal they are as before.
fn grow(bytes: &mut Vec<u8>, more: usize) -> Result<(), NoMemory>
    requires { length bytes.old.items + more ≤ body_max }
    ensures ok { OnOk result (bytes.new.items ≡ bytes.old.items ++ replicate more 0) }
    ensures err { OnErr result (bytes.new.items ≡ bytes.old.items) }
{
    bytes.resize(bytes.len() + more, 0).map_err(|_| NoMemory)?;
    Ok(())
}

// Spells a row into a buffer.
fn set_row(buf: &mut [u8], at: usize, key: &[u8], value: &[u8])
    requires key { length key.now ≤ key_max }
    requires value { length value.now ≤ value_max }
    requires room { at + row_len (key.now, value.now) ≤ length buf.old }
    ensures { buf.new ≡ written buf.old at (row_bytes (key.now, value.now)) }
{
    let behind = set_opaque(buf, at, key);
    set_opaque(buf, behind, value);
}

// The bytes that are spelled from a place on.
#[tactic(auto, unfolding(crate::specs::inside::Slabs::opaque_from))]
fn opaque_from(bytes: &[u8], place: usize) -> &[u8]
    ensures { result.now ≡ opaque_from bytes.now place }
{
    if bytes.len() < place {
        return &[];
    }
    let Some((word, content)) = bytes[place..].split_first_chunk::<4>() else {
        return &[];
    };
    let len = u32::from_be_bytes(*word) as usize;
    &content[..len.min(content.len())]
}

/// The key of the row that is spelled from a place on.
pub(crate) fn key_from(bytes: &[u8], place: u32) -> &[u8]
    ensures { result.now ≡ key_from bytes.now place }
{
    opaque_from(bytes, place as usize)
}

// The row that is spelled from a place on.
fn row_from(bytes: &[u8], place: u32) -> (&[u8], &[u8])
    ensures { (result.0.now, result.1.now) ≡ row_from bytes.now place }
{
    let key = key_from(bytes, place);
    let behind = place as usize + (WORD + padded(key.len()));
    (key, opaque_from(bytes, behind))
}
