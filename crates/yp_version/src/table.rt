//! The numbers of rows by a hash of their keys.

ghost use Rattle.std.specs.Prelude.{◌≡◌, ◌+◌, ◌<◌, ◌≤◌, ◌^◌, ℕ, List, length, Some, None, IfOk, OnOk};
ghost use Rattle.yp_version.specs.Limits.{rows_max};
ghost use Rattle.yp_version.specs.Rows.{Row};
ghost use Rattle.yp_version.specs.Table.{IsTable, HasAll, IsWhole};
ghost use Rattle.yp_version.specs.Tables.{linked, mark_in, hash_of, bucket_by, mark_by, last_below};
ghost use Rattle.yp_version.specs.inside.Tables.{has_key};

use crate::slab::Slab;
use std::alloc::Global;
use std::hash::{BuildHasher, Hasher, RandomState};
use yp_io::NoMemory;

// How many numbers a link has for rows and for none, and how many marks: its 32 bits are 19 and 13.
const NUMBERS: u32 = 1 << 19;

const MARKS: u64 = 1 << 13;

/// The number of a row with the mark of its key, or none. It takes four bytes.
#[derive(Clone, Copy, Debug)]
pub(crate) struct Link {
    // The mark, and below it one more than the row's number, and 0 for none.
    bits: u32,
}

impl Link {
    /// No row.
    fn none() -> Link
        ensures { linked result ≡ None }
    {
        Link { bits: 0 }
    }

    /// The row with this number, whose key has this mark.
    fn to(row: usize, mark: u32) -> Link
        requires row { row < rows_max }
        requires mark { mark < 2 ^ 13 }
        ensures row { linked result ≡ Some row }
        ensures mark { mark_in result ≡ mark }
    {
        Link {
            bits: mark * NUMBERS + (row as u32 + 1),
        }
    }

    /// The row's number.
    fn row(self) -> Option<usize>
        ensures { result ≡ linked self }
    {
        let number = self.bits % NUMBERS;
        if number == 0 {
            None
        } else {
            Some(number as usize - 1)
        }
    }

    /// The mark of the row's key.
    fn mark(self) -> u32
        ensures { result ≡ mark_in self }
    {
        self.bits / NUMBERS
    }
}

/// Chains of the numbers of the first rows of a slab, one for each bucket. Keys may come from others, so they are
/// hashed with random keys. Without buckets it is not yet made.
#[derive(Debug, Drop)]
pub(crate) struct Table {
    hasher: RandomState,
    // The last row of each bucket.
    heads: Vec<Link>,
    // For each row the one before it in its bucket.
    before: Vec<Link>,
}

impl Table {
    /// A table of no rows, with at least this many buckets.
    pub(crate) fn new(alloc: Global, hasher: RandomState, buckets: usize) -> Result<Table, NoMemory>
        ensures { IfOk result (λ table. (rows : List Row) → IsTable table rows) }
    {
        let heads = vec![in alloc; Link::none(); buckets.max(1)].map_err(|_| NoMemory)?;
        let before = Vec::with_capacity(alloc, buckets).map_err(|_| NoMemory)?;
        Ok(Table {
            hasher,
            heads,
            before,
        })
    }

    /// A table without buckets, which has no rows of any slab.
    pub(crate) fn without_buckets(alloc: Global, hasher: RandomState) -> Table
        ensures { (rows : List Row) → IsWhole result rows }
    {
        Table {
            hasher,
            heads: Vec::new(alloc),
            before: Vec::new(alloc),
        }
    }

    /// The table of all rows of a slab, this one where it has buckets. For want of memory it stays without.
    pub(crate) fn whole(self, alloc: Global, slab: &Slab) -> Table
        requires table { IsWhole self slab.now.rows }
        requires count { length slab.now.rows ≤ rows_max }
        ensures { IsWhole result slab.now.rows }
    {
        if self.buckets() != 0 {
            return self;
        }
        match Table::of(alloc, self.hasher, slab) {
            Ok(table) => table,
            Err(NoMemory) => self,
        }
    }

    /// The table of all rows of a slab.
    pub(crate) fn of(alloc: Global, hasher: RandomState, slab: &Slab) -> Result<Table, NoMemory>
        requires { length slab.now.rows ≤ rows_max }
        ensures table { IfOk result (λ table. IsTable table slab.now.rows) }
        ensures all { IfOk result (λ table. HasAll table slab.now.rows) }
    {
        let mut table = Table::new(alloc, hasher, slab.len())?;
        table.fill(slab)?;
        Ok(table)
    }

    /// The number of rows that it has.
    pub(crate) fn len(&self) -> usize
        ensures { result ≡ length self.now.before.items }
    {
        self.before.len()
    }

    /// The number of buckets.
    pub(crate) fn buckets(&self) -> usize
        ensures { result ≡ length self.now.heads.items }
    {
        self.heads.len()
    }

    /// Takes in those rows of a slab that it doesn't have. After a refusal it has some of them.
    pub(crate) fn fill(&mut self, slab: &Slab) -> Result<(), NoMemory>
        requires table { IsTable self.old slab.now.rows }
        requires count { length slab.now.rows ≤ rows_max }
        ensures table { IsTable self.new slab.now.rows }
        ensures all { OnOk result (HasAll self.new slab.now.rows) }
    {
        for row in self.before.len()..slab.len() {
            let hash = hash(&self.hasher, slab.key(row));
            let bucket = bucket(hash, self.heads.len());
            let last = self.heads[bucket];
            self.before.push(last).map_err(|_| NoMemory)?;
            self.heads[bucket] = Link::to(row, mark(hash));
        }
        Ok(())
    }

    /// The number of the last row with this key, among those of the slab that it has. A row's key is looked at where
    /// the mark is that of the key.
    pub(crate) fn find(&self, slab: &Slab, key: &[u8]) -> Option<usize>
        requires { IsTable self.now slab.now.rows }
        ensures { result ≡ last_below (has_key key.now slab.now.rows) (length self.now.before.items) }
    {
        let hash = hash(&self.hasher, key);
        let mark = mark(hash);
        let mut link = self.heads[bucket(hash, self.heads.len())];
        while let Some(row) = link.row() {
            if link.mark() == mark && slab.key(row) == key {
                return Some(row);
            }
            link = self.before[row];
        }
        None
    }
}

// The hash of a key.
#[tactic(auto, unfolding(crate::specs::Tables::hash_of))]
fn hash(hasher: &RandomState, key: &[u8]) -> u64
    ensures { result ≡ hash_of hasher.now key.now }
{
    let mut state = hasher.build_hasher();
    state.write(key);
    state.finish()
}

// The bucket of a key with this hash, of this many. A product costs less than a remainder.
fn bucket(hash: u64, count: usize) -> usize
    requires { 0 < count }
    ensures value { result ≡ bucket_by hash count }
    ensures within { result < count }
{
    ((hash as u128 * count as u128) >> 64) as usize
}

// The mark of a key with this hash. Its bits are the lowest, and those that choose a bucket the highest.
fn mark(hash: u64) -> u32
    ensures value { result ≡ mark_by hash }
    ensures within { result < 2 ^ 13 }
{
    (hash % MARKS) as u32
}
