//! Building a version row by row.

ghost use Rattle.std.specs.Prelude.{◌≡◌, ◌<◌, ◌≤◌, ◌⊎◌, ◌↔◌, [], ◌∷◌, ◌++◌, length, false, None};
ghost use Rattle.std.specs.Prelude.{Some, is_none, is_some, IsTrue, IfOk, IfErr, IfSome, OnOk, OnErr};
ghost use Rattle.yp_version.specs.Limits.{key_max, value_max, master_max, rows_max, body_max};
ghost use Rattle.yp_version.specs.Rows.{IsRising, value_of, listed};
ghost use Rattle.yp_version.specs.Drafts.{draft_len, refused, refused_new, with_new, with_row};
ghost use Rattle.yp_version.specs.inside.Drafts.{IsDraft};
ghost use Rattle.yp_version.specs.Table.{IsTable};

use crate::head::head_of;
use crate::limits::{BODY_MAX, KEY_MAX, ROWS_MAX, VALUE_MAX, row_len};
use crate::order::Order;
use crate::slab::Slab;
use crate::table::Table;
use crate::version::Version;
use std::alloc::Global;
use std::hash::RandomState;
use std::marker::Model;
use std::random::RandomSource;
use thiserror::Error;
use yp_io::NoMemory;

// How many buckets a new table has for each row, so that few rows share one, and few tables are made.
const GROWTH: usize = 4;

/// Why a row is refused. Lengths are in bytes.
#[derive(Clone, Copy, Debug, PartialEq, Eq, Error)]
pub enum VersionFault {
    /// The key is over the limit.
    #[error("key of {len} bytes is over the limit")]
    KeyLong { len: usize },

    /// The value is over the limit.
    #[error("value of {len} bytes is over the limit")]
    ValueLong { len: usize },

    /// The key is new, and as many rows as a version may have stand.
    #[error("too many rows")]
    TooManyRows,

    /// The key is new, and the stored body would be over the limit.
    #[error("the version would be too big")]
    TooBig,

    /// Memory ran out.
    #[error("out of memory")]
    NoMemory,
}

/// A version while it is built: rows with distinct keys, in the order in which they were pushed.
///
/// They stand as in the stored body. While keys only rise, each is compared with the last one; from the first on that
/// doesn't, they are looked up in a table. Keys may come from others, so they are hashed with random keys.
#[derive(Drop)]
pub struct VersionBuilder {
    alloc: Global,
    order: u32,
    master: Vec<u8>,
    slab: Slab,
    // Whether each key is over those before it.
    rising: bool,
    hasher: RandomState,
    // The first rows by their keys, once a key didn't rise.
    table: Option<Table>,
}

impl Model for VersionBuilder {
    ghost use Rattle.yp_version.specs.Drafts.{Draft};

    ghost Value = { Draft };

    ghost use Rattle.yp_version.specs.inside.VersionBuilder.{draft_of, IsKept};

    ghost view = { draft_of };

    ghost invariant = { IsKept };
}

impl VersionBuilder {
    /// A builder without rows. A random state that the runtime refuses is want of memory, too.
    pub fn new(
        alloc: Global,
        rt: &impl RandomSource,
        order: Order,
        master: &[u8],
    ) -> Result<VersionBuilder, NoMemory>
        requires { length master.now ≤ master_max }
        ensures { IfOk result (λ builder. builder ≡ record { order = order; master = master.now; rows = [] }) }
    {
        let Ok(hasher) = RandomState::new(rt) else {
            return Err(NoMemory);
        };
        let order = order.number();
        let head = head_of(alloc, order, master, 0)?;
        let master = Vec::from_slice(alloc, master).map_err(|_| NoMemory)?;
        let slab = Slab::new(alloc, head, 0)?;
        Ok(VersionBuilder {
            alloc,
            order,
            master,
            slab,
            rising: true,
            hasher,
            table: None,
        })
    }

    /// Adds a row, and answers true; or answers false where the key is there. After a refusal nothing has changed.
    pub fn push(&mut self, key: &[u8], value: &[u8]) -> Result<bool, VersionFault>
        ensures added { IfOk result (λ added. added ≡ is_none (value_of key.now self.old.rows)) }
        ensures fits { OnOk result (refused self.old (key.now, value.now) ≡ None) }
        ensures rows { OnOk result (self.new ≡ with_row self.old (key.now, value.now)) }

        // Each refusal comes exactly by its cause, and want of memory only where there is none.
        ensures cause { IfErr result (λ fault. (refused self.old (key.now, value.now) ≡ Some fault)
            ⊎ ((fault ≡ VersionFault.NoMemory) × (refused self.old (key.now, value.now) ≡ None))) }
        ensures err { OnErr result (self.new ≡ self.old) }
    {
        if key.len() > KEY_MAX {
            return Err(VersionFault::KeyLong { len: key.len() });
        }
        if value.len() > VALUE_MAX {
            return Err(VersionFault::ValueLong { len: value.len() });
        }
        let Some(rises) = self.place_for(key) else {
            return Ok(false);
        };
        self.room_for(key, value)?;
        match self.add(key, value, rises) {
            Ok(()) => Ok(true),
            Err(NoMemory) => Err(VersionFault::NoMemory),
        }
    }

    // Whether the rows rise with a new one that has this key, and none where a row has it. Where it doesn't rise, the
    // table takes in all rows before it is asked.
    fn place_for(&mut self, key: &[u8]) -> Option<bool>
        ensures answer { is_some result ≡ is_none (value_of key.now self.old.rows) }
        ensures rising { IfSome result (λ rises. IsTrue rises → IsRising (self.old.rows ++ (key.now, []) ∷ [])) }
        ensures same { self.new ≡ self.old }
    {
        if self.rises(key) {
            return Some(true);
        }
        // Want of memory costs only time here: what the table lacks is looked for row by row.
        let _ = self.index();
        if self.holds(key) { None } else { Some(false) }
    }

    // Whether the rows rise, with a further one that has this key.
    fn rises(&self, key: &[u8]) -> bool
        ensures rising { IsTrue result → IsRising (self.now.rows ++ (key.now, []) ∷ []) }
        ensures absent { IsTrue result → value_of key.now self.now.rows ≡ None }
    {
        self.rising && self.slab.is_over(key)
    }

    // Makes the table, or a larger one, and takes in the rows that it lacks.
    fn index(&mut self) -> Result<(), NoMemory>
        ensures { self.new ≡ self.old }
    {
        let table = self.table.take();
        let mut table = roomy(self.alloc, self.hasher, table, &self.slab)?;
        let filled = table.fill(&self.slab);
        self.table = Some(table);
        filled
    }

    // Whether a row has this key.
    fn holds(&self, key: &[u8]) -> bool
        ensures { result ≡ is_some (value_of key.now self.now.rows) }
    {
        let Some(table) = &self.table else {
            return self.slab.holds_from(0, key);
        };
        if table.find(&self.slab, key).is_some() {
            return true;
        }
        self.slab.holds_from(table.len(), key)
    }

    // The bytes of the stored body of the rows so far.
    fn body_len(&self) -> usize
        ensures len { result ≡ draft_len self.now }
        ensures bound { result ≤ body_max }
    {
        self.slab.bytes().len()
    }

    // Whether a row with a new key fits.
    fn room_for(&self, key: &[u8], value: &[u8]) -> Result<(), VersionFault>
        requires key { length key.now ≤ key_max }
        requires value { length value.now ≤ value_max }
        ensures ok { OnOk result (refused_new self.now (key.now, value.now) ≡ None) }
        ensures cause { IfErr result (λ fault. refused_new self.now (key.now, value.now) ≡ Some fault) }
    {
        if self.slab.len() >= ROWS_MAX {
            return Err(VersionFault::TooManyRows);
        }
        if self.body_len() + row_len(key, value) > BODY_MAX {
            return Err(VersionFault::TooBig);
        }
        Ok(())
    }

    // Adds a row that fits and has a new key. `rises` tells whether the rows rise with it.
    fn add(&mut self, key: &[u8], value: &[u8], rises: bool) -> Result<(), NoMemory>
        requires key { length key.now ≤ key_max }
        requires value { length value.now ≤ value_max }
        requires absent { value_of key.now self.old.rows ≡ None }
        requires fits { refused_new self.old (key.now, value.now) ≡ None }
        requires rising { IsTrue rises → IsRising (self.old.rows ++ (key.now, []) ∷ []) }
        ensures ok { OnOk result (self.new ≡ with_new self.old (key.now, value.now)) }
        ensures err { OnErr result (self.new ≡ self.old) }
    {
        self.slab.push(key, value)?;
        self.rising = rises;
        Ok(())
    }

    /// The number of rows so far.
    pub fn len(&self) -> usize
        ensures len { result ≡ length self.now.rows }
        ensures draft { IsDraft self.now }
    {
        self.slab.len()
    }

    /// Whether there are no rows so far.
    pub fn is_empty(&self) -> bool
        ensures { IsTrue result ↔ (self.now.rows ≡ []) }
    {
        self.slab.len() == 0
    }

    /// The order of the version.
    pub fn order(&self) -> Order
        ensures { result ≡ self.now.order }
    {
        Order(self.order)
    }

    /// The version: the rows in rising order of their keys, not secure. They are sorted
    /// where they don't stand so already.
    pub fn finish(self) -> Result<Version, NoMemory>
        ensures { IfOk result (λ version. version ≡ record {
          order = self.order;
          master = self.master;
          secure = false;
          rows = listed self.rows;
        }) }
    {
        let VersionBuilder {
            alloc,
            order,
            master,
            slab,
            rising,
            hasher,
            table,
        } = self;
        drop(table);
        let head = head_of(alloc, order, &master, slab.len())?;
        let slab = slab.finished(alloc, head, rising)?;
        let table = Table::without_buckets(alloc, hasher);
        Ok(Version::new(order, master, slab, table))
    }
}

// This table of the rows, or an empty one with more buckets where it is none or has too few.
fn roomy(
    alloc: Global,
    hasher: RandomState,
    table: Option<Table>,
    slab: &Slab,
) -> Result<Table, NoMemory>
    requires table { IfSome table (λ table. IsTable table slab.now.rows) }
    requires count { length slab.now.rows ≤ rows_max }
    ensures { IfOk result (λ table. IsTable table slab.now.rows) }
{
    match table {
        Some(table) if slab.len() <= table.buckets() => Ok(table),
        _ => Table::new(alloc, hasher, GROWTH * slab.len()),
    }
}
