//! A version of a map, which never changes.

ghost use Rattle.std.specs.Prelude.{◌≡◌, ◌+◌, ◌≤◌, ◌↔◌, List, [], length, slice_get, option_map, MatchOption, IsTrue};
ghost use Rattle.std.specs.Prelude.{IfSome, IfOk};
ghost use Rattle.yp_version.specs.Limits.{key_max, value_max};
ghost use Rattle.yp_version.specs.Rows.{Row, value_of, first_of, following};
ghost use Rattle.yp_version.specs.Versions.{IsVersion, body_len, unmarked};
ghost use Rattle.yp_xdr.specs.Kind.{Opaque};
ghost use Rattle.yp_xdr.specs.Spelling.{spelling};
ghost use Rattle.yp_version.specs.Bodies.{head_bytes};
ghost use Rattle.yp_version.specs.inside.Bodies.{IsBody};
ghost use Rattle.yp_version.specs.inside.Stored.{IsStoredBody};
ghost use Rattle.yp_version.specs.Table.{IsWhole};
ghost use Rattle.yp_version.specs.inside.Places.{StandsAt, IsAbsent};
ghost use Rattle.yp_version.specs.inside.Next.{next_row, IsWithin};

use crate::head::format_of;
use crate::limits::{HEAD_LEN, padded};
use crate::order::Order;
use crate::slab::Slab;
use crate::spelled_rows::SpelledRows;
use crate::table::Table;
use std::alloc::Global;
use std::hash::RandomState;
use std::marker::Model;
use std::random::RandomSource;
use yp_io::NoMemory;

/// What stands behind the row with a key.
#[derive(Clone, Copy, Debug, PartialEq, Eq)]
pub enum Next<'a> {
    /// The next row: its key and its value.
    Row(&'a [u8], &'a [u8]),

    /// The row with the key is the last one.
    Last,

    /// No row has the key.
    Absent,
}

/// A stored body whose rows are found.
#[derive(Debug, Drop)]
pub struct StoredBody {
    /// The body.
    pub bytes: Vec<u8>,
    /// The place of each row in it, in their order.
    pub places: Vec<u32>,
}

/// A version of a map: an order, a master, whether it is secure, and rows in rising byte order of their keys.
///
/// Rows are numbered from 0. It keeps its stored body, in which the rows stand. A key is looked up by halving, or by a
/// table of the rows' numbers by a hash of the key, once [`Version::indexed`] made one. No other call on a version
/// takes memory.
#[derive(Debug, Drop)]
pub struct Version {
    order: u32,
    master: Vec<u8>,
    secure: bool,
    slab: Slab,
    // All rows by their keys, or without buckets.
    table: Table,
}

impl Model for Version {
    ghost use Rattle.yp_version.specs.Versions.{MapVersion};

    ghost Value = { MapVersion };

    ghost use Rattle.yp_version.specs.Version.{version_of, IsKept};

    ghost view = { version_of };

    ghost invariant = { IsKept };
}

impl Version {
    // A version that isn't secure, of rows that stand in their order behind its head.
    pub(crate) fn new(order: u32, master: Vec<u8>, slab: Slab, table: Table) -> Version
        requires version { IsVersion (unmarked order master.items slab.rows) }
        requires head { slab.head ≡ head_bytes (unmarked order master.items slab.rows) }
        requires table { IsWhole table slab.rows }
        ensures { result ≡ unmarked order master.items slab.rows }
    {
        Version {
            order,
            master,
            secure: false,
            slab,
            table,
        }
    }

    /// The version that a stored body spells. The body stays where it is. A random state that the runtime refuses is
    /// want of memory, too.
    pub fn of_body(
        alloc: Global,
        rt: &impl RandomSource,
        order: Order,
        master: Vec<u8>,
        secure: bool,
        stored: StoredBody,
    ) -> Result<Version, NoMemory>
        requires { (rows : List Row) × IsStoredBody stored.bytes.items stored.places.items
            (record { order = order; master = master.items; secure = secure; rows = rows }) }
        ensures { (rows : List Row) → IsStoredBody stored.bytes.items stored.places.items
            (record { order = order; master = master.items; secure = secure; rows = rows })
            → IfOk result (λ version. version
            ≡ record { order = order; master = master.items; secure = secure; rows = rows }) }
    {
        let Ok(hasher) = RandomState::new(rt) else {
            return Err(NoMemory);
        };
        let head_len = HEAD_LEN + padded(master.len());
        let StoredBody { bytes, places } = stored;
        let slab = Slab::of_parts(bytes, head_len, places);
        Ok(Version {
            order: order.number(),
            master,
            secure,
            slab,
            table: Table::without_buckets(alloc, hasher),
        })
    }

    /// The same version, in which keys are looked up by a table. Want of memory for it costs only time: they are looked
    /// up by halving then.
    pub fn indexed(self, alloc: Global) -> Version
        ensures { result ≡ self }
    {
        let Version {
            order,
            master,
            secure,
            slab,
            table,
        } = self;
        let table = table.whole(alloc, &slab);
        Version {
            order,
            master,
            secure,
            slab,
            table,
        }
    }

    /// The order: the moment of its making, in seconds, or one more than the order before.
    pub fn order(&self) -> Order
        ensures order { result ≡ self.now.order }
        ensures version { IsVersion self.now }
    {
        Order(self.order)
    }

    /// The name of its master, of at most 64 bytes.
    pub fn master(&self) -> &[u8]
        ensures master { result.now ≡ self.now.master }
        ensures version { IsVersion self.now }
    {
        self.master.as_slice()
    }

    /// Whether its rows are answered only to callers on ports below 1024.
    pub fn secure(&self) -> bool
        ensures secure { result ≡ self.now.secure }
        ensures version { IsVersion self.now }
    {
        self.secure
    }

    /// The number of rows.
    pub fn len(&self) -> usize
        ensures len { result ≡ length self.now.rows }
        ensures version { IsVersion self.now }
    {
        self.slab.len()
    }

    /// Whether it has no rows.
    pub fn is_empty(&self) -> bool
        ensures { IsTrue result ↔ (self.now.rows ≡ []) }
    {
        self.slab.len() == 0
    }

    /// How many bytes its stored body has.
    pub fn body_len(&self) -> usize
        ensures len { result ≡ body_len self.now }
        ensures version { IsVersion self.now }
    {
        self.body().len()
    }

    /// Its stored body.
    pub fn body(&self) -> &[u8]
        ensures body { IsBody result.now self.now }
        ensures len { length result.now ≡ body_len self.now }
    {
        self.slab.bytes()
    }

    /// The same version, secure or not.
    pub fn marked(self, secure: bool) -> Version
        ensures { result ≡ record self { secure = secure } }
    {
        let mut version = self;
        version.secure = secure;
        version.slab.set_first_word(format_of(secure));
        version
    }

    // The number of the row with this key.
    fn find(&self, key: &[u8]) -> Option<usize>
        ensures found { MatchOption result (IsAbsent key.now self.now.rows) (StandsAt key.now self.now.rows) }
        ensures version { IsVersion self.now }
    {
        if self.table.buckets() == 0 {
            self.slab.find(key)
        } else {
            self.table.find(&self.slab, key)
        }
    }

    /// The value of the row with this key.
    pub fn get(&self, key: &[u8]) -> Option<&[u8]>
        ensures value { option_map (λ value. value.now) result ≡ value_of key.now self.now.rows }
        ensures len { IfSome result (λ value. length value.now ≤ value_max) }
        ensures version { IsVersion self.now }
    {
        let i = self.find(key)?;
        let (_, value) = self.row(i)?;
        Some(value)
    }

    /// The value of the row with this key as it stands in the body: behind its length and padded.
    pub fn get_spelled(&self, key: &[u8]) -> Option<&[u8]>
        ensures value { option_map (λ value. value.now) result
            ≡ option_map (spelling (Opaque value_max)) (value_of key.now self.now.rows) }
        ensures len { IfSome result (λ value. length value.now ≤ 4 + value_max) }
        ensures version { IsVersion self.now }
    {
        let i = self.find(key)?;
        let (_, value) = self.slab.spelled_rows().get(i)?;
        Some(value)
    }

    /// Its rows as they stand in the body.
    pub fn spelled_rows(&self) -> SpelledRows<'_>
        ensures rows { result ≡ self.now.rows }
        ensures version { IsVersion self.now }
    {
        self.slab.spelled_rows()
    }

    /// The row with this number.
    pub fn row(&self, i: usize) -> Option<(&[u8], &[u8])>
        ensures row { option_map (λ row. (row.0.now, row.1.now)) result ≡ slice_get self.now.rows i }
        ensures key_len { IfSome result (λ row. length row.0.now ≤ key_max) }
        ensures value_len { IfSome result (λ row. length row.1.now ≤ value_max) }
        ensures version { IsVersion self.now }
    {
        self.slab.row(i)
    }

    /// The first row.
    pub fn first(&self) -> Option<(&[u8], &[u8])>
        ensures row { option_map (λ row. (row.0.now, row.1.now)) result ≡ first_of self.now.rows }
        ensures key_len { IfSome result (λ row. length row.0.now ≤ key_max) }
        ensures value_len { IfSome result (λ row. length row.1.now ≤ value_max) }
        ensures version { IsVersion self.now }
    {
        self.row(0)
    }

    /// The row after the one with this key.
    pub fn next(&self, key: &[u8]) -> Next<'_>
        ensures row { next_row result ≡ following key.now self.now.rows }
        ensures len { IsWithin result }
        ensures version { IsVersion self.now }
    {
        let Some(i) = self.find(key) else {
            return Next::Absent;
        };
        match self.row(i + 1) {
            None => Next::Last,
            Some((key, value)) => Next::Row(key, value),
        }
    }
}
