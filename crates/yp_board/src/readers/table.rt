//! What readers take: a front of the log, and the last versions in it.

ghost use Rattle.std.specs.Prelude.{◌≡◌, option_map, IfOk, IfSome, Some};
ghost use Rattle.std.specs.Arc.{arc_value};
ghost use Rattle.yp_board.specs.Logs.{shown};
ghost use Rattle.yp_board.specs.Views.{IsFront};
ghost use Rattle.yp_board.specs.inside.readers.Tables.{TableHolds};

use crate::readers::slots::Slots;
use crate::readers::{Front, Naming, Shown};
use left_right::Absorb;
use std::alloc::AllocError;
use std::marker::Model;
use std::sync::Arc;
use yp_io::NoMemory;
use yp_version::Version;

/// A front of the log of a board, and the last versions in it, which are shared. Contracts see it as a log.
#[derive(Drop)]
pub struct Table<J: Naming> {
    front: Front<J>,
    slots: Arc<Slots>,
}

impl<J: Naming> Model for Table<J> {
    ghost use Rattle.std.specs.Arc.{arc_value};
    ghost use Rattle.yp_board.specs.Logs.{Log};
    ghost use Rattle.yp_board.specs.inside.readers.Tables.{TableHolds};

    ghost Value = { Log };

    ghost view = { λ t. t.front };

    ghost invariant = { λ t. TableHolds (arc_value t.slots) t.front };
}

impl<J: Naming> Table<J> {
    /// The table of a front and of the last versions in it. It takes no memory, and is refused where these have too
    /// many owners.
    pub(crate) fn new(front: &Front<J>, slots: &Arc<Slots>) -> Result<Table<J>, AllocError>
        requires { TableHolds (arc_value slots.now) front.now }
        ensures { IfOk result (λ table. table ≡ front.now) }
    {
        let slots = Arc::try_clone(slots)?;
        Ok(Table {
            front: front.again(),
            slots,
        })
    }

    /// Its front.
    pub(crate) fn front(&self) -> &Front<J>
        ensures { result.now ≡ self.now }
    {
        &self.front
    }

    /// The last version of a map.
    pub(crate) fn get(&self, map: u32) -> Option<&Version>
        ensures { option_map (λ version. version.now) result ≡ shown map self.now }
    {
        self.slots.get(map)
    }

    /// The same, with one more owner.
    pub(crate) fn share(&self, map: u32) -> Result<Option<Arc<Version>>, NoMemory>
        ensures { IfOk result (λ version. option_map arc_value version ≡ shown map self.now) }
    {
        match self.slots.share(map) {
            Ok(version) => Ok(version),
            Err(_) => Err(NoMemory),
        }
    }

    /// A copy of the table. It takes no memory, and is refused where its versions have too many owners.
    pub(crate) fn copy(&self) -> Result<Table<J>, AllocError>
        ensures { IfOk result (λ table. table ≡ self.now) }
    {
        Table::new(&self.front, &self.slots)
    }

    /// The other one, where it goes further.
    pub(crate) fn further(&self, other: &Table<J>) -> Option<Table<J>>
        ensures { IfSome result (λ table. (table ≡ other.now) × IsFront self.now table) }
    {
        if self.front.is_behind(&other.front) {
            other.copy().ok()
        } else {
            None
        }
    }
}

/// What a writer tells of its log, for a reader to meet. Contracts see it as a log.
///
/// It has no table where the versions have too many owners.
#[derive(Drop)]
pub struct Note<J: Naming> {
    front: Front<J>,
    table: Option<Table<J>>,
}

impl<J: Naming> Model for Note<J> {
    ghost use Rattle.std.specs.Prelude.{◌≡◌, IfSome};
    ghost use Rattle.yp_board.specs.Logs.{Log};

    ghost Value = { Log };

    ghost view = { λ n. n.front };

    ghost invariant = { λ n. IfSome n.table (λ table. table ≡ n.front) };
}

impl<J: Naming> Note<J> {
    /// A note of a front, and of the last versions in it.
    pub(crate) fn new(front: &Front<J>, slots: &Arc<Slots>) -> Note<J>
        requires { TableHolds (arc_value slots.now) front.now }
        ensures { result ≡ front.now }
    {
        let table = Table::new(front, slots).ok();
        Note {
            front: front.again(),
            table,
        }
    }

    /// Its front.
    pub(crate) fn front(&self) -> &Front<J>
        ensures { result.now ≡ self.now }
    {
        &self.front
    }

    /// Its table, if it has one.
    pub(crate) fn into_table(self) -> Option<Table<J>>
        ensures { IfSome result (λ table. table ≡ self) }
    {
        self.table
    }
}

impl<J: Naming> Absorb<Table<J>> for Table<J> {
    // Read by clauses alone, as a list of any length.
    type State = [Shown; 0];

    ghost state = { λ table. table };

    ghost applied = { λ log table. table };

    fn absorb_first(&mut self, operation: &Table<J>, _other: &Table<J>) -> Result<(), AllocError> {
        *self = operation.copy()?;
        Ok(())
    }

    fn absorb_second(&mut self, operation: Table<J>, _other: &Table<J>) -> Result<(), Table<J>> {
        *self = operation;
        Ok(())
    }
}
