//! A reader of a board for threads.

ghost use Rattle.std.specs.Prelude.{◌≡◌, ◌⊎◌, IfOk, IfSome, OnOk, OnErr, MatchBool};
ghost use Rattle.std.specs.Arc.{arc_value};
ghost use Rattle.yp_board.specs.Views.{IsFront, Refreshes};

use crate::readers::table::{Note, Table};
use crate::readers::{Front, Naming};
use crate::{Catalog, View};
use left_right::ReadHandle;
use std::marker::Model;
use std::sync::Arc;
use yp_io::NoMemory;
use yp_version::Version;

/// A reader of a board, for a thread of its own. It keeps the versions that it knows, and lends them from there.
#[derive(Drop)]
pub struct Reader<J: Naming> {
    catalog: Arc<Catalog>,
    table: Table<J>,
    asked: u64,
    handle: ReadHandle<Table<J>>,
}

impl<J: Naming> Model for Reader<J> {
    ghost use Rattle.std.specs.Arc.{arc_value};
    ghost use Rattle.yp_board.specs.Views.{Seen};

    ghost Value = { Seen };

    ghost view = { λ r. record { catalogue = arc_value r.catalog; known = r.table; asked = r.asked } };
}

impl<J: Naming> Reader<J> {
    /// A reader that knows what the table has.
    pub(crate) fn new(
        catalog: Arc<Catalog>,
        table: Table<J>,
        handle: ReadHandle<Table<J>>,
    ) -> Reader<J>
        ensures { result ≡ record { catalogue = arc_value catalog; known = table; asked = 0 } }
    {
        Reader {
            catalog,
            table,
            asked: 0,
            handle,
        }
    }

    /// Whether the other one knows all that it knows, and more. Where not, it knows all that the other one knows: what
    /// the readers of a board know are fronts of one log.
    pub fn is_behind(&self, other: &Reader<J>) -> bool
        ensures { MatchBool result (IsFront self.now.known other.now.known) (IsFront other.now.known self.now.known) }
    {
        self.table.front().is_behind(other.table.front())
    }

    /// The front that it knows.
    pub(crate) fn front(&self) -> &Front<J>
        ensures { result.now ≡ self.now.known }
    {
        self.table.front()
    }

    /// Learns what the writer told. Afterwards it knows the longer of two fronts, its own and the note's. It takes no
    /// memory, and nothing has changed where it is refused.
    pub fn meet(&mut self, note: Note<J>) -> Result<(), NoMemory>
        ensures met { OnOk result (IsFront note self.new.known) }
        ensures grown { IsFront self.old.known self.new.known }
        ensures longer { (self.new.known ≡ self.old.known) ⊎ (self.new.known ≡ note) }
        ensures same { self.new ≡ record self.old { known = self.new.known } }
        ensures refused { OnErr result (self.new ≡ self.old) }
    {
        if !self.table.front().is_behind(note.front()) {
            return Ok(());
        }
        match note.into_table() {
            Some(table) => {
                self.table = table;
                Ok(())
            }
            None => Err(NoMemory),
        }
    }
}

impl<J: Naming> Reader<J> {
    /// The table that it knows, with one more owner of its versions. It takes no memory, and is refused where these
    /// have too many.
    pub(crate) fn table(&self) -> Result<Table<J>, NoMemory>
        ensures { IfOk result (λ table. table ≡ self.now.known) }
    {
        self.table.copy().map_err(|_| NoMemory)
    }

    /// Learns what another reader knew. Afterwards it knows the longer of two fronts, its own and that one's.
    pub(crate) fn learn(&mut self, table: Table<J>)
        ensures known { IsFront table self.new.known }
        ensures grown { IsFront self.old.known self.new.known }
        ensures same { self.new ≡ record self.old { known = self.new.known } }
    {
        if self.table.front().is_behind(table.front()) {
            self.table = table;
        }
    }
}

/// What the writer carried last, where it goes further than this table.
fn newer<J: Naming>(handle: &mut ReadHandle<Table<J>>, table: &Table<J>) -> Option<Table<J>>
    ensures { IfSome result (λ newer. IsFront table.now newer) }
{
    let carried = handle.enter()?;
    table.further(&carried)
}

impl<J: Naming> View for Reader<J> {
    ghost seen = { λ reader. reader };

    ghost stepped = { Refreshes };

    fn catalog(&self) -> &Catalog {
        &self.catalog
    }

    fn refresh(&mut self) {
        self.asked = self.asked.saturating_add(1);
        if let Some(table) = newer(&mut self.handle, &self.table) {
            self.table = table;
        }
    }

    fn held(&self, map: u32) -> Option<&Version> {
        self.table.get(map)
    }

    fn share(&self, map: u32) -> Result<Option<Arc<Version>>, NoMemory> {
        self.table.share(map)
    }
}
