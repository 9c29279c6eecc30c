//! The writer of a board for threads.

ghost use Rattle.std.specs.Prelude.{◌≡◌, ◌<◌, [], ◌∷◌, ◌++◌, length, IfOk};
ghost use Rattle.std.specs.Arc.{arc_value};
ghost use Rattle.yp_board.specs.inside.readers.Tables.{TableHolds};

use crate::readers::reader::Reader;
use crate::readers::slots::Slots;
use crate::readers::table::{Note, Table};
use crate::readers::{Front, History, Naming, Shown};
use crate::{Catalog, Show, ShowRefused, Tell};
use left_right::{Absorb, WriteHandle};
use std::alloc::Global;
use std::marker::Model;
use std::sync::{Arc, Wait};
use yp_io::NoMemory;
use yp_version::Version;

/// The writer of a board, which shows versions to its readers. It may wait for those that are inside a read step.
#[derive(Drop)]
pub struct Writer<J: Naming, R: Wait + Drop>
where
    Table<J>: Absorb<Table<J>, State = [Shown; 0]>,
{
    alloc: Global,
    history: History<J>,
    slots: Arc<Slots>,
    handle: WriteHandle<Table<J>, Table<J>, R>,
}

impl<J: Naming, R: Wait + Drop> Model for Writer<J, R>
where
    Table<J>: Absorb<Table<J>, State = [Shown; 0]>,
{
    ghost use Rattle.std.specs.Prelude.{length};
    ghost use Rattle.std.specs.Arc.{arc_value};
    ghost use Rattle.yp_board.specs.inside.readers.Boards.{Written};
    ghost use Rattle.yp_board.specs.inside.readers.Tables.{TableHolds};

    ghost Value = { Written };

    ghost view = { λ w. record { maps = length (arc_value w.slots); log = w.history } };

    ghost invariant = { λ w. TableHolds (arc_value w.slots) w.history };
}

impl<J: Naming, R: Wait + Drop> Writer<J, R>
where
    Table<J>: Absorb<Table<J>, State = [Shown; 0]>,
{
    /// A writer of this log, and of the last versions in it, with room for so many readers.
    pub(crate) fn new(
        alloc: Global,
        rt: R,
        history: History<J>,
        slots: Slots,
        readers: u32,
    ) -> Result<Writer<J, R>, NoMemory>
        requires held { TableHolds slots history }
        requires some { 0 < readers }
        ensures { IfOk result (λ writer. writer ≡ record { maps = length slots; log = history }) }
    {
        let slots = Arc::new(alloc, slots).map_err(|_| NoMemory)?;
        let first = Table::new(history.front(), &slots).map_err(|_| NoMemory)?;
        let second = Table::new(history.front(), &slots).map_err(|_| NoMemory)?;
        let handle = WriteHandle::new(alloc, rt, first, second, readers as usize).map_err(
            |_| NoMemory,
        )?;
        Ok(Writer {
            alloc,
            history,
            slots,
            handle,
        })
    }

    /// How many maps there are.
    pub fn maps(&self) -> usize
        ensures { result ≡ self.now.maps }
    {
        self.slots.len()
    }

    /// A reader that knows all that is shown.
    pub(crate) fn reader(&self, catalog: &Arc<Catalog>) -> Result<Reader<J>, NoMemory>
        ensures { IfOk result (λ reader. reader ≡ record {
          catalogue = arc_value catalog.now;
          known = self.now.log;
          asked = 0;
        }) }
    {
        let catalog = Arc::try_clone(catalog).map_err(|_| NoMemory)?;
        let table = Table::new(self.history.front(), &self.slots).map_err(|_| NoMemory)?;
        let handle = self.handle.handle().map_err(|_| NoMemory)?;
        Ok(Reader::new(catalog, table, handle))
    }

    /// What is shown, for a reader to meet. It takes no memory.
    pub fn tell(&self) -> Note<J>
        ensures { result ≡ self.now.log }
    {
        Note::new(self.history.front(), &self.slots)
    }

    /// Carries to the readers what is shown. Where memory runs out, they see it with the version that is shown next.
    fn carry(&mut self)
        ensures { self.new ≡ self.old }
    {
        let Ok(table) = Table::new(self.history.front(), &self.slots) else {
            return;
        };
        if self.handle.append(table).is_ok() && self.handle.publish().is_ok() {
            // Once more for the copy that readers took before, so that it keeps no old version.
            let _ = self.handle.publish();
        }
    }
}

impl<J: Naming, R: Wait + Drop> Show for Writer<J, R>
where
    Table<J>: Absorb<Table<J>, State = [Shown; 0]>,
{
    ghost maps = { λ writer. writer.maps };

    ghost log = { λ writer. writer.log };

    ghost showed = { λ map version old new. new ≡ record old { log = old.log ++ (map, version) ∷ [] } };

    #[tactic(auto, using(crate::proofs::readers::Held::holds_more))]
    fn show(&mut self, map: u32, version: Arc<Version>) -> Result<(), ShowRefused> {
        let Ok(slots) = self.slots.with(self.alloc, map, &version) else {
            return Err(ShowRefused { version });
        };
        let Ok(slots) = Arc::new(self.alloc, slots) else {
            return Err(ShowRefused { version });
        };
        if !self.history.push(&Shown::new(map, &version)) {
            return Err(ShowRefused { version });
        }
        self.slots = slots;
        self.carry();
        Ok(())
    }
}

impl<J: Naming, R: Wait + Drop> Tell for Writer<J, R>
where
    Table<J>: Absorb<Table<J>, State = [Shown; 0]>,
{
    type Reader = Reader<J>;

    type Front = Front<J>;

    ghost kept = { λ front. front };

    #[tactic(auto, using(crate::proofs::Fronts::both_fronts))]
    fn tell_to(&mut self, reader: &mut Reader<J>) -> Result<(), NoMemory> {
        self.history.covers(reader.front());
        reader.meet(self.tell())
    }

    fn known(reader: &Reader<J>) -> Front<J> {
        reader.front().again()
    }

    fn longer(one: Front<J>, other: Front<J>) -> Front<J> {
        if one.is_behind(&other) { other } else { one }
    }

    type Knowledge = Table<J>;

    ghost knows = { λ table. table };

    fn knowledge(reader: &Reader<J>) -> Result<Table<J>, NoMemory> {
        reader.table()
    }

    fn teach(reader: &mut Reader<J>, knowledge: Table<J>) {
        reader.learn(knowledge);
    }

    fn covers(&mut self, front: &Front<J>) {
        self.history.covers(front);
    }
}
