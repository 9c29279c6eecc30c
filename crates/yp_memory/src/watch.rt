//! A watch in memory.

ghost use Rattle.std.specs.Prelude.{◌≡◌};

use crate::scheduled::Scheduled;
use crate::streams::MemSource;
use std::alloc::Global;
use yp_io::{Awaited, Failed, Notice, Wake, Watch, count_fault};

/// A watch in memory. It gives the notices of a script first, and then the door and each place that was entered, in
/// turn, for ever. It never waits, and no time passes.
#[derive(Drop)]
pub struct MemWatch {
    script: Vec<Notice>,
    told: usize,
    places: Vec<u32>,
    turn: usize,
    let_go: u64,
}

/// What wakes a watch in memory, which never waits.
#[derive(Drop)]
pub struct MemWaker;

impl Wake for MemWaker {
    fn wake(&self) {}
}

impl MemWatch {
    /// A watch with this script.
    pub fn new(alloc: Global, script: Vec<Notice>) -> MemWatch
        ensures { ⟦<MemWatch as Watch>⟧.let_go result ≡ 0 }
    {
        MemWatch {
            script,
            told: 0,
            places: Vec::new(alloc),
            turn: 0,
            let_go: 0,
        }
    }

    /// How many connections it has let go.
    pub(crate) fn let_go(&self) -> u64
        ensures { result ≡ self.now.let_go }
    {
        self.let_go
    }

    // The next notice of the script, while it lasts.
    fn scripted(&mut self) -> Option<Notice>
        ensures let_go { self.new.let_go ≡ self.old.let_go }
    {
        let notice = *self.script.get(self.told)?;
        self.told = self.told.saturating_add(1);
        Some(notice)
    }
}

impl Watch for MemWatch {
    type In = Scheduled<MemSource>;

    type Waker = MemWaker;

    ghost let_go = { λ w. w.let_go };

    fn waker(&self) -> Option<MemWaker> {
        Some(MemWaker)
    }

    /// It fails only where memory has run out.
    fn enter(&mut self, place: u32, _source: &Scheduled<MemSource>) -> Result<(), Failed> {
        if self.places.contains(&place) {
            return Ok(());
        }
        match self.places.push(place) {
            Ok(()) => Ok(()),
            Err(_) => Err(count_fault(&mut self.let_go)),
        }
    }

    fn awaits(&mut self, _place: u32, _what: Awaited, _moved: bool) {}

    fn again(&mut self, _place: u32) {}

    fn leave(&mut self, place: u32) {
        self.places.retain(|entered| *entered != place);
    }

    fn next(&mut self) -> Notice {
        if let Some(notice) = self.scripted() {
            if let Notice::Late { .. } = notice {
                self.let_go = self.let_go.saturating_add(1);
            }
            return notice;
        }
        match self.places.get(self.turn) {
            Some(place) => {
                self.turn = self.turn.saturating_add(1);
                Notice::Ready { place: *place }
            }
            None => {
                self.turn = 0;
                Notice::Door
            }
        }
    }
}
