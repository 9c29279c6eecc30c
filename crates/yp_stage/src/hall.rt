//! The hall of a row.

ghost use Rattle.std.specs.Prelude.{◌≡◌, [], ◌∷◌};
ghost use Rattle.yp_io.specs.Calls.{closed_then, ended_by};
ghost use Rattle.yp_io.specs.Counts.{next_count};
ghost use Rattle.yp_io.specs.Hall.{try_halves_of};

use std::alloc::Global;
use yp_io::{Coming, Failed, Hall, TrySink, TrySource};
use yp_memory::{HallCall, HallCloser, MemHall, MemSink, MemSource, MemWaker, MemWatch, Scheduled};

/// A hall in memory of which the watch of the worker that does what takes long is no call. So which call fails doesn't
/// depend on the moment at which that worker begins.
#[derive(Drop)]
pub struct StageHall {
    alloc: Global,
    hall: MemHall,
}

impl StageHall {
    /// A hall over this one.
    pub fn new(alloc: Global, hall: MemHall) -> StageHall {
        StageHall { alloc, hall }
    }

    /// The closers that were taken in.
    pub fn closers(&self) -> &[HallCloser] {
        self.hall.closers()
    }

    /// How many connections were accepted.
    pub fn accepted(&self) -> u32 {
        self.hall.accepted()
    }
}

impl Hall for StageHall {
    type In = Scheduled<MemSource>;

    type Out = Scheduled<MemSink>;

    type Closer = HallCloser;

    type Waker = MemWaker;

    type Watch = MemWatch;

    ghost past = { λ l. ⟦<MemHall as Hall>⟧.past l.hall };

    ghost most = { λ l. ⟦<MemHall as Hall>⟧.most l.hall };

    ghost accepted = { λ l. ⟦<MemHall as Hall>⟧.accepted l.hall };

    ghost returned = { λ l. ⟦<MemHall as Hall>⟧.returned l.hall };

    ghost faults = { λ l. ⟦<MemHall as Hall>⟧.faults l.hall };

    ghost let_go = { λ l. ⟦<MemHall as Hall>⟧.let_go l.hall };

    ghost closed = { ⟦<MemHall as Hall>⟧.closed };

    ghost closed_count = { ⟦<MemHall as Hall>⟧.closed_count };

    fn try_accept(&mut self) -> Result<Coming<Scheduled<MemSource>, Scheduled<MemSink>>, Failed> {
        self.hall.try_accept()
    }

    fn watch(&mut self, is_at_door: bool) -> Result<MemWatch, Failed> {
        if is_at_door {
            self.hall.watch(true)
        } else {
            Ok(MemWatch::new(self.alloc, Vec::new(self.alloc)))
        }
    }

    fn closer(&self) -> HallCloser {
        self.hall.closer()
    }

    fn close(closer: &mut HallCloser, call: HallCall)
        ensures closed { ⟦<MemHall as Hall>⟧.closed closer.new ≡ closed_then
            (⟦<MemHall as Hall>⟧.closed closer.old)
            (ended_by (try_halves_of ⟦<Scheduled<MemSource> as TrySource>⟧ ⟦<Scheduled<MemSink> as TrySink>⟧) call
            ∷ []) }
        ensures count { ⟦<MemHall as Hall>⟧.closed_count closer.new
            ≡ next_count (⟦<MemHall as Hall>⟧.closed_count closer.old) }
    {
        <MemHall as Hall>::close(closer, call);
    }

    fn take_in(&mut self, closer: HallCloser) {
        self.hall.take_in(closer);
    }

    fn end(&mut self, watch: MemWatch) {
        self.hall.end(watch);
    }
}
