//! A hall in memory.

ghost use Rattle.std.specs.Prelude.{◌≡◌, ◌↔◌, ℕ, ◌+◌, ◌^◌, ◌<◌, false, [], ◌∷◌, ◌++◌, length, Some, All, Contains};
ghost use Rattle.std.specs.Prelude.{IsErr, IfSome, IfNone, IfOk, OnErr};
ghost use Rattle.yp_io.specs.Counts.{CountsFaults, capped, next_count, faults_after};
ghost use Rattle.yp_io.specs.Calls.{ConnectionComes, IsClosed};
ghost use Rattle.yp_io.specs.Calls.{none_closed, closed_then, taken_in};
ghost use Rattle.yp_io.specs.Hall.{IfComes, OnNotNow, OnNoMore, NoneComes};
ghost use Rattle.yp_memory.specs.inside.MemHall.{HallConnection, MemHallModel, EntryIsNew, entered_of, left_of};
ghost use Rattle.yp_memory.specs.inside.MemHall.{Closing, all_left_of};
ghost use Rattle.yp_memory.specs.inside.MemHall.{accepting_in, entries_of};

use crate::closer::MemCloser;
use crate::plan::Plan;
use crate::scheduled::Scheduled;
use crate::streams::{MemSink, MemSource};
use crate::watch::{MemWaker, MemWatch};
use std::alloc::Global;
use std::marker::Model;
use yp_io::{Called, Coming, Failed, Hall, Notice, Trail, Watch, count_fault};

/// A connection in memory that is never waited for.
pub type HallCall = Called<Scheduled<MemSource>, Scheduled<MemSink>>;

/// What closes such connections, and keeps them.
pub type HallCloser = MemCloser<HallCall>;

/// A hall in memory, which tells its connections.
#[derive(Drop)]
pub struct MemHall {
    alloc: Global,
    waiting: Vec<HallCall>,
    came: Trail<HallCall>,
    kept: Vec<HallCloser>,
    closers: Trail<HallCloser>,
    lost: bool,
    most: u32,
    accepted: u32,
    returned: u64,
    let_go: u64,
    plan: Plan,
    pausing: Vec<u64>,
    scripts: Vec<Vec<Notice>>,
}

impl Model for MemHall {
    ghost use Rattle.std.specs.Prelude.{◌≡◌, ◌≤◌, false, length, All};
    ghost use Rattle.yp_memory.specs.inside.MemHall.{MemHallModel, EntryIsNew};

    ghost Value = { MemHallModel };

    ghost view = { λ l. record {
      waiting = l.waiting.items;
      came = l.came;
      closers = l.closers;
      lost = l.lost;
      most = l.most;
      accepted = l.accepted;
      returned = l.returned;
      let_go = l.let_go;
      failing = l.plan.failing.items;
      pausing = l.pausing.items;
      calls = l.plan.calls;
      faults = l.plan.faults;
    } };

    ghost invariant = { λ l. (All EntryIsNew l.waiting.items) × (l.accepted ≤ l.most)
        × (length l.came ≡ l.accepted)
        × (l.lost ≡ false → l.kept.items ≡ l.closers) };
}

impl MemHall {
    /// Gives these connections in turn, `most` of them; an accept under that number with none left is a fault. Each
    /// `try_accept` and each `watch` is a call: one whose number, from 0, stands in `failing` fails, and one that would
    /// accept and whose number stands in `pausing` says "not now". The watches have these scripts, the last first, and
    /// then none. The wires have met no fault and taken nothing.
    pub fn new(
        alloc: Global,
        arrivals: Vec<HallCall>,
        most: u32,
        failing: Vec<u64>,
        pausing: Vec<u64>,
        scripts: Vec<Vec<Notice>>,
    ) -> MemHall
        requires { All EntryIsNew arrivals.items }
        ensures { result ≡ record {
          waiting = arrivals.items;
          came = [];
          closers = [];
          lost = false;
          most = most;
          accepted = 0;
          returned = 0;
          let_go = 0;
          failing = failing.items;
          pausing = pausing.items;
          calls = 0;
          faults = 0;
        } }
    {
        MemHall {
            alloc,
            waiting: arrivals,
            came: Trail::new(),
            kept: Vec::new(alloc),
            closers: Trail::new(),
            lost: false,
            most,
            accepted: 0,
            returned: 0,
            let_go: 0,
            plan: Plan::new(failing),
            pausing,
            scripts,
        }
    }

    /// The closers that were taken in, but for those that there was no memory to keep.
    pub fn closers(&self) -> &[HallCloser]
        ensures { self.now.lost ≡ false → result.now ≡ self.now.closers }
    {
        &self.kept
    }

    /// How many connections were let go.
    pub fn let_go(&self) -> u64
        ensures { result ≡ self.now.let_go }
    {
        self.let_go
    }

    /// How many connections were accepted.
    pub fn accepted(&self) -> u32
        ensures { result ≡ self.now.accepted }
    {
        self.accepted
    }

    // The next connection, unless none is left.
    fn next_call(&mut self) -> Option<HallCall>
        requires { self.old.accepted < self.old.most }
        ensures fresh { IfSome result EntryIsNew }
        ensures first { IfSome result (λ call. self.old.waiting ≡ call ∷ self.new.waiting) }
        ensures came { IfSome result (λ call. self.new ≡ record self.old {
          waiting = self.new.waiting;
          came = self.old.came ++ call ∷ [];
          accepted = self.old.accepted + 1;
        }) }
        ensures none { IfNone result (self.new ≡ self.old) }
    {
        if self.waiting.is_empty() {
            return None;
        }
        let call = self.waiting.remove(0);
        self.came.push(&call);
        self.accepted += 1;
        Some(call)
    }
}

impl Hall for MemHall {
    type In = Scheduled<MemSource>;

    type Out = Scheduled<MemSink>;

    type Closer = HallCloser;

    type Waker = MemWaker;

    type Watch = MemWatch;

    ghost past = { entries_of };

    ghost most = { λ l. l.most };

    ghost accepted = { λ l. l.accepted };

    ghost returned = { λ l. l.returned };

    ghost faults = { λ l. l.faults };

    ghost let_go = { λ l. l.let_go };

    ghost closed = { λ c. Some (all_left_of c) };

    ghost closed_count = { λ (c : Closing HallConnection). c.count };

    fn try_accept(&mut self) -> Result<Coming<Scheduled<MemSource>, Scheduled<MemSink>>, Failed>
        ensures came { IfOk result (IfComes (λ call.
            ConnectionComes (entered_of call) (accepting_in self.old) (accepting_in self.new))) }
        ensures fresh { IfOk result (IfComes EntryIsNew) }
        ensures not_now { IfOk result (OnNotNow (NoneComes (accepting_in self.old) (accepting_in self.new))) }
        ensures closed { IfOk result (OnNoMore (IsClosed (accepting_in self.old) (accepting_in self.new))) }
        ensures none { OnErr result (accepting_in self.new ≡ accepting_in self.old) }
        ensures returned { self.new.returned ≡ self.old.returned }
        ensures let_go { self.new.let_go ≡ self.old.let_go }
        ensures number { self.new.accepted < 2 ^ 64 }
        ensures cause { CountsFaults self.old.faults self.new.faults result }
        ensures fails { Contains self.old.failing self.old.calls → IsErr result }
        ensures pauses { IfOk result (OnNotNow (Contains self.old.pausing self.old.calls)) }
        ensures comes { IfOk result (IfComes (λ _. Contains self.old.pausing self.old.calls → ⊥)) }
        ensures first { IfOk result (IfComes (λ call. self.old.waiting ≡ call ∷ self.new.waiting)) }
        ensures others { self.new ≡ record self.old {
          waiting = self.new.waiting;
          came = self.new.came;
          accepted = self.new.accepted;
          calls = next_count self.old.calls;
          faults = faults_after self.old.faults result;
        } }
    {
        let number = self.plan.calls;
        self.plan.start_call()?;
        if self.accepted == self.most {
            return Ok(Coming::Closed);
        }
        if self.pausing.contains(&number) {
            return Ok(Coming::NotNow);
        }
        match self.next_call() {
            Some(call) => Ok(Coming::Came(call)),
            None => Err(count_fault(&mut self.plan.faults)),
        }
    }

    fn watch(&mut self, _is_at_door: bool) -> Result<MemWatch, Failed>
        ensures fresh { IfOk result (λ watch. ⟦<MemWatch as Watch>⟧.let_go watch ≡ 0) }
        ensures same { accepting_in self.new ≡ accepting_in self.old }
        ensures returned { self.new.returned ≡ self.old.returned }
        ensures let_go { self.new.let_go ≡ self.old.let_go }
        ensures cause { CountsFaults self.old.faults self.new.faults result }
        ensures fails { IsErr result ↔ Contains self.old.failing self.old.calls }
        ensures others { self.new ≡ record self.old {
          calls = next_count self.old.calls;
          faults = faults_after self.old.faults result;
        } }
    {
        self.plan.start_call()?;
        match self.scripts.pop() {
            Some(script) => Ok(MemWatch::new(self.alloc, script)),
            None => Ok(MemWatch::new(self.alloc, Vec::new(self.alloc))),
        }
    }

    fn closer(&self) -> HallCloser
        ensures closed { Some (all_left_of result) ≡ none_closed (entries_of self.now) }
        ensures count { result.count ≡ 0 }
        ensures kept { result.lost ≡ false }
    {
        MemCloser::new(self.alloc)
    }

    fn close(closer: &mut HallCloser, call: HallCall)
        ensures closed { Some (all_left_of closer.new)
            ≡ closed_then (Some (all_left_of closer.old)) (left_of call ∷ []) }
        ensures count { closer.new.count ≡ next_count closer.old.count }
    {
        closer.close(call);
    }

    fn take_in(&mut self, closer: HallCloser)
        ensures past { entries_of self.new ≡ taken_in (entries_of self.old) (Some (all_left_of closer)) }
        ensures most { self.new.most ≡ self.old.most }
        ensures accepted { self.new.accepted ≡ self.old.accepted }
        ensures returned { self.new.returned ≡ capped self.old.returned closer.count }
        ensures faults { self.new.faults ≡ self.old.faults }
        ensures let_go { self.new.let_go ≡ self.old.let_go }
    {
        self.returned = self.returned.saturating_add(closer.count());
        self.closers.push(&closer);
        if self.kept.push(closer).is_err() {
            self.lost = true;
        }
    }

    fn end(&mut self, watch: MemWatch)
        ensures others { self.new ≡ record self.old {
          let_go = capped self.old.let_go (⟦<MemWatch as Watch>⟧.let_go watch);
        } }
    {
        self.let_go = self.let_go.saturating_add(watch.let_go());
    }
}
