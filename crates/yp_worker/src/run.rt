//! A worker that serves the connections of a listener, which others share: all that it accepted at once, and it waits
//! for none of them.

ghost use Rattle.std.specs.Prelude.{◌≡◌, ◌≤◌, ◌<◌, ◌+◌, ℕ, true, false, length, IfSome, IfNone, is_some};
ghost use Rattle.slab.specs.Slab.{HasRoomFor, get, slab_len};
ghost use Rattle.yp_io.specs.Counts.{next_count};
ghost use Rattle.yp_io.specs.Hall.{try_halves_of};
ghost use Rattle.yp_board.specs.Views.{IsFront};
ghost use Rattle.yp_answer.specs.inside.session.Hosts.{conduct_by};
ghost use Rattle.yp_answer.specs.inside.session.Errands.{IsDue};
ghost use Rattle.yp_answer.specs.inside.session.Cuts.{ComesTo, cut_of};
ghost use Rattle.yp_worker.specs.Receptions.{IsUnder};
ghost use Rattle.yp_worker.specs.Working.{IsTold};
ghost use Rattle.yp_worker.specs.inside.Receptions.{Admits, IsExpectedCall, IsNotLeft, terms_by};
ghost use Rattle.yp_worker.specs.Summing.{IsOver, counting_of};
ghost use Rattle.yp_worker.specs.inside.Guests.{ChangesAt, Comes, HasServed, IsKept, IsToSeat, IsWaiting, WorksOn};
ghost use Rattle.yp_worker.specs.inside.Guests.{let_go_where, serving_of, came_to};

use crate::catch_up::HandsOver;
use crate::gate::{Gate, Point};
use crate::guest::Guest;
use crate::left::LongWork;
use crate::listening::{Admission, Listening, Pass, Reception};
use crate::tally::Tally;
use crate::waiting::Waiting;
use crate::worker::Worker;
use slab::Slab;
use std::sync::ledger::Ledger;
use std::sync::{Mutex, Wait};
use yp_answer::session::Advance;
use yp_io::{Awaited, Called, Hall, Notice, TrySink, TrySource, Watch};

/// The most steps that are done for one connection before the others are looked at: a record that is answered, a read,
/// or a write. Sixteen calls that have come together take nineteen: the last read tells that no more have come.
const TURN_STEPS: u32 = 20;

/// What a worker has at work: its guests, each under the key of its place, what closes and what watches them, what was
/// counted, the number of the next conversation, and whether more are to come.
#[derive(Drop)]
struct Shift<L: Hall, G> {
    guests: Slab<Guest<L::In, L::Out, G>>,
    closer: L::Closer,
    watch: L::Watch,
    tally: Tally,
    next: u64,
    is_open: bool,
}

impl<L: Hall, G> Shift<L, G> {
    /// Whether no more come, and all who came are gone.
    fn is_over(&self) -> bool
        ensures { result ≡ true → (self.now.is_open ≡ false) × (slab_len self.now.guests ≡ 0) }
    {
        !self.is_open && self.guests.is_empty()
    }

    /// Takes room for one guest more, and answers whether there is, and a number.
    fn has_room(&mut self) -> bool
        ensures room { result ≡ true → HasRoomFor self.new.guests 1 × (self.new.guests.vacant_key ≤ 4294967295) }
        ensures number { result ≡ true → self.old.next + 1 < 18446744073709551616 }
        ensures same { self.new ≡ record self.old {
          guests = record self.old.guests { capacity = self.new.guests.capacity };
        } }
    {
        self.next < u64::MAX
            && self.guests.reserve(1).is_ok()
            && self.guests.vacant_key() <= u32::MAX as usize
    }
}

/// How a guest went on: what that came to, what it waits for, and whether it has moved.
#[derive(Drop)]
struct Went {
    advance: Advance,
    awaited: Awaited,
    has_moved: bool,
}

impl<H: HandsOver, G: Gate + Copy + Drop> Worker<H, G> {
    /// Serves connections, all that have come at once, until as many were accepted as are to be, or an accept has
    /// failed, and all that came to it are closed. Then it hands over what its closer tells, and what its host has
    /// counted. It holds the lock of the listener only while it tries to accept, and at both ends.
    ///
    /// It accepts one where its watch tells it so, and goes on with each that is ready for at most twenty steps before
    /// it looks at the others. One that its watch tells late is closed as it stands. In quiet times its host is told
    /// what others showed. Where it can't have a watch it ends at once, and no more are accepted.
    ///
    /// One whose next deed takes long it leaves for good to the worker whose work that is, and where that can't be it
    /// goes on with it itself. That one goes on with all that were left to it, and accepts nothing before all who leave
    /// guests have ended.
    pub fn run<J: Reception, E: Ledger, L: Hall, R: Wait>(
        &mut self,
        rt: &R,
        listening: &Mutex<Listening<J, E, H, L, G>>,
        pass: &mut Pass<J, E>,
    ) -> Tally
        requires under { IsUnder (conduct_by H.Host) (terms_by J.Reception) self.old }
        requires none { H.counted self.old.host ≡ H.none }
        ensures under { IsUnder (conduct_by H.Host) (terms_by J.Reception) self.new }
        ensures none { H.counted self.new.host ≡ H.none }
        ensures grown { IsFront (H.seen self.old.host).known (H.seen self.new.host).known }

        // It ends by an end of the listener alone, with no connection out that it has accepted.
        ensures pass { pass.new ≡ record pass.old { ended = pass.old.ended + 1 } }
    {
        let Some(mut shift) = self.begin(rt, listening, pass) else {
            return Tally {
                connections: 0,
                calls: 0,
                listen_fault: true,
            };
        };
        for _ in rt.forever() {
            if shift.is_over() {
                break;
            }
            self.turn(rt, listening, pass, &mut shift);
        }
        let Shift {
            guests: _,
            closer,
            watch,
            tally,
            next: _,
            is_open: _,
        } = shift;
        let mut kept = listening.lock(rt);
        kept.retire(pass, closer, watch, &tally, self);
        tally
    }

    /// What it has at work before the first connection. Where it can't watch any, it has ended.
    fn begin<J: Reception, E: Ledger, L: Hall, R: Wait>(
        &self,
        rt: &R,
        listening: &Mutex<Listening<J, E, H, L, G>>,
        pass: &mut Pass<J, E>,
    ) -> Option<Shift<L, G>>
        requires under { IsUnder (conduct_by H.Host) (terms_by J.Reception) self.now }
        requires none { H.counted self.now.host ≡ H.none }
        ensures served { IfSome result (λ shift. HasServed L.In.TrySource L.Out.TrySink
            (conduct_by H.Host) (counting_of H.counted H.none H.plus) (terms_by J.Reception) J.opening.past
            (serving_of L.closed L.closed_count L.Watch.Watch.let_go
            shift.guests shift.closer shift.watch shift.tally shift.next)
            self.now) }
        ensures nobody { IfSome result (λ shift. (came_to shift.tally shift.guests ≡ 0) × (shift.is_open ≡ true)) }
        ensures same { IfSome result (λ _. pass.new ≡ pass.old) }
        ensures ended { IfNone result (pass.new ≡ record pass.old { ended = pass.old.ended + 1 }) }
    {
        let begun = listening.lock(rt).begin(pass, self.work);
        let Ok((closer, watch)) = begun else {
            return None;
        };
        if self.work.is_some() {
            self.gate.at(Point::Begun);
        }
        Some(Shift {
            guests: Slab::new(self.buffers.alloc()),
            closer,
            watch,
            tally: Tally {
                connections: 0,
                calls: 0,
                listen_fault: false,
            },
            next: 0,
            is_open: true,
        })
    }

    /// Does what its watch tells next.
    fn turn<J: Reception, E: Ledger, L: Hall, R: Wait>(
        &mut self,
        rt: &R,
        listening: &Mutex<Listening<J, E, H, L, G>>,
        pass: &mut Pass<J, E>,
        shift: &mut Shift<L, G>,
    )
        requires under { IsUnder (conduct_by H.Host) (terms_by J.Reception) self.old }
        requires out { came_to shift.old.tally shift.old.guests ≤ pass.old.out }
        requires served { HasServed L.In.TrySource L.Out.TrySink
            (conduct_by H.Host) (counting_of H.counted H.none H.plus) (terms_by J.Reception) J.opening.past
            (serving_of L.closed L.closed_count L.Watch.Watch.let_go
            shift.old.guests shift.old.closer shift.old.watch shift.old.tally shift.old.next)
            self.old }
        ensures under { IsUnder (conduct_by H.Host) (terms_by J.Reception) self.new }
        ensures grown { IsFront (H.seen self.old.host).known (H.seen self.new.host).known }
        ensures served { HasServed L.In.TrySource L.Out.TrySink
            (conduct_by H.Host) (counting_of H.counted H.none H.plus) (terms_by J.Reception) J.opening.past
            (serving_of L.closed L.closed_count L.Watch.Watch.let_go
            shift.new.guests shift.new.closer shift.new.watch shift.new.tally shift.new.next)
            self.new }
        ensures comes { Comes pass.old pass.new (came_to shift.old.tally shift.old.guests)
            (came_to shift.new.tally shift.new.guests) shift.old.is_open shift.new.is_open }
    {
        match shift.watch.next() {
            Notice::Door => self.admit(rt, listening, pass, shift),
            Notice::Ready { place } => self.go_on(rt, listening, pass, shift, place),
            Notice::Late { place } => self.let_go::<J, L>(shift, place),
            Notice::Quiet => {
                // Where there is no memory for that, the host goes on with what it knew.
                let _ = self.host.catch_up();
                self.admit(rt, listening, pass, shift);
            }
        }
    }

    /// Takes the next connection or guest where one is there and there is room for it.
    fn admit<J: Reception, E: Ledger, L: Hall, R: Wait>(
        &mut self,
        rt: &R,
        listening: &Mutex<Listening<J, E, H, L, G>>,
        pass: &mut Pass<J, E>,
        shift: &mut Shift<L, G>,
    )
        requires under { IsUnder (conduct_by H.Host) (terms_by J.Reception) self.old }
        requires served { HasServed L.In.TrySource L.Out.TrySink
            (conduct_by H.Host) (counting_of H.counted H.none H.plus) (terms_by J.Reception) J.opening.past
            (serving_of L.closed L.closed_count L.Watch.Watch.let_go
            shift.old.guests shift.old.closer shift.old.watch shift.old.tally shift.old.next)
            self.old }
        ensures under { IsUnder (conduct_by H.Host) (terms_by J.Reception) self.new }
        ensures grown { IsFront (H.seen self.old.host).known (H.seen self.new.host).known }
        ensures served { HasServed L.In.TrySource L.Out.TrySink
            (conduct_by H.Host) (counting_of H.counted H.none H.plus) (terms_by J.Reception) J.opening.past
            (serving_of L.closed L.closed_count L.Watch.Watch.let_go
            shift.new.guests shift.new.closer shift.new.watch shift.new.tally shift.new.next)
            self.new }
        ensures comes { Comes pass.old pass.new (came_to shift.old.tally shift.old.guests)
            (came_to shift.new.tally shift.new.guests) shift.old.is_open shift.new.is_open }
    {
        if !shift.is_open {
            return;
        }
        if !shift.has_room() {
            return;
        }
        match admitted(rt, listening, pass, self.work) {
            Admission::Came { call, connection } => self.enter::<J, L>(shift, call, connection),
            Admission::Left(waiting) => self.take_over::<J, L>(shift, waiting),
            Admission::NotNow => {}
            Admission::Closed => shift.is_open = false,
            Admission::Failed => {
                shift.is_open = false;
                shift.tally.listen_fault = true;
            }
        }
    }

    /// Begins the conversation with a connection that was accepted.
    fn enter<J: Reception, L: Hall>(
        &self,
        shift: &mut Shift<L, G>,
        call: Called<L::In, L::Out>,
        connection: u64,
    )
        requires under { IsUnder (conduct_by H.Host) (terms_by J.Reception) self.now }
        requires room { HasRoomFor shift.old.guests 1 }
        requires place { shift.old.guests.vacant_key ≤ 4294967295 }
        requires number { shift.old.next + 1 < 18446744073709551616 }
        requires call { IsExpectedCall (try_halves_of L.In.TrySource L.Out.TrySink) J.opening.past call }
        requires served { HasServed L.In.TrySource L.Out.TrySink
            (conduct_by H.Host) (counting_of H.counted H.none H.plus) (terms_by J.Reception) J.opening.past
            (serving_of L.closed L.closed_count L.Watch.Watch.let_go
            shift.old.guests shift.old.closer shift.old.watch shift.old.tally shift.old.next)
            self.now }
        ensures served { HasServed L.In.TrySource L.Out.TrySink
            (conduct_by H.Host) (counting_of H.counted H.none H.plus) (terms_by J.Reception) J.opening.past
            (serving_of L.closed L.closed_count L.Watch.Watch.let_go
            shift.new.guests shift.new.closer shift.new.watch shift.new.tally shift.new.next)
            self.now }
        ensures came { came_to shift.new.tally shift.new.guests ≡ came_to shift.old.tally shift.old.guests + 1 }
        ensures door { shift.new.is_open ≡ shift.old.is_open }
    {
        self.gate.at(Point::Accepted { connection });
        let guest = Guest::new(
            self.buffers.alloc(),
            shift.next,
            call,
            self.gate,
            connection,
        );
        self.seat::<J, L>(shift, guest);
    }

    /// Takes over a guest that another worker left, once its host knows what the host of that one knew.
    fn take_over<J: Reception, L: Hall>(
        &mut self,
        shift: &mut Shift<L, G>,
        waiting: Waiting<L::In, L::Out, G, H::Front>,
    )
        requires under { IsUnder (conduct_by H.Host) (terms_by J.Reception) self.old }
        requires carries { self.old.carries ≡ true }
        requires room { HasRoomFor shift.old.guests 1 }
        requires place { shift.old.guests.vacant_key ≤ 4294967295 }
        requires number { shift.old.next + 1 < 18446744073709551616 }
        requires waits { IsWaiting L.In.TrySource L.Out.TrySink (conduct_by H.Host)
            (counting_of H.counted H.none H.plus) (terms_by J.Reception) J.opening.past H.Front.known waiting }
        requires served { HasServed L.In.TrySource L.Out.TrySink
            (conduct_by H.Host) (counting_of H.counted H.none H.plus) (terms_by J.Reception) J.opening.past
            (serving_of L.closed L.closed_count L.Watch.Watch.let_go
            shift.old.guests shift.old.closer shift.old.watch shift.old.tally shift.old.next)
            self.old }
        ensures under { IsUnder (conduct_by H.Host) (terms_by J.Reception) self.new }
        ensures grown { IsFront (H.seen self.old.host).known (H.seen self.new.host).known }
        ensures served { HasServed L.In.TrySource L.Out.TrySink
            (conduct_by H.Host) (counting_of H.counted H.none H.plus) (terms_by J.Reception) J.opening.past
            (serving_of L.closed L.closed_count L.Watch.Watch.let_go
            shift.new.guests shift.new.closer shift.new.watch shift.new.tally shift.new.next)
            self.new }
        ensures came { came_to shift.new.tally shift.new.guests ≡ came_to shift.old.tally shift.old.guests + 1 }
        ensures door { shift.new.is_open ≡ shift.old.is_open }
    {
        let (mut guest, front) = waiting.into_parts();
        self.reach(front);
        guest.renumber(shift.next);
        self.seat::<J, L>(shift, guest);
    }

    /// Lets its host know what the host of another worker knew.
    fn reach(&mut self, front: H::Front)
        ensures told { IsTold (conduct_by H.Host) H.counted self.old.host self.new.host }
        ensures reached { IsFront (H.Front.known front) (H.seen self.new.host).known }
        ensures same { self.new ≡ record self.old { host = self.new.host } }
    {
        self.host.reach(front);
    }

    /// Gives a guest a place, and has it watched there. One that can't be watched is let go at once.
    fn seat<J: Reception, L: Hall>(&self, shift: &mut Shift<L, G>, guest: Guest<L::In, L::Out, G>)
        requires under { IsUnder (conduct_by H.Host) (terms_by J.Reception) self.now }
        requires room { HasRoomFor shift.old.guests 1 }
        requires place { shift.old.guests.vacant_key ≤ 4294967295 }
        requires number { shift.old.next + 1 < 18446744073709551616 }
        requires comes { IsToSeat L.In.TrySource L.Out.TrySink
            (conduct_by H.Host) (counting_of H.counted H.none H.plus) (terms_by J.Reception) J.opening.past
            (serving_of L.closed L.closed_count L.Watch.Watch.let_go
            shift.old.guests shift.old.closer shift.old.watch shift.old.tally shift.old.next)
            self.now guest }
        ensures served { HasServed L.In.TrySource L.Out.TrySink
            (conduct_by H.Host) (counting_of H.counted H.none H.plus) (terms_by J.Reception) J.opening.past
            (serving_of L.closed L.closed_count L.Watch.Watch.let_go
            shift.new.guests shift.new.closer shift.new.watch shift.new.tally shift.new.next)
            self.now }
        ensures came { came_to shift.new.tally shift.new.guests ≡ came_to shift.old.tally shift.old.guests + 1 }
        ensures door { shift.new.is_open ≡ shift.old.is_open }
    {
        let place = shift.guests.vacant_key() as u32;
        let watched = shift.watch.enter(place, guest.source());
        shift.next += 1;
        shift.guests.insert_reserved(guest);
        if watched.is_err() {
            self.close::<J, L>(shift, place, true);
        }
    }

    /// Goes on with the guest of a place, where there is one. Where its next deed takes long it leaves it to the worker
    /// that does that, and where that can't be it goes on with it itself.
    fn go_on<J: Reception, E: Ledger, L: Hall, R: Wait>(
        &mut self,
        rt: &R,
        listening: &Mutex<Listening<J, E, H, L, G>>,
        pass: &mut Pass<J, E>,
        shift: &mut Shift<L, G>,
        place: u32,
    )
        requires under { IsUnder (conduct_by H.Host) (terms_by J.Reception) self.old }
        requires out { came_to shift.old.tally shift.old.guests ≤ pass.old.out }
        requires served { HasServed L.In.TrySource L.Out.TrySink
            (conduct_by H.Host) (counting_of H.counted H.none H.plus) (terms_by J.Reception) J.opening.past
            (serving_of L.closed L.closed_count L.Watch.Watch.let_go
            shift.old.guests shift.old.closer shift.old.watch shift.old.tally shift.old.next)
            self.old }
        ensures under { IsUnder (conduct_by H.Host) (terms_by J.Reception) self.new }
        ensures grown { IsFront (H.seen self.old.host).known (H.seen self.new.host).known }
        ensures served { HasServed L.In.TrySource L.Out.TrySink
            (conduct_by H.Host) (counting_of H.counted H.none H.plus) (terms_by J.Reception) J.opening.past
            (serving_of L.closed L.closed_count L.Watch.Watch.let_go
            shift.new.guests shift.new.closer shift.new.watch shift.new.tally shift.new.next)
            self.new }
        ensures comes { Comes pass.old pass.new (came_to shift.old.tally shift.old.guests)
            (came_to shift.new.tally shift.new.guests) shift.old.is_open shift.new.is_open }
    {
        let carries = self.work.is_some();
        if !self.step::<J, L>(shift, place, carries) {
            return;
        }
        if self.leave(rt, listening, pass, shift, place) {
            return;
        }
        self.step::<J, L>(shift, place, true);
    }

    /// Goes on with the guest of a place by a turn of steps, where there is one, and closes its connection where it is
    /// over. It answers whether its next deed takes long, which it does where that is said.
    fn step<J: Reception, L: Hall>(
        &mut self,
        shift: &mut Shift<L, G>,
        place: u32,
        carries: bool,
    ) -> bool
        requires under { IsUnder (conduct_by H.Host) (terms_by J.Reception) self.old }
        requires served { HasServed L.In.TrySource L.Out.TrySink
            (conduct_by H.Host) (counting_of H.counted H.none H.plus) (terms_by J.Reception) J.opening.past
            (serving_of L.closed L.closed_count L.Watch.Watch.let_go
            shift.old.guests shift.old.closer shift.old.watch shift.old.tally shift.old.next)
            self.old }
        ensures under { IsUnder (conduct_by H.Host) (terms_by J.Reception) self.new }
        ensures grown { IsFront (H.seen self.old.host).known (H.seen self.new.host).known }
        ensures served { HasServed L.In.TrySource L.Out.TrySink
            (conduct_by H.Host) (counting_of H.counted H.none H.plus) (terms_by J.Reception) J.opening.past
            (serving_of L.closed L.closed_count L.Watch.Watch.let_go
            shift.new.guests shift.new.closer shift.new.watch shift.new.tally shift.new.next)
            self.new }
        ensures came { came_to shift.new.tally shift.new.guests ≡ came_to shift.old.tally shift.old.guests }
        ensures door { shift.new.is_open ≡ shift.old.is_open }
    {
        let Some(went) = self.advanced::<L>(&mut shift.guests, place as usize, carries) else {
            return false;
        };
        match went.advance {
            Advance::Moved => {
                shift.watch.awaits(place, went.awaited, went.has_moved);
                shift.watch.again(place);
                false
            }
            Advance::Waits => {
                shift.watch.awaits(place, went.awaited, went.has_moved);
                false
            }
            Advance::TakesLong => {
                shift.watch.awaits(place, went.awaited, went.has_moved);
                true
            }
            Advance::Ended(_) | Advance::NoMemory => {
                shift.watch.leave(place);
                self.close::<J, L>(shift, place, false);
                false
            }
        }
    }

    /// Leaves the guest of a place for good to a worker that does what takes long, and answers whether it could.
    fn leave<J: Reception, E: Ledger, L: Hall, R: Wait>(
        &self,
        rt: &R,
        listening: &Mutex<Listening<J, E, H, L, G>>,
        pass: &mut Pass<J, E>,
        shift: &mut Shift<L, G>,
        place: u32,
    ) -> bool
        requires out { came_to shift.old.tally shift.old.guests ≤ pass.old.out }
        requires served { HasServed L.In.TrySource L.Out.TrySink
            (conduct_by H.Host) (counting_of H.counted H.none H.plus) (terms_by J.Reception) J.opening.past
            (serving_of L.closed L.closed_count L.Watch.Watch.let_go
            shift.old.guests shift.old.closer shift.old.watch shift.old.tally shift.old.next)
            self.now }
        ensures served { HasServed L.In.TrySource L.Out.TrySink
            (conduct_by H.Host) (counting_of H.counted H.none H.plus) (terms_by J.Reception) J.opening.past
            (serving_of L.closed L.closed_count L.Watch.Watch.let_go
            shift.new.guests shift.new.closer shift.new.watch shift.new.tally shift.new.next)
            self.now }
        ensures comes { Comes pass.old pass.new (came_to shift.old.tally shift.old.guests)
            (came_to shift.new.tally shift.new.guests) shift.old.is_open shift.new.is_open }
    {
        if self.work.is_some() {
            return false;
        }
        let Ok(front) = self.host.front() else {
            return false;
        };
        if !kept_waiting(rt, listening, pass, &mut shift.guests, place, front) {
            return false;
        }
        shift.watch.leave(place);
        true
    }

    /// Closes the connection of a place, which was told late.
    fn let_go<J: Reception, L: Hall>(&self, shift: &mut Shift<L, G>, place: u32)
        requires under { IsUnder (conduct_by H.Host) (terms_by J.Reception) self.now }
        requires served { (before : ℕ) × HasServed L.In.TrySource L.Out.TrySink
            (conduct_by H.Host) (counting_of H.counted H.none H.plus) (terms_by J.Reception) J.opening.past
            (record (serving_of L.closed L.closed_count L.Watch.Watch.let_go
            shift.old.guests shift.old.closer shift.old.watch shift.old.tally shift.old.next) { let_go = before })
            self.now × (next_count before ≤ L.Watch.Watch.let_go shift.old.watch) }
        ensures served { HasServed L.In.TrySource L.Out.TrySink
            (conduct_by H.Host) (counting_of H.counted H.none H.plus) (terms_by J.Reception) J.opening.past
            (serving_of L.closed L.closed_count L.Watch.Watch.let_go
            shift.new.guests shift.new.closer shift.new.watch shift.new.tally shift.new.next)
            self.now }
        ensures came { came_to shift.new.tally shift.new.guests ≡ came_to shift.old.tally shift.old.guests }
        ensures door { shift.new.is_open ≡ shift.old.is_open }
    {
        if let Some(guest) = shift.guests.get(place as usize) {
            self.host.late(guest.peer());
        }
        shift.watch.leave(place);
        self.close::<J, L>(shift, place, true);
    }

    /// Has the guest at a key go on, where there is one. What takes long is done where that is said.
    fn advanced<L: Hall>(
        &mut self,
        guests: &mut Slab<Guest<L::In, L::Out, G>>,
        key: usize,
        carries: bool,
    ) -> Option<Went>
        requires due { IfSome (get guests.old key) (λ guest.
            IfSome guest.talk.waiting (IsDue (length (H.seen self.old.host).catalogue.maps))) }
        ensures none { IfNone result ((guests.new ≡ guests.old) × (self.new ≡ self.old)) }
        ensures went { IfSome result (λ went. ChangesAt key guests.old guests.new (λ was now.
            WorksOn (conduct_by H.Host) H.counted L.In.TrySource L.Out.TrySink
            (record { guest = was; host = self.old.host }) (record { guest = now; host = self.new.host })
            × IfSome now.talk.waiting (IsDue (length (H.seen self.new.host).catalogue.maps))
            × ComesTo now.origin.peer self.old.most went.advance
            (cut_of L.In.TrySource L.Out.TrySink now.talk))) }
        ensures same { self.new ≡ record self.old { host = self.new.host } }
    {
        let guest = guests.get_mut(key)?;
        let advance = guest.advance(
            &mut self.host,
            &mut self.buffers,
            self.most,
            carries,
            TURN_STEPS,
        );
        Some(Went {
            advance,
            awaited: guest.awaited(),
            has_moved: guest.take_moved(),
        })
    }

    /// Closes the connection of a place, where there is one, and counts it.
    fn close<J: Reception, L: Hall>(&self, shift: &mut Shift<L, G>, place: u32, is_let_go: bool)
        requires under { IsUnder (conduct_by H.Host) (terms_by J.Reception) self.now }
        requires over { is_let_go ≡ false → IfSome (get shift.old.guests place)
            (λ guest. IsOver self.now.most (cut_of L.In.TrySource L.Out.TrySink guest.talk)) }
        requires served { (before : ℕ) × HasServed L.In.TrySource L.Out.TrySink
            (conduct_by H.Host) (counting_of H.counted H.none H.plus) (terms_by J.Reception) J.opening.past
            (record (serving_of L.closed L.closed_count L.Watch.Watch.let_go
            shift.old.guests shift.old.closer shift.old.watch shift.old.tally shift.old.next) { let_go = before })
            self.now × (let_go_where is_let_go before ≤ L.Watch.Watch.let_go shift.old.watch) }
        ensures served { HasServed L.In.TrySource L.Out.TrySink
            (conduct_by H.Host) (counting_of H.counted H.none H.plus) (terms_by J.Reception) J.opening.past
            (serving_of L.closed L.closed_count L.Watch.Watch.let_go
            shift.new.guests shift.new.closer shift.new.watch shift.new.tally shift.new.next)
            self.now }
        ensures came { came_to shift.new.tally shift.new.guests ≡ came_to shift.old.tally shift.old.guests }
        ensures door { shift.new.is_open ≡ shift.old.is_open }
    {
        if let Some(guest) = shift.guests.try_remove(place as usize) {
            shift.tally.count(guest.calls());
            L::close(&mut shift.closer, guest.into_call());
        }
    }
}

/// The next connection of a listener, if one is there, or a guest that was left.
fn admitted<J: Reception, E: Ledger, H: HandsOver, L: Hall, G, R: Wait>(
    rt: &R,
    listening: &Mutex<Listening<J, E, H, L, G>>,
    pass: &mut Pass<J, E>,
    work: Option<LongWork>,
) -> Admission<L::In, L::Out, G, H::Front>
    ensures admits { Admits (IsExpectedCall (try_halves_of L.In.TrySource L.Out.TrySink) J.opening.past)
        (IsWaiting L.In.TrySource L.Out.TrySink (conduct_by H.Host) (counting_of H.counted H.none H.plus)
        (terms_by J.Reception) J.opening.past H.Front.known) result pass.old pass.new }
    ensures idle { is_some work ≡ false → IsNotLeft result }
{
    let mut kept = listening.lock(rt);
    kept.admit(pass, work)
}

/// Whether the guest of a place was kept for a worker that does what takes long.
fn kept_waiting<J: Reception, E: Ledger, H: HandsOver, L: Hall, G, R: Wait>(
    rt: &R,
    listening: &Mutex<Listening<J, E, H, L, G>>,
    pass: &mut Pass<J, E>,
    guests: &mut Slab<Guest<L::In, L::Out, G>>,
    place: u32,
    front: H::Front,
) -> bool
    requires out { IfSome (get guests.old place) (λ _. 0 < pass.old.out) }
    requires waits { IfSome (get guests.old place) (λ guest. IsWaiting L.In.TrySource L.Out.TrySink
        (conduct_by H.Host) (counting_of H.counted H.none H.plus) (terms_by J.Reception) J.opening.past H.Front.known
        (record { guest = guest; front = front })) }
    ensures kept { result ≡ true → IsKept place guests.old guests.new pass.old pass.new }
    ensures same { result ≡ false → (guests.new ≡ guests.old) × (pass.new ≡ pass.old) }
{
    let mut kept = listening.lock(rt);
    kept.keep(pass, guests, place as usize, front)
}
