//! What accepts connections without waiting, and what tells which of them can go on.

ghost use Rattle.std.specs.Prelude.{◌≡◌, ℕ, ◌<◌, ◌^◌, List, [], ◌∷◌, Option, IfOk, OnErr};
ghost use Rattle.yp_io.specs.Counts.{CountsFaults, capped, next_count, faults_after};
ghost use Rattle.yp_io.specs.Calls.{ListenerHistory, ClosedConnection, ConnectionComes, IsClosed, ended_by};
ghost use Rattle.yp_io.specs.Calls.{came_by};
ghost use Rattle.yp_io.specs.Calls.{none_closed, closed_then, taken_in};
ghost use Rattle.yp_io.specs.Calls.{accepting_of, IsFreshCall};
ghost use Rattle.yp_io.specs.Hall.{try_halves_of, IfComes, OnNotNow, OnNoMore, NoneComes, let_go_behind};

use crate::Failed;
use crate::called::Called;
use crate::ready::{TrySink, TrySource};

/// What came of trying to accept.
#[derive(Drop)]
pub enum Coming<S, K> {
    /// A connection.
    Came(Called<S, K>),
    /// None now.
    NotNow,
    /// None any more, since as many were accepted as were to be.
    Closed,
}

/// What a worker is told by its watch. It is a hint: no promise rests on it, and a wrong one does no harm.
#[derive(Clone, Copy, Debug, PartialEq, Eq)]
pub enum Notice {
    /// Somebody may have come, or the watch was woken.
    Door,
    /// The connection of this place may go on.
    Ready { place: u32 },
    /// The connection of this place has kept its worker waiting for too long, or its descriptor is needed for another.
    Late { place: u32 },
    /// Nothing happened for a while.
    Quiet,
}

/// What of a connection is awaited, by which its time is limited.
#[derive(Clone, Copy, Debug, PartialEq, Eq)]
pub enum Awaited {
    /// The first byte of a record: five minutes.
    Record,
    /// The rest of a record: ten seconds from its first byte.
    Rest,
    /// That the caller takes a byte of what is owed: ten seconds.
    Payment,
}

/// What wakes a watch.
pub trait Wake {
    /// Has the watch answer `Door`: a wait that is under way, or the next one, ends.
    fn wake(&self);
}

/// What watches the connections of one worker, each under a number of its own, and the door by which they come. Memory
/// goes with the greatest of these numbers, so they are small.
///
/// What its worker does, so that nobody is forgotten:
///
/// - At `Ready` it goes on with the connection until a half of its wire that is needed says "not now", or says `again`
///   where it stops before that: a change is told once. `Ready` is told once of a connection that was entered, too.
/// - Behind that it says what is awaited now.
/// - At `Door` it tries to accept. It is told again while somebody waits there.
/// - Before it closes a connection, or hands it on, it lets it leave.
pub trait Watch {
    type In;

    /// What wakes it from another thread.
    type Waker: Wake + Drop;

    /// How many connections it has let go, up to 2^64 - 1: those that it couldn't watch, and those that it told late.
    ghost let_go: { Self → ℕ };

    /// What wakes it, where that can be had.
    fn waker(&self) -> Option<Self::Waker>;

    /// Watches a connection with this source under this place from now on, of which a record is awaited. A place that
    /// is taken is taken over. After `Failed` the connection isn't watched.
    fn enter(&mut self, place: u32, source: &Self::In) -> Result<(), Failed>
        ensures let_go { let_go self.new ≡ faults_after (let_go self.old) result };

    /// What of it is awaited from now on. `moved` says whether a record was read whole since this was told last, or a
    /// byte of what is owed was taken: where not, and the same is awaited as before, its time goes on; else it begins
    /// anew.
    fn awaits(&mut self, place: u32, what: Awaited, moved: bool)
        ensures let_go { let_go self.new ≡ let_go self.old };

    /// It may go on at once, though nothing changes: it is told ready again, behind those that are ready before that.
    fn again(&mut self, place: u32)
        ensures let_go { let_go self.new ≡ let_go self.old };

    /// It is watched no more.
    fn leave(&mut self, place: u32)
        ensures let_go { let_go self.new ≡ let_go self.old };

    /// The next notice, at once where one is there; else it waits at most a second, and answers `Quiet`.
    fn next(&mut self) -> Notice
        ensures let_go { let_go self.new ≡ let_go_behind (let_go self.old) result };
}

/// What accepts connections without waiting, up to a number that is stated. They are closed by closers, of which each
/// worker has one of its own, and watched by watches, of which each has one, too.
pub trait Hall {
    type In: TrySource + Drop;

    type Out: TrySink + Drop;

    /// What closes connections, one after another.
    type Closer: Drop;

    /// What wakes a watch.
    type Waker: Wake + Drop;

    /// What watches the connections of one worker, and the door.
    type Watch: Watch<In = Self::In, Waker = Self::Waker> + Drop;

    /// Its connections, where they are told.
    ghost past: { Self → Option ListenerHistory };

    /// How many connections it is to accept.
    ghost most: { Self → ℕ };

    /// How many it has accepted.
    ghost accepted: { Self → ℕ };

    /// How many were closed by closers that it took in, up to 2^64 - 1.
    ghost returned: { Self → ℕ };

    /// How often it has failed, up to 2^64 - 1.
    ghost faults: { Self → ℕ };

    /// How many connections were let go by watches that have ended, up to 2^64 - 1.
    ghost let_go: { Self → ℕ };

    /// The connections that a closer has closed, in their order, where they are told.
    ghost closed: { Self.Closer → Option (List ClosedConnection) };

    /// How many a closer has closed, up to 2^64 - 1.
    ghost closed_count: { Self.Closer → ℕ };

    /// Accepts the next connection, if one is there. It answers `Closed` exactly where as many were accepted as are to
    /// be. After `NotNow` and `Failed` none was accepted.
    fn try_accept(&mut self) -> Result<Coming<Self::In, Self::Out>, Failed>
        ensures came { IfOk result (IfComes (λ call. ConnectionComes
            (came_by (try_halves_of Self.In.TrySource Self.Out.TrySink) call)
            (accepting_of past most accepted self.old) (accepting_of past most accepted self.new))) }
        ensures fresh { IfOk result (IfComes (IsFreshCall (try_halves_of Self.In.TrySource Self.Out.TrySink))) }
        ensures not_now { IfOk result (OnNotNow (NoneComes
            (accepting_of past most accepted self.old) (accepting_of past most accepted self.new))) }
        ensures closed { IfOk result (OnNoMore (IsClosed
            (accepting_of past most accepted self.old) (accepting_of past most accepted self.new))) }
        ensures none { OnErr result (accepting_of past most accepted self.new
            ≡ accepting_of past most accepted self.old) }
        ensures returned { returned self.new ≡ returned self.old }
        ensures let_go { let_go self.new ≡ let_go self.old }
        ensures number { accepted self.new < 2 ^ 64 }
        ensures cause { CountsFaults (faults self.old) (faults self.new) result };

    /// A watch that has let nobody go and watches the door alone, or nothing yet where it isn't to stand at the door.
    fn watch(&mut self, is_at_door: bool) -> Result<Self::Watch, Failed>
        ensures fresh { IfOk result (λ watch. Self.Watch.Watch.let_go watch ≡ 0) }
        ensures same { accepting_of past most accepted self.new ≡ accepting_of past most accepted self.old }
        ensures returned { returned self.new ≡ returned self.old }
        ensures let_go { let_go self.new ≡ let_go self.old }
        ensures cause { CountsFaults (faults self.old) (faults self.new) result };

    /// A closer that has closed no connection yet. It tells its connections where this hall does.
    fn closer(&self) -> Self::Closer
        ensures closed { closed result ≡ none_closed (past self.now) }
        ensures count { closed_count result ≡ 0 };

    /// Closes a connection.
    fn close(closer: &mut Self::Closer, call: Called<Self::In, Self::Out>)
        ensures closed { closed closer.new ≡ closed_then (closed closer.old)
            (ended_by (try_halves_of Self.In.TrySource Self.Out.TrySink) call ∷ []) }
        ensures count { closed_count closer.new ≡ next_count (closed_count closer.old) };

    /// Takes in what a closer tells.
    fn take_in(&mut self, closer: Self::Closer)
        ensures past { past self.new ≡ taken_in (past self.old) (closed closer) }
        ensures most { most self.new ≡ most self.old }
        ensures accepted { accepted self.new ≡ accepted self.old }
        ensures returned { returned self.new ≡ capped (returned self.old) (closed_count closer) }
        ensures faults { faults self.new ≡ faults self.old }
        ensures let_go { let_go self.new ≡ let_go self.old };

    /// Ends a watch, and counts whom that let go.
    fn end(&mut self, watch: Self::Watch)
        ensures past { past self.new ≡ past self.old }
        ensures most { most self.new ≡ most self.old }
        ensures accepted { accepted self.new ≡ accepted self.old }
        ensures returned { returned self.new ≡ returned self.old }
        ensures faults { faults self.new ≡ faults self.old }
        ensures let_go { let_go self.new ≡ capped (let_go self.old) (Self.Watch.Watch.let_go watch) };
}
