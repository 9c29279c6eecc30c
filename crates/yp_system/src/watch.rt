//! What tells a worker which of its connections of the system can go on.

ghost use Rattle.std.specs.Prelude.{◌≡◌, IfOk};

use crate::epoll::{tell_no_more, tell_of_callers, tell_turned};
use crate::places::{Limits, Places};
use crate::socket::SocketSource;
use mio::net::TcpListener;
use mio::unix::SourceFd;
use mio::{Events, Interest, Poll, Token, Waker};
use std::alloc::Global;
use std::io;
use std::io::ErrorKind;
use std::net::Net;
use std::os::fd::{AsRawFd, RawFd};
use std::sync::Arc;
use std::sync::atomic::{AtomicBool, AtomicU64, Ordering};
use std::thread::sleep;
use std::time::{Clock, Duration, Instant};
use yp_io::{Awaited, Failed, Notice, Wake, Watch, count_fault};

/// A listening socket that the watches of all workers have in common.
#[derive(Drop)]
pub(crate) struct Door {
    pub listener: TcpListener,
    /// Whether an accept found no descriptor left.
    pub is_short: AtomicBool,
    /// How many of the watches that are told of the door have no connection.
    pub free: AtomicU64,
    /// How many of those that aren't told of it have some.
    pub held: AtomicU64,
    /// Whether nobody is let in any more.
    pub is_closed: AtomicBool,
}

// The number by which the system tells of the door.
const DOOR: Token = Token(usize::MAX);

// The number by which it tells that the watch was woken.
const WOKEN: Token = Token(usize::MAX - 1);

// How much the system tells at once.
const EVENTS: usize = 256;

// How long a watch waits for a notice, in milliseconds.
const WAIT_MILLIS: u64 = 1000;

// How long a worker isn't told of the door where no descriptor is left and it has nobody to let go, in milliseconds. It
// is also the pause behind a wait that fails.
const PAUSE_MILLIS: u64 = 10;

// How long a worker that has connections leaves who has come to one that has none, in milliseconds.
const YIELD_MILLIS: u64 = 20;

// What the door has come to.
#[derive(Clone, Copy, PartialEq, Eq)]
enum DoorState {
    // The system tells where somebody comes.
    Watched,
    // The worker is to be told: first, where the system has told, and behind a quiet wait, so that each worker hears in
    // the end that nobody comes any more, and nothing that the system has told is lost for long.
    Pending,
    // The worker was told. The system is to tell again, also of who has come before.
    Told,
    // As `Told`, but behind a pause.
    Pausing,
    // As `Told`, but a moment after this one: who has nobody may let in who has come meanwhile.
    Yielding { since: Instant },
}

/// What tells a worker which of its connections can go on, by epoll, and which are over their time. Connections are
/// told ready in the order in which the system tells of them, each once in a turn, and one that enters is told at once.
/// Then comes the door, so a busy worker is told of it less often. It is told first, behind each quiet wait, and again
/// and again while somebody waits there. Of several watches that wait, the one is told of the door that has waited
/// longest since somebody entered. One that has connections leaves who comes to one that has none, for a moment.
#[derive(Drop)]
pub struct TcpWatch<R> {
    system: R,
    door: Option<Arc<Door>>,
    // Whether the system is to tell of the door. Else the door only says whether descriptors are short.
    is_at_door: bool,
    door_state: DoorState,
    // Whether it does, and whether anybody has entered since it was asked for that.
    is_told: bool,
    has_let_in: bool,
    // Whether the door counts it, and whether it has left who comes to one that has nobody.
    is_counted: bool,
    has_yielded: bool,
    poll: Poll,
    events: Events,
    places: Places,
    limits: Limits,
    now: Instant,
    let_go: u64,
}

/// What wakes such a watch.
#[derive(Drop)]
pub struct TcpWaker {
    waker: Waker,
}

impl Wake for TcpWaker {
    fn wake(&self) {
        // Where it fails, the worker looks within a second.
        let _ = self.waker.wake();
    }
}

// Has the system tell of a socket by this number, also of what it has come to before.
pub(crate) fn register(
    poll: &Poll,
    socket: RawFd,
    token: Token,
    interests: Interest,
) -> io::Result<()> {
    match poll
        .registry()
        .register(&mut SourceFd(&socket), token, interests)
    {
        Err(error) if error.kind() == ErrorKind::AlreadyExists => poll
            .registry()
            .reregister(&mut SourceFd(&socket), token, interests),
        answer => answer,
    }
}

impl<R: Net + Clock + Drop> TcpWatch<R> {
    /// A watch of the door alone, where there is one and it is to be told of that.
    pub(crate) fn new(
        alloc: Global,
        system: R,
        door: Option<Arc<Door>>,
        is_at_door: bool,
        limits: Limits,
    ) -> io::Result<TcpWatch<R>>
        ensures { IfOk result (λ watch. ⟦<TcpWatch<R> as Watch>⟧.let_go watch ≡ 0) }
    {
        let poll = Poll::new(&system)?;
        if is_at_door && let Some(door) = &door {
            tell_of_callers(&poll, door.listener.as_raw_fd(), DOOR)?;
        }
        let Ok(events) = Events::with_capacity(alloc, EVENTS) else {
            return Err(ErrorKind::OutOfMemory.into());
        };
        let now = Instant::now(&system)?;
        let mut watch = TcpWatch {
            system,
            is_told: is_at_door && door.is_some(),
            has_let_in: false,
            is_counted: false,
            has_yielded: false,
            door,
            is_at_door,
            door_state: DoorState::Pending,
            poll,
            events,
            places: Places::new(alloc),
            limits,
            now,
            let_go: 0,
        };
        watch.count();
        Ok(watch)
    }

    // Has the door count it: where it has nobody, if it is told of the door, and else where it has somebody.
    fn count(&mut self)
        ensures let_go { self.new.let_go ≡ self.old.let_go }
    {
        let is_counted = self.is_at_door == self.places.is_empty();
        if let Some(door) = &self.door
            && is_counted != self.is_counted
        {
            let count = if self.is_at_door {
                &door.free
            } else {
                &door.held
            };
            if is_counted {
                count.fetch_add(1, Ordering::SeqCst);
            } else {
                count.fetch_sub(1, Ordering::SeqCst);
            }
            self.is_counted = is_counted;
        }
    }

    // Whether it leaves who has come to one who has nobody: once, while it has connections itself.
    fn yields(&self) -> bool {
        !self.places.is_empty() && !self.has_yielded && self.is_any_free()
    }

    // Whether a watch at the door has nobody.
    fn is_any_free(&self) -> bool {
        match &self.door {
            Some(door) => door.free.load(Ordering::SeqCst) > 0,
            None => false,
        }
    }

    // The time by the clock, or by its last reading.
    fn time(&mut self) -> Instant
        ensures let_go { self.new.let_go ≡ self.old.let_go }
    {
        if let Ok(now) = Instant::now(&self.system) {
            self.now = now;
        }
        self.now
    }

    // One that is to be let go, where descriptors are short. Where it has none, another watch may have one.
    fn relief(&mut self) -> Option<u32>
        ensures let_go { self.new.let_go ≡ self.old.let_go }
    {
        if !self.is_short() {
            return None;
        }
        let now = self.time();
        let least = self.least_idle();
        let oldest = self.places.oldest(now, least);
        if oldest.is_none() {
            self.pause();
            return None;
        }
        if self.ends_shortage() { oldest } else { None }
    }

    // Whether an accept found no descriptor left, for which nobody was let go yet.
    fn is_short(&self) -> bool {
        match &self.door {
            Some(door) => door.is_short.load(Ordering::SeqCst),
            None => false,
        }
    }

    // Whether it is the one that lets somebody go.
    fn ends_shortage(&self) -> bool {
        match &self.door {
            Some(door) => door.is_short.swap(false, Ordering::SeqCst),
            None => false,
        }
    }

    // How long whom it lets go has to have been idle: a second where there may be one elsewhere who was for longer.
    fn least_idle(&self) -> Duration {
        match &self.door {
            Some(door) if self.is_at_door && door.held.load(Ordering::SeqCst) > 0 => {
                Duration::from_millis(WAIT_MILLIS)
            }
            _ => Duration::ZERO,
        }
    }

    // Has the door told again behind a pause, where it was told.
    fn pause(&mut self)
        ensures let_go { self.new.let_go ≡ self.old.let_go }
    {
        if self.is_at_door && self.door_state == DoorState::Told {
            self.door_state = DoorState::Pausing;
        }
    }

    // What is known without a wait.
    fn known(&mut self) -> Option<Notice>
        ensures let_go { self.new.let_go ≡ self.old.let_go }
    {
        if let Some(place) = self.places.take_ready() {
            return Some(Notice::Ready { place });
        }
        if let Some(place) = self.relief() {
            return Some(Notice::Late { place });
        }
        if self.door_state == DoorState::Pending {
            self.door_state = DoorState::Told;
            return Some(Notice::Door);
        }
        None
    }

    // One that is over its time, and of whom the system has told nothing.
    fn late(&mut self) -> Option<u32>
        ensures let_go { self.new.let_go ≡ self.old.let_go }
    {
        let now = self.time();
        self.places.late(now, &self.limits)
    }

    // How long the next wait may be.
    fn patience(&mut self) -> Duration
        ensures let_go { self.new.let_go ≡ self.old.let_go }
    {
        if self.places.has_again() || self.places.has_lost() {
            return Duration::ZERO;
        }
        let most = match self.door_state {
            DoorState::Pausing => Duration::from_millis(PAUSE_MILLIS),
            DoorState::Yielding { .. } => Duration::from_millis(1),
            _ => Duration::from_millis(WAIT_MILLIS),
        };
        self.places.until_late(self.now, &self.limits, most)
    }

    // Has the system tell of the door, unless nobody comes any more: behind the other watches, where somebody has
    // entered here since.
    fn stand_at_door(&mut self)
        ensures let_go { self.new.let_go ≡ self.old.let_go }
    {
        let Some(door) = &self.door else {
            return;
        };
        let socket = door.listener.as_raw_fd();
        if !self.is_at_door {
            return;
        }
        if door.is_closed.load(Ordering::SeqCst) {
            self.leave_door();
            return;
        }
        if self.has_let_in {
            self.leave_door();
        }
        if !self.is_told {
            self.is_told = tell_of_callers(&self.poll, socket, DOOR).is_ok();
        }
        if self.is_told {
            self.has_let_in = false;
            self.door_state = DoorState::Watched;
        }
    }

    // Has the system tell nothing of the door for now.
    fn leave_door(&mut self)
        ensures let_go { self.new.let_go ≡ self.old.let_go }
    {
        if let Some(door) = &self.door
            && self.is_told
        {
            let _ = tell_no_more(&self.poll, door.listener.as_raw_fd());
            self.is_told = false;
        }
    }

    // Takes in what the system tells.
    fn take_events(&mut self)
        ensures let_go { self.new.let_go ≡ self.old.let_go }
    {
        let mut has_come = false;
        for event in &self.events {
            match event.token() {
                DOOR => has_come = true,
                WOKEN => self.door_state = DoorState::Pending,
                Token(number) => self.places.mark_ready(number),
            }
        }
        self.places.begin_turn();
        if has_come {
            self.hear_of_door();
        } else if self.door_state == DoorState::Watched {
            self.has_yielded = false;
        }
    }

    // Whether the moment is over for which it leaves who comes to others, since this one.
    fn has_yielded_since(&self, since: Instant) -> bool {
        !self.is_any_free()
            || self.now.saturating_duration_since(since) >= Duration::from_millis(YIELD_MILLIS)
    }

    // Somebody has come to the door: its worker is to be told, unless it leaves that to one who has nobody.
    fn hear_of_door(&mut self)
        ensures let_go { self.new.let_go ≡ self.old.let_go }
    {
        if self.yields() {
            let since = self.time();
            self.door_state = DoorState::Yielding { since };
            self.has_yielded = true;
        } else {
            self.door_state = DoorState::Pending;
            self.has_yielded = false;
        }
    }

    // Waits until the system tells anything, or time is up.
    fn wait(&mut self)
        ensures let_go { self.new.let_go ≡ self.old.let_go }
    {
        tell_turned(&self.poll, &mut self.places);
        let patience = self.patience();
        match self.door_state {
            DoorState::Told => self.stand_at_door(),
            DoorState::Pausing => self.leave_door(),
            DoorState::Yielding { since } if self.has_yielded_since(since) => self.stand_at_door(),
            DoorState::Yielding { .. } => self.leave_door(),
            _ => {}
        }
        if self.poll.poll(&mut self.events, Some(patience)).is_err() {
            sleep(&self.system, Duration::from_millis(PAUSE_MILLIS));
        }
        self.take_events();
    }

    // The next notice.
    fn notice(&mut self) -> Notice
        ensures let_go { self.new.let_go ≡ self.old.let_go }
    {
        if let Some(notice) = self.known() {
            return notice;
        }
        self.wait();
        if let Some(place) = self.late() {
            return Notice::Late { place };
        }
        if let Some(notice) = self.known() {
            return notice;
        }
        self.door_state = DoorState::Pending;
        Notice::Quiet
    }

    // How many connections it has let go.
    pub(crate) fn let_go(&self) -> u64
        ensures { result ≡ self.entry.now.let_go }
    {
        self.let_go
    }
}

impl<R: Net + Clock + Drop> Watch for TcpWatch<R> {
    type In = SocketSource;

    type Waker = TcpWaker;

    ghost let_go = { λ w. w.let_go };

    /// There is none where the system gives no descriptor for it.
    fn waker(&self) -> Option<TcpWaker> {
        match Waker::new(self.poll.registry(), WOKEN) {
            Ok(waker) => Some(TcpWaker { waker }),
            Err(_) => None,
        }
    }

    /// It fails where memory has run out. The system is told of it once the worker waits: one of whom it can't tell is
    /// late then.
    fn enter(&mut self, place: u32, source: &SocketSource) -> Result<(), Failed> {
        let now = self.time();
        match self.places.enter(place, source.descriptor(), now) {
            Ok(()) => {
                self.has_let_in = true;
                self.places.go_at_once(place);
                self.count();
                Ok(())
            }
            Err(_) => Err(count_fault(&mut self.let_go)),
        }
    }

    fn awaits(&mut self, place: u32, what: Awaited, moved: bool) {
        self.places.turn(place, what);
        if moved || !self.places.goes_on(place, what) {
            let now = self.time();
            self.places.await_from(place, what, now);
        }
    }

    fn again(&mut self, place: u32) {
        self.places.go_again(place);
    }

    /// The system tells nothing more of it here, so it can be watched elsewhere.
    fn leave(&mut self, place: u32) {
        if let Some(socket) = self.places.told_socket(place) {
            // One that was closed meanwhile isn't watched any more.
            let _ = tell_no_more(&self.poll, socket);
        }
        self.places.leave(place);
        self.count();
    }

    fn next(&mut self) -> Notice {
        let notice = self.notice();
        if let Notice::Late { .. } = notice {
            self.let_go = self.let_go.saturating_add(1);
        }
        notice
    }
}
