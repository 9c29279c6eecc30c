//! The callers of an inbox by TCP.

ghost use Rattle.yp_io.specs.Inboxes.{MailIsWithin};

use crate::caller::Caller;
use crate::epoll::tell_turned;
use crate::hall::{SocketCall, accept_one, lacks_descriptors, listen_at};
use crate::places::{Limits, Places};
use crate::watch::register;
use mio::net::TcpListener;
use mio::{Interest, Poll, Token};
use std::alloc::Global;
use std::io;
use std::io::ErrorKind;
use std::net::Net;
use std::os::fd::AsRawFd;
use std::time::{Duration, Instant};
use yp_io::{Awaited, Called, Mail};

/// The most callers at once. Where one more comes, the one that was idle longest is let go.
pub const CALLERS_MAX: usize = 1_024;

/// The number by which the system tells that somebody comes.
pub(crate) const DOOR: Token = Token(usize::MAX);

// How many callers are let in at once.
const TRIES: u32 = 16;

// How long nobody is let in behind an accept that fails for a moment, in milliseconds.
const PAUSE_MILLIS: u64 = 10;

// Whether anybody waits to be let in.
#[derive(Clone, Copy, PartialEq, Eq)]
enum Door {
    // The system tells where somebody comes.
    Watched,
    // Somebody may wait.
    Open,
    // Somebody waits, but can't be let in for a moment.
    Pausing,
}

/// The callers at a port of TCP, each at its place.
#[derive(Drop)]
pub(crate) struct Calls {
    alloc: Global,
    listener: TcpListener,
    door: Door,
    callers: Vec<Option<Caller>>,
    places: Places,
    limits: Limits,
}

impl Calls {
    /// Opens a port, on every address of this machine.
    pub(crate) fn open<R: Net>(
        alloc: Global,
        net: &R,
        port: u16,
        limits: Limits,
        poll: &Poll,
    ) -> io::Result<Calls> {
        let listener = listen_at(net, port)?;
        register(poll, listener.as_raw_fd(), DOOR, Interest::READABLE)?;
        Ok(Calls {
            alloc,
            listener,
            door: Door::Open,
            callers: Vec::new(alloc),
            places: Places::new(alloc),
            limits,
        })
    }

    /// The system tells that somebody comes.
    pub(crate) fn knock(&mut self) {
        self.door = Door::Open;
    }

    /// The system tells of the caller with this number.
    pub(crate) fn mark_ready(&mut self, number: usize) {
        self.places.mark_ready(number);
    }

    /// Begins a turn of those that are ready, and lets those go that are over their time.
    pub(crate) fn begin_turn(&mut self, now: Instant) {
        if self.door == Door::Pausing {
            self.door = Door::Open;
        }
        self.places.begin_turn();
        for _ in 0..self.callers.len() {
            match self.places.late(now, &self.limits) {
                Some(place) => self.let_go(place),
                None => return,
            }
        }
    }

    /// How long the system may be waited for, up to this.
    pub(crate) fn patience(&mut self, now: Instant, most: Duration) -> Duration {
        if self.door == Door::Open || self.places.has_again() || self.places.has_lost() {
            return Duration::ZERO;
        }
        let most = match self.door {
            Door::Pausing => most.min(Duration::from_millis(PAUSE_MILLIS)),
            _ => most,
        };
        self.places.until_late(now, &self.limits, most)
    }

    /// Has the system tell of each for what is awaited of it. Of whom it can't tell is let go at the next turn.
    pub(crate) fn tell_turned(&mut self, poll: &Poll) {
        tell_turned(poll, &mut self.places);
    }

    /// Lets some of those in that wait.
    pub(crate) fn let_in(&mut self, now: Instant) {
        if self.door != Door::Open {
            return;
        }
        for _ in 0..TRIES {
            match accept_one(self.alloc, &self.listener) {
                Ok(call) => self.enter(call, now),
                Err(error) => match error.kind() {
                    ErrorKind::WouldBlock => {
                        self.door = Door::Watched;
                        return;
                    }
                    ErrorKind::Interrupted | ErrorKind::ConnectionAborted => {}
                    _ if lacks_descriptors(&error) && self.let_oldest_go(now) => {}
                    _ => {
                        self.door = Door::Pausing;
                        return;
                    }
                },
            }
        }
    }

    // Gives a caller a place. One for whom there is no memory is let go.
    fn enter(&mut self, call: SocketCall, now: Instant) {
        let Called { origin, wire } = call;
        let Some(place) = self.free_place(now) else {
            return;
        };
        if self
            .places
            .enter(place, wire.source.descriptor(), now)
            .is_err()
        {
            return;
        }
        if let Some(at) = self.callers.get_mut(place as usize) {
            *at = Some(Caller::new(self.alloc, origin.peer(), wire));
            self.places.go_again(place);
        }
    }

    // A place at which nobody is. Where there is no more, the caller that was idle longest goes.
    fn free_place(&mut self, now: Instant) -> Option<u32> {
        for i in 0..self.callers.len() {
            if self.callers[i].is_none() {
                return u32::try_from(i).ok();
            }
        }
        if self.callers.len() < CALLERS_MAX {
            self.callers.push(None).ok()?;
            return u32::try_from(self.callers.len() - 1).ok();
        }
        let place = self.places.oldest(now, Duration::ZERO)?;
        self.let_go(place);
        Some(place)
    }

    // Lets the caller go that was idle longest, if there is one.
    fn let_oldest_go(&mut self, now: Instant) -> bool {
        match self.places.oldest(now, Duration::ZERO) {
            Some(place) => {
                self.let_go(place);
                true
            }
            None => false,
        }
    }

    // Closes the connection of who is at a place.
    fn let_go(&mut self, place: u32) {
        self.places.leave(place);
        if let Some(caller) = self.callers.get_mut(place as usize) {
            *caller = None;
        }
    }

    /// Who is ready, the first first.
    pub(crate) fn take_ready(&mut self) -> Option<u32> {
        self.places.take_ready()
    }

    /// Has who is at a place go on by one step, and answers the record that this brought, if any.
    pub(crate) fn go_on(&mut self, place: u32, now: Instant, buf: &mut [u8]) -> Mail
        ensures { MailIsWithin result buf.new }
    {
        let Some(Some(caller)) = self.callers.get_mut(place as usize) else {
            return Mail::Quiet;
        };
        match caller.go_on(buf) {
            Ok((mail, has_moved)) => {
                let what = caller.awaited();
                let is_anew = mail != Mail::Quiet || (has_moved && what == Awaited::Payment);
                self.await_of(place, what, is_anew, now);
                if has_moved {
                    self.places.go_again(place);
                }
                mail
            }
            Err(_) => {
                self.let_go(place);
                Mail::Quiet
            }
        }
    }

    // This is awaited of who is at a place. Its time goes on where that is what was awaited, unless it begins anew.
    fn await_of(&mut self, place: u32, what: Awaited, is_anew: bool, now: Instant) {
        self.places.turn(place, what);
        if is_anew || !self.places.goes_on(place, what) {
            self.places.await_from(place, what, now);
        }
    }

    /// Owes who is at a place a reply. One who doesn't take it is never waited for.
    pub(crate) fn reply(&mut self, place: u32, piece: &[u8], now: Instant) {
        let Some(Some(caller)) = self.callers.get_mut(place as usize) else {
            return;
        };
        match caller.reply(piece) {
            Ok(()) => {
                let what = caller.awaited();
                self.await_of(place, what, true, now);
                self.places.go_again(place);
            }
            Err(_) => self.let_go(place),
        }
    }
}
