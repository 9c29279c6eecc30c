//! What comes to a port: datagrams, and records of callers by TCP where they are taken in.

ghost use Rattle.std.specs.Prelude.{IfOk};
ghost use Rattle.yp_io.specs.Inboxes.{MailIsWithin};

use crate::addresses::{ADDRESSES_MAX, own_addresses};
use crate::calls::{Calls, DOOR};
use crate::chain::Chain;
use crate::datagrams::{Datagrams, FOR_ALL, receive};
use crate::epoll::tell_of;
use crate::places::Limits;
use mio::{Events, Poll, Token};
use std::alloc::Global;
use std::io;
use std::io::ErrorKind;
use std::net::Net;
use std::os::fd::AsRawFd;
use std::rt::Files;
use std::thread::sleep;
use std::time::{Clock, Duration, Instant};
use yp_io::{Awaited, Mail, Peer};

/// How long a turn waits for a letter, in seconds: a turn without one is quiet.
pub const TURN_SECONDS: u64 = 1;

// How often it is seen which addresses this machine has, in seconds.
const ADDRESSES_SECONDS: u64 = 30;

// How much the system tells at once.
const EVENTS: usize = 256;

// The pause behind a wait that fails, in milliseconds.
const PAUSE_MILLIS: u64 = 10;

// How many turns of those that are ready again are begun without asking the system who else is.
const UNASKED_MAX: u32 = 4;

// How many datagrams come by one socket in a row before it alone is waited for.
const STREAK_MIN: u32 = 16;

// How many of its datagrams are then taken before the system is asked who else is ready.
const UNTOLD_MAX: u32 = 8;

// The numbers by which the system tells of sockets: this one for the first, and lower ones for the next.
const SOCKETS: usize = usize::MAX - 1;

// How a letter came: by the socket at a place, or from the caller at a place.
#[derive(Clone, Copy)]
enum Way {
    Socket(u32),
    Caller(u32),
}

// The last letter, while no reply to it was sent by TCP.
#[derive(Clone, Copy)]
struct Letter {
    from: Peer,
    way: Way,
}

/// An open port, with all that comes to it. Each socket and each caller that is ready has one step, datagrams and
/// records in turn, before any has the next.
#[derive(Drop)]
pub(crate) struct Post {
    alloc: Global,
    poll: Poll,
    events: Events,
    datagrams: Datagrams,
    ready: Chain,
    again: Chain,
    calls: Option<Calls>,
    is_callers_turn: bool,
    unasked: u32,
    // the socket that the last datagrams came by, how many that were, and how many since the system was asked
    busy: u32,
    streak: u32,
    untold: u32,
    last: Option<Letter>,
    now: Instant,
    looked: Instant,
}

impl Post {
    /// Opens a port of UDP, and where there are limits for callers the same port of TCP.
    pub(crate) fn open<R: Net + Clock + Files>(
        alloc: Global,
        system: &R,
        port: u16,
        limits: Option<Limits>,
    ) -> io::Result<Post> {
        let datagrams = Datagrams::open(alloc, system, port)?;
        let port = datagrams.port();
        let mut post = Post::of(alloc, system, datagrams)?;
        if let Some(limits) = limits {
            post.calls = Some(Calls::open(alloc, system, port, limits, &post.poll)?);
        }
        post.watch_socket(FOR_ALL)?;
        post.look(system);
        Ok(post)
    }

    /// Opens a further end of the port, for datagrams alone.
    pub(crate) fn further<R: Net + Clock + Files>(
        &mut self,
        alloc: Global,
        system: &R,
    ) -> io::Result<Post> {
        self.datagrams.share()?;
        let mut post = Post::of(alloc, system, self.datagrams.further(alloc)?)?;
        post.look(system);
        Ok(post)
    }

    /// Opens an end of the port that is only sent from, by the socket for all, of which the system tells it nothing.
    pub(crate) fn sending<R: Net + Clock>(&self, alloc: Global, system: &R) -> io::Result<Post> {
        Post::of(alloc, system, self.datagrams.further(alloc)?)
    }

    // What comes to these sockets, of which the system tells nothing yet.
    fn of<R: Net + Clock>(alloc: Global, system: &R, datagrams: Datagrams) -> io::Result<Post> {
        let poll = Poll::new(system)?;
        let Ok(events) = Events::with_capacity(alloc, EVENTS) else {
            return Err(ErrorKind::OutOfMemory.into());
        };
        let now = Instant::now(system)?;
        Ok(Post {
            alloc,
            poll,
            events,
            datagrams,
            ready: Chain::new(alloc),
            again: Chain::new(alloc),
            calls: None,
            is_callers_turn: false,
            unasked: 0,
            busy: FOR_ALL,
            streak: 0,
            untold: 0,
            last: None,
            now,
            looked: now,
        })
    }

    // Has the system tell of the socket at a place.
    fn watch_socket(&mut self, place: u32) -> io::Result<()> {
        self.ready.make_room(place)?;
        self.again.make_room(place)?;
        match self.datagrams.at(place) {
            Some(socket) => tell_of(
                &self.poll,
                socket.as_raw_fd(),
                socket_token(place),
                Awaited::Record,
            ),
            None => Ok(()),
        }
    }

    // Has a socket for each address that this machine has now, as far as that is told and can be had.
    fn look<R: Files>(&mut self, files: &R) {
        self.looked = self.now;
        let Ok(addresses) = own_addresses(self.alloc, files) else {
            return;
        };
        self.datagrams.keep(&addresses);
        for address in addresses.iter() {
            if let Some(place) = self.datagrams.add(*address) {
                let _ = self.watch_socket(place);
            }
        }
    }

    // Reads the clock. One that can't be read stands still.
    fn tell_time<R: Clock>(&mut self, system: &R) {
        if let Ok(now) = Instant::now(system) {
            self.now = now;
        }
    }

    /// Takes one turn. Who gave the last letter by TCP and has no reply gets none any more.
    pub(crate) fn next<R: Clock + Files>(&mut self, system: &R, buf: &mut [u8]) -> io::Result<Mail>
        ensures { IfOk result (λ mail. MailIsWithin mail buf.new) }
    {
        self.last = None;
        self.tell_time(system);
        let begun = self.now;
        let turn = Duration::from_secs(TURN_SECONDS);
        for _ in 0..u64::MAX {
            let mail = self.take_letter(buf)?;
            if mail != Mail::Quiet {
                return Ok(mail);
            }
            let mail = self.linger(buf)?;
            if mail != Mail::Quiet {
                return Ok(mail);
            }
            let left = turn.saturating_sub(self.now.saturating_duration_since(begun));
            if left.is_zero() {
                break;
            }
            self.wait(system, left);
        }
        Ok(Mail::Quiet)
    }

    // Takes a letter of what is ready, without a wait.
    fn take_letter(&mut self, buf: &mut [u8]) -> io::Result<Mail>
        ensures { IfOk result (λ mail. MailIsWithin mail buf.new) }
    {
        for _ in 0..u64::MAX {
            match self.take_ready() {
                Some(way) => {
                    let mail = self.go_on(way, buf)?;
                    if let Mail::Came { from, .. } = mail {
                        self.last = Some(Letter { from, way });
                        return Ok(mail);
                    }
                }
                None => break,
            }
        }
        Ok(Mail::Quiet)
    }

    // Who is ready: a socket and a caller by turns, where there are both.
    fn take_ready(&mut self) -> Option<Way> {
        self.is_callers_turn = !self.is_callers_turn;
        if self.is_callers_turn {
            self.take_caller().or_else(|| self.take_socket())
        } else {
            self.take_socket().or_else(|| self.take_caller())
        }
    }

    fn take_caller(&mut self) -> Option<Way> {
        let place = self.calls.as_mut()?.take_ready()?;
        Some(Way::Caller(place))
    }

    fn take_socket(&mut self) -> Option<Way> {
        let place = self.ready.take_first()?;
        Some(Way::Socket(place))
    }

    // Has a socket or a caller go on by one step, and answers the letter that this brought, if any.
    fn go_on(&mut self, way: Way, buf: &mut [u8]) -> io::Result<Mail>
        ensures { IfOk result (λ mail. MailIsWithin mail buf.new) }
    {
        match way {
            Way::Socket(place) => self.receive(place, buf),
            Way::Caller(place) => match &mut self.calls {
                Some(calls) => Ok(calls.go_on(place, self.now, buf)),
                None => Ok(Mail::Quiet),
            },
        }
    }

    // Takes a datagram of the socket at a place, which is ready again until there is none, or it alone is waited for.
    fn receive(&mut self, place: u32, buf: &mut [u8]) -> io::Result<Mail>
        ensures { IfOk result (λ mail. MailIsWithin mail buf.new) }
    {
        let Some(socket) = self.datagrams.at(place) else {
            return Ok(Mail::Quiet);
        };
        let mail = receive(socket, false, buf)?;
        if mail != Mail::Quiet {
            self.count(place);
            if !self.is_streak() {
                self.again.append(place);
            }
        }
        Ok(mail)
    }

    // Counts a datagram that came by the socket at a place.
    fn count(&mut self, place: u32) {
        self.streak = if place == self.busy {
            self.streak.saturating_add(1)
        } else {
            1
        };
        self.busy = place;
    }

    // Whether so many datagrams came by one socket that it alone is waited for, where there is nobody else to serve.
    fn is_streak(&self) -> bool {
        self.streak >= STREAK_MIN && self.calls.is_none()
    }

    // Waits for a moment for a datagram by the socket alone that the last ones came by, which takes one call of the
    // system in place of two. Where none comes, all are waited for.
    fn linger(&mut self, buf: &mut [u8]) -> io::Result<Mail>
        ensures { IfOk result (λ mail. MailIsWithin mail buf.new) }
    {
        if !self.is_streak() || self.untold >= UNTOLD_MAX {
            return Ok(Mail::Quiet);
        }
        let place = self.busy;
        let Some(socket) = self.datagrams.at(place) else {
            return Ok(Mail::Quiet);
        };
        let mail = receive(socket, true, buf)?;
        match mail {
            Mail::Came { from, .. } => {
                self.untold = self.untold.saturating_add(1);
                self.last = Some(Letter {
                    from,
                    way: Way::Socket(place),
                });
            }
            Mail::Quiet => self.streak = 0,
        }
        Ok(mail)
    }

    // Waits until the system tells anything, so long at most, and not at all where anybody is ready again.
    fn wait<R: Clock + Files>(&mut self, system: &R, most: Duration) {
        let since = self.now.saturating_duration_since(self.looked);
        if since >= Duration::from_secs(ADDRESSES_SECONDS) {
            self.look(system);
        }
        let patience = self.patience(most);
        if patience.is_zero() && self.unasked < UNASKED_MAX {
            self.unasked += 1;
        } else {
            self.ask(system, patience);
        }
        self.tell_time(system);
        self.begin_turn();
    }

    // Asks the system who is ready, and waits so long at most until anybody is.
    fn ask<R: Clock>(&mut self, system: &R, patience: Duration) {
        self.unasked = 0;
        self.untold = 0;
        if let Some(calls) = &mut self.calls {
            calls.tell_turned(&self.poll);
        }
        if self.poll.poll(&mut self.events, Some(patience)).is_err() {
            sleep(system, Duration::from_millis(PAUSE_MILLIS));
        }
        self.take_events();
    }

    fn patience(&mut self, most: Duration) -> Duration {
        if self.again.first().is_some() {
            return Duration::ZERO;
        }
        match &mut self.calls {
            Some(calls) => calls.patience(self.now, most),
            None => most,
        }
    }

    // Takes in what the system tells.
    fn take_events(&mut self) {
        for event in &self.events {
            let Token(number) = event.token();
            match socket_place(number) {
                Some(place) => self.ready.append(place),
                None => {
                    if let Some(calls) = &mut self.calls {
                        if event.token() == DOOR {
                            calls.knock();
                        } else {
                            calls.mark_ready(number);
                        }
                    }
                }
            }
        }
    }

    // Whoever is ready again is ready now, behind the others, and who waits at the door is let in.
    fn begin_turn(&mut self) {
        for _ in 0..=ADDRESSES_MAX {
            match self.again.take_first() {
                Some(place) => self.ready.append(place),
                None => break,
            }
        }
        if let Some(calls) = &mut self.calls {
            calls.begin_turn(self.now);
            calls.let_in(self.now);
        }
    }

    // How a letter to a peer goes: as the last one came, where that was of this peer.
    fn way_to(&self, to: Peer) -> Way {
        match &self.last {
            Some(letter) if letter.from == to => letter.way,
            _ => Way::Socket(FOR_ALL),
        }
    }

    /// Sends a letter. The first one to a caller by TCP behind its record is the reply to that, and goes back over its
    /// connection. Any other is a datagram: one to whom the last datagram came from leaves from where that one went to.
    pub(crate) fn send(&mut self, to: Peer, piece: &[u8]) -> io::Result<()> {
        match self.way_to(to) {
            Way::Socket(place) => self.datagrams.send(place, to, piece),
            Way::Caller(place) => {
                self.last = None;
                if let Some(calls) = &mut self.calls {
                    calls.reply(place, piece, self.now);
                }
                Ok(())
            }
        }
    }
}

// The number of the socket at a place.
fn socket_token(place: u32) -> Token {
    Token(SOCKETS.saturating_sub(place as usize))
}

// The place of the socket with a number, if it is that of one.
fn socket_place(number: usize) -> Option<u32> {
    let behind = SOCKETS.checked_sub(number)?;
    if behind > ADDRESSES_MAX {
        return None;
    }
    u32::try_from(behind).ok()
}
