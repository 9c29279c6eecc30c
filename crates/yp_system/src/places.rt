//! The places of a watch: who is there, since when what of it is awaited, and who is ready.

use crate::chain::Chain;
use crate::epoll::is_written;
use std::alloc::{AllocError, Global};
use std::os::fd::RawFd;
use std::time::{Duration, Instant};
use yp_io::Awaited;

/// How long the callers of a hall are waited for.
#[derive(Clone, Copy, Debug, PartialEq, Eq)]
pub struct Limits {
    /// For the first byte of a record.
    pub record: Duration,
    /// For the rest of a record, from its first byte.
    pub rest: Duration,
    /// For a byte of what is owed to be taken.
    pub payment: Duration,
}

impl Limits {
    fn of(&self, what: Awaited) -> Duration {
        match what {
            Awaited::Record => self.record,
            Awaited::Rest => self.rest,
            Awaited::Payment => self.payment,
        }
    }
}

// How many numbers places have.
const PLACE_NUMBERS: usize = 1 << 32;

// Who is at a place: which of all that were entered, by which socket, whether the system tells of it, and that where it
// can be written to, or else where it can be read from, what of it is awaited, and since when.
#[derive(Clone, Copy)]
struct Entry {
    serial: u32,
    socket: RawFd,
    is_told: bool,
    is_written: bool,
    what: Awaited,
    since: Instant,
}

/// The places of a watch. Each that is taken is in line by what of it is awaited, the longest first, so nobody else has
/// to be looked at.
#[derive(Drop)]
pub struct Places {
    entries: Vec<Option<Entry>>,
    records: Chain,
    rests: Chain,
    payments: Chain,
    ready: Chain,
    again: Chain,
    turned: Chain,
    lost: Chain,
    serial: u32,
}

/// A connection of which the system is to tell for the first time, or for something else: its place, its socket, its
/// number, whether the system tells of it yet, and what is awaited of it.
#[derive(Clone, Copy)]
pub struct Turned {
    pub place: u32,
    pub socket: RawFd,
    pub number: usize,
    pub is_told: bool,
    pub what: Awaited,
}

impl Places {
    /// No place is taken.
    pub fn new(alloc: Global) -> Places {
        Places {
            entries: Vec::new(alloc),
            records: Chain::new(alloc),
            rests: Chain::new(alloc),
            payments: Chain::new(alloc),
            ready: Chain::new(alloc),
            again: Chain::new(alloc),
            turned: Chain::new(alloc),
            lost: Chain::new(alloc),
            serial: 0,
        }
    }

    fn make_room(&mut self, place: u32) -> Result<(), AllocError> {
        self.records.make_room(place)?;
        self.rests.make_room(place)?;
        self.payments.make_room(place)?;
        self.ready.make_room(place)?;
        self.again.make_room(place)?;
        self.turned.make_room(place)?;
        self.lost.make_room(place)?;
        let wanted = (place as usize).saturating_add(1);
        if self.entries.len() < wanted {
            self.entries.resize(wanted, None)?;
        }
        Ok(())
    }

    /// Takes a place from now on, for who has this socket. The system is to tell of it, unless that is ready before.
    pub fn enter(&mut self, place: u32, socket: RawFd, now: Instant) -> Result<(), AllocError> {
        self.make_room(place)?;
        self.leave(place);
        self.serial = self.serial.wrapping_add(1);
        self.put(
            place,
            Entry {
                serial: self.serial,
                socket,
                is_told: false,
                is_written: is_written(Awaited::Record),
                what: Awaited::Record,
                since: now,
            },
        );
        self.turned.append(place);
        Ok(())
    }

    /// Lets a place go.
    pub fn leave(&mut self, place: u32) {
        self.records.remove(place);
        self.rests.remove(place);
        self.payments.remove(place);
        self.ready.remove(place);
        self.again.remove(place);
        self.turned.remove(place);
        self.lost.remove(place);
        if let Some(entry) = self.entries.get_mut(place as usize) {
            *entry = None;
        }
    }

    /// The socket of who is at a place, where the system tells of it.
    pub fn told_socket(&self, place: u32) -> Option<RawFd> {
        match self.at(place) {
            Some(entry) if entry.is_told => Some(entry.socket),
            _ => None,
        }
    }

    fn at(&self, place: u32) -> Option<Entry> {
        *self.entries.get(place as usize)?
    }

    fn chain(&mut self, what: Awaited) -> &mut Chain {
        match what {
            Awaited::Record => &mut self.records,
            Awaited::Rest => &mut self.rests,
            Awaited::Payment => &mut self.payments,
        }
    }

    // Puts who is at a place at the end of the line of what is awaited.
    fn put(&mut self, place: u32, entry: Entry) {
        if let Some(here) = self.entries.get_mut(place as usize) {
            *here = Some(entry);
            self.chain(entry.what).append(place);
        }
    }

    /// Whether the time of who is at a place goes on, where this is awaited.
    pub fn goes_on(&self, place: u32, what: Awaited) -> bool {
        match self.at(place) {
            Some(entry) => entry.what == what,
            None => true,
        }
    }

    /// This is awaited of who is at a place, from now on.
    pub fn await_from(&mut self, place: u32, what: Awaited, now: Instant) {
        if let Some(entry) = self.at(place) {
            self.chain(entry.what).remove(place);
            self.put(
                place,
                Entry {
                    what,
                    since: now,
                    ..entry
                },
            );
        }
    }

    /// The system is to tell of who is at a place where this can go on, unless that is ready again before.
    pub fn turn(&mut self, place: u32, what: Awaited) {
        match self.at(place) {
            Some(entry) if !entry.is_told || entry.is_written != is_written(what) => {
                self.turned.append(place)
            }
            _ => self.turned.remove(place),
        }
    }

    /// The next of whom the system is to tell for the first time, or for something else.
    pub fn take_turned(&mut self) -> Option<Turned> {
        let place = self.turned.take_first()?;
        let Some(Some(entry)) = self.entries.get_mut(place as usize) else {
            return None;
        };
        let is_told = entry.is_told;
        entry.is_told = true;
        entry.is_written = is_written(entry.what);
        Some(Turned {
            place,
            socket: entry.socket,
            number: number_of(entry.serial, place),
            is_told,
            what: entry.what,
        })
    }

    /// The system can't tell of who is at a place, who is late then.
    pub fn lose(&mut self, place: u32) {
        if let Some(Some(entry)) = self.entries.get_mut(place as usize) {
            entry.is_told = false;
            self.lost.append(place);
        }
    }

    /// Whether there is one of whom the system can't tell.
    pub fn has_lost(&self) -> bool {
        self.lost.first().is_some()
    }

    /// Who is at a place is ready again, behind all that are ready at the next turn.
    pub fn go_again(&mut self, place: u32) {
        if self.at(place).is_some() {
            self.turned.remove(place);
            self.again.append(place);
        }
    }

    /// Whether anybody is ready again.
    pub fn has_again(&self) -> bool {
        self.again.first().is_some()
    }

    /// Who is at a place is ready, behind all that are.
    pub fn go_at_once(&mut self, place: u32) {
        if self.at(place).is_some() {
            self.ready.append(place);
        }
    }

    /// The system tells of this number. Who has left is passed over.
    pub fn mark_ready(&mut self, number: usize) {
        if let Ok(place) = u32::try_from(number % PLACE_NUMBERS) {
            if let Some(entry) = self.at(place) {
                if number_of(entry.serial, place) == number {
                    self.ready.append(place);
                }
            }
        }
    }

    /// Whoever is ready again is ready now, behind the others.
    pub fn begin_turn(&mut self) {
        for _ in 0..self.entries.len() {
            match self.again.take_first() {
                Some(place) => self.ready.append(place),
                None => return,
            }
        }
    }

    /// Who is ready, the first first.
    pub fn take_ready(&mut self) -> Option<u32> {
        self.ready.take_first()
    }

    // Who is waited for longest for this, and how much of its time is left.
    fn longest(&mut self, what: Awaited, now: Instant, limits: &Limits) -> Option<(u32, Duration)> {
        let place = self.chain(what).first()?;
        let passed = now.saturating_duration_since(self.at(place)?.since);
        Some((place, limits.of(what).saturating_sub(passed)))
    }

    // Who has been waited for longest, if that is too long and nothing has come of it meanwhile. Its time begins anew.
    fn late_for(&mut self, what: Awaited, now: Instant, limits: &Limits) -> Option<u32> {
        let (place, left) = self.longest(what, now, limits)?;
        if !left.is_zero() || self.ready.contains(place) {
            return None;
        }
        self.await_from(place, what, now);
        Some(place)
    }

    /// One of whom the system can't tell, or that is over its time. Its time begins anew.
    pub fn late(&mut self, now: Instant, limits: &Limits) -> Option<u32> {
        self.lost
            .take_first()
            .or_else(|| self.late_for(Awaited::Payment, now, limits))
            .or_else(|| self.late_for(Awaited::Rest, now, limits))
            .or_else(|| self.late_for(Awaited::Record, now, limits))
    }

    /// Whether nobody is waited for.
    pub fn is_empty(&self) -> bool {
        self.records.first().is_none()
            && self.rests.first().is_none()
            && self.payments.first().is_none()
    }

    /// Who was idle longest, else who has been waited for longest, where that is at least so long. Its time begins
    /// anew.
    pub fn oldest(&mut self, now: Instant, least: Duration) -> Option<u32> {
        let place = self
            .records
            .first()
            .or(self.rests.first())
            .or(self.payments.first())?;
        let entry = self.at(place)?;
        if now.saturating_duration_since(entry.since) < least {
            return None;
        }
        self.await_from(place, entry.what, now);
        Some(place)
    }

    /// How long it takes until anybody is over its time, up to this.
    pub fn until_late(&mut self, now: Instant, limits: &Limits, most: Duration) -> Duration {
        let mut left = most;
        for what in [Awaited::Record, Awaited::Rest, Awaited::Payment] {
            if let Some((_, time)) = self.longest(what, now, limits) {
                left = left.min(time);
            }
        }
        left
    }
}

// A number that tells a place from others, and who is there from those who were.
fn number_of(serial: u32, place: u32) -> usize {
    (serial as usize) * PLACE_NUMBERS + place as usize
}
