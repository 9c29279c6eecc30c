//! A gate that holds those who serve back until others have come to a point.

use std::alloc::Global;
use std::process::Abort;
use std::sync::atomic::{AtomicU64, Ordering};
use std::thread;
use yp_worker::{Gate, Point};

/// How often a point of a connection was reached: its kind, the connection, and the number of times.
pub type Mark = (Kind, u64, u64);

/// A kind of point. All but `Accepted`, `Piece` and `Replied` are of no connection, and have the number 0.
#[derive(Clone, Copy, PartialEq, Eq)]
pub enum Kind {
    Begun,
    Accepted,
    Piece,
    Replied,
    /// An inbox was asked for the next datagram.
    Turn,
    /// An inbox was asked to send a datagram.
    Asked,
    /// The dial was asked for a connection.
    Dialed,
}

/// Who comes to the first point waits there for the second.
pub type Hold = (Mark, Mark);

/// The most turns that one is held.
const TURNS: u64 = 1_000_000_000;

/// The most connections.
const CONNECTIONS: u64 = 9;

/// The kinds of points that are of no connection.
const OTHERS: u64 = 4;

/// A gate with these holds. It counts how often each point was reached, and the holds that ended for want of turns.
#[derive(Drop)]
pub struct Holding<'h> {
    holds: &'h [Hold],
    counts: Vec<AtomicU64>,
    gave_up: AtomicU64,
}

impl<'h> Holding<'h> {
    pub fn new(rt: &impl Abort, alloc: Global, holds: &'h [Hold]) -> Holding<'h> {
        let mut counts = Vec::new(alloc);
        for _ in 0..OTHERS + 3 * CONNECTIONS {
            counts
                .push(AtomicU64::new(0))
                .expect(rt, "memory for a count");
        }
        Holding {
            holds,
            counts,
            gave_up: AtomicU64::new(0),
        }
    }

    /// How often one was held for longer than all its turns.
    pub fn gave_up(&self) -> u64 {
        self.gave_up.load(Ordering::SeqCst)
    }

    // Each connection, from 1 on, has three counts.
    fn count(&self, kind: Kind, connection: u64) -> Option<&AtomicU64> {
        let first = OTHERS + 3 * connection.min(CONNECTIONS + 1).saturating_sub(1);
        let place = match kind {
            Kind::Begun => 0,
            Kind::Turn => 1,
            Kind::Asked => 2,
            Kind::Dialed => 3,
            Kind::Accepted => first,
            Kind::Piece => first + 1,
            Kind::Replied => first + 2,
        };
        self.counts.get(place as usize)
    }

    fn is_reached(&self, mark: Mark) -> bool {
        let (kind, connection, times) = mark;
        match self.count(kind, connection) {
            Some(count) => count.load(Ordering::SeqCst) >= times,
            None => false,
        }
    }

    // Waits until a mark is reached, or all turns are over.
    fn wait_for(&self, mark: Mark) {
        for _ in 0..TURNS {
            if self.is_reached(mark) {
                return;
            }
            thread::yield_now();
        }
        self.gave_up.fetch_add(1, Ordering::SeqCst);
    }

    /// A point is reached once more, and whoever reaches it waits there as the holds say.
    pub fn reach(&self, kind: Kind, connection: u64) {
        let Some(count) = self.count(kind, connection) else {
            return;
        };
        let times = count.fetch_add(1, Ordering::SeqCst).saturating_add(1);
        for (at, until) in self.holds {
            if *at == (kind, connection, times) {
                self.wait_for(*until);
            }
        }
    }
}

fn kind_of(point: Point) -> (Kind, u64) {
    match point {
        Point::Begun => (Kind::Begun, 0),
        Point::Accepted { connection } => (Kind::Accepted, connection),
        Point::Piece { connection } => (Kind::Piece, connection),
        Point::Replied { connection } => (Kind::Replied, connection),
    }
}

impl<'h> Gate for Holding<'h> {
    fn at(&self, point: Point) {
        let (kind, connection) = kind_of(point);
        self.reach(kind, connection);
    }
}
