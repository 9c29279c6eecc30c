//! What workers tell of what they do, until it is taken.

ghost use Rattle.std.specs.Prelude.{◌≡◌, [], false, true};
ghost use Rattle.yp_host.specs.inside.workers.Journal.{kept_with, emptied};

use arrayvec::ArrayVec;
use std::marker::Model;
use std::mem;
use yp_io::Peer;
use yp_messages::XfrStat;
use yp_version::Order;

/// The most events that are kept. More are counted alone.
const EVENTS_MAX: usize = 64;

/// What a worker did, or refused to do. A map is named by its number from 0. What was asked for that is no map of the
/// catalogue has no number.
#[derive(Clone, Copy, Debug, PartialEq, Eq)]
pub enum Event {
    /// A map was made anew for a caller, and its version with this order is shown.
    Made {
        map: u32,
        order: Order,
        peer: Peer,
    },
    /// A map was to be made anew for a caller, and wasn't.
    NotMade {
        map: u32,
        stat: XfrStat,
        peer: Peer,
    },
    /// A map was fetched for a caller, and its version with this order is shown.
    Fetched {
        map: u32,
        order: Order,
        peer: Peer,
    },
    /// A map was to be fetched for a caller, and wasn't, or isn't shown.
    NotFetched {
        map: u32,
        stat: XfrStat,
        peer: Peer,
    },
    /// A caller who asked for a map to be made was refused.
    RefusedMake {
        map: Option<u32>,
        stat: XfrStat,
        peer: Peer,
    },
    /// A caller who asked for a map to be fetched was refused.
    RefusedXfr {
        map: Option<u32>,
        stat: XfrStat,
        peer: Peer,
    },
    /// The connection of a caller was closed for its time.
    Late {
        peer: Peer,
    },
}

/// What stands in room that no event has taken.
impl Default for Event {
    fn default() -> Event {
        let peer = Peer {
            addr: [0; 4],
            port: 0,
        };
        Event::Late { peer }
    }
}

/// The events that were taken, in their order, and how many more there were behind them.
#[derive(Drop)]
pub struct Events {
    pub events: ArrayVec<Event, EVENTS_MAX>,
    pub more: u64,
}

/// The events that nobody has taken yet, and whether none comes any more. Workers share it under a lock of its own,
/// which is held for a moment.
///
/// It is seen as the events that wait, how many more there were, and whether none comes any more.
#[derive(Drop)]
pub struct Journal {
    waiting: Events,
    has_ended: bool,
}

impl Model for Journal {
    ghost use Rattle.yp_host.specs.inside.workers.Journal.{Kept};

    ghost Value = { Kept };

    ghost view = { λ j. record {
      events = j.waiting.events.items;
      more = j.waiting.more;
      has_ended = j.has_ended;
    } };
}

impl Events {
    /// None.
    fn none() -> Events
        ensures events { result.events.items ≡ [] }
        ensures more { result.more ≡ 0 }
    {
        Events {
            events: ArrayVec::new(),
            more: 0,
        }
    }
}

impl Journal {
    /// Nothing has happened yet.
    pub fn new() -> Journal
        ensures { result ≡ record { events = []; more = 0; has_ended = false } }
    {
        Journal {
            waiting: Events::none(),
            has_ended: false,
        }
    }

    /// Adds an event, or counts it where there are too many.
    pub fn push(&mut self, event: Event)
        ensures { self.new ≡ kept_with event self.old }
    {
        if self.waiting.events.try_push(event).is_err() {
            self.waiting.more = self.waiting.more.saturating_add(1);
        }
    }

    /// Takes all that waits.
    pub fn take(&mut self) -> Events
        ensures events { result.events.items ≡ self.old.events }
        ensures more { result.more ≡ self.old.more }
        ensures left { self.new ≡ emptied self.old }
    {
        mem::replace(&mut self.waiting, Events::none())
    }

    /// No event comes any more.
    pub fn end(&mut self)
        ensures { self.new ≡ record self.old { has_ended = true } }
    {
        self.has_ended = true;
    }

    /// Whether no event comes any more.
    pub fn has_ended(&self) -> bool
        ensures { result ≡ self.now.has_ended }
    {
        self.has_ended
    }
}
