//! What happens to a binder, and a list of it.

ghost use Rattle.std.specs.Prelude.{◌≡◌, [], ◌∷◌};

use std::marker::Model;
use yp_io::{Peer, Trail};

/// A server for a domain, which goes by its number from 0.
#[derive(Clone, Copy)]
pub struct Binding {
    pub domain: u32,
    pub server: Peer,
}

/// What happens to a binder.
#[derive(Clone, Copy)]
pub enum Event {
    /// A datagram came, and may have set a binding.
    Called { set: Option<Binding> },
    /// A server was pinged.
    Pinged,
    /// A reply to a ping came, and may have been taken.
    Offered { taken: Option<Binding> },
    /// Nothing came for a while.
    Quiet,
}

/// A list of events, the last one first, that takes no memory: it is there for contracts alone.
#[derive(Drop)]
pub(crate) struct History {
    trail: Trail<Event>,
}

impl Model for History {
    ghost use Rattle.std.specs.Prelude.{List, reverse};
    ghost use Rattle.yp_binding.specs.declared.event.Event.{Event};

    ghost Value = { List Event };

    ghost view = { λ history. reverse history.trail };
}

impl History {
    /// No events.
    pub(crate) fn new() -> History
        ensures { result ≡ [] }
    {
        History {
            trail: Trail::new(),
        }
    }

    /// Adds an event.
    pub(crate) fn add(&mut self, event: Event)
        ensures { self.new ≡ event ∷ self.old }
    {
        self.trail.push(&event);
    }
}
