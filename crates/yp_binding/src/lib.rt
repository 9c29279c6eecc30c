//! The binder: which server each domain is bound to (ypbind).
//!
//! A binding is a function of the list of what happened: calls, pings, offers and quiet turns. Each call of [`Binder`]
//! adds its event to that list, and the promise stands on these calls: [`Binder::on_call`] has the one reply to a
//! datagram, [`Binder::next_ping`] gives the pings of a round in turn, and [`Binder::on_offer`] takes what answers one.
//! No call but `new` takes memory.
//!
//! [`portmap`] is the port mapper, and what a client asks of one.
#![tactic(auto)]

mod binder;
mod event;
pub mod portmap;
mod request;
mod standing;

pub use binder::{Binder, Ping, Policy, SERVERS_MAX, is_same_peer};
pub use event::{Binding, Event};
