//! A map that is fetched row by row from a source that serves datagrams alone: ORDER, MASTER, FIRST, NEXT behind each
//! row, and ORDER again, whatever the network loses, repeats or reorders.
//!
//! What comes of a walk is a function of the mails that it awaited. This promise stands on [`Walk::on_mail`]; which
//! call is outstanding on [`Walk::ask`], and the version that came on [`Walk::finish`]. Where the mails say what one
//! version has, the walk gives that by [`laws`].

pub mod laws;
mod stage;
mod state_after;
mod walk;
mod walked;

pub use walk::Walk;
pub use walked::Walked;
