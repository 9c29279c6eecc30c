//! The ledger of a push: which slaves were asked to fetch a map, and what each reported (yppush).
//!
//! What came of each slave is a function of the list of events, and each call adds its event to that list. The promise
//! stands on the calls of [`Push`], of which [`Push::next_send`] gives the next slave of the window, of which nothing
//! came yet. No call but `new` takes memory.
//!
//! [`turns`] is a push in the turns of an inbox: it asks the slaves, and hears what they report.
#![tactic(auto)]

mod event;
mod ledger;
mod outcome;
pub mod turns;

pub use event::Event;
pub use ledger::{Push, SLAVES_MAX, Sending};
pub use outcome::{Missed, Outcome};
