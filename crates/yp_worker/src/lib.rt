//! One worker of a server: a host, the memory for records and replies, and a gate that is told of its steps.
//!
//! A worker serves many connections at once and waits for none of them: it goes on with each as far as its wire can,
//! and what its host knows never goes back between two steps. What it does to one of them, and that all others stand
//! as they stood, stands on [`Guest::advance`]. Workers share a listener under one lock. What each that has ended did,
//! step by step, and how each connection stood as it was closed, is a fact of the type [`Listening`], which lies under
//! the lock, and stands on [`Listening::close`]; so does the sum of what their hosts counted, and that what each was
//! answered on is a front of one log. That a worker ends by an end of the listener alone, with no connection that is
//! still out, stands on [`Worker::run`], and of two in threads on [`run_beside`].
//!
//! [`datagrams`] answers the datagrams of a server.
#![tactic(auto)]

mod beside;
mod catch_up;
pub mod datagrams;
mod gate;
mod gated;
mod guest;
pub mod laws;
mod left;
mod listening;
mod run;
mod tally;
mod waiting;
mod worker;

pub use beside::run_beside;
pub use catch_up::{CatchUp, HandsOver, Known};
pub use gate::{Gate, OpenGate, Point};
pub use gated::Gated;
pub use guest::Guest;
pub use left::LongWork;
pub use listening::{Admission, ListenerBooks, Listening, Pass, Reception};
pub use tally::Tally;
pub use waiting::Waiting;
pub use worker::Worker;
