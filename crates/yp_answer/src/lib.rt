//! The reply to one call, on one state of the maps.
//!
//! A record is answered by [`answer`], and a call in a datagram by [`answer_datagram`]. That each gives the one reply
//! of YP version 2 (yp.x) over RPC (RFC 5531) on what its view knows, after at most one read step, and that it takes a
//! transfer or leaves a MAKE open exactly where that reply does, stands on their clauses. The reply of ALL goes out in
//! pieces of whole items, by [`AllStream::piece`]. [`laws`] say of which callers a MAKE is left open, and of which maps
//! a transfer is taken.
//!
//! [`session`] answers the records of one connection in turn.
#![tactic(auto)]

mod arguments;
mod caller;
mod calls;
mod check;
mod facts;
pub mod laws;
mod limits;
mod look_up;
mod make;
mod outcome;
mod procedure;
pub mod session;
mod stream;
mod transfer;

pub use calls::{Answered, answer, answer_datagram};
pub use limits::RECORD_MAX;
pub use make::{MakeJob, Making, make_check, make_reply};
pub use outcome::{Outcome, outcome_of};
pub use procedure::{Path, Procedure};
pub use stream::{AllStream, HeldStream};
pub use transfer::TransferJob;
