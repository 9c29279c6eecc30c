//! One connection: the records of a wire, answered in turn.
//!
//! A session reads a record, writes its whole reply and flushes, and only then reads on. A map that a record asks for
//! is made by the [`Host`], before the reply, and a transfer that a record asks for is carried out by it, exactly where
//! the reply was flushed. What goes out for what comes in, and how it ends, stands on [`Session::run`], and of one
//! record on [`Session::step`]. That no record is read before the reply to the one before it is flushed is what the
//! [`Witness`] of a run has seen.

mod buffers;
mod conversation;
mod errand;
mod host;
mod makes;
mod open;
mod put;
mod send;
mod session;
mod witness;

pub use buffers::Buffers;
pub use conversation::{Advance, Conversation, Terms};
pub use errand::Errand;
pub use host::Host;
pub use makes::may_make;
pub use session::{CALLS_MAX, End, Session, Step, calls_max_is_defined};
pub use witness::Witness;
