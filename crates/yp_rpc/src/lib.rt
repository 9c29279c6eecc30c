//! ONC RPC version 2 (RFC 5531): records in the fragments of a stream, the heads of calls and replies, and what
//! programs over datagrams have in common.
//!
//! That a stream is its records, however it is cut, stands on [`RecordReader::next`] and the laws of [`laws`]; what is
//! sent of a record on [`RecordWriter::put`], `end` and `send`; what came of a wire that is never waited for on
//! [`Incoming::first`], and what is owed to one on [`Outgoing::pay`]; what a record is heard as on [`read_call`]; how
//! a call and a reply begin on [`write_call`] and [`write_reply`]; how a reply is read on [`read_reply`]; and whether a
//! call is let to a procedure of the [`Programs`] that are answered, by its bytes alone, on [`judge`].
//!
//! An [`Handler`] brings what a command does at each turn of an inbox, and [`take_turns`] all that they have in common:
//! the letters before a turn, the turn itself, a datagram that is too long, the reply to its sender, the count of turns
//! and the end. That exactly the turns and letters that the handler leads to happen, in their order, stands on
//! [`take_turns`].
#![tactic(auto)]

mod call;
mod handler;
mod judging;
pub mod laws;
pub mod protocol;
mod put;
mod record;
mod reply;
mod turns;

pub use call::{CallHead, Heard, read_call, write_call};
pub use handler::{DATAGRAM_MAX, Handler, Wish};
pub use judging::{Judged, Programs, judge};
pub use record::{First, Incoming, Outgoing, Payment, RecordFault, RecordReader, RecordWriter};
pub use reply::{ReplyHead, ReplyRead, read_reply, read_reply_at, write_reply};
pub use turns::{Ended, Room, take_turns};
