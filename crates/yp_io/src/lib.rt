//! What the program reaches outside itself, as traits.
//!
//! A source gives bytes and a sink takes them, and those that are never waited for say where nothing can go on now; a
//! disk keeps bytes through a crash; texts and a clock are read; a dial opens wires, sends datagrams and asks by them;
//! an inbox receives datagrams at a port, and sends them from there; a hall hands out the connections that come, each
//! with its caller, up to a number that is stated, closers, by which they are closed, and watches, which tell a worker
//! by hints alone which of its connections may go on. Each says what it holds, has taken or shows where that can be
//! known: a disk what a crash may leave of it at each moment, a dial which wires came, an inbox what arrived and was
//! sent in one order, and a hall which connections came, of which callers, and which its closers have closed, with what
//! each told then. All but the clock count their faults, so that a failure always has a cause. These promises stand on
//! the clauses of [`Source`], [`TrySource`], [`TrySink`], [`Sink`], [`Disk`], [`Texts`], [`Clock`], [`Dial`], [`Inbox`]
//! and [`Hall`], and on [`write_all`] and [`read_all`].
#![tactic(auto)]

mod called;
mod clock;
mod dial;
mod disk;
mod hall;
mod inbox;
mod ready;
mod slice_source;
mod stream;
mod texts;
mod trail;
mod whole;

pub use called::{CallOrigin, Called};
pub use clock::Clock;
pub use dial::{Dial, Letter, Sending};
pub use disk::Disk;
pub use hall::{Awaited, Coming, Hall, Notice, Wake, Watch};
pub use inbox::{Inbox, Mail};
pub use ready::{TrySink, TrySource};
pub use slice_source::SliceSource;
pub use stream::{
    Failed, NoMemory, OWN_HOST, Pair, Peer, Sink, Source, count_fault, write_all, write_through,
};
pub use texts::{TEXT_MAX, TextFault, Texts};
pub use trail::Trail;
pub use whole::{Unread, read_all, zeros};
