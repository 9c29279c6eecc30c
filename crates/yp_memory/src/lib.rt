//! What the program reaches outside itself, in memory, for tests.
//!
//! A source and a sink, a disk, texts, a clock, a dial, an inbox and a hall with its watch and closers. Each fails at
//! the calls that its [`Plan`] names, and tells contracts all that it holds, has taken or shows, so every clause of
//! `yp_io` can be read off it. [`Scheduled`] says "not now" where its schedule does.
#![tactic(auto)]

mod clock;
mod closer;
mod dial;
mod disk;
mod hall;
mod inbox;
mod plan;
mod scheduled;
mod streams;
mod texts;
mod watch;

pub use clock::SetClock;
pub use closer::MemCloser;
pub use dial::{MemDial, MemDialed};
pub use disk::MemDisk;
pub use hall::{HallCall, HallCloser, MemHall};
pub use inbox::MemInbox;
pub use plan::Plan;
pub use scheduled::Scheduled;
pub use streams::{MemSink, MemSource, MemWire};
pub use texts::MemTexts;
pub use watch::{MemWaker, MemWatch};
