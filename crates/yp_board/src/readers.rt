//! A board for threads: one writer shows versions, and readers in other threads see them without a lock.
//!
//! Its log is a [`History`](crate::history::History), in the order in which versions were shown. What readers see
//! of it is a table that `left_right` carries. That what a [`Reader`] knows is always a front of the one log stands on
//! its clauses for [`View`](crate::View), on [`Reader::meet`] and on those of [`Writer`] for
//! [`Tell`](crate::Tell), of which `covers` says it of a [`Front`] that was known at any moment; that a version
//! which is shown is one pair more of it, on the clauses of [`Writer`] for [`Show`](crate::Show). No call of a
//! reader waits, takes memory or a lock.

mod beside;
mod opening;
mod reader;
mod slots;
mod table;
mod writer;

use crate::history;
pub use crate::history::Naming;
pub use crate::log::Shown;
pub use beside::show_beside;
pub use opening::{WORKERS_MAX, board};
pub use reader::Reader;
pub use table::{Note, Table};
pub use writer::Writer;

/// The log of a board that has no name yet.
pub type Opened = history::Opened<Shown>;

/// A front of the log of a board.
pub type Front<J> = history::Front<J, Shown>;

/// The log of a board, for the one who writes it.
type History<J> = history::History<J, Shown>;
