//! The maps that are served, and the board on which their versions are shown.
//!
//! A board has a log of the versions that were shown, which only grows. A [`View`] reads a front of it, which a read
//! step only makes longer, [`Show`] adds to it, and a [`Tell`] lets readers know all of it. What is looked up in a
//! catalogue stands on the clauses of [`Catalog::find`] and [`Catalog::serves`], what is read of a board on
//! [`View::held`], and that what a reader knew is a front of the log on [`Tell`].
//!
//! [`readers`] is a board for threads: its readers take no lock. [`history`] is the log of such a board, of entries of
//! any type.
#![tactic(auto)]

mod catalog;
mod faults;
pub mod history;
mod log;
mod order;
mod plain;
pub mod readers;
mod view;

pub use catalog::{Catalog, CatalogFault, MAPS_MAX, MapName, NAME_MAX, copy_names};
pub use plain::PlainBoard;
pub use view::{Show, ShowRefused, Tell, View};
