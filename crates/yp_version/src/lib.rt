//! Versions of maps: rows with distinct keys in rising byte order, with an order, a master and the mark `secure`.
//!
//! A version never changes, and is kept as its stored body. It is built by pushing rows, whose limits stand on the
//! clauses of [`VersionBuilder::push`], and `finish` sorts them once. What is looked up stands on the clauses of
//! [`Version::get`], [`Version::row`], [`Version::first`] and [`Version::next`], and what joins the order of pushing
//! with that of the rows on [`laws`]. [`Version::body`] is the spelling of the version, [`Version::of_body`] the
//! version that a body spells, and [`Version::indexed`], which makes a table of the keys, leaves the version as it is.
#![tactic(auto)]

mod blanks;
mod builder;
mod head;
pub mod laws;
mod limits;
mod order;
mod ranks;
mod slab;
mod spelled_rows;
mod table;
mod version;

pub use blanks::{bare, is_blank, without_front_blanks};
pub use builder::{VersionBuilder, VersionFault};
pub use limits::{BODY_MAX, KEY_MAX, MASTER_MAX, ROWS_MAX, VALUE_MAX};
pub use order::Order;
pub use spelled_rows::SpelledRows;
pub use version::{Next, StoredBody, Version};
