//! Reverse netgroups: for each user, or each host, of a domain the groups that reach it.
//!
//! What each key has, or which row is the first that a version refuses, stands on [`reverse`], and what is looked up on
//! [`listed_in`]. That a look-up in a reverse map is membership, where [`split`] answers yes, stands on
//! [`laws::listed_is_membership`].

mod back;
mod fault;
mod field;
mod groups;
mod keys;
pub mod laws;
mod links;
mod listed;
mod reversing;
mod rising;
mod rows;

pub use fault::RevFault;
pub use field::Field;
pub use listed::{listed_in, split};
pub use reversing::reverse;
