//! Netgroups: the members that a text spells, the groups that are reached, and who is a member.
//!
//! Membership, cycles included, stands on the contract of [`innetgr`], the list of the groups that are reached on that
//! of [`spread`], and the members of a text on that of [`members`].
//!
//! [`reverse`] makes the maps of the groups by user and by host.
#![tactic(auto)]

pub mod laws;
pub mod reverse;
mod search;
mod text;
mod who;

pub use search::{innetgr, spread};
pub use text::{Member, members};
pub use who::Who;
