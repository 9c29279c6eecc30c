//! Source texts (passwd, hosts, netgroup and others) become the versions of maps.
//!
//! The rows of a text, up to the first that is refused, stand on the contract of [`rows_of`], a raised order on that of
//! [`next_order`], and a whole version, or the first reason why there is none, on those of [`build`], [`build_after`]
//! and [`sample`].
#![tactic(auto)]

mod after;
mod dumps;
mod fault;
mod kind;
pub mod laws;
mod lines;
mod order;
mod push;
mod reading;
mod row;
mod samples;
mod versions;
mod words;

pub use after::{AfterFault, build_after, other_master};
pub use dumps::{DumpFault, dump};
pub use fault::BuildFault;
pub use kind::Kind;
pub use order::{OrderSpent, next_order};
pub use push::rows_of;
pub use reading::Reading;
pub use samples::sample;
pub use versions::{Maker, SourceText, build};
