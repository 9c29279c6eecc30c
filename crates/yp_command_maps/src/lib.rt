//! The commands over stored maps: `build` and `load`, which make a map of a text or of rows and store it, `xfr`, which
//! fetches a map from another host and stores it, `revnet`, which reverses netgroups and stores them, `check`, which
//! tells what a file stands for, and `dump`, which tells its rows.
//!
//! Each takes the office of the outside, and ensures the one relation that says what it does to it: [`build_map`],
//! [`load_map`], [`transfer_map`], [`reverse_map`], [`check_map`] and [`dump_map`]. What a publisher of one map does to
//! its disk stands on [`open_only`], [`store_fetched`] and [`hand_back`], which `walk` calls, too.
//!
//! The command `walk` stands in [`walk`](crate::walk).
#![tactic(auto)]

mod build;
mod catalog;
mod check;
mod dump;
mod fetched;
mod revnet;
pub mod walk;
mod xfr;

pub use build::{build_map, load_map};
pub use catalog::{OnlyMap, catalog_of};
pub use check::check_map;
pub use dump::dump_map;
pub use fetched::{NotLoaded, hand_back, open_only, shown_order, store_fetched};
pub use revnet::reverse_map;
pub use xfr::{XfrStop, tell_transfer, transfer_map};
