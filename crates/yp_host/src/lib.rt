//! A host over stored maps, which answers what is shown of them and makes maps anew, and one connection that it serves.
//!
//! That every reply rests on one published state, and what a crash leaves of each map at any moment, stands on
//! [`serve_wire`], from the loading of the files to the handing back of their disks.
//!
//! What the making of a map does to the maps, their files and the board, and with which status, stands on [`LocalHost`]
//! as a [`Host`](yp_answer::session::Host): the relation `made` of its `make`. Its steps, one for each reason why a map
//! isn't made, have contracts of their own. What a transfer does stands on the relation `carried` of its `transfer`.
//!
//! [`workers`] has the host of a worker, which shares its maps and its desk with those of other threads.
#![tactic(auto)]

mod anew;
mod carrying;
mod connection;
mod desk;
mod local;
mod steps;
pub mod workers;

pub use anew::{BuildTask, build_anew};
pub use connection::{ConnectionResources, ConnectionSpec, serve_wire};
pub use desk::Desk;
pub use local::LocalHost;
