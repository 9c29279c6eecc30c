//! Stored maps that are shown on a board: a version is installed by storing it first and then showing it.
//!
//! How each map stands is a fact of the type [`Publisher`]: whatever a crash may leave of a level map's file stands for
//! the version that is shown of it, and of a map that is behind for that version or for the one whose install failed.
//! So no board is ever ahead of its files. [`Publisher::standing`] tells it, and [`Publisher::install`] and
//! [`Publisher::reopen`] say it of each moment inside them, and of each refusal its cause; they rest on the calls of
//! `yp_map_file`. [`laws`] say that the orders of each map rise in the log.
//!
//! What a caller is told of a fault stands in one table, [`slot_stat`], [`InstallFault::stat`] and
//! [`ShareFault::stat`](sharing::ShareFault::stat).
//!
//! [`sharing`] has a publisher that threads share, under one lock.
#![tactic(auto)]

mod install;
pub mod laws;
mod loaded;
mod open;
mod publisher;
mod same;
pub mod sharing;
mod spelled;
mod stat;
mod stored;

pub use install::{InstallFault, Installed, Origin};
pub use loaded::{Loaded, StartRefused, load_all};
pub use open::{OpenFault, OpenRefused, open_publisher};
pub use publisher::{Publisher, Standing};
pub use stat::slot_stat;
