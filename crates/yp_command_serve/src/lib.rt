//! The commands that answer calls: `once` on the rows of its words, `session` over stored maps, and `sample`, which
//! answers its own calls on a map of sample rows and tells how that went.
//!
//! Each takes the office of the outside, and ensures the one relation that says what it does to it: [`serve_once`],
//! [`serve_session`] and [`tell_sample`]. The first two show a witness the wire behind each record that they answer.
//!
//! The command `serve`, for many callers at once, stands in [`serve`].
#![tactic(auto)]

mod calls;
mod end;
mod host;
mod once;
mod sample;
pub mod serve;
mod session;
mod tally;

pub use once::serve_once;
pub use sample::tell_sample;
pub use session::{SessionSpec, serve_session};
