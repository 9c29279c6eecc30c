//! The command `serve`: stored maps for many callers at once, by connections that workers serve and by datagrams.
//!
//! [`serve_maps`] takes all that the program reaches outside, and ensures the one relation that says what it does to
//! that: each connection that came was served, each datagram had its turn, and each map's file then stands for what was
//! shown of it. Where it is to tell what it does, lines of that stand in the notes, and last what was counted.

mod clock;
mod log;
mod resources;
mod serve;
mod tally;
mod telling;

pub use serve::{Doors, Outside, serve_maps};
