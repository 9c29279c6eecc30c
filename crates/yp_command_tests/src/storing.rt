//! `build`, `load`, `check`, `dump`, `xfr` and `revnet` over memory: calls that fail, crashes, moments, and sources
//! that lie.

mod build;
mod check;
mod dump;
mod faults;
mod load;
mod reverses;
pub mod source;
mod transfers;
