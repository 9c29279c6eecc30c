//! The headline: what the whole program does, over the bytes that go in and out, and the laws that say it of its
//! commands.
//!
//! The statements are those of `specs/Headline.antt`. That they hold of what `run` does stands on [`laws`], and that
//! they aren't empty on [`worlds`]. [`whole::run_told`] is a whole run with what they say of it.
#![tactic(auto)]

pub mod laws;
pub mod whole;
pub mod worlds;
