//! What is outside, in memory.

mod accepts;
mod dial;
mod disk;
mod hall;
mod inbox;
mod streams;
mod texts;
