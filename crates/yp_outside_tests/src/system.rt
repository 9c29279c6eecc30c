//! What is outside, of the system: files that fail, connections that never answer, streams that are interrupted.

mod dial;
mod disk;
mod hall;
mod inbox;
mod scripted;
mod streams;
mod texts;
mod words;
