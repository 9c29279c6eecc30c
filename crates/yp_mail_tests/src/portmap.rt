//! A port mapper, and a client that asks one.

mod asking;
mod registry;
