//! A writer, and readers in threads.

mod boards;
mod newest;
mod notes;
mod threads;
