//! Maps under one lock.

mod installs;
mod maps;
