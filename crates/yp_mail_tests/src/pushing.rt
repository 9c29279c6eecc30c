//! Pushes to three slaves over wires and an inbox in memory, and who the slaves are.

mod callbacks;
mod pushes;
mod sample;
mod slaves;
