//! Sessions over wires in memory.

mod conversations;
mod host;
mod make;
mod runs;
mod sample;
mod transfer;
