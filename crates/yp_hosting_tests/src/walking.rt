//! `walk` over an inbox in memory.

mod source;
mod walks;
