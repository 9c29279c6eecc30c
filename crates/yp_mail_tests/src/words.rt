//! The words of the command line.

mod asking;
mod mailing;
mod sentences;
mod serving;
mod walking;
