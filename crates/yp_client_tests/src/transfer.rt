//! Maps that are fetched.

mod calls_back;
mod fetches;
mod sample;
mod source;
mod transfers;
mod walks;
