//! Maps that workers make and fetch.

mod make;
mod stage;
mod transfer;
