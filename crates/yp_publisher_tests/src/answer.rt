//! The answers to calls, and sessions of them.

mod lengths;
mod make;
mod procedures;
mod refusals;
mod sample;
mod secure;
mod session;
