//! Clients, and what they ask.

mod all;
pub mod asked;
mod calls;
pub mod lent;
mod orders;
mod queries;
