//! Whether the servers of a domain have the same orders.
//!
//! The first server is asked for its maps, their masters and their orders, and each other for its orders of these maps,
//! each over a wire of its own, which is given back. A line for each map is printed, or nothing of a refusal. The
//! promise stands on [`compare_orders`].

mod asked;
mod dialed;
mod print;

pub use dialed::compare_orders;
