//! Questions over wires in memory: calls and replies written out by hand, from RFC 5531 and yp.x.

mod answers;
mod failing;
mod large;
mod members;
mod questions;
mod refusals;
mod statuses;
