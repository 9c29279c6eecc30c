//! Clients that ask servers.

mod exchanges;
mod server;
pub mod told;
mod worked;
