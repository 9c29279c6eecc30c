//! Calls to a YP server over a wire (yp.x), whose answers are judged byte for byte.
//!
//! Each call sends one record, reads the whole record of its reply, and answers what the bytes of that say, or the
//! first refusal that they meet. The promise stands on the calls of [`Client`], which all have one contract at
//! different kinds of results. [`Client::all`] pushes the rows of a reply of any length onto a builder, through one
//! buffer. [`connect`] makes a client of a wire that is dialed.
//!
//! A [`Question`] is what a client command asks of a server. The words of the command line make it, and a query asks
//! it. That its names and its key fit into a call stands on [`Question::is_within`].
//!
//! [`query`] asks what a client command asks, and prints the answer. [`orders`] compares the orders of servers.
#![tactic(auto)]

mod all;
mod answers;
mod client;
mod connection;
mod dialed;
mod exchange;
mod fault;
pub mod limits;
pub mod orders;
mod procedures;
pub mod query;
mod question;

pub use answers::{Row, read_found, read_master, read_order};
pub use client::{Client, ClientRefused};
pub use dialed::{Unconnected, connect};
pub use exchange::{RemoteProcedure, set_call};
pub use fault::ClientFault;
pub use question::Question;
