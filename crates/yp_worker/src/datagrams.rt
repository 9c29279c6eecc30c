//! The datagrams of a server: each that comes is answered on what its host knows, before the next turn, unless it is
//! left for a carrier.
//!
//! A [`MailServer`] is a handler of an inbox. Before a datagram is answered its host learns what others showed. What
//! takes long is left in a [`DeferredQueue`]: a transfer that a datagram asks for, behind the reply, and a call for
//! which a map may have to be made, in place of one. A [`Carrier`] in a thread of its own does what is there, while
//! servers go on with their turns: it carries out transfers, and answers calls, on no older state than their server
//! knew, from an inbox of its own. What goes out for what comes in stands on [`serve_mail`], and that all that was left
//! was done on [`Carrier::carry_rest`].

mod arrivals;
mod carrier;
mod deferred;
mod pending;
mod reply;
mod serve;
mod server;

pub use carrier::Carrier;
pub use deferred::{Deferred, DeferredCall, Work};
pub use pending::{DeferredPass, DeferredQueue};
pub use serve::serve_mail;
pub use server::MailServer;
