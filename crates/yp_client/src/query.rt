//! What the client commands ask of a YP server, and what they print.
//!
//! A query dials a server, makes its calls, gives the wire back, and prints the whole answer, or nothing of a refusal.
//! Its promise stands on [`query`].

pub(crate) mod answer;
mod dialed;
pub(crate) mod fault;
mod print;
mod status;
pub(crate) mod text;

pub use dialed::query;
pub use fault::QueryFault;
pub use status::stat_name;
