//! The port mapper: program 100000 version 2 over datagrams (RFC 1833 section 3).
//!
//! A registry is a list of mappings, and each call changes that list and is replied to exactly by the definitions of
//! `specs/portmap/Registry.antt` and `Replies.antt`: SET and UNSET for callers on the own host alone. The promise
//! stands on [`Registry::on_call`], which leaves no two mappings of one version of a program over one protocol, and on
//! [`laws`]: a repeated call changes nothing. A client writes a call by [`write_port_call`], and reads the reply by
//! [`read_answer`]; [`ask_port`] and [`read_port`] are these for GETPORT alone.

mod asking;
pub mod laws;
mod mapping;
pub mod protocol;
mod registry;
mod request;

pub use asking::{
    CALL_LEN, PortAnswer, PortCall, PortReply, ask_port, read_answer, read_port, write_port_call,
};
pub use mapping::Mapping;
pub use registry::Registry;
