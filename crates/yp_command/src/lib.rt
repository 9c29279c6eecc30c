//! The words of the command line: what they ask for, or the first that is wrong.
//!
//! Each word is read once, by its form, which gives its value. The promise stands on [`parse`]; which maps' files
//! a command reads or writes, on [`disk_names`].
//!
//! [`office`] is what every command has before it and behind it.
#![tactic(auto)]

mod command;
mod form;
mod further;
pub mod office;
mod sentence;
mod words;

pub use command::{Command, HostWord, KeyValue, PushJob, ServeJob, WalkJob, XfrJob};
pub use form::BY_USER;
pub use words::{
    ParseFault, connections_of, disk_names, is_ypservers, netgroup_of, parse, port_of, stores_of,
    ypservers_of,
};
