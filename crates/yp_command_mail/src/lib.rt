//! The commands that ask and answer in datagrams: `bind`, which binds a domain to a server, `portmap`, which keeps the
//! mappings of a port mapper, `getport`, `setport` and `unsetport`, which call one, and `push`, which has slaves fetch
//! a map.
//!
//! Each takes the office of the outside, and ensures the one relation that says what it does to it: [`bind_domain`],
//! [`serve_ports`], [`ask_mapper`] and [`push_map`]. Each brings a handler alone; the turns of the inbox are those of
//! `yp_rpc`.
#![tactic(auto)]

mod binding;
mod finding;
mod mapper;
mod portmap;
mod push;
mod text;

pub use binding::bind_domain;
pub use mapper::ask_mapper;
pub use portmap::serve_ports;
pub use push::push_map;
