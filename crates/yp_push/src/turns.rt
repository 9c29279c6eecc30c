//! A push in its turns: slaves are asked to fetch a map, and tell how it went (yppush).
//!
//! The promise stands on [`Pusher`], a handler for the turns of `yp_rpc`: before each turn all slaves are asked that
//! the ledger of `yp_push` lets be asked, each over a wire of its own, and each datagram has the one reply of the push
//! response program. What is told of it at the end stands on [`text_of`] and [`all_have_map`], and
//! who the slaves are on [`slaves_of`].

mod callback;
mod printed;
mod pusher;
mod sending;
mod slaves;

pub use callback::{Callback, PROGRAM, hear_callback, read_callback};
pub use printed::{all_have_map, text_of};
pub use pusher::{PushRequest, Pusher, Slave};
pub use slaves::slaves_of;
