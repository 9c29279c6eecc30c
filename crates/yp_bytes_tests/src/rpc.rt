//! Calls, replies, records and turns, of `yp_rpc`.

mod asker;
mod call;
mod record;
mod reply;
mod turns;
