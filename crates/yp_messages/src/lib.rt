//! The arguments and results of YP version 2, of the push response program, of the binder (yp.x) and of the make
//! program: each message is read and written by its kind.
//!
//! The promise stands on [`Message::write`] and [`ReadMessage::read`], and on [`MapList`], which takes memory as it is
//! read. The numbers of the programs and the limits stand on the functions of [`protocol`], and the numbers of statuses
//! on `number` of [`YpStat`], [`XfrStat`], which is also [`PushStat`], and [`BindErr`].
#![tactic(auto)]

mod binding;
mod maplist;
mod message;
pub mod protocol;
mod push;
mod requests;
mod results;
mod stat;
mod transfer;

pub use binding::{BindErr, BindResp, SetDom};
pub use maplist::{MapItem, MapList, MapListFault, Names};
pub use message::{Fields, Message, ReadMessage};
pub use push::{PushResp, PushStat};
pub use requests::{ReqDomain, ReqKey, ReqNokey};
pub use results::{AllItem, KeyVal, RespMaster, RespOrder, RespVal};
pub use stat::YpStat;
pub use transfer::{ReqMake, ReqXfr, RespMake, RespXfr, XfrStat};
