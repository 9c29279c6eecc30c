//! A map that is fetched from another server and installed.
//!
//! That the version is the one that the source's replies say, or the first cause against it, stands on [`fetch`] and
//! [`fetch_from`]; that it is installed and shown, and what a crash leaves meanwhile, on [`install_fetched`] and
//! [`transfer`]; what is posted of the outcome on [`call_back`] and [`tell_back`]; and both for a caller on
//! [`transfer_for`].
//!
//! [`walk`] fetches a map row by row, from a source that serves datagrams alone.
#![tactic(auto)]

mod calling_back;
mod dialed;
mod fault;
mod fetching;
mod hosts;
mod install;
pub mod laws;
mod requests;
mod transferring;
pub mod walk;

pub use calling_back::{Asker, call_back, tell_back};
pub use dialed::fetch_from;
pub use fault::XfrFault;
pub use fetching::{against_order, begin, fetch};
pub use hosts::Hosts;
pub use install::install_fetched;
pub use requests::{AskedTransfer, FetchRequest, TransferRequest};
pub use transferring::{transfer, transfer_for};
