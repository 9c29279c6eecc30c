//! What one end is told is what the other end has.
//!
//! What a client is told is joined in [`exchange`] with what its server has, what is fetched of a map in [`transfer`]
//! with what its source shows, and what a walk gives, whatever the network does, in [`walk`].
#![tactic(auto)]

pub mod exchange;
pub mod transfer;
pub mod walk;
