//! Tests of `yp_client`, `yp_client::query`, `yp_client::orders`, `yp_transfer`, `yp_transfer::walk`,
//! `yp_end_to_end::exchange` and `yp_end_to_end::transfer`: clients, clients that ask servers, and maps that are
//! fetched.
#![tactic(auto)]

#[cfg(test)]
mod client;
#[cfg(test)]
mod exchange;
#[cfg(test)]
mod given;
#[cfg(test)]
mod transfer;
