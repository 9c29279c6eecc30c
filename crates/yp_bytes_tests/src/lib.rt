//! Tests of `yp_xdr`, `yp_rpc` and `yp_messages`: what is spelled in bytes, and whole records.
#![tactic(auto)]

#[cfg(test)]
mod given;
#[cfg(test)]
mod messages;
#[cfg(test)]
mod rpc;
#[cfg(test)]
mod values;
#[cfg(test)]
mod vectors;
