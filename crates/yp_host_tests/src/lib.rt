//! Tests of `yp_host` and `yp_host::workers`: maps that are made anew and fetched, by one connection and by two workers.
#![tactic(auto)]

#[cfg(test)]
mod connection;
#[cfg(test)]
mod given;
#[cfg(test)]
mod host;
#[cfg(test)]
mod sample;
#[cfg(test)]
mod transfer;
#[cfg(test)]
mod workhost;
