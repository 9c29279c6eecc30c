//! Tests of `yp_worker` and `yp_worker::datagrams`: connections and datagrams that are served, by one worker and by two.
#![tactic(auto)]

#[cfg(test)]
mod gate;
#[cfg(test)]
mod given;
#[cfg(test)]
mod host;
#[cfg(test)]
mod mail;
#[cfg(test)]
mod many;
#[cfg(test)]
mod one;
#[cfg(test)]
mod reader;
#[cfg(test)]
mod run;
#[cfg(test)]
mod shared;
