//! Tests of `yp_board::readers`, `yp_publisher`, `yp_publisher::sharing`, `yp_answer` and `yp_answer::session`: maps
//! that are shown to readers, and stored; and the answers to calls, and sessions of them.
#![tactic(auto)]

#[cfg(test)]
mod answer;
#[cfg(test)]
mod given;
#[cfg(test)]
mod publisher;
#[cfg(test)]
mod readers;
#[cfg(test)]
mod shared;
