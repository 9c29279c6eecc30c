//! Tests of `yp_io`, `yp_memory` and `yp_system`: what is outside, in memory and of the system.
#![tactic(auto)]

#[cfg(test)]
mod given;
#[cfg(test)]
mod memory;
#[cfg(test)]
mod system;
