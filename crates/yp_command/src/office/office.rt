//! The outside of a command.

use crate::office::disks::NamedDisk;
use yp_io::Pair;

/// What a command reaches outside itself.
#[derive(Drop)]
pub struct Office<S, K, D, C, A, I, T> {
    /// What it reads and writes.
    pub wire: Pair<S, K>,
    /// The disks of the maps that its words name, in their order.
    pub disks: Vec<NamedDisk<D>>,
    /// The clock.
    pub clock: C,
    /// What opens connections to servers.
    pub dial: A,
    /// What receives datagrams at the port that its words name.
    pub inbox: I,
    /// The texts that maps are made of.
    pub texts: T,
}
