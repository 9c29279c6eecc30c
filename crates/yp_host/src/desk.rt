//! What a host needs from outside to make maps and to fetch them.

use yp_transfer::Hosts;

/// The texts that maps are made of, the clock that their orders follow, and what opens connections to the hosts that
/// maps are fetched from, with their addresses.
#[derive(Drop)]
pub struct Desk<A, T, C> {
    pub dial: A,
    pub texts: T,
    pub clock: C,
    pub hosts: Hosts,
}
