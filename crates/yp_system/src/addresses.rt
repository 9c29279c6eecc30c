//! The addresses of this machine.

use std::alloc::Global;
use std::fs::File;
use std::io;
use std::io::{ErrorKind, Read};
use std::net::Ipv4Addr;
use std::rt::Files;

/// The most addresses that are told.
pub(crate) const ADDRESSES_MAX: usize = 256;

// Where Linux tells of routes. Each address of this machine is the end of one.
const ROUTES: &str = "/proc/net/fib_trie";

// The most bytes of that text that are read: a machine may have the routes of the world.
const ROUTES_MAX: u64 = 1 << 20;

// What stands in front of an address there, and below one that is of this machine.
const ADDRESS_MARK: &str = "|-- ";

const OWN_MARK: &str = "/32 host LOCAL";

// All of 127.0.0.0/8 is of this machine, and told of as a whole. These are the ones that systems give to a machine's
// own name in /etc/hosts.
const OF_NAMES: [[u8; 4]; 2] = [[127, 0, 0, 2], [127, 0, 1, 1]];

// Puts an address behind the others, once, where there is room.
fn add(found: &mut Vec<Ipv4Addr>, address: Ipv4Addr) -> io::Result<()> {
    if found.len() < ADDRESSES_MAX && !found.iter().any(|other| *other == address) {
        found.push(address)?;
    }
    Ok(())
}

// The addresses of this machine among these routes.
fn read_routes(alloc: Global, routes: &str) -> io::Result<Vec<Ipv4Addr>> {
    let mut found = Vec::new(alloc);
    let mut last: Option<Ipv4Addr> = None;
    for line in routes.lines() {
        let line = line.trim();
        if let Some(address) = line.strip_prefix(ADDRESS_MARK) {
            last = address.parse().ok();
        } else if line == OWN_MARK
            && let Some(address) = last
        {
            add(&mut found, address)?;
        }
    }
    Ok(found)
}

/// The addresses of IPv4 that this machine has now, at most so many.
pub(crate) fn own_addresses<R: Files>(alloc: Global, files: &R) -> io::Result<Vec<Ipv4Addr>> {
    let mut bytes = Vec::new(alloc);
    File::open(files, ROUTES)?
        .take(ROUTES_MAX)
        .read_to_end(&mut bytes)?;
    let Ok(routes) = str::from_utf8(&bytes) else {
        return Err(ErrorKind::InvalidData.into());
    };
    let mut found = read_routes(alloc, routes)?;
    for address in OF_NAMES {
        add(&mut found, Ipv4Addr::from(address))?;
    }
    Ok(found)
}
