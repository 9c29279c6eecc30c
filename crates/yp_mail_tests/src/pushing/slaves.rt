//! The slaves that a map of servers names.

use crate::given::assert_same;
use std::alloc::Global;
use std::process::Abort;
use std::random::RandomSource;
use yp_io::Peer;
use yp_push::turns::{Slave, slaves_of};
use yp_transfer::Hosts;
use yp_version::{Order, Version, VersionBuilder};

/// The keys of a map of servers, in the order in which they were pushed.
static SERVERS: [&[u8]; 4] = [b"s2", b"m1", b"s10", b"s1"];

const KNOWN: Peer = Peer {
    addr: [127, 0, 0, 1],
    port: 7_012,
};

fn version<R: RandomSource + Abort>(rt: &R, alloc: Global) -> Version {
    let mut builder = VersionBuilder::new(alloc, rt, Order(1), b"m1").expect(rt, "a builder");
    for name in &SERVERS {
        assert_same(rt, &builder.push(name, b""), &Ok(true), "a new row");
    }
    builder.finish().expect(rt, "a version")
}

/// A table of `s2`, and of a host that is no slave.
fn table<R: Abort>(rt: &R, alloc: Global) -> Hosts {
    let mut hosts = Hosts::new(alloc);
    let name = b"s3".to_vec(alloc).expect(rt, "a name");
    hosts.add(name, KNOWN).expect(rt, "a table");
    let name = b"s2".to_vec(alloc).expect(rt, "a name");
    hosts.add(name, KNOWN).expect(rt, "a table");
    hosts
}

/// The slaves, with `m1` as the own name.
fn slaves_named<R: RandomSource + Abort>(rt: &R, alloc: Global) -> Vec<Slave> {
    let servers = version(rt, alloc);
    let hosts = table(rt, alloc);
    slaves_of(alloc, &servers, b"m1", &hosts).expect(rt, "memory for slaves")
}

/// Whether these are the slaves, in their order.
fn are(slaves: &[Slave], wanted: &[(&[u8], Option<Peer>)]) -> bool {
    if slaves.len() != wanted.len() {
        return false;
    }
    for (slave, other) in slaves.iter().zip(wanted) {
        if slave.name.as_slice() != other.0 || slave.peer != other.1 {
            return false;
        }
    }
    true
}

#[test]
fn servers_but_the_own_host(rt: HostRuntime) {
    let slaves = slaves_named(&rt, rt.alloc());
    let wanted: [(&[u8], Option<Peer>); 3] = [(b"s1", None), (b"s10", None), (b"s2", Some(KNOWN))];
    let came = are(&slaves, &wanted);
    assert_same(&rt, &came, &true, "slaves in rising order");
}
