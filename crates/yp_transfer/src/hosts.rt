//! A table of hosts.

ghost use Rattle.std.specs.Prelude.{◌≡◌, [], ◌∷◌, ◌++◌, OnOk, OnErr};
ghost use Rattle.yp_transfer.specs.HostTable.{find};

use std::alloc::Global;
use std::marker::Model;
use yp_io::{NoMemory, Peer};

/// A host and its address.
#[derive(Debug, Drop)]
struct Host {
    name: Vec<u8>,
    peer: Peer,
}

/// The addresses of hosts by their names. It is seen as a list, in the order in which they were added.
#[derive(Debug, Drop)]
pub struct Hosts {
    hosts: Vec<Host>,
}

impl Model for Hosts {
    ghost use Rattle.std.specs.Prelude.{map};
    ghost use Rattle.yp_transfer.specs.HostTable.{HostList, host_view};

    ghost Value = { HostList };

    ghost view = { λ h. map host_view h.hosts.items };
}

impl Hosts {
    /// No hosts.
    pub fn new(alloc: Global) -> Hosts
        ensures { result ≡ [] }
    {
        Hosts {
            hosts: Vec::new(alloc),
        }
    }

    /// Adds a host behind the others. Where memory runs out the table stays as it is.
    pub fn add(&mut self, name: Vec<u8>, peer: Peer) -> Result<(), NoMemory>
        ensures added { OnOk result (self.new ≡ self.old ++ (name.items, peer) ∷ []) }
        ensures same { OnErr result (self.new ≡ self.old) }
    {
        match self.hosts.push(Host { name, peer }) {
            Ok(()) => Ok(()),
            Err(_) => Err(NoMemory),
        }
    }

    /// The address of the first host of this name.
    pub fn find(&self, name: &[u8]) -> Option<Peer>
        ensures { result ≡ find name.now self.now }
    {
        for host in &self.hosts {
            if host.name.as_slice() == name {
                return Some(host.peer);
            }
        }
        None
    }
}
