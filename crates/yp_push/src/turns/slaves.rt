//! The slaves of a push.

ghost use Rattle.std.specs.Prelude.{◌≡◌, ◌++◌, [], ◌∷◌, map, IfOk, OnOk};
ghost use Rattle.yp_transfer.specs.HostTable.{find};
ghost use Rattle.yp_push.specs.inside.turns.Kept.{slave_view};
ghost use Rattle.yp_push.specs.turns.Slaves.{slaves_of};

use crate::turns::pusher::Slave;
use std::alloc::{AllocError, Global};
use yp_io::NoMemory;
use yp_transfer::Hosts;
use yp_version::Version;

/// A slave of this name, with its address, where the table has it.
fn slave_of(alloc: Global, name: &[u8], hosts: &Hosts) -> Result<Slave, AllocError>
    ensures { IfOk result (λ slave. slave_view slave ≡ (name.now, find name.now hosts.now)) }
{
    Ok(Slave {
        name: Vec::from_slice(alloc, name)?,
        peer: hosts.find(name),
    })
}

/// Adds a slave of this name behind the others.
fn add_slave(
    alloc: Global,
    slaves: &mut Vec<Slave>,
    name: &[u8],
    hosts: &Hosts,
) -> Result<(), AllocError>
    ensures { OnOk result (map slave_view slaves.new.items
        ≡ map slave_view slaves.old.items ++ (name.now, find name.now hosts.now) ∷ []) }
{
    let slave = slave_of(alloc, name, hosts)?;
    Ok(slaves.push(slave)?)
}

/// The slaves that a map of servers names: its keys but the own name, in rising order, each with its address, where
/// the table has it.
pub fn slaves_of(
    alloc: Global,
    servers: &Version,
    own: &[u8],
    hosts: &Hosts,
) -> Result<Vec<Slave>, NoMemory>
    ensures { IfOk result (λ slaves.
        map slave_view slaves.items ≡ slaves_of own.now hosts.now servers.now.rows) }
{
    let mut slaves = Vec::new(alloc);
    for i in 0..servers.len() {
        let Some((name, _)) = servers.row(i) else {
            unreachable!()
        };
        if name == own {
            continue;
        }
        let Ok(()) = add_slave(alloc, &mut slaves, name, hosts) else {
            return Err(NoMemory);
        };
    }
    Ok(slaves)
}
