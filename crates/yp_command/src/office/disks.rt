//! The disks of maps, each with its map's name.

ghost use Rattle.std.specs.Prelude.{◌≡◌, ◌≤◌, [], map, length, vec_capacity, IfOk, OnOk, OnErr};
ghost use Rattle.yp_board.specs.Catalogues.{name_view};
ghost use Rattle.yp_command.specs.office.Disks.{names_of, disks_of};

use std::alloc::{AllocError, Global};
use yp_board::MapName;
use yp_io::NoMemory;

/// The disk of a map.
#[derive(Debug, Drop)]
pub struct NamedDisk<D> {
    /// The map.
    pub name: MapName,
    /// Where its file lies.
    pub disk: D,
}

/// The disks of these maps, as they are made for each.
pub fn named_disks<D: Drop, F: FnMut(&MapName) -> Result<D, AllocError>>(
    alloc: Global,
    names: Vec<MapName>,
    mut make: F,
) -> Result<Vec<NamedDisk<D>>, AllocError>
    requires { F.IsAlwaysCallable make }
    ensures { IfOk result (λ disks. names_of disks.items ≡ map name_view names.items) }
{
    let mut disks = Vec::new(alloc);
    for name in names {
        let disk = make(&name)?;
        disks.push(NamedDisk { name, disk })?;
    }
    Ok(disks)
}

/// The names of maps, and their disks, in the same order.
pub struct Apart<D> {
    pub names: Vec<MapName>,
    pub disks: Vec<D>,
}

/// Takes disks from their names. Their room stays. After a refusal nothing has changed.
pub fn take_apart<D>(alloc: Global, named: &mut Vec<NamedDisk<D>>) -> Result<Apart<D>, NoMemory>
    ensures names { IfOk result (λ apart. map name_view apart.names.items ≡ names_of named.old.items) }
    ensures disks { IfOk result (λ apart. apart.disks.items ≡ disks_of named.old.items) }
    ensures empty { OnOk result (named.new.items ≡ []) }
    ensures room { OnOk result (length named.old.items ≤ vec_capacity named.new) }
    ensures err { OnErr result (named.new ≡ named.old) }
{
    let Ok(mut names) = Vec::with_capacity(alloc, named.len()) else {
        return Err(NoMemory);
    };
    let Ok(mut disks) = Vec::with_capacity(alloc, named.len()) else {
        return Err(NoMemory);
    };
    while let Some(NamedDisk { name, disk }) = named.pop() {
        names.push_reserved(name);
        disks.push_reserved(disk);
    }
    names.reverse();
    disks.reverse();
    Ok(Apart { names, disks })
}

/// Puts disks back to their names.
pub fn put_together<D>(named: &mut Vec<NamedDisk<D>>, apart: Apart<D>)
    requires empty { named.old.items ≡ [] }
    requires room { length apart.names.items ≤ vec_capacity named.old }
    requires count { length apart.disks.items ≡ length apart.names.items }
    ensures names { names_of named.new.items ≡ map name_view apart.names.items }
    ensures disks { disks_of named.new.items ≡ apart.disks.items }
{
    let Apart {
        mut names,
        mut disks,
    } = apart;
    names.reverse();
    disks.reverse();
    while let Some(disk) = disks.pop() {
        match names.pop() {
            Some(name) => named.push_reserved(NamedDisk { name, disk }),
            None => unreachable!(),
        }
    }
    disks.destroy_empty();
}
