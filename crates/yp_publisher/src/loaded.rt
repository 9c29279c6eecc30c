//! Disks, opened at the start.

ghost use Rattle.std.specs.Prelude.{◌≡◌, ◌≤◌, ◌+◌, ◌++◌, ℕ, [], map, length, reverse, vec_len, vec_capacity, IfOk};
ghost use Rattle.std.specs.Prelude.{IfErr, option_map};
ghost use Rattle.std.specs.List.{AllZip};
ghost use Rattle.std.specs.Arc.{arc_value};
ghost use Rattle.yp_publisher.specs.Standing.{Level, OfMap, IsStanding, IsNumbered, versions};
ghost use Rattle.yp_publisher.specs.Opens.{IsOpened, OpeningStopped};

use crate::stored::StoredMap;
use std::alloc::{AllocError, Global};
use std::marker::Model;
use std::random::RandomSource;
use std::sync::Arc;
use yp_io::{Disk, NoMemory};
use yp_map_file::SlotFault;
use yp_version::Version;

/// Disks that were loaded, each with the version that its file stands for. It is seen as the list of their maps.
#[derive(Drop)]
pub struct Loaded<D: Disk> {
    pub(crate) maps: Vec<StoredMap<D>>,
    // Empty, with room for the disks.
    pub(crate) disks: Vec<D>,
}

impl<D: Disk> Model for Loaded<D> {
    ghost use Rattle.std.specs.Prelude.{◌≡◌, ◌≤◌, ℕ, [], List, length, vec_capacity};
    ghost use Rattle.yp_publisher.specs.Standing.{StoredMap, IsStanding, OfMap};

    ghost Value = { List (StoredMap D) };

    ghost view = { λ l. l.maps.items };

    ghost invariant = { λ l. (l.disks.items ≡ []) × (length l.maps.items ≤ vec_capacity l.disks)
        × ((number : ℕ) → OfMap number l.maps.items (IsStanding D.history)) };
}

/// A disk wasn't loaded. All disks are handed back, in their order.
#[derive(Debug, Drop)]
pub struct StartRefused<D> {
    pub disks: Vec<D>,
    /// The number of the first map whose disk was refused, from 0.
    pub map: u32,
    pub fault: SlotFault,
}

/// Loads the disks of maps, in their order, up to the first that is refused.
pub fn load_all<D: Disk>(
    alloc: Global,
    rt: &impl RandomSource,
    disks: Vec<D>,
) -> Result<Loaded<D>, StartRefused<D>>
    requires { length disks.items ≤ 64 }
    ensures loaded { IfOk result (λ loaded. AllZip (IsOpened D.history D.faults) disks.items loaded) }
    ensures refused { IfErr result (λ refused.
        OpeningStopped D.history D.faults disks.items refused.disks.items refused.map refused.fault) }
{
    let mut rest = disks;
    let Ok(mut maps) = Vec::with_capacity(alloc, rest.len()) else {
        return Err(StartRefused {
            disks: rest,
            map: 0,
            fault: SlotFault::NoMemory,
        });
    };
    rest.reverse();
    while let Some(disk) = rest.pop() {
        match StoredMap::load(alloc, rt, disk) {
            Ok(stored) => maps.push_reserved(stored),
            Err((disk, fault)) => {
                rest.push_reserved(disk);
                return Err(StartRefused {
                    map: maps.len() as u32,
                    disks: give_back(rest, maps),
                    fault,
                });
            }
        }
    }
    Ok(Loaded { maps, disks: rest })
}

/// The disks of maps, and those behind them, which stand in reverse and have room for all.
pub(crate) fn give_back<D: Disk>(rest: Vec<D>, maps: Vec<StoredMap<D>>) -> Vec<D>
    requires { length rest.items + length maps.items ≤ vec_capacity rest }
    ensures disks { result.items ≡ map (λ kept. kept.disk) maps.items ++ reverse rest.items }
    ensures standing { (number : ℕ) → OfMap number maps.items (IsStanding D.history) }
    ensures numbered { (number : ℕ) → OfMap number maps.items (IsNumbered D.history) }
{
    let mut disks = rest;
    let mut maps = maps;
    while let Some(stored) = maps.pop() {
        disks.push_reserved(stored.into_disk());
    }
    maps.destroy_empty();
    disks.reverse();
    disks
}

impl<D: Disk> Loaded<D> {
    /// The versions that the files stand for, in the order of their maps.
    pub fn shown(&self, alloc: Global) -> Result<Vec<Option<Arc<Version>>>, NoMemory>
        ensures { IfOk result (λ shown. map (option_map arc_value) shown.items ≡ versions self.now) }
    {
        match shared(alloc, &self.maps) {
            Ok(shown) => Ok(shown),
            Err(_) => Err(NoMemory),
        }
    }

    /// The disks, in the order of their maps. It takes no memory.
    pub fn into_disks(self) -> Vec<D>
        ensures disks { result.items ≡ map (λ kept. kept.disk) self }
        ensures standing { (number : ℕ) → OfMap number self (IsStanding D.history) }
    {
        let Loaded { maps, disks } = self;
        give_back(disks, maps)
    }
}

/// The versions of maps, each with one more owner.
fn shared<D: Disk>(
    alloc: Global,
    maps: &[StoredMap<D>],
) -> Result<Vec<Option<Arc<Version>>>, AllocError>
    ensures { IfOk result (λ shown. map (option_map arc_value) shown.items ≡ versions maps.now) }
{
    let mut shown = Vec::with_capacity(alloc, maps.len())?;
    for stored in maps {
        shown.push(stored.share()?)?;
    }
    Ok(shown)
}
