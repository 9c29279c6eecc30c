//! What a push finds in the files of its map and of the servers of the domain.

ghost use Rattle.std.specs.Prelude.{◌≡◌, ◌⊎◌, ◌≤◌, ◌∷◌, [], true, false, IfOk, IsErrOf};
ghost use Rattle.yp_io.specs.Counts.{HasRisen};
ghost use Rattle.yp_board.specs.Catalogues.{name_view};
ghost use Rattle.yp_command.specs.Words.{ypservers_of, is_ypservers, with_ypservers};
ghost use Rattle.yp_command.specs.inside.Words.{IsNamed};
ghost use Rattle.yp_command.specs.office.Disks.{names_of, faults_of, told_at, IsOnlyRead};
ghost use Rattle.yp_command.specs.inside.office.Status.{IsTellable};
ghost use Rattle.yp_command_mail.specs.Finding.{LoadsFrom, LoadsMaps, judged, found_alone, found_both, which_of};
ghost use Rattle.yp_command_mail.specs.Finding.{StopsPush};

use std::alloc::{AllocError, Global};
use std::random::RandomSource;
use yp_board::MapName;
use yp_command::office::{NamedDisk, Status, status_of_file};
use yp_command::{is_ypservers, ypservers_of};
use yp_io::Disk;
use yp_map_file::{Slot, SlotFault};
use yp_version::{Order, Version};

/// What was loaded of the two files.
#[derive(Drop)]
pub struct LoadedFiles {
    /// That of the map.
    pub file: Result<Option<Version>, SlotFault>,
    /// That of the servers, where it is another one.
    pub servers: Option<Result<Option<Version>, SlotFault>>,
}

/// What a push is made of.
#[derive(Drop)]
pub struct Found {
    /// The order of the map's version.
    pub order: Order,
    /// The version of the map of servers.
    pub servers: Version,
}

/// One of the two maps.
#[derive(Clone, Copy, Debug, PartialEq, Eq)]
pub enum Which {
    Store,
    Servers,
}

/// Why nothing is pushed.
#[derive(Clone, Copy, Debug, PartialEq, Eq)]
pub enum PushStop {
    /// The file of this map wasn't loaded.
    Unloaded { which: Which, fault: SlotFault },
    /// This map has no version.
    NoVersion { which: Which },
}

/// Loads the file of a disk, which it hands back. It writes nothing.
fn load_disk<D: Disk>(
    alloc: Global,
    rt: &impl RandomSource,
    disk: D,
) -> (Result<Option<Version>, SlotFault>, D)
    ensures loads { LoadsFrom (D.history disk) result.0 }
    ensures only_read { IsOnlyRead (D.history disk) (D.history result.1) }
    ensures never_falls { D.faults disk ≤ D.faults result.1 }
    ensures cause { IsErrOf result.0 SlotFault.DiskFault → HasRisen (D.faults disk) (D.faults result.1) }
{
    let mut slot = Slot::new(disk);
    let loaded = slot.load(alloc, rt);
    (loaded, slot.into_disk())
}

/// Loads the file of the only disk.
fn load_one<D: Disk>(
    alloc: Global,
    rt: &impl RandomSource,
    store: &MapName,
    disks: &mut Vec<NamedDisk<D>>,
) -> LoadedFiles
    requires same { is_ypservers (name_view store.now) ≡ true }
    requires only { names_of disks.old.items ≡ name_view store.now ∷ [] }
    ensures { LoadsMaps D.history D.faults (name_view store.now) result disks.old.items disks.new.items }
{
    let Some(NamedDisk { name, disk }) = disks.pop() else {
        unreachable!()
    };
    let (file, disk) = load_disk(alloc, rt, disk);
    disks.push_reserved(NamedDisk { name, disk });
    LoadedFiles {
        file,
        servers: None,
    }
}

/// Loads the files of two disks.
fn load_two<D: Disk>(
    alloc: Global,
    rt: &impl RandomSource,
    store: &MapName,
    disks: &mut Vec<NamedDisk<D>>,
) -> LoadedFiles
    requires other { is_ypservers (name_view store.now) ≡ false }
    requires both { names_of disks.old.items ≡ name_view store.now ∷ ypservers_of (name_view store.now) ∷ [] }
    ensures { LoadsMaps D.history D.faults (name_view store.now) result disks.old.items disks.new.items }
{
    let Some(second) = disks.pop() else {
        unreachable!()
    };
    let Some(first) = disks.pop() else {
        unreachable!()
    };
    let (file, disk) = load_disk(alloc, rt, first.disk);
    disks.push_reserved(NamedDisk {
        name: first.name,
        disk,
    });
    let (servers, disk) = load_disk(alloc, rt, second.disk);
    disks.push_reserved(NamedDisk {
        name: second.name,
        disk,
    });
    LoadedFiles {
        file,
        servers: Some(servers),
    }
}

/// Loads the file of a map, and that of the servers of its domain, unless it is the same.
pub(crate) fn load_maps<D: Disk>(
    alloc: Global,
    rt: &impl RandomSource,
    store: &MapName,
    disks: &mut Vec<NamedDisk<D>>,
) -> LoadedFiles
    requires { names_of disks.old.items ≡ with_ypservers (name_view store.now) }
    ensures { LoadsMaps D.history D.faults (name_view store.now) result disks.old.items disks.new.items }
{
    if is_ypservers(store) {
        load_one(alloc, rt, store, disks)
    } else {
        load_two(alloc, rt, store, disks)
    }
}

/// What is found of a version of a map that is also that of the servers.
fn find_alone(last: Option<Version>) -> Result<Found, PushStop>
    ensures { result ≡ found_alone last }
{
    match last {
        None => Err(PushStop::NoVersion {
            which: Which::Store,
        }),
        Some(version) => Ok(Found {
            order: version.order(),
            servers: version,
        }),
    }
}

/// What is found of the versions of both maps.
fn find_both(last: Option<Version>, servers: Option<Version>) -> Result<Found, PushStop>
    ensures { result ≡ found_both last servers }
{
    let Some(version) = last else {
        return Err(PushStop::NoVersion {
            which: Which::Store,
        });
    };
    let Some(servers) = servers else {
        return Err(PushStop::NoVersion {
            which: Which::Servers,
        });
    };
    Ok(Found {
        order: version.order(),
        servers,
    })
}

/// What is found in the two files, or the first reason why nothing is.
pub(crate) fn judge(loaded: LoadedFiles) -> Result<Found, PushStop>
    ensures { result ≡ judged loaded.file loaded.servers }
{
    let LoadedFiles { file, servers } = loaded;
    let last = match file {
        Ok(last) => last,
        Err(fault) => return Err(PushStop::Unloaded {
            which: Which::Store,
            fault,
        }),
    };
    match servers {
        None => find_alone(last),
        Some(Ok(servers)) => find_both(last, servers),
        Some(Err(fault)) => Err(PushStop::Unloaded {
            which: Which::Servers,
            fault,
        }),
    }
}

/// The name of one of the two maps.
fn name_of(alloc: Global, store: MapName, which: Which) -> Result<MapName, AllocError>
    ensures { IfOk result (λ map. name_view map ≡ which_of (name_view store) which) }
{
    match which {
        Which::Store => Ok(store),
        Which::Servers => ypservers_of(alloc, &store),
    }
}

/// The status of a reason why nothing is pushed, unless memory runs out for the name.
pub(crate) fn status_of_stop(alloc: Global, store: MapName, stop: PushStop) -> Status
    requires { IsNamed (name_view store) }
    ensures stops { StopsPush (name_view store) stop result ⊎ (result ≡ Status.NoMemory) }
    ensures tellable { IsTellable result }
{
    match stop {
        PushStop::Unloaded { which, fault } => match name_of(alloc, store, which) {
            Ok(map) => status_of_file(map, fault),
            Err(_) => Status::NoMemory,
        },
        PushStop::NoVersion { which } => match name_of(alloc, store, which) {
            Ok(map) => Status::NoVersion { map },
            Err(_) => Status::NoMemory,
        },
    }
}
