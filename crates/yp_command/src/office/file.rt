//! The status of a stored file that can't be loaded.

ghost use Rattle.std.specs.Prelude.{◌<◌, All, length, map};
ghost use Rattle.yp_board.specs.Catalogues.{name_view};
ghost use Rattle.yp_command.specs.inside.Words.{IsNamed};
ghost use Rattle.yp_command.specs.inside.office.Status.{IsTellable};
ghost use Rattle.yp_command.specs.office.Files.{Fails};
ghost use Rattle.yp_command.specs.inside.office.Files.{TellsOf};

use crate::office::status::Status;
use std::alloc::{AllocError, Global};
use yp_board::MapName;
use yp_map_file::SlotFault;

/// The status of a map whose file can't be loaded.
pub fn status_of_file(map: MapName, fault: SlotFault) -> Status
    requires { IsNamed (name_view map) }
    ensures fails { Fails (name_view map) fault result }
    ensures tellable { IsTellable result }
{
    match fault {
        SlotFault::Damaged { at, rule } => Status::Damaged { map, at, rule },
        SlotFault::DiskFault => Status::DiskFault { map },
        SlotFault::NoMemory => Status::NoMemory,
    }
}

/// The status of a map whose file wasn't loaded, by its number. Memory may run out for its name.
pub fn status_of_map(alloc: Global, names: &[MapName], number: u32, fault: SlotFault) -> Status
    requires number { number < length names.now }
    requires named { All IsNamed (map name_view names.now) }
    ensures tells { TellsOf (map name_view names.now) number fault result }
    ensures tellable { IsTellable result }
{
    match names[number as usize].copy(alloc) {
        Ok(store) => status_of_file(store, fault),
        Err(AllocError) => Status::NoMemory,
    }
}
