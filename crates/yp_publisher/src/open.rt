//! A publisher, opened over the disks of its maps.

ghost use Rattle.std.specs.Prelude.{◌≡◌, length, IfOk, IfErr};
ghost use Rattle.std.specs.List.{AllZip};
ghost use Rattle.yp_board.specs.Logs.{starts};
ghost use Rattle.yp_publisher.specs.Standing.{versions};
ghost use Rattle.yp_publisher.specs.Begins.{plain_log, IsUnwritten, IsUnopened};
ghost use Rattle.yp_publisher.specs.inside.Begins.{open_fault, BeginsLevel};
ghost use Rattle.yp_publisher.specs.Rising.{publisher_state};
ghost use Rattle.yp_publisher.specs.inside.Rising.{IsStart};

use crate::laws::{beginning_is_start, starts_are_shown};
use crate::loaded::{Loaded, StartRefused, load_all};
use crate::publisher::Publisher;
use std::alloc::Global;
use std::random::RandomSource;
use yp_board::{Catalog, PlainBoard};
use yp_io::{Disk, NoMemory};
use yp_map_file::SlotFault;

/// Why no publisher was opened.
#[derive(Clone, Copy, Debug, PartialEq, Eq)]
pub enum OpenFault {
    /// The file of this map, by its number from 0, is the first that isn't loaded. The fault isn't want of memory.
    Refused { map: u32, fault: SlotFault },

    /// Memory ran out.
    NoMemory,
}

/// No publisher was opened. All disks are handed back, in their order, and nothing was written.
#[derive(Debug, Drop)]
pub struct OpenRefused<D> {
    pub disks: Vec<D>,
    pub fault: OpenFault,
}

/// Opens a publisher over the disks of the maps of a catalogue, in their order: loads the file of each, and shows what
/// it stands for on a plain board.
pub fn open_publisher<D: Disk>(
    alloc: Global,
    rt: &impl RandomSource,
    catalog: Catalog,
    disks: Vec<D>,
) -> Result<Publisher<D, PlainBoard>, OpenRefused<D>>
    requires { length disks.items ≡ length catalog.maps }
    ensures begun { IfOk result (BeginsLevel D.history D.faults catalog disks.items) }

    // From here on the log rises.
    ensures start { IfOk result (λ publisher. IsStart (publisher_state plain_log publisher)) }

    // What a refusal leaves.
    ensures refused { IfErr result (λ refused.
        IsUnopened D.history D.faults refused.fault disks.items refused.disks.items) }
    ensures unwritten { IfErr result (λ refused.
        AllZip (IsUnwritten D.history D.faults) disks.items refused.disks.items) }
{
    // A catalogue has at most 64 maps.
    prove!(disks.len() <= catalog.len() as usize);
    let loaded = match load_all(alloc, rt, disks) {
        Ok(loaded) => loaded,
        Err(StartRefused { disks, map, fault }) => {
            return Err(OpenRefused {
                disks,
                fault: open_fault(map, fault),
            });
        }
    };
    match board_of(alloc, &catalog, &loaded) {
        Ok(board) => {
            starts_are_shown();
            beginning_is_start();
            Ok(Publisher::new(loaded, catalog, board))
        }
        Err(NoMemory) => Err(OpenRefused {
            disks: loaded.into_disks(),
            fault: OpenFault::NoMemory,
        }),
    }
}

/// Why no publisher is opened where a disk isn't loaded.
fn open_fault(map: u32, fault: SlotFault) -> OpenFault
    ensures { result ≡ open_fault map fault }
{
    match fault {
        SlotFault::NoMemory => OpenFault::NoMemory,
        _ => OpenFault::Refused { map, fault },
    }
}

/// A plain board that shows what was loaded.
fn board_of<D: Disk>(
    alloc: Global,
    catalog: &Catalog,
    loaded: &Loaded<D>,
) -> Result<PlainBoard, NoMemory>
    requires { length loaded.now ≡ length catalog.now.maps }
    ensures { IfOk result (λ board. board
        ≡ record { catalogue = catalog.now; known = starts 0 (versions loaded.now); asked = 0 }) }
{
    let shown = loaded.shown(alloc)?;
    PlainBoard::new(alloc, catalog.copy(alloc)?, shown)
}
