//! The installing of a fetched version.

ghost use Rattle.std.specs.Prelude.{◌≡◌, ◌<◌, length, option_map};
ghost use Rattle.std.specs.Arc.{arc_value};
ghost use Rattle.yp_publisher.specs.Keeping.{keeping_of};
ghost use Rattle.yp_transfer.specs.Installing.{of_slot, of_install, marking, InstallsFetched};
ghost use Rattle.yp_transfer.specs.inside.Requests.{request_view};

use crate::fault::XfrFault;
use crate::requests::TransferRequest;
use std::alloc::Global;
use std::random::RandomSource;
use std::sync::Arc;
use yp_board::Show;
use yp_io::Disk;
use yp_map_file::SlotFault;
use yp_publisher::{InstallFault, Installed, Origin, Publisher};
use yp_version::Version;

/// Installs the version that was fetched for a transfer, and shows it. A map that is behind is opened again first.
///
/// At each moment a crash leaves a file that stands as the map stood, or for that version.
pub fn install_fetched<D: Disk, B: Show>(
    alloc: Global,
    rt: &impl RandomSource,
    publisher: &mut Publisher<D, B>,
    request: &TransferRequest<'_>,
    version: Version,
) -> Result<Installed, XfrFault>
    requires { request.now.map < length publisher.old.maps }
    ensures { InstallsFetched (keeping_of D.history D.faults B.log) (request_view request.now) version result
        publisher.old publisher.new }
{
    match publisher.reopen(alloc, rt, request.map) {
        Ok(()) => {}
        Err(fault) => return Err(of_slot(fault)),
    }
    let secure = marking(request.mark, publisher.shown(request.map));
    let marked = version.marked(secure);
    match publisher.install(alloc, request.map, marked, Origin::Fetched, request.force) {
        Ok(installed) => Ok(installed),
        Err(fault) => Err(of_install(&fault)),
    }
}

/// Whether a version is secure, by its mark and the version that is shown.
fn marking(mark: Option<bool>, shown: Option<&Arc<Version>>) -> bool
    ensures { result ≡ marking mark (option_map (λ version. arc_value version.now) shown.entry) }
{
    match mark {
        Some(secure) => secure,
        None => match shown {
            Some(version) => version.secure(),
            None => false,
        },
    }
}

/// The fault of a file that isn't opened again.
fn of_slot(fault: SlotFault) -> XfrFault
    ensures { result ≡ of_slot fault }
{
    match fault {
        SlotFault::NoMemory => XfrFault::NoMemory,
        SlotFault::DiskFault => XfrFault::File,
        SlotFault::Damaged { .. } => XfrFault::File,
    }
}

/// The fault of a version that isn't installed.
fn of_install(fault: &InstallFault) -> XfrFault
    ensures { result ≡ of_install fault.now }
{
    match fault {
        InstallFault::Behind => XfrFault::File,
        InstallFault::Refused { .. } => XfrFault::Refused,
        InstallFault::Age { shown, offered } => XfrFault::Age {
            shown: *shown,
            offered: *offered,
        },
        InstallFault::GenerationsSpent => XfrFault::File,
        InstallFault::DiskFault => XfrFault::File,
        InstallFault::NoMemory => XfrFault::NoMemory,
    }
}
