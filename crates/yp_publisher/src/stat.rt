//! The status that a caller is told of a fault: the one table of them.

ghost use Rattle.std.specs.Prelude.{◌≡◌};
ghost use Rattle.yp_publisher.specs.Stats.{slot_stat, install_stat, share_stat};

use crate::InstallFault;
use crate::sharing::ShareFault;
use yp_map_file::SlotFault;
use yp_messages::XfrStat;

/// The status of a file that isn't opened: FILE, or RSRC for want of memory.
pub fn slot_stat(fault: SlotFault) -> XfrStat
    ensures { result ≡ slot_stat fault }
{
    match fault {
        SlotFault::NoMemory => XfrStat::Rsrc,
        SlotFault::DiskFault => XfrStat::File,
        SlotFault::Damaged { .. } => XfrStat::File,
    }
}

impl InstallFault {
    /// The status of a version that isn't installed: REFUSED or AGE where it doesn't follow what is shown, FILE, or RSRC
    /// for want of memory.
    pub fn stat(&self) -> XfrStat
        ensures { result ≡ install_stat self.now }
    {
        match self {
            InstallFault::Behind => XfrStat::File,
            InstallFault::Refused { .. } => XfrStat::Refused,
            InstallFault::Age { .. } => XfrStat::Age,
            InstallFault::GenerationsSpent => XfrStat::File,
            InstallFault::DiskFault => XfrStat::File,
            InstallFault::NoMemory => XfrStat::Rsrc,
        }
    }
}

impl ShareFault {
    /// The status of a version that isn't installed, or isn't known to the reader.
    pub fn stat(&self) -> XfrStat
        ensures { result ≡ share_stat self.now }
    {
        match self {
            ShareFault::Shut(fault) => slot_stat(*fault),
            ShareFault::Unfit(fault) => fault.stat(),
            ShareFault::Untold => XfrStat::Rsrc,
        }
    }
}
