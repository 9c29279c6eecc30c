//! Why a map isn't reversed.

ghost use Rattle.std.specs.Prelude.{◌≡◌, ◌≤◌};
ghost use Rattle.yp_version.specs.Limits.{rows_max};
ghost use Rattle.yp_netgroup.specs.inside.reverse.Refused.{row_fault};

use yp_io::NoMemory;
use yp_version::VersionFault;

/// Why a map isn't reversed.
#[derive(Clone, Copy, Debug, PartialEq, Eq)]
pub enum RevFault {
    /// The row with this number, from 1 in rising order of the keys, is the first that passes a limit of a version: its
    /// key (rule 1), its value (2), the number of rows (3), or the bytes of the stored body (4).
    Row { number: u32, rule: u8 },

    /// Memory ran out.
    NoMemory,
}

impl From<NoMemory> for RevFault {
    ghost use Rattle.std.specs.Prelude.{◌≡◌};
    ghost use Rattle.yp_netgroup.specs.declared.reverse.fault.RevFault.TheVariants.{NoMemory as WithoutMemory};

    ghost from_gives = { λ _ fault. fault ≡ WithoutMemory };

    fn from(_: NoMemory) -> Self {
        RevFault::NoMemory
    }
}

// The fault of a row, which would have been the one behind so many.
pub(crate) fn fault_of(rows: usize, fault: VersionFault) -> RevFault
    requires { rows ≤ rows_max }
    ensures { result ≡ row_fault rows fault }
{
    let rule = match fault {
        VersionFault::KeyLong { .. } => 1,
        VersionFault::ValueLong { .. } => 2,
        VersionFault::TooManyRows => 3,
        VersionFault::TooBig => 4,
        VersionFault::NoMemory => return RevFault::NoMemory,
    };
    RevFault::Row {
        number: rows as u32 + 1,
        rule,
    }
}
