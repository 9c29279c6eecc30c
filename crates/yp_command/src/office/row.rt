//! The status of a row that is refused.

ghost use Rattle.std.specs.Prelude.{◌≡◌};
ghost use Rattle.yp_command.specs.office.Rows.{row_status};

use crate::office::status::Status;
use yp_version::VersionFault;

/// The rule of a row whose key is too long.
pub const KEY_RULE: u8 = 1;

/// The rule of a row whose value is too long.
pub const VALUE_RULE: u8 = 2;

/// The rule of a row before which there are as many as a version may have.
pub const ROWS_RULE: u8 = 3;

/// The rule of a row with which the rows of a version have too many bytes.
pub const BYTES_RULE: u8 = 4;

/// The status of a row that a version can't have, by its number.
pub fn status_of_row(row: u32, fault: VersionFault) -> Status
    ensures { result ≡ row_status row fault }
{
    let rule = match fault {
        VersionFault::KeyLong { .. } => KEY_RULE,
        VersionFault::ValueLong { .. } => VALUE_RULE,
        VersionFault::TooManyRows => ROWS_RULE,
        VersionFault::TooBig => BYTES_RULE,
        VersionFault::NoMemory => return Status::NoMemory,
    };
    Status::Rows { row, rule }
}
