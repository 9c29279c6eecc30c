//! Why a file isn't known.

use crate::wrong::BodyFault;
use std::alloc::AllocError;
use thiserror::Error;
use yp_io::Failed;

/// Why a slot's file can't be loaded.
#[derive(Clone, Copy, Debug, PartialEq, Eq, Error)]
pub enum SlotFault {
    /// The file stands for nothing that was stored: it breaks this rule of the format, first at this place.
    #[error("damaged at {at} by rule {rule}")]
    Damaged { at: u64, rule: u8 },

    /// The disk failed.
    #[error("disk fault")]
    DiskFault,

    /// Memory ran out.
    #[error("out of memory")]
    NoMemory,
}

impl From<Failed> for SlotFault {
    ghost use Rattle.std.specs.Prelude.{◌≡◌};
    ghost use Rattle.yp_map_file.specs.declared.fault.SlotFault.TheVariants.{DiskFault};

    ghost from_gives = { λ _ fault. fault ≡ DiskFault };

    fn from(_: Failed) -> Self {
        SlotFault::DiskFault
    }
}

impl From<AllocError> for SlotFault {
    ghost use Rattle.std.specs.Prelude.{◌≡◌};
    ghost use Rattle.yp_map_file.specs.declared.fault.SlotFault.TheVariants.{NoMemory};

    ghost from_gives = { λ _ fault. fault ≡ NoMemory };

    fn from(_: AllocError) -> Self {
        SlotFault::NoMemory
    }
}

impl SlotFault {
    ghost use Rattle.std.specs.Prelude.{◌≡◌, ◌+◌, ◌^◌, ◌<◌};
    ghost use Rattle.yp_map_file.specs.inside.Loads.{fault_in, FitsIn};

    /// The fault of a file whose body, at this place, can't be read.
    pub(crate) fn in_body(place: u64, fault: BodyFault) -> SlotFault
        requires { FitsIn place fault }
        ensures { result ≡ fault_in place fault }
    {
        match fault {
            BodyFault::Wrong(wrong) => SlotFault::Damaged {
                at: place + wrong.at as u64,
                rule: wrong.rule,
            },
            BodyFault::NoMemory => SlotFault::NoMemory,
        }
    }
}
