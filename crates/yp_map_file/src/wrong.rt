//! Why a body can't be read.

use yp_io::NoMemory;
use yp_xdr::XdrFault;

/// The first thing that is wrong in a body.
#[derive(Clone, Copy, Debug, PartialEq, Eq)]
pub(crate) struct Wrong {
    /// Its place, counted from the body's first byte.
    pub at: usize,
    /// The rule of the format that it breaks.
    pub rule: u8,
}

impl From<XdrFault> for Wrong {
    ghost use Rattle.std.specs.Prelude.{◌≡◌};
    ghost use Rattle.yp_xdr.specs.Faults.{fault_place};

    ghost from_gives = { λ fault wrong. wrong ≡ record { at = fault_place fault; rule = 5 } };

    fn from(fault: XdrFault) -> Self {
        Wrong {
            at: fault.place(),
            rule: 5,
        }
    }
}

/// Why there is no version of a body.
#[derive(Clone, Copy)]
pub(crate) enum BodyFault {
    /// It is wrong.
    Wrong(Wrong),
    /// Memory ran out.
    NoMemory,
}

impl From<Wrong> for BodyFault {
    ghost use Rattle.std.specs.Prelude.{◌≡◌};
    ghost use Rattle.yp_map_file.specs.declared.wrong.BodyFault.TheVariants.{Wrong};

    ghost from_gives = { λ wrong fault. fault ≡ Wrong wrong };

    fn from(wrong: Wrong) -> Self {
        BodyFault::Wrong(wrong)
    }
}

impl From<NoMemory> for BodyFault {
    ghost use Rattle.std.specs.Prelude.{◌≡◌};
    ghost use Rattle.yp_map_file.specs.declared.wrong.BodyFault.TheVariants.{NoMemory};

    ghost from_gives = { λ _ fault. fault ≡ NoMemory };

    fn from(_: NoMemory) -> Self {
        BodyFault::NoMemory
    }
}
