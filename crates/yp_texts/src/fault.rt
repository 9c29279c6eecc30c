//! Why no version can be built.

use crate::order::OrderSpent;
use std::alloc::AllocError;
use thiserror::Error;
use yp_io::NoMemory;

/// Why no version can be built. A line is the first line, counted from 1, that makes a row which is refused for that
/// cause.
#[derive(Clone, Copy, Debug, PartialEq, Eq, Error)]
pub enum BuildFault {
    /// The last order was the greatest that there is.
    #[error("order spent")]
    OrderSpent,

    /// The key is over its limit.
    #[error("key in line {line} is over the limit")]
    KeyLong { line: u32 },

    /// The value is over its limit.
    #[error("value in line {line} is over the limit")]
    ValueLong { line: u32 },

    /// The key is new, and as many rows as a version may have stand.
    #[error("too many rows at line {line}")]
    TooManyRows { line: u32 },

    /// The key is new, and the stored body would be over its limit.
    #[error("the version would be too big at line {line}")]
    TooBig { line: u32 },

    /// Memory ran out.
    #[error("out of memory")]
    NoMemory,
}

impl From<AllocError> for BuildFault {
    ghost use Rattle.std.specs.Prelude.{◌≡◌};
    ghost use Rattle.yp_texts.specs.declared.fault.BuildFault.TheVariants.{NoMemory as WithoutMemory};

    ghost from_gives = { λ _ fault. fault ≡ WithoutMemory };

    fn from(_: AllocError) -> Self {
        BuildFault::NoMemory
    }
}

impl From<NoMemory> for BuildFault {
    ghost use Rattle.std.specs.Prelude.{◌≡◌};
    ghost use Rattle.yp_texts.specs.declared.fault.BuildFault.TheVariants.{NoMemory as WithoutMemory};

    ghost from_gives = { λ _ fault. fault ≡ WithoutMemory };

    fn from(_: NoMemory) -> Self {
        BuildFault::NoMemory
    }
}

impl From<OrderSpent> for BuildFault {
    ghost use Rattle.std.specs.Prelude.{◌≡◌};
    ghost use Rattle.yp_texts.specs.declared.fault.BuildFault.TheVariants.{OrderSpent as Spent};

    ghost from_gives = { λ _ fault. fault ≡ Spent };

    fn from(_: OrderSpent) -> Self {
        BuildFault::OrderSpent
    }
}
