//! Why bytes can't be read or written.

ghost use Rattle.std.specs.Prelude.{◌≡◌};
ghost use Rattle.yp_xdr.specs.Faults.{fault_place};

use thiserror::Error;

/// The first item that is refused. Places count bytes from the first one that the cursor was given.
#[derive(Clone, Copy, Debug, PartialEq, Eq, Error)]
pub enum XdrFault {
    /// The item that begins at this place isn't whole.
    #[error("short item at {at}")]
    Short { at: usize },

    /// The length word at this place is over the limit.
    #[error("length {len} at {at} is over the limit")]
    TooLong { at: usize, len: u32 },

    /// The padding byte at this place isn't zero.
    #[error("padding at {at} is not zero")]
    Pad { at: usize },

    /// The word at this place is neither FALSE nor TRUE.
    #[error("no boolean at {at}")]
    BadBool { at: usize },

    /// The number at this place isn't one of its enum's.
    #[error("no number of the enum at {at}")]
    BadEnum { at: usize },
}

impl XdrFault {
    /// The place of the item.
    pub fn place(self) -> usize
        ensures { result ≡ fault_place self }
    {
        match self {
            XdrFault::Short { at } => at,
            XdrFault::TooLong { at, .. } => at,
            XdrFault::Pad { at } => at,
            XdrFault::BadBool { at } => at,
            XdrFault::BadEnum { at } => at,
        }
    }
}

/// What was to be written doesn't fit into the buffer.
#[derive(Clone, Copy, Debug, PartialEq, Eq)]
pub struct NoRoom;
