//! Records in a stream (RFC 5531 section 11).

ghost use Rattle.std.specs.Prelude.{◌≡◌};
ghost use Rattle.yp_rpc.specs.declared.record.RecordFault.TheVariants.{ReadFault};

mod batch;
mod head;
mod incoming;
mod outgoing;
mod reader;
mod writer;

pub use incoming::{First, Incoming};
pub use outgoing::{Outgoing, Payment};
pub use reader::RecordReader;
use thiserror::Error;
pub use writer::RecordWriter;
use yp_io::Failed;

/// The most bytes of a fragment that is written.
pub const FRAGMENT_MAX: usize = 8192;

/// The most fragments that wait to be written at once.
pub const HELD_MAX: usize = 8;

/// The most empty fragments of one record.
pub const EMPTY_MAX: usize = 1024;

/// Why there is no next record. `at` is the place in the stream at which the record began, in bytes, or 2^64 - 1
/// where that place is greater.
#[derive(Clone, Copy, Debug, PartialEq, Eq, Error)]
pub enum RecordFault {
    /// Input ended inside the record.
    #[error("torn record at {at}")]
    Torn { at: u64 },

    /// The heads that were read name more bytes than there is room for, or too many empty fragments.
    #[error("record at {at} is too long")]
    TooLong { at: u64 },

    /// The source failed.
    #[error("read fault")]
    ReadFault,
}

impl From<Failed> for RecordFault {
    ghost from_gives = { λ _ fault. fault ≡ ReadFault };

    fn from(_failed: Failed) -> RecordFault {
        RecordFault::ReadFault
    }
}
