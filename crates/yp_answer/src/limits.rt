//! The limits of calls and of what is sent for them, in bytes.

ghost use Rattle.std.specs.Prelude.{◌≡◌};
ghost use Rattle.yp_answer.specs.Reply.{exceeds};

use crate::procedure::Path;
use yp_rpc::DATAGRAM_MAX;

/// The most bytes of a call's record, and the bytes that a buffer for its reply, or a piece of it, needs.
pub const RECORD_MAX: usize = 262_144;

/// Whether a reply of so many bytes can't go on the path.
pub(crate) fn exceeds(path: Path, len: usize) -> bool
    ensures { result ≡ exceeds path len }
{
    match path {
        Path::Stream => false,
        Path::Datagram => len > DATAGRAM_MAX,
    }
}
