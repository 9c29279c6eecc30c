//! Words that are written one behind the other, as the heads of messages are.

ghost use Rattle.std.specs.Prelude.{◌*◌, ◌<◌, ◌^◌, length};
ghost use Rattle.yp_xdr.specs.inside.Writing.{Writes};
ghost use Rattle.yp_rpc.specs.Reply.{words};

use yp_xdr::{NoRoom, set_u32};

/// Writes words one behind the other from the front of the buffer, and answers their length in bytes.
pub(crate) fn put_words(buf: &mut [u8], numbers: &[u32]) -> Result<usize, NoRoom>
    requires { length numbers.now < 2 ^ 32 }
    ensures { Writes (words numbers.now) 0 result buf.old buf.new }
{
    if buf.len() < 4 * numbers.len() {
        return Err(NoRoom);
    }
    let mut at = 0;
    for number in numbers {
        at = set_u32(buf, at, *number);
    }
    Ok(at)
}
