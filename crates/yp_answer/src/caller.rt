//! Whom a reply is for, and the replies that need no version.

ghost use Rattle.std.specs.Prelude.{◌≡◌, ◌≤◌, length, take};
ghost use Rattle.yp_xdr.specs.Kind.{Boolean};
ghost use Rattle.yp_rpc.specs.Reply.{reply_head};
ghost use Rattle.yp_rpc.specs.Turns.{datagram_max};
ghost use Rattle.yp_answer.specs.Reply.{success};

use crate::procedure::Path;
use yp_io::Peer;
use yp_rpc::{ReplyHead, write_reply};
use yp_xdr::{NoRoom, set_bool};

/// Whom a reply is for: how the call came, its xid, and where the caller is.
#[derive(Clone, Copy)]
pub struct Caller {
    pub path: Path,
    pub xid: u32,
    pub peer: Peer,
}

/// Puts the head of a reply at the front of the buffer, and answers its length.
pub fn put_head(buf: &mut [u8], xid: u32, head: &ReplyHead) -> usize
    requires { datagram_max ≤ length buf.old }
    ensures head { take result buf.new ≡ reply_head xid head.now }
    ensures short { result ≤ 32 }
{
    match write_reply(buf, xid, head) {
        Ok(len) => len,
        Err(NoRoom) => unreachable!(),
    }
}

/// Puts a reply with one truth value at the front of the buffer, and answers its length.
pub fn put_truth(buf: &mut [u8], xid: u32, truth: bool) -> usize
    requires { datagram_max ≤ length buf.old }
    ensures reply { take result buf.new ≡ success xid Boolean truth }
    ensures within { result ≤ length buf.new }
{
    let at = put_head(buf, xid, &ReplyHead::Success);
    set_bool(buf, at, truth)
}
