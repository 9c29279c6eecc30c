//! The head of a reply (RFC 5531 section 9).

ghost use Rattle.std.specs.Prelude.{◌≡◌, ◌≤◌, length, IfOk};
ghost use Rattle.yp_xdr.specs.inside.Reading.{ReadsAs, Reads, end_of};
ghost use Rattle.yp_xdr.specs.inside.Writing.{Writes};
ghost use Rattle.yp_xdr.specs.inside.Cursor.{unread};
ghost use Rattle.yp_rpc.specs.Reply.{words, accepted, reply_head};
ghost use Rattle.yp_rpc.specs.Read.{reply_kind, versions_kind, accepted_read, denied_read, reply_at};
ghost use Rattle.yp_rpc.specs.inside.Read.{reply_read};

use crate::call::read_auth;
use crate::protocol::{
    AUTH_ERROR, AUTH_NONE, GARBAGE_ARGS, MSG_ACCEPTED, MSG_DENIED, PROC_UNAVAIL, PROG_MISMATCH,
    PROG_UNAVAIL, REPLY, RPC_MISMATCH, SUCCESS, SYSTEM_ERR,
};
use crate::put::put_words;
use yp_xdr::{Cursor, NoRoom, XdrFault};

/// What a reply says before its results.
#[derive(Clone, Copy, Debug, PartialEq, Eq)]
pub enum ReplyHead {
    /// The results follow.
    Success,
    /// The program is unknown.
    ProgUnavail,
    /// The program has these versions.
    ProgMismatch { low: u32, high: u32 },
    /// The procedure is unknown.
    ProcUnavail,
    /// The arguments can't be read.
    GarbageArgs,
    /// The server has failed.
    SystemErr,
    /// RPC is spoken in these versions.
    RpcMismatch { low: u32, high: u32 },
    /// The credential isn't accepted, for this `auth_stat`.
    AuthError { stat: u32 },
}

/// What was read of a reply.
#[derive(Clone, Copy, Debug, PartialEq, Eq)]
pub struct ReplyRead {
    /// The number of the call that is answered.
    pub xid: u32,
    pub head: ReplyHead,
    /// The place of the results in the record, in bytes.
    pub body: usize,
}

/// Writes the head of a reply from the front of the buffer, and answers its length. The verifier is `AUTH_NONE`.
pub fn write_reply(buf: &mut [u8], xid: u32, head: &ReplyHead) -> Result<usize, NoRoom>
    ensures { Writes (reply_head xid head.now) 0 result buf.old buf.new }
{
    match *head {
        ReplyHead::Success => put_accepted(buf, xid, SUCCESS),
        ReplyHead::ProgUnavail => put_accepted(buf, xid, PROG_UNAVAIL),
        ReplyHead::ProgMismatch { low, high } => put_words(
            buf,
            &[
                xid,
                REPLY,
                MSG_ACCEPTED,
                AUTH_NONE,
                0,
                PROG_MISMATCH,
                low,
                high,
            ],
        ),
        ReplyHead::ProcUnavail => put_accepted(buf, xid, PROC_UNAVAIL),
        ReplyHead::GarbageArgs => put_accepted(buf, xid, GARBAGE_ARGS),
        ReplyHead::SystemErr => put_accepted(buf, xid, SYSTEM_ERR),
        ReplyHead::RpcMismatch { low, high } => {
            put_words(buf, &[xid, REPLY, MSG_DENIED, RPC_MISMATCH, low, high])
        }
        ReplyHead::AuthError { stat } => put_words(
            buf,
            &[xid, REPLY, MSG_DENIED, AUTH_ERROR, stat],
        ),
    }
}

/// The words of a reply to a call that was accepted.
fn put_accepted(buf: &mut [u8], xid: u32, stat: u32) -> Result<usize, NoRoom>
    ensures { Writes (words (accepted xid stat)) 0 result buf.old buf.new }
{
    put_words(buf, &[xid, REPLY, MSG_ACCEPTED, AUTH_NONE, 0, stat])
}

/// The words in front of each message that is a reply.
#[derive(Clone, Copy)]
struct Front {
    xid: u32,
    message_type: i32,
    stat: i32,
}

fn read_front(cursor: &mut Cursor<'_>) -> Result<Front, XdrFault>
    ensures read { Reads reply_kind (λ f. (f.xid, (f.message_type, f.stat))) result
        (unread cursor.old) (unread cursor.new) }
    ensures end { end_of (unread cursor.new) ≡ end_of (unread cursor.old) }
{
    let mut ahead = *cursor;
    let xid = ahead.u32()?;
    let message_type = ahead.one_of(&[1])?;
    let stat = ahead.one_of(&[0, 1])?;
    *cursor = ahead;
    Ok(Front {
        xid,
        message_type,
        stat,
    })
}

/// The lowest and the highest version that there are.
#[derive(Clone, Copy)]
struct Versions {
    low: u32,
    high: u32,
}

fn read_versions(cursor: &mut Cursor<'_>) -> Result<Versions, XdrFault>
    ensures read { Reads versions_kind (λ v. (v.low, v.high)) result (unread cursor.old) (unread cursor.new) }
    ensures end { end_of (unread cursor.new) ≡ end_of (unread cursor.old) }
{
    let mut ahead = *cursor;
    let low = ahead.u32()?;
    let high = ahead.u32()?;
    *cursor = ahead;
    Ok(Versions { low, high })
}

/// Reads the rest of the head of an accepted call's reply.
fn read_accepted(cursor: &mut Cursor<'_>) -> Result<ReplyHead, XdrFault>
    ensures read { ReadsAs (accepted_read (unread cursor.old)) (λ h. h) result
        (unread cursor.old) (unread cursor.new) }
    ensures end { end_of (unread cursor.new) ≡ end_of (unread cursor.old) }
{
    let mut ahead = *cursor;
    let _verifier = read_auth(&mut ahead)?;
    let head = match ahead.one_of(&[0, 1, 2, 3, 4, 5])? {
        0 => ReplyHead::Success,
        1 => ReplyHead::ProgUnavail,
        2 => {
            let Versions { low, high } = read_versions(&mut ahead)?;
            ReplyHead::ProgMismatch { low, high }
        }
        3 => ReplyHead::ProcUnavail,
        4 => ReplyHead::GarbageArgs,
        _ => ReplyHead::SystemErr,
    };
    *cursor = ahead;
    Ok(head)
}

/// Reads the rest of the head of a denied call's reply.
fn read_denied(cursor: &mut Cursor<'_>) -> Result<ReplyHead, XdrFault>
    ensures read { ReadsAs (denied_read (unread cursor.old)) (λ h. h) result
        (unread cursor.old) (unread cursor.new) }
    ensures end { end_of (unread cursor.new) ≡ end_of (unread cursor.old) }
{
    let mut ahead = *cursor;
    let head = match ahead.one_of(&[0, 1])? {
        0 => {
            let Versions { low, high } = read_versions(&mut ahead)?;
            ReplyHead::RpcMismatch { low, high }
        }
        _ => ReplyHead::AuthError { stat: ahead.u32()? },
    };
    *cursor = ahead;
    Ok(head)
}

/// Reads the head of a reply, with any verifier, and moves the cursor to its results. It refuses the first item that
/// isn't as it has to be, at its place, and then the cursor hasn't moved.
pub fn read_reply_at(cursor: &mut Cursor<'_>) -> Result<ReplyRead, XdrFault>
    ensures read { ReadsAs (reply_at (unread cursor.old)) (λ r. (r.xid, r.head)) result
        (unread cursor.old) (unread cursor.new) }
    ensures body { IfOk result (λ r. r.body ≡ (unread cursor.new).at) }
    ensures end { end_of (unread cursor.new) ≡ end_of (unread cursor.old) }
{
    let mut ahead = *cursor;
    let front = read_front(&mut ahead)?;
    let head = match front.stat {
        0 => read_accepted(&mut ahead)?,
        _ => read_denied(&mut ahead)?,
    };
    *cursor = ahead;
    Ok(ReplyRead {
        xid: front.xid,
        head,
        body: cursor.at(),
    })
}

/// Reads the head of a reply, as [`read_reply_at`] does. It takes the bytes of the record without the heads of its
/// fragments, and places are places in the record.
pub fn read_reply(bytes: &[u8]) -> Result<ReplyRead, XdrFault>
    ensures read { result ≡ reply_read bytes.now }
    ensures body { IfOk result (λ r. r.body ≤ length bytes.now) }
{
    let mut cursor = Cursor::new(bytes);
    let read = read_reply_at(&mut cursor)?;
    Ok(ReplyRead {
        body: cursor.at(),
        ..read
    })
}
