//! What a datagram tells a push, and its reply.

ghost use Rattle.std.specs.Prelude.{◌≡◌, ◌≤◌, length};
ghost use Rattle.yp_rpc.specs.Turns.{datagram_max};
ghost use Rattle.yp_rpc.specs.inside.Turns.{reply_of};
ghost use Rattle.yp_push.specs.turns.Callbacks.{programs, asked_by, procedure_asked, reply_to};
ghost use Rattle.yp_push.specs.inside.turns.Callbacks.{asked_view};
ghost use Rattle.yp_push.specs.turns.Callbacks.{LedgerIsTold};

use crate::Push;
use yp_messages::protocol::{PUSH_NULL, PUSHVERS, XFRRESP};
use yp_messages::{PushResp, ReadMessage};
use yp_rpc::{DATAGRAM_MAX, Judged, Programs, ReplyHead, judge, write_reply};
use yp_xdr::{Cursor, NoRoom};

/// The program that slaves call, of those numbers that are used for a while (RFC 5531 section 8.3).
pub const PROGRAM: u32 = 0x4000_0000;

/// A procedure of the program that slaves call.
#[derive(Clone, Copy, Debug)]
enum Procedure {
    Null,
    Xfrresp,
}

/// The program that slaves call, alone.
struct PushProgram;

impl Programs for PushProgram {
    type Procedure = Procedure;

    ghost table = { λ _. programs };

    fn version(&self, prog: u32) -> Option<u32> {
        match prog {
            PROGRAM => Some(PUSHVERS),
            _ => None,
        }
    }

    fn procedure(&self, _prog: u32, number: u32) -> Option<Procedure> {
        match number {
            PUSH_NULL => Some(Procedure::Null),
            XFRRESP => Some(Procedure::Xfrresp),
            _ => None,
        }
    }
}

/// What a datagram tells a push.
#[derive(Clone, Copy, Debug)]
pub enum Callback {
    /// Nothing that is answered.
    Nothing,
    /// A reply of this head alone.
    Answer { xid: u32, head: ReplyHead },
    /// How the transfer of a transaction went.
    Told { xid: u32, told: PushResp },
}

/// What a call tells a procedure with its arguments.
fn ask_procedure(xid: u32, procedure: Procedure, arguments: &[u8]) -> Callback
    ensures { asked_view result ≡ procedure_asked xid procedure arguments.now }
{
    match procedure {
        Procedure::Null => Callback::Answer {
            xid,
            head: ReplyHead::Success,
        },
        Procedure::Xfrresp => match PushResp::read(&mut Cursor::new(arguments)) {
            Ok(told) => Callback::Told { xid, told },
            Err(_) => Callback::Answer {
                xid,
                head: ReplyHead::GarbageArgs,
            },
        },
    }
}

/// What a datagram tells.
pub fn read_callback(datagram: &[u8]) -> Callback
    ensures { asked_view result ≡ asked_by datagram.now }
{
    match judge(&PushProgram, datagram) {
        Judged::Ignored => Callback::Nothing,
        Judged::Refused { xid, head } => Callback::Answer { xid, head },
        Judged::Admitted { call, procedure } => {
            ask_procedure(call.xid, procedure, &datagram[call.body..])
        }
    }
}

/// Puts a reply of a head alone at the front of the buffer, and answers its length.
fn put_head(buf: &mut [u8], xid: u32, head: &ReplyHead) -> usize
    requires { DATAGRAM_MAX ≤ length buf.old }
    ensures reply { reply_of result buf.new ≡ reply_to (asked_view (Callback.Answer xid head.now)) }
    ensures within { result ≤ length buf.new }
{
    match write_reply(buf, xid, head) {
        Ok(len) => len,
        Err(NoRoom) => unreachable!(),
    }
}

/// Hears a datagram: the ledger has what it tells, and the one reply is put at the front of the buffer. It answers the
/// length of the reply, or 0 for none.
pub fn hear_callback(push: &mut Push, datagram: &[u8], buf: &mut [u8]) -> usize
    requires { DATAGRAM_MAX ≤ length buf.old }
    ensures reply { reply_of result buf.new ≡ reply_to (asked_by datagram.now) }
    ensures told { LedgerIsTold (asked_by datagram.now) push.old push.new }
    ensures within { result ≤ length buf.new }
{
    match read_callback(datagram) {
        Callback::Nothing => 0,
        Callback::Answer { xid, head } => put_head(buf, xid, &head),
        Callback::Told { xid, told } => {
            push.on_callback(told.transid, told.status);
            put_head(buf, xid, &ReplyHead::Success)
        }
    }
}
