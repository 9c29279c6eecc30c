//! Calls that the program makes itself, and their whole replies.

ghost use Rattle.std.specs.Prelude.{◌≡◌, ◌+◌, ◌≤◌, ◌++◌, [], length, take, true, None, Some, if◌then◌else◌, IfOk};
ghost use Rattle.std.specs.Prelude.{OnOk};
ghost use Rattle.yp_xdr.specs.Spelling.{spelling};
ghost use Rattle.yp_rpc.specs.Called.{call_of};
ghost use Rattle.yp_messages.specs.Numbers.{program, version};
ghost use Rattle.yp_version.specs.Limits.{key_max, value_max};
ghost use Rattle.yp_answer.specs.Numbers.{record_max};
ghost use Rattle.yp_answer.specs.Maps.{maps_of};
ghost use Rattle.yp_rpc.specs.Records.{joined};
ghost use Rattle.yp_answer.specs.inside.Streams.{parts_left};
ghost use Rattle.yp_answer.specs.inside.Answers.{StreamIsInside};
ghost use Rattle.yp_command_serve.specs.Callers.{reply_to};
ghost use Rattle.yp_command_serve.specs.Sample.{sample_match, sample_all, value_reply};

use crate::once::NOBODY;
use yp_answer::{AllStream, Answered, answer};
use yp_board::PlainBoard;
use yp_io::NoMemory;
use yp_messages::protocol::{ALL, MATCH, YPPROG, YPVERS};
use yp_messages::{Message, ReqKey, ReqNokey, RespVal, YpStat};
use yp_rpc::{ReplyHead, write_call, write_reply};
use yp_xdr::{NoRoom, laws};

/// The domain and the name of the map that is asked, and the own name of its board.
pub const SAMPLE: &[u8] = b"sample";

/// The number of each call.
const XID: u32 = 0;

/// Puts a call at the front of the buffer, and answers its length.
fn set_call<M: Message>(buf: &mut [u8], procedure: u32, arguments: &M) -> usize
    requires within { M.is_within arguments.now }
    requires room { 40 + length (spelling M.kind (M.view arguments.now)) ≤ length buf.old }
    ensures call { take result buf.new ≡ call_of M.kind 0 program version procedure (M.view arguments.now) }
    ensures within { result ≤ length buf.new }
{
    laws::written_is_joined();
    let at = match write_call(buf, XID, YPPROG, YPVERS, procedure) {
        Ok(at) => at,
        Err(NoRoom) => unreachable!(),
    };
    arguments.set(buf, at)
}

/// Puts the call MATCH for a key at the front of the buffer, and answers its length.
pub fn set_match(buf: &mut [u8], key: &[u8]) -> usize
    requires room { record_max ≤ length buf.old }
    requires key { length key.now ≤ key_max }
    ensures call { take result buf.new ≡ sample_match key.now }
    ensures within { result ≤ length buf.new }
{
    let asked = ReqKey {
        domain: SAMPLE,
        map: SAMPLE,
        key,
    };
    set_call(buf, MATCH, &asked)
}

/// Puts the call ALL at the front of the buffer, and answers its length.
pub fn set_all(buf: &mut [u8]) -> usize
    requires { record_max ≤ length buf.old }
    ensures call { take result buf.new ≡ sample_all }
    ensures within { result ≤ length buf.new }
{
    let asked = ReqNokey {
        domain: SAMPLE,
        map: SAMPLE,
    };
    set_call(buf, ALL, &asked)
}

/// Puts the reply of MATCH that has this value at the front of the buffer, and answers its length.
pub fn set_value(buf: &mut [u8], value: &[u8]) -> usize
    requires room { record_max ≤ length buf.old }
    requires value { length value.now ≤ value_max }
    ensures reply { take result buf.new ≡ value_reply value.now }
    ensures within { result ≤ length buf.new }
{
    let at = match write_reply(buf, XID, &ReplyHead::Success) {
        Ok(at) => at,
        Err(NoRoom) => unreachable!(),
    };
    let found = RespVal {
        stat: YpStat::True,
        val: value,
    };
    found.set(buf, at)
}

/// Adds the parts of a stream that are left to a reply.
fn collect(
    board: &PlainBoard,
    stream: AllStream,
    buf: &mut [u8],
    reply: &mut Vec<u8>,
) -> Result<(), NoMemory>
    requires room { record_max ≤ length buf.old }
    requires inside { StreamIsInside (maps_of board.now) stream.source }
    ensures { OnOk result (reply.new.items ≡ reply.old.items ++ joined (parts_left board.now.known stream)) }
{
    let mut stream = stream;
    let mut len = stream.piece(board, buf);
    while len > 0 {
        let Ok(()) = reply.extend_from_slice(&buf[..len]) else {
            return Err(NoMemory);
        };
        len = stream.piece(board, buf);
    }
    Ok(())
}

/// Puts a whole reply where there is nothing yet. There is one then.
fn put_whole(reply: &mut Vec<u8>, bytes: &[u8]) -> Result<bool, NoMemory>
    requires { reply.old.items ≡ [] }
    ensures { IfOk result (λ some. (some ≡ true) × (reply.new.items ≡ bytes.now)) }
{
    match reply.extend_from_slice(bytes) {
        Ok(()) => Ok(true),
        Err(_) => Err(NoMemory),
    }
}

/// Asks the board, and puts the whole reply into `reply`, where there is one.
pub fn ask(
    board: &mut PlainBoard,
    call: &[u8],
    buf: &mut [u8],
    reply: &mut Vec<u8>,
) -> Result<bool, NoMemory>
    requires { record_max ≤ length buf.old }
    ensures reply { IfOk result (λ some.
        reply_to (maps_of board.old) call.now ≡ (if some then Some reply.new.items else None)) }
    ensures maps { maps_of board.new ≡ maps_of board.old }
{
    reply.clear();
    match answer(board, call, NOBODY, buf) {
        Answered::Silent => Ok(false),
        Answered::Reply { len } => put_whole(reply, &buf[..len]),
        Answered::Transfer { len, .. } => put_whole(reply, &buf[..len]),
        Answered::Stream(stream) => match collect(board, stream, buf, reply) {
            Ok(()) => Ok(true),
            Err(NoMemory) => Err(NoMemory),
        },
        Answered::Make { .. } => Ok(false),
    }
}
