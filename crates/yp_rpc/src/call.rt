//! The head of a call (RFC 5531 section 9).

ghost use Rattle.std.specs.Prelude.{◌≡◌, IfOk};
ghost use Rattle.yp_xdr.specs.inside.Reading.{Reads, end_of};
ghost use Rattle.yp_xdr.specs.inside.Writing.{Writes};
ghost use Rattle.yp_xdr.specs.inside.Cursor.{unread};
ghost use Rattle.yp_rpc.specs.Call.{front_kind, auth_kind, procedure_kind, heard};
ghost use Rattle.yp_rpc.specs.inside.Call.{BodyIsInside};
ghost use Rattle.yp_rpc.specs.inside.Called.{called};

use crate::protocol::{AUTH_MAX, AUTH_NONE, CALL, RPC_VERSION};
use crate::put::put_words;
use yp_xdr::{Cursor, NoRoom, XdrFault};

/// The head of a call. Bodies of the credential and the verifier aren't looked at.
#[derive(Clone, Copy, Debug, PartialEq, Eq)]
pub struct CallHead {
    /// The number that the reply repeats.
    pub xid: u32,
    pub prog: u32,
    pub vers: u32,
    pub procedure: u32,
    /// The flavor of the credential.
    pub flavor: u32,
    /// The place of the arguments in the record, in bytes.
    pub body: usize,
}

/// What a record is heard as.
#[derive(Clone, Copy, Debug, PartialEq, Eq)]
pub enum Heard {
    /// A call in RPC version 2.
    Call(CallHead),

    /// A call in another version of RPC.
    WrongRpc { xid: u32 },

    /// Nothing that can be answered.
    Noise,
}

/// The three words in front of each message that is a call.
#[derive(Clone, Copy)]
struct Front {
    xid: u32,
    message_type: u32,
    rpc_version: u32,
}

fn read_front(cursor: &mut Cursor<'_>) -> Result<Front, XdrFault>
    ensures read { Reads front_kind (λ f. (f.xid, (f.message_type, f.rpc_version))) result
        (unread cursor.old) (unread cursor.new) }
    ensures end { end_of (unread cursor.new) ≡ end_of (unread cursor.old) }
{
    let mut ahead = *cursor;
    let xid = ahead.u32()?;
    let message_type = ahead.u32()?;
    let rpc_version = ahead.u32()?;
    *cursor = ahead;
    Ok(Front {
        xid,
        message_type,
        rpc_version,
    })
}

/// A credential or a verifier.
#[derive(Clone, Copy)]
pub(crate) struct Auth<'a> {
    flavor: u32,
    body: &'a [u8],
}

#[inline(always)]
pub(crate) fn read_auth<'a>(cursor: &mut Cursor<'a>) -> Result<Auth<'a>, XdrFault>
    ensures read { Reads auth_kind (λ a. (a.flavor, a.body.now)) result (unread cursor.old) (unread cursor.new) }
    ensures end { end_of (unread cursor.new) ≡ end_of (unread cursor.old) }
{
    let mut ahead = *cursor;
    let flavor = ahead.u32()?;
    let body = ahead.opaque(AUTH_MAX)?;
    *cursor = ahead;
    Ok(Auth { flavor, body })
}

/// What a call asks for, and by whom.
#[derive(Clone, Copy)]
struct Procedure<'a> {
    prog: u32,
    vers: u32,
    procedure: u32,
    credential: Auth<'a>,
    verifier: Auth<'a>,
}

#[inline(always)]
fn read_procedure<'a>(cursor: &mut Cursor<'a>) -> Result<Procedure<'a>, XdrFault>
    ensures read { Reads procedure_kind
        (λ p. (
          p.prog,
          (
            p.vers,
            (
              p.procedure,
              ((p.credential.flavor, p.credential.body.now), (p.verifier.flavor, p.verifier.body.now)),
            ),
          ),
        ))
        result (unread cursor.old) (unread cursor.new) }
    ensures end { end_of (unread cursor.new) ≡ end_of (unread cursor.old) }
{
    let mut ahead = *cursor;
    let prog = ahead.u32()?;
    let vers = ahead.u32()?;
    let procedure = ahead.u32()?;
    let credential = read_auth(&mut ahead)?;
    let verifier = read_auth(&mut ahead)?;
    *cursor = ahead;
    Ok(Procedure {
        prog,
        vers,
        procedure,
        credential,
        verifier,
    })
}

/// What a record is heard as. It takes the bytes of the record without the heads of its fragments.
pub fn read_call(bytes: &[u8]) -> Heard
    ensures heard { result ≡ heard bytes.now }
    ensures body { BodyIsInside bytes.now result }
{
    let mut cursor = Cursor::new(bytes);
    let Ok(front) = read_front(&mut cursor) else {
        return Heard::Noise;
    };
    if front.message_type != CALL {
        return Heard::Noise;
    }
    if front.rpc_version != RPC_VERSION {
        return Heard::WrongRpc { xid: front.xid };
    }
    match read_procedure(&mut cursor) {
        Err(_) => Heard::Noise,
        Ok(asked) => Heard::Call(CallHead {
            xid: front.xid,
            prog: asked.prog,
            vers: asked.vers,
            procedure: asked.procedure,
            flavor: asked.credential.flavor,
            body: cursor.at(),
        }),
    }
}

/// Writes the head of a call from the front of the buffer, and answers its length, which is 40 bytes. The credential
/// and the verifier are `AUTH_NONE`. The arguments stand behind it.
pub fn write_call(
    buf: &mut [u8],
    xid: u32,
    prog: u32,
    vers: u32,
    procedure: u32,
) -> Result<usize, NoRoom>
    ensures written { Writes (called xid prog vers procedure) 0 result buf.old buf.new }
    ensures len { IfOk result (λ end. end ≡ 40) }
{
    put_words(
        buf,
        &[
            xid,
            CALL,
            RPC_VERSION,
            prog,
            vers,
            procedure,
            AUTH_NONE,
            0,
            AUTH_NONE,
            0,
        ],
    )
}
