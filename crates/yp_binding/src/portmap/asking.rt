//! What a client asks a port mapper, and reads of its reply.

ghost use Rattle.std.specs.Prelude.{◌≡◌};
ghost use Rattle.yp_xdr.specs.inside.Writing.{Writes};
ghost use Rattle.yp_binding.specs.portmap.Asking.{mapping_call, getport_call, port_call};
ghost use Rattle.yp_binding.specs.portmap.Asking.{port_read, truth_read, answer_read};

use crate::portmap::mapping::Mapping;
use crate::portmap::protocol::{GETPORT, PROGRAM, SET, UNSET, VERSION};
use yp_messages::Message;
use yp_rpc::{ReplyHead, read_reply_at, write_call};
use yp_xdr::{Cursor, NoRoom, XdrFault, laws};

/// What a reply to GETPORT says.
#[derive(Clone, Copy, Debug, PartialEq, Eq)]
pub struct PortReply {
    /// The number of the call that is answered.
    pub xid: u32,
    pub head: ReplyHead,
    /// The port, or 0 where there is none, or where the call was refused.
    pub port: u32,
}

/// A call of a client to a port mapper.
#[derive(Clone, Copy, Debug, PartialEq, Eq)]
pub enum PortCall {
    /// GETPORT: the port of a version of a program over a protocol is asked for.
    GetPort { prog: u32, vers: u32, prot: u32 },
    /// SET: a mapping is to be added.
    Set { mapping: Mapping },
    /// UNSET: the mappings of a version of a program are to be removed, over whichever protocol they are.
    Unset { prog: u32, vers: u32 },
}

/// What a port mapper answers to a call.
#[derive(Clone, Copy, Debug, PartialEq, Eq)]
pub enum PortAnswer {
    /// To GETPORT: the port, or 0 where there is none.
    Port(u32),
    /// To SET and UNSET: whether it was done.
    Truth(bool),
    /// The call was refused.
    Refused,
}

/// The bytes of a call with a mapping.
pub const CALL_LEN: usize = 56;

/// Writes a call of a procedure with a mapping from the front of the buffer, and answers its length.
fn put_call(buf: &mut [u8], xid: u32, procedure: u32, asked: Mapping) -> Result<usize, NoRoom>
    ensures { Writes (mapping_call xid procedure asked) 0 result buf.old buf.new }
{
    if buf.len() < CALL_LEN {
        return Err(NoRoom);
    }
    laws::writers_join();
    let at = match write_call(buf, xid, PROGRAM, VERSION, procedure) {
        Ok(at) => at,
        Err(NoRoom) => unreachable!(),
    };
    Ok(asked.set(buf, at))
}

/// Writes a call of GETPORT from the front of the buffer, with port 0, and answers its length.
pub fn ask_port(buf: &mut [u8], xid: u32, prog: u32, vers: u32, prot: u32) -> Result<usize, NoRoom>
    ensures { Writes (getport_call xid prog vers prot) 0 result buf.old buf.new }
{
    let asked = Mapping {
        prog,
        vers,
        prot,
        port: 0,
    };
    put_call(buf, xid, GETPORT, asked)
}

/// Writes a call from the front of the buffer, and answers its length.
pub fn write_port_call(buf: &mut [u8], xid: u32, call: PortCall) -> Result<usize, NoRoom>
    ensures { Writes (port_call xid call) 0 result buf.old buf.new }
{
    match call {
        PortCall::GetPort { prog, vers, prot } => ask_port(buf, xid, prog, vers, prot),
        PortCall::Set { mapping } => put_call(buf, xid, SET, mapping),
        PortCall::Unset { prog, vers } => {
            let asked = Mapping {
                prog,
                vers,
                prot: 0,
                port: 0,
            };
            put_call(buf, xid, UNSET, asked)
        }
    }
}

/// Reads a reply to GETPORT. It refuses the first item that isn't as it has to be, at its place.
pub fn read_port(mail: &[u8]) -> Result<PortReply, XdrFault>
    ensures { result ≡ port_read mail.now }
{
    let mut cursor = Cursor::new(mail);
    let reply = read_reply_at(&mut cursor)?;
    let port = match reply.head {
        ReplyHead::Success => cursor.u32()?,
        _ => 0,
    };
    Ok(PortReply {
        xid: reply.xid,
        head: reply.head,
        port,
    })
}

/// Reads a reply to SET or UNSET.
fn read_truth(mail: &[u8]) -> Result<PortAnswer, XdrFault>
    ensures { result ≡ truth_read mail.now }
{
    let mut cursor = Cursor::new(mail);
    match read_reply_at(&mut cursor)?.head {
        ReplyHead::Success => Ok(PortAnswer::Truth(cursor.bool()?)),
        _ => Ok(PortAnswer::Refused),
    }
}

/// Reads a reply to a call. It refuses the first item that isn't as it has to be, at its place.
pub fn read_answer(mail: &[u8], call: PortCall) -> Result<PortAnswer, XdrFault>
    ensures { result ≡ answer_read call mail.now }
{
    let PortCall::GetPort { .. } = call else {
        return read_truth(mail);
    };
    let reply = read_port(mail)?;
    match reply.head {
        ReplyHead::Success => Ok(PortAnswer::Port(reply.port)),
        _ => Ok(PortAnswer::Refused),
    }
}
