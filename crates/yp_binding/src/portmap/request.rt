//! What a datagram asks of the port mapper.

ghost use Rattle.std.specs.Prelude.{◌≡◌};
ghost use Rattle.yp_binding.specs.portmap.Requests.{programs, asked_by, procedure_asked};

use crate::portmap::mapping::Mapping;
use crate::portmap::protocol::{DUMP, GETPORT, NULL, PROGRAM, SET, UNSET, VERSION};
use yp_messages::ReadMessage;
use yp_rpc::{Judged, Programs, ReplyHead, judge};
use yp_xdr::Cursor;

/// A procedure of the port mapper.
#[derive(Clone, Copy)]
enum Procedure {
    Null,
    Set,
    Unset,
    GetPort,
    Dump,
}

/// The program of the port mapper alone.
struct Portmapper;

impl Programs for Portmapper {
    type Procedure = Procedure;

    ghost table = { λ _. programs };

    fn version(&self, prog: u32) -> Option<u32> {
        match prog {
            PROGRAM => Some(VERSION),
            _ => None,
        }
    }

    fn procedure(&self, _prog: u32, number: u32) -> Option<Procedure> {
        match number {
            NULL => Some(Procedure::Null),
            SET => Some(Procedure::Set),
            UNSET => Some(Procedure::Unset),
            GETPORT => Some(Procedure::GetPort),
            DUMP => Some(Procedure::Dump),
            _ => None,
        }
    }
}

/// What a datagram asks of the port mapper.
#[derive(Clone, Copy)]
pub enum Request {
    /// Nothing that is answered.
    Nothing,
    /// A reply of this head alone.
    Answer { xid: u32, head: ReplyHead },
    /// That a mapping be added.
    Set { xid: u32, asked: Mapping },
    /// That the mappings of a version of a program be removed.
    Unset { xid: u32, asked: Mapping },
    /// The port of a version of a program over a protocol.
    GetPort { xid: u32, asked: Mapping },
    /// All mappings.
    Dump { xid: u32 },
}

/// What a call asks of a procedure with its arguments.
fn ask_procedure(xid: u32, procedure: Procedure, arguments: &[u8]) -> Request
    ensures { result ≡ procedure_asked xid procedure arguments.now }
{
    let mapping = Mapping::read(&mut Cursor::new(arguments));
    match (procedure, mapping) {
        (Procedure::Null, _) => Request::Answer {
            xid,
            head: ReplyHead::Success,
        },
        (Procedure::Dump, _) => Request::Dump { xid },
        (Procedure::Set, Ok(asked)) => Request::Set { xid, asked },
        (Procedure::Unset, Ok(asked)) => Request::Unset { xid, asked },
        (Procedure::GetPort, Ok(asked)) => Request::GetPort { xid, asked },
        (_, Err(_)) => Request::Answer {
            xid,
            head: ReplyHead::GarbageArgs,
        },
    }
}

/// What a datagram asks.
pub fn read_request(datagram: &[u8]) -> Request
    ensures { result ≡ asked_by datagram.now }
{
    match judge(&Portmapper, datagram) {
        Judged::Ignored => Request::Nothing,
        Judged::Refused { xid, head } => Request::Answer { xid, head },
        Judged::Admitted { call, procedure } => {
            ask_procedure(call.xid, procedure, &datagram[call.body..])
        }
    }
}
