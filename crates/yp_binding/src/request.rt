//! What a datagram asks of the binder.

ghost use Rattle.std.specs.Prelude.{◌≡◌, ◌≤◌, length};
ghost use Rattle.yp_messages.specs.inside.Bindings.{set_dom_view, SetDomIsWithin};
ghost use Rattle.yp_binding.specs.Requests.{server_of};
ghost use Rattle.yp_binding.specs.Requests.{programs, asked_by, procedure_asked};
ghost use Rattle.yp_binding.specs.inside.Requests.{asked_view};

use yp_io::Peer;
use yp_messages::protocol::{BIND_DOMAIN, BIND_NULL, BINDPROG, BINDVERS, SETDOM};
use yp_messages::{ReadMessage, ReqDomain, SetDom};
use yp_rpc::{Judged, Programs, ReplyHead, judge};
use yp_xdr::Cursor;

/// A procedure of the binder.
#[derive(Clone, Copy)]
enum Procedure {
    Null,
    Domain,
    Setdom,
}

/// The program of the binder alone.
struct BindProgram;

impl Programs for BindProgram {
    type Procedure = Procedure;

    ghost table = { λ _. programs };

    fn version(&self, prog: u32) -> Option<u32> {
        match prog {
            BINDPROG => Some(BINDVERS),
            _ => None,
        }
    }

    fn procedure(&self, _prog: u32, number: u32) -> Option<Procedure> {
        match number {
            BIND_NULL => Some(Procedure::Null),
            BIND_DOMAIN => Some(Procedure::Domain),
            SETDOM => Some(Procedure::Setdom),
            _ => None,
        }
    }
}

/// What a datagram asks of the binder.
#[derive(Clone, Copy)]
pub(crate) enum Request<'a> {
    /// Nothing that is answered.
    Nothing,
    /// A reply of this head alone.
    Answer {
        xid: u32,
        head: ReplyHead,
    },
    /// Which server a domain is bound to.
    Domain {
        xid: u32,
        asked: ReqDomain<'a>,
    },
    /// That a domain be bound to a server.
    Setdom {
        xid: u32,
        asked: SetDom<'a>,
        server: Peer,
    },
}

/// The server that a SETDOM names.
fn server_of(asked: &SetDom<'_>) -> Peer
    requires { SetDomIsWithin asked.now }
    ensures { result ≡ server_of (set_dom_view asked.now) }
{
    match (asked.addr, asked.port) {
        ([a, b, c, d], [high, low]) => Peer {
            addr: [*a, *b, *c, *d],
            port: u16::from_be_bytes([*high, *low]),
        },
        _ => unreachable!(),
    }
}

/// What a call asks of a procedure with its arguments.
fn ask_procedure(xid: u32, procedure: Procedure, arguments: &[u8]) -> Request<'_>
    ensures { asked_view result ≡ procedure_asked xid procedure arguments.now }
{
    let mut cursor = Cursor::new(arguments);
    match procedure {
        Procedure::Null => Request::Answer {
            xid,
            head: ReplyHead::Success,
        },
        Procedure::Domain => match ReqDomain::read(&mut cursor) {
            Ok(asked) => Request::Domain { xid, asked },
            Err(_) => Request::Answer {
                xid,
                head: ReplyHead::GarbageArgs,
            },
        },
        Procedure::Setdom => match SetDom::read(&mut cursor) {
            Ok(asked) => Request::Setdom {
                xid,
                asked,
                server: server_of(&asked),
            },
            Err(_) => Request::Answer {
                xid,
                head: ReplyHead::GarbageArgs,
            },
        },
    }
}

/// What a datagram asks.
pub(crate) fn read_request(datagram: &[u8]) -> Request<'_>
    ensures { asked_view result ≡ asked_by datagram.now }
{
    match judge(&BindProgram, datagram) {
        Judged::Ignored => Request::Nothing,
        Judged::Refused { xid, head } => Request::Answer { xid, head },
        Judged::Admitted { call, procedure } => {
            ask_procedure(call.xid, procedure, &datagram[call.body..])
        }
    }
}
