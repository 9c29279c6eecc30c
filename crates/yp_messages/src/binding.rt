//! The messages of the binder.

ghost use Rattle.std.specs.Prelude.{◌≡◌};
ghost use Rattle.yp_messages.specs.Bindings.{bind_err_number};
ghost use Rattle.yp_messages.specs.Bindings.{bind_resp};
ghost use Rattle.yp_messages.specs.inside.Bindings.{bind_resp_view, BindRespIsWithin};
ghost use Rattle.yp_messages.specs.Bindings.{set_dom};
ghost use Rattle.yp_messages.specs.inside.Bindings.{set_dom_view, SetDomIsWithin};

use crate::message::{Fields, Message};
use crate::protocol::{ADDR_LEN, NAME_MAX, PORT_LEN};
use yp_xdr::{Cursor, XdrFault, fixed_len, opaque_len, set_fixed, set_i32, set_opaque, set_u32};

/// Why a domain isn't bound.
#[derive(Clone, Copy, Debug, PartialEq, Eq)]
pub enum BindErr {
    /// The domain isn't known.
    Err,
    /// No server has been found.
    Noserv,
    /// Resources are wanting. It is never sent.
    Resc,
}

impl BindErr {
    /// Its number in the protocol.
    pub fn number(self) -> i32
        ensures { result ≡ bind_err_number self }
    {
        match self {
            BindErr::Err => 1,
            BindErr::Noserv => 2,
            BindErr::Resc => 3,
        }
    }
}

/// The number before a binding (`YPBIND_SUCC_VAL`).
const BOUND: i32 = 1;

/// The number before an error (`YPBIND_FAIL_VAL`).
const UNBOUND: i32 = 2;

/// The result of DOMAIN (`ypbind_resp`).
#[derive(Clone, Copy, Debug, PartialEq, Eq)]
pub enum BindResp<'a> {
    /// The address and the port of the server that the domain is bound to, both with the highest byte first.
    Bound { addr: &'a [u8], port: &'a [u8] },
    /// Why the domain isn't bound: a number of [`BindErr`], or another one.
    Unbound { error: u32 },
}

impl Message for BindResp<'_> {
    ghost kind = { bind_resp };

    ghost view = { bind_resp_view };

    ghost is_within = { BindRespIsWithin };

    fn len(&self) -> usize {
        match self {
            BindResp::Bound { addr, port } => 4 + fixed_len(addr) + fixed_len(port),
            BindResp::Unbound { .. } => 8,
        }
    }

    fn set(&self, buf: &mut [u8], at: usize) -> usize {
        match self {
            BindResp::Bound { addr, port } => {
                let at = set_i32(buf, at, BOUND);
                let at = set_fixed(buf, at, addr);
                set_fixed(buf, at, port)
            }
            BindResp::Unbound { error } => {
                let at = set_i32(buf, at, UNBOUND);
                set_u32(buf, at, *error)
            }
        }
    }
}

impl<'a> Fields<'a> for BindResp<'a> {
    fn read_fields(cursor: &mut Cursor<'a>) -> Result<BindResp<'a>, XdrFault> {
        let mut ahead = *cursor;
        let answer = if ahead.one_of(&[BOUND, UNBOUND])? == BOUND {
            let addr = ahead.fixed(ADDR_LEN)?;
            let port = ahead.fixed(PORT_LEN)?;
            BindResp::Bound { addr, port }
        } else {
            BindResp::Unbound {
                error: ahead.u32()?,
            }
        };
        *cursor = ahead;
        Ok(answer)
    }
}

/// The arguments of SETDOM (`ypbind_setdom`).
#[derive(Clone, Copy, Debug)]
pub struct SetDom<'a> {
    pub domain: &'a [u8],
    /// The address of the server, 4 bytes with the highest first.
    pub addr: &'a [u8],
    /// Its port, 2 bytes with the highest first.
    pub port: &'a [u8],
    /// The version of YP that the server speaks.
    pub vers: u32,
}

impl Message for SetDom<'_> {
    ghost kind = { set_dom };

    ghost view = { set_dom_view };

    ghost is_within = { SetDomIsWithin };

    fn len(&self) -> usize {
        opaque_len(self.domain) + fixed_len(self.addr) + fixed_len(self.port) + 4
    }

    fn set(&self, buf: &mut [u8], at: usize) -> usize {
        let at = set_opaque(buf, at, self.domain);
        let at = set_fixed(buf, at, self.addr);
        let at = set_fixed(buf, at, self.port);
        set_u32(buf, at, self.vers)
    }
}

impl<'a> Fields<'a> for SetDom<'a> {
    fn read_fields(cursor: &mut Cursor<'a>) -> Result<SetDom<'a>, XdrFault> {
        let mut ahead = *cursor;
        let domain = ahead.string(NAME_MAX)?;
        let addr = ahead.fixed(ADDR_LEN)?;
        let port = ahead.fixed(PORT_LEN)?;
        let vers = ahead.u32()?;
        *cursor = ahead;
        Ok(SetDom {
            domain,
            addr,
            port,
            vers,
        })
    }
}
