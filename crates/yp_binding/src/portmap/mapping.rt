//! Mappings of programs to ports.

ghost use Rattle.std.specs.Prelude.{◌≡◌};
ghost use Rattle.yp_binding.specs.portmap.Registry.{mapping_kind, mapping_view, is_of, is_same, may_stand};
ghost use Rattle.yp_binding.specs.inside.portmap.Registry.{AnyMapping};

use crate::portmap::protocol::{PORT_MAX, TCP, UDP};
use yp_messages::{Fields, Message};
use yp_xdr::{Cursor, XdrFault, set_u32};

/// A version of a program over a protocol, and the port where it is.
#[derive(Clone, Copy, Debug, PartialEq, Eq)]
pub struct Mapping {
    pub prog: u32,
    pub vers: u32,
    /// 6 for TCP, 17 for UDP.
    pub prot: u32,
    pub port: u32,
}

impl Mapping {
    /// Whether another is of the same version of the same program.
    pub(crate) fn is_of(&self, other: &Mapping) -> bool
        ensures { result ≡ is_of self.now other.now }
    {
        other.prog == self.prog && other.vers == self.vers
    }

    /// Whether another is of the same version of the same program over the same protocol.
    pub(crate) fn is_same(&self, other: &Mapping) -> bool
        ensures { result ≡ is_same self.now other.now }
    {
        self.is_of(other) && other.prot == self.prot
    }

    /// Whether its protocol is TCP or UDP, and its port is one.
    pub(crate) fn may_stand(&self) -> bool
        ensures { result ≡ may_stand self.now }
    {
        (self.prot == TCP || self.prot == UDP) && 1 <= self.port && self.port <= PORT_MAX
    }
}

impl Message for Mapping {
    ghost kind = { mapping_kind };

    ghost view = { mapping_view };

    ghost is_within = { AnyMapping };

    fn len(&self) -> usize {
        16
    }

    fn set(&self, buf: &mut [u8], at: usize) -> usize {
        let at = set_u32(buf, at, self.prog);
        let at = set_u32(buf, at, self.vers);
        let at = set_u32(buf, at, self.prot);
        set_u32(buf, at, self.port)
    }
}

impl<'a> Fields<'a> for Mapping {
    fn read_fields(cursor: &mut Cursor<'a>) -> Result<Mapping, XdrFault> {
        let mut ahead = *cursor;
        let prog = ahead.u32()?;
        let vers = ahead.u32()?;
        let prot = ahead.u32()?;
        let port = ahead.u32()?;
        *cursor = ahead;
        Ok(Mapping {
            prog,
            vers,
            prot,
            port,
        })
    }
}
