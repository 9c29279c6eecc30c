//! The arguments of the procedures.

ghost use Rattle.yp_messages.specs.Messages.{req_domain};
ghost use Rattle.yp_messages.specs.inside.Messages.{req_domain_view, ReqDomainIsWithin};
ghost use Rattle.yp_messages.specs.Messages.{req_key};
ghost use Rattle.yp_messages.specs.inside.Messages.{req_key_view, ReqKeyIsWithin};
ghost use Rattle.yp_messages.specs.Messages.{req_nokey};
ghost use Rattle.yp_messages.specs.inside.Messages.{req_nokey_view, ReqNokeyIsWithin};

use crate::message::{Fields, Message};
use crate::protocol::{KEY_MAX, NAME_MAX};
use yp_xdr::{Cursor, XdrFault, opaque_len, set_opaque};

/// The arguments of DOMAIN, DOMAIN_NONACK and MAPLIST (`domainname`).
#[derive(Clone, Copy, Debug)]
pub struct ReqDomain<'a> {
    pub domain: &'a [u8],
}

impl Message for ReqDomain<'_> {
    ghost kind = { req_domain };

    ghost view = { req_domain_view };

    ghost is_within = { ReqDomainIsWithin };

    fn len(&self) -> usize {
        opaque_len(self.domain)
    }

    fn set(&self, buf: &mut [u8], at: usize) -> usize {
        set_opaque(buf, at, self.domain)
    }
}

impl<'a> Fields<'a> for ReqDomain<'a> {
    fn read_fields(cursor: &mut Cursor<'a>) -> Result<ReqDomain<'a>, XdrFault> {
        let domain = cursor.string(NAME_MAX)?;
        Ok(ReqDomain { domain })
    }
}

/// The arguments of MATCH and NEXT (`ypreq_key`).
#[derive(Clone, Copy, Debug)]
pub struct ReqKey<'a> {
    pub domain: &'a [u8],
    pub map: &'a [u8],
    pub key: &'a [u8],
}

impl Message for ReqKey<'_> {
    ghost kind = { req_key };

    ghost view = { req_key_view };

    ghost is_within = { ReqKeyIsWithin };

    fn len(&self) -> usize {
        opaque_len(self.domain) + opaque_len(self.map) + opaque_len(self.key)
    }

    fn set(&self, buf: &mut [u8], at: usize) -> usize {
        let at = set_opaque(buf, at, self.domain);
        let at = set_opaque(buf, at, self.map);
        set_opaque(buf, at, self.key)
    }
}

impl<'a> Fields<'a> for ReqKey<'a> {
    fn read_fields(cursor: &mut Cursor<'a>) -> Result<ReqKey<'a>, XdrFault> {
        let mut ahead = *cursor;
        let domain = ahead.string(NAME_MAX)?;
        let map = ahead.string(NAME_MAX)?;
        let key = ahead.opaque(KEY_MAX)?;
        *cursor = ahead;
        Ok(ReqKey { domain, map, key })
    }
}

/// The arguments of FIRST, ALL, MASTER and ORDER (`ypreq_nokey`).
#[derive(Clone, Copy, Debug)]
pub struct ReqNokey<'a> {
    pub domain: &'a [u8],
    pub map: &'a [u8],
}

impl Message for ReqNokey<'_> {
    ghost kind = { req_nokey };

    ghost view = { req_nokey_view };

    ghost is_within = { ReqNokeyIsWithin };

    fn len(&self) -> usize {
        opaque_len(self.domain) + opaque_len(self.map)
    }

    fn set(&self, buf: &mut [u8], at: usize) -> usize {
        let at = set_opaque(buf, at, self.domain);
        set_opaque(buf, at, self.map)
    }
}

impl<'a> Fields<'a> for ReqNokey<'a> {
    fn read_fields(cursor: &mut Cursor<'a>) -> Result<ReqNokey<'a>, XdrFault> {
        let mut ahead = *cursor;
        let domain = ahead.string(NAME_MAX)?;
        let map = ahead.string(NAME_MAX)?;
        *cursor = ahead;
        Ok(ReqNokey { domain, map })
    }
}
