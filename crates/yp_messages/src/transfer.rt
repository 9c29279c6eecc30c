//! The messages that have a map fetched from another server, or made anew.

ghost use Rattle.std.specs.Prelude.{◌≡◌, IsTrue};
ghost use Rattle.yp_xdr.specs.Spelling.{is_one_of};
ghost use Rattle.yp_messages.specs.Transfers.{xfr_stat, xfr_number, xfr_numbers};
ghost use Rattle.yp_messages.specs.Transfers.{req_xfr};
ghost use Rattle.yp_messages.specs.inside.Transfers.{req_xfr_view, ReqXfrIsWithin};
ghost use Rattle.yp_messages.specs.Transfers.{resp_xfr};
ghost use Rattle.yp_messages.specs.inside.Transfers.{resp_xfr_view};
ghost use Rattle.yp_messages.specs.Transfers.{req_make};
ghost use Rattle.yp_messages.specs.inside.Transfers.{req_make_view, ReqMakeIsWithin};
ghost use Rattle.yp_messages.specs.Transfers.{resp_make};
ghost use Rattle.yp_messages.specs.inside.Transfers.{resp_make_view};

use crate::message::{Fields, Message};
use crate::protocol::NAME_MAX;
use yp_xdr::{Cursor, XdrFault, opaque_len, set_i32, set_opaque, set_u32};

/// How a transfer or a build went (`ypxfrstat`).
#[derive(Clone, Copy, Debug, PartialEq, Eq)]
pub enum XfrStat {
    /// It succeeded.
    Succ,
    /// The map isn't newer.
    Age,
    /// The domain has no such map.
    Nomap,
    /// The domain isn't served.
    Nodom,
    /// Memory ran out.
    Rsrc,
    /// A call to the source failed.
    Rpc,
    /// The source has no address.
    Maddr,
    /// The source answered with a status of its own.
    Yperr,
    /// The arguments aren't valid.
    Badargs,
    /// The map can't be made.
    Dbm,
    /// The files can't be read or written.
    File,
    /// The map changed meanwhile.
    Skew,
    /// Open maps can't be closed. It is never sent.
    Clear,
    /// A transfer has to be forced. It is never sent.
    Force,
    /// The transfer failed.
    Xfrerr,
    /// The transfer is refused.
    Refused,
}

/// The numbers that it may have.
const NUMBERS: [i32; 16] = [
    2, 1, -1, -2, -3, -4, -5, -6, -7, -8, -9, -10, -11, -12, -13, -14,
];

impl XfrStat {
    /// Its number in the protocol.
    pub fn number(self) -> i32
        ensures { result ≡ xfr_number self }
    {
        match self {
            XfrStat::Succ => 1,
            XfrStat::Age => 2,
            XfrStat::Nomap => -1,
            XfrStat::Nodom => -2,
            XfrStat::Rsrc => -3,
            XfrStat::Rpc => -4,
            XfrStat::Maddr => -5,
            XfrStat::Yperr => -6,
            XfrStat::Badargs => -7,
            XfrStat::Dbm => -8,
            XfrStat::File => -9,
            XfrStat::Skew => -10,
            XfrStat::Clear => -11,
            XfrStat::Force => -12,
            XfrStat::Xfrerr => -13,
            XfrStat::Refused => -14,
        }
    }
}

impl Message for XfrStat {
    ghost kind = { xfr_stat };

    ghost view = { xfr_number };

    ghost is_within = { λ _. Unit {0} };

    fn len(&self) -> usize {
        4
    }

    fn set(&self, buf: &mut [u8], at: usize) -> usize {
        set_i32(buf, at, self.number())
    }
}

impl<'a> Fields<'a> for XfrStat {
    fn read_fields(cursor: &mut Cursor<'a>) -> Result<XfrStat, XdrFault> {
        match cursor.one_of(&NUMBERS) {
            Ok(number) => Ok(stat_of(number)),
            Err(fault) => Err(fault),
        }
    }
}

/// The status that has this number.
fn stat_of(number: i32) -> XfrStat
    requires { IsTrue (is_one_of xfr_numbers number) }
    ensures { xfr_number result ≡ number }
{
    match number {
        2 => XfrStat::Age,
        1 => XfrStat::Succ,
        -1 => XfrStat::Nomap,
        -2 => XfrStat::Nodom,
        -3 => XfrStat::Rsrc,
        -4 => XfrStat::Rpc,
        -5 => XfrStat::Maddr,
        -6 => XfrStat::Yperr,
        -7 => XfrStat::Badargs,
        -8 => XfrStat::Dbm,
        -9 => XfrStat::File,
        -10 => XfrStat::Skew,
        -11 => XfrStat::Clear,
        -12 => XfrStat::Force,
        -13 => XfrStat::Xfrerr,
        _ => XfrStat::Refused,
    }
}

/// The arguments of XFR (`ypreq_xfr`).
#[derive(Clone, Copy, Debug)]
pub struct ReqXfr<'a> {
    pub domain: &'a [u8],
    pub map: &'a [u8],
    /// The order number of the map.
    pub ordernum: u32,
    /// The host that has the map.
    pub peer: &'a [u8],
    /// The transaction that the caller is told of.
    pub transid: u32,
    /// The program that is called back.
    pub prog: u32,
    /// Its port.
    pub port: u32,
}

impl Message for ReqXfr<'_> {
    ghost kind = { req_xfr };

    ghost view = { req_xfr_view };

    ghost is_within = { ReqXfrIsWithin };

    fn len(&self) -> usize {
        opaque_len(self.domain) + opaque_len(self.map) + opaque_len(self.peer) + 16
    }

    fn set(&self, buf: &mut [u8], at: usize) -> usize {
        let at = set_opaque(buf, at, self.domain);
        let at = set_opaque(buf, at, self.map);
        let at = set_u32(buf, at, self.ordernum);
        let at = set_opaque(buf, at, self.peer);
        let at = set_u32(buf, at, self.transid);
        let at = set_u32(buf, at, self.prog);
        set_u32(buf, at, self.port)
    }
}

impl<'a> Fields<'a> for ReqXfr<'a> {
    fn read_fields(cursor: &mut Cursor<'a>) -> Result<ReqXfr<'a>, XdrFault> {
        let mut ahead = *cursor;
        let domain = ahead.string(NAME_MAX)?;
        let map = ahead.string(NAME_MAX)?;
        let ordernum = ahead.u32()?;
        let peer = ahead.string(NAME_MAX)?;
        let transid = ahead.u32()?;
        let prog = ahead.u32()?;
        let port = ahead.u32()?;
        *cursor = ahead;
        Ok(ReqXfr {
            domain,
            map,
            ordernum,
            peer,
            transid,
            prog,
            port,
        })
    }
}

/// The result of XFR (`ypresp_xfr`).
#[derive(Clone, Copy, Debug, PartialEq, Eq)]
pub struct RespXfr {
    pub transid: u32,
    pub xfrstat: XfrStat,
}

impl Message for RespXfr {
    ghost kind = { resp_xfr };

    ghost view = { resp_xfr_view };

    ghost is_within = { λ _. Unit {0} };

    fn len(&self) -> usize {
        4 + self.xfrstat.len()
    }

    fn set(&self, buf: &mut [u8], at: usize) -> usize {
        let at = set_u32(buf, at, self.transid);
        self.xfrstat.set(buf, at)
    }
}

impl<'a> Fields<'a> for RespXfr {
    fn read_fields(cursor: &mut Cursor<'a>) -> Result<RespXfr, XdrFault> {
        let mut ahead = *cursor;
        let transid = ahead.u32()?;
        let xfrstat = XfrStat::read_fields(&mut ahead)?;
        *cursor = ahead;
        Ok(RespXfr { transid, xfrstat })
    }
}

/// The arguments of MAKE in the make program.
#[derive(Clone, Copy, Debug)]
pub struct ReqMake<'a> {
    pub domain: &'a [u8],
    /// The number of a kind of map.
    pub kind: u32,
}

impl Message for ReqMake<'_> {
    ghost kind = { req_make };

    ghost view = { req_make_view };

    ghost is_within = { ReqMakeIsWithin };

    fn len(&self) -> usize {
        opaque_len(self.domain) + 4
    }

    fn set(&self, buf: &mut [u8], at: usize) -> usize {
        let at = set_opaque(buf, at, self.domain);
        set_u32(buf, at, self.kind)
    }
}

impl<'a> Fields<'a> for ReqMake<'a> {
    fn read_fields(cursor: &mut Cursor<'a>) -> Result<ReqMake<'a>, XdrFault> {
        let mut ahead = *cursor;
        let domain = ahead.string(NAME_MAX)?;
        let kind = ahead.u32()?;
        *cursor = ahead;
        Ok(ReqMake { domain, kind })
    }
}

/// The result of MAKE in the make program.
#[derive(Clone, Copy, Debug, PartialEq, Eq)]
pub struct RespMake {
    pub stat: XfrStat,
}

impl Message for RespMake {
    ghost kind = { resp_make };

    ghost view = { resp_make_view };

    ghost is_within = { λ _. Unit {0} };

    fn len(&self) -> usize {
        self.stat.len()
    }

    fn set(&self, buf: &mut [u8], at: usize) -> usize {
        self.stat.set(buf, at)
    }
}

impl<'a> Fields<'a> for RespMake {
    fn read_fields(cursor: &mut Cursor<'a>) -> Result<RespMake, XdrFault> {
        let stat = XfrStat::read_fields(cursor)?;
        Ok(RespMake { stat })
    }
}
