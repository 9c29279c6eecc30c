//! What the caller of a transfer is told, once it is over.

ghost use Rattle.yp_messages.specs.Pushes.{push_resp};
ghost use Rattle.yp_messages.specs.inside.Pushes.{push_resp_view};

use crate::message::{Fields, Message};
use crate::transfer::XfrStat;
use yp_xdr::{Cursor, XdrFault, set_u32};

/// How a pushed transfer went (`yppush_status`). Its numbers are those of `ypxfrstat`, so it is that status.
pub type PushStat = XfrStat;

/// The arguments of XFRRESP (`yppushresp_xfr`).
#[derive(Clone, Copy, Debug, PartialEq, Eq)]
pub struct PushResp {
    /// The transaction that the request named.
    pub transid: u32,
    pub status: PushStat,
}

impl Message for PushResp {
    ghost kind = { push_resp };

    ghost view = { push_resp_view };

    ghost is_within = { λ _. Unit {0} };

    fn len(&self) -> usize {
        4 + self.status.len()
    }

    fn set(&self, buf: &mut [u8], at: usize) -> usize {
        let at = set_u32(buf, at, self.transid);
        self.status.set(buf, at)
    }
}

impl<'a> Fields<'a> for PushResp {
    fn read_fields(cursor: &mut Cursor<'a>) -> Result<PushResp, XdrFault> {
        let mut ahead = *cursor;
        let transid = ahead.u32()?;
        let status = PushStat::read_fields(&mut ahead)?;
        *cursor = ahead;
        Ok(PushResp { transid, status })
    }
}
