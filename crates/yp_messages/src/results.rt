//! The results of the procedures.

ghost use Rattle.yp_messages.specs.Messages.{resp_val};
ghost use Rattle.yp_messages.specs.inside.Messages.{resp_val_view, RespValIsWithin};
ghost use Rattle.yp_messages.specs.Messages.{key_val};
ghost use Rattle.yp_messages.specs.inside.Messages.{key_val_view, KeyValIsWithin};
ghost use Rattle.yp_messages.specs.inside.Messages.{all_item, all_item_view, AllItemIsWithin};
ghost use Rattle.yp_messages.specs.Messages.{resp_master};
ghost use Rattle.yp_messages.specs.inside.Messages.{resp_master_view, RespMasterIsWithin};
ghost use Rattle.yp_messages.specs.Messages.{resp_order};
ghost use Rattle.yp_messages.specs.inside.Messages.{resp_order_view};

use crate::message::{Fields, Message};
use crate::protocol::{KEY_MAX, NAME_MAX, VALUE_MAX};
use crate::stat::YpStat;
use yp_xdr::{Cursor, XdrFault, opaque_len, set_bool, set_opaque, set_u32};

/// The result of MATCH (`ypresp_val`).
#[derive(Clone, Copy, Debug)]
pub struct RespVal<'a> {
    pub stat: YpStat,
    pub val: &'a [u8],
}

impl Message for RespVal<'_> {
    ghost kind = { resp_val };

    ghost view = { resp_val_view };

    ghost is_within = { RespValIsWithin };

    fn len(&self) -> usize {
        self.stat.len() + opaque_len(self.val)
    }

    fn set(&self, buf: &mut [u8], at: usize) -> usize {
        let at = self.stat.set(buf, at);
        set_opaque(buf, at, self.val)
    }
}

impl<'a> Fields<'a> for RespVal<'a> {
    fn read_fields(cursor: &mut Cursor<'a>) -> Result<RespVal<'a>, XdrFault> {
        let mut ahead = *cursor;
        let stat = YpStat::read_fields(&mut ahead)?;
        let val = ahead.opaque(VALUE_MAX)?;
        *cursor = ahead;
        Ok(RespVal { stat, val })
    }
}

/// The result of FIRST and NEXT, and a row of ALL (`ypresp_key_val`). The value goes before the key.
#[derive(Clone, Copy, Debug)]
pub struct KeyVal<'a> {
    pub stat: YpStat,
    pub val: &'a [u8],
    pub key: &'a [u8],
}

impl Message for KeyVal<'_> {
    ghost kind = { key_val };

    ghost view = { key_val_view };

    ghost is_within = { KeyValIsWithin };

    fn len(&self) -> usize {
        self.stat.len() + opaque_len(self.val) + opaque_len(self.key)
    }

    fn set(&self, buf: &mut [u8], at: usize) -> usize {
        let at = self.stat.set(buf, at);
        let at = set_opaque(buf, at, self.val);
        set_opaque(buf, at, self.key)
    }
}

impl<'a> Fields<'a> for KeyVal<'a> {
    fn read_fields(cursor: &mut Cursor<'a>) -> Result<KeyVal<'a>, XdrFault> {
        let mut ahead = *cursor;
        let stat = YpStat::read_fields(&mut ahead)?;
        let val = ahead.opaque(VALUE_MAX)?;
        let key = ahead.opaque(KEY_MAX)?;
        *cursor = ahead;
        Ok(KeyVal { stat, val, key })
    }
}

/// An item of the result of ALL (`ypresp_all`).
#[derive(Clone, Copy, Debug)]
pub enum AllItem<'a> {
    /// One more row, or why there is none.
    More(KeyVal<'a>),
    /// No more items follow.
    End,
}

impl Message for AllItem<'_> {
    ghost kind = { all_item };

    ghost view = { all_item_view };

    ghost is_within = { AllItemIsWithin };

    fn len(&self) -> usize {
        match self {
            AllItem::More(row) => 4 + row.stat.len() + opaque_len(row.val) + opaque_len(row.key),
            AllItem::End => 4,
        }
    }

    fn set(&self, buf: &mut [u8], at: usize) -> usize {
        match self {
            AllItem::More(row) => {
                let at = set_bool(buf, at, true);
                row.set(buf, at)
            }
            AllItem::End => set_bool(buf, at, false),
        }
    }
}

impl<'a> Fields<'a> for AllItem<'a> {
    fn read_fields(cursor: &mut Cursor<'a>) -> Result<AllItem<'a>, XdrFault> {
        let mut ahead = *cursor;
        let item = if ahead.bool()? {
            AllItem::More(KeyVal::read_fields(&mut ahead)?)
        } else {
            AllItem::End
        };
        *cursor = ahead;
        Ok(item)
    }
}

/// The result of MASTER (`ypresp_master`).
#[derive(Clone, Copy, Debug)]
pub struct RespMaster<'a> {
    pub stat: YpStat,
    pub peer: &'a [u8],
}

impl Message for RespMaster<'_> {
    ghost kind = { resp_master };

    ghost view = { resp_master_view };

    ghost is_within = { RespMasterIsWithin };

    fn len(&self) -> usize {
        self.stat.len() + opaque_len(self.peer)
    }

    fn set(&self, buf: &mut [u8], at: usize) -> usize {
        let at = self.stat.set(buf, at);
        set_opaque(buf, at, self.peer)
    }
}

impl<'a> Fields<'a> for RespMaster<'a> {
    fn read_fields(cursor: &mut Cursor<'a>) -> Result<RespMaster<'a>, XdrFault> {
        let mut ahead = *cursor;
        let stat = YpStat::read_fields(&mut ahead)?;
        let peer = ahead.string(NAME_MAX)?;
        *cursor = ahead;
        Ok(RespMaster { stat, peer })
    }
}

/// The result of ORDER (`ypresp_order`).
#[derive(Clone, Copy, Debug, PartialEq, Eq)]
pub struct RespOrder {
    pub stat: YpStat,
    pub ordernum: u32,
}

impl Message for RespOrder {
    ghost kind = { resp_order };

    ghost view = { resp_order_view };

    ghost is_within = { λ _. Unit {0} };

    fn len(&self) -> usize {
        self.stat.len() + 4
    }

    fn set(&self, buf: &mut [u8], at: usize) -> usize {
        let at = self.stat.set(buf, at);
        set_u32(buf, at, self.ordernum)
    }
}

impl<'a> Fields<'a> for RespOrder {
    fn read_fields(cursor: &mut Cursor<'a>) -> Result<RespOrder, XdrFault> {
        let mut ahead = *cursor;
        let stat = YpStat::read_fields(&mut ahead)?;
        let ordernum = ahead.u32()?;
        *cursor = ahead;
        Ok(RespOrder { stat, ordernum })
    }
}
