//! What comes of the reply to the outstanding call.

ghost use Rattle.std.specs.Prelude.{◌≡◌, ◌≤◌, length, None};
ghost use Rattle.yp_messages.specs.Numbers.{key_max};
ghost use Rattle.yp_client.specs.Results.{order_of, master_of, row_of};
ghost use Rattle.yp_transfer.specs.inside.walk.Kept.{wanted_in, standing_of, found_in, HasShortNames, IsRoomy};
ghost use Rattle.yp_transfer.specs.declared.walk.stage.WalkRequest.{WalkRequest};
ghost use Rattle.yp_transfer.specs.walk.Standings.{by_order, by_master, by_behind_key, by_row, by_first};
ghost use Rattle.yp_transfer.specs.inside.walk.Standings.{ComesTo};
ghost use Rattle.yp_transfer.specs.walk.Standings.{by_next, by_again, state_after};

use crate::walk::stage::{WalkRequest, WalkStage};
use crate::{XfrFault, against_order, begin};
use std::random::RandomSource;
use yp_client::{ClientFault, Row, read_found, read_master, read_order};
use yp_messages::{Message, ReqKey, YpStat};
use yp_rpc::DATAGRAM_MAX;
use yp_version::{Order, VersionBuilder, VersionFault};

/// The bytes of the head of a call.
const HEAD_LEN: usize = 40;

/// A row came twice, and the order is the same.
const TWICE: XfrFault = XfrFault::Xfrerr { at: 0 };

/// The source has no row any more with the key of the last one, and the order is the same.
const GONE: XfrFault = XfrFault::Yperr {
    stat: Some(YpStat::Nokey),
};

/// By the reply to the outstanding call, which has this number.
pub(crate) fn state_after(
    rt: &impl RandomSource,
    asked: &WalkRequest,
    xid: u32,
    stage: WalkStage,
    mail: &[u8],
) -> WalkStage
    requires { HasShortNames asked.now }
    ensures standing { ComesTo (state_after (wanted_in asked.now) xid (standing_of stage) mail.now)
        (standing_of result) }
    ensures room { IsRoomy asked.now result }
{
    match stage {
        WalkStage::Order => after_order(asked, mail, xid),
        WalkStage::Master(order) => after_master(rt, asked, order, mail, xid),
        WalkStage::First(builder) => {
            let room = Vec::new(asked.alloc);
            after_first(asked, builder, room, read_found(mail, xid))
        }
        WalkStage::Next { builder, key } => after_next(asked, builder, key, read_found(mail, xid)),
        WalkStage::Again(builder, why) => after_again(builder, why, mail, xid),
        WalkStage::Ended(outcome) => WalkStage::Ended(outcome),
    }
}

/// By the reply to the first ORDER.
fn after_order(asked: &WalkRequest, mail: &[u8], xid: u32) -> WalkStage
    ensures standing { standing_of result ≡ by_order (wanted_in asked.now) (order_of xid mail.now) }
    ensures room { IsRoomy asked.now result }
{
    match read_order(mail, xid) {
        Err(fault) => WalkStage::Ended(Err(fault.into())),
        Ok(order) => match against_order(asked.shown, asked.force, order) {
            Some(fault) => WalkStage::Ended(Err(fault)),
            None => WalkStage::Master(order),
        },
    }
}

/// By the reply to MASTER.
fn after_master(
    rt: &impl RandomSource,
    asked: &WalkRequest,
    order: Order,
    mail: &[u8],
    xid: u32,
) -> WalkStage
    ensures standing { ComesTo (by_master order (master_of xid mail.now)) (standing_of result) }
    ensures room { IsRoomy asked.now result }
{
    let begun = match read_master(mail, xid) {
        Ok(master) => begin(asked.alloc, rt, order, master),
        Err(fault) => Err(fault.into()),
    };
    match begun {
        Ok(builder) => WalkStage::First(builder),
        Err(fault) => WalkStage::Ended(Err(fault)),
    }
}

/// By what the reply to FIRST says. The key of the row goes to `room`.
fn after_first(
    asked: &WalkRequest,
    builder: VersionBuilder,
    room: Vec<u8>,
    found: Result<Row<'_>, ClientFault>,
) -> WalkStage
    requires { HasShortNames asked.now }
    ensures standing { ComesTo (by_first (wanted_in asked.now) builder (found_in found.entry)) (standing_of result) }
    ensures room { IsRoomy asked.now result }
{
    match found {
        Ok(row) => take_row(asked, builder, room, row),
        Err(ClientFault::Yp(YpStat::Nomore)) => WalkStage::Again(builder, None),
        Err(fault) => WalkStage::Ended(Err(fault.into())),
    }
}

/// By what the reply to NEXT says.
fn after_next(
    asked: &WalkRequest,
    builder: VersionBuilder,
    room: Vec<u8>,
    found: Result<Row<'_>, ClientFault>,
) -> WalkStage
    requires { HasShortNames asked.now }
    ensures standing { ComesTo (by_next (wanted_in asked.now) builder (found_in found.entry)) (standing_of result) }
    ensures room { IsRoomy asked.now result }
{
    match found {
        Err(ClientFault::Yp(YpStat::Nokey)) => WalkStage::Again(builder, Some(GONE)),
        found => after_first(asked, builder, room, found),
    }
}

/// Takes a row that came.
fn take_row(asked: &WalkRequest, builder: VersionBuilder, room: Vec<u8>, row: Row<'_>) -> WalkStage
    requires { HasShortNames asked.now }
    ensures standing { ComesTo (by_row (wanted_in asked.now) builder (row.entry.key.now, row.entry.value.now))
        (standing_of result) }
    ensures room { IsRoomy asked.now result }
{
    let mut builder = builder;
    match builder.push(row.key, row.value) {
        Ok(true) => ask_behind(asked, builder, room, row.key),
        Ok(false) => WalkStage::Again(builder, Some(TWICE)),
        Err(VersionFault::NoMemory) => WalkStage::Ended(Err(XfrFault::NoMemory)),
        Err(_) => WalkStage::Ended(Err(XfrFault::Dbm)),
    }
}

/// Goes on to the row behind that of a key, where the call for it fits into a datagram.
fn ask_behind(asked: &WalkRequest, builder: VersionBuilder, room: Vec<u8>, key: &[u8]) -> WalkStage
    requires names { HasShortNames asked.now }
    requires key { length key.now ≤ key_max }
    ensures standing { ComesTo (by_behind_key (wanted_in asked.now) builder key.now) (standing_of result) }
    ensures room { IsRoomy asked.now result }
{
    let next = ReqKey {
        domain: &asked.domain,
        map: &asked.map,
        key,
    };
    if HEAD_LEN + next.len() > DATAGRAM_MAX {
        return WalkStage::Ended(Err(XfrFault::Dbm));
    }
    let mut room = room;
    room.clear();
    match room.extend_from_slice(key) {
        Ok(()) => WalkStage::Next { builder, key: room },
        Err(_) => WalkStage::Ended(Err(XfrFault::NoMemory)),
    }
}

/// By the reply to the second ORDER.
fn after_again(builder: VersionBuilder, why: Option<XfrFault>, mail: &[u8], xid: u32) -> WalkStage
    ensures standing { standing_of result ≡ by_again builder why (order_of xid mail.now) }
    ensures room { (asked : WalkRequest) → IsRoomy asked result }
{
    let first = builder.order();
    match read_order(mail, xid) {
        Err(fault) => WalkStage::Ended(Err(fault.into())),
        Ok(second) if first != second => WalkStage::Ended(Err(XfrFault::Skew {
            first: first.number(),
            second: second.number(),
        })),
        Ok(_) => match why {
            None => WalkStage::Ended(Ok(builder)),
            Some(fault) => WalkStage::Ended(Err(fault)),
        },
    }
}
