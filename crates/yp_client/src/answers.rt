//! What a reply says to a call.

ghost use Rattle.std.specs.Prelude.{◌≡◌, ℕ, List, Result, Ok, Err, IfOk, IfErr};
ghost use Rattle.yp_xdr.specs.inside.Cursor.{unread};
ghost use Rattle.yp_client.specs.Results.{results_of, behind_true, Says};
ghost use Rattle.yp_client.specs.Results.{value_of, row_of, master_of, order_of, maps_of};
ghost use Rattle.yp_client.specs.inside.Results.{nothing_of, served_of};
ghost use Rattle.yp_client.specs.Results.{taken_of, made_of};
ghost use Rattle.yp_client.specs.inside.Calls.{IsOfReply};
ghost use Rattle.yp_client.specs.Said.{SaysNumber, SaysBytes, SaysNames, SaysStat};
ghost use Rattle.yp_client.specs.inside.Said.{SaysNothing, SaysBool, SaysRow};

use crate::fault::ClientFault;
use std::alloc::Global;
use yp_messages::protocol::{KEY_MAX, NAME_MAX, VALUE_MAX};
use yp_messages::{MapList, MapListFault, ReadMessage, RespMake, RespXfr, XfrStat, YpStat};
use yp_rpc::{ReplyHead, read_reply_at};
use yp_version::Order;
use yp_xdr::Cursor;

/// A row of a map, as it stands in a reply.
#[derive(Clone, Copy, Debug)]
pub struct Row<'a> {
    pub value: &'a [u8],
    pub key: &'a [u8],
}

/// What is taken from the reply to a call.
pub trait ProcedureResult {
    type Value;

    ghost use Rattle.yp_client.specs.declared.fault.ClientFault.{ClientFault};

    /// It is what the reply to the call with a number says.
    ghost answers: { ℕ → List ℕ → Result Self.Value ClientFault → Type 0 };

    /// Reads the whole record of the reply.
    fn judge(&self, alloc: Global, message: &[u8], xid: u32) -> Result<Self::Value, ClientFault>
        ensures answers { answers xid message.now result }
        ensures of_reply { IsOfReply result };
}

/// A cursor at the results of the reply to a call.
pub fn read_results<'a>(message: &'a [u8], xid: u32) -> Result<Cursor<'a>, ClientFault>
    ensures says { Says unread (results_of xid message.now) result }
    ensures of_reply { IsOfReply result }
{
    let mut cursor = Cursor::new(message);
    let read = read_reply_at(&mut cursor)?;
    if read.xid != xid {
        return Err(ClientFault::BadXid {
            want: xid,
            got: read.xid,
        });
    }
    match read.head {
        ReplyHead::Success => Ok(cursor),
        head => Err(ClientFault::Denied(head)),
    }
}

/// Reads a status that is TRUE.
fn read_true(cursor: &mut Cursor<'_>) -> Result<(), ClientFault>
    ensures says { Says (λ _. unread cursor.new) (behind_true (unread cursor.old)) result }
    ensures of_reply { IsOfReply result }
{
    match YpStat::read(cursor)? {
        YpStat::True => Ok(()),
        stat => Err(ClientFault::Yp(stat)),
    }
}

/// What is lent of the reply to a call.
pub trait Lending {
    ghost use Rattle.yp_client.specs.declared.fault.ClientFault.{ClientFault};

    /// What the reply to the call with a number says.
    ghost said: { ℕ → List ℕ → Result (List ℕ) ClientFault };

    /// Reads the whole record of the reply.
    fn read<'m>(&self, message: &'m [u8], xid: u32) -> Result<&'m [u8], ClientFault>
        ensures says { Says (λ bytes. bytes.now) (said xid message.now) result }
        ensures of_reply { IsOfReply result };
}

/// No results.
pub struct NullResult;

impl ProcedureResult for NullResult {
    type Value = ();

    ghost answers = { SaysNothing nothing_of };

    fn judge(&self, _alloc: Global, message: &[u8], xid: u32) -> Result<(), ClientFault> {
        let _results = read_results(message, xid)?;
        Ok(())
    }
}

/// The result of DOMAIN.
pub struct DomainResult;

impl ProcedureResult for DomainResult {
    type Value = bool;

    ghost answers = { SaysBool served_of };

    fn judge(&self, _alloc: Global, message: &[u8], xid: u32) -> Result<bool, ClientFault> {
        let mut cursor = read_results(message, xid)?;
        Ok(cursor.bool()?)
    }
}

/// The result of MATCH.
pub struct MatchResult;

impl Lending for MatchResult {
    ghost said = { value_of };

    fn read<'m>(&self, message: &'m [u8], xid: u32) -> Result<&'m [u8], ClientFault> {
        let mut cursor = read_results(message, xid)?;
        read_true(&mut cursor)?;
        Ok(cursor.opaque(VALUE_MAX)?)
    }
}

/// The result of MASTER.
pub struct MasterResult;

impl Lending for MasterResult {
    ghost said = { master_of };

    fn read<'m>(&self, message: &'m [u8], xid: u32) -> Result<&'m [u8], ClientFault> {
        read_master(message, xid)
    }
}

/// Reads the result of MASTER from the whole reply to the call with this number.
pub fn read_master(message: &[u8], xid: u32) -> Result<&[u8], ClientFault>
    ensures says { SaysBytes master_of xid message.now result }
    ensures of_reply { IsOfReply result }
{
    let mut cursor = read_results(message, xid)?;
    read_true(&mut cursor)?;
    Ok(cursor.string(NAME_MAX)?)
}

/// Reads the result of FIRST and NEXT from the whole reply to the call with this number.
pub fn read_found(message: &[u8], xid: u32) -> Result<Row<'_>, ClientFault>
    ensures says { SaysRow row_of xid message.now result }
    ensures of_reply { IsOfReply result }
{
    let mut cursor = read_results(message, xid)?;
    read_true(&mut cursor)?;
    let value = cursor.opaque(VALUE_MAX)?;
    let key = cursor.opaque(KEY_MAX)?;
    Ok(Row { value, key })
}

/// The result of ORDER.
pub struct OrderResult;

impl ProcedureResult for OrderResult {
    type Value = Order;

    ghost answers = { SaysNumber order_of };

    fn judge(&self, _alloc: Global, message: &[u8], xid: u32) -> Result<Order, ClientFault> {
        read_order(message, xid)
    }
}

/// Reads the result of ORDER from the whole reply to the call with this number.
pub fn read_order(message: &[u8], xid: u32) -> Result<Order, ClientFault>
    ensures says { SaysNumber order_of xid message.now result }
    ensures of_reply { IsOfReply result }
{
    let mut cursor = read_results(message, xid)?;
    read_true(&mut cursor)?;
    Ok(Order(cursor.u32()?))
}

/// The result of MAPLIST.
pub struct MaplistResult;

impl ProcedureResult for MaplistResult {
    type Value = MapList;

    ghost answers = { SaysNames maps_of };

    fn judge(&self, alloc: Global, message: &[u8], xid: u32) -> Result<MapList, ClientFault> {
        let mut cursor = read_results(message, xid)?;
        let mut ahead = cursor;
        read_true(&mut ahead)?;
        match MapList::read(alloc, &mut cursor) {
            Ok(list) => Ok(list),
            Err(MapListFault::Xdr(fault)) => Err(fault.into()),
            Err(MapListFault::NoMemory) => Err(ClientFault::NoMemory),
        }
    }
}

/// The result of XFR.
pub struct XfrResult;

impl ProcedureResult for XfrResult {
    type Value = XfrStat;

    ghost answers = { SaysStat taken_of };

    fn judge(&self, _alloc: Global, message: &[u8], xid: u32) -> Result<XfrStat, ClientFault> {
        let mut cursor = read_results(message, xid)?;
        let taken = RespXfr::read(&mut cursor)?;
        Ok(taken.xfrstat)
    }
}

/// The result of MAKE.
pub struct MakeResult;

impl ProcedureResult for MakeResult {
    type Value = XfrStat;

    ghost answers = { SaysStat made_of };

    fn judge(&self, _alloc: Global, message: &[u8], xid: u32) -> Result<XfrStat, ClientFault> {
        let mut cursor = read_results(message, xid)?;
        let made = RespMake::read(&mut cursor)?;
        Ok(made.stat)
    }
}
