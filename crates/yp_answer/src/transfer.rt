//! XFR: a map is fetched from the host that has it (yp.x).

ghost use Rattle.std.specs.Prelude.{◌≡◌, ◌<◌, ◌≤◌, length, take, IfOk};
ghost use Rattle.yp_messages.specs.inside.Transfers.{req_xfr_view};
ghost use Rattle.yp_answer.specs.declared.procedure.Procedure.TheVariants as procedures;
ghost use Rattle.yp_rpc.specs.Turns.{datagram_max};
ghost use Rattle.yp_answer.specs.inside.Numbers.{room_of};
ghost use Rattle.yp_answer.specs.Maps.{maps_of};
ghost use Rattle.yp_answer.specs.Transfer.{xfr_check};
ghost use Rattle.yp_answer.specs.Reply.{xfr_reply, asks_for};
ghost use Rattle.yp_answer.specs.Answers.{StepsWhere};
ghost use Rattle.yp_answer.specs.inside.Answers.{IsNoStream, IsReadAnswer};

use crate::arguments::read_refreshed;
use crate::caller::{Caller, put_head};
use crate::calls::Answered;
use yp_board::View;
use yp_messages::{Message, ReqXfr, RespXfr, XfrStat};
use yp_rpc::ReplyHead;
use yp_xdr::XdrFault;

/// A transfer that was taken: the number of its map from 0, the name of the host that has the map, and how to call
/// back: the transaction, the program and its port.
#[derive(Clone, Copy)]
pub struct TransferJob<'a> {
    pub map: u32,
    pub source: &'a [u8],
    pub transid: u32,
    pub prog: u32,
    pub port: u32,
}

/// The number of the map that is fetched, or the status that refuses to, the first that applies.
fn xfr_check<V: View>(view: &V, asked: &ReqXfr<'_>) -> Result<u32, XfrStat>
    ensures check { result ≡ xfr_check (maps_of (V.seen view.now)) (req_xfr_view asked.now) }
    ensures inside { IfOk result (λ map. map < length (V.seen view.now).catalogue.maps) }
    ensures named { IfOk result (λ map. 0 < length asked.now.peer.now) }
{
    if asked.domain.is_empty() || asked.map.is_empty() || asked.peer.is_empty() {
        return Err(XfrStat::Badargs);
    }
    if !view.catalog().serves(asked.domain) {
        return Err(XfrStat::Nodom);
    }
    let Some(map) = view.catalog().find(asked.domain, asked.map) else {
        return Err(XfrStat::Nomap);
    };
    match view.held(map) {
        Some(version) if version.master() == view.catalog().own() => Err(XfrStat::Refused),
        _ => Ok(map),
    }
}

/// Puts the reply of XFR with a status at the front of the buffer, and answers its length.
fn put_xfr(buf: &mut [u8], xid: u32, transid: u32, stat: XfrStat) -> usize
    requires { datagram_max ≤ length buf.old }
    ensures reply { take result buf.new ≡ xfr_reply xid transid stat }
    ensures within { result ≤ length buf.new }
    ensures some { 0 < result }
{
    let at = put_head(buf, xid, &ReplyHead::Success);
    RespXfr {
        transid,
        xfrstat: stat,
    }
    .set(buf, at)
}

/// Answers XFR: with the status that refuses it, or with SUCC and the transfer that is taken.
pub fn answer_xfr<'a, V: View>(
    view: &mut V,
    caller: &Caller,
    arguments: &'a [u8],
    buf: &mut [u8],
) -> Result<Answered<'a>, XdrFault>
    requires { room_of caller.now.path ≤ length buf.old }
    ensures reply { IsReadAnswer (maps_of (V.seen view.new)) caller.now procedures.Xfr arguments.now result buf.new }
    ensures step { StepsWhere (asks_for procedures.Xfr arguments.now) V.stepped V.seen view.old view.new }
    ensures no_stream { IfOk result IsNoStream }
{
    let asked: ReqXfr<'_> = read_refreshed(view, arguments)?;
    Ok(match xfr_check(view, &asked) {
        Err(stat) => Answered::Reply {
            len: put_xfr(buf, caller.xid, asked.transid, stat),
        },
        Ok(map) => Answered::Transfer {
            len: put_xfr(buf, caller.xid, asked.transid, XfrStat::Succ),
            job: TransferJob {
                map,
                source: asked.peer,
                transid: asked.transid,
                prog: asked.prog,
                port: asked.port,
            },
        },
    })
}
