//! The procedures that tell of domains and maps, and not of rows (yp.x).

ghost use Rattle.std.specs.Prelude.{◌≡◌, ◌+◌, ◌*◌, ◌<◌, ◌≤◌, ◌++◌, length, slice_index_or, take, option_map, []};
ghost use Rattle.std.specs.Prelude.{IfSome, IfOk, MatchResult};
ghost use Rattle.yp_xdr.specs.Kind.{ListOf};
ghost use Rattle.yp_xdr.specs.Spelling.{spelling};
ghost use Rattle.yp_messages.specs.Statuses.{stat_number};
ghost use Rattle.yp_messages.specs.Numbers.{name_max};
ghost use Rattle.yp_messages.specs.Messages.{name};
ghost use Rattle.yp_messages.specs.inside.Messages.{resp_master_view};
ghost use Rattle.yp_messages.specs.MapLists.{map_list};
ghost use Rattle.yp_answer.specs.declared.procedure.Procedure.TheVariants as procedures;
ghost use Rattle.yp_rpc.specs.Turns.{datagram_max};
ghost use Rattle.yp_answer.specs.declared.facts.TheConstants.{MAP_MAX};
ghost use Rattle.yp_board.specs.declared.catalog.TheConstants.{MAPS_MAX};
ghost use Rattle.yp_answer.specs.Maps.{maps_of};
ghost use Rattle.yp_answer.specs.Results.{mastered, maps_in};
ghost use Rattle.yp_answer.specs.inside.Results.{map_part};
ghost use Rattle.yp_answer.specs.inside.ShownVersion.{checked};
ghost use Rattle.yp_answer.specs.Reply.{garbage, procedure_reply, asks_for};
ghost use Rattle.yp_answer.specs.inside.Reply.{bytes_or_silence};
ghost use Rattle.yp_answer.specs.Answers.{StepsWhere};
ghost use Rattle.yp_answer.specs.inside.Answers.{IsPut};

use crate::arguments::{read_arguments, read_refreshed};
use crate::caller::{Caller, put_head, put_truth};
use crate::check::{ShownVersion, map_check};
use yp_board::{MAPS_MAX, View};
use yp_messages::{MapItem, Message, ReqDomain, ReqNokey, RespMaster, RespOrder, YpStat};
use yp_rpc::ReplyHead;
use yp_xdr::XdrFault;

/// Answers DOMAIN.
pub fn answer_domain<V: View>(
    view: &V,
    caller: &Caller,
    arguments: &[u8],
    buf: &mut [u8],
) -> Result<usize, XdrFault>
    requires { datagram_max ≤ length buf.old }
    ensures reply { IsPut (maps_of (V.seen view.now)) caller.now procedures.Domain arguments.now result buf.new }
    ensures within { IfOk result (λ len. len ≤ length buf.new) }
{
    let asked: ReqDomain<'_> = read_arguments(arguments)?;
    let serves = view.catalog().serves(asked.domain);
    Ok(put_truth(buf, caller.xid, serves))
}

/// Answers DOMAIN_NONACK, or keeps silent where the domain isn't served.
pub fn answer_domain_nonack<V: View>(
    view: &V,
    caller: &Caller,
    arguments: &[u8],
    buf: &mut [u8],
) -> Result<Option<usize>, XdrFault>
    requires { datagram_max ≤ length buf.old }
    ensures reply { let expected = procedure_reply (maps_of (V.seen view.now)) caller.now procedures.DomainNonack
        arguments.now in MatchResult result
        (λ found. bytes_or_silence (option_map (λ len. take len buf.new) found) ≡ expected)
        (λ _. garbage caller.now.xid ≡ expected) }
    ensures within { IfOk result (λ found. IfSome found (λ len. len ≤ length buf.new)) }
{
    let asked: ReqDomain<'_> = read_arguments(arguments)?;
    if view.catalog().serves(asked.domain) {
        Ok(Some(put_truth(buf, caller.xid, true)))
    } else {
        Ok(None)
    }
}

/// The master of a version.
fn mastered<'a>(found: &Result<ShownVersion<'a>, YpStat>) -> RespMaster<'a>
    ensures view { resp_master_view result ≡ mastered (checked found.now) }
    ensures len { length result.peer.now ≤ name_max }
{
    match found {
        Err(stat) => RespMaster {
            stat: *stat,
            peer: &[],
        },
        Ok(held) => RespMaster {
            stat: YpStat::True,
            peer: held.version.master(),
        },
    }
}

/// Answers MASTER.
pub fn answer_master<V: View>(
    view: &mut V,
    caller: &Caller,
    arguments: &[u8],
    buf: &mut [u8],
) -> Result<usize, XdrFault>
    requires { datagram_max ≤ length buf.old }
    ensures reply { IsPut (maps_of (V.seen view.new)) caller.now procedures.Master arguments.now result buf.new }
    ensures within { IfOk result (λ len. len ≤ length buf.new) }
    ensures step { StepsWhere (asks_for procedures.Master arguments.now) V.stepped V.seen view.old view.new }
{
    let asked: ReqNokey<'_> = read_refreshed(view, arguments)?;
    let found = map_check(view, asked.domain, asked.map);
    let at = put_head(buf, caller.xid, &ReplyHead::Success);
    Ok(mastered(&found).set(buf, at))
}

/// Answers ORDER.
pub fn answer_order<V: View>(
    view: &mut V,
    caller: &Caller,
    arguments: &[u8],
    buf: &mut [u8],
) -> Result<usize, XdrFault>
    requires { datagram_max ≤ length buf.old }
    ensures reply { IsPut (maps_of (V.seen view.new)) caller.now procedures.Order arguments.now result buf.new }
    ensures within { IfOk result (λ len. len ≤ length buf.new) }
    ensures step { StepsWhere (asks_for procedures.Order arguments.now) V.stepped V.seen view.old view.new }
{
    let asked: ReqNokey<'_> = read_refreshed(view, arguments)?;
    let told = match map_check(view, asked.domain, asked.map) {
        Err(stat) => RespOrder { stat, ordernum: 0 },
        Ok(held) => RespOrder {
            stat: YpStat::True,
            ordernum: held.version.order().number(),
        },
    };
    let at = put_head(buf, caller.xid, &ReplyHead::Success);
    Ok(told.set(buf, at))
}

/// The most bytes that a map takes in a list: two words, and its name padded.
const MAP_MAX: usize = 8 + 68;

/// Puts the name of a map behind a place of the buffer, where it has this domain and a version. It answers the place
/// behind it.
fn put_map<V: View>(view: &V, map: u32, domain: &[u8], buf: &mut [u8], at: usize) -> usize
    requires inside { map < length (V.seen view.now).catalogue.maps }
    requires room { at + MAP_MAX ≤ length buf.old }
    ensures put { take result buf.new ≡ take at buf.old
        ++ map_part (maps_of (V.seen view.now)) domain.now
        (slice_index_or (V.seen view.now).catalogue.maps map ([], [])) }
    ensures within { result ≤ at + MAP_MAX }
    ensures forward { at ≤ result }
{
    let name = view.catalog().name(map);
    if name.domain.as_slice() != domain || view.held(map).is_none() {
        return at;
    }
    MapItem::More(&name.map).set(buf, at)
}

/// Puts the names of the maps of a domain that have a version behind a place of the buffer, and the end of the list. It
/// answers the place behind them.
fn put_maps<V: View>(view: &V, domain: &[u8], buf: &mut [u8], at: usize) -> usize
    requires { at + MAPS_MAX * MAP_MAX + 4 ≤ length buf.old }
    ensures put { take result buf.new ≡ take at buf.old
        ++ spelling (ListOf name) (maps_in (maps_of (V.seen view.now)) domain.now) }
    ensures within { result ≤ length buf.new }
{
    let mut end = at;
    for map in view.catalog().listed() {
        end = put_map(view, *map, domain, buf, end);
    }
    MapItem::End.set(buf, end)
}

/// Answers MAPLIST.
pub fn answer_maplist<V: View>(
    view: &mut V,
    caller: &Caller,
    arguments: &[u8],
    buf: &mut [u8],
) -> Result<usize, XdrFault>
    requires { datagram_max ≤ length buf.old }
    ensures reply { IsPut (maps_of (V.seen view.new)) caller.now procedures.Maplist arguments.now result buf.new }
    ensures within { IfOk result (λ len. len ≤ length buf.new) }
    ensures step { StepsWhere (asks_for procedures.Maplist arguments.now) V.stepped V.seen view.old view.new }
{
    let asked: ReqDomain<'_> = read_refreshed(view, arguments)?;
    let at = put_head(buf, caller.xid, &ReplyHead::Success);
    if asked.domain.is_empty() {
        return Ok(put_no_maps(buf, at, YpStat::Badargs));
    }
    if !view.catalog().serves(asked.domain) {
        return Ok(put_no_maps(buf, at, YpStat::Nodom));
    }
    let at = YpStat::True.set(buf, at);
    Ok(put_maps(view, asked.domain, buf, at))
}

/// Puts a status and an empty list behind a place of the buffer, and answers the place behind them.
fn put_no_maps(buf: &mut [u8], at: usize, stat: YpStat) -> usize
    requires { at + 8 ≤ length buf.old }
    ensures put { take result buf.new ≡ take at buf.old ++ spelling map_list (stat_number stat, []) }
    ensures within { result ≤ length buf.new }
{
    let at = stat.set(buf, at);
    MapItem::End.set(buf, at)
}
