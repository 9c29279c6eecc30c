//! The procedures that look a key or a row up: MATCH, FIRST and NEXT (yp.x).

ghost use Rattle.std.specs.Prelude.{◌≡◌, ◌+◌, ◌≤◌, length, take, IfOk};
ghost use Rattle.yp_xdr.specs.Kind.{Value};
ghost use Rattle.yp_xdr.specs.inside.Writing.{Sets};
ghost use Rattle.yp_messages.specs.Messages.{resp_val, key_val};
ghost use Rattle.yp_messages.specs.inside.Messages.{key_val_view};
ghost use Rattle.yp_version.specs.Limits.{key_max, value_max};
ghost use Rattle.yp_messages.specs.declared.stat.YpStat.TheVariants.{Yperr};
ghost use Rattle.yp_answer.specs.declared.procedure.Procedure.TheVariants as procedures;
ghost use Rattle.yp_answer.specs.inside.Numbers.{room_of};
ghost use Rattle.yp_answer.specs.Maps.{maps_of};
ghost use Rattle.yp_answer.specs.Results.{no_value, no_row, row_item, matched, first_row, next_row};
ghost use Rattle.yp_answer.specs.inside.ShownVersion.{checked};
ghost use Rattle.yp_answer.specs.Reply.{look_up, asks_for};
ghost use Rattle.yp_answer.specs.Answers.{StepsWhere};
ghost use Rattle.yp_answer.specs.inside.Answers.{IsPut};
ghost use Rattle.yp_answer.specs.inside.Items.{valued_bytes, IsStatusAndValue};

use crate::arguments::read_refreshed;
use crate::caller::{Caller, put_head};
use crate::check::{ShownVersion, row_check};
use crate::limits::exceeds;
use yp_board::View;
use yp_messages::{KeyVal, Message, ReqKey, ReqNokey, YpStat};
use yp_rpc::ReplyHead;
use yp_version::Next;
use yp_xdr::{XdrFault, set_bytes};

/// No value, behind its length.
const NO_VALUE: [u8; 4] = [0; 4];

/// What MATCH answers: a status, and a value as it stands in a version, behind its length and padded.
#[derive(Drop)]
struct Valued<'a> {
    stat: YpStat,
    val: &'a [u8],
}

/// A status without a value.
fn no_value(stat: YpStat) -> Valued<'static>
    ensures tells { IsStatusAndValue result (no_value stat) }
    ensures len { length result.val.now ≤ 4 }
{
    Valued {
        stat,
        val: &NO_VALUE,
    }
}

impl Valued<'_> {
    /// How many bytes it has.
    fn len(&self) -> usize
        ensures { result ≡ length (valued_bytes self.now) }
    {
        self.stat.len() + self.val.len()
    }

    /// Puts it at a place, and answers the place behind it.
    fn set(&self, buf: &mut [u8], at: usize) -> usize
        requires { at + length (valued_bytes self.now) ≤ length buf.old }
        ensures { Sets (valued_bytes self.now) at result buf.old buf.new }
    {
        let at = self.stat.set(buf, at);
        set_bytes(buf, at, self.val)
    }
}

/// A status without a row.
pub fn no_row(stat: YpStat) -> KeyVal<'static>
    ensures view { key_val_view result ≡ no_row stat }
    ensures val_len { length result.val.now ≤ value_max }
    ensures key_len { length result.key.now ≤ key_max }
{
    KeyVal {
        stat,
        val: &[],
        key: &[],
    }
}

/// A row.
pub fn row<'a>(key: &'a [u8], val: &'a [u8]) -> KeyVal<'a>
    ensures { key_val_view result ≡ row_item (key.now, val.now) }
{
    KeyVal {
        stat: YpStat::True,
        val,
        key,
    }
}

/// The value of a key.
fn matched<'a>(found: &Result<ShownVersion<'a>, YpStat>, key: &[u8]) -> Valued<'a>
    ensures tells { IsStatusAndValue result (matched key.now (checked found.now)) }
    ensures len { length result.val.now ≤ 4 + value_max }
{
    match found {
        Err(stat) => no_value(*stat),
        Ok(held) => match held.version.get_spelled(key) {
            None => no_value(YpStat::Nokey),
            Some(val) => Valued {
                stat: YpStat::True,
                val,
            },
        },
    }
}

/// The first row.
fn first_row<'a>(found: &Result<ShownVersion<'a>, YpStat>) -> KeyVal<'a>
    ensures view { key_val_view result ≡ first_row (checked found.now) }
    ensures val_len { length result.val.now ≤ value_max }
    ensures key_len { length result.key.now ≤ key_max }
{
    match found {
        Err(stat) => no_row(*stat),
        Ok(held) => match held.version.first() {
            None => no_row(YpStat::Nomore),
            Some((key, val)) => row(key, val),
        },
    }
}

/// The row behind the one with a key.
fn next_row<'a>(found: &Result<ShownVersion<'a>, YpStat>, key: &[u8]) -> KeyVal<'a>
    ensures view { key_val_view result ≡ next_row key.now (checked found.now) }
    ensures val_len { length result.val.now ≤ value_max }
    ensures key_len { length result.key.now ≤ key_max }
{
    match found {
        Err(stat) => no_row(*stat),
        Ok(held) => match held.version.next(key) {
            Next::Absent => no_row(YpStat::Nokey),
            Next::Last => no_row(YpStat::Nomore),
            Next::Row(key, val) => row(key, val),
        },
    }
}

/// Puts a reply with a value, or YPERR where a datagram can't carry it, and answers its length.
fn put_value(caller: &Caller, found: &Valued<'_>, buf: &mut [u8]) -> usize
    requires room { room_of caller.now.path ≤ length buf.old }
    requires len { length found.now.val.now ≤ 4 + value_max }
    ensures reply { (told : Value resp_val) → IsStatusAndValue found.now told → take result buf.new
        ≡ look_up caller.now.path caller.now.xid resp_val told (no_value Yperr) }
    ensures within { result ≤ length buf.new }
{
    let at = put_head(buf, caller.xid, &ReplyHead::Success);
    if exceeds(caller.path, at + found.len()) {
        return no_value(YpStat::Yperr).set(buf, at);
    }
    found.set(buf, at)
}

/// Puts a reply with a row, or YPERR where a datagram can't carry it, and answers its length.
fn put_row(caller: &Caller, found: &KeyVal<'_>, buf: &mut [u8]) -> usize
    requires room { room_of caller.now.path ≤ length buf.old }
    requires val_len { length found.now.val.now ≤ value_max }
    requires key_len { length found.now.key.now ≤ key_max }
    ensures reply { take result buf.new ≡ look_up caller.now.path caller.now.xid key_val (key_val_view found.now)
        (no_row Yperr) }
    ensures within { result ≤ length buf.new }
{
    let at = put_head(buf, caller.xid, &ReplyHead::Success);
    if exceeds(caller.path, at + found.len()) {
        return no_row(YpStat::Yperr).set(buf, at);
    }
    found.set(buf, at)
}

/// Answers MATCH.
pub fn answer_match<V: View>(
    view: &mut V,
    caller: &Caller,
    arguments: &[u8],
    buf: &mut [u8],
) -> Result<usize, XdrFault>
    requires { room_of caller.now.path ≤ length buf.old }
    ensures reply { IsPut (maps_of (V.seen view.new)) caller.now procedures.Match arguments.now result buf.new }
    ensures within { IfOk result (λ len. len ≤ length buf.new) }
    ensures step { StepsWhere (asks_for procedures.Match arguments.now) V.stepped V.seen view.old view.new }
{
    let asked: ReqKey<'_> = read_refreshed(view, arguments)?;
    let found = row_check(view, caller.peer.port, asked.domain, asked.map);
    Ok(put_value(caller, &matched(&found, asked.key), buf))
}

/// Answers FIRST.
pub fn answer_first<V: View>(
    view: &mut V,
    caller: &Caller,
    arguments: &[u8],
    buf: &mut [u8],
) -> Result<usize, XdrFault>
    requires { room_of caller.now.path ≤ length buf.old }
    ensures reply { IsPut (maps_of (V.seen view.new)) caller.now procedures.First arguments.now result buf.new }
    ensures within { IfOk result (λ len. len ≤ length buf.new) }
    ensures step { StepsWhere (asks_for procedures.First arguments.now) V.stepped V.seen view.old view.new }
{
    let asked: ReqNokey<'_> = read_refreshed(view, arguments)?;
    let found = row_check(view, caller.peer.port, asked.domain, asked.map);
    Ok(put_row(caller, &first_row(&found), buf))
}

/// Answers NEXT.
pub fn answer_next<V: View>(
    view: &mut V,
    caller: &Caller,
    arguments: &[u8],
    buf: &mut [u8],
) -> Result<usize, XdrFault>
    requires { room_of caller.now.path ≤ length buf.old }
    ensures reply { IsPut (maps_of (V.seen view.new)) caller.now procedures.Next arguments.now result buf.new }
    ensures within { IfOk result (λ len. len ≤ length buf.new) }
    ensures step { StepsWhere (asks_for procedures.Next arguments.now) V.stepped V.seen view.old view.new }
{
    let asked: ReqKey<'_> = read_refreshed(view, arguments)?;
    let found = row_check(view, caller.peer.port, asked.domain, asked.map);
    Ok(put_row(caller, &next_row(&found, asked.key), buf))
}
