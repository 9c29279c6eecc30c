//! The reply of ALL, given in pieces.

ghost use Rattle.std.specs.Prelude.{◌≡◌, ◌+◌, ◌<◌, ◌≤◌, ◌↔◌, ◌++◌, [], length, take, drop, slice_get, option_map, IfOk, IfSome};
ghost use Rattle.std.specs.Arc.{arc_value};
ghost use Rattle.yp_version.specs.Limits.{rows_max};
ghost use Rattle.yp_xdr.specs.inside.Writing.{Sets};
ghost use Rattle.yp_answer.specs.Numbers.{record_max};
ghost use Rattle.yp_answer.specs.Maps.{maps_of};
ghost use Rattle.yp_rpc.specs.Records.{joined};
ghost use Rattle.yp_answer.specs.inside.Streams.{GivesParts, item_parts, parts, parts_left, source_of, between};
ghost use Rattle.yp_answer.specs.inside.Streams.{filled_buffer, PutsParts, row_parts, rows_in};
ghost use Rattle.yp_answer.specs.inside.Streams.{held_by, held_of, held_parts, piece_max};
ghost use Rattle.yp_answer.specs.declared.stream.TheConstants.{ITEM_MAX};
ghost use Rattle.yp_answer.specs.inside.Answers.{StreamIsInside};
ghost use Rattle.yp_answer.specs.inside.Items.{items_view, item_bytes, spelled_item};
ghost use Rattle.yp_messages.specs.inside.Messages.{AllItemIsWithin};

use crate::caller::put_head;
use crate::look_up::no_row;
use std::marker::Model;
use std::sync::Arc;
use yp_board::View;
use yp_io::NoMemory;
use yp_messages::{AllItem, Message, YpStat};
use yp_rpc::ReplyHead;
use yp_version::{KEY_MAX, SpelledRows, VALUE_MAX, Version};
use yp_xdr::laws::sets_join;
use yp_xdr::set_bytes;

/// The bytes that are enough for one item: its two first words, and its value and key, each behind its length and
/// padded.
const ITEM_MAX: usize = 8 + (8 + VALUE_MAX) + (8 + KEY_MAX);

/// The bytes that a buffer for a piece needs: room for a head, and for the longest item.
pub const PIECE_MAX: usize = 135_168;

/// What stands before each row: that an item follows, and its status.
const ROW_HEAD: [u8; 8] = [0, 0, 0, 1, 0, 0, 0, 1];

/// The reply of ALL, which goes out in pieces of whole items. It is the reply on the one version that was shown when
/// the call was answered, as long as the view that it is taken from makes no read step.
#[derive(Drop)]
pub struct AllStream {
    xid: u32,
    source: Result<u32, YpStat>,
    given: usize,
}

impl Model for AllStream {
    ghost use Rattle.yp_answer.specs.inside.Streams.{Streamed};

    ghost Value = { Streamed };

    ghost view = { λ s. record { xid = s.xid; source = s.source; given = s.given } };
}

/// What ALL lists: the rows of a version, or the status that refuses it.
#[derive(Drop)]
enum Items<'a> {
    Rows(&'a Version),
    Refused(YpStat),
}

impl<'a> Items<'a> {
    /// The item with this number behind all rows: a status without a row, or the end.
    fn behind_rows(&self, i: usize) -> Option<AllItem<'a>>
        ensures item { rows_in (items_view self.now) ≤ i → option_map item_bytes result
            ≡ slice_get (item_parts (items_view self.now)) i }
        ensures behind { IfSome result (λ item. rows_in (items_view self.now) ≤ i) }
        ensures within { IfSome result AllItemIsWithin }
        ensures few { IfSome result (λ item. i ≤ rows_max) }
    {
        match self {
            Items::Rows(version) if i == version.len() => Some(AllItem::End),
            Items::Rows(_) => None,
            Items::Refused(stat) => match i {
                0 => Some(AllItem::More(no_row(*stat))),
                1 => Some(AllItem::End),
                _ => None,
            },
        }
    }
}

/// Puts a row, as its key and its value are spelled, at a place, and answers the place behind it.
fn set_row(buf: &mut [u8], at: usize, key: &[u8], val: &[u8]) -> usize
    requires { at + length (spelled_item (key.now, val.now)) ≤ length buf.old }
    ensures { Sets (spelled_item (key.now, val.now)) at result buf.old buf.new }
{
    sets_join();
    let at = set_bytes(buf, at, &ROW_HEAD);
    let at = set_bytes(buf, at, val);
    set_bytes(buf, at, key)
}

/// Puts rows from one number on behind a place of the buffer, as many as fit. It answers the place behind them and the
/// number of the next row.
fn put_rows(rows: &SpelledRows<'_>, buf: &mut [u8], at: usize, first: usize) -> (usize, usize)
    requires place { at ≤ length buf.old }
    requires count { length rows.now ≤ rows_max }
    ensures puts { PutsParts (row_parts rows.now) (filled_buffer first at buf.old)
        (filled_buffer result.1 result.0 buf.new) }
    ensures few { first < result.1 → result.1 ≤ rows_max }
    ensures some { first < length rows.now → at + ITEM_MAX ≤ length buf.old → at < result.0 }
{
    let mut end = at;
    let mut next = first;
    while let Some((key, val)) = rows.get(next) {
        if buf.len() - end < ROW_HEAD.len() + val.len() + key.len() {
            break;
        }
        end = set_row(buf, end, key, val);
        next += 1;
    }
    (end, next)
}

/// Puts the rows among items from one number on behind a place of the buffer, as many as fit. It answers the place
/// behind them and the number of the next item.
fn put_all_rows(items: &Items<'_>, buf: &mut [u8], at: usize, first: usize) -> (usize, usize)
    requires { at ≤ length buf.old }
    ensures puts { PutsParts (item_parts (items_view items.now)) (filled_buffer first at buf.old)
        (filled_buffer result.1 result.0 buf.new) }
    ensures few { first < result.1 → result.1 ≤ rows_max }
    ensures some { first < rows_in (items_view items.now) → at + ITEM_MAX ≤ length buf.old → at < result.0 }
{
    match items {
        Items::Rows(version) => put_rows(&version.spelled_rows(), buf, at, first),
        Items::Refused(_) => (at, first),
    }
}

/// Puts items from one number on behind a place of the buffer, as many as fit. It answers the place behind them and the
/// number of the next item.
fn put_items(items: &Items<'_>, buf: &mut [u8], at: usize, first: usize) -> (usize, usize)
    requires { at ≤ length buf.old }
    ensures put { take result.0 buf.new ≡ take at buf.old
        ++ joined (between first result.1 (item_parts (items_view items.now))) }
    ensures within { result.0 ≤ length buf.new }
    ensures forward { first ≤ result.1 }
    ensures few { first < result.1 → result.1 ≤ rows_max + 1 }
    ensures some { first < length (item_parts (items_view items.now)) → at + ITEM_MAX ≤ length buf.old → at < result.0 }
    ensures none { length (item_parts (items_view items.now)) ≤ first → result.0 ≡ at }
{
    let (mut end, mut next) = put_all_rows(items, buf, at, first);
    while let Some(item) = items.behind_rows(next) {
        if buf.len() - end < item.len() {
            break;
        }
        end = item.set(buf, end);
        next += 1;
    }
    (end, next)
}

/// Puts the next parts of a reply at the front of the buffer, as many whole ones as fit, where so many were given. It
/// answers their length in bytes, 0 exactly at the end, and how many were given then.
fn put_parts(items: &Items<'_>, xid: u32, given: usize, buf: &mut [u8]) -> (usize, usize)
    requires room { piece_max ≤ length buf.old }
    ensures gives { GivesParts (take result.0 buf.new) (drop given (parts xid (items_view items.now)))
        (drop result.1 (parts xid (items_view items.now))) }
    ensures end { (result.0 ≡ 0) ↔ (drop given (parts xid (items_view items.now)) ≡ []) }
    ensures within { result.0 ≤ length buf.new }
{
    if given == 0 {
        let at = put_head(buf, xid, &ReplyHead::Success);
        let (end, next) = put_items(items, buf, at, 0);
        return (end, next + 1);
    }
    let (end, next) = put_items(items, buf, 0, given - 1);
    (end, next + 1)
}

impl AllStream {
    /// The whole reply to a call: the rows of a map, or the status that refuses it.
    pub(crate) fn new(xid: u32, source: Result<u32, YpStat>) -> AllStream
        ensures { result ≡ record { xid = xid; source = source; given = 0 } }
    {
        AllStream {
            xid,
            source,
            given: 0,
        }
    }

    /// Puts the next parts of the reply at the front of the buffer, as many whole ones as fit, and answers their length
    /// in bytes: 0 exactly at the end.
    pub fn piece<V: View>(&mut self, view: &V, buf: &mut [u8]) -> usize
        requires room { record_max ≤ length buf.old }
        requires inside { StreamIsInside (maps_of (V.seen view.now)) self.old.source }
        ensures gives { GivesParts (take result buf.new) (parts_left (V.seen view.now).known self.old)
            (parts_left (V.seen view.now).known self.new) }
        ensures end { (result ≡ 0) ↔ (parts_left (V.seen view.now).known self.old ≡ []) }
        ensures same { self.new ≡ record self.old { given = self.new.given } }
        ensures within { result ≤ length buf.new }
    {
        let items = items_of(view, self.source);
        let (end, given) = put_parts(&items, self.xid, self.given, buf);
        self.given = given;
        end
    }

    /// The same stream with the version for itself, so that the view may go on. It is refused where the version has
    /// too many owners.
    pub fn hold<V: View>(self, view: &V) -> Result<HeldStream, NoMemory>
        requires { StreamIsInside (maps_of (V.seen view.now)) self.source }
        ensures { IfOk result (λ held. held ≡ held_of (V.seen view.now).known self) }
    {
        let AllStream { xid, source, given } = self;
        let source = held_source(view, source)?;
        Ok(HeldStream { xid, source, given })
    }
}

/// The version of a source, or the status that refuses it.
fn held_source<V: View>(
    view: &V,
    source: Result<u32, YpStat>,
) -> Result<Result<Arc<Version>, YpStat>, NoMemory>
    requires { StreamIsInside (maps_of (V.seen view.now)) source }
    ensures { IfOk result (λ held. held_by arc_value held ≡ source_of (V.seen view.now).known source) }
{
    match source {
        Err(stat) => Ok(Err(stat)),
        Ok(map) => match view.share(map)? {
            Some(version) => Ok(Ok(version)),
            None => Ok(Err(YpStat::Nomap)),
        },
    }
}

/// The reply of ALL on a version that it has for itself, which goes out in pieces of whole items.
#[derive(Drop)]
pub struct HeldStream {
    xid: u32,
    source: Result<Arc<Version>, YpStat>,
    given: usize,
}

impl Model for HeldStream {
    ghost use Rattle.std.specs.Arc.{arc_value};
    ghost use Rattle.yp_answer.specs.inside.Streams.{Held, held_by};

    ghost Value = { Held };

    ghost view = { λ h. record { xid = h.xid; source = held_by arc_value h.source; given = h.given } };
}

impl HeldStream {
    /// Puts the next parts of the reply at the front of the buffer, as many whole ones as fit, and answers their length
    /// in bytes: 0 exactly at the end.
    pub fn piece(&mut self, buf: &mut [u8]) -> usize
        requires { piece_max ≤ length buf.old }
        ensures gives { GivesParts (take result buf.new) (held_parts self.old) (held_parts self.new) }
        ensures end { (result ≡ 0) ↔ (held_parts self.old ≡ []) }
        ensures same { self.new ≡ record self.old { given = self.new.given } }
        ensures within { result ≤ length buf.new }
    {
        let items = held_items(&self.source);
        let (end, given) = put_parts(&items, self.xid, self.given, buf);
        self.given = given;
        end
    }
}

/// What is listed of a version, or of the status that refuses it.
fn held_items(source: &Result<Arc<Version>, YpStat>) -> Items<'_>
    ensures { items_view result ≡ held_by arc_value source.now }
{
    match source {
        Ok(version) => Items::Rows(&**version),
        Err(stat) => Items::Refused(*stat),
    }
}

/// What is listed of a source.
fn items_of<V: View>(view: &V, source: Result<u32, YpStat>) -> Items<'_>
    requires { StreamIsInside (maps_of (V.seen view.now)) source }
    ensures { items_view result ≡ source_of (V.seen view.now).known source }
{
    match source {
        Err(stat) => Items::Refused(stat),
        Ok(map) => match view.held(map) {
            Some(version) => Items::Rows(version),
            None => Items::Refused(YpStat::Nomap),
        },
    }
}
