//! The reply to ALL (yp.x), which may be longer than the buffer. It is read piece by piece, and its rows go to a
//! builder.

ghost use Rattle.std.specs.Prelude.{◌≡◌, ℕ, ◌+◌, ◌-◌, ◌*◌, ◌^◌, ◌<◌, ◌≤◌, ◌⊎◌, true, false, [], ◌++◌, List};
ghost use Rattle.std.specs.Prelude.{length, take, drop, IfOk, IfErr, OnOk, OnErr, option_map, Ok, Err};
ghost use Rattle.yp_xdr.specs.inside.Reading.{end_of};
ghost use Rattle.yp_xdr.specs.inside.Cursor.{unread};
ghost use Rattle.yp_rpc.specs.Pieces.{not_begun};
ghost use Rattle.yp_rpc.specs.inside.Pieces.{HasNoPiece};
ghost use Rattle.yp_rpc.specs.Records.{TakesRecord, record_start};
ghost use Rattle.yp_version.specs.Drafts.{refused, with_row};
ghost use Rattle.yp_client.specs.Limits.{reply_max, all_max};
ghost use Rattle.yp_client.specs.Results.{Says};
ghost use Rattle.yp_client.specs.Calls.{SendsCall, WaitsForReply, NoReply};
ghost use Rattle.yp_client.specs.inside.Calls.{IsOfReply};
ghost use Rattle.yp_client.specs.inside.States.{told_by, state_of, unspent};
ghost use Rattle.yp_client.specs.Asked.{all_call};
ghost use Rattle.yp_messages.specs.inside.Messages.{ReqNokeyIsWithin};
ghost use Rattle.yp_client.specs.All.{row_at, all_item_at, SaysAll};
ghost use Rattle.yp_client.specs.inside.All.{Grows};
ghost use Rattle.yp_client.specs.inside.Listed.{row_view};
ghost use Rattle.yp_client.specs.inside.Windows.{IsRowRefusal};

use crate::answers::read_results;
use crate::connection::Connection;
use crate::exchange::{RemoteProcedure, ask};
use crate::fault::ClientFault;
use crate::limits::ALL_MAX;
use std::snapshot::Snapshot;
use yp_io::{Failed, Sink, Source};
use yp_messages::protocol::{ALL, KEY_MAX, VALUE_MAX, YPPROG, YPVERS};
use yp_messages::{ReadMessage, ReqNokey, YpStat};
use yp_rpc::{RecordFault, RecordReader};
use yp_version::{VersionBuilder, VersionFault};
use yp_xdr::Cursor;

/// The most bytes of an item: two words, and a value and a key, each behind its length.
const ITEM_MAX: usize = 8 + (4 + VALUE_MAX as usize) + (4 + KEY_MAX as usize);

/// The reply to a call of ALL while it is read: where its next bytes stand in the buffer, their place in the record,
/// whether the record was read to its end, and how many rows it has given.
#[derive(Drop)]
pub struct AllReply {
    xid: u32,
    start: usize,
    end: usize,
    at: usize,
    whole: bool,
    rows: u32,
}

/// A row as it stands in the reply.
#[derive(Clone, Copy)]
struct ListedRow<'a> {
    key: &'a [u8],
    value: &'a [u8],
}

/// Reads a value, and then its key.
#[tactic(auto, unfolding(crate::specs::All::row_at))]
fn read_row<'a>(cursor: &mut Cursor<'a>) -> Result<ListedRow<'a>, ClientFault>
    ensures says { Says (λ row. (Some (row_view row), unread cursor.new)) (row_at (unread cursor.old)) result }
    ensures of_reply { IsOfReply result }
{
    let value = cursor.opaque(VALUE_MAX)?;
    let key = cursor.opaque(KEY_MAX)?;
    Ok(ListedRow { key, value })
}

/// Reads an item: a row, or that there are no more.
#[tactic(auto, unfolding(crate::specs::All::all_item_at, crate::specs::All::status_at))]
fn read_item<'a>(cursor: &mut Cursor<'a>) -> Result<Option<ListedRow<'a>>, ClientFault>
    ensures says { Says (λ found. (option_map row_view found, unread cursor.new))
        (all_item_at (unread cursor.old)) result }
    ensures of_reply { IsOfReply result }
{
    if !cursor.bool()? {
        return Ok(None);
    }
    match YpStat::read(cursor)? {
        YpStat::True => Ok(Some(read_row(cursor)?)),
        YpStat::Nomore => Ok(None),
        stat => Err(ClientFault::Yp(stat)),
    }
}

/// Pushes the row with this number.
fn push(into: &mut VersionBuilder, number: u32, row: ListedRow<'_>) -> Result<(), ClientFault>
    ensures fits { OnOk result (refused into.old (row_view row.entry) ≡ None) }
    ensures rows { OnOk result (into.new ≡ with_row into.old (row_view row.entry)) }
    ensures cause { IfErr result (IsRowRefusal number (refused into.old (row_view row.entry))) }
    ensures err { OnErr result (into.new ≡ into.old) }
{
    match into.push(row.key, row.value) {
        Ok(_) => Ok(()),
        Err(VersionFault::NoMemory) => Err(ClientFault::NoMemory),
        Err(fault) => Err(ClientFault::Rows { row: number, fault }),
    }
}

impl AllReply {
    ghost use Rattle.std.specs.Prelude.{slice_range};
    ghost use Rattle.yp_client.specs.inside.Windows.{waiting, ahead, progress, GivesMore, IsUnderway, MayCome};
    ghost use Rattle.yp_client.specs.inside.Windows.{StandsIn, HasItem, TakesMore, IsCutOff};
    ghost use Rattle.yp_client.specs.inside.Windows.{Heads, filling, Advances, answered, PushesRows, SaysSoFar};

    /// The reply to the call with this number, of which nothing was read.
    pub fn new(xid: u32) -> AllReply
        ensures { result ≡ record { xid = xid; start = 0; end = 0; at = 0; whole = false; rows = 0 } }
    {
        AllReply {
            xid,
            start: 0,
            end: 0,
            at: 0,
            whole: false,
            rows: 0,
        }
    }

    /// Moves what is still to be read to the front of the buffer.
    fn to_front(&mut self, buf: &mut [u8])
        requires { StandsIn self.old buf.old }
        ensures waiting { waiting self.new buf.new ≡ waiting self.old buf.old }
        ensures front { self.new.start ≡ 0 }
        ensures stands { StandsIn self.new buf.new }
        ensures same { self.new ≡ record self.old { start = self.new.start; end = self.new.end } }
    {
        buf.copy_within(self.start..self.end, 0);
        self.end -= self.start;
        self.start = 0;
    }

    /// Reads until the buffer is full or the record ends.
    fn read_on<S: Source>(
        &mut self,
        source: &mut S,
        reader: &mut RecordReader,
        buf: &mut [u8],
    ) -> Result<(), RecordFault>
        requires { StandsIn self.old buf.old }
        ensures more { OnOk result (TakesMore self.old self.new buf.old buf.new
            (progress (S.input source.old) reader.old self.old.whole)
            (progress (S.input source.new) reader.new self.new.whole)) }
        ensures full { OnOk result ((self.new.end ≡ length buf.new) ⊎ (self.new.whole ≡ true)) }
        ensures cause { IsCutOff result (progress (S.input source.old) reader.old self.old.whole)
            (S.input source.new) (S.faults source.old) (S.faults source.new) }
        ensures stands { StandsIn self.new buf.new }
        ensures same { self.new ≡ record self.old { end = self.new.end; whole = self.new.whole } }
        ensures counted { S.faults source.old ≤ S.faults source.new }
    {
        while !self.whole && self.end < buf.len() {
            let count = reader.piece(source, &mut buf[self.end..], ALL_MAX)?;
            self.end += count;
            self.whole = count == 0;
        }
        Ok(())
    }

    /// Has an item stand whole in the buffer, or all that is left of the record.
    fn have_item<S: Source>(
        &mut self,
        source: &mut S,
        reader: &mut RecordReader,
        buf: &mut [u8],
    ) -> Result<(), RecordFault>
        requires stands { StandsIn self.old buf.old }
        requires room { length buf.old ≡ reply_max }
        ensures more { OnOk result (TakesMore self.old self.new buf.old buf.new
            (progress (S.input source.old) reader.old self.old.whole)
            (progress (S.input source.new) reader.new self.new.whole)) }
        ensures item { OnOk result (HasItem self.new buf.new) }
        ensures cause { IsCutOff result (progress (S.input source.old) reader.old self.old.whole)
            (S.input source.new) (S.faults source.old) (S.faults source.new) }
        ensures stands { StandsIn self.new buf.new }
        ensures same { self.new ≡ record self.old
            { start = self.new.start; end = self.new.end; whole = self.new.whole } }
        ensures counted { S.faults source.old ≤ S.faults source.new }
    {
        if self.whole || self.end - self.start >= ITEM_MAX {
            return Ok(());
        }
        self.to_front(buf);
        self.read_on(source, reader, buf)
    }

    /// Passes bytes that were read.
    fn pass(&mut self, count: usize)
        requires within { self.old.start + count ≤ self.old.end }
        requires place { self.old.at + count < 2 ^ 64 }
        ensures { self.new ≡ record self.old { start = self.old.start + count; at = self.old.at + count } }
    {
        self.start += count;
        self.at += count;
    }

    /// Reads the head, and passes it.
    fn read_head(&mut self, buf: &[u8]) -> Result<(), ClientFault>
        requires stands { StandsIn self.old buf.now }
        requires begin { self.old.at ≡ 0 }
        requires item { HasItem self.old buf.now }
        ensures says { (more : List ℕ) → MayCome more self.old.whole
            → Heads self.old.xid (waiting self.old buf.now ++ more) result (ahead self.new buf.now more) }
        ensures of_reply { IsOfReply result }
        ensures total { self.new.at + length (waiting self.new buf.now)
            ≡ self.old.at + length (waiting self.old buf.now) }
        ensures stands { StandsIn self.new buf.now }
        ensures same { self.new ≡ record self.old { start = self.new.start; at = self.new.at } }
    {
        let results = read_results(&buf[self.start..self.end], self.xid)?;
        self.pass(results.at());
        Ok(())
    }

    /// Reads the next item, which stands whole in the buffer, and passes it.
    fn next_row<'a>(&mut self, buf: &'a [u8]) -> Result<Option<ListedRow<'a>>, ClientFault>
        requires stands { StandsIn self.old buf.now }
        requires item { HasItem self.old buf.now }
        requires count { self.old.at + length (waiting self.old buf.now) ≤ all_max }
        ensures says { (more : List ℕ) → MayCome more self.old.whole
            → Says (λ found. (option_map row_view found, ahead self.new buf.now more))
            (all_item_at (ahead self.old buf.now more)) result }
        ensures of_reply { IsOfReply result }
        ensures never_back { self.old.at ≤ self.new.at }
        ensures forward { OnOk result (self.old.at < self.new.at) }
        ensures total { self.new.at + length (waiting self.new buf.now)
            ≡ self.old.at + length (waiting self.old buf.now) }
        ensures stands { StandsIn self.new buf.now }
        ensures same { self.new ≡ record self.old { start = self.new.start; at = self.new.at } }
    {
        let mut cursor = Cursor::new(&buf[self.start..self.end]);
        match read_item(&mut cursor) {
            Ok(found) => {
                self.pass(cursor.at());
                Ok(found)
            }
            Err(fault) => Err(fault.further(self.at)),
        }
    }

    /// Reads the next item, and pushes a row. It answers whether it was one, or that there are no more.
    fn push_next(&mut self, buf: &[u8], into: &mut VersionBuilder) -> Result<bool, ClientFault>
        requires stands { StandsIn self.old buf.now }
        requires item { HasItem self.old buf.now }
        requires count { self.old.at + length (waiting self.old buf.now) ≤ all_max }
        requires few { self.old.rows ≤ self.old.at }
        ensures advances { (more : List ℕ) (n : ℕ) → MayCome more self.old.whole
            → Advances (filling into.old self.old buf.now more) (filling into.new self.new buf.now more) result n }
        ensures kept { Grows into.old into.new }
        ensures of_reply { IsOfReply result }
        ensures forward { OnOk result (self.old.at < self.new.at) }
        ensures total { self.new.at + length (waiting self.new buf.now)
            ≡ self.old.at + length (waiting self.old buf.now) }
        ensures few { self.new.rows ≤ self.new.at }
        ensures stands { StandsIn self.new buf.now }
        ensures same { self.new ≡ record self.old { start = self.new.start; at = self.new.at; rows = self.new.rows } }
    {
        let Some(row) = self.next_row(buf)? else {
            return Ok(false);
        };
        self.rows += 1;
        push(into, self.rows, row)?;
        Ok(true)
    }

    /// Reads on, and pushes the rows up to the end of them or the first refusal.
    fn push_rows<S: Source>(
        &mut self,
        source: &mut S,
        reader: &mut RecordReader,
        buf: &mut [u8],
        into: &mut VersionBuilder,
    ) -> Result<Result<(), ClientFault>, RecordFault>
        requires stands { StandsIn self.old buf.old }
        requires room { length buf.old ≡ reply_max }
        requires underway { IsUnderway (self.old.at + length (waiting self.old buf.old))
            (progress (S.input source.old) reader.old self.old.whole) }
        requires few { self.old.rows ≤ self.old.at }
        ensures pushes { IfOk result (λ end. PushesRows into.old self.old buf.old
            (progress (S.input source.old) reader.old self.old.whole)
            (progress (S.input source.new) reader.new self.new.whole) (answered into.new self.new end)) }
        ensures kept { Grows into.old into.new }
        ensures of_reply { IfOk result IsOfReply }
        ensures underway { OnOk result
            (IsUnderway (self.new.at + length (waiting self.new buf.new))
            (progress (S.input source.new) reader.new self.new.whole)) }
        ensures cause { IsCutOff result (progress (S.input source.old) reader.old self.old.whole)
            (S.input source.new) (S.faults source.old) (S.faults source.new) }
        ensures stands { StandsIn self.new buf.new }
        ensures counted { S.faults source.old ≤ S.faults source.new }
    {
        loop {
            self.have_item(source, reader, buf)?;
            match self.push_next(buf, into) {
                Ok(true) => {}
                Ok(false) => return Ok(Ok(())),
                Err(fault) => return Ok(Err(fault)),
            }
        }
    }

    /// Reads the head and the rows, as far as they go.
    fn read_rows<S: Source>(
        &mut self,
        source: &mut S,
        reader: &mut RecordReader,
        buf: &mut [u8],
        into: &mut VersionBuilder,
    ) -> Result<Result<(), ClientFault>, RecordFault>
        requires new { self.old ≡ record { xid = self.old.xid; start = 0; end = 0; at = 0; whole = false; rows = 0 } }
        requires room { length buf.old ≡ reply_max }
        requires between { reader.old.part ≡ not_begun }
        ensures says { IfOk result
            (λ end. SaysSoFar into.old self.old.xid (answered into.new self.new end) (S.input source.old)
            reader.old.place (progress (S.input source.new) reader.new self.new.whole)) }
        ensures kept { Grows into.old into.new }
        ensures of_reply { IfOk result IsOfReply }
        ensures underway { OnOk result
            (IsUnderway (self.new.at + length (waiting self.new buf.new))
            (progress (S.input source.new) reader.new self.new.whole)) }
        ensures cause { IfErr result
            (HasNoPiece (record_start all_max reader.old.place (S.input source.old)) (S.input source.new)
            (S.faults source.old) (S.faults source.new)) }
        ensures stands { StandsIn self.new buf.new }
        ensures counted { S.faults source.old ≤ S.faults source.new }
    {
        self.have_item(source, reader, buf)?;
        match self.read_head(buf) {
            Ok(()) => self.push_rows(source, reader, buf, into),
            Err(fault) => Ok(Err(fault)),
        }
    }

    /// Skips the rest of the record.
    fn skip<S: Source>(
        &mut self,
        source: &mut S,
        reader: &mut RecordReader,
        buf: &mut [u8],
    ) -> Result<(), RecordFault>
        requires stands { StandsIn self.old buf.old }
        requires room { 0 < length buf.old }
        requires underway { IsUnderway (self.old.at + length (waiting self.old buf.old))
            (progress (S.input source.old) reader.old self.old.whole) }
        ensures more { OnOk result ((more : List ℕ) × (MayCome more self.old.whole)
            × GivesMore more (progress (S.input source.old) reader.old self.old.whole)
            (progress (S.input source.new) reader.new true)) }
        ensures cause { IsCutOff result (progress (S.input source.old) reader.old self.old.whole)
            (S.input source.new) (S.faults source.old) (S.faults source.new) }
        ensures counted { S.faults source.old ≤ S.faults source.new }
    {
        self.pass(self.end - self.start);
        while !self.whole {
            let count = reader.piece(source, buf, ALL_MAX)?;
            self.at += count;
            self.whole = count == 0;
        }
        Ok(())
    }

    /// Reads the whole reply, and pushes its rows up to the end of them or the first refusal. It answers what the reply
    /// says, or why there is none.
    pub fn read<S: Source>(
        &mut self,
        source: &mut S,
        reader: &mut RecordReader,
        buf: &mut [u8],
        into: &mut VersionBuilder,
    ) -> Result<Result<(), ClientFault>, RecordFault>
        requires new { self.old ≡ record { xid = self.old.xid; start = 0; end = 0; at = 0; whole = false; rows = 0 } }
        requires room { length buf.old ≡ reply_max }
        requires between { reader.old.part ≡ not_begun }
        ensures says { IfOk result (λ end. (message : List ℕ)
            × TakesRecord all_max message (S.input source.old) (S.input source.new) reader.old.place reader.new.place
            × SaysAll into.old into.new self.old.xid message end) }
        ensures kept { Grows into.old into.new }
        ensures of_reply { IfOk result IsOfReply }
        ensures between { OnOk result (reader.new.part ≡ not_begun) }
        ensures cause { IfErr result
            (HasNoPiece (record_start all_max reader.old.place (S.input source.old)) (S.input source.new)
            (S.faults source.old) (S.faults source.new)) }
        ensures counted { S.faults source.old ≤ S.faults source.new }
    {
        let said = self.read_rows(source, reader, buf, into)?;
        self.skip(source, reader, buf)?;
        Ok(said)
    }
}

impl<S: Source, K: Sink> Connection<S, K> {
    /// Sends a call of ALL, reads its reply to the end, and pushes the rows of it. It answers what the reply says, or
    /// why there is none.
    pub fn fetch(
        &mut self,
        asked: &ReqNokey<'_>,
        reply: &mut AllReply,
        into: &mut VersionBuilder,
    ) -> Result<Result<(), ClientFault>, ClientFault>
        requires idle { self.old.writer ≡ [] }
        requires between { self.old.reader.part ≡ not_begun }
        requires within { ReqNokeyIsWithin asked.now }
        requires room { length self.old.buf.items ≡ reply_max }
        requires new { reply.old ≡ record { xid = reply.old.xid; start = 0; end = 0; at = 0; whole = false; rows = 0 } }
        ensures idle { self.new.writer ≡ [] }
        ensures between { OnOk result (self.new.reader.part ≡ not_begun) }
        ensures room { length self.new.buf.items ≡ reply_max }
        ensures sent { SendsCall (all_call asked.now.domain.now asked.now.map.now reply.old.xid) result
            (told_by S.Source K.Sink self.old.wire) (told_by S.Source K.Sink self.new.wire) }
        ensures waited { WaitsForReply result (told_by S.Source K.Sink self.new.waited.value)
            (told_by S.Source K.Sink self.old.wire) (told_by S.Source K.Sink self.new.wire) }
        ensures says { IfOk result (λ said. (message : List ℕ)
            × TakesRecord all_max message (S.input self.old.wire.source)
            (S.input self.new.wire.source) self.old.reader.place self.new.reader.place
            × SaysAll into.old into.new reply.old.xid message said) }
        ensures kept { Grows into.old into.new }
        ensures of_reply { IfOk result IsOfReply }
        ensures cause { IfErr result (λ fault. NoReply all_max fault
            (state_of S.Source K.Sink (unspent self.old.wire reply.old.xid self.old.reader.place))
            (state_of S.Source K.Sink (unspent self.new.wire reply.old.xid self.new.reader.place))) }
        ensures reads { S.faults self.old.wire.source ≤ S.faults self.new.wire.source }
        ensures writes { K.faults self.old.wire.sink ≤ K.faults self.new.wire.sink }
    {
        let called = RemoteProcedure {
            prog: YPPROG,
            vers: YPVERS,
            procedure: ALL,
        };
        let sink = &mut self.wire.sink;
        if let Err(Failed) = ask(
            sink,
            &mut self.writer,
            &mut self.buf,
            reply.xid,
            called,
            asked,
        ) {
            return Err(ClientFault::WriteFault);
        }
        self.waited = Snapshot::of(&self.wire);
        Ok(reply.read(&mut self.wire.source, &mut self.reader, &mut self.buf, into)?)
    }
}
