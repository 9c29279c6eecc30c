//! Records read from a stream.

ghost use Rattle.std.specs.Prelude.{◌≡◌, ℕ, zero, ◌+◌, ◌-◌, ◌^◌, ◌<◌, ◌≤◌, false, List, [], ◌++◌, length, take, min};
ghost use Rattle.std.specs.Prelude.{Option, Some, None, IfOk, IfErr, IfSome, IfNone, OnErr};
ghost use Rattle.std.specs.Io.KnownBytes.{Consumes, IsAtEnd};
ghost use Rattle.yp_io.specs.Counts.{CountsFaults, last_count};
ghost use Rattle.yp_rpc.specs.Records.{empty_max, head, fragment, IsEmpty, TakesRecord, record_start, HasCause};
ghost use Rattle.yp_rpc.specs.inside.Records.{begun_record, HasNoFragment};
ghost use Rattle.yp_rpc.specs.Pieces.{not_begun};
ghost use Rattle.yp_rpc.specs.inside.Pieces.{between, HasGiven, GivesPiece, HasNoPiece};
ghost use Rattle.yp_rpc.specs.Parts.{part_of};

use crate::record::head::{HEAD, Head};
use crate::record::{EMPTY_MAX, RecordFault};
use std::marker::Model;
use yp_io::{Failed, Source};

// A record that was read: how many bytes it has, and the place behind it.
#[derive(Clone, Copy)]
struct Record {
    len: usize,
    end: u64,
}

// What was read of a record that isn't at its end. Where nothing was, it is `NOT_BEGUN`.
#[derive(Clone, Copy)]
struct Part {
    // the bytes and the empty fragments that its heads name
    named: u64,
    empty: usize,
    // the bytes of the present fragment that are still to come, and whether it is the last
    left: usize,
    last: bool,
    // the bytes of these fragments with their heads
    passed: u64,
}

const NOT_BEGUN: Part = Part {
    named: 0,
    empty: 0,
    left: 0,
    last: false,
    passed: 0,
};

/// Reads one record after another, each at once or piece by piece. It is seen as a place in the stream and what was
/// read of the record there. The place is how many bytes were taken as whole records, or 2^64 - 1 where there were
/// more.
#[derive(Drop)]
pub struct RecordReader {
    place: u64,
    part: Part,
}

impl Model for RecordReader {
    ghost use Rattle.yp_rpc.specs.Pieces.{ReaderState};

    ghost Value = { ReaderState };

    ghost use Rattle.yp_rpc.specs.Parts.{part_of};

    ghost view = { λ r. record { place = r.place; part = part_of r.part } };
}

impl RecordReader {
    /// A reader at the start of a stream.
    pub fn new() -> RecordReader
        ensures { result ≡ between 0 }
    {
        RecordReader {
            place: 0,
            part: NOT_BEGUN,
        }
    }

    /// The place in the stream at which its record begins, or 2^64 - 1 where that place is greater.
    pub fn place(&self) -> u64
        ensures { result ≡ self.now.place }
    {
        self.place
    }

    /// Reads the next record to the front of `buf`, and answers its length, or none where input ended before its first
    /// byte. `Torn` comes where input ended later than that, `TooLong` where the heads name more than `buf` holds or
    /// a 1,025th empty fragment, of which no byte behind the head is read, and `ReadFault` where the source failed.
    /// After an error the place is still that of the record, and the source may have gone on from there, by less than
    /// a record after `ReadFault`.
    pub fn next<S: Source>(
        &mut self,
        source: &mut S,
        buf: &mut [u8],
    ) -> Result<Option<usize>, RecordFault>
        requires { self.old.part ≡ not_begun }
        // a record: `n` bytes at the front of `buf`
        ensures within { IfOk result (λ found. IfSome found (λ n. n ≤ length buf.new)) }
        ensures taken { IfOk result (λ found. IfSome found (λ n.
            TakesRecord (length buf.new) (take n buf.new)
            (S.input source.old) (S.input source.new) self.old.place self.new.place)) }
        // none: input had ended before a record's first byte
        ensures none { IfOk result
            (λ found. IfNone found (IsEmpty (S.input source.old) (S.input source.new) × (self.new ≡ self.old))) }
        ensures between { self.new.part ≡ not_begun }
        ensures cause { IfErr result (λ fault.
            HasCause (record_start (length buf.new) self.old.place (S.input source.old)) (S.input source.new)
            (S.faults source.old) (S.faults source.new) fault) }
        ensures stays { OnErr result (self.new ≡ self.old) }
        ensures counted { S.faults source.old ≤ S.faults source.new }
    {
        let Some(record) = read_record(source, buf, self.place)? else {
            return Ok(None);
        };
        self.place = record.end;
        Ok(Some(record.len))
    }

    /// Reads some of the next bytes of the present record to the front of `buf`, beginning one where none is begun, and
    /// answers how many: 0 exactly at the record's end. The record has at most `limit` bytes. Errors come as those of
    /// [`RecordReader::next`], with `limit` for the room of `buf`; and where input ends before the record's first byte,
    /// it is `Torn`.
    pub fn piece<S: Source>(
        &mut self,
        source: &mut S,
        buf: &mut [u8],
        limit: u64,
    ) -> Result<usize, RecordFault>
        requires { 0 < length buf.old }
        ensures within { IfOk result (λ n. n ≤ length buf.new) }
        // whatever was given of the record since its start
        ensures given { (front : List ℕ) (start : Option (List ℕ))
            → HasGiven limit front start (S.input source.old) self.old.part
            → IfOk result (λ n. GivesPiece (record_start limit self.old.place start) front (take n buf.new)
            (S.input source.new) self.new) }
        ensures cause { (front : List ℕ) (start : Option (List ℕ))
            → HasGiven limit front start (S.input source.old) self.old.part
            → IfErr result (λ fault. HasNoPiece (record_start limit self.old.place start) (S.input source.new)
            (S.faults source.old) (S.faults source.new) fault) }
        ensures stays { OnErr result (self.new ≡ self.old) }
        ensures counted { S.faults source.old ≤ S.faults source.new }
    {
        let given = read_piece(source, buf, self.part, limit, self.place)?;
        if given.count == 0 {
            self.place = self.place.saturating_add(given.part.passed);
            self.part = NOT_BEGUN;
        } else {
            self.part = given.part;
        }
        Ok(given.count)
    }
}

// A piece of a record: how many bytes it has, and what was then read of the record.
#[derive(Clone, Copy)]
struct Given {
    count: usize,
    part: Part,
}

// Reads a piece of a record that began at `place`, of which this part was read. It has no byte exactly at the end.
fn read_piece<S: Source>(
    source: &mut S,
    buf: &mut [u8],
    part: Part,
    limit: u64,
    place: u64,
) -> Result<Given, RecordFault>
    requires { 0 < length buf.old }
    ensures within { IfOk result (λ g. g.count ≤ length buf.new) }
    ensures more { (front : List ℕ) (start : Option (List ℕ))
        → HasGiven limit front start (S.input source.old) (part_of part)
        → IfOk result (λ g. 0 < g.count
        → HasGiven limit (front ++ take g.count buf.new) start (S.input source.new) (part_of g.part)) }
    ensures end { (front : List ℕ) (start : Option (List ℕ))
        → HasGiven limit front start (S.input source.old) (part_of part)
        → IfOk result (λ g. g.count ≡ 0
        → TakesRecord limit front start (S.input source.new) place (min (place + g.part.passed) last_count)) }
    ensures cause { (front : List ℕ) (start : Option (List ℕ))
        → HasGiven limit front start (S.input source.old) (part_of part)
        → IfErr result (λ fault. HasNoPiece (record_start limit place start) (S.input source.new)
        (S.faults source.old) (S.faults source.new) fault) }
    ensures counted { S.faults source.old ≤ S.faults source.new }
{
    let mut part = part;
    while part.left == 0 {
        if part.last {
            return Ok(Given { count: 0, part });
        }
        part = begin_fragment(source, part, limit, place)?;
    }
    let room = buf.len().min(part.left);
    let count = source.read(&mut buf[..room])?;
    if count == 0 {
        return Err(RecordFault::Torn { at: place });
    }
    part.left -= count;
    Ok(Given { count, part })
}

// Reads the head of the next fragment of a record that began at `place`, where those before it were read and were not
// the last. Behind a head that names too much nothing is read.
fn begin_fragment<S: Source>(
    source: &mut S,
    part: Part,
    limit: u64,
    place: u64,
) -> Result<Part, RecordFault>
    requires none_left { part.left ≡ 0 }
    requires more { part.last ≡ false }
    ensures given { (front : List ℕ) (start : Option (List ℕ))
        → HasGiven limit front start (S.input source.old) (part_of part)
        → IfOk result (λ p. HasGiven limit front start (S.input source.new) (part_of p)) }
    ensures nearer { IfOk result (λ p. (empty_max - p.empty) + (1 - p.left) < (empty_max - part.empty) + 1) }
    ensures cause { (front : List ℕ) (start : Option (List ℕ))
        → HasGiven limit front start (S.input source.old) (part_of part)
        → IfErr result (λ fault. HasNoPiece (record_start limit place start) (S.input source.new)
        (S.faults source.old) (S.faults source.new) fault) }
    ensures counted { S.faults source.old ≤ S.faults source.new }
{
    let Some(head) = read_head(source, place)? else {
        return Err(RecordFault::Torn { at: place });
    };
    let len = head.len as u64;
    if len > limit.saturating_sub(part.named) {
        return Err(RecordFault::TooLong { at: place });
    }
    if len == 0 && part.empty >= EMPTY_MAX {
        return Err(RecordFault::TooLong { at: place });
    }
    Ok(Part {
        named: part.named + len,
        empty: part.empty + usize::from(len == 0),
        left: head.len,
        last: head.last,
        passed: part.passed.saturating_add((HEAD + head.len) as u64),
    })
}

// Reads until `buf` is full or input ends, and answers how many bytes were read.
fn fill<S: Source>(source: &mut S, buf: &mut [u8]) -> Result<usize, Failed>
    ensures within { IfOk result (λ n. n ≤ length buf.new) }
    ensures bytes { IfOk result (λ n.
        Consumes (S.input source.old) (S.input source.new) (take n buf.new)) }
    ensures end { IfOk result (λ n. n < length buf.new → IsAtEnd (S.input source.new)) }
    // before a failure some bytes may have been read, but not all
    ensures part { OnErr result ((bytes : List ℕ) × (length bytes < length buf.new)
        × Consumes (S.input source.old) (S.input source.new) bytes) }
    ensures cause { CountsFaults (S.faults source.old) (S.faults source.new) result }
{
    let mut filled = 0;
    while filled < buf.len() {
        let count = source.read(&mut buf[filled..])?;
        if count == 0 {
            return Ok(filled);
        }
        filled += count;
    }
    Ok(filled)
}

// Reads a head, or answers none where input has ended. `place` is where the record began.
fn read_head<S: Source>(source: &mut S, place: u64) -> Result<Option<Head>, RecordFault>
    ensures head { IfOk result (λ found. IfSome found (λ f.
        Consumes (S.input source.old) (S.input source.new) (head f.last f.len))) }
    ensures short { IfOk result (λ found. IfSome found (λ f. f.len < 2 ^ 31)) }
    ensures none { IfOk result (λ found. IfNone found
        (IsEmpty (S.input source.old) (S.input source.new))) }
    // whatever room and empty fragments there are
    ensures cause { (room empty : ℕ) → IfErr result (λ fault. HasNoFragment (begun_record room empty place)
        (S.input source.old) (S.input source.new)
        (S.faults source.old) (S.faults source.new) fault) }
    ensures counted { S.faults source.old ≤ S.faults source.new }
{
    let mut bytes = [0; HEAD];
    match fill(source, &mut bytes)? {
        0 => Ok(None),
        HEAD => Ok(Some(Head::from_bytes(bytes))),
        _ => Err(RecordFault::Torn { at: place }),
    }
}

// Reads the next fragment of a record to the front of `room`, or answers none where input has ended. The record began
// at `place`, and has `empty` fragments of no byte so far. Behind a head that names too much nothing is read.
fn read_fragment<S: Source>(
    source: &mut S,
    room: &mut [u8],
    empty: usize,
    place: u64,
) -> Result<Option<Head>, RecordFault>
    ensures within { IfOk result (λ found. IfSome found (λ f. f.len ≤ length room.new)) }
    ensures short { IfOk result (λ found. IfSome found (λ f. f.len < 2 ^ 31)) }
    ensures few { IfOk result (λ found. IfSome found (λ f. f.len ≡ 0 → empty < empty_max)) }
    ensures taken { IfOk result (λ found. IfSome found (λ f.
        Consumes (S.input source.old) (S.input source.new)
        (fragment f.last (take f.len room.new)))) }
    ensures none { IfOk result (λ found. IfNone found
        (IsEmpty (S.input source.old) (S.input source.new))) }
    ensures cause { IfErr result (λ fault. HasNoFragment (begun_record (length room.new) empty place)
        (S.input source.old) (S.input source.new)
        (S.faults source.old) (S.faults source.new) fault) }
    ensures counted { S.faults source.old ≤ S.faults source.new }
{
    let Some(fragment) = read_head(source, place)? else {
        return Ok(None);
    };
    if fragment.len > room.len() || (fragment.len == 0 && empty >= EMPTY_MAX) {
        return Err(RecordFault::TooLong { at: place });
    }
    if fill(source, &mut room[..fragment.len])? < fragment.len {
        return Err(RecordFault::Torn { at: place });
    }
    Ok(Some(fragment))
}

// Reads a record that begins at `place` to the front of `buf`, or answers none where input has ended.
fn read_record<S: Source>(
    source: &mut S,
    buf: &mut [u8],
    place: u64,
) -> Result<Option<Record>, RecordFault>
    ensures within { IfOk result (λ found. IfSome found (λ r. r.len ≤ length buf.new)) }
    ensures taken { IfOk result (λ found. IfSome found (λ r.
        TakesRecord (length buf.new) (take r.len buf.new)
        (S.input source.old) (S.input source.new) place r.end)) }
    ensures none { IfOk result (λ found. IfNone found
        (IsEmpty (S.input source.old) (S.input source.new))) }
    ensures cause { IfErr result (λ fault.
        HasCause (record_start (length buf.new) place (S.input source.old)) (S.input source.new)
        (S.faults source.old) (S.faults source.new) fault) }
    ensures counted { S.faults source.old ≤ S.faults source.new }
{
    let mut len = 0;
    let mut empty = 0;
    let mut end = place;
    'fragments: loop {
        let Some(fragment) = read_fragment(source, &mut buf[len..], empty, place)? else {
            if len == 0 && empty == 0 {
                return Ok(None);
            }
            return Err(RecordFault::Torn { at: place });
        };
        len += fragment.len;
        empty += usize::from(fragment.len == 0);
        end = end.saturating_add((HEAD + fragment.len) as u64);
        if fragment.last {
            return Ok(Some(Record { len, end }));
        }
    }
}
