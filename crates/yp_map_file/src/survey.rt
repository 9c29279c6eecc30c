//! Bodies, surveyed: each is read through a window, and of its rows only their number is kept.

ghost use Rattle.std.specs.Prelude.{◌≡◌, ◌+◌, ◌-◌, ◌<◌, ◌≤◌, ℕ, List, true, Some, length, take, drop, min};
ghost use Rattle.std.specs.Prelude.{IfOk, IfErr, IfSome, IsErrOf};
ghost use Rattle.std.specs.Option.{option_map};
ghost use Rattle.yp_io.specs.Counts.{CountsFaults, HasRisen};
ghost use Rattle.yp_version.specs.Limits.{master_max};
ghost use Rattle.yp_map_file.specs.inside.Stands.{standing};
ghost use Rattle.yp_map_file.specs.inside.Loads.{HasBody};
ghost use Rattle.yp_map_file.specs.Bodies.{rows_at};
ghost use Rattle.yp_map_file.specs.inside.Slots.{LiesWithin};
ghost use Rattle.yp_map_file.specs.inside.Surveys.{has_row, window_len, body_of, behind, MayFollow, ReadsOn};
ghost use Rattle.yp_map_file.specs.inside.Surveys.{FindsFront, FindsEnd, StepsOn, SurveysBody};

use crate::cells::Entry;
use crate::fault::SlotFault;
use crate::read::{read_front, read_row};
use crate::wrong::{BodyFault, Wrong};
use std::alloc::{AllocError, Global};
use yp_io::{Disk, Failed};
use yp_version::{KEY_MAX, MASTER_MAX, Order, VALUE_MAX};
use yp_xdr::Cursor;

/// The most bytes that are read of a body at once.
const WINDOW_LEN: usize = 1_048_576;

/// The most bytes of a row: its key and its value, each behind its length and padded.
const ROW_MAX: usize = 8 + KEY_MAX + VALUE_MAX;

/// The most bytes before the rows.
const FRONT_MAX: usize = 16 + MASTER_MAX;

/// A version but for its rows, of which it has the number.
#[derive(Drop)]
pub struct Summary {
    pub order: Order,
    pub master: Vec<u8>,
    pub secure: bool,
    pub rows: u32,
}

/// How far the rows of a body were read: the place of the next one, how many are left, and the key of the last one.
#[derive(Drop)]
struct Progress {
    at: usize,
    left: u32,
    last: Option<Vec<u8>>,
}

/// The rows of a window that were read: their number, the place behind them, and the key of the last one.
#[derive(Clone, Copy)]
struct Passed<'a> {
    rows: u32,
    at: usize,
    last: Option<&'a [u8]>,
}

/// Fills the front of a buffer with the bytes of a body from a place on, as many as there are and have room, and
/// answers how many.
fn look<D: Disk>(disk: &mut D, entry: &Entry, at: usize, buf: &mut [u8]) -> Result<usize, Failed>
    requires body { HasBody entry.now (D.history disk.old) }
    requires within { at ≤ entry.now.len }
    ensures count { IfOk result (λ n. n ≡ min (entry.now.len - at) (length buf.new)) }
    ensures bytes { IfOk result (λ n. IfSome (D.history disk.old) (λ h.
        take n buf.new ≡ take n (drop at (body_of entry.now h.state.reads)))) }
    ensures size { length buf.new ≡ length buf.old }
    ensures same { D.history disk.new ≡ D.history disk.old }
    ensures cause { CountsFaults (D.faults disk.old) (D.faults disk.new) result }
{
    let count = (entry.len as usize - at).min(buf.len());
    disk.read(entry.place + at as u64, &mut buf[..count])?;
    Ok(count)
}

/// Whether a row that begins so many bytes before the end of a window stands whole in it, or nothing follows it.
fn has_row(is_last: bool, left: usize) -> bool
    ensures { result ≡ has_row is_last left }
{
    is_last || ROW_MAX <= left
}

/// Reads at most so many rows of a window, up to the first of which less than the longest row has bytes is left, unless
/// nothing follows the window.
fn pass_rows<'a>(
    window: &'a [u8],
    is_last: bool,
    last: Option<&'a [u8]>,
    count: u32,
) -> Result<Passed<'a>, Wrong>
    ensures reads { IfOk result (λ passed. (n : ℕ) (more : List ℕ) → MayFollow is_last more
        → ReadsOn count (option_map (λ last. last.now) last.entry) (behind n window.now more 0) (count - passed.rows)
        (option_map (λ last. last.now) passed.last) (behind n window.now more passed.at)) }
    ensures wrong { IfErr result (λ wrong. (n : ℕ) (more : List ℕ) → MayFollow is_last more
        → rows_at count (option_map (λ last. last.now) last.entry) (behind n window.now more 0)
        ≡ Err (record { at = n + wrong.at; rule = wrong.rule })) }
    ensures within { IfOk result (λ passed. passed.at ≤ length window.now) }
    ensures wrong_within { IfErr result (λ wrong. wrong.at ≤ length window.now) }
    ensures few { IfOk result (λ passed. passed.rows ≤ count) }
    ensures some { IfOk result (λ passed. 0 < count → has_row is_last (length window.now) ≡ true → 0 < passed.rows) }
{
    let mut cursor = Cursor::new(window);
    let mut last = last;
    let mut rows = 0;
    while rows < count {
        let at = cursor.at();
        if has_row(is_last, window.len() - at) {
            let (key, _) = read_row(&mut cursor, last)?;
            last = Some(key);
            rows += 1;
        } else {
            return Ok(Passed { rows, at, last });
        }
    }
    Ok(Passed {
        rows,
        at: cursor.at(),
        last,
    })
}

/// The fault of a body in which this is wrong, so far behind a place of it.
fn fault_at(entry: &Entry, at: usize, wrong: Wrong) -> SlotFault
    requires body { LiesWithin entry.now }
    requires within { at + wrong.at ≤ entry.now.len }
    ensures { result ≡ SlotFault.Damaged (entry.now.place + (at + wrong.at)) wrong.rule }
{
    SlotFault::in_body(
        entry.place,
        BodyFault::Wrong(Wrong {
            at: at + wrong.at,
            rule: wrong.rule,
        }),
    )
}

/// The bytes of a key, if there is one.
fn bytes_of(key: &Option<Vec<u8>>) -> Option<&[u8]>
    ensures { option_map (λ key. key.now) result ≡ option_map (λ key. key.items) key.now }
{
    match key {
        None => None,
        Some(key) => Some(key.as_slice()),
    }
}

/// A copy of a key, if there is one.
fn copy_of(alloc: Global, key: Option<&[u8]>) -> Result<Option<Vec<u8>>, AllocError>
    ensures { IfOk result (λ copy. option_map (λ key. key.items) copy ≡ option_map (λ key. key.now) key.entry) }
{
    match key {
        None => Ok(None),
        Some(key) => Ok(Some(Vec::from_slice(alloc, key)?)),
    }
}

/// Reads some more of the rows, at least one.
fn step<D: Disk>(
    alloc: Global,
    disk: &mut D,
    entry: &Entry,
    buf: &mut [u8],
    progress: Progress,
) -> Result<Progress, SlotFault>
    requires body { HasBody entry.now (D.history disk.old) }
    requires within { progress.at ≤ entry.now.len }
    requires some { 0 < progress.left }
    requires room { length buf.old ≡ window_len }
    ensures steps { IfSome (D.history disk.old) (λ h.
        StepsOn entry.now.place (body_of entry.now h.state.reads) progress result) }
    ensures fewer { IfOk result (λ next. next.left < progress.left) }
    ensures within { IfOk result (λ next. next.at ≤ entry.now.len) }
    ensures room { length buf.new ≡ length buf.old }
    ensures same { D.history disk.new ≡ D.history disk.old }
    ensures never_falls { D.faults disk.old ≤ D.faults disk.new }
    ensures cause { IsErrOf result SlotFault.DiskFault → HasRisen (D.faults disk.old) (D.faults disk.new) }
{
    let Progress { at, left, last } = progress;
    let count = look(disk, entry, at, buf)?;
    let is_last = count == entry.len as usize - at;
    let passed = match pass_rows(&buf[..count], is_last, bytes_of(&last), left) {
        Ok(passed) => passed,
        Err(wrong) => return Err(fault_at(entry, at, wrong)),
    };
    Ok(Progress {
        at: at + passed.at,
        left: left - passed.rows,
        last: copy_of(alloc, passed.last)?,
    })
}

/// Reads all rows, of which the first stands at a place of the body, and answers the place behind them.
fn pass_all<D: Disk>(
    alloc: Global,
    disk: &mut D,
    entry: &Entry,
    buf: &mut [u8],
    start: usize,
    count: u32,
) -> Result<usize, SlotFault>
    requires body { HasBody entry.now (D.history disk.old) }
    requires within { start ≤ entry.now.len }
    requires room { length buf.old ≡ window_len }
    ensures ends { IfSome (D.history disk.old) (λ h.
        FindsEnd entry.now.place (body_of entry.now h.state.reads) count start result) }
    ensures within { IfOk result (λ end. end ≤ entry.now.len) }
    ensures same { D.history disk.new ≡ D.history disk.old }
    ensures never_falls { D.faults disk.old ≤ D.faults disk.new }
    ensures cause { IsErrOf result SlotFault.DiskFault → HasRisen (D.faults disk.old) (D.faults disk.new) }
{
    let mut progress = Progress {
        at: start,
        left: count,
        last: None,
    };
    while progress.left > 0 {
        progress = step(alloc, disk, entry, buf, progress)?;
    }
    Ok(progress.at)
}

/// Reads what stands before the rows, and answers the place of the first of them.
fn survey_front<D: Disk>(
    alloc: Global,
    disk: &mut D,
    entry: &Entry,
) -> Result<(Summary, usize), SlotFault>
    requires { HasBody entry.now (D.history disk.old) }
    ensures front { IfSome (D.history disk.old) (λ h.
        FindsFront entry.now.place (body_of entry.now h.state.reads) result) }
    ensures within { IfOk result (λ found. found.1 ≤ entry.now.len) }
    ensures master { IfOk result (λ found. length found.0.master.items ≤ master_max) }
    ensures same { D.history disk.new ≡ D.history disk.old }
    ensures never_falls { D.faults disk.old ≤ D.faults disk.new }
    ensures cause { IsErrOf result SlotFault.DiskFault → HasRisen (D.faults disk.old) (D.faults disk.new) }
{
    let mut buf = [0; FRONT_MAX];
    let count = look(disk, entry, 0, &mut buf)?;
    let mut cursor = Cursor::new(&buf[..count]);
    let front = match read_front(&mut cursor) {
        Ok(front) => front,
        Err(wrong) => return Err(fault_at(entry, 0, wrong)),
    };
    let master = Vec::from_slice(alloc, front.master)?;
    let summary = Summary {
        order: Order(front.order),
        master,
        secure: front.secure,
        rows: front.count,
    };
    Ok((summary, cursor.at()))
}

/// The summary of the version that a body in the file spells.
pub(crate) fn survey_body<D: Disk>(
    alloc: Global,
    disk: &mut D,
    entry: &Entry,
) -> Result<Summary, SlotFault>
    requires { HasBody entry.now (D.history disk.old) }
    ensures stands { IfSome (D.history disk.old) (λ h. SurveysBody (standing (Some entry.now) h.state.reads) result) }
    ensures master { IfOk result (λ summary. length summary.master.items ≤ master_max) }
    ensures same { D.history disk.new ≡ D.history disk.old }
    ensures never_falls { D.faults disk.old ≤ D.faults disk.new }
    ensures cause { IsErrOf result SlotFault.DiskFault → HasRisen (D.faults disk.old) (D.faults disk.new) }
{
    let (summary, start) = survey_front(alloc, disk, entry)?;
    let mut buf = vec![in alloc; 0; WINDOW_LEN]?;
    let end = pass_all(alloc, disk, entry, &mut buf, start, summary.rows)?;
    if end < entry.len as usize {
        return Err(fault_at(entry, end, Wrong { at: 0, rule: 9 }));
    }
    Ok(summary)
}
