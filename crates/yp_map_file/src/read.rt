//! Bodies, read.

ghost use Rattle.std.specs.Prelude.{◌≡◌, ◌+◌, ◌≤◌, None, true, length, option_map, IfOk, OnOk};
ghost use Rattle.yp_xdr.specs.inside.Cursor.{unread};
ghost use Rattle.yp_xdr.specs.inside.Reading.{IsBytes};
ghost use Rattle.yp_version.specs.Limits.{key_max, value_max, master_max, rows_max, body_max};
ghost use Rattle.yp_version.specs.Rows.{padded, row_len};
ghost use Rattle.yp_map_file.specs.Bodies.{head_at, row_at, rows_at, body_at, is_over};
ghost use Rattle.yp_map_file.specs.inside.Bodies.{Finds, Passes};
ghost use Rattle.yp_map_file.specs.inside.Heads.{head_view, ReadsRows, FindsBody, ReadsBody};

use crate::wrong::{BodyFault, Wrong};
use std::alloc::Global;
use std::random::RandomSource;
use yp_io::NoMemory;
use yp_version::{KEY_MAX, MASTER_MAX, Order, ROWS_MAX, StoredBody, VALUE_MAX, Version};
use yp_xdr::Cursor;

/// The first word of a body whose version isn't secure.
pub(crate) const PLAIN: u32 = 1;

/// The first word of a body whose version is secure.
pub(crate) const SECURE: u32 = 2;

/// What stands before the rows.
#[derive(Clone, Copy)]
pub(crate) struct FileFront<'a> {
    pub secure: bool,
    pub order: u32,
    pub master: &'a [u8],
    pub count: u32,
}

/// Reads what stands before the rows.
#[tactic(auto, using(crate::proofs::Past::word, crate::proofs::Past::opaque), unfolding(crate::specs::Bodies::head_at))]
pub(crate) fn read_front<'a>(cursor: &mut Cursor<'a>) -> Result<FileFront<'a>, Wrong>
    ensures read { Finds (head_at (unread cursor.old)) head_view result (unread cursor.new) }
    ensures passed { OnOk result (Passes (unread cursor.old) (unread cursor.new)) }
    ensures place { IfOk result (λ front. (unread cursor.new).at
        ≡ (unread cursor.old).at + 16 + padded (length front.master.now)) }
    ensures master { IfOk result (λ front. length front.master.now ≤ master_max) }
    ensures count { IfOk result (λ front. front.count ≤ rows_max) }
{
    let start = cursor.at();
    let secure = match cursor.u32()? {
        PLAIN => false,
        SECURE => true,
        _ => return Err(Wrong { at: start, rule: 6 }),
    };
    let order = cursor.u32()?;
    let master = cursor.string(MASTER_MAX as u32)?;
    let place = cursor.at();
    let count = cursor.u32()?;
    if count > ROWS_MAX as u32 {
        return Err(Wrong { at: place, rule: 7 });
    }
    Ok(FileFront {
        secure,
        order,
        master,
        count,
    })
}

/// Whether a key is over the one before it, if there is one.
fn is_over(last: Option<&[u8]>, key: &[u8]) -> bool
    ensures { result ≡ is_over (option_map (λ last. last.now) last.entry) key.now }
{
    match last {
        Some(last) => last.cmp(key).is_lt(),
        None => true,
    }
}

/// Reads a row, whose key has to be over the one before it.
#[tactic(auto, using(crate::proofs::Past::opaque), unfolding(crate::specs::Bodies::row_at))]
pub(crate) fn read_row<'a>(
    cursor: &mut Cursor<'a>,
    last: Option<&[u8]>,
) -> Result<(&'a [u8], &'a [u8]), Wrong>
    ensures read { Finds (row_at (option_map (λ last. last.now) last.entry) (unread cursor.old))
        (λ row. (row.0.now, row.1.now)) result (unread cursor.new) }
    ensures passed { OnOk result (Passes (unread cursor.old) (unread cursor.new)) }
    ensures place { IfOk result (λ row. (unread cursor.new).at
        ≡ (unread cursor.old).at + row_len (row.0.now, row.1.now)) }
    ensures over { IfOk result (λ row. is_over (option_map (λ last. last.now) last.entry) row.0.now ≡ true) }
    ensures key { IfOk result (λ row. length row.0.now ≤ key_max) }
    ensures value { IfOk result (λ row. length row.1.now ≤ value_max) }
{
    let place = cursor.at();
    let key = cursor.opaque(KEY_MAX as u32)?;
    if !is_over(last, key) {
        return Err(Wrong { at: place, rule: 8 });
    }
    let value = cursor.opaque(VALUE_MAX as u32)?;
    Ok((key, value))
}

/// Reads this many rows, and answers the place of each.
fn read_rows(alloc: Global, cursor: &mut Cursor<'_>, count: u32) -> Result<Vec<u32>, BodyFault>
    requires count { count ≤ rows_max }
    requires size { (unread cursor.old).at + length (unread cursor.old).bytes ≤ body_max }
    ensures read { ReadsRows (rows_at count None (unread cursor.old)) (unread cursor.old).at
        result (unread cursor.new) }
    ensures passed { OnOk result (Passes (unread cursor.old) (unread cursor.new)) }
{
    let mut places = Vec::with_capacity(alloc, count as usize).map_err(|_| NoMemory)?;
    let mut last: Option<&[u8]> = None;
    for _number in 0..count {
        let place = cursor.at() as u32;
        let (key, _) = read_row(cursor, last)?;
        places.push(place).map_err(|_| NoMemory)?;
        last = Some(key);
    }
    Ok(places)
}

/// What a body holds: all but its rows, and the place of each of these.
#[derive(Drop)]
pub(crate) struct BodyParts {
    pub secure: bool,
    pub order: u32,
    pub master: Vec<u8>,
    pub places: Vec<u32>,
}

/// Reads a body, or finds the first thing that is wrong in it.
#[tactic(auto, unfolding(crate::specs::Bodies::body_at))]
fn find(alloc: Global, body: &[u8]) -> Result<BodyParts, BodyFault>
    requires { length body.now ≤ body_max }
    ensures finds { FindsBody (body_at body.now) result }
    ensures are_bytes { IsBytes body.now }
{
    let mut cursor = Cursor::new(body);
    let front = read_front(&mut cursor)?;
    let places = read_rows(alloc, &mut cursor, front.count)?;
    if cursor.at() < body.len() {
        return Err(BodyFault::Wrong(Wrong {
            at: cursor.at(),
            rule: 9,
        }));
    }
    let master = Vec::from_slice(alloc, front.master).map_err(|_| NoMemory)?;
    Ok(BodyParts {
        secure: front.secure,
        order: front.order,
        master,
        places,
    })
}

/// The version that a body spells, or the first thing that is wrong in it. The version takes the body as it is.
pub(crate) fn read_version(
    alloc: Global,
    rt: &impl RandomSource,
    body: Vec<u8>,
) -> Result<Version, BodyFault>
    requires { length body.items ≤ body_max }
    ensures { ReadsBody (body_at body.items) result }
{
    crate::laws::read_is_body();
    let BodyParts {
        secure,
        order,
        master,
        places,
    } = find(alloc, &body)?;
    let stored = StoredBody {
        bytes: body,
        places,
    };
    Ok(Version::of_body(alloc, rt, Order(order), master, secure, stored)?)
}
