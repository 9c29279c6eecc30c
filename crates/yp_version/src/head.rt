//! What stands before the rows in the body of a version.

ghost use Rattle.std.specs.Prelude.{◌≡◌, ◌+◌, ◌≤◌, length, IfOk};
ghost use Rattle.yp_version.specs.Rows.{padded};
ghost use Rattle.yp_version.specs.Limits.{master_max, rows_max};
ghost use Rattle.yp_version.specs.Bodies.{format, front_bytes};

use crate::limits::{HEAD_LEN, padded};
use std::alloc::Global;
use yp_io::NoMemory;
use yp_xdr::{set_opaque, set_u32};

/// The first word of the body of a version that isn't secure.
const PLAIN: u32 = 1;

/// The first word of the body of a secure version.
const SECURE: u32 = 2;

// The first word of a body.
pub(crate) fn format_of(secure: bool) -> u32
    ensures { result ≡ format secure }
{
    if secure { SECURE } else { PLAIN }
}

// What stands before this many rows of a version that isn't secure.
pub(crate) fn head_of(
    alloc: Global,
    order: u32,
    master: &[u8],
    count: usize,
) -> Result<Vec<u8>, NoMemory>
    requires master { length master.now ≤ master_max }
    requires count { count ≤ rows_max }
    ensures { IfOk result (λ head. head.items ≡ front_bytes 1 order master.now count) }
{
    let mut head = Vec::new(alloc);
    head.resize(HEAD_LEN + padded(master.len()), 0)
        .map_err(|_| NoMemory)?;
    set_front(&mut head, order, master, count);
    Ok(head)
}

// Writes what stands before this many rows, which fills the buffer.
#[tactic(auto, using(crate::proofs::Lengths::length_opaque), unfolding(crate::specs::Bodies::front_bytes))]
fn set_front(head: &mut [u8], order: u32, master: &[u8], count: usize)
    requires master { length master.now ≤ master_max }
    requires count { count ≤ rows_max }
    requires room { length head.old ≡ 16 + padded (length master.now) }
    ensures { head.new ≡ front_bytes 1 order master.now count }
{
    let at = set_u32(head, 0, PLAIN);
    let at = set_u32(head, at, order);
    let at = set_opaque(head, at, master);
    set_u32(head, at, count as u32);
}
