//! A version of rows that are made of numbers, for tests and measurements.

ghost use Rattle.std.specs.Prelude.{◌≡◌, ◌+◌, ◌<◌, ◌≤◌, ◌⊎◌, ◌↔◌, length, codes, Err, IfOk, IfErr, OnOk};
ghost use Rattle.std.specs.Char.Escape.{hex_digit_at};
ghost use Rattle.yp_version.specs.Limits.{rows_max};
ghost use Rattle.yp_version.specs.Drafts.{with_row, with_rows, empty_draft, draft_len};
ghost use Rattle.yp_texts.specs.Samples.{samples, number_after, sample_key, sample_value, sampled};
ghost use Rattle.yp_texts.specs.inside.Samples.{samples_len};

use crate::fault::BuildFault;
use crate::push::push_row;
use std::alloc::{AllocError, Global};
use std::random::RandomSource;
use yp_version::{Order, ROWS_MAX, Version, VersionBuilder};

const MULTIPLIER: u64 = 1_664_525;

const INCREMENT: u64 = 1_013_904_223;

fn number_after(x: u32) -> u32
    ensures { result ≡ number_after x }
{
    ((u64::from(x) * MULTIPLIER + INCREMENT) % (1 << 32)) as u32
}

/// The hexadecimal digit that is worth so much.
fn hex_digit_at(worth: u32, x: u32) -> u8
    requires { 0 < worth }
    ensures { result ≡ hex_digit_at worth x }
{
    let digit = (x / worth % 16) as u8;
    if digit < 10 {
        b'0' + digit
    } else {
        b'a' + (digit - 10)
    }
}

fn sample_key(x: u32) -> [u8; 9]
    ensures { result ≡ sample_key x }
{
    [
        b'k',
        hex_digit_at(0x1000_0000, x),
        hex_digit_at(0x100_0000, x),
        hex_digit_at(0x10_0000, x),
        hex_digit_at(0x1_0000, x),
        hex_digit_at(0x1000, x),
        hex_digit_at(0x100, x),
        hex_digit_at(0x10, x),
        hex_digit_at(1, x),
    ]
}

fn sample_value(i: u32, into: &mut Vec<u8>) -> Result<(), AllocError>
    ensures { OnOk result (into.new.items ≡ sample_value i) }
{
    into.clear();
    into.push(b'v')?;
    into.extend_from_slice(itoa::Buffer::new().format(i).as_bytes())
}

/// Pushes a row. The builder has at most as many rows as went before, so it has room.
fn push_sample(
    i: u32,
    x: u32,
    value: &mut Vec<u8>,
    into: &mut VersionBuilder,
) -> Result<(), BuildFault>
    requires place { i < rows_max }
    requires rows { length into.old.rows ≤ i }
    requires body { draft_len into.old ≤ samples_len i }
    ensures row { OnOk result (into.new ≡ with_row into.old (sample_key x, sample_value i)) }
    ensures rows { OnOk result (length into.new.rows ≤ i + 1) }
    ensures body { OnOk result (draft_len into.new ≤ samples_len (i + 1)) }
    ensures cause { IfErr result (λ fault. fault ≡ BuildFault.NoMemory) }
{
    sample_value(i, value)?;
    push_row(i + 1, &sample_key(x), value.as_slice(), into)
}

/// Pushes `n` rows after the number `start` into a builder that has none.
fn push_samples(
    alloc: Global,
    start: u32,
    n: u32,
    into: &mut VersionBuilder,
) -> Result<(), BuildFault>
    requires few { n ≤ rows_max }
    requires none { into.old ≡ empty_draft 1 (codes "sample") }
    ensures rows { OnOk result (into.new ≡ with_rows into.old (samples 0 start n)) }
    ensures cause { IfErr result (λ fault. fault ≡ BuildFault.NoMemory) }
{
    let mut value = Vec::new(alloc);
    let mut x = start;
    for i in 0..n {
        x = number_after(x);
        push_sample(i, x, &mut value, into)?;
    }
    Ok(())
}

/// A version of `n` rows after the number `start`, with order 1 and master `sample`, with a table of its keys.
///
/// Row `i`, from 0, has the key `k` with the next number in eight hexadecimal digits, and the value `v` with `i` in
/// decimal. Above 262,144 rows it is refused at the first row over the limit, counted from 1.
pub fn sample(
    alloc: Global,
    rt: &impl RandomSource,
    start: u32,
    n: u32,
) -> Result<Version, BuildFault>
    ensures version { IfOk result (λ version. version ≡ sampled start n) }
    ensures cause { IfErr result (λ fault.
        (fault ≡ BuildFault.NoMemory) ⊎ (fault ≡ BuildFault.TooManyRows (rows_max + 1))) }
    ensures many { (result ≡ Err (BuildFault.TooManyRows (rows_max + 1))) ↔ (rows_max < n) }
{
    if n as usize > ROWS_MAX {
        return Err(BuildFault::TooManyRows {
            line: ROWS_MAX as u32 + 1,
        });
    }
    let mut builder = VersionBuilder::new(alloc, rt, Order(1), b"sample")?;
    push_samples(alloc, start, n, &mut builder)?;
    Ok(builder.finish()?.indexed(alloc))
}
