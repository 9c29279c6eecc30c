//! Rows are pushed, with the lines that they come from.

ghost use Rattle.std.specs.Prelude.{◌≡◌, ◌≢◌, ◌+◌, ◌<◌, ◌≤◌, ◌^◌, ◌⊎◌, ◌∷◌, [], length, None, Some, Err, IfOk, OnOk};
ghost use Rattle.std.specs.Prelude.{IfErr};
ghost use Rattle.yp_io.specs.Texts.{text_max};
ghost use Rattle.yp_version.specs.Drafts.{with_rows};
ghost use Rattle.yp_texts.specs.Rows.{at_line, name_rows, line_rows, goes_over_lines, rows_from, rows};
ghost use Rattle.yp_texts.specs.Pushes.{fault_at, first_fault, plain};
ghost use Rattle.yp_texts.specs.inside.Pushes.{Pushed, Stopped};

use crate::fault::BuildFault;
use crate::kind::Kind;
use crate::lines::{cut_line, is_continued, join};
use crate::reading::Reading;
use crate::row::{one_row, plain_row};
use crate::words::{cut_word, uncommented};
use std::alloc::Global;
use yp_version::{VersionBuilder, VersionFault};

/// Why a row of a line is refused.
fn fault_at(line: u32, fault: VersionFault) -> BuildFault
    ensures { result ≡ fault_at line fault }
{
    match fault {
        VersionFault::KeyLong { .. } => BuildFault::KeyLong { line },
        VersionFault::ValueLong { .. } => BuildFault::ValueLong { line },
        VersionFault::TooManyRows => BuildFault::TooManyRows { line },
        VersionFault::TooBig => BuildFault::TooBig { line },
        VersionFault::NoMemory => BuildFault::NoMemory,
    }
}

/// Pushes a row of a line.
pub(crate) fn push_row(
    line: u32,
    key: &[u8],
    value: &[u8],
    into: &mut VersionBuilder,
) -> Result<(), BuildFault>
    ensures fits { OnOk result (first_fault into.old ((line, (key.now, value.now)) ∷ []) ≡ None) }
    ensures rows { OnOk result (into.new ≡ with_rows into.old ((key.now, value.now) ∷ [])) }
    ensures stopped { IfErr result (Stopped into.old ((line, (key.now, value.now)) ∷ []) into.new) }
{
    match into.push(key, value) {
        Ok(_) => Ok(()),
        Err(fault) => Err(fault_at(line, fault)),
    }
}

/// Pushes a row of a hosts line for each name, by names in their order.
fn push_names(number: u32, line: &[u8], into: &mut VersionBuilder) -> Result<(), BuildFault>
    ensures fits { OnOk result (first_fault into.old (at_line number (name_rows line.now)) ≡ None) }
    ensures rows { OnOk result (into.new ≡ with_rows into.old (plain (at_line number (name_rows line.now)))) }
    ensures stopped { IfErr result (Stopped into.old (at_line number (name_rows line.now)) into.new) }
{
    let Some((_, mut rest)) = cut_word(line) else {
        return Ok(());
    };
    while let Some((name, later)) = cut_word(rest) {
        push_row(number, name, line, into)?;
        rest = later;
    }
    Ok(())
}

/// Pushes the rows of a line.
fn push_line(
    reading: Reading,
    number: u32,
    line: &[u8],
    into: &mut VersionBuilder,
) -> Result<(), BuildFault>
    ensures fits { OnOk result (first_fault into.old (line_rows reading (number, line.now)) ≡ None) }
    ensures rows { OnOk result (into.new ≡ with_rows into.old (plain (line_rows reading (number, line.now)))) }
    ensures stopped { IfErr result (Stopped into.old (line_rows reading (number, line.now)) into.new) }
{
    let found = match reading {
        Reading::Text(Kind::HostsByname) => return push_names(number, uncommented(line), into),
        Reading::Text(kind) => one_row(kind, line),
        Reading::Rows => plain_row(line),
    };
    match found {
        Some((key, value)) => push_row(number, key, value, into),
        None => Ok(()),
    }
}

/// Whether lines go on in the next.
fn goes_over_lines(reading: Reading) -> bool
    ensures { result ≡ goes_over_lines reading }
{
    matches!(reading, Reading::Text(Kind::Netgroup))
}

/// Pushes the rows of the first line of a text, with the lines in which it goes on. Answers what follows them, and its
/// number. The buffer takes lines that are joined.
fn push_first<'a>(
    reading: Reading,
    number: u32,
    text: &'a [u8],
    buffer: &mut Vec<u8>,
    into: &mut VersionBuilder,
) -> Result<(&'a [u8], u32), BuildFault>
    requires some { 0 < length text.now }
    requires numbers { number + length text.now < 2 ^ 32 }
    ensures pushed { IfOk result (λ next.
        Pushed into.old (rows_from reading number text.now) (rows_from reading next.1 next.0.now) into.new) }
    ensures stopped { IfErr result (Stopped into.old (rows_from reading number text.now) into.new) }
    ensures shorter { IfOk result (λ next. length next.0.now < length text.now) }
    ensures numbers { IfOk result (λ next. next.1 + length next.0.now ≤ number + length text.now) }
{
    let (line, rest) = cut_line(text);
    if is_continued(goes_over_lines(reading), line, rest) {
        let (rest, next) = join(number, text, buffer)?;
        push_line(reading, number, buffer.as_slice(), into)?;
        return Ok((rest, next));
    }
    push_line(reading, number, line, into)?;
    Ok((rest, number + 1))
}

/// Pushes the rows of a text, in their order.
///
/// The line of a fault is counted from 1. Where lines are joined, it is the first of them.
pub fn rows_of(
    alloc: Global,
    reading: Reading,
    text: &[u8],
    into: &mut VersionBuilder,
) -> Result<(), BuildFault>
    requires { length text.now ≤ text_max }

    // All rows were taken.
    ensures fits { OnOk result (first_fault into.old (rows reading text.now) ≡ None) }
    ensures rows { OnOk result (into.new ≡ with_rows into.old (plain (rows reading text.now))) }

    // The fault is that of the first row that is refused, or memory ran out; the rows before it were taken.
    ensures cause { IfErr result (λ fault.
        (fault ≡ BuildFault.NoMemory) ⊎ (first_fault into.old (rows reading text.now) ≡ Some fault)) }
    ensures stopped { IfErr result (Stopped into.old (rows reading text.now) into.new) }
    ensures unspent { result ≢ Err BuildFault.OrderSpent }
{
    let mut buffer = Vec::new(alloc);
    let mut rest = text;
    let mut number = 1;
    while !rest.is_empty() {
        let (more, next) = push_first(reading, number, rest, &mut buffer, into)?;
        rest = more;
        number = next;
    }
    Ok(())
}
