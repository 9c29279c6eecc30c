//! The lines of a text.

ghost use Rattle.std.specs.Prelude.{◌≡◌, ◌==◌, not, ◌&&◌, ◌+◌, ◌<◌, ◌≤◌, ◌^◌, ◌∷◌, length, IfOk};
ghost use Rattle.std.specs.List.{before_first, after_first};
ghost use Rattle.yp_texts.specs.Lines.{is_line_feed, lines, lines_from, goes_on, joined};

use crate::words::{after, place_of};
use std::alloc::AllocError;

/// The first line, and what follows its line feed.
pub(crate) fn cut_line(text: &[u8]) -> (&[u8], &[u8])
    requires { 0 < length text.now }
    ensures lines { lines text.now ≡ result.0.now ∷ lines result.1.now }
    ensures shorter { length result.1.now < length text.now }
{
    let end = place_of(b'\n', text);
    (&text[..end], after(text, end))
}

/// Whether the last byte is a backslash.
fn goes_on(line: &[u8]) -> bool
    ensures { result ≡ goes_on line.now }
{
    !line.is_empty() && line[line.len() - 1] == b'\\'
}

/// Whether the line is joined with the one after it, where lines are joined and this rest follows.
pub(crate) fn is_continued(joins: bool, line: &[u8], rest: &[u8]) -> bool
    ensures { result ≡ (joins && (not (length rest.now == 0) && goes_on line.now)) }
{
    joins && (!rest.is_empty() && goes_on(line))
}

/// Puts the first line of a text, which has this number, into the buffer, with the lines in which it goes on. Answers
/// what follows them, and its number.
pub(crate) fn join<'a>(
    number: u32,
    text: &'a [u8],
    buffer: &mut Vec<u8>,
) -> Result<(&'a [u8], u32), AllocError>
    requires some { 0 < length text.now }
    requires numbers { number + length text.now < 2 ^ 32 }
    ensures lines { IfOk result (λ next.
        joined (lines_from number text.now) ≡ (number, buffer.new.items) ∷ joined (lines_from next.1 next.0.now)) }
    ensures shorter { IfOk result (λ next. length next.0.now < length text.now) }
    ensures numbers { IfOk result (λ next. next.1 + length next.0.now ≤ number + length text.now) }
{
    buffer.clear();
    let mut rest = text;
    let mut next = number;
    loop {
        let (line, more) = cut_line(rest);
        next += 1;
        if is_continued(true, line, more) {
            buffer.extend_from_slice(&line[..line.len() - 1])?;
            buffer.push(b' ')?;
            rest = more;
        } else {
            buffer.extend_from_slice(line)?;
            return Ok((more, next));
        }
    }
}
