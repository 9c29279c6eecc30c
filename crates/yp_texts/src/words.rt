//! What stands in a line: fields, words, comments.

ghost use Rattle.std.specs.Prelude.{◌≡◌, ◌==◌, ◌+◌, ◌<◌, ◌≤◌, ◌∷◌, [], length, drop, option_map, IfNone, IfSome};
ghost use Rattle.std.specs.List.{slice_get, position_or_len, before_first, after_first};
ghost use Rattle.yp_version.specs.Blanks.{is_blank, without_front_blanks};
ghost use Rattle.yp_texts.specs.Words.{fields, words, uncommented};

use memchr::memchr;
use yp_version::{bare, is_blank, without_front_blanks};

/// The place of the first such byte, or the length where there is none.
pub(crate) fn place_of(mark: u8, text: &[u8]) -> usize
    ensures place { result ≡ position_or_len (λ b. b == mark) text.now }
    ensures within { result ≤ length text.now }
{
    memchr(mark, text).unwrap_or(text.len())
}

/// The place of the first blank, or the length where there is none.
pub(crate) fn place_of_blank(line: &[u8]) -> usize
    ensures place { result ≡ position_or_len is_blank line.now }
    ensures within { result ≤ length line.now }
{
    for (i, byte) in line.iter().enumerate() {
        if is_blank(*byte) {
            return i;
        }
    }
    line.len()
}

/// What follows the byte at this place, or nothing at the end.
pub(crate) fn after(text: &[u8], place: usize) -> &[u8]
    requires { place ≤ length text.now }
    ensures { result.now ≡ drop (place + 1) text.now }
{
    if place < text.len() {
        &text[place + 1..]
    } else {
        &[]
    }
}

/// The line without its comment and without the blanks at both ends.
pub(crate) fn uncommented(line: &[u8]) -> &[u8]
    ensures { result.now ≡ uncommented line.now }
{
    bare(&line[..place_of(b'#', line)])
}

/// The field of this number, from 0.
pub(crate) fn field(line: &[u8], number: usize) -> Option<&[u8]>
    ensures { option_map (λ field. field.now) result ≡ slice_get (fields line.now) number }
{
    line.split(|byte| *byte == b':').nth(number)
}

/// The first word, and what follows the blank after it.
pub(crate) fn cut_word(line: &[u8]) -> Option<(&[u8], &[u8])>
    ensures none { IfNone result (words line.now ≡ []) }
    ensures words { IfSome result (λ cut. words line.now ≡ cut.0.now ∷ words cut.1.now) }
    ensures rest { IfSome result (λ cut. cut.1.now ≡ after_first is_blank (without_front_blanks line.now)) }
    ensures shorter { IfSome result (λ cut. length cut.1.now < length line.now) }
{
    let line = without_front_blanks(line);
    if line.is_empty() {
        return None;
    }
    let end = place_of_blank(line);
    Some((&line[..end], after(line, end)))
}
