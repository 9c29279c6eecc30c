//! The row that a line makes.

ghost use Rattle.std.specs.Prelude.{◌≡◌, ◌≢◌, not, option_map, option_to_list};
ghost use Rattle.std.specs.List.{list_all};
ghost use Rattle.yp_version.specs.Blanks.{is_blank};
ghost use Rattle.yp_texts.specs.Rows.{is_entry, field_row, word_row, group_row, server_row, plain_row, rows_in};
ghost use Rattle.yp_texts.specs.inside.Rows.{row_view};

use crate::kind::Kind;
use crate::words::{cut_word, field, place_of_blank, uncommented};
use yp_version::{is_blank, without_front_blanks};

/// Whether all bytes are blanks.
fn is_all_blank(line: &[u8]) -> bool
    ensures { result ≡ list_all is_blank line.now }
{
    line.iter().all(|byte| is_blank(*byte))
}

/// Whether the line is an entry of passwd or group: it isn't blank, and doesn't begin with `#`, `+` or `-`.
fn is_entry(line: &[u8]) -> bool
    ensures { result ≡ is_entry line.now }
{
    !is_all_blank(line) && !(line.is_empty() || matches!(line[0], b'#' | b'+' | b'-'))
}

/// The row of an entry by the field of this number, from 0.
fn field_row(number: usize, line: &[u8]) -> Option<(&[u8], &[u8])>
    ensures { option_map row_view result ≡ field_row number line.now }
{
    if !is_entry(line) {
        return None;
    }
    let key = field(line, number)?;
    if key.is_empty() {
        None
    } else {
        Some((key, line))
    }
}

/// The row of an uncommented line by its first word.
fn first_word_row(line: &[u8]) -> Option<(&[u8], &[u8])>
    ensures { option_map row_view result ≡ word_row 0 line.now }
{
    let (word, _) = cut_word(line)?;
    Some((word, line))
}

/// The row of an uncommented line by its second word.
fn second_word_row(line: &[u8]) -> Option<(&[u8], &[u8])>
    ensures { option_map row_view result ≡ word_row 1 line.now }
{
    let (_, rest) = cut_word(line)?;
    let (word, _) = cut_word(rest)?;
    Some((word, line))
}

/// The row of a netgroup: the first word, and what follows the blanks after it.
fn group_row(line: &[u8]) -> Option<(&[u8], &[u8])>
    ensures { option_map row_view result ≡ group_row line.now }
{
    let (word, rest) = cut_word(line)?;
    Some((word, without_front_blanks(rest)))
}

/// The row of a server: the first word alone.
fn server_row(line: &[u8]) -> Option<(&[u8], &[u8])>
    ensures { option_map row_view result ≡ server_row line.now }
{
    let (word, _) = cut_word(line)?;
    Some((word, word))
}

/// The row that stands in a line: the key, then a tab or the first run of blanks, then the value. An empty line has
/// none.
pub(crate) fn plain_row(line: &[u8]) -> Option<(&[u8], &[u8])>
    ensures { option_map row_view result ≡ plain_row line.now }
{
    if line.is_empty() {
        return None;
    }
    let (key, rest) = line.split_at(place_of_blank(line));
    let value = match rest.first() {
        Some(b'\t') => &rest[1..],
        _ => without_front_blanks(rest),
    };
    Some((key, value))
}

/// The row of a line, for the kinds that make at most one.
pub(crate) fn one_row(kind: Kind, line: &[u8]) -> Option<(&[u8], &[u8])>
    requires { kind ≢ Kind.HostsByname }
    ensures { option_to_list (option_map row_view result) ≡ rows_in kind line.now }
{
    match kind {
        Kind::PasswdByname | Kind::GroupByname => field_row(0, line),
        Kind::PasswdByuid | Kind::GroupBygid => field_row(2, line),
        Kind::HostsByname => unreachable!(),
        Kind::HostsByaddr => first_word_row(uncommented(line)),
        Kind::ServicesByname | Kind::ProtocolsBynumber => second_word_row(uncommented(line)),
        Kind::Netgroup => group_row(uncommented(line)),
        Kind::Ypservers => server_row(uncommented(line)),
    }
}
