//! The text of a group, and the members that it spells.

ghost use Rattle.std.specs.Prelude.{◌≡◌, ◌==◌, ◌<◌, ◌≤◌, length, map, option_map, position, is_some, slice_index};
ghost use Rattle.std.specs.Prelude.{[], ◌∷◌, IsTrue, IfOk, IfSome, IfNone};
ghost use Rattle.std.specs.List.{list_any, prefix_len, before_first, after_first};
ghost use Rattle.yp_netgroup.specs.Parts.{Lists, is_open, is_name_byte, triple_in, cut_triple, cut_name, parts};
ghost use Rattle.yp_netgroup.specs.inside.Member.{part_of, cut_of};

use std::alloc::Global;
use yp_io::NoMemory;
use yp_version::{bare, is_blank, without_front_blanks};

/// A member of a group. Its bytes are those of the text.
#[derive(Clone, Copy, Debug, PartialEq, Eq)]
pub enum Member<'a> {
    /// The members of the group with this name.
    Group(&'a [u8]),

    /// A host, a user and a domain, free of blanks at both ends. One that is empty stands for any, and `-` for none.
    Triple {
        host: &'a [u8],
        user: &'a [u8],
        domain: &'a [u8],
    },
}

// A byte of a name.
fn is_name_byte(byte: u8) -> bool
    ensures { result ≡ is_name_byte byte }
{
    !(is_blank(byte) || matches!(byte, b'(' | b')' | b','))
}

// How many bytes of a name are at the front.
fn name_len(text: &[u8]) -> usize
    ensures count { result ≡ prefix_len is_name_byte text.now }
    ensures within { result ≤ length text.now }
{
    for (i, byte) in text.iter().enumerate() {
        if !is_name_byte(*byte) {
            return i;
        }
    }
    text.len()
}

// The place of the first such byte.
fn place_of(mark: u8, text: &[u8]) -> Option<usize>
    ensures place { result ≡ position (λ b. b == mark) text.now }
    ensures within { IfSome result (λ place. place < length text.now) }
{
    text.iter().position(|byte| *byte == mark)
}

// What stands before the first such byte, and what follows it.
fn cut_at(mark: u8, text: &[u8]) -> Option<(&[u8], &[u8])>
    ensures found { is_some result ≡ list_any (λ b. b == mark) text.now }
    ensures before { IfSome result (λ cut. cut.0.now ≡ before_first (λ b. b == mark) text.now) }
    ensures after { IfSome result (λ cut. cut.1.now ≡ after_first (λ b. b == mark) text.now) }
{
    let place = place_of(mark, text)?;
    Some((&text[..place], &text[place + 1..]))
}

// The triple between two parentheses.
fn triple_in(inside: &[u8]) -> Option<Member<'_>>
    ensures { option_map part_of result ≡ option_map Lists (triple_in inside.now) }
{
    if inside.contains(&b'(') {
        return None;
    }
    let (host, rest) = cut_at(b',', inside)?;
    let (user, domain) = cut_at(b',', rest)?;
    if domain.contains(&b',') {
        return None;
    }
    Some(Member::Triple {
        host: bare(host),
        user: bare(user),
        domain: bare(domain),
    })
}

// Behind an opening parenthesis: the triple up to the first closing one, and what follows that.
#[tactic(auto, unfolding(crate::specs::Parts::cut_triple))]
fn cut_triple(text: &[u8]) -> Option<(Member<'_>, &[u8])>
    ensures { option_map cut_of result ≡ cut_triple text.now }
{
    let (inside, rest) = cut_at(b')', text)?;
    Some((triple_in(inside)?, rest))
}

// The longest name at the front, and what follows it.
#[tactic(auto, unfolding(crate::specs::Parts::cut_name))]
fn cut_name(text: &[u8]) -> Option<(Member<'_>, &[u8])>
    ensures { option_map cut_of result ≡ cut_name text.now }
{
    let len = name_len(text);
    if len == 0 {
        return None;
    }
    Some((Member::Group(&text[..len]), &text[len..]))
}

// Whether a triple is opened at the front.
fn is_opened(text: &[u8]) -> bool
    ensures opened { result ≡ is_open (slice_index text.now 0) }
    ensures some { IsTrue result → 0 < length text.now }
{
    !text.is_empty() && text[0] == b'('
}

/// The member at the front, behind blanks, and what follows it.
pub(crate) fn cut_member(text: &[u8]) -> Option<(Member<'_>, &[u8])>
    ensures none { IfNone result (parts text.now ≡ []) }
    ensures parts { IfSome result (λ cut. parts text.now ≡ part_of cut.0 ∷ parts cut.1.now) }
    ensures shorter { IfSome result (λ cut. length cut.1.now < length text.now) }
{
    let text = without_front_blanks(text);
    if is_opened(text) {
        cut_triple(&text[1..])
    } else {
        cut_name(text)
    }
}

/// The members of a group's text, in their order. Where neither a triple nor a name can be read, the rest is ignored.
pub fn members(alloc: Global, text: &[u8]) -> Result<Vec<Member<'_>>, NoMemory>
    ensures { IfOk result (λ members. map part_of members.items ≡ parts text.now) }
{
    let mut members = Vec::new(alloc);
    let mut rest = text;
    while let Some((member, later)) = cut_member(rest) {
        members.push(member).map_err(|_| NoMemory)?;
        rest = later;
    }
    Ok(members)
}
