//! Who is looked up in a reverse map, and when that is membership.

ghost use Rattle.std.specs.Prelude.{◌≡◌, [], ◌∷◌, IfOk, map, bytes_eq};
ghost use Rattle.std.specs.List.{list_any, slice_split};
ghost use Rattle.std.specs.Str.{str_to_ascii_lowercase};
ghost use Rattle.yp_version.specs.Rows.{value_of};
ghost use Rattle.yp_netgroup.specs.Parts.{is_comma, parts, triples};
ghost use Rattle.yp_netgroup.specs.inside.Member.{part_of as member_of};
ghost use Rattle.yp_netgroup.specs.reverse.Keys.{folded, dotted};
ghost use Rattle.yp_netgroup.specs.inside.reverse.Listed.{has_group, has_dot, keys_for, is_mixed, is_listed, is_split};

use crate::reverse::field::{ANY, Field, dotted, is_dash, lowered};
use crate::{Member, members};
use std::alloc::Global;
use yp_io::NoMemory;
use yp_version::Version;

// Whether a value lists a group: its groups have commas between.
fn lists(value: &[u8], group: &[u8]) -> bool
    ensures { result ≡ list_any (bytes_eq group.now) (slice_split is_comma value.now) }
{
    value
        .split(|byte| *byte == b',')
        .any(|other| group == other)
}

// Whether a group stands under a name and a domain.
fn stands(
    alloc: Global,
    reverse: &Version,
    group: &[u8],
    name: &[u8],
    domain: &[u8],
) -> Result<bool, NoMemory>
    ensures { IfOk result (λ stands. stands
        ≡ has_group group.now (value_of (dotted name.now domain.now) reverse.now.rows)) }
{
    let key = dotted(alloc, name, domain)?;
    match reverse.get(&key) {
        Some(value) => Ok(lists(value, group)),
        None => Ok(false),
    }
}

// Whether a group stands under a name and a domain, or under any in place of either.
fn stands_for(
    alloc: Global,
    reverse: &Version,
    group: &[u8],
    name: &[u8],
    domain: &[u8],
) -> Result<bool, NoMemory>
    ensures { IfOk result (λ stands. stands
        ≡ list_any (λ key. has_group group.now (value_of key reverse.now.rows)) (keys_for name.now domain.now)) }
{
    Ok(
        stands(alloc, reverse, group, name, domain)?
            || stands(alloc, reverse, group, name, ANY)?
            || stands(alloc, reverse, group, ANY, domain)?
            || stands(alloc, reverse, group, ANY, ANY)?,
    )
}

/// Whether a group is listed in a reverse map under a user, or a host, and a domain, or under any in place of either.
/// Of domains and hosts, upper and lower case of ASCII letters are one. It takes the memory of these names and of one
/// key.
#[tactic(auto, unfolding(crate::specs::inside::reverse::Listed::is_listed))]
pub fn listed_in(
    alloc: Global,
    reverse: &Version,
    field: Field,
    group: &[u8],
    name: &[u8],
    domain: &[u8],
) -> Result<bool, NoMemory>
    ensures { IfOk result (λ listed. listed
        ≡ is_listed reverse.now.rows field group.now name.now domain.now) }
{
    let name = field.folded(alloc, name)?;
    let domain = lowered(alloc, domain)?;
    stands_for(alloc, reverse, group, &name, &domain)
}

// Whether a dot is in a name.
fn has_dot(name: &[u8]) -> bool
    ensures { result ≡ has_dot name.now }
{
    name.contains(&b'.')
}

impl Field {
    // Whether a member is a triple that counts, and whose key could be another's, too.
    fn is_mixed(self, member: &Member<'_>) -> bool
        ensures { result ≡ list_any (is_mixed self) (triples (member_of member.now ∷ [])) }
    {
        match *member {
            Member::Group(_) => false,
            Member::Triple { host, user, domain } => {
                let part = match self {
                    Field::User => user,
                    Field::Host => host,
                };
                !(is_dash(part) || is_dash(domain))
                    && (has_dot(domain) || domain == ANY || part == ANY)
            }
        }
    }

    // Whether one of the members is.
    fn mixes(self, members: &[Member<'_>]) -> bool
        ensures { result ≡ list_any (is_mixed self) (triples (map member_of members.now)) }
    {
        for member in members {
            if self.is_mixed(member) {
                return true;
            }
        }
        false
    }
}

/// Whether no triple that counts, of any row, has a domain with a dot in it, or an asterisk for its domain or its part:
/// then the key of each is that of no other. It takes the memory of one row's members at a time.
#[tactic(auto, unfolding(crate::specs::inside::reverse::Listed::is_split))]
pub fn split(alloc: Global, netgroup: &Version, field: Field) -> Result<bool, NoMemory>
    ensures { IfOk result (λ split. split ≡ is_split field netgroup.now.rows) }
{
    for i in 0..netgroup.len() {
        let Some((_, text)) = netgroup.row(i) else {
            unreachable!()
        };
        if field.mixes(&members(alloc, text)?) {
            return Ok(false);
        }
    }
    Ok(true)
}
