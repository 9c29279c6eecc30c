//! The groups that are reached from a group.

ghost use Rattle.std.specs.Prelude.{◌≡◌, ◌<◌, ◌≤◌, ◌↔◌, ◌+◌, [], false, None, length, map, bytes_eq, slice_index_or};
ghost use Rattle.std.specs.Prelude.{IsTrue};
ghost use Rattle.std.specs.Prelude.{IfOk, IfSome, MatchOption, ◌∷◌};
ghost use Rattle.std.specs.List.{IsDistinct};
ghost use Rattle.indexmap.specs.IndexSet.{insert_all};
ghost use Rattle.yp_netgroup.specs.Parts.{names, parts};
ghost use Rattle.yp_netgroup.specs.Reach.{members_of, group_text};
ghost use Rattle.yp_netgroup.specs.inside.Reach.{IsSpread, IsMember};
ghost use Rattle.yp_netgroup.specs.inside.Member.{part_of};
ghost use Rattle.yp_netgroup.specs.inside.Who.{asked_of, sought_of};
ghost use Rattle.yp_netgroup.specs.inside.Seen.{names_of, has_sought, IsMet, MemberIsFound};

use crate::text::{Member, cut_member};
use crate::who::Who;
use indexmap::IndexSet;
use std::alloc::Global;
use std::hash::RandomState;
use std::random::RandomSource;
use yp_io::NoMemory;
use yp_version::Version;

// The names that were met so far, in the order of meeting. They come from others, so they are hashed with random keys.
type NameSet<'a> = IndexSet<&'a [u8], RandomState>;

// The text of a group; one without a row has none.
fn group_text<'a>(version: &'a Version, group: &[u8]) -> &'a [u8]
    ensures { result.now ≡ group_text version.now.rows group.now }
{
    version.get(group).unwrap_or(&[])
}

// Whether a member is a triple that is sought. Where it is a name, it is met.
fn meet<'a>(
    member: Member<'a>,
    sought: Option<&Who<'_>>,
    seen: &mut NameSet<'a>,
) -> Result<bool, NoMemory>
    ensures found { IfOk result (λ found. found ≡ has_sought (sought_of sought.entry) (part_of member.entry ∷ [])) }
    ensures met { IfOk result (λ found.
        names_of seen.new ≡ insert_all bytes_eq (names_of seen.old) (names (part_of member.entry ∷ []))) }
{
    match member {
        Member::Group(name) => {
            seen.insert(name).map_err(|_| NoMemory)?;
            Ok(false)
        }
        Member::Triple { host, user, domain } => Ok(match sought {
            Some(who) => who.fits(host, user, domain),
            None => false,
        }),
    }
}

// Reads a text, up to a triple that is sought. Where there is none, all its names are met.
fn read<'a>(
    text: &'a [u8],
    sought: Option<&Who<'_>>,
    seen: &mut NameSet<'a>,
) -> Result<bool, NoMemory>
    ensures found { IfOk result (λ found. found ≡ has_sought (sought_of sought.entry) (parts text.now)) }
    ensures met { IfOk result (λ found. found ≡ false →
        names_of seen.new ≡ insert_all bytes_eq (names_of seen.old) (names (parts text.now))) }
{
    let mut rest = text;
    while let Some((member, later)) = cut_member(rest) {
        if meet(member, sought, seen)? {
            return Ok(true);
        }
        rest = later;
    }
    Ok(false)
}

// All names that are reached; or none where a triple that is sought is met. Each text is read once: a name is met
// once, and its group is read when its turn comes. So this ends in a cycle, too.
fn reach<'a>(
    alloc: Global,
    rt: &impl RandomSource,
    version: &'a Version,
    group: &'a [u8],
    sought: Option<&Who<'_>>,
) -> Result<Option<NameSet<'a>>, NoMemory>
    ensures met { IfOk result (λ seen. MatchOption seen
        (MemberIsFound version.now.rows group.now (sought_of sought.entry))
        (λ seen. IsMet version.now.rows group.now (sought_of sought.entry) (names_of seen) (length (names_of seen)))) }
    ensures once { IfOk result (λ seen. IfSome seen (λ seen. IsDistinct bytes_eq (names_of seen))) }
{
    let Ok(hasher) = RandomState::new(rt) else {
        return Err(NoMemory);
    };
    let mut seen = IndexSet::with_hasher(alloc, hasher);
    seen.insert(group).map_err(|_| NoMemory)?;
    let mut next = 0;
    while next < seen.len() {
        let group = seen.as_slice()[next];
        if read(group_text(version, group), sought, &mut seen)? {
            return Ok(None);
        }
        next += 1;
    }
    Ok(Some(seen))
}

/// The names of the groups that are reached from a group: the group itself first, and each name once. A group reaches
/// itself, and the groups that are named in the text of one that it reaches, whether or not they have rows. A random
/// state that the runtime refuses is want of memory, too.
pub fn spread(
    alloc: Global,
    rt: &impl RandomSource,
    version: &Version,
    group: &[u8],
) -> Result<Vec<Vec<u8>>, NoMemory>
    ensures { IfOk result (λ spread. IsSpread version.now.rows group.now (map (λ name. name.items) spread.items)) }
{
    let Some(seen) = reach(alloc, rt, version, group, None)? else {
        unreachable!()
    };
    copied(alloc, &seen)
}

// The names, each as its own.
fn copied(alloc: Global, seen: &NameSet<'_>) -> Result<Vec<Vec<u8>>, NoMemory>
    ensures { IfOk result (λ copies. map (λ name. name.items) copies.items ≡ names_of seen.now) }
{
    let mut copies = Vec::new(alloc);
    for name in seen.as_slice() {
        let copy = Vec::from_slice(alloc, name).map_err(|_| NoMemory)?;
        copies.push(copy).map_err(|_| NoMemory)?;
    }
    Ok(copies)
}

/// Whether a group that is reached from `group` lists a triple that fits (innetgr(3)). Of the groups no more are read
/// than it takes to find one. A random state that the runtime refuses is want of memory, too.
pub fn innetgr(
    alloc: Global,
    rt: &impl RandomSource,
    version: &Version,
    group: &[u8],
    who: &Who<'_>,
) -> Result<bool, NoMemory>
    ensures { IfOk result (λ is_member.
        IsTrue is_member ↔ IsMember version.now.rows group.now (asked_of who.entry.now)) }
{
    let reached = reach(alloc, rt, version, group, Some(who))?;
    Ok(reached.is_none())
}
