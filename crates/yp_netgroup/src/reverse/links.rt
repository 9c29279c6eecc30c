//! Groups under the names and the keys by which others find them.

ghost use Rattle.std.specs.Prelude.{◌≡◌, ◌++◌, ℕ, List, [], ◌∷◌, IfOk, OnOk, map};
ghost use Rattle.yp_netgroup.specs.inside.Member.{part_of as member_of};
ghost use Rattle.yp_netgroup.specs.Parts.{names};
ghost use Rattle.yp_netgroup.specs.inside.reverse.Links.{source, sources, under, naming_text, naming};

use crate::{Member, members};
use indexmap::IndexMap;
use std::alloc::Global;
use std::hash::RandomState;
use std::random::RandomSource;
use yp_io::NoMemory;
use yp_version::Version;

// Under each name the groups that were put under it, in their order. Names come from others, so they are hashed with
// random keys.
pub(crate) type Links<'a> = IndexMap<&'a [u8], Vec<&'a [u8]>, RandomState>;

// No links.
pub(crate) fn no_links<'a>(alloc: Global, rt: &impl RandomSource) -> Result<Links<'a>, NoMemory>
    ensures { IfOk result (λ links. (name : List ℕ) → under links name ≡ []) }
{
    match RandomState::new(rt) {
        Ok(hasher) => Ok(IndexMap::with_hasher(alloc, hasher)),
        Err(_) => Err(NoMemory),
    }
}

// Puts a group under a name, behind those that are there.
pub(crate) fn put<'a>(
    alloc: Global,
    links: &mut Links<'a>,
    name: &'a [u8],
    group: &'a [u8],
) -> Result<(), NoMemory>
    ensures { OnOk result ((other : List ℕ) →
        under links.new other ≡ under links.old other ++ source other (name.now, group.now)) }
{
    let Ok(before) = links.insert(name, Vec::new(alloc)) else {
        return Err(NoMemory);
    };
    let mut groups = before.unwrap_or(Vec::new(alloc));
    let Ok(()) = groups.push(group) else {
        return Err(NoMemory);
    };
    match links.insert(name, groups) {
        Ok(_) => Ok(()),
        Err(_) => Err(NoMemory),
    }
}

// Puts a group under the names among its members.
fn put_names<'a>(
    alloc: Global,
    links: &mut Links<'a>,
    members: &[Member<'a>],
    group: &'a [u8],
) -> Result<(), NoMemory>
    ensures { OnOk result ((other : List ℕ) → under links.new other ≡ under links.old other
        ++ sources other (map (λ name. (name, group.now)) (names (map member_of members.now)))) }
{
    for member in members {
        if let Member::Group(name) = *member {
            put(alloc, links, name, group)?;
        }
    }
    Ok(())
}

// Puts a group under the names in its text.
fn put_text<'a>(
    alloc: Global,
    links: &mut Links<'a>,
    text: &'a [u8],
    group: &'a [u8],
) -> Result<(), NoMemory>
    ensures { OnOk result ((name : List ℕ) →
        under links.new name ≡ under links.old name ++ sources name (naming_text text.now group.now)) }
{
    let members = members(alloc, text)?;
    put_names(alloc, links, &members, group)
}

// Puts each group of a map under the names in its text, where nothing is under a name yet.
fn put_texts<'a>(
    alloc: Global,
    links: &mut Links<'a>,
    netgroup: &'a Version,
) -> Result<(), NoMemory>
    requires { (name : List ℕ) → under links.old name ≡ [] }
    ensures { OnOk result ((name : List ℕ) → under links.new name ≡ sources name (naming netgroup.now.rows)) }
{
    for i in 0..netgroup.len() {
        let Some((group, text)) = netgroup.row(i) else {
            unreachable!()
        };
        put_text(alloc, links, text, group)?;
    }
    Ok(())
}

// Under each name the groups whose texts have it.
pub(crate) fn naming<'a>(
    alloc: Global,
    rt: &impl RandomSource,
    netgroup: &'a Version,
) -> Result<Links<'a>, NoMemory>
    ensures { IfOk result (λ links. (name : List ℕ) → under links name ≡ sources name (naming netgroup.now.rows)) }
{
    let mut links = no_links(alloc, rt)?;
    put_texts(alloc, &mut links, netgroup)?;
    Ok(links)
}
