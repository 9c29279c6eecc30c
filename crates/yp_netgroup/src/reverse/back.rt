//! The groups from which others are reached.

ghost use Rattle.std.specs.Prelude.{◌≡◌, ◌↔◌, ℕ, List, [], Contains, IfOk, OnOk, bytes_eq};
ghost use Rattle.indexmap.specs.IndexSet.{insert_all};
ghost use Rattle.yp_netgroup.specs.inside.reverse.Links.{bytes_in, under};
ghost use Rattle.yp_netgroup.specs.inside.reverse.Back.{LeadsBack};

use crate::reverse::links::Links;
use indexmap::IndexSet;
use std::alloc::Global;
use std::hash::RandomState;
use std::random::RandomSource;
use yp_io::NoMemory;

// The groups that were met so far, in the order of meeting.
pub(crate) type NameSet<'a> = IndexSet<&'a [u8], RandomState>;

// No groups.
fn none_met<'a>(alloc: Global, rt: &impl RandomSource) -> Result<NameSet<'a>, NoMemory>
    ensures { IfOk result (λ seen. bytes_in seen.keys ≡ []) }
{
    match RandomState::new(rt) {
        Ok(hasher) => Ok(IndexSet::with_hasher(alloc, hasher)),
        Err(_) => Err(NoMemory),
    }
}

// Meets groups.
fn meet<'a>(groups: &[&'a [u8]], seen: &mut NameSet<'a>) -> Result<(), NoMemory>
    ensures { OnOk result (bytes_in seen.new.keys
        ≡ insert_all bytes_eq (bytes_in seen.old.keys) (bytes_in groups.now)) }
{
    for group in groups {
        seen.insert(*group).map_err(|_| NoMemory)?;
    }
    Ok(())
}

// Meets the groups under a name.
fn meet_under<'a>(links: &Links<'a>, name: &[u8], seen: &mut NameSet<'a>) -> Result<(), NoMemory>
    ensures { OnOk result (bytes_in seen.new.keys
        ≡ insert_all bytes_eq (bytes_in seen.old.keys) (under links.now name.now)) }
{
    match links.get(name) {
        Some(groups) => meet(groups, seen),
        None => Ok(()),
    }
}

// Meets all groups from which one of those under a key is reached, where none is met yet. Each is met once, and those
// that name it are met when its turn comes.
fn meet_leading<'a>(
    named: &Links<'a>,
    listed: &Links<'a>,
    key: &[u8],
    seen: &mut NameSet<'a>,
) -> Result<(), NoMemory>
    requires { bytes_in seen.old.keys ≡ [] }
    ensures { OnOk result ((name : List ℕ) →
        Contains (bytes_in seen.new.keys) name ↔ LeadsBack (under named.now) (under listed.now key.now) name) }
{
    meet_under(listed, key, seen)?;
    let mut next = 0;
    while next < seen.len() {
        let group = seen.as_slice()[next];
        meet_under(named, group, seen)?;
        next += 1;
    }
    Ok(())
}

// All groups from which one of those under a key is reached.
pub(crate) fn leading<'a>(
    alloc: Global,
    rt: &impl RandomSource,
    named: &Links<'a>,
    listed: &Links<'a>,
    key: &[u8],
) -> Result<NameSet<'a>, NoMemory>
    ensures { IfOk result (λ seen. (name : List ℕ) →
        Contains (bytes_in seen.keys) name ↔ LeadsBack (under named.now) (under listed.now key.now) name) }
{
    let mut seen = none_met(alloc, rt)?;
    meet_leading(named, listed, key, &mut seen)?;
    Ok(seen)
}
