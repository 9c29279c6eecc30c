//! The rows of a reverse map, put one behind the other.

ghost use Rattle.std.specs.Prelude.{◌≡◌, ◌⊎◌, List, [], IfErr, OnOk};
ghost use Rattle.std.specs.List.Sorted.{IsStrictlySortedBy};
ghost use Rattle.yp_version.specs.Rows.{Row, key_cmp};
ghost use Rattle.yp_version.specs.Drafts.{Draft};
ghost use Rattle.yp_netgroup.specs.declared.reverse.field.Field.{Field};
ghost use Rattle.yp_netgroup.specs.declared.reverse.fault.RevFault.TheVariants.{NoMemory as WithoutMemory};
ghost use Rattle.yp_netgroup.specs.inside.reverse.Links.{bytes_in};
ghost use Rattle.yp_netgroup.specs.reverse.Reverse.{IsReversed};
ghost use Rattle.yp_netgroup.specs.inside.reverse.Groups.{IsGroups, IsKeptOf};
ghost use Rattle.yp_netgroup.specs.inside.reverse.Refused.{IsPut, IsReverseRefusal, IsReverseCause, IsSoFar};
ghost use Rattle.yp_netgroup.specs.inside.reverse.Refused.{HasAllKeys};

use crate::reverse::fault::{RevFault, fault_of};
use crate::reverse::groups::{groups_of, put_commas};
use crate::reverse::links::Links;
use std::alloc::Global;
use std::random::RandomSource;
use yp_version::VersionBuilder;

// Puts a row behind those of lower keys.
fn push_row(key: &[u8], value: &[u8], builder: &mut VersionBuilder) -> Result<(), RevFault>
    ensures ok { OnOk result ((rows : List Row) (field : Field) → IsReversed rows field (key.now, value.now)
        → IsPut rows field key.now builder.old builder.new) }
    ensures err { IfErr result (λ fault. (rows : List Row) (field : Field) → IsReversed rows field (key.now, value.now)
        → (fault ≡ WithoutMemory) ⊎ IsReverseRefusal rows field key.now builder.old fault) }
{
    match builder.push(key, value) {
        Ok(_) => Ok(()),
        Err(fault) => Err(fault_of(builder.len(), fault)),
    }
}

// Puts the row of a key and its groups, where there are some.
fn put_groups(
    alloc: Global,
    key: &[u8],
    groups: &[&[u8]],
    builder: &mut VersionBuilder,
) -> Result<(), RevFault>
    ensures ok { OnOk result ((rows : List Row) (field : Field) → IsGroups rows field key.now (bytes_in groups.now)
        → IsPut rows field key.now builder.old builder.new) }
    ensures err { IfErr result (λ fault. (rows : List Row) (field : Field)
        → IsGroups rows field key.now (bytes_in groups.now)
        → (fault ≡ WithoutMemory) ⊎ IsReverseRefusal rows field key.now builder.old fault) }
{
    if groups.is_empty() {
        return Ok(());
    }
    let mut value = Vec::new(alloc);
    put_commas(groups, &mut value)?;
    push_row(key, &value, builder)
}

// Puts the row of a key behind those of lower keys, where a group has it.
fn put_row(
    alloc: Global,
    rt: &impl RandomSource,
    named: &Links<'_>,
    listed: &Links<'_>,
    key: &[u8],
    builder: &mut VersionBuilder,
) -> Result<(), RevFault>
    ensures ok { OnOk result ((rows : List Row) (field : Field) → IsKeptOf rows field named.now listed.now
        → IsPut rows field key.now builder.old builder.new) }
    ensures err { IfErr result (λ fault. (rows : List Row) (field : Field) → IsKeptOf rows field named.now listed.now
        → (fault ≡ WithoutMemory) ⊎ IsReverseRefusal rows field key.now builder.old fault) }
{
    let groups = groups_of(alloc, rt, named, listed, key)?;
    put_groups(alloc, key, &groups, builder)
}

// Puts the rows of keys, of each that a group has, one behind the other.
pub(crate) fn put_rows(
    alloc: Global,
    rt: &impl RandomSource,
    named: &Links<'_>,
    listed: &Links<'_>,
    keys: &[&[u8]],
    builder: &mut VersionBuilder,
) -> Result<(), RevFault>
    requires rising { IsStrictlySortedBy key_cmp (bytes_in keys.now) }
    ensures ok { OnOk result ((rows : List Row) (field : Field) (start : Draft)
        → IsKeptOf rows field named.now listed.now → IsSoFar rows field start builder.old []
        → IsSoFar rows field start builder.new (bytes_in keys.now)) }
    ensures err { IfErr result (λ fault. (rows : List Row) (field : Field) (start : Draft)
        → IsKeptOf rows field named.now listed.now → IsSoFar rows field start builder.old []
        → HasAllKeys rows field (bytes_in keys.now) → IsReverseCause rows field start fault) }
{
    for key in keys {
        put_row(alloc, rt, named, listed, *key, builder)?;
    }
    Ok(())
}
