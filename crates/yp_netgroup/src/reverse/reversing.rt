//! A netgroup map, reversed.

ghost use Rattle.std.specs.Prelude.{◌≡◌, ◌≤◌, ℕ, List, [], None, length, map, IfOk, IfErr, OnOk};
ghost use Rattle.yp_version.specs.Limits.{master_max};
ghost use Rattle.yp_version.specs.Rows.{Row};
ghost use Rattle.yp_version.specs.Drafts.{first_refused, empty_draft};
ghost use Rattle.yp_version.specs.Versions.{unmarked};
ghost use Rattle.yp_netgroup.specs.declared.reverse.field.Field.{Field};
ghost use Rattle.yp_netgroup.specs.inside.reverse.Groups.{IsReadOf};
ghost use Rattle.yp_netgroup.specs.inside.reverse.Links.{naming, sources, under};
ghost use Rattle.yp_netgroup.specs.inside.reverse.Listings.{link_of};
ghost use Rattle.yp_netgroup.specs.reverse.Reverse.{IsReverse};
ghost use Rattle.yp_netgroup.specs.inside.reverse.Refused.{IsReverseCause, HasAllRows};

use crate::reverse::fault::RevFault;
use crate::reverse::field::Field;
use crate::reverse::keys::{Listing, keys_of, listed};
use crate::reverse::links::{Links, naming};
use crate::reverse::rising::rising;
use crate::reverse::rows::put_rows;
use std::alloc::Global;
use std::random::RandomSource;
use yp_version::laws::rising_stays;
use yp_version::{Order, Version, VersionBuilder};

/// The reverse of a netgroup map: for each user, or host, and domain of a triple the groups that reach it.
///
/// Each text is read twice. Then for each key the groups that reach it are looked for backwards, from those that list
/// it: each of them once, by the places where it is named. They are those of the key's row, but for names that no text
/// can spell. So this costs about the texts, the rows and, for each group in one, the places where it is named; it ends
/// with the first row that passes a limit. A random state that the runtime refuses is want of memory, too.
pub fn reverse(
    alloc: Global,
    rt: &impl RandomSource,
    netgroup: &Version,
    field: Field,
    order: Order,
    master: &[u8],
) -> Result<Version, RevFault>
    requires { length master.now ≤ master_max }
    ensures reverse { IfOk result (λ version. IsReverse netgroup.now.rows field version.rows) }
    ensures version { IfOk result (λ version. version ≡ unmarked order master.now version.rows) }
    ensures fits { IfOk result (λ version. first_refused (empty_draft order master.now) version.rows ≡ None) }
    ensures cause { IfErr result (λ fault. IsReverseCause netgroup.now.rows field
        (empty_draft order master.now) fault) }
{
    rising_stays();
    let mut builder = VersionBuilder::new(alloc, rt, order, master)?;
    put_all(alloc, rt, netgroup, field, &mut builder)?;
    Ok(builder.finish()?)
}

// Puts the rows of all keys into a builder that has none.
fn put_all(
    alloc: Global,
    rt: &impl RandomSource,
    netgroup: &Version,
    field: Field,
    builder: &mut VersionBuilder,
) -> Result<(), RevFault>
    requires none { builder.old.rows ≡ [] }
    ensures all { OnOk result (HasAllRows netgroup.now.rows field builder.old builder.new) }
    ensures cause { IfErr result (λ fault. IsReverseCause netgroup.now.rows field builder.old fault) }
{
    let named = naming(alloc, rt, netgroup)?;
    put_named(alloc, rt, netgroup, field, &named, builder)
}

// Puts the rows of all keys, where the groups that name others are known.
fn put_named(
    alloc: Global,
    rt: &impl RandomSource,
    netgroup: &Version,
    field: Field,
    named: &Links<'_>,
    builder: &mut VersionBuilder,
) -> Result<(), RevFault>
    requires names { (name : List ℕ) → under named.now name ≡ sources name (naming netgroup.now.rows) }
    requires none { builder.old.rows ≡ [] }
    ensures all { OnOk result (HasAllRows netgroup.now.rows field builder.old builder.new) }
    ensures cause { IfErr result (λ fault. IsReverseCause netgroup.now.rows field builder.old fault) }
{
    let listings = field.listings(alloc, netgroup)?;
    put_listings(alloc, rt, named, &listings, builder)
}

// Puts the rows of the keys of all listings.
fn put_listings<'a>(
    alloc: Global,
    rt: &impl RandomSource,
    named: &Links<'_>,
    listings: &'a [Listing<'a>],
    builder: &mut VersionBuilder,
) -> Result<(), RevFault>
    requires none { builder.old.rows ≡ [] }
    ensures all { OnOk result ((rows : List Row) (field : Field)
        → IsReadOf rows field named.now (map link_of listings.now) → HasAllRows rows field builder.old builder.new) }
    ensures cause { IfErr result (λ fault. (rows : List Row) (field : Field)
        → IsReadOf rows field named.now (map link_of listings.now) → IsReverseCause rows field builder.old fault) }
{
    let listed = listed(alloc, rt, listings)?;
    put_keys(alloc, rt, named, &listed, listings, builder)
}

// Puts the rows of the keys of all listings, where the groups under each key are known.
fn put_keys(
    alloc: Global,
    rt: &impl RandomSource,
    named: &Links<'_>,
    listed: &Links<'_>,
    listings: &[Listing<'_>],
    builder: &mut VersionBuilder,
) -> Result<(), RevFault>
    requires keys { (key : List ℕ) → under listed.now key ≡ sources key (map link_of listings.now) }
    requires none { builder.old.rows ≡ [] }
    ensures all { OnOk result ((rows : List Row) (field : Field)
        → IsReadOf rows field named.now (map link_of listings.now) → HasAllRows rows field builder.old builder.new) }
    ensures cause { IfErr result (λ fault. (rows : List Row) (field : Field)
        → IsReadOf rows field named.now (map link_of listings.now) → IsReverseCause rows field builder.old fault) }
{
    let keys = rising(keys_of(alloc, listings)?);
    put_rows(alloc, rt, named, listed, &keys, builder)
}
