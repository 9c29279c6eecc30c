//! The groups of a key, and the value that they make.

ghost use Rattle.std.specs.Prelude.{◌≡◌, ◌↔◌, ◌++◌, ℕ, List, [], ◌∷◌, Contains, IfOk, OnOk, filter};
ghost use Rattle.std.specs.List.{join_with_byte};
ghost use Rattle.std.specs.List.Sorted.{IsStrictlySortedBy};
ghost use Rattle.yp_version.specs.Rows.{Row, key_cmp};
ghost use Rattle.yp_netgroup.specs.Parts.{is_name_byte};
ghost use Rattle.yp_netgroup.specs.declared.reverse.field.Field.{Field};
ghost use Rattle.yp_netgroup.specs.inside.reverse.Links.{bytes_in};
ghost use Rattle.yp_netgroup.specs.reverse.Reverse.{is_name};
ghost use Rattle.yp_netgroup.specs.inside.reverse.Groups.{IsKeptOf, IsGroups};

use crate::reverse::back::leading;
use crate::reverse::links::Links;
use crate::reverse::rising::rising;
use std::alloc::Global;
use std::random::RandomSource;
use yp_io::NoMemory;
use yp_version::laws::rising_is_distinct;

// A byte of a name.
fn is_name_byte(byte: u8) -> bool
    ensures { result ≡ is_name_byte byte }
{
    !matches!(byte, b' ' | b'\t' | b'(' | b')' | b',')
}

// Whether a text can spell a name.
fn is_name(name: &[u8]) -> bool
    ensures { result ≡ is_name name.now }
{
    for byte in name {
        if !is_name_byte(*byte) {
            return false;
        }
    }
    !name.is_empty()
}

// Puts the names among groups behind one another.
fn put_names<'a>(groups: &[&'a [u8]], names: &mut Vec<&'a [u8]>) -> Result<(), NoMemory>
    requires { names.old.items ≡ [] }
    ensures { OnOk result (bytes_in names.new.items ≡ filter is_name (bytes_in groups.now)) }
{
    for group in groups {
        if is_name(*group) && names.push(*group).is_err() {
            return Err(NoMemory);
        }
    }
    Ok(())
}

// The names among groups, in rising order.
fn names_of<'a>(alloc: Global, groups: &[&'a [u8]]) -> Result<Vec<&'a [u8]>, NoMemory>
    ensures rising { IfOk result (λ names. IsStrictlySortedBy key_cmp (bytes_in names.items)) }
    ensures same { IfOk result (λ names. (name : List ℕ) →
        Contains (bytes_in names.items) name ↔ Contains (filter is_name (bytes_in groups.now)) name) }
{
    let mut names = Vec::new(alloc);
    put_names(groups, &mut names)?;
    Ok(rising(names))
}

// The groups of a key, in rising order.
pub(crate) fn groups_of<'a>(
    alloc: Global,
    rt: &impl RandomSource,
    named: &Links<'a>,
    listed: &Links<'a>,
    key: &[u8],
) -> Result<Vec<&'a [u8]>, NoMemory>
    ensures { IfOk result (λ groups. (rows : List Row) (field : Field) → IsKeptOf rows field named.now listed.now
        → IsGroups rows field key.now (bytes_in groups.items)) }
{
    rising_is_distinct();
    let seen = leading(alloc, rt, named, listed, key)?;
    names_of(alloc, seen.as_slice())
}

// Puts a comma and a name behind a value.
fn put_comma(name: &[u8], value: &mut Vec<u8>) -> Result<(), NoMemory>
    ensures { OnOk result (value.new.items ≡ value.old.items ++ 44 ∷ name.now) }
{
    if value.push(b',').is_err() || value.extend_from_slice(name).is_err() {
        return Err(NoMemory);
    }
    Ok(())
}

// Puts names with commas between into a value that is empty.
pub(crate) fn put_commas(names: &[&[u8]], value: &mut Vec<u8>) -> Result<(), NoMemory>
    requires { value.old.items ≡ [] }
    ensures { OnOk result (value.new.items ≡ join_with_byte 44 (bytes_in names.now)) }
{
    let Some((first, rest)) = names.split_first() else {
        return Ok(());
    };
    let Ok(()) = value.extend_from_slice(*first) else {
        return Err(NoMemory);
    };
    for name in rest {
        put_comma(*name, value)?;
    }
    Ok(())
}
