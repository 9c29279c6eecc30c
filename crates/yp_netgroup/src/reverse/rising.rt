//! Names in order.

ghost use Rattle.std.specs.Prelude.{◌≡◌, ◌↔◌, ℕ, List, Contains};
ghost use Rattle.std.specs.List.Sorted.{IsStrictlySortedBy};
ghost use Rattle.yp_version.specs.Rows.{key_cmp};
ghost use Rattle.yp_netgroup.specs.inside.reverse.Links.{bytes_in};

// The same names in rising order, each once.
pub(crate) fn rising<'a>(names: Vec<&'a [u8]>) -> Vec<&'a [u8]>
    ensures rising { IsStrictlySortedBy key_cmp (bytes_in result.items) }
    ensures same { (name : List ℕ) →
        Contains (bytes_in result.items) name ↔ Contains (bytes_in names.entry.items) name }
{
    let mut names = names;
    names.sort_unstable();
    names.dedup();
    names
}
