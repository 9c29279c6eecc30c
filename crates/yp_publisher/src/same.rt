//! Versions, compared.

ghost use Rattle.std.specs.Prelude.{◌≡◌, ◌↔◌, length, IsTrue};

use yp_version::Version;

/// Whether two versions are the same, row by row.
pub(crate) fn is_same(a: &Version, b: &Version) -> bool
    ensures { IsTrue result ↔ (a.now ≡ b.now) }
{
    a.order() == b.order()
        && a.master() == b.master()
        && a.secure() == b.secure()
        && has_same_rows(a, b)
}

/// Whether two versions have the same rows.
fn has_same_rows(a: &Version, b: &Version) -> bool
    ensures { IsTrue result ↔ (a.now.rows ≡ b.now.rows) }
{
    if a.len() != b.len() {
        return false;
    }
    for number in 0..a.len() {
        if a.row(number) != b.row(number) {
            return false;
        }
    }
    true
}
