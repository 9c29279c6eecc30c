//! The keys of a reverse map.

ghost use Rattle.std.specs.Prelude.{◌≡◌, ◌++◌, IfOk};
ghost use Rattle.std.specs.Str.{str_to_ascii_lowercase};
ghost use Rattle.yp_netgroup.specs.reverse.Keys.{is_dash, folded, or_any, dotted};

use std::alloc::Global;
use yp_io::NoMemory;

/// The part of a triple that a map is reversed by.
#[derive(Clone, Copy, Debug, PartialEq, Eq)]
pub enum Field {
    /// The user, byte by byte.
    User,

    /// The host; upper and lower case of ASCII letters are one.
    Host,
}

// The field of a triple that stands for none.
const NONE: &[u8] = b"-";

// What stands for an empty field, which may be any.
pub(crate) const ANY: &[u8] = b"*";

// Whether a field stands for none.
pub(crate) fn is_dash(name: &[u8]) -> bool
    ensures { result ≡ is_dash name.now }
{
    name == NONE
}

// An asterisk for an empty field.
fn or_any(name: &[u8]) -> &[u8]
    ensures { result.now ≡ or_any name.now }
{
    if name.is_empty() { ANY } else { name }
}

// A name in lower case.
pub(crate) fn lowered(alloc: Global, name: &[u8]) -> Result<Vec<u8>, NoMemory>
    ensures { IfOk result (λ lower. lower.items ≡ str_to_ascii_lowercase name.now) }
{
    let mut lower = Vec::from_slice(alloc, name).map_err(|_| NoMemory)?;
    lower.make_ascii_lowercase();
    Ok(lower)
}

// A name, a dot, and a domain.
pub(crate) fn dotted(alloc: Global, name: &[u8], domain: &[u8]) -> Result<Vec<u8>, NoMemory>
    ensures { IfOk result (λ key. key.items ≡ dotted name.now domain.now) }
{
    let mut key = Vec::from_slice(alloc, name).map_err(|_| NoMemory)?;
    key.push(b'.').map_err(|_| NoMemory)?;
    key.extend_from_slice(domain).map_err(|_| NoMemory)?;
    Ok(key)
}

impl Field {
    // A host in lower case, and a user as it is.
    pub(crate) fn folded(self, alloc: Global, name: &[u8]) -> Result<Vec<u8>, NoMemory>
        ensures { IfOk result (λ same. same.items ≡ folded self name.now) }
    {
        match self {
            Field::User => Vec::from_slice(alloc, name).map_err(|_| NoMemory),
            Field::Host => lowered(alloc, name),
        }
    }

    // The key of a part and a domain.
    pub(crate) fn key(self, alloc: Global, part: &[u8], domain: &[u8]) -> Result<Vec<u8>, NoMemory>
        ensures { IfOk result (λ key. key.items
            ≡ dotted (or_any (folded self part.now)) (or_any (str_to_ascii_lowercase domain.now))) }
    {
        let part = self.folded(alloc, part)?;
        let domain = lowered(alloc, domain)?;
        dotted(alloc, or_any(&part), or_any(&domain))
    }
}
