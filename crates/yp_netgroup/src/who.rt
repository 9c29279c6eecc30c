//! Who is asked for, and which triples fit.

ghost use Rattle.std.specs.Prelude.{◌≡◌, bytes_eq};
ghost use Rattle.std.specs.Str.{str_eq_ignore_ascii_case};
ghost use Rattle.yp_netgroup.specs.Reach.{field_fits, fits};
ghost use Rattle.yp_netgroup.specs.inside.Who.{lent, asked_of};

/// Who is asked for: a host, a user and a domain. What isn't given may be any.
#[derive(Clone, Copy, Debug)]
pub struct Who<'a> {
    /// The name of a host; upper and lower case of ASCII letters are one.
    pub host: Option<&'a [u8]>,

    /// The name of a user, byte by byte.
    pub user: Option<&'a [u8]>,

    /// The name of a domain; upper and lower case of ASCII letters are one.
    pub domain: Option<&'a [u8]>,
}

// The field of a triple that stands for none.
const NONE: &[u8] = b"-";

// Whether a field fits an argument byte by byte.
fn fits_exactly(field: &[u8], given: Option<&[u8]>) -> bool
    ensures { result ≡ field_fits bytes_eq field.now (lent given.entry) }
{
    match given {
        None => true,
        Some(given) => field.is_empty() || (field == given && field != NONE),
    }
}

// Whether a field fits an argument in upper or lower case.
fn fits_in_any_case(field: &[u8], given: Option<&[u8]>) -> bool
    ensures { result ≡ field_fits str_eq_ignore_ascii_case field.now (lent given.entry) }
{
    match given {
        None => true,
        Some(given) => field.is_empty() || (field.eq_ignore_ascii_case(given) && field != NONE),
    }
}

impl Who<'_> {
    /// Whether a triple fits.
    pub(crate) fn fits(&self, host: &[u8], user: &[u8], domain: &[u8]) -> bool
        ensures { result ≡ fits (asked_of self.now) (record { host = host.now; user = user.now; domain = domain.now }) }
    {
        fits_in_any_case(host, self.host)
            && fits_exactly(user, self.user)
            && fits_in_any_case(domain, self.domain)
    }
}
