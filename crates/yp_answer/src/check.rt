//! Which version a question about a map is answered on, or the status that refuses it.

ghost use Rattle.std.specs.Prelude.{◌≡◌, ◌<◌, ◌≤◌, length, IfOk};
ghost use Rattle.yp_answer.specs.Maps.{maps_of, map_check, row_check};
ghost use Rattle.yp_answer.specs.inside.ShownVersion.{checked, IsShownVersion};

use yp_board::View;
use yp_messages::YpStat;
use yp_version::Version;

/// The first port that isn't reserved for the system's own programs.
const FIRST_OPEN_PORT: u16 = 1024;

/// A version that is shown, and the number of its map.
#[derive(Drop)]
pub struct ShownVersion<'a> {
    pub map: u32,
    pub version: &'a Version,
}

/// The version of a map, or the status that refuses a question about it.
pub fn map_check<'a, V: View>(
    view: &'a V,
    domain: &[u8],
    map: &[u8],
) -> Result<ShownVersion<'a>, YpStat>
    ensures check { checked result ≡ map_check (maps_of (V.seen view.now)) domain.now map.now }
    ensures held { IfOk result (IsShownVersion (maps_of (V.seen view.now))) }
{
    if domain.is_empty() || map.is_empty() {
        return Err(YpStat::Badargs);
    }
    if !view.catalog().serves(domain) {
        return Err(YpStat::Nodom);
    }
    let Some(map) = view.catalog().find(domain, map) else {
        return Err(YpStat::Nomap);
    };
    match view.held(map) {
        Some(version) => Ok(ShownVersion { map, version }),
        None => Err(YpStat::Nomap),
    }
}

/// The version of a map whose rows are asked for, or the status that refuses the question. A secure version is refused
/// to ports that anyone can open.
pub fn row_check<'a, V: View>(
    view: &'a V,
    port: u16,
    domain: &[u8],
    map: &[u8],
) -> Result<ShownVersion<'a>, YpStat>
    ensures check { checked result ≡ row_check (maps_of (V.seen view.now)) port domain.now map.now }
    ensures held { IfOk result (IsShownVersion (maps_of (V.seen view.now))) }
{
    let held = map_check(view, domain, map)?;
    if held.version.secure() && port >= FIRST_OPEN_PORT {
        return Err(YpStat::Yperr);
    }
    Ok(held)
}
