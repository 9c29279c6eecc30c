//! The line of a map that a server was asked to fetch or to make.

ghost use Rattle.std.specs.Prelude.{◌≡◌, ◌≤◌, ◌++◌, codes, length, IfOk, OnOk};
ghost use Rattle.std.specs.Fmt.{signed_decimal};
ghost use Rattle.yp_messages.specs.Transfers.{xfr_number};
ghost use Rattle.yp_client.specs.query.Lines.{stat_name, status_text, made_text};

use std::alloc::{AllocError, Global};
use yp_io::NoMemory;
use yp_messages::XfrStat;

/// The name of a status.
pub fn stat_name(stat: XfrStat) -> &'static [u8]
    ensures name { result.now ≡ stat_name stat }
    ensures short { length result.now ≤ 7 }
{
    match stat {
        XfrStat::Succ => b"SUCC",
        XfrStat::Age => b"AGE",
        XfrStat::Nomap => b"NOMAP",
        XfrStat::Nodom => b"NODOM",
        XfrStat::Rsrc => b"RSRC",
        XfrStat::Rpc => b"RPC",
        XfrStat::Maddr => b"MADDR",
        XfrStat::Yperr => b"YPERR",
        XfrStat::Badargs => b"BADARGS",
        XfrStat::Dbm => b"DBM",
        XfrStat::File => b"FILE",
        XfrStat::Skew => b"SKEW",
        XfrStat::Clear => b"CLEAR",
        XfrStat::Force => b"FORCE",
        XfrStat::Xfrerr => b"XFRERR",
        XfrStat::Refused => b"REFUSED",
    }
}

/// Adds the number and the name of a status.
fn add_stat(text: &mut Vec<u8>, stat: XfrStat) -> Result<(), AllocError>
    ensures { OnOk result (text.new.items ≡ text.old.items ++ signed_decimal (xfr_number stat) ++ codes " "
        ++ stat_name stat) }
{
    text.extend_from_slice(itoa::Buffer::new().format(stat.number()).as_bytes())?;
    text.extend_from_slice(b" ")?;
    text.extend_from_slice(stat_name(stat))
}

/// Adds the name of a map.
fn add_map(text: &mut Vec<u8>, domain: &[u8], map: &[u8]) -> Result<(), AllocError>
    ensures { OnOk result (text.new.items ≡ text.old.items ++ domain.now ++ codes "/" ++ map.now) }
{
    text.extend_from_slice(domain)?;
    text.extend_from_slice(b"/")?;
    text.extend_from_slice(map)
}

/// Adds the name of a map, and a status.
fn add_outcome(
    text: &mut Vec<u8>,
    domain: &[u8],
    map: &[u8],
    stat: XfrStat,
) -> Result<(), AllocError>
    ensures { OnOk result (text.new.items ≡ text.old.items ++ status_text domain.now map.now stat) }
{
    add_map(text, domain, map)?;
    text.extend_from_slice(b" ")?;
    add_stat(text, stat)
}

/// The line of a status, without its line feed.
pub fn status_text(
    alloc: Global,
    domain: &[u8],
    map: &[u8],
    stat: XfrStat,
) -> Result<Vec<u8>, NoMemory>
    ensures { IfOk result (λ text. text.items ≡ status_text domain.now map.now stat) }
{
    let mut text = Vec::new(alloc);
    match add_outcome(&mut text, domain, map, stat) {
        Ok(()) => Ok(text),
        Err(_) => Err(NoMemory),
    }
}

/// Adds that a map was made.
fn add_made(text: &mut Vec<u8>, domain: &[u8], map: &[u8]) -> Result<(), AllocError>
    ensures { OnOk result (text.new.items ≡ text.old.items ++ made_text domain.now map.now) }
{
    add_map(text, domain, map)?;
    text.extend_from_slice(b" made")
}

/// The line of a map that was made, without its line feed.
pub fn made_text(alloc: Global, domain: &[u8], map: &[u8]) -> Result<Vec<u8>, NoMemory>
    ensures { IfOk result (λ text. text.items ≡ made_text domain.now map.now) }
{
    let mut text = Vec::new(alloc);
    match add_made(&mut text, domain, map) {
        Ok(()) => Ok(text),
        Err(_) => Err(NoMemory),
    }
}
