//! A version that is built behind the last one of its map.

ghost use Rattle.std.specs.Prelude.{◌≡◌, ◌≤◌, None, Some, length, option_map, OnOk, IfOk, IfErr, IfSome};
ghost use Rattle.yp_io.specs.Texts.{text_max};
ghost use Rattle.yp_version.specs.Limits.{master_max};
ghost use Rattle.yp_texts.specs.Builds.{order_max};
ghost use Rattle.yp_texts.specs.After.{basis_of, material_of, other_master, last_order, built_after, was_secure};
ghost use Rattle.yp_texts.specs.After.{HasLaterOrder};
ghost use Rattle.yp_texts.specs.inside.After.{IsHindered, TellsMaster, HasShortMaster};

use crate::fault::BuildFault;
use crate::versions::{Maker, SourceText, build};
use std::alloc::Global;
use std::random::RandomSource;
use yp_version::Version;

/// Why no version is built behind the last one, the first reason that applies.
#[derive(Debug, PartialEq, Eq, Drop)]
pub enum AfterFault {
    /// The last version has this master, which isn't the own name.
    Foreign { master: Vec<u8> },

    /// The text makes no version, or memory ran out.
    Build(BuildFault),
}

impl From<BuildFault> for AfterFault {
    ghost use Rattle.std.specs.Prelude.{◌≡◌};
    ghost use Rattle.yp_texts.specs.declared.after.AfterFault.TheVariants.{Build};

    ghost from_gives = { λ fault after. after ≡ Build fault };

    fn from(fault: BuildFault) -> Self {
        AfterFault::Build(fault)
    }
}

/// The master of the last version, where it isn't the own name.
pub fn other_master<'a>(own: &[u8], last: Option<&'a Version>) -> Option<&'a [u8]>
    ensures master { option_map (λ master. master.now) result
        ≡ other_master own.now (option_map (λ version. version.now) last.entry) }
    ensures short { IfSome result (λ master. length master.now ≤ master_max) }
{
    let last = last?;
    if last.master() == own {
        None
    } else {
        Some(last.master())
    }
}

/// Whether the last version is secure.
fn is_secure(last: Option<&Version>) -> bool
    ensures { result ≡ was_secure (option_map (λ version. version.now) last.entry) }
{
    match last {
        None => false,
        Some(last) => last.secure(),
    }
}

/// Builds a version of a text behind the last one of its map. The name of its maker is the own name. The version is
/// secure as `flag` says, or where that says nothing as the last one. The text is let go once its rows were taken.
pub fn build_after(
    alloc: Global,
    rt: &impl RandomSource,
    source: SourceText,
    last: Option<&Version>,
    flag: Option<bool>,
    maker: &Maker<'_>,
) -> Result<Version, AfterFault>
    requires limit { length source.text.items ≤ text_max }
    requires own { length maker.now.name.now ≤ master_max }
    ensures version { IfOk result (λ version. built_after
        (basis_of source.reading maker.now.name.now flag (option_map (λ last. last.now) last.entry))
        (material_of source.text.items maker.now.moment) ≡ Ok version) }

    // It follows the last one.
    ensures same_master { OnOk result
        (other_master maker.now.name.now (option_map (λ last. last.now) last.entry) ≡ None) }
    ensures over { IfOk result (HasLaterOrder (option_map (λ last. last.now) last.entry)) }

    // The first reason that applies.
    ensures hindered { IfErr result (IsHindered (built_after
        (basis_of source.reading maker.now.name.now flag (option_map (λ last. last.now) last.entry))
        (material_of source.text.items maker.now.moment))) }
    ensures spent { result ≡ Err (AfterFault.Build BuildFault.OrderSpent)
        → last_order (option_map (λ last. last.now) last.entry) ≡ Some order_max }
    ensures master { IfErr result (TellsMaster maker.now.name.now (option_map (λ last. last.now) last.entry)) }
    ensures short { IfErr result HasShortMaster }
{
    if let Some(master) = other_master(maker.name, last) {
        return match Vec::from_slice(alloc, master) {
            Ok(master) => Err(AfterFault::Foreign { master }),
            Err(_) => Err(AfterFault::Build(BuildFault::NoMemory)),
        };
    }
    let previous = last.map(|version: &Version| version.order());
    let version = build(alloc, rt, source, previous, maker)?;
    Ok(version.marked(flag.unwrap_or(is_secure(last))))
}
