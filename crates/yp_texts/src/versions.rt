//! A version that is built of a text.

ghost use Rattle.std.specs.Prelude.{◌≡◌, ◌≤◌, ◌⊎◌, ◌↔◌, length, Some, Ok, Err, IfOk, IfErr};
ghost use Rattle.yp_io.specs.Texts.{text_max};
ghost use Rattle.yp_version.specs.Limits.{master_max};
ghost use Rattle.yp_texts.specs.Builds.{order_max, built};

use crate::fault::BuildFault;
use crate::order::next_order;
use crate::push::rows_of;
use crate::reading::Reading;
use std::alloc::Global;
use std::random::RandomSource;
use yp_version::{Order, Version, VersionBuilder};

/// A text, and how it is read.
#[derive(Debug, Drop)]
pub struct SourceText {
    pub reading: Reading,
    pub text: Vec<u8>,
}

/// The host that makes a version, and when.
#[derive(Clone, Copy, Debug)]
pub struct Maker<'a> {
    /// Its name, which becomes the master of the version.
    pub name: &'a [u8],
    /// The moment by its clock, in seconds.
    pub moment: u32,
}

/// Builds a version of a text, where `previous` is the order of the last version. The text is let go before its rows
/// are sorted, which takes as much memory again as they have.
pub fn build(
    alloc: Global,
    rt: &impl RandomSource,
    source: SourceText,
    previous: Option<Order>,
    maker: &Maker<'_>,
) -> Result<Version, BuildFault>
    requires limit { length source.text.items ≤ text_max }
    requires master { length maker.now.name.now ≤ master_max }
    ensures version { IfOk result (λ version.
        built source.reading source.text.items previous maker.now.moment maker.now.name.now ≡ Ok version) }

    // Each fault has its cause, but for want of memory. A spent order goes before all others.
    ensures cause { IfErr result (λ fault.
        (fault ≡ BuildFault.NoMemory)
        ⊎ (built source.reading source.text.items previous maker.now.moment maker.now.name.now ≡ Err fault)) }
    ensures spent { (result ≡ Err BuildFault.OrderSpent) ↔ (previous ≡ Some order_max) }
{
    let SourceText { reading, text } = source;
    let order = next_order(previous, maker.moment)?;
    let mut builder = VersionBuilder::new(alloc, rt, order, maker.name)?;
    rows_of(alloc, reading, &text, &mut builder)?;
    drop(text);
    Ok(builder.finish()?)
}
