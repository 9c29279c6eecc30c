//! What a walk asks next.

ghost use Rattle.std.specs.Prelude.{◌≡◌};
ghost use Rattle.yp_transfer.specs.inside.walk.Kept.{standing_of};
ghost use Rattle.yp_transfer.specs.walk.Schedules.{told};

use crate::XfrFault;
use crate::walk::walked::Walked;
use std::alloc::Global;
use yp_version::{Order, VersionBuilder};

/// What is wanted of the source.
#[derive(Drop)]
pub(crate) struct WalkRequest {
    pub(crate) alloc: Global,
    pub(crate) domain: Vec<u8>,
    pub(crate) map: Vec<u8>,
    /// The order of the version that is shown, if one is.
    pub(crate) shown: Option<Order>,
    pub(crate) force: bool,
}

/// What a walk asks next, or how it ended.
#[derive(Drop)]
pub(crate) enum WalkStage {
    /// The order.
    Order,
    /// The master of the version with this order.
    Master(Order),
    /// The first row.
    First(VersionBuilder),
    /// The row behind this key. Its buffer is the one of all keys.
    Next {
        builder: VersionBuilder,
        key: Vec<u8>,
    },
    /// The order again, behind the last row, and the fault by which the rows ended, if it was one.
    Again(VersionBuilder, Option<XfrFault>),
    /// Nothing.
    Ended(Result<VersionBuilder, XfrFault>),
}

impl WalkStage {
    /// What is answered to the mail that led here.
    pub(crate) fn told(&self) -> Result<Walked, XfrFault>
        ensures { result ≡ told (standing_of self.now) }
    {
        match self {
            WalkStage::Ended(Ok(_)) => Ok(Walked::Done),
            WalkStage::Ended(Err(fault)) => Err(*fault),
            WalkStage::Order
            | WalkStage::Master(_)
            | WalkStage::First(_)
            | WalkStage::Next { .. }
            | WalkStage::Again(_, _) => Ok(Walked::Onward),
        }
    }
}
