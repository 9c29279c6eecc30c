//! A version that is ready to be stored.

ghost use Rattle.std.specs.Prelude.{◌≡◌, IfOk};
ghost use Rattle.std.specs.Arc.{arc_value};

use std::alloc::Global;
use std::sync::Arc;
use yp_io::NoMemory;
use yp_version::Version;

/// A version with an owner on each side: what is stored, and what is shown.
#[derive(Drop)]
pub(crate) struct Spelled {
    pub(crate) stored: Arc<Version>,
    pub(crate) shown: Arc<Version>,
}

impl Spelled {
    /// Shares a version. It takes all the memory that storing it needs.
    pub(crate) fn new(alloc: Global, version: Version) -> Result<Spelled, NoMemory>
        ensures stored { IfOk result (λ spelled. arc_value spelled.stored ≡ version) }
        ensures shown { IfOk result (λ spelled. arc_value spelled.shown ≡ version) }
    {
        let Ok(stored) = Arc::new(alloc, version.indexed(alloc)) else {
            return Err(NoMemory);
        };
        let Ok(shown) = Arc::try_clone(&stored) else {
            return Err(NoMemory);
        };
        Ok(Spelled { stored, shown })
    }
}
