//! The last version of each map.

ghost use Rattle.std.specs.Prelude.{◌≡◌, ◌<◌, None, Some, map, length, option_map, slice_index_or, slice_set, IfOk};
ghost use Rattle.std.specs.Arc.{arc_value};

use crate::view::share;
use std::alloc::{AllocError, Global};
use std::marker::Model;
use std::sync::Arc;
use yp_version::Version;

/// The last versions of maps, by their numbers. Contracts see them as a list.
#[derive(Drop)]
pub struct Slots {
    versions: Vec<Option<Arc<Version>>>,
}

impl Model for Slots {
    ghost use Rattle.std.specs.Prelude.{List, Option, map, option_map};
    ghost use Rattle.std.specs.Arc.{arc_value};
    ghost use Rattle.yp_version.specs.Versions.{MapVersion};

    ghost Value = { List (Option MapVersion) };

    ghost view = { λ s. map (option_map arc_value) s.versions.items };
}

impl Slots {
    /// The slots of these versions.
    pub(crate) fn new(versions: Vec<Option<Arc<Version>>>) -> Slots
        ensures { result ≡ map (option_map arc_value) versions.items }
    {
        Slots { versions }
    }

    /// How many maps there are.
    pub(crate) fn len(&self) -> usize
        ensures { result ≡ length self.now }
    {
        self.versions.len()
    }

    /// The version of a map, if there is one.
    pub(crate) fn get(&self, map: u32) -> Option<&Version>
        ensures { option_map (λ version. version.now) result ≡ slice_index_or self.now map None }
    {
        match self.versions.get(map as usize) {
            Some(Some(version)) => Some(&**version),
            _ => None,
        }
    }

    /// The version of a map, if there is one, with one more owner.
    pub(crate) fn share(&self, map: u32) -> Result<Option<Arc<Version>>, AllocError>
        ensures { IfOk result (λ version. option_map arc_value version ≡ slice_index_or self.now map None) }
    {
        match self.versions.get(map as usize) {
            Some(version) => share(version),
            None => Ok(None),
        }
    }

    /// A copy of the slots with another version of one map. Each version has one more owner.
    pub(crate) fn with(
        &self,
        alloc: Global,
        map: u32,
        version: &Arc<Version>,
    ) -> Result<Slots, AllocError>
        requires { map < length self.now }
        ensures { IfOk result (λ slots. slots ≡ slice_set self.now map (Some (arc_value version.now))) }
    {
        let mut versions = shared(alloc, &self.versions)?;
        versions[map as usize] = Some(Arc::try_clone(version)?);
        Ok(Slots { versions })
    }
}

/// A copy of these versions, each with one more owner.
fn shared(
    alloc: Global,
    versions: &[Option<Arc<Version>>],
) -> Result<Vec<Option<Arc<Version>>>, AllocError>
    ensures { IfOk result (λ copies. map (option_map arc_value) copies.items
        ≡ map (option_map arc_value) versions.now) }
{
    let mut copies = Vec::with_capacity(alloc, versions.len())?;
    for version in versions {
        copies.push(share(version)?)?;
    }
    Ok(copies)
}
