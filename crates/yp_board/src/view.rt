//! How a board is read, and how a version is shown on it.

ghost use Rattle.std.specs.Prelude.{◌≡◌, ℕ, ◌<◌, [], ◌∷◌, ◌++◌, length, option_map, IfOk, OnOk, IfErr, OnErr};
ghost use Rattle.std.specs.Arc.{arc_value};
ghost use Rattle.yp_version.specs.Versions.{MapVersion};
ghost use Rattle.yp_board.specs.Logs.{Log, shown};
ghost use Rattle.yp_board.specs.Views.{Seen, IsFront, Refreshes};

use crate::catalog::Catalog;
use std::alloc::AllocError;
use std::sync::Arc;
use yp_io::NoMemory;
use yp_version::Version;

/// A reader of a board. It knows a front of the board's log, which changes in a read step alone.
///
/// Its calls take no memory, wait for nobody and don't change its catalogue.
pub trait View {
    /// What it tells of itself.
    ghost seen: { Self → Seen };

    /// What a read step does to the whole value.
    ghost stepped: { Self → Self → Type 0 };

    /// The maps that are served.
    fn catalog(&self) -> &Catalog
        ensures { result.now ≡ (seen self.now).catalogue };

    /// The read step.
    fn refresh(&mut self)
        ensures refreshed { Refreshes (seen self.old) (seen self.new) }
        ensures stepped { stepped self.old self.new };

    /// The last version of a map that is known. It makes no step.
    fn held(&self, map: u32) -> Option<&Version>
        requires { map < length (seen self.now).catalogue.maps }
        ensures { option_map (λ version. version.now) result ≡ shown map (seen self.now).known };

    /// The same version with one more owner, who has it for as long as he likes. It makes no step, and is refused where
    /// the version has too many owners.
    fn share(&self, map: u32) -> Result<Option<Arc<Version>>, NoMemory>
        requires { map < length (seen self.now).catalogue.maps }
        ensures { IfOk result (λ version. option_map arc_value version ≡ shown map (seen self.now).known) };
}

/// A version, if there is one, with one more owner.
pub(crate) fn share(version: &Option<Arc<Version>>) -> Result<Option<Arc<Version>>, AllocError>
    ensures { IfOk result (λ shared. option_map arc_value shared ≡ option_map arc_value version.now) }
{
    match version {
        None => Ok(None),
        Some(version) => Ok(Some(Arc::try_clone(version)?)),
    }
}

/// Memory ran out, so the version wasn't shown. It is handed back.
#[derive(Debug, Drop)]
pub struct ShowRefused {
    pub version: Arc<Version>,
}

/// A writer of a board.
pub trait Show {
    /// How many maps there are.
    ghost maps: { Self → ℕ };

    /// The versions that were shown.
    ghost log: { Self → Log };

    /// What showing a version of a map does to the whole value.
    ghost showed: { ℕ → MapVersion → Self → Self → Type 0 };

    /// Shows a version of a map. After a refusal nothing has changed.
    fn show(&mut self, map: u32, version: Arc<Version>) -> Result<(), ShowRefused>
        requires { map < maps self.old }
        ensures log { OnOk result (log self.new ≡ log self.old ++ (map, arc_value version) ∷ []) }
        ensures showed { OnOk result (showed map (arc_value version) self.old self.new) }
        ensures maps { maps self.new ≡ maps self.old }
        ensures err { OnErr result (self.new ≡ self.old) }
        ensures returned { IfErr result (λ refused. refused.version ≡ version) };
}

/// A writer that lets the readers of its board know all that was shown.
pub trait Tell: Show {
    /// What reads the board.
    type Reader: View;

    /// What a reader knew at a moment, kept for good, for contracts alone: a front of the log.
    type Front: Drop;

    /// The log that it is.
    ghost kept: { Self.Front → Log };

    /// Lets a reader know all that was shown. It takes no memory, waits for nobody, and makes no read step. After a
    /// refusal nothing has changed.
    fn tell_to(&mut self, reader: &mut Self::Reader) -> Result<(), NoMemory>
        ensures same { self.new ≡ self.old }
        ensures front { IsFront (Self.Reader.seen reader.old).known (Self.log self.old) }
        ensures told { OnOk result (Self.Reader.seen reader.new
            ≡ record (Self.Reader.seen reader.old) { known = Self.log self.old }) }
        ensures refused { OnErr result (reader.new ≡ reader.old) };

    /// What a reader knows, kept for good. It takes no memory.
    fn known(reader: &Self::Reader) -> Self::Front
        ensures { kept result ≡ (Self.Reader.seen reader.now).known };

    /// The longer of two fronts. Both are fronts of it.
    fn longer(one: Self::Front, other: Self::Front) -> Self::Front
        ensures one { IsFront (kept one) (kept result) }
        ensures other { IsFront (kept other) (kept result) };

    /// What a reader knew at a moment, with the versions that it had, for another reader.
    type Knowledge: Drop;

    /// The log that it is.
    ghost knows: { Self.Knowledge → Log };

    /// What a reader knows, for another one. It takes no memory, and is refused where the versions have too many
    /// owners.
    fn knowledge(reader: &Self::Reader) -> Result<Self::Knowledge, NoMemory>
        ensures { IfOk result (λ knowledge. knows knowledge ≡ (Self.Reader.seen reader.now).known) };

    /// Lets a reader know what another one knew. It waits for nobody, and makes no read step.
    fn teach(reader: &mut Self::Reader, knowledge: Self::Knowledge)
        ensures known { IsFront (knows knowledge) (Self.Reader.seen reader.new).known }
        ensures grown { IsFront (Self.Reader.seen reader.old).known (Self.Reader.seen reader.new).known }
        ensures same { Self.Reader.seen reader.new
            ≡ record (Self.Reader.seen reader.old) { known = (Self.Reader.seen reader.new).known } };

    /// What was known is a front of all that was shown. The call changes nothing: its contract is the fact.
    fn covers(&mut self, front: &Self::Front)
        ensures front { IsFront (kept front.now) (Self.log self.old) }
        ensures same { self.new ≡ self.old };
}
