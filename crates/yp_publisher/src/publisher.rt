//! Publishers: maps with their files, and the board on which their versions are shown.

ghost use Rattle.std.specs.Prelude.{◌≡◌, ◌⊎◌, ◌+◌, ◌<◌, [], ℕ, map, length, OnOk, OnErr, IfOk, IfErr, IsErrOf};
ghost use Rattle.std.specs.Prelude.{option_map};
ghost use Rattle.std.specs.Arc.{arc_value};
ghost use Rattle.yp_io.specs.Counts.{HasRisen};
ghost use Rattle.yp_version.specs.Versions.{MapVersion};
ghost use Rattle.yp_map_file.specs.Commits.{generation_max};
ghost use Rattle.yp_board.specs.Logs.{shown};
ghost use Rattle.yp_board.specs.Views.{IsFront};
ghost use Rattle.yp_publisher.specs.Standing.{Level, IsStanding, IsNumbered, OfMap, At, versions, Shows};
ghost use Rattle.yp_publisher.specs.inside.Standing.{standing_name};
ghost use Rattle.yp_publisher.specs.Keeping.{keeping_of, Upholds};
ghost use Rattle.yp_publisher.specs.Installs.{offer, install_refusal, IsInstallCause, IsUnopposed, IsInstalled};
ghost use Rattle.yp_publisher.specs.Installs.{IsUnsure};
ghost use Rattle.yp_publisher.specs.Installs.{IsUnshown};
ghost use Rattle.yp_publisher.specs.Installs.{LeavesEither, Installs, Refuses};
ghost use Rattle.yp_publisher.specs.Opens.{IsAnother, Opens, StaysBehind};
ghost use Rattle.yp_publisher.specs.Rising.{publisher_state, with_shown, Stores};

use crate::install::{InstallFault, Installed, Origin};
use crate::loaded::{Loaded, give_back};
use crate::spelled::Spelled;
use crate::stored::StoredMap;
use std::alloc::Global;
use std::marker::Model;
use std::random::RandomSource;
use std::sync::Arc;
use yp_board::{Catalog, Show, Tell, View};
use yp_io::{Disk, NoMemory};
use yp_map_file::SlotFault;
use yp_version::Version;

/// How a map stands.
#[derive(Clone, Copy, Debug, PartialEq, Eq)]
pub enum Standing {
    /// A crash leaves the version that is shown.
    Level,
    /// A crash leaves that version or the one whose install failed.
    Behind,
}

/// Maps with their files, in the order of a catalogue, and the board on which their versions are shown.
#[derive(Drop)]
pub struct Publisher<D: Disk, B: Show> {
    catalog: Catalog,
    maps: Vec<StoredMap<D>>,
    // Empty, with room for the disks.
    disks: Vec<D>,
    board: B,
}

impl<D: Disk, B: Show> Model for Publisher<D, B> {
    ghost use Rattle.std.specs.Prelude.{◌≡◌, ℕ, [], length, vec_capacity};
    ghost use Rattle.yp_publisher.specs.Standing.{Published, IsStanding, OfMap};
    ghost use Rattle.yp_publisher.specs.inside.Starts.{IsPublisher};

    ghost Value = { Published D B };

    ghost view = { λ p. record { catalogue = p.catalog; maps = p.maps.items; board = p.board } };

    ghost invariant = { λ p. (p.disks.items ≡ [])
        × IsPublisher p.maps.items (length p.catalog.maps) (B.log p.board) (B.maps p.board) (vec_capacity p.disks)
        × ((number : ℕ) → OfMap number p.maps.items (IsStanding D.history)) };
}

impl<D: Disk, B: Show> Publisher<D, B> {
    /// A publisher of what was loaded, in the order of a catalogue, on a board that shows exactly that.
    pub fn new(loaded: Loaded<D>, catalog: Catalog, board: B) -> Publisher<D, B>
        requires maps { length loaded ≡ length catalog.maps }
        requires board { B.maps board ≡ length catalog.maps }
        requires shown { Shows (B.log board) (versions loaded) }
        ensures { result ≡ record { catalogue = catalog; maps = loaded; board = board } }
    {
        let Loaded { maps, disks } = loaded;
        Publisher {
            catalog,
            maps,
            disks,
            board,
        }
    }

    /// Its disks, in the order of their maps, and its board. It takes no memory.
    pub fn into_parts(self) -> (Vec<D>, B)
        ensures disks { result.0.items ≡ map (λ kept. kept.disk) self.maps }
        ensures board { result.1 ≡ self.board }
        ensures shown { Shows (B.log result.1) (versions self.maps) }
        ensures standing { (number : ℕ) → OfMap number self.maps (IsStanding D.history) }
        ensures numbered { (number : ℕ) → OfMap number self.maps (IsNumbered D.history) }
    {
        let Publisher {
            catalog: _,
            maps,
            disks,
            board,
        } = self;
        (give_back(disks, maps), board)
    }

    /// The maps that are served.
    pub fn catalog(&self) -> &Catalog
        ensures catalogue { result.now ≡ self.now.catalogue }
        ensures maps { length self.now.maps ≡ length self.now.catalogue.maps }
        ensures board { B.maps self.now.board ≡ length self.now.catalogue.maps }
        ensures shown { Shows (B.log self.now.board) (versions self.now.maps) }
        ensures standing { (number : ℕ) → OfMap number self.now.maps (IsStanding D.history) }
    {
        &self.catalog
    }

    /// The version that is shown of a map.
    pub fn shown(&self, map: u32) -> Option<&Arc<Version>>
        requires { map < length self.now.maps }
        ensures version { option_map (λ version. arc_value version.now) result ≡ shown map (B.log self.now.board) }
        ensures kept { OfMap map self.now.maps (λ kept. kept.version ≡ shown map (B.log self.now.board)) }
    {
        let stored = &self.maps[map as usize];
        stored.version()
    }

    /// The generation of a map's file when it was known last, and 0 where nothing was stored then.
    pub fn generation(&self, map: u32) -> u64
        requires { map < length self.now.maps }
        ensures generation { OfMap map self.now.maps (λ kept. result ≡ kept.generation) }
        ensures numbered { OfMap map self.now.maps (IsNumbered D.history) }
    {
        let stored = &self.maps[map as usize];
        stored.generation()
    }

    /// How a map stands. Whatever a crash may leave of its file now stands so.
    pub fn standing(&self, map: u32) -> Standing
        requires { map < length self.now.maps }
        ensures name { OfMap map self.now.maps (λ kept. result ≡ standing_name kept.standing) }

        // The board is never ahead of the file.
        ensures standing { OfMap map self.now.maps (IsStanding D.history) }
        ensures shown { OfMap map self.now.maps (λ kept. kept.version ≡ shown map (B.log self.now.board)) }
    {
        let stored = &self.maps[map as usize];
        stored.standing()
    }

    /// Stores a version of a map, and then shows it. At each moment of the call a crash leaves a file that stands for
    /// what is shown or for that version.
    ///
    /// After a fault that comes before the disk is called nothing has changed. After `DiskFault`, and where memory runs
    /// out once the version is stored, the map is behind, and has to be opened again.
    pub fn install(
        &mut self,
        alloc: Global,
        map: u32,
        version: Version,
        origin: Origin,
        force: bool,
    ) -> Result<Installed, InstallFault>
        requires { map < length self.old.maps }
        ensures installed { OnOk result (Installs (keeping_of D.history D.faults B.log) map
            (offer version origin force) self.old self.new) }
        ensures answer { IfOk result (λ installed. OfMap map self.old.maps
            (λ kept. installed ≡ record { order = version.order; generation = kept.generation + 1 })) }
        ensures showed { OnOk result (B.showed map version self.old.board self.new.board) }

        // Why it isn't installed, the first reason that applies, and what that leaves.
        ensures refused { IfErr result (λ fault. Refuses (keeping_of D.history D.faults B.log) map
            (offer version origin force) fault self.old self.new) }
    {
        self.check(alloc, map, &version, origin, force)?;
        let order = version.order();
        let spelled = Spelled::new(alloc, version)?;
        let generation = self.store(map, spelled)?;
        Ok(Installed { order, generation })
    }

    /// Refuses what is offered of a map, for the first reason that applies.
    fn check(
        &self,
        alloc: Global,
        map: u32,
        version: &Version,
        origin: Origin,
        force: bool,
    ) -> Result<(), InstallFault>
        requires { map < length self.now.maps }
        ensures unopposed { OnOk result (IsUnopposed map (offer version.now origin force) self.now) }
        ensures refused { IfErr result (λ fault. OfMap map self.now.maps
            (λ kept. IsInstallCause fault (install_refusal self.now.catalogue.own
            (offer version.now origin force) kept))) }
        ensures no_disk { IsErrOf result InstallFault.DiskFault → ⊥ }
        ensures generation { OnOk result (OfMap map self.now.maps (λ kept. kept.generation < generation_max)) }

        // While nothing is done, nothing changes.
        ensures any_moment { At map self.now.maps self.now.maps (LeavesEither D.history version.now) }
        ensures upheld { Upholds (keeping_of D.history D.faults B.log) map self.now self.now }
    {
        let stored = &self.maps[map as usize];
        stored.rest();
        stored.refuse(alloc, self.catalog.own(), version, origin, force)
    }

    /// Stores a version of a level map, and then shows it.
    fn store(&mut self, map: u32, spelled: Spelled) -> Result<u64, InstallFault>
        requires map { map < length self.old.maps }
        requires level { OfMap map self.old.maps (λ kept. kept.standing ≡ Level) }
        requires generation { OfMap map self.old.maps (λ kept. kept.generation < generation_max) }
        requires shown { arc_value spelled.shown ≡ arc_value spelled.stored }
        ensures fault { IfErr result (λ fault. (fault ≡ InstallFault.DiskFault) ⊎ (fault ≡ InstallFault.NoMemory)) }
        ensures cause { IsErrOf result InstallFault.DiskFault → At map self.old.maps self.new.maps
            (λ before after. HasRisen (D.faults before.disk) (D.faults after.disk)) }
        ensures installed { OnOk result
            (At map self.old.maps self.new.maps (IsInstalled (arc_value spelled.stored))) }
        ensures answer { IfOk result (λ generation. OfMap map self.old.maps
            (λ kept. generation ≡ kept.generation + 1)) }
        ensures log { OnOk result
            (B.log self.new.board ≡ with_shown map (arc_value spelled.stored) (B.log self.old.board)) }
        ensures showed { OnOk result
            (B.showed map (arc_value spelled.stored) self.old.board self.new.board) }
        ensures not_shown { OnErr result (self.new.board ≡ self.old.board) }
        ensures disk_fault { IsErrOf result InstallFault.DiskFault
            → At map self.old.maps self.new.maps (IsUnsure (arc_value spelled.stored)) }
        ensures no_memory { IsErrOf result InstallFault.NoMemory
            → At map self.old.maps self.new.maps (IsUnshown (arc_value spelled.stored)) }
        ensures any_moment { At map self.old.maps self.new.maps
            (LeavesEither D.history (arc_value spelled.stored)) }
        ensures upheld { Upholds (keeping_of D.history D.faults B.log) map self.old self.new }
        ensures stores { Stores map (arc_value spelled.stored) (publisher_state B.log self.old)
            (publisher_state B.log self.new) }
    {
        let stored = &mut self.maps[map as usize];
        stored.install(&mut self.board, map, spelled)
    }

    /// Opens the file of a map that is behind again, and shows what stands there where that isn't what is shown. The
    /// map is level then. After a refusal it is still behind. Where the map is level, nothing is done.
    pub fn reopen(
        &mut self,
        alloc: Global,
        rt: &impl RandomSource,
        map: u32,
    ) -> Result<(), SlotFault>
        requires { map < length self.old.maps }
        ensures opened { OnOk result (Opens (keeping_of D.history D.faults B.log) map self.old self.new) }
        ensures showed { OnOk result (At map self.old.maps self.new.maps (λ before after.
            (self.new.board ≡ self.old.board) ⊎ ((version : MapVersion) × IsAnother version before after
            × B.showed map version self.old.board self.new.board))) }
        ensures refused { IfErr result (λ fault.
            StaysBehind (keeping_of D.history D.faults B.log) map fault self.old self.new) }
    {
        yp_map_file::laws::file_is_bounded();
        let stored = &mut self.maps[map as usize];
        stored.reopen(alloc, rt, &mut self.board, map)
    }
}

/// It knows all that was shown. It doesn't count its read steps: their count stands at its last value.
impl<D: Disk, B: Show> View for Publisher<D, B> {
    ghost use Rattle.yp_publisher.specs.inside.Standing.{knows_all};

    ghost seen = { knows_all B.log };

    ghost stepped = { λ old new. new ≡ old };

    fn catalog(&self) -> &Catalog {
        &self.catalog
    }

    fn refresh(&mut self) {}

    fn held(&self, map: u32) -> Option<&Version> {
        // Each map of the catalogue is kept.
        let _catalog = self.catalog();
        match self.shown(map) {
            None => None,
            Some(version) => Some(&**version),
        }
    }

    fn share(&self, map: u32) -> Result<Option<Arc<Version>>, NoMemory> {
        // Each map of the catalogue is kept.
        let _catalog = self.catalog();
        match self.shown(map) {
            None => Ok(None),
            Some(version) => match Arc::try_clone(version) {
                Ok(version) => Ok(Some(version)),
                Err(_) => Err(NoMemory),
            },
        }
    }
}

impl<D: Disk, B: Tell> Publisher<D, B> {
    /// Lets a reader of its board know all that was shown. It takes no memory, and after a refusal nothing has changed.
    pub fn tell_to(&mut self, reader: &mut B::Reader) -> Result<(), NoMemory>
        ensures same { self.new ≡ self.old }
        ensures front { IsFront (B.Reader.seen reader.old).known (B.log self.old.board) }
        ensures told { OnOk result (B.Reader.seen reader.new
            ≡ record (B.Reader.seen reader.old) { known = B.log self.old.board }) }
        ensures refused { OnErr result (reader.new ≡ reader.old) }
    {
        self.board.tell_to(reader)
    }

    /// What a reader of its board knew is a front of all that was shown. The call changes nothing.
    pub fn covers(&mut self, front: &B::Front)
        ensures front { IsFront (B.kept front.now) (B.log self.old.board) }
        ensures same { self.new ≡ self.old }
    {
        self.board.covers(front);
    }
}
