//! A map with its file.

ghost use Rattle.std.specs.Prelude.{◌≡◌, ◌≢◌, ◌⊎◌, ◌+◌, ◌<◌, ◌≤◌, ◌++◌, ◌∷◌, ◌↔◌, [], ℕ, Some, None, length};
ghost use Rattle.std.specs.Prelude.{OnOk, OnErr, IfOk, IfErr, IfSome, IsOk, IsTrue, IsErrOf, IsSome, option_map};
ghost use Rattle.std.specs.Prelude.{List, is_ok, if◌then◌else◌};
ghost use Rattle.std.specs.Arc.{arc_value};
ghost use Rattle.yp_io.specs.Counts.{CountsFaults, HasRisen};
ghost use Rattle.yp_io.specs.Disk.{LeavesOnly, MayLeave, IsDurable, after_sync};
ghost use Rattle.yp_version.specs.Versions.{MapVersion};
ghost use Rattle.yp_map_file.specs.Commits.{generation_max};
ghost use Rattle.yp_map_file.specs.Slots.{HasGeneration};
ghost use Rattle.yp_map_file.specs.inside.Slots.{IsAsBeforeOr, is_ready};
ghost use Rattle.yp_map_file.specs.Stands.{Stored, file_max, stands};
ghost use Rattle.yp_map_file.specs.declared.known.Stage.TheVariants.{Unready, Loaded};
ghost use Rattle.yp_publisher.specs.Standing.{Level, Behind, IsStanding, IsNumbered};
ghost use Rattle.yp_publisher.specs.inside.Standing.{standing_name};
ghost use Rattle.yp_publisher.specs.Keeping.{keeping_of, LeavesFew};
ghost use Rattle.yp_publisher.specs.inside.Shared.{LoadsShared};
ghost use Rattle.yp_publisher.specs.Installs.{offer, install_refusal, not_following, IsInstallCause};
ghost use Rattle.yp_publisher.specs.Installs.{IsInstalled, IsUnsure, IsUnshown, LeavesEither};
ghost use Rattle.yp_publisher.specs.Opens.{IsOpened, DiskIsRefused, IsAnother, IsWhatStood, LeavesNoMore};
ghost use Rattle.yp_publisher.specs.Opens.{IsGenerationLeft, IsStillBehind, IsOpenCause};

use crate::install::{InstallFault, Origin};
use crate::publisher::Standing;
use crate::same::is_same;
use crate::spelled::Spelled;
use std::alloc::{AllocError, Global};
use std::marker::Model;
use std::random::RandomSource;
use std::sync::Arc;
use yp_board::Show;
use yp_io::{Disk, Failed};
use yp_map_file::{GENERATION_MAX, Slot, SlotFault};
use yp_version::Version;

/// A map with its file, the version that is shown of it, and the one whose install failed, if one did and the file
/// wasn't opened again since.
#[derive(Drop)]
pub(crate) struct StoredMap<D: Disk> {
    slot: Slot<D>,
    version: Option<Arc<Version>>,
    failed: Option<Arc<Version>>,
}

impl<D: Disk> Model for StoredMap<D> {
    ghost use Rattle.std.specs.Prelude.{option_map};
    ghost use Rattle.std.specs.Arc.{arc_value};
    ghost use Rattle.yp_publisher.specs.Standing.{StoredMap};
    ghost use Rattle.yp_publisher.specs.inside.Shared.{standing_of, IsKept};

    ghost Value = { StoredMap D };

    ghost view = { λ m. record {
      disk = m.slot.disk;
      generation = m.slot.generation;
      version = option_map arc_value m.version;
      standing = standing_of m.failed;
    } };

    ghost invariant = { λ m.
        IsKept (D.history m.slot.disk) m.slot.stage m.slot.generation (option_map arc_value m.version)
        (standing_of m.failed) };
}

impl<D: Disk> StoredMap<D> {
    /// Loads a disk.
    pub(crate) fn load(
        alloc: Global,
        rt: &impl RandomSource,
        disk: D,
    ) -> Result<StoredMap<D>, (D, SlotFault)>
        ensures opened { IfOk result (IsOpened D.history D.faults disk) }
        ensures refused { IfErr result (λ refused. DiskIsRefused D.history D.faults disk refused.0 refused.1) }
    {
        let mut slot = Slot::new(disk);
        match load_shared(alloc, rt, &mut slot) {
            Ok(version) => Ok(StoredMap {
                slot,
                version,
                failed: None,
            }),
            Err(fault) => Err((slot.into_disk(), fault)),
        }
    }

    /// Its disk.
    pub(crate) fn into_disk(self) -> D
        ensures disk { result ≡ self.disk }
        ensures standing { IsStanding D.history self }
        ensures numbered { IsNumbered D.history self }
    {
        let StoredMap {
            slot,
            version: _,
            failed: _,
        } = self;
        slot.into_disk()
    }

    /// The version that is shown of it.
    pub(crate) fn version(&self) -> Option<&Arc<Version>>
        ensures { option_map (λ version. arc_value version.now) result ≡ self.now.version }
    {
        self.version.as_ref()
    }

    /// The shown version, if there is one, with one more owner.
    pub(crate) fn share(&self) -> Result<Option<Arc<Version>>, AllocError>
        ensures { IfOk result (λ version. option_map arc_value version ≡ self.now.version) }
    {
        match &self.version {
            None => Ok(None),
            Some(version) => Ok(Some(Arc::try_clone(version)?)),
        }
    }

    /// The generation of its file when it was known last.
    pub(crate) fn generation(&self) -> u64
        ensures generation { result ≡ self.now.generation }
        ensures numbered { IsNumbered D.history self.now }
    {
        self.slot.generation()
    }

    /// How it stands.
    pub(crate) fn standing(&self) -> Standing
        ensures name { result ≡ standing_name self.now.standing }
        ensures standing { IsStanding D.history self.now }
    {
        match &self.failed {
            None => Standing::Level,
            Some(_) => Standing::Behind,
        }
    }

    /// Does nothing. Its contract says what a crash leaves meanwhile.
    pub(crate) fn rest(&self)
        ensures any_moment { (version : MapVersion) → LeavesEither D.history version self.now self.now }
        ensures bound { LeavesFew D.history self.now self.now }
        ensures standing { IsStanding D.history self.now }
        ensures numbered { IsNumbered D.history self.now }
    {
        yp_map_file::laws::file_is_bounded();
        let _slot = &self.slot;
    }

    /// Refuses what is offered to it, for the first reason that applies. It changes nothing.
    pub(crate) fn refuse(
        &self,
        alloc: Global,
        own: &[u8],
        version: &Version,
        origin: Origin,
        force: bool,
    ) -> Result<(), InstallFault>
        ensures accepted { OnOk result (install_refusal own.now (offer version.now origin force) self.now ≡ None) }
        ensures refused { IfErr result (λ fault.
            IsInstallCause fault (install_refusal own.now (offer version.now origin force) self.now)) }
        ensures generation { OnOk result (self.now.generation < generation_max) }
        ensures no_disk { IsErrOf result InstallFault.DiskFault → ⊥ }
    {
        if self.failed.is_some() {
            return Err(InstallFault::Behind);
        }
        if let Some(shown) = &self.version {
            refuse_after(alloc, own, shown, version, origin, force)?;
        }
        if self.slot.generation() == GENERATION_MAX {
            return Err(InstallFault::GenerationsSpent);
        }
        Ok(())
    }

    /// Stores a version and then shows it.
    pub(crate) fn install<B: Show>(
        &mut self,
        board: &mut B,
        map: u32,
        spelled: Spelled,
    ) -> Result<u64, InstallFault>
        requires level { self.old.standing ≡ Level }
        requires generation { self.old.generation < generation_max }
        requires map { map < B.maps board.old }
        requires shown { arc_value spelled.shown ≡ arc_value spelled.stored }
        ensures installed { OnOk result (IsInstalled (arc_value spelled.stored) self.old self.new) }
        ensures answer { IfOk result (λ generation. generation ≡ self.old.generation + 1) }
        ensures log { OnOk result
            (B.log board.new ≡ B.log board.old ++ (map, arc_value spelled.stored) ∷ []) }
        ensures showed { OnOk result (B.showed map (arc_value spelled.stored) board.old board.new) }
        ensures maps { B.maps board.new ≡ B.maps board.old }
        ensures not_shown { OnErr result (board.new ≡ board.old) }
        ensures fault { IfErr result (λ fault. (fault ≡ InstallFault.DiskFault) ⊎ (fault ≡ InstallFault.NoMemory)) }
        ensures disk_fault { IsErrOf result InstallFault.DiskFault
            → IsUnsure (arc_value spelled.stored) self.old self.new }
        ensures no_memory { IsErrOf result InstallFault.NoMemory
            → IsUnshown (arc_value spelled.stored) self.old self.new }
        ensures version { OnOk result (self.new.version ≡ Some (arc_value spelled.stored)) }
        ensures version_kept { OnErr result (self.new.version ≡ self.old.version) }
        ensures level { OnOk result (self.new.standing ≡ Level) }
        ensures behind { OnErr result (self.new.standing ≡ Behind (arc_value spelled.stored)) }
        ensures any_moment { LeavesEither D.history (arc_value spelled.stored) self.old self.new }
        ensures bound { LeavesFew D.history self.old self.new }
        ensures standing { IsStanding D.history self.new }
        ensures numbered { IsNumbered D.history self.new }
        ensures cause { IsErrOf result InstallFault.DiskFault
            → HasRisen (D.faults self.old.disk) (D.faults self.new.disk) }
        ensures never_falls { D.faults self.old.disk ≤ D.faults self.new.disk }
    {
        let Spelled { stored, shown } = spelled;
        let Ok(generation) = commit(&mut self.slot, &stored) else {
            self.failed = Some(stored);
            return Err(InstallFault::DiskFault);
        };
        if board.show(map, shown).is_err() {
            self.failed = Some(stored);
            return Err(InstallFault::NoMemory);
        }
        self.version = Some(stored);
        Ok(generation)
    }

    /// Loads its file again where it is behind, and shows what stands there where that isn't what is shown.
    pub(crate) fn reopen<B: Show>(
        &mut self,
        alloc: Global,
        rt: &impl RandomSource,
        board: &mut B,
        map: u32,
    ) -> Result<(), SlotFault>
        requires { map < B.maps board.old }
        ensures level { self.old.standing ≡ Level → IsOk result × (self.new ≡ self.old) × (board.new ≡ board.old) }
        ensures ok { OnOk result (self.new.standing ≡ Level) }
        ensures stood { OnOk result (self.old.standing ≢ Level → IsWhatStood D.history self.old.disk self.new) }
        ensures shown { OnOk result (((board.new ≡ board.old) × (self.new.version ≡ self.old.version))
            ⊎ ((version : MapVersion) × IsAnother version self.old self.new
            × (B.log board.new ≡ B.log board.old ++ (map, version) ∷ []) × B.showed map version board.old board.new)) }
        ensures still { IfErr result (λ fault. IsStillBehind D.history fault self.old self.new) }
        ensures not_shown { OnErr result (board.new ≡ board.old) }
        ensures maps { B.maps board.new ≡ B.maps board.old }
        ensures cause { IfErr result (λ fault.
            IsOpenCause (keeping_of D.history D.faults B.log) fault self.old self.new) }
        ensures never_falls { D.faults self.old.disk ≤ D.faults self.new.disk }
        ensures no_more { LeavesNoMore D.history self.old.disk self.new.disk }
        ensures before { IsStanding D.history self.old }
        ensures standing { IsStanding D.history self.new }
        ensures numbered { IsNumbered D.history self.new }
    {
        if self.failed.is_none() {
            return Ok(());
        }
        if let Some(version) = load_shared(alloc, rt, &mut self.slot)? {
            if !is_shown(&self.version, &version) {
                self.version = Some(show(board, map, version)?);
            }
        }
        self.failed = None;
        Ok(())
    }
}

/// What the file of a slot stands for, with an owner.
fn load_shared<D: Disk>(
    alloc: Global,
    rt: &impl RandomSource,
    slot: &mut Slot<D>,
) -> Result<Option<Arc<Version>>, SlotFault>
    ensures ready { OnOk result (IsTrue (is_ready slot.new.stage)) }
    ensures loads { IfSome (D.history slot.old.disk) (λ h. LoadsShared (stands h.state.reads) result) }
    ensures generation { OnOk result (HasGeneration (D.history slot.old.disk) slot.new.generation) }
    ensures numbered { OnOk result (HasGeneration (D.history slot.new.disk) slot.new.generation) }
    ensures left { IfErr result (λ fault.
        IsGenerationLeft (D.history slot.old.disk) fault slot.old.generation slot.new.generation) }
    ensures synced { OnOk result (D.history slot.new.disk ≡ option_map after_sync (D.history slot.old.disk)) }
    ensures no_more { LeavesNoMore D.history slot.old.disk slot.new.disk }
    ensures durable { OnOk result (IsDurable (D.history slot.new.disk)) }
    ensures never_falls { D.faults slot.old.disk ≤ D.faults slot.new.disk }
    ensures cause { IsErrOf result SlotFault.DiskFault → HasRisen (D.faults slot.old.disk) (D.faults slot.new.disk) }
{
    match slot.load(alloc, rt)? {
        None => Ok(None),
        Some(version) => match Arc::new(alloc, version.indexed(alloc)) {
            Ok(shared) => Ok(Some(shared)),
            Err(_) => Err(SlotFault::NoMemory),
        },
    }
}

/// Whether a version is the one that is shown, if one is.
fn is_shown(shown: &Option<Arc<Version>>, version: &Version) -> bool
    ensures { IsTrue result ↔ (option_map arc_value shown.now ≡ Some version.now) }
{
    match shown {
        None => false,
        Some(shown) => is_same(shown, version),
    }
}

/// Shows a version, and hands back an owner of it.
fn show<B: Show>(board: &mut B, map: u32, version: Arc<Version>) -> Result<Arc<Version>, SlotFault>
    requires { map < B.maps board.old }
    ensures log { OnOk result (B.log board.new ≡ B.log board.old ++ (map, arc_value version) ∷ []) }
    ensures showed { OnOk result (B.showed map (arc_value version) board.old board.new) }
    ensures same { IfOk result (λ kept. arc_value kept ≡ arc_value version) }
    ensures maps { B.maps board.new ≡ B.maps board.old }
    ensures not_shown { OnErr result (board.new ≡ board.old) }
    ensures fault { IfErr result (λ fault. fault ≡ SlotFault.NoMemory) }
{
    let Ok(shown) = Arc::try_clone(&version) else {
        return Err(SlotFault::NoMemory);
    };
    match board.show(map, shown) {
        Ok(()) => Ok(version),
        Err(_) => Err(SlotFault::NoMemory),
    }
}

/// Refuses a version that doesn't follow the one that is shown.
fn refuse_after(
    alloc: Global,
    own: &[u8],
    shown: &Version,
    version: &Version,
    origin: Origin,
    force: bool,
) -> Result<(), InstallFault>
    ensures accepted { OnOk result
        (not_following own.now (offer version.now origin force) (Some shown.now) ≡ None) }
    ensures refused { IfErr result (λ fault.
        IsInstallCause fault (not_following own.now (offer version.now origin force) (Some shown.now))) }
    ensures cause { OnErr result (IsSome (not_following own.now (offer version.now origin force) (Some shown.now))) }
    ensures no_disk { IsErrOf result InstallFault.DiskFault → ⊥ }
{
    let is_own = shown.master() == own;
    if is_own != (origin == Origin::Built) {
        return match Vec::from_slice(alloc, shown.master()) {
            Ok(master) => Err(InstallFault::Refused { master }),
            Err(_) => Err(InstallFault::NoMemory),
        };
    }
    if !force && version.order() <= shown.order() {
        return Err(InstallFault::Age {
            shown: shown.order().number(),
            offered: version.order().number(),
        });
    }
    Ok(())
}

// Stores a version in a slot, whose body it lends, and answers its generation.
fn commit<D: Disk>(slot: &mut Slot<D>, version: &Arc<Version>) -> Result<u64, Failed>
    requires ready { IsTrue (is_ready slot.old.stage) }
    requires generation { slot.old.generation < generation_max }
    ensures stage { slot.new.stage ≡ (if is_ok result then Loaded else Unready) }
    ensures generation { IfOk result (λ generation. generation ≡ slot.old.generation + 1) }
    ensures generation_kept { slot.new.generation ≡ slot.old.generation + (if is_ok result then 1 else 0) }
    ensures any_moment { LeavesOnly (D.history slot.old.disk) (D.history slot.new.disk)
        (IsAsBeforeOr (arc_value version.now) (D.history slot.old.disk)) }
    ensures ok { OnOk result ((image : List ℕ) → MayLeave (D.history slot.new.disk) image
        → stands image ≡ Stored (arc_value version.now)) }
    ensures durable { OnOk result (IsDurable (D.history slot.new.disk)) }
    ensures numbered { OnOk result (HasGeneration (D.history slot.new.disk) slot.new.generation) }
    ensures bound { LeavesOnly (D.history slot.old.disk) (D.history slot.new.disk)
        (λ image. length image ≤ file_max) }
    ensures cause { CountsFaults (D.faults slot.old.disk) (D.faults slot.new.disk) result }
{
    slot.commit(version.body())
}
