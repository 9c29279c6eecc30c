//! The slot: a disk whose file keeps one version.

ghost use Rattle.std.specs.Prelude.{◌≡◌, ◌⊎◌, ◌+◌, ◌<◌, ◌≤◌, ℕ, List, true, false, is_ok, IsTrue, OnOk, OnErr, IfOk};
ghost use Rattle.std.specs.Prelude.{length, IfSome, IsErrOf, if◌then◌else◌};
ghost use Rattle.std.specs.Option.{option_map};
ghost use Rattle.yp_io.specs.Counts.{CountsFaults, HasRisen};
ghost use Rattle.yp_io.specs.Disk.{LeavesOnly, MayLeave, IsDurable, after_sync};
ghost use Rattle.yp_version.specs.Versions.{MapVersion};

use crate::cells::{Cell, Entry};
use crate::fault::SlotFault;
use crate::known::{Known, Stage};
use crate::survey::Summary;
use crate::{load, parts};
use std::alloc::Global;
use std::marker::Model;
use std::random::RandomSource;
use yp_io::{Disk, Failed};
use yp_version::Version;

/// The last generation of a file.
pub const GENERATION_MAX: u64 = 18_446_744_073_709_551_615;

/// A file that keeps one version of a map, or none. A crash at any moment leaves the version that stood, or the one
/// that was being stored.
#[derive(Drop)]
pub struct Slot<D: Disk> {
    disk: D,
    stage: Stage,
    known: Known,
    next: Entry,
}

impl<D: Disk> Model for Slot<D> {
    ghost use Rattle.yp_map_file.specs.Commits.{generation_of};
    ghost use Rattle.yp_map_file.specs.inside.Slots.{SlotModel, KeepsFile};

    ghost Value = { SlotModel D };

    ghost view = { λ s. record { disk = s.disk; stage = s.stage; generation = generation_of s.known.winner } };

    ghost invariant = { λ s. KeepsFile s.stage s.known s.next (D.history s.disk) };
}

impl<D: Disk> Slot<D> {
    ghost use Rattle.yp_map_file.specs.declared.known.Stage.TheVariants.{Unready, Loaded, Laid, Closed, Filled};
    ghost use Rattle.yp_version.specs.inside.Bodies.{IsBody};
    ghost use Rattle.yp_map_file.specs.Cells.{cells_len, is_open};
    ghost use Rattle.yp_map_file.specs.Commits.{generation_max};
    ghost use Rattle.yp_map_file.specs.inside.Commits.{target, laid, closed, filled, opened, committed};
    ghost use Rattle.yp_map_file.specs.Loads.{Loads};
    ghost use Rattle.yp_map_file.specs.inside.Summaries.{Surveys};
    ghost use Rattle.yp_version.specs.Limits.{master_max};
    ghost use Rattle.yp_map_file.specs.Slots.{HasGeneration, IsSound, IsAsBefore};
    ghost use Rattle.yp_map_file.specs.inside.Slots.{is_ready, ReadIsTold, IsAsBeforeOr};
    ghost use Rattle.yp_map_file.specs.inside.Slots.{IsAsBeforeOrOpened, WouldStand, ReadsChanged};
    ghost use Rattle.yp_map_file.specs.Stands.{Stored, file_max, stands};

    /// A slot over a disk. It isn't ready.
    pub fn new(disk: D) -> Slot<D>
        ensures { result ≡ record { disk = disk; stage = Unready; generation = 0 } }
    {
        Slot {
            disk,
            stage: Stage::Unready,
            known: Known {
                long: false,
                target: Cell::First,
                gate_open: false,
                winner: None,
            },
            next: Entry {
                generation: 0,
                place: 0,
                len: 0,
            },
        }
    }

    /// Its disk.
    pub fn into_disk(self) -> D
        ensures { result ≡ self.disk }
    {
        self.disk
    }

    /// Whether its file is known: since a load or a commit, and until a call is refused.
    pub fn ready(&self) -> bool
        ensures { result ≡ is_ready self.now.stage }
    {
        !matches!(self.stage, Stage::Unready)
    }

    /// How far it has come.
    pub fn stage(&self) -> Stage
        ensures { result ≡ self.now.stage }
    {
        self.stage
    }

    /// The generation of what the file stood for when it was known last, and 0 where nothing stood.
    pub fn generation(&self) -> u64
        ensures generation { result ≡ self.now.generation }
        ensures numbered { IsTrue (is_ready self.now.stage) → HasGeneration (D.history self.now.disk) result }
    {
        self.known.generation()
    }

    /// Syncs the disk, answers what its file stands for, in at most four calls of the disk, and releases it. It writes
    /// nothing.
    pub fn load(
        &mut self,
        alloc: Global,
        rt: &impl RandomSource,
    ) -> Result<Option<Version>, SlotFault>
        ensures stage { self.new.stage ≡ (if is_ok result then Loaded else Unready) }

        // It answers what the bytes stand for that a read gives.
        ensures stands { IfSome (D.history self.old.disk) (λ h. Loads (stands h.state.reads) result) }
        ensures generation { OnOk result (HasGeneration (D.history self.old.disk) self.new.generation) }
        ensures generation_kept { OnErr result (self.new.generation ≡ self.old.generation) }
        ensures synced { OnOk result (D.history self.new.disk ≡ option_map after_sync (D.history self.old.disk)) }
        ensures nothing_written { (D.history self.new.disk ≡ D.history self.old.disk)
            ⊎ (D.history self.new.disk ≡ option_map after_sync (D.history self.old.disk)) }
        ensures any_moment { LeavesOnly (D.history self.old.disk) (D.history self.new.disk)
            (MayLeave (D.history self.old.disk)) }
        ensures durable { OnOk result (IsDurable (D.history self.new.disk)) }
        ensures numbered { OnOk result (HasGeneration (D.history self.new.disk) self.new.generation) }
        ensures never_falls { D.faults self.old.disk ≤ D.faults self.new.disk }
        ensures cause { IsErrOf result SlotFault.DiskFault
            → HasRisen (D.faults self.old.disk) (D.faults self.new.disk) }
    {
        self.stage = Stage::Unready;
        let loaded = load::load(alloc, rt, &mut self.disk);
        self.disk.release();
        let (known, version) = loaded?;
        self.known = known;
        self.stage = Stage::Loaded;
        Ok(version)
    }

    /// Syncs the disk, answers what its file stands for but for the rows, and releases it. It reads all that a load
    /// does, takes at most 1.2 MB of memory for it, and writes nothing.
    pub fn survey(&mut self, alloc: Global) -> Result<Option<Summary>, SlotFault>
        ensures stage { self.new.stage ≡ (if is_ok result then Loaded else Unready) }

        // It answers what the bytes stand for that a read gives.
        ensures stands { IfSome (D.history self.old.disk) (λ h. Surveys (stands h.state.reads) result) }
        ensures master { IfOk result (λ found. IfSome found (λ summary. length summary.master.items ≤ master_max)) }
        ensures generation { OnOk result (HasGeneration (D.history self.old.disk) self.new.generation) }
        ensures generation_kept { OnErr result (self.new.generation ≡ self.old.generation) }
        ensures synced { OnOk result (D.history self.new.disk ≡ option_map after_sync (D.history self.old.disk)) }
        ensures nothing_written { (D.history self.new.disk ≡ D.history self.old.disk)
            ⊎ (D.history self.new.disk ≡ option_map after_sync (D.history self.old.disk)) }
        ensures any_moment { LeavesOnly (D.history self.old.disk) (D.history self.new.disk)
            (MayLeave (D.history self.old.disk)) }
        ensures durable { OnOk result (IsDurable (D.history self.new.disk)) }
        ensures numbered { OnOk result (HasGeneration (D.history self.new.disk) self.new.generation) }
        ensures never_falls { D.faults self.old.disk ≤ D.faults self.new.disk }
        ensures cause { IsErrOf result SlotFault.DiskFault
            → HasRisen (D.faults self.old.disk) (D.faults self.new.disk) }
    {
        self.stage = Stage::Unready;
        let surveyed = load::survey(alloc, &mut self.disk);
        self.disk.release();
        let (known, summary) = surveyed?;
        self.known = known;
        self.stage = Stage::Loaded;
        Ok(summary)
    }

    /// Makes both cells, where the file is shorter than they are; else makes no call of the disk.
    pub fn lay(&mut self) -> Result<(), Failed>
        requires { IsTrue (is_ready self.old.stage) }
        ensures stage { self.new.stage ≡ (if is_ok result then Laid else Unready) }
        ensures generation { self.new.generation ≡ self.old.generation }
        ensures laid { OnOk result (ReadsChanged laid (D.history self.old.disk) (D.history self.new.disk)) }
        ensures sound { IfSome (D.history self.old.disk) (λ h. IsSound (stands h.state.reads)) }
        ensures no_call { ReadIsTold (λ file. cells_len ≤ length file) (D.history self.old.disk)
            → self.new.disk ≡ self.old.disk }
        ensures any_moment { LeavesOnly (D.history self.old.disk) (D.history self.new.disk)
            (IsAsBefore (D.history self.old.disk)) }
        ensures cause { CountsFaults (D.faults self.old.disk) (D.faults self.new.disk) result }
    {
        let known = self.known;
        self.stage = Stage::Unready;
        parts::lay(&mut self.disk, &known)?;
        self.known.long = true;
        self.stage = Stage::Laid;
        Ok(())
    }

    /// Closes the cell that is written next, where its first byte is 1; else makes no call of the disk.
    #[tactic(auto, using(crate::proofs::Steps::told_shut))]
    pub fn close_cell(&mut self) -> Result<(), Failed>
        requires { self.old.stage ≡ Laid }
        ensures stage { self.new.stage ≡ (if is_ok result then Closed else Unready) }
        ensures generation { self.new.generation ≡ self.old.generation }
        ensures closed { OnOk result (ReadsChanged closed (D.history self.old.disk) (D.history self.new.disk)) }
        ensures no_call { ReadIsTold (λ file. is_open (target file) file ≡ false) (D.history self.old.disk)
            → self.new.disk ≡ self.old.disk }
        ensures any_moment { LeavesOnly (D.history self.old.disk) (D.history self.new.disk)
            (IsAsBefore (D.history self.old.disk)) }
        ensures cause { CountsFaults (D.faults self.old.disk) (D.faults self.new.disk) result }
    {
        let known = self.known;
        self.stage = Stage::Unready;
        parts::close(&mut self.disk, &known)?;
        self.known.gate_open = false;
        self.stage = Stage::Closed;
        Ok(())
    }

    /// Writes a body, which spells a version, behind what counts, and its entry into the closed cell.
    pub fn fill(&mut self, body: &[u8]) -> Result<(), Failed>
        requires stage { self.old.stage ≡ Closed }
        requires body { (version : MapVersion) × IsBody body.now version }
        requires generation { self.old.generation < generation_max }
        ensures stage { self.new.stage ≡ (if is_ok result then Filled else Unready) }
        ensures generation { self.new.generation ≡ self.old.generation }
        ensures filled { OnOk result
            (ReadsChanged (filled body.now) (D.history self.old.disk) (D.history self.new.disk)) }
        ensures version { OnOk result ((version : MapVersion) → IsBody body.now version
            → WouldStand version (D.history self.new.disk)) }
        ensures any_moment { LeavesOnly (D.history self.old.disk) (D.history self.new.disk)
            (IsAsBefore (D.history self.old.disk)) }
        ensures cause { CountsFaults (D.faults self.old.disk) (D.faults self.new.disk) result }
    {
        let known = self.known;
        self.stage = Stage::Unready;
        self.next = parts::fill(&mut self.disk, &known, body)?;
        self.stage = Stage::Filled;
        Ok(())
    }

    /// Opens the cell of the body that was filled in.
    pub fn open_cell(&mut self) -> Result<(), Failed>
        requires { self.old.stage ≡ Filled }
        ensures stage { self.new.stage ≡ (if is_ok result then Loaded else Unready) }
        ensures generation { self.new.generation ≡ self.old.generation + (if is_ok result then 1 else 0) }
        ensures opened { OnOk result (ReadsChanged opened (D.history self.old.disk) (D.history self.new.disk)) }
        ensures durable { OnOk result (IsDurable (D.history self.new.disk)) }
        ensures any_moment { LeavesOnly (D.history self.old.disk) (D.history self.new.disk)
            (IsAsBeforeOrOpened (D.history self.old.disk)) }
        ensures cause { CountsFaults (D.faults self.old.disk) (D.faults self.new.disk) result }
    {
        let known = self.known;
        self.stage = Stage::Unready;
        self.known = parts::open(&mut self.disk, &known, self.next)?;
        self.stage = Stage::Loaded;
        Ok(())
    }

    /// Stores the version that a body spells, and answers its generation. At each moment of the call a crash leaves
    /// a file that stands for what it stood for before, or for that version.
    pub fn commit(&mut self, body: &[u8]) -> Result<u64, Failed>
        requires ready { IsTrue (is_ready self.old.stage) }
        requires body { (version : MapVersion) × IsBody body.now version }
        requires generation { self.old.generation < generation_max }
        ensures stage { self.new.stage ≡ (if is_ok result then Loaded else Unready) }
        ensures generation { IfOk result (λ generation. generation ≡ self.old.generation + 1) }
        ensures generation_kept { self.new.generation ≡ self.old.generation + (if is_ok result then 1 else 0) }
        ensures committed { OnOk result
            (ReadsChanged (committed body.now) (D.history self.old.disk) (D.history self.new.disk)) }

        // At each moment of the call each image stands for what stood, or for the version.
        ensures any_moment { (version : MapVersion) → IsBody body.now version
            → LeavesOnly (D.history self.old.disk) (D.history self.new.disk)
            (IsAsBeforeOr version (D.history self.old.disk)) }

        // After Ok each image stands for the version, and after Failed for either.
        ensures ok { OnOk result ((version : MapVersion) → IsBody body.now version
            → (image : List ℕ) → MayLeave (D.history self.new.disk) image → stands image ≡ Stored version) }
        ensures failed { OnErr result ((version : MapVersion) → IsBody body.now version
            → (image : List ℕ) → MayLeave (D.history self.new.disk) image
            → IsAsBeforeOr version (D.history self.old.disk) image) }
        ensures durable { OnOk result (IsDurable (D.history self.new.disk)) }
        ensures numbered { OnOk result (HasGeneration (D.history self.new.disk) self.new.generation) }

        // No image is larger than the largest file.
        ensures bound { LeavesOnly (D.history self.old.disk) (D.history self.new.disk)
            (λ image. length image ≤ file_max) }
        ensures cause { CountsFaults (D.faults self.old.disk) (D.faults self.new.disk) result }
    {
        self.lay()?;
        self.close_cell()?;
        self.fill(body)?;
        self.open_cell()?;
        Ok(self.generation())
    }
}
