//! Files, loaded.

ghost use Rattle.std.specs.Prelude.{◌≡◌, ◌+◌, ◌≤◌, ◌⊎◌, ℕ, List, Some, length, take, IfOk, IfSome, OnOk, IsErrOf};
ghost use Rattle.std.specs.Prelude.{IsTrue};
ghost use Rattle.std.specs.Option.{option_map};
ghost use Rattle.yp_io.specs.Counts.{CountsFaults, HasRisen};
ghost use Rattle.yp_io.specs.Disk.{LeavesOnly, MayLeave, IsWithin, after_sync};
ghost use Rattle.yp_version.specs.Limits.{body_max, master_max};
ghost use Rattle.yp_map_file.specs.Cells.{bytes_at, entry};
ghost use Rattle.yp_map_file.specs.Bodies.{body_at};
ghost use Rattle.yp_map_file.specs.Stands.{file_max, has_room};
ghost use Rattle.yp_map_file.specs.inside.Stands.{standing};
ghost use Rattle.yp_map_file.specs.inside.Slots.{Settles, LiesWithin};
ghost use Rattle.yp_map_file.specs.inside.Surveys.{SurveysFile};
ghost use Rattle.yp_map_file.specs.inside.Loads.{LoadsBody, LoadsFile, Judges, JudgesFile, JudgesWinner, HasBody};

use crate::cells::{CELLS_LEN, Cell, Entry, Winner};
use crate::fault::SlotFault;
use crate::known::Known;
use crate::read::read_version;
use crate::survey::{Summary, survey_body};
use std::alloc::Global;
use std::random::RandomSource;
use yp_io::{Disk, Failed};
use yp_version::Version;

/// The most bytes of a file: both cells, and three of the largest bodies.
pub(crate) const FILE_MAX: u64 = 50_331_712;

/// The entry of the cell that wins, in a file of `len` bytes, by the rules 3 and 4.
fn judge_winner(cell: Cell, cells: &[u8], len: u64) -> Result<Entry, SlotFault>
    requires { length cells.now ≡ 64 }
    ensures judges { (file : List ℕ) → take 64 file ≡ cells.now → length file ≡ len → 64 ≤ len
        → JudgesWinner cell file result }
    ensures entry { IfOk result (λ numbers. numbers ≡ entry cell cells.now) }
    ensures room { IfOk result (λ numbers. IsTrue (has_room numbers len)) }
    ensures no_disk { IsErrOf result SlotFault.DiskFault → ⊥ }
{
    if let Some(place) = cell.first_dirt(cells) {
        return Err(SlotFault::Damaged {
            at: cell.place() + 1 + place as u64,
            rule: 3,
        });
    }
    let entry = cell.entry(cells);
    if !entry.has_room(len) {
        return Err(SlotFault::Damaged {
            at: cell.place() + 16,
            rule: 4,
        });
    }
    Ok(entry)
}

/// What the cells say of a file of `len` bytes, by the rules 2 to 4.
fn judge(cells: &[u8], len: u64) -> Result<Known, SlotFault>
    requires cells { length cells.now ≡ 64 }
    requires long { 64 ≤ len }
    requires small { len ≤ file_max }
    ensures judges { (file : List ℕ) → take 64 file ≡ cells.now → length file ≡ len → Judges file result }
    ensures room { IfOk result (λ known. IfSome known.winner (λ numbers. IsTrue (has_room numbers len))) }
    ensures no_disk { IsErrOf result SlotFault.DiskFault → ⊥ }
{
    let (target, winner) = match Winner::of(cells) {
        Winner::Nobody => (Cell::First, None),
        Winner::Both => return Err(SlotFault::Damaged { at: 32, rule: 2 }),
        Winner::Only(cell) => (cell.other(), Some(judge_winner(cell, cells, len)?)),
    };
    Ok(Known {
        long: true,
        target,
        gate_open: target.is_open(cells),
        winner,
    })
}

/// What the cells of a file say of it, in at most two calls of the disk.
fn judge_file<D: Disk>(disk: &mut D) -> Result<Known, SlotFault>
    ensures judges { IfSome (D.history disk.old) (λ h. JudgesFile h.state.reads result) }
    ensures body { IfOk result (λ known. IfSome known.winner (λ numbers. HasBody numbers (D.history disk.old))) }
    ensures same { D.history disk.new ≡ D.history disk.old }
    ensures never_falls { D.faults disk.old ≤ D.faults disk.new }
    ensures cause { IsErrOf result SlotFault.DiskFault → HasRisen (D.faults disk.old) (D.faults disk.new) }
{
    let len = disk.len()?;
    if len > FILE_MAX {
        return Err(SlotFault::Damaged {
            at: FILE_MAX,
            rule: 1,
        });
    }
    if len < CELLS_LEN {
        return Ok(Known {
            long: false,
            target: Cell::First,
            gate_open: false,
            winner: None,
        });
    }
    let mut cells = [0; 64];
    disk.read(0, &mut cells)?;
    judge(&cells, len)
}

/// The version that a body in the file spells, in one call of the disk.
fn load_body<D: Disk>(
    alloc: Global,
    rt: &impl RandomSource,
    disk: &mut D,
    entry: &Entry,
) -> Result<Version, SlotFault>
    requires { HasBody entry.now (D.history disk.old) }
    ensures stands { IfSome (D.history disk.old) (λ h. LoadsBody (standing (Some entry.now) h.state.reads) result) }
    ensures same { D.history disk.new ≡ D.history disk.old }
    ensures never_falls { D.faults disk.old ≤ D.faults disk.new }
    ensures cause { IsErrOf result SlotFault.DiskFault → HasRisen (D.faults disk.old) (D.faults disk.new) }
{
    let mut body = vec![in alloc; 0; entry.len as usize]?;
    disk.read(entry.place, &mut body)?;
    match read_version(alloc, rt, body) {
        Ok(version) => Ok(version),
        Err(fault) => Err(SlotFault::in_body(entry.place, fault)),
    }
}

/// What a file stands for, and what is known of it then, in at most three calls of the disk.
fn read_file<D: Disk>(
    alloc: Global,
    rt: &impl RandomSource,
    disk: &mut D,
) -> Result<(Known, Option<Version>), SlotFault>
    ensures loads { IfSome (D.history disk.old) (λ h. LoadsFile h.state.reads result) }
    ensures winner { IfOk result (λ found. IfSome found.0.winner LiesWithin) }
    ensures same { D.history disk.new ≡ D.history disk.old }
    ensures never_falls { D.faults disk.old ≤ D.faults disk.new }
    ensures cause { IsErrOf result SlotFault.DiskFault → HasRisen (D.faults disk.old) (D.faults disk.new) }
{
    let known = judge_file(disk)?;
    match &known.winner {
        None => Ok((known, None)),
        Some(entry) => {
            let version = load_body(alloc, rt, disk, entry)?;
            Ok((known, Some(version)))
        }
    }
}

/// What a file stands for but for its rows, and what is known of it then.
fn survey_file<D: Disk>(alloc: Global, disk: &mut D) -> Result<(Known, Option<Summary>), SlotFault>
    ensures surveys { IfSome (D.history disk.old) (λ h. SurveysFile h.state.reads result) }
    ensures master { IfOk result (λ found. IfSome found.1 (λ summary. length summary.master.items ≤ master_max)) }
    ensures winner { IfOk result (λ found. IfSome found.0.winner LiesWithin) }
    ensures same { D.history disk.new ≡ D.history disk.old }
    ensures never_falls { D.faults disk.old ≤ D.faults disk.new }
    ensures cause { IsErrOf result SlotFault.DiskFault → HasRisen (D.faults disk.old) (D.faults disk.new) }
{
    let known = judge_file(disk)?;
    match &known.winner {
        None => Ok((known, None)),
        Some(entry) => {
            let summary = survey_body(alloc, disk, entry)?;
            Ok((known, Some(summary)))
        }
    }
}

/// Syncs the disk and surveys its file.
pub(crate) fn survey<D: Disk>(
    alloc: Global,
    disk: &mut D,
) -> Result<(Known, Option<Summary>), SlotFault>
    ensures surveys { IfSome (D.history disk.old) (λ h. SurveysFile h.state.reads result) }
    ensures settled { IfOk result (λ found. Settles found.0 (D.history disk.new)) }
    ensures master { IfOk result (λ found. IfSome found.1 (λ summary. length summary.master.items ≤ master_max)) }
    ensures winner { IfOk result (λ found. IfSome found.0.winner LiesWithin) }
    ensures synced { OnOk result (D.history disk.new ≡ option_map after_sync (D.history disk.old)) }
    ensures nothing_written { (D.history disk.new ≡ D.history disk.old)
        ⊎ (D.history disk.new ≡ option_map after_sync (D.history disk.old)) }
    ensures crash { LeavesOnly (D.history disk.old) (D.history disk.new) (MayLeave (D.history disk.old)) }
    ensures never_falls { D.faults disk.old ≤ D.faults disk.new }
    ensures cause { IsErrOf result SlotFault.DiskFault → HasRisen (D.faults disk.old) (D.faults disk.new) }
{
    disk.sync()?;
    survey_file(alloc, disk)
}

/// Syncs the disk and loads its file, in at most four calls of the disk.
pub(crate) fn load<D: Disk>(
    alloc: Global,
    rt: &impl RandomSource,
    disk: &mut D,
) -> Result<(Known, Option<Version>), SlotFault>
    ensures loads { IfSome (D.history disk.old) (λ h. LoadsFile h.state.reads result) }
    ensures settled { IfOk result (λ found. Settles found.0 (D.history disk.new)) }
    ensures winner { IfOk result (λ found. IfSome found.0.winner LiesWithin) }
    ensures synced { OnOk result (D.history disk.new ≡ option_map after_sync (D.history disk.old)) }
    ensures nothing_written { (D.history disk.new ≡ D.history disk.old)
        ⊎ (D.history disk.new ≡ option_map after_sync (D.history disk.old)) }
    ensures crash { LeavesOnly (D.history disk.old) (D.history disk.new) (MayLeave (D.history disk.old)) }
    ensures never_falls { D.faults disk.old ≤ D.faults disk.new }
    ensures cause { IsErrOf result SlotFault.DiskFault → HasRisen (D.faults disk.old) (D.faults disk.new) }
{
    disk.sync()?;
    read_file(alloc, rt, disk)
}
