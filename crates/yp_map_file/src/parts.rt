//! The parts of a commit, on a disk at rest whose file is known.

ghost use Rattle.std.specs.Prelude.{◌≡◌, ◌+◌, ◌<◌, ◌≤◌, ◌^◌, length, true, false, OnOk, IfOk, IfSome};
ghost use Rattle.std.specs.Option.{option_map};
ghost use Rattle.yp_io.specs.Counts.{CountsFaults};
ghost use Rattle.yp_io.specs.Disk.{LeavesOnly, MayLeaveTorn, IsWithin, written_at, after_sync};
ghost use Rattle.yp_version.specs.Versions.{MapVersion};
ghost use Rattle.yp_version.specs.inside.Bodies.{IsBody};
ghost use Rattle.yp_map_file.specs.Commits.{generation_max, generation_of};
ghost use Rattle.yp_map_file.specs.inside.Commits.{next_entry, laid, closed, filled, opened};
ghost use Rattle.yp_map_file.specs.Slots.{IsAsBefore};
ghost use Rattle.yp_map_file.specs.inside.Slots.{Settles, Fills, LiesWithin, IsAsBeforeOrOpened, with_winner};
ghost use Rattle.yp_map_file.specs.inside.Slots.{WouldStand, ReadsChanged};

use crate::cells::{CELLS_LEN, CLOSED, Entry, OPEN};
use crate::known::Known;
use crate::laws;
use yp_io::{Disk, Failed};

/// Writes a piece, and brings it to where a crash leaves it.
fn write_and_sync<D: Disk>(disk: &mut D, at: u64, piece: &[u8]) -> Result<(), Failed>
    requires place { IsWithin at (D.history disk.old) }
    requires room { at + length piece.now ≤ 2 ^ 62 }
    ensures ok { OnOk result
        (D.history disk.new ≡ option_map after_sync (option_map (written_at at piece.now) (D.history disk.old))) }
    ensures crash { LeavesOnly (D.history disk.old) (D.history disk.new)
        (MayLeaveTorn at (length piece.now) (D.history disk.old)) }
    ensures cause { CountsFaults (D.faults disk.old) (D.faults disk.new) result }
{
    disk.write_at(at, piece)?;
    disk.sync()
}

/// Makes both cells, where the file is shorter than they are.
pub(crate) fn lay<D: Disk>(disk: &mut D, known: &Known) -> Result<(), Failed>
    requires { Settles known.now (D.history disk.old) }
    ensures settled { OnOk result (Settles (record known.now { long = true }) (D.history disk.new)) }
    ensures laid { OnOk result (ReadsChanged laid (D.history disk.old) (D.history disk.new)) }
    ensures no_call { known.now.long ≡ true → disk.new ≡ disk.old }
    ensures crash { LeavesOnly (D.history disk.old) (D.history disk.new) (IsAsBefore (D.history disk.old)) }
    ensures cause { CountsFaults (D.faults disk.old) (D.faults disk.new) result }
{
    if known.long {
        return Ok(());
    }
    write_and_sync(disk, 0, &[0; 63])?;
    write_and_sync(disk, CELLS_LEN - 1, &[0])
}

/// Closes the cell that is written next, where it is open.
pub(crate) fn close<D: Disk>(disk: &mut D, known: &Known) -> Result<(), Failed>
    requires long { known.now.long ≡ true }
    requires settled { Settles known.now (D.history disk.old) }
    ensures settled { OnOk result (Settles (record known.now { gate_open = false }) (D.history disk.new)) }
    ensures closed { OnOk result (ReadsChanged closed (D.history disk.old) (D.history disk.new)) }
    ensures no_call { known.now.gate_open ≡ false → disk.new ≡ disk.old }
    ensures crash { LeavesOnly (D.history disk.old) (D.history disk.new) (IsAsBefore (D.history disk.old)) }
    ensures cause { CountsFaults (D.faults disk.old) (D.faults disk.new) result }
{
    if !known.gate_open {
        return Ok(());
    }
    write_and_sync(disk, known.target.place(), &[CLOSED])
}

/// Writes a body behind what counts, and its entry into the closed cell.
pub(crate) fn fill<D: Disk>(disk: &mut D, known: &Known, body: &[u8]) -> Result<Entry, Failed>
    requires long { known.now.long ≡ true }
    requires closed { known.now.gate_open ≡ false }
    requires settled { Settles known.now (D.history disk.old) }
    requires winner { IfSome known.now.winner LiesWithin }
    requires generation { generation_of known.now.winner < generation_max }
    requires body { (version : MapVersion) × IsBody body.now version }
    ensures next { IfOk result (λ next. next ≡ next_entry known.now.winner (length body.now)) }
    ensures lies { IfOk result LiesWithin }
    ensures settled { OnOk result (Settles known.now (D.history disk.new)) }
    ensures filled { OnOk result (ReadsChanged (filled body.now) (D.history disk.old) (D.history disk.new)) }
    ensures entry { IfOk result (λ next. Fills next (D.history disk.new)) }
    ensures version { OnOk result ((version : MapVersion) → IsBody body.now version
        → WouldStand version (D.history disk.new)) }
    ensures crash { LeavesOnly (D.history disk.old) (D.history disk.new) (IsAsBefore (D.history disk.old)) }
    ensures cause { CountsFaults (D.faults disk.old) (D.faults disk.new) result }
{
    laws::body_is_read_again();
    let next = known.next(body.len() as u64);
    disk.write_at(next.place, body)?;
    write_and_sync(disk, known.target.place() + 1, &next.bytes())?;
    Ok(next)
}

/// Opens the cell of a body that was filled in, and answers what is known then.
pub(crate) fn open<D: Disk>(disk: &mut D, known: &Known, next: Entry) -> Result<Known, Failed>
    requires long { known.now.long ≡ true }
    requires closed { known.now.gate_open ≡ false }
    requires settled { Settles known.now (D.history disk.old) }
    requires filled { Fills next (D.history disk.old) }
    ensures known { IfOk result (λ after. after ≡ with_winner known.now next) }
    ensures settled { OnOk result (Settles (with_winner known.now next) (D.history disk.new)) }
    ensures opened { OnOk result (ReadsChanged opened (D.history disk.old) (D.history disk.new)) }
    ensures crash { LeavesOnly (D.history disk.old) (D.history disk.new) (IsAsBeforeOrOpened (D.history disk.old)) }
    ensures cause { CountsFaults (D.faults disk.old) (D.faults disk.new) result }
{
    write_and_sync(disk, known.target.place(), &[OPEN])?;
    Ok(known.with_winner(next))
}
