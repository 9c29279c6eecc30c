//! Disks, with what a crash may leave of them.

ghost use Rattle.std.specs.Prelude.{◌≡◌, ℕ, ◌+◌, ◌≤◌, ◌^◌, ◌⊎◌, length, List, Option, IfOk, OnOk, OnErr};
ghost use Rattle.std.specs.Option.{option_map};
ghost use Rattle.yp_io.specs.Counts.{CountsFaults};
ghost use Rattle.yp_io.specs.Disk.{History, HistoryGoesOn, LeftBetween, LeavesOnly, MayLeave, MayLeaveTorn, MayTear};
ghost use Rattle.yp_io.specs.Disk.{IsReadAnImage, IsDurable, IsWithin, HasLength, ReadsAt, written_at, after_sync};

use crate::stream::Failed;

/// A list of bytes that outlives the program, and may lose writes since its last sync in a crash.
///
/// Its history tells what a read gives, and what a crash may leave at each moment. While a piece is written a crash
/// leaves what one may leave after it; during every other call it leaves what it might have left before.
pub trait Disk {
    /// Its state now and at each moment before, where they are told.
    ghost history: { Self → Option History };

    /// How often it has failed, up to 2^64 - 1.
    ghost faults: { Self → ℕ };

    /// The length in bytes.
    fn len(&mut self) -> Result<u64, Failed>
        ensures length { IfOk result (λ n. HasLength n (history self.old)) }
        ensures same { history self.new ≡ history self.old }
        ensures cause { CountsFaults (faults self.old) (faults self.new) result };

    /// Fills `buf` with the bytes from place `at` on. After `Failed` it may hold anything.
    fn read(&mut self, at: u64, buf: &mut [u8]) -> Result<(), Failed>
        requires { IsWithin (at + length buf.old) (history self.old) }
        ensures bytes { OnOk result (ReadsAt at buf.new (history self.old)) }
        ensures same { history self.new ≡ history self.old }
        ensures cause { CountsFaults (faults self.old) (faults self.new) result };

    /// Writes `piece` from place `at` on, over what is there and past the end. Until a sync a crash may leave any bytes
    /// in that range. After `Failed` a read may give any bytes there, too.
    fn write_at(&mut self, at: u64, piece: &[u8]) -> Result<(), Failed>
        requires place { IsWithin at (history self.old) }
        requires room { at + length piece.now ≤ 2 ^ 62 }
        ensures ok { OnOk result (history self.new ≡ option_map (written_at at piece.now) (history self.old)) }
        ensures err { OnErr result (MayTear at (length piece.now) (history self.old) (history self.new)) }

        // At each moment of the call a crash leaves what it might have left before, but for the range.
        ensures crash { LeavesOnly (history self.old) (history self.new)
            (MayLeaveTorn at (length piece.now) (history self.old)) }
        ensures cause { CountsFaults (faults self.old) (faults self.new) result };

    /// Brings all that was written to where a crash leaves it.
    fn sync(&mut self) -> Result<(), Failed>
        ensures ok { OnOk result (history self.new ≡ option_map after_sync (history self.old)) }
        ensures err { OnErr result (history self.new ≡ history self.old) }

        // At no moment of the call does a crash leave what it might not have left before.
        ensures crash { LeavesOnly (history self.old) (history self.new) (MayLeave (history self.old)) }

        // After it a crash leaves what a read gives, and nothing else.
        ensures durable { OnOk result (IsDurable (history self.new)) }
        ensures cause { CountsFaults (faults self.old) (faults self.new) result };

    /// Nothing more is read for now, so what keeps other programs from writing may be let go.
    fn release(&mut self)
        ensures same { history self.new ≡ history self.old }
        ensures faults { faults self.new ≡ faults self.old };

    /// What is read may be left by a crash now.
    ghost reads_image: { (disk : Self) → IsReadAnImage (history disk) };

    /// A disk that is left alone goes on as it is.
    ghost stays: { (disk : Self) → HistoryGoesOn (history disk) (history disk) };

    /// Between a moment and itself there is no other.
    ghost only_now: { (disk : Self) (image : List ℕ) → LeftBetween (history disk) (history disk) image
        → MayLeave (history disk) image };

    /// The later moment is one of those between two.
    ghost counts_now: { (old new : Self) (image : List ℕ) → HistoryGoesOn (history old) (history new)
        → MayLeave (history new) image → LeftBetween (history old) (history new) image };

    /// A disk that goes on twice goes on.
    ghost goes_on: { (old middle new : Self) → HistoryGoesOn (history old) (history middle)
        → HistoryGoesOn (history middle) (history new) → HistoryGoesOn (history old) (history new) };

    /// Each moment of two times, one after the other, is one of the first or of the second.
    ghost splits: { (old middle new : Self) (image : List ℕ) → HistoryGoesOn (history old) (history middle)
        → HistoryGoesOn (history middle) (history new) → LeftBetween (history old) (history new) image
        → LeftBetween (history old) (history middle) image ⊎ LeftBetween (history middle) (history new) image };
}
