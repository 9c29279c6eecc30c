//! What a slot knows of its file.

ghost use Rattle.std.specs.Prelude.{◌≡◌, ◌<◌, ◌≤◌, IfSome, length};
ghost use Rattle.yp_version.specs.Limits.{body_max};
ghost use Rattle.yp_map_file.specs.Commits.{generation_max, generation_of};
ghost use Rattle.yp_map_file.specs.inside.Commits.{next_entry};

use crate::cells::{CELLS_LEN, Cell, Entry};

/// How far a slot has come.
#[derive(Clone, Copy)]
pub enum Stage {
    /// The file isn't known. It has to be loaded.
    Unready,
    /// The file was loaded, or a commit was done.
    Loaded,
    /// It has both cells.
    Laid,
    /// The cell that is written is closed.
    Closed,
    /// A body stands in the file, and its entry in the closed cell.
    Filled,
}

/// What is known of a file that isn't damaged.
#[derive(Clone, Copy)]
pub struct Known {
    /// Whether it is as long as both cells.
    pub long: bool,
    /// The cell that is written next.
    pub target: Cell,
    /// Whether that cell is open, once the file has both.
    pub gate_open: bool,
    /// The entry of the cell that wins.
    pub winner: Option<Entry>,
}

impl Known {
    ghost use Rattle.yp_map_file.specs.inside.Slots.{LiesWithin, with_winner};

    /// The generation of the cell that wins, and 0 where none does.
    pub(crate) fn generation(&self) -> u64
        ensures { result ≡ generation_of self.now.winner }
    {
        self.winner.map_or(0, |winner| winner.generation)
    }

    /// The entry of a body of this length, which follows the winner's.
    pub(crate) fn next(&self, len: u64) -> Entry
        requires winner { IfSome self.now.winner LiesWithin }
        requires generation { generation_of self.now.winner < generation_max }
        ensures { result ≡ next_entry self.now.winner len }
    {
        let place = match self.winner {
            Some(winner) if len > winner.place - CELLS_LEN => winner.place + winner.len,
            _ => CELLS_LEN,
        };
        Entry {
            generation: self.generation() + 1,
            place,
            len,
        }
    }

    /// What is known once the next cell is open.
    pub(crate) fn with_winner(&self, next: Entry) -> Known
        ensures { result ≡ with_winner self.now next }
    {
        Known {
            long: true,
            target: self.target.other(),
            gate_open: self.winner.is_some(),
            winner: Some(next),
        }
    }
}
