//! The two cells at the head of a file.

ghost use Rattle.std.specs.Prelude.{◌≡◌, ◌+◌, ◌<◌, ◌≤◌, length, IfSome};
ghost use Rattle.yp_xdr.specs.Reading.{first_nonzero};
ghost use Rattle.yp_map_file.specs.Cells.{number_at};

use yp_version::BODY_MAX;

/// The bytes of both cells.
pub(crate) const CELLS_LEN: u64 = 64;

/// The first byte of a cell whose body counts.
pub(crate) const OPEN: u8 = 1;

/// The first byte of a cell that was closed.
pub(crate) const CLOSED: u8 = 0;

/// One of the two cells.
#[derive(Clone, Copy, Debug, PartialEq, Eq)]
pub enum Cell {
    First,
    Second,
}

impl Cell {
    ghost use Rattle.yp_map_file.specs.Cells.{cell_place, is_open, filler, entry};
    ghost use Rattle.yp_map_file.specs.inside.Cells.{other};

    /// The place of its first byte.
    pub(crate) fn place(self) -> u64
        ensures value { result ≡ cell_place self }
        ensures bound { result ≤ 32 }
    {
        match self {
            Cell::First => 0,
            Cell::Second => 32,
        }
    }

    /// The other one.
    pub(crate) fn other(self) -> Cell
        ensures { result ≡ other self }
    {
        match self {
            Cell::First => Cell::Second,
            Cell::Second => Cell::First,
        }
    }

    /// Whether it is open, in the bytes of both cells.
    #[tactic(auto, unfolding(crate::specs::Cells::is_open))]
    pub(crate) fn is_open(self, cells: &[u8]) -> bool
        requires { length cells.now ≡ 64 }
        ensures { result ≡ is_open self cells.now }
    {
        cells[self.place() as usize] == OPEN
    }

    /// Which of the seven bytes behind its first isn't zero, if one isn't.
    #[tactic(auto, unfolding(crate::specs::Cells::filler, crate::specs::Cells::bytes_at))]
    pub(crate) fn first_dirt(self, cells: &[u8]) -> Option<usize>
        requires { length cells.now ≡ 64 }
        ensures value { result ≡ first_nonzero (filler self cells.now) }
        ensures bound { IfSome result (λ n. n < 7) }
    {
        let start = self.place() as usize + 1;
        let filler = &cells[start..start + 7];
        filler.iter().position(|byte| *byte != 0)
    }

    /// Its numbers.
    #[tactic(auto, unfolding(crate::specs::Cells::entry))]
    pub(crate) fn entry(self, cells: &[u8]) -> Entry
        requires { length cells.now ≡ 64 }
        ensures { result ≡ entry self cells.now }
    {
        let start = self.place() as usize;
        Entry {
            generation: number(cells, start + 8),
            place: number(cells, start + 16),
            len: number(cells, start + 24),
        }
    }
}

/// Eight bytes from a place on as a number, the highest first.
#[tactic(auto, unfolding(crate::specs::Cells::bytes_at))]
fn number(bytes: &[u8], at: usize) -> u64
    requires { at + 8 ≤ length bytes.now }
    ensures { result ≡ number_at at bytes.now }
{
    match bytes[at..].first_chunk::<8>() {
        Some(number) => u64::from_be_bytes(*number),
        None => unreachable!(),
    }
}

/// Which cell wins.
#[derive(Clone, Copy)]
pub(crate) enum Winner {
    /// Neither is open.
    Nobody,
    /// Both are, with one generation.
    Both,
    /// This one, which is the only open one or has the greater generation.
    Only(Cell),
}

impl Winner {
    ghost use Rattle.yp_map_file.specs.Cells.{winner};

    /// Which of the two cells wins.
    #[tactic(auto, unfolding(crate::specs::Cells::winner))]
    pub(crate) fn of(cells: &[u8]) -> Winner
        requires { length cells.now ≡ 64 }
        ensures { result ≡ winner cells.now }
    {
        match (Cell::First.is_open(cells), Cell::Second.is_open(cells)) {
            (false, false) => Winner::Nobody,
            (true, false) => Winner::Only(Cell::First),
            (false, true) => Winner::Only(Cell::Second),
            (true, true) => {
                let first = Cell::First.entry(cells).generation;
                let second = Cell::Second.entry(cells).generation;
                if first == second {
                    Winner::Both
                } else if second < first {
                    Winner::Only(Cell::First)
                } else {
                    Winner::Only(Cell::Second)
                }
            }
        }
    }
}

/// What a cell says of the body behind it.
#[derive(Clone, Copy)]
pub struct Entry {
    /// Which of the bodies that were stored it is, from 1 on.
    pub generation: u64,
    /// The place of its first byte in the file.
    pub place: u64,
    /// How many bytes it has.
    pub len: u64,
}

impl Entry {
    ghost use Rattle.yp_map_file.specs.inside.Cells.{entry_bytes};
    ghost use Rattle.yp_map_file.specs.Stands.{has_room};

    /// Whether its body lies behind the cells, within a file of this length.
    pub(crate) fn has_room(&self, len: u64) -> bool
        ensures { result ≡ has_room self.now len }
    {
        CELLS_LEN <= self.place
            && 0 < self.len
            && self.len <= BODY_MAX as u64
            && self.place <= len
            && self.len <= len - self.place
    }

    /// The bytes of its cell behind the first.
    pub(crate) fn bytes(&self) -> [u8; 31]
        ensures { result ≡ entry_bytes self.now }
    {
        let mut bytes = [0; 31];
        bytes[7..15].copy_from_slice(&self.generation.to_be_bytes());
        bytes[15..23].copy_from_slice(&self.place.to_be_bytes());
        bytes[23..31].copy_from_slice(&self.len.to_be_bytes());
        bytes
    }
}
