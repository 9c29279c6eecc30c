//! The log of a board, for contracts alone.

ghost use Rattle.std.specs.Prelude.{◌≡◌, [], ◌∷◌, ◌++◌, All};
ghost use Rattle.yp_version.specs.Versions.{IsVersion};

use crate::history::Entry;
use std::marker::Model;
use std::snapshot::Snapshot;
use yp_io::Trail;
use yp_version::Version;

/// A version that was shown of a map, for contracts alone. It is seen as the map's number and the version.
#[derive(Drop)]
pub struct Shown {
    map: u32,
    version: Snapshot<Version>,
}

impl Model for Shown {
    ghost use Rattle.std.specs.Prelude.{ℕ};
    ghost use Rattle.yp_version.specs.Versions.{MapVersion};

    ghost Value = { ℕ × MapVersion };

    ghost view = { λ e. (e.map, e.version.value) };
}

impl Shown {
    /// The version of a map, as it is now.
    pub(crate) fn new(map: u32, version: &Version) -> Shown
        ensures { result ≡ (map, version.now) }
    {
        Shown {
            map,
            version: Snapshot::of(version),
        }
    }
}

impl Entry for Shown {
    ghost use Rattle.std.specs.Prelude.{[]};
    ghost use Rattle.yp_version.specs.Versions.{unmarked};

    ghost blank = { (0, unmarked 0 [] []) };
}

/// A log that takes no memory. It is seen as a log, of versions within their limits.
#[derive(Drop)]
pub(crate) struct PlainLog {
    entries: Trail<Shown>,
}

impl Model for PlainLog {
    ghost use Rattle.std.specs.Prelude.{All};
    ghost use Rattle.yp_version.specs.Versions.{IsVersion};
    ghost use Rattle.yp_board.specs.Logs.{Log};

    ghost Value = { Log };

    ghost view = { λ l. l.entries };

    ghost invariant = { λ l. All (λ entry. IsVersion entry.1) l.entries };
}

impl PlainLog {
    /// A log of nothing.
    pub(crate) fn new() -> PlainLog
        ensures { result ≡ [] }
    {
        PlainLog {
            entries: Trail::new(),
        }
    }

    /// Adds a version of a map behind the others.
    pub(crate) fn push(&mut self, map: u32, version: &Version)
        ensures { self.new ≡ self.old ++ (map, version.now) ∷ [] }
    {
        let _order = version.order();
        self.entries.push(&Shown::new(map, version));
    }

    /// Does nothing. Each version is within its limits.
    pub(crate) fn rest(&self)
        ensures { All (λ entry. IsVersion entry.1) self.now }
    {
        let _entries = &self.entries;
    }
}
