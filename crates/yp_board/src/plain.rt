//! A board for one thread.

ghost use Rattle.std.specs.Prelude.{◌≡◌, [], ◌∷◌, ◌++◌, map, length, option_map, All, IfOk, IsOk};
ghost use Rattle.std.specs.Arc.{arc_value};
ghost use Rattle.yp_io.specs.Counts.{next_count};
ghost use Rattle.yp_version.specs.Versions.{IsVersion};
ghost use Rattle.yp_board.specs.Catalogues.{IsCatalogue};
ghost use Rattle.yp_board.specs.Logs.{starts};

use crate::catalog::Catalog;
use crate::log::PlainLog;
use crate::view::{Show, ShowRefused, View, share};
use std::alloc::Global;
use std::marker::Model;
use std::sync::Arc;
use yp_io::NoMemory;
use yp_version::Version;

/// A board that keeps the last version of each map. What it knows is its whole log, which is there for contracts alone.
#[derive(Drop)]
pub struct PlainBoard {
    catalog: Catalog,
    last: Vec<Option<Arc<Version>>>,
    log: PlainLog,
    asked: u64,
}

impl Model for PlainBoard {
    ghost use Rattle.yp_board.specs.Views.{Seen};

    ghost Value = { Seen };

    ghost use Rattle.yp_board.specs.inside.PlainBoard.{seen_of, IsKept};

    ghost view = { seen_of };

    ghost invariant = { IsKept };
}

impl PlainBoard {
    /// A board of this catalogue, on which these versions are shown, in the order of their maps. It takes no memory,
    /// and is never refused.
    pub fn new(
        _alloc: Global,
        catalog: Catalog,
        start: Vec<Option<Arc<Version>>>,
    ) -> Result<PlainBoard, NoMemory>
        requires { length start.items ≡ length catalog.maps }
        ensures board { IfOk result (λ board. board ≡ record {
          catalogue = catalog;
          known = starts 0 (map (option_map arc_value) start.items);
          asked = 0;
        }) }
        ensures never_refused { IsOk result }
    {
        let log = begun(catalog.len(), &start);
        Ok(PlainBoard {
            catalog,
            last: start,
            log,
            asked: 0,
        })
    }

    /// Does nothing. Its catalogue is one, and each version that was shown is within its limits.
    pub fn rest(&self)
        ensures catalogue { IsCatalogue self.now.catalogue }
        ensures versions { All (λ entry. IsVersion entry.1) self.now.known }
    {
        let _count = self.catalog.len();
        self.log.rest();
    }
}

/// The log that begins with these versions, of as many maps as there are.
fn begun(count: u32, start: &[Option<Arc<Version>>]) -> PlainLog
    requires { count ≡ length start.now }
    ensures { result ≡ starts 0 (map (option_map arc_value) start.now) }
{
    let mut log = PlainLog::new();
    for map in 0..count {
        begin(&mut log, map, &start[map as usize]);
    }
    log
}

/// Adds the version of a map that a log begins with, if there is one.
fn begin(log: &mut PlainLog, map: u32, version: &Option<Arc<Version>>)
    ensures { log.new ≡ log.old ++ starts map (option_map arc_value version.now ∷ []) }
{
    if let Some(version) = version {
        log.push(map, version);
    }
}

impl View for PlainBoard {
    ghost seen = { λ board. board };

    ghost stepped = { λ old new. new ≡ record old { asked = next_count old.asked } };

    fn catalog(&self) -> &Catalog {
        &self.catalog
    }

    fn refresh(&mut self) {
        self.asked = self.asked.saturating_add(1);
    }

    fn held(&self, map: u32) -> Option<&Version> {
        match &self.last[map as usize] {
            Some(version) => Some(&**version),
            None => None,
        }
    }

    fn share(&self, map: u32) -> Result<Option<Arc<Version>>, NoMemory> {
        match share(&self.last[map as usize]) {
            Ok(version) => Ok(version),
            Err(_) => Err(NoMemory),
        }
    }
}

impl Show for PlainBoard {
    ghost maps = { λ board. length board.catalogue.maps };

    ghost log = { λ board. board.known };

    ghost showed = { λ map version old new. new ≡ record old { known = old.known ++ (map, version) ∷ [] } };

    fn show(&mut self, map: u32, version: Arc<Version>) -> Result<(), ShowRefused> {
        self.log.push(map, &version);
        self.last[map as usize] = Some(version);
        Ok(())
    }
}
