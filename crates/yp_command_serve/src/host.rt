//! The host of `once`: maps that are shown, and never made or fetched.

ghost use Rattle.std.specs.Prelude.{◌≡◌, None, All};
ghost use Rattle.std.proofs.Common.{ap};
ghost use Rattle.yp_io.specs.Counts.{next_count};
ghost use Rattle.yp_messages.specs.declared.transfer.XfrStat.TheVariants.{Rsrc};
ghost use Rattle.yp_version.specs.Versions.{IsVersion};
ghost use Rattle.yp_board.specs.Catalogues.{IsCatalogue};
ghost use Rattle.yp_command_serve.specs.Served.{fixed};

use std::marker::Model;
use std::sync::Arc;
use yp_answer::session::Host;
use yp_answer::{MakeJob, TransferJob};
use yp_board::{Catalog, PlainBoard, View};
use yp_io::{NoMemory, Peer};
use yp_messages::XfrStat;
use yp_version::Version;

/// A board for callers who are let to no MAKE, of maps that its own host is the master of. So no map is made or
/// fetched, and what it would have fetched is only counted. It is seen as that board and the count.
#[derive(Drop)]
pub struct FixedHost {
    board: PlainBoard,
    transfers: u64,
}

impl Model for FixedHost {
    ghost use Rattle.yp_command_serve.specs.Served.{Fixed};

    ghost Value = { Fixed };

    ghost view = { λ host. record { board = host.board; transfers = host.transfers } };
}

impl FixedHost {
    /// A host that shows what this board shows.
    pub fn new(board: PlainBoard) -> FixedHost
        ensures host { result ≡ fixed board }
        ensures catalogue { IsCatalogue board.catalogue }
    {
        board.rest();
        FixedHost {
            board,
            transfers: 0,
        }
    }

    /// Does nothing. Each version that was shown is within its limits.
    pub fn rest(&self)
        ensures { All (λ entry. IsVersion entry.1) self.now.board.known }
    {
        self.board.rest();
    }
}

impl View for FixedHost {
    ghost seen = { λ host. host.board };

    ghost stepped = { λ old new. new ≡ record old { board = record old.board { asked = next_count old.board.asked } } };

    fn catalog(&self) -> &Catalog {
        self.board.catalog()
    }

    fn refresh(&mut self) {
        self.board.refresh();
    }

    fn held(&self, map: u32) -> Option<&Version> {
        self.board.held(map)
    }

    fn share(&self, map: u32) -> Result<Option<Arc<Version>>, NoMemory> {
        self.board.share(map)
    }
}

impl Host for FixedHost {
    ghost told = { λ host. record { text = λ file. None; moment = None } };

    ghost counts = { λ host. record { files = 0; transfers = host.transfers } };

    ghost made = { λ job stat old new. (stat ≡ Rsrc) × (new ≡ old) };

    fn make(&mut self, _job: MakeJob) -> XfrStat {
        XfrStat::Rsrc
    }

    ghost carried = { λ taken peer old new. new ≡ record old { transfers = next_count old.transfers } };

    fn transfer(&mut self, _job: &TransferJob<'_>, _peer: Peer) {
        self.transfers = self.transfers.saturating_add(1);
    }

    ghost step_counts_nothing = { λ old new h. ap (λ host. record { files = 0; transfers = host.transfers }) h };
}
