//! A host that builds its maps of one text, or fails as their kinds say.

ghost use Rattle.std.specs.Prelude.{◌≡◌, ◌≢◌, ◌<◌, ◌≤◌, None, Ok, length, IfOk, IfErr};
ghost use Rattle.std.proofs.Common.{ap};
ghost use Rattle.yp_io.specs.Counts.{next_count};
ghost use Rattle.yp_io.specs.Texts.{text_max};
ghost use Rattle.yp_board.specs.Logs.{shown};
ghost use Rattle.yp_board.specs.Views.{IsFront};
ghost use Rattle.yp_texts.specs.After.{Material, basis_of, built_after, HasLaterOrder};
ghost use Rattle.yp_answer.specs.Causes.{IsCaused};

use std::alloc::Global;
use std::sync::Arc;
use yp_answer::session::Host;
use yp_answer::{MakeJob, Making, TransferJob};
use yp_board::{Catalog, PlainBoard, Show, View};
use yp_io::{NoMemory, Peer};
use yp_messages::XfrStat;
use yp_texts::{
    AfterFault, BuildFault, Kind, Maker, Reading, SourceText, build_after, other_master,
};
use yp_version::Version;

// The text of each map.
const TEXT: &[u8] = b"alpha:1";

// It tells no text and no moment, so that group.bygid has DBM. hosts.byname has FILE, hosts.byaddr and what is made of
// netgroups RSRC, and the others are built of the text.
#[derive(Drop)]
pub struct TestHost {
    pub board: PlainBoard,
    pub alloc: Global,
    pub rt: HostRuntime,
    // How many maps were to be made, how many of them had FILE, and whether one was shown.
    pub makes: u64,
    pub files: u64,
    pub shown: bool,
    // How many transfers were carried out, and the sum of their transactions.
    pub transfers: u64,
    pub transactions: u64,
}

// Builds a version of a map of a text, behind the one that is shown of it.
fn build_next(
    board: &PlainBoard,
    alloc: Global,
    rt: HostRuntime,
    job: MakeJob,
    reading: Reading,
    text: &[u8],
) -> Result<Version, XfrStat>
    requires inside { job.map < length board.now.catalogue.maps }
    requires read { job.making ≡ Making.Text reading }
    requires limit { length text.now ≤ text_max }
    ensures built { IfOk result (λ version. (material : Material)
        × (built_after (basis_of reading board.now.catalogue.own None (shown job.map board.now.known)) material
        ≡ Ok version)
        × HasLaterOrder (shown job.map board.now.known) version) }
    ensures unbuilt { IfErr result (λ stat. IsCaused (record { text = λ file. None; moment = None })
        board.now.catalogue job stat board.now.known board.now.known) }
    ensures counted { IfErr result (λ stat. stat ≢ XfrStat.File) }
{
    let own = board.catalog().own();
    let last = board.held(job.map);
    if let Some(_) = other_master(own, last) {
        return Err(XfrStat::Refused);
    }
    let Ok(text) = Vec::from_slice(alloc, text) else {
        return Err(XfrStat::Rsrc);
    };
    let source = SourceText { reading, text };
    let maker = Maker {
        name: own,
        moment: 100,
    };
    match build_after(alloc, &rt, source, last, None, &maker) {
        Ok(version) => Ok(version),
        Err(AfterFault::Build(BuildFault::OrderSpent)) => Err(XfrStat::Age),
        Err(_) => Err(XfrStat::Rsrc),
    }
}

// Builds a map anew, and shows that.
fn make_next(
    board: &mut PlainBoard,
    alloc: Global,
    rt: HostRuntime,
    job: MakeJob,
    reading: Reading,
) -> XfrStat
    requires inside { job.map < length board.old.catalogue.maps }
    requires read { job.making ≡ Making.Text reading }
    ensures caused { IsCaused (record { text = λ file. None; moment = None })
        board.old.catalogue job result board.old.known board.new.known }
    ensures counted { result ≢ XfrStat.File }
    ensures grown { IsFront board.old.known board.new.known }
    ensures catalogue { board.new.catalogue ≡ board.old.catalogue }
{
    let version = match build_next(board, alloc, rt, job, reading, TEXT) {
        Ok(version) => version,
        Err(stat) => return stat,
    };
    let Ok(version) = Arc::new(alloc, version) else {
        return XfrStat::Rsrc;
    };
    match board.show(job.map, version) {
        Ok(()) => XfrStat::Succ,
        Err(_) => XfrStat::Rsrc,
    }
}

impl View for TestHost {
    ghost seen = { λ host. host.board };

    ghost stepped = { λ old new. new ≡ record old { board = record old.board { asked = next_count old.board.asked } } };

    fn catalog(&self) -> &Catalog {
        self.board.catalog()
    }

    fn refresh(&mut self) {
        self.board.refresh();
    }

    fn held(&self, map: u32) -> Option<&Version> {
        self.board.held(map)
    }

    fn share(&self, map: u32) -> Result<Option<Arc<Version>>, NoMemory> {
        self.board.share(map)
    }
}

impl Host for TestHost {
    ghost told = { λ host. record { text = λ file. None; moment = None } };

    ghost counts = { λ host. record { files = host.files; transfers = host.transfers } };

    ghost made = { λ job stat old new. Unit {0} };

    fn make(&mut self, job: MakeJob) -> XfrStat {
        self.makes = self.makes.saturating_add(1);
        match job.making {
            Making::Text(Reading::Text(Kind::GroupBygid)) => XfrStat::Dbm,
            Making::Text(Reading::Text(Kind::HostsByname)) => {
                self.files = self.files.saturating_add(1);
                XfrStat::File
            }
            Making::Text(Reading::Text(Kind::HostsByaddr)) | Making::Netgroups(_) => XfrStat::Rsrc,
            Making::Text(reading) => {
                let stat = make_next(&mut self.board, self.alloc, self.rt, job, reading);
                self.shown = self.shown || stat == XfrStat::Succ;
                stat
            }
        }
    }

    ghost carried = { λ taken peer old new. Unit {0} };

    fn transfer(&mut self, job: &TransferJob<'_>, _peer: Peer) {
        self.transfers = self.transfers.saturating_add(1);
        self.transactions = self.transactions.saturating_add(u64::from(job.transid));
    }

    ghost step_counts_nothing = { λ old new h.
        ap (λ host. record { files = host.files; transfers = host.transfers }) h };
}
