//! The only map of a command: its file is opened, and what came of a fetch is stored over what it had.

ghost use Rattle.std.specs.Prelude.{◌≡◌, List, length, option_map, None, IfOk, IfErr};
ghost use Rattle.yp_board.specs.Catalogues.{name_view};
ghost use Rattle.yp_board.specs.inside.Catalogues.{catalog_fault};
ghost use Rattle.yp_board.specs.Logs.{shown};
ghost use Rattle.yp_command.specs.office.Disks.{only_history, total_faults};
ghost use Rattle.yp_publisher.specs.Begins.{plain_log};
ghost use Rattle.yp_publisher.specs.inside.Begins.{BeginsLevel};
ghost use Rattle.yp_publisher.specs.Keeping.{keeping_of};
ghost use Rattle.yp_command_maps.specs.Disks.{only_tells};
ghost use Rattle.yp_command_maps.specs.Xfr.{Job};
ghost use Rattle.yp_command_maps.specs.inside.Xfr.{xfr_job_view, catalogue_of, why_of_open, LeavesUnloaded};
ghost use Rattle.yp_command_maps.specs.inside.Xfr.{StoresFetched, KeepsLoaded};
ghost use Rattle.yp_command.specs.Words.{host_view};
ghost use Rattle.yp_transfer.specs.Requests.{request_of};
ghost use Rattle.yp_transfer.specs.inside.Requests.{request_view};
ghost use Rattle.yp_transfer.specs.Transfers.{InstallsOutcome};

use crate::catalog::OnlyMap;
use std::alloc::Global;
use std::random::RandomSource;
use yp_board::PlainBoard;
use yp_command::XfrJob;
use yp_io::Disk;
use yp_map_file::SlotFault;
use yp_publisher::{Installed, OpenFault, Publisher, open_publisher};
use yp_transfer::{TransferRequest, XfrFault, install_fetched};
use yp_version::{Order, Version};

/// The file of the only map wasn't loaded. Its disk is handed back, and nothing was written.
#[derive(Debug, Drop)]
pub struct NotLoaded<D> {
    pub why: SlotFault,
    pub disks: Vec<D>,
}

/// Why the file of a map isn't loaded where no publisher is opened.
fn why_of_open(fault: OpenFault) -> SlotFault
    ensures { result ≡ why_of_open fault }
{
    match fault {
        OpenFault::Refused { fault, .. } => fault,
        OpenFault::NoMemory => SlotFault::NoMemory,
    }
}

/// Opens a publisher of the only map.
pub fn open_only<D: Disk>(
    alloc: Global,
    rt: &impl RandomSource,
    only: OnlyMap<D>,
) -> Result<Publisher<D, PlainBoard>, NotLoaded<D>>
    requires catalogue { length only.catalog.maps ≡ 1 }
    requires only { length only.disks.items ≡ 1 }
    ensures begun { IfOk result (BeginsLevel D.history D.faults only.catalog only.disks.items) }
    ensures only { IfOk result (λ publisher. length publisher.maps ≡ 1) }
    ensures unloaded { IfErr result (λ refused. LeavesUnloaded refused.why
        (only_history D.history only.disks.items) (only_history D.history refused.disks.items)
        (total_faults D.faults only.disks.items) (total_faults D.faults refused.disks.items)) }
    ensures kept { IfErr result (λ refused. length refused.disks.items ≡ 1) }
{
    match open_publisher(alloc, rt, only.catalog, only.disks) {
        Ok(publisher) => Ok(publisher),
        Err(refused) => Err(NotLoaded {
            why: why_of_open(refused.fault),
            disks: refused.disks,
        }),
    }
}

/// The order of the version that a publisher shows of its only map, if it shows one.
pub fn shown_order<D: Disk>(publisher: &Publisher<D, PlainBoard>) -> Option<Order>
    requires { length publisher.now.maps ≡ 1 }
    ensures { result ≡ option_map (λ version. version.order) (shown 0 publisher.now.board.known) }
{
    publisher.shown(0).map(|version| version.order())
}

/// What is asked of the transfer of the only map.
pub(crate) fn request_of(job: &XfrJob) -> TransferRequest<'_>
    ensures request { request_view result ≡ request_of 0 (host_view job.now.host).0 job.now.force job.now.flag }
    ensures map { result.map ≡ 0 }
{
    TransferRequest {
        map: 0,
        source: &job.host.name,
        force: job.force,
        mark: job.flag,
    }
}

/// Installs what came of a fetch on the first map.
fn install_outcome<D: Disk>(
    alloc: Global,
    rt: &impl RandomSource,
    publisher: &mut Publisher<D, PlainBoard>,
    job: &XfrJob,
    outcome: Result<Version, XfrFault>,
) -> Result<Installed, XfrFault>
    requires { length publisher.old.maps ≡ 1 }
    ensures { InstallsOutcome (keeping_of D.history D.faults plain_log)
        (request_of 0 (host_view job.now.host).0 job.now.force job.now.flag) outcome result
        publisher.old publisher.new }
{
    match outcome {
        Ok(version) => install_fetched(alloc, rt, publisher, &request_of(job), version),
        Err(fault) => Err(fault),
    }
}

/// Stores what came of a fetch as the only map of a publisher, over the version that it shows, and hands back the disk.
pub fn store_fetched<D: Disk>(
    alloc: Global,
    rt: &impl RandomSource,
    publisher: Publisher<D, PlainBoard>,
    job: &XfrJob,
    outcome: Result<Version, XfrFault>,
) -> (Result<Installed, XfrFault>, Vec<D>)
    requires { length publisher.maps ≡ 1 }
    ensures { (disks : List D) → length disks ≡ 1
        → BeginsLevel D.history D.faults (catalogue_of (xfr_job_view job.now)) disks publisher
        → StoresFetched (xfr_job_view job.now) (shown 0 publisher.board.known) outcome result.0
        (only_tells D.history D.faults disks) (only_tells D.history D.faults result.1.items)
        × (length result.1.items ≡ 1) }
{
    let mut publisher = publisher;
    let done = install_outcome(alloc, rt, &mut publisher, job, outcome);
    let (disks, _board) = publisher.into_parts();
    (done, disks)
}

/// Hands back the disk of the only map of a publisher, of which nothing was fetched.
pub fn hand_back<D: Disk>(publisher: Publisher<D, PlainBoard>) -> Vec<D>
    ensures { (job : Job) (disks : List D) → length disks ≡ 1
        → BeginsLevel D.history D.faults (catalogue_of job) disks publisher
        → KeepsLoaded (shown 0 publisher.board.known) (only_history D.history disks)
        (only_history D.history result.items) (total_faults D.faults disks) (total_faults D.faults result.items)
        × (length result.items ≡ 1) }
{
    let (disks, _board) = publisher.into_parts();
    disks
}
