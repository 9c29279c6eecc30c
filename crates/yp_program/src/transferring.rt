//! The command `xfr`, and what its source showed.

ghost use Rattle.std.specs.Prelude.{IsTrue};
ghost use Rattle.yp_command.specs.office.Disks.{names_of};
ghost use Rattle.yp_command.specs.office.Seeing.{seeing, IsPassedOn};
ghost use Rattle.yp_command.specs.inside.office.Status.{IsTellable};
ghost use Rattle.yp_command_maps.specs.Xfr.{xfr_may_end};
ghost use Rattle.yp_command_maps.specs.inside.Xfr.{xfr_job_view, IsReady};
ghost use Rattle.yp_program.specs.Transferring.{TransferDoes};

use std::alloc::Global;
use std::random::RandomSource;
use yp_command::XfrJob;
use yp_command::office::{Office, Status};
use yp_command_maps::transfer_map;
use yp_end_to_end::transfer::laws::{run_is_fetched, wire_is_fetched};
use yp_io::{Clock, Dial, Disk, Inbox, Sink, Source, Texts};
use yp_transfer::laws::fetched_is_one;

/// Fetches the only map from a host, stores it on the only disk, and tells what was stored.
pub fn transfer<S: Source, K: Sink, D: Disk, C: Clock, A: Dial, I: Inbox, T: Texts>(
    alloc: Global,
    rt: &impl RandomSource,
    job: XfrJob,
    office: &mut Office<S, K, D, C, A, I, T>,
) -> Status
    requires { IsReady (xfr_job_view job) (names_of office.old.disks.items) }
    ensures does { TransferDoes (seeing S.Source K.Sink D.Disk C.Clock A.Dial I.Inbox T.Texts)
        (xfr_job_view job) result office.old office.new }
    ensures may_end { IsTrue (xfr_may_end result) }
    ensures passed_on { IsPassedOn (seeing S.Source K.Sink D.Disk C.Clock A.Dial I.Inbox T.Texts)
        result office.old office.new }
    ensures tellable { IsTellable result }
{
    run_is_fetched();
    wire_is_fetched();
    fetched_is_one();
    transfer_map(alloc, rt, job, office)
}
