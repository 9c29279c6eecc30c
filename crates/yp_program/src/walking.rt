//! The command `walk`, and what its source showed.

ghost use Rattle.std.specs.Prelude.{IsTrue};
ghost use Rattle.yp_command.specs.office.Disks.{names_of};
ghost use Rattle.yp_command.specs.office.Seeing.{seeing, IsPassedOn};
ghost use Rattle.yp_command.specs.inside.office.Status.{IsTellable};
ghost use Rattle.yp_command_maps.specs.inside.Xfr.{xfr_job_view, IsReady};
ghost use Rattle.yp_command_maps.specs.walk.Walk.{walk_may_end};
ghost use Rattle.yp_program.specs.Walking.{WalkingDoes};

use std::alloc::Global;
use std::random::RandomSource;
use yp_command::WalkJob;
use yp_command::office::{Office, Status};
use yp_command_maps::walk::walk_map;
use yp_end_to_end::walk::laws::{delivered_is_of_source, delivered_is_whole, delivered_skews};
use yp_io::{Clock, Dial, Disk, Inbox, Sink, Source, Texts};

/// Fetches the only map from a host row by row in datagrams, stores it on the only disk, and tells what was stored.
pub fn walk<S: Source, K: Sink, D: Disk, C: Clock, A: Dial, I: Inbox, T: Texts, R: RandomSource>(
    alloc: Global,
    rt: &R,
    job: WalkJob,
    office: &mut Office<S, K, D, C, A, I, T>,
) -> Status
    requires { IsReady (xfr_job_view job.xfr) (names_of office.old.disks.items) }
    ensures does { WalkingDoes (seeing S.Source K.Sink D.Disk C.Clock A.Dial I.Inbox T.Texts)
        (xfr_job_view job.xfr) job.turns result office.old office.new }
    ensures may_end { IsTrue (walk_may_end result) }
    ensures passed_on { IsPassedOn (seeing S.Source K.Sink D.Disk C.Clock A.Dial I.Inbox T.Texts)
        result office.old office.new }
    ensures tellable { IsTellable result }
{
    delivered_is_of_source();
    delivered_is_whole();
    delivered_skews();
    walk_map(alloc, rt, job, office)
}
