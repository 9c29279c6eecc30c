//! A transfer that is carried out: the map is fetched and installed, and the caller is told.

ghost use Rattle.std.specs.Prelude.{◌≡◌, ◌<◌, length};
ghost use Rattle.yp_board.specs.Views.{IsFront};
ghost use Rattle.yp_publisher.specs.Keeping.{keeping_of};
ghost use Rattle.yp_answer.specs.inside.Transfer.{taken_view};
ghost use Rattle.yp_transfer.specs.Transfers.{TransfersFor, transfer_state};
ghost use Rattle.yp_host.specs.Locals.{IsUsed};
ghost use Rattle.yp_host.specs.inside.Locals.{telling_by};
ghost use Rattle.yp_host.specs.Transferring.{request_for, asker_of};
ghost use Rattle.yp_transfer.specs.inside.Dials.{dial_by};

use crate::desk::Desk;
use std::alloc::Global;
use std::random::RandomSource;
use yp_answer::TransferJob;
use yp_board::Show;
use yp_io::{Clock, Dial, Disk, Peer, Texts};
use yp_publisher::Publisher;
use yp_transfer::{AskedTransfer, Asker, transfer_for};

/// Transfers the map of a transfer job, and tells the caller at `peer` what came of it, where it wants to be told.
pub(crate) fn carry_out<D: Disk, B: Show, A: Dial, T: Texts, C: Clock>(
    alloc: Global,
    rt: &impl RandomSource,
    publisher: &mut Publisher<D, B>,
    desk: &mut Desk<A, T, C>,
    job: &TransferJob<'_>,
    peer: Peer,
)
    requires { job.now.map < length publisher.old.maps }
    ensures transfers { TransfersFor (keeping_of D.history D.faults B.log) desk.old.hosts
        (request_for (taken_view job.now)) (asker_of (taken_view job.now) peer)
        (transfer_state (dial_by A.Dial desk.old.dial) publisher.old)
        (transfer_state (dial_by A.Dial desk.new.dial) publisher.new) }
    ensures used { IsUsed (telling_by T.Texts C.Clock A.Dial) desk.old desk.new }
    ensures catalogue { publisher.new.catalogue ≡ publisher.old.catalogue }
    ensures grown { IsFront (B.log publisher.old.board) (B.log publisher.new.board) }
{
    let asked = AskedTransfer {
        map: job.map,
        source: job.source,
        asker: asker_of(job, peer),
    };
    transfer_for(alloc, rt, publisher, &mut desk.dial, &desk.hosts, &asked);
}

/// The caller at `peer` of a transfer job.
pub(crate) fn asker_of(job: &TransferJob<'_>, peer: Peer) -> Asker
    ensures { result ≡ asker_of (taken_view job.now) peer }
{
    let addr = peer.addr;
    Asker {
        addr,
        prog: job.prog,
        port: job.port,
        transid: job.transid,
    }
}
