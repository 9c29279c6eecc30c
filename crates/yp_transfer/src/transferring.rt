//! A map that is transferred.

ghost use Rattle.std.specs.Prelude.{◌≡◌, ◌<◌, ◌≤◌, length, min};
ghost use Rattle.yp_io.specs.Counts.{last_count};
ghost use Rattle.yp_publisher.specs.Keeping.{keeping_of};
ghost use Rattle.yp_io.specs.Dials.{dialing_of};
ghost use Rattle.yp_transfer.specs.inside.Dials.{dial_by};
ghost use Rattle.yp_transfer.specs.inside.Requests.{request_view, asked_view};
ghost use Rattle.yp_transfer.specs.Transfers.{Transfers, TransfersFor, transfer_state};

use crate::calling_back::{stat_of, tell_back};
use crate::dialed::fetch_from;
use crate::fault::XfrFault;
use crate::hosts::Hosts;
use crate::install::install_fetched;
use crate::requests::{AskedTransfer, FetchRequest, TransferRequest};
use std::alloc::Global;
use std::random::RandomSource;
use yp_board::Show;
use yp_io::{Dial, Disk};
use yp_publisher::{Installed, Publisher};

/// Fetches a map from its source, by the names of the catalogue and with the order of the version that is shown, and
/// installs what came. The wire is given back before the disk is called.
///
/// After a refusal the map is as after the refusal of the call that gave it.
pub fn transfer<D: Disk, B: Show, A: Dial>(
    alloc: Global,
    rt: &impl RandomSource,
    publisher: &mut Publisher<D, B>,
    dial: &mut A,
    hosts: &Hosts,
    request: &TransferRequest<'_>,
) -> Result<Installed, XfrFault>
    requires { request.now.map < length publisher.old.maps }
    ensures transfers { Transfers (keeping_of D.history D.faults B.log) hosts.now (request_view request.now) result
        (transfer_state (dialing_of A.past A.faults dial.old) publisher.old)
        (transfer_state (dialing_of A.past A.faults dial.new) publisher.new) }
    ensures letters { A.letters dial.new ≡ A.letters dial.old }
    ensures faults { min (A.faults dial.old) last_count ≤ A.faults dial.new }
{
    let shown = publisher.shown(request.map).map(|version| version.order());
    let name = publisher.catalog().name(request.map);
    let wanted = FetchRequest {
        domain: &name.domain,
        map: &name.map,
        shown,
        force: request.force,
    };
    match fetch_from(alloc, rt, dial, hosts, request.source, &wanted) {
        Ok(version) => install_fetched(alloc, rt, publisher, request, version),
        Err(fault) => Err(fault),
    }
}

/// Transfers a map for a caller, and then tells the caller what came of it, where it wants to be told.
pub fn transfer_for<D: Disk, B: Show, A: Dial>(
    alloc: Global,
    rt: &impl RandomSource,
    publisher: &mut Publisher<D, B>,
    dial: &mut A,
    hosts: &Hosts,
    asked: &AskedTransfer<'_>,
)
    requires { asked.now.map < length publisher.old.maps }
    ensures { TransfersFor (keeping_of D.history D.faults B.log) hosts.now (asked_view asked.now) asked.now.asker
        (transfer_state (dial_by A.Dial dial.old) publisher.old)
        (transfer_state (dial_by A.Dial dial.new) publisher.new) }
{
    let request = TransferRequest {
        map: asked.map,
        source: asked.source,
        force: false,
        mark: None,
    };
    let outcome = transfer(alloc, rt, publisher, dial, hosts, &request);
    tell_back(dial, &asked.asker, stat_of(&outcome));
}
