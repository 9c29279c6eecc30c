//! The command `orders`: servers are asked for the orders of a domain's maps, and these are printed.

ghost use Rattle.std.specs.Prelude.{◌≡◌, ◌≤◌, length, IsTrue, IfErr};
ghost use Rattle.yp_messages.specs.Numbers.{name_max};
ghost use Rattle.yp_client.specs.inside.query.Faults.{FaultIsTellable as MayBeTold};
ghost use Rattle.yp_command.specs.office.Seeing.{seeing, IsPassedOn};
ghost use Rattle.yp_command.specs.inside.office.Status.{IsTellable};
ghost use Rattle.yp_program.specs.Asking.{ask_may_end};
ghost use Rattle.yp_program.specs.Orders.{OrdersDoes, compared_status};

use crate::ask::status_of;
use std::alloc::Global;
use yp_client::orders::compare_orders;
use yp_client::query::QueryFault;
use yp_command::office::{Office, Status};
use yp_io::{Clock, Dial, Disk, Inbox, Peer, Sink, Source, Texts};

/// The status of servers that were compared.
fn compared_status(compared: Result<bool, QueryFault>) -> Status
    requires { IfErr compared MayBeTold }
    ensures status { result ≡ compared_status compared }
    ensures may_end { IsTrue (ask_may_end result) }
    ensures tellable { IsTellable result }
{
    match compared {
        Ok(true) => Status::Done,
        Ok(false) => Status::No,
        Err(fault) => status_of(fault),
    }
}

/// Asks the first server for the maps of a domain, and all of them for their orders, and prints a line for each map.
pub fn compare<S: Source, K: Sink, D: Disk, C: Clock, A: Dial, I: Inbox, T: Texts>(
    alloc: Global,
    first: Peer,
    others: &[Peer],
    domain: &[u8],
    office: &mut Office<S, K, D, C, A, I, T>,
) -> Status
    requires { length domain.now ≤ name_max }
    ensures does { OrdersDoes (seeing S.Source K.Sink D.Disk C.Clock A.Dial I.Inbox T.Texts)
        (record { first = first; others = others.now; domain = domain.now }) result office.old office.new }
    ensures may_end { IsTrue (ask_may_end result) }
    ensures passed_on { IsPassedOn (seeing S.Source K.Sink D.Disk C.Clock A.Dial I.Inbox T.Texts)
        result office.old office.new }
    ensures tellable { IsTellable result }
{
    let compared = compare_orders(
        alloc,
        &mut office.dial,
        first,
        others,
        domain,
        &mut office.wire.sink,
    );
    compared_status(compared)
}
