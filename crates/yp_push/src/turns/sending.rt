//! One request of a push.

ghost use Rattle.std.specs.Prelude.{◌≡◌, MatchResult};
ghost use Rattle.yp_transfer.specs.inside.Dials.{dial_by};
ghost use Rattle.yp_messages.specs.inside.Transfers.{req_xfr_view, ReqXfrIsWithin};
ghost use Rattle.yp_client.specs.States.{ClientModel};
ghost use Rattle.yp_client.specs.inside.States.{state_of, unspent};
ghost use Rattle.yp_push.specs.inside.Ledgers.{IsUnanswered};
ghost use Rattle.yp_push.specs.turns.Sendings.{starves, IsNotDialed, IsCalled, IsAsked, IsNoted};
ghost use Rattle.yp_push.specs.turns.Sendings.{push_tells, ReachesSlave};

use crate::{Missed, Push};
use std::alloc::Global;
use yp_client::{Client, ClientFault};
use yp_io::{Dial, Failed, Pair, Peer, Sink, Source};
use yp_messages::{ReqXfr, XfrStat};

/// The number of the first call on a wire.
const FIRST_XID: u32 = 1;

/// Calls XFR over a wire, and hands it back.
fn call_over<S: Source, K: Sink>(
    alloc: Global,
    wire: Pair<S, K>,
    request: &ReqXfr<'_>,
) -> (Result<XfrStat, ClientFault>, Pair<S, K>)
    requires { ReqXfrIsWithin request.now }
    ensures { (last : ClientModel S K) × (last.wire ≡ result.1) × IsCalled (req_xfr_view request.now) result.0
        (state_of S.Source K.Sink (unspent wire 1 0)) (state_of S.Source K.Sink last) }
{
    let mut client = match Client::new(alloc, wire, FIRST_XID) {
        Ok(client) => client,
        Err(refused) => return (Err(ClientFault::NoMemory), refused.wire),
    };
    let answer = client.xfr(request);
    (answer, client.into_wire())
}

/// Dials, calls XFR, and gives the wire back. There is no answer where no wire came.
fn call_dialed<A: Dial>(
    alloc: Global,
    dial: &mut A,
    to: Peer,
    request: &ReqXfr<'_>,
) -> Result<Result<XfrStat, ClientFault>, Failed>
    requires { ReqXfrIsWithin request.now }
    ensures { MatchResult result
        (λ answer. IsAsked to (req_xfr_view request.now) answer (dial_by A.Dial dial.old) (dial_by A.Dial dial.new))
        (λ _. IsNotDialed (dial_by A.Dial dial.old) (dial_by A.Dial dial.new)) }
{
    let wire = dial.dial(to)?;
    let (answer, wire) = call_over(alloc, wire, request);
    dial.back(wire);
    Ok(answer)
}

/// Puts the answer of a slave into the ledger, and answers whether memory ran out.
fn note(push: &mut Push, slave: u32, answer: Result<XfrStat, ClientFault>) -> bool
    requires { IsUnanswered push.old slave }
    ensures noted { IsNoted slave answer push.old push.new }
    ensures starved { result ≡ starves answer }
{
    match answer {
        Ok(XfrStat::Succ) => {}
        Ok(stat) => push.on_refused(slave, stat),
        Err(ClientFault::NoMemory) => return true,
        Err(_) => push.on_failed(slave, Missed::Rpc),
    }
    false
}

/// Asks a slave to fetch a map, where it has an address, and puts what came of it into the ledger. It answers whether
/// memory ran out.
pub fn send<A: Dial>(
    alloc: Global,
    dial: &mut A,
    push: &mut Push,
    slave: u32,
    to: Option<Peer>,
    request: &ReqXfr<'_>,
) -> bool
    requires within { ReqXfrIsWithin request.now }
    requires unanswered { IsUnanswered push.old slave }
    ensures { ReachesSlave to (req_xfr_view request.now) slave result
        (push_tells push.old (dial_by A.Dial dial.old)) (push_tells push.new (dial_by A.Dial dial.new)) }
{
    let Some(peer) = to else {
        push.on_failed(slave, Missed::Maddr);
        return false;
    };
    match call_dialed(alloc, dial, peer, request) {
        Ok(answer) => note(push, slave, answer),
        Err(Failed) => {
            push.on_failed(slave, Missed::Rpc);
            false
        }
    }
}
