//! A version that is fetched over a client.

ghost use Rattle.std.specs.Prelude.{◌≡◌, ◌≤◌, false, [], length, IfOk, option_map};
ghost use Rattle.yp_messages.specs.Numbers.{name_max};
ghost use Rattle.yp_client.specs.inside.States.{state_of};
ghost use Rattle.yp_transfer.specs.Fetching.{wanted_of, against_order, AsksMaster, AsksRows, AsksAgain};
ghost use Rattle.yp_transfer.specs.Fetching.{InMemory, Unless, Gives};
ghost use Rattle.yp_transfer.specs.Fetched.{IsFetched};
ghost use Rattle.yp_transfer.specs.Called.{by_calls, FetchesByCalls};
ghost use Rattle.yp_transfer.specs.inside.Begun.{BeginsDraft};
ghost use Rattle.yp_transfer.specs.inside.Requests.{wanted_by};

use crate::fault::XfrFault;
use crate::requests::FetchRequest;
use std::alloc::Global;
use std::random::RandomSource;
use yp_client::Client;
use yp_io::{NoMemory, Sink, Source};
use yp_messages::protocol::NAME_MAX;
use yp_version::{Order, Version, VersionBuilder};

/// Fetches a map of a domain from the server that the client calls: ORDER, MASTER, ALL and again ORDER, each where
/// nothing stands against it. The rows go from the reply into the version, which isn't secure.
///
/// Unless it is forced, an order that isn't over the one that is shown is refused after the first reply.
pub fn fetch<S: Source, K: Sink>(
    alloc: Global,
    rt: &impl RandomSource,
    client: &mut Client<S, K>,
    request: &FetchRequest<'_>,
) -> Result<Version, XfrFault>
    requires domain { length request.now.domain.now ≤ name_max }
    requires map { length request.now.map.now ≤ name_max }
    requires unspent { client.old.spent ≡ false }

    // What was called, and what it came to.
    ensures fetches { FetchesByCalls (wanted_by request.now) result
        (state_of S.Source K.Sink client.old) (state_of S.Source K.Sink client.new) }

    // It is what the bytes of the replies say.
    ensures fetched { IsFetched (wanted_by request.now) result
        (state_of S.Source K.Sink client.old) (state_of S.Source K.Sink client.new) }
{
    fetch_by_calls(alloc, rt, client, request)
}

/// Fetches a map, as a statement about the four calls alone.
fn fetch_by_calls<S: Source, K: Sink>(
    alloc: Global,
    rt: &impl RandomSource,
    client: &mut Client<S, K>,
    request: &FetchRequest<'_>,
) -> Result<Version, XfrFault>
    requires domain { length request.now.domain.now ≤ name_max }
    requires map { length request.now.map.now ≤ name_max }
    ensures { FetchesByCalls (wanted_by request.now) result
        (state_of S.Source K.Sink client.old) (state_of S.Source K.Sink client.new) }
{
    if request.domain.is_empty() || request.map.is_empty() {
        return Err(XfrFault::Badargs);
    }
    let order = match client.order(request.domain, request.map) {
        Ok(order) => order,
        Err(fault) => return Err(fault.into()),
    };
    if let Some(fault) = against_order(request.shown, request.force, order) {
        return Err(fault);
    }
    fetch_newer(alloc, rt, client, request, order)
}

/// Why a version with this order isn't fetched.
pub fn against_order(shown: Option<Order>, force: bool, order: Order) -> Option<XfrFault>
    ensures { result ≡ against_order (wanted_of [] [] shown force) order }
{
    match shown {
        Some(shown) if !force && order <= shown => Some(XfrFault::Age {
            shown: shown.number(),
            offered: order.number(),
        }),
        _ => None,
    }
}

/// Fetches the version of an order, against which nothing stands.
fn fetch_newer<S: Source, K: Sink>(
    alloc: Global,
    rt: &impl RandomSource,
    client: &mut Client<S, K>,
    request: &FetchRequest<'_>,
    order: Order,
) -> Result<Version, XfrFault>
    requires domain { length request.now.domain.now ≤ name_max }
    requires map { length request.now.map.now ≤ name_max }
    ensures { AsksMaster (by_calls request.now.domain.now request.now.map.now) order result
        (state_of S.Source K.Sink client.old) (state_of S.Source K.Sink client.new) }
{
    let begun = match client.master(request.domain, request.map) {
        Ok(master) => begin(alloc, rt, order, master),
        Err(fault) => Err(fault.into()),
    };
    match begun {
        Ok(builder) => fetch_rows(client, request, builder),
        Err(fault) => Err(fault),
    }
}

/// A builder of a version with an order and a master, who needs a name.
pub fn begin(
    alloc: Global,
    rt: &impl RandomSource,
    order: Order,
    master: &[u8],
) -> Result<VersionBuilder, XfrFault>
    ensures { BeginsDraft order master.now result }
{
    if master.is_empty() || master.len() > NAME_MAX as usize {
        return Err(XfrFault::Dbm);
    }
    match VersionBuilder::new(alloc, rt, order, master) {
        Ok(builder) => Ok(builder),
        Err(NoMemory) => Err(XfrFault::NoMemory),
    }
}

/// Fetches the rows of a version.
fn fetch_rows<S: Source, K: Sink>(
    client: &mut Client<S, K>,
    request: &FetchRequest<'_>,
    builder: VersionBuilder,
) -> Result<Version, XfrFault>
    requires domain { length request.now.domain.now ≤ name_max }
    requires map { length request.now.map.now ≤ name_max }
    ensures { AsksRows (by_calls request.now.domain.now request.now.map.now) builder result
        (state_of S.Source K.Sink client.old) (state_of S.Source K.Sink client.new) }
{
    let mut builder = builder;
    match client.all(request.domain, request.map, &mut builder) {
        Ok(()) => {}
        Err(fault) => return Err(fault.into()),
    }
    fetch_second(client, request, builder)
}

/// Asks for the order again. The version is the source's where it is the same.
fn fetch_second<S: Source, K: Sink>(
    client: &mut Client<S, K>,
    request: &FetchRequest<'_>,
    builder: VersionBuilder,
) -> Result<Version, XfrFault>
    requires domain { length request.now.domain.now ≤ name_max }
    requires map { length request.now.map.now ≤ name_max }
    ensures { AsksAgain (by_calls request.now.domain.now request.now.map.now) builder result
        (state_of S.Source K.Sink client.old) (state_of S.Source K.Sink client.new) }
{
    let first = builder.order().number();
    let second = match client.order(request.domain, request.map) {
        Ok(order) => order.number(),
        Err(fault) => return Err(fault.into()),
    };
    if first != second {
        return Err(XfrFault::Skew { first, second });
    }
    match builder.finish() {
        Ok(version) => Ok(version),
        Err(NoMemory) => Err(XfrFault::NoMemory),
    }
}
