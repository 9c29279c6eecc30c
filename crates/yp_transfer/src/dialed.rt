//! A version that is fetched over a wire that is dialed.

ghost use Rattle.std.specs.Prelude.{◌≡◌, ◌≤◌, length, min};
ghost use Rattle.yp_io.specs.Counts.{last_count};
ghost use Rattle.yp_messages.specs.Numbers.{name_max};
ghost use Rattle.yp_io.specs.Dials.{dialing_of};
ghost use Rattle.yp_transfer.specs.Dialing.{sought, FetchesFrom};
ghost use Rattle.yp_transfer.specs.inside.Requests.{wanted_by};

use crate::fault::XfrFault;
use crate::fetching::fetch;
use crate::hosts::Hosts;
use crate::requests::FetchRequest;
use std::alloc::Global;
use std::random::RandomSource;
use yp_client::{Unconnected, connect};
use yp_io::{Dial, Peer};
use yp_version::Version;

/// Finds the source in the table, dials it, fetches a map from it, and gives the wire back, with every outcome.
///
/// `Badargs` comes exactly where a name or the source is empty, and `Maddr` exactly where none is and the table lacks
/// the source; nothing is dialed then.
pub fn fetch_from<A: Dial>(
    alloc: Global,
    rt: &impl RandomSource,
    dial: &mut A,
    hosts: &Hosts,
    source: &[u8],
    request: &FetchRequest<'_>,
) -> Result<Version, XfrFault>
    requires domain { length request.now.domain.now ≤ name_max }
    requires map { length request.now.map.now ≤ name_max }
    ensures fetches { FetchesFrom hosts.now source.now (wanted_by request.now) result
        (dialing_of A.past A.faults dial.old) (dialing_of A.past A.faults dial.new) }
    ensures letters { A.letters dial.new ≡ A.letters dial.old }
    ensures faults { min (A.faults dial.old) last_count ≤ A.faults dial.new }
{
    let to = find_source(hosts, source, request)?;
    let mut client = match connect(alloc, dial, to) {
        Ok(client) => client,
        Err(Unconnected::Dial) => return Err(XfrFault::Rpc),
        Err(Unconnected::NoMemory) => return Err(XfrFault::NoMemory),
    };
    let answer = fetch(alloc, rt, &mut client, request);
    dial.back(client.into_wire());
    answer
}

/// The address of a source, where it and the names aren't empty.
fn find_source(hosts: &Hosts, source: &[u8], request: &FetchRequest<'_>) -> Result<Peer, XfrFault>
    ensures { result ≡ sought (wanted_by request.now) source.now hosts.now }
{
    if request.domain.is_empty() || request.map.is_empty() || source.is_empty() {
        return Err(XfrFault::Badargs);
    }
    match hosts.find(source) {
        Some(peer) => Ok(peer),
        None => Err(XfrFault::Maddr),
    }
}
