//! A client of a wire that is dialed.

ghost use Rattle.std.specs.Prelude.{◌≡◌, ◌≤◌, min, MatchResult};
ghost use Rattle.yp_io.specs.Counts.{last_count};
ghost use Rattle.yp_io.specs.Dials.{dialing_of};
ghost use Rattle.yp_client.specs.inside.States.{state_of};
ghost use Rattle.yp_client.specs.inside.Dialed.{IsConnected, IsUnconnected};

use crate::client::Client;
use std::alloc::Global;
use yp_io::{Dial, Failed, Peer};

/// The number of the first call on a wire.
const FIRST_XID: u32 = 1;

/// Why there is no client of a wire that is dialed.
#[derive(Clone, Copy, Debug, PartialEq, Eq)]
pub enum Unconnected {
    /// No wire came.
    Dial,
    /// Memory ran out for the client. The wire was given back.
    NoMemory,
}

/// Dials, and makes a client of the wire, whose calls have numbers from 1 on. Who called gives the wire back.
pub fn connect<A: Dial>(
    alloc: Global,
    dial: &mut A,
    to: Peer,
) -> Result<Client<A::In, A::Out>, Unconnected>
    ensures connects { MatchResult result
        (λ client. IsConnected to (state_of A.In.Source A.Out.Sink client)
        (dialing_of A.past A.faults dial.old) (dialing_of A.past A.faults dial.new))
        (λ why. IsUnconnected to why
        (dialing_of A.past A.faults dial.old) (dialing_of A.past A.faults dial.new)) }
    ensures letters { A.letters dial.new ≡ A.letters dial.old }
    ensures faults { min (A.faults dial.old) last_count ≤ A.faults dial.new }
{
    let wire = match dial.dial(to) {
        Ok(wire) => wire,
        Err(Failed) => return Err(Unconnected::Dial),
    };
    match Client::new(alloc, wire, FIRST_XID) {
        Ok(client) => Ok(client),
        Err(refused) => {
            dial.back(refused.wire);
            Err(Unconnected::NoMemory)
        }
    }
}
