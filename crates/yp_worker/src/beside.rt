//! Two workers of one listener, in threads of their own.

ghost use Rattle.std.specs.Prelude.{◌≡◌, ◌+◌};
ghost use Rattle.yp_answer.specs.inside.session.Hosts.{conduct_by};
ghost use Rattle.yp_worker.specs.Receptions.{IsUnder};
ghost use Rattle.yp_worker.specs.inside.Receptions.{terms_by};

use crate::catch_up::HandsOver;
use crate::gate::Gate;
use crate::listening::{Listening, Pass, Reception};
use crate::tally::Tally;
use crate::worker::Worker;
use std::sync::ledger::Ledger;
use std::sync::{Mutex, Wait};
use std::thread::{Threads, join};
use yp_io::Hall;

/// Runs two workers side by side, each in a thread of its own, until both have ended. Their passes come back with what
/// each counted.
pub fn run_beside<J, E, H, G, L, R: Threads + Wait + Sync>(
    rt: &R,
    listening: &Mutex<Listening<J, E, H, L, G>>,
    first: (Worker<H, G>, Pass<J, E>),
    second: (Worker<H, G>, Pass<J, E>),
) -> ((Pass<J, E>, Tally), (Pass<J, E>, Tally))
where
    J: Reception + Send + Sync,
    E: Ledger + Send + Sync,
    H: HandsOver + Send + Drop,
    H::Sum: Send,
    H::Front: Send,
    G: Gate + Copy + Send + Drop,
    L: Hall + Send,
    L::In: Send,
    L::Out: Send,
    L::Closer: Send,
    L::Watch: Send,
    L::Waker: Send,
    requires first { IsUnder (conduct_by H.Host) (terms_by J.Reception) first.0 }
    requires second { IsUnder (conduct_by H.Host) (terms_by J.Reception) second.0 }
    requires none { (H.counted first.0.host ≡ H.none) × (H.counted second.0.host ≡ H.none) }
    ensures first { result.0.0 ≡ record first.1 { ended = first.1.ended + 1 } }
    ensures second { result.1.0 ≡ record second.1 { ended = second.1.ended + 1 } }
{
    let (worker, pass) = first;
    let (other, its_pass) = second;
    join(
        rt,
        move || -> (Pass<J, E>, Tally)
            requires { IsUnder (conduct_by H.Host) (terms_by J.Reception) worker × (H.counted worker.host ≡ H.none) }
            ensures { result.0 ≡ record pass { ended = pass.ended + 1 } }
        { ran(rt, listening, worker, pass) },
        move || -> (Pass<J, E>, Tally)
            requires { IsUnder (conduct_by H.Host) (terms_by J.Reception) other × (H.counted other.host ≡ H.none) }
            ensures { result.0 ≡ record its_pass { ended = its_pass.ended + 1 } }
        { ran(rt, listening, other, its_pass) },
    )
}

/// Runs a worker, and hands its pass back.
fn ran<J: Reception, E: Ledger, H: HandsOver + Drop, G: Gate + Copy + Drop, L: Hall, R: Wait>(
    rt: &R,
    listening: &Mutex<Listening<J, E, H, L, G>>,
    mut worker: Worker<H, G>,
    mut pass: Pass<J, E>,
) -> (Pass<J, E>, Tally)
    requires under { IsUnder (conduct_by H.Host) (terms_by J.Reception) worker }
    requires none { H.counted worker.host ≡ H.none }
    ensures { result.0 ≡ record pass { ended = pass.ended + 1 } }
{
    let tally = worker.run(rt, listening, &mut pass);
    (pass, tally)
}
