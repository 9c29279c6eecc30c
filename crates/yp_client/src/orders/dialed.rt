//! Servers that are asked one after the other, each over a wire that is dialed.

ghost use Rattle.std.specs.Prelude.{◌≡◌, ◌≢◌, ℕ, ◌≤◌, ◌∷◌, List, map, length, min, Err, IsTrue, IfOk, IfErr};
ghost use Rattle.yp_io.specs.Counts.{HasRisen, last_count};
ghost use Rattle.yp_io.specs.Dials.{dialing_of};
ghost use Rattle.yp_messages.specs.Numbers.{name_max};
ghost use Rattle.yp_client.specs.query.Asked.{IsUnlessMemory};
ghost use Rattle.yp_client.specs.query.Scenes.{query_tells, Dials};
ghost use Rattle.yp_client.specs.inside.query.Faults.{FaultIsTellable};
ghost use Rattle.yp_client.specs.inside.query.Scenes.{HasQueryCause};
ghost use Rattle.yp_client.specs.orders.InTurn.{InTurn};
ghost use Rattle.yp_client.specs.orders.Asked.{TellsOrders, TellsSurvey, AsksOther, AsksServers};
ghost use Rattle.yp_client.specs.orders.Scenes.{Compares};
ghost use Rattle.yp_client.specs.orders.Complete.{HasSurvey, EachHasOrders, HaveCome};
ghost use Rattle.yp_client.specs.inside.orders.Asked.{told, mastered_view, masters_view, survey_view, comparison_view};
ghost use Rattle.yp_client.specs.inside.orders.Asked.{orders_view, HasShortNames};
ghost use Rattle.yp_client.specs.inside.orders.Complete.{IsCompared};

use crate::orders::asked::{Mastered, Survey, ask_orders, ask_survey};
use crate::orders::print::print;
use crate::query::fault::QueryFault;
use crate::{Unconnected, connect};
use std::alloc::Global;
use yp_io::{Dial, Peer, Sink};
use yp_rpc::laws;
use yp_version::Order;

/// What all servers tell: the first its maps, their masters and its orders, and each other its orders of these maps.
#[derive(Drop)]
pub struct Comparison {
    pub survey: Survey,
    pub others: Vec<Vec<Option<Order>>>,
}

impl From<Unconnected> for QueryFault {
    ghost use Rattle.std.specs.Prelude.{◌≡◌};
    ghost use Rattle.yp_client.specs.inside.orders.Asked.{of_unconnected};

    ghost from_gives = { λ why fault. fault ≡ of_unconnected why };

    fn from(why: Unconnected) -> QueryFault {
        match why {
            Unconnected::Dial => QueryFault::Dial,
            Unconnected::NoMemory => QueryFault::NoMemory,
        }
    }
}

/// Asks the first server for its maps, their masters and their orders.
fn dial_first<A: Dial>(
    alloc: Global,
    dial: &mut A,
    to: Peer,
    domain: &[u8],
) -> Result<Survey, QueryFault>
    requires { length domain.now ≤ name_max }
    ensures dials { Dials to (IsUnlessMemory (TellsSurvey domain.now)) (told survey_view result)
        (dialing_of A.past A.faults dial.old) (dialing_of A.past A.faults dial.new) }
    ensures letters { A.letters dial.new ≡ A.letters dial.old }
    ensures short { IfOk result (λ survey. HasShortNames (masters_view survey.maps)) }
{
    let mut client = connect(alloc, dial, to)?;
    let survey = ask_survey(alloc, &mut client, domain);
    dial.back(client.into_wire());
    survey
}

/// Asks another server for its orders of these maps.
fn dial_other<A: Dial>(
    alloc: Global,
    dial: &mut A,
    to: Peer,
    domain: &[u8],
    maps: &[Mastered],
) -> Result<Vec<Option<Order>>, QueryFault>
    requires domain { length domain.now ≤ name_max }
    requires maps { HasShortNames (map mastered_view maps.now) }
    ensures dials { Dials to (IsUnlessMemory (TellsOrders domain.now (map mastered_view maps.now)))
        (told (λ orders. orders.items) result)
        (dialing_of A.past A.faults dial.old) (dialing_of A.past A.faults dial.new) }
    ensures letters { A.letters dial.new ≡ A.letters dial.old }
{
    let mut client = connect(alloc, dial, to)?;
    let orders = ask_orders(alloc, &mut client, domain, maps);
    dial.back(client.into_wire());
    orders
}

/// Asks these servers in turn for their orders of these maps.
fn dial_others<A: Dial>(
    alloc: Global,
    dial: &mut A,
    others: &[Peer],
    domain: &[u8],
    maps: &[Mastered],
) -> Result<Vec<Vec<Option<Order>>>, QueryFault>
    requires domain { length domain.now ≤ name_max }
    requires maps { HasShortNames (map mastered_view maps.now) }
    ensures asks { InTurn (AsksOther domain.now (map mastered_view maps.now)) others.now (told orders_view result)
        (dialing_of A.past A.faults dial.old) (dialing_of A.past A.faults dial.new) }
    ensures letters { A.letters dial.new ≡ A.letters dial.old }
{
    let mut columns = Vec::new(alloc);
    for other in others {
        let orders = dial_other(alloc, dial, *other, domain, maps)?;
        let Ok(()) = columns.push(orders) else {
            return Err(QueryFault::NoMemory);
        };
    }
    Ok(columns)
}

/// Asks all servers.
fn ask_servers<A: Dial>(
    alloc: Global,
    dial: &mut A,
    first: Peer,
    others: &[Peer],
    domain: &[u8],
) -> Result<Comparison, QueryFault>
    requires { length domain.now ≤ name_max }
    ensures asks { AsksServers first others.now domain.now (told comparison_view result)
        (dialing_of A.past A.faults dial.old) (dialing_of A.past A.faults dial.new) }
    ensures letters { A.letters dial.new ≡ A.letters dial.old }
{
    let survey = dial_first(alloc, dial, first, domain)?;
    let others = dial_others(alloc, dial, others, domain, &survey.maps)?;
    Ok(Comparison { survey, others })
}

/// Asks all servers, and prints what that came to. It says nothing of wires that give whole replies.
fn ask_and_print<A: Dial, K: Sink>(
    alloc: Global,
    dial: &mut A,
    first: Peer,
    others: &[Peer],
    domain: &[u8],
    sink: &mut K,
) -> Result<bool, QueryFault>
    requires { length domain.now ≤ name_max }
    ensures compares { Compares first others.now domain.now result
        (query_tells A.past A.faults K.output K.faults dial.old sink.old)
        (query_tells A.past A.faults K.output K.faults dial.new sink.new) }
    ensures output { result ≡ Err QueryFault.Output → HasRisen (K.faults sink.old) (K.faults sink.new) }
    ensures flushed { result ≢ Err QueryFault.Output → IsTrue (K.flushed sink.old) → IsTrue (K.flushed sink.new) }
    ensures letters { A.letters dial.new ≡ A.letters dial.old }
    ensures faults { K.faults sink.old ≤ K.faults sink.new }
{
    let comparison = ask_servers(alloc, dial, first, others, domain)?;
    print(alloc, &comparison, sink)
}

/// Asks the first server for the maps of a domain, their masters and their orders, and then each other in turn for its
/// orders of these maps, and prints a line for each map, or nothing. It tells whether all servers have the same orders.
/// Each wire that came is given back with every outcome, before the next is dialed and before anything is printed. Each
/// call is flushed before its reply is waited for.
pub fn compare_orders<A: Dial, K: Sink>(
    alloc: Global,
    dial: &mut A,
    first: Peer,
    others: &[Peer],
    domain: &[u8],
    sink: &mut K,
) -> Result<bool, QueryFault>
    requires { length domain.now ≤ name_max }
    ensures compares { Compares first others.now domain.now result
        (query_tells A.past A.faults K.output K.faults dial.old sink.old)
        (query_tells A.past A.faults K.output K.faults dial.new sink.new) }
    ensures cause { IfErr result (λ fault. HasQueryCause fault
        (query_tells A.past A.faults K.output K.faults dial.old sink.old)
        (query_tells A.past A.faults K.output K.faults dial.new sink.new)) }
    ensures tellable { IfErr result FaultIsTellable }

    // Wires that give whole replies, which answer the calls, have it answered, but for faults and want of memory.
    ensures complete { (maps : List (List ℕ)) (stream : List ℕ) (streams : List (List ℕ)) → HasSurvey maps stream
        → EachHasOrders maps streams
        → HaveCome (first ∷ others.now) (stream ∷ streams) (A.past dial.old) (A.past dial.new)
        → ¬ HasRisen (A.faults dial.old) (A.faults dial.new) → ¬ HasRisen (K.faults sink.old) (K.faults sink.new)
        → IsCompared result }
    ensures flushed { result ≢ Err QueryFault.Output → IsTrue (K.flushed sink.old) → IsTrue (K.flushed sink.new) }
    ensures letters { A.letters dial.new ≡ A.letters dial.old }
    ensures dial_faults { min (A.faults dial.old) last_count ≤ A.faults dial.new }
    ensures faults { K.faults sink.old ≤ K.faults sink.new }
{
    laws::first_is_one();
    laws::rest_is_not_whole();
    ask_and_print(alloc, dial, first, others, domain, sink)
}
