//! What joins the replies of a server with what is fetched from it. Each law is the contract of a function that does
//! nothing.

ghost use Rattle.yp_end_to_end.specs.inside.transfer.Shown.{ShownBetween, FrontIsServed, ShownIsSound};
ghost use Rattle.yp_end_to_end.specs.inside.transfer.Laws.{FetchedIsShown, ShownIsFetched};
ghost use Rattle.yp_end_to_end.specs.inside.transfer.Turns.{TurnsGiveFetch};
ghost use Rattle.yp_end_to_end.specs.inside.transfer.Runs.{WireIsFetched, RunIsFetched};

use crate::exchange::laws::{
    all_tells, calls_have_replies, master_tells, order_tells, room_for_version, run_is_on_logs,
    sent_is_whole,
};
use yp_rpc::laws::{first_is_one, rest_is_not_whole};
use yp_version::laws::rising_stays;

/// Where the orders of each map rise, versions that are shown at two moments, and have one order, are one version, and
/// that is shown at each moment between.
pub fn shown_between()
    ensures { ShownBetween }
{}

/// What is served at the end of a log was served at each of its fronts.
pub fn front_is_served()
    ensures { FrontIsServed }
{}

/// A version that is shown is within its limits, and its rows are shown, too, or refused to a caller since it is
/// secure.
pub fn shown_is_sound()
    ensures { ShownIsSound }
{}

/// Where the orders of each map rise, a version that is fetched has the order, the master and the rows that the server
/// showed at all four of its replies.
pub fn fetched_is_shown()
    ensures { FetchedIsShown }
{
    first_is_one();
    rest_is_not_whole();
    order_tells();
    master_tells();
    all_tells();
    room_for_version();
    rising_stays();
}

/// Where the server shows one version at all four of its replies, against which nothing stands, it is fetched.
pub fn shown_is_fetched()
    ensures { ShownIsFetched }
{
    first_is_one();
    rest_is_not_whole();
    order_tells();
    master_tells();
    all_tells();
    room_for_version();
    rising_stays();
}

/// Where a server answered the calls of a fetch in turn, what it sent gives the fetch its replies, on the four fronts
/// of its log on which it answered them.
pub fn turns_give_fetch()
    ensures { TurnsGiveFetch }
{
    sent_is_whole();
    order_tells();
    master_tells();
    all_tells();
    room_for_version();
}

/// What is fetched over the wire that came is what its bytes say, unless the dial failed or memory ran out.
pub fn wire_is_fetched()
    ensures { WireIsFetched }
{}

/// So what is fetched over a wire that gives what a server sent in a run over the calls of the fetch has the order, the
/// master and the rows that the server showed at all four of its replies.
pub fn run_is_fetched()
    ensures { RunIsFetched }
{
    calls_have_replies();
    run_is_on_logs();
    turns_give_fetch();
    fetched_is_shown();
    wire_is_fetched();
}
