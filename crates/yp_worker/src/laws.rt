//! What holds of what was summed up, and of carriers. Each law is the contract of a function that does nothing.

ghost use Rattle.yp_answer.specs.inside.session.Hosts.{conduct_by};
ghost use Rattle.yp_rpc.specs.inside.Turns.{box_by};
ghost use Rattle.yp_worker.specs.inside.Laws.{CarriersGoOn, SumsReachFurther};
ghost use Rattle.yp_worker.specs.Summing.{counting_of};

use crate::catch_up::HandsOver;
use yp_io::Inbox;

/// What connections were answered on, as fronts of one log, is so of each log of which that one is a front.
pub fn sums_reach_further<H: HandsOver>()
    ensures { SumsReachFurther (conduct_by H.Host) (counting_of H.counted H.none H.plus) }
{}

/// A carrier that took in what servers held between two times has done what it did in both.
pub fn carriers_go_on<I: Inbox, H: HandsOver>()
    ensures { CarriersGoOn (conduct_by H.Host) H.counted (box_by I.Inbox) I.faults }
{}
