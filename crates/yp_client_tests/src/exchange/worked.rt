//! What the replies to calls of `hosts.byname` say, reckoned by hand, as the laws have it.

ghost use Rattle.std.specs.Prelude.{◌≡◌, [], ◌∷◌, codes, negsuc, Ok, Err};
ghost use Rattle.yp_messages.specs.declared.stat.YpStat.TheVariants.{Nokey, Nomore};
ghost use Rattle.yp_client.specs.declared.fault.ClientFault.TheVariants.{Yp};
ghost use Rattle.yp_client.specs.Limits.{reply_max, all_max};
ghost use Rattle.yp_client.specs.Results.{value_of, row_of, master_of, order_of, maps_of, taken_of};
ghost use Rattle.yp_client.specs.All.{all_said};
ghost use Rattle.yp_client.specs.Asked.{match_call, first_call, next_call, all_call};
ghost use Rattle.yp_client.specs.Asked.{master_call, order_call, maplist_call, pull_call};
ghost use Rattle.yp_client.specs.query.Asked.{no_rows};
ghost use Rattle.yp_end_to_end.specs.inside.exchange.Served.{ReplyTells, RepliesTelling};
ghost use Rattle.yp_client_tests.specs.Hosts.{lab, hosts, alpha, address, hosts_maps, caller};

use yp_end_to_end::exchange::laws;

/// Each reply to the call 1 of `lab` and `hosts.byname`.
pub fn worked_rows()
    ensures value { ReplyTells hosts_maps caller reply_max (match_call lab hosts alpha 1) (value_of 1) (Ok address) }
    ensures no_value { ReplyTells hosts_maps caller reply_max (match_call lab hosts (codes "alp") 1)
        (value_of 1) (Err (Yp Nokey)) }
    ensures first { ReplyTells hosts_maps caller reply_max (first_call lab hosts 1) (row_of 1) (Ok (address, alpha)) }
    ensures last { ReplyTells hosts_maps caller reply_max (next_call lab hosts alpha 1) (row_of 1) (Err (Yp Nomore)) }
    ensures all { ReplyTells hosts_maps caller all_max (all_call lab hosts 1) (all_said no_rows 1)
        (record { draft = record { order = 0; master = []; rows = (alpha, address) ∷ [] }; rows = 1; end = Ok tt }) }
    ensures master { ReplyTells hosts_maps caller reply_max (master_call lab hosts 1) (master_of 1) (Ok (codes "m1")) }
    ensures order { ReplyTells hosts_maps caller reply_max (order_call lab hosts 1) (order_of 1) (Ok 100) }
    ensures names { ReplyTells hosts_maps caller reply_max (maplist_call lab 1) (maps_of 1) (Ok (hosts ∷ [])) }
    ensures pull { RepliesTelling hosts_maps caller reply_max (pull_call lab hosts (codes "m9") 1) (taken_of 1)
        (Ok (negsuc 13)) }
{
    laws::match_tells();
    laws::first_tells();
    laws::next_tells();
    laws::all_tells();
    laws::master_tells();
    laws::order_tells();
    laws::maplist_tells();
    laws::pull_tells();
}

#[test]
fn hosts_are_told(_rt: HostRuntime) {
    worked_rows();
}
