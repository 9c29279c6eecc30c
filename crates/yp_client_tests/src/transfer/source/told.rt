//! A fetch, with what it comes to where the wire gives the replies of a server.

ghost use Rattle.std.specs.Prelude.{◌≡◌, ◌≢◌, ◌⊎◌, ◌≤◌, ◌<◌, ℕ, List, [], length, false, Some, None, Ok, IfOk};
ghost use Rattle.yp_io.specs.declared.stream.Peer.{Peer as Caller};
ghost use Rattle.yp_rpc.specs.inside.Laws.{IsWord};
ghost use Rattle.yp_messages.specs.Numbers.{name_max};
ghost use Rattle.yp_version.specs.Versions.{MapVersion};
ghost use Rattle.yp_board.specs.Catalogues.{Catalogue};
ghost use Rattle.yp_answer.specs.Served.{AreServed, maps_on};
ghost use Rattle.yp_client.specs.inside.States.{state_of};
ghost use Rattle.yp_transfer.specs.Fetching.{against_order};
ghost use Rattle.yp_transfer.specs.inside.Requests.{wanted_by};
ghost use Rattle.yp_transfer.specs.Fetched.{FailsByWire};
ghost use Rattle.yp_end_to_end.specs.transfer.Replies.{IsShown, unsecured};
ghost use Rattle.yp_end_to_end.specs.inside.transfer.Replies.{Moments, AtEach, GivesFetch};
ghost use Rattle.yp_end_to_end.specs.inside.transfer.Laws.{Fronts, moments_on};
ghost use Rattle.yp_client_tests.specs.Outcomes.{IsUnlessFailed};

use std::alloc::Global;
use std::random::RandomSource;
use yp_client::Client;
use yp_end_to_end::transfer::laws;
use yp_io::{Sink, Source};
use yp_transfer::{FetchRequest, XfrFault, fetch};
use yp_version::Version;

/// Fetches a map over a wire that gives the replies of a server.
pub fn fetch_from_server<S: Source, K: Sink>(
    alloc: Global,
    rt: &impl RandomSource,
    client: &mut Client<S, K>,
    request: &FetchRequest<'_>,
) -> Result<Version, XfrFault>
    requires domain { length request.now.domain.now ≤ name_max }
    requires map { length request.now.map.now ≤ name_max }
    requires unspent { client.old.spent ≡ false }

    // Where the log of the server rises, it is what that showed throughout.
    ensures shown { (catalogue : Catalogue) (fronts : Fronts) (peer : Caller) (stream : List ℕ)
        → AreServed (maps_on catalogue fronts.log) → IsWord client.old.xid
        → S.input client.old.wire.source ≡ Some stream
        → GivesFetch peer request.now.domain.now request.now.map.now (moments_on catalogue fronts) client.old.xid stream
        → IfOk result (λ version. (source : MapVersion)
        × AtEach (IsShown (wanted_by request.now) source) (moments_on catalogue fronts)
        × (version ≡ unsecured source)) }

    // Where the server shows one version throughout, it is that.
    ensures complete { (moments : Moments) (peer : Caller) (stream : List ℕ) (source : MapVersion)
        → AtEach AreServed moments → IsWord client.old.xid
        → AtEach (IsShown (wanted_by request.now) source) moments
        → (source.secure ≡ false) ⊎ (peer.port < 1024) → source.master ≢ []
        → against_order (wanted_by request.now) source.order ≡ None
        → S.input client.old.wire.source ≡ Some stream
        → GivesFetch peer request.now.domain.now request.now.map.now moments client.old.xid stream
        → IsUnlessFailed (unsecured source) result
        (state_of S.Source K.Sink client.old) (state_of S.Source K.Sink client.new) }
{
    laws::fetched_is_shown();
    laws::shown_is_fetched();
    fetch(alloc, rt, client, request)
}
