//! The procedures of YP version 2 (yp.x) whose replies fit the buffer, which are all but ALL, and of the make program.

ghost use Rattle.std.specs.Prelude.{◌≡◌, ◌≤◌, [], length};
ghost use Rattle.std.specs.Borrow.{sem};
ghost use Rattle.yp_xdr.specs.Kind.{Fixed};
ghost use Rattle.yp_messages.specs.Numbers.{name_max, key_max};
ghost use Rattle.yp_messages.specs.inside.Transfers.{req_xfr_view, ReqXfrIsWithin};
ghost use Rattle.yp_client.specs.Results.{value_of, row_of, master_of, order_of, maps_of};
ghost use Rattle.yp_client.specs.inside.Results.{nothing_of, served_of};
ghost use Rattle.yp_client.specs.Results.{taken_of, made_of};
ghost use Rattle.yp_client.specs.Said.{SaysNumber, SaysBytes, SaysNames, SaysStat};
ghost use Rattle.yp_client.specs.inside.Said.{SaysNothing, SaysBool, SaysRow};
ghost use Rattle.yp_client.specs.Asked.{maplist_call, first_call, master_call};
ghost use Rattle.yp_client.specs.inside.Asked.{null_call, clear_call, domain_call};
ghost use Rattle.yp_client.specs.Asked.{order_call};
ghost use Rattle.yp_client.specs.Asked.{match_call, next_call, xfr_call, make_named_call};
ghost use Rattle.yp_client.specs.inside.Asked.{make_call};
ghost use Rattle.yp_client.specs.Limits.{reply_max};
ghost use Rattle.yp_client.specs.inside.States.{state_of};
ghost use Rattle.yp_client.specs.Calls.{Calls};
ghost use Rattle.yp_client.specs.inside.Lent.{ClientRests};

use crate::answers::{
    DomainResult, MakeResult, MaplistResult, MasterResult, MatchResult, NullResult, OrderResult,
    Row, XfrResult,
};
use crate::client::Client;
use crate::exchange::RemoteProcedure;
use crate::fault::ClientFault;
use yp_io::{Sink, Source};
use yp_messages::protocol::{
    CLEAR, DOMAIN, FIRST, MAKE, MAKE_NAMED, MAKEPROG, MAKEVERS, MAPLIST, MASTER, MATCH, NEXT, NULL,
    ORDER, XFR, YPPROG, YPVERS,
};
use yp_messages::{MapList, Message, ReqDomain, ReqKey, ReqMake, ReqNokey, ReqXfr, XfrStat};
use yp_version::Order;

/// No arguments.
struct NoArguments;

impl Message for NoArguments {
    ghost kind = { Fixed 0 };

    ghost view = { λ _. [] };

    ghost is_within = { λ _. Unit {0} };

    fn len(&self) -> usize {
        0
    }

    fn set(&self, _buf: &mut [u8], at: usize) -> usize {
        at
    }
}

/// Each call sends one record with the next number, and reads the record of its reply to its end.
impl<S: Source, K: Sink> Client<S, K> {
    /// NULL: whether the server answers.
    pub fn ping(&mut self) -> Result<(), ClientFault>
        ensures { Calls reply_max (null_call) (SaysNothing nothing_of) result
            (state_of S.Source K.Sink self.old) (state_of S.Source K.Sink self.new) }
    {
        self.call(
            RemoteProcedure {
                prog: YPPROG,
                vers: YPVERS,
                procedure: NULL,
            },
            &NoArguments,
            &NullResult,
        )
    }

    /// DOMAIN: whether the domain is served.
    pub fn domain(&mut self, domain: &[u8]) -> Result<bool, ClientFault>
        requires { length domain.now ≤ name_max }
        ensures { Calls reply_max (domain_call domain.now) (SaysBool served_of) result
            (state_of S.Source K.Sink self.old) (state_of S.Source K.Sink self.new) }
    {
        self.call(
            RemoteProcedure {
                prog: YPPROG,
                vers: YPVERS,
                procedure: DOMAIN,
            },
            &ReqDomain { domain },
            &DomainResult,
        )
    }

    /// MATCH: the value of a key.
    pub fn match_key(&mut self, domain: &[u8], map: &[u8], key: &[u8]) -> Result<&[u8], ClientFault>
        requires domain { length domain.now ≤ name_max }
        requires map { length map.now ≤ name_max }
        requires key { length key.now ≤ key_max }
        ensures* calls { sem 𝓛 (ClientRests S.row K.row S.Source K.Sink self.entry (λ last.
            Calls reply_max (match_call domain.now map.now key.now) (SaysBytes value_of) result
            (state_of S.Source K.Sink self.old) (state_of S.Source K.Sink last))) }
    {
        self.lend(
            RemoteProcedure {
                prog: YPPROG,
                vers: YPVERS,
                procedure: MATCH,
            },
            &ReqKey { domain, map, key },
            &MatchResult,
        )
    }

    /// FIRST: the first row of a map.
    pub fn first(&mut self, domain: &[u8], map: &[u8]) -> Result<Row<'_>, ClientFault>
        requires domain { length domain.now ≤ name_max }
        requires map { length map.now ≤ name_max }
        ensures* calls { sem 𝓛 (ClientRests S.row K.row S.Source K.Sink self.entry (λ last.
            Calls reply_max (first_call domain.now map.now) (SaysRow row_of) result
            (state_of S.Source K.Sink self.old) (state_of S.Source K.Sink last))) }
    {
        self.lend_row(
            RemoteProcedure {
                prog: YPPROG,
                vers: YPVERS,
                procedure: FIRST,
            },
            &ReqNokey { domain, map },
        )
    }

    /// NEXT: the row behind that of a key.
    pub fn next(&mut self, domain: &[u8], map: &[u8], key: &[u8]) -> Result<Row<'_>, ClientFault>
        requires domain { length domain.now ≤ name_max }
        requires map { length map.now ≤ name_max }
        requires key { length key.now ≤ key_max }
        ensures* calls { sem 𝓛 (ClientRests S.row K.row S.Source K.Sink self.entry (λ last.
            Calls reply_max (next_call domain.now map.now key.now) (SaysRow row_of) result
            (state_of S.Source K.Sink self.old) (state_of S.Source K.Sink last))) }
    {
        self.lend_row(
            RemoteProcedure {
                prog: YPPROG,
                vers: YPVERS,
                procedure: NEXT,
            },
            &ReqKey { domain, map, key },
        )
    }

    /// MASTER: the name of the map's master.
    pub fn master(&mut self, domain: &[u8], map: &[u8]) -> Result<&[u8], ClientFault>
        requires domain { length domain.now ≤ name_max }
        requires map { length map.now ≤ name_max }
        ensures* calls { sem 𝓛 (ClientRests S.row K.row S.Source K.Sink self.entry (λ last.
            Calls reply_max (master_call domain.now map.now) (SaysBytes master_of) result
            (state_of S.Source K.Sink self.old) (state_of S.Source K.Sink last))) }
    {
        self.lend(
            RemoteProcedure {
                prog: YPPROG,
                vers: YPVERS,
                procedure: MASTER,
            },
            &ReqNokey { domain, map },
            &MasterResult,
        )
    }

    /// ORDER: the order number of a map.
    pub fn order(&mut self, domain: &[u8], map: &[u8]) -> Result<Order, ClientFault>
        requires domain { length domain.now ≤ name_max }
        requires map { length map.now ≤ name_max }
        ensures { Calls reply_max (order_call domain.now map.now) (SaysNumber order_of) result
            (state_of S.Source K.Sink self.old) (state_of S.Source K.Sink self.new) }
    {
        self.call(
            RemoteProcedure {
                prog: YPPROG,
                vers: YPVERS,
                procedure: ORDER,
            },
            &ReqNokey { domain, map },
            &OrderResult,
        )
    }

    /// MAPLIST: the maps of a domain.
    pub fn maplist(&mut self, domain: &[u8]) -> Result<MapList, ClientFault>
        requires { length domain.now ≤ name_max }
        ensures { Calls reply_max (maplist_call domain.now) (SaysNames maps_of) result
            (state_of S.Source K.Sink self.old) (state_of S.Source K.Sink self.new) }
    {
        self.call(
            RemoteProcedure {
                prog: YPPROG,
                vers: YPVERS,
                procedure: MAPLIST,
            },
            &ReqDomain { domain },
            &MaplistResult,
        )
    }

    /// CLEAR: has the server close its maps.
    pub fn clear(&mut self) -> Result<(), ClientFault>
        ensures { Calls reply_max (clear_call) (SaysNothing nothing_of) result
            (state_of S.Source K.Sink self.old) (state_of S.Source K.Sink self.new) }
    {
        self.call(
            RemoteProcedure {
                prog: YPPROG,
                vers: YPVERS,
                procedure: CLEAR,
            },
            &NoArguments,
            &NullResult,
        )
    }

    /// XFR: has the server fetch a map.
    pub fn xfr(&mut self, request: &ReqXfr<'_>) -> Result<XfrStat, ClientFault>
        requires { ReqXfrIsWithin request.now }
        ensures { Calls reply_max (xfr_call (req_xfr_view request.now)) (SaysStat taken_of) result
            (state_of S.Source K.Sink self.old) (state_of S.Source K.Sink self.new) }
    {
        self.call(
            RemoteProcedure {
                prog: YPPROG,
                vers: YPVERS,
                procedure: XFR,
            },
            request,
            &XfrResult,
        )
    }

    /// MAKE of the make program: has the server make a map anew, by the number of its kind.
    pub fn make(&mut self, domain: &[u8], kind: u32) -> Result<XfrStat, ClientFault>
        requires { length domain.now ≤ name_max }
        ensures { Calls reply_max (make_call domain.now kind) (SaysStat made_of) result
            (state_of S.Source K.Sink self.old) (state_of S.Source K.Sink self.new) }
    {
        self.call(
            RemoteProcedure {
                prog: MAKEPROG,
                vers: MAKEVERS,
                procedure: MAKE,
            },
            &ReqMake { domain, kind },
            &MakeResult,
        )
    }

    /// MAKE_NAMED of the make program: has the server make a map anew, by its name.
    pub fn make_named(&mut self, domain: &[u8], map: &[u8]) -> Result<XfrStat, ClientFault>
        requires domain { length domain.now ≤ name_max }
        requires map { length map.now ≤ name_max }
        ensures { Calls reply_max (make_named_call domain.now map.now) (SaysStat made_of) result
            (state_of S.Source K.Sink self.old) (state_of S.Source K.Sink self.new) }
    {
        self.call(
            RemoteProcedure {
                prog: MAKEPROG,
                vers: MAKEVERS,
                procedure: MAKE_NAMED,
            },
            &ReqNokey { domain, map },
            &MakeResult,
        )
    }
}
