//! What joins the replies of a server with what a client reads of them. Each law is the contract of a function that
//! does nothing.

ghost use Rattle.yp_end_to_end.specs.inside.exchange.Laws.{DomainTells, MatchTells, FirstTells, NextTells, AllTells};
ghost use Rattle.yp_end_to_end.specs.inside.exchange.Laws.{RoomForVersion, MasterTells, OrderTells, MaplistTells};
ghost use Rattle.yp_end_to_end.specs.inside.exchange.Laws.{PullTells, MakeHasResponse, MakeTells};
ghost use Rattle.yp_end_to_end.specs.inside.exchange.Mail.{OrderMailTells, MasterMailTells, FirstMailTells};
ghost use Rattle.yp_end_to_end.specs.inside.exchange.Mail.{NextMailTells};
ghost use Rattle.yp_end_to_end.specs.inside.exchange.CallLaws.{NumberIsTold, TruthIsTold, BytesAreTold, RowIsTold};
ghost use Rattle.yp_end_to_end.specs.inside.exchange.CallLaws.{NamesAreTold, RowsAreTold};
ghost use Rattle.yp_end_to_end.specs.inside.exchange.QueryLaws.{CallsAreTold, QueryPrintsTold, RunIsPrinted};
ghost use Rattle.yp_end_to_end.specs.inside.exchange.QueryLaws.{ToldIsAnswered};
ghost use Rattle.yp_end_to_end.specs.inside.exchange.RunLaws.{DomainHasReply, MatchHasReply, FirstHasReply};
ghost use Rattle.yp_end_to_end.specs.inside.exchange.RunLaws.{NextHasReply};
ghost use Rattle.yp_end_to_end.specs.inside.exchange.RunLaws.{AllHasReply, MasterHasReply, OrderHasReply};
ghost use Rattle.yp_end_to_end.specs.inside.exchange.RunLaws.{MaplistHasReply, PullHasReply};
ghost use Rattle.yp_end_to_end.specs.inside.exchange.RunLaws.{RunIsInTurn, RunIsOnLogs, LogRunIsPrinted};
ghost use Rattle.yp_end_to_end.specs.inside.exchange.SentLaws.{SentIsWhole};
ghost use Rattle.yp_end_to_end.specs.inside.exchange.MemberLaws.{MembershipIsTold};

use yp_netgroup::laws::membership_is_decided;
use yp_rpc::laws::{call_is_heard_again, first_is_one, rest_is_not_whole};
use yp_version::laws::{rising_is_distinct, rising_stays};
use yp_xdr::laws::written_is_read_again;

/// The reply to DOMAIN says whether the domain is served.
pub fn domain_tells()
    ensures { DomainTells }
{
    written_is_read_again();
    call_is_heard_again();
}

/// The reply to MATCH says the value of the key in the version that is shown, or the status that refuses it.
pub fn match_tells()
    ensures { MatchTells }
{
    written_is_read_again();
    call_is_heard_again();
}

/// The reply to FIRST says its first row.
pub fn first_tells()
    ensures { FirstTells }
{
    written_is_read_again();
    call_is_heard_again();
}

/// The reply to NEXT says the row behind the one with the key.
pub fn next_tells()
    ensures { NextTells }
{
    written_is_read_again();
    call_is_heard_again();
}

/// The reply to MASTER says the name of its master.
pub fn master_tells()
    ensures { MasterTells }
{
    written_is_read_again();
    call_is_heard_again();
}

/// The reply to ORDER says its order.
pub fn order_tells()
    ensures { OrderTells }
{
    written_is_read_again();
    call_is_heard_again();
}

/// The reply to MAPLIST says the names of the domain's maps that have a version.
pub fn maplist_tells()
    ensures { MaplistTells }
{
    written_is_read_again();
    call_is_heard_again();
}

/// The reply to XFR says the status that refuses it, or SUCC, and then the transfer is taken.
pub fn pull_tells()
    ensures { PullTells }
{
    written_is_read_again();
    call_is_heard_again();
}

/// The make program refuses to make a map by its name with a status, or makes it first and replies with its status, and
/// the reply says that.
pub fn make_tells()
    ensures response { MakeHasResponse }
    ensures says { MakeTells }
{
    written_is_read_again();
    call_is_heard_again();
}

/// The reply to ALL says all its rows, onto a builder that has room for them.
pub fn all_tells()
    ensures { AllTells }
{
    written_is_read_again();
    call_is_heard_again();
    rising_is_distinct();
}

/// A builder without rows, whose master isn't longer than that of the version, has room for its rows.
pub fn room_for_version()
    ensures { RoomForVersion }
{}

/// In datagrams the replies to ORDER, MASTER, FIRST and NEXT say the same, but that a row that a datagram can't carry
/// is refused with YPERR. Each fits into a datagram, and begins with the number of its call.
pub fn mail_tells()
    ensures order { OrderMailTells }
    ensures master { MasterMailTells }
    ensures first { FirstMailTells }
    ensures next { NextMailTells }
{
    written_is_read_again();
    call_is_heard_again();
}

/// Over a wire that gives a server's reply, a call of a client answers what is told: a number, whether, bytes, a row,
/// names, or the rows of a builder. Names and rows alone may want memory.
pub fn answers_are_told()
    ensures number { NumberIsTold }
    ensures truth { TruthIsTold }
    ensures bytes { BytesAreTold }
    ensures row { RowIsTold }
    ensures names { NamesAreTold }
    ensures rows { RowsAreTold }
{
    first_is_one();
    rest_is_not_whole();
}

/// The calls of a question over a wire that gives a server's replies come to the text of what its maps tell.
pub fn calls_are_told()
    ensures { CallsAreTold }
{
    match_tells();
    all_tells();
    room_for_version();
    master_tells();
    order_tells();
    maplist_tells();
    pull_tells();
    make_tells();
    rising_stays();
    first_is_one();
    rest_is_not_whole();
}

/// A question prints what the maps of the dialed server tell, where the wire gives its replies to the calls.
pub fn query_prints_told()
    ensures { QueryPrintsTold }
{
    calls_are_told();
}

/// And where that wire gives what a server sent for the calls of the question in turn, on a log that grows.
pub fn run_is_printed()
    ensures { RunIsPrinted }
{
    query_prints_told();
    match_tells();
    all_tells();
    room_for_version();
    master_tells();
    order_tells();
    maplist_tells();
    pull_tells();
    make_tells();
}

/// Each call of a client that asks for what the maps have gets one reply of a server, at once: it isn't met by silence,
/// and makes no map first. XFR alone may have a transfer taken behind the reply.
pub fn calls_have_replies()
    ensures domain { DomainHasReply }
    ensures value { MatchHasReply }
    ensures first { FirstHasReply }
    ensures next { NextHasReply }
    ensures all { AllHasReply }
    ensures master { MasterHasReply }
    ensures order { OrderHasReply }
    ensures names { MaplistHasReply }
    ensures pull { PullHasReply }
{
    domain_tells();
    match_tells();
    first_tells();
    next_tells();
    all_tells();
    room_for_version();
    master_tells();
    order_tells();
    maplist_tells();
    pull_tells();
}

/// A run on logs over records that get replies answered them in turn, on the states of fronts of one log, each
/// of which begins with the one before.
pub fn run_is_in_turn()
    ensures { RunIsInTurn }
{}

/// The replies of a run are those to its records in turn, on the logs on which these were answered.
pub fn run_is_on_logs()
    ensures { RunIsOnLogs }
{}

/// So a question prints the state of a server's maps, where the wire of the peer that was dialed gives what that server
/// sent in a run over the calls of the question.
pub fn log_run_is_printed()
    ensures { LogRunIsPrinted }
{
    calls_have_replies();
    make_tells();
    run_is_in_turn();
    run_is_printed();
}

/// Where the maps tell a text, or that there is no such key, or that no map is fetched or made, a server's replies
/// answer the calls of a question.
pub fn told_is_answered()
    ensures { ToldIsAnswered }
{
    match_tells();
    all_tells();
    room_for_version();
    master_tells();
    order_tells();
    maplist_tells();
    pull_tells();
    make_tells();
}

/// Of a member of a group a question is told yes, and of others no, by one version of the groups.
pub fn membership_is_told()
    ensures { MembershipIsTold }
{
    membership_is_decided();
}

/// What is sent of a reply within a limit is that reply in fragments.
pub fn sent_is_whole()
    ensures { SentIsWhole }
{}
