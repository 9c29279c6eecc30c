//! Calls of a client, with what they answer where the wire gives the reply of a server.

ghost use Rattle.std.specs.Prelude.{◌≤◌, ℕ, List, ◌++◌, length, Ok};
ghost use Rattle.std.specs.Borrow.{sem};
ghost use Rattle.yp_io.specs.declared.stream.Peer.{Peer as Caller};
ghost use Rattle.yp_io.specs.Counts.{HasRisen};
ghost use Rattle.yp_rpc.specs.inside.Laws.{IsWord};
ghost use Rattle.yp_messages.specs.Numbers.{name_max, key_max};
ghost use Rattle.yp_messages.specs.declared.transfer.XfrStat.{XfrStat};
ghost use Rattle.yp_board.specs.Catalogues.{Catalogue, serves};
ghost use Rattle.yp_board.specs.Logs.{Log};
ghost use Rattle.yp_client.specs.Questions.{bytes_of};
ghost use Rattle.yp_client.specs.inside.Questions.{QuestionIsWithin};
ghost use Rattle.yp_client.specs.query.Complete.{HasCome};
ghost use Rattle.yp_client.specs.inside.query.Complete.{QueryIsAnswered};
ghost use Rattle.yp_answer.specs.Maps.{Maps, row_check};
ghost use Rattle.yp_answer.specs.Served.{AreServed, maps_on};
ghost use Rattle.yp_client.specs.Limits.{reply_max, all_max};
ghost use Rattle.yp_client.specs.inside.States.{state_of};
ghost use Rattle.yp_client.specs.inside.Lent.{ClientRests};
ghost use Rattle.yp_client.specs.Asked.{match_call, first_call, next_call, all_call};
ghost use Rattle.yp_client.specs.inside.Asked.{domain_call};
ghost use Rattle.yp_client.specs.Asked.{master_call, order_call, maplist_call};
ghost use Rattle.yp_end_to_end.specs.exchange.Told.{told, rows_tell, map_tells, value_in};
ghost use Rattle.yp_end_to_end.specs.inside.exchange.Told.{first_in, next_in};
ghost use Rattle.yp_end_to_end.specs.exchange.Told.{master_in, order_in, names_in};
ghost use Rattle.yp_end_to_end.specs.inside.exchange.Told.{all_told};
ghost use Rattle.yp_end_to_end.specs.inside.exchange.Served.{DraftHasRoom};
ghost use Rattle.yp_end_to_end.specs.inside.exchange.CallLaws.{AnswersAsTold, AnswersInMemory, AllAnswersAsTold};
ghost use Rattle.yp_end_to_end.specs.inside.exchange.CallLaws.{GivesNextReply};
ghost use Rattle.yp_end_to_end.specs.inside.exchange.MemberLaws.{MembershipIsTold};
ghost use Rattle.yp_end_to_end.specs.exchange.Answered.{text_told, PrintsTold};
ghost use Rattle.yp_end_to_end.specs.inside.exchange.Answered.{GivesReplies, HasText};
ghost use Rattle.yp_end_to_end.specs.exchange.Runs.{sent_all, calls_made, query_of, PrintsOnLogs};
ghost use Rattle.yp_end_to_end.specs.inside.exchange.Runs.{RepliesInTurn};

use std::alloc::Global;
use std::random::RandomSource;
use yp_client::query::QueryFault;
use yp_client::{Client, ClientFault, Question, Row};
use yp_end_to_end::exchange::laws;
use yp_io::{Dial, Peer, Sink, Source};
use yp_messages::MapList;
use yp_version::{Order, VersionBuilder};

/// DOMAIN: whether it is served.
pub fn domain<S: Source, K: Sink>(
    client: &mut Client<S, K>,
    domain: &[u8],
) -> Result<bool, ClientFault>
    requires { length domain.now ≤ name_max }
    ensures { (maps : Maps) (peer : Caller) (rest : List ℕ) → AreServed maps → IsWord client.old.xid
        → GivesNextReply maps peer reply_max (domain_call domain.now) rest
        (state_of S.Source K.Sink client.old)
        → AnswersAsTold (λ value. value) (Ok (serves domain.now maps.catalogue)) rest result
        (state_of S.Source K.Sink client.new) }
{
    laws::domain_tells();
    laws::answers_are_told();
    client.domain(domain)
}

/// MATCH: the value of the key.
pub fn match_key<'a, S: Source, K: Sink>(
    client: &'a mut Client<S, K>,
    domain: &[u8],
    map: &[u8],
    key: &[u8],
) -> Result<&'a [u8], ClientFault>
    requires domain { length domain.now ≤ name_max }
    requires map { length map.now ≤ name_max }
    requires key { length key.now ≤ key_max }
    ensures* { sem 𝓛 (ClientRests S.row K.row S.Source K.Sink client.entry (λ last.
        (maps : Maps) (peer : Caller) (rest : List ℕ) → AreServed maps → IsWord client.old.xid
        → GivesNextReply maps peer reply_max (match_call domain.now map.now key.now) rest
        (state_of S.Source K.Sink client.old)
        → AnswersAsTold (λ bytes. bytes.now) (rows_tell (value_in key.now) maps peer domain.now map.now)
        rest result
        (state_of S.Source K.Sink last))) }
{
    laws::match_tells();
    laws::answers_are_told();
    client.match_key(domain, map, key)
}

/// FIRST: the first row.
pub fn first<'a, S: Source, K: Sink>(
    client: &'a mut Client<S, K>,
    domain: &[u8],
    map: &[u8],
) -> Result<Row<'a>, ClientFault>
    requires domain { length domain.now ≤ name_max }
    requires map { length map.now ≤ name_max }
    ensures* { sem 𝓛 (ClientRests S.row K.row S.Source K.Sink client.entry (λ last.
        (maps : Maps) (peer : Caller) (rest : List ℕ) → AreServed maps → IsWord client.old.xid
        → GivesNextReply maps peer reply_max (first_call domain.now map.now) rest
        (state_of S.Source K.Sink client.old)
        → AnswersAsTold (λ row. (row.value.now, row.key.now))
        (rows_tell first_in maps peer domain.now map.now) rest result
        (state_of S.Source K.Sink last))) }
{
    laws::first_tells();
    laws::answers_are_told();
    client.first(domain, map)
}

/// NEXT: the row behind the one with the key.
pub fn next<'a, S: Source, K: Sink>(
    client: &'a mut Client<S, K>,
    domain: &[u8],
    map: &[u8],
    key: &[u8],
) -> Result<Row<'a>, ClientFault>
    requires domain { length domain.now ≤ name_max }
    requires map { length map.now ≤ name_max }
    requires key { length key.now ≤ key_max }
    ensures* { sem 𝓛 (ClientRests S.row K.row S.Source K.Sink client.entry (λ last.
        (maps : Maps) (peer : Caller) (rest : List ℕ) → AreServed maps → IsWord client.old.xid
        → GivesNextReply maps peer reply_max (next_call domain.now map.now key.now) rest
        (state_of S.Source K.Sink client.old)
        → AnswersAsTold (λ row. (row.value.now, row.key.now))
        (rows_tell (next_in key.now) maps peer domain.now map.now) rest result
        (state_of S.Source K.Sink last))) }
{
    laws::next_tells();
    laws::answers_are_told();
    client.next(domain, map, key)
}

/// MASTER: the name of the master.
pub fn master<'a, S: Source, K: Sink>(
    client: &'a mut Client<S, K>,
    domain: &[u8],
    map: &[u8],
) -> Result<&'a [u8], ClientFault>
    requires domain { length domain.now ≤ name_max }
    requires map { length map.now ≤ name_max }
    ensures* { sem 𝓛 (ClientRests S.row K.row S.Source K.Sink client.entry (λ last.
        (maps : Maps) (peer : Caller) (rest : List ℕ) → AreServed maps → IsWord client.old.xid
        → GivesNextReply maps peer reply_max (master_call domain.now map.now) rest
        (state_of S.Source K.Sink client.old)
        → AnswersAsTold (λ bytes. bytes.now) (map_tells master_in maps domain.now map.now) rest result
        (state_of S.Source K.Sink last))) }
{
    laws::master_tells();
    laws::answers_are_told();
    client.master(domain, map)
}

/// ORDER: the order.
pub fn order<S: Source, K: Sink>(
    client: &mut Client<S, K>,
    domain: &[u8],
    map: &[u8],
) -> Result<Order, ClientFault>
    requires domain { length domain.now ≤ name_max }
    requires map { length map.now ≤ name_max }
    ensures { (maps : Maps) (peer : Caller) (rest : List ℕ) → AreServed maps → IsWord client.old.xid
        → GivesNextReply maps peer reply_max (order_call domain.now map.now) rest
        (state_of S.Source K.Sink client.old)
        → AnswersAsTold (λ value. value) (map_tells order_in maps domain.now map.now) rest result
        (state_of S.Source K.Sink client.new) }
{
    laws::order_tells();
    laws::answers_are_told();
    client.order(domain, map)
}

/// MAPLIST: the names of the domain's maps.
pub fn maplist<S: Source, K: Sink>(
    client: &mut Client<S, K>,
    domain: &[u8],
) -> Result<MapList, ClientFault>
    requires { length domain.now ≤ name_max }
    ensures { (maps : Maps) (peer : Caller) (rest : List ℕ) → AreServed maps → IsWord client.old.xid
        → GivesNextReply maps peer reply_max (maplist_call domain.now) rest
        (state_of S.Source K.Sink client.old)
        → AnswersInMemory (λ list. list.maps) (told (names_in maps domain.now)) rest result
        (state_of S.Source K.Sink client.new) }
{
    laws::maplist_tells();
    laws::answers_are_told();
    client.maplist(domain)
}

/// ALL: all rows, onto a builder that has room for them.
pub fn all<S: Source, K: Sink>(
    client: &mut Client<S, K>,
    domain: &[u8],
    map: &[u8],
    into: &mut VersionBuilder,
) -> Result<(), ClientFault>
    requires domain { length domain.now ≤ name_max }
    requires map { length map.now ≤ name_max }
    ensures { (maps : Maps) (peer : Caller) (rest : List ℕ) → AreServed maps → IsWord client.old.xid
        → DraftHasRoom into.old (row_check maps peer.port domain.now map.now)
        → GivesNextReply maps peer all_max (all_call domain.now map.now) rest
        (state_of S.Source K.Sink client.old)
        → AllAnswersAsTold (all_told into.old (row_check maps peer.port domain.now map.now))
        rest into.new result
        (state_of S.Source K.Sink client.new) }
{
    laws::all_tells();
    laws::answers_are_told();
    client.all(domain, map, into)
}

/// Who is told to be a member is one, by the version of the groups that is shown.
pub fn members_told()
    ensures { MembershipIsTold }
{
    laws::membership_is_told();
}

/// A question prints what the maps tell, where the peer that was dialed gave a server's replies, and where a server
/// answered its calls in turn.
pub fn query_told<A: Dial, K: Sink>(
    alloc: Global,
    rt: &impl RandomSource,
    dial: &mut A,
    to: Peer,
    question: &Question<Vec<u8>>,
    sink: &mut K,
) -> Result<(), QueryFault>
    requires { QuestionIsWithin (bytes_of question.now) }
    ensures told { (first second : Maps) (caller : Caller) (made : XfrStat) (stream : List ℕ)
        → AreServed first → AreServed second
        → GivesReplies first second caller made (bytes_of question.now) stream
        → HasCome to stream (A.past dial.old) (A.past dial.new)
        → PrintsTold (bytes_of question.now) (text_told first second caller made (bytes_of question.now)) result
        (K.output sink.old) (K.output sink.new) }
    ensures run { (catalogue : Catalogue) (caller : Caller) (replies : List (List ℕ)) (rest : List ℕ)
        (before after : Log)
        → AreServed (maps_on catalogue after)
        → RepliesInTurn catalogue caller (calls_made (bytes_of question.now) replies) replies before after
        → HasCome to (sent_all replies ++ rest) (A.past dial.old) (A.past dial.new)
        → PrintsOnLogs (query_of catalogue caller (bytes_of question.now)) before after result
        (K.output sink.old) (K.output sink.new) }
    ensures answered { (first second : Maps) (caller : Caller) (made : XfrStat) (stream : List ℕ)
        → AreServed first → AreServed second → GivesReplies first second caller made (bytes_of question.now) stream
        → HasText (text_told first second caller made (bytes_of question.now))
        → HasCome to stream (A.past dial.old) (A.past dial.new)
        → ¬ HasRisen (A.faults dial.old) (A.faults dial.new) → ¬ HasRisen (K.faults sink.old) (K.faults sink.new)
        → QueryIsAnswered result }
{
    laws::query_prints_told();
    laws::run_is_printed();
    laws::told_is_answered();
    yp_client::query::query(alloc, rt, dial, to, question, sink)
}
