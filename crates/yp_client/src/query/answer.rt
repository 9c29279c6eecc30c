//! What the calls of a question come to.

ghost use Rattle.std.specs.Prelude.{◌≡◌, ◌≤◌, List, length, option_map, IfOk};
ghost use Rattle.yp_version.specs.Rows.{Row};
ghost use Rattle.yp_netgroup.specs.inside.Who.{lent, asked_of};
ghost use Rattle.yp_messages.specs.Numbers.{name_max, key_max};
ghost use Rattle.yp_client.specs.Results.{value_of, master_of, maps_of, taken_of, made_of};
ghost use Rattle.yp_client.specs.Said.{SaysBytes, SaysNames, SaysStat};
ghost use Rattle.yp_client.specs.Asked.{match_call, master_call, maplist_call, pull_call, make_named_call};
ghost use Rattle.yp_client.specs.inside.States.{state_of};
ghost use Rattle.yp_client.specs.query.Lines.{line, lines};
ghost use Rattle.yp_client.specs.Questions.{bytes_of};
ghost use Rattle.yp_client.specs.inside.Questions.{QuestionIsWithin};
ghost use Rattle.yp_client.specs.query.Faults.{query_fault, match_fault};
ghost use Rattle.yp_client.specs.query.Asked.{QueryOutcome, meant_by, CallIsMade, TakesRows, Polls, IsUnlessMemory};
ghost use Rattle.yp_client.specs.query.Asked.{Converses, rows_told, membership_told, netgroup};
ghost use Rattle.yp_client.specs.query.Asked.{told_by, transfer_told, making_told};
ghost use Rattle.yp_client.specs.Limits.{reply_max};
ghost use Rattle.yp_client.specs.inside.query.Answers.{outcome_of, version_outcome};

use crate::query::fault::{QueryFault, of_match};
use crate::query::status::{made_text, status_text};
use crate::{Client, Question};
use std::alloc::Global;
use std::random::RandomSource;
use yp_io::{NoMemory, Sink, Source};
use yp_messages::{Names, ReqXfr, XfrStat};
use yp_netgroup::laws::membership_is_decided;
use yp_netgroup::{Who, innetgr};
use yp_version::{Order, Version, VersionBuilder};

/// The whole answer to a question.
#[derive(Drop)]
pub enum Answer {
    /// The rows of a version, with their keys or without.
    Rows { version: Version, keyed: bool },
    /// A value, a name, the status of a transfer, or that a map was made.
    Line(Vec<u8>),
    /// The order and the master of a map.
    Standing { order: Order, master: Vec<u8> },
    /// The names of maps.
    Maps(Names),
    /// Whether somebody is a member of a group.
    Membership(bool),
}

/// The map of the groups (netgroup(5)).
const NETGROUP: &[u8] = b"netgroup";

/// The bytes that a client lends, as the caller's own.
pub(crate) fn copied(alloc: Global, bytes: &[u8]) -> Result<Vec<u8>, NoMemory>
    ensures { IfOk result (λ copy. copy.items ≡ bytes.now) }
{
    Vec::from_slice(alloc, bytes).map_err(|_| NoMemory)
}

/// Makes the calls of a question.
pub fn ask<S: Source, K: Sink>(
    alloc: Global,
    rt: &impl RandomSource,
    client: &mut Client<S, K>,
    question: &Question<Vec<u8>>,
) -> Result<Answer, QueryFault>
    requires { QuestionIsWithin (bytes_of question.now) }
    ensures { Converses (bytes_of question.now) (outcome_of result)
        (state_of S.Source K.Sink client.old) (state_of S.Source K.Sink client.new) }
{
    match question {
        Question::Cat { domain, map } => ask_listed(alloc, rt, client, domain, map, false),
        Question::Catk { domain, map } => ask_listed(alloc, rt, client, domain, map, true),
        Question::Match { domain, map, key } => ask_value(alloc, client, domain, map, key),
        Question::Which { domain, map } => ask_master(alloc, client, domain, map),
        Question::Poll { domain, map } => ask_standing(alloc, client, domain, map),
        Question::Maps { domain } => ask_maps(client, domain),
        Question::Pull {
            domain,
            map,
            source,
        } => ask_transfer(alloc, client, domain, map, source),
        Question::Make { domain, map } => ask_making(alloc, client, domain, map),
        Question::Innetgr {
            domain,
            group,
            host,
            user,
            user_domain,
        } => {
            let who = Who {
                host: lent(host),
                user: lent(user),
                domain: lent(user_domain),
            };
            ask_membership(alloc, rt, client, domain, group, &who)
        }
    }
}

/// What is given, if it is.
fn lent(given: &Option<Vec<u8>>) -> Option<&[u8]>
    ensures { lent result ≡ option_map (λ bytes. bytes.items) given.now }
{
    match given {
        Some(bytes) => Some(bytes.as_slice()),
        None => None,
    }
}

/// ALL of a map, onto a builder of order 0 without a master. What is meant by its rows is for the caller to say.
fn take_rows<S: Source, K: Sink>(
    alloc: Global,
    rt: &impl RandomSource,
    client: &mut Client<S, K>,
    domain: &[u8],
    map: &[u8],
) -> Result<Version, QueryFault>
    requires domain { length domain.now ≤ name_max }
    requires map { length map.now ≤ name_max }
    ensures { (means : List Row → QueryOutcome) → IsUnlessMemory (TakesRows means domain.now map.now)
        (version_outcome means result) (state_of S.Source K.Sink client.old) (state_of S.Source K.Sink client.new) }
{
    let mut builder = match VersionBuilder::new(alloc, rt, Order(0), b"") {
        Ok(builder) => builder,
        Err(NoMemory) => return Err(QueryFault::NoMemory),
    };
    match client.all(domain, map, &mut builder) {
        Ok(()) => {}
        Err(fault) => return Err(fault.into()),
    }
    match builder.finish() {
        Ok(version) => Ok(version),
        Err(NoMemory) => Err(QueryFault::NoMemory),
    }
}

fn ask_listed<S: Source, K: Sink>(
    alloc: Global,
    rt: &impl RandomSource,
    client: &mut Client<S, K>,
    domain: &[u8],
    map: &[u8],
    keyed: bool,
) -> Result<Answer, QueryFault>
    requires domain { length domain.now ≤ name_max }
    requires map { length map.now ≤ name_max }
    ensures { IsUnlessMemory (TakesRows (rows_told keyed) domain.now map.now) (outcome_of result)
        (state_of S.Source K.Sink client.old) (state_of S.Source K.Sink client.new) }
{
    match take_rows(alloc, rt, client, domain, map) {
        Ok(version) => Ok(Answer::Rows { version, keyed }),
        Err(fault) => Err(fault),
    }
}

/// The groups are read once, as one version, and who is asked for is looked for in it.
fn ask_membership<S: Source, K: Sink>(
    alloc: Global,
    rt: &impl RandomSource,
    client: &mut Client<S, K>,
    domain: &[u8],
    group: &[u8],
    who: &Who<'_>,
) -> Result<Answer, QueryFault>
    requires { length domain.now ≤ name_max }
    ensures { IsUnlessMemory (TakesRows (membership_told group.now (asked_of who.entry.now)) domain.now netgroup)
        (outcome_of result) (state_of S.Source K.Sink client.old) (state_of S.Source K.Sink client.new) }
{
    membership_is_decided();
    let version = match take_rows(alloc, rt, client, domain, NETGROUP) {
        Ok(version) => version,
        Err(fault) => return Err(fault),
    };
    match innetgr(alloc, rt, &version, group, who) {
        Ok(true) => Ok(Answer::Membership(true)),
        Ok(false) => Err(QueryFault::NotMember),
        Err(NoMemory) => Err(QueryFault::NoMemory),
    }
}

fn ask_value<S: Source, K: Sink>(
    alloc: Global,
    client: &mut Client<S, K>,
    domain: &[u8],
    map: &[u8],
    key: &[u8],
) -> Result<Answer, QueryFault>
    requires domain { length domain.now ≤ name_max }
    requires map { length map.now ≤ name_max }
    requires key { length key.now ≤ key_max }
    ensures { CallIsMade reply_max (match_call domain.now map.now key.now) (SaysBytes value_of)
        (meant_by match_fault (λ value. line value.now)) (outcome_of result)
        (state_of S.Source K.Sink client.old) (state_of S.Source K.Sink client.new) }
{
    match client.match_key(domain, map, key) {
        Ok(value) => Ok(Answer::Line(copied(alloc, value)?)),
        Err(fault) => Err(of_match(fault)),
    }
}

fn ask_master<S: Source, K: Sink>(
    alloc: Global,
    client: &mut Client<S, K>,
    domain: &[u8],
    map: &[u8],
) -> Result<Answer, QueryFault>
    requires domain { length domain.now ≤ name_max }
    requires map { length map.now ≤ name_max }
    ensures { CallIsMade reply_max (master_call domain.now map.now) (SaysBytes master_of)
        (meant_by query_fault (λ master. line master.now)) (outcome_of result)
        (state_of S.Source K.Sink client.old) (state_of S.Source K.Sink client.new) }
{
    match client.master(domain, map) {
        Ok(master) => Ok(Answer::Line(copied(alloc, master)?)),
        Err(fault) => Err(fault.into()),
    }
}

/// No call follows a refused one.
fn ask_standing<S: Source, K: Sink>(
    alloc: Global,
    client: &mut Client<S, K>,
    domain: &[u8],
    map: &[u8],
) -> Result<Answer, QueryFault>
    requires domain { length domain.now ≤ name_max }
    requires map { length map.now ≤ name_max }
    ensures { Polls domain.now map.now (outcome_of result)
        (state_of S.Source K.Sink client.old) (state_of S.Source K.Sink client.new) }
{
    let order = match client.order(domain, map) {
        Ok(order) => order,
        Err(fault) => return Err(fault.into()),
    };
    match client.master(domain, map) {
        Ok(master) => {
            let master = copied(alloc, master)?;
            Ok(Answer::Standing { order, master })
        }
        Err(fault) => Err(fault.into()),
    }
}

fn ask_maps<S: Source, K: Sink>(
    client: &mut Client<S, K>,
    domain: &[u8],
) -> Result<Answer, QueryFault>
    requires { length domain.now ≤ name_max }
    ensures { CallIsMade reply_max (maplist_call domain.now) (SaysNames maps_of)
        (meant_by query_fault (λ list. lines list.maps)) (outcome_of result)
        (state_of S.Source K.Sink client.old) (state_of S.Source K.Sink client.new) }
{
    match client.maplist(domain) {
        Ok(list) => Ok(Answer::Maps(list.maps)),
        Err(fault) => Err(fault.into()),
    }
}

/// Nobody is called back: transaction, program and port are 0. The server isn't told of an order that is known.
fn ask_transfer<S: Source, K: Sink>(
    alloc: Global,
    client: &mut Client<S, K>,
    domain: &[u8],
    map: &[u8],
    source: &[u8],
) -> Result<Answer, QueryFault>
    requires domain { length domain.now ≤ name_max }
    requires map { length map.now ≤ name_max }
    requires source { length source.now ≤ name_max }
    ensures { CallIsMade reply_max (pull_call domain.now map.now source.now) (SaysStat taken_of)
        (told_by query_fault (transfer_told domain.now map.now)) (outcome_of result)
        (state_of S.Source K.Sink client.old) (state_of S.Source K.Sink client.new) }
{
    let request = ReqXfr {
        domain,
        map,
        ordernum: 0,
        peer: source,
        transid: 0,
        prog: 0,
        port: 0,
    };
    match client.xfr(&request) {
        Ok(XfrStat::Succ) => Ok(Answer::Line(status_text(alloc, domain, map, XfrStat::Succ)?)),
        Ok(stat) => Err(QueryFault::NotDone(stat)),
        Err(fault) => Err(fault.into()),
    }
}

/// The reply comes when the map is made, so it is waited for as long as that takes.
fn ask_making<S: Source, K: Sink>(
    alloc: Global,
    client: &mut Client<S, K>,
    domain: &[u8],
    map: &[u8],
) -> Result<Answer, QueryFault>
    requires domain { length domain.now ≤ name_max }
    requires map { length map.now ≤ name_max }
    ensures { CallIsMade reply_max (make_named_call domain.now map.now) (SaysStat made_of)
        (told_by query_fault (making_told domain.now map.now)) (outcome_of result)
        (state_of S.Source K.Sink client.old) (state_of S.Source K.Sink client.new) }
{
    match client.make_named(domain, map) {
        Ok(XfrStat::Succ) => Ok(Answer::Line(made_text(alloc, domain, map)?)),
        Ok(stat) => Err(QueryFault::NotDone(stat)),
        Err(fault) => Err(fault.into()),
    }
}
