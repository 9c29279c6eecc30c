//! What a call asked for that has a map made or fetched, and the status that it was answered.

ghost use Rattle.std.specs.Prelude.{◌≡◌, option_map};
ghost use Rattle.yp_messages.specs.Transfers.{xfr_number};
ghost use Rattle.yp_answer.specs.inside.Outcomes.{results_in, make_stat_in, xfr_stat_in, outcome_in, outcome_of};
ghost use Rattle.yp_answer.specs.inside.Outcomes.{number_at, may_have_outcome, outcome_view};

use crate::arguments::read_arguments;
use crate::make::map_numbered;
use crate::procedure::{Path, Procedure};
use yp_messages::protocol::{MAKEPROG, XFR, YPPROG};
use yp_messages::{ReqMake, ReqNokey, ReqXfr, RespMake, RespXfr, XfrStat};
use yp_rpc::{Judged, ReplyHead, judge, read_reply};
use yp_xdr::Cursor;

/// A call that has a map made or fetched: what it asked for, whatever that is, and the status that it was answered.
#[derive(Clone, Copy)]
pub struct Outcome<'a> {
    /// Whether it asked for a map to be made, or to be fetched.
    pub is_make: bool,
    pub domain: &'a [u8],
    /// The name of the map. A call by a number that no kind has names none.
    pub map: Option<&'a [u8]>,
    pub stat: XfrStat,
}

/// The places of the numbers of the program and of the procedure in a call, in bytes (RFC 5531 section 9).
const PROGRAM_AT: usize = 12;

const PROCEDURE_AT: usize = 20;

/// The number that stands at a place of a message.
#[tactic(auto, unfolding(yp_xdr::specs::Reading::word_at))]
fn number_at(message: &[u8], place: usize) -> Option<u32>
    ensures { result ≡ number_at place message.now }
{
    if message.len() < place {
        return None;
    }
    Cursor::new(&message[place..]).u32().ok()
}

/// Whether a message can be such a call, by the numbers of its program and its procedure alone.
fn may_have_outcome(message: &[u8]) -> bool
    ensures { result ≡ may_have_outcome message.now }
{
    match number_at(message, PROGRAM_AT) {
        Some(MAKEPROG) => true,
        Some(YPPROG) => matches!(number_at(message, PROCEDURE_AT), Some(XFR)),
        _ => false,
    }
}

/// The results of a reply. A refusal by RPC has none.
fn results_in(reply: &[u8]) -> Option<&[u8]>
    ensures { option_map (λ results. results.now) result ≡ results_in reply.now }
{
    let read = read_reply(reply).ok()?;
    match read.head {
        ReplyHead::Success => Some(&reply[read.body..]),
        _ => None,
    }
}

/// The status in a reply of the make program.
fn make_stat_in(reply: &[u8]) -> Option<XfrStat>
    ensures { option_map xfr_number result ≡ make_stat_in reply.now }
{
    let given: RespMake = read_arguments(results_in(reply)?).ok()?;
    Some(given.stat)
}

/// The status in a reply of XFR.
fn xfr_stat_in(reply: &[u8]) -> Option<XfrStat>
    ensures { option_map xfr_number result ≡ xfr_stat_in reply.now }
{
    let given: RespXfr = read_arguments(results_in(reply)?).ok()?;
    Some(given.xfrstat)
}

/// What a procedure was asked for by its arguments, and the status in its reply.
fn outcome_in<'a>(procedure: Procedure, arguments: &'a [u8], reply: &[u8]) -> Option<Outcome<'a>>
    ensures { option_map outcome_view result ≡ outcome_in procedure arguments.now reply.now }
{
    match procedure {
        Procedure::Make => {
            let asked: ReqMake<'_> = read_arguments(arguments).ok()?;
            Some(Outcome {
                is_make: true,
                domain: asked.domain,
                map: map_numbered(asked.kind),
                stat: make_stat_in(reply)?,
            })
        }
        Procedure::MakeNamed => {
            let asked: ReqNokey<'_> = read_arguments(arguments).ok()?;
            Some(Outcome {
                is_make: true,
                domain: asked.domain,
                map: Some(asked.map),
                stat: make_stat_in(reply)?,
            })
        }
        Procedure::Xfr => {
            let asked: ReqXfr<'_> = read_arguments(arguments).ok()?;
            Some(Outcome {
                is_make: false,
                domain: asked.domain,
                map: Some(asked.map),
                stat: xfr_stat_in(reply)?,
            })
        }
        _ => None,
    }
}

/// What a call asked for, and the status in its reply, where it has a map made or fetched. Such procedures are the same
/// on each path.
pub fn outcome_of<'a>(message: &'a [u8], reply: &[u8]) -> Option<Outcome<'a>>
    ensures { option_map outcome_view result ≡ outcome_of message.now reply.now }
{
    if !may_have_outcome(message) {
        return None;
    }
    match judge(&Path::Stream, message) {
        Judged::Admitted { call, procedure } => {
            outcome_in(procedure, &message[call.body..], reply)
        }
        _ => None,
    }
}
