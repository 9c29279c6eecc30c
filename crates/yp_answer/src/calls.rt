//! The reply to one call.

ghost use Rattle.std.specs.Prelude.{◌≡◌, ◌≢◌, ◌≤◌, length, option_map, IfOk, MatchResult};
ghost use Rattle.yp_answer.specs.declared.procedure.Path.TheVariants as paths;
ghost use Rattle.yp_rpc.specs.Turns.{datagram_max};
ghost use Rattle.yp_answer.specs.Numbers.{record_max};
ghost use Rattle.yp_answer.specs.inside.Numbers.{room_of};
ghost use Rattle.yp_answer.specs.Maps.{maps_of};
ghost use Rattle.yp_answer.specs.Make.{make_check};
ghost use Rattle.yp_answer.specs.Reply.{asks, asks_for, garbage, make_response, procedure_reply};
ghost use Rattle.yp_answer.specs.Answers.{StepsWhere};
ghost use Rattle.yp_answer.specs.inside.Answers.{HasReply, IsAnswer, IsNoStream, IsProcedureAnswer, IsReadAnswer};
ghost use Rattle.yp_answer.specs.inside.Answers.{Streams};

use crate::arguments::{read_arguments, read_refreshed};
use crate::caller::{Caller, put_head};
use crate::check::row_check;
use crate::facts::{
    answer_domain, answer_domain_nonack, answer_maplist, answer_master, answer_order,
};
use crate::look_up::{answer_first, answer_match, answer_next};
use crate::make::{MakeJob, make_check, make_reply, map_numbered};
use crate::procedure::{Path, Procedure};
use crate::stream::AllStream;
use crate::transfer::{TransferJob, answer_xfr};
use yp_board::View;
use yp_io::Peer;
use yp_messages::{ReqMake, ReqNokey};
use yp_rpc::{Judged, ReplyHead, judge};
use yp_xdr::XdrFault;

/// The answer to a record.
#[derive(Drop)]
pub enum Answered<'a> {
    /// No reply goes out.
    Silent,

    /// The reply is the first `len` bytes of the buffer.
    Reply { len: usize },

    /// The reply goes out in pieces, which are taken from the view that the call was answered on.
    Stream(AllStream),

    /// The reply is the first `len` bytes of the buffer. Once it is out, the transfer is carried out.
    Transfer { len: usize, job: TransferJob<'a> },

    /// A map is made first, and then the reply has the status of that, by [`make_reply`](crate::make_reply).
    Make { xid: u32, job: MakeJob },
}

/// Answers ALL: the rows go out in pieces.
fn answer_all<V: View>(
    view: &mut V,
    caller: &Caller,
    arguments: &[u8],
) -> Result<AllStream, XdrFault>
    ensures reply { let maps = maps_of (V.seen view.new) in
        let expected = procedure_reply maps caller.now Procedure.All arguments.now in
        MatchResult result (λ stream. Streams maps expected stream) (λ _. garbage caller.now.xid ≡ expected) }
    ensures step { StepsWhere (asks_for Procedure.All arguments.now) V.stepped V.seen view.old view.new }
{
    let asked: ReqNokey<'_> = read_refreshed(view, arguments)?;
    let source = match row_check(view, caller.peer.port, asked.domain, asked.map) {
        Ok(held) => Ok(held.map),
        Err(stat) => Err(stat),
    };
    Ok(AllStream::new(caller.xid, source))
}

/// Answers a call to make a map of a domain: with the status that refuses it, or with what is to be made.
fn answer_making<'a, V: View>(
    view: &V,
    caller: &Caller,
    domain: &[u8],
    map: Option<&[u8]>,
    buf: &mut [u8],
) -> Answered<'a>
    requires { room_of caller.now.path ≤ length buf.old }
    ensures reply { let maps = maps_of (V.seen view.now) in let name = option_map (λ name. name.now) map.entry in
        HasReply maps (make_response caller.now.xid (make_check maps.catalogue caller.now.peer domain.now name))
        result buf.new }
    ensures no_stream { IsNoStream result }
{
    match make_check(view.catalog(), caller.peer, domain, map) {
        Err(stat) => Answered::Reply {
            len: make_reply(buf, caller.xid, stat),
        },
        Ok(job) => Answered::Make {
            xid: caller.xid,
            job,
        },
    }
}

/// Answers MAKE, which asks for the map of a kind.
fn answer_make<'a, V: View>(
    view: &V,
    caller: &Caller,
    arguments: &'a [u8],
    buf: &mut [u8],
) -> Result<Answered<'a>, XdrFault>
    requires { room_of caller.now.path ≤ length buf.old }
    ensures reply { IsReadAnswer (maps_of (V.seen view.now)) caller.now Procedure.Make arguments.now result buf.new }
    ensures no_stream { IfOk result IsNoStream }
{
    let asked: ReqMake<'_> = read_arguments(arguments)?;
    let map = map_numbered(asked.kind);
    Ok(answer_making(view, caller, asked.domain, map, buf))
}

/// Answers MAKE_NAMED, which asks for a map by its name.
fn answer_make_named<'a, V: View>(
    view: &V,
    caller: &Caller,
    arguments: &'a [u8],
    buf: &mut [u8],
) -> Result<Answered<'a>, XdrFault>
    requires { room_of caller.now.path ≤ length buf.old }
    ensures reply { let maps = maps_of (V.seen view.now) in
        IsReadAnswer maps caller.now Procedure.MakeNamed arguments.now result buf.new }
    ensures no_stream { IfOk result IsNoStream }
{
    let asked: ReqNokey<'_> = read_arguments(arguments)?;
    let map = Some(asked.map);
    Ok(answer_making(view, caller, asked.domain, map, buf))
}

/// Answers a call that is let to a procedure, where its arguments can be read.
fn answer_arguments<'a, V: View>(
    view: &mut V,
    caller: &Caller,
    procedure: Procedure,
    arguments: &'a [u8],
    buf: &mut [u8],
) -> Result<Answered<'a>, XdrFault>
    requires { room_of caller.now.path ≤ length buf.old }
    ensures reply { IsReadAnswer (maps_of (V.seen view.new)) caller.now procedure arguments.now result buf.new }
    ensures step { StepsWhere (asks_for procedure arguments.now) V.stepped V.seen view.old view.new }
    ensures no_stream { procedure ≢ Procedure.All → IfOk result IsNoStream }
{
    let len = match procedure {
        Procedure::Null | Procedure::Clear => put_head(buf, caller.xid, &ReplyHead::Success),
        Procedure::Domain => answer_domain(view, caller, arguments, buf)?,
        Procedure::DomainNonack => match answer_domain_nonack(view, caller, arguments, buf)? {
            None => return Ok(Answered::Silent),
            Some(len) => len,
        },
        Procedure::Match => answer_match(view, caller, arguments, buf)?,
        Procedure::First => answer_first(view, caller, arguments, buf)?,
        Procedure::Next => answer_next(view, caller, arguments, buf)?,
        Procedure::Xfr => return answer_xfr(view, caller, arguments, buf),
        Procedure::All => return Ok(Answered::Stream(answer_all(view, caller, arguments)?)),
        Procedure::Master => answer_master(view, caller, arguments, buf)?,
        Procedure::Order => answer_order(view, caller, arguments, buf)?,
        Procedure::Maplist => answer_maplist(view, caller, arguments, buf)?,
        Procedure::Make => return answer_make(view, caller, arguments, buf),
        Procedure::MakeNamed => return answer_make_named(view, caller, arguments, buf),
    };
    Ok(Answered::Reply { len })
}

/// Answers a call that is let to a procedure.
fn answer_procedure<'a, V: View>(
    view: &mut V,
    caller: &Caller,
    procedure: Procedure,
    arguments: &'a [u8],
    buf: &mut [u8],
) -> Answered<'a>
    requires { room_of caller.now.path ≤ length buf.old }
    ensures reply { IsProcedureAnswer (maps_of (V.seen view.new)) caller.now procedure arguments.now result buf.new }
    ensures step { StepsWhere (asks_for procedure arguments.now) V.stepped V.seen view.old view.new }
    ensures no_stream { procedure ≢ Procedure.All → IsNoStream result }
{
    match answer_arguments(view, caller, procedure, arguments, buf) {
        Ok(answered) => answered,
        Err(_) => Answered::Reply {
            len: put_head(buf, caller.xid, &ReplyHead::GarbageArgs),
        },
    }
}

/// Answers a record that came on a path.
fn answer_on<'a, V: View>(
    path: Path,
    view: &mut V,
    record: &'a [u8],
    peer: Peer,
    buf: &mut [u8],
) -> Answered<'a>
    requires { room_of path ≤ length buf.old }
    ensures reply { IsAnswer path (maps_of (V.seen view.new)) peer record.now result buf.new }
    ensures step { StepsWhere (asks path record.now) V.stepped V.seen view.old view.new }
    ensures no_stream { path ≡ Path.Datagram → IsNoStream result }
{
    match judge(&path, record) {
        Judged::Ignored => Answered::Silent,
        Judged::Refused { xid, head } => Answered::Reply {
            len: put_head(buf, xid, &head),
        },
        Judged::Admitted { call, procedure } => {
            let caller = Caller {
                path,
                xid: call.xid,
                peer,
            };
            answer_procedure(view, &caller, procedure, &record[call.body..], buf)
        }
    }
}

/// Answers a record of a stream, on the state that the view knows after at most one read step.
pub fn answer<'a, V: View>(
    view: &mut V,
    record: &'a [u8],
    peer: Peer,
    buf: &mut [u8],
) -> Answered<'a>
    requires { record_max ≤ length buf.old }
    ensures reply { IsAnswer paths.Stream (maps_of (V.seen view.new)) peer record.now result buf.new }
    ensures step { StepsWhere (asks paths.Stream record.now) V.stepped V.seen view.old view.new }
{
    answer_on(Path::Stream, view, record, peer, buf)
}

/// Answers a call in a datagram, on the state that the view knows after at most one read step. It knows no ALL, and has
/// YPERR for a row that a datagram can't carry.
pub fn answer_datagram<'a, V: View>(
    view: &mut V,
    call: &'a [u8],
    peer: Peer,
    buf: &mut [u8],
) -> Answered<'a>
    requires { datagram_max ≤ length buf.old }
    ensures reply { IsAnswer paths.Datagram (maps_of (V.seen view.new)) peer call.now result buf.new }
    ensures step { StepsWhere (asks paths.Datagram call.now) V.stepped V.seen view.old view.new }
    ensures no_stream { IsNoStream result }
{
    answer_on(Path::Datagram, view, call, peer, buf)
}
