//! The answer to a record, put to the sink that it goes out by.

ghost use Rattle.std.specs.Prelude.{◌≡◌, ◌≤◌, [], false, None, length, is_err, IfSome, IfOk};
ghost use Rattle.std.specs.Result.{result_ok};
ghost use Rattle.yp_answer.specs.Numbers.{record_max};
ghost use Rattle.yp_answer.specs.declared.procedure.Path.TheVariants.{Stream};
ghost use Rattle.yp_answer.specs.session.Hosts.{Turn, Link};
ghost use Rattle.yp_answer.specs.Maps.{maps_of};
ghost use Rattle.yp_answer.specs.inside.Answers.{StreamIsInside};
ghost use Rattle.yp_answer.specs.inside.Streams.{held_of};
ghost use Rattle.yp_answer.specs.inside.session.Hosts.{conduct_by};
ghost use Rattle.yp_answer.specs.inside.session.Cuts.{IsBegun, SeesOn};
ghost use Rattle.yp_answer.specs.inside.session.Errands.{IsDue};
ghost use Rattle.yp_answer.specs.inside.session.Puts.{Puts};

use crate::session::errand::Errand;
use crate::session::host::Host;
use crate::session::open::OpenReply;
use crate::session::session::make;
use crate::{AllStream, Answered, answer};
use std::alloc::Global;
use yp_board::View;
use yp_io::{Failed, NoMemory, Peer, Sink};
use yp_rpc::RecordWriter;

/// A record that came, and who sent it.
#[derive(Clone, Copy)]
pub(crate) struct Request<'a> {
    pub(crate) message: &'a [u8],
    pub(crate) peer: Peer,
}

/// What is left to do for a record that was answered.
#[derive(Drop)]
pub(crate) struct Put {
    /// The reply that goes out piece by piece.
    pub(crate) stream: Option<OpenReply>,
    /// The transfer that waits until the reply is out.
    pub(crate) errand: Option<Errand>,
    /// Whether memory ran out in the reply.
    pub(crate) is_broken: bool,
}

/// Answers a request and puts its reply, but for what is left open of it.
pub(crate) fn put_reply<K: Sink, H: Host>(
    alloc: Global,
    writer: &mut RecordWriter,
    sink: &mut K,
    host: &mut H,
    request: &Request<'_>,
    buf: &mut [u8],
) -> Put
    requires idle { writer.old ≡ [] }
    requires room { record_max ≤ length buf.old }
    ensures put { (turn : Turn) × (turn.message ≡ request.now.message.now) × (turn.flushed ≡ false)
        × (turn.taken ≡ result.errand)
        × Link (conduct_by H.Host) Stream request.now.peer turn host.old host.new
        × Puts turn.answer result.is_broken result.stream (K.output sink.old) (K.output sink.new) }
    ensures stream { IfSome result.stream IsBegun }
    ensures due { IfSome result.errand (IsDue (length (H.seen host.new).catalogue.maps)) }
    ensures sees { SeesOn (H.seen host.old) (H.seen host.new) }
    ensures idle { writer.new ≡ [] }
{
    match answer(host, request.message, request.peer, buf) {
        Answered::Silent => put_of(Ok(()), None),
        Answered::Reply { len } => {
            host.replied(request.peer, request.message, &buf[..len]);
            put_of(writer.send(sink, &buf[..len]), None)
        }
        Answered::Transfer { len, job } => {
            let errand = Errand::new(&job);
            put_of(writer.send(sink, &buf[..len]), Some(errand))
        }
        Answered::Stream(stream) => put_open(open_reply(alloc, host, stream)),
        Answered::Make { xid, job } => {
            let len = make(host, job, xid, buf);
            host.replied(request.peer, request.message, &buf[..len]);
            put_of(writer.send(sink, &buf[..len]), None)
        }
    }
}

/// The reply of a stream, which has its version for itself.
fn open_reply<V: View>(alloc: Global, view: &V, stream: AllStream) -> Result<OpenReply, NoMemory>
    requires { StreamIsInside (maps_of (V.seen view.now)) stream.source }
    ensures { IfOk result (λ reply. reply ≡ record { held = held_of (V.seen view.now).known stream; waits = [] }) }
{
    let held = stream.hold(view)?;
    OpenReply::new(alloc, held)
}

/// What is left of a reply that was sent whole, or wasn't.
fn put_of(sent: Result<(), Failed>, errand: Option<Errand>) -> Put
    ensures { result ≡ record { stream = None; errand = errand; is_broken = is_err sent } }
{
    Put {
        stream: None,
        errand,
        is_broken: sent.is_err(),
    }
}

/// What is left of a reply that is open, or isn't for want of memory.
fn put_open(stream: Result<OpenReply, NoMemory>) -> Put
    ensures { result ≡ record { stream = result_ok stream; errand = None; is_broken = is_err stream } }
{
    let is_broken = stream.is_err();
    Put {
        stream: stream.ok(),
        errand: None,
        is_broken,
    }
}
