//! The reply to a datagram.

ghost use Rattle.std.specs.Prelude.{◌≡◌, ◌≤◌, false, length, option_map, IfSome};
ghost use Rattle.yp_answer.specs.declared.procedure.Path.TheVariants as paths;
ghost use Rattle.yp_answer.specs.inside.session.Errands.{IsDue};
ghost use Rattle.yp_answer.specs.session.Hosts.{Turn, Link};
ghost use Rattle.yp_answer.specs.inside.session.Hosts.{conduct_by};
ghost use Rattle.yp_rpc.specs.Turns.{datagram_max};
ghost use Rattle.yp_rpc.specs.inside.Turns.{reply_of};

use yp_answer::session::{Errand, Host};
use yp_answer::{Answered, answer_datagram, make_reply};
use yp_io::Peer;

/// Puts the reply to a datagram at the front of the buffer. It answers its length, or 0 for silence, and the transfer
/// that it took.
pub(crate) fn reply_to<H: Host>(
    host: &mut H,
    mail: &[u8],
    peer: Peer,
    buf: &mut [u8],
) -> (usize, Option<(Errand, Peer)>)
    requires { datagram_max ≤ length buf.old }
    ensures replied { (turn : Turn) × (turn.message ≡ mail.now) × (turn.answer ≡ reply_of result.0 buf.new)
        × (turn.flushed ≡ false) × (result.1 ≡ option_map (λ taken. (taken, peer)) turn.taken)
        × Link (conduct_by H.Host) paths.Datagram peer turn host.old host.new }
    ensures within { result.0 ≤ length buf.new }
    ensures due { IfSome result.1 (λ awaited. IsDue (length (H.seen host.new).catalogue.maps) awaited.0) }
{
    match answer_datagram(host, mail, peer, buf) {
        Answered::Silent => (0, None),
        Answered::Reply { len } => {
            host.replied(peer, mail, &buf[..len]);
            (len, None)
        }
        Answered::Transfer { len, job } => (len, Some((Errand::new(&job), peer))),
        Answered::Make { xid, job } => {
            let stat = host.make(job);
            let len = make_reply(buf, xid, stat);
            host.replied(peer, mail, &buf[..len]);
            (len, None)
        }
        Answered::Stream(_) => unreachable!(),
    }
}
