//! A server of datagrams, as what its turns change.

ghost use Rattle.std.specs.Prelude.{◌≡◌, ◌≤◌, [], None, Some, true, false, length};
ghost use Rattle.yp_answer.specs.inside.session.Errands.{IsDue};
ghost use Rattle.yp_answer.specs.inside.session.Hosts.{conduct_by};
ghost use Rattle.yp_rpc.specs.Turns.{datagram_max};
ghost use Rattle.yp_rpc.specs.inside.Turns.{reply_of};
ghost use Rattle.yp_worker.specs.datagrams.Mailing.{Answers, CarriesAll, Clears, Forwards, Goes, Hears, Rests};
ghost use Rattle.yp_worker.specs.datagrams.Mailing.{carried_where, held_behind, left_where};

use crate::datagrams::deferred::{Deferred, Work};
use crate::datagrams::pending::{DeferredPass, DeferredQueue};
use crate::datagrams::reply::reply_to;
use crate::{HandsOver, Known};
use std::alloc::Global;
use std::marker::Model;
use std::sync::Wait;
use yp_answer::Path;
use yp_answer::session::{Errand, may_make};
use yp_board::View;
use yp_io::Peer;
use yp_publisher::sharing::Site;
use yp_rpc::{Handler, Wish};

/// Leaves a transfer in the queue, for a carrier, or has the host carry it out where there is no room, and answers
/// whether that did.
fn leave_or_carry_out<J: Site, H: HandsOver, R: Wait>(
    rt: &R,
    pending: &DeferredQueue<J, H::Front>,
    pass: &mut DeferredPass<H::Front>,
    host: &mut H,
    transfer: (Errand, Peer),
) -> bool
    requires queue { pass.old.queue ≡ pending.now }
    requires catalogue { (H.seen host.old).catalogue ≡ J.catalogue }
    requires due { IsDue (length J.catalogue.maps) transfer.0 }
    ensures carries { CarriesAll (conduct_by H.Host) (carried_where result (Some transfer)) host.old host.new }
    ensures catalogue { (H.seen host.new).catalogue ≡ J.catalogue }
    ensures left { pass.new ≡ held_behind pass.old (left_where result (Some transfer)) [] }
{
    let (errand, peer) = transfer;
    pending.engage(rt);
    match pending.leave(rt, pass, Deferred::of_transfer(errand, peer)) {
        Ok(()) => false,
        Err(back) => match back.into_work() {
            Work::Transfer { errand, peer } => {
                host.transfer(&errand.job(), peer);
                true
            }
            Work::Call(_) => unreachable!(),
        },
    }
}

/// A host that answers datagrams. It takes no memory for that. A transfer that it took waits until the next turn is
/// wanted, when the reply is out. Then it is left in a queue, for a carrier, and where there is no room it is carried
/// out at once. What still waits where a datagram is heard is dropped.
///
/// A call for which a map may have to be made is left in the queue in place of a reply, so that it holds up no other.
/// Where there is no carrier, or one that has a transfer before it, or no room or no memory for that, it is answered as
/// any other is.
///
/// It is seen as its host, the transfer that waits, and what it holds of the queue.
#[derive(Drop)]
pub struct MailServer<'a, J: Site, H: View, F: Known, R> {
    alloc: Global,
    host: H,
    waiting: Option<(Errand, Peer)>,
    pending: &'a DeferredQueue<J, F>,
    pass: DeferredPass<F>,
    rt: &'a R,
}

impl<'a, J: Site, H: View, F: Known, R> Model for MailServer<'a, J, H, F, R> {
    ghost use Rattle.std.specs.Prelude.{◌≡◌, ◌<◌, length, IfSome};
    ghost use Rattle.yp_answer.specs.inside.session.Errands.{IsDue};
    ghost use Rattle.yp_worker.specs.datagrams.Mailing.{Mailing};

    ghost Value = { Mailing H };

    ghost view = { λ s. record { host = s.host; waiting = s.waiting; holding = s.pass } };

    ghost invariant = { λ s. ((H.seen s.host).catalogue ≡ J.catalogue) × (s.pass.queue ≡ s.pending.now)
        × IfSome s.waiting (λ awaited. IsDue (length J.catalogue.maps) awaited.0) };
}

impl<'a, J: Site, F: Known, H: HandsOver<Front = F>, R: Wait> MailServer<'a, J, H, F, R> {
    /// A server with this host, for which no transfer waits.
    pub fn new(
        alloc: Global,
        host: H,
        pending: &'a DeferredQueue<J, F>,
        pass: DeferredPass<F>,
        rt: &'a R,
    ) -> MailServer<'a, J, H, F, R>
        requires catalogue { (H.seen host).catalogue ≡ J.catalogue }
        requires queue { pass.queue ≡ pending.now }
        ensures { result ≡ record { host = host; waiting = None; holding = pass } }
    {
        MailServer {
            alloc,
            host,
            waiting: None,
            pending,
            pass,
            rt,
        }
    }

    /// The host, and what the server held of the queue.
    pub fn into_parts(self) -> (H, DeferredPass<F>)
        ensures host { result.0 ≡ self.entry.host }
        ensures pass { result.1 ≡ self.entry.holding }
    {
        let MailServer {
            alloc: _,
            host,
            waiting: _,
            pending: _,
            pass,
            rt: _,
        } = self;
        (host, pass)
    }

    /// Leaves the transfer that waits in the queue, for a carrier, or carries it out where there is no room.
    pub(crate) fn carry_out(&mut self)
        ensures { Clears (conduct_by H.Host) self.old self.new }
    {
        let Some(transfer) = self.waiting.take() else {
            return;
        };
        leave_or_carry_out(
            self.rt,
            self.pending,
            &mut self.pass,
            &mut self.host,
            transfer,
        );
    }

    /// Leaves a call of a peer in the queue, for a carrier, with what the host knows, where a map may have to be made
    /// for it, and answers whether it did.
    fn forward(&mut self, from: Peer, mail: &[u8]) -> bool
        requires short { length mail.now ≤ datagram_max }
        ensures forwards { result ≡ true → Forwards (conduct_by H.Host) from mail.now None self.old self.new }
        ensures same { result ≡ false → self.new ≡ self.old }
    {
        if !may_make(&Path::Datagram, from, mail) {
            return false;
        }
        if !self.pending.is_free(self.rt) {
            return false;
        }
        let Ok(message) = mail.to_vec(self.alloc) else {
            return false;
        };
        let Ok(front) = self.host.front() else {
            return false;
        };
        let call = Deferred::of_call(from, message, front);
        let Ok(()) = self.pending.leave(self.rt, &mut self.pass, call) else {
            return false;
        };
        self.waiting = None;
        true
    }

    /// Puts the reply to a datagram of a peer at the front of the buffer, and answers its length, or 0 for silence.
    fn answer(&mut self, from: Peer, mail: &[u8], buf: &mut [u8]) -> usize
        requires buf { datagram_max ≤ length buf.old }
        ensures within { result ≤ length buf.new }
        ensures answers { Answers (conduct_by H.Host) from mail.now (reply_of result buf.new) self.old self.new }
    {
        let (len, waiting) = reply_to(&mut self.host, mail, from, buf);
        self.waiting = waiting;
        len
    }

    /// Tells the carrier that this server leaves nothing any more.
    pub fn end(&self) {
        self.pending.end(self.rt);
    }

    /// Drops what waits.
    pub(crate) fn forget(&mut self)
        ensures { self.new ≡ record self.old { waiting = None } }
    {
        self.waiting = None;
    }
}

impl<'a, J: Site, F: Known, H: HandsOver<Front = F>, R: Wait> Handler
    for MailServer<'a, J, H, F, R> {
    ghost goes = { Goes (conduct_by H.Host) };

    ghost hears = { Hears (conduct_by H.Host) };

    ghost rests = { Rests (conduct_by H.Host) H.counted };

    ghost letters = { λ _. 0 };

    fn next(&mut self, _buf: &mut [u8]) -> Wish {
        self.carry_out();
        Wish::Wait
    }

    fn hear(&mut self, from: Peer, mail: &[u8], buf: &mut [u8]) -> usize {
        if self.forward(from, mail) {
            return 0;
        }
        self.answer(from, mail, buf)
    }

    fn rest(&mut self) {
        // Where there is no memory for that, the host goes on with what it knew.
        let _ = self.host.catch_up();
    }
}
