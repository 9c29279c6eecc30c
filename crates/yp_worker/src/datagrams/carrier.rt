//! Who does what servers of datagrams leave.

ghost use Rattle.std.specs.Prelude.{◌≡◌, ◌+◌, ◌≤◌, true, false, length};
ghost use Rattle.yp_answer.specs.declared.procedure.Path.TheVariants as paths;
ghost use Rattle.yp_answer.specs.inside.session.Hosts.{conduct_by};
ghost use Rattle.yp_answer.specs.session.Makes.{may_make};
ghost use Rattle.yp_rpc.specs.Turns.{datagram_max};
ghost use Rattle.yp_rpc.specs.inside.Turns.{box_by};
ghost use Rattle.yp_worker.specs.datagrams.Mailing.{Call, held_behind};
ghost use Rattle.yp_worker.specs.datagrams.Queues.{WeighTheSame};
ghost use Rattle.yp_worker.specs.inside.Mailing.{CarriesOn, CarriesRest, DoesLeft, carrier_of, carrier_state};
ghost use Rattle.yp_worker.specs.inside.Queues.{IsReady, all_parts, deferred_as};

use crate::datagrams::deferred::{DeferredCall, Work};
use crate::datagrams::pending::{DeferredPass, DeferredQueue};
use crate::datagrams::reply::reply_to;
use crate::{HandsOver, Known};
use std::marker::Model;
use std::sync::Wait;
use yp_board::View;
use yp_io::Inbox;
use yp_publisher::sharing::Site;

/// Answers a call that was left, once the host knows as much as its server knew then, and sends the reply, unless the
/// inbox has failed. It answers whether the inbox has failed then.
fn answer_left<I: Inbox, H: HandsOver>(
    host: &mut H,
    inbox: &mut I,
    fault: bool,
    buf: &mut [u8],
    call: DeferredCall<H::Front>,
) -> bool
    requires buf { datagram_max ≤ length buf.old }
    requires makes { may_make paths.Datagram call.peer call.message.items ≡ true }
    requires short { length call.message.items ≤ datagram_max }
    ensures { DoesLeft (conduct_by H.Host) H.counted (Call call.peer call.message.items (H.Front.known call.front))
        (carrier_state (box_by I.Inbox) I.faults host.old inbox.old fault)
        (carrier_state (box_by I.Inbox) I.faults host.new inbox.new result) }
{
    let DeferredCall {
        peer,
        message,
        front,
    } = call;
    host.reach(front);
    let (len, _) = reply_to(host, &message, peer, buf);
    if fault {
        return true;
    }
    if len == 0 {
        return false;
    }
    inbox.send(peer, &buf[..len]).is_err()
}

/// Does what was left: has the host carry out a transfer, or answers a call. It answers whether the inbox has failed
/// then.
fn carry_out<I: Inbox, H: HandsOver>(
    host: &mut H,
    inbox: &mut I,
    fault: bool,
    buf: &mut [u8],
    work: Work<H::Front>,
) -> bool
    requires buf { datagram_max ≤ length buf.old }
    requires ready { IsReady (length (H.seen host.old).catalogue.maps) (deferred_as H.Front.known work) }
    ensures { DoesLeft (conduct_by H.Host) H.counted (deferred_as H.Front.known work)
        (carrier_state (box_by I.Inbox) I.faults host.old inbox.old fault)
        (carrier_state (box_by I.Inbox) I.faults host.new inbox.new result) }
{
    match work {
        Work::Transfer { errand, peer } => {
            host.transfer(&errand.job(), peer);
            fault
        }
        Work::Call(call) => answer_left(host, inbox, fault, buf, call),
    }
}

/// A host that does what servers of datagrams leave in a queue, while they go on with their turns: it carries out
/// transfers, and answers calls, and sends the replies from an inbox of its own, which takes no turn. Once that has
/// failed it sends no more.
#[derive(Drop)]
pub struct Carrier<'a, I, J: Site, H: View, F: Known, R> {
    host: H,
    pending: &'a DeferredQueue<J, F>,
    pass: DeferredPass<F>,
    inbox: I,
    fault: bool,
    letter: Vec<u8>,
    rt: &'a R,
}

impl<'a, I, J: Site, H: View, F: Known, R> Model for Carrier<'a, I, J, H, F, R> {
    ghost use Rattle.std.specs.Prelude.{◌≡◌, ◌≤◌, length};
    ghost use Rattle.yp_rpc.specs.Turns.{datagram_max};
    ghost use Rattle.yp_worker.specs.inside.Mailing.{Carrying};

    ghost Value = { Carrying I H };

    ghost view = { λ c. record { host = c.host; holding = c.pass; inbox = c.inbox; fault = c.fault } };

    ghost invariant = { λ c. ((H.seen c.host).catalogue ≡ J.catalogue) × (c.pass.queue ≡ c.pending.now)
        × (datagram_max ≤ length c.letter.items) };
}

impl<'a, I: Inbox, J: Site, F: Known, H: HandsOver<Front = F>, R: Wait> Carrier<'a, I, J, H, F, R> {
    /// A carrier with this host, this inbox, and this memory for a reply.
    pub fn new(
        host: H,
        pending: &'a DeferredQueue<J, F>,
        pass: DeferredPass<F>,
        inbox: I,
        letter: Vec<u8>,
        rt: &'a R,
    ) -> Carrier<'a, I, J, H, F, R>
        requires catalogue { (H.seen host).catalogue ≡ J.catalogue }
        requires queue { pass.queue ≡ pending.now }
        requires letter { datagram_max ≤ length letter.items }
        ensures { result ≡ carrier_of host pass inbox }
    {
        Carrier {
            host,
            pending,
            pass,
            inbox,
            fault: false,
            letter,
            rt,
        }
    }

    /// The host, what the carrier held of the queue, the inbox, and whether that has failed.
    pub fn into_parts(self) -> (H, DeferredPass<F>, I, bool)
        ensures host { result.0 ≡ self.entry.host }
        ensures pass { result.1 ≡ self.entry.holding }
        ensures inbox { (result.2 ≡ self.entry.inbox) × (result.3 ≡ self.entry.fault) }
    {
        let Carrier {
            host,
            pending: _,
            pass,
            inbox,
            fault,
            letter: _,
            rt: _,
        } = self;
        (host, pass, inbox, fault)
    }

    /// Does one thing after the other of what is left, and waits where there is nothing. It ends once all servers of
    /// datagrams have ended and nothing waits.
    pub fn carry_all_that_come(&mut self)
        ensures { CarriesOn (conduct_by H.Host) H.counted (box_by I.Inbox) I.faults self.old self.new }
    {
        let rt = self.rt;
        for _ in rt.forever() {
            let told = self.pending.told(rt);
            if !self.carry_oldest() && !self.pending.wait_past(rt, told) {
                return;
            }
        }
        unreachable!()
    }

    /// Does what has waited longest, where something waits, and answers whether it did.
    fn carry_oldest(&mut self) -> bool
        ensures carries { CarriesOn (conduct_by H.Host) H.counted (box_by I.Inbox) I.faults self.old self.new }
        ensures all { result ≡ false → self.old.holding.parts ≡ all_parts
            → WeighTheSame self.new.holding.left self.new.holding.took }
    {
        let Some(deferred) = self.pending.oldest(self.rt, &mut self.pass) else {
            return false;
        };
        self.fault = carry_out(
            &mut self.host,
            &mut self.inbox,
            self.fault,
            &mut self.letter,
            deferred.into_work(),
        );
        true
    }

    /// Takes in what a server of the queue holds, once that has ended.
    pub fn merge(&mut self, other: DeferredPass<F>)
        requires queue { other.queue ≡ self.old.holding.queue }
        ensures same { self.new ≡ record self.old { holding = self.new.holding } }
        ensures parts { self.new.holding.parts ≡ self.old.holding.parts + other.parts }
        ensures holding { self.new.holding ≡ record (held_behind self.old.holding other.left other.took) {
          parts = self.new.holding.parts;
        } }
    {
        self.pending.merge(&mut self.pass, other);
    }

    /// Does what still waits in the queue, once all servers have ended and been taken in. All that was left there is
    /// done then.
    pub fn carry_rest(&mut self)
        ensures { CarriesRest (conduct_by H.Host) H.counted (box_by I.Inbox) I.faults self.old self.new }
    {
        let rt = self.rt;
        for _ in rt.forever() {
            if !self.carry_oldest() {
                return;
            }
        }
        unreachable!()
    }
}
