//! The datagrams of inboxes, answered beside the connections.

ghost use Rattle.std.specs.Prelude.{◌≡◌, ◌≤◌, ◌<◌, ◌+◌, ◌||◌, ◌∷◌, ◌++◌, [], false, map, reverse, length};
ghost use Rattle.std.specs.Prelude.{vec_len, vec_capacity};
ghost use Rattle.std.specs.List.{AllByRecursion, list_any};
ghost use Rattle.yp_answer.specs.inside.session.Hosts.{conduct_by};
ghost use Rattle.yp_rpc.specs.inside.Turns.{box_by};
ghost use Rattle.yp_worker.specs.Summing.{counting_of};
ghost use Rattle.yp_server.specs.inside.Workers.{AnswersDatagrams};
ghost use Rattle.yp_server.specs.inside.Handing.{HandsOverMail, HandsOverMails, HandsOverRest};

use crate::hosts::RetiredHost;
use std::sync::Wait;
use yp_board::View;
use yp_io::Inbox;
use yp_publisher::sharing::Site;
use yp_rpc::Room;
use yp_worker::datagrams::{Carrier, DeferredPass, MailServer, serve_mail};
use yp_worker::{HandsOver, Known};

/// What the worker of datagrams works with: an inbox, the most turns of it, a reader of the maps, and the memory of a
/// datagram and of its reply.
#[derive(Drop)]
pub(crate) struct DatagramResources<I, V> {
    pub(crate) inbox: I,
    pub(crate) turns: u64,
    pub(crate) reader: V,
    pub(crate) room: Room,
}

/// What a carrier works with beside its host: its parts of the queue, the inbox that it sends replies from, and the
/// memory of a reply.
#[derive(Drop)]
pub(crate) struct CarrierResources<I, F: Known> {
    pub(crate) parts: DeferredPass<F>,
    pub(crate) outbox: I,
    pub(crate) letter: Vec<u8>,
}

/// The inbox that comes back of it, and whether that has failed.
#[derive(Drop)]
pub(crate) struct EndedInbox<I> {
    pub(crate) inbox: I,
    pub(crate) fault: bool,
}

/// The inboxes that come back of all workers of datagrams, and whether one of them has failed.
#[derive(Drop)]
pub(crate) struct EndedInboxes<I> {
    pub(crate) inboxes: Vec<I>,
    pub(crate) fault: bool,
}

/// The same, and the inbox that a carrier has sent replies from, which may have failed too.
#[derive(Drop)]
pub(crate) struct EndedMail<I> {
    pub(crate) inboxes: Vec<I>,
    pub(crate) outbox: I,
    pub(crate) fault: bool,
}

impl<I: Drop> EndedInboxes<I> {
    /// Takes in what came of one more, which has room here.
    fn add(&mut self, ended: EndedInbox<I>)
        requires { vec_len self.old.inboxes < vec_capacity self.old.inboxes }
        ensures inboxes { self.new.inboxes.items ≡ self.old.inboxes.items ++ ended.inbox ∷ [] }
        ensures room { vec_capacity self.new.inboxes ≡ vec_capacity self.old.inboxes }
        ensures fault { self.new.fault ≡ (self.old.fault || ended.fault) }
    {
        self.inboxes.push_reserved(ended.inbox);
        self.fault = self.fault || ended.fault;
    }

    /// Whether one of them has failed, or this one.
    pub(crate) fn has_fault_with(&self, ended: &EndedInbox<I>) -> bool
        ensures { result ≡ (self.now.fault || ended.now.fault) }
    {
        self.fault || ended.fault
    }
}

/// A worker that answers the datagrams of an inbox, and whether that has failed.
#[derive(Drop)]
pub(crate) struct DatagramWorker<'a, I, J: Site, H: View, F: Known, R> {
    inbox: I,
    server: MailServer<'a, J, H, F, R>,
    room: Room,
    turns: u64,
    fault: bool,
}

impl<'a, I: Inbox, J: Site, F: Known, H: HandsOver<Front = F>, R: Wait> DatagramWorker<
    'a,
    I,
    J,
    H,
    F,
    R,
> {
    /// A worker with this server, which has taken no turn yet.
    pub(crate) fn new(
        inbox: I,
        server: MailServer<'a, J, H, F, R>,
        room: Room,
        turns: u64,
    ) -> DatagramWorker<'a, I, J, H, F, R>
        ensures { result ≡ record {
          inbox = inbox;
          server = server.entry;
          room = room;
          turns = turns;
          fault = false;
        } }
    {
        DatagramWorker {
            inbox,
            server,
            room,
            turns,
            fault: false,
        }
    }

    /// Answers datagrams until all turns are taken or the inbox has failed, and tells the carrier then. It takes no
    /// lock of a listener.
    pub(crate) fn work(&mut self)
        ensures { AnswersDatagrams (conduct_by H.Host) H.counted (box_by I.Inbox) I.faults self.old self.new }
    {
        let ended = serve_mail(
            &mut self.inbox,
            &mut self.server,
            &mut self.room,
            self.turns,
        );
        self.fault = ended.is_err();
        self.server.end();
    }
}

impl<'a, I, J: Site, F: Known, H: HandsOver<Front = F> + Drop, R: Wait> DatagramWorker<
    'a,
    I,
    J,
    H,
    F,
    R,
> {
    /// Adds what its host has counted to a sum, and hands back what came of the inbox, what the worker held of the
    /// queue, and the host.
    pub(crate) fn hand_over(
        self,
        sum: &mut H::Sum,
    ) -> (EndedInbox<I>, DeferredPass<F>, RetiredHost<H>)
        ensures mailed { (result.0.inbox ≡ self.entry.inbox) × (result.0.fault ≡ self.entry.fault) }
        ensures handed { HandsOverMail (conduct_by H.Host) (counting_of H.counted H.none H.plus) H.summed H.reached
            self.entry.server result.1 sum.old sum.new }
    {
        let DatagramWorker {
            inbox,
            server,
            room: _,
            turns: _,
            fault,
        } = self;
        let (mut host, pass) = server.into_parts();
        host.hand_over(sum);
        (EndedInbox { inbox, fault }, pass, RetiredHost::new(host))
    }
}

/// Lets a carrier do what still waits, adds what its host has counted to a sum, and hands back what came of its inbox,
/// and the host.
pub(crate) fn hand_over_carrier<I: Inbox, J: Site, H: HandsOver + Drop, R: Wait>(
    mut carrier: Carrier<'_, I, J, H, H::Front, R>,
    sum: &mut H::Sum,
) -> (EndedInbox<I>, RetiredHost<H>)
    ensures { HandsOverRest (conduct_by H.Host) (counting_of H.counted H.none H.plus) H.summed H.reached
        (box_by I.Inbox) I.faults carrier.entry result.0.inbox result.0.fault sum.old sum.new }
{
    carrier.carry_rest();
    let (mut host, _, inbox, fault) = carrier.into_parts();
    host.hand_over(sum);
    (EndedInbox { inbox, fault }, RetiredHost::new(host))
}

/// Adds what the hosts of all workers of datagrams have counted to a sum, the last one's first, lets a carrier take in
/// what they held of the queue, and hands back what came of their inboxes, and their hosts, which have room here.
pub(crate) fn hand_over_all<I: Inbox + Drop, J: Site, H: HandsOver + Drop, R: Wait>(
    mut datagram_workers: Vec<DatagramWorker<'_, I, J, H, H::Front, R>>,
    carrier: &mut Carrier<'_, I, J, H, H::Front, R>,
    sum: &mut H::Sum,
    hosts: &mut Vec<RetiredHost<H>>,
    inboxes: Vec<I>,
) -> EndedInboxes<I>
    requires none { inboxes.items ≡ [] }
    requires room { length datagram_workers.items ≤ vec_capacity inboxes }
    requires hosts { length hosts.old.items + length datagram_workers.items ≤ vec_capacity hosts.old }
    requires queue { AllByRecursion (λ datagram_worker. datagram_worker.server.holding.queue
        ≡ carrier.old.holding.queue) datagram_workers.items }
    ensures inboxes { result.inboxes.items
        ≡ map (λ datagram_worker. datagram_worker.inbox) (reverse datagram_workers.entry.items) }
    ensures fault { result.fault
        ≡ list_any (λ datagram_worker. datagram_worker.fault) (reverse datagram_workers.entry.items) }
    ensures handed { HandsOverMails (conduct_by H.Host) (counting_of H.counted H.none H.plus) H.summed H.reached
        (map (λ datagram_worker. datagram_worker.server) (reverse datagram_workers.entry.items))
        carrier.old.holding carrier.new.holding sum.old sum.new }
    ensures carrier { carrier.new ≡ record carrier.old { holding = carrier.new.holding } }
    ensures hosts { length hosts.new.items ≡ length hosts.old.items + length datagram_workers.entry.items }
    ensures hosts_room { vec_capacity hosts.new ≡ vec_capacity hosts.old }
{
    let mut ended = EndedInboxes {
        inboxes,
        fault: false,
    };
    while let Some(datagram_worker) = datagram_workers.pop() {
        let (one, held, host) = datagram_worker.hand_over(sum);
        carrier.merge(held);
        ended.add(one);
        hosts.push_reserved(host);
    }
    ended
}
