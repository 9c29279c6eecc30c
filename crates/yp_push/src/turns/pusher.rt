//! A push in its turns.

ghost use Rattle.std.specs.Prelude.{◌≡◌, ◌⊎◌, ◌<◌, ◌≤◌, true, false, length, map, IfSome};
ghost use Rattle.yp_transfer.specs.inside.Dials.{dial_by};
ghost use Rattle.yp_push.specs.Ledgers.{slaves_max, outcome_at, next_sending};
ghost use Rattle.yp_push.specs.inside.Ledgers.{IsUnanswered, after_sending};
ghost use Rattle.yp_push.specs.inside.turns.Kept.{slave_view, request_view, IsWithin};
ghost use Rattle.yp_push.specs.turns.Pushers.{HasAskedSlave, SendsAll, IsSentOut, Goes, Hears, Rests};

use crate::turns::callback::{PROGRAM, hear_callback};
use crate::turns::sending::send;
use crate::{Outcome, Push, Sending};
use std::alloc::Global;
use std::marker::Model;
use yp_board::MapName;
use yp_io::{Dial, Peer};
use yp_messages::ReqXfr;
use yp_rpc::{Handler, Wish};
use yp_version::Order;

/// A slave.
#[derive(Debug, Drop)]
pub struct Slave {
    pub name: Vec<u8>,
    /// Its address, where that is known.
    pub peer: Option<Peer>,
}

/// What slaves are asked.
#[derive(Debug, Drop)]
pub struct PushRequest {
    /// The map that they are to fetch.
    pub store: MapName,
    /// The order of its version.
    pub order: Order,
    /// The host that has it.
    pub name: Vec<u8>,
    /// The port at which they tell how it went.
    pub port: u16,
}

/// A push in its turns.
#[derive(Drop)]
pub struct Pusher<A> {
    alloc: Global,
    dial: A,
    push: Push,
    slaves: Vec<Slave>,
    request: PushRequest,
    starved: bool,
}

impl<A> Model for Pusher<A> {
    ghost use Rattle.std.specs.Prelude.{◌≡◌, ◌≤◌, map, length};
    ghost use Rattle.yp_push.specs.inside.turns.Kept.{slave_view, request_view, IsWithin};
    ghost use Rattle.yp_push.specs.Ledgers.{slaves_max};
    ghost use Rattle.yp_push.specs.turns.Pushers.{Pushing};

    ghost Value = { Pushing A };

    ghost view = { λ p. record {
      dial = p.dial;
      ledger = p.push;
      slaves = map slave_view p.slaves.items;
      request = request_view p.request;
      starved = p.starved;
    } };

    ghost invariant = { λ p. (p.push.slaves ≡ length p.slaves.items) × (length p.slaves.items ≤ slaves_max)
        × IsWithin (request_view p.request) };
}

impl<A> Pusher<A> {
    /// A push of a ledger to as many slaves as it has, over a dial.
    pub fn new(
        alloc: Global,
        dial: A,
        push: Push,
        slaves: Vec<Slave>,
        request: PushRequest,
    ) -> Pusher<A>
        requires slaves { push.slaves ≡ length slaves.items }
        requires few { length slaves.items ≤ slaves_max }
        requires within { IsWithin (request_view request) }
        ensures { result ≡ record {
          dial = dial;
          ledger = push;
          slaves = map slave_view slaves.items;
          request = request_view request;
          starved = false;
        } }
    {
        Pusher {
            alloc,
            dial,
            push,
            slaves,
            request,
            starved: false,
        }
    }

    /// The slaves, in their order.
    pub fn slaves(&self) -> &[Slave]
        ensures slaves { map slave_view result.now ≡ self.now.slaves }
        ensures few { length result.now ≤ slaves_max }
        ensures count { length result.now ≡ self.now.ledger.slaves }
    {
        &self.slaves
    }

    /// What came of a slave so far.
    pub fn result(&self, slave: u32) -> Outcome
        requires { slave < self.now.ledger.slaves }
        ensures { result ≡ outcome_at self.now.ledger slave }
    {
        self.push.result(slave)
    }

    /// Whether memory ran out for a request, so that the push ended.
    pub fn is_starved(&self) -> bool
        ensures { result ≡ self.now.starved }
    {
        self.starved
    }

    /// Its dial.
    pub fn into_dial(self) -> A
        ensures { result ≡ self.dial }
    {
        self.dial
    }
}

impl<A: Dial> Pusher<A> {
    /// The slave that is to be asked now, which the ledger then has as sent to.
    fn next_send(&mut self) -> Option<Sending>
        ensures next { result ≡ next_sending self.old.ledger }
        ensures sent { self.new ≡ record self.old { ledger = after_sending self.old.ledger result } }
        ensures unanswered { IfSome result (λ sending. IsUnanswered self.new.ledger sending.slave) }
    {
        self.push.next_send()
    }

    /// Asks a slave that the ledger has sent to.
    fn reach(&mut self, sending: Sending)
        requires { IsUnanswered self.old.ledger sending.slave }
        ensures { HasAskedSlave (dial_by A.Dial) sending self.old self.new }
    {
        let request = ReqXfr {
            domain: &self.request.store.domain,
            map: &self.request.store.map,
            ordernum: self.request.order.number(),
            peer: &self.request.name,
            transid: sending.transid,
            prog: PROGRAM,
            port: u32::from(self.request.port),
        };
        let to = self.slaves[sending.slave as usize].peer;
        self.starved = send(
            self.alloc,
            &mut self.dial,
            &mut self.push,
            sending.slave,
            to,
            &request,
        );
    }

    /// Asks all slaves that are to be asked now, up to one for which memory runs out.
    fn send_all(&mut self)
        ensures all { SendsAll (dial_by A.Dial) self.old self.new }
        ensures end { (self.new.starved ≡ true) ⊎ IsSentOut self.new }
    {
        if self.starved {
            return;
        }
        while let Some(sending) = self.next_send() {
            self.reach(sending);
            if self.starved {
                return;
            }
        }
    }
}

impl<A: Dial> Handler for Pusher<A> {
    ghost goes = { Goes (dial_by A.Dial) };

    ghost hears = { Hears };

    ghost rests = { Rests };

    ghost letters = { λ _. 0 };

    fn next(&mut self, _buf: &mut [u8]) -> Wish {
        self.send_all();
        if self.starved || self.push.done() {
            Wish::Done
        } else {
            Wish::Wait
        }
    }

    fn hear(&mut self, _from: Peer, mail: &[u8], buf: &mut [u8]) -> usize {
        hear_callback(&mut self.push, mail, buf)
    }

    fn rest(&mut self) {
        self.push.on_quiet();
    }
}
