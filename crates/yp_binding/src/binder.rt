//! The binder.

ghost use Rattle.std.specs.Prelude.{◌≡◌, ◌<◌, ◌≤◌, ◌++◌, ℕ, [], length, take, map, IfOk, IfSome, is_some, option_map};
ghost use Rattle.std.specs.List.{slice_get};
ghost use Rattle.yp_rpc.specs.Reply.{reply_head};
ghost use Rattle.yp_messages.specs.Bindings.{bind_resp};
ghost use Rattle.yp_messages.specs.inside.Bindings.{bind_resp_view, BindRespIsWithin};
ghost use Rattle.yp_xdr.specs.Spelling.{spelling};
ghost use Rattle.yp_rpc.specs.declared.reply.ReplyHead.TheVariants.{Success};
ghost use Rattle.yp_binding.specs.declared.event.Event.TheVariants.{Called, Offered, Quiet};
ghost use Rattle.yp_binding.specs.Events.{binding_of};
ghost use Rattle.yp_binding.specs.Rounds.{with_event, next_ping_of, after_ping, taken_by, targets, ping_with};
ghost use Rattle.yp_binding.specs.Rounds.{targets_of, is_same_peer, may_bind, target_of, taken_at, taken_from};
ghost use Rattle.yp_binding.specs.inside.Rounds.{pings_left};
ghost use Rattle.yp_binding.specs.Requests.{asked_by};
ghost use Rattle.yp_binding.specs.inside.Requests.{asked_view};
ghost use Rattle.yp_rpc.specs.Turns.{datagram_max};
ghost use Rattle.yp_binding.specs.Replies.{domain_number, bound_answer, error_number, reply_to};
ghost use Rattle.yp_binding.specs.inside.Replies.{IsReply};
ghost use Rattle.yp_binding.specs.Replies.{lets, set_by};
ghost use Rattle.std.proofs.Common.{inr};
ghost use Rattle.yp_binding.specs.Kept.{servers_max};
ghost use Rattle.yp_binding.specs.inside.Kept.{domains_max, Binds};

use crate::event::{Binding, Event, History};
use crate::request::{Request, read_request};
use crate::standing::{BindingState, rest_all};
use std::alloc::Global;
use std::marker::Model;
use yp_io::{NoMemory, OWN_HOST, Peer};
use yp_messages::protocol::YPVERS;
use yp_messages::{BindErr, BindResp, Message};
use yp_rpc::{ReplyHead, write_reply};
use yp_xdr::NoRoom;

/// The most servers of a binder.
pub const SERVERS_MAX: usize = 64;

/// Who may bind a domain by SETDOM.
#[derive(Clone, Copy, Debug, PartialEq, Eq)]
pub enum Policy {
    /// Nobody.
    Fixed,
    /// A caller at 127.0.0.1.
    Ypsetme,
    /// Anybody.
    Ypset,
}

/// A ping that is to be sent now.
#[derive(Clone, Copy)]
pub struct Ping {
    pub xid: u32,
    pub server: Peer,
    /// The number of the domain, counted from 0.
    pub domain: u32,
}

/// The domains and the servers of a binder, and how each domain is bound.
#[derive(Drop)]
pub struct Binder {
    domains: Vec<Vec<u8>>,
    servers: Vec<Peer>,
    policy: Policy,
    standings: Vec<BindingState>,
    /// How many pings of the round are out.
    pinged: usize,
    /// The xid of the round's first ping.
    first_xid: u32,
    /// The xid of the next ping.
    next_xid: u32,
    history: History,
}

impl Model for Binder {
    ghost use Rattle.yp_binding.specs.Rounds.{Bindings};

    ghost Value = { Bindings };

    ghost use Rattle.yp_binding.specs.inside.Kept.{bindings_of, IsKept};

    ghost view = { bindings_of };

    ghost invariant = { IsKept };
}

impl Binder {
    /// A binder of these domains, at most 8, which pings these servers, at most 64. It takes all its memory.
    pub fn new(
        alloc: Global,
        domains: Vec<Vec<u8>>,
        servers: Vec<Peer>,
        policy: Policy,
    ) -> Result<Binder, NoMemory>
        requires domains { length domains.items ≤ domains_max }
        requires servers { length servers.items ≤ servers_max }
        ensures { IfOk result (λ binder. binder ≡ record {
          domains = map (λ name. name.items) domains.items;
          servers = servers.items;
          policy = policy;
          events = [];
        }) }
    {
        let Ok(standings) = vec![in alloc; BindingState::new(); domains.len()] else {
            return Err(NoMemory);
        };
        Ok(Binder {
            domains,
            servers,
            policy,
            standings,
            pinged: 0,
            first_xid: 1,
            next_xid: 1,
            history: History::new(),
        })
    }

    /// Answers a datagram, and binds a domain where it is a SETDOM that may. The reply is at the front of the buffer,
    /// and has this length; it is 0 for silence.
    pub fn on_call(&mut self, call: &[u8], from: Peer, buf: &mut [u8]) -> usize
        requires { datagram_max ≤ length buf.old }
        ensures reply { IsReply (reply_to self.old (asked_by call.now)) result buf.new }
        ensures bindings { self.new ≡ with_event self.old (Called (set_by self.old from (asked_by call.now))) }
    {
        let request = read_request(call);
        let len = self.put_reply(&request, buf);
        let set = self.set_by(&request, from);
        self.happen(set, Event::Called { set });
        len
    }

    /// The next ping of the round, which is to be sent now, if any isn't out.
    pub fn next_ping(&mut self) -> Option<Ping>
        ensures ping { result ≡ next_ping_of self.old }
        ensures bindings { self.new ≡ after_ping self.old result }
        ensures within { IfSome result (λ ping. ping.domain < length self.old.domains) }
        ensures fewer { IfSome result (λ _. pings_left self.new < pings_left self.old) }
    {
        let Some(target) = self.target(self.pinged) else {
            return None;
        };
        let xid = self.next_xid;
        self.pinged += 1;
        self.next_xid = xid.wrapping_add(1);
        self.history.add(Event::Pinged);
        Some(Ping {
            xid,
            server: target.server,
            domain: target.domain,
        })
    }

    /// A reply to a ping came, and says whether the server has the domain. It is true where the domain is bound to that
    /// server then.
    pub fn on_offer(&mut self, xid: u32, from: Peer, yes: bool) -> bool
        ensures taken { result ≡ is_some (taken_by self.old xid from yes) }
        ensures bindings { self.new ≡ with_event self.old (Offered (taken_by self.old xid from yes)) }
    {
        let taken = if yes { self.taken(xid, from) } else { None };
        self.happen(taken, Event::Offered { taken });
        taken.is_some()
    }

    /// Nothing came for a while. The third time ends a binding, and a new round begins.
    pub fn on_quiet(&mut self)
        ensures { self.new ≡ with_event self.old Quiet }
    {
        rest_all(&mut self.standings);
        self.pinged = 0;
        self.first_xid = self.next_xid;
        self.history.add(Event::Quiet);
    }

    /// The server that a domain is bound to.
    pub fn binding(&self, domain: u32) -> Option<Peer>
        requires { domain < length self.now.domains }
        ensures { result ≡ binding_of domain self.now.events }
    {
        self.standings[domain as usize].bound()
    }

    /// An event binds a domain, or none.
    fn happen(&mut self, binding: Option<Binding>, event: Event)
        requires { Binds (length self.old.domains) binding event }
        ensures { self.new ≡ with_event self.old event }
    {
        match binding {
            Some(binding) => self.bind(binding, event),
            None => self.pass(event),
        }
    }

    /// An event binds a domain.
    fn bind(&mut self, binding: Binding, event: Event)
        requires { Binds (length self.old.domains) (Some binding) event }
        ensures { self.new ≡ with_event self.old event }
    {
        self.standings[binding.domain as usize].bind(binding.server);
        self.history.add(event);
    }

    /// An event binds no domain.
    fn pass(&mut self, event: Event)
        requires { Binds (length self.old.domains) None event }
        ensures { self.new ≡ with_event self.old event }
    {
        self.history.add(event);
    }

    /// The number of a domain.
    fn number(&self, domain: &[u8]) -> Option<u32>
        ensures number { result ≡ domain_number self.now domain.now }
        ensures within { IfSome result (λ number. number < length self.now.domains) }
    {
        for number in 0..self.domains.len() {
            if self.domains[number].as_slice() == domain {
                return Some(number as u32);
            }
        }
        None
    }

    /// Puts the reply to a request at the front of a buffer, and answers its length.
    fn put_reply(&self, request: &Request<'_>, buf: &mut [u8]) -> usize
        requires { datagram_max ≤ length buf.old }
        ensures { IsReply (reply_to self.now (asked_view request.now)) result buf.new }
    {
        match request {
            Request::Nothing => 0,
            Request::Answer { xid, head } => put_head(buf, *xid, head),
            Request::Domain { xid, asked } => match self.number(asked.domain) {
                None => put_unbound(buf, *xid, BindErr::Err),
                Some(number) => put_bound(buf, *xid, self.binding(number)),
            },
            Request::Setdom { xid, .. } => put_head(buf, *xid, &ReplyHead::Success),
        }
    }

    /// The binding that a caller's request sets.
    fn set_by(&self, request: &Request<'_>, from: Peer) -> Option<Binding>
        ensures set { result ≡ set_by self.now from (asked_view request.now) }
        ensures within { IfSome result (λ binding. binding.domain < length self.now.domains) }
    {
        match request {
            Request::Setdom { asked, server, .. }
                if asked.vers == YPVERS && lets(self.policy, from) => {
                let server = *server;
                match self.number(asked.domain) {
                    None => None,
                    Some(domain) => Some(Binding { domain, server }),
                }
            }
            _ => None,
        }
    }

    /// The server that is pinged at this place of the round, and the domain that it is pinged for.
    fn target(&self, place: usize) -> Option<Binding>
        ensures target { result ≡ slice_get (targets self.now) place }
        ensures within { IfSome result (λ target. target.domain < length self.now.domains) }
    {
        let mut left = place;
        for domain in 0..self.standings.len() {
            let asked = self.standings[domain].asked;
            let count = target_count(&self.servers, asked);
            if left < count {
                return Some(Binding {
                    domain: domain as u32,
                    server: target_server(&self.servers, asked, left),
                });
            }
            left -= count;
        }
        None
    }

    /// The server that the ping of the round with this xid went to, and its domain, if it is out.
    fn pinged_with(&self, xid: u32) -> Option<Binding>
        ensures ping { result ≡ option_map target_of (ping_with self.now xid) }
        ensures within { IfSome result (λ target. target.domain < length self.now.domains) }
    {
        let place = xid.wrapping_sub(self.first_xid) as usize;
        if place < self.pinged {
            self.target(place)
        } else {
            None
        }
    }

    /// The binding that an offer with this xid gives.
    fn taken(&self, xid: u32, from: Peer) -> Option<Binding>
        ensures taken { result ≡ taken_from self.now from (ping_with self.now xid) }
        ensures within { IfSome result (λ binding. binding.domain < length self.now.domains) }
    {
        match self.pinged_with(xid) {
            None => None,
            Some(target) => taken_at(target, self.binding(target.domain), from),
        }
    }
}

/// The binding that an offer of a server gives that was pinged for a domain, which is bound so.
fn taken_at(target: Binding, bound: Option<Peer>, from: Peer) -> Option<Binding>
    ensures taken { result ≡ taken_at target bound from }
    ensures within { IfSome result (λ binding. binding.domain ≡ target.domain) }
{
    if is_same_peer(target.server, from) && may_bind(bound, from) {
        Some(Binding {
            domain: target.domain,
            server: from,
        })
    } else {
        None
    }
}

/// How many servers a domain pings that was bound so when the round began.
fn target_count(servers: &[Peer], asked: Option<Peer>) -> usize
    ensures { (domain : ℕ) → result ≡ length (targets_of servers.now domain asked) }
{
    match asked {
        None => servers.len(),
        Some(_) => 1,
    }
}

/// The server at this place of those.
fn target_server(servers: &[Peer], asked: Option<Peer>, place: usize) -> Peer
    requires { place < length (targets_of servers.now 0 asked) }
    ensures { (domain : ℕ) → slice_get (targets_of servers.now domain asked) place
        ≡ Some (record { domain = domain; server = result }) }
{
    match asked {
        None => servers[place],
        Some(server) => server,
    }
}

/// Whether two peers are one.
pub fn is_same_peer(a: Peer, b: Peer) -> bool
    ensures { result ≡ is_same_peer a b }
{
    a.addr == b.addr && a.port == b.port
}

/// Whether a domain that is bound so may be bound to a server.
fn may_bind(bound: Option<Peer>, server: Peer) -> bool
    ensures { result ≡ may_bind bound server }
{
    match bound {
        None => true,
        Some(bound) => is_same_peer(bound, server),
    }
}

/// Whether a caller may bind domains.
fn lets(policy: Policy, from: Peer) -> bool
    ensures { result ≡ lets policy from }
{
    match policy {
        Policy::Fixed => false,
        Policy::Ypsetme => from.addr == OWN_HOST,
        Policy::Ypset => true,
    }
}

/// Puts the head of a reply at the front of the buffer, and answers its length.
fn put_head(buf: &mut [u8], xid: u32, head: &ReplyHead) -> usize
    requires { datagram_max ≤ length buf.old }
    ensures head { take result buf.new ≡ reply_head xid head.now }
    ensures some { 0 < result }
    ensures short { result ≤ 32 }
{
    match write_reply(buf, xid, head) {
        Ok(len) => len,
        Err(NoRoom) => unreachable!(),
    }
}

/// Puts the reply of DOMAIN at the front of the buffer, and answers its length.
fn put_answer(buf: &mut [u8], xid: u32, answer: &BindResp<'_>) -> usize
    requires room { datagram_max ≤ length buf.old }
    requires within { BindRespIsWithin answer.now }
    ensures { IsReply (Some (reply_head xid Success ++ spelling bind_resp (bind_resp_view answer.now))) result buf.new }
{
    let at = put_head(buf, xid, &ReplyHead::Success);
    answer.set(buf, at)
}

/// Puts the reply of DOMAIN for a domain that is bound to this server, or to none.
fn put_bound(buf: &mut [u8], xid: u32, bound: Option<Peer>) -> usize
    requires { datagram_max ≤ length buf.old }
    ensures { IsReply (Some (reply_head xid Success ++ spelling bind_resp (bound_answer bound))) result buf.new }
{
    match bound {
        None => put_unbound(buf, xid, BindErr::Noserv),
        Some(server) => {
            let answer = BindResp::Bound {
                addr: &server.addr,
                port: &server.port.to_be_bytes(),
            };
            put_answer(buf, xid, &answer)
        }
    }
}

/// Puts the reply of DOMAIN with an error.
fn put_unbound(buf: &mut [u8], xid: u32, error: BindErr) -> usize
    requires { datagram_max ≤ length buf.old }
    ensures { IsReply (Some (reply_head xid Success ++ spelling bind_resp (inr (error_number error)))) result buf.new }
{
    let answer = BindResp::Unbound {
        error: error.number().cast_unsigned(),
    };
    put_answer(buf, xid, &answer)
}
