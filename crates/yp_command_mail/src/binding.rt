//! The command `bind`: the server that a domain is bound to.

ghost use Rattle.std.specs.Prelude.{◌≡◌, ◌≢◌, ◌≤◌, ◌+◌, ◌++◌, [], ◌∷◌, length, map, take, IsTrue, IfOk};
ghost use Rattle.arrayvec.specs.ArrayVec.{array_vec_len};
ghost use Rattle.yp_io.specs.Counts.{HasRisen};
ghost use Rattle.yp_rpc.specs.Called.{call_of};
ghost use Rattle.yp_messages.specs.Messages.{req_domain};
ghost use Rattle.yp_messages.specs.Numbers.{program, version, domain_nonack_procedure};
ghost use Rattle.yp_binding.specs.Events.{binding_of};
ghost use Rattle.yp_binding.specs.Kept.{servers_max};
ghost use Rattle.yp_binding.specs.inside.Rounds.{pings_left};
ghost use Rattle.yp_board.specs.Catalogues.{name_max};
ghost use Rattle.yp_command.specs.Words.{host_view};
ghost use Rattle.yp_command.specs.office.Seeing.{seeing, IsPassedOn};
ghost use Rattle.yp_command.specs.inside.office.Status.{IsTellable};
ghost use Rattle.yp_command.specs.declared.office.status.Status.TheVariants.{Done, WriteFault};
ghost use Rattle.yp_command_mail.specs.Telling.{TellsText};
ghost use Rattle.yp_command_mail.specs.Bind.{Goes, Hears, Rests, is_reply, offer_of, unbound, server_text};
ghost use Rattle.yp_command_mail.specs.Bind.{bind_job_of, bound_line, servers_of, bind_may_end, BindDoes};

use crate::text::tell_text;
use std::alloc::{AllocError, Global};
use std::marker::Model;
use yp_binding::{Binder, Policy};
use yp_command::HostWord;
use yp_command::office::{LINE_MAX, Line, Office, Status, add, add_peer};
use yp_io::{Clock, Dial, Disk, Failed, Inbox, NoMemory, Peer, Sink, Source, Texts};
use yp_messages::protocol::{DOMAIN_NONACK, YPPROG, YPVERS};
use yp_messages::{Message, ReqDomain};
use yp_rpc::{DATAGRAM_MAX, Handler, ReplyHead, Room, Wish, read_reply_at, take_turns, write_call};
use yp_xdr::{Cursor, NoRoom, laws};

/// The second word of a reply.
const REPLY: [u8; 4] = [0, 0, 0, 1];

/// A binder of one domain.
#[derive(Drop)]
pub struct DomainBinder {
    binder: Binder,
    domain: Vec<u8>,
}

impl Model for DomainBinder {
    ghost use Rattle.std.specs.Prelude.{◌≡◌, ◌≤◌, [], ◌∷◌, length};
    ghost use Rattle.yp_binding.specs.Rounds.{Bindings};
    ghost use Rattle.yp_board.specs.Catalogues.{name_max};

    ghost Value = { Bindings };

    ghost view = { λ b. b.binder };

    ghost invariant = { λ b. (b.binder.domains ≡ b.domain.items ∷ []) × (length b.domain.items ≤ name_max) };
}

/// What a server answers to a ping.
#[derive(Clone, Copy)]
pub struct Offer {
    /// The number of the ping.
    pub xid: u32,
    /// Whether it has the domain.
    pub yes: bool,
}

/// Whether a datagram is a reply, by its second word.
fn is_reply(mail: &[u8]) -> bool
    ensures { result ≡ is_reply mail.now }
{
    mail.len() >= 4 && mail[4..].starts_with(&REPLY)
}

/// What a reply offers.
fn offer_of(mail: &[u8]) -> Option<Offer>
    ensures { result ≡ offer_of mail.now }
{
    let mut cursor = Cursor::new(mail);
    let Ok(reply) = read_reply_at(&mut cursor) else {
        return None;
    };
    match reply.head {
        ReplyHead::Success => match cursor.bool() {
            Ok(yes) => Some(Offer {
                xid: reply.xid,
                yes,
            }),
            Err(_) => None,
        },
        _ => None,
    }
}

/// Puts the call of a ping at the front of the buffer, and answers its length.
fn put_ping(buf: &mut [u8], xid: u32, domain: &[u8]) -> usize
    requires room { DATAGRAM_MAX ≤ length buf.old }
    requires domain { length domain.now ≤ name_max }
    ensures call { take result buf.new ≡ call_of req_domain xid program version domain_nonack_procedure domain.now }
    ensures within { result ≤ length buf.new }
{
    laws::written_is_joined();
    let at = match write_call(buf, xid, YPPROG, YPVERS, DOMAIN_NONACK) {
        Ok(at) => at,
        Err(NoRoom) => unreachable!(),
    };
    let arguments = ReqDomain { domain };
    arguments.set(buf, at)
}

impl Handler for DomainBinder {
    ghost goes = { Goes };

    ghost hears = { Hears };

    ghost rests = { Rests };

    ghost letters = { pings_left };

    fn next(&mut self, buf: &mut [u8]) -> Wish {
        match self.binder.next_ping() {
            None => Wish::Wait,
            Some(ping) => Wish::Send {
                to: ping.server,
                len: put_ping(buf, ping.xid, &self.domain),
            },
        }
    }

    fn hear(&mut self, from: Peer, mail: &[u8], buf: &mut [u8]) -> usize {
        if !is_reply(mail) {
            return self.binder.on_call(mail, from, buf);
        }
        if let Some(offer) = offer_of(mail) {
            self.binder.on_offer(offer.xid, from, offer.yes);
        }
        0
    }

    fn rest(&mut self) {
        self.binder.on_quiet();
    }
}

/// Adds the server that a domain is bound to, or that there is none.
fn add_server(line: &mut Line, bound: Option<Peer>)
    requires { array_vec_len line.old + 104 ≤ LINE_MAX }
    ensures text { line.new.items ≡ line.old.items ++ server_text bound }
    ensures len { array_vec_len line.new ≤ array_vec_len line.old + 104 }
{
    match bound {
        Some(peer) => add_peer(line, peer),
        None => add(line, b"none"),
    }
}

/// The line of a domain that is bound so.
fn line(domain: &[u8], bound: Option<Peer>) -> Line
    requires { length domain.now ≤ name_max }
    ensures { result.items ≡ bound_line domain.now bound }
{
    let mut line = Line::new();
    add(&mut line, domain);
    add(&mut line, b" ");
    add_server(&mut line, bound);
    add(&mut line, b"\n");
    line
}

impl DomainBinder {
    /// A binder of a domain, which asks these hosts for it.
    fn new(
        alloc: Global,
        policy: Policy,
        domain: &[u8],
        hosts: &[HostWord],
    ) -> Result<DomainBinder, NoMemory>
        requires domain { length domain.now ≤ name_max }
        requires hosts { length hosts.now ≤ servers_max }
        ensures { IfOk result (λ binding.
            binding ≡ unbound domain.now (servers_of (map host_view hosts.now)) policy) }
    {
        let Ok(servers) = servers_of(alloc, hosts) else {
            return Err(NoMemory);
        };
        let Ok(name) = Vec::from_slice(alloc, domain) else {
            return Err(NoMemory);
        };
        let Ok(domain) = Vec::from_slice(alloc, domain) else {
            return Err(NoMemory);
        };
        let Ok(domains) = vec![in alloc; name] else {
            return Err(NoMemory);
        };
        let binder = Binder::new(alloc, domains, servers, policy)?;
        Ok(DomainBinder { binder, domain })
    }

    /// The server that the domain is bound to.
    fn server(&self) -> Option<Peer>
        ensures { result ≡ binding_of 0 self.now.events }
    {
        self.binder.binding(0)
    }
}

/// The addresses of hosts.
fn servers_of(alloc: Global, hosts: &[HostWord]) -> Result<Vec<Peer>, AllocError>
    ensures { IfOk result (λ servers. servers.items ≡ servers_of (map host_view hosts.now)) }
{
    let mut servers = Vec::new(alloc);
    for host in hosts {
        servers.push(host.peer)?;
    }
    Ok(servers)
}

/// Asks these hosts for a domain, answers which server it is bound to, in so many turns, and tells that.
pub fn bind_domain<S: Source, K: Sink, D: Disk, C: Clock, A: Dial, I: Inbox, T: Texts>(
    alloc: Global,
    policy: Policy,
    turns: u64,
    domain: Vec<u8>,
    hosts: Vec<HostWord>,
    office: &mut Office<S, K, D, C, A, I, T>,
) -> Status
    requires domain { length domain.items ≤ name_max }
    requires hosts { length hosts.items ≤ servers_max }
    ensures does { BindDoes (seeing S.Source K.Sink D.Disk C.Clock A.Dial I.Inbox T.Texts)
        (bind_job_of turns domain.items (servers_of (map host_view hosts.items)) policy)
        result office.old office.new }
    ensures may_end { IsTrue (bind_may_end result) }
    ensures passed_on { IsPassedOn (seeing S.Source K.Sink D.Disk C.Clock A.Dial I.Inbox T.Texts)
        result office.old office.new }
    ensures tellable { IsTellable result }
{
    let Ok(mut room) = Room::new(alloc) else {
        return Status::NoMemory;
    };
    let Ok(mut binding) = DomainBinder::new(alloc, policy, &domain, &hosts) else {
        return Status::NoMemory;
    };
    match take_turns(&mut office.inbox, &mut binding, &mut room, turns) {
        Ok(_) => tell_text(
            &mut office.wire.sink,
            &line(&domain, binding.server()),
            Status::Done,
        ),
        Err(Failed) => Status::InboxFault,
    }
}
