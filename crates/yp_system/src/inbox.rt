//! Letters of the system at a port: datagrams, and records of connections.

ghost use Rattle.std.specs.Prelude.{◌≡◌, None, All, IfOk, length};
ghost use Rattle.yp_io.specs.Counts.{CountsFaults};
ghost use Rattle.std.specs.Net.Addr.{ipv4_octets};
ghost use Rattle.std.specs.Net.Socket.{v4_ip, v4_port};

use crate::hall::usual_limits;
use crate::places::Limits;
use crate::post::Post;
use std::alloc::Global;
use std::io;
use std::io::ErrorKind;
use std::net::{Net, SocketAddrV4};
use std::rt::Files;
use std::time::Clock;
use yp_io::{Failed, Inbox, Mail, Peer, count_fault};

/// A port of UDP over IPv4, on every address of this machine, and the same port of TCP where that is wanted. It is
/// opened at the first call, or by `open`, so that a command that has no use for it opens nothing, and a port that
/// can't be opened is a fault of that call. It tells nothing of its letters.
///
/// A letter is a datagram, or a record of a caller by TCP of at most [`CALL_MAX`](crate::CALL_MAX) bytes. Datagrams and
/// records come by turns. A caller has one letter at a time, and the first letter that is then sent to it, before the
/// next turn, is the reply: it goes back over the connection as one record, as fast as its caller takes it, whom nobody
/// waits for. All else that is sent is a datagram. One to the sender of the last datagram leaves from the address to
/// which that came. What one caller does ends nothing for another: it is let go alone where its record is too long or
/// over its time, where it takes no reply, and where it was idle longest and there is no room for one more.
///
/// Where one thread isn't enough for a port it may have further [`ends`](UdpInbox::ends).
#[derive(Drop)]
pub struct UdpInbox<R> {
    alloc: Global,
    system: R,
    port: u16,
    limits: Option<Limits>,
    post: Option<Post>,
    turns: u64,
    quiets: u64,
    faults: u64,
}

impl<R: Net + Clock + Files> UdpInbox<R> {
    /// The inbox of a port of UDP. Nothing is opened yet.
    pub fn new(alloc: Global, system: R, port: u16) -> UdpInbox<R>
        ensures turns { ⟦<UdpInbox<R> as Inbox>⟧.turns result ≡ 0 }
        ensures quiets { ⟦<UdpInbox<R> as Inbox>⟧.quiets result ≡ 0 }
        ensures faults { ⟦<UdpInbox<R> as Inbox>⟧.faults result ≡ 0 }
        ensures port { result.port ≡ port }
    {
        UdpInbox::with(alloc, system, port, None)
    }

    /// The inbox of a port of UDP and of TCP. Nothing is opened yet.
    pub fn with_calls(alloc: Global, system: R, port: u16) -> UdpInbox<R>
        ensures turns { ⟦<UdpInbox<R> as Inbox>⟧.turns result ≡ 0 }
        ensures quiets { ⟦<UdpInbox<R> as Inbox>⟧.quiets result ≡ 0 }
        ensures faults { ⟦<UdpInbox<R> as Inbox>⟧.faults result ≡ 0 }
        ensures port { result.port ≡ port }
    {
        UdpInbox::with(alloc, system, port, Some(usual_limits()))
    }

    /// The inbox of a port of UDP, and of TCP where there are limits for its callers.
    pub fn with(alloc: Global, system: R, port: u16, limits: Option<Limits>) -> UdpInbox<R>
        ensures turns { ⟦<UdpInbox<R> as Inbox>⟧.turns result ≡ 0 }
        ensures quiets { ⟦<UdpInbox<R> as Inbox>⟧.quiets result ≡ 0 }
        ensures faults { ⟦<UdpInbox<R> as Inbox>⟧.faults result ≡ 0 }
        ensures port { result.port ≡ port }
    {
        UdpInbox {
            alloc,
            system,
            port,
            limits,
            post: None,
            turns: 0,
            quiets: 0,
            faults: 0,
        }
    }

    /// Opens the port ahead of the first call, so that what comes before that isn't lost. Where it can't be opened, the
    /// first call tries again, and fails.
    pub fn open(&mut self)
        ensures faults { ⟦<UdpInbox<R> as Inbox>⟧.faults self.new ≡ ⟦<UdpInbox<R> as Inbox>⟧.faults self.old }
        ensures port { self.new.port ≡ self.old.port }
    {
        let _ = opened(
            self.alloc,
            &self.system,
            self.port,
            self.limits,
            &mut self.post,
        );
    }
}

impl<R: Net + Clock + Files + Copy> UdpInbox<R> {
    /// Opens so many further ends of the port, for threads of their own. Each is an inbox by itself, of datagrams
    /// alone: the system deals out their senders, so that one sender always comes to the same end, for as long as no
    /// end is opened or dropped. One that isn't received from any more is therefore to be dropped. This inbox keeps the
    /// callers by TCP, and what comes to all hosts of a network. A datagram leaves as from here.
    ///
    /// From then on other programs of the same user can take part in the port, where they ask for that (SO_REUSEPORT).
    ///
    /// `Failed` where the port isn't open and can't be opened now, or the system has no descriptor or no memory for
    /// them. Then there is none.
    pub fn ends(&mut self, alloc: Global, count: u32) -> Result<Vec<UdpInbox<R>>, Failed>
        ensures count { IfOk result (λ ends. length ends.items ≡ count) }
        ensures past { IfOk result (λ ends. All (λ end. ⟦<UdpInbox<R> as Inbox>⟧.past end ≡ None) ends.items) }
        ensures turns { IfOk result (λ ends. All (λ end. ⟦<UdpInbox<R> as Inbox>⟧.turns end ≡ 0) ends.items) }
        ensures quiets { IfOk result (λ ends. All (λ end. ⟦<UdpInbox<R> as Inbox>⟧.quiets end ≡ 0) ends.items) }
        ensures faults { IfOk result (λ ends. All (λ end. ⟦<UdpInbox<R> as Inbox>⟧.faults end ≡ 0) ends.items) }
        ensures port { self.new.port ≡ self.old.port }
        ensures own_turns { ⟦<UdpInbox<R> as Inbox>⟧.turns self.new ≡ ⟦<UdpInbox<R> as Inbox>⟧.turns self.old }
        ensures own_quiets { ⟦<UdpInbox<R> as Inbox>⟧.quiets self.new ≡ ⟦<UdpInbox<R> as Inbox>⟧.quiets self.old }
        ensures cause { CountsFaults
            (⟦<UdpInbox<R> as Inbox>⟧.faults self.old)
            (⟦<UdpInbox<R> as Inbox>⟧.faults self.new)
            result }
    {
        match self.further(alloc, count) {
            Ok(ends) => Ok(ends),
            Err(_) => Err(count_fault(&mut self.faults)),
        }
    }

    /// Opens one more end of the port, which is only sent from: nothing comes to it. What it sends leaves from the
    /// port, and from the address that the system chooses for the way.
    ///
    /// `Failed` where the port isn't open and can't be opened now, or the system has no descriptor or no memory for it.
    pub fn sending(&mut self, alloc: Global) -> Result<UdpInbox<R>, Failed>
        ensures past { IfOk result (λ end. ⟦<UdpInbox<R> as Inbox>⟧.past end ≡ None) }
        ensures turns { IfOk result (λ end. ⟦<UdpInbox<R> as Inbox>⟧.turns end ≡ 0) }
        ensures quiets { IfOk result (λ end. ⟦<UdpInbox<R> as Inbox>⟧.quiets end ≡ 0) }
        ensures faults { IfOk result (λ end. ⟦<UdpInbox<R> as Inbox>⟧.faults end ≡ 0) }
        ensures port { self.new.port ≡ self.old.port }
        ensures own_turns { ⟦<UdpInbox<R> as Inbox>⟧.turns self.new ≡ ⟦<UdpInbox<R> as Inbox>⟧.turns self.old }
        ensures own_quiets { ⟦<UdpInbox<R> as Inbox>⟧.quiets self.new ≡ ⟦<UdpInbox<R> as Inbox>⟧.quiets self.old }
        ensures cause { CountsFaults
            (⟦<UdpInbox<R> as Inbox>⟧.faults self.old)
            (⟦<UdpInbox<R> as Inbox>⟧.faults self.new)
            result }
    {
        match self.sending_end(alloc) {
            Ok(end) => Ok(end),
            Err(_) => Err(count_fault(&mut self.faults)),
        }
    }

    // An end of the port that is only sent from.
    fn sending_end(&mut self, alloc: Global) -> io::Result<UdpInbox<R>>
        ensures fresh { IfOk result (λ end. (end.turns ≡ 0) × (end.quiets ≡ 0) × (end.faults ≡ 0)) }
        ensures own { (self.new.port ≡ self.old.port) × (self.new.turns ≡ self.old.turns)
            × (self.new.quiets ≡ self.old.quiets) × (self.new.faults ≡ self.old.faults) }
    {
        let post = opened(
            self.alloc,
            &self.system,
            self.port,
            self.limits,
            &mut self.post,
        )?;
        let post = post.sending(alloc, &self.system)?;
        let mut end = UdpInbox::new(alloc, self.system, self.port);
        end.post = Some(post);
        Ok(end)
    }

    // So many further ends of the port.
    #[tactic(auto, using(crate::proofs::Ends::and_one_more))]
    fn further(&mut self, alloc: Global, count: u32) -> io::Result<Vec<UdpInbox<R>>>
        ensures count { IfOk result (λ ends. length ends.items ≡ count) }
        ensures turns { IfOk result (λ ends. All (λ end. end.turns ≡ 0) ends.items) }
        ensures quiets { IfOk result (λ ends. All (λ end. end.quiets ≡ 0) ends.items) }
        ensures faults { IfOk result (λ ends. All (λ end. end.faults ≡ 0) ends.items) }
        ensures own { (self.new.port ≡ self.old.port) × (self.new.turns ≡ self.old.turns)
            × (self.new.quiets ≡ self.old.quiets) × (self.new.faults ≡ self.old.faults) }
    {
        let mut ends = Vec::new(alloc);
        for _ in 0..count {
            ends.push(self.further_end(alloc)?)?;
        }
        Ok(ends)
    }

    // One further end of the port.
    fn further_end(&mut self, alloc: Global) -> io::Result<UdpInbox<R>>
        ensures fresh { IfOk result (λ end. (end.turns ≡ 0) × (end.quiets ≡ 0) × (end.faults ≡ 0)) }
        ensures own { (self.new.port ≡ self.old.port) × (self.new.turns ≡ self.old.turns)
            × (self.new.quiets ≡ self.old.quiets) × (self.new.faults ≡ self.old.faults) }
    {
        let post = opened(
            self.alloc,
            &self.system,
            self.port,
            self.limits,
            &mut self.post,
        )?;
        let post = post.further(alloc, &self.system)?;
        let mut end = UdpInbox::new(alloc, self.system, self.port);
        end.post = Some(post);
        Ok(end)
    }
}

// What comes to a port, which the first call opens.
fn opened<'a, R: Net + Clock + Files>(
    alloc: Global,
    system: &R,
    port: u16,
    limits: Option<Limits>,
    post: &'a mut Option<Post>,
) -> io::Result<&'a mut Post> {
    if post.is_none() {
        *post = Some(Post::open(alloc, system, port, limits)?);
    }
    post.as_mut().ok_or(ErrorKind::NotConnected.into())
}

pub(crate) fn peer_of(address: &SocketAddrV4) -> Peer
    ensures addr { result.addr ≡ ipv4_octets (v4_ip address.now) }
    ensures port { result.port ≡ v4_port address.now }
{
    Peer {
        addr: address.ip().octets(),
        port: address.port(),
    }
}

impl<R: Net + Clock + Files> Inbox for UdpInbox<R> {
    ghost past = { λ _. None };

    ghost turns = { λ b. b.turns };

    ghost quiets = { λ b. b.quiets };

    ghost faults = { λ b. b.faults };

    fn next(&mut self, buf: &mut [u8]) -> Result<Mail, Failed> {
        let answer = match opened(
            self.alloc,
            &self.system,
            self.port,
            self.limits,
            &mut self.post,
        ) {
            Ok(post) => post.next(&self.system, buf),
            Err(error) => Err(error),
        };
        match answer {
            Ok(mail) => {
                self.turns = self.turns.saturating_add(1);
                if let Mail::Quiet = mail {
                    self.quiets = self.quiets.saturating_add(1);
                }
                Ok(mail)
            }
            Err(_) => Err(count_fault(&mut self.faults)),
        }
    }

    fn send(&mut self, to: Peer, piece: &[u8]) -> Result<(), Failed> {
        let answer = match opened(
            self.alloc,
            &self.system,
            self.port,
            self.limits,
            &mut self.post,
        ) {
            Ok(post) => post.send(to, piece),
            Err(error) => Err(error),
        };
        match answer {
            Ok(()) => Ok(()),
            Err(_) => Err(count_fault(&mut self.faults)),
        }
    }
}
