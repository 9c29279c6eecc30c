//! A walk over the rows of a map.

ghost use Rattle.std.specs.Prelude.{◌≡◌, ◌≤◌, length, take};
ghost use Rattle.yp_messages.specs.Numbers.{name_max};
ghost use Rattle.yp_rpc.specs.Turns.{datagram_max};
ghost use Rattle.yp_transfer.specs.inside.Requests.{wanted_by};
ghost use Rattle.yp_transfer.specs.walk.Standings.{IsAsking};
ghost use Rattle.yp_transfer.specs.walk.Schedules.{outstanding, Hears, AddsDelivery, answers, is_awaited, told};
ghost use Rattle.yp_transfer.specs.inside.walk.Walks.{WalkIsBegun, map_call, WalkIsDone, WalkGoesOn, WalkGivesVersion};

use crate::XfrFault;
use crate::requests::FetchRequest;
use crate::walk::stage::{WalkRequest, WalkStage};
use crate::walk::state_after::state_after;
use crate::walk::walked::Walked;
use std::alloc::Global;
use std::marker::Model;
use std::mem;
use std::random::RandomSource;
use yp_client::{RemoteProcedure, set_call};
use yp_io::{NoMemory, Peer};
use yp_messages::protocol::{FIRST, MASTER, NEXT, ORDER, YPPROG, YPVERS};
use yp_messages::{ReqKey, ReqNokey};
use yp_rpc::protocol::REPLY;
use yp_version::Version;
use yp_xdr::Cursor;

/// A map of a domain that is fetched row by row from a source that serves datagrams. It has one builder and one
/// outstanding call, whose number begins with 1.
#[derive(Drop)]
pub struct Walk {
    source: Peer,
    asked: WalkRequest,
    /// The number of the outstanding call.
    xid: u32,
    stage: WalkStage,
}

impl Model for Walk {
    ghost use Rattle.yp_transfer.specs.walk.Schedules.{Walking};

    ghost Value = { Walking };

    ghost use Rattle.yp_transfer.specs.inside.walk.Inside.{walking_of, IsKept};

    ghost view = { walking_of };

    ghost invariant = { IsKept };
}

/// A procedure of YP.
fn procedure(number: u32) -> RemoteProcedure
    ensures { result ≡ record { prog = 100004; vers = 2; procedure = number } }
{
    RemoteProcedure {
        prog: YPPROG,
        vers: YPVERS,
        procedure: number,
    }
}

/// Whether a mail begins as the reply to the call with a number.
fn answers(mail: &[u8], xid: u32) -> bool
    ensures { result ≡ answers xid mail.now }
{
    let mut cursor = Cursor::new(mail);
    match (cursor.u32(), cursor.u32()) {
        (Ok(number), Ok(kind)) => number == xid && kind == REPLY,
        _ => false,
    }
}

impl Walk {
    /// A walk over a map of a domain at a source, of which nothing was asked. A name that is empty is refused.
    ///
    /// Unless it is forced, an order that isn't over the one that is shown is refused by the first reply.
    pub fn new(alloc: Global, source: Peer, request: &FetchRequest<'_>) -> Result<Walk, XfrFault>
        requires domain { length request.now.domain.now ≤ name_max }
        requires map { length request.now.map.now ≤ name_max }
        ensures { WalkIsBegun source (wanted_by request.now) result }
    {
        if request.domain.is_empty() || request.map.is_empty() {
            return Err(XfrFault::Badargs);
        }
        let (Ok(domain), Ok(map)) = (
            Vec::from_slice(alloc, request.domain),
            Vec::from_slice(alloc, request.map),
        ) else {
            return Err(XfrFault::NoMemory);
        };
        Ok(Walk {
            source,
            asked: WalkRequest {
                alloc,
                domain,
                map,
                shown: request.shown,
                force: request.force,
            },
            xid: 1,
            stage: WalkStage::Order,
        })
    }

    /// Its source.
    pub fn source(&self) -> Peer
        ensures { result ≡ self.now.source }
    {
        self.source
    }

    /// How it stands: `Onward` while a call is outstanding, `Done` once the version is whole, or the refusal.
    pub fn told(&self) -> Result<Walked, XfrFault>
        ensures told { result ≡ told self.now.standing }
        ensures goes_on { WalkGoesOn result self.now.standing }
    {
        self.stage.told()
    }

    /// Puts the outstanding call at the front of the buffer, and answers its length, which is 0 where the walk has
    /// ended.
    pub fn ask(&self, buf: &mut [u8]) -> usize
        requires { datagram_max ≤ length buf.old }
        ensures call { take result buf.new ≡ outstanding self.now }
        ensures within { result ≤ length buf.new }
    {
        match &self.stage {
            WalkStage::Order | WalkStage::Again(_, _) => self.ask_of_map(ORDER, buf),
            WalkStage::Master(_) => self.ask_of_map(MASTER, buf),
            WalkStage::First(_) => self.ask_of_map(FIRST, buf),
            WalkStage::Next { key, .. } => {
                let arguments = ReqKey {
                    domain: &self.asked.domain,
                    map: &self.asked.map,
                    key,
                };
                set_call(buf, self.xid, procedure(NEXT), &arguments)
            }
            WalkStage::Ended(_) => 0,
        }
    }

    /// Puts a call about the map at the front of the buffer.
    fn ask_of_map(&self, number: u32, buf: &mut [u8]) -> usize
        requires { datagram_max ≤ length buf.old }
        ensures call { take result buf.new ≡ map_call number self.now }
        ensures within { result ≤ length buf.new }
    {
        let arguments = ReqNokey {
            domain: &self.asked.domain,
            map: &self.asked.map,
        };
        set_call(buf, self.xid, procedure(number), &arguments)
    }

    /// Hears a mail. The awaited one is the first of the source that begins with the number of the outstanding call and
    /// with 1, REPLY; any other changes nothing. `Done` comes with the last ORDER, and each refusal with the awaited
    /// mail. After either no more is heard.
    pub fn on_mail(
        &mut self,
        rt: &impl RandomSource,
        from: Peer,
        mail: &[u8],
    ) -> Result<Walked, XfrFault>
        requires { IsAsking self.old.standing }
        ensures hears { Hears (from, mail.now) result self.old self.new }
        ensures adds { AddsDelivery (from, mail.now) result self.old self.new }
        ensures goes_on { WalkGoesOn result self.new.standing }
    {
        self.hear(rt, from, mail)
    }

    /// Hears one mail, as a statement about this mail alone.
    fn hear(&mut self, rt: &impl RandomSource, from: Peer, mail: &[u8]) -> Result<Walked, XfrFault>
        requires { IsAsking self.old.standing }
        ensures hears { Hears (from, mail.now) result self.old self.new }
        ensures goes_on { WalkGoesOn result self.new.standing }
    {
        if !self.awaits(from, mail) {
            return Ok(Walked::Ignored);
        }
        let stage = mem::replace(&mut self.stage, WalkStage::Order);
        self.stage = state_after(rt, &self.asked, self.xid, stage, mail);
        self.xid = self.xid.wrapping_add(1);
        self.stage.told()
    }

    /// Whether this is the awaited mail.
    fn awaits(&self, from: Peer, mail: &[u8]) -> bool
        ensures { result ≡ is_awaited self.now.source self.now.xid (from, mail.now) }
    {
        from.addr == self.source.addr && from.port == self.source.port && answers(mail, self.xid)
    }

    /// The version, with the rows in rising order of their keys, not secure.
    pub fn finish(self) -> Result<Version, XfrFault>
        requires { WalkIsDone self.standing }
        ensures { WalkGivesVersion self.standing result }
    {
        let Walk { stage, .. } = self;
        let WalkStage::Ended(Ok(builder)) = stage else {
            unreachable!()
        };
        match builder.finish() {
            Ok(version) => Ok(version),
            Err(NoMemory) => Err(XfrFault::NoMemory),
        }
    }
}
