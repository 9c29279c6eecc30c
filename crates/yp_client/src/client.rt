//! The client.

ghost use Rattle.std.specs.Prelude.{◌≡◌, ℕ, ◌+◌, ◌≤◌, ◌<◌, true, [], List, None, length, take, MatchResult};
ghost use Rattle.std.specs.Borrow.{sem};
ghost use Rattle.yp_xdr.specs.Spelling.{spelling};
ghost use Rattle.yp_rpc.specs.Called.{call_of};
ghost use Rattle.yp_version.specs.Rows.{Row as PushedRow};
ghost use Rattle.yp_version.specs.Drafts.{with_rows, first_refused};
ghost use Rattle.yp_messages.specs.Numbers.{name_max};
ghost use Rattle.yp_client.specs.Limits.{reply_max, all_max};
ghost use Rattle.yp_client.specs.Asked.{all_call};
ghost use Rattle.yp_client.specs.All.{SaysAll};
ghost use Rattle.yp_client.specs.inside.States.{state_of, unspent};
ghost use Rattle.yp_client.specs.Said.{SaysBytes};
ghost use Rattle.yp_client.specs.inside.Said.{SaysRow};
ghost use Rattle.yp_client.specs.Results.{row_of};
ghost use Rattle.yp_client.specs.Calls.{Calls};
ghost use Rattle.yp_client.specs.inside.Lent.{ClientRests};

use crate::all::AllReply;
use crate::answers::{Lending, ProcedureResult, Row, read_found};
use crate::connection::Connection;
use crate::exchange::RemoteProcedure;
use crate::fault::{ClientFault, is_spent_by};
use crate::limits::REPLY_MAX;
use std::alloc::Global;
use std::marker::Model;
use std::snapshot::Snapshot;
use yp_io::{Pair, Sink, Source, zeros};
use yp_messages::{Message, ReqNokey};
use yp_rpc::{RecordReader, RecordWriter};
use yp_version::VersionBuilder;

/// Memory ran out. The wire is handed back.
#[derive(Drop)]
pub struct ClientRefused<S, K> {
    pub wire: Pair<S, K>,
}

/// A client of a YP server, over a wire of its own. It has one buffer, for its calls and their replies.
///
/// It is seen as its wire, the number of its next call, the place up to which it has read, whether it is spent, and its
/// wire as it was when it began to wait for a reply the last time.
#[derive(Drop)]
pub struct Client<S: Source, K: Sink> {
    alloc: Global,
    connection: Connection<S, K>,
    xid: u32,
    spent: bool,
}

impl<S: Source, K: Sink> Model for Client<S, K> {
    ghost use Rattle.yp_client.specs.States.{ClientModel};

    ghost Value = { ClientModel S K };

    ghost use Rattle.std.specs.Prelude.{◌≡◌, false, [], length};
    ghost use Rattle.yp_rpc.specs.Pieces.{not_begun};
    ghost use Rattle.yp_client.specs.Limits.{reply_max};

    ghost view = { λ c. record {
      wire = c.connection.wire;
      xid = c.xid;
      place = c.connection.reader.place;
      spent = c.spent;
      waited = c.connection.waited.value;
    } };

    ghost invariant = { λ c.
        (c.spent ≡ false → c.connection.reader.part ≡ not_begun) × (c.connection.writer ≡ [])
        × (length c.connection.buf.items ≡ reply_max) };
}

impl<S: Source, K: Sink> Client<S, K> {
    /// A client whose calls have numbers from `xid` on, which wrap. It takes the memory of its buffers.
    pub fn new(
        alloc: Global,
        wire: Pair<S, K>,
        xid: u32,
    ) -> Result<Client<S, K>, ClientRefused<S, K>>
        ensures { MatchResult result
            (λ client. client ≡ unspent wire xid 0)
            (λ refused. refused.wire ≡ wire) }
    {
        let Ok(writer) = RecordWriter::new(alloc) else {
            return Err(ClientRefused { wire });
        };
        let Ok(buf) = zeros(alloc, REPLY_MAX) else {
            return Err(ClientRefused { wire });
        };
        let waited = Snapshot::of(&wire);
        Ok(Client {
            alloc,
            connection: Connection {
                wire,
                reader: RecordReader::new(),
                writer,
                buf,
                waited,
            },
            xid,
            spent: false,
        })
    }

    /// Its wire.
    pub fn into_wire(self) -> Pair<S, K>
        ensures { result ≡ self.wire }
    {
        self.connection.wire
    }

    /// ALL: pushes the rows of a map onto a builder, up to the end of them or the first that is refused. The reply is
    /// read piece by piece, and to its end before the answer.
    pub fn all(
        &mut self,
        domain: &[u8],
        map: &[u8],
        into: &mut VersionBuilder,
    ) -> Result<(), ClientFault>
        requires domain { length domain.now ≤ name_max }
        requires map { length map.now ≤ name_max }
        ensures calls { Calls all_max (all_call domain.now map.now) (SaysAll into.old into.new) result
            (state_of S.Source K.Sink self.old) (state_of S.Source K.Sink self.new) }
        ensures kept { (rows : List PushedRow)
            × (into.new ≡ with_rows into.old rows) × (first_refused into.old rows ≡ None) }
        ensures spent { self.old.spent ≡ true → (self.new ≡ self.old) × (into.new ≡ into.old) }
    {
        if self.spent {
            return Err(ClientFault::Spent);
        }
        let mut reply = AllReply::new(self.xid);
        self.xid = self.xid.wrapping_add(1);
        let asked = ReqNokey { domain, map };
        let fetched = self.connection.fetch(&asked, &mut reply, into);
        let said = match fetched {
            Ok(said) => said,
            Err(fault) => Err(fault),
        };
        self.spent = is_spent_by(&said);
        said
    }

    /// One call: it is sent, its reply is read whole, and judged.
    pub(crate) fn call<M: Message, A: ProcedureResult>(
        &mut self,
        called: RemoteProcedure,
        arguments: &M,
        answer: &A,
    ) -> Result<A::Value, ClientFault>
        requires within { M.is_within arguments.now }
        requires room { 40 + length (spelling M.kind (M.view arguments.now)) ≤ reply_max }
        ensures { Calls reply_max
            (λ xid. call_of M.kind xid called.prog called.vers called.procedure (M.view arguments.now))
            A.answers result (state_of S.Source K.Sink self.old) (state_of S.Source K.Sink self.new) }
    {
        if self.spent {
            return Err(ClientFault::Spent);
        }
        let xid = self.xid;
        self.xid = xid.wrapping_add(1);
        let read = self.connection.exchange(xid, called, arguments);
        let judged = match read {
            Ok(len) => answer.judge(self.alloc, &self.connection.buf[..len], xid),
            Err(fault) => Err(fault),
        };
        self.spent = is_spent_by(&judged);
        judged
    }

    /// One call whose value lends bytes of the reply.
    pub(crate) fn lend<M: Message, L: Lending>(
        &mut self,
        called: RemoteProcedure,
        arguments: &M,
        lending: &L,
    ) -> Result<&[u8], ClientFault>
        requires within { M.is_within arguments.now }
        requires room { 40 + length (spelling M.kind (M.view arguments.now)) ≤ reply_max }
        ensures* calls { sem 𝓛 (ClientRests S.row K.row S.Source K.Sink self.entry (λ last. Calls reply_max
            (λ xid. call_of M.kind xid called.prog called.vers called.procedure (M.view arguments.now))
            (SaysBytes L.said) result (state_of S.Source K.Sink self.old) (state_of S.Source K.Sink last))) }
    {
        if self.spent {
            return Err(ClientFault::Spent);
        }
        let xid = self.xid;
        self.xid = xid.wrapping_add(1);
        let read = self.connection.exchange(xid, called, arguments);
        let len = match read {
            Ok(len) => len,
            Err(fault) => {
                self.spent = true;
                return Err(fault);
            }
        };
        self.spent = is_spent_by(&lending.read(&self.connection.buf[..len], xid));
        let reply = &self.connection.buf;
        lending.read(&reply[..len], xid)
    }

    /// One call whose value is a row that lends bytes of the reply.
    pub(crate) fn lend_row<M: Message>(
        &mut self,
        called: RemoteProcedure,
        arguments: &M,
    ) -> Result<Row<'_>, ClientFault>
        requires within { M.is_within arguments.now }
        requires room { 40 + length (spelling M.kind (M.view arguments.now)) ≤ reply_max }
        ensures* calls { sem 𝓛 (ClientRests S.row K.row S.Source K.Sink self.entry (λ last. Calls reply_max
            (λ xid. call_of M.kind xid called.prog called.vers called.procedure (M.view arguments.now))
            (SaysRow row_of) result (state_of S.Source K.Sink self.old) (state_of S.Source K.Sink last))) }
    {
        if self.spent {
            return Err(ClientFault::Spent);
        }
        let xid = self.xid;
        self.xid = xid.wrapping_add(1);
        let read = self.connection.exchange(xid, called, arguments);
        let len = match read {
            Ok(len) => len,
            Err(fault) => {
                self.spent = true;
                return Err(fault);
            }
        };
        self.spent = is_spent_by(&read_found(&self.connection.buf[..len], xid));
        let reply = &self.connection.buf;
        read_found(&reply[..len], xid)
    }
}
