//! A call that is sent, and its reply that is read.

ghost use Rattle.std.specs.Prelude.{◌≡◌, ℕ, ◌+◌, ◌<◌, ◌≤◌, [], length, take, IsTrue, IfOk, IfErr, OnErr, OnOk};
ghost use Rattle.std.specs.Io.KnownBytes.{Appends};
ghost use Rattle.yp_io.specs.Counts.{CountsFaults};
ghost use Rattle.yp_xdr.specs.Spelling.{spelling};
ghost use Rattle.yp_rpc.specs.Records.{sent, TakesRecord};
ghost use Rattle.yp_rpc.specs.Pieces.{not_begun};
ghost use Rattle.yp_rpc.specs.Called.{call_of};
ghost use Rattle.yp_client.specs.Limits.{reply_max};
ghost use Rattle.yp_client.specs.inside.States.{told_by, state_of, unspent};
ghost use Rattle.yp_client.specs.Calls.{SendsCall, WaitsForReply, NoReply};

use crate::connection::Connection;
use crate::fault::ClientFault;
use std::snapshot::Snapshot;
use yp_io::{Failed, Sink, Source};
use yp_messages::Message;
use yp_rpc::{RecordReader, RecordWriter, write_call};
use yp_xdr::{NoRoom, laws};

/// A procedure of a version of a program.
#[derive(Clone, Copy)]
pub struct RemoteProcedure {
    pub prog: u32,
    pub vers: u32,
    pub procedure: u32,
}

/// Puts a call at the front of the buffer, and answers its length.
pub fn set_call<M: Message>(
    buf: &mut [u8],
    xid: u32,
    called: RemoteProcedure,
    arguments: &M,
) -> usize
    requires within { M.is_within arguments.now }
    requires room { 40 + length (spelling M.kind (M.view arguments.now)) ≤ length buf.old }
    ensures call { take result buf.new
        ≡ call_of M.kind xid called.prog called.vers called.procedure (M.view arguments.now) }
    ensures within { result ≤ length buf.new }
    ensures some { 0 < result }
{
    laws::written_is_joined();
    let at = match write_call(buf, xid, called.prog, called.vers, called.procedure) {
        Ok(at) => at,
        Err(NoRoom) => unreachable!(),
    };
    arguments.set(buf, at)
}

/// Sends a call, which is put together in the buffer.
pub fn ask<K: Sink, M: Message>(
    sink: &mut K,
    writer: &mut RecordWriter,
    buf: &mut [u8],
    xid: u32,
    called: RemoteProcedure,
    arguments: &M,
) -> Result<(), Failed>
    requires idle { writer.old ≡ [] }
    requires within { M.is_within arguments.now }
    requires room { 40 + length (spelling M.kind (M.view arguments.now)) ≤ length buf.old }
    ensures sent { OnOk result (Appends (K.output sink.old) (K.output sink.new)
        (sent (call_of M.kind xid called.prog called.vers called.procedure (M.view arguments.now)))) }
    ensures prefix { OnErr result ((n : ℕ) × Appends (K.output sink.old) (K.output sink.new)
        (take n (sent (call_of M.kind xid called.prog called.vers called.procedure (M.view arguments.now))))) }
    ensures flushed { OnOk result (IsTrue (K.flushed sink.new)) }
    ensures idle { writer.new ≡ [] }
    ensures cause { CountsFaults (K.faults sink.old) (K.faults sink.new) result }
{
    let len = set_call(buf, xid, called, arguments);
    writer.send(sink, &buf[..len])
}

impl<S: Source, K: Sink> Connection<S, K> {
    /// Sends a call, notes its wire, and then reads its reply to the front of the buffer. It answers the length of the
    /// reply.
    pub fn exchange<M: Message>(
        &mut self,
        xid: u32,
        called: RemoteProcedure,
        arguments: &M,
    ) -> Result<usize, ClientFault>
        requires idle { self.old.writer ≡ [] }
        requires between { self.old.reader.part ≡ not_begun }
        requires within { M.is_within arguments.now }
        requires buffer { length self.old.buf.items ≡ reply_max }
        requires room { 40 + length (spelling M.kind (M.view arguments.now)) ≤ reply_max }
        ensures idle { self.new.writer ≡ [] }
        ensures between { self.new.reader.part ≡ not_begun }
        ensures buffer { length self.new.buf.items ≡ reply_max }
        ensures sent { SendsCall (call_of M.kind xid called.prog called.vers called.procedure (M.view arguments.now))
            result (told_by S.Source K.Sink self.old.wire) (told_by S.Source K.Sink self.new.wire) }
        ensures waited { WaitsForReply result (told_by S.Source K.Sink self.new.waited.value)
            (told_by S.Source K.Sink self.old.wire) (told_by S.Source K.Sink self.new.wire) }
        ensures within { IfOk result (λ len. len ≤ length self.new.buf.items) }
        ensures taken { IfOk result (λ len. TakesRecord reply_max (take len self.new.buf.items)
            (S.input self.old.wire.source) (S.input self.new.wire.source) self.old.reader.place self.new.reader.place) }
        ensures cause { IfErr result (λ fault. NoReply reply_max fault
            (state_of S.Source K.Sink (unspent self.old.wire xid self.old.reader.place))
            (state_of S.Source K.Sink (unspent self.new.wire xid self.new.reader.place))) }
        ensures reads { S.faults self.old.wire.source ≤ S.faults self.new.wire.source }
        ensures writes { K.faults self.old.wire.sink ≤ K.faults self.new.wire.sink }
    {
        let sink = &mut self.wire.sink;
        if let Err(Failed) = ask(
            sink,
            &mut self.writer,
            &mut self.buf,
            xid,
            called,
            arguments,
        ) {
            return Err(ClientFault::WriteFault);
        }
        self.waited = Snapshot::of(&self.wire);
        match self.reader.next(&mut self.wire.source, &mut self.buf) {
            Ok(Some(len)) => Ok(len),
            Ok(None) => Err(ClientFault::Torn {
                at: self.reader.place(),
            }),
            Err(fault) => Err(fault.into()),
        }
    }
}
