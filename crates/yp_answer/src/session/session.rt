//! A session: each record of a wire is answered before the next is read.

ghost use Rattle.std.specs.Prelude.{◌≡◌, ◌≢◌, ℕ, ◌<◌, ◌≤◌, true, false, IsTrue, [], length, take, IfOk, OnOk, OnErr};
ghost use Rattle.yp_io.specs.Counts.{CountsFaults, HasRisen};
ghost use Rattle.yp_messages.specs.declared.transfer.XfrStat.{XfrStat};
ghost use Rattle.yp_answer.specs.inside.Make.{IsMadeAsNamed};
ghost use Rattle.yp_answer.specs.Numbers.{record_max};
ghost use Rattle.yp_answer.specs.Reply.{make_reply};
ghost use Rattle.yp_answer.specs.session.Wires.{NeverFalls, SeesMore, sink_of, wire_of};
ghost use Rattle.yp_answer.specs.session.Progress.{begun};
ghost use Rattle.yp_answer.specs.session.Hosts.{Turn, Fulfils};
ghost use Rattle.yp_answer.specs.inside.session.Hosts.{conduct_by};
ghost use Rattle.yp_answer.specs.session.Runs.{dialogue_at, RepliesTo, DoesStep, Runs};

use crate::session::buffers::zeros;
use crate::session::host::Host;
use crate::session::send::send_stream;
use crate::session::witness::Witness;
use crate::{Answered, MakeJob, answer, make_reply};
use std::alloc::Global;
use std::marker::Model;
use yp_io::{Failed, NoMemory, Pair, Peer, Sink, Source};
use yp_rpc::{RecordFault, RecordReader, RecordWriter};

/// The most records of a session, so that each has an end.
pub const CALLS_MAX: u64 = 1_000_000_000;

/// The most records of a session are as many as the documents say. It does nothing.
pub fn calls_max_is_defined()
    ensures { CALLS_MAX ≡ 1000000000 }
{}

/// How a session ended.
#[derive(Clone, Copy, Debug, PartialEq, Eq)]
pub enum End {
    /// Input ended between records.
    Clean,
    /// Input ended inside the record that began at this place, in bytes.
    Torn { at: u64 },
    /// The record that began at this place, in bytes, is too long.
    TooLong { at: u64 },
    /// The source failed.
    ReadFault,
    /// The sink failed.
    WriteFault,
    /// As many records were read as were allowed.
    Enough,
}

/// What came of one record.
#[derive(Clone, Copy, Debug, PartialEq, Eq)]
pub enum Step {
    /// A record was read and answered.
    Answered,
    /// The session ended.
    Ended(End),
}

/// The memory of a session. It is seen as the place up to which records were read, and how many were read whole.
#[derive(Drop)]
pub struct Session {
    reader: RecordReader,
    writer: RecordWriter,
    calls: u64,
    call: Vec<u8>,
    reply: Vec<u8>,
}

impl Model for Session {
    ghost use Rattle.yp_answer.specs.session.Progress.{Progress};

    ghost Value = { Progress };

    ghost use Rattle.std.specs.Prelude.{◌≡◌, [], length};
    ghost use Rattle.yp_answer.specs.Numbers.{record_max};
    ghost use Rattle.yp_rpc.specs.Pieces.{not_begun};

    ghost view = { λ s. record { place = s.reader.place; calls = s.calls } };

    ghost invariant = { λ s. (s.reader.part ≡ not_begun) × (s.writer ≡ [])
        × (length s.call.items ≡ record_max) × (length s.reply.items ≡ record_max) };
}

impl Session {
    /// Takes all the memory that a session needs.
    pub fn new(alloc: Global) -> Result<Session, NoMemory>
        ensures { IfOk result (λ session. session ≡ record { place = 0; calls = 0 }) }
    {
        Ok(Session {
            reader: RecordReader::new(),
            writer: RecordWriter::new(alloc)?,
            calls: 0,
            call: zeros(alloc)?,
            reply: zeros(alloc)?,
        })
    }

    /// How many records the last run has read whole.
    pub fn calls(&self) -> u64
        ensures { result ≡ self.now.calls }
    {
        self.calls
    }

    /// Begins anew, for another wire.
    pub fn begin(&mut self)
        ensures { self.new ≡ record { place = 0; calls = 0 } }
    {
        self.reader = RecordReader::new();
        self.calls = 0;
    }

    /// Answers each record of the wire in turn, at most `most` of them, to a caller at `peer`. The witness sees the
    /// wire behind each.
    pub fn run<S: Source, K: Sink, H: Host, W: Witness<S, K>>(
        &mut self,
        wire: &mut Pair<S, K>,
        host: &mut H,
        peer: Peer,
        most: u64,
        witness: &mut W,
    ) -> End
        requires { most ≤ CALLS_MAX }
        ensures runs { SeesMore (W.wires witness.old) (W.wires witness.new)
            (Runs (conduct_by H.Host) peer most result
            (dialogue_at host.old (wire_of S.Source K.Sink wire.old) begun)
            (dialogue_at host.new (wire_of S.Source K.Sink wire.new) self.new)) }
        ensures flushed { result ≢ End.WriteFault
            → IsTrue (K.flushed wire.old.sink) → IsTrue (K.flushed wire.new.sink) }
        ensures counts { NeverFalls (wire_of S.Source K.Sink wire.old) (wire_of S.Source K.Sink wire.new) }
        ensures read_fault { result ≡ End.ReadFault → HasRisen (S.faults wire.old.source) (S.faults wire.new.source) }
        ensures write_fault { result ≡ End.WriteFault → HasRisen (K.faults wire.old.sink) (K.faults wire.new.sink) }
    {
        self.begin();
        for _ in 0..most {
            match self.step(wire, host, peer) {
                Step::Answered => witness.answered(wire),
                Step::Ended(end) => return end,
            }
        }
        End::Enough
    }

    /// Reads the next record, writes its whole reply and flushes.
    pub fn step<S: Source, K: Sink, H: Host>(
        &mut self,
        wire: &mut Pair<S, K>,
        host: &mut H,
        peer: Peer,
    ) -> Step
        ensures { DoesStep (conduct_by H.Host) peer result
            (dialogue_at host.old (wire_of S.Source K.Sink wire.old) self.old)
            (dialogue_at host.new (wire_of S.Source K.Sink wire.new) self.new) }
    {
        let len = match self.reader.next(&mut wire.source, &mut self.call) {
            Ok(None) => return Step::Ended(End::Clean),
            Err(fault) => return Step::Ended(fault.into()),
            Ok(Some(len)) => len,
        };
        self.calls = self.calls.saturating_add(1);
        let replied = reply_to(
            &mut self.writer,
            &mut wire.sink,
            host,
            &self.call[..len],
            peer,
            &mut self.reply,
        );
        match replied {
            Ok(()) => Step::Answered,
            Err(Failed) => Step::Ended(End::WriteFault),
        }
    }
}

/// Writes the whole reply to a record, and flushes.
fn reply_to<K: Sink, H: Host>(
    writer: &mut RecordWriter,
    sink: &mut K,
    host: &mut H,
    message: &[u8],
    peer: Peer,
    buf: &mut [u8],
) -> Result<(), Failed>
    requires idle { writer.old ≡ [] }
    requires room { record_max ≤ length buf.old }
    ensures sent { OnOk result ((turn : Turn) × (turn.message ≡ message.now)
        × RepliesTo (conduct_by H.Host) peer true turn host.old host.new
        (sink_of K.Sink sink.old) (sink_of K.Sink sink.new)) }
    ensures unsent { OnErr result ((turn : Turn) × (turn.message ≡ message.now)
        × RepliesTo (conduct_by H.Host) peer false turn host.old host.new
        (sink_of K.Sink sink.old) (sink_of K.Sink sink.new)) }
    ensures idle { writer.new ≡ [] }
    ensures cause { CountsFaults (K.faults sink.old) (K.faults sink.new) result }
{
    match answer(host, message, peer, buf) {
        Answered::Silent => Ok(()),
        Answered::Reply { len } => writer.send(sink, &buf[..len]),
        Answered::Transfer { len, job } => {
            writer.send(sink, &buf[..len])?;
            host.transfer(&job, peer);
            Ok(())
        }
        Answered::Stream(stream) => send_stream(writer, sink, host, stream, buf),
        Answered::Make { xid, job } => {
            let len = make(host, job, xid, buf);
            writer.send(sink, &buf[..len])
        }
    }
}

/// Has a map made, puts the reply with the status of that at the front of the buffer, and answers its length.
pub(crate) fn make<H: Host>(host: &mut H, job: MakeJob, xid: u32, buf: &mut [u8]) -> usize
    requires room { record_max ≤ length buf.old }
    requires inside { job.map < length (H.seen host.old).catalogue.maps }
    requires as_named { IsMadeAsNamed (H.seen host.old).catalogue job }
    ensures made { (stat : XfrStat) × (take result buf.new ≡ make_reply xid stat)
        × Fulfils (conduct_by H.Host) job stat host.old host.new }
    ensures some { 0 < result }
    ensures within { result ≤ length buf.new }
{
    let stat = host.make(job);
    make_reply(buf, xid, stat)
}

impl From<RecordFault> for End {
    ghost use Rattle.std.specs.Prelude.{◌≡◌};
    ghost use Rattle.yp_answer.specs.inside.session.Runs.{end_of};

    ghost from_gives = { λ fault end. end ≡ end_of fault };

    fn from(fault: RecordFault) -> End {
        match fault {
            RecordFault::Torn { at } => End::Torn { at },
            RecordFault::TooLong { at } => End::TooLong { at },
            RecordFault::ReadFault => End::ReadFault,
        }
    }
}
