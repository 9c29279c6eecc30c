//! A reply that goes out piece by piece, as its sink takes it.

ghost use Rattle.std.specs.Prelude.{◌≡◌, ◌≤◌, ℕ, List, [], ◌++◌, length, take, true, false, None, Some, IfOk, IfSome, OnOk, OnErr};
ghost use Rattle.std.specs.Io.KnownBytes.{Appends};
ghost use Rattle.yp_io.specs.Counts.{CountsFaults};
ghost use Rattle.yp_answer.specs.Numbers.{record_max};
ghost use Rattle.yp_answer.specs.inside.session.Cuts.{IsBegun, rest_of};

use crate::HeldStream;
use crate::stream::PIECE_MAX;
use std::alloc::Global;
use std::marker::Model;
use yp_io::{Failed, NoMemory, Sink};
use yp_rpc::RecordWriter;

/// A reply that is open: the parts that are still to be given, and what waits to be written.
#[derive(Drop)]
pub struct OpenReply {
    held: HeldStream,
    writer: RecordWriter,
}

impl Model for OpenReply {
    ghost use Rattle.yp_answer.specs.inside.session.Cuts.{OpenReply};

    ghost Value = { OpenReply };

    ghost view = { λ o. record { held = o.held; waits = o.writer } };
}

impl OpenReply {
    /// The reply of this stream, of which nothing was given yet.
    pub(crate) fn new(alloc: Global, held: HeldStream) -> Result<OpenReply, NoMemory>
        ensures { IfOk result (λ reply. reply ≡ record { held = held; waits = [] }) }
    {
        let writer = RecordWriter::new(alloc)?;
        Ok(OpenReply { held, writer })
    }

    /// Puts the next piece, and answers whether there was one. Behind the last it ends the record.
    pub(crate) fn put_next<K: Sink>(&mut self, sink: &mut K, buf: &mut [u8]) -> Result<bool, Failed>
        requires room { record_max ≤ length buf.old }
        requires some { IsBegun self.old }
        ensures more { IfOk result (λ more. more ≡ true → IsBegun self.new × ((out : List ℕ)
            × Appends (K.output sink.old) (K.output sink.new) out
            × (rest_of (Some self.old) ≡ out ++ rest_of (Some self.new)))) }
        ensures last { IfOk result (λ more. more ≡ false
            → Appends (K.output sink.old) (K.output sink.new) (rest_of (Some self.old))) }
        ensures prefix { OnErr result ((n : ℕ)
            × Appends (K.output sink.old) (K.output sink.new) (take n (rest_of (Some self.old)))) }
        ensures cause { CountsFaults (K.faults sink.old) (K.faults sink.new) result }
    {
        let room = &mut buf[..PIECE_MAX];
        let len = self.held.piece(room);
        if len > 0 {
            self.writer.put(sink, &room[..len])?;
            return Ok(true);
        }
        self.writer.end(sink)?;
        Ok(false)
    }
}

/// Puts the next piece of the reply that is open, if one is. Behind the last piece none is open any more, nor where
/// memory has run out.
pub(crate) fn put_piece<K: Sink>(
    stream: &mut Option<OpenReply>,
    sink: &mut K,
    buf: &mut [u8],
) -> Result<(), Failed>
    requires room { record_max ≤ length buf.old }
    requires begun { IfSome stream.old IsBegun }
    ensures put { OnOk result ((out : List ℕ)
        × Appends (K.output sink.old) (K.output sink.new) out
        × (rest_of stream.old ≡ out ++ rest_of stream.new)) }
    ensures prefix { OnErr result ((n : ℕ)
        × Appends (K.output sink.old) (K.output sink.new) (take n (rest_of stream.old))) }
    ensures none { OnErr result (stream.new ≡ None) }
    ensures begun { IfSome stream.new IsBegun }
{
    let Some(mut reply) = stream.take() else {
        return Ok(());
    };
    if reply.put_next(sink, buf)? {
        *stream = Some(reply);
    }
    Ok(())
}
