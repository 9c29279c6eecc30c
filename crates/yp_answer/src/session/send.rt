//! Replies that go out as records.

ghost use Rattle.std.specs.Prelude.{◌≡◌, ◌≢◌, ℕ, ◌<◌, ◌≤◌, IsTrue, [], length, take, OnOk, OnErr};
ghost use Rattle.std.specs.Io.KnownBytes.{Appends};
ghost use Rattle.yp_io.specs.Counts.{CountsFaults};
ghost use Rattle.yp_rpc.specs.Records.{sent, joined};
ghost use Rattle.yp_answer.specs.Numbers.{record_max};
ghost use Rattle.yp_answer.specs.Maps.{maps_of};
ghost use Rattle.yp_answer.specs.inside.Streams.{parts_left};
ghost use Rattle.yp_answer.specs.inside.Answers.{StreamIsInside};

use crate::AllStream;
use yp_board::View;
use yp_io::{Failed, Sink};
use yp_rpc::RecordWriter;

/// Sends the parts of a stream that are left as one record.
pub fn send_stream<K: Sink, V: View>(
    writer: &mut RecordWriter,
    sink: &mut K,
    view: &V,
    stream: AllStream,
    buf: &mut [u8],
) -> Result<(), Failed>
    requires idle { writer.old ≡ [] }
    requires room { record_max ≤ length buf.old }
    requires inside { StreamIsInside (maps_of (V.seen view.now)) stream.source }
    requires some { parts_left (V.seen view.now).known stream ≢ [] }
    ensures sent { OnOk result (Appends (K.output sink.old) (K.output sink.new)
        (sent (joined (parts_left (V.seen view.now).known stream)))) }
    ensures flushed { OnOk result (IsTrue (K.flushed sink.new)) }
    ensures prefix { OnErr result ((n : ℕ)
        × Appends (K.output sink.old) (K.output sink.new)
        (take n (sent (joined (parts_left (V.seen view.now).known stream))))) }
    ensures idle { writer.new ≡ [] }
    ensures cause { CountsFaults (K.faults sink.old) (K.faults sink.new) result }
{
    let mut stream = stream;
    let mut len = stream.piece(view, buf);
    while len > 0 {
        writer.put(sink, &buf[..len])?;
        len = stream.piece(view, buf);
    }
    writer.end(sink)
}
