//! What is told at the end.

ghost use Rattle.std.specs.Prelude.{◌≡◌, ◌≢◌, IsTrue};
ghost use Rattle.yp_io.specs.Counts.{HasRisen};
ghost use Rattle.yp_command.specs.inside.office.Status.{IsTellable};
ghost use Rattle.yp_command_serve.specs.serve.Serve.{tally_line, TellsServed, serve_may_end};

use arrayvec::ArrayString;
use yp_command::office::Status;
use yp_host::workers::Totals;
use yp_io::{Failed, Sink, write_through};
use yp_worker::Tally;

/// The most bytes of a line.
const LINE_MAX: usize = 64;

/// What came of connections and of datagrams.
#[derive(Clone, Copy, Debug, PartialEq, Eq)]
pub struct Hosted {
    /// What was served of connections.
    pub tally: Tally,
    /// What all workers counted of maps that were made and of transfers.
    pub totals: Totals,
    /// Whether an inbox has failed.
    pub inbox_fault: bool,
}

/// The line that tells how many connections came, and how many of their records were read.
fn line_of(connections: u64, calls: u64) -> ArrayString<LINE_MAX>
    ensures { result.bytes ≡ tally_line connections calls }
{
    let mut line = ArrayString::new();
    line.push_str("connections ");
    line.push_str(itoa::Buffer::new().format(connections));
    line.push_str(" calls ");
    line.push_str(itoa::Buffer::new().format(calls));
    line.push_str("\n");
    line
}

/// Tells what was served, and answers that all was done, or what failed: the listener, an inbox or the output, the
/// first of them.
pub(crate) fn tell_served<K: Sink>(sink: &mut K, hosted: Hosted) -> Status
    ensures tells { TellsServed hosted result (K.output sink.old) (K.output sink.new) }
    ensures flushed { result ≢ Status.WriteFault → IsTrue (K.flushed sink.old) → IsTrue (K.flushed sink.new) }
    ensures cause { result ≡ Status.WriteFault → HasRisen (K.faults sink.old) (K.faults sink.new) }
    ensures may_end { IsTrue (serve_may_end result) }
    ensures tellable { IsTellable result }
{
    if hosted.tally.listen_fault {
        return Status::ListenFault;
    }
    if hosted.inbox_fault {
        return Status::InboxFault;
    }
    let line = line_of(hosted.tally.connections, hosted.tally.calls);
    match write_through(sink, line.as_bytes()) {
        Ok(()) => Status::Done,
        Err(Failed) => Status::WriteFault,
    }
}
