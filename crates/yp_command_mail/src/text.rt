//! A text that is told at the end of a command.

ghost use Rattle.std.specs.Prelude.{◌≡◌, ◌≢◌, ◌⊎◌, IsTrue};
ghost use Rattle.yp_io.specs.Counts.{HasRisen};
ghost use Rattle.yp_command.specs.declared.office.status.Status.TheVariants.{WriteFault};
ghost use Rattle.yp_command_mail.specs.Telling.{TellsText};

use yp_command::office::Status;
use yp_io::{Failed, Sink, write_through};

/// Prints a text, and answers the status that was wanted, or that the output failed. An empty text isn't printed.
pub(crate) fn tell_text<K: Sink>(sink: &mut K, text: &[u8], wanted: Status) -> Status
    requires { wanted ≢ WriteFault }
    ensures tells { TellsText text.now wanted result (K.output sink.old) (K.output sink.new) }
    ensures either { (result ≡ wanted) ⊎ (result ≡ WriteFault) }
    ensures flushed { result ≢ WriteFault → IsTrue (K.flushed sink.old) → IsTrue (K.flushed sink.new) }
    ensures cause { result ≡ WriteFault → HasRisen (K.faults sink.old) (K.faults sink.new) }
{
    if text.is_empty() {
        return wanted;
    }
    match write_through(sink, text) {
        Ok(()) => wanted,
        Err(Failed) => Status::WriteFault,
    }
}
