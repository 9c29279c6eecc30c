//! The status of a session that ended.

ghost use Rattle.std.specs.Prelude.{◌≡◌, IsTrue};
ghost use Rattle.yp_command_serve.specs.Served.{status_of, serve_may_end};
ghost use Rattle.yp_command.specs.inside.office.Status.{IsTellable};

use yp_answer::session::End;
use yp_command::office::Status;

/// The status of a session that ended so.
pub fn status_of_end(end: End) -> Status
    ensures status { result ≡ status_of end }
    ensures may_end { IsTrue (serve_may_end result) }
    ensures tellable { IsTellable result }
{
    match end {
        End::Clean => Status::Done,
        End::Torn { at } => Status::Torn { at },
        End::TooLong { at } => Status::TooLong { at },
        End::ReadFault => Status::ReadFault,
        End::WriteFault => Status::WriteFault,
        End::Enough => Status::Enough,
    }
}
