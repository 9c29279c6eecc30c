//! The arguments of a call, and the read step of those that rest on versions.

ghost use Rattle.std.specs.Prelude.{IfOk, is_ok};
ghost use Rattle.yp_xdr.specs.inside.Spelling.{Fits};
ghost use Rattle.yp_answer.specs.Reply.{arguments_of};
ghost use Rattle.yp_answer.specs.inside.Reply.{ReadsArguments};
ghost use Rattle.yp_answer.specs.Answers.{StepsWhere};

use yp_board::View;
use yp_messages::ReadMessage;
use yp_xdr::{Cursor, XdrFault};

/// Reads the arguments of a call.
pub fn read_arguments<'a, M: ReadMessage<'a>>(bytes: &'a [u8]) -> Result<M, XdrFault>
    ensures read { ReadsArguments M.kind M.view bytes.now result }
    ensures fits { IfOk result (λ asked. Fits M.kind (M.view asked)) }
{
    M::read(&mut Cursor::new(bytes))
}

/// Reads the arguments of a call whose reply rests on versions. Where they can be read, the view takes its read step.
pub fn read_refreshed<'a, M: ReadMessage<'a>, V: View>(
    view: &mut V,
    bytes: &'a [u8],
) -> Result<M, XdrFault>
    ensures read { ReadsArguments M.kind M.view bytes.now result }
    ensures fits { IfOk result (λ asked. Fits M.kind (M.view asked)) }
    ensures step { StepsWhere (is_ok (arguments_of M.kind bytes.now)) V.stepped V.seen view.old view.new }
{
    let asked = read_arguments(bytes)?;
    view.refresh();
    Ok(asked)
}
