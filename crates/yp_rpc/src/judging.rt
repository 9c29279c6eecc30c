//! Whether a call is let to a procedure of the programs that are answered.

ghost use Rattle.std.specs.Prelude.{◌≡◌};
ghost use Rattle.yp_rpc.specs.Judging.{ProgramTable, admitted, judged};
ghost use Rattle.yp_rpc.specs.inside.Judging.{IsLetInside};

use crate::protocol::{AUTH_NONE, AUTH_REJECTEDCRED, AUTH_SYS, RPC_VERSION};
use crate::{CallHead, Heard, ReplyHead, read_call};

/// The programs that are answered, each in one version.
pub trait Programs {
    /// A procedure of one of them.
    type Procedure: Copy;

    /// The version of each program, and its procedures.
    ghost table: { Self → ProgramTable Self.Procedure };

    /// The version in which a program is answered, where it is.
    fn version(&self, prog: u32) -> Option<u32>
        ensures { result ≡ (table self.now).version prog };

    /// The procedure of a program with this number, where it has one.
    fn procedure(&self, prog: u32, number: u32) -> Option<Self::Procedure>
        ensures { result ≡ (table self.now).procedure prog number };
}

/// What a message is for the programs that are answered.
#[derive(Clone, Copy)]
pub enum Judged<P> {
    /// Nothing that is answered.
    Ignored,
    /// A call that isn't let to a procedure. Its reply has this head alone.
    Refused { xid: u32, head: ReplyHead },
    /// A call that is let to a procedure.
    Admitted { call: CallHead, procedure: P },
}

/// The procedure that a call is let to, or the first reason why it isn't let to one: its credential, the program, its
/// version, or the procedure.
fn admit<S: Programs>(programs: &S, call: &CallHead) -> Result<S::Procedure, ReplyHead>
    ensures { result ≡ admitted (S.table programs.now) call.now }
{
    if call.flavor != AUTH_NONE && call.flavor != AUTH_SYS {
        return Err(ReplyHead::AuthError {
            stat: AUTH_REJECTEDCRED,
        });
    }
    let Some(version) = programs.version(call.prog) else {
        return Err(ReplyHead::ProgUnavail);
    };
    if call.vers != version {
        return Err(ReplyHead::ProgMismatch {
            low: version,
            high: version,
        });
    }
    let procedure = programs.procedure(call.prog, call.procedure);
    procedure.ok_or(ReplyHead::ProcUnavail)
}

/// What a message is for the programs that are answered, by the order of refusals of RFC 5531 section 9: the version of
/// RPC, the flavor of the credential, the program, its version, the procedure.
pub fn judge<S: Programs>(programs: &S, message: &[u8]) -> Judged<S::Procedure>
    ensures judged { result ≡ judged (S.table programs.now) message.now }
    ensures body { IsLetInside message.now result }
{
    match read_call(message) {
        Heard::Noise => Judged::Ignored,
        Heard::WrongRpc { xid } => Judged::Refused {
            xid,
            head: ReplyHead::RpcMismatch {
                low: RPC_VERSION,
                high: RPC_VERSION,
            },
        },
        Heard::Call(call) => match admit(programs, &call) {
            Ok(procedure) => Judged::Admitted { call, procedure },
            Err(head) => Judged::Refused {
                xid: call.xid,
                head,
            },
        },
    }
}
