//! Which calls may have a map made for them.

ghost use Rattle.std.specs.Prelude.{◌≡◌};
ghost use Rattle.yp_answer.specs.session.Makes.{may_make};

use crate::procedure::{Path, Procedure};
use yp_io::{OWN_HOST, Peer};
use yp_rpc::{Judged, judge};

/// Whether a map may be made for what came on a path: whether it is a call of MAKE or MAKE_NAMED by a caller on the
/// server's own host. No host is asked.
pub fn may_make(path: &Path, peer: Peer, message: &[u8]) -> bool
    ensures { result ≡ may_make path.now peer message.now }
{
    if peer.addr != OWN_HOST {
        return false;
    }
    match judge(path, message) {
        Judged::Admitted { call: _, procedure } => {
            matches!(procedure, Procedure::Make | Procedure::MakeNamed)
        }
        _ => false,
    }
}
