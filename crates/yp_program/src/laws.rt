//! What joins a session and a client. Each law is the contract of a function that does nothing.

ghost use Rattle.yp_io.specs.declared.stream.Peer.{Peer};
ghost use Rattle.yp_board.specs.Catalogues.{Catalogue};
ghost use Rattle.yp_publisher.specs.Keeping.{keeping_of};
ghost use Rattle.yp_publisher.specs.Begins.{plain_log};
ghost use Rattle.yp_host.specs.inside.Locals.{telling_by};
ghost use Rattle.yp_host.specs.Connections.{service_of};
ghost use Rattle.yp_command.specs.office.Seeing.{seeing};
ghost use Rattle.yp_program.specs.inside.Joined.{SessionIsPrinted, OnceIsPrinted};

use yp_io::{Clock, Dial, Disk, Inbox, Sink, Source, Texts};

/// A client that is given what a session, or `once`, sent for the calls of its question prints what the maps of that
/// server tell, at its first call, and for `poll` at its second.
pub fn session_is_printed<S: Source, K: Sink, D: Disk, C: Clock, A: Dial, I: Inbox, T: Texts>()
    ensures session { (catalogue : Catalogue) (peer : Peer) → SessionIsPrinted
        (service_of (keeping_of D.history D.faults plain_log) (telling_by T.Texts C.Clock A.Dial) catalogue peer)
        (seeing S.Source K.Sink D.Disk C.Clock A.Dial I.Inbox T.Texts) }
    ensures once { OnceIsPrinted (seeing S.Source K.Sink D.Disk C.Clock A.Dial I.Inbox T.Texts) }
{}
