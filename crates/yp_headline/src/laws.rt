//! What the program does, as the headline says it. Each law is the contract of a function that does nothing: its
//! premises are what `run` ensures of a command, and bytes that are told.

ghost use Rattle.yp_command.specs.office.Seeing.{seeing};
ghost use Rattle.yp_headline.specs.inside.Running.{RunHolds};
ghost use Rattle.yp_headline.specs.inside.Words.{WordsAreSame};
ghost use Rattle.yp_headline.specs.inside.Server.{ServeHolds};
ghost use Rattle.yp_headline.specs.inside.Laws.{OnceReplies, SessionHolds, XfrHolds, WalkHolds, JobHolds, RevnetHolds};

use yp_end_to_end::transfer::laws::{fetched_is_shown, shown_between};
use yp_end_to_end::walk::laws::walked_is_shown;
use yp_io::{Clock, Dial, Disk, Inbox, Sink, Source, Texts};
use yp_map_file::laws::read_is_body;

/// The words that the headline has of its own are those of other crates.
pub fn words_are_same()
    ensures { WordsAreSame }
{}

/// What `once` does is what the headline says of replies.
pub fn once_replies<S: Source, K: Sink, D: Disk, C: Clock, A: Dial, I: Inbox, T: Texts>()
    ensures { OnceReplies (seeing S.Source K.Sink D.Disk C.Clock A.Dial I.Inbox T.Texts) }
{}

/// What `session` does is what the headline says of replies, of crashes and of transfers.
pub fn session_holds<S: Source, K: Sink, D: Disk, C: Clock, A: Dial, I: Inbox, T: Texts>()
    ensures { SessionHolds (seeing S.Source K.Sink D.Disk C.Clock A.Dial I.Inbox T.Texts) }
{
    read_is_body();
    fetched_is_shown();
    shown_between();
}

/// What `xfr` does is what the headline says of crashes and of transfers.
pub fn xfr_holds<S: Source, K: Sink, D: Disk, C: Clock, A: Dial, I: Inbox, T: Texts>()
    ensures { XfrHolds (seeing S.Source K.Sink D.Disk C.Clock A.Dial I.Inbox T.Texts) }
{
    read_is_body();
    fetched_is_shown();
    shown_between();
}

/// What `walk` does is what the headline says of crashes and of transfers.
pub fn walk_holds<S: Source, K: Sink, D: Disk, C: Clock, A: Dial, I: Inbox, T: Texts>()
    ensures { WalkHolds (seeing S.Source K.Sink D.Disk C.Clock A.Dial I.Inbox T.Texts) }
{
    read_is_body();
    walked_is_shown();
}

/// What `build` and `load` do is what the headline says of crashes.
pub fn job_holds<S: Source, K: Sink, D: Disk, C: Clock, A: Dial, I: Inbox, T: Texts>()
    ensures { JobHolds (seeing S.Source K.Sink D.Disk C.Clock A.Dial I.Inbox T.Texts) }
{}

/// What `revnet` does is what the headline says of crashes.
pub fn revnet_holds<S: Source, K: Sink, D: Disk, C: Clock, A: Dial, I: Inbox, T: Texts>()
    ensures { RevnetHolds (seeing S.Source K.Sink D.Disk C.Clock A.Dial I.Inbox T.Texts) }
{}

/// What `serve` does with its connections, its datagrams, its files and its call backs is what the headline says of
/// replies, of crashes and of call backs.
pub fn serve_holds<S: Source, K: Sink, D: Disk, C: Clock, A: Dial, I: Inbox, T: Texts>()
    ensures { ServeHolds (seeing S.Source K.Sink D.Disk C.Clock A.Dial I.Inbox T.Texts) }
{
    read_is_body();
    fetched_is_shown();
    shown_between();
}

/// What `run` ensures of a command, in its clause `does`, is what the headline says.
pub fn run_holds<S: Source, K: Sink, D: Disk, C: Clock, A: Dial, I: Inbox, T: Texts>()
    ensures { RunHolds (seeing S.Source K.Sink D.Disk C.Clock A.Dial I.Inbox T.Texts) }
{
    read_is_body();
    fetched_is_shown();
    shown_between();
    walked_is_shown();
}
