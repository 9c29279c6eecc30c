//! A whole run, with what the headline says of it.

ghost use Rattle.std.specs.Prelude.{◌≡◌, Ok};
ghost use Rattle.yp_command.specs.Words.{Meaning, command_of, disk_names, texts};
ghost use Rattle.yp_command.specs.office.Disks.{names_of};
ghost use Rattle.yp_command.specs.office.Seeing.{seeing};
ghost use Rattle.yp_command_serve.specs.serve.Hosting.{outside_by};
ghost use Rattle.yp_headline.specs.inside.Running.{CommandHolds};

use crate::laws::run_holds;
use std::alloc::Global;
use std::random::RandomSource;
use std::sync::Wait;
use std::thread::Threads;
use std::time;
use yp_io::{Clock, Dial, Disk, Hall, Inbox, Sink, Source, Texts};
use yp_program::{Outside, Status, run};

/// Does what [`run`] does, and says of it what the headline says.
pub fn run_told<S, K, D, C, L, A, I, T, R>(
    alloc: Global,
    rt: &R,
    words: &[String],
    outside: Outside<S, K, D, C, L, A, I, T>,
) -> (Status, Outside<S, K, D, C, L, A, I, T>)
where
    S: Source,
    K: Sink + Send + Drop,
    D: Disk + Send + Drop,
    C: Clock + Send + Drop,
    L: Hall + Send + Drop,
    L::In: Send,
    L::Out: Send,
    L::Closer: Send,
    L::Waker: Send,
    L::Watch: Send,
    A: Dial + Send + Drop,
    A::In: Send,
    A::Out: Send,
    I: Inbox + Send + Drop,
    T: Texts + Send + Drop,
    R: Threads + Wait + RandomSource + time::Clock + Sync,
    requires disks { names_of outside.office.disks.items ≡ disk_names (texts words.now) }
    ensures { (meaning : Meaning) → command_of (texts words.now) ≡ Ok meaning
        → CommandHolds (seeing S.Source K.Sink D.Disk C.Clock A.Dial I.Inbox T.Texts) meaning result.0
        (outside_by L.Hall I.Inbox outside) (outside_by L.Hall I.Inbox result.1) }
{
    run_holds::<S, K, D, C, A, I, T>();
    run(alloc, rt, words, outside)
}
