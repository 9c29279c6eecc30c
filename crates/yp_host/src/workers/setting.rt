//! What a worker has for all its work.

use crate::workers::call_backs::PendingCallBacks;
use crate::workers::dial::SharedDial;
use crate::workers::journal::Journal;
use crate::workers::supplies::Supplies;
use crate::workers::texts::SharedTexts;
use std::alloc::Global;
use std::random::RandomSource;
use std::sync::{Mutex, Wait};
use yp_board::Tell;
use yp_io::{Clock, Dial, Disk, Texts};
use yp_publisher::sharing::{Accounts, Locked, Site};

/// What a worker has all the time that it works: what it shares with other workers, each under its lock, and what its
/// memory is taken by.
#[derive(Drop)]
pub struct WorkerSetting<
    'a,
    S: Site + Accounts + Supplies,
    D: Disk,
    B: Tell,
    A: Dial,
    T: Texts,
    C: Clock,
    R: RandomSource + Wait,
> {
    pub alloc: Global,
    /// Its randomness makes the tables of builds, and it waits for the locks.
    pub rt: R,
    pub publisher: &'a Mutex<Locked<S, D, B>>,
    /// Held while a map is made, until it is installed.
    pub texts: &'a Mutex<SharedTexts<S, T, C>>,
    /// Held while a map is fetched, and while callers are told, and by nothing else.
    pub dial: &'a Mutex<SharedDial<S, A>>,
    /// Who is to be told what a transfer came to.
    pub call_backs: &'a PendingCallBacks,
    /// Where it is told what was done, if it is.
    pub journal: Option<&'a Mutex<Journal>>,
}
