//! The log of the versions that were fetched for a site. It exists for contracts alone. Whoever fetches has the log,
//! and gives a front of it to whoever installs a version, which shows that it was fetched.

ghost use Rattle.std.specs.Prelude.{◌≡◌, [], IfSome};

use crate::sharing::locked::{Accounts, FetchedVersions};
use std::marker::Model;
use yp_board::history::{Front, History, Naming, Opened};
use yp_version::Version;

impl<S: Accounts> Naming for FetchedVersions<S> {
    ghost book = { S.fetched };
}

/// The log, for whoever fetches.
pub type Fetches<S> = History<FetchedVersions<S>, Version>;

/// A front of the log.
pub type FetchesFront<S> = Front<FetchedVersions<S>, Version>;

/// A log with nothing in it, for a site that has no name yet. Contracts see which book it is.
#[derive(Drop)]
pub struct OpenedFetches {
    log: Opened<Version>,
}

impl Model for OpenedFetches {
    ghost use Rattle.logbook.specs.Pages.{Book, book_coded};

    ghost Value = { Book };

    ghost coded = { book_coded };

    ghost view = { λ o. o.log };
}

impl OpenedFetches {
    /// A new log. It takes no memory.
    pub fn new() -> OpenedFetches {
        OpenedFetches { log: Opened::new() }
    }

    /// The log of a site. There is none where the words of the book aren't counted as they should be.
    pub fn named<S: Accounts>(self) -> Option<Fetches<S>>
        requires { self ≡ S.fetched }
        ensures { IfSome result (λ fetches. fetches ≡ []) }
    {
        self.log.named::<FetchedVersions<S>>()
    }
}
