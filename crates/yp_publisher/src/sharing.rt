//! A publisher that threads share, under one lock.
//!
//! Whenever the lock is got, every map stands as its publisher says, and what is shown of it is the state of the log:
//! that is a fact of the type [`Locked`], which lies under the lock. What a caller learns of an install by its own
//! reader, which the lock's writer tells of all that was shown, stands on [`install_shared`]; what a crash leaves of
//! each map at any moment under the lock, on [`Locked::install`]; that a reader knows all that was shown, on
//! [`tell_shared`]. What is said of all installs stands on [`Locked::close`]: the orders of each map rise in the log;
//! how many files failed is at most what the counts of the disks rose by; as many versions as were charged as built are
//! shown, each built behind the last one of its map; and the others that are shown, with those that maps are behind,
//! are no more than were fetched. Each was built, or is one of a log of what was fetched ([`Fetches`]), of which the
//! publisher knows a front; and so is what a crash leaves of a map at any moment, if it wasn't shown.

mod debits;
mod fetches;
mod locked;
mod share;

pub use debits::Debits;
pub use fetches::{Fetches, FetchesFront, OpenedFetches};
pub use locked::{
    Accounts, BuiltVersions, FailedFiles, FetchedVersions, Locked, MapOffer, ShareFault, Site,
};
pub use share::{install_shared, tell_shared};
