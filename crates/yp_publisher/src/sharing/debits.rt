//! What callers are charged with.

ghost use Rattle.std.specs.Prelude.{◌≡◌, ◌+◌, ◌<◌};
ghost use Rattle.yp_publisher.specs.inside.sharing.Debits.{debit_both, no_debit};

use crate::sharing::locked::{Accounts, BuiltVersions, FailedFiles, FetchedVersions};
use std::marker::Model;
use std::sync::ledger::{Book, Share};

/// What a caller that installs versions is charged with, for contracts alone: shares of the ledgers of files that
/// failed, of built versions that were shown, and of fetched versions, of which it has those that it hasn't installed.
#[derive(Drop)]
pub struct Debits<S: Accounts> {
    pub(crate) failures: Share<FailedFiles<S>>,
    pub(crate) made: Share<BuiltVersions<S>>,
    pub(crate) versions: Share<FetchedVersions<S>>,
}

impl<S: Accounts> Model for Debits<S> {
    ghost use Rattle.std.specs.Prelude.{◌≡◌, ◌<◌};
    ghost use Rattle.yp_publisher.specs.inside.sharing.Debits.{Debit};

    ghost Value = { Debit };

    ghost view = { λ d. record {
      parts = d.failures.parts;
      failures = d.failures.amount;
      made = d.made.amount;
      versions = d.versions.amount;
    } };

    ghost invariant = { λ d. (0 < d.failures.parts) × (d.made.parts ≡ d.failures.parts)
        × (d.versions.parts ≡ d.failures.parts) };
}

impl<S: Accounts> Debits<S> {
    /// Charges of these shares.
    pub fn new(
        failures: Share<FailedFiles<S>>,
        made: Share<BuiltVersions<S>>,
        versions: Share<FetchedVersions<S>>,
    ) -> Debits<S>
        requires some { 0 < failures.parts }
        requires same { (made.parts ≡ failures.parts) × (versions.parts ≡ failures.parts) }
        ensures { result ≡ record {
          parts = failures.parts;
          failures = failures.amount;
          made = made.amount;
          versions = versions.amount;
        } }
    {
        Debits {
            failures,
            made,
            versions,
        }
    }

    /// One part, which is charged with nothing yet.
    pub fn split_off(&mut self) -> Debits<S>
        requires { 1 < self.old.parts }
        ensures one { result ≡ no_debit 1 }
        ensures left { self.new.parts + 1 ≡ self.old.parts }
        ensures same { self.new ≡ record self.old { parts = self.new.parts } }
    {
        Debits {
            failures: self.failures.split_off(1, 0),
            made: self.made.split_off(1, 0),
            versions: self.versions.split_off(1, 0),
        }
    }

    /// Takes in what another one is charged with.
    pub fn merge(&mut self, other: Debits<S>)
        ensures { self.new ≡ debit_both self.old other }
    {
        let Debits {
            failures,
            made,
            versions,
        } = other;
        self.failures.merge(failures);
        self.made.merge(made);
        self.versions.merge(versions);
    }

    /// A version was fetched, and is told to the book of those.
    pub fn fetched(&mut self, book: &mut Book<FetchedVersions<S>>)
        ensures total { book.new.total ≡ book.old.total + 1 }
        ensures versions { self.new ≡ record self.old { versions = self.old.versions + 1 } }
    {
        book.add(&mut self.versions, 1);
    }
}
