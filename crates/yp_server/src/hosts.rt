//! Hosts of workers that have handed over.

ghost use Rattle.std.specs.Prelude.{◌≡◌, ◌<◌, [], length};

use std::marker::Model;
use std::random::RandomSource;
use std::sync::Wait;
use yp_board::Tell;
use yp_host::workers::{Charges, PendingCallBacks, Supplies, WorkerHost};
use yp_io::{Clock, Dial, Disk, Texts};
use yp_publisher::sharing::{Accounts, Site};
use yp_worker::HandsOver;

/// The host of a worker that has handed over what it has counted, and works no more.
#[derive(Drop)]
pub(crate) struct RetiredHost<H: HandsOver> {
    host: H,
}

impl<H: HandsOver> Model for RetiredHost<H> {
    ghost use Rattle.std.specs.Prelude.{◌≡◌};

    ghost Value = { H };

    ghost view = { λ r. r.host };

    ghost invariant = { λ r. H.counted r.host ≡ H.none };
}

impl<H: HandsOver> RetiredHost<H> {
    /// A host that has counted nothing since it handed over.
    pub(crate) fn new(host: H) -> RetiredHost<H>
        requires { H.counted host ≡ H.none }
        ensures { result ≡ host }
    {
        RetiredHost { host }
    }

    /// The host.
    fn into_host(self) -> H
        ensures { H.counted result ≡ H.none }
    {
        let RetiredHost { host } = self;
        host
    }
}

/// What the hosts of workers are charged by, each with one part. They have left nobody anything to be told since they
/// handed over.
pub(crate) fn charges_of<S, D, B, A, T, C, R>(
    call_backs: &PendingCallBacks,
    mut hosts: Vec<RetiredHost<WorkerHost<'_, S, D, B, A, T, C, R>>>,
) -> Charges<S>
where
    S: Site + Accounts + Supplies,
    D: Disk,
    B: Tell,
    B::Reader: Drop,
    A: Dial,
    T: Texts,
    C: Clock,
    R: RandomSource + Wait + Drop,
    requires queue { call_backs.now ≡ S.call_backs }
    requires some { 0 < length hosts.items }
    ensures parts { result.parts ≡ length hosts.entry.items }
    ensures left { result.left ≡ [] }
{
    let Some(host) = hosts.pop() else {
        unreachable!();
    };
    let mut charges = host.into_host().into_charges();
    while let Some(host) = hosts.pop() {
        charges.merge(call_backs, host.into_host().into_charges());
    }
    charges
}
