//! The calls that take the lock.

ghost use Rattle.std.specs.Prelude.{◌≡◌, ◌+◌, ◌<◌, ◌≤◌, length, OnOk, OnErr, IfErr};
ghost use Rattle.yp_publisher.specs.sharing.Shares.{IsShownBehind, Learns};
ghost use Rattle.yp_publisher.specs.sharing.Shares.{IsReason};
ghost use Rattle.yp_publisher.specs.inside.sharing.Failures.{failures_of, made_by};
ghost use Rattle.yp_publisher.specs.inside.sharing.Debits.{DebitIsCharged};
ghost use Rattle.yp_publisher.specs.inside.sharing.Sources.{IsBuiltThere, fetched_in};
ghost use Rattle.yp_publisher.specs.inside.sharing.Tracing.{IsKnownFetched};

use crate::sharing::debits::Debits;
use crate::sharing::locked::{Accounts, Locked, MapOffer, ShareFault, Site};
use std::alloc::Global;
use std::random::RandomSource;
use std::sync::{Mutex, Wait};
use yp_board::Tell;
use yp_io::{Disk, NoMemory};

/// Stores a version of a map and shows it, in any thread, and lets the caller's reader know it. It waits for the lock,
/// and for readers that are inside a read step.
///
/// The version is shown behind all that the reader knew. Where it isn't, the reader knows why, or memory ran out, or
/// the map's file failed, which is charged. So is a built version that the reader knows then, and what stands for a
/// fetched one goes over to the publisher, with a front of the log of fetched versions that has it.
pub fn install_shared<S: Site + Accounts, D: Disk, B: Tell, R: RandomSource + Wait>(
    alloc: Global,
    rt: &R,
    shared: &Mutex<Locked<S, D, B>>,
    reader: &mut B::Reader,
    offer: MapOffer<S>,
    charge: &mut Debits<S>,
) -> Result<(), ShareFault>
    requires map { offer.map < length S.catalogue.maps }
    requires built { IsBuiltThere S.built (B.Reader.seen reader.old).known offer.map S.catalogue.own offer.version
        offer.origin }
    requires fetched { fetched_in offer.origin ≤ charge.old.versions }
    requires known { IsKnownFetched offer.version offer.origin offer.known }
    ensures shown { OnOk result (IsShownBehind S.catalogue.own offer.map offer.version offer.origin
        (B.Reader.seen reader.old).known (B.Reader.seen reader.new).known) }
    ensures reason { IfErr result (λ fault. IsReason S.catalogue.own offer.map offer.version offer.origin fault
        (B.Reader.seen reader.new).known) }
    ensures learned { Learns (B.Reader.seen reader.old) (B.Reader.seen reader.new) }
    ensures charged { DebitIsCharged (failures_of result) (made_by offer.origin result) (fetched_in offer.origin)
        charge.old charge.new }
{
    let mut locked = shared.lock(rt);
    locked.install_for(alloc, rt, reader, offer, charge)
}

/// Lets a reader of the board know all that was shown, in any thread. It waits for the lock. After a refusal the reader
/// is as it was.
pub fn tell_shared<S: Site + Accounts, D: Disk, B: Tell, R: Wait>(
    rt: &R,
    shared: &Mutex<Locked<S, D, B>>,
    reader: &mut B::Reader,
) -> Result<(), NoMemory>
    ensures learned { Learns (B.Reader.seen reader.old) (B.Reader.seen reader.new) }
    ensures refused { OnErr result (reader.new ≡ reader.old) }
{
    let mut locked = shared.lock(rt);
    locked.tell_to(reader)
}
