//! The two steps that change a map: opening its file again, and installing a version.

ghost use Rattle.std.specs.Prelude.{◌≡◌, ◌<◌, false, None, length, OnOk, IfErr, IsTrue};
ghost use Rattle.yp_board.specs.Views.{IsFront};
ghost use Rattle.yp_publisher.specs.Standing.{Level, OfMap};
ghost use Rattle.yp_publisher.specs.Installs.{offer, not_following};
ghost use Rattle.yp_publisher.specs.Keeping.{keeping_of};
ghost use Rattle.yp_publisher.specs.Opens.{Opens};
ghost use Rattle.yp_host.specs.Making.{StaysShut, OffersBuilt};

use std::alloc::Global;
use std::random::RandomSource;
use yp_board::Show;
use yp_io::Disk;
use yp_messages::XfrStat;
use yp_publisher::{Origin, Publisher, slot_stat};
use yp_version::Version;

/// Opens the file of a map that is behind again. Where that is refused, the status is FILE, or RSRC for want of memory.
pub(crate) fn reopen<D: Disk, B: Show>(
    alloc: Global,
    rt: &impl RandomSource,
    publisher: &mut Publisher<D, B>,
    map: u32,
) -> Result<(), XfrStat>
    requires { map < length publisher.old.maps }
    ensures opened { OnOk result
        (Opens (keeping_of D.history D.faults B.log) map publisher.old publisher.new) }
    ensures refused { IfErr result (λ stat.
        StaysShut (keeping_of D.history D.faults B.log) map stat publisher.old publisher.new) }
    ensures grown { IsFront (B.log publisher.old.board) (B.log publisher.new.board) }
{
    match publisher.reopen(alloc, rt, map) {
        Ok(()) => Ok(()),
        Err(fault) => Err(slot_stat(fault)),
    }
}

/// Installs a version that was built for a level map. Where that fails, the status is FILE, or RSRC for want of memory.
pub(crate) fn install<D: Disk, B: Show>(
    alloc: Global,
    publisher: &mut Publisher<D, B>,
    map: u32,
    version: Version,
) -> Result<(), XfrStat>
    requires map { map < length publisher.old.maps }
    requires level { OfMap map publisher.old.maps (λ kept. kept.standing ≡ Level) }
    requires follows { OfMap map publisher.old.maps
        (λ kept. not_following publisher.old.catalogue.own (offer version Origin.Built false) kept.version ≡ None) }
    ensures installed { OnOk result
        (OffersBuilt (keeping_of D.history D.faults B.log) map version XfrStat.Succ publisher.old publisher.new) }
    ensures failed { IfErr result (λ stat.
        OffersBuilt (keeping_of D.history D.faults B.log) map version stat publisher.old publisher.new) }
    ensures grown { IsFront (B.log publisher.old.board) (B.log publisher.new.board) }
{
    match publisher.install(alloc, map, version, Origin::Built, false) {
        Ok(_) => Ok(()),
        Err(fault) => Err(fault.stat()),
    }
}
