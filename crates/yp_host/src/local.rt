//! A host of one thread.

ghost use Rattle.std.specs.Prelude.{◌≡◌, ◌<◌, false, None, length, OnOk, IfOk, IfErr, IsTrue};
ghost use Rattle.std.proofs.Common.{ap};
ghost use Rattle.yp_io.specs.Counts.{next_count};
ghost use Rattle.yp_board.specs.Views.{IsFront};
ghost use Rattle.yp_publisher.specs.Installs.{offer, not_following};
ghost use Rattle.yp_publisher.specs.declared.install.Origin.TheVariants.{Built};
ghost use Rattle.yp_publisher.specs.Standing.{Level, OfMap};
ghost use Rattle.yp_publisher.specs.Keeping.{keeping_of};
ghost use Rattle.yp_host.specs.Locals.{seen_of, told_by, IsUsed, LeavesDial};
ghost use Rattle.yp_host.specs.inside.Locals.{telling_by};
ghost use Rattle.yp_answer.specs.Causes.{IsAnew};
ghost use Rattle.yp_host.specs.Anew.{IsUnbuilt};
ghost use Rattle.yp_host.specs.Making.{task_on, Tries, Makes, MapIsMade};
ghost use Rattle.yp_host.specs.Transferring.{MapIsTransferred};

use crate::anew::{BuildTask, build_anew};
use crate::carrying::carry_out;
use crate::desk::Desk;
use crate::steps::{install, reopen};
use std::alloc::Global;
use std::marker::Model;
use std::random::RandomSource;
use std::sync::Arc;
use yp_answer::session::Host;
use yp_answer::{MakeJob, TransferJob};
use yp_board::{Catalog, Show, View};
use yp_io::{Clock, Dial, Disk, NoMemory, Peer, Texts};
use yp_messages::XfrStat;
use yp_publisher::Publisher;
use yp_version::Version;

/// A host over stored maps, for one thread. What it knows is all that was shown.
///
/// It is seen as its maps and their board, its desk, how often it was asked, how often it answered FILE, and how many
/// transfers it carried out.
#[derive(Drop)]
pub struct LocalHost<D: Disk, B: Show, A: Dial, T: Texts, C: Clock, R: RandomSource + Drop> {
    publisher: Publisher<D, B>,
    desk: Desk<A, T, C>,
    asked: u64,
    files: u64,
    transfers: u64,
    alloc: Global,
    rt: R,
}

impl<D: Disk, B: Show, A: Dial, T: Texts, C: Clock, R: RandomSource + Drop> Model
    for LocalHost<D, B, A, T, C, R> {
    ghost use Rattle.std.specs.Prelude.{◌≡◌, length};
    ghost use Rattle.yp_host.specs.Locals.{Local};
    ghost use Rattle.yp_host.specs.declared.desk.Desk.{Desk};

    ghost Value = { Local D B (Desk A T C) };

    ghost view = { λ h. record {
      published = h.publisher;
      desk = h.desk;
      asked = h.asked;
      files = h.files;
      transfers = h.transfers;
    } };

    ghost invariant = { λ h. length h.publisher.maps ≡ length h.publisher.catalogue.maps };
}

impl<D: Disk, B: Show, A: Dial, T: Texts, C: Clock, R: RandomSource + Drop> LocalHost<
    D,
    B,
    A,
    T,
    C,
    R,
> {
    /// A host over the maps of a publisher. Its memory is taken by `alloc`, and the tables of its builds are made with
    /// the randomness of `rt`.
    pub fn new(
        alloc: Global,
        rt: R,
        publisher: Publisher<D, B>,
        desk: Desk<A, T, C>,
    ) -> LocalHost<D, B, A, T, C, R>
        ensures { result ≡ record { published = publisher; desk = desk; asked = 0; files = 0; transfers = 0 } }
    {
        let _catalog = publisher.catalog();
        LocalHost {
            publisher,
            desk,
            asked: 0,
            files: 0,
            transfers: 0,
            alloc,
            rt,
        }
    }

    /// The publisher and the desk.
    pub fn into_parts(self) -> (Publisher<D, B>, Desk<A, T, C>)
        ensures publisher { result.0 ≡ self.published }
        ensures desk { result.1 ≡ self.desk }
    {
        let LocalHost {
            publisher,
            desk,
            asked: _,
            files: _,
            transfers: _,
            alloc: _,
            rt: _,
        } = self;
        (publisher, desk)
    }

    /// Makes a map anew, or answers why it can't be made, the first reason that applies.
    fn make_anew(&mut self, job: MakeJob) -> Result<(), XfrStat>
        requires { job.map < length self.old.published.catalogue.maps }
        ensures made { OnOk result (Makes (keeping_of D.history D.faults B.log)
            (telling_by T.Texts C.Clock A.Dial) job XfrStat.Succ self.old self.new) }
        ensures unmade { IfErr result (λ stat. Makes (keeping_of D.history D.faults B.log)
            (telling_by T.Texts C.Clock A.Dial) job stat self.old self.new) }
        ensures grown { IsFront (B.log self.old.published.board) (B.log self.new.published.board) }
        ensures catalogue { self.new.published.catalogue ≡ self.old.published.catalogue }
        ensures files { self.new.files ≡ self.old.files }
        ensures transfers { self.new.transfers ≡ self.old.transfers }
    {
        reopen(self.alloc, &self.rt, &mut self.publisher, job.map)?;
        self.make_level(job)
    }

    /// Makes a level map anew.
    fn make_level(&mut self, job: MakeJob) -> Result<(), XfrStat>
        requires map { job.map < length self.old.published.maps }
        requires named { job.map < length self.old.published.catalogue.maps }
        requires level { OfMap job.map self.old.published.maps (λ kept. kept.standing ≡ Level) }
        ensures made { OnOk result (Tries (keeping_of D.history D.faults B.log)
            (telling_by T.Texts C.Clock A.Dial) job XfrStat.Succ self.old self.new) }
        ensures unmade { IfErr result (λ stat. Tries (keeping_of D.history D.faults B.log)
            (telling_by T.Texts C.Clock A.Dial) job stat self.old self.new) }
        ensures desk { IsUsed (telling_by T.Texts C.Clock A.Dial) self.old.desk self.new.desk }
        ensures dial { LeavesDial (telling_by T.Texts C.Clock A.Dial) self.old.desk self.new.desk }
        ensures grown { IsFront (B.log self.old.published.board) (B.log self.new.published.board) }
        ensures catalogue { self.new.published.catalogue ≡ self.old.published.catalogue }
        ensures asked { self.new.asked ≡ self.old.asked }
        ensures files { self.new.files ≡ self.old.files }
        ensures transfers { self.new.transfers ≡ self.old.transfers }
    {
        let version = build_for(self.alloc, &self.rt, &self.publisher, &mut self.desk, job)?;
        install(self.alloc, &mut self.publisher, job.map, version)
    }
}

/// Builds a version of a map, for what is shown of it.
fn build_for<D: Disk, B: Show, A: Dial, T: Texts, C: Clock>(
    alloc: Global,
    rt: &impl RandomSource,
    publisher: &Publisher<D, B>,
    desk: &mut Desk<A, T, C>,
    job: MakeJob,
) -> Result<Version, XfrStat>
    requires map { job.map < length publisher.now.maps }
    requires named { job.map < length publisher.now.catalogue.maps }
    requires all { length publisher.now.maps ≡ length publisher.now.catalogue.maps }
    ensures anew { IfOk result (IsAnew (told_by T.Texts C.Clock desk.old)
        (task_on (keeping_of D.history D.faults B.log) job publisher.now)) }
    ensures follows { IfOk result (λ version. OfMap job.map publisher.now.maps (λ kept.
        not_following publisher.now.catalogue.own (offer version Built false) kept.version ≡ None)) }
    ensures unbuilt { IfErr result (IsUnbuilt (told_by T.Texts C.Clock desk.old)
        (T.faults desk.old.texts) (T.faults desk.new.texts)
        (task_on (keeping_of D.history D.faults B.log) job publisher.now)) }
    ensures desk { IsUsed (telling_by T.Texts C.Clock A.Dial) desk.old desk.new }
    ensures dial { LeavesDial (telling_by T.Texts C.Clock A.Dial) desk.old desk.new }
{
    // What is shown of the map is what is kept of it.
    let _kept = publisher.shown(job.map);
    let task = BuildTask::of(publisher, job);
    build_anew(alloc, rt, &mut desk.texts, &mut desk.clock, &task)
}

impl<D: Disk, B: Show, A: Dial, T: Texts, C: Clock, R: RandomSource + Drop> View
    for LocalHost<D, B, A, T, C, R> {
    ghost seen = { λ host. seen_of B.log host };

    ghost stepped = { λ old new. new ≡ record old { asked = next_count old.asked } };

    fn catalog(&self) -> &Catalog {
        self.publisher.catalog()
    }

    fn refresh(&mut self) {
        self.asked = self.asked.saturating_add(1);
    }

    fn held(&self, map: u32) -> Option<&Version> {
        self.publisher.held(map)
    }

    fn share(&self, map: u32) -> Result<Option<Arc<Version>>, NoMemory> {
        self.publisher.share(map)
    }
}

impl<D: Disk, B: Show, A: Dial, T: Texts, C: Clock, R: RandomSource + Drop> Host
    for LocalHost<D, B, A, T, C, R> {
    ghost told = { λ host. told_by T.Texts C.Clock host.desk };

    ghost counts = { λ host. record { files = host.files; transfers = host.transfers } };

    ghost made = { MapIsMade (keeping_of D.history D.faults B.log) (telling_by T.Texts C.Clock A.Dial) };

    fn make(&mut self, job: MakeJob) -> XfrStat {
        match self.make_anew(job) {
            Ok(()) => XfrStat::Succ,
            Err(XfrStat::File) => {
                self.files = self.files.saturating_add(1);
                XfrStat::File
            }
            Err(stat) => stat,
        }
    }

    ghost carried = { MapIsTransferred (keeping_of D.history D.faults B.log) (telling_by T.Texts C.Clock A.Dial) };

    fn transfer(&mut self, job: &TransferJob<'_>, peer: Peer) {
        carry_out(
            self.alloc,
            &self.rt,
            &mut self.publisher,
            &mut self.desk,
            job,
            peer,
        );
        self.transfers = self.transfers.saturating_add(1);
    }

    ghost step_counts_nothing = { λ old new h.
        ap (λ host. record { files = host.files; transfers = host.transfers }) h };
}
