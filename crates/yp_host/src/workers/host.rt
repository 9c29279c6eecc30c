//! The host of a worker.

ghost use Rattle.std.specs.Prelude.{◌≡◌, ◌<◌, length, option_map, OnErr};
ghost use Rattle.std.proofs.Common.{ap};
ghost use Rattle.yp_board.specs.Logs.{shown};
ghost use Rattle.yp_publisher.specs.sharing.Shares.{Learns};
ghost use Rattle.yp_host.specs.workers.Desks.{texts_alone};
ghost use Rattle.yp_host.specs.inside.workers.Events.{made_event, fetched_event, replied_event};
ghost use Rattle.yp_host.specs.inside.workers.Makings.{SiteBuilds};
ghost use Rattle.yp_host.specs.workers.Workers.{counts_of, Stepped, WorkerMakesMap, WorkerTransfersMap};
ghost use Rattle.yp_host.specs.workers.Charges.{nothing_counted, counted_of, counted_plus};
ghost use Rattle.yp_host.specs.inside.workers.Charges.{counted_by};

use crate::workers::carrying::{carry_out, order_of};
use crate::workers::charges::{Account, Charges, Counted};
use crate::workers::front::BoardFront;
use crate::workers::journal::Event;
use crate::workers::making::make_shared;
use crate::workers::outcome::{Outcomes, Totals, files_after, made_after};
use crate::workers::setting::WorkerSetting;
use crate::workers::supplies::Supplies;
use std::marker::Model;
use std::random::RandomSource;
use std::sync::{Arc, Wait};
use yp_answer::session::Host;
use yp_answer::{MakeJob, Outcome, TransferJob, make_check, outcome_of};
use yp_board::{Catalog, Tell, View};
use yp_io::{Clock, Dial, Disk, NoMemory, Peer, Texts};
use yp_messages::XfrStat;
use yp_publisher::sharing::{Accounts, Site, tell_shared};
use yp_version::Version;
use yp_worker::{CatchUp, HandsOver};

/// The host of a worker. What it knows is what its reader knows.
///
/// It is seen as its reader, how often it answered FILE and how often SUCC where a map was to be made, how many
/// transfers it carried out, what they came to, and whom it left what to be told.
#[derive(Drop)]
pub struct WorkerHost<
    'a,
    S: Site + Accounts + Supplies,
    D: Disk,
    B: Tell,
    A: Dial,
    T: Texts,
    C: Clock,
    R: RandomSource + Wait,
> {
    reader: B::Reader,
    setting: WorkerSetting<'a, S, D, B, A, T, C, R>,
    totals: Totals,
    charges: Charges<S>,
}

impl<
    'a,
    S: Site + Accounts + Supplies,
    D: Disk,
    B: Tell,
    A: Dial,
    T: Texts,
    C: Clock,
    R: RandomSource + Wait,
> Model for WorkerHost<'a, S, D, B, A, T, C, R> {
    ghost use Rattle.std.specs.Prelude.{◌≡◌};
    ghost use Rattle.yp_host.specs.workers.Workers.{WorkerState};
    ghost use Rattle.yp_host.specs.inside.workers.Charges.{TotalsAreCharged};
    ghost use Rattle.yp_host.specs.inside.workers.Makings.{SiteBuilds};

    ghost Value = { WorkerState B.Reader };

    ghost view = { λ h. record {
      reader = h.reader;
      files = h.totals.files;
      made = h.totals.made;
      transfers = h.totals.transfers;
      outcomes = h.totals.outcomes;
      told = h.charges.left;
    } };

    ghost invariant = { λ h. ((B.Reader.seen h.reader).catalogue ≡ S.catalogue) × TotalsAreCharged h.totals h.charges
        × SiteBuilds S.text S.catalogue S.built × (h.setting.call_backs.now ≡ S.call_backs)
        × (h.charges.parts ≡ 1) };
}

impl<
    'a,
    S: Site + Accounts + Supplies,
    D: Disk,
    B: Tell,
    A: Dial,
    T: Texts,
    C: Clock,
    R: RandomSource + Wait,
> WorkerHost<'a, S, D, B, A, T, C, R> {
    /// A host with this reader of the maps of its site, which is charged by these, one part. What it builds has to be
    /// what the site says of a built version.
    pub fn new(
        setting: WorkerSetting<'a, S, D, B, A, T, C, R>,
        reader: B::Reader,
        charges: Charges<S>,
    ) -> WorkerHost<'a, S, D, B, A, T, C, R>
        requires catalogue { (B.Reader.seen reader).catalogue ≡ S.catalogue }
        requires builds { SiteBuilds S.text S.catalogue S.built }
        requires queue { setting.call_backs.now ≡ S.call_backs }
        requires one { charges.parts ≡ 1 }
        ensures { result ≡ record {
          reader = reader;
          files = 0;
          made = 0;
          transfers = 0;
          outcomes = record { no_address = 0; no_memory = 0; file = 0; source = 0; reached = 0 };
          told = charges.left;
        } }
    {
        WorkerHost {
            reader,
            setting,
            totals: Totals::none(),
            charges,
        }
    }

    /// Its reader.
    pub fn into_reader(self) -> B::Reader
    where
        R: Drop,
        ensures { result ≡ self.entry.reader }
    {
        let WorkerHost {
            reader,
            setting: _,
            totals: _,
            charges: _,
        } = self;
        reader
    }

    /// What it is charged with, once it works no more: one part, and what it left to be told since it last handed over.
    pub fn into_charges(self) -> Charges<S>
    where
        R: Drop,
        B::Reader: Drop,
        ensures one { result.parts ≡ 1 }
        ensures left { result.left ≡ self.entry.told }
    {
        let WorkerHost {
            reader: _,
            setting: _,
            totals: _,
            charges,
        } = self;
        charges
    }

    /// What its transfers came to, and how often.
    pub fn outcomes(&self) -> Outcomes
        ensures { result ≡ self.now.outcomes }
    {
        self.totals.outcomes
    }

    // Lets the reader know all that was shown.
    fn learn(&mut self) -> Result<(), NoMemory>
        ensures learned { Learns (B.Reader.seen self.old.reader) (B.Reader.seen self.new.reader) }
        ensures same { self.new ≡ record self.old { reader = self.new.reader } }
        ensures refused { OnErr result (self.new ≡ self.old) }
    {
        let setting = &self.setting;
        tell_shared(&setting.rt, setting.publisher, &mut self.reader)
    }

    /// Tells what happened, where there is a journal.
    fn tell(&self, event: Event) {
        if let Some(journal) = self.setting.journal {
            journal.lock(&self.setting.rt).push(event);
        }
    }

    /// What happened where a call by `peer` had a map made, with this status.
    fn made_event(&self, map: u32, stat: XfrStat, peer: Peer) -> Event
        requires { map < length (B.Reader.seen self.now.reader).catalogue.maps }
        ensures { result ≡ made_event map stat (shown map (B.Reader.seen self.now.reader).known) peer }
    {
        match (stat, order_of(self.reader.held(map))) {
            (XfrStat::Succ, Some(order)) => Event::Made { map, order, peer },
            _ => Event::NotMade { map, stat, peer },
        }
    }

    /// What happened where a call by `peer` had a map fetched, with this status.
    fn fetched_event(&self, map: u32, stat: XfrStat, peer: Peer) -> Event
        requires { map < length (B.Reader.seen self.now.reader).catalogue.maps }
        ensures { result ≡ fetched_event map stat (shown map (B.Reader.seen self.now.reader).known) peer }
    {
        match (stat, order_of(self.reader.held(map))) {
            (XfrStat::Succ, Some(order)) => Event::Fetched { map, order, peer },
            _ => Event::NotFetched { map, stat, peer },
        }
    }

    /// What is told of a call that `peer` was answered, where it had a map made or was refused. A transfer that was
    /// taken is told of once it was carried out.
    fn replied_event(&self, peer: Peer, outcome: &Outcome<'_>) -> Option<Event>
        ensures { result ≡ replied_event (B.Reader.seen self.now.reader) peer outcome.now.is_make
            outcome.now.domain.now (option_map (λ name. name.now) outcome.now.map) outcome.now.stat }
    {
        let catalog = self.reader.catalog();
        let stat = outcome.stat;
        let map = match outcome.map {
            Some(name) => catalog.find(outcome.domain, name),
            None => None,
        };
        if !outcome.is_make {
            return match stat {
                XfrStat::Succ => None,
                _ => Some(Event::RefusedXfr { map, stat, peer }),
            };
        }
        match make_check(catalog, peer, outcome.domain, outcome.map) {
            Ok(job) => Some(self.made_event(job.map, stat, peer)),
            Err(_) => Some(Event::RefusedMake { map, stat, peer }),
        }
    }
}

impl<
    'a,
    S: Site + Accounts + Supplies,
    D: Disk,
    B: Tell,
    A: Dial,
    T: Texts,
    C: Clock,
    R: RandomSource + Wait,
> View for WorkerHost<'a, S, D, B, A, T, C, R> {
    ghost seen = { λ host. B.Reader.seen host.reader };

    ghost stepped = { Stepped B.Reader.stepped };

    fn catalog(&self) -> &Catalog {
        self.reader.catalog()
    }

    fn refresh(&mut self) {
        self.reader.refresh();
    }

    fn held(&self, map: u32) -> Option<&Version> {
        self.reader.held(map)
    }

    fn share(&self, map: u32) -> Result<Option<Arc<Version>>, NoMemory> {
        self.reader.share(map)
    }
}

impl<
    'a,
    S: Site + Accounts + Supplies,
    D: Disk,
    B: Tell,
    A: Dial,
    T: Texts,
    C: Clock,
    R: RandomSource + Wait,
> Host for WorkerHost<'a, S, D, B, A, T, C, R> {
    ghost told = { λ host. texts_alone S.text };

    ghost counts = { counts_of };

    ghost made = { WorkerMakesMap B.Reader.seen S.text };

    fn make(&mut self, job: MakeJob) -> XfrStat {
        let mut texts = self.setting.texts.lock(&self.setting.rt);
        let stat = make_shared(
            &self.setting,
            &mut *texts,
            &mut self.reader,
            &mut self.charges,
            job,
        );
        self.totals.files = files_after(self.totals.files, stat);
        self.totals.made = made_after(self.totals.made, stat);
        stat
    }

    ghost carried = { WorkerTransfersMap B.Reader.seen S.hosts };

    fn transfer(&mut self, job: &TransferJob<'_>, peer: Peer) {
        let (group, stat) = carry_out(
            &self.setting,
            &mut self.reader,
            &mut self.charges,
            job,
            peer,
        );
        self.totals.transfers = self.totals.transfers.saturating_add(1);
        self.totals.outcomes.count(group);
        self.tell(self.fetched_event(job.map, stat, peer));
    }

    fn replied(&self, peer: Peer, message: &[u8], reply: &[u8]) {
        if self.setting.journal.is_none() {
            return;
        }
        if let Some(outcome) = outcome_of(message, reply)
            && let Some(event) = self.replied_event(peer, &outcome)
        {
            self.tell(event);
        }
    }

    ghost step_counts_nothing = { λ old new h. ap (λ host. counts_of host) h.1 };
}

impl<
    'a,
    S: Site + Accounts + Supplies,
    D: Disk,
    B: Tell,
    A: Dial,
    T: Texts,
    C: Clock,
    R: RandomSource + Wait,
> CatchUp for WorkerHost<'a, S, D, B, A, T, C, R> {
    type Count = Counted;

    ghost counted = { counted_of };

    // It waits for the publisher's lock.
    fn catch_up(&mut self) -> Result<(), NoMemory> {
        self.learn()
    }
}

impl<
    'a,
    S: Site + Accounts + Supplies,
    D: Disk,
    B: Tell,
    A: Dial,
    T: Texts,
    C: Clock,
    R: RandomSource + Wait,
> HandsOver for WorkerHost<'a, S, D, B, A, T, C, R> {
    type Sum = Account<S, B>;

    ghost summed = { counted_by };

    ghost reached = { λ account. account.reached };

    ghost none = { nothing_counted };

    ghost plus = { counted_plus };

    fn late(&self, peer: Peer) {
        self.tell(Event::Late { peer });
    }

    fn hand_over(&mut self, sum: &mut Account<S, B>) {
        sum.take_in(
            self.setting.call_backs,
            self.totals,
            &mut self.charges,
            &self.reader,
        );
        self.totals = Totals::none();
    }

    type Front = BoardFront<B>;

    fn front(&self) -> Result<BoardFront<B>, NoMemory> {
        BoardFront::of(&self.reader)
    }

    fn reach(&mut self, front: BoardFront<B>) {
        front.teach(&mut self.reader);
    }
}
