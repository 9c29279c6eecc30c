//! What transfers came to, and how often.

ghost use Rattle.std.specs.Prelude.{◌≡◌};
ghost use Rattle.yp_host.specs.workers.Outcomes.{counted_in};
ghost use Rattle.yp_host.specs.inside.workers.Outcomes.{group_of};
ghost use Rattle.yp_host.specs.workers.Workers.{files_after, made_after};
ghost use Rattle.yp_host.specs.workers.Charges.{no_outcomes, no_totals, outcomes_plus, totals_plus};

use yp_messages::XfrStat;

/// What a transfer came to.
#[derive(Clone, Copy, Debug, PartialEq, Eq)]
pub enum Group {
    /// The source has no address.
    NoAddress,
    /// Memory ran out.
    NoMemory,
    /// The map's file failed.
    File,
    /// The source failed, or gave no version.
    Source,
    /// The source told its order: the version was installed, or isn't newer, or the map is this host's own.
    Reached,
}

/// How many transfers came to each group, each up to 2^64 - 1.
#[derive(Clone, Copy, Debug, PartialEq, Eq)]
pub struct Outcomes {
    pub no_address: u64,
    pub no_memory: u64,
    pub file: u64,
    pub source: u64,
    pub reached: u64,
}

impl Outcomes {
    /// No transfers.
    pub(crate) fn none() -> Outcomes
        ensures { result ≡ no_outcomes }
    {
        Outcomes {
            no_address: 0,
            no_memory: 0,
            file: 0,
            source: 0,
            reached: 0,
        }
    }

    /// Counts a transfer.
    pub(crate) fn count(&mut self, group: Group)
        ensures { self.new ≡ counted_in group self.old }
    {
        match group {
            Group::NoAddress => self.no_address = self.no_address.saturating_add(1),
            Group::NoMemory => self.no_memory = self.no_memory.saturating_add(1),
            Group::File => self.file = self.file.saturating_add(1),
            Group::Source => self.source = self.source.saturating_add(1),
            Group::Reached => self.reached = self.reached.saturating_add(1),
        }
    }

    /// The sum of two counts of transfers.
    fn plus(self, other: Outcomes) -> Outcomes
        ensures { result ≡ outcomes_plus self other }
    {
        Outcomes {
            no_address: self.no_address.saturating_add(other.no_address),
            no_memory: self.no_memory.saturating_add(other.no_memory),
            file: self.file.saturating_add(other.file),
            source: self.source.saturating_add(other.source),
            reached: self.reached.saturating_add(other.reached),
        }
    }
}

/// What workers have counted, each up to 2^64 - 1.
#[derive(Clone, Copy, Debug, PartialEq, Eq)]
pub struct Totals {
    /// How often FILE was answered, where a map was to be made.
    pub files: u64,
    /// How often SUCC was.
    pub made: u64,
    /// How many transfers were carried out.
    pub transfers: u64,
    /// What they came to.
    pub outcomes: Outcomes,
}

impl Totals {
    /// Nothing.
    pub(crate) fn none() -> Totals
        ensures { result ≡ no_totals }
    {
        Totals {
            files: 0,
            made: 0,
            transfers: 0,
            outcomes: Outcomes::none(),
        }
    }

    /// The sum of two totals.
    pub(crate) fn plus(self, other: Totals) -> Totals
        ensures { result ≡ totals_plus self other }
    {
        Totals {
            files: self.files.saturating_add(other.files),
            made: self.made.saturating_add(other.made),
            transfers: self.transfers.saturating_add(other.transfers),
            outcomes: self.outcomes.plus(other.outcomes),
        }
    }
}

/// The group of a transfer with this status, from a source that has an address.
pub(crate) fn group_of(stat: XfrStat) -> Group
    ensures { result ≡ group_of stat }
{
    match stat {
        XfrStat::Succ | XfrStat::Age | XfrStat::Refused => Group::Reached,
        XfrStat::Rsrc => Group::NoMemory,
        XfrStat::File => Group::File,
        _ => Group::Source,
    }
}

/// How often FILE was answered, once a map was made with this status, up to 2^64 - 1.
pub(crate) fn files_after(files: u64, stat: XfrStat) -> u64
    ensures { result ≡ files_after files stat }
{
    match stat {
        XfrStat::File => files.saturating_add(1),
        _ => files,
    }
}

/// How often SUCC was answered, once a map was made with this status, up to 2^64 - 1.
pub(crate) fn made_after(made: u64, stat: XfrStat) -> u64
    ensures { result ≡ made_after made stat }
{
    match stat {
        XfrStat::Succ => made.saturating_add(1),
        _ => made,
    }
}
