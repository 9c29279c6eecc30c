//! What a session asks of the host that it answers for.

ghost use Rattle.std.specs.Prelude.{◌≡◌, ◌<◌, ◌≤◌, length};
ghost use Rattle.yp_io.specs.declared.stream.Peer.{Peer};
ghost use Rattle.yp_messages.specs.declared.transfer.XfrStat.{XfrStat};
ghost use Rattle.yp_answer.specs.declared.make.MakeJob.{MakeJob};
ghost use Rattle.yp_answer.specs.Causes.{Told};
ghost use Rattle.yp_answer.specs.inside.Make.{IsMadeAsNamed};
ghost use Rattle.yp_messages.specs.Numbers.{name_max};
ghost use Rattle.yp_answer.specs.Transfer.{Taken};
ghost use Rattle.yp_answer.specs.inside.Transfer.{taken_view};
ghost use Rattle.yp_answer.specs.session.Hosts.{Counts, conduct_of, Fulfils, CarriesOut};

use crate::{MakeJob, TransferJob};
use yp_board::View;
use yp_io::Peer;
use yp_messages::XfrStat;

/// A view of a board whose maps can be made anew, and fetched from other hosts.
pub trait Host: View {
    /// What it tells of the texts and the clock that maps are made by.
    ghost told: { Self → Told };

    /// How often it answered FILE, and how many transfers it carried out, each up to the last count.
    ghost counts: { Self → Counts };

    /// What the making of a map does to the whole value: the map, the status, before and after.
    ghost made: { MakeJob → XfrStat → Self → Self → Type 0 };

    /// Makes a map of the catalogue anew, and answers how that went: SUCC, REFUSED, NOMAP, AGE, DBM, FILE or RSRC.
    fn make(&mut self, job: MakeJob) -> XfrStat
        requires inside { job.map < length (Self.seen self.old).catalogue.maps }
        requires as_named { IsMadeAsNamed (Self.seen self.old).catalogue job }
        ensures { Fulfils (conduct_of Self.seen told counts Self.stepped made carried) job result self.old self.new };

    /// What the carrying out of a transfer does to the whole value: the transfer, its caller, before and after.
    ghost carried: { Taken → Peer → Self → Self → Type 0 };

    /// Carries out a transfer that was taken, once its reply is out: fetches the map, and tells the caller at `peer`
    /// what came of it, where it wants to be told.
    fn transfer(&mut self, job: &TransferJob<'_>, peer: Peer)
        requires map { job.now.map < length (Self.seen self.old).catalogue.maps }
        requires named { 0 < length job.now.source.now }
        requires source { length job.now.source.now ≤ name_max }
        ensures { CarriesOut (conduct_of Self.seen told counts Self.stepped made carried) (taken_view job.now) peer
            self.old self.new };

    /// It is told of a reply that goes out whole, and of the call that it is to, from `peer`, unless a transfer was
    /// taken by that. That changes nothing of what it is seen as.
    fn replied(&self, _peer: Peer, _message: &[u8], _reply: &[u8]) {}

    /// A read step counts nothing.
    ghost step_counts_nothing: { (old new : Self) → Self.stepped old new → counts new ≡ counts old };
}
