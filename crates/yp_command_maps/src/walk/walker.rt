//! A walk over the turns of an inbox.

ghost use Rattle.std.specs.Prelude.{◌≡◌, true, Ok, IfOk, OnErr, if◌then◌else◌};
ghost use Rattle.yp_io.specs.Counts.{HasRisen};
ghost use Rattle.yp_board.specs.Catalogues.{name_view};
ghost use Rattle.yp_rpc.specs.inside.Turns.{box_by};
ghost use Rattle.yp_rpc.specs.declared.turns.Ended.{Ended as HowEnded};
ghost use Rattle.yp_rpc.specs.declared.turns.Ended.TheVariants.{Spent as AllTaken};
ghost use Rattle.yp_command.specs.inside.Words.{IsNamed};
ghost use Rattle.yp_transfer.specs.Fetching.{wanted_of};
ghost use Rattle.yp_command_maps.specs.declared.walk.walker.Came.TheVariants.{Failed as HasFailed};
ghost use Rattle.yp_command_maps.specs.walk.Turns.{goes_on, Goes, HearsMail, Rests, is_on, IsCame, WalksTo};

use std::alloc::Global;
use std::marker::Model;
use std::random::RandomSource;
use yp_command::WalkJob;
use yp_io::{Failed, Inbox, NoMemory, Peer};
use yp_rpc::{Handler, Room, Wish, take_turns};
use yp_transfer::walk::{Walk, Walked};
use yp_transfer::{FetchRequest, XfrFault};
use yp_version::{Order, Version};

/// What came of the turns of a walk.
#[derive(Drop)]
pub enum Came {
    /// The version, or why there is none.
    Outcome(Result<Version, XfrFault>),
    /// Nothing yet, in all turns.
    Spent,
    /// The inbox failed.
    Failed,
}

/// A walk, and whether its call is to be sent before the next turn.
#[derive(Drop)]
pub struct Walker<'a, R: RandomSource> {
    rt: &'a R,
    walk: Walk,
    is_due: bool,
}

impl<'a, R: RandomSource> Model for Walker<'a, R> {
    ghost use Rattle.yp_command_maps.specs.walk.Turns.{Awaiting};

    ghost Value = { Awaiting };

    ghost view = { λ walker. record { walk = walker.walk; is_due = walker.is_due } };
}

/// Whether a call is outstanding, by how a walk stands.
fn goes_on(told: &Result<Walked, XfrFault>) -> bool
    ensures { result ≡ goes_on told.now }
{
    matches!(told, Ok(Walked::Onward))
}

impl<'a, R: RandomSource> Handler for Walker<'a, R> {
    ghost goes = { Goes };

    ghost hears = { HearsMail };

    ghost rests = { Rests };

    ghost letters = { λ awaiting. if awaiting.is_due then 1 else 0 };

    fn next(&mut self, buf: &mut [u8]) -> Wish {
        if !goes_on(&self.walk.told()) {
            return Wish::Done;
        }
        if !self.is_due {
            return Wish::Wait;
        }
        self.is_due = false;
        Wish::Send {
            to: self.walk.source(),
            len: self.walk.ask(buf),
        }
    }

    fn hear(&mut self, from: Peer, mail: &[u8], _buf: &mut [u8]) -> usize {
        if goes_on(&self.walk.told()) {
            let heard = self.walk.on_mail(self.rt, from, mail);
            self.is_due = goes_on(&heard) || self.is_due;
        }
        0
    }

    fn rest(&mut self) {
        self.is_due = true;
    }
}

impl<'a, R: RandomSource> Walker<'a, R> {
    /// What came of all turns, in which the inbox didn't fail.
    fn came(self) -> Came
        ensures { (end : HowEnded) → (is_on self.entry ≡ true → end ≡ AllTaken)
            → IsCame (Ok end) self.entry.walk.standing result }
    {
        match self.walk.told() {
            Ok(Walked::Done) => Came::Outcome(self.walk.finish()),
            Ok(_) => Came::Spent,
            Err(fault) => Came::Outcome(Err(fault)),
        }
    }
}

/// Walks over the map of a job at its source, in at most so many turns of an inbox as the job has. `shown` is the order
/// of the version that stands, if one does.
pub fn walk_inbox<R: RandomSource, I: Inbox>(
    alloc: Global,
    rt: &R,
    job: &WalkJob,
    shown: Option<Order>,
    room: &mut Room,
    inbox: &mut I,
) -> Result<Came, NoMemory>
    requires { IsNamed (name_view job.now.xfr.store) }
    ensures walks { IfOk result (λ came. WalksTo job.now.xfr.host.peer
        (wanted_of job.now.xfr.store.domain.items job.now.xfr.store.map.items shown job.now.xfr.force) job.now.turns
        came (box_by I.Inbox inbox.old) (box_by I.Inbox inbox.new)) }
    ensures cause { IfOk result (λ came. came ≡ HasFailed → HasRisen (I.faults inbox.old) (I.faults inbox.new)) }
    ensures unmailed { OnErr result (inbox.new ≡ inbox.old) }
{
    let xfr = &job.xfr;
    let store = &xfr.store;
    let request = FetchRequest {
        domain: &store.domain,
        map: &store.map,
        shown,
        force: xfr.force,
    };
    // No name is empty, so memory ran out where no walk is begun.
    let Ok(walk) = Walk::new(alloc, xfr.host.peer, &request) else {
        return Err(NoMemory);
    };
    let mut walker = Walker {
        rt,
        walk,
        is_due: true,
    };
    match take_turns(inbox, &mut walker, room, job.turns) {
        Ok(_) => Ok(walker.came()),
        Err(Failed) => Ok(Came::Failed),
    }
}
