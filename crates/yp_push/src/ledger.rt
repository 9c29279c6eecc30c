//! The ledger of a push.

ghost use Rattle.std.specs.Prelude.{◌≡◌, ◌<◌, ◌≤◌, ◌↔◌, ℕ, [], IsTrue, IfOk, IfSome};
ghost use Rattle.yp_push.specs.Ledgers.{slaves_max};
ghost use Rattle.yp_push.specs.Ledgers.{outcome_at, with_event, next_sending};
ghost use Rattle.yp_push.specs.inside.Ledgers.{after_sending};
ghost use Rattle.yp_push.specs.Ledgers.{PushIsDone};
ghost use Rattle.yp_push.specs.inside.Ledgers.{IsUnanswered, Awaits};
ghost use Rattle.yp_push.specs.inside.Results.{awaits_call};
ghost use Rattle.yp_push.specs.Ledgers.{is_outstanding};
ghost use Rattle.yp_push.specs.inside.Settling.{SettlesSlave, ChangesNone};
ghost use Rattle.yp_push.specs.declared.event.Event.TheVariants.{Failed, Refused, Called, Quiet};

use crate::event::Event;
use crate::outcome::{Missed, Outcome};
use std::alloc::Global;
use std::marker::Model;
use yp_io::{NoMemory, Trail};
use yp_messages::PushStat;

/// The most slaves of a push.
pub const SLAVES_MAX: u32 = 4_096;

/// A slave that is to be asked now.
#[derive(Clone, Copy, Debug, PartialEq, Eq)]
pub struct Sending {
    /// Its number, counted from 0.
    pub slave: u32,
    /// The transaction that the request names.
    pub transid: u32,
}

/// The slaves of a push, and what came of each so far.
#[derive(Drop)]
pub struct Push {
    /// The transaction of the first slave. The others count on from it, and wrap.
    first: u32,
    /// How many slaves may be outstanding.
    window: u32,
    outcomes: Vec<Outcome>,
    /// How many slaves were asked.
    sent: u32,
    /// How many of them were asked before the last quiet turn.
    passed: u32,
    outstanding: u32,
    /// The events so far, for contracts alone.
    history: Trail<Event>,
}

impl Model for Push {
    ghost use Rattle.yp_push.specs.Ledgers.{Ledger};

    ghost Value = { Ledger };

    ghost use Rattle.yp_push.specs.inside.Kept.{ledger_of, IsKept};

    ghost view = { ledger_of };

    ghost invariant = { IsKept };
}

impl Push {
    /// A push to this many slaves, of which at most `window` are outstanding at a time. The first has the transaction
    /// `first`. It takes all memory of the push.
    pub fn new(alloc: Global, slaves: u32, first: u32, window: u32) -> Result<Push, NoMemory>
        requires few { slaves ≤ slaves_max }
        requires some { 0 < slaves }
        requires window { 0 < window }
        ensures { IfOk result (λ push.
            push ≡ record { slaves = slaves; first = first; window = window; events = [] }) }
    {
        let Ok(outcomes) = vec![in alloc; Outcome::Unsent; slaves as usize] else {
            return Err(NoMemory);
        };
        Ok(Push {
            first,
            window,
            outcomes,
            sent: 0,
            passed: 0,
            outstanding: 0,
            history: Trail::new(),
        })
    }

    /// The slave that is to be asked now. There is none where all were asked, or where as many as the window has are
    /// outstanding.
    pub fn next_send(&mut self) -> Option<Sending>
        ensures sending { result ≡ next_sending self.old }
        ensures ledger { self.new ≡ after_sending self.old result }
        ensures unanswered { IfSome result (λ sending. IsUnanswered self.new sending.slave) }
    {
        if self.sent as usize == self.outcomes.len() || self.outstanding >= self.window {
            return None;
        }
        let slave = self.sent;
        self.outcomes[slave as usize] = Outcome::Unanswered;
        self.sent += 1;
        self.outstanding += 1;
        self.history.push(&Event::Sent { slave });
        Some(Sending {
            slave,
            transid: self.first.wrapping_add(slave),
        })
    }

    /// The slave couldn't be asked.
    pub fn on_failed(&mut self, slave: u32, outcome: Missed)
        requires { IsUnanswered self.old slave }
        ensures { self.new ≡ with_event self.old (Failed slave outcome) }
    {
        let event = Event::Failed {
            slave,
            missed: outcome,
        };
        self.settle(slave, Outcome::Missed(outcome), event);
    }

    /// The slave answered the request at once, with this status.
    pub fn on_refused(&mut self, slave: u32, stat: PushStat)
        requires { IsUnanswered self.old slave }
        ensures { self.new ≡ with_event self.old (Refused slave stat) }
    {
        let event = Event::Refused { slave, stat };
        self.settle(slave, Outcome::Answered(stat), event);
    }

    /// A call told how the transfer of a transaction went. It is true where that is a slave's that was asked and has no
    /// answer: the status is then its result.
    pub fn on_callback(&mut self, transid: u32, stat: PushStat) -> bool
        ensures awaited { IsTrue result ↔ ((slave : ℕ) × Awaits self.old transid slave) }
        ensures ledger { self.new ≡ with_event self.old (Called transid stat) }
    {
        let event = Event::Called { transid, stat };
        let slave = transid.wrapping_sub(self.first);
        let is_awaited = self.awaits_call(slave);
        if is_awaited {
            self.settle(slave, Outcome::Answered(stat), event);
        } else {
            self.ignore(event);
        }
        is_awaited
    }

    /// Nothing came for a while, so slaves that are outstanding are passed over. A later call still counts.
    pub fn on_quiet(&mut self)
        ensures { self.new ≡ with_event self.old Quiet }
    {
        self.passed = self.sent;
        self.outstanding = 0;
        self.history.push(&Event::Quiet);
    }

    /// What came of a slave so far.
    pub fn result(&self, slave: u32) -> Outcome
        requires { slave < self.now.slaves }
        ensures { result ≡ outcome_at self.now slave }
    {
        self.outcomes[slave as usize]
    }

    /// Whether nothing more is expected of any slave: each has answered, or couldn't be asked.
    pub fn done(&self) -> bool
        ensures { IsTrue result ↔ PushIsDone self.now }
    {
        self.outcomes.iter().all(|outcome| outcome.is_settled())
    }

    /// Whether there is such a slave, and a call counts that tells of its transaction.
    fn awaits_call(&self, slave: u32) -> bool
        ensures { IsTrue result ↔ ((slave < self.now.slaves) × IsTrue (awaits_call (outcome_at self.now slave))) }
    {
        match self.outcomes.get(slave as usize) {
            None => false,
            Some(outcome) => outcome.awaits_call(),
        }
    }

    /// Whether a slave was asked, has no result, and wasn't passed over.
    fn is_outstanding(&self, slave: u32) -> bool
        requires { slave < self.now.slaves }
        ensures { result ≡ is_outstanding self.now.first self.now.events slave }
    {
        self.outcomes[slave as usize].is_unanswered() && slave >= self.passed
    }

    /// An event gives one slave this outcome.
    fn settle(&mut self, slave: u32, outcome: Outcome, event: Event)
        requires { SettlesSlave self.old slave outcome event }
        ensures { self.new ≡ with_event self.old event }
    {
        self.outstanding -= u32::from(self.is_outstanding(slave));
        self.outcomes[slave as usize] = outcome;
        self.history.push(&event);
    }

    /// An event changes no result.
    fn ignore(&mut self, event: Event)
        requires { ChangesNone self.old event }
        ensures { self.new ≡ with_event self.old event }
    {
        self.history.push(&event);
    }
}
