//! An inbox in memory.

ghost use Rattle.std.specs.Prelude.{◌≡◌, ◌↔◌, [], ◌∷◌, ◌++◌, map, drop, Some, Contains, IsErr, IfSome, IfNone, IfOk};
ghost use Rattle.std.specs.Prelude.{OnOk, OnErr};
ghost use Rattle.yp_io.specs.Counts.{CountsFaults, next_count, faults_after};
ghost use Rattle.yp_io.specs.Dials.{GainsItem};
ghost use Rattle.yp_io.specs.Inboxes.{Arrived, Silent, Sent, GainsTurn, IsTurn, HoldsFront, MailIsWithin};
ghost use Rattle.yp_io.specs.Inboxes.{turns_after, quiets_after};
ghost use Rattle.yp_memory.specs.inside.MemInbox.{first_turn, turns_behind, letter_of, turn_of};

use crate::plan::Plan;
use std::alloc::Global;
use std::marker::Model;
use std::snapshot::Snapshot;
use yp_io::{Failed, Inbox, Letter, Mail, Peer, Trail, count_fault};

/// What happened in a turn, or was sent, for contracts alone.
#[derive(Drop)]
enum Step {
    Brought { letter: Snapshot<Letter> },
    Passed,
    Answered { letter: Snapshot<Letter> },
}

/// An inbox in memory, which tells what arrived and what was sent.
#[derive(Drop)]
pub struct MemInbox {
    alloc: Global,
    mail: Vec<Option<Letter>>,
    // how many of these came
    at: usize,
    letters: Vec<Letter>,
    past: Trail<Step>,
    turns: u64,
    quiets: u64,
    plan: Plan,
}

impl Model for MemInbox {
    ghost use Rattle.std.specs.Prelude.{◌≤◌, length, drop, map};
    ghost use Rattle.yp_memory.specs.inside.MemInbox.{MemInboxModel, post_of, letter_of, turn_of};

    ghost Value = { MemInboxModel };

    ghost view = { λ b. record {
      waiting = map turn_of (drop b.at b.mail.items);
      past = map post_of b.past;
      letters = map letter_of b.letters.items;
      failing = b.plan.failing.items;
      calls = b.plan.calls;
      turns = b.turns;
      quiets = b.quiets;
      faults = b.plan.faults;
    } };

    ghost invariant = { λ b. b.at ≤ length b.mail.items };
}

impl MemInbox {
    /// Brings these letters, a turn each. `None`, and the time behind the last, are quiet turns. A call whose number,
    /// from 0, stands in `failing` fails.
    pub fn new(alloc: Global, mail: Vec<Option<Letter>>, failing: Vec<u64>) -> MemInbox
        ensures { result ≡ record {
          waiting = map turn_of mail.items;
          past = [];
          letters = [];
          failing = failing.items;
          calls = 0;
          turns = 0;
          quiets = 0;
          faults = 0;
        } }
    {
        MemInbox {
            alloc,
            mail,
            at: 0,
            letters: Vec::new(alloc),
            past: Trail::new(),
            turns: 0,
            quiets: 0,
            plan: Plan::new(failing),
        }
    }

    /// The datagrams that were sent.
    pub fn letters(&self) -> &[Letter]
        ensures { map letter_of result.now ≡ self.now.letters }
    {
        &self.letters
    }

    /// How many turns there were.
    pub fn turns(&self) -> u64
        ensures { result ≡ self.now.turns }
    {
        self.turns
    }
}

// The letter of the turn at a place, if there is one.
fn brought(mail: &[Option<Letter>], at: usize) -> Option<&Letter>
    ensures some { IfSome result
        (λ letter. first_turn (map turn_of (drop at mail.now)) ≡ Arrived letter.now.peer letter.now.bytes.items) }
    ensures none { IfNone result (first_turn (map turn_of (drop at mail.now)) ≡ Silent) }
{
    match mail.get(at) {
        Some(Some(letter)) => Some(letter),
        _ => None,
    }
}

// Puts the front of a datagram into a buffer, and gives how many bytes that is.
pub(crate) fn fill(buf: &mut [u8], bytes: &[u8]) -> usize
    ensures { HoldsFront bytes.now result buf.new }
{
    let len = bytes.len().min(buf.len());
    buf[..len].copy_from_slice(&bytes[..len]);
    len
}

impl Inbox for MemInbox {
    ghost past = { λ b. Some b.past };

    ghost turns = { λ b. b.turns };

    ghost quiets = { λ b. b.quiets };

    ghost faults = { λ b. b.faults };

    fn next(&mut self, buf: &mut [u8]) -> Result<Mail, Failed>
        ensures within { IfOk result (λ mail. MailIsWithin mail buf.new) }
        ensures turn { IfOk result (λ mail. GainsTurn mail buf.new (Some self.old.past) (Some self.new.past)) }
        ensures none { OnErr result (Some self.new.past ≡ Some self.old.past) }
        ensures turns { self.new.turns ≡ turns_after self.old.turns result }
        ensures quiets { self.new.quiets ≡ quiets_after self.old.quiets result }
        ensures cause { CountsFaults self.old.faults self.new.faults result }
        ensures fails { IsErr result ↔ Contains self.old.failing self.old.calls }
        ensures first { IfOk result (λ mail. IsTurn mail buf.new (first_turn self.old.waiting)) }
        ensures waiting { OnOk result (self.new.waiting ≡ turns_behind self.old.waiting) }
        ensures others { self.new ≡ record self.old {
          waiting = self.new.waiting;
          past = self.new.past;
          calls = next_count self.old.calls;
          turns = self.new.turns;
          quiets = self.new.quiets;
          faults = faults_after self.old.faults result;
        } }
    {
        self.plan.start_call()?;
        let at = self.at;
        self.at = self.mail.len().min(at + 1);
        self.turns = self.turns.saturating_add(1);
        match brought(&self.mail, at) {
            Some(letter) => {
                self.past.push(&Step::Brought {
                    letter: Snapshot::of(letter),
                });
                let len = fill(buf, &letter.bytes);
                Ok(Mail::Came {
                    len,
                    from: letter.peer,
                })
            }
            None => {
                self.past.push(&Step::Passed);
                self.quiets = self.quiets.saturating_add(1);
                Ok(Mail::Quiet)
            }
        }
    }

    /// It also fails where memory has run out.
    fn send(&mut self, to: Peer, piece: &[u8]) -> Result<(), Failed>
        ensures sent { OnOk result (GainsItem (Sent to piece.now) (Some self.old.past) (Some self.new.past)) }
        ensures none { OnErr result (Some self.new.past ≡ Some self.old.past) }
        ensures turns { self.new.turns ≡ self.old.turns }
        ensures quiets { self.new.quiets ≡ self.old.quiets }
        ensures cause { CountsFaults self.old.faults self.new.faults result }
        ensures letters { OnOk result (self.new.letters ≡ self.old.letters ++ (to, piece.now) ∷ []) }
        ensures unsent { OnErr result (self.new.letters ≡ self.old.letters) }
        ensures fails { Contains self.old.failing self.old.calls → IsErr result }
        ensures others { self.new ≡ record self.old {
          past = self.new.past;
          letters = self.new.letters;
          calls = next_count self.old.calls;
          faults = faults_after self.old.faults result;
        } }
    {
        self.plan.start_call()?;
        let Ok(bytes) = Vec::from_slice(self.alloc, piece) else {
            return Err(count_fault(&mut self.plan.faults));
        };
        let letter = Letter { peer: to, bytes };
        let sent = Snapshot::of(&letter);
        if self.letters.push(letter).is_err() {
            return Err(count_fault(&mut self.plan.faults));
        }
        self.past.push(&Step::Answered { letter: sent });
        Ok(())
    }
}
