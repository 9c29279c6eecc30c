//! A dial in memory.

ghost use Rattle.std.specs.Prelude.{◌≡◌, ◌≢◌, ℕ, ◌+◌, ◌≤◌, ◌<◌, true, false, [], ◌∷◌, ◌++◌, length, map, min};
ghost use Rattle.std.specs.Prelude.{Some, All, Contains, IsErr, IfOk, IfSome, IfNone, OnOk, OnErr};
ghost use Rattle.yp_io.specs.Counts.{CountsFaults, next_count, last_count, faults_after};
ghost use Rattle.yp_io.specs.Dials.{Posted, Asked, came_in, connected, WireComes, GoesBack, GainsItem, IsFresh};
ghost use Rattle.yp_memory.specs.inside.MemDial.{WireIsNew, HoldsAnswer, came_of, ended_of, wires_of, sending_of};
ghost use Rattle.yp_memory.specs.inside.MemDial.{answer_of, first_answer, answers_behind, answers_left};

use crate::inbox::fill;
use crate::plan::Plan;
use crate::streams::{MemSink, MemSource, MemWire};
use std::alloc::{AllocError, Global};
use std::marker::Model;
use yp_io::{Dial, Failed, Letter, Pair, Peer, Sending, count_fault};

/// A wire that came.
#[derive(Debug, Drop)]
pub struct MemDialed {
    /// The peer that was dialed.
    pub peer: Peer,
    /// Its whole input.
    pub input: Vec<u8>,
}

/// A dial in memory, which tells its wires and letters.
#[derive(Drop)]
pub struct MemDial {
    alloc: Global,
    waiting: Vec<MemWire>,
    answers: Vec<Option<Vec<u8>>>,
    came: Vec<MemDialed>,
    // has room for as many wires as came
    back: Vec<MemWire>,
    lost: bool,
    letters: Vec<Sending>,
    plan: Plan,
}

impl Model for MemDial {
    ghost use Rattle.yp_memory.specs.inside.MemDial.{Exchange};

    ghost Value = { Exchange };

    ghost use Rattle.std.specs.Prelude.{◌≤◌, length, map, All, vec_capacity};
    ghost use Rattle.yp_memory.specs.inside.MemDial.{WireIsNew, came_of, sending_of, answer_of};

    ghost view = { λ d. record {
      waiting = d.waiting.items;
      answers = map answer_of d.answers.items;
      came = map came_of d.came.items;
      back = d.back.items;
      lost = d.lost;
      letters = map sending_of d.letters.items;
      failing = d.plan.failing.items;
      calls = d.plan.calls;
      faults = d.plan.faults;
    } };

    ghost invariant = { λ d. (All WireIsNew d.waiting.items) × (length d.came.items ≤ vec_capacity d.back) };
}

impl MemDial {
    /// Gives these wires in turn; a dial with no wire left is a fault. A call whose number, from 0, stands in `failing`
    /// fails. The wires have met no fault and taken nothing. No question is answered.
    pub fn new(alloc: Global, wires: Vec<MemWire>, failing: Vec<u64>) -> MemDial
        requires { All WireIsNew wires.items }
        ensures { result ≡ record {
          waiting = wires.items;
          answers = [];
          came = [];
          back = [];
          lost = false;
          letters = [];
          failing = failing.items;
          calls = 0;
          faults = 0;
        } }
    {
        MemDial::with_answers(alloc, wires, Vec::new(alloc), failing)
    }

    /// The same, where these answers come in turn, one to each question that is sent; `None`, and behind the last,
    /// none comes.
    pub fn with_answers(
        alloc: Global,
        wires: Vec<MemWire>,
        answers: Vec<Option<Vec<u8>>>,
        failing: Vec<u64>,
    ) -> MemDial
        requires { All WireIsNew wires.items }
        ensures { result ≡ record {
          waiting = wires.items;
          answers = map answer_of answers.items;
          came = [];
          back = [];
          lost = false;
          letters = [];
          failing = failing.items;
          calls = 0;
          faults = 0;
        } }
    {
        MemDial {
            alloc,
            waiting: wires,
            answers,
            came: Vec::new(alloc),
            back: Vec::new(alloc),
            lost: false,
            letters: Vec::new(alloc),
            plan: Plan::new(failing),
        }
    }

    // The next wire, of whose input a copy is kept, unless none is left or memory has run out.
    fn next_wire(&mut self, peer: Peer) -> Option<MemWire>
        ensures fresh { IfSome result WireIsNew }
        ensures first { IfSome result (λ wire. self.old.waiting ≡ wire ∷ self.new.waiting) }
        ensures came { IfSome result (λ wire. self.new ≡ record self.old {
          waiting = self.new.waiting;
          came = self.old.came ++ (peer, wire.source.input) ∷ [];
        }) }
        ensures none { IfNone result (self.new ≡ self.old) }
    {
        let first = self.waiting.first()?;
        let input = Vec::from_slice(self.alloc, first.source.left()).ok()?;
        self.back.reserve(self.came.len() + 1).ok()?;
        self.came.push(MemDialed { peer, input }).ok()?;
        Some(self.waiting.remove(0))
    }

    /// The wires that came.
    pub fn came(&self) -> &[MemDialed]
        ensures { map came_of result.now ≡ self.now.came }
    {
        &self.came
    }

    /// The wires that were given back.
    pub fn past(&self) -> &[MemWire]
        ensures { result.now ≡ self.now.back }
    {
        &self.back
    }

    // Keeps a question, and puts what fits of the next answer into a buffer.
    fn question(
        &mut self,
        to: Peer,
        piece: &[u8],
        buf: &mut [u8],
    ) -> Result<Option<usize>, AllocError>
        ensures came { IfOk result (λ came. HoldsAnswer (first_answer self.old.answers) came buf.new) }
        ensures within { IfOk result (λ came. IfSome came (λ len. len ≤ length buf.new)) }
        ensures sent { IfOk result (λ came. self.new ≡ record self.old {
          answers = answers_behind self.old.answers;
          letters = self.old.letters ++ Asked to piece.now (came_in buf.new came) ∷ [];
        }) }
        ensures none { OnErr result (self.new ≡ self.old) }
    {
        let bytes = Vec::from_slice(self.alloc, piece)?;
        self.letters.reserve(1)?;
        let mut answer = next_answer(&mut self.answers);
        let mut came = None;
        if let Some(bytes) = &mut answer {
            let len = fill(buf, bytes);
            bytes.truncate(len);
            came = Some(len);
        }
        let letter = Letter { peer: to, bytes };
        self.letters
            .push_reserved(Sending::Asked { letter, answer });
        Ok(came)
    }

    /// What was sent.
    pub fn letters(&self) -> &[Sending]
        ensures { map sending_of result.now ≡ self.now.letters }
    {
        &self.letters
    }
}

// The next answer, unless none is left.
fn next_answer(answers: &mut Vec<Option<Vec<u8>>>) -> Option<Vec<u8>>
    ensures first { answer_of result ≡ first_answer (map answer_of answers.old.items) }
    ensures behind { map answer_of answers.new.items ≡ answers_behind (map answer_of answers.old.items) }
{
    if answers.is_empty() {
        return None;
    }
    answers.remove(0)
}

impl Dial for MemDial {
    type In = MemSource;

    type Out = MemSink;

    ghost past = { wires_of };

    ghost letters = { λ d. Some d.letters };

    ghost faults = { λ d. d.faults };

    /// It also fails where memory has run out.
    fn dial(&mut self, to: Peer) -> Result<MemWire, Failed>
        ensures fresh { IfOk result WireIsNew }
        ensures came { IfOk result
            (λ wire. WireComes (connected to (Some wire.source.input) (Some wire.sink.output))
            (wires_of self.old) (wires_of self.new)) }
        ensures none { OnErr result (wires_of self.new ≡ wires_of self.old) }
        ensures letters { Some self.new.letters ≡ Some self.old.letters }
        ensures cause { CountsFaults self.old.faults self.new.faults result }
        ensures fails { Contains self.old.failing self.old.calls → IsErr result }
        ensures first { IfOk result (λ wire. self.old.waiting ≡ wire ∷ self.new.waiting) }
        ensures others { self.new ≡ record self.old {
          waiting = self.new.waiting;
          came = self.new.came;
          calls = next_count self.old.calls;
          faults = faults_after self.old.faults result;
        } }
    {
        self.plan.start_call()?;
        let Some(wire) = self.next_wire(to) else {
            return Err(count_fault(&mut self.plan.faults));
        };
        Ok(wire)
    }

    /// It also fails where memory has run out.
    fn post(&mut self, to: Peer, piece: &[u8]) -> Result<(), Failed>
        ensures sent { OnOk result
            (GainsItem (Posted to piece.now) (Some self.old.letters) (Some self.new.letters)) }
        ensures none { OnErr result (Some self.new.letters ≡ Some self.old.letters) }
        ensures past { wires_of self.new ≡ wires_of self.old }
        ensures cause { CountsFaults self.old.faults self.new.faults result }
        ensures fails { Contains self.old.failing self.old.calls → IsErr result }
        ensures others { self.new ≡ record self.old {
          letters = self.new.letters;
          calls = next_count self.old.calls;
          faults = faults_after self.old.faults result;
        } }
    {
        self.plan.start_call()?;
        let Ok(bytes) = Vec::from_slice(self.alloc, piece) else {
            return Err(count_fault(&mut self.plan.faults));
        };
        let letter = Letter { peer: to, bytes };
        match self.letters.push(Sending::Posted { letter }) {
            Ok(()) => Ok(()),
            Err(_) => Err(count_fault(&mut self.plan.faults)),
        }
    }

    /// It also fails where memory has run out.
    fn ask(&mut self, to: Peer, piece: &[u8], buf: &mut [u8]) -> Result<Option<usize>, Failed>
        ensures within { IfOk result (λ came. IfSome came (λ len. len ≤ length buf.new)) }
        ensures sent { IfOk result (λ came. GainsItem (Asked to piece.now (came_in buf.new came))
            (Some self.old.letters) (Some self.new.letters)) }
        ensures none { OnErr result (Some self.new.letters ≡ Some self.old.letters) }
        ensures past { wires_of self.new ≡ wires_of self.old }
        ensures cause { CountsFaults self.old.faults self.new.faults result }
        ensures fails { Contains self.old.failing self.old.calls → IsErr result }
        ensures came { IfOk result (λ came. HoldsAnswer (first_answer self.old.answers) came buf.new) }
        ensures others { self.new ≡ record self.old {
          answers = answers_left self.old.answers result;
          letters = self.new.letters;
          calls = next_count self.old.calls;
          faults = faults_after self.old.faults result;
        } }
    {
        self.plan.start_call()?;
        match self.question(to, piece, buf) {
            Ok(came) => Ok(came),
            Err(AllocError) => Err(count_fault(&mut self.plan.faults)),
        }
    }

    fn back(&mut self, wire: MemWire)
        ensures past { GoesBack (ended_of wire) (wires_of self.old) (wires_of self.new) }
        ensures letters { Some self.new.letters ≡ Some self.old.letters }
        ensures faults { min (self.old.faults + wire.source.faults + wire.sink.faults) last_count
            ≤ self.new.faults }
    {
        let faults = wire.source.faults().saturating_add(wire.sink.faults());
        self.plan.faults = self.plan.faults.saturating_add(faults);
        if self.back.len() < self.came.len() {
            self.back.push_reserved(wire);
        } else {
            self.lost = true;
        }
    }
}
