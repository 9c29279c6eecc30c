//! Texts in memory.

ghost use Rattle.std.specs.Prelude.{◌≡◌, ◌<◌, ◌≤◌, ◌⊎◌, ◌↔◌, ℕ, [], length, map, List, Option, Some, Contains};
ghost use Rattle.std.specs.Prelude.{IfSome, IfOk, OnOk, OnErr, IsErrOf, MatchResult};
ghost use Rattle.std.specs.Option.{option_map};
ghost use Rattle.yp_io.specs.Counts.{HasRisen, next_count};
ghost use Rattle.yp_io.specs.Texts.{text_max};
ghost use Rattle.yp_io.specs.inside.Texts.{text_of};
ghost use Rattle.yp_memory.specs.inside.Mem.{LacksText, text_faults_after};

use crate::plan::Plan;
use std::marker::Model;
use yp_io::{Failed, TEXT_MAX, TextFault, Texts, count_fault};

/// Texts in memory, which tell their bytes.
#[derive(Debug, Drop)]
pub struct MemTexts {
    texts: Vec<(Vec<u8>, Vec<u8>)>,
    plan: Plan,
}

impl Model for MemTexts {
    ghost use Rattle.std.specs.Prelude.{map};
    ghost use Rattle.yp_memory.specs.inside.Mem.{Shelf};

    ghost Value = { Shelf };

    ghost view = { λ t. record {
      texts = map (λ text. (text.0.items, text.1.items)) t.texts.items;
      failing = t.plan.failing.items;
      calls = t.plan.calls;
      faults = t.plan.faults;
    } };
}

impl MemTexts {
    /// Has these texts, each with its name. A name that isn't among theirs is a fault, and of two texts with one name
    /// the first counts. A call whose number, from 0, stands in `failing` fails.
    pub fn new(texts: Vec<(Vec<u8>, Vec<u8>)>, failing: Vec<u64>) -> MemTexts
        ensures { result ≡ record {
          texts = map (λ text. (text.0.items, text.1.items)) texts.items;
          failing = failing.items;
          calls = 0;
          faults = 0;
        } }
    {
        MemTexts {
            texts,
            plan: Plan::new(failing),
        }
    }
}

// The first text of that name.
fn find_text<'a>(texts: &'a [(Vec<u8>, Vec<u8>)], wanted: &[u8]) -> Option<&'a [u8]>
    ensures { option_map (λ b. b.now) result
        ≡ text_of wanted.now (map (λ text. (text.0.items, text.1.items)) texts.now) }
{
    for (name, bytes) in texts {
        if name.as_slice() == wanted {
            return Some(bytes);
        }
    }
    None
}

impl Texts for MemTexts {
    ghost text = { λ t name. text_of name t.texts };

    ghost faults = { λ t. t.faults };

    fn read(&mut self, name: &[u8], into: &mut Vec<u8>) -> Result<(), TextFault>
        requires { into.old.items ≡ [] }
        ensures bytes { OnOk result (text_of name.now self.old.texts ≡ Some into.new.items) }
        ensures limit { OnOk result (length into.new.items ≤ text_max) }
        ensures err { OnErr result (into.new.items ≡ []) }
        ensures fails { IsErrOf result TextFault.Failed
            ↔ (Contains self.old.failing self.old.calls ⊎ LacksText name.now self.old.texts) }
        ensures others { self.new ≡ record self.old {
          calls = next_count self.old.calls;
          faults = text_faults_after self.old.faults result;
        } }
        ensures same { (file : List ℕ) → text_of file self.new.texts ≡ text_of file self.old.texts }
        ensures never_falls { self.old.faults ≤ self.new.faults }
        ensures cause { IsErrOf result TextFault.Failed → HasRisen self.old.faults self.new.faults }
    {
        self.plan.start_call()?;
        match find_text(&self.texts, name) {
            Some(text) if text.len() <= TEXT_MAX => {
                into.extend_from_slice(text)
                    .map_err(|_| TextFault::NoMemory)
            }
            _ => Err(count_fault(&mut self.plan.faults).into()),
        }
    }
}
