//! Which calls of a form in memory fail.

ghost use Rattle.std.specs.Prelude.{◌≡◌, ◌≤◌, ◌↔◌, Contains, IsErr};
ghost use Rattle.yp_io.specs.Counts.{next_count, faults_after};

use yp_io::{Failed, count_fault};

/// Which calls of a form in memory fail, and how many calls and faults there were.
#[derive(Debug, Drop)]
pub struct Plan {
    pub failing: Vec<u64>,
    pub calls: u64,
    pub faults: u64,
}

impl Plan {
    pub fn new(failing: Vec<u64>) -> Plan
        ensures { result ≡ record { failing = failing; calls = 0; faults = 0 } }
    {
        Plan {
            failing,
            calls: 0,
            faults: 0,
        }
    }

    /// Counts a call, which fails where its number is listed.
    pub fn start_call(&mut self) -> Result<(), Failed>
        ensures fails { IsErr result ↔ Contains self.old.failing.items self.old.calls }
        ensures counts { self.new ≡ record self.old {
          calls = next_count self.old.calls;
          faults = faults_after self.old.faults result;
        } }
        ensures never_falls { self.old.faults ≤ self.new.faults }
    {
        let number = self.calls;
        self.calls = number.saturating_add(1);
        if self.failing.contains(&number) {
            return Err(count_fault(&mut self.faults));
        }
        Ok(())
    }
}
