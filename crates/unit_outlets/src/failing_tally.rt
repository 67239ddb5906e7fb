ghost use Rattle.std.specs.Prelude.{◌≡◌, ◌+◌, ◌↔◌, false, None, Contains, IsTrue};
ghost use Rattle.unit_outlets.specs.Account.{fresh};
ghost use Rattle.unit_outlets.specs.Failing.{FailsAsListed};
ghost use Rattle.bcast_base.specs.Counts.{counted};
ghost use Rattle.unit_outlets.specs.Took.{Took};

use crate::fault::OutletFault;
use crate::outlet::Outlet;
use crate::sums::Sums;
use bcast_base::Calls;
use std::marker::Model;

/// A box that sums its units up, keeps none, and fails at listed calls of `take`. It takes no memory.
#[derive(Drop)]
pub struct FailingTally {
    sums: Sums,
    calls: u64,
    failing: Calls,
}

impl Model for FailingTally {
    ghost use Rattle.std.specs.Prelude.{false, None};
    ghost use Rattle.unit_outlets.specs.Failing.{Failing};

    ghost Value = { Failing };

    ghost view = { λ t. record {
      account = record {
        units = t.sums.units;
        octets = t.sums.octets;
        faults = t.sums.faults;
        is_sound = false;
        greatest = 0;
        kept = None;
      };
      calls = t.calls;
      failing = t.failing;
    } };
}

impl FailingTally {
    /// A box that took nothing yet, and fails at the calls of these numbers, from 1.
    pub fn new(failing: Calls) -> FailingTally
        ensures { result ≡ record { account = fresh false 0 None; calls = 0; failing = failing } }
    {
        FailingTally {
            sums: Sums::new(),
            calls: 0,
            failing,
        }
    }
}

/// Whether the number after `calls` is in the list.
fn is_next_listed(failing: &Calls, calls: u64) -> bool
    ensures { IsTrue result ↔ Contains failing.now (calls + 1) }
{
    failing
        .as_slice()
        .iter()
        .any(|number| *number > 0 && *number - 1 == calls)
}

impl Outlet for FailingTally {
    ghost account = { λ t. t.account };

    fn take(&mut self, octets: &[u8]) -> Result<(), OutletFault>
        ensures took { Took octets.now self.old.account self.new.account result }
        ensures exact { FailsAsListed octets.now self.old result }
        ensures calls { self.new.calls ≡ counted self.old.calls }
        ensures failing { self.new.failing ≡ self.old.failing }
    {
        let is_listed = is_next_listed(&self.failing, self.calls);
        self.calls = self.calls.saturating_add(1);
        if is_listed {
            self.sums.count_fault();
            return Err(OutletFault::Failed);
        }
        match self.sums.with_unit(octets.len()) {
            Some(sums) => {
                self.sums = sums;
                Ok(())
            }
            None => {
                self.sums.count_fault();
                Err(OutletFault::Failed)
            }
        }
    }

    fn units(&self) -> u64 {
        self.sums.units
    }

    fn octets(&self) -> u64 {
        self.sums.octets
    }
}
