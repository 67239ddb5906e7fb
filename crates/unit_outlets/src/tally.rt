ghost use Rattle.std.specs.Prelude.{◌≡◌, ◌≢◌, true, None, Err};
ghost use Rattle.unit_outlets.specs.Account.{fresh};
ghost use Rattle.unit_outlets.specs.Took.{Took};

use crate::fault::OutletFault;
use crate::outlet::Outlet;
use crate::sums::Sums;
use std::marker::Model;

/// A sound box that sums its units up and keeps none. It takes no memory.
#[derive(Drop)]
pub struct Tally {
    sums: Sums,
}

impl Model for Tally {
    ghost use Rattle.std.specs.Prelude.{true, None};
    ghost use Rattle.unit_outlets.specs.Account.{Account};

    ghost Value = { Account };

    ghost view = { λ t. record {
      units = t.sums.units;
      octets = t.sums.octets;
      faults = t.sums.faults;
      is_sound = true;
      greatest = 0;
      kept = None;
    } };
}

impl Tally {
    /// A box that took nothing yet.
    pub fn new() -> Tally
        ensures { result ≡ fresh true 0 None }
    {
        Tally { sums: Sums::new() }
    }
}

impl Outlet for Tally {
    ghost account = { λ t. t };

    fn take(&mut self, octets: &[u8]) -> Result<(), OutletFault>
        ensures took { Took octets.now self.old self.new result }
        ensures no_memory { result ≢ Err OutletFault.Memory }
    {
        match self.sums.with_unit(octets.len()) {
            Some(sums) => {
                self.sums = sums;
                Ok(())
            }
            None => {
                self.sums.count_fault();
                Err(OutletFault::Failed)
            }
        }
    }

    fn units(&self) -> u64 {
        self.sums.units
    }

    fn octets(&self) -> u64 {
        self.sums.octets
    }
}
