ghost use Rattle.std.specs.Prelude.{◌≡◌, ◌<◌, ◌≤◌, true, Some, Err, [], length, reverse, slice_get, option_copied, unwrap_or, IfOk};
ghost use Rattle.unit_outlets.specs.Account.{fresh};
ghost use Rattle.unit_outlets.specs.Took.{Took};

use crate::fault::OutletFault;
use crate::outlet::Outlet;
use crate::sums::Sums;
use bcast_base::{Memory, Octets};
use circular_buffer::HeapCircularBuffer;
use std::alloc::Global;
use std::marker::Model;

/// A sound box that also keeps its newest units. A unit of no octets takes no memory.
#[derive(Drop)]
pub struct LastUnits {
    sums: Sums,
    units: HeapCircularBuffer<Octets>,
    alloc: Global,
}

impl Model for LastUnits {
    ghost use Rattle.std.specs.Prelude.{true, Some};
    ghost use Rattle.unit_outlets.specs.Account.{Account};

    ghost Value = { Account };

    ghost view = { λ b. record {
      units = b.sums.units;
      octets = b.sums.octets;
      faults = b.sums.faults;
      is_sound = true;
      greatest = b.units.capacity;
      kept = Some b.units.items;
    } };
}

impl LastUnits {
    /// A box that took nothing yet, and keeps at most `n` units.
    pub fn new(alloc: Global, n: usize) -> Result<LastUnits, Memory>
        requires { 1 ≤ n }
        ensures { IfOk result (λ b. b ≡ fresh true n (Some [])) }
    {
        Ok(LastUnits {
            sums: Sums::new(),
            units: HeapCircularBuffer::with_capacity(alloc, n)?,
            alloc,
        })
    }

    /// The i-th unit from the newest, from 0; `None` exactly past the units that it keeps.
    pub fn last(&self, i: usize) -> Option<&[u8]>
        ensures { option_copied result ≡ slice_get (reverse (unwrap_or self.now.kept [])) i }
    {
        Some(self.units.nth_back(i)?.as_slice())
    }
}

impl Outlet for LastUnits {
    ghost account = { λ b. b };

    fn take(&mut self, octets: &[u8]) -> Result<(), OutletFault>
        ensures took { Took octets.now self.old self.new result }
        ensures memory { result ≡ Err OutletFault.Memory → 0 < length octets.now }
    {
        match self.sums.with_unit(octets.len()) {
            Some(sums) => {
                let unit = Octets::copy(self.alloc, octets)?;
                let _oldest = self.units.push_back(unit);
                self.sums = sums;
                Ok(())
            }
            None => {
                self.sums.count_fault();
                Err(OutletFault::Failed)
            }
        }
    }

    fn units(&self) -> u64 {
        self.sums.units
    }

    fn octets(&self) -> u64 {
        self.sums.octets
    }
}
