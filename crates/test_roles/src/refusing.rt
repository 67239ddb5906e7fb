ghost use Rattle.std.specs.Prelude.{◌≡◌, ◌-◌, ◌^◌, map};
ghost use Rattle.isoal_unframed.specs.State.Windows.{handed_of};

use crate::taken::Taken;
use bcast_base::Bis;
use std::alloc::Global;
use unit_outlets::{TakerFault, UnitTaker};

/// A taker that refuses one call, takes what each other one hands it, and counts them all. Its counts stand at their last values.
#[derive(Drop)]
pub(crate) struct Refusing {
    taken: Taken,
    refused_at: usize,
    fault: TakerFault,
    calls: usize,
}

impl Refusing {
    /// A taker that refuses no call.
    pub(crate) fn new(alloc: Global) -> Refusing {
        Refusing {
            taken: Taken::new(alloc),
            refused_at: 0,
            fault: TakerFault::Failed,
            calls: 0,
        }
    }

    /// Counts from 0 again, and refuses the call of this number, from 1, for this fault.
    pub(crate) fn refuse(&mut self, call: usize, fault: TakerFault) {
        self.refused_at = call;
        self.fault = fault;
        self.calls = 0;
    }

    /// Whether the last call was the refused one, and this is its answer.
    pub(crate) fn refused_last(&self, answer: Option<Result<(), TakerFault>>) -> bool {
        answer == Some(Err(self.fault)) && self.calls == self.refused_at
    }

    /// Whether so many calls were made, none of which was refused.
    pub(crate) fn took(&self, answer: Option<Result<(), TakerFault>>, calls: usize) -> bool {
        answer == Some(Ok(())) && self.calls == calls
    }

    /// Whether so many calls were made, and so many units were taken.
    pub(crate) fn has_counts(&self, calls: usize, units: usize) -> bool {
        self.calls == calls && self.taken.units.len() == units
    }

    /// Counts a call: whether it is the one that is refused.
    fn is_refused(&mut self) -> bool
        ensures { self.new.taken ≡ self.old.taken }
    {
        self.calls = self.calls.saturating_add(1);
        self.calls == self.refused_at
    }
}

impl UnitTaker for Refusing {
    ghost calls = { λ t. map (λ u. handed_of u.bis u.time u.octets) t.taken.units.items };

    ghost counts = { λ _. record { faults = 2 ^ 64 - 1; wants = 2 ^ 64 - 1 } };

    fn valid(&mut self, bis: Bis, time: u64, octets: &[u8]) -> Result<(), TakerFault> {
        if self.is_refused() {
            return Err(self.fault);
        }
        self.taken.valid(bis, time, octets)
    }

    fn lost(&mut self, bis: Bis, time: u64) -> Result<(), TakerFault> {
        if self.is_refused() {
            return Err(self.fault);
        }
        self.taken.lost(bis, time)
    }
}
