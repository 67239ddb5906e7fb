ghost use Rattle.std.specs.Prelude.{◌≡◌, ◌++◌, ◌∷◌, [], map, OnOk, OnErr, IsErr};
ghost use Rattle.unit_outlets.specs.Handed.{Caused};
ghost use Rattle.isoal_unframed.specs.State.Windows.{handed_of};

use bcast_base::{Bis, Memory, Octets};
use std::alloc::Global;
use unit_outlets::{TakerFault, UnitTaker};

/// A unit that was handed: its octets, or none where it is lost.
#[derive(Drop)]
pub(crate) struct TakenUnit {
    pub(crate) bis: Bis,
    pub(crate) time: u64,
    pub(crate) octets: Option<Octets>,
}

/// A taker that keeps all units.
#[derive(Drop)]
pub(crate) struct Taken {
    alloc: Global,
    pub(crate) units: Vec<TakenUnit>,
    wants: u64,
}

impl Taken {
    pub(crate) fn new(alloc: Global) -> Taken {
        Taken {
            alloc,
            units: Vec::new(alloc),
            wants: 0,
        }
    }

    /// Whether this unit was handed at this time with these octets, or as lost.
    pub(crate) fn has(&self, place: usize, time: u64, octets: Option<&[u8]>) -> bool {
        let Some(unit) = self.units.as_slice().get(place) else {
            return false;
        };
        if unit.time != time {
            return false;
        }
        match (&unit.octets, octets) {
            (Some(own), Some(octets)) => own.as_slice() == octets,
            (None, None) => true,
            _ => false,
        }
    }

    fn put(&mut self, bis: Bis, time: u64, octets: Option<Octets>) -> Result<(), Memory>
        ensures ok { OnOk result (map (λ u. handed_of u.bis u.time u.octets) self.new.units.items
            ≡ map (λ u. handed_of u.bis u.time u.octets) self.old.units.items ++ handed_of bis time octets ∷ []) }
        ensures err { OnErr result (self.new.units.items ≡ self.old.units.items) }
        ensures wants { self.new.wants ≡ self.old.wants }
    {
        self.units.push(TakenUnit { bis, time, octets })?;
        Ok(())
    }

    fn want(&mut self) -> Result<(), TakerFault>
        ensures refused { IsErr result }
        ensures cause { Caused (record { faults = 0; wants = self.old.wants }) (record { faults = 0; wants = self.new.wants }) result }
        ensures units { self.new.units.items ≡ self.old.units.items }
    {
        self.wants = self.wants.saturating_add(1);
        Err(TakerFault::Memory)
    }
}

impl UnitTaker for Taken {
    ghost calls = { λ t. map (λ u. handed_of u.bis u.time u.octets) t.units.items };

    ghost counts = { λ t. record { faults = 0; wants = t.wants } };

    fn valid(&mut self, bis: Bis, time: u64, octets: &[u8]) -> Result<(), TakerFault> {
        let Ok(octets) = Octets::copy(self.alloc, octets) else {
            return self.want();
        };
        match self.put(bis, time, Some(octets)) {
            Ok(()) => Ok(()),
            Err(_) => self.want(),
        }
    }

    fn lost(&mut self, bis: Bis, time: u64) -> Result<(), TakerFault> {
        match self.put(bis, time, None) {
            Ok(()) => Ok(()),
            Err(_) => self.want(),
        }
    }
}
