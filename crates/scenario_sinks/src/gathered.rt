ghost use Rattle.std.specs.Prelude.{◌≡◌, ◌≤◌, ◌++◌, ◌∷◌, [], map, vec_len, OnOk, OnErr, IsErr};
ghost use Rattle.std.specs.Option.{option_copied};
ghost use Rattle.unit_outlets.specs.Handed.{Caused};

use bcast_base::{Bis, Memory, Octets};
use scenario_words::PrintedNumber;
use std::alloc::Global;
use unit_outlets::{TakerFault, UnitTaker};

/// A unit that a receiver handed up.
#[derive(Drop)]
pub struct HandedUnit {
    pub bis: Bis,
    pub time: u64,
    is_valid: bool,
    octets: Octets,
}

impl HandedUnit {
    ghost use Rattle.scenario_sinks.specs.State.Gathering.{handed_as, handed_of, octets_of};

    /// Its octets, or none where it is lost.
    pub fn octets(&self) -> Option<&[u8]>
        ensures { option_copied result ≡ octets_of self.now }
    {
        if self.is_valid {
            Some(self.octets.as_slice())
        } else {
            None
        }
    }

    /// Takes the place of the unit, in its memory.
    #[inline(always)]
    fn fill(&mut self, bis: Bis, time: u64, octets: Option<&[u8]>) -> Result<(), Memory>
        ensures { OnOk result (handed_of self.new ≡ handed_as bis time (option_copied octets.entry)) }
    {
        self.bis = bis;
        self.time = time;
        match octets {
            Some(octets) => {
                self.is_valid = true;
                self.octets.clear();
                self.octets.append(octets)
            }
            None => {
                self.is_valid = false;
                Ok(())
            }
        }
    }
}

/// The units of a close, in order, before they go to the box of their sink. They are put in the memory of earlier ones, and the digits
/// of the time that was printed last are kept.
#[derive(Drop)]
pub struct Gathered {
    alloc: Global,
    pub(crate) units: Vec<HandedUnit>,
    pub(crate) count: usize,
    pub(crate) time: PrintedNumber,
    wants: u64,
    ghost within: { count ≤ vec_len units },
}

impl Gathered {
    ghost use Rattle.scenario_sinks.specs.State.Gathering.{calls_of, counts_of, handed_as, handed_of};

    /// Nothing gathered yet. It takes no memory.
    pub(crate) fn new(alloc: Global) -> Gathered
        ensures { calls_of result ≡ [] }
    {
        Gathered {
            alloc,
            units: Vec::new(alloc),
            count: 0,
            time: PrintedNumber::new(),
            wants: 0,
        }
    }

    /// The units, in order.
    pub(crate) fn as_slice(&self) -> &[HandedUnit]
        ensures { map handed_of result.now ≡ calls_of self.now }
    {
        &self.units[..self.count]
    }

    /// Drops the units, and keeps their memory.
    pub(crate) fn clear(&mut self)
        ensures items { calls_of self.new ≡ [] }
        ensures wants { self.new.wants ≡ self.old.wants }
    {
        self.count = 0;
    }

    /// Puts a unit at the end, in the memory of an earlier one where one is kept.
    #[inline(always)]
    fn put(&mut self, bis: Bis, time: u64, octets: Option<&[u8]>) -> Result<(), Memory>
        ensures ok { OnOk result (calls_of self.new ≡ calls_of self.old ++ handed_as bis time (option_copied octets.entry) ∷ []) }
        ensures err { OnErr result (calls_of self.new ≡ calls_of self.old) }
        ensures wants { self.new.wants ≡ self.old.wants }
    {
        if self.count == self.units.len() {
            self.units.push(HandedUnit {
                bis,
                time,
                is_valid: false,
                octets: Octets::new(self.alloc),
            })?;
        }
        self.units[self.count].fill(bis, time, octets)?;
        self.count += 1;
        Ok(())
    }

    /// Counts a want of memory, up to the last number.
    fn want(&mut self) -> Result<(), TakerFault>
        ensures refused { IsErr result }
        ensures cause { Caused (counts_of self.old) (counts_of self.new) result }
        ensures units { calls_of self.new ≡ calls_of self.old }
    {
        self.wants = self.wants.saturating_add(1);
        Err(TakerFault::Memory)
    }
}

impl UnitTaker for Gathered {
    ghost use Rattle.scenario_sinks.specs.State.Gathering.{calls_of, counts_of};

    ghost calls = { calls_of };

    ghost counts = { counts_of };

    #[inline(always)]
    fn valid(&mut self, bis: Bis, time: u64, octets: &[u8]) -> Result<(), TakerFault> {
        match self.put(bis, time, Some(octets)) {
            Ok(()) => Ok(()),
            Err(Memory) => self.want(),
        }
    }

    #[inline(always)]
    fn lost(&mut self, bis: Bis, time: u64) -> Result<(), TakerFault> {
        match self.put(bis, time, None) {
            Ok(()) => Ok(()),
            Err(Memory) => self.want(),
        }
    }
}
