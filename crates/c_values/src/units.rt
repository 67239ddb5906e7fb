//! The units that were handed up and that C has not taken yet.
ghost use Rattle.std.specs.Prelude.{◌≡◌, ◌<◌, ◌≤◌, ◌&&◌, [], true, false, List, length, None};
ghost use Rattle.std.specs.Prelude.{is_none, is_ok, is_some, IfSome, IsOk, IsErr, IsSome, OnOk, OnErr};
ghost use Rattle.unit_outlets.specs.Handed.{Caused, Handed, HandsOver, lost, valid};
ghost use Rattle.c_values.specs.Kept.{Brought, Kept, Lacks, begun, calls_of, counts_of, greatest_unit, with_miss, with_unit};
ghost use Rattle.c_values.specs.Sound.{missed_as};

use crate::rooms::{filled, put_back, rooms};
use crate::told::Told;
use bcast_base::{Bis, Memory};
use std::alloc::Global;
use std::marker::Model;
use unit_outlets::{TakerFault, UnitTaker};

/// The most octets of a unit: Max_SDU has 12 bits.
const GREATEST_UNIT: usize = 4095;

/// A unit that waits. A lost one has no octets, though it has a room for some.
#[derive(Drop)]
pub struct Entry {
    pub bis: Bis,
    pub time: u64,
    pub is_valid: bool,
    pub octets: Vec<u8>,
}

/// A unit that found no memory: what it was.
#[derive(Drop)]
pub struct Missed {
    pub bis: Bis,
    pub time: u64,
    pub octets: Option<Told>,
}

/// What a tick or a close hands over: how many units waited as it began, the first unit that found no memory, which is noted and not
/// kept, and how many were refused behind it. So a prefix of its units waits.
#[derive(Drop)]
pub struct Round {
    pub began: usize,
    pub missed: Option<Missed>,
    pub wants: u64,
}

impl Round {
    /// Nothing was handed over beside so many units that wait.
    pub(crate) fn new(began: usize) -> Round
        ensures { result ≡ record { began = began; missed = None; wants = 0 } }
    {
        Round {
            began,
            missed: None,
            wants: 0,
        }
    }
}

/// The units that wait, oldest first, and the room that was reserved for them.
#[derive(Drop)]
pub struct Units {
    pub(crate) entries: Vec<Entry>,
    pub(crate) spare: Vec<Vec<u8>>,
    pub(crate) places: usize,
    pub(crate) size: usize,
    pub(crate) round: Round,
    pub(crate) alloc: Global,
}

impl Model for Units {
    ghost use Rattle.c_values.specs.Kept.{Kept};

    ghost Value = { Kept };

    ghost use Rattle.c_values.specs.Sound.{IsSound, kept_of};

    ghost view = { kept_of };

    ghost invariant = { IsSound };
}

impl Units {
    /// No units, and no room. It takes no memory.
    pub fn new(alloc: Global) -> Units
        ensures waiting { result.waiting ≡ [] }
        ensures room { result.room ≡ record { units = 0; octets = 0 } }
    {
        Units {
            entries: Vec::new(alloc),
            spare: Vec::new(alloc),
            places: 0,
            size: 0,
            round: Round::new(0),
            alloc,
        }
    }

    /// Room for so many units of so many octets each, in place of the room that was there. What waits stays.
    pub fn reserve(&mut self, units: usize, octets: usize) -> Result<(), Memory>
        requires { octets ≤ greatest_unit }
        ensures waiting { self.new.waiting ≡ self.old.waiting }
        ensures ok { OnOk result (self.new.room ≡ record { units = units; octets = octets }) }
        ensures err { OnErr result (self.new ≡ self.old) }
    {
        let spare = rooms(self.alloc, units, octets)?;
        let waiting = self.entries.len();
        self.entries.reserve(units.saturating_sub(waiting))?;
        self.round = Round::new(0);
        self.spare = spare;
        self.places = units;
        self.size = octets;
        Ok(())
    }

    /// A round begins.
    pub fn begin(&mut self)
        ensures { self.new ≡ begun self.old }
    {
        self.round = Round::new(self.entries.len());
    }

    /// A round ended, with this answer of who handed the units over: whether all of them wait.
    pub fn end(&mut self, handed: Result<(), TakerFault>) -> bool
        ensures brought { (before : Kept) (units : List Handed) → HandsOver units (calls_of (begun before)) (calls_of self.old) handed
            → Caused (counts_of (begun before)) (counts_of self.old) handed → Brought before units self.new result }
    {
        let all = self.is_whole(handed);
        self.settle();
        all
    }

    /// Whether no unit of the round found no memory, and none was refused.
    fn is_whole(&self, handed: Result<(), TakerFault>) -> bool
        ensures whole { result ≡ (is_none self.now.round.missed && is_ok handed) }
        ensures grew { self.now.round.began ≤ length self.now.waiting }
        ensures lacked { IfSome self.now.round.missed (Lacks self.now.room (length self.now.waiting)) }
        ensures counted { 0 < self.now.round.wants → IsSome self.now.round.missed }
    {
        self.round.missed.is_none() && handed.is_ok()
    }

    /// No round goes on.
    pub(crate) fn settle(&mut self)
        ensures waiting { self.new.waiting ≡ self.old.waiting }
        ensures room { self.new.room ≡ self.old.room }
    {
        self.round = Round::new(0);
    }

    /// Puts a unit behind those that wait. It takes no memory where the room is enough. A unit that is longer than any is refused.
    fn put(&mut self, bis: Bis, time: u64, is_valid: bool, octets: &[u8]) -> Result<(), Memory>
        ensures valid { OnOk result (is_valid ≡ true → self.new ≡ with_unit (valid bis time octets.now) self.old) }
        ensures lost { OnOk result (is_valid ≡ false → self.new ≡ with_unit (lost bis time) self.old) }
        ensures err { OnErr result (self.new ≡ self.old) }
        ensures served { length self.old.waiting < self.old.room.units → length octets.now ≤ self.old.room.octets → IsOk result }
    {
        let size = self.size;
        if octets.len() > GREATEST_UNIT {
            return Err(Memory);
        }
        let octets = filled(self.alloc, &mut self.spare, size, octets)?;
        let entry = Entry {
            bis,
            time,
            is_valid,
            octets,
        };
        match self.entries.push(entry) {
            Ok(()) => Ok(()),
            Err(refused) => {
                put_back(&mut self.spare, size, refused.value.octets);
                Err(Memory)
            }
        }
    }

    /// Notes a unit that found no memory.
    fn miss(&mut self, missed: Missed)
        requires { Lacks self.old.room (length self.old.waiting) (missed_as missed) }
        ensures { self.new ≡ with_miss (missed_as missed) self.old }
    {
        self.round.missed = Some(missed);
    }

    /// Refuses a unit, and counts it, up to the last number.
    fn refuse(&mut self) -> Result<(), TakerFault>
        requires { IsSome self.old.round.missed }
        ensures refused { IsErr result }
        ensures cause { Caused (counts_of self.old) (counts_of self.new) result }
        ensures calls { calls_of self.new ≡ calls_of self.old }
    {
        self.round.wants = self.round.wants.saturating_add(1);
        Err(TakerFault::Memory)
    }

    /// Whether a unit of the round found no memory.
    fn has_missed(&self) -> bool
        ensures { result ≡ is_some self.now.round.missed }
    {
        self.round.missed.is_some()
    }
}

impl UnitTaker for Units {
    ghost use Rattle.c_values.specs.Kept.{calls_of, counts_of};

    ghost calls = { calls_of };

    ghost counts = { counts_of };

    fn valid(&mut self, bis: Bis, time: u64, octets: &[u8]) -> Result<(), TakerFault> {
        if self.has_missed() {
            return self.refuse();
        }
        if self.put(bis, time, true, octets).is_err() {
            self.miss(Missed {
                bis,
                time,
                octets: Some(Told::of(&octets)),
            });
        }
        Ok(())
    }

    fn lost(&mut self, bis: Bis, time: u64) -> Result<(), TakerFault> {
        if self.has_missed() {
            return self.refuse();
        }
        if self.put(bis, time, false, &[]).is_err() {
            self.miss(Missed {
                bis,
                time,
                octets: None,
            });
        }
        Ok(())
    }
}
