//! A box that keeps its newest units, over runs of which two are refused.

ghost use Rattle.std.specs.Prelude.{◌-◌, ◌^◌, false};

use crate::running::{Ended, Kind, Run, ends_so, put_failing};
use std::alloc::Global;
use std::test::*;
use unit_outlets::{LastUnits, Outlet, OutletFault};

/// How many units the box keeps.
const KEPT: usize = 2;

/// The units that it is given, over all runs.
static UNITS: [&[u8]; 5] = [
    &[0xaa],
    &[0xbb, 0xbb],
    &[0xcc, 0xcc, 0xcc],
    &[0xdd],
    &[0xee],
];

/// The second box refuses its first unit behind the third unit of the first box; a line is refused behind the fourth; the last run ends.
static RUNS: [Run; 3] = [
    Run {
        kind: Kind::Lines,
        text: "scenario 1\ngroup unframed 20000 40000 8 10000 4 4 1 1 1 1 0 0 0 1\nsink 0 1 1\nsink 1 1 1\nstart 0\ntuned 0 1\nunit 1 - aa\nevent\nhear 0 0 1 0\nunit 1 - bbbb\nevent\nhear 0 0 1 0\ntuned 1 1\nunit 1 - cccccc\nevent\nhear 0 0 1 0\nhear 1 0 1 0\nend\n",
        ended: Ended::OutletFault,
        transcript: "unit 0 1 at 60060 valid 1 aa\nunit 0 1 at 70060 valid 2 bbbb\nunit 0 1 at 80060 valid 3 cccccc\n",
    },
    Run {
        kind: Kind::Lines,
        text: "scenario 1\ngroup unframed 20000 40000 8 10000 4 4 1 1 1 1 0 0 0 1\nsink 0 1 1\nstart 0\ntuned 0 1\nunit 1 - dd\nevent\nhear 0 0 1 0\nevent\nx\n",
        ended: Ended::Refused,
        transcript: "unit 0 1 at 60060 valid 1 dd\nline 10: BadLine 0\n",
    },
    Run {
        kind: Kind::Lines,
        text: "scenario 1\ngroup unframed 20000 40000 8 10000 4 4 1 1 1 1 0 0 0 1\nsink 0 1 1\nstart 0\ntuned 0 1\nunit 1 - ee\nevent\nhear 0 0 1 0\nend\n",
        ended: Ended::Done,
        transcript: "unit 0 1 at 60060 valid 1 ee\nsum 0 5 8\n",
    },
];

/// A box that refuses a unit where it doesn't keep the newest units of all before it. Its count of faults stands at its last value.
#[derive(Drop)]
struct ComparedBox {
    last: LastUnits,
}

impl ComparedBox {
    /// The i-th unit from the newest, from 0, of those that it is to keep.
    fn wanted(&self, i: usize) -> Option<&'static [u8]> {
        if i >= KEPT {
            return None;
        }
        let place = self.last.units().checked_sub(i as u64 + 1)?;
        UNITS.get(place as usize).copied()
    }

    /// Whether it keeps these, and no other.
    fn keeps_the_newest(&self) -> bool {
        'places: for i in 0..KEPT + 1 {
            if !are_same(self.last.last(i), self.wanted(i)) {
                return false;
            }
        }
        true
    }
}

/// Whether both are the same unit, or none.
fn are_same(kept: Option<&[u8]>, wanted: Option<&[u8]>) -> bool {
    match (kept, wanted) {
        (None, None) => true,
        (Some(kept), Some(wanted)) => kept == wanted,
        _ => false,
    }
}

impl Outlet for ComparedBox {
    ghost account = { λ b. record b.last { faults = 2 ^ 64 - 1; is_sound = false } };

    fn take(&mut self, octets: &[u8]) -> Result<(), OutletFault> {
        if !self.keeps_the_newest() {
            return Err(OutletFault::Failed);
        }
        self.last.take(octets)
    }

    fn units(&self) -> u64 {
        self.last.units()
    }

    fn octets(&self) -> u64 {
        self.last.octets()
    }
}

/// Puts that box, and one that refuses its first unit.
fn are_put(alloc: Global, outlets: &mut Vec<Box<dyn Outlet>>) -> bool {
    let Ok(last) = LastUnits::new(alloc, KEPT) else {
        return false;
    };
    let Ok(compared) = Box::new(alloc, ComparedBox { last }) else {
        return false;
    };
    outlets.push(compared).is_ok() && put_failing(alloc, outlets, true, 1)
}

/// Whether each run ends so, over the boxes of the one before.
fn each_ends_so(alloc: Global) -> bool {
    let mut outlets: Vec<Box<dyn Outlet>> = Vec::new(alloc);
    if !are_put(alloc, &mut outlets) {
        return false;
    }
    'runs: for run in &RUNS {
        if !ends_so(alloc, run, &mut outlets) {
            return false;
        }
    }
    true
}

#[test]
fn the_newest_units_are_kept_whatever_is_refused(rt: HostRuntime) {
    assert!(rt; each_ends_so(rt.alloc()));
}
