//! Units on their way from the sinks to the boxes and the text.
ghost use Rattle.std.specs.Prelude.{◌≡◌, ◌<◌, ◌≤◌, ◌^◌, ◌∷◌, [], ℕ, List, Option, Some, map};
ghost use Rattle.unit_outlets.specs.Account.{Account};
ghost use Rattle.unit_outlets.specs.Handed.{valid, lost};
ghost use Rattle.unit_outlets.specs.Took.{OthersSame};
ghost use Rattle.scenario_sinks.specs.State.Gathering.{calls_of, handed_of, units_for};
ghost use Rattle.scenario_sinks.specs.Handing.{BoxTakes, Hands};

use crate::gathered::{Gathered, HandedUnit};
use crate::sink::Owner;
use bcast_base::{Bis, Memory, Octets};
use scenario_words::PrintedNumber;
use transcript_text::{Stop, put_lost, put_valid};
use unit_outlets::{Outlet, OutletFault, TakerFault, take_at};

/// Puts a unit into the box at a place, where there is one.
fn put_in_box(outlets: &mut Vec<Box<dyn Outlet>>, place: usize, octets: &[u8]) -> Result<(), Stop>
    ensures takes { BoxTakes place octets.now (map account outlets.old.items) (map account outlets.new.items) result }
    ensures others { OthersSame place outlets.old.items outlets.new.items }
{
    if place >= outlets.len() {
        return Ok(());
    }
    match take_at(outlets, place, octets) {
        Ok(()) => Ok(()),
        Err(OutletFault::Failed) => Err(Stop::OutletFault),
        Err(OutletFault::Memory) => Err(Stop::Memory),
    }
}

/// Hands a valid unit of a sink: to the box at this place, and then to the text.
fn hand_valid(
    owner: Owner,
    bis: Bis,
    time: &PrintedNumber,
    octets: &[u8],
    outlets: &mut Vec<Box<dyn Outlet>>,
    text: &mut Octets,
) -> Result<(), Stop>
    ensures hands { Hands (units_for owner (valid bis time.now octets.now ∷ [])) text.old text.new (map account outlets.old.items)
        (map account outlets.new.items) result }
    ensures others { OthersSame owner.outlet outlets.old.items outlets.new.items }
{
    match put_in_box(outlets, owner.outlet, octets) {
        Ok(()) => {}
        Err(stop) => return Err(stop),
    }
    match put_valid(text, owner.sink, bis.get(), time, octets) {
        Ok(()) => Ok(()),
        Err(Memory) => Err(Stop::Memory),
    }
}

/// Tells that a unit of a sink is lost.
fn hand_lost(owner: Owner, bis: Bis, time: &PrintedNumber, text: &mut Octets) -> Result<(), Stop>
    ensures { (accounts : List Account) → Hands (units_for owner (lost bis time.now ∷ [])) text.old text.new accounts accounts result }
{
    match put_lost(text, owner.sink, bis.get(), time) {
        Ok(()) => Ok(()),
        Err(Memory) => Err(Stop::Memory),
    }
}

/// Hands a unit of a sink, valid or lost. The digits of its time are kept for the next one.
fn hand_unit(
    unit: &HandedUnit,
    owner: Owner,
    time: &mut PrintedNumber,
    outlets: &mut Vec<Box<dyn Outlet>>,
    text: &mut Octets,
) -> Result<(), Stop>
    ensures hands { Hands (units_for owner (handed_of unit.now ∷ [])) text.old text.new (map account outlets.old.items)
        (map account outlets.new.items) result }
    ensures others { OthersSame owner.outlet outlets.old.items outlets.new.items }
{
    time.set(unit.time);
    match unit.octets() {
        Some(octets) => hand_valid(owner, unit.bis, time, octets, outlets, text),
        None => hand_lost(owner, unit.bis, time, text),
    }
}

/// Hands units of a sink in order.
fn hand_units(
    units: &[HandedUnit],
    owner: Owner,
    time: &mut PrintedNumber,
    outlets: &mut Vec<Box<dyn Outlet>>,
    text: &mut Octets,
) -> Result<(), Stop>
    ensures hands { Hands (units_for owner (map handed_of units.now)) text.old text.new (map account outlets.old.items)
        (map account outlets.new.items) result }
    ensures others { OthersSame owner.outlet outlets.old.items outlets.new.items }
{
    'units: for unit in units {
        match hand_unit(unit, owner, time, outlets, text) {
            Ok(()) => continue 'units,
            Err(stop) => return Err(stop),
        }
    }
    Ok(())
}

/// Hands what was gathered of a sink in order. It stays gathered.
pub(crate) fn hand_gathered(
    gathered: &mut Gathered,
    owner: Owner,
    outlets: &mut Vec<Box<dyn Outlet>>,
    text: &mut Octets,
) -> Result<(), Stop>
    ensures hands { Hands (units_for owner (calls_of gathered.old)) text.old text.new (map account outlets.old.items)
        (map account outlets.new.items) result }
    ensures others { OthersSame owner.outlet outlets.old.items outlets.new.items }
    ensures kept { calls_of gathered.new ≡ calls_of gathered.old }
{
    let units = &gathered.units[..gathered.count];
    hand_units(units, owner, &mut gathered.time, outlets, text)
}
