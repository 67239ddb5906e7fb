//! The sums of the boxes in the transcript.
ghost use Rattle.std.specs.Prelude.{◌≡◌, ◌++◌, ℕ, List, Option, Some, length, map, OnOk};
ghost use Rattle.group_sink.specs.Calls.{Call};
ghost use Rattle.sink_history.specs.Calls as links;
ghost use Rattle.scenario_history.specs.Boxes.{sink_numbers};
ghost use Rattle.scenario_sinks.specs.Histories.{Histories};
ghost use Rattle.delegator_history.specs.Trains.{Settings};
ghost use Rattle.scenario_sinks.specs.Sums.{sum_at, sum_where, sums_where};
ghost use Rattle.scenario_sinks.specs.State.Standing.{EntryIs, EntriesAre};

use crate::sink::Sink;
use bcast_base::{Memory, Octets};
use transcript_text::put_sum;
use unit_outlets::Outlet;

/// How many units a box took.
fn units_in(outlet: &Box<dyn Outlet>) -> u64
    ensures { result ≡ (account outlet.now).units }
{
    outlet.units()
}

/// How many octets these units had in sum.
fn octets_in(outlet: &Box<dyn Outlet>) -> u64
    ensures { result ≡ (account outlet.now).octets }
{
    outlet.octets()
}

/// Puts the sums of the box at a place; both are 0 where there is none.
pub(crate) fn put_sum_at(
    sink: u8,
    place: usize,
    outlets: &Vec<Box<dyn Outlet>>,
    text: &mut Octets,
) -> Result<(), Memory>
    ensures { OnOk result (text.new ≡ text.old ++ sum_at (map account outlets.now.items) sink place) }
{
    match outlets.get(place) {
        Some(outlet) => put_sum(text, sink, units_in(outlet), octets_in(outlet)),
        None => put_sum(text, sink, 0, 0),
    }
}

/// Puts the sums of the box of a sink, where one lives.
fn put_sums_of(
    entry: &Option<Sink>,
    number: u8,
    outlets: &Vec<Box<dyn Outlet>>,
    text: &mut Octets,
) -> Result<(), Memory>
    ensures { (box : Option ℕ) (made : Option Settings) (own : Option ℕ) (calls_made : List links.Call) (received : List Call)
        → EntryIs box made own calls_made received (Some entry.now)
        → OnOk result (text.new ≡ text.old ++ sum_where (map account outlets.now.items) number box) }
{
    match entry {
        Some(sink) => put_sum_at(number, sink.outlet, outlets, text),
        None => Ok(()),
    }
}

/// Puts the sums of the boxes of all living sinks, by rising number.
pub(crate) fn put_sums(
    sinks: &[Option<Sink>],
    outlets: &Vec<Box<dyn Outlet>>,
    text: &mut Octets,
) -> Result<(), Memory>
    requires { length sinks.now ≡ 8 }
    ensures { (past : Histories) → EntriesAre past sinks.now
        → OnOk result (text.new ≡ text.old ++ sums_where (map account outlets.now.items) past.boxes sink_numbers) }
{
    'sinks: for number in 0..8u8 {
        match put_sums_of(&sinks[usize::from(number)], number, outlets, text) {
            Ok(()) => continue 'sinks,
            Err(memory) => return Err(memory),
        }
    }
    Ok(())
}
