//! Closing an event of a source: each of its sinks hands its units up.
ghost use Rattle.std.specs.Prelude.{◌≡◌, ◌≤◌, ◌<◌, ◌+◌, ◌^◌, ◌&&◌, ℕ, true, false, List, [], Option, Some, is_some, length, map};
ghost use Rattle.group_sink.specs.Calls.{Call};
ghost use Rattle.sink_history.specs.Calls as links;
ghost use Rattle.scenario_history.specs.Sinks as history;
ghost use Rattle.delegator_history.specs.Trains.{Settings};
ghost use Rattle.scenario_sinks.specs.Histories.{Histories};
ghost use Rattle.scenario_sinks.specs.State.Gathering.{calls_of};
ghost use Rattle.scenario_sinks.specs.State.Standing.{EntryIs, EntriesAre};
ghost use Rattle.scenario_sinks.specs.State.Between.{SinkCloses, SinkHands, AllClose, OneCloses};
ghost use Rattle.scenario_sinks.specs.Unassigned.{AllButSame, UnassignedSame};
ghost use Rattle.unit_outlets.specs.Took.{OthersSame};

use crate::gathered::Gathered;
use crate::hand::hand_gathered;
use crate::sink::{Owner, Sink, is_of};
use bcast_base::Octets;
use transcript_text::Stop;
use unit_outlets::{Outlet, TakerFault};

/// Whether a sink lives in an entry that is of this source.
fn is_sink_of(entry: &Option<Sink>, source: u8) -> bool
    ensures { (box : Option ℕ) (made : Option Settings) (own : Option ℕ) (calls_made : List links.Call) (received : List Call)
        → EntryIs box made own calls_made received (Some entry.now) → result ≡ (is_some box && history.is_of source own) }
{
    match entry {
        Some(sink) => is_of(sink.living.source(), source),
        None => false,
    }
}

/// Closes an event of its source for a living sink, the owner of its units: they go to its box, and then to the text. They stay
/// gathered.
fn hand_living(
    sink: &mut Sink,
    owner: Owner,
    event: u64,
    gathered: &mut Gathered,
    outlets: &mut Vec<Box<dyn Outlet>>,
    text: &mut Octets,
) -> Result<(), Stop>
    requires { event < 2 ^ 39 }
    ensures hands { (box : Option ℕ) (made : Option Settings) (own : Option ℕ) (calls_made : List links.Call) (received : List Call)
        → EntryIs box made own calls_made received (Some (Some sink.old)) → history.is_of owner.source own ≡ true
        → owner.outlet ≡ sink.old.outlet → calls_of gathered.old ≡ []
        → SinkHands box made own calls_made received owner.sink owner.source event (Some sink.new) gathered.new text.old text.new
        (map account outlets.old.items) (map account outlets.new.items) result }
    ensures others { OthersSame owner.outlet outlets.old.items outlets.new.items }
{
    match sink.living.tick(event, gathered) {
        Ok(()) => {}
        Err(TakerFault::Memory) => return Err(Stop::Memory),
        Err(TakerFault::Failed) => unreachable!(),
    }
    hand_gathered(gathered, owner, outlets, text)
}

/// Closes an event of a source for the sink of a number, where one lives that is of this source: its units go to its
/// box, and then to the text. They stay gathered.
fn hand_sink(
    entry: &mut Option<Sink>,
    number: u8,
    source: u8,
    event: u64,
    gathered: &mut Gathered,
    outlets: &mut Vec<Box<dyn Outlet>>,
    text: &mut Octets,
) -> Result<(), Stop>
    requires { event < 2 ^ 39 }
    ensures hands { (box : Option ℕ) (made : Option Settings) (own : Option ℕ) (calls_made : List links.Call) (received : List Call)
        → EntryIs box made own calls_made received (Some entry.old) → calls_of gathered.old ≡ []
        → SinkHands box made own calls_made received number source event entry.new gathered.new text.old text.new (map account outlets.old.items)
        (map account outlets.new.items) result }
    ensures others { (box : Option ℕ) (made : Option Settings) (own : Option ℕ) (calls_made : List links.Call) (received : List Call)
        → EntryIs box made own calls_made received (Some entry.old) → AllButSame box outlets.old.items outlets.new.items }
{
    let Some(sink) = entry else {
        return Ok(());
    };
    if !is_of(sink.living.source(), source) {
        return Ok(());
    }
    let owner = Owner {
        source,
        sink: number,
        outlet: sink.outlet,
    };
    hand_living(sink, owner, event, gathered, outlets, text)
}

/// Closes an event of a source for the sink of a number, where one lives that is of this source: its units go to its
/// box, and then to the text. Where they are kept they stay gathered.
fn close_sink(
    entry: &mut Option<Sink>,
    number: u8,
    source: u8,
    event: u64,
    keeps: bool,
    gathered: &mut Gathered,
    outlets: &mut Vec<Box<dyn Outlet>>,
    text: &mut Octets,
) -> Result<(), Stop>
    requires { event < 2 ^ 39 }
    ensures closes { (box : Option ℕ) (made : Option Settings) (own : Option ℕ) (calls_made : List links.Call) (received : List Call)
        → EntryIs box made own calls_made received (Some entry.old) → calls_of gathered.old ≡ [] → keeps ≡ false
        → SinkCloses box made own calls_made received number source event entry.new gathered.new text.old text.new (map account outlets.old.items)
        (map account outlets.new.items) result }
    ensures hands { (box : Option ℕ) (made : Option Settings) (own : Option ℕ) (calls_made : List links.Call) (received : List Call)
        → EntryIs box made own calls_made received (Some entry.old) → calls_of gathered.old ≡ [] → keeps ≡ true
        → SinkHands box made own calls_made received number source event entry.new gathered.new text.old text.new (map account outlets.old.items)
        (map account outlets.new.items) result }
    ensures others { (box : Option ℕ) (made : Option Settings) (own : Option ℕ) (calls_made : List links.Call) (received : List Call)
        → EntryIs box made own calls_made received (Some entry.old) → AllButSame box outlets.old.items outlets.new.items }
{
    if !is_sink_of(entry, source) {
        return Ok(());
    }
    match hand_sink(entry, number, source, event, gathered, outlets, text) {
        Ok(()) => {}
        Err(stop) => return Err(stop),
    }
    if keeps {
        return Ok(());
    }
    gathered.clear();
    Ok(())
}

/// Closes an event of a source for the sinks from a number to another, which is left out: for all, or for one alone, whose
/// units are kept.
pub(crate) fn close_sinks(
    sinks: &mut [Option<Sink>],
    first: u8,
    end: u8,
    source: u8,
    event: u64,
    keeps: bool,
    gathered: &mut Gathered,
    outlets: &mut Vec<Box<dyn Outlet>>,
    text: &mut Octets,
) -> Result<(), Stop>
    requires event { event < 2 ^ 39 }
    requires eight { length sinks.old ≡ 8 }
    requires end { end ≤ 8 }
    ensures closes { (past : Histories) → EntriesAre past sinks.old → calls_of gathered.old ≡ [] → first ≡ 0 → end ≡ 8 → keeps ≡ false
        → AllClose past source event sinks.new gathered.new text.old text.new (map account outlets.old.items)
        (map account outlets.new.items) result }
    ensures one { (past : Histories) → EntriesAre past sinks.old → calls_of gathered.old ≡ [] → end ≡ first + 1 → keeps ≡ true
        → OneCloses past first source event sinks.new gathered.new text.old text.new (map account outlets.old.items)
        (map account outlets.new.items) result }
    ensures others { (past : Histories) → EntriesAre past sinks.old → UnassignedSame past outlets.old.items outlets.new.items }
{
    'sinks: for number in first..end {
        match close_sink(
            &mut sinks[usize::from(number)],
            number,
            source,
            event,
            keeps,
            gathered,
            outlets,
            text,
        ) {
            Ok(()) => continue 'sinks,
            Err(stop) => return Err(stop),
        }
    }
    Ok(())
}
