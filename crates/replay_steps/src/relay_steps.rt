//! The step that makes a relay, and what relays do as an event of source 0 is closed.
ghost use Rattle.std.specs.Prelude.{◌≡◌, ◌≤◌, ◌<◌, ◌^◌, ◌==◌, ◌||◌, ◌&&◌, not, ◌∷◌};
ghost use Rattle.std.specs.Prelude.{[], nat_lt, ℕ, List, Option, None, Some, map, option_map};
ghost use Rattle.std.specs.Option.{ForSome};
ghost use Rattle.unit_outlets.specs.Account.{Account};
ghost use Rattle.scenario_text.specs.declared.step.Step.{Step};
ghost use Rattle.scenario_text.specs.declared.step.Step.TheVariants.{Relay as RelayStep};
ghost use Rattle.scenario_history.specs.RelayedUnits.{Offer, offered_of};
ghost use Rattle.scenario_history.specs.Relays as history;
ghost use Rattle.scenario_history.specs.Relays.{relay_of};
ghost use Rattle.scenario_history.specs.Steps.{running, stage_of};
ghost use Rattle.scenario_sinks.specs.Histories.{Histories};
ghost use Rattle.scenario_sinks.specs.State.Gathering.{handed_of};
ghost use Rattle.scenario_sinks.specs.Unassigned.{UnassignedSame};
ghost use Rattle.scenario_sources.specs.State.Standing.{SourcesStand};
ghost use Rattle.scenario_sinks.specs.RelayHistories.{is_idle};
ghost use Rattle.scenario_sinks.specs.State.RelaysStand.{RelaysStand};
ghost use Rattle.replay_steps.specs.Machines.{Stands, lent, relay_histories};
ghost use Rattle.replay_steps.specs.Meets.{Quiet};
ghost use Rattle.replay_steps.specs.Relaying.{Closes, Drops, FirstMeets, GivesSecond, OffersMeet, ComponentsStand, SinkMeets};

use crate::machine::Machine;
use bcast_base::{Bis, Memory, Octets};
use big_info::Group;
use scenario_sinks::{HandedUnit, Relays, Route};
use scenario_sources::Sources;
use transcript_text::{Refusal, Stop, put_dropped};
use unit_outlets::Outlet;

impl Machine {
    /// `relay`: a sink hands each valid unit of a stream on to stream `to` of source 1.
    #[inline(never)]
    pub(crate) fn relay(&mut self, sink: u8, bis: Bis, to: Bis) -> Result<(), Stop>
        requires { sink ≤ 7 }
        ensures { (boxes version : ℕ) (steps : List Step) → Stands steps self.old → stage_of steps ≡ running version
            → Quiet boxes steps (RelayStep sink bis to) self.new result }
    {
        let Some(first) = self.sources.taking(0) else {
            return Err(Stop::Refused(Refusal::Order));
        };
        let Some(second) = self.sources.taking(1) else {
            return Err(Stop::Refused(Refusal::Order));
        };
        if second.info.framing != 1 {
            return Err(Stop::Refused(Refusal::Order));
        }
        if !self.sinks.lives(sink) {
            return Err(Stop::Refused(Refusal::NoSuchSink));
        }
        if is_beyond(&first, &second, bis, to) {
            return Err(Stop::Refused(Refusal::NoSuchBis));
        }
        if self.relays.is_taken(sink, to) {
            return Err(Stop::Refused(Refusal::RelayTaken));
        }
        self.relays.relay(sink, bis, to);
        Ok(())
    }

    /// Closes the event of a source that is open, where one is: its sinks hand their units up, and as an event of source 0 is closed
    /// their relays offer theirs to source 1. Where no sink has a relay, all sinks close it at once.
    #[inline(always)]
    pub(crate) fn close(
        &mut self,
        source: u8,
        closed: Option<u64>,
        outlets: &mut Vec<Box<dyn Outlet>>,
        text: &mut Octets,
    ) -> Result<(), Stop>
        requires { ForSome closed (λ event. event < 2 ^ 39) }
        ensures closes { (steps : List Step) (past : Histories) → ComponentsStand steps past self.old
            → Closes steps past source closed self.new text.old text.new (map account outlets.old.items)
            (map account outlets.new.items) result }
        ensures others { (steps : List Step) (past : Histories) → ComponentsStand steps past self.old
            → UnassignedSame past outlets.old.items outlets.new.items }
        ensures stage { self.new.stage ≡ self.old.stage }
    {
        let Some(event) = closed else {
            return Ok(());
        };
        if self.may_relay(source) {
            return self.close_sinks(event, outlets, text);
        }
        self.sinks.close(source, closed, outlets, text)
    }

    /// Whether units of this source may go to source 1: it is source 0, and a sink has a relay.
    fn may_relay(&self, source: u8) -> bool
        ensures { (steps : List Step) (past : Histories) → ComponentsStand steps past self.now
            → result ≡ ((source == 0) && not (is_idle (relay_histories steps))) }
    {
        source == 0 && !self.relays.is_idle()
    }

    /// Closes an event of source 0 for all its sinks, by rising number.
    #[inline(never)]
    fn close_sinks(
        &mut self,
        event: u64,
        outlets: &mut Vec<Box<dyn Outlet>>,
        text: &mut Octets,
    ) -> Result<(), Stop>
        requires { event < 2 ^ 39 }
        ensures closes { (steps : List Step) (past : Histories) → ComponentsStand steps past self.old
            → FirstMeets steps past event self.new text.old text.new (map account outlets.old.items)
            (map account outlets.new.items) result }
        ensures others { (steps : List Step) (past : Histories) → ComponentsStand steps past self.old
            → UnassignedSame past outlets.old.items outlets.new.items }
        ensures stage { self.new.stage ≡ self.old.stage }
    {
        'sinks: for sink in 0..8u8 {
            match self.close_sink(sink, event, outlets, text) {
                Ok(()) => continue 'sinks,
                Err(stop) => return Err(stop),
            }
        }
        Ok(())
    }

    /// Closes an event of source 0 for the sink of a number: it hands its units up, and its relay offers those of its stream.
    fn close_sink(
        &mut self,
        sink: u8,
        event: u64,
        outlets: &mut Vec<Box<dyn Outlet>>,
        text: &mut Octets,
    ) -> Result<(), Stop>
        requires sink { sink ≤ 7 }
        requires event { event < 2 ^ 39 }
        ensures closes { (steps : List Step) (past : Histories) → ComponentsStand steps past self.old
            → SinkMeets steps past sink event self.new text.old text.new (map account outlets.old.items)
            (map account outlets.new.items) result }
        ensures others { (steps : List Step) (past : Histories) → ComponentsStand steps past self.old
            → UnassignedSame past outlets.old.items outlets.new.items }
        ensures stage { self.new.stage ≡ self.old.stage }
    {
        match self.sinks.close_at(sink, 0, event, outlets, text) {
            Ok(()) => {}
            Err(stop) => return Err(stop),
        }
        let route = self.relays.route(sink);
        let units = self.sinks.lent();
        match offer_all(
            units,
            sink,
            route,
            &mut self.sources,
            &mut self.relays,
            text,
        ) {
            Ok(()) => {}
            Err(stop) => return Err(stop),
        }
        self.sinks.forget();
        Ok(())
    }
}

/// Whether source 0 has no stream of the first index, or source 1 none of the second.
fn is_beyond(first: &Group, second: &Group, bis: Bis, to: Bis) -> bool
    ensures { result ≡ (nat_lt first.now.info.num_bis bis || nat_lt second.now.info.num_bis to) }
{
    bis.get() > first.info.num_bis || to.get() > second.info.num_bis
}

/// Offers what a sink with a relay or none hands up to source 1: the valid units of the relay's stream, in order.
fn offer_all(
    units: &[HandedUnit],
    sink: u8,
    route: Option<Route>,
    sources: &mut Sources,
    relays: &mut Relays,
    text: &mut Octets,
) -> Result<(), Stop>
    ensures { (steps : List Step) (own : Option history.Route) → route ≡ option_map lent own → SourcesStand steps sources.old
        → RelaysStand (relay_histories steps) relays.old
        → OffersMeet steps (offered_of sink own (map handed_of units.now)) sources.new relays.new text.old text.new result }
{
    match route {
        Some(route) => offer_units(units, sink, &route, sources, relays, text),
        None => Ok(()),
    }
}

/// Offers the valid units of a relay's stream to source 1, in order.
fn offer_units(
    units: &[HandedUnit],
    sink: u8,
    route: &Route,
    sources: &mut Sources,
    relays: &mut Relays,
    text: &mut Octets,
) -> Result<(), Stop>
    ensures { (steps : List Step) (own : history.Route) → route.now ≡ lent own → SourcesStand steps sources.old
        → RelaysStand (relay_histories steps) relays.old
        → OffersMeet steps (offered_of sink (Some own) (map handed_of units.now)) sources.new relays.new text.old text.new result }
{
    'units: for unit in units {
        match offer_unit(unit, sink, route, sources, relays, text) {
            Ok(()) => continue 'units,
            Err(stop) => return Err(stop),
        }
    }
    Ok(())
}

/// Offers a unit to source 1, where it is a valid one of a relay's stream.
fn offer_unit(
    unit: &HandedUnit,
    sink: u8,
    route: &Route,
    sources: &mut Sources,
    relays: &mut Relays,
    text: &mut Octets,
) -> Result<(), Stop>
    ensures { (steps : List Step) (own : history.Route) → route.now ≡ lent own → SourcesStand steps sources.old
        → RelaysStand (relay_histories steps) relays.old
        → OffersMeet steps (offered_of sink (Some own) (handed_of unit.now ∷ [])) sources.new relays.new text.old text.new result }
{
    let Some(octets) = unit.octets() else {
        return Ok(());
    };
    if unit.bis.get() != route.bis.get() {
        return Ok(());
    }
    match give_second(sources, route.to, unit.time, octets) {
        Ok(()) => {
            relays.give(route.to);
            Ok(())
        }
        Err(Stop::Refused(reason)) => drop_unit(text, sink, route.bis, reason),
        Err(Stop::OutletFault) => Err(Stop::OutletFault),
        Err(Stop::Memory) => Err(Stop::Memory),
    }
}

/// Gives source 1 a unit with its time, as a `unit` line under `source 1` does, and chooses the source again that was chosen.
fn give_second(sources: &mut Sources, to: Bis, time: u64, octets: &[u8]) -> Result<(), Stop>
    ensures { (steps : List Step) (offer : Offer) → offer.route.to ≡ to → offer.unit ≡ record { time = time; octets = octets.now }
        → SourcesStand steps sources.old → GivesSecond steps offer sources.new result }
{
    let chosen = sources.chosen();
    sources.choose(1);
    let given = sources.give(to, Some(time), octets);
    sources.choose(chosen);
    given
}

/// Tells that a unit which a relay offered isn't taken.
fn drop_unit(text: &mut Octets, sink: u8, bis: Bis, reason: Refusal) -> Result<(), Stop>
    ensures { Drops sink bis reason text.old text.new result }
{
    match put_dropped(text, sink, bis.get(), reason) {
        Ok(()) => Ok(()),
        Err(Memory) => Err(Stop::Memory),
    }
}
