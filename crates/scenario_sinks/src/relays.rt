ghost use Rattle.std.specs.Prelude.{◌≡◌, ◌≤◌, ◌||◌, is_some};
ghost use Rattle.scenario_sinks.specs.RelayHistories.{Histories, is_idle};
ghost use Rattle.scenario_sinks.specs.State.RelaysStand.{RoutesAre};

use crate::route::Route;
use bcast_base::{Bis, BisSet};

/// The relays of a scenario, by the numbers of their sinks, 0 to 7, and the streams of source 1 that are taken.
#[derive(Clone, Copy)]
pub struct Relays {
    routes: [Option<Route>; 8],
    /// Whether no sink has one.
    idle: bool,
    /// The streams of source 1 that have had a relay.
    relayed: BisSet,
    /// The streams of source 1 that were given a unit.
    given: BisSet,
}

impl Relays {
    ghost use Rattle.scenario_sinks.specs.RelayHistories.{nothing, with_relayed_unit, with_relay, without};
    ghost use Rattle.scenario_sinks.specs.State.RelaysStand.{RelaysStand};

    /// No relay, and nothing was given to source 1.
    pub fn new() -> Relays
        ensures { RelaysStand nothing result }
    {
        Relays {
            routes: [None; 8],
            idle: true,
            relayed: BisSet::new(),
            given: BisSet::new(),
        }
    }

    /// The relay of the sink of this number, where it has one.
    pub fn route(&self, sink: u8) -> Option<Route>
        requires { sink ≤ 7 }
        ensures { (past : Histories) → RelaysStand past self.now → result ≡ past.routes sink }
    {
        self.routes[usize::from(sink)]
    }

    /// Whether no sink has a relay.
    pub fn is_idle(&self) -> bool
        ensures { (past : Histories) → RelaysStand past self.now → result ≡ is_idle past }
    {
        self.idle
    }

    /// Whether this stream of source 1 has had a relay, also where its sink was dropped since.
    pub fn had_relay(&self, bis: Bis) -> bool
        ensures { (past : Histories) → RelaysStand past self.now → result ≡ past.relayed bis }
    {
        self.relayed.has(bis)
    }

    /// Whether a relay is kept from the sink of this number to this stream of source 1: the sink has one, or the stream has had one or
    /// a unit.
    pub fn is_taken(&self, sink: u8, to: Bis) -> bool
        requires { sink ≤ 7 }
        ensures { (past : Histories) → RelaysStand past self.now
            → result ≡ (is_some (past.routes sink) || (past.relayed to || past.given to)) }
    {
        self.route(sink).is_some() || self.relayed.has(to) || self.given.has(to)
    }

    /// `relay`: the sink of this number hands each valid unit of its stream on to stream `to` of source 1.
    pub fn relay(&mut self, sink: u8, bis: Bis, to: Bis)
        requires { sink ≤ 7 }
        ensures { (past : Histories) → RelaysStand past self.old → RelaysStand (with_relay sink bis to past) self.new }
    {
        self.routes[usize::from(sink)] = Some(Route { bis, to });
        self.idle = false;
        self.relayed = self.relayed.with(to);
    }

    /// `drop`: the sink of this number has no relay any more.
    pub fn end(&mut self, sink: u8)
        requires { sink ≤ 7 }
        ensures { (past : Histories) → RelaysStand past self.old → RelaysStand (without sink past) self.new }
    {
        self.routes[usize::from(sink)] = None;
        self.idle = has_none(&self.routes);
    }

    /// Source 1 was given a unit of this stream.
    pub fn give(&mut self, bis: Bis)
        ensures { (past : Histories) → RelaysStand past self.old → RelaysStand (with_relayed_unit bis past) self.new }
    {
        self.given = self.given.with(bis);
    }
}

/// Whether no sink has a relay of these.
fn has_none(routes: &[Option<Route>; 8]) -> bool
    ensures { (past : Histories) → RoutesAre past routes.now → result ≡ is_idle past }
{
    routes.iter().all(|route| route.is_none())
}
