//! What one may ask of a scenario between its lines. Nothing changes by it.
ghost use Rattle.std.specs.Prelude.{◌≡◌, ◌≤◌, ◌<◌, ◌^◌, true, List, IfNone, IfOk, IfSome, IsSome, None};
ghost use Rattle.bcast_io.specs.TextLines.{TextLine};
ghost use Rattle.unit_outlets.specs.Account.{Account};
ghost use Rattle.source_machine.specs.Airs.{airs_of};
ghost use Rattle.scenario_history.specs.Boxes.{box_of};
ghost use Rattle.scenario_history.specs.Lines.{steps_of};
ghost use Rattle.scenario_history.specs.Refusals.{no_place};
ghost use Rattle.scenario_history.specs.Sinks.{sink_calls, source_of};
ghost use Rattle.scenario_history.specs.Source.{event_back, is_heard, pdu_in};
ghost use Rattle.scenario_history.specs.Steps.{steps_of_source};
ghost use Rattle.scenario_history.specs.Worlds.{calls_made};
ghost use Rattle.scenario_sinks.specs.Hearing.{hearing_where};
ghost use Rattle.sink_history.specs.History.{made_of};
ghost use Rattle.sink_history.specs.Output.{state_where};
ghost use Rattle.replay_steps.specs.LineMeets.{LinesStand};

use crate::machine::Machine;
use bcast_base::{Bis, Memory, Octets};
use isoal_base::Hearing;
use scenario_sources::Place;

impl Machine {
    /// The PDU that a source sent, be it chosen or not, in a subevent, from 0, of the event `back` before the last one, which is at
    /// most 31: only where one is on the air there.
    pub fn sent_at(&self, source: u8, back: u8, bis: Bis, subevent: u8) -> Option<&[u8]>
        requires source { source < 2 }
        requires back { back ≤ 31 }
        ensures some { (starts : List Account) (lines : List TextLine) (accounts : List Account) → LinesStand starts lines self.now accounts
            → IfSome result (λ pdu. let own = steps_of_source source (steps_of airs_of lines) in
            (no_place own back bis subevent ≡ None) × (pdu.now ≡ pdu_in airs_of own (event_back own back) bis subevent)) }
        ensures none { (starts : List Account) (lines : List TextLine) (accounts : List Account) → LinesStand starts lines self.now accounts
            → IfNone result (let own = steps_of_source source (steps_of airs_of lines) in
            is_heard own ≡ true → IsSome (no_place own back bis subevent)) }
    {
        let place = Place {
            back,
            bis,
            subevent,
        };
        match self.sources.sent_at(source, place) {
            Ok(pdu) => Some(pdu),
            Err(_) => None,
        }
    }

    /// What a sink would answer octets in the place of a PDU of a source, in a subevent, from 0, of an event of a stream (Core 5.2,
    /// volume 6 part B, section 4.4.6): none where no sink of this number lives.
    pub fn would_answer(
        &self,
        sink: u8,
        source: u8,
        event: u64,
        bis: Bis,
        subevent: u8,
        octets: &[u8],
    ) -> Option<Hearing>
        requires sink { sink ≤ 7 }
        requires event { event ≤ 2 ^ 39 }
        ensures { (starts : List Account) (lines : List TextLine) (accounts : List Account) → LinesStand starts lines self.now accounts
            → let steps = steps_of airs_of lines in
            result ≡ hearing_where (box_of sink steps) (source_of sink steps) (sink_calls airs_of sink steps)
            source event bis subevent octets.now }
    {
        self.sinks
            .would_answer(sink, source, event, bis, subevent, octets)
    }

    /// The octets of the state of a slot of a sink, which are none where the slot is empty (Broadcast Audio Scan Service 1.0, section
    /// 3.2): `None` where no sink of this number lives, or it has no such slot.
    pub fn state_of(&self, sink: u8, slot: u8) -> Result<Option<Octets>, Memory>
        requires { sink ≤ 7 }
        ensures { (starts : List Account) (lines : List TextLine) (accounts : List Account) → LinesStand starts lines self.now accounts
            → let steps = steps_of airs_of lines in
            IfOk result (λ octets. octets ≡ state_where (made_of sink steps) (calls_made sink steps) slot) }
    {
        self.sinks.state(sink, slot)
    }
}
