//! The steps that bring PDUs of the air to the sinks and to the transcript.
ghost use Rattle.std.specs.Prelude.{◌≡◌, ◌≤◌, ◌<◌, ◌+◌, ◌-◌, ◌*◌, ◌^◌, ◌∷◌, ℕ, List};
ghost use Rattle.unit_outlets.specs.Account.{Account};
ghost use Rattle.radio_schedule.specs.Losing.{LosesFrom};
ghost use Rattle.scenario_text.specs.declared.step.Step.{Step};
ghost use Rattle.scenario_text.specs.declared.step.Step.TheVariants.{Hear as HearStep, Air as AirStep};
ghost use Rattle.scenario_text.specs.declared.step.Step.TheVariants.{Inject as InjectStep, Sniff as SniffStep};
ghost use Rattle.scenario_history.specs.Steps.{running, stage_of};
ghost use Rattle.scenario_sources.specs.State.Standing.{SourcesStand};
ghost use Rattle.scenario_sinks.specs.State.Standing.{SinksStand};
ghost use Rattle.replay_steps.specs.Airing.{OnAir, Reaches, histories_on_air};
ghost use Rattle.replay_steps.specs.Machines.{Stands, histories_of};
ghost use Rattle.replay_steps.specs.Meets.{Quiet, Tells};

use crate::heard_event::HeardEvent;
use crate::machine::Machine;
use bcast_base::{Bis, Memory, Octets};
use radio_schedule::{Grid, Losses};
use scenario_sinks::Sinks;
use scenario_sources::{Place, Sources};
use transcript_text::{Refusal, Stop, put_heard, put_pdu};

impl Machine {
    /// Whether a PDU of the chosen source may be handed to a sink; the grid of its events where it may. It stands alone, so that
    /// its callers take no room for a group.
    #[inline(never)]
    fn reach(&self, sink: u8) -> Result<Grid, Stop>
        requires { sink ≤ 7 }
        ensures { (steps : List Step) → Stands steps self.now → Reaches steps sink result }
    {
        let Some(group) = self.sources.group() else {
            return Err(Stop::Refused(Refusal::Order));
        };
        if !self.sinks.lives(sink) {
            return Err(Stop::Refused(Refusal::NoSuchSink));
        }
        Ok(Grid {
            streams: group.info.num_bis,
            subevents: group.info.nse,
        })
    }

    /// `hear`: hands a sink a PDU of an event that was performed.
    pub(crate) fn hear(&mut self, sink: u8, place: Place) -> Result<(), Stop>
        requires sink { sink ≤ 7 }
        requires back { place.back ≤ 31 }
        ensures { (boxes version : ℕ) (steps : List Step) → Stands steps self.old → stage_of steps ≡ running version
            → Quiet boxes steps (HearStep sink place.back place.bis place.subevent) self.new result }
    {
        match self.reach(sink) {
            Ok(_) => {}
            Err(stop) => return Err(stop),
        }
        let source = self.sources.chosen();
        let event = self.sources.event_back(place.back);
        let bis = place.bis;
        let subevent = place.subevent;
        match self.sources.heard_at(place) {
            Ok(pdu) => {
                let _ = self.sinks.hear(sink, source, event, bis, subevent, pdu);
                Ok(())
            }
            Err(stop) => Err(stop),
        }
    }

    /// `air`: hands a sink all PDUs of the last event but those that are lost.
    #[inline(always)]
    pub(crate) fn air(&mut self, sink: u8, lose: u8) -> Result<(), Stop>
        requires { sink ≤ 7 }
        ensures { (boxes version : ℕ) (steps : List Step) → Stands steps self.old → stage_of steps ≡ running version
            → Quiet boxes steps (AirStep sink lose) self.new result }
    {
        let grid = match self.reach(sink) {
            Ok(grid) => grid,
            Err(stop) => return Err(stop),
        };
        let Some(event) = self.sources.last_event() else {
            return Err(Stop::Refused(Refusal::NotOnAir));
        };
        hear_all(&self.sources, &mut self.sinks, sink, grid, event, lose);
        Ok(())
    }

    /// `inject`: hands a sink other octets in the place of a PDU, and prints what it made of them.
    #[inline(never)]
    pub(crate) fn inject(
        &mut self,
        sink: u8,
        place: Place,
        octets: &[u8],
        text: &mut Octets,
    ) -> Result<(), Stop>
        requires sink { sink ≤ 7 }
        requires back { place.back ≤ 31 }
        ensures { (starts : List Account) (version : ℕ) (steps : List Step) → Stands steps self.old → stage_of steps ≡ running version
            → Tells starts steps (InjectStep sink place.back place.bis place.subevent octets.now) self.new text.old text.new result }
    {
        match self.reach(sink) {
            Ok(_) => {}
            Err(stop) => return Err(stop),
        }
        let source = self.sources.chosen();
        let event = self.sources.event_back(place.back);
        let bis = place.bis;
        let subevent = place.subevent;
        match self.sources.heard_at(place) {
            Ok(_) => {}
            Err(stop) => return Err(stop),
        }
        let Some(hearing) = self.sinks.hear(sink, source, event, bis, subevent, octets) else {
            return Err(Stop::Refused(Refusal::NoSuchSink));
        };
        match put_heard(text, sink, hearing) {
            Ok(()) => Ok(()),
            Err(Memory) => Err(Stop::Memory),
        }
    }

    /// `sniff`: prints a PDU of an event that was performed.
    #[inline(never)]
    pub(crate) fn sniff(&self, place: Place, text: &mut Octets) -> Result<(), Stop>
        requires { place.back ≤ 31 }
        ensures { (starts : List Account) (version : ℕ) (steps : List Step) → Stands steps self.now → stage_of steps ≡ running version
            → Tells starts steps (SniffStep place.back place.bis place.subevent) self.now text.old text.new result }
    {
        let Some(_) = self.sources.group() else {
            return Err(Stop::Refused(Refusal::Order));
        };
        let event = self.sources.event_back(place.back);
        let bis = place.bis;
        let subevent = place.subevent;
        match self.sources.heard_at(place) {
            Ok(pdu) => match put_pdu(text, event, bis.get(), subevent, pdu) {
                Ok(()) => Ok(()),
                Err(Memory) => Err(Stop::Memory),
            },
            Err(stop) => Err(stop),
        }
    }
}

/// Hands a sink the PDUs of the last event, by rising index and subevent, but those that are lost.
fn hear_all(sources: &Sources, sinks: &mut Sinks, sink: u8, grid: Grid, event: u64, lose: u8)
    requires sink { sink ≤ 7 }
    requires event { event < 2 ^ 39 }
    ensures { (steps : List Step) → OnAir steps sink event grid.streams grid.subevents → SourcesStand steps sources.now
        → SinksStand (histories_of steps) sinks.old → SinksStand (histories_of (AirStep sink lose ∷ steps)) sinks.new }
{
    let mut losses = Losses::first(grid, event, lose);
    let mut lost = [false; 31];
    'streams: for stream in 0..grid.streams {
        losses.next(grid.subevents, &mut lost);
        hear_stream(sources, sinks, sink, event, stream, &lost);
    }
}

/// Hands a sink the PDUs of a stream, from 0, of the last event, but those that are lost.
#[inline(always)]
fn hear_stream(
    sources: &Sources,
    sinks: &mut Sinks,
    sink: u8,
    event: u64,
    stream: u8,
    lost: &[bool; 31],
)
    requires sink { sink ≤ 7 }
    requires event { event < 2 ^ 39 }
    requires stream { stream < 31 }
    ensures { (steps : List Step) (lose streams subevents : ℕ) → stream < streams → OnAir steps sink event streams subevents
        → SourcesStand steps sources.now → LosesFrom lose (event * streams * subevents + stream * subevents) subevents lost.now
        → SinksStand (histories_on_air steps sink lose (stream * subevents)) sinks.old
        → SinksStand (histories_on_air steps sink lose ((stream + 1) * subevents)) sinks.new }
{
    let Some(bis) = Bis::new(stream + 1) else {
        return;
    };
    let Some(sent) = sources.sent_on(bis) else {
        return;
    };
    let heard = HeardEvent::new(&sent, lost);
    sinks.hear_event(sink, sources.chosen(), event, bis, &heard);
}
