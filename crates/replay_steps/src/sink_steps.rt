//! The steps that make a sink, synchronize it to the BIG of the chosen source and end it.
ghost use Rattle.std.specs.Prelude.{◌≡◌, ◌≤◌, ℕ, List, map};
ghost use Rattle.multi_assist.specs.Mtus.{IsMtu};
ghost use Rattle.unit_outlets.specs.Account.{Account};
ghost use Rattle.scenario_text.specs.declared.step.Step.{Step};
ghost use Rattle.scenario_text.specs.declared.step.Step.TheVariants.{Sink as SinkStep, Tuned as TunedStep, Drop as DropStep};
ghost use Rattle.scenario_history.specs.Steps.{running, stage_of};
ghost use Rattle.replay_steps.specs.Machines.{Stands};
ghost use Rattle.replay_steps.specs.Meets.{BoxesStand, Quiet, Tells};
ghost use Rattle.replay_steps.specs.Versions.{number_of};

use crate::machine::Machine;
use crate::version::Version;
use bcast_base::{BisSet, Octets};
use transcript_text::{Refusal, Stop};
use unit_outlets::Outlet;

impl Machine {
    /// `sink`: a new sink with the next box, of so many, on whose links an assistant is on link 0 alone. It takes so many
    /// streams at once, has so many slots, and has this MTU on every link, where it has one. Its groups send a payload at most
    /// so many events ahead as they may in this version.
    #[inline(never)]
    pub(crate) fn sink(
        &mut self,
        version: Version,
        sink: u8,
        streams: u8,
        slots: u8,
        mtu: Option<u16>,
        boxes: usize,
    ) -> Result<(), Stop>
        requires sink { sink ≤ 7 }
        requires least_streams { 1 ≤ streams }
        requires most_streams { streams ≤ 31 }
        requires least_slots { 1 ≤ slots }
        requires few { slots ≤ 8 }
        requires mtu { IsMtu mtu }
        ensures { (steps : List Step) → Stands steps self.old → stage_of steps ≡ running (number_of version)
            → Quiet boxes steps (SinkStep sink streams slots mtu) self.new result }
    {
        let horizon = version.limits().horizon;
        self.sinks.make(sink, streams, slots, horizon, mtu, boxes)
    }

    /// `tuned`: synchronizes a sink to the BIG of the chosen source from the next event on.
    #[inline(never)]
    pub(crate) fn tuned(&mut self, sink: u8, which: BisSet) -> Result<(), Stop>
        requires { sink ≤ 7 }
        ensures { (boxes version : ℕ) (steps : List Step) → Stands steps self.old → stage_of steps ≡ running version
            → Quiet boxes steps (TunedStep sink which) self.new result }
    {
        let Some(big_sync) = self.sources.big_sync(which) else {
            return Err(Stop::Refused(Refusal::Order));
        };
        self.sinks.tune(sink, self.sources.chosen(), &big_sync)
    }

    /// `drop`: prints the sums of a sink's box, and ends the sink, and its relay with it.
    #[inline(never)]
    pub(crate) fn drop_sink(
        &mut self,
        sink: u8,
        outlets: &Vec<Box<dyn Outlet>>,
        text: &mut Octets,
    ) -> Result<(), Stop>
        requires { sink ≤ 7 }
        ensures { (starts : List Account) (version : ℕ) (steps : List Step) → Stands steps self.old → stage_of steps ≡ running version
            → BoxesStand starts steps (map account outlets.now.items)
            → Tells starts steps (DropStep sink) self.new text.old text.new result }
    {
        match self.sinks.end(sink, outlets, text) {
            Ok(()) => {}
            Err(stop) => return Err(stop),
        }
        self.relays.end(sink);
        Ok(())
    }
}
