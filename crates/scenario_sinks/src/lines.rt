//! The lines of a sink's control and of its links.
ghost use Rattle.std.specs.Prelude.{◌≡◌, ◌≤◌, ◌^◌, ℕ, List};
ghost use Rattle.scenario_sinks.specs.Histories.{Histories};
ghost use Rattle.scenario_sinks.specs.SinkLines.{SinkLineMakes};
ghost use Rattle.scenario_sinks.specs.State.Standing.{SinksStand};
ghost use Rattle.scenario_text.specs.Ranges.{IsInRange};
ghost use Rattle.scenario_text.specs.declared.step.Step.{Step as Said};
ghost use Rattle.scenario_text.specs.declared.step.Step.TheVariants.{Announce, Train as TrainStep};
ghost use Rattle.sink_history.specs.History.{Source};
ghost use Rattle.scenario_sink.specs.Operates.{Operates};
ghost use Rattle.scenario_sink.specs.Origins.{IsFrom};
ghost use Rattle.scenario_sink.specs.SinkCalls.{call_step};
ghost use Rattle.scenario_sink.specs.SinkLines.{IsSinkLine};

use crate::entry::{announce_entry, call_entry, operate_entry, run_entry, train_entry};
use crate::sinks::Sinks;
use announcement_train::Train;
use bcast_base::Octets;
use scenario_sink::{Origin, SinkCall};
use scenario_text::Step;
use transcript_text::Stop;

impl Sinks {
    /// Runs a line that names the sink of this number, and puts what it prints at the end of the text. It is refused with
    /// NoSuchSink where no sink of this number lives, else by the first reason that holds of the sink: NoSuchLink, LinkTwice,
    /// NothingWaiting, RecordsTooLong; a refused line changes nothing, and wants no memory, nor do `locate`, `context` and `apart`,
    /// and a drain of a link on which nothing waits.
    /// A train may synchronize the sink to a BIG of the source that the line means (Basic Audio Profile 1.0, section 6.5).
    pub fn line(
        &mut self,
        sink: u8,
        step: Step,
        origin: Origin,
        text: &mut Octets,
    ) -> Result<(), Stop>
        requires sink { sink ≤ 7 }
        requires range { IsInRange step }
        requires line { IsSinkLine step }
        ensures { (past : Histories) (source : Source) → IsFrom origin source → SinksStand past self.old
            → SinkLineMakes past sink source step self.new text.old text.new result }
    {
        run_entry(&mut self.entries[sink as usize], step, origin, text)
    }

    /// Runs a line that names the sink of this number and says the operation of these octets, as `line` does: it prints nothing. It is
    /// refused with NoSuchSink where no sink of this number lives.
    pub fn operate(&mut self, sink: u8, octets: &[u8]) -> Result<(), Stop>
        requires { sink ≤ 7 }
        ensures { (past : Histories) (source : Source) (step : Said) (text : List ℕ) → Operates step octets.now → SinksStand past self.old
            → SinkLineMakes past sink source step self.new text text result }
    {
        operate_entry(&mut self.entries[sink as usize], octets)
    }

    /// Runs a line that names the sink of this number and comes again and again, as `line` does.
    pub fn call(&mut self, sink: u8, call: SinkCall, text: &mut Octets) -> Result<(), Stop>
        requires { sink ≤ 7 }
        ensures { (past : Histories) (source : Source) → SinksStand past self.old
            → SinkLineMakes past sink source (call_step call sink) self.new text.old text.new result }
    {
        call_entry(&mut self.entries[sink as usize], call, sink, text)
    }

    /// `train`: hands the sink of this number a train that is given by its octets, as `line` does, at this time in µs (Basic Audio Profile
    /// 1.0, sections 3.7.2 and 6.5). It is refused with NoSuchSink where no sink of this number lives.
    pub fn train(
        &mut self,
        sink: u8,
        origin: Origin,
        time: u64,
        ext: &[u8],
        adv: &[u8],
        acad: &[u8],
        text: &mut Octets,
    ) -> Result<(), Stop>
        requires sink { sink ≤ 7 }
        requires time { time ≤ 2 ^ 61 }
        ensures { (past : Histories) (source : Source) → IsFrom origin source → SinksStand past self.old
            → SinkLineMakes past sink source (TrainStep sink time ext.now adv.now acad.now) self.new text.old text.new result }
    {
        train_entry(
            &mut self.entries[sink as usize],
            sink,
            origin,
            time,
            ext,
            adv,
            acad,
            text,
        )
    }

    /// `announce`: puts the train of a source at the end of the text, hands it to the sink of this number, and puts the answer
    /// behind it (Basic Audio Profile 1.0, sections 3.7.2 and 6.5). It is refused with NoSuchSink where no sink of this number
    /// lives.
    pub fn announce(
        &mut self,
        sink: u8,
        origin: Origin,
        train: &Train,
        text: &mut Octets,
    ) -> Result<(), Stop>
        requires sink { sink ≤ 7 }
        requires time { train.now.time ≤ 2 ^ 61 }
        ensures { (past : Histories) (source : Source) → IsFrom origin source → source.announced ≡ train.now → SinksStand past self.old
            → SinkLineMakes past sink source (Announce sink) self.new text.old text.new result }
    {
        announce_entry(&mut self.entries[sink as usize], sink, origin, train, text)
    }
}
