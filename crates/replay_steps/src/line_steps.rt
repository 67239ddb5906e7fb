//! The steps of a sink's control and of its links.
ghost use Rattle.std.specs.Prelude.{◌≡◌, ◌≤◌, ◌^◌, ℕ, List, Some};
ghost use Rattle.unit_outlets.specs.Account.{Account};
ghost use Rattle.bass_operations.specs.Layout.{encoding};
ghost use Rattle.bass_operations.specs.declared.operation.Operation.{Operation};
ghost use Rattle.scenario_text.specs.Ranges.{IsInRange};
ghost use Rattle.scenario_text.specs.declared.step.Step.{Step as Said};
ghost use Rattle.scenario_text.specs.declared.step.Step.TheVariants.{Announce, Train};
ghost use Rattle.recurring_lines.specs.Operations.{operation_step};
ghost use Rattle.scenario_history.specs.Steps.{running, stage_of};
ghost use Rattle.scenario_history.specs.Worlds.{source_at};
ghost use Rattle.sink_history.specs.History.{named_by};
ghost use Rattle.scenario_sink.specs.Origins.{IsFrom};
ghost use Rattle.scenario_sink.specs.SinkLines.{IsSinkLine};
ghost use Rattle.replay_steps.specs.Machines.{Stands};
ghost use Rattle.replay_steps.specs.Meets.{Meets, Tells};
ghost use Rattle.replay_steps.specs.Operations.{HasLine};

use crate::machine::Machine;
use bcast_base::Octets;
use recurring_lines::TrainHead;
use scenario_sink::Origin;
use scenario_text::Step;
use transcript_text::{Refusal, Stop};

impl Machine {
    /// The chosen source as a sink meets it (Basic Audio Profile 1.0, section 3.7.2).
    fn origin(&self) -> Origin
        ensures { (steps : List Said) → Stands steps self.now → IsFrom result (source_at steps) }
    {
        let identity = self.sources.identity();
        Origin {
            number: self.sources.chosen(),
            address_type: identity.address_type,
            sid: identity.sid,
        }
    }

    /// A line of the control or of the links of a sink.
    #[inline(never)]
    pub(crate) fn sink_line(&mut self, step: Step, text: &mut Octets) -> Result<(), Stop>
        requires range { IsInRange step }
        requires line { IsSinkLine step }
        ensures { (starts accounts : List Account) (version : ℕ) (steps : List Said) → Stands steps self.old → stage_of steps ≡ running version
            → Meets starts steps step self.new text.old text.new accounts accounts result }
    {
        let sink = sink_of(&step);
        let origin = self.origin();
        self.sinks.line(sink, step, origin, text)
    }

    /// A line that says an operation, whose octets were read: `add`, `modify`, `remove` or `code`.
    pub(crate) fn operate(&mut self, sink: u8) -> Result<(), Stop>
        requires { sink ≤ 7 }
        ensures { (starts accounts : List Account) (version : ℕ) (steps : List Said) (op : Operation) (text : List ℕ) → HasLine op
            → self.old.operation ≡ encoding op → Stands steps self.old → stage_of steps ≡ running version
            → Meets starts steps (operation_step sink op) self.new text text accounts accounts result }
    {
        self.sinks.operate(sink, self.operation.as_slice())
    }

    /// `train`: hands a sink the train whose octets were read, as one of the chosen source.
    pub(crate) fn hear_train(&mut self, head: TrainHead, text: &mut Octets) -> Result<(), Stop>
        requires sink { head.sink ≤ 7 }
        requires time { head.time ≤ 2 ^ 61 }
        ensures { (starts accounts : List Account) (version : ℕ) (steps : List Said) → Stands steps self.old → stage_of steps ≡ running version
            → Meets starts steps (Train head.sink head.time self.old.train.ext self.old.train.adv self.old.train.acad) self.new text.old text.new
            accounts accounts result }
    {
        let origin = self.origin();
        let ext = self.train.ext();
        let adv = self.train.adv();
        let acad = self.train.acad();
        self.sinks
            .train(head.sink, origin, head.time, ext, adv, acad, text)
    }

    /// `announce`: hands a sink the train of the chosen source for its next event.
    #[inline(never)]
    pub(crate) fn announce(&mut self, sink: u8, text: &mut Octets) -> Result<(), Stop>
        requires { sink ≤ 7 }
        ensures { (starts : List Account) (version : ℕ) (steps : List Said) → Stands steps self.old → stage_of steps ≡ running version
            → Tells starts steps (Announce sink) self.new text.old text.new result }
    {
        if !self.sources.is_sending() {
            return Err(Stop::Refused(Refusal::Order));
        }
        if !self.sinks.lives(sink) {
            return Err(Stop::Refused(Refusal::NoSuchSink));
        }
        let train = match self.sources.announce() {
            Ok(train) => train,
            Err(stop) => return Err(stop),
        };
        let origin = self.origin();
        self.sinks.announce(sink, origin, &train, text)
    }
}

/// The sink that a line of the control or of the links of a sink names.
fn sink_of(step: &Step) -> u8
    requires range { IsInRange step.now }
    requires line { IsSinkLine step.now }
    ensures sink { result ≤ 7 }
    ensures named { named_by step.now ≡ Some result }
{
    match step {
        Step::Pac { sink, .. }
        | Step::Locate { sink, .. }
        | Step::Context { sink, .. }
        | Step::Train { sink, .. }
        | Step::Write { sink, .. }
        | Step::Add { sink, .. }
        | Step::Modify { sink, .. }
        | Step::Remove { sink, .. }
        | Step::Code { sink, .. }
        | Step::Serve { sink, .. }
        | Step::Tell { sink, .. }
        | Step::Read { sink, .. }
        | Step::Drain { sink, .. }
        | Step::Show { sink, .. }
        | Step::Lose { sink, .. }
        | Step::Control { sink, .. }
        | Step::Forge { sink, .. }
        | Step::Assist { sink, .. }
        | Step::Apart { sink, .. }
        | Step::AWrite { sink, .. }
        | Step::AServe { sink, .. }
        | Step::ATell { sink, .. }
        | Step::ARead { sink, .. }
        | Step::ADrain { sink, .. }
        | Step::AShow { sink, .. } => *sink,
        Step::Scenario { .. }
        | Step::Group { .. }
        | Step::Ident { .. }
        | Step::Subgroup { .. }
        | Step::Meta { .. }
        | Step::Bis { .. }
        | Step::Cipher { .. }
        | Step::Start { .. }
        | Step::Sink { .. }
        | Step::Tuned { .. }
        | Step::Unit { .. }
        | Step::Event
        | Step::Hear { .. }
        | Step::Air { .. }
        | Step::Inject { .. }
        | Step::Sniff { .. }
        | Step::Announce { .. }
        | Step::Drop { .. }
        | Step::Terminate { .. }
        | Step::Stop
        | Step::End
        | Step::Source { .. }
        | Step::Relay { .. } => unreachable!(),
    }
}
