ghost use Rattle.std.specs.Prelude.{◌≡◌, ◌<◌, ◌^◌, ℕ, IfOk, List, [], map, length};
ghost use Rattle.bcast_io.specs.TextLines.{TextLine, plain};
ghost use Rattle.unit_outlets.specs.Account.{Account};
ghost use Rattle.scenario_text.specs.Lines.{LineIs};
ghost use Rattle.scenario_text.specs.Ranges.{IsInRange};
ghost use Rattle.scenario_text.specs.declared.step.Step.{Step as Said};
ghost use Rattle.recurring_lines.specs.Frequent.{frequent_step};
ghost use Rattle.recurring_lines.specs.SinkLines.{sink_line_step};

use crate::operations::read_of_source;
use crate::source_steps::give;
use crate::version::Stage;
use bcast_base::{Memory, Octets};
use recurring_lines::{
    Frequent, OperationRoom, SinkLine, TrainRoom, read_frequent, read_sink_line, read_train,
};
use scenario_lines::{LineFault, read_line_over};
use scenario_sink::SinkCall;
use scenario_sinks::{Relays, Sinks};
use scenario_sources::Sources;
use scenario_text::{Step, a_line_says_one_step};
use std::alloc::Global;
use std::mem;
use transcript_text::{Refusal, Stop};
use unit_outlets::Outlet;

/// A scenario as far as it was run.
#[derive(Drop)]
pub struct Machine {
    alloc: Global,
    pub(crate) stage: Stage,
    pub(crate) sources: Sources,
    pub(crate) sinks: Sinks,
    pub(crate) relays: Relays,
    /// The memory of the octets of an earlier unit, for those of the next.
    pub(crate) spare: Octets,
    /// The memory in which the lines of operations are read.
    pub(crate) operation: OperationRoom,
    /// The memory in which the lines of trains are read.
    pub(crate) train: TrainRoom,
}

impl Machine {
    ghost use Rattle.scenario_history.specs.Steps.{is_over, running, stage_of};
    ghost use Rattle.scenario_history.specs.Lines.{steps_of};
    ghost use Rattle.source_machine.specs.Airs.{airs_of};
    ghost use Rattle.replay_steps.specs.LineMeets.{LinesStand, LineMeets};
    ghost use Rattle.replay_steps.specs.Machines.{Stands};
    ghost use Rattle.replay_steps.specs.Meets.{BoxesStand, Meets};
    ghost use Rattle.replay_steps.specs.Unassigned.{UnassignedSame};

    /// A scenario before its first line.
    pub fn new(alloc: Global) -> Result<Machine, Memory>
        ensures { IfOk result (λ machine. (starts : List Account) → LinesStand starts [] machine starts) }
    {
        Ok(Machine {
            alloc,
            stage: Stage::Unbegun,
            sources: Sources::new(alloc)?,
            sinks: Sinks::new(alloc)?,
            relays: Relays::new(),
            spare: Octets::new(alloc),
            operation: OperationRoom::new(alloc),
            train: TrainRoom::new(alloc),
        })
    }

    /// Whether the scenario ended.
    pub fn is_over(&self) -> bool
        ensures { (starts : List Account) (lines : List TextLine) (accounts : List Account) → LinesStand starts lines self.now accounts
            → result ≡ is_over (steps_of airs_of lines) }
    {
        matches!(self.stage, Stage::Over(_))
    }

    /// Runs a line, and puts what it prints at the end of the text. A refused line changes nothing. The boxes that no sink took stay
    /// the same. The condition is one that every slice meets.
    pub fn line(
        &mut self,
        line: &[u8],
        outlets: &mut Vec<Box<dyn Outlet>>,
        text: &mut Octets,
    ) -> Result<(), Stop>
        requires { length line.now < 2 ^ 64 }
        ensures meets { (starts : List Account) (lines : List TextLine) → LinesStand starts lines self.old (map account outlets.old.items)
            → LineMeets starts lines (plain line.now) self.new text.old text.new (map account outlets.old.items)
            (map account outlets.new.items) result }
        ensures unassigned { (starts : List Account) (lines : List TextLine) (accounts : List Account)
            → LinesStand starts lines self.old accounts
            → UnassignedSame (steps_of airs_of lines) outlets.old.items outlets.new.items }
    {
        let Stage::Running(_) = self.stage else {
            return self.any_line(line, outlets, text);
        };
        match read_frequent(self.alloc, &mut self.spare, line) {
            Ok(Some(frequent)) => self.frequent(frequent, outlets, text),
            Ok(None) => self.other_line(line, outlets, text),
            Err(Memory) => Err(Stop::Memory),
        }
    }

    /// Makes the step of a line that comes again and again, and was read: the octets of a unit are in the spare memory.
    #[inline(always)]
    fn frequent(
        &mut self,
        frequent: Frequent,
        outlets: &mut Vec<Box<dyn Outlet>>,
        text: &mut Octets,
    ) -> Result<(), Stop>
        requires { IsInRange (frequent_step frequent self.old.spare) }
        ensures meets { (starts : List Account) (version : ℕ) (steps : List Said) → Stands steps self.old → stage_of steps ≡ running version
            → BoxesStand starts steps (map account outlets.old.items)
            → Meets starts steps (frequent_step frequent self.old.spare) self.new text.old text.new (map account outlets.old.items)
            (map account outlets.new.items) result }
        ensures unassigned { (steps : List Said) → Stands steps self.old → UnassignedSame steps outlets.old.items outlets.new.items }
    {
        match frequent {
            Frequent::Unit { bis, time } => {
                let octets = self.spare.as_slice();
                give(&mut self.sources, &mut self.relays, bis, time, octets)
            }
            Frequent::Event => self.event(outlets, text),
            Frequent::Air { sink, lose } => self.air(sink, lose),
        }
    }

    /// Runs a line that is none of these, where the scenario began and didn't end.
    #[inline(never)]
    fn other_line(
        &mut self,
        line: &[u8],
        outlets: &mut Vec<Box<dyn Outlet>>,
        text: &mut Octets,
    ) -> Result<(), Stop>
        requires { length line.now < 2 ^ 64 }
        ensures meets { (starts : List Account) (version : ℕ) (lines : List TextLine)
            → LinesStand starts lines self.old (map account outlets.old.items) → stage_of (steps_of airs_of lines) ≡ running version
            → LineMeets starts lines (plain line.now) self.new text.old text.new (map account outlets.old.items)
            (map account outlets.new.items) result }
        ensures unassigned { (starts : List Account) (lines : List TextLine) (accounts : List Account)
            → LinesStand starts lines self.old accounts
            → UnassignedSame (steps_of airs_of lines) outlets.old.items outlets.new.items }
    {
        if let Some(said) = read_sink_line(line) {
            return self.say_of_sink(said, text);
        }
        match read_of_source(self.alloc, &mut self.operation, line) {
            Ok(Some(sink)) => self.operate(sink),
            Ok(None) => self.later_line(line, outlets, text),
            Err(Memory) => Err(Stop::Memory),
        }
    }

    /// Makes the step of a line that names a sink alone.
    #[inline(always)]
    fn say_of_sink(&mut self, said: SinkLine, text: &mut Octets) -> Result<(), Stop>
        requires { IsInRange (sink_line_step said) }
        ensures { (starts accounts : List Account) (version : ℕ) (steps : List Said) → Stands steps self.old → stage_of steps ≡ running version
            → Meets starts steps (sink_line_step said) self.new text.old text.new accounts accounts result }
    {
        match said {
            SinkLine::Announce { sink } => self.announce(sink, text),
            SinkLine::Serve { sink } => self.sinks.call(sink, SinkCall::Serve, text),
            SinkLine::Tell { sink } => self.sinks.call(sink, SinkCall::Tell, text),
            SinkLine::Drain { sink } => self.sinks.call(sink, SinkCall::Drain, text),
            SinkLine::Lose { sink } => self.sinks.call(sink, SinkCall::Lose, text),
        }
    }

    /// Runs a line that is no operation either, as `other_line` does.
    #[inline(never)]
    fn later_line(
        &mut self,
        line: &[u8],
        outlets: &mut Vec<Box<dyn Outlet>>,
        text: &mut Octets,
    ) -> Result<(), Stop>
        requires { length line.now < 2 ^ 64 }
        ensures meets { (starts : List Account) (version : ℕ) (lines : List TextLine)
            → LinesStand starts lines self.old (map account outlets.old.items) → stage_of (steps_of airs_of lines) ≡ running version
            → LineMeets starts lines (plain line.now) self.new text.old text.new (map account outlets.old.items)
            (map account outlets.new.items) result }
        ensures unassigned { (starts : List Account) (lines : List TextLine) (accounts : List Account)
            → LinesStand starts lines self.old accounts
            → UnassignedSame (steps_of airs_of lines) outlets.old.items outlets.new.items }
    {
        match read_train(self.alloc, &mut self.train, line) {
            Ok(Some(head)) => self.hear_train(head, text),
            Ok(None) => self.any_line(line, outlets, text),
            Err(Memory) => Err(Stop::Memory),
        }
    }

    /// Runs a line of any kind, as `line` does.
    #[inline(never)]
    fn any_line(
        &mut self,
        line: &[u8],
        outlets: &mut Vec<Box<dyn Outlet>>,
        text: &mut Octets,
    ) -> Result<(), Stop>
        requires { length line.now < 2 ^ 64 }
        ensures meets { (starts : List Account) (lines : List TextLine) → LinesStand starts lines self.old (map account outlets.old.items)
            → LineMeets starts lines (plain line.now) self.new text.old text.new (map account outlets.old.items)
            (map account outlets.new.items) result }
        ensures unassigned { (starts : List Account) (lines : List TextLine) (accounts : List Account)
            → LinesStand starts lines self.old accounts
            → UnassignedSame (steps_of airs_of lines) outlets.old.items outlets.new.items }
    {
        let version = self.stage.version().number();
        match read_line_over(self.alloc, &mut self.spare, version, line) {
            Ok(Some(step)) => self.step(step, outlets, text),
            Ok(None) => Ok(()),
            Err(LineFault::BadLine { word }) => Err(Stop::Refused(Refusal::BadLine { word })),
            Err(LineFault::Memory) => Err(Stop::Memory),
        }
    }

    /// Makes the step that a line says in each version, as `line` does for that line. The memory of the octets of an earlier unit
    /// comes into `spare`, for those of another step.
    pub fn say(
        &mut self,
        step: Step,
        spare: &mut Octets,
        outlets: &mut Vec<Box<dyn Outlet>>,
        text: &mut Octets,
    ) -> Result<(), Stop>
        requires { IsInRange step }
        ensures meets { (starts : List Account) (lines : List TextLine) (line : List ℕ)
            → LinesStand starts lines self.old (map account outlets.old.items) → ((version : ℕ) → LineIs version step line)
            → LineMeets starts lines (plain line) self.new text.old text.new (map account outlets.old.items)
            (map account outlets.new.items) result }
        ensures unassigned { (starts : List Account) (lines : List TextLine) (accounts : List Account)
            → LinesStand starts lines self.old accounts
            → UnassignedSame (steps_of airs_of lines) outlets.old.items outlets.new.items }
    {
        a_line_says_one_step();
        let said = self.step(step, outlets, text);
        self.lend_spare(spare);
        said
    }

    /// Gives the memory of the octets of an earlier unit away, where there are any.
    fn lend_spare(&mut self, spare: &mut Octets)
        ensures stage { self.new.stage ≡ self.old.stage }
        ensures sources { self.new.sources ≡ self.old.sources }
        ensures sinks { self.new.sinks ≡ self.old.sinks }
        ensures relays { self.new.relays ≡ self.old.relays }
    {
        if !self.spare.as_slice().is_empty() {
            mem::swap(&mut self.spare, spare);
        }
    }
}
