//! A generated line as it comes: as its octets, or as the step that it says.
ghost use Rattle.std.specs.Prelude.{◌≡◌, ◌<◌, ◌^◌, ℕ, List, [], Ok, None, IfOk, IfSome, length, map};
ghost use Rattle.bcast_io.specs.TextLines.{TextLine, plain};
ghost use Rattle.unit_outlets.specs.Account.{Account};
ghost use Rattle.scenario_history.specs.Lines.{steps_of};
ghost use Rattle.source_machine.specs.Airs.{airs_of};
ghost use Rattle.replay_steps.specs.LineMeets.{LinesStand, LineMeets};
ghost use Rattle.replay_steps.specs.Unassigned.{UnassignedSame};
ghost use Rattle.replay_generated.specs.State.Comings.{Comes, IsComing, IsInRange};

use bcast_base::{Memory, Octets};
use replay_steps::Machine;
use scenario_lines::Lines;
use scenario_text::Step;
use std::alloc::Global;
use transcript_text::Stop;
use unit_outlets::Outlet;

/// A line of the generator.
#[derive(Drop)]
pub(crate) enum Coming {
    /// As octets, which stand in a buffer.
    Text,
    /// As the step that it says.
    Said(Step),
}

/// The next line: as its step where it has one at hand, whose octets come in the memory of `spare`, or else put in place of `line`. None
/// where no line is left.
pub(crate) fn next_of(
    alloc: Global,
    lines: &mut Lines,
    line: &mut Octets,
    spare: &mut Octets,
) -> Result<Option<Coming>, Memory>
    ensures comes { IfOk result (λ next. IfSome next (λ coming. Comes coming line.new lines.old lines.new)) }
    ensures in_range { IfOk result (λ next. IfSome next IsInRange) }
    ensures none { result ≡ Ok None → lines.old ≡ [] }
{
    match lines.next_step(alloc, spare) {
        Ok(Some(step)) => return Ok(Some(Coming::Said(step))),
        Ok(None) => {}
        Err(memory) => return Err(memory),
    }
    match lines.next_line(line) {
        Ok(true) => Ok(Some(Coming::Text)),
        Ok(false) => Ok(None),
        Err(memory) => Err(memory),
    }
}

/// Runs a line that comes so, and puts what it prints at the end of the text. The memory of an earlier unit comes into `spare`.
pub(crate) fn run_coming(
    machine: &mut Machine,
    coming: Coming,
    line: &[u8],
    spare: &mut Octets,
    outlets: &mut Vec<Box<dyn Outlet>>,
    text: &mut Octets,
) -> Result<(), Stop>
    requires fits { length line.now < 2 ^ 64 }
    requires in_range { IsInRange coming }
    ensures meets { (starts : List Account) (lines : List TextLine) (made : List ℕ) → IsComing coming line.now made
        → LinesStand starts lines machine.old (map account outlets.old.items)
        → LineMeets starts lines (plain made) machine.new text.old text.new (map account outlets.old.items)
        (map account outlets.new.items) result }
    ensures unassigned { (starts : List Account) (lines : List TextLine) (accounts : List Account)
        → LinesStand starts lines machine.old accounts
        → UnassignedSame (steps_of airs_of lines) outlets.old.items outlets.new.items }
{
    match coming {
        Coming::Text => machine.line(line, outlets, text),
        Coming::Said(step) => machine.say(step, spare, outlets, text),
    }
}
