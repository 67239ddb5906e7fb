ghost use Rattle.std.specs.Prelude.{◌≡◌, ℕ, List, Some, map, true};
ghost use Rattle.bcast_io.specs.TextLines.{lines_of};
ghost use Rattle.scenario_history.specs.Airs.{MeetAirs};
ghost use Rattle.source_machine.specs.Airs.{Airs};
ghost use Rattle.replay_steps.specs.Unassigned.{UnassignedBy};
ghost use Rattle.explained_rows.specs.Rows.{lines_at};
ghost use Rattle.explain_command.specs.Told.{Told, told_world};

use crate::explainer::Explainer;
use bcast_io::{ByteSink, ByteSource};
use explained_rows::ExplainedRows;
use replay_lines::{Ending, run_heard};
use std::alloc::Global;
use unit_outlets::Outlet;

/// Runs the scenario that the source gives, a step a line, and explains it: each line is written behind its number, then the rows of
/// the transcript that it brings, each behind two blanks, and then notes, each behind two blanks and `# `. Each `sink` line takes the
/// next box of the list. Lines that are too long are not written. What a line brings is written before the next line is read, and its
/// notes with the next line or at the end.
///
/// The rows with a number are the lines of the text that were read, in order and from 1, up to the one at which the run ended. The rows
/// of the transcript are those of `replay`, whatever the notes say: where the sink tells its octets, and those that it has are
/// whole rows, they are what `run_text` writes. `Done` and `Refused` come where they come of `run_text`. `ReadFault`, `WriteFault` and
/// `OutletFault` come only where the count of the source, of the sink or of a box rose. After `WriteFault` and `Memory` a prefix of
/// the transcript was written, or all of it.
pub fn explain<S: ByteSource, W: ByteSink + Drop>(
    alloc: Global,
    source: &mut S,
    sink: &mut ExplainedRows<W>,
    outlets: &mut Vec<Box<dyn Outlet>>,
) -> Ending
    ensures told { Told (told_world (S.left source.old) (S.faults source.old) W.contents W.faults sink.old (map account outlets.old.items))
        (told_world (S.left source.new) (S.faults source.new) W.contents W.faults sink.new (map account outlets.new.items))
        (lines_at sink.old.place (W.contents sink.old.inner)) (lines_at sink.new.place (W.contents sink.new.inner)) result }
    // A box that no accepted `sink` line takes stays the same.
    ensures unassigned { (text : List ℕ) (airs : Airs) → S.left source.old ≡ Some text → MeetAirs airs
        → UnassignedBy airs (map account outlets.old.items) (lines_of true text) outlets.old.items outlets.new.items }
{
    let mut explainer = Explainer::new(alloc);
    let ran = run_heard(alloc, source, sink, &mut explainer, outlets);
    explainer.close(ran, sink)
}
