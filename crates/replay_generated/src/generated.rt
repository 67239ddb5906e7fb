//! A generated run, from its lines to its summary.
ghost use Rattle.std.specs.Prelude.{◌≤◌, map};
ghost use Rattle.transcript_text.specs.Summary.{summary_of};
ghost use Rattle.replay_generated.specs.Generated.{GeneratedRun, lines_made};
ghost use Rattle.replay_generated.specs.State.Between.{Ends, Puts};
ghost use Rattle.replay_steps.specs.Unassigned.{UnassignedBy, UnassignedRun};
ghost use Rattle.scenario_history.specs.Airs.{MeetAirs};
ghost use Rattle.source_machine.specs.Airs.{Airs};

use crate::outcome::Outcome;
use crate::running::{Ending, run_lines};
use bcast_io::{ByteSink, SinkFault, write_whole};
use scenario_laws::{one_transcript, some_airs_meet};
use scenario_text::a_line_says_one_step;
use std::alloc::Global;
use transcript_text::Counts;
use unit_outlets::Outlet;

/// Runs the scenario of a seed, at most 2,147,483,647, and of 1 to 100,000 events, a line at a time, and writes the
/// summary of its transcript to the sink. Each `sink` line takes the next box of the list.
///
/// `Done` comes where no line is refused. `Refused` has the line, from 1, and the reason. After both the summary was
/// written. After `OutletFault`, which comes only where the count of a box rose, nothing was written. After `WriteFault`,
/// which comes only where the sink's count rose, and after `Memory` a prefix of the summary was written, and not all. The boxes
/// that no `sink` line takes stay the same.
#[inline(never)]
pub fn run_generated<K: ByteSink>(
    alloc: Global,
    seed: u32,
    events: u32,
    sink: &mut K,
    outlets: &mut Vec<Box<dyn Outlet>>,
) -> Outcome
    requires seed { seed ≤ 2147483647 }
    requires least { 1 ≤ events }
    requires most { events ≤ 100000 }
    ensures generated { GeneratedRun seed events result (map account outlets.old.items) (map account outlets.new.items)
        (K.contents sink.old) (K.contents sink.new)
        (K.faults sink.old) (K.faults sink.new) }
    ensures unassigned { (airs : Airs) → MeetAirs airs → UnassignedBy airs (map account outlets.old.items)
        (lines_made seed events) outlets.old.items outlets.new.items }
{
    a_line_says_one_step();
    some_airs_meet();
    one_transcript();
    run(alloc, seed, events, sink, outlets)
}

/// Runs the lines, and writes the summary.
fn run<K: ByteSink>(
    alloc: Global,
    seed: u32,
    events: u32,
    sink: &mut K,
    outlets: &mut Vec<Box<dyn Outlet>>,
) -> Outcome
    requires seed { seed ≤ 2147483647 }
    requires least { 1 ≤ events }
    requires most { events ≤ 100000 }
    ensures ends { Ends (map account outlets.old.items) (map account outlets.new.items) events (lines_made seed events)
        (K.contents sink.old) (K.contents sink.new)
        (K.faults sink.old) (K.faults sink.new) result }
    ensures unassigned { UnassignedRun (map account outlets.old.items) (lines_made seed events) outlets.old.items outlets.new.items }
{
    let mut counts = Counts::new(alloc);
    match run_lines(alloc, seed, events, &mut counts, outlets) {
        Ending::Through => put_summary(alloc, events, &counts, Outcome::Done, sink),
        Ending::Refused { line, reason } => {
            let refused = Outcome::Refused { line, reason };
            put_summary(alloc, events, &counts, refused, sink)
        }
        Ending::OutletFault => Outcome::OutletFault,
        Ending::Memory => Outcome::Memory,
    }
}

/// Writes the summary, after which a run ended so.
fn put_summary<K: ByteSink>(
    alloc: Global,
    events: u32,
    counts: &Counts,
    ended: Outcome,
    sink: &mut K,
) -> Outcome
    ensures { Puts (summary_of events counts.now) ended (K.contents sink.old) (K.contents sink.new) (K.faults sink.old)
        (K.faults sink.new) result }
{
    let Ok(summary) = counts.summary(alloc, events) else {
        return Outcome::Memory;
    };
    match write_whole(sink, summary.as_slice()) {
        Ok(()) => ended,
        Err(SinkFault::Failed) => Outcome::WriteFault,
        Err(SinkFault::Memory) => Outcome::Memory,
    }
}
