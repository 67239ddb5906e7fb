//! The run of the generated lines, one after the other.
ghost use Rattle.std.specs.Prelude.{◌≡◌, ◌≤◌, ◌<◌, ◌+◌, ◌^◌, ℕ, List, length, map};
ghost use Rattle.bcast_io.specs.TextLines.{TextLine, plain};
ghost use Rattle.unit_outlets.specs.Account.{Account};
ghost use Rattle.transcript_text.specs.Summary.{none_counted};
ghost use Rattle.replay_generated.specs.Generated.{lines_made};
ghost use Rattle.scenario_history.specs.Lines.{steps_of};
ghost use Rattle.source_machine.specs.Airs.{airs_of};
ghost use Rattle.replay_steps.specs.Unassigned.{UnassignedSame};
ghost use Rattle.replay_generated.specs.State.Between.{Counted, Ran, Refuses, RunTo, LineRuns};
ghost use Rattle.replay_generated.specs.State.Comings.{IsComing, IsInRange};
ghost use Rattle.replay_steps.specs.Unassigned.{UnassignedRun};

use crate::coming::{Coming, next_of, run_coming};
use bcast_base::{Memory, Octets};
use replay_steps::Machine;
use scenario_lines::Lines;
use std::alloc::Global;
use transcript_text::{Counts, Refusal, Stop, put_refusal};
use unit_outlets::Outlet;

/// How the run of the lines ended.
#[derive(Clone, Copy)]
pub(crate) enum Ending {
    /// No line was refused.
    Through,
    /// This line, from 1, was refused.
    Refused { line: u64, reason: Refusal },
    /// The box of a sink failed.
    OutletFault,
    /// Memory ran out.
    Memory,
}

/// Runs the lines of a seed and a number of events to their end, or to the one that is the last, and counts what they print.
pub(crate) fn run_lines(
    alloc: Global,
    seed: u32,
    events: u32,
    counts: &mut Counts,
    outlets: &mut Vec<Box<dyn Outlet>>,
) -> Ending
    requires seed { seed ≤ 2147483647 }
    requires least { 1 ≤ events }
    requires most { events ≤ 100000 }
    requires none { counts.old ≡ none_counted }
    ensures ran { Ran (map account outlets.old.items) (map account outlets.new.items) (lines_made seed events) counts.new result }
    ensures unassigned { UnassignedRun (map account outlets.old.items) (lines_made seed events) outlets.old.items outlets.new.items }
{
    let Ok(mut machine) = Machine::new(alloc) else {
        return Ending::Memory;
    };
    let mut lines = Lines::new(seed, events);
    let mut line = Octets::new(alloc);
    let mut spare = Octets::new(alloc);
    let mut text = Octets::new(alloc);
    let mut number: u64 = 0;
    'lines: loop {
        let coming = match next_of(alloc, &mut lines, &mut line, &mut spare) {
            Err(Memory) => return Ending::Memory,
            Ok(None) => return Ending::Through,
            Ok(Some(coming)) => coming,
        };
        number += 1;
        match run_line(
            number,
            coming,
            line.as_slice(),
            &mut spare,
            &mut machine,
            &mut text,
            counts,
            outlets,
        ) {
            None => continue 'lines,
            Some(ending) => return ending,
        }
    }
}

/// Runs the line of this number, which comes so, and counts what it prints: how the run ends, where it is the last.
fn run_line(
    number: u64,
    coming: Coming,
    line: &[u8],
    spare: &mut Octets,
    machine: &mut Machine,
    text: &mut Octets,
    counts: &mut Counts,
    outlets: &mut Vec<Box<dyn Outlet>>,
) -> Option<Ending>
    requires fits { length line.now < 2 ^ 64 }
    requires in_range { IsInRange coming }
    ensures runs { (starts : List Account) (lines : List TextLine) (made : List ℕ) → number ≡ length lines + 1
        → IsComing coming line.now made → RunTo starts lines counts.old machine.old (map account outlets.old.items)
        → LineRuns starts lines (plain made) counts.new machine.new (map account outlets.old.items)
        (map account outlets.new.items) result }
    ensures unassigned { (starts : List Account) (lines : List TextLine)
        → RunTo starts lines counts.old machine.old (map account outlets.old.items)
        → UnassignedSame (steps_of airs_of lines) outlets.old.items outlets.new.items }
{
    text.clear();
    match run_coming(machine, coming, line, spare, outlets, text) {
        Ok(()) => count(text, counts),
        Err(Stop::Refused(reason)) => Some(refuse(number, reason, text, counts)),
        Err(Stop::OutletFault) => Some(Ending::OutletFault),
        Err(Stop::Memory) => Some(Ending::Memory),
    }
}

/// Counts what was printed.
fn count(text: &Octets, counts: &mut Counts) -> Option<Ending>
    ensures { Counted text.now counts.old counts.new result }
{
    match counts.add(text.as_slice()) {
        Ok(()) => None,
        Err(Memory) => Some(Ending::Memory),
    }
}

/// Counts the line of a refusal, which is the last of a transcript.
fn refuse(number: u64, reason: Refusal, text: &mut Octets, counts: &mut Counts) -> Ending
    ensures { Refuses number reason counts.old counts.new result }
{
    text.clear();
    match put_refusal(text, number, reason) {
        Err(Memory) => Ending::Memory,
        Ok(()) => match count(text, counts) {
            Some(ending) => ending,
            None => Ending::Refused {
                line: number,
                reason,
            },
        },
    }
}
