//! The run of a text, and what holds of every scenario.
ghost use Rattle.std.specs.Prelude.{◌≡◌, ◌<◌, ◌^◌, ℕ, List, Some, map, true, vec_len};
ghost use Rattle.bcast_io.specs.TextLines.{lines_of};
ghost use Rattle.unit_outlets.specs.Account.{Account};
ghost use Rattle.scenario_history.specs.Airs.{MeetAirs};
ghost use Rattle.source_machine.specs.Airs.{Airs};
ghost use Rattle.replay_steps.specs.Unassigned.{UnassignedBy};
ghost use Rattle.replay_lines.specs.Heard.{Heard};
ghost use Rattle.replay_lines.specs.Listening.{Told};
ghost use Rattle.replay_lines.specs.Tellings.{listened};
ghost use Rattle.replay_lines.specs.Promised.{Promised};
ghost use Rattle.replay_lines.specs.State.Laws.{Laws};
ghost use Rattle.replay_lines.specs.World.{World, world_of};

use crate::ending::Ending;
use crate::lines::run_lines;
use crate::listener::{Listener, Silent};
use bcast_io::{ByteSink, ByteSource};
use scenario_laws::{
    agreement_law, all_hearing_law, in_time_law, isolation_law, links_law, migration_law,
    moment_law, one_transcript, order_law, relay_lines_law, relayed_units_law, some_airs_meet,
    units_law,
};
use std::alloc::Global;
use unit_outlets::Outlet;

/// Runs the scenario that the source gives, a step a line, and writes its transcript to the sink. Each `sink` line takes the next
/// box of the list. The lines of a step are written before the next line is read.
///
/// `Done` comes where the text was read to its end and no line is refused. `Refused` has the line, from 1, and the reason;
/// the line of the refusal was written, and nothing behind it was run. `ReadFault`, `WriteFault` and `OutletFault` come only
/// where the count of the source, of the sink or of a box rose. After `Memory` a prefix of the transcript was written. A box
/// that no accepted `sink` line takes stays the same. The condition is one that every list of boxes meets.
pub fn run_text<S: ByteSource, K: ByteSink>(
    alloc: Global,
    source: &mut S,
    sink: &mut K,
    outlets: &mut Vec<Box<dyn Outlet>>,
) -> Ending
    requires { vec_len outlets.old < 2 ^ 64 }
    ensures promised { let old = world_of S.left S.faults K.contents K.faults source.old sink.old (map account outlets.old.items) in
        let new = world_of S.left S.faults K.contents K.faults source.new sink.new (map account outlets.new.items) in
        Promised old new result }
    ensures unassigned { (text : List ℕ) (airs : Airs) → S.left source.old ≡ Some text → MeetAirs airs
        → UnassignedBy airs (map account outlets.old.items) (lines_of true text) outlets.old.items outlets.new.items }
{
    laws_hold();
    run_lines(alloc, source, sink, &mut Silent, outlets)
}

/// The same with a listener, which is told of each line of the text before it is run and after it. Lines that are too long are told
/// to nobody, as they aren't kept.
///
/// `WriteFault` comes also where the listener failed, and `Memory` where it wanted memory: then a prefix of the transcript was
/// written.
pub fn run_heard<S: ByteSource, K: ByteSink, L: Listener<K>>(
    alloc: Global,
    source: &mut S,
    sink: &mut K,
    listener: &mut L,
    outlets: &mut Vec<Box<dyn Outlet>>,
) -> Ending
    requires { vec_len outlets.old < 2 ^ 64 }
    ensures heard { let old = world_of S.left S.faults K.contents K.faults source.old sink.old (map account outlets.old.items) in
        let new = world_of S.left S.faults K.contents K.faults source.new sink.new (map account outlets.new.items) in
        Heard old new result }
    ensures told { Told L.row_of (S.left source.old) (S.left source.new) (listened L.told L.rows listener.old sink.old)
        (listened L.told L.rows listener.new sink.new) result }
    ensures unassigned { (text : List ℕ) (airs : Airs) → S.left source.old ≡ Some text → MeetAirs airs
        → UnassignedBy airs (map account outlets.old.items) (lines_of true text) outlets.old.items outlets.new.items }
{
    laws_hold();
    run_lines(alloc, source, sink, listener, outlets)
}

/// Memory may run out before anything is read: then nothing was written, no box was called, and all that is promised of a
/// run holds.
pub fn want_of_memory_at_once()
    ensures { (old : World) → Promised old old Ending.Memory }
{
    laws_hold();
}

/// What holds of every scenario, over any airs that meet the relation of their framing.
fn laws_hold()
    ensures { (boxes : List Account) → Laws boxes }
{
    some_airs_meet();
    one_transcript();
    units_law();
    order_law();
    moment_law();
    in_time_law();
    all_hearing_law();
    agreement_law();
    links_law();
    isolation_law();
    migration_law();
    relay_lines_law();
    relayed_units_law();
}
