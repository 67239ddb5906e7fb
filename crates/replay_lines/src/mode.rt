//! The mode: a document is read whole, and the lines that it stands for are run.
ghost use Rattle.std.specs.Prelude.{◌≡◌, ◌≢◌, ◌<◌, ◌^◌, ℕ, List, Ok, Some, map, vec_len};
ghost use Rattle.bcast_base.specs.Counts.{Rose};
ghost use Rattle.replay_steps.specs.Unassigned.{UnassignedBy};
ghost use Rattle.replay_lines.specs.World.{World, world_of};
ghost use Rattle.replay_lines.specs.declared.ending.Ending.TheVariants as endings;
ghost use Rattle.scenario_history.specs.Airs.{MeetAirs};
ghost use Rattle.source_machine.specs.Airs.{Airs};
ghost use Rattle.scenario_toml.specs.Document.{meaning_of};
ghost use Rattle.replay_lines.specs.FromToml.{FromToml};
ghost use Rattle.replay_lines.specs.Standing.{lines_over, standing_by, standing_of};
ghost use Rattle.replay_lines.specs.State.Runs.{DocumentRuns, Refuses};

use crate::cause::Cause;
use crate::{Ending, run_text, want_of_memory_at_once};
use bcast_base::{Memory, Octets};
use bcast_io::{
    ByteSink, ByteSource, Document, FaithfulSource, SinkFault, Unread, read_document, write_whole,
};
use scenario_toml::{TomlFault, lines_of};
use std::alloc::Global;
use transcript_text::put_refusal;
use unit_outlets::Outlet;

/// The most octets that one read of the text of a document's lines gives.
const PIECE: usize = 65_536;

/// Reads a document in TOML whole, runs the lines that it stands for and writes their transcript to the sink. Each `sink` line
/// takes the next box of the list. `Ok` tells how the run of the lines ended.
///
/// `Err` has the cause for which the document is refused: then the line of the refusal, of number 0, was written, and no line
/// was run. `TooLong` comes once octet 1,048,577 was read, and no read follows. `ReadFault`, `WriteFault` and `OutletFault` come
/// only where the count of the source, of the sink or of a box rose. After `ReadFault` nothing was written, and no box was called.
/// After `Memory` a prefix of what is due was written. The condition is one that every list of boxes meets.
pub fn run_toml<S: ByteSource, K: ByteSink>(
    alloc: Global,
    source: &mut S,
    sink: &mut K,
    outlets: &mut Vec<Box<dyn Outlet>>,
) -> Result<Ending, Cause>
    requires { vec_len outlets.old < 2 ^ 64 }
    ensures promised { let old = world_of S.left S.faults K.contents K.faults source.old sink.old (map account outlets.old.items) in
        let new = world_of S.left S.faults K.contents K.faults source.new sink.new (map account outlets.new.items) in
        FromToml old new result }
    ensures unassigned { (document : List ℕ) (airs : Airs) → S.left source.old ≡ Some document → MeetAirs airs
        → UnassignedBy airs (map account outlets.old.items) (lines_over (standing_of document)) outlets.old.items outlets.new.items }
    ensures uncalled { result ≡ Ok endings.ReadFault → outlets.new ≡ outlets.old }
{
    want_of_memory_at_once();
    match read_document(alloc, source) {
        Ok(Document::Whole(document)) => run_document(alloc, &document, sink, outlets),
        Ok(Document::TooLong) => refuse(alloc, Cause::TooLong, sink),
        Err(Unread::Failed) => Ok(Ending::ReadFault),
        Err(Unread::Memory) => Ok(Ending::Memory),
    }
}

/// Memory may run out before anything of a document is read: then nothing was written, no box was called, and all that is
/// promised of its run holds.
pub fn want_of_memory_before_a_document()
    ensures { (old : World) → FromToml old old (Ok endings.Memory) }
{
    want_of_memory_at_once();
}

/// Runs the lines that a document stands for.
fn run_document<K: ByteSink>(
    alloc: Global,
    document: &Octets,
    sink: &mut K,
    outlets: &mut Vec<Box<dyn Outlet>>,
) -> Result<Ending, Cause>
    ensures runs { DocumentRuns (standing_by (meaning_of document.now)) (map account outlets.old.items) (map account outlets.new.items)
        (K.contents sink.old) (K.contents sink.new) (K.faults sink.old) (K.faults sink.new) result }
    ensures unassigned { (airs : Airs) → MeetAirs airs → UnassignedBy airs (map account outlets.old.items)
        (lines_over (standing_by (meaning_of document.now))) outlets.old.items outlets.new.items }
{
    want_of_memory_at_once();
    match lines_of(alloc, document.as_slice()) {
        Ok(text) => {
            let mut source = FaithfulSource::new(text, PIECE);
            Ok(run_text(alloc, &mut source, sink, outlets))
        }
        Err(TomlFault::BadToml) => refuse(alloc, Cause::BadToml, sink),
        Err(TomlFault::BadDocument) => refuse(alloc, Cause::BadDocument, sink),
        Err(TomlFault::Memory) => Ok(Ending::Memory),
    }
}

/// Writes the line of the refusal of a document.
#[tactic(auto, using(crate::proofs::Unread::nothing_put))]
fn refuse<K: ByteSink>(alloc: Global, cause: Cause, sink: &mut K) -> Result<Ending, Cause>
    ensures refuses { Refuses cause (K.contents sink.old) (K.contents sink.new) result }
    ensures write_fault { result ≡ Ok endings.WriteFault → Rose (K.faults sink.old) (K.faults sink.new) }
    ensures no_write_fault { result ≢ Ok endings.WriteFault → K.faults sink.new ≡ K.faults sink.old }
{
    let mut text = Octets::new(alloc);
    match put_refusal(&mut text, 0, cause.reason()) {
        Err(Memory) => Ok(Ending::Memory),
        Ok(()) => match write_whole(sink, text.as_slice()) {
            Ok(()) => Err(cause),
            Err(SinkFault::Failed) => Ok(Ending::WriteFault),
            Err(SinkFault::Memory) => Ok(Ending::Memory),
        },
    }
}
