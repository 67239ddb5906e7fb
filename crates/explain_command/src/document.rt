//! A document in TOML, explained by the lines that it stands for.
ghost use Rattle.std.specs.Prelude.{◌≡◌, ◌≢◌, ℕ, List, Ok, Some, map};
ghost use Rattle.std.specs.Io.KnownBytes.{Keeps};
ghost use Rattle.bcast_base.specs.Counts.{Rose};
ghost use Rattle.scenario_history.specs.Airs.{MeetAirs};
ghost use Rattle.source_machine.specs.Airs.{Airs};
ghost use Rattle.replay_steps.specs.Unassigned.{UnassignedBy};
ghost use Rattle.replay_lines.specs.Standing.{lines_over, standing_of};
ghost use Rattle.replay_lines.specs.State.Runs.{Refuses};
ghost use Rattle.replay_lines.specs.declared.ending.Ending.TheVariants as endings;
ghost use Rattle.explained_rows.specs.Rows.{lines_at, told_at};
ghost use Rattle.explain_command.specs.Told.{EndsSo, told_world};
ghost use Rattle.explain_command.specs.ToldDocument.{RefusalTold, ToldDocument, stopped_for};

use crate::explain::explain;
use bcast_base::{Memory, Octets};
use bcast_io::{ByteSink, ByteSource, Document, FaithfulSource, SinkFault, Unread, read_document};
use document_notes::{put_no_form, put_no_toml};
use explained_rows::ExplainedRows;
use replay_lines::{Cause, Ending, want_of_memory_before_a_document};
use scenario_toml::{TomlFault, lines_of};
use std::alloc::Global;
use transcript_text::put_refusal;
use unit_outlets::Outlet;

/// The most octets that one read of the text of a document's lines gives.
const PIECE: usize = 65_536;

/// Reads a document in TOML whole, runs the lines that it stands for and explains them as `explain` does: each with its number among
/// them, from 1. `Ok` tells how the run of the lines ended.
///
/// `Err` has the cause for which the document is refused: then the line of the refusal, of number 0, was written and notes behind it,
/// and no line was run. The rows of the transcript are those of `replay --toml`. `TooLong` comes once octet 1,048,577 was read, and no
/// read follows. `ReadFault`, `WriteFault` and `OutletFault` come only where the count of the source, of the sink or of a box rose. After
/// `WriteFault` and `Memory` a prefix of the transcript was written, or all of it.
pub fn explain_toml<S: ByteSource, W: ByteSink + Drop>(
    alloc: Global,
    source: &mut S,
    sink: &mut ExplainedRows<W>,
    outlets: &mut Vec<Box<dyn Outlet>>,
) -> Result<Ending, Cause>
    ensures told { ToldDocument (told_world (S.left source.old) (S.faults source.old) W.contents W.faults sink.old (map account outlets.old.items))
        (told_world (S.left source.new) (S.faults source.new) W.contents W.faults sink.new (map account outlets.new.items))
        (lines_at sink.old.place (W.contents sink.old.inner)) (lines_at sink.new.place (W.contents sink.new.inner)) result }
    // A box that no accepted `sink` line of the document takes stays the same.
    ensures unassigned { (document : List ℕ) (airs : Airs) → S.left source.old ≡ Some document → MeetAirs airs
        → UnassignedBy airs (map account outlets.old.items) (lines_over (standing_of document)) outlets.old.items outlets.new.items }
{
    want_of_memory_before_a_document();
    match read_document(alloc, source) {
        Ok(Document::Whole(document)) => match lines_of(alloc, document.as_slice()) {
            Ok(text) => {
                let mut lines = FaithfulSource::new(text, PIECE);
                Ok(explain(alloc, &mut lines, sink, outlets))
            }
            Err(TomlFault::BadToml) => refuse(alloc, Cause::BadToml, document.as_slice(), sink),
            Err(TomlFault::BadDocument) => {
                refuse(alloc, Cause::BadDocument, document.as_slice(), sink)
            }
            Err(TomlFault::Memory) => Ok(Ending::Memory),
        },
        Ok(Document::TooLong) => refuse(alloc, Cause::TooLong, b"", sink),
        Err(Unread::Failed) => Ok(Ending::ReadFault),
        Err(Unread::Memory) => Ok(Ending::Memory),
    }
}

/// Writes the line of the refusal of a document, and its notes.
fn refuse<W: ByteSink + Drop>(
    alloc: Global,
    cause: Cause,
    document: &[u8],
    sink: &mut ExplainedRows<W>,
) -> Result<Ending, Cause>
    ensures { RefusalTold cause (told_at sink.old.place (W.contents sink.old.inner)) (told_at sink.new.place (W.contents sink.new.inner))
        (W.faults sink.old.inner) (W.faults sink.new.inner)
        (lines_at sink.old.place (W.contents sink.old.inner)) (lines_at sink.new.place (W.contents sink.new.inner)) result }
{
    let ran = write_refusal(alloc, cause, sink);
    tell_refusal(alloc, ran, document, sink)
}

/// Writes the line of the refusal of a document.
#[tactic(auto, using(explained_rows::proofs::Citable::prefix_none, explained_rows::proofs::Citable::keeps_itself))]
fn write_refusal<W: ByteSink + Drop>(
    alloc: Global,
    cause: Cause,
    sink: &mut ExplainedRows<W>,
) -> Result<Ending, Cause>
    ensures puts { Refuses cause (told_at sink.old.place (W.contents sink.old.inner)) (told_at sink.new.place (W.contents sink.new.inner)) result }
    ensures write_fault { result ≡ Ok endings.WriteFault → Rose (W.faults sink.old.inner) (W.faults sink.new.inner) }
    ensures no_write_fault { result ≢ Ok endings.WriteFault → W.faults sink.new.inner ≡ W.faults sink.old.inner }
    ensures lines { Keeps (lines_at sink.old.place (W.contents sink.old.inner)) (lines_at sink.new.place (W.contents sink.new.inner)) }
{
    let mut text = Octets::new(alloc);
    match put_refusal(&mut text, 0, cause.reason()) {
        Err(Memory) => Ok(Ending::Memory),
        Ok(()) => match sink.write_all(text.as_slice()) {
            Ok(()) => Err(cause),
            Err(SinkFault::Failed) => Ok(Ending::WriteFault),
            Err(SinkFault::Memory) => Ok(Ending::Memory),
        },
    }
}

/// Tells the notes of the refusal of a document, where its line was written.
#[tactic(auto, using(explained_rows::proofs::Citable::keeps_itself))]
fn tell_refusal<W: ByteSink + Drop>(
    alloc: Global,
    ran: Result<Ending, Cause>,
    document: &[u8],
    sink: &mut ExplainedRows<W>,
) -> Result<Ending, Cause>
    ensures kept { Keeps (told_at sink.old.place (W.contents sink.old.inner)) (told_at sink.new.place (W.contents sink.new.inner)) }
    ensures lines { Keeps (lines_at sink.old.place (W.contents sink.old.inner)) (lines_at sink.new.place (W.contents sink.new.inner)) }
    ensures ends { EndsSo stopped_for ran result (W.faults sink.old.inner) (W.faults sink.new.inner) }
{
    let Err(cause) = ran else {
        return ran;
    };
    let mut notes = Octets::new(alloc);
    match put_notes(&mut notes, alloc, cause, document) {
        Err(Memory) => Ok(Ending::Memory),
        Ok(()) => match sink.tell(notes.as_slice()) {
            Ok(()) => ran,
            Err(SinkFault::Failed) => Ok(Ending::WriteFault),
            Err(SinkFault::Memory) => Ok(Ending::Memory),
        },
    }
}

/// Puts why a document is refused.
fn put_notes(
    rows: &mut Octets,
    alloc: Global,
    cause: Cause,
    document: &[u8],
) -> Result<(), Memory> {
    match cause {
        Cause::TooLong => rows.append(b"  # the document has more than 1048576 octets\n"),
        Cause::BadToml => put_no_toml(rows, alloc, document),
        Cause::BadDocument => put_no_form(rows, alloc, document),
    }
}
