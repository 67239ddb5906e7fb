//! The call that the program makes: what its words ask for.
ghost use Rattle.std.specs.Prelude.{◌≡◌, ℕ, List, Some, map, string_bytes, true};
ghost use Rattle.bcast_io.specs.TextLines.{lines_of};
ghost use Rattle.scenario_history.specs.Airs.{MeetAirs};
ghost use Rattle.source_machine.specs.Airs.{Airs};
ghost use Rattle.replay_generated.specs.Generated.{lines_made};
ghost use Rattle.replay_steps.specs.Unassigned.{UnassignedBy};
ghost use Rattle.replay_lines.specs.World.{world_of};
ghost use Rattle.replay_lines.specs.Standing.{lines_over, standing_of};
ghost use Rattle.replay_words.specs.Words.{mode_of as mode_of_words};
ghost use Rattle.replay_words.specs.declared.mode.Mode.TheVariants as modes;
ghost use Rattle.replay_command.specs.ByWords.{PromisedFor};

use crate::status::Status;
use bcast_base::Memory;
use bcast_io::{ByteSink, ByteSource};
use replay_generated::run_generated;
use replay_lines::{run_text, run_toml, want_of_memory_at_once, want_of_memory_before_a_document};
use replay_migration::run_migration;
use replay_words::{Mode, Words, mode_of};
use std::alloc::Global;
use unit_outlets::Outlet;

/// Does what the words ask for. Without words it runs the scenario that the source gives, a step a line, and writes its
/// transcript to the sink. Each `sink` line takes the next box of the list. The lines of a step are written before the
/// next line is read. With `--migrate` it reads the text whole and writes it in version 2; then a text of more than
/// 67,108,864 octets alone is refused, and no box is called. With `--seed` and `--events` it runs the scenario of the
/// generator and writes the summary of its transcript, and reads nothing. With `--toml` it reads a document whole and runs the
/// lines that it stands for; a document of more than 1,048,576 octets, one that is no TOML and one that has not the form of a
/// scenario are refused with the line 0.
///
/// `Done` comes where the text was read to its end and no line is refused. `Refused` has the line, from 1, and the reason;
/// the line of the refusal was written, and nothing behind it was run. `Usage` comes for all other words. `ReadFault`, `WriteFault` and
/// `OutletFault` come only where the count of the source, of the sink or of a box rose. After `Memory` a prefix of the transcript was
/// written.
///
/// The record `Promised` has what holds of the scenario besides: of the units, their order and their times, of links, of version 2, of a
/// sink without all others, and of relays.
pub fn replay<S: ByteSource, K: ByteSink>(
    alloc: Global,
    words: &Words,
    source: &mut S,
    sink: &mut K,
    outlets: &mut Vec<Box<dyn Outlet>>,
) -> Status
    // What the call did to the source, to the sink and to the boxes, and which status comes.
    ensures promised { let old = world_of S.left S.faults K.contents K.faults source.old sink.old (map account outlets.old.items) in
        let new = world_of S.left S.faults K.contents K.faults source.new sink.new (map account outlets.new.items) in
        PromisedFor (map string_bytes words.now) old new result }

    // For Usage nothing is read or written, and no box is called.
    ensures unread { result ≡ Status.Usage → source.new ≡ source.old }
    ensures unwritten { result ≡ Status.Usage → sink.new ≡ sink.old }
    ensures uncalled { result ≡ Status.Usage → outlets.new ≡ outlets.old }

    // A box that no accepted `sink` line of the text that is run takes stays the same.
    ensures unassigned { (text : List ℕ) (airs : Airs) → mode_of_words (map string_bytes words.now) ≡ modes.Replay
        → S.left source.old ≡ Some text → MeetAirs airs
        → UnassignedBy airs (map account outlets.old.items) (lines_of true text) outlets.old.items outlets.new.items }
    ensures unassigned_generated { (seed events : ℕ) (airs : Airs) → mode_of_words (map string_bytes words.now) ≡ modes.Generate seed events
        → MeetAirs airs
        → UnassignedBy airs (map account outlets.old.items) (lines_made seed events) outlets.old.items outlets.new.items }
    ensures unassigned_document { (document : List ℕ) (airs : Airs) → mode_of_words (map string_bytes words.now) ≡ modes.Toml
        → S.left source.old ≡ Some document → MeetAirs airs
        → UnassignedBy airs (map account outlets.old.items) (lines_over (standing_of document)) outlets.old.items outlets.new.items }

    // In migration no box is called, nor where a document couldn't be read, and in generated mode the source isn't read.
    ensures boxes_kept { mode_of_words (map string_bytes words.now) ≡ modes.Migrate → outlets.new ≡ outlets.old }
    ensures uncalled_document { mode_of_words (map string_bytes words.now) ≡ modes.Toml → result ≡ Status.ReadFault
        → outlets.new ≡ outlets.old }
    ensures source_kept { (seed events : ℕ) → mode_of_words (map string_bytes words.now) ≡ modes.Generate seed events
        → source.new ≡ source.old }
{
    want_of_memory_at_once();
    want_of_memory_before_a_document();
    match mode_of(alloc, words) {
        Ok(Mode::Replay) => Status::from(run_text(alloc, source, sink, outlets)),
        Ok(Mode::Migrate) => Status::from(run_migration(alloc, source, sink)),
        Ok(Mode::Generate { seed, events }) => {
            Status::from(run_generated(alloc, seed, events, sink, outlets))
        }
        Ok(Mode::Toml) => Status::of_document(run_toml(alloc, source, sink, outlets)),
        Ok(Mode::Usage) => Status::Usage,
        Err(Memory) => Status::Memory,
    }
}
