ghost use Rattle.std.specs.Prelude.{◌≡◌, ◌≢◌, IfErr, OnErr, OnOk};
ghost use Rattle.std.specs.Io.KnownBytes.{Appends};
ghost use Rattle.bcast_base.specs.Counts.{Rose};
ghost use Rattle.bcast_io.specs.Causes.{SinkCause};
ghost use Rattle.bcast_io.specs.Writing.{AppendsShort};
ghost use Rattle.scenario_text.specs.Migrated.{migrated};
ghost use Rattle.replay_migration.specs.Ended.{Ended};
ghost use Rattle.replay_migration.specs.State.Puts.{PutsRefusal, PutsText};

use crate::piece::Unread;
use crate::text::{Text, read_text};
use bcast_base::{Memory, Octets};
use bcast_io::{ByteSink, ByteSource, SinkFault, write_whole};
use scenario_text::changed_digit;
use std::alloc::Global;
use transcript_text::{Refusal, put_refusal};

/// How a migration ended.
#[derive(Clone, Copy, Debug, PartialEq, Eq)]
pub enum Migration {
    /// The text was read to its end, and written in version 2.
    Done,
    /// The line of this number, from 1, holds octet 67,108,865 of the text, and the line of its refusal was written.
    TooLong { line: u64 },
    /// The source failed.
    ReadFault,
    /// The sink failed.
    WriteFault,
    /// Memory ran out.
    Memory,
}

/// Reads the text of the source whole, up to 67,108,864 octets, and writes it in version 2. The text of more octets is
/// refused: then the line of the refusal alone is written.
///
/// `ReadFault` and `WriteFault` come only where the count of the source or of the sink rose. After `ReadFault` nothing
/// was written, and after `WriteFault` and `Memory` a prefix of what is due.
pub fn run_migration<S: ByteSource, K: ByteSink>(
    alloc: Global,
    source: &mut S,
    sink: &mut K,
) -> Migration
    ensures ended { Ended result (S.left source.old) (S.left source.new) (K.contents sink.old) (K.contents sink.new) }
    ensures read_fault { result ≡ Migration.ReadFault → Rose (S.faults source.old) (S.faults source.new) }
    ensures no_read_fault { result ≢ Migration.ReadFault → S.faults source.new ≡ S.faults source.old }
    ensures write_fault { result ≡ Migration.WriteFault → Rose (K.faults sink.old) (K.faults sink.new) }
    ensures no_write_fault { result ≢ Migration.WriteFault → K.faults sink.new ≡ K.faults sink.old }
{
    match read_text(alloc, source) {
        Ok(Text::Whole(text)) => write_text(&text, sink),
        Ok(Text::TooLong { line }) => write_refusal(alloc, line, sink),
        Err(Unread::Failed) => Migration::ReadFault,
        Err(Unread::Memory) => Migration::Memory,
    }
}

/// Writes a whole text in version 2.
#[tactic(auto, using(crate::proofs::Endings::prefix_of_short))]
fn write_text<K: ByteSink>(text: &Octets, sink: &mut K) -> Migration
    ensures puts { PutsText text.now (K.contents sink.old) (K.contents sink.new) result }
    ensures write_fault { result ≡ Migration.WriteFault → Rose (K.faults sink.old) (K.faults sink.new) }
    ensures no_write_fault { result ≢ Migration.WriteFault → K.faults sink.new ≡ K.faults sink.old }
{
    match write_migrated(text.as_slice(), sink) {
        Ok(()) => Migration::Done,
        Err(SinkFault::Failed) => Migration::WriteFault,
        Err(SinkFault::Memory) => Migration::Memory,
    }
}

/// Writes what stands before the digit that is another one in version 2, this digit, and the rest.
fn write_migrated<K: ByteSink>(text: &[u8], sink: &mut K) -> Result<(), SinkFault>
    ensures ok { OnOk result (Appends (K.contents sink.old) (K.contents sink.new) (migrated text.now)) }
    ensures short { OnErr result (AppendsShort (K.contents sink.old) (K.contents sink.new) (migrated text.now)) }
    ensures none_failed { OnOk result (K.faults sink.new ≡ K.faults sink.old) }
    ensures cause { IfErr result (SinkCause (K.faults sink.old) (K.faults sink.new)) }
{
    let Some(at) = changed_digit(text) else {
        return write_whole(sink, text);
    };
    write_whole(sink, &text[..at])?;
    write_whole(sink, b"2")?;
    write_whole(sink, &text[at + 1..])
}

/// Writes the line that refuses a text that is too long.
#[tactic(auto, using(crate::proofs::Endings::nothing_put))]
fn write_refusal<K: ByteSink>(alloc: Global, line: u64, sink: &mut K) -> Migration
    ensures puts { PutsRefusal line (K.contents sink.old) (K.contents sink.new) result }
    ensures write_fault { result ≡ Migration.WriteFault → Rose (K.faults sink.old) (K.faults sink.new) }
    ensures no_write_fault { result ≢ Migration.WriteFault → K.faults sink.new ≡ K.faults sink.old }
{
    let mut text = Octets::new(alloc);
    match put_refusal(&mut text, line, Refusal::TextTooLong) {
        Err(Memory) => Migration::Memory,
        Ok(()) => match write_whole(sink, text.as_slice()) {
            Ok(()) => Migration::TooLong { line },
            Err(SinkFault::Failed) => Migration::WriteFault,
            Err(SinkFault::Memory) => Migration::Memory,
        },
    }
}
