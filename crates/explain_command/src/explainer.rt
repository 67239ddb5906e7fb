//! What goes along with a run and explains it.
ghost use Rattle.std.specs.Prelude.{◌≡◌, ◌++◌, OnOk};
ghost use Rattle.std.specs.Io.KnownBytes.{Keeps};
ghost use Rattle.explained_rows.specs.Rows.{line_row, lines_at, told_at};
ghost use Rattle.explain_command.specs.Told.{EndsSo};

use bcast_base::{Memory, Octets};
use bcast_io::{ByteSink, SinkFault};
use explained_rows::ExplainedRows;
use itoa::Buffer;
use replay_lines::{Ending, Listener};
use replay_steps::Machine;
use scenario_words::{Word, put_words};
use std::alloc::Global;
use transcript_notes::Notes;
use transcript_text::Refusal;

/// The rows that are to be told, and what the notes of later lines ask for.
#[derive(Drop)]
pub(crate) struct Explainer {
    /// The notes of the line that was run last, and the next line.
    rows: Octets,
    notes: Notes,
    /// Whether there was no memory for a note.
    lacks_memory: bool,
}

impl Explainer {
    /// Nothing to tell yet.
    pub(crate) fn new(alloc: Global) -> Explainer {
        Explainer {
            rows: Octets::new(alloc),
            notes: Notes::new(alloc),
            lacks_memory: false,
        }
    }

    /// Puts the row that tells a line: its number and, behind a blank, its octets.
    fn put_line(&mut self, number: u64, line: &[u8]) -> Result<(), Memory>
        ensures { OnOk result (self.new.rows ≡ self.old.rows ++ line_row number line.now) }
    {
        if self.lacks_memory {
            return Err(Memory);
        }
        let mut digits = Buffer::new();
        let number = digits.format(number).as_bytes();
        put_words(&mut self.rows, number, &[Word::Text(line)])?;
        self.rows.push(b'\n')
    }

    /// Tells the notes that are left behind the last line of a run that ended so, unless the sink failed before.
    pub(crate) fn close<W: ByteSink + Drop>(
        &self,
        ran: Ending,
        sink: &mut ExplainedRows<W>,
    ) -> Ending
        ensures kept { Keeps (told_at sink.old.place (W.contents sink.old.inner)) (told_at sink.new.place (W.contents sink.new.inner)) }
        ensures lines { Keeps (lines_at sink.old.place (W.contents sink.old.inner)) (lines_at sink.new.place (W.contents sink.new.inner)) }
        ensures ends { EndsSo (λ fault. fault) ran result (W.faults sink.old.inner) (W.faults sink.new.inner) }
    {
        if self.lacks_memory {
            return Ending::Memory;
        }
        match sink.tell(self.rows.as_slice()) {
            Ok(()) => ran,
            Err(SinkFault::Failed) => Ending::WriteFault,
            Err(SinkFault::Memory) => Ending::Memory,
        }
    }
}

impl<W: ByteSink + Drop> Listener<ExplainedRows<W>> for Explainer {
    ghost use Rattle.std.specs.Prelude.{true, None};
    ghost use Rattle.explained_rows.specs.Rows.{line_row, lines_at};

    ghost may_fail = { true };

    ghost told = { λ _. None };

    ghost row_of = { line_row };

    ghost rows = { λ rows. lines_at rows.place (W.contents rows.inner) };

    fn begin_line(
        &mut self,
        number: u64,
        line: &[u8],
        machine: &Machine,
        sink: &mut ExplainedRows<W>,
    ) -> Result<(), SinkFault> {
        let notes = self.rows.as_slice().len();
        if self.notes.begin(line, machine).is_err() || self.put_line(number, line).is_err() {
            self.rows.truncate(notes);
            return Err(SinkFault::Memory);
        }
        let told = sink.tell_line(self.rows.as_slice(), notes);
        self.rows.clear();
        told
    }

    fn write(&self, octets: &[u8], sink: &mut ExplainedRows<W>) -> Result<(), SinkFault> {
        sink.write_all(octets)
    }

    fn end_line(&mut self, line: &[u8], machine: &Machine, text: &Octets, ended: Option<Ending>) {
        if self
            .notes
            .put(
                &mut self.rows,
                line,
                machine,
                text.as_slice(),
                refusal_of(ended),
            )
            .is_err()
        {
            self.lacks_memory = true;
        }
    }
}

/// Why the line was refused that the run ended with.
fn refusal_of(ended: Option<Ending>) -> Option<Refusal> {
    match ended {
        Some(Ending::Refused { reason, .. }) => Some(reason),
        _ => None,
    }
}
