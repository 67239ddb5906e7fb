//! What is kept of a scenario for its notes, and the notes of a line.
ghost use Rattle.std.specs.Prelude.{◌≡◌, ◌⊎◌, length, take, OnErr, OnOk};

use crate::rows::{is_joined, put_row_note};
use bcast_base::{Memory, Octets};
use note_parts::put_note;
use refusal_notes::{
    ABSENT, Source, order_of, put_fault, put_misfit, put_subevent, row_of, word_at,
};
use replay_steps::Machine;
use scenario_lines::read_line_in;
use scenario_text::Step;
use scenario_words::Word;
use std::alloc::Global;
use train_notes::{Ears, Train, digit_of, is_ignored, put_compared, put_slots, streams_at};
use transcript_text::Refusal;
use unit_notes::Units;

/// The notes of the lines of a scenario, line by line. It keeps no step of a line that was run: of each source how far it has come and its
/// schedule, of each sink what it can take, and of each stream at a sink what became of its units and PDUs.
#[derive(Drop)]
pub struct Notes {
    alloc: Global,
    is_begun: bool,
    is_second: bool,
    /// Whether source 1 is chosen.
    is_other: bool,
    first: Source,
    second: Source,
    ears: Ears,
    units: Units,
    /// The step of the line that is run now.
    step: Option<Step>,
}

impl Notes {
    /// Before the first line. It takes no memory.
    pub fn new(alloc: Global) -> Notes {
        Notes {
            alloc,
            is_begun: false,
            is_second: false,
            is_other: false,
            first: ABSENT,
            second: ABSENT,
            ears: Ears::new(alloc),
            units: Units::new(alloc),
            step: None,
        }
    }

    /// Notes a line that will be run on this machine. The lines before it were told in their order.
    pub fn begin(&mut self, line: &[u8], machine: &Machine) -> Result<(), Memory> {
        let step = match read_line_in(self.alloc, version_of(self.is_second), line) {
            Ok(step) => step,
            Err(_) => None,
        };
        let source = self.source();
        if let Some(step) = &step {
            self.units.begin(machine, source, step)?;
        }
        self.step = step;
        Ok(())
    }

    /// Puts the notes of the line that began last and was run: `text` has the rows of the transcript that it brought, `machine` is what it
    /// left, and `refused` why it was refused. What stands in the rows stays, and after Memory no note is put.
    #[tactic(auto, using(crate::proofs::Stays::prefix_stays))]
    pub fn put(
        &mut self,
        rows: &mut Octets,
        line: &[u8],
        machine: &Machine,
        text: &[u8],
        refused: Option<Refusal>,
    ) -> Result<(), Memory>
        ensures ok { OnOk result (take (length rows.old) rows.new ≡ rows.old) }
        ensures err { OnErr result (rows.new ≡ rows.old) }
    {
        let mut notes = Octets::new(self.alloc);
        self.put_notes(&mut notes, line, machine, text, refused)?;
        rows.append(notes.as_slice())
    }

    /// The same notes alone. After Memory a prefix of them may stand there.
    fn put_notes(
        &mut self,
        rows: &mut Octets,
        line: &[u8],
        machine: &Machine,
        text: &[u8],
        refused: Option<Refusal>,
    ) -> Result<(), Memory> {
        let step = self.step.take();
        match refused {
            Some(reason) => self.put_refusal(rows, line, step, reason),
            None => {
                self.put_rows(rows, line, machine, text)?;
                self.put_units(rows, &step, text)?;
                self.made(machine, step, text)
            }
        }
    }

    /// The number of the chosen source.
    fn source(&self) -> u8 {
        if self.is_other { 1 } else { 0 }
    }

    /// Puts the notes of units, and counts at the end of a sink and of the scenario.
    fn put_units(
        &mut self,
        rows: &mut Octets,
        step: &Option<Step>,
        text: &[u8],
    ) -> Result<(), Memory> {
        match step {
            Some(Step::Event) | Some(Step::Stop) | Some(Step::Terminate { .. }) => {
                self.units.put_units(rows, text)
            }
            Some(Step::End) => {
                self.units.put_units(rows, text)?;
                self.units.put_all_counts(rows)
            }
            Some(Step::Drop { sink }) => self.units.put_counts(rows, *sink),
            _ => Ok(()),
        }
    }

    /// The chosen source.
    fn chosen(&self) -> &Source {
        if self.is_other {
            &self.second
        } else {
            &self.first
        }
    }

    /// Puts why a line is refused.
    fn put_refusal(
        &self,
        rows: &mut Octets,
        line: &[u8],
        step: Option<Step>,
        reason: Refusal,
    ) -> Result<(), Memory> {
        match (reason, step) {
            (Refusal::BadLine { word }, _) => put_misfit(rows, self.alloc, line, word),
            (Refusal::BadGroup { fault }, _) => {
                let group = self.units.numbers(self.source());
                put_fault(rows, fault, group, self.chosen().has_cipher)
            }
            (Refusal::Order, Some(step)) => {
                let order = order_of(
                    &step,
                    self.is_begun,
                    self.chosen(),
                    &self.first,
                    &self.second,
                );
                put_note(rows, &[Word::Text(order.as_bytes())])
            }
            (Refusal::NoSuchSubevent, Some(step)) => {
                put_subevent(rows, &step, self.units.numbers(self.source()))
            }
            (_, _) => put_note(rows, &[Word::Text(row_of(reason).as_bytes())]),
        }
    }

    /// Puts the notes of the rows that a line brought.
    fn put_rows(
        &mut self,
        rows: &mut Octets,
        line: &[u8],
        machine: &Machine,
        text: &[u8],
    ) -> Result<(), Memory> {
        let mut start = 0;
        let mut train = line;
        for end in 0..text.len() {
            if text[end] == b'\n' {
                let row = &text[start..end];
                if row.starts_with(b"train ") {
                    train = row;
                }
                self.ears.served(machine, row)?;
                put_row_note(rows, row)?;
                self.put_answer(rows, row, machine, train)?;
                start = end + 1;
            }
        }
        Ok(())
    }

    /// Puts what was compared, where the row is the answer of a sink to this train: a `train` line or a row of that form.
    fn put_answer(
        &mut self,
        rows: &mut Octets,
        row: &[u8],
        machine: &Machine,
        train: &[u8],
    ) -> Result<(), Memory> {
        let (Some(sink), Some(answer)) = (word_at(row, 1), word_at(row, 2)) else {
            return Ok(());
        };
        if !row.starts_with(b"sink ") {
            return Ok(());
        }
        let Some(train) = Train::read(self.alloc, train, self.chosen()) else {
            return Ok(());
        };
        let sink = digit_of(sink);
        let taken = streams_at(row, 3);
        put_compared(
            rows,
            answer,
            &train,
            &self.ears,
            sink,
            taken,
            self.is_second,
        )?;
        if answer == b"NotWanted".as_slice() {
            put_slots(rows, self.alloc, machine, sink, train.identity)?;
            self.ears.put_waiting(rows, sink)?;
        }
        if !is_ignored(answer) {
            self.ears.follow(sink, Some(train.identity));
        }
        Ok(())
    }

    /// Notes a step that was made.
    fn made(&mut self, machine: &Machine, step: Option<Step>, text: &[u8]) -> Result<(), Memory> {
        let Some(step) = step else {
            return Ok(());
        };
        match &step {
            Step::Scenario { version } => {
                self.is_begun = true;
                self.is_second = *version == 2;
            }
            Step::Source { source } => self.is_other = *source == 1,
            _ => {
                if self.is_other {
                    self.second.made(&step);
                } else {
                    self.first.made(&step);
                }
                let source = self.source();
                self.units.made(machine, source, &step, is_joined(text))?;
            }
        }
        self.ears.made(step)
    }
}

/// The number of a version.
fn version_of(is_second: bool) -> u8
    ensures { (result ≡ 1) ⊎ (result ≡ 2) }
{
    if is_second { 2 } else { 1 }
}
