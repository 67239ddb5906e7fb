//! The notes of units, and the counts.
use crate::early::put_short;
use crate::fate::{Fate, Foretold};
use crate::ledger::Stream;
use crate::marks::has;
use crate::schedule::Schedule;
use crate::unit_row::{UnitRow, unit_in};
use crate::units::Units;
use bcast_base::{Memory, Octets};
use note_parts::put_note;
use scenario_words::Word;

impl Units {
    /// Puts the notes of the units in the rows that a line brought, and of those that were never begun.
    pub fn put_units(&mut self, rows: &mut Octets, text: &[u8]) -> Result<(), Memory> {
        let mut start = 0;
        for end in 0..text.len() {
            if text[end] == b'\n' {
                if let Some(unit) = unit_in(&text[start..end]) {
                    self.put_unit(rows, unit)?;
                }
                start = end + 1;
            }
        }
        self.put_unbegun(rows)
    }

    /// Puts the note of a unit, and counts it.
    fn put_unit(&mut self, rows: &mut Octets, unit: UnitRow) -> Result<(), Memory> {
        let source: u8 = if has(self.are_second, u64::from(unit.sink)) {
            1
        } else {
            0
        };
        let stream = Stream {
            sink: unit.sink,
            source,
            bis: unit.bis,
        };
        let found = self.foretold_of(stream, unit.time);
        let is_empty = match found {
            Some(told) => told.fate == Fate::Empty,
            None => false,
        };
        let is_first = self.count(stream, unit.is_valid, is_empty)?;
        match found {
            Some(told) => put_told(rows, self.schedule(source), told, unit.is_valid, is_first),
            None => put_other(rows, unit, source),
        }
    }

    /// What was foretold of the unit of a stream with this time, which is begun.
    fn foretold_of(&self, stream: Stream, time: u64) -> Option<Foretold> {
        for told in &self.foretold {
            if told.stream == stream && told.time == time && told.fate != Fate::Unbegun {
                return Some(*told);
            }
        }
        None
    }

    /// Counts a unit, and answers whether it is the first slot without one.
    fn count(&mut self, stream: Stream, is_valid: bool, is_empty: bool) -> Result<bool, Memory> {
        let place = self.place_for(stream)?;
        let Some(ledger) = self.ledgers.get_mut(place) else {
            return Ok(false);
        };
        if is_valid {
            ledger.valid = ledger.valid.saturating_add(1);
        } else if is_empty {
            ledger.empty = ledger.empty.saturating_add(1);
            return Ok(ledger.empty == 1);
        } else {
            ledger.lost = ledger.lost.saturating_add(1);
        }
        Ok(false)
    }

    /// Puts the notes of the units that were never begun, and counts them.
    fn put_unbegun(&mut self, rows: &mut Octets) -> Result<(), Memory> {
        for place in 0..self.foretold.len() {
            let Some(told) = self.foretold.get(place) else {
                return Ok(());
            };
            let told = *told;
            if told.fate == Fate::Unbegun {
                told.put(rows, self.schedule(told.stream.source), true)?;
                self.count_unbegun(told.stream);
            }
        }
        Ok(())
    }

    fn count_unbegun(&mut self, stream: Stream) {
        if let Some(place) = self.place_of(stream) {
            if let Some(ledger) = self.ledgers.get_mut(place) {
                ledger.unbegun = ledger.unbegun.saturating_add(1);
            }
        }
    }

    /// Puts the counts of all sinks, by their numbers, and then by source and stream.
    pub fn put_all_counts(&mut self, rows: &mut Octets) -> Result<(), Memory> {
        'sinks: for sink in 0..8u8 {
            self.put_counts(rows, sink)?;
        }
        Ok(())
    }

    /// Puts the counts of a sink, and begins anew.
    pub fn put_counts(&mut self, rows: &mut Octets, sink: u8) -> Result<(), Memory> {
        'sources: for source in 0..2u8 {
            'streams: for bis in 1..32u8 {
                if let Some(place) = self.place_of(Stream { sink, source, bis }) {
                    if let Some(ledger) = self.ledgers.get(place) {
                        ledger.put(rows)?;
                    }
                    let _ = self.ledgers.remove(place);
                }
            }
        }
        Ok(())
    }
}

/// Puts the notes of a unit that was foretold.
fn put_told(
    rows: &mut Octets,
    schedule: &Schedule,
    told: Foretold,
    is_valid: bool,
    is_first: bool,
) -> Result<(), Memory> {
    told.put(rows, schedule, (told.fate == Fate::Valid) == is_valid)?;
    told.put_moment(rows, schedule)?;
    if is_first {
        put_short(rows, schedule, told.stream.bis, told.event)
    } else {
        Ok(())
    }
}

/// Puts the note of a unit that was not foretold.
fn put_other(rows: &mut Octets, unit: UnitRow, source: u8) -> Result<(), Memory> {
    put_note(
        rows,
        &[
            Word::Text(b"unit"),
            Word::Number(u64::from(unit.sink)),
            Word::Number(u64::from(unit.bis)),
            Word::Text(b"at"),
            Word::Label(unit.time),
            Word::Text(b"source"),
            Word::Number(u64::from(source)),
            Word::Text(b"by octets that were injected, or on a group that a `train` line gave"),
        ],
    )
}
