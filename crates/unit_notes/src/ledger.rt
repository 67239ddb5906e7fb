//! What became of the units and PDUs of a stream at a sink.
use crate::marks::{has, with, without};
use bcast_base::{Memory, Octets};
use isoal_base::Heard;
use scenario_words::{Word, put_words};

/// A stream of a source at a sink.
#[derive(Clone, Copy, PartialEq, Eq)]
pub(crate) struct Stream {
    pub(crate) sink: u8,
    pub(crate) source: u8,
    pub(crate) bis: u8,
}

/// The start of a framed unit that isn't decided yet.
#[derive(Clone, Copy)]
pub(crate) struct Start {
    pub(crate) event: u64,
    pub(crate) place: u64,
    pub(crate) time: u64,
}

/// The counts of a stream at a sink.
#[derive(Clone, Copy)]
pub(crate) struct Ledger {
    pub(crate) stream: Stream,
    pub(crate) valid: u64,
    pub(crate) lost: u64,
    /// Slots for which no unit was given.
    pub(crate) empty: u64,
    pub(crate) unbegun: u64,
    heard: u64,
    repeated: u64,
    late: u64,
    /// The PDUs that were sent while the sink was on the stream, and those of them that were handed to it.
    sent: u64,
    handed: u64,
    /// Of the last 32 events, by their numbers modulo 32, those at which the sink was on the stream, and of each the subevents that were
    /// handed to it.
    was_on: u32,
    subevents: [u32; 32],
    pub(crate) start: Option<Start>,
}

impl Ledger {
    /// Nothing is counted yet.
    pub(crate) fn new(stream: Stream) -> Ledger {
        Ledger {
            stream,
            valid: 0,
            lost: 0,
            empty: 0,
            unbegun: 0,
            heard: 0,
            repeated: 0,
            late: 0,
            sent: 0,
            handed: 0,
            was_on: 0,
            subevents: [0; 32],
            start: None,
        }
    }

    /// An event is performed, with so many PDUs of the stream.
    pub(crate) fn begin_event(&mut self, event: u64, count: u64, is_on: bool) {
        let place = event % 32;
        self.subevents[place as usize] = 0;
        if is_on {
            self.was_on = with(self.was_on, place);
            self.sent = self.sent.saturating_add(count);
        } else {
            self.was_on = without(self.was_on, place);
            self.start = None;
        }
    }

    /// A PDU of an event, one of the last 32, is handed to the sink, and gets this answer.
    pub(crate) fn hand(&mut self, event: u64, subevent: u64, heard: Heard) {
        match heard {
            Heard::Kept => self.heard = self.heard.saturating_add(1),
            Heard::Repeat => self.repeated = self.repeated.saturating_add(1),
            Heard::Late => self.late = self.late.saturating_add(1),
            _ => return,
        }
        self.hand_subevent(event % 32, subevent);
    }

    /// A subevent of the event at this place is handed to the sink.
    fn hand_subevent(&mut self, place: u64, subevent: u64) {
        if !has(self.was_on, place) {
            return;
        }
        if let Some(known) = self.subevents.get_mut(place as usize) {
            if !has(*known, subevent) {
                *known = with(*known, subevent);
                self.handed = self.handed.saturating_add(1);
            }
        }
    }

    /// Puts the counts.
    pub(crate) fn put(&self, rows: &mut Octets) -> Result<(), Memory> {
        put_words(
            rows,
            b"  # sink",
            &[
                Word::Number(u64::from(self.stream.sink)),
                Word::Text(b"stream"),
                Word::Number(u64::from(self.stream.bis)),
                Word::Text(b"of source"),
                Word::Label(u64::from(self.stream.source)),
            ],
        )?;
        self.put_units(rows)?;
        self.put_pdus(rows)?;
        rows.push(b'\n')
    }

    /// Puts the counts of units.
    fn put_units(&self, rows: &mut Octets) -> Result<(), Memory> {
        put_words(
            rows,
            b" units",
            &[
                Word::Number(self.valid),
                Word::Text(b"valid,"),
                Word::Number(self.lost),
                Word::Text(b"lost,"),
                Word::Number(self.unbegun),
                Word::Text(b"never begun,"),
                Word::Number(self.empty),
                Word::Text(b"slots without a unit;"),
            ],
        )
    }

    /// Puts the counts of PDUs.
    fn put_pdus(&self, rows: &mut Octets) -> Result<(), Memory> {
        put_words(
            rows,
            b" PDUs",
            &[
                Word::Number(self.heard),
                Word::Text(b"heard,"),
                Word::Number(self.repeated),
                Word::Text(b"repeated,"),
                Word::Number(self.late),
                Word::Text(b"late,"),
                Word::Number(self.sent.saturating_sub(self.handed)),
                Word::Text(b"missed"),
            ],
        )
    }
}
