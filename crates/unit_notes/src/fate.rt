//! What the close of an event makes of a unit, and why.
use crate::ledger::Stream;
use crate::marks::has;
use crate::schedule::Schedule;
use bcast_base::{Memory, Octets};
use scenario_words::{Word, put_words};

/// Where a unit is in the stream of its source.
#[derive(Clone, Copy)]
pub(crate) enum At {
    /// In a slot of its event.
    Slot(u64),
    /// Its start is in the PDU at this place of its event.
    Start(u64),
}

/// What becomes of it.
#[derive(Clone, Copy, PartialEq, Eq)]
pub(crate) enum Fate {
    Valid,
    Lost,
    /// A slot for which no unit was given.
    Empty,
    /// The start of a framed unit was not heard.
    Unbegun,
}

/// A unit of a stream, when it is rendered, and its event. `closed` is the event that is closed now, and `missing` has the places of those
/// of its payload numbers that carry the unit and weren't heard.
#[derive(Clone, Copy)]
pub(crate) struct Foretold {
    pub(crate) stream: Stream,
    pub(crate) time: u64,
    pub(crate) event: u64,
    pub(crate) at: At,
    pub(crate) fate: Fate,
    pub(crate) closed: u64,
    pub(crate) missing: u32,
}

impl Foretold {
    /// Puts where the unit is from and why it is lost, where `is_so` tells whether the transcript says so too.
    pub(crate) fn put(
        &self,
        rows: &mut Octets,
        schedule: &Schedule,
        is_so: bool,
    ) -> Result<(), Memory> {
        self.put_place(rows, schedule, self.before_source(is_so))?;
        rows.append(self.behind_place(is_so))?;
        rows.push(b'\n')?;
        if is_so && matches!(self.fate, Fate::Lost | Fate::Unbegun) {
            self.put_missing(rows, schedule)
        } else {
            Ok(())
        }
    }

    /// The words before the number of the source.
    fn before_source(&self, is_so: bool) -> &'static [u8] {
        if is_so && self.fate == Fate::Unbegun {
            b"never begun, source"
        } else {
            b"source"
        }
    }

    /// What stands behind the place.
    fn behind_place(&self, is_so: bool) -> &'static [u8] {
        if !is_so {
            b"; octets that were injected decide it"
        } else if self.fate == Fate::Empty {
            b", for which no unit was given"
        } else {
            b""
        }
    }

    /// Puts the front of a note: the sink, the stream and the time.
    pub(crate) fn put_front(&self, rows: &mut Octets) -> Result<(), Memory> {
        put_words(
            rows,
            b"  # unit",
            &[
                Word::Number(u64::from(self.stream.sink)),
                Word::Number(u64::from(self.stream.bis)),
                Word::Text(b"at"),
                Word::Label(self.time),
            ],
        )
    }

    /// Puts the source, the event and the slot, or the payload number of the start.
    fn put_place(
        &self,
        rows: &mut Octets,
        schedule: &Schedule,
        source: &'static [u8],
    ) -> Result<(), Memory> {
        self.put_front(rows)?;
        put_words(
            rows,
            b"",
            &[
                Word::Text(source),
                Word::Number(u64::from(self.stream.source)),
                Word::Text(b"event"),
                Word::Number(self.event),
            ],
        )?;
        match self.at {
            At::Slot(slot) => put_words(rows, b" slot", &[Word::Number(slot)]),
            At::Start(place) => put_words(
                rows,
                b" start in payload",
                &[Word::Number(schedule.payload(self.event, place))],
            ),
        }
    }

    /// Puts each payload number of the closed event that wasn't heard, with the subevents in which it was sent.
    fn put_missing(&self, rows: &mut Octets, schedule: &Schedule) -> Result<(), Memory> {
        'places: for place in 0..32u64 {
            if has(self.missing, place) {
                self.put_payload(rows, schedule, place)?;
            }
        }
        Ok(())
    }

    fn put_payload(
        &self,
        rows: &mut Octets,
        schedule: &Schedule,
        place: u64,
    ) -> Result<(), Memory> {
        self.put_front(rows)?;
        put_words(
            rows,
            b" payload",
            &[
                Word::Number(schedule.payload(self.closed, place)),
                Word::Text(b"was not heard, sent in"),
            ],
        )?;
        self.put_subevents(rows, schedule, place)?;
        rows.push(b'\n')
    }

    /// Puts the subevents in which a payload was sent: those ahead of its event, and then its own.
    fn put_subevents(
        &self,
        rows: &mut Octets,
        schedule: &Schedule,
        place: u64,
    ) -> Result<(), Memory> {
        let mut joint: &'static [u8] = b" event";
        'subevents: for step in 0..64u64 {
            let subevent = if step < 32 { 31 - step } else { step - 32 };
            if (schedule.ahead(subevent) > 0) == (step < 32)
                && self.put_sent(rows, schedule, place, subevent, joint)?
            {
                joint = b" and event";
            }
        }
        Ok(())
    }

    /// Puts the event of a subevent that has this payload, and whether it has.
    fn put_sent(
        &self,
        rows: &mut Octets,
        schedule: &Schedule,
        place: u64,
        subevent: u64,
        joint: &'static [u8],
    ) -> Result<bool, Memory> {
        if subevent >= schedule.numbers.nse || schedule.place(subevent) != place {
            return Ok(false);
        }
        let Some(event) = schedule.sent_in(self.closed, subevent) else {
            return Ok(false);
        };
        put_words(
            rows,
            joint,
            &[
                Word::Number(event),
                Word::Text(b"subevent"),
                Word::Number(subevent),
            ],
        )?;
        Ok(true)
    }
}
