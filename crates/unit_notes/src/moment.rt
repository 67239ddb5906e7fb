//! The sum that the time of a unit is, and by how much it is handed up in time.
use crate::fate::{At, Foretold};
use crate::schedule::Schedule;
use bcast_base::{Memory, Octets};
use scenario_words::{Word, put_words};

impl Foretold {
    /// Puts the sum that its time is, in µs, and by how much it is handed up in time: that is by the anchor of the event behind the one
    /// that is closed now.
    pub(crate) fn put_moment(&self, rows: &mut Octets, schedule: &Schedule) -> Result<(), Memory> {
        self.put_front(rows)?;
        self.put_sum(rows, schedule)?;
        self.put_close(rows, schedule)
    }

    /// Puts the sum.
    fn put_sum(&self, rows: &mut Octets, schedule: &Schedule) -> Result<(), Memory> {
        match self.at {
            At::Slot(slot) => self.put_slot_sum(rows, schedule, slot),
            At::Start(_) => self.put_unit_sum(rows, schedule),
        }
    }

    /// Puts the sum of an unframed unit, from the anchor of its event on.
    fn put_slot_sum(
        &self,
        rows: &mut Octets,
        schedule: &Schedule,
        slot: u64,
    ) -> Result<(), Memory> {
        put_delayed(rows, schedule, b" anchor", schedule.anchor(self.event))?;
        put_words(
            rows,
            b" +",
            &[
                Word::Number(slot),
                Word::Text(b"x SDU_Interval"),
                Word::Number(schedule.numbers.sdu),
                Word::Text(b"+ Presentation_Delay"),
                Word::Number(schedule.delay),
            ],
        )
    }

    /// Puts the sum of a framed unit, from the unit's own time on.
    fn put_unit_sum(&self, rows: &mut Octets, schedule: &Schedule) -> Result<(), Memory> {
        let time = self.time.saturating_sub(schedule.unit_delay());
        put_delayed(rows, schedule, b" unit time", time)?;
        put_words(
            rows,
            b" + SDU_Interval",
            &[
                Word::Number(schedule.numbers.sdu),
                Word::Text(b"+ ISO_Interval"),
                Word::Number(schedule.numbers.interval()),
                Word::Text(b"+ Presentation_Delay"),
                Word::Number(schedule.delay),
            ],
        )
    }

    /// Puts the anchor by which the unit is handed up, and how long before its time or behind it that is.
    fn put_close(&self, rows: &mut Octets, schedule: &Schedule) -> Result<(), Memory> {
        let close = schedule.anchor(self.closed.saturating_add(1));
        let (count, name): (u64, &'static [u8]) = if self.time < close {
            (close.saturating_sub(self.time), b"us late")
        } else {
            (self.time.saturating_sub(close), b"us in time")
        };
        put_words(
            rows,
            b"; handed up by",
            &[
                Word::Number(close),
                Word::Text(b"us,"),
                Word::Number(count),
                Word::Text(name),
            ],
        )?;
        rows.push(b'\n')
    }
}

/// Puts from where a sum goes on, and the delay from an anchor to the end of an event.
fn put_delayed(
    rows: &mut Octets,
    schedule: &Schedule,
    name: &'static [u8],
    from: u64,
) -> Result<(), Memory> {
    put_words(
        rows,
        name,
        &[
            Word::Number(from),
            Word::Text(b"+ BIG_Sync_Delay"),
            Word::Number(schedule.numbers.delay(false)),
        ],
    )
}
