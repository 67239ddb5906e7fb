//! How many units go into the first event of an unframed source.
use crate::schedule::Schedule;
use bcast_base::{Memory, Octets};
use scenario_words::{Word, put_words};

/// Puts by how much the units of a stream come late that was given too few before the first event, where a slot of this event is without
/// a unit for that: the first event takes those of the H events after it too.
pub(crate) fn put_short(
    rows: &mut Octets,
    schedule: &Schedule,
    bis: u8,
    event: u64,
) -> Result<(), Memory> {
    let horizon = schedule.horizon();
    let due = schedule.slots().saturating_mul(horizon.saturating_add(1));
    let given = schedule.given(bis);
    if horizon == 0 || due <= given || !schedule.is_early(event) {
        return Ok(());
    }
    let slots = due.saturating_sub(given);
    let (count, late) = late_by(slots, schedule.slots());
    put_words(
        rows,
        b"  # H is",
        &[
            Word::Label(horizon),
            Word::Text(b"k x (H + 1) ="),
            Word::Number(due),
            Word::Text(b"units go into the first event, so each later unit comes"),
        ],
    )?;
    put_late(rows, bis, given, count, late)
}

/// Puts by how much they come late.
fn put_late(
    rows: &mut Octets,
    bis: u8,
    given: u64,
    count: Word<'static>,
    late: &'static [u8],
) -> Result<(), Memory> {
    put_words(
        rows,
        b"",
        &[
            count,
            Word::Text(late),
            Word::Text(b"stream"),
            Word::Number(u64::from(bis)),
            Word::Text(b"had"),
            Word::Number(given),
            Word::Text(b"then"),
        ],
    )?;
    rows.push(b'\n')
}

/// So many slots, in words: as events where they make whole ones.
fn late_by(slots: u64, in_event: u64) -> (Word<'static>, &'static [u8]) {
    if slots == in_event {
        return (Word::Text(b"an"), b"event late:");
    }
    if slots == 1 {
        return (Word::Text(b"a"), b"slot late:");
    }
    let events = if in_event == 0 { 0 } else { slots / in_event };
    if events.saturating_mul(in_event) == slots {
        (Word::Number(events), b"events late:")
    } else {
        (Word::Number(slots), b"slots late:")
    }
}
