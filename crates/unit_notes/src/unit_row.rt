//! A row of the transcript that tells a unit.
use scenario_words::{Cursor, Misfit};

/// What the row says.
#[derive(Clone, Copy)]
pub(crate) struct UnitRow {
    pub(crate) sink: u8,
    pub(crate) bis: u8,
    pub(crate) time: u64,
    pub(crate) is_valid: bool,
}

/// The unit of a row that tells one.
pub(crate) fn unit_in(row: &[u8]) -> Option<UnitRow> {
    if !row.starts_with(b"unit ") {
        return None;
    }
    let mut words = Cursor::new(row);
    let (sink, bis) = stream_in(&mut words).ok()?;
    let (time, is_valid) = fate_in(&mut words).ok()?;
    Some(UnitRow {
        sink,
        bis,
        time,
        is_valid,
    })
}

/// The sink and the stream of a row.
fn stream_in(words: &mut Cursor<'_>) -> Result<(u8, u8), Misfit> {
    words.word()?;
    let sink = words.octet(0, 7)?;
    let bis = words.octet(1, 31)?;
    Ok((sink, bis))
}

/// The time of a row behind these, and whether the unit is valid.
fn fate_in(words: &mut Cursor<'_>) -> Result<(u64, bool), Misfit> {
    words.word()?;
    let time = words.number(0, u64::MAX)?;
    let word = words.word()?;
    Ok((time, word == b"valid".as_slice()))
}
