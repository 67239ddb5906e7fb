//! Notes of the rows of the transcript that a line brought.
use crate::answers::{of_dropped, of_forged, of_heard, of_reply, of_train};
use bcast_base::{Memory, Octets};
use note_parts::put_note;
use refusal_notes::word_at;
use scenario_words::Word;

/// The meaning of a row, where there is one to tell.
pub(crate) fn meaning_of(row: &[u8]) -> Option<&'static [u8]> {
    let name = word_at(row, 0)?;
    if name == b"sink".as_slice() {
        return of_train(word_at(row, 2)?);
    }
    if name == b"reply".as_slice() {
        return of_reply(word_at(row, 3)?);
    }
    if name == b"areply".as_slice() {
        return of_reply(word_at(row, 4)?);
    }
    if name == b"heard".as_slice() {
        return of_heard(word_at(row, 2)?);
    }
    if name == b"forged".as_slice() {
        return of_forged(word_at(row, 2)?);
    }
    if name == b"relay".as_slice() {
        return of_dropped(word_at(row, 4)?);
    }
    None
}

/// Puts the note of a row.
pub(crate) fn put_row_note(rows: &mut Octets, row: &[u8]) -> Result<(), Memory> {
    match meaning_of(row) {
        Some(comes) => put_note(rows, &[Word::Text(comes)]),
        None => Ok(()),
    }
}

/// Whether a row says that a sink is on a group.
pub(crate) fn is_joined(text: &[u8]) -> bool {
    let mut start = 0;
    for end in 0..text.len() {
        if text[end] == b'\n' {
            if word_at(&text[start..end], 2) == Some(b"OnGroup".as_slice()) {
                return true;
            }
            start = end + 1;
        }
    }
    false
}
