//! What words of a line or a row say.
use bcast_base::{BisSet, Octets};
use scenario_words::Cursor;
use std::alloc::Global;

/// The most octets of a word of a line.
const MOST: usize = 4500;

/// The digit that a word begins with, as a number of a sink.
pub fn digit_of(word: &[u8]) -> u8 {
    match word.first() {
        Some(digit) => digit.saturating_sub(b'0'),
        None => 0,
    }
}

/// The streams that the words from this place on name, which rise; none where one names none.
pub fn streams_at(line: &[u8], place: u64) -> BisSet {
    let mut words = Cursor::new(line);
    'words: for _ in 0..place {
        if words.word().is_err() {
            return BisSet::new();
        }
    }
    match words.rising() {
        Ok(which) => which,
        Err(_) => BisSet::new(),
    }
}

/// The octets that the word at this place spells.
pub(crate) fn octets_at(alloc: Global, line: &[u8], place: u64) -> Option<Octets> {
    let mut words = Cursor::new(line);
    'words: for _ in 0..place {
        if words.word().is_err() {
            return None;
        }
    }
    words.octets(alloc, MOST).ok()
}
