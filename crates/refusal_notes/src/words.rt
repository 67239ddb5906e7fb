use scenario_words::Cursor;

/// The word of a line or a row at this place, from 0.
pub fn word_at(line: &[u8], place: u64) -> Option<&[u8]> {
    let mut words = Cursor::new(line);
    'words: for _ in 0..place {
        if words.word().is_err() {
            return None;
        }
    }
    words.word().ok()
}
