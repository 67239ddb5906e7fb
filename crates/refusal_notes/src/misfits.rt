//! Which word of a line doesn't fit its place, and what the place takes.
use crate::forms::{FIRST, MOST_OCTETS, PLACES, SECOND};
use crate::words::word_at;
use bcast_base::{Memory, Octets};
use note_parts::{put_note, shown};
use scenario_words::{Word, put_words};
use std::alloc::Global;

/// A line of the language.
#[derive(Clone, Copy)]
struct Form {
    /// Its first word and the names of the places behind it.
    words: &'static [u8],
    /// How many of the last places may stand again.
    again: u64,
}

/// The form among these whose first word this is.
fn form_in(forms: &'static [(&'static str, u64)], name: &[u8]) -> Option<Form> {
    for (words, again) in forms {
        let words = words.as_bytes();
        if word_at(words, 0) == Some(name) {
            return Some(Form {
                words,
                again: *again,
            });
        }
    }
    None
}

/// The form of a line.
fn form_of(name: &[u8]) -> Option<Form> {
    match form_in(&FIRST, name) {
        Some(form) => Some(form),
        None => form_in(&SECOND, name),
    }
}

/// The name of a place of a form, from 1 on.
fn name_at(form: Form, place: u64) -> Option<&'static [u8]> {
    let words = form.words;
    match word_at(words, place) {
        Some(name) => Some(name),
        None if form.again == 1 => word_at(words, 2),
        None if form.again == 2 => {
            let behind = if word_at(words, 7) == Some(b"BISSYNC".as_slice()) {
                7
            } else {
                5
            };
            let odd = place.saturating_sub(behind) % 2;
            word_at(
                words,
                if odd == 1 {
                    behind.saturating_add(1)
                } else {
                    behind
                },
            )
        }
        None => None,
    }
}

/// What stands beside a name in a table.
fn beside(table: &'static [(&'static str, &'static str)], name: &[u8]) -> Option<&'static [u8]> {
    for (found, takes) in table {
        if found.as_bytes() == name {
            return Some(takes.as_bytes());
        }
    }
    None
}

/// What a place of the line with this first word takes.
fn takes_at(line: &[u8], place: &[u8]) -> &'static [u8] {
    match beside(&PLACES, place) {
        Some(takes) => takes,
        None => beside(&MOST_OCTETS, line).unwrap_or(b"another word"),
    }
}

/// Puts why a line is none of the language: its word that doesn't fit, from 0, and what was expected there. Where a carriage return ends
/// the line, puts that.
pub fn put_misfit(rows: &mut Octets, alloc: Global, line: &[u8], place: u64) -> Result<(), Memory> {
    let name = word_at(line, 0).unwrap_or(b"");
    match form_of(name) {
        None => put_unknown(rows, alloc, name)?,
        Some(_) if place == 0 => put_note(
            rows,
            &[
                Word::Text(name),
                Word::Text(b"begins a line of version 2, which `scenario 2` allows"),
            ],
        )?,
        Some(form) => put_word(rows, alloc, line, form, place)?,
    }
    if line.ends_with(b"\r") {
        return put_note(
            rows,
            &[Word::Text(
                b"the line ends with a carriage return, octet 0d (\\r): a line ends with octet 0a alone",
            )],
        );
    }
    Ok(())
}

/// Puts that no line begins so.
fn put_unknown(rows: &mut Octets, alloc: Global, name: &[u8]) -> Result<(), Memory> {
    if name.is_empty() {
        return put_note(
            rows,
            &[Word::Text(
                b"no line of the language begins with a space: its first word stands at its front",
            )],
        );
    }
    put_note(
        rows,
        &[
            Word::Text(b"no line of the language begins with the word"),
            Word::Text(shown(alloc, name)?.as_slice()),
        ],
    )
}

/// Puts which word of a line doesn't fit, behind its first word.
fn put_word(
    rows: &mut Octets,
    alloc: Global,
    line: &[u8],
    form: Form,
    place: u64,
) -> Result<(), Memory> {
    put_words(rows, b"  # word", &[Word::Number(place)])?;
    let name = word_at(line, 0).unwrap_or(b"");
    match (name_at(form, place), word_at(line, place)) {
        (Some(at), Some(word)) => {
            put_found(rows, alloc, word)?;
            put_takes(rows, b", but", at, takes_at(name, at))?;
        }
        (Some(at), None) if at == b"BISSYNC".as_slice() => rows.append(
            b" ends the line: each word fits, but the operation has more than 512 octets",
        )?,
        (Some(at), None) => put_takes(rows, b" is missing:", at, takes_at(name, at))?,
        (None, _) => put_words(
            rows,
            b" is one too many; the line is",
            &[Word::Text(form.words)],
        )?,
    }
    rows.push(b'\n')
}

/// Puts the word that was found.
fn put_found(rows: &mut Octets, alloc: Global, word: &[u8]) -> Result<(), Memory> {
    if word.is_empty() {
        return rows.append(b" has no octet, as two spaces stand together or one ends the line");
    }
    put_words(rows, b" is", &[Word::Text(shown(alloc, word)?.as_slice())])
}

/// Puts what a place takes.
fn put_takes(
    rows: &mut Octets,
    before: &'static [u8],
    place: &'static [u8],
    takes: &'static [u8],
) -> Result<(), Memory> {
    put_words(
        rows,
        before,
        &[Word::Text(place), Word::Text(b"takes"), Word::Text(takes)],
    )
}
