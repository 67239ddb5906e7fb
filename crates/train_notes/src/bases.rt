//! What is wrong with octets that are announced as a BASE (Basic Audio Profile 1.0, section 3.7.2.2).
use base_grammar::BaseFault;
use bcast_base::{Memory, Octets};
use ltv_codec::LtvBad;
use note_parts::put_note;
use scenario_words::Word;

/// Puts the fault of octets that are no BASE, with its place in them, from 0.
pub(crate) fn put_base_fault(rows: &mut Octets, fault: BaseFault) -> Result<(), Memory> {
    match fault {
        BaseFault::Short { place } => put_place(
            rows,
            "the octets end within the field that begins at octet",
            place,
        ),
        BaseFault::NoSubgroup => put_note(rows, &[Word::Text(b"Num_Subgroups, octet 3, is 0")]),
        BaseFault::NoBis { place } => put_place(
            rows,
            "Num_BIS of a subgroup is 0, at octet",
            place,
        ),
        BaseFault::BadIndex { place } => put_place(
            rows,
            "BIS_index is not from 1 to 31, at octet",
            place,
        ),
        BaseFault::IndexTwice { place } => put_place(
            rows,
            "BIS_index stands before, at octet",
            place,
        ),
        BaseFault::Ltv { place, fault } => put_list(rows, place, fault),
        BaseFault::Trailing { place } => put_place(
            rows,
            "octets follow the BASE, from octet",
            place,
        ),
        BaseFault::TooLong => put_note(rows, &[Word::Text(b"there are more than 252 octets")]),
        BaseFault::Memory => Err(Memory),
    }
}

/// Puts a fault and where it is.
fn put_place(rows: &mut Octets, fault: &'static str, place: usize) -> Result<(), Memory> {
    put_note(
        rows,
        &[Word::Text(fault.as_bytes()), Word::Number(place as u64)],
    )
}

/// Puts what is wrong with octets that are no LTV list, where they begin and where the bad length stands in them.
fn put_list(rows: &mut Octets, start: usize, fault: LtvBad) -> Result<(), Memory> {
    let (text, place) = match fault {
        LtvBad::ZeroLength { place } => ("is no LTV list: a length is 0, at its octet", place),
        LtvBad::Short { place } => (
            "is no LTV list: a length passes its end, at its octet",
            place,
        ),
    };
    put_note(
        rows,
        &[
            Word::Text(b"what begins at octet"),
            Word::Number(start as u64),
            Word::Text(text.as_bytes()),
            Word::Number(place as u64),
        ],
    )
}
