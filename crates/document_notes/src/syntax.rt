use crate::place::put_number;
use bcast_base::{Memory, Octets};
use std::alloc::Global;

/// Puts where octets are no document in TOML, and what was expected there: the line and the column, in characters, both from 1.
pub fn put_no_toml(rows: &mut Octets, alloc: Global, document: &[u8]) -> Result<(), Memory> {
    let error = match toml::table_from_slice(alloc, document) {
        Ok(_) => return Ok(()),
        Err(error) => error,
    };
    let Some(span) = error.span() else {
        return Err(Memory);
    };
    let (line, column) = place_of(document, span.start);
    rows.append(b"  # no TOML from line ")?;
    put_number(rows, line)?;
    rows.append(b", column ")?;
    put_number(rows, column)?;
    rows.append(b" on: ")?;
    rows.append(error.message().as_bytes())?;
    rows.push(b'\n')
}

/// The line and the column of an octet, both from 1.
fn place_of(document: &[u8], place: usize) -> (usize, usize) {
    let mut line: usize = 1;
    let mut column: usize = 1;
    let mut count: usize = 0;
    for octet in document {
        if count >= place {
            return (line, column);
        }
        count = count.saturating_add(1);
        if *octet == b'\n' {
            line = line.saturating_add(1);
            column = 1;
        } else if *octet < 0x80 || *octet >= 0xc0 {
            column = column.saturating_add(1);
        }
    }
    (line, column)
}
