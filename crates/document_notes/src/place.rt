use bcast_base::{Memory, Octets};
use itoa::Buffer;

/// Where a table stands in a document: under a key, and under a key of that table, each with its place in an array where it is one.
#[derive(Clone, Copy)]
pub(crate) struct Place {
    outer: Option<(&'static str, Option<usize>)>,
    inner: Option<(&'static str, usize)>,
}

impl Place {
    /// The document.
    pub(crate) const TOP: Place = Place {
        outer: None,
        inner: None,
    };

    /// Whether it is the document.
    pub(crate) fn is_top(self) -> bool {
        self.outer.is_none()
    }

    /// The table at a key of the document.
    pub(crate) fn key(name: &'static str) -> Place {
        Place {
            outer: Some((name, None)),
            inner: None,
        }
    }

    /// A table of an array at a key of the document.
    pub(crate) fn item(name: &'static str, place: usize) -> Place {
        Place {
            outer: Some((name, Some(place))),
            inner: None,
        }
    }

    /// A table of an array at a key of this table.
    pub(crate) fn within(self, name: &'static str, place: usize) -> Place {
        Place {
            outer: self.outer,
            inner: Some((name, place)),
        }
    }

    /// Puts the front of a note of a key of the table that stands here, up to that key.
    pub(crate) fn put(self, rows: &mut Octets) -> Result<(), Memory> {
        rows.append(b"  # the key ")?;
        match self.outer {
            None => {}
            Some((name, None)) => put_name(rows, name)?,
            Some((name, Some(place))) => put_item(rows, name, place)?,
        }
        match self.inner {
            None => Ok(()),
            Some((name, place)) => put_item(rows, name, place),
        }
    }
}

/// Puts a name and a dot.
fn put_name(rows: &mut Octets, name: &'static str) -> Result<(), Memory> {
    rows.append(name.as_bytes())?;
    rows.push(b'.')
}

/// Puts a name with a place behind it, and a dot.
fn put_item(rows: &mut Octets, name: &'static str, place: usize) -> Result<(), Memory> {
    put_place(rows, name, place)?;
    rows.push(b'.')
}

/// Puts a name with a place behind it.
pub(crate) fn put_place(rows: &mut Octets, name: &'static str, place: usize) -> Result<(), Memory> {
    rows.append(name.as_bytes())?;
    rows.push(b'[')?;
    put_number(rows, place)?;
    rows.push(b']')
}

/// Puts a number in decimal.
pub(crate) fn put_number(rows: &mut Octets, number: usize) -> Result<(), Memory> {
    let mut digits = Buffer::new();
    rows.append(digits.format(number as u64).as_bytes())
}
