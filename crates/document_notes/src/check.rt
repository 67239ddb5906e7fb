//! The first fault of the form of a document.
use crate::forms::{BIS, DOCUMENT, GROUP, IDENT, Key, PAC, SINK, SUBGROUP};
use crate::kinds::Kind;
use crate::place::{Place, put_place};
use bcast_base::{Memory, Octets};
use note_parts::shown;
use std::alloc::Global;
use toml::{Table, Value};

/// Puts the first key at which a document in TOML has not the form of a scenario, and what was expected there.
pub fn put_no_form(rows: &mut Octets, alloc: Global, document: &[u8]) -> Result<(), Memory> {
    let table = match toml::table_from_slice(alloc, document) {
        Ok(table) => table,
        Err(error) if error.is_memory() => return Err(Memory),
        Err(_) => return Ok(()),
    };
    let _is_put = put_document(rows, alloc, &table)?;
    Ok(())
}

/// Puts the first fault of a document, and whether it has one.
fn put_document(rows: &mut Octets, alloc: Global, table: &Table) -> Result<bool, Memory> {
    if put_table(rows, alloc, Place::TOP, table, &DOCUMENT)? {
        return Ok(true);
    }
    if let Some(group) = table_at(table, "group") {
        if put_table(rows, alloc, Place::key("group"), group, &GROUP)? {
            return Ok(true);
        }
    }
    if let Some(ident) = table_at(table, "ident") {
        if put_table(rows, alloc, Place::key("ident"), ident, &IDENT)? {
            return Ok(true);
        }
    }
    if put_tables(rows, alloc, table, "subgroups", &SUBGROUP, "bis", &BIS)? {
        return Ok(true);
    }
    if put_tables(rows, alloc, table, "sinks", &SINK, "pacs", &PAC)? {
        return Ok(true);
    }
    put_steps(rows, table)
}

/// The table at a key.
fn table_at<'t>(table: &'t Table, name: &str) -> Option<&'t Table> {
    match table.get(name) {
        Some(value) => value.as_table(),
        None => None,
    }
}

/// The values of the array at a key.
fn values_at<'t>(table: &'t Table, name: &str) -> &'t [Value] {
    match table.get(name) {
        Some(value) => match value.as_array() {
            Some(values) => values.as_slice(),
            None => &[],
        },
        None => &[],
    }
}

/// Puts the first fault of the tables at a key, each of which has tables at the key `inner`.
fn put_tables(
    rows: &mut Octets,
    alloc: Global,
    table: &Table,
    outer: &'static str,
    keys: &[Key],
    inner: &'static str,
    inner_keys: &[Key],
) -> Result<bool, Memory> {
    let mut place: usize = 0;
    for value in values_at(table, outer) {
        let Some(one) = value.as_table() else {
            put_value(rows, Place::TOP, outer, place, value, Kind::Table)?;
            return Ok(true);
        };
        let at = Place::item(outer, place);
        if put_table(rows, alloc, at, one, keys)?
            || put_inner(rows, alloc, at, one, inner, inner_keys)?
        {
            return Ok(true);
        }
        place = place.saturating_add(1);
    }
    Ok(false)
}

/// Puts the first fault of the tables at a key of a table that stands here.
fn put_inner(
    rows: &mut Octets,
    alloc: Global,
    at: Place,
    table: &Table,
    name: &'static str,
    keys: &[Key],
) -> Result<bool, Memory> {
    let mut place: usize = 0;
    for value in values_at(table, name) {
        let Some(one) = value.as_table() else {
            put_value(rows, at, name, place, value, Kind::Table)?;
            return Ok(true);
        };
        if put_table(rows, alloc, at.within(name, place), one, keys)? {
            return Ok(true);
        }
        place = place.saturating_add(1);
    }
    Ok(false)
}

/// Puts the first step that is no line.
fn put_steps(rows: &mut Octets, table: &Table) -> Result<bool, Memory> {
    let mut place: usize = 0;
    for value in values_at(table, "steps") {
        if !Kind::Step.is_of(value) {
            put_value(rows, Place::TOP, "steps", place, value, Kind::Step)?;
            return Ok(true);
        }
        place = place.saturating_add(1);
    }
    Ok(false)
}

/// Puts the first key at which a table that stands here has not its form: one that it may not have, one that is missing, or one with
/// another value.
fn put_table(
    rows: &mut Octets,
    alloc: Global,
    at: Place,
    table: &Table,
    keys: &[Key],
) -> Result<bool, Memory> {
    for (name, _) in table.iter() {
        if !is_among(keys, name.as_str()) {
            at.put(rows)?;
            rows.append(shown(alloc, name.as_str().as_bytes())?.as_slice())?;
            put_keys(rows, keys)?;
            put_hint(rows, at, name.as_str())?;
            rows.push(b'\n')?;
            return Ok(true);
        }
    }
    for (name, kind, is_needed) in keys {
        match table.get(*name) {
            None if !*is_needed => {}
            None => {
                at.put(rows)?;
                rows.append(name.as_bytes())?;
                rows.append(b" is missing: expected ")?;
                put_kind(rows, *kind)?;
                return Ok(true);
            }
            Some(value) if kind.is_of(value) => {}
            Some(value) => {
                at.put(rows)?;
                rows.append(name.as_bytes())?;
                put_other(rows, value, *kind)?;
                return Ok(true);
            }
        }
    }
    Ok(false)
}

/// Whether a key is one of these.
fn is_among(keys: &[Key], name: &str) -> bool {
    for (key, _, _) in keys {
        if *key == name {
            return true;
        }
    }
    false
}

/// Puts that a key is none of these.
fn put_keys(rows: &mut Octets, keys: &[Key]) -> Result<(), Memory> {
    rows.append(b" is not known: expected one of")?;
    for (key, _, _) in keys {
        rows.push(b' ')?;
        rows.append(key.as_bytes())?;
    }
    Ok(())
}

/// Puts where a key of the document stands, where it was found in a table of it.
fn put_hint(rows: &mut Octets, at: Place, name: &str) -> Result<(), Memory> {
    if at.is_top() || !is_among(&DOCUMENT, name) {
        return Ok(());
    }
    rows.append(b"; ")?;
    rows.append(name.as_bytes())?;
    rows.append(b" of the document stands above its first header in brackets")
}

/// Puts what is wrong with a value of an array at a key of a table that stands here.
fn put_value(
    rows: &mut Octets,
    at: Place,
    name: &'static str,
    place: usize,
    value: &Value,
    kind: Kind,
) -> Result<(), Memory> {
    at.put(rows)?;
    put_place(rows, name, place)?;
    put_other(rows, value, kind)
}

/// Puts what a value is, and what was expected.
fn put_other(rows: &mut Octets, value: &Value, kind: Kind) -> Result<(), Memory> {
    rows.append(b" is of the type ")?;
    rows.append(value.type_str().as_bytes())?;
    rows.append(b": expected ")?;
    put_kind(rows, kind)
}

/// Puts what was expected, and ends the note.
fn put_kind(rows: &mut Octets, kind: Kind) -> Result<(), Memory> {
    rows.append(kind.name().as_bytes())?;
    rows.push(b'\n')
}
