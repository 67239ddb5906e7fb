ghost use Rattle.std.specs.Prelude.{◌≡◌, ℕ, List, Option, Some, option_map};
ghost use Rattle.toml.specs.Data.{Data, get_member};
ghost use Rattle.toml.specs.View.{view, table_view, items_view};
ghost use Rattle.scenario_toml.specs.Document.{rows};
ghost use Rattle.scenario_toml.specs.Parts.{each, required, where_given};
ghost use Rattle.scenario_toml.specs.State.Growth.{Grows};

use crate::fault::TomlFault;
use bcast_base::Octets;
use toml::{Table, Value};

/// What a value of a document stands for.
pub(crate) trait Part {
    // The octets that a value stands for, where it has the form for them.
    ghost part: { Self → Data → Option (List ℕ) };

    /// Puts what the value stands for at the end of the text.
    fn put(&self, text: &mut Octets, value: &Value) -> Result<(), TomlFault>
        ensures { Grows (part self.now (view value.now)) text.old text.new result };
}

/// Puts octets at the end of a text.
pub(crate) fn put(text: &mut Octets, octets: &[u8]) -> Result<(), TomlFault>
    ensures { Grows (Some octets.now) text.old text.new result }
{
    text.append(octets)?;
    Ok(())
}

/// The value at a key.
fn member<'t>(table: &'t Table, key: &str) -> Option<&'t Value>
    ensures { option_map (λ v. view v.now) result ≡ get_member key.now (table_view table.now) }
{
    table.get(key)
}

/// Puts what the value at a key stands for, which has to be there.
pub(crate) fn put_required<P: Part>(
    text: &mut Octets,
    table: &Table,
    key: &str,
    part: &P,
) -> Result<(), TomlFault>
    ensures { Grows (required (P.part part.now) (get_member key.now (table_view table.now))) text.old text.new result }
{
    match member(table, key) {
        None => Err(TomlFault::BadDocument),
        Some(value) => part.put(text, value),
    }
}

/// Puts what the value at a key stands for, where it is there.
pub(crate) fn put_given<P: Part>(
    text: &mut Octets,
    table: &Table,
    key: &str,
    part: &P,
) -> Result<(), TomlFault>
    ensures { Grows (where_given (P.part part.now) (get_member key.now (table_view table.now))) text.old text.new result }
{
    match member(table, key) {
        None => Ok(()),
        Some(value) => part.put(text, value),
    }
}

/// Puts what each value stands for, in order.
fn put_each<P: Part>(text: &mut Octets, values: &[Value], part: &P) -> Result<(), TomlFault>
    ensures { Grows (each (P.part part.now) (items_view values.now)) text.old text.new result }
{
    'values: for value in values {
        if let Err(fault) = part.put(text, value) {
            return Err(fault);
        }
    }
    Ok(())
}

/// An array, which stands for what its values stand for, in order.
#[derive(Clone, Copy)]
pub(crate) struct Rows<P> {
    pub(crate) each: P,
}

impl<P: Part> Part for Rows<P> {
    ghost part = { λ s. rows (P.part s.each) };

    fn put(&self, text: &mut Octets, value: &Value) -> Result<(), TomlFault>
        ensures { Grows (rows (P.part self.now.each) (view value.now)) text.old text.new result }
    {
        match value.as_array() {
            None => Err(TomlFault::BadDocument),
            Some(values) => put_each(text, values.as_slice(), &self.each),
        }
    }
}
