ghost use Rattle.std.specs.Prelude.{◌≡◌, map};
ghost use Rattle.toml.specs.View.{table_view};
ghost use Rattle.scenario_toml.specs.Words.{field, key_of, words};
ghost use Rattle.scenario_toml.specs.Tables.{line};
ghost use Rattle.scenario_toml.specs.State.Growth.{Grows};
ghost use Rattle.scenario_toml.specs.State.Fields.{field_of};

use crate::fault::TomlFault;
use crate::parts::{put, put_required};
use crate::words::{NumberWord, TextWord};
use bcast_base::Octets;
use toml::Table;

/// A key that a table has to have, by what stands at it.
#[derive(Clone, Copy)]
pub(crate) enum Field<'k> {
    /// A text.
    Text(&'k str),
    /// An integer.
    Number(&'k str),
}

impl<'k> Field<'k> {
    /// The key.
    pub(crate) fn key(&self) -> &'k str
        ensures { result.now ≡ key_of (field_of self.now) }
    {
        match self {
            Field::Text(key) => key,
            Field::Number(key) => key,
        }
    }
}

/// Puts the word of a key behind a space.
pub(crate) fn put_field(text: &mut Octets, table: &Table, key: Field<'_>) -> Result<(), TomlFault>
    ensures { Grows (field (field_of key.entry) (table_view table.now)) text.old text.new result }
{
    match key {
        Field::Text(key) => put_required(text, table, key, &TextWord),
        Field::Number(key) => put_required(text, table, key, &NumberWord),
    }
}

/// Puts the words of keys, each behind a space.
pub(crate) fn put_words(
    text: &mut Octets,
    table: &Table,
    keys: &[Field<'_>],
) -> Result<(), TomlFault>
    ensures { Grows (words (map field_of keys.now) (table_view table.now)) text.old text.new result }
{
    'keys: for key in keys {
        if let Err(fault) = put_field(text, table, *key) {
            return Err(fault);
        }
    }
    Ok(())
}

/// Puts a line: its first word, and the words of keys.
#[tactic(auto, using(crate::proofs::Growing::goes, crate::proofs::Growing::stops))]
pub(crate) fn put_line(
    text: &mut Octets,
    first: &[u8],
    table: &Table,
    keys: &[Field<'_>],
) -> Result<(), TomlFault>
    ensures { Grows (line first.now (words (map field_of keys.now) (table_view table.now))) text.old text.new result }
{
    put(text, first)?;
    put_words(text, table, keys)?;
    put(text, b"\n")
}
