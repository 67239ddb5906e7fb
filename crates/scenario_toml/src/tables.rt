ghost use Rattle.std.specs.Prelude.{◌≡◌, [], map, option_map};
ghost use Rattle.toml.specs.Data.{as_table};
ghost use Rattle.toml.specs.View.{view, table_view};
ghost use Rattle.scenario_toml.specs.Tables as spec;
ghost use Rattle.scenario_toml.specs.State.Fields.{field_of, texts_of};

use crate::fields::Field;
use toml::{Table, Value};

/// Whether the key is that of a field.
fn is_field(fields: &[Field<'_>], key: &str) -> bool
    ensures { result ≡ spec.is_field (map field_of fields.now) key.now }
{
    'fields: for field in fields {
        if field.key() == key {
            return true;
        }
    }
    false
}

/// Whether the key is one of these.
fn is_among(others: &[&str], key: &str) -> bool
    ensures { result ≡ spec.is_among (texts_of others.now) key.now }
{
    'others: for known in others {
        if *known == key {
            return true;
        }
    }
    false
}

/// Whether a table has no keys but these.
pub(crate) fn only_has(table: &Table, fields: &[Field<'_>], others: &[&str]) -> bool
    ensures { result ≡ spec.only_has (map field_of fields.now) (texts_of others.now) (table_view table.now) }
{
    'members: for (key, _value) in table.iter() {
        if !is_field(fields, key.as_str()) && !is_among(others, key.as_str()) {
            return false;
        }
    }
    true
}

/// The table that a value is, with no keys but these.
pub(crate) fn table_with<'t>(
    value: &'t Value,
    fields: &[Field<'_>],
    others: &[&str],
) -> Option<&'t Table>
    ensures { option_map (λ t. table_view t.now) result
        ≡ spec.with_keys (map field_of fields.now) (texts_of others.now) (as_table (view value.now)) }
{
    let Some(table) = value.as_table() else {
        return None;
    };
    if !only_has(table, fields, others) {
        return None;
    }
    Some(table)
}
