ghost use Rattle.std.specs.Prelude.{◌≡◌, ◌≢◌, Err, IfOk};
ghost use Rattle.toml.specs.View.{table_view};
ghost use Rattle.scenario_toml.specs.Document.{lines, lines_in, meaning_in_keys, meaning_of, no_form, no_toml};
ghost use Rattle.scenario_toml.specs.State.Growth.{Grows};

use crate::fault::TomlFault;
use crate::fields::{Field, put_line};
use crate::parts::{Rows, put_given, put_required};
use crate::rows::{GroupLine, IdentLine, StepLine, SubgroupLines};
use crate::sinks::SinkLines;
use crate::tables::only_has;
use bcast_base::Octets;
use std::alloc::Global;
use toml::Table;

/// The text of the lines that a scenario in TOML stands for.
///
/// `BadToml` where the octets are no document in TOML, `BadDocument` where the document has not the form of a scenario.
pub fn lines_of(alloc: Global, document: &[u8]) -> Result<Octets, TomlFault>
    ensures ok { IfOk result (λ text. meaning_of document.now ≡ lines text) }
    ensures bad_toml { result ≡ Err TomlFault.BadToml → meaning_of document.now ≡ no_toml }
    ensures bad_document { result ≡ Err TomlFault.BadDocument → meaning_of document.now ≡ no_form }
{
    match toml::table_from_slice(alloc, document) {
        Ok(table) => lines_of_table(alloc, &table),
        Err(error) if error.is_memory() => Err(TomlFault::Memory),
        Err(_) => Err(TomlFault::BadToml),
    }
}

/// The text of the lines that the table of a document stands for.
fn lines_of_table(alloc: Global, table: &Table) -> Result<Octets, TomlFault>
    ensures ok { IfOk result (λ text. meaning_in_keys (table_view table.now) ≡ lines text) }
    ensures bad_toml { result ≢ Err TomlFault.BadToml }
    ensures bad_document { result ≡ Err TomlFault.BadDocument → meaning_in_keys (table_view table.now) ≡ no_form }
{
    if !only_has(
        table,
        &[Field::Number("version")],
        &["group", "ident", "subgroups", "sinks", "steps"],
    ) {
        return Err(TomlFault::BadDocument);
    }
    let mut text = Octets::new(alloc);
    put_lines(&mut text, table)?;
    Ok(text)
}

/// Puts the lines that the table of a document stands for, which has no other keys than it may have.
#[tactic(auto, using(crate::proofs::Growing::goes, crate::proofs::Growing::stops), unfolding(crate::specs::Document::lines_in))]
fn put_lines(text: &mut Octets, table: &Table) -> Result<(), TomlFault>
    ensures { Grows (lines_in (table_view table.now)) text.old text.new result }
{
    put_line(text, b"scenario", table, &[Field::Number("version")])?;
    put_given(text, table, "group", &GroupLine)?;
    put_given(text, table, "ident", &IdentLine)?;
    put_given(
        text,
        table,
        "subgroups",
        &Rows {
            each: SubgroupLines,
        },
    )?;
    put_given(text, table, "sinks", &Rows { each: SinkLines })?;
    put_required(text, table, "steps", &Rows { each: StepLine })
}
