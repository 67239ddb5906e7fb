ghost use Rattle.std.specs.Prelude.{Some, map};
ghost use Rattle.toml.specs.View.{view, table_view, items_view};
ghost use Rattle.scenario_toml.specs.Document.{sink_number, pac_line, locate_line, context_line, two_texts};
ghost use Rattle.scenario_toml.specs.Document.{sink_line, sink_words, sink_lines};
ghost use Rattle.scenario_toml.specs.State.Fields.{field_of};
ghost use Rattle.scenario_toml.specs.State.Growth.{Grows};

use crate::fault::TomlFault;
use crate::fields::{Field, put_field, put_words};
use crate::parts::{Part, Rows, put, put_given};
use crate::tables::table_with;
use crate::words::{NumberWord, TextWord};
use bcast_base::Octets;
use toml::{Table, Value};

/// Puts the number of a sink behind a space.
fn put_sink_number(text: &mut Octets, sink: &Table) -> Result<(), TomlFault>
    ensures { Grows (sink_number (table_view sink.now)) text.old text.new result }
{
    put_field(text, sink, Field::Number("number"))
}

/// A table of `pacs` of a sink.
#[derive(Clone, Copy)]
pub(crate) struct PacLine<'t> {
    sink: &'t Table,
}

impl<'t> Part for PacLine<'t> {
    ghost part = { λ s. pac_line (table_view s.sink.now) };

    #[tactic(auto, using(crate::proofs::Growing::goes, crate::proofs::Growing::stops), unfolding(crate::specs::Document::pac_line))]
    fn put(&self, text: &mut Octets, value: &Value) -> Result<(), TomlFault>
        ensures { Grows (pac_line (table_view self.now.sink.now) (view value.now)) text.old text.new result }
    {
        let fields = [
            Field::Text("codec"),
            Field::Text("caps"),
            Field::Text("meta"),
        ];
        let Some(pac) = table_with(value, &fields, &[]) else {
            return Err(TomlFault::BadDocument);
        };
        put(text, b"pac")?;
        put_sink_number(text, self.sink)?;
        put_words(text, pac, &fields)?;
        put(text, b"\n")
    }
}

/// The text `locations` of a sink.
#[derive(Clone, Copy)]
pub(crate) struct LocateLine<'t> {
    sink: &'t Table,
}

impl<'t> Part for LocateLine<'t> {
    ghost part = { λ s. locate_line (table_view s.sink.now) };

    #[tactic(auto, using(crate::proofs::Growing::goes, crate::proofs::Growing::stops))]
    fn put(&self, text: &mut Octets, value: &Value) -> Result<(), TomlFault>
        ensures { Grows (locate_line (table_view self.now.sink.now) (view value.now)) text.old text.new result }
    {
        put(text, b"locate")?;
        put_sink_number(text, self.sink)?;
        TextWord.put(text, value)?;
        put(text, b"\n")
    }
}

/// Puts two texts, each behind a space.
#[tactic(auto, using(crate::proofs::Growing::goes, crate::proofs::Growing::stops))]
fn put_two(text: &mut Octets, values: &[Value]) -> Result<(), TomlFault>
    ensures { Grows (two_texts (Some (items_view values.now))) text.old text.new result }
{
    if values.len() != 2 {
        return Err(TomlFault::BadDocument);
    }
    TextWord.put(text, &values[0])?;
    TextWord.put(text, &values[1])
}

/// The array `contexts` of a sink.
#[derive(Clone, Copy)]
pub(crate) struct ContextLine<'t> {
    sink: &'t Table,
}

impl<'t> Part for ContextLine<'t> {
    ghost part = { λ s. context_line (table_view s.sink.now) };

    #[tactic(auto, using(crate::proofs::Growing::goes, crate::proofs::Growing::stops))]
    fn put(&self, text: &mut Octets, value: &Value) -> Result<(), TomlFault>
        ensures { Grows (context_line (table_view self.now.sink.now) (view value.now)) text.old text.new result }
    {
        let Some(contexts) = value.as_array() else {
            return Err(TomlFault::BadDocument);
        };
        put(text, b"context")?;
        put_sink_number(text, self.sink)?;
        put_two(text, contexts.as_slice())?;
        put(text, b"\n")
    }
}

/// A table of `sinks`.
#[derive(Clone, Copy)]
pub(crate) struct SinkLines;

impl Part for SinkLines {
    ghost part = { λ _. sink_lines };

    #[tactic(auto, using(crate::proofs::Growing::goes, crate::proofs::Growing::stops), unfolding(crate::specs::Document::sink_lines))]
    fn put(&self, text: &mut Octets, value: &Value) -> Result<(), TomlFault>
        ensures { Grows (sink_lines (view value.now)) text.old text.new result }
    {
        let fields = [
            Field::Number("number"),
            Field::Number("streams"),
            Field::Number("slots"),
        ];
        let others = ["mtu", "pacs", "locations", "contexts"];
        let Some(sink) = table_with(value, &fields, &others) else {
            return Err(TomlFault::BadDocument);
        };
        put_sink(text, sink, &fields)?;
        put_given(
            text,
            sink,
            "pacs",
            &Rows {
                each: PacLine { sink },
            },
        )?;
        put_given(text, sink, "locations", &LocateLine { sink })?;
        put_given(text, sink, "contexts", &ContextLine { sink })
    }
}

/// Puts the line `sink` of a sink, with its MTU where it is there.
#[tactic(auto, using(crate::proofs::Growing::goes, crate::proofs::Growing::stops))]
fn put_sink(text: &mut Octets, sink: &Table, fields: &[Field<'_>]) -> Result<(), TomlFault>
    ensures { Grows (sink_line (map field_of fields.now) (table_view sink.now)) text.old text.new result }
{
    put(text, b"sink")?;
    put_sink_words(text, sink, fields)?;
    put(text, b"\n")
}

/// Puts the words of a sink.
#[tactic(auto, using(crate::proofs::Growing::goes, crate::proofs::Growing::stops))]
fn put_sink_words(text: &mut Octets, sink: &Table, fields: &[Field<'_>]) -> Result<(), TomlFault>
    ensures { Grows (sink_words (map field_of fields.now) (table_view sink.now)) text.old text.new result }
{
    put_words(text, sink, fields)?;
    put_given(text, sink, "mtu", &NumberWord)
}
