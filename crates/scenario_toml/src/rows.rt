ghost use Rattle.std.specs.Prelude.{◌≡◌, ◌==◌};
ghost use Rattle.std.specs.List.{list_any};
ghost use Rattle.bcast_io.specs.TextLines.{newline};
ghost use Rattle.toml.specs.View.{view};
ghost use Rattle.scenario_toml.specs.Document.{group_line, ident_line, bis_line, meta_line, subgroup_lines, step_line};
ghost use Rattle.scenario_toml.specs.State.Growth.{Grows};

use crate::fault::TomlFault;
use crate::fields::{Field, put_line};
use crate::parts::{Part, Rows, put, put_given};
use crate::tables::table_with;
use crate::words::TextWord;
use bcast_base::Octets;
use toml::Value;

/// The table `group`.
#[derive(Clone, Copy)]
pub(crate) struct GroupLine;

impl Part for GroupLine {
    ghost part = { λ _. group_line };

    #[tactic(auto, using(crate::proofs::Growing::goes, crate::proofs::Growing::stops), unfolding(crate::specs::Document::group_line))]
    fn put(&self, text: &mut Octets, value: &Value) -> Result<(), TomlFault>
        ensures { Grows (group_line (view value.now)) text.old text.new result }
    {
        let fields = [
            Field::Text("framing"),
            Field::Number("origin"),
            Field::Number("delay"),
            Field::Number("iso"),
            Field::Number("sdu"),
            Field::Number("max_sdu"),
            Field::Number("max_pdu"),
            Field::Number("num_bis"),
            Field::Number("bn"),
            Field::Number("nse"),
            Field::Number("irc"),
            Field::Number("pto"),
            Field::Number("sub"),
            Field::Number("spacing"),
            Field::Number("phy"),
        ];
        let Some(group) = table_with(value, &fields, &[]) else {
            return Err(TomlFault::BadDocument);
        };
        put_line(text, b"group", group, &fields)
    }
}

/// The table `ident`.
#[derive(Clone, Copy)]
pub(crate) struct IdentLine;

impl Part for IdentLine {
    ghost part = { λ _. ident_line };

    #[tactic(auto, using(crate::proofs::Growing::goes, crate::proofs::Growing::stops), unfolding(crate::specs::Document::ident_line))]
    fn put(&self, text: &mut Octets, value: &Value) -> Result<(), TomlFault>
        ensures { Grows (ident_line (view value.now)) text.old text.new result }
    {
        let fields = [
            Field::Number("type"),
            Field::Text("address"),
            Field::Number("sid"),
            Field::Text("id"),
        ];
        let Some(ident) = table_with(value, &fields, &[]) else {
            return Err(TomlFault::BadDocument);
        };
        put_line(text, b"ident", ident, &fields)
    }
}

/// A table of `bis`.
#[derive(Clone, Copy)]
pub(crate) struct BisLine;

impl Part for BisLine {
    ghost part = { λ _. bis_line };

    #[tactic(auto, using(crate::proofs::Growing::goes, crate::proofs::Growing::stops), unfolding(crate::specs::Document::bis_line))]
    fn put(&self, text: &mut Octets, value: &Value) -> Result<(), TomlFault>
        ensures { Grows (bis_line (view value.now)) text.old text.new result }
    {
        let fields = [Field::Number("index"), Field::Text("config")];
        let Some(bis) = table_with(value, &fields, &[]) else {
            return Err(TomlFault::BadDocument);
        };
        put_line(text, b"bis", bis, &fields)
    }
}

/// The text `meta` of a subgroup.
#[derive(Clone, Copy)]
pub(crate) struct MetaLine;

impl Part for MetaLine {
    ghost part = { λ _. meta_line };

    #[tactic(auto, using(crate::proofs::Growing::goes, crate::proofs::Growing::stops))]
    fn put(&self, text: &mut Octets, value: &Value) -> Result<(), TomlFault>
        ensures { Grows (meta_line (view value.now)) text.old text.new result }
    {
        put(text, b"meta")?;
        TextWord.put(text, value)?;
        put(text, b"\n")
    }
}

/// A table of `subgroups`.
#[derive(Clone, Copy)]
pub(crate) struct SubgroupLines;

impl Part for SubgroupLines {
    ghost part = { λ _. subgroup_lines };

    #[tactic(auto, using(crate::proofs::Growing::goes, crate::proofs::Growing::stops), unfolding(crate::specs::Document::subgroup_lines))]
    fn put(&self, text: &mut Octets, value: &Value) -> Result<(), TomlFault>
        ensures { Grows (subgroup_lines (view value.now)) text.old text.new result }
    {
        let fields = [Field::Text("codec"), Field::Text("config")];
        let Some(subgroup) = table_with(value, &fields, &["meta", "bis"]) else {
            return Err(TomlFault::BadDocument);
        };
        put_line(text, b"subgroup", subgroup, &fields)?;
        put_given(text, subgroup, "meta", &MetaLine)?;
        put_given(text, subgroup, "bis", &Rows { each: BisLine })
    }
}

/// A text of `steps`.
#[derive(Clone, Copy)]
pub(crate) struct StepLine;

impl Part for StepLine {
    ghost part = { λ _. step_line };

    #[tactic(auto, using(crate::proofs::Growing::goes, crate::proofs::Growing::stops), unfolding(crate::specs::Document::step_line))]
    fn put(&self, text: &mut Octets, value: &Value) -> Result<(), TomlFault>
        ensures { Grows (step_line (view value.now)) text.old text.new result }
    {
        let Some(step) = value.as_str() else {
            return Err(TomlFault::BadDocument);
        };
        if ends_a_line(step.as_bytes()) {
            return Err(TomlFault::BadDocument);
        }
        put(text, step.as_bytes())?;
        put(text, b"\n")
    }
}

/// Whether an octet among these ends a line.
fn ends_a_line(octets: &[u8]) -> bool
    ensures { result ≡ list_any (λ octet. octet == newline) octets.now }
{
    'octets: for octet in octets {
        if *octet == b'\n' {
            return true;
        }
    }
    false
}
