//! The first words of the lines of a sink and of those of version 2 alone.
ghost use Rattle.std.specs.Prelude.{◌≡◌, ◌≢◌, Err, Result};
ghost use Rattle.scenario_words.specs.declared.fault.LineFault.{LineFault};
ghost use Rattle.scenario_words.specs.declared.fault.LineFault.TheVariants.{Memory as NoMemory};
ghost use Rattle.scenario_words.specs.Reading.{GivesNext, Left, ReadsNext};
ghost use Rattle.scenario_text.specs.declared.step.Step.{Step};
ghost use Rattle.scenario_text.specs.Steps.{at_known};
ghost use Rattle.scenario_lines.specs.Taking.{RowTakes};
ghost use Rattle.scenario_text.specs.Table.{sink_row_of, link_row_of, row_of_2, link_row_of_2};

use crate::{later_lines, sink_lines};
use scenario_text::Step;
use scenario_words::{Cursor, LineFault, Misfit, is_word};
use std::alloc::Global;

/// The step that was read without taking memory, or BadLine.
pub(crate) fn without_memory(read: Result<Step, Misfit>) -> Result<Step, LineFault>
    ensures gives { (left : Left) (row : Result (Step × Left) LineFault)
        → ReadsNext (λ step. step) read left row → GivesNext (λ step. step) result left row }
    ensures memory { result ≢ Err NoMemory }
{
    Ok(read?)
}

/// The step that the words behind this first word spell, where it is that of a line of a sink, or in version 2 that of a line
/// of version 2 alone. BadLine has number 0 for any other first word, and else that of the words that fit. Memory comes only at a
/// line that spells octets for its step to keep.
#[tactic(auto, unfolding(scenario_text::specs::Table::sink_row_of))]
pub fn named_of_sink(
    alloc: Global,
    version: u8,
    name: &[u8],
    words: &mut Cursor<'_>,
) -> Result<Step, LineFault>
    ensures gives { GivesNext (λ step. step) result words.new (at_known (sink_row_of version name.now) words.old) }
    ensures memory { result ≡ Err NoMemory → RowTakes (sink_row_of version name.now) words.old }
{
    if is_word(name, b"pac") {
        return sink_lines::pac(alloc, words);
    }
    if is_word(name, b"locate") {
        return without_memory(sink_lines::locate(words));
    }
    if is_word(name, b"context") {
        return without_memory(sink_lines::context(words));
    }
    if is_word(name, b"write") {
        return sink_lines::write(alloc, words);
    }
    if is_word(name, b"add") {
        return sink_lines::add(alloc, words);
    }
    if is_word(name, b"modify") {
        return sink_lines::modify(alloc, words);
    }
    if is_word(name, b"remove") {
        return without_memory(sink_lines::remove(words));
    }
    if is_word(name, b"code") {
        return without_memory(sink_lines::code(words));
    }
    named_of_link(alloc, version, name, words)
}

/// The step where the first word is that of a line of a sink's first link or of its end, or a later one.
#[tactic(auto, unfolding(scenario_text::specs::Table::link_row_of))]
fn named_of_link(
    alloc: Global,
    version: u8,
    name: &[u8],
    words: &mut Cursor<'_>,
) -> Result<Step, LineFault>
    ensures gives { GivesNext (λ step. step) result words.new (at_known (link_row_of version name.now) words.old) }
    ensures memory { result ≡ Err NoMemory → RowTakes (link_row_of version name.now) words.old }
{
    if is_word(name, b"serve") {
        let sink = words.octet(0, 7)?;
        return Ok(Step::Serve { sink });
    }
    if is_word(name, b"tell") {
        let sink = words.octet(0, 7)?;
        return Ok(Step::Tell { sink });
    }
    if is_word(name, b"read") {
        let sink = words.octet(0, 7)?;
        return Ok(Step::Read { sink });
    }
    if is_word(name, b"drain") {
        let sink = words.octet(0, 7)?;
        return Ok(Step::Drain { sink });
    }
    if is_word(name, b"show") {
        let sink = words.octet(0, 7)?;
        return Ok(Step::Show { sink });
    }
    if is_word(name, b"lose") {
        let sink = words.octet(0, 7)?;
        return Ok(Step::Lose { sink });
    }
    if is_word(name, b"control") {
        return sink_lines::control(alloc, words);
    }
    if is_word(name, b"forge") {
        return sink_lines::forge(alloc, words);
    }
    named_of_2(alloc, version, name, words)
}

/// The step where the first word is that of a line of version 2 alone.
#[tactic(auto, unfolding(scenario_text::specs::Table::row_of_2))]
fn named_of_2(
    alloc: Global,
    version: u8,
    name: &[u8],
    words: &mut Cursor<'_>,
) -> Result<Step, LineFault>
    ensures gives { GivesNext (λ step. step) result words.new (at_known (row_of_2 version name.now) words.old) }
    ensures memory { result ≡ Err NoMemory → RowTakes (row_of_2 version name.now) words.old }
{
    if version != 2 {
        return Err(LineFault::BadLine { word: 0 });
    }
    if is_word(name, b"assist") {
        let (sink, link) = later_lines::sink_and_link(words)?;
        return Ok(Step::Assist { sink, link });
    }
    if is_word(name, b"apart") {
        return without_memory(later_lines::apart(words));
    }
    if is_word(name, b"awrite") {
        return later_lines::awrite(alloc, words);
    }
    if is_word(name, b"source") {
        let source = words.octet(0, 1)?;
        return Ok(Step::Source { source });
    }
    if is_word(name, b"relay") {
        return without_memory(later_lines::relay(words));
    }
    without_memory(named_of_link_2(name, words))
}

/// The step where the first word is that of a line of any link, all of which are of version 2.
#[tactic(auto, unfolding(scenario_text::specs::Table::link_row_of_2))]
fn named_of_link_2(name: &[u8], words: &mut Cursor<'_>) -> Result<Step, Misfit>
    ensures { ReadsNext (λ step. step) result words.new (at_known (link_row_of_2 name.now) words.old) }
{
    if is_word(name, b"aserve") {
        let (sink, link) = later_lines::sink_and_link(words)?;
        return Ok(Step::AServe { sink, link });
    }
    if is_word(name, b"atell") {
        let (sink, link) = later_lines::sink_and_link(words)?;
        return Ok(Step::ATell { sink, link });
    }
    if is_word(name, b"aread") {
        let (sink, link) = later_lines::sink_and_link(words)?;
        return Ok(Step::ARead { sink, link });
    }
    if is_word(name, b"adrain") {
        let (sink, link) = later_lines::sink_and_link(words)?;
        return Ok(Step::ADrain { sink, link });
    }
    if is_word(name, b"ashow") {
        let (sink, link) = later_lines::sink_and_link(words)?;
        return Ok(Step::AShow { sink, link });
    }
    Err(Misfit { word: 0 })
}
