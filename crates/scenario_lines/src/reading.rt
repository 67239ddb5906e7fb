ghost use Rattle.std.specs.Prelude.{◌≡◌, ◌⊎◌, ℕ, IfOk, IfSome, IfNone, Ok, Err, Some, None};
ghost use Rattle.scenario_words.specs.declared.fault.LineFault.TheVariants.{BadLine, Memory as NoMemory};
ghost use Rattle.scenario_words.specs.Reading.{Gives, GivesNext};
ghost use Rattle.scenario_text.specs.Ranges.{IsInRange};
ghost use Rattle.scenario_text.specs.Table.{row_of, first_row_of, source_row_of};
ghost use Rattle.scenario_text.specs.Lines.{LineIs, IsBlank};
ghost use Rattle.scenario_text.specs.Steps.{at_known, step_of as step_in, read_of};
ghost use Rattle.scenario_text.specs.Misfits.{IsMisfit};
ghost use Rattle.scenario_lines.specs.Taking.{LineTakes, RowTakes};
ghost use Rattle.scenario_text.specs.declared.step.Step.{Step};

use crate::names::without_memory;
use crate::{first_lines, named_of_sink, source_lines};
use bcast_base::Octets;
use scenario_text::Step;
use scenario_words::{Cursor, LineFault, is_word};
use std::alloc::Global;

/// Reads a line of a scenario of version 1: `None` for an empty line or a comment.
pub fn read_line(alloc: Global, line: &[u8]) -> Result<Option<Step>, LineFault>
    ensures in_range { IfOk result (λ read. IfSome read IsInRange) }
    // A step that is read is the one that the line says.
    ensures found { IfOk result (λ read. IfSome read (λ step. LineIs 1 step line.now)) }
    // A step that the line says is read, unless memory runs out.
    ensures only { (step : Step) → LineIs 1 step line.now → Gives (λ read. read) result (Ok (Some step)) }
    // None comes exactly for an empty line or a comment.
    ensures blank { IsBlank line.now → result ≡ Ok None }
    ensures none { IfOk result (λ read. IfNone read (IsBlank line.now)) }
    // The number of a fault is that of the words that fit.
    ensures misfit { (k : ℕ) → result ≡ Err (BadLine k) → IsMisfit 1 line.now k }
    // What it answers is what the line reads as.
    ensures reads { Gives (λ read. read) result (read_of 1 line.now) }
    // Memory runs out only at a line that spells octets for its step to keep.
    ensures memory { result ≡ Err NoMemory → LineTakes 1 line.now }
{
    read_line_in(alloc, 1, line)
}

/// Reads a line of a scenario of this version: `None` for an empty line or a comment.
pub fn read_line_in(alloc: Global, version: u8, line: &[u8]) -> Result<Option<Step>, LineFault>
    requires { (version ≡ 1) ⊎ (version ≡ 2) }
    ensures in_range { IfOk result (λ read. IfSome read IsInRange) }
    // A step that is read is the one that the line says.
    ensures found { IfOk result (λ read. IfSome read (λ step. LineIs version step line.now)) }
    // A step that the line says is read, unless memory runs out.
    ensures only { (step : Step) → LineIs version step line.now → Gives (λ read. read) result (Ok (Some step)) }
    // None comes exactly for an empty line or a comment.
    ensures blank { IsBlank line.now → result ≡ Ok None }
    ensures none { IfOk result (λ read. IfNone read (IsBlank line.now)) }
    // The number of a fault is that of the words that fit.
    ensures misfit { (k : ℕ) → result ≡ Err (BadLine k) → IsMisfit version line.now k }
    // What it answers is what the line reads as.
    ensures reads { Gives (λ read. read) result (read_of version line.now) }
    // Memory runs out only at a line that spells octets for its step to keep.
    ensures memory { result ≡ Err NoMemory → LineTakes version line.now }
{
    let mut spare = Octets::new(alloc);
    read_line_over(alloc, &mut spare, version, line)
}

/// Reads a line as `read_line_in` does. The octets of a unit are read into the memory of `spare`, which is given away with them.
pub fn read_line_over(
    alloc: Global,
    spare: &mut Octets,
    version: u8,
    line: &[u8],
) -> Result<Option<Step>, LineFault>
    requires { (version ≡ 1) ⊎ (version ≡ 2) }
    ensures in_range { IfOk result (λ read. IfSome read IsInRange) }
    ensures found { IfOk result (λ read. IfSome read (λ step. LineIs version step line.now)) }
    ensures only { (step : Step) → LineIs version step line.now → Gives (λ read. read) result (Ok (Some step)) }
    ensures blank { IsBlank line.now → result ≡ Ok None }
    ensures none { IfOk result (λ read. IfNone read (IsBlank line.now)) }
    ensures misfit { (k : ℕ) → result ≡ Err (BadLine k) → IsMisfit version line.now k }
    ensures reads { Gives (λ read. read) result (read_of version line.now) }
    ensures memory { result ≡ Err NoMemory → LineTakes version line.now }
{
    read(alloc, spare, version, line)
}

/// What the line reads as.
#[tactic(auto, unfolding(scenario_text::specs::Steps::read_of))]
fn read(
    alloc: Global,
    spare: &mut Octets,
    version: u8,
    line: &[u8],
) -> Result<Option<Step>, LineFault>
    ensures blank { IsBlank line.now → result ≡ Ok None }
    ensures reads { Gives (λ read. read) result (read_of version line.now) }
    ensures memory { result ≡ Err NoMemory → LineTakes version line.now }
{
    match line.first() {
        None => Ok(None),
        Some(b'#') => Ok(None),
        Some(_) => Ok(Some(step_of(alloc, spare, version, line)?)),
    }
}

/// The step of a line that is neither empty nor a comment.
#[tactic(auto, unfolding(scenario_text::specs::Steps::step_of))]
fn step_of(alloc: Global, spare: &mut Octets, version: u8, line: &[u8]) -> Result<Step, LineFault>
    ensures gives { Gives (λ step. step) result (step_in version line.now) }
    ensures memory { result ≡ Err NoMemory → LineTakes version line.now }
{
    let mut words = Cursor::new(line);
    let name = words.word()?;
    let step = named(alloc, spare, version, name, &mut words)?;
    words.finish()?;
    Ok(step)
}

/// The step that the words after this first word spell.
#[tactic(auto, unfolding(scenario_text::specs::Table::row_of))]
fn named(
    alloc: Global,
    spare: &mut Octets,
    version: u8,
    name: &[u8],
    words: &mut Cursor<'_>,
) -> Result<Step, LineFault>
    ensures gives { GivesNext (λ step. step) result words.new (at_known (row_of version name.now) words.old) }
    ensures memory { result ≡ Err NoMemory → RowTakes (row_of version name.now) words.old }
{
    if is_word(name, b"unit") {
        return first_lines::unit(alloc, spare, words);
    }
    if is_word(name, b"event") {
        return Ok(Step::Event);
    }
    if is_word(name, b"hear") {
        return without_memory(first_lines::hear(words));
    }
    if is_word(name, b"air") {
        return without_memory(first_lines::air(words));
    }
    if is_word(name, b"inject") {
        return first_lines::inject(alloc, words);
    }
    if is_word(name, b"sniff") {
        return without_memory(first_lines::sniff(words));
    }
    named_of_first(alloc, version, name, words)
}

/// The step where the first word is that of a line that begins or ends something, or a later one.
#[tactic(auto, unfolding(scenario_text::specs::Table::first_row_of))]
fn named_of_first(
    alloc: Global,
    version: u8,
    name: &[u8],
    words: &mut Cursor<'_>,
) -> Result<Step, LineFault>
    ensures gives { GivesNext (λ step. step) result words.new (at_known (first_row_of version name.now) words.old) }
    ensures memory { result ≡ Err NoMemory → RowTakes (first_row_of version name.now) words.old }
{
    if is_word(name, b"scenario") {
        let version = words.octet(1, 2)?;
        return Ok(Step::Scenario { version });
    }
    if is_word(name, b"group") {
        return without_memory(first_lines::group(words));
    }
    if is_word(name, b"start") {
        let first = words.number(0, 549_755_813_887)?;
        return Ok(Step::Start { first });
    }
    if is_word(name, b"sink") {
        return without_memory(first_lines::sink(version, words));
    }
    if is_word(name, b"tuned") {
        return without_memory(first_lines::tuned(words));
    }
    if is_word(name, b"drop") {
        let sink = words.octet(0, 7)?;
        return Ok(Step::Drop { sink });
    }
    if is_word(name, b"stop") {
        return Ok(Step::Stop);
    }
    if is_word(name, b"end") {
        return Ok(Step::End);
    }
    named_of_source(alloc, version, name, words)
}

/// The step where the first word is that of a line of a source, or a later one.
#[tactic(auto, unfolding(scenario_text::specs::Table::source_row_of))]
fn named_of_source(
    alloc: Global,
    version: u8,
    name: &[u8],
    words: &mut Cursor<'_>,
) -> Result<Step, LineFault>
    ensures gives { GivesNext (λ step. step) result words.new (at_known (source_row_of version name.now) words.old) }
    ensures memory { result ≡ Err NoMemory → RowTakes (source_row_of version name.now) words.old }
{
    if is_word(name, b"ident") {
        return without_memory(source_lines::ident(words));
    }
    if is_word(name, b"subgroup") {
        return source_lines::subgroup(alloc, words);
    }
    if is_word(name, b"meta") {
        return source_lines::meta(alloc, words);
    }
    if is_word(name, b"bis") {
        return source_lines::bis(alloc, words);
    }
    if is_word(name, b"cipher") {
        return without_memory(source_lines::cipher(words));
    }
    if is_word(name, b"announce") {
        let sink = words.octet(0, 7)?;
        return Ok(Step::Announce { sink });
    }
    if is_word(name, b"train") {
        return source_lines::train(alloc, words);
    }
    if is_word(name, b"terminate") {
        let reason = words.octet(0, 255)?;
        return Ok(Step::Terminate { reason });
    }
    named_of_sink(alloc, version, name, words)
}
