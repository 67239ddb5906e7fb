//! The lines of version 2 alone, behind their first words. Misfit and BadLine have the number of the
//! first word that doesn't fit its place or is missing. Memory is wanted only where a word spells octets.
ghost use Rattle.std.specs.Prelude.{◌≡◌, true, Err};
ghost use Rattle.scenario_words.specs.declared.fault.LineFault.TheVariants.{Memory as NoMemory};
ghost use Rattle.scenario_words.specs.Reading.{GivesNext, ReadsNext};
ghost use Rattle.scenario_lines.specs.Taking.{some_takes};
ghost use Rattle.scenario_text.specs.declared.step.Step.TheVariants as steps;
ghost use Rattle.scenario_text.specs.Steps.{at_row};
ghost use Rattle.scenario_text.specs.Table.{assist_row, apart_row, awrite_row, aserve_row, atell_row};
ghost use Rattle.scenario_text.specs.Table.{aread_row, adrain_row, ashow_row, relay_row};

use scenario_text::Step;
use scenario_words::{Cursor, LineFault, Misfit};
use std::alloc::Global;

/// The words of `assist`, `aserve`, `atell`, `aread`, `adrain` and `ashow`: a sink and a link. Else Misfit.
pub fn sink_and_link(words: &mut Cursor<'_>) -> Result<(u8, u8), Misfit>
    ensures assist { ReadsNext (λ x. steps.Assist x.0 x.1) result words.new (at_row assist_row words.old) }
    ensures aserve { ReadsNext (λ x. steps.AServe x.0 x.1) result words.new (at_row aserve_row words.old) }
    ensures atell { ReadsNext (λ x. steps.ATell x.0 x.1) result words.new (at_row atell_row words.old) }
    ensures aread { ReadsNext (λ x. steps.ARead x.0 x.1) result words.new (at_row aread_row words.old) }
    ensures adrain { ReadsNext (λ x. steps.ADrain x.0 x.1) result words.new (at_row adrain_row words.old) }
    ensures ashow { ReadsNext (λ x. steps.AShow x.0 x.1) result words.new (at_row ashow_row words.old) }
{
    Ok((words.octet(0, 7)?, words.octet(0, 3)?))
}

/// `apart N L`: the assistant leaves the link, 1 to 3. Else Misfit.
pub fn apart(words: &mut Cursor<'_>) -> Result<Step, Misfit>
    ensures { ReadsNext (λ step. step) result words.new (at_row apart_row words.old) }
{
    Ok(Step::Apart {
        sink: words.octet(0, 7)?,
        link: words.octet(1, 3)?,
    })
}

/// `awrite N L OCTETS`: at most 512 octets wait as the last write of the link. Else BadLine, or Memory.
#[tactic(auto, using(crate::proofs::Taking::next_spells, crate::proofs::Taking::some_left))]
pub fn awrite(alloc: Global, words: &mut Cursor<'_>) -> Result<Step, LineFault>
    ensures gives { GivesNext (λ step. step) result words.new (at_row awrite_row words.old) }
    ensures memory { result ≡ Err NoMemory → some_takes awrite_row.places words.old ≡ true }
{
    Ok(Step::AWrite {
        sink: words.octet(0, 7)?,
        link: words.octet(0, 3)?,
        octets: words.octets(alloc, 512)?,
    })
}

/// `relay N B TO`: the sink hands the units of stream B on to stream TO of source 1. Else Misfit.
pub fn relay(words: &mut Cursor<'_>) -> Result<Step, Misfit>
    ensures { ReadsNext (λ step. step) result words.new (at_row relay_row words.old) }
{
    Ok(Step::Relay {
        sink: words.octet(0, 7)?,
        bis: words.bis(1)?,
        to: words.bis(1)?,
    })
}
