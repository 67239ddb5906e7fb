//! The lines of a sink and of its first link, behind their first words. Misfit and BadLine have the number of the
//! first word that doesn't fit its place or is missing. Memory is wanted only where a word spells octets or begins a pair.
ghost use Rattle.std.specs.Prelude.{◌≡◌, true, Err};
ghost use Rattle.scenario_words.specs.declared.fault.LineFault.TheVariants.{Memory as NoMemory};
ghost use Rattle.scenario_words.specs.Reading.{GivesNext, ReadsNext};
ghost use Rattle.scenario_lines.specs.Taking.{some_takes};
ghost use Rattle.scenario_text.specs.Steps.{at_row};
ghost use Rattle.scenario_text.specs.Table.{pac_row, locate_row, context_row, write_row, add_row};
ghost use Rattle.scenario_text.specs.Table.{modify_row, remove_row, code_row};
ghost use Rattle.scenario_text.specs.Table.{control_row, forge_row};

use bass_operations::{AddSource, ModifySource};
use scenario_text::{BEFORE_ADD, BEFORE_MODIFY, MOST_OF_OPERATION, Step};
use scenario_words::{Cursor, LineFault, Misfit};
use std::alloc::Global;

/// `pac N CODEC CAPS META`: a PAC record, with two LTV lists of at most 255 octets. Else BadLine, or Memory.
#[tactic(auto, using(crate::proofs::Taking::next_spells, crate::proofs::Taking::some_left))]
pub fn pac(alloc: Global, words: &mut Cursor<'_>) -> Result<Step, LineFault>
    ensures gives { GivesNext (λ step. step) result words.new (at_row pac_row words.old) }
    ensures memory { result ≡ Err NoMemory → some_takes pac_row.places words.old ≡ true }
{
    Ok(Step::Pac {
        sink: words.octet(0, 7)?,
        codec: words.array()?,
        caps: words.list(alloc, 255)?,
        metadata: words.list(alloc, 255)?,
    })
}

/// `locate N BITS`: the locations of the sink. Else Misfit.
pub fn locate(words: &mut Cursor<'_>) -> Result<Step, Misfit>
    ensures { ReadsNext (λ step. step) result words.new (at_row locate_row words.old) }
{
    Ok(Step::Locate {
        sink: words.octet(0, 7)?,
        bits: words.four_octets()?,
    })
}

/// `context N SINK SOURCE`: the audio contexts of the sink. Else Misfit.
pub fn context(words: &mut Cursor<'_>) -> Result<Step, Misfit>
    ensures { ReadsNext (λ step. step) result words.new (at_row context_row words.old) }
{
    Ok(Step::Context {
        sink: words.octet(0, 7)?,
        sink_bits: words.two_octets()?,
        source_bits: words.two_octets()?,
    })
}

/// `write N OCTETS`: at most 512 octets wait as the last write of link 0. Else BadLine, or Memory.
#[tactic(auto, using(crate::proofs::Taking::next_spells, crate::proofs::Taking::some_left))]
pub fn write(alloc: Global, words: &mut Cursor<'_>) -> Result<Step, LineFault>
    ensures gives { GivesNext (λ step. step) result words.new (at_row write_row words.old) }
    ensures memory { result ≡ Err NoMemory → some_takes write_row.places words.old ≡ true }
{
    Ok(Step::Write {
        sink: words.octet(0, 7)?,
        octets: words.octets(alloc, 512)?,
    })
}

/// `add`: an Add Source waits as the last write of link 0, with at most 512 octets. Else BadLine, or Memory.
#[tactic(auto, using(crate::proofs::Taking::next_spells, crate::proofs::Taking::some_left))]
pub fn add(alloc: Global, words: &mut Cursor<'_>) -> Result<Step, LineFault>
    ensures gives { GivesNext (λ step. step) result words.new (at_row add_row words.old) }
    ensures memory { result ≡ Err NoMemory → some_takes add_row.places words.old ≡ true }
{
    let sink = words.octet(0, 7)?;
    let op = AddSource {
        address_type: words.octet(0, 1)?,
        address: words.array()?,
        sid: words.octet(0, 15)?,
        broadcast_id: words.array()?,
        pa_sync: words.octet(0, 2)?,
        pa_interval: words.number(0, 65_535)? as u16,
        wishes: words.wishes(alloc, MOST_OF_OPERATION - BEFORE_ADD)?,
    };
    Ok(Step::Add { sink, op })
}

/// `modify`: a Modify Source waits as the last write of link 0, with at most 512 octets. Else BadLine, or Memory.
#[tactic(auto, using(crate::proofs::Taking::next_spells, crate::proofs::Taking::some_left))]
pub fn modify(alloc: Global, words: &mut Cursor<'_>) -> Result<Step, LineFault>
    ensures gives { GivesNext (λ step. step) result words.new (at_row modify_row words.old) }
    ensures memory { result ≡ Err NoMemory → some_takes modify_row.places words.old ≡ true }
{
    let sink = words.octet(0, 7)?;
    let op = ModifySource {
        source_id: words.octet(0, 255)?,
        pa_sync: words.octet(0, 2)?,
        pa_interval: words.number(0, 65_535)? as u16,
        wishes: words.wishes(alloc, MOST_OF_OPERATION - BEFORE_MODIFY)?,
    };
    Ok(Step::Modify { sink, op })
}

/// `remove N ID`: a Remove Source waits as the last write of link 0. Else Misfit.
pub fn remove(words: &mut Cursor<'_>) -> Result<Step, Misfit>
    ensures { ReadsNext (λ step. step) result words.new (at_row remove_row words.old) }
{
    Ok(Step::Remove {
        sink: words.octet(0, 7)?,
        source_id: words.octet(0, 255)?,
    })
}

/// `code N ID CODE`: a Set Broadcast_Code waits as the last write of link 0. Else Misfit.
pub fn code(words: &mut Cursor<'_>) -> Result<Step, Misfit>
    ensures { ReadsNext (λ step. step) result words.new (at_row code_row words.old) }
{
    Ok(Step::Code {
        sink: words.octet(0, 7)?,
        source_id: words.octet(0, 255)?,
        code: words.array()?,
    })
}

/// `control N OCTETS`: the sink hears at most 300 octets as a control PDU. Else BadLine, or Memory.
#[tactic(auto, using(crate::proofs::Taking::next_spells, crate::proofs::Taking::some_left))]
pub fn control(alloc: Global, words: &mut Cursor<'_>) -> Result<Step, LineFault>
    ensures gives { GivesNext (λ step. step) result words.new (at_row control_row words.old) }
    ensures memory { result ≡ Err NoMemory → some_takes control_row.places words.old ≡ true }
{
    Ok(Step::Control {
        sink: words.octet(0, 7)?,
        octets: words.octets(alloc, 300)?,
    })
}

/// `forge N SLOT OCTETS`: link 0 gets a notice of at most 1,024 octets that the sink didn't send. Else BadLine, or Memory.
#[tactic(auto, using(crate::proofs::Taking::next_spells, crate::proofs::Taking::some_left))]
pub fn forge(alloc: Global, words: &mut Cursor<'_>) -> Result<Step, LineFault>
    ensures gives { GivesNext (λ step. step) result words.new (at_row forge_row words.old) }
    ensures memory { result ≡ Err NoMemory → some_takes forge_row.places words.old ≡ true }
{
    Ok(Step::Forge {
        sink: words.octet(0, 7)?,
        slot: words.octet(0, 255)?,
        octets: words.octets(alloc, 1_024)?,
    })
}
