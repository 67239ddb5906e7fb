//! The lines of a source, behind their first words. Misfit and BadLine have the number of the
//! first word that doesn't fit its place or is missing. Memory is wanted only where a word spells octets.
ghost use Rattle.std.specs.Prelude.{◌≡◌, true, Err};
ghost use Rattle.scenario_words.specs.declared.fault.LineFault.TheVariants.{Memory as NoMemory};
ghost use Rattle.scenario_words.specs.Reading.{GivesNext, ReadsNext};
ghost use Rattle.scenario_lines.specs.Taking.{some_takes};
ghost use Rattle.scenario_text.specs.Steps.{at_row};
ghost use Rattle.scenario_text.specs.Table.{ident_row, subgroup_row, meta_row, bis_row, cipher_row, train_row};

use scenario_text::Step;
use scenario_words::{Cursor, LineFault, Misfit};
use std::alloc::Global;

/// `ident TYPE ADDRESS SID BROADCAST_ID`: who the source is. Else Misfit.
pub fn ident(words: &mut Cursor<'_>) -> Result<Step, Misfit>
    ensures { ReadsNext (λ step. step) result words.new (at_row ident_row words.old) }
{
    Ok(Step::Ident {
        address_type: words.octet(0, 1)?,
        address: words.array()?,
        sid: words.octet(0, 15)?,
        broadcast_id: words.array()?,
    })
}

/// `subgroup CODEC CONFIG`: a new subgroup, with an LTV list of at most 255 octets. Else BadLine, or Memory.
#[tactic(auto, using(crate::proofs::Taking::next_spells, crate::proofs::Taking::some_left))]
pub fn subgroup(alloc: Global, words: &mut Cursor<'_>) -> Result<Step, LineFault>
    ensures gives { GivesNext (λ step. step) result words.new (at_row subgroup_row words.old) }
    ensures memory { result ≡ Err NoMemory → some_takes subgroup_row.places words.old ≡ true }
{
    Ok(Step::Subgroup {
        codec: words.array()?,
        config: words.list(alloc, 255)?,
    })
}

/// `meta META`: the metadata of the last subgroup, an LTV list of at most 255 octets. Else BadLine, or Memory.
#[tactic(auto, using(crate::proofs::Taking::next_spells, crate::proofs::Taking::some_left))]
pub fn meta(alloc: Global, words: &mut Cursor<'_>) -> Result<Step, LineFault>
    ensures gives { GivesNext (λ step. step) result words.new (at_row meta_row words.old) }
    ensures memory { result ≡ Err NoMemory → some_takes meta_row.places words.old ≡ true }
{
    let metadata = words.list(alloc, 255)?;
    Ok(Step::Meta { metadata })
}

/// `bis B CONFIG`: a stream of the last subgroup, with an LTV list of at most 255 octets. Else BadLine, or Memory.
#[tactic(auto, using(crate::proofs::Taking::next_spells, crate::proofs::Taking::some_left))]
pub fn bis(alloc: Global, words: &mut Cursor<'_>) -> Result<Step, LineFault>
    ensures gives { GivesNext (λ step. step) result words.new (at_row bis_row words.old) }
    ensures memory { result ≡ Err NoMemory → some_takes bis_row.places words.old ≡ true }
{
    Ok(Step::Bis {
        bis: words.bis(1)?,
        config: words.list(alloc, 255)?,
    })
}

/// `cipher GIV GSKD`: the source is encrypted. Else Misfit.
pub fn cipher(words: &mut Cursor<'_>) -> Result<Step, Misfit>
    ensures { ReadsNext (λ step. step) result words.new (at_row cipher_row words.old) }
{
    Ok(Step::Cipher {
        giv: words.array()?,
        gskd: words.array()?,
    })
}

/// `train N TIME EXT ADV ACAD`: the sink hears at most 255, 1,650 and 255 octets at this time in µs. Else BadLine, or Memory.
#[tactic(auto, using(crate::proofs::Taking::next_spells, crate::proofs::Taking::some_left))]
pub fn train(alloc: Global, words: &mut Cursor<'_>) -> Result<Step, LineFault>
    ensures gives { GivesNext (λ step. step) result words.new (at_row train_row words.old) }
    ensures memory { result ≡ Err NoMemory → some_takes train_row.places words.old ≡ true }
{
    Ok(Step::Train {
        sink: words.octet(0, 7)?,
        time: words.number(0, 1 << 48)?,
        ext: words.octets(alloc, 255)?,
        adv: words.octets(alloc, 1_650)?,
        acad: words.octets(alloc, 255)?,
    })
}
