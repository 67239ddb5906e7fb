//! The lines that each scenario needs, behind their first words. Misfit and BadLine have the number of the
//! first word that doesn't fit its place or is missing. Memory is wanted only where a word spells octets.
ghost use Rattle.std.specs.Prelude.{◌≡◌, ◌≤◌, true, Err};
ghost use Rattle.scenario_words.specs.declared.fault.LineFault.TheVariants.{Memory as NoMemory};
ghost use Rattle.scenario_words.specs.Reading.{GivesNext, ReadsNext};
ghost use Rattle.scenario_lines.specs.Taking.{some_takes};
ghost use Rattle.scenario_text.specs.Steps.{at_row};
ghost use Rattle.scenario_text.specs.Table.{most_slots as slots_in, group_row, sink_row, tuned_row};
ghost use Rattle.scenario_text.specs.Table.{unit_row, hear_row, air_row, inject_row, sniff_row};

use bcast_base::Octets;
use scenario_text::Step;
use scenario_words::{Cursor, LineFault, Misfit};
use std::alloc::Global;

/// `group`: the framing, times in µs, and the numbers of the BIGInfo. Else Misfit.
pub fn group(words: &mut Cursor<'_>) -> Result<Step, Misfit>
    ensures { ReadsNext (λ step. step) result words.new (at_row group_row words.old) }
{
    Ok(Step::Group {
        framing: words.framing()?,
        origin: words.number(3_000, 1 << 48)?,
        delay: words.bits(24)?,
        iso: words.bits(12)? as u16,
        sdu: words.bits(20)?,
        max_sdu: words.bits(12)? as u16,
        max_pdu: words.octet(0, 255)?,
        num_bis: words.octet(0, 31)?,
        bn: words.octet(0, 7)?,
        nse: words.octet(0, 31)?,
        irc: words.octet(0, 15)?,
        pto: words.octet(0, 15)?,
        sub: words.bits(20)?,
        spacing: words.bits(20)?,
        phy: words.octet(0, 7)?,
    })
}

/// The most receive states of a sink.
fn most_slots(version: u8) -> u8
    ensures same { result ≡ slots_in version }
    ensures some { result ≤ 8 }
{
    if version == 2 { 8 } else { 4 }
}

/// `sink N STREAMS SLOTS MTU`: up to 4 slots in version 1 and 8 in version 2, and an ATT_MTU in octets or none. Else Misfit.
pub fn sink(version: u8, words: &mut Cursor<'_>) -> Result<Step, Misfit>
    ensures { ReadsNext (λ step. step) result words.new (at_row (sink_row version) words.old) }
{
    Ok(Step::Sink {
        sink: words.octet(0, 7)?,
        streams: words.octet(1, 31)?,
        slots: words.octet(1, most_slots(version))?,
        mtu: words.perhaps(23, 517)?,
    })
}

/// `tuned N B ..`: the sink is synchronized to these streams, by rising index. Else Misfit.
pub fn tuned(words: &mut Cursor<'_>) -> Result<Step, Misfit>
    ensures { ReadsNext (λ step. step) result words.new (at_row tuned_row words.old) }
{
    Ok(Step::Tuned {
        sink: words.octet(0, 7)?,
        which: words.rising()?,
    })
}

/// `unit B TIME OCTETS`: a time in µs or none, and at most 4,095 octets, read into `spare`. Else BadLine, or Memory.
#[tactic(auto, using(crate::proofs::Taking::next_spells, crate::proofs::Taking::some_left))]
pub fn unit(alloc: Global, spare: &mut Octets, words: &mut Cursor<'_>) -> Result<Step, LineFault>
    ensures gives { GivesNext (λ step. step) result words.new (at_row unit_row words.old) }
    ensures memory { result ≡ Err NoMemory → some_takes unit_row.places words.old ≡ true }
{
    Ok(Step::Unit {
        bis: words.bis(1)?,
        time: words.time()?,
        octets: words.octets_over(alloc, spare, 4_095)?,
    })
}

/// `hear N BACK B SUBEVENT`: the sink hears the PDU at this place. Else Misfit.
pub fn hear(words: &mut Cursor<'_>) -> Result<Step, Misfit>
    ensures { ReadsNext (λ step. step) result words.new (at_row hear_row words.old) }
{
    Ok(Step::Hear {
        sink: words.octet(0, 7)?,
        back: words.octet(0, 31)?,
        bis: words.bis(1)?,
        subevent: words.octet(0, 30)?,
    })
}

/// `air N LOSE`: the sink hears all PDUs of the last event but the lost ones. Else Misfit.
pub fn air(words: &mut Cursor<'_>) -> Result<Step, Misfit>
    ensures { ReadsNext (λ step. step) result words.new (at_row air_row words.old) }
{
    Ok(Step::Air {
        sink: words.octet(0, 7)?,
        lose: words.octet(0, 255)?,
    })
}

/// `inject N BACK B SUBEVENT OCTETS`: the sink hears at most 300 octets at this place. Else BadLine, or Memory.
#[tactic(auto, using(crate::proofs::Taking::next_spells, crate::proofs::Taking::some_left))]
pub fn inject(alloc: Global, words: &mut Cursor<'_>) -> Result<Step, LineFault>
    ensures gives { GivesNext (λ step. step) result words.new (at_row inject_row words.old) }
    ensures memory { result ≡ Err NoMemory → some_takes inject_row.places words.old ≡ true }
{
    Ok(Step::Inject {
        sink: words.octet(0, 7)?,
        back: words.octet(0, 31)?,
        bis: words.bis(1)?,
        subevent: words.octet(0, 30)?,
        octets: words.octets(alloc, 300)?,
    })
}

/// `sniff BACK B SUBEVENT`: the PDU at this place is shown. Else Misfit.
pub fn sniff(words: &mut Cursor<'_>) -> Result<Step, Misfit>
    ensures { ReadsNext (λ step. step) result words.new (at_row sniff_row words.old) }
{
    Ok(Step::Sniff {
        back: words.octet(0, 31)?,
        bis: words.bis(1)?,
        subevent: words.octet(0, 30)?,
    })
}
