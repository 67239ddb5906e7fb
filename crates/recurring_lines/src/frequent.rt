//! The lines of units and events, read without a whole step.
ghost use Rattle.std.specs.Prelude.{◌≡◌, ◌++◌, ℕ, List, true, Ok, Some, IfOk, IfSome, IsErr, codes};
ghost use Rattle.scenario_text.specs.Ranges.{IsInRange};
ghost use Rattle.scenario_text.specs.Steps.{at_row, read_of};
ghost use Rattle.scenario_text.specs.Table.{unit_row, air_row};
ghost use Rattle.recurring_lines.specs.Frequent.{frequent_step};
ghost use Rattle.scenario_lines.specs.Taking.{LineTakes, some_takes};

use bcast_base::{Bis, Memory, Octets};
use scenario_words::{Cursor, LineFault, is_word};
use std::alloc::Global;

/// What a line says of a unit or an event.
#[derive(Clone, Copy)]
pub enum Frequent {
    /// A unit of a stream, with a time in µs or none. Its octets are read apart.
    Unit { bis: Bis, time: Option<u64> },
    /// The next event.
    Event,
    /// A sink hears all PDUs of the last event but the lost ones: none where `lose` is 0, else of each `lose` PDUs the last.
    Air { sink: u8, lose: u8 },
}

/// Reads a line that says a unit, the next event or `air`, which are the same in each version. The octets of a unit take the place of
/// `spare`. For any other line, and for one that doesn't fit, the answer is None, and nothing is said of `spare`.
pub fn read_frequent(
    alloc: Global,
    spare: &mut Octets,
    line: &[u8],
) -> Result<Option<Frequent>, Memory>
    ensures in_range { IfOk result (λ found. IfSome found (λ frequent. IsInRange (frequent_step frequent spare.new))) }
    ensures reads { IfOk result (λ found. IfSome found (λ frequent. (version : ℕ)
        → read_of version line.now ≡ Ok (Some (frequent_step frequent spare.new)))) }
    // Memory runs out only at a line that spells octets for its step to keep.
    ensures memory { IsErr result → (version : ℕ) → LineTakes version line.now }
{
    if let Some(words) = behind(b"unit ", line) {
        return of_unit(alloc, spare, words);
    }
    if is_word(line, b"event") {
        return Ok(Some(Frequent::Event));
    }
    if let Some(words) = behind(b"air ", line) {
        return Ok(of_air(words));
    }
    Ok(None)
}

/// What stands behind these octets, where a line begins with them.
#[inline(always)]
pub(crate) fn behind<'a>(name: &[u8], line: &'a [u8]) -> Option<&'a [u8]>
    ensures { IfSome result (λ words. name.now ++ words.now ≡ line.now) }
{
    let count = name.len();
    if line.len() < count {
        return None;
    }
    if !is_word(&line[..count], name) {
        return None;
    }
    Some(&line[count..])
}

/// What the line of a unit says, by what stands behind its first word.
fn of_unit(alloc: Global, spare: &mut Octets, words: &[u8]) -> Result<Option<Frequent>, Memory>
    ensures gives { IfOk result (λ found. IfSome found (λ frequent. (version : ℕ)
        → read_of version (codes "unit " ++ words.now) ≡ Ok (Some (frequent_step frequent spare.new)))) }
    ensures memory { IsErr result → (version : ℕ) → LineTakes version (codes "unit " ++ words.now) }
{
    let mut words = Cursor::behind_first(words);
    let Some(frequent) = unit(alloc, spare, &mut words)? else {
        return Ok(None);
    };
    if words.has_more() {
        return Ok(None);
    }
    Ok(Some(frequent))
}

/// What the line of `air` says, by what stands behind its first word.
#[inline(always)]
fn of_air(words: &[u8]) -> Option<Frequent>
    ensures { (octets : List ℕ) → IfSome result (λ frequent. (version : ℕ)
        → read_of version (codes "air " ++ words.now) ≡ Ok (Some (frequent_step frequent octets))) }
{
    let mut words = Cursor::behind_first(words);
    let frequent = air(&mut words)?;
    if words.has_more() {
        return None;
    }
    Some(frequent)
}

/// `B TIME OCTETS` of a unit, where these words fit.
#[tactic(auto, using(scenario_lines::proofs::Taking::next_spells, scenario_lines::proofs::Taking::some_left))]
fn unit(
    alloc: Global,
    spare: &mut Octets,
    words: &mut Cursor<'_>,
) -> Result<Option<Frequent>, Memory>
    ensures gives { IfOk result (λ found. IfSome found (λ frequent.
        at_row unit_row words.old ≡ Ok (frequent_step frequent spare.new, words.new))) }
    ensures memory { IsErr result → some_takes unit_row.places words.old ≡ true }
{
    let Ok(bis) = words.bis(1) else {
        return Ok(None);
    };
    let Ok(time) = words.time() else {
        return Ok(None);
    };
    match words.octets_into(alloc, spare, 4_095) {
        Ok(()) => Ok(Some(Frequent::Unit { bis, time })),
        Err(LineFault::BadLine { word: _ }) => Ok(None),
        Err(LineFault::Memory) => Err(Memory),
    }
}

/// `N LOSE` of `air`, where these words fit.
fn air(words: &mut Cursor<'_>) -> Option<Frequent>
    ensures gives { (spare : List ℕ) → IfSome result (λ frequent.
        at_row air_row words.old ≡ Ok (frequent_step frequent spare, words.new)) }
{
    let Ok(sink) = words.octet(0, 7) else {
        return None;
    };
    let Ok(lose) = words.octet(0, 255) else {
        return None;
    };
    Some(Frequent::Air { sink, lose })
}
