//! Looking through the octets of a BASE where they lie, with no memory. `whole` is all that is read, and `rest`
//! its last octets. The indices that were met are a set.
ghost use Rattle.std.specs.Prelude.{◌≡◌, ◌≤◌, ℕ, List, [], length, IfOk};
ghost use Rattle.std.specs.Result.{result_err};
ghost use Rattle.base_grammar.specs.Checking.{Seen, Passes, same_bis, entry_bis, entries_bis, subgroup_bis};
ghost use Rattle.bcast_base.specs.Tries.{Reads};
ghost use Rattle.base_grammar.specs.Reading.{index_at, entry_at, entries_at, subgroup_at, subgroups_at, rest_of, base_of};

use crate::fault::BaseFault;
use crate::fields::{count_field, delay_field, octet_field, run_field};
use crate::head::subgroup_head;
use crate::reading::MAX_OCTETS;
use bcast_base::{Bis, BisSet, place_of};

// What is wrong with octets that are no BASE.
#[tactic(auto, unfolding(crate::specs::Reading::base_of, crate::specs::Reading::fields_of))]
pub(crate) fn check_base(whole: &[u8]) -> Result<(), BaseFault>
    ensures { result_err result ≡ result_err (base_of whole.now) }
{
    if whole.len() > MAX_OCTETS {
        return Err(BaseFault::TooLong);
    }
    let (_delay, rest) = delay_field(whole)?;
    let (count, rest) = count_field(whole, rest)?;
    let rest = subgroups_end(whole, rest, count)?;
    if !rest.is_empty() {
        let place = place_of(whole, rest);
        return Err(BaseFault::Trailing { place });
    }
    Ok(())
}

// The octets behind so many subgroups.
fn subgroups_end<'a>(whole: &[u8], from: &'a [u8], count: u8) -> Result<&'a [u8], BaseFault>
    requires { length from.now ≤ length whole.now }
    ensures exact { Reads (λ rest. rest.now) result (rest_of (subgroups_at whole.now [] count from.now)) }
    ensures shorter { IfOk result (λ rest. length rest.now ≤ length from.now) }
{
    let mut seen = BisSet::new();
    let mut rest = from;
    for _ in 0..count {
        rest = subgroup_end(whole, rest, &mut seen)?;
    }
    Ok(rest)
}

// The octets behind a subgroup.
fn subgroup_end<'a>(whole: &[u8], rest: &'a [u8], seen: &mut BisSet) -> Result<&'a [u8], BaseFault>
    requires { length rest.now ≤ length whole.now }
    ensures exact { (before : List ℕ) → Seen seen.old before
        → Passes subgroup_bis before seen.new (λ left. left.now) result (subgroup_at whole.now before rest.now) }
    ensures shorter { IfOk result (λ left. length left.now ≤ length rest.now) }
{
    let head = subgroup_head(whole, rest)?;
    entries_end(whole, head.rest, seen, head.count, head.is_lc3)
}

// The octets behind so many entries.
fn entries_end<'a>(
    whole: &[u8],
    from: &'a [u8],
    seen: &mut BisSet,
    count: u8,
    is_lc3: bool,
) -> Result<&'a [u8], BaseFault>
    requires { length from.now ≤ length whole.now }
    ensures exact { (before : List ℕ) → Seen seen.old before
        → Passes entries_bis before seen.new (λ left. left.now) result (entries_at whole.now is_lc3 before count from.now) }
    ensures shorter { IfOk result (λ left. length left.now ≤ length from.now) }
{
    let mut rest = from;
    for _ in 0..count {
        rest = entry_end(whole, rest, seen, is_lc3)?;
    }
    Ok(rest)
}

// The octets behind an entry.
fn entry_end<'a>(
    whole: &[u8],
    rest: &'a [u8],
    seen: &mut BisSet,
    is_lc3: bool,
) -> Result<&'a [u8], BaseFault>
    requires { length rest.now ≤ length whole.now }
    ensures exact { (before : List ℕ) → Seen seen.old before
        → Passes entry_bis before seen.new (λ left. left.now) result (entry_at whole.now is_lc3 before rest.now) }
    ensures shorter { IfOk result (λ left. length left.now ≤ length rest.now) }
{
    let rest = index_end(whole, rest, seen)?;
    let (_config, rest) = run_field(whole, rest, is_lc3)?;
    Ok(rest)
}

// The octets behind an index that was not met, which is then in the set.
fn index_end<'a>(whole: &[u8], rest: &'a [u8], seen: &mut BisSet) -> Result<&'a [u8], BaseFault>
    requires { length rest.now ≤ length whole.now }
    ensures exact { (before : List ℕ) → Seen seen.old before
        → Passes same_bis before seen.new (λ left. left.now) result (index_at whole.now before rest.now) }
    ensures shorter { IfOk result (λ left. length left.now ≤ length rest.now) }
{
    let place = place_of(whole, rest);
    let (number, after) = octet_field(whole, rest)?;
    let Some(bis) = Bis::new(number) else {
        return Err(BaseFault::BadIndex { place });
    };
    if seen.has(bis) {
        return Err(BaseFault::IndexTwice { place });
    }
    *seen = seen.with(bis);
    Ok(after)
}
