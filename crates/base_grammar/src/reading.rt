ghost use Rattle.std.specs.Prelude.{◌≡◌, ◌≤◌, [], ◌++◌, length, map, IfOk, IfErr, Ok};
ghost use Rattle.base_grammar.specs.Faults.{IsFault};
ghost use Rattle.base_grammar.specs.Layout.{Endpoint, endpoint, indices, bis_of, BaseIs};
ghost use Rattle.bcast_base.specs.Tries.{Answers, Finds, GivesOrWants};
ghost use Rattle.base_grammar.specs.Reading.{told, entry_at, entries_at, subgroup_at, subgroups_at, fields_of, base_of};

use crate::base::Base;
use crate::checking::check_base;
use crate::fault::BaseFault;
use crate::fields::{count_field, delay_field, index_field, run_field};
use crate::head::subgroup_head;
use crate::subgroup::{BaseEntry, Entries, Subgroup};
use bcast_base::{Octets, place_of};
use std::alloc::Global;

// The most octets of a BASE.
pub(crate) const MAX_OCTETS: usize = 252;

// An entry, behind these subgroups and these entries of its own.
#[tactic(auto, unfolding(crate::specs::Reading::entry_at))]
fn entry_of<'a>(
    alloc: Global,
    whole: &[u8],
    rest: &'a [u8],
    subgroups: &[Subgroup],
    entries: &Entries,
    is_lc3: bool,
) -> Result<(BaseEntry, &'a [u8]), BaseFault>
    requires { length rest.now ≤ length whole.now }
    ensures gives { GivesOrWants told (λ x. (x.0, x.1.now)) result
        (entry_at whole.now is_lc3 (indices subgroups.now ++ map bis_of entries.now) rest.now) }
    ensures shorter { IfOk result (λ x. length x.1.now ≤ length rest.now) }
{
    let (bis, rest) = match index_field(whole, rest, subgroups, entries.as_slice()) {
        Ok(field) => field,
        Err(fault) => return Err(fault),
    };
    let (config, rest) = run_field(whole, rest, is_lc3)?;
    let config = Octets::copy(alloc, config)?;
    Ok((BaseEntry { bis, config }, rest))
}

// So many entries, behind these subgroups.
fn entries_of<'a>(
    alloc: Global,
    whole: &[u8],
    from: &'a [u8],
    subgroups: &[Subgroup],
    count: u8,
    is_lc3: bool,
) -> Result<(Entries, &'a [u8]), BaseFault>
    requires { length from.now ≤ length whole.now }
    ensures gives { GivesOrWants told (λ x. (x.0, x.1.now)) result (entries_at whole.now is_lc3 (indices subgroups.now) count from.now) }
    ensures shorter { IfOk result (λ x. length x.1.now ≤ length from.now) }
{
    let mut entries = Entries::new(alloc);
    let mut rest = from;
    for _ in 0..count {
        let (entry, after) = match entry_of(alloc, whole, rest, subgroups, &entries, is_lc3) {
            Ok(field) => field,
            Err(fault) => return Err(fault),
        };
        entries.push(entry)?;
        rest = after;
    }
    Ok((entries, rest))
}

// A subgroup, behind these.
fn subgroup_of<'a>(
    alloc: Global,
    whole: &[u8],
    rest: &'a [u8],
    subgroups: &[Subgroup],
) -> Result<(Subgroup, &'a [u8]), BaseFault>
    requires { length rest.now ≤ length whole.now }
    ensures gives { GivesOrWants told (λ x. (x.0, x.1.now)) result (subgroup_at whole.now (indices subgroups.now) rest.now) }
    ensures shorter { IfOk result (λ x. length x.1.now ≤ length rest.now) }
{
    let head = subgroup_head(whole, rest)?;
    let (entries, rest) = match entries_of(
        alloc,
        whole,
        head.rest,
        subgroups,
        head.count,
        head.is_lc3,
    ) {
        Ok(field) => field,
        Err(fault) => return Err(fault),
    };
    let config = Octets::copy(alloc, head.config)?;
    let metadata = Octets::copy(alloc, head.metadata)?;
    let subgroup = Subgroup {
        codec: head.codec,
        config,
        metadata,
        entries,
    };
    Ok((subgroup, rest))
}

// So many subgroups.
fn subgroups_of<'a>(
    alloc: Global,
    whole: &[u8],
    from: &'a [u8],
    count: u8,
) -> Result<(Vec<Subgroup>, &'a [u8]), BaseFault>
    requires { length from.now ≤ length whole.now }
    ensures gives { GivesOrWants told (λ x. (x.0.items, x.1.now)) result (subgroups_at whole.now [] count from.now) }
    ensures shorter { IfOk result (λ x. length x.1.now ≤ length from.now) }
{
    let mut subgroups = Vec::new(alloc);
    let mut rest = from;
    for _ in 0..count {
        let (subgroup, after) = match subgroup_of(alloc, whole, rest, &subgroups) {
            Ok(field) => field,
            Err(fault) => return Err(fault),
        };
        subgroups.push(subgroup)?;
        rest = after;
    }
    Ok((subgroups, rest))
}

// All fields, from the delay on.
#[tactic(auto, unfolding(crate::specs::Reading::fields_of))]
fn read_fields(alloc: Global, whole: &[u8]) -> Result<(u32, Vec<Subgroup>), BaseFault>
    ensures { GivesOrWants told (λ x. endpoint x.0 x.1.items) result (fields_of whole.now) }
{
    let (delay, rest) = delay_field(whole)?;
    let (count, rest) = count_field(whole, rest)?;
    let (subgroups, rest) = match subgroups_of(alloc, whole, rest, count) {
        Ok(field) => field,
        Err(fault) => return Err(fault),
    };
    if !rest.is_empty() {
        let place = place_of(whole, rest);
        return Err(BaseFault::Trailing { place });
    }
    Ok((delay, subgroups))
}

// The fields of octets that are not too many.
#[tactic(auto, unfolding(crate::specs::Reading::base_of))]
fn read_base(alloc: Global, whole: &[u8]) -> Result<(u32, Vec<Subgroup>), BaseFault>
    ensures { GivesOrWants told (λ x. endpoint x.0 x.1.items) result (base_of whole.now) }
{
    if whole.len() > MAX_OCTETS {
        return Err(BaseFault::TooLong);
    }
    read_fields(alloc, whole)
}

// The BASE of the fields.
fn read_whole(alloc: Global, from: &[u8]) -> Result<Base, BaseFault>
    ensures { GivesOrWants told (λ base. base) result (base_of from.now) }
{
    let (delay, subgroups) = read_base(alloc, from)?;
    Ok(Base::new(delay, subgroups))
}

// Where memory ran out, a fault of the octets comes before it.
fn read_or_check(alloc: Global, from: &[u8]) -> Result<Base, BaseFault>
    ensures { Answers told result (base_of from.now) }
{
    match read_whole(alloc, from) {
        Ok(base) => Ok(base),
        Err(BaseFault::Memory) => Err(wanting(from)),
        Err(fault) => Err(fault),
    }
}

// Why octets are refused for which there is no memory: what is wrong with them, if they are no BASE.
fn wanting(from: &[u8]) -> BaseFault
    ensures { Finds (told result) (base_of from.now) }
{
    match check_base(from) {
        Ok(()) => BaseFault::Memory,
        Err(fault) => fault,
    }
}

/// The BASE that the octets are, all of them. A BASE has at most 252 octets, which is tested first. Then the first fault
/// from the left counts: a field that is not whole, or one that breaks its row. Want of memory comes only for octets that
/// are a BASE.
pub fn decode_base(alloc: Global, from: &[u8]) -> Result<Base, BaseFault>
    ensures exact { Answers told result (base_of from.now) }
    ensures base { IfOk result (λ base. BaseIs base from.now) }
    ensures only { (v : Endpoint) → BaseIs v from.now → Answers told result (Ok v) }
    ensures fault { IfErr result (λ fault. IsFault fault from.now) }
{
    read_or_check(alloc, from)
}
