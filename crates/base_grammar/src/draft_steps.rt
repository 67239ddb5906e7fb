//! The steps of a draft, over its subgroups.
ghost use Rattle.std.specs.Prelude.{◌≡◌, ◌≤◌, ◌<◌, ◌+◌, ◌++◌, ◌∷◌, [], length, OnOk, OnErr, Err};
ghost use Rattle.std.specs.List.{flat_map};
ghost use Rattle.base_grammar.specs.declared.fault.DraftFault.TheVariants.{Memory as NoMemory};
ghost use Rattle.base_grammar.specs.Draft.{opened, with_last, is_empty_last, last_of, subgroup_fault, metadata_fault, entry_fault, draft_fault, Refuses};
ghost use Rattle.base_grammar.specs.Layout.{subgroup};

use crate::fault::DraftFault;
use crate::room::behind_subgroups;
use crate::subgroup::{BaseEntry, Entries, Subgroup, stands_before};
use bcast_base::{Bis, Octets};
use std::alloc::Global;

// The octets of a BASE behind its delay and its number of subgroups: 252 less 4.
pub(crate) const ROOM: usize = 248;

// Whether the last subgroup has no entry yet.
fn is_last_empty(subgroups: &[Subgroup]) -> bool
    ensures { result ≡ is_empty_last (last_of subgroups.now) }
{
    match subgroups {
        [] => false,
        [.., last] => last.entries.count() == 0,
    }
}

// Opens a subgroup behind these.
pub(crate) fn open_subgroup(
    alloc: Global,
    subgroups: &mut Vec<Subgroup>,
    codec: [u8; 5],
    config: &[u8],
) -> Result<(), DraftFault>
    ensures ok { OnOk result (subgroups.new.items ≡ subgroups.old.items ++ opened codec config.now ∷ []) }
    ensures err { OnErr result (subgroups.new.items ≡ subgroups.old.items) }
    ensures refuses { Refuses (subgroup_fault subgroups.old.items) result }
    ensures five { length codec ≡ 5 }
{
    if is_last_empty(subgroups) {
        return Err(DraftFault::NoBis);
    }
    let config = Octets::copy(alloc, config)?;
    subgroups.push(Subgroup {
        codec,
        config,
        metadata: Octets::new(alloc),
        entries: Entries::new(alloc),
    })?;
    Ok(())
}

// Gives the last subgroup this metadata.
pub(crate) fn put_metadata(
    alloc: Global,
    subgroups: &mut Vec<Subgroup>,
    from: &[u8],
) -> Result<(), DraftFault>
    ensures ok { OnOk result (subgroups.new.items ≡ with_last (λ s. record s { metadata = from.now }) subgroups.old.items) }
    ensures err { OnErr result (subgroups.new.items ≡ subgroups.old.items) }
    ensures refuses { Refuses (metadata_fault subgroups.old.items) result }
    ensures memory { result ≡ Err NoMemory → 0 < length from.now }
{
    if subgroups.is_empty() {
        return Err(DraftFault::NoSubgroup);
    }
    let metadata = Octets::copy(alloc, from)?;
    let last = subgroups.len() - 1;
    subgroups[last].metadata = metadata;
    Ok(())
}

// Puts an entry at the end of the last subgroup.
pub(crate) fn put_entry(
    alloc: Global,
    subgroups: &mut Vec<Subgroup>,
    bis: Bis,
    config: &[u8],
) -> Result<(), DraftFault>
    ensures ok { OnOk result (subgroups.new.items ≡ with_last
        (λ s. record s { entries = s.entries ++ record { bis = bis; config = config.now } ∷ [] }) subgroups.old.items) }
    ensures err { OnErr result (subgroups.new.items ≡ subgroups.old.items) }
    ensures refuses { Refuses (entry_fault subgroups.old.items bis) result }
    ensures range { OnOk result ((1 ≤ bis) × (bis ≤ 31)) }
{
    if subgroups.is_empty() {
        return Err(DraftFault::NoSubgroup);
    }
    if stands_before(subgroups, &[], bis.get()) {
        return Err(DraftFault::IndexTwice);
    }
    let config = Octets::copy(alloc, config)?;
    let last = subgroups.len() - 1;
    subgroups[last].entries.push(BaseEntry { bis, config })?;
    Ok(())
}

// Why the subgroups are not yet those of a BASE.
pub(crate) fn finish_refusal(subgroups: &[Subgroup]) -> Option<DraftFault>
    ensures { result ≡ draft_fault subgroups.now (4 + length (flat_map subgroup subgroups.now)) }
{
    if subgroups.is_empty() {
        return Some(DraftFault::NoSubgroup);
    }
    if is_last_empty(subgroups) {
        return Some(DraftFault::NoBis);
    }
    if behind_subgroups(ROOM, subgroups).is_none() {
        return Some(DraftFault::TooLong);
    }
    None
}
