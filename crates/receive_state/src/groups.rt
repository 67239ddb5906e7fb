//! The subgroups of a receive state, looked through where they lie before any memory is taken.
ghost use Rattle.std.specs.Prelude.{◌≡◌, ◌<◌, ◌≤◌, ◌+◌, ◌∷◌, ◌++◌, [], length, max, take, is_some, true, IfOk, OnOk, OnErr, Some};
ghost use Rattle.bcast_base.specs.Subgroups.{subgroups_in};
ghost use Rattle.receive_state.specs.Reading.{end_in, group_end_in, groups_of};
ghost use Rattle.bcast_base.specs.Tries.{ReadsAs};

use crate::fields::{ShortAt, octet_of, octets_of};
use crate::state::{GroupState, GroupStates};
use bcast_base::{Memory, Octets, subgroup_at};
use std::alloc::Global;

// The octets behind so many subgroups at the front of `octets`, the last octets of `whole`, or the place of the field that
// passes the end.
pub(crate) fn groups_end<'a>(whole: &[u8], count: u8, octets: &'a [u8]) -> Result<&'a [u8], ShortAt>
    requires { length octets.now ≤ length whole.now }
    ensures field { ReadsAs (λ rest. rest.now) (λ e. e.place) result (end_in whole.now count octets.now) }
    ensures within { IfOk result (λ rest. length rest.now ≤ length whole.now) }
{
    let mut rest = octets;
    'groups: for _ in 0..count {
        rest = group_end(whole, rest)?;
    }
    Ok(rest)
}

// The octets behind one subgroup.
fn group_end<'a>(whole: &[u8], octets: &'a [u8]) -> Result<&'a [u8], ShortAt>
    requires { length octets.now ≤ length whole.now }
    ensures field { ReadsAs (λ rest. rest.now) (λ e. e.place) result (group_end_in whole.now octets.now) }
    ensures within { IfOk result (λ rest. length rest.now ≤ length whole.now) }
{
    let (_bits, rest) = octets_of(whole, octets, 4)?;
    let (count, rest) = octet_of(whole, rest)?;
    let (_metadata, rest) = octets_of(whole, rest, usize::from(count))?;
    Ok(rest)
}

// Puts what is told of so many subgroups in the place of earlier ones, in their memory. Memory is wanted only where there is one.
pub(crate) fn read_groups(
    alloc: Global,
    groups: &mut GroupStates,
    count: u8,
    octets: &[u8],
) -> Result<(), Memory>
    requires { is_some (subgroups_in count octets.now) ≡ true }
    ensures ok { OnOk result (groups_of count octets.now ≡ Some groups.new) }
    ensures err { OnErr result (0 < count) }
{
    let most = usize::from(count);
    groups.truncate(most);
    let mut rest = octets;
    'groups: for place in 0..most {
        let Some((group, after)) = subgroup_at(rest) else {
            unreachable!()
        };
        put_group(alloc, groups, place, group.bits, group.metadata)?;
        rest = after;
    }
    Ok(())
}

// Puts what is told of a subgroup at a place: in the memory of what stands there, or at the end.
fn put_group(
    alloc: Global,
    groups: &mut GroupStates,
    place: usize,
    bits: u32,
    metadata: &[u8],
) -> Result<(), Memory>
    requires { place ≤ length groups.old }
    ensures put { OnOk result (take (place + 1) groups.new
        ≡ take place groups.old ++ record { bis_sync_state = bits; metadata = metadata.now } ∷ []) }
    ensures count { OnOk result (length groups.new ≡ max (length groups.old) (place + 1)) }
{
    if place == groups.count() {
        return push_group(alloc, groups, bits, metadata);
    }
    let group = groups.item_mut(place);
    group.bis_sync_state = bits;
    group.metadata.set(metadata)
}

// Puts what is told of a subgroup at the end.
#[inline(never)]
fn push_group(
    alloc: Global,
    groups: &mut GroupStates,
    bits: u32,
    metadata: &[u8],
) -> Result<(), Memory>
    ensures { OnOk result (groups.new ≡ groups.old ++ record { bis_sync_state = bits; metadata = metadata.now } ∷ []) }
{
    let metadata = Octets::copy(alloc, metadata)?;
    groups.push(GroupState {
        bis_sync_state: bits,
        metadata,
    })
}
