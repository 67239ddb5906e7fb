//! The subgroups of an operation, looked through where they lie before any memory is taken.
ghost use Rattle.std.specs.Prelude.{◌≡◌, ◌≤◌, ◌<◌, ◌+◌, ◌∷◌, ◌++◌, [], length, max, take, is_some, true, OnOk, OnErr, Some};
ghost use Rattle.std.specs.Result.{result_err};
ghost use Rattle.bcast_base.specs.Subgroups.{reserved_in};
ghost use Rattle.bass_operations.specs.Reading.{wishes_in, first_fault};
ghost use Rattle.bass_operations.specs.Scanning.{named_in, twice_in};
ghost use Rattle.bass_operations.specs.Twice.{has_bit};

use crate::fault::OpFault;
use crate::wishes::{Wish, Wishes};
use bcast_base::{Memory, Octets, reserved_subgroup, subgroup_at};
use std::alloc::Global;

// Whether the octets are so many subgroups and nothing else.
pub(crate) fn are_wishes(count: u8, octets: &[u8]) -> bool
    ensures { result ≡ is_some (wishes_in count octets.now) }
{
    let mut rest = octets;
    'subgroups: for _ in 0..count {
        let Some((_group, after)) = subgroup_at(rest) else {
            return false;
        };
        rest = after;
    }
    rest.is_empty()
}

// The first fault of so many subgroups, the last octets of `whole`.
pub(crate) fn check_wishes(whole: &[u8], count: u8, octets: &[u8]) -> Result<(), OpFault>
    requires { length octets.now ≤ length whole.now }
    ensures { result_err result ≡ first_fault (reserved_in whole.now count octets.now) (twice_in 31 1 count octets.now) }
{
    if let Some(place) = reserved_subgroup(whole, count, octets) {
        return Err(OpFault::Rfu { place });
    }
    if let Some(bis) = named_twice(count, octets) {
        return Err(OpFault::BisTwice { bis });
    }
    Ok(())
}

// Puts the wishes of so many subgroups in the place of earlier ones, in their memory. Memory is wanted only where there is one.
pub(crate) fn read_wishes(
    alloc: Global,
    wishes: &mut Wishes,
    count: u8,
    octets: &[u8],
) -> Result<(), Memory>
    requires { is_some (wishes_in count octets.now) ≡ true }
    ensures gives { OnOk result (wishes_in count octets.now ≡ Some wishes.new) }
    ensures memory { OnErr result (0 < count) }
{
    let most = usize::from(count);
    wishes.truncate(most);
    let mut rest = octets;
    'subgroups: for place in 0..most {
        let Some((group, after)) = subgroup_at(rest) else {
            unreachable!()
        };
        put_wish(alloc, wishes, place, group.bits, group.metadata)?;
        rest = after;
    }
    Ok(())
}

// Puts what is wanted of a subgroup at a place: in the memory of what stands there, or at the end.
fn put_wish(
    alloc: Global,
    wishes: &mut Wishes,
    place: usize,
    bits: u32,
    metadata: &[u8],
) -> Result<(), Memory>
    requires here { place ≤ length wishes.old }
    requires few { place < 255 }
    ensures put { OnOk result (take (place + 1) wishes.new
        ≡ take place wishes.old ++ record { bis_sync = bits; metadata = metadata.now } ∷ []) }
    ensures count { OnOk result (length wishes.new ≡ max (length wishes.old) (place + 1)) }
{
    if place == wishes.count() {
        return push_wish(alloc, wishes, bits, metadata);
    }
    wishes.set(place, bits, metadata)
}

// Puts what is wanted of a subgroup at the end.
#[inline(never)]
fn push_wish(alloc: Global, wishes: &mut Wishes, bits: u32, metadata: &[u8]) -> Result<(), Memory>
    requires { length wishes.old < 255 }
    ensures { OnOk result (wishes.new ≡ wishes.old ++ record { bis_sync = bits; metadata = metadata.now } ∷ []) }
{
    let metadata = Octets::copy(alloc, metadata)?;
    wishes.push(Wish {
        bis_sync: bits,
        metadata,
    })
}

// The lowest stream index that stands in two of so many subgroups.
fn named_twice(count: u8, octets: &[u8]) -> Option<u8>
    ensures { result ≡ twice_in 31 1 count octets.now }
{
    if count < 2 {
        return None;
    }
    'streams: for bis in 1..32u8 {
        if times_named(bis, count, octets) > 1 {
            return Some(bis);
        }
    }
    None
}

// In how many of so many subgroups the stream stands.
fn times_named(bis: u8, count: u8, octets: &[u8]) -> u8
    requires least { 1 ≤ bis }
    requires greatest { bis ≤ 31 }
    ensures { result ≡ named_in bis count octets.now }
{
    let mut rest = octets;
    let mut times = 0u8;
    'subgroups: for _ in 0..count {
        let Some((group, after)) = subgroup_at(rest) else {
            return times;
        };
        if names(group.bits, bis) {
            times += 1;
        }
        rest = after;
    }
    times
}

// Whether the bit of the stream is set, where not all bits are.
fn names(bits: u32, bis: u8) -> bool
    requires least { 1 ≤ bis }
    requires greatest { bis ≤ 31 }
    ensures { result ≡ has_bit bis bits }
{
    (bits >> (bis - 1)) & 1 == 1 && bits != u32::MAX
}
