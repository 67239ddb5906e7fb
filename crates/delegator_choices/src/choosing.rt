//! Which streams of a group a sink takes.
ghost use Rattle.std.specs.Prelude.{◌≡◌, ◌≤◌, ◌<◌, ◌-◌, ◌^◌, ◌==◌, bit_or, length, map, min, is_none, IsTrue, IfOk, OnErr};
ghost use Rattle.std.specs.Int.{bit_at};
ghost use Rattle.std.specs.List.{list_any};
ghost use Rattle.base_grammar.specs.Layout.{bis_of, indices, stands_in};
ghost use Rattle.delegator_history.specs.Trains.{first_candidates, set_with, sets_with};
ghost use Rattle.pacs_records.specs.Reasons.{stream_not_taken};
ghost use Rattle.delegator_choices.specs.State.Choices.{GoesOn, IsPart, Takes, chosen_of, is_chosen, with_one};

use crate::taken_bits::TakenBits;
use base_grammar::{Base, BaseEntry, Subgroup};
use bass_operations::Wishes;
use bcast_base::{Bis, BisSet, Memory};
use pacs_records::{Capability, takes};
use std::alloc::Global;

/// The streams that a sink takes of a group.
#[derive(Drop)]
pub struct Chosen {
    /// A number for each subgroup.
    pub bits: TakenBits,
    /// Those of all subgroups.
    pub which: BisSet,
}

/// What is taken so far.
#[derive(Clone, Copy)]
struct Taking {
    /// For how many more streams there is room.
    room: u8,
    which: BisSet,
    /// Those of the subgroup that is looked at: bit n stands for the index n + 1.
    bits: u32,
}

/// What a stream of a subgroup is tested by.
#[derive(Clone, Copy)]
struct Choice<'a> {
    capability: &'a Capability,
    base: &'a Base,
    /// The streams of the group.
    num_bis: u8,
    subgroup: &'a Subgroup,
    /// The streams that are wanted of the subgroup.
    wanted: u32,
}

/// The streams that a sink takes of a group of `num_bis` streams: the first candidates, by subgroup and then by rising
/// index, at most `streams` of them. A candidate is a stream of the subgroup that is wanted, is one of the group, and fits
/// a record of the capability (Basic Audio Profile 1.0, section 6.5). Memory is wanted only where a subgroup is looked at:
/// there is one, and a wish for it.
pub fn choose(
    alloc: Global,
    capability: &Capability,
    base: &Base,
    wishes: &Wishes,
    num_bis: u8,
    streams: u8,
) -> Result<Chosen, Memory>
    requires { num_bis ≤ 31 }
    ensures bits { IfOk result (λ chosen. chosen.bits ≡ map (set_with 0)
        (first_candidates capability.now base.now num_bis streams wishes.now base.now.subgroups)) }
    ensures which { IfOk result (λ chosen. chosen.which ≡ sets_with 0
        (first_candidates capability.now base.now num_bis streams wishes.now base.now.subgroups)) }
    ensures within { IfOk result (λ chosen. chosen.which < 2 ^ num_bis) }
    ensures memory { OnErr result (0 < min (length wishes.now) (length base.now.subgroups)) }
{
    let mut bits = TakenBits::new(alloc);
    let mut which = BisSet::new();
    let mut room = streams;
    'subgroups: for place in 0..wishes.count() {
        if place >= base.count() {
            return Ok(Chosen { bits, which });
        }
        let choice = Choice {
            capability,
            base,
            num_bis,
            subgroup: base.subgroup(place),
            wanted: wishes.item(place).bis_sync,
        };
        let taking = take_of(
            &choice,
            Taking {
                room,
                which,
                bits: 0,
            },
        );
        bits.push(taking.bits)?;
        which = taking.which;
        room = taking.room;
    }
    Ok(Chosen { bits, which })
}

/// Takes the candidates of a subgroup, rising, while there is room.
fn take_of(choice: &Choice<'_>, first: Taking) -> Taking
    requires greatest { choice.now.num_bis ≤ 31 }
    requires part { IsPart choice.now.subgroup.now choice.now.base.now }
    ensures { Takes (chosen_of choice.now) first result }
{
    let mut taking = first;
    'indices: for index in 1..choice.num_bis + 1 {
        taking = take_index(choice, index, taking);
    }
    taking
}

/// Takes the stream of this index, where it is a candidate and there is room.
fn take_index(choice: &Choice<'_>, index: u8, taking: Taking) -> Taking
    requires part { IsPart choice.now.subgroup.now choice.now.base.now }
    requires least { 1 ≤ index }
    requires greatest { index ≤ 31 }
    requires within { index ≤ choice.now.num_bis }
    ensures { GoesOn choice.now index taking result }
{
    let Some(bis) = Bis::new(index) else {
        return taking;
    };
    if !is_candidate(choice, bis) {
        return taking;
    }
    with_stream(taking, bis)
}

/// Takes a stream more, where there is room.
fn with_stream(taking: Taking, bis: Bis) -> Taking
    ensures room { result.room ≡ taking.room - 1 }
    ensures which { result.which ≡ with_one taking.room bis taking.which }
    ensures bits { result.bits ≡ with_one taking.room bis taking.bits }
{
    if taking.room == 0 {
        return taking;
    }
    Taking {
        room: taking.room - 1,
        which: with(taking.which, bis),
        bits: with_bit(taking.bits, bis),
    }
}

/// The set with this stream.
fn with(set: BisSet, bis: Bis) -> BisSet
    ensures { result ≡ bit_or set (2 ^ (bis - 1)) }
{
    set.with(bis)
}

/// The number with the bit of this stream.
fn with_bit(bits: u32, bis: Bis) -> u32
    ensures { result ≡ bit_or bits (2 ^ (bis - 1)) }
{
    bits | (1 << (bis.get() - 1))
}

/// Whether the stream, one of the group, is a candidate.
#[tactic(auto, using(crate::proofs::Candidates::is_within))]
fn is_candidate(choice: &Choice<'_>, bis: Bis) -> bool
    requires part { IsPart choice.now.subgroup.now choice.now.base.now }
    requires within { bis ≤ choice.now.num_bis }
    ensures { result ≡ is_chosen choice.now bis }
{
    has_stream(choice.subgroup, bis)
        && has_bit(choice.wanted, bis)
        && is_taken(choice.capability, choice.base, bis)
}

/// Whether the stream is one of the subgroup.
fn has_stream(subgroup: &Subgroup, bis: Bis) -> bool
    ensures { result ≡ stands_in (map bis_of subgroup.now.entries) bis }
{
    has_index(subgroup.entries.as_slice(), bis.get())
}

/// Whether one of the entries has this index.
fn has_index(entries: &[BaseEntry], index: u8) -> bool
    ensures { result ≡ list_any (λ entry. entry.bis == index) entries.now }
{
    entries.iter().any(|entry| entry.bis.get() == index)
}

/// Whether the bit of the stream is set.
#[tactic(auto, using(std::proofs::lemmas::Nat::Bits::shr_and_one))]
fn has_bit(bits: u32, bis: Bis) -> bool
    ensures { result ≡ (bit_at bits (bis - 1) == 1) }
{
    (bits >> (bis.get() - 1)) & 1 == 1
}

/// Whether the sink takes the stream by what it can take.
fn is_taken(capability: &Capability, base: &Base, bis: Bis) -> bool
    requires { IsTrue (stands_in (indices base.now.subgroups) bis) }
    ensures { result ≡ is_none (stream_not_taken capability.now base.now bis) }
{
    match takes(capability, base, bis) {
        Ok(()) => true,
        Err(_) => false,
    }
}
