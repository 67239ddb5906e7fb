//! The values of slots, and the notices of their changes.
ghost use Rattle.std.specs.Prelude.{ℕ, List, ◌≡◌, ◌≢◌, ◌<◌, ◌≤◌, ◌+◌, ◌++◌, ◌∷◌, [], drop, length, if◌then◌else◌, get_or, option_map};
ghost use Rattle.std.specs.Prelude.{None, true, IfOk, IsSome, IsTrue, OnOk, OnErr};
ghost use Rattle.std.specs.List.{AllByRecursion};
ghost use Rattle.bcast_base.specs.Layout.{laid};
ghost use Rattle.receive_state.specs.Layout.{encoding, fields_of, prefix_fields};
ghost use Rattle.delegator_history.specs.Notices.{change};
ghost use Rattle.delegator_history.specs.Snapshots.{Snapshot};
ghost use Rattle.delegator_history.specs.Steps.{placed};
ghost use Rattle.delegator_history.specs.Values.{Status as StatusSeen, encryption_of, received, value};
ghost use Rattle.delegator_choices.specs.State.Slots.{EntryFits};
ghost use Rattle.delegator_control.specs.State.Places.{place_by, place_of, standing};
ghost use Rattle.delegator_control.specs.State.Statuses.{groups_laid, status_at, status_seen};

use crate::place::{Move, Place};
use bass_operations::Wishes;
use bcast_base::{Memory, Octets, put_subgroup};
use delegator_choices::Slot;
use delegator_history::Notice;
use receive_state::{Encryption, GroupStates, ReceiveState, begin_state};
use std::alloc::Global;
use std::collections::VecDeque;

/// The octets of a state before its subgroups, where no Bad_Code is told.
const FRONT: usize = 15;

/// The octets of a subgroup before its metadata.
const GROUP_FRONT: usize = 5;

/// How the sink stands to a slot: on its train or its group, a Broadcast_Code required, and the streams that are taken of
/// each subgroup.
#[derive(Clone, Copy)]
pub(crate) struct Status<'a> {
    pub is_synced: bool,
    pub is_encrypted: bool,
    pub bits: &'a [u32],
}

/// How a sink that is there stands to a slot after a change of its place.
pub(crate) fn status_after(place: &Place, slot: u8, moves: Move) -> Status<'_>
    ensures same { (snapshot : Snapshot) → status_seen result ≡ status_at slot
        (placed (place_by (place_of place.now) moves) None None (standing place.now snapshot)) }
{
    let is_synced = match moves {
        Move::Off => false,
        _ => place.is_on(slot),
    };
    let bits: &[u32] = match moves {
        Move::Stay => place.bits_on(slot),
        _ => &[],
    };
    Status {
        is_synced,
        is_encrypted: is_synced && place.is_encrypted(),
        bits,
    }
}

/// The value of a slot to which the sink stands so. Memory is wanted only where the slot is filled.
pub(crate) fn value_as(
    alloc: Global,
    slot: &Option<Slot>,
    status: &Status<'_>,
) -> Result<Octets, Memory>
    ensures value { IfOk result (λ octets. octets ≡ value (option_map (received (status_seen status.now)) slot.now)) }
    ensures memory { OnErr result (IsSome slot.now) }
{
    match slot {
        None => Ok(Octets::new(alloc)),
        Some(filled) => value_filled(alloc, filled, status),
    }
}

/// The value of a slot that is filled.
pub(crate) fn value_filled(
    alloc: Global,
    slot: &Slot,
    status: &Status<'_>,
) -> Result<Octets, Memory>
    ensures { IfOk result (λ octets. octets ≡ encoding (received (status_seen status.now) slot.now)) }
{
    let mut out = begin_value(alloc, slot, status)?;
    put_groups(&mut out, slot.wishes(), status.bits)?;
    Ok(out)
}

/// The octets of that value before its subgroups.
fn begin_value(alloc: Global, slot: &Slot, status: &Status<'_>) -> Result<Octets, Memory>
    ensures prefix { IfOk result (λ octets. octets ≡ laid (prefix_fields (fields_of (received (status_seen status.now) slot.now))
        (length slot.now.wanted.wishes))) }
    ensures fits { EntryFits slot.now }
{
    let wishes = slot.wishes();
    let prefix = prefix_of(alloc, slot, status);
    begin_state(alloc, &prefix, wishes.count() as u8, room_for(wishes))
}

/// The state of a slot that is filled, without its subgroups.
fn prefix_of(alloc: Global, slot: &Slot, status: &Status<'_>) -> ReceiveState
    ensures same { result ≡ record (received (status_seen status.now) slot.now) { groups = [] } }
    ensures fits { EntryFits slot.now }
{
    let source = slot.source();
    let address = source.address;
    let broadcast_id = source.broadcast_id;
    ReceiveState {
        source_id: source.source_id,
        address_type: source.address_type,
        address,
        sid: source.sid,
        broadcast_id,
        pa_sync_state: sync_state(status.is_synced),
        encryption: encryption(status.is_encrypted),
        groups: GroupStates::new(alloc),
    }
}

/// Synchronised, or not synchronised.
fn sync_state(is_synced: bool) -> u8
    ensures { result ≡ (if is_synced then 2 else 0) }
{
    if is_synced { 2 } else { 0 }
}

/// Code required, or not encrypted.
fn encryption(is_encrypted: bool) -> Encryption
    ensures { result ≡ encryption_of is_encrypted }
{
    if is_encrypted {
        Encryption::CodeRequired
    } else {
        Encryption::None
    }
}

/// How many octets a state has of so many subgroups, where no Bad_Code is told.
fn room_for(wishes: &Wishes) -> usize {
    let mut room = FRONT;
    for place in 0..wishes.count() {
        let metadata = wishes.item(place).metadata.as_slice();
        room = room.saturating_add(GROUP_FRONT + metadata.len());
    }
    room
}

/// Puts what is received of each subgroup that is wanted at the end.
fn put_groups(out: &mut Octets, wishes: &Wishes, bits: &[u32]) -> Result<(), Memory>
    requires { AllByRecursion (λ wish. length wish.metadata ≤ 255) wishes.now }
    ensures { OnOk result (out.new ≡ out.old ++ groups_laid 0 bits.now wishes.now) }
{
    'subgroups: for place in 0..wishes.count() {
        put_group(out, wishes, bits, place)?;
    }
    Ok(())
}

/// Puts what is received of the subgroup at this place at the end.
fn put_group(out: &mut Octets, wishes: &Wishes, bits: &[u32], place: usize) -> Result<(), Memory>
    requires here { place < length wishes.now }
    requires metadata { AllByRecursion (λ wish. length wish.metadata ≤ 255) wishes.now }
    ensures { OnOk result (out.new ++ groups_laid (place + 1) bits.now (drop (place + 1) wishes.now)
        ≡ out.old ++ groups_laid place bits.now (drop place wishes.now)) }
{
    let wish = wishes.item(place);
    put_subgroup(out, bits_at(bits, place), wish.metadata.as_slice())?;
    Ok(())
}

/// The streams of the subgroup at this place; none past the end.
fn bits_at(bits: &[u32], place: usize) -> u32
    ensures { result ≡ get_or bits.now place 0 }
{
    match bits.get(place) {
        Some(set) => *set,
        None => 0,
    }
}

/// Puts the notice of a slot at the end, where its value changes once the sink, which stood so to it, stands so. After want of
/// memory nothing changed.
pub(crate) fn note_standing(
    alloc: Global,
    waiting: &mut VecDeque<Notice>,
    slot: u8,
    held: &Option<Slot>,
    before: &Status<'_>,
    after: &Status<'_>,
) -> Result<(), Memory>
    ensures ok { OnOk result (waiting.new.items ≡ waiting.old.items ++ change slot
        (value (option_map (received (status_seen before.now)) held.now))
        (value (option_map (received (status_seen after.now)) held.now))) }
    ensures err { OnErr result (waiting.new.items ≡ waiting.old.items) }
{
    match held {
        None => Ok(()),
        Some(filled) => note_filled(alloc, waiting, slot, filled, before, after),
    }
}

/// The same of a slot that is filled. Where PA_Sync_State changes, the value that it had is not looked at.
fn note_filled(
    alloc: Global,
    waiting: &mut VecDeque<Notice>,
    slot: u8,
    filled: &Slot,
    before: &Status<'_>,
    after: &Status<'_>,
) -> Result<(), Memory>
    ensures ok { OnOk result (waiting.new.items ≡ waiting.old.items ++ change slot
        (encoding (received (status_seen before.now) filled.now)) (encoding (received (status_seen after.now) filled.now))) }
    ensures err { OnErr result (waiting.new.items ≡ waiting.old.items) }
{
    let now = value_filled(alloc, filled, after)?;
    if before.is_synced != after.is_synced {
        return put_notice(waiting, slot, now);
    }
    note_compared(alloc, waiting, slot, filled, before, now)
}

/// Puts the notice of a slot at the end, where its value is then this, and was another: the sink stood so to it. After want of
/// memory nothing changed.
pub(crate) fn note_value(
    alloc: Global,
    waiting: &mut VecDeque<Notice>,
    slot: u8,
    held: &Option<Slot>,
    before: &Status<'_>,
    now: Octets,
) -> Result<(), Memory>
    ensures ok { OnOk result (waiting.new.items ≡ waiting.old.items ++ change slot
        (value (option_map (received (status_seen before.now)) held.now)) now) }
    ensures err { OnErr result (waiting.new.items ≡ waiting.old.items) }
{
    match held {
        None => note(waiting, slot, &Octets::new(alloc), now),
        Some(filled) => note_refilled(alloc, waiting, slot, filled, before, now),
    }
}

/// The same of a slot that was filled. Where the metadata at the end changes, or its length, the value that it had is not looked at.
fn note_refilled(
    alloc: Global,
    waiting: &mut VecDeque<Notice>,
    slot: u8,
    filled: &Slot,
    before: &Status<'_>,
    now: Octets,
) -> Result<(), Memory>
    ensures ok { OnOk result (waiting.new.items ≡ waiting.old.items ++ change slot
        (encoding (received (status_seen before.now) filled.now)) now) }
    ensures err { OnErr result (waiting.new.items ≡ waiting.old.items) }
{
    if ends_otherwise(&now, filled) {
        return put_notice(waiting, slot, now);
    }
    note_compared(alloc, waiting, slot, filled, before, now)
}

/// The same, where the value that it had is made and looked at.
fn note_compared(
    alloc: Global,
    waiting: &mut VecDeque<Notice>,
    slot: u8,
    filled: &Slot,
    before: &Status<'_>,
    now: Octets,
) -> Result<(), Memory>
    ensures ok { OnOk result (waiting.new.items ≡ waiting.old.items ++ change slot
        (encoding (received (status_seen before.now) filled.now)) now) }
    ensures err { OnErr result (waiting.new.items ≡ waiting.old.items) }
{
    let was = value_filled(alloc, filled, before)?;
    note(waiting, slot, &was, now)
}

/// The octets end otherwise than the value of the slot, however the sink stands to it: not with the last metadata behind the
/// octet that counts it.
fn ends_otherwise(octets: &Octets, slot: &Slot) -> bool
    ensures { IsTrue result → (status : StatusSeen) → encoding (received status slot.now) ≢ octets.now }
{
    let wishes = slot.wishes();
    let count = wishes.count();
    if count == 0 {
        return false;
    }
    let last = wishes.item(count - 1);
    !ends_counted(octets.as_slice(), last.metadata.as_slice())
}

/// Whether the octets end with these, behind one octet that counts them.
fn ends_counted(octets: &[u8], counted: &[u8]) -> bool
    ensures { (front : List ℕ) → octets.now ≡ front ++ length counted.now ∷ counted.now → result ≡ true }
{
    let Some(front) = octets.strip_suffix(counted) else {
        return false;
    };
    match front.last() {
        None => false,
        Some(count) => usize::from(*count) == counted.len(),
    }
}

/// Puts the notice of a slot whose value changes at the end. After want of memory nothing changed.
pub(crate) fn note(
    waiting: &mut VecDeque<Notice>,
    slot: u8,
    before: &Octets,
    after: Octets,
) -> Result<(), Memory>
    ensures ok { OnOk result (waiting.new.items ≡ waiting.old.items ++ change slot before.now after) }
    ensures err { OnErr result (waiting.new.items ≡ waiting.old.items) }
{
    if before.as_slice() == after.as_slice() {
        return Ok(());
    }
    put_notice(waiting, slot, after)
}

/// Puts the notice of a slot that has this value now at the end. After want of memory nothing changed.
pub(crate) fn put_notice(
    waiting: &mut VecDeque<Notice>,
    slot: u8,
    value: Octets,
) -> Result<(), Memory>
    ensures ok { OnOk result (waiting.new.items ≡ waiting.old.items ++ record { slot = slot; value = value } ∷ []) }
    ensures err { OnErr result (waiting.new.items ≡ waiting.old.items) }
{
    Ok(waiting.push_back(Notice { slot, value })?)
}
