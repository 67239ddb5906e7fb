//! What operations that were read do to a sink.
ghost use Rattle.std.specs.Prelude.{◌≡◌, ◌<◌, ◌+◌, ◌&&◌, ℕ, List, drop, length, nat_lt, slice_set, vec_len, Some, Ok};
ghost use Rattle.bass_operations.specs.declared.operation.Operation.TheVariants as ops;
ghost use Rattle.delegator_history.specs.Snapshots.{Snapshot, entry_at};
ghost use Rattle.delegator_history.specs.Steps.{modified, place_given, same_streams};
ghost use Rattle.delegator_history.specs.Values.{value_at};
ghost use Rattle.delegator_history.specs.Writes.{cause_read, entry_of, reply_by, slot_with};
ghost use Rattle.delegator_choices.specs.State.Slots.{EntryFits};
ghost use Rattle.delegator_control.specs.Serving.{Serves};
ghost use Rattle.delegator_control.specs.State.Machines.{machine};
ghost use Rattle.delegator_control.specs.State.Places.{place_by, place_of, standing};
ghost use Rattle.delegator_control.specs.State.Puts.{OpFits, Puts};
ghost use Rattle.delegator_control.specs.State.Written.{written_value};

use crate::place::{Move, Place, make_move};
use crate::scan_delegator::ScanDelegator;
use crate::values::{note_value, put_notice, status_after, value_filled};
use bass_operations::{AddSource, ModifySource, Operation, Wishes};
use bcast_base::{Memory, Octets};
use delegator_choices::{Slot, Sought, find_slot, refused, unused_id};
use delegator_history::{Cause, Reply, Source};
use std::mem::replace;

/// The most octets of a value: those of an attribute.
const GREATEST_VALUE: usize = 512;

impl ScanDelegator {
    /// Does an operation, or refuses it.
    pub(crate) fn operate(&mut self, op: Operation) -> Result<Reply, Memory>
        requires { OpFits op }
        ensures { Serves op (machine self.old) (machine self.new) result }
    {
        match op {
            Operation::ScanStopped => Ok(Reply::Accepted),
            Operation::ScanStarted => Ok(Reply::Accepted),
            Operation::Add(add) => self.add(add),
            Operation::Modify(modify) => self.modify(modify),
            Operation::Code { source_id, code: _ } => Ok(self.refuse_code(source_id)),
            Operation::Remove { source_id } => self.remove(source_id),
        }
    }

    // Set Broadcast_Code.
    fn refuse_code(&self, source_id: u8) -> Reply
        ensures { (code : List ℕ) → result ≡ reply_by (cause_read (machine self.now).snapshot (Ok (ops.Code source_id code))) }
    {
        let found = find_slot(&self.slots, &Sought::SourceId(source_id));
        if found.is_some() {
            return refused(Cause::NoDecrypt);
        }
        refused(Cause::SourceUnknown)
    }

    // Add Source.
    fn add(&mut self, add: AddSource) -> Result<Reply, Memory>
        requires { OpFits (ops.Add add) }
        ensures { Serves (ops.Add add) (machine self.old) (machine self.new) result }
    {
        let broadcast_id = add.broadcast_id;
        let identity = Sought::Identity {
            address_type: add.address_type,
            sid: add.sid,
            broadcast_id,
        };
        let known = find_slot(&self.slots, &identity);
        if known.is_some() {
            return Ok(refused(Cause::Known));
        }
        let empty = find_slot(&self.slots, &Sought::Empty);
        let Some(slot) = empty else {
            return Ok(refused(Cause::NoRoom));
        };
        let filled = slot_of(unused_id(&self.slots), add);
        let fits = self.put(slot, filled, Move::Stay)?;
        if !fits {
            return Ok(refused(Cause::ValueTooLong));
        }
        Ok(Reply::Accepted)
    }

    // Remove Source.
    fn remove(&mut self, source_id: u8) -> Result<Reply, Memory>
        ensures { Serves (ops.Remove source_id) (machine self.old) (machine self.new) result }
    {
        let found = find_slot(&self.slots, &Sought::SourceId(source_id));
        let Some(slot) = found else {
            return Ok(refused(Cause::SourceUnknown));
        };
        if self.place.is_on(slot) {
            return Ok(refused(Cause::StillSynced));
        }
        put_notice(&mut self.waiting, slot, Octets::new(self.alloc))?;
        self.set_slot(slot, None);
        Ok(Reply::Accepted)
    }

    // Modify Source.
    fn modify(&mut self, modify: ModifySource) -> Result<Reply, Memory>
        requires { OpFits (ops.Modify modify) }
        ensures { Serves (ops.Modify modify) (machine self.old) (machine self.new) result }
    {
        let found = find_slot(&self.slots, &Sought::SourceId(modify.source_id));
        let Some(slot) = found else {
            return Ok(refused(Cause::SourceUnknown));
        };
        self.modify_held(slot, modify)
    }

    // Modify Source of a slot that is filled.
    fn modify_held(&mut self, slot: u8, modify: ModifySource) -> Result<Reply, Memory>
        requires fits { OpFits (ops.Modify modify) }
        requires found { slot_with modify.source_id self.old.slots.items ≡ Some slot }
        requires within { slot < vec_len self.old.slots }
        ensures { Serves (ops.Modify modify) (machine self.old) (machine self.new) result }
    {
        let Some(held) = &self.slots[usize::from(slot)] else {
            unreachable!()
        };
        let moves = move_wanted(&self.place, slot, held, modify.pa_sync, &modify.wishes);
        let filled = Slot::new(held.source(), modify.pa_sync, modify.wishes);
        let fits = self.put(slot, filled, moves)?;
        if !fits {
            return Ok(refused(Cause::ValueTooLong));
        }
        make_move(&mut self.place, moves);
        Ok(Reply::Accepted)
    }

    // Fills a slot, and puts the notice of its value as it is after this change of the place, where it changes. Nothing
    // changes where the value would have more than 512 octets.
    fn put(&mut self, slot: u8, filled: Slot, moves: Move) -> Result<bool, Memory>
        requires { slot < vec_len self.old.slots }
        ensures puts { Puts (written_value slot filled moves self.old) slot filled
            (value_at (machine self.old).snapshot slot) self.old.slots.items self.new.slots.items self.old.waiting.items
            self.new.waiting.items result }
        ensures rest { machine self.new
            ≡ record (machine self.old) {
              snapshot = record (machine self.old).snapshot { slots = self.new.slots.items };
              waiting = self.new.waiting.items;
            } }
        ensures place { self.new.place ≡ self.old.place }
    {
        let status = status_after(&self.place, slot, moves);
        let after = value_filled(self.alloc, &filled, &status)?;
        if is_too_long(&after) {
            return Ok(false);
        }
        let before = status_after(&self.place, slot, Move::Stay);
        let held = &self.slots[usize::from(slot)];
        note_value(self.alloc, &mut self.waiting, slot, held, &before, after)?;
        self.set_slot(slot, Some(filled));
        Ok(true)
    }

    // Fills a slot, or empties it. The memory of what was wanted of the source that it had is kept for the next operation.
    fn set_slot(&mut self, slot: u8, now: Option<Slot>)
        requires { slot < vec_len self.old.slots }
        ensures slots { self.new.slots.items ≡ slice_set self.old.slots.items slot now }
        ensures rest { machine self.new
            ≡ record (machine self.old) { snapshot = record (machine self.old).snapshot { slots = self.new.slots.items } } }
        ensures waiting { self.new.waiting.items ≡ self.old.waiting.items }
        ensures place { self.new.place ≡ self.old.place }
    {
        let held = replace(&mut self.slots[usize::from(slot)], now);
        if let Some(held) = held {
            self.spare = held.into_wishes();
        }
    }
}

/// Whether the value has more octets than an attribute can have.
fn is_too_long(value: &Octets) -> bool
    ensures { result ≡ nat_lt 512 (length value.now) }
{
    value.as_slice().len() > GREATEST_VALUE
}

/// What a Modify Source of a slot does to the place of the sink.
fn move_wanted(place: &Place, slot: u8, held: &Slot, pa_sync: u8, wishes: &Wishes) -> Move
    ensures { (snapshot : Snapshot) → entry_at snapshot.slots slot ≡ Some held.now
        → place_by (place_of place.now) result ≡ place_given (standing place.now snapshot)
        (modified slot (record { pa_sync = pa_sync; wishes = wishes.now })) }
{
    if !place.is_on(slot) {
        Move::Stay
    } else if pa_sync == 0 {
        Move::Off
    } else if place.is_on_group(slot) && !are_same_streams(wishes, held.wishes()) {
        Move::OffGroup
    } else {
        Move::Stay
    }
}

/// Whether the same streams are wanted.
fn are_same_streams(wishes: &Wishes, others: &Wishes) -> bool
    ensures { result ≡ same_streams wishes.now others.now }
{
    if wishes.count() != others.count() {
        return false;
    }
    'wishes: for place in 0..wishes.count() {
        if !are_same_at(wishes, others, place) {
            return false;
        }
    }
    true
}

/// Whether the same streams are wanted of the subgroup at this place.
#[tactic(auto, using(crate::proofs::Streams::same_next))]
fn are_same_at(wishes: &Wishes, others: &Wishes, place: usize) -> bool
    requires here { place < length wishes.now }
    requires there { place < length others.now }
    ensures { same_streams (drop place wishes.now) (drop place others.now)
        ≡ (result && same_streams (drop (place + 1) wishes.now) (drop (place + 1) others.now)) }
{
    let wish = wishes.item(place);
    let other = others.item(place);
    wish.bis_sync == other.bis_sync
}

/// A slot with the source of an Add Source.
fn slot_of(source_id: u8, add: AddSource) -> Slot
    requires { EntryFits (entry_of source_id add) }
    ensures { result ≡ entry_of source_id add }
{
    let address = add.address;
    let broadcast_id = add.broadcast_id;
    let source = Source {
        source_id,
        address_type: add.address_type,
        address,
        sid: add.sid,
        broadcast_id,
    };
    Slot::new(source, add.pa_sync, add.wishes)
}
