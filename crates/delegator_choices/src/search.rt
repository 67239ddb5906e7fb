//! Looking for a slot, and for an unused Source_ID.
ghost use Rattle.std.specs.Prelude.{◌≡◌, ◌≤◌, ◌<◌, ◌==◌, ◌&&◌, is_some, length, vec_len, IfSome};
ghost use Rattle.std.specs.Str.{bytes_eq};
ghost use Rattle.delegator_history.specs.Writes.{least_unused, slot_where, slot_with};
ghost use Rattle.delegator_choices.specs.State.Slots.{meets};

use crate::slot::Slot;
use delegator_history::Source;

/// What a slot is looked for by.
#[derive(Clone, Copy)]
pub enum Sought {
    /// It is empty.
    Empty,
    /// It has this Source_ID.
    SourceId(u8),
    /// Its source has this identity.
    Identity {
        address_type: u8,
        sid: u8,
        broadcast_id: [u8; 3],
    },
    /// Its source has this identity, and its train is wanted.
    Wanted {
        address_type: u8,
        sid: u8,
        broadcast_id: [u8; 3],
    },
}

/// The lowest slot that is what is sought; `None` exactly where none is. It takes no memory.
pub fn find_slot(slots: &Vec<Option<Slot>>, sought: &Sought) -> Option<u8>
    requires { vec_len slots.now ≤ 8 }
    ensures first { result ≡ slot_where (meets sought.now) 0 slots.now.items }
    ensures within { IfSome result (λ slot. slot < vec_len slots.now) }
{
    find_in(slots.as_slice(), sought)
}

/// The same among slots.
fn find_in(slots: &[Option<Slot>], sought: &Sought) -> Option<u8>
    requires { length slots.now ≤ 8 }
    ensures first { result ≡ slot_where (meets sought.now) 0 slots.now }
    ensures within { IfSome result (λ slot. slot < length slots.now) }
{
    'slots: for place in 0..slots.len() {
        if is_sought(&slots[place], sought) {
            return Some(place as u8);
        }
    }
    None
}

/// Whether the slot is what is sought.
fn is_sought(slot: &Option<Slot>, sought: &Sought) -> bool
    ensures { result ≡ meets sought.now slot.now }
{
    let Some(filled) = slot else {
        return matches!(sought, Sought::Empty);
    };
    let source = filled.source();
    match sought {
        Sought::Empty => false,
        Sought::SourceId(source_id) => source.source_id == *source_id,
        Sought::Identity {
            address_type,
            sid,
            broadcast_id,
        } => is_source(&source, *address_type, *sid, broadcast_id),
        Sought::Wanted {
            address_type,
            sid,
            broadcast_id,
        } => is_source(&source, *address_type, *sid, broadcast_id) && filled.pa_sync() != 0,
    }
}

/// Whether it is the source of this identity.
fn is_source(source: &Source, address_type: u8, sid: u8, broadcast_id: &[u8; 3]) -> bool
    ensures { result ≡ ((source.now.address_type == address_type)
        && ((source.now.sid == sid) && bytes_eq source.now.broadcast_id broadcast_id.now)) }
{
    source.address_type == address_type
        && source.sid == sid
        && are_same(&source.broadcast_id, broadcast_id)
}

/// Whether the Broadcast_IDs are the same.
fn are_same(id: &[u8; 3], other: &[u8; 3]) -> bool
    ensures { result ≡ bytes_eq id.now other.now }
{
    id.as_slice() == other.as_slice()
}

/// The least Source_ID that no slot has: at most the number of slots (Broadcast Audio Scan Service 1.0, section 3.2). It takes
/// no memory.
pub fn unused_id(slots: &Vec<Option<Slot>>) -> u8
    requires { vec_len slots.now ≤ 8 }
    ensures { result ≡ least_unused slots.now.items }
{
    let count = slots.len() as u8;
    'ids: for source_id in 0..count {
        if !is_used(slots, source_id) {
            return source_id;
        }
    }
    count
}

/// Whether a slot has the Source_ID.
fn is_used(slots: &Vec<Option<Slot>>, source_id: u8) -> bool
    requires { vec_len slots.now ≤ 8 }
    ensures { result ≡ is_some (slot_with source_id slots.now.items) }
{
    find_slot(slots, &Sought::SourceId(source_id)).is_some()
}
