//! What the slots of a sink have, which a train is compared with.
use crate::trains::Identity;
use bcast_base::{Memory, Octets};
use note_parts::put_note;
use receive_state::{ReceiveState, StateFault, decode_state};
use replay_steps::Machine;
use scenario_words::Word;
use std::alloc::Global;

/// Puts by what each filled slot of a sink is known, where no train is wanted by which it is the same.
pub fn put_slots(
    rows: &mut Octets,
    alloc: Global,
    machine: &Machine,
    sink: u8,
    train: Identity,
) -> Result<(), Memory> {
    if sink > 7 {
        return Ok(());
    }
    'slots: for slot in 0..8u8 {
        if let Some(octets) = machine.state_of(sink, slot)? {
            match decode_state(alloc, octets.as_slice()) {
                Ok(Some(state)) => put_slot(rows, slot, &state, train)?,
                Err(StateFault::Memory) => return Err(Memory),
                _ => {}
            }
        }
    }
    Ok(())
}

/// By what the slot of a sink with this Source_ID is known.
pub(crate) fn identity_of(
    alloc: Global,
    machine: &Machine,
    sink: u8,
    source_id: u8,
) -> Result<Option<Identity>, Memory> {
    if sink > 7 {
        return Ok(None);
    }
    'slots: for slot in 0..8u8 {
        if let Some(octets) = machine.state_of(sink, slot)? {
            match decode_state(alloc, octets.as_slice()) {
                Ok(Some(state)) if state.source_id == source_id => {
                    let of = Identity::of(state.address_type, state.sid, state.broadcast_id);
                    return Ok(Some(of));
                }
                Err(StateFault::Memory) => return Err(Memory),
                _ => {}
            }
        }
    }
    Ok(None)
}

/// Puts by what a slot is known. Where the train is known by the same, the slot has no wish for it.
fn put_slot(
    rows: &mut Octets,
    slot: u8,
    state: &ReceiveState,
    train: Identity,
) -> Result<(), Memory> {
    let told = if train.is_of(state.address_type, state.sid, &state.broadcast_id) {
        "and PA 0"
    } else {
        "and is for another train"
    };
    put_note(
        rows,
        &[
            Word::Text(b"slot"),
            Word::Number(u64::from(slot)),
            Word::Text(b"has TYPE"),
            Word::Number(u64::from(state.address_type)),
            Word::Text(b"SID"),
            Word::Number(u64::from(state.sid)),
            Word::Text(b"ID"),
            Word::Octets(state.broadcast_id.as_slice()),
            Word::Text(told.as_bytes()),
        ],
    )
}
