//! A receive state as a struct of C.
ghost use Rattle.std.specs.Prelude.{◌≡◌, ◌≢◌, ◌<◌, ◌≤◌, length, take, Ok, Some, None, true, false};
ghost use Rattle.c_values.specs.Faults.{state_fault_c};
ghost use Rattle.c_values.specs.Statuses.{empty, layout, memory, no_room, ok};
ghost use Rattle.receive_state.specs.Reading.{state_of};
ghost use Rattle.receive_state.specs.declared.state.ReceiveState.{ReceiveState};
ghost use Rattle.layouts_c.specs.Checks.{CheckedAs};
ghost use Rattle.layouts_c.specs.States.{bits_of, code_c, state_c};

use c_values::status::{EMPTY, LAYOUT, MEMORY, OK, ROOM};
use c_values::{AirFault, state_fault_for_c};
use receive_state::{Encryption, GroupState, ReceiveState, StateFault, decode_state};
use std::alloc::Global;

/// A receive state: how many subgroups it has, and its fields before them. The Bad_Code is 0 where none is told.
#[repr(C)]
#[derive(Clone, Copy)]
pub struct AirState {
    pub subgroups: usize,
    pub source_id: u8,
    pub address_type: u8,
    pub address: [u8; 6],
    pub sid: u8,
    pub broadcast_id: [u8; 3],
    pub pa_sync_state: u8,
    pub encryption: u8,
    pub bad_code: [u8; 16],
}

/// BIG_Encryption and Bad_Code.
fn code_for_c(encryption: &Encryption) -> (u8, [u8; 16])
    ensures { result ≡ code_c encryption.now }
{
    match encryption {
        Encryption::None => (0, [0; 16]),
        Encryption::CodeRequired => (1, [0; 16]),
        Encryption::Decrypting => (2, [0; 16]),
        Encryption::BadCode(code) => (3, *code),
    }
}

/// The struct that stands for a state.
fn state_for_c(state: &ReceiveState) -> AirState
    ensures { result ≡ state_c state.now }
{
    let (encryption, bad_code) = code_for_c(&state.encryption);
    AirState {
        subgroups: state.groups.count(),
        source_id: state.source_id,
        address_type: state.address_type,
        address: state.address,
        sid: state.sid,
        broadcast_id: state.broadcast_id,
        pa_sync_state: state.pa_sync_state,
        encryption,
        bad_code,
    }
}

/// Puts the BIS_Sync_State of each subgroup at the front of the room, where they fit.
fn put_bits(groups: &[GroupState], room: &mut [u32]) -> bool
    ensures put { result ≡ true → take (length groups.now) room.new ≡ bits_of groups.now }
    ensures same { result ≡ false → room.new ≡ room.old }
    ensures fits { length groups.now ≤ length room.old → result ≡ true }
{
    if groups.len() > room.len() {
        return false;
    }
    'groups: for place in 0..groups.len() {
        room[place] = groups[place].bis_sync_state;
    }
    true
}

/// Reads a receive state (Broadcast Audio Scan Service 1.0, section 3.2): its fields, and the BIS_Sync_State of each subgroup at
/// the front of the room. No octets are no source.
#[unsafe(no_mangle)]
pub extern "C" fn air_state_read(
    alloc: Global,
    from: &[u8],
    into: &mut AirState,
    bis_sync: &mut [u32],
    fault: &mut AirFault,
) -> u32
    ensures checked { CheckedAs state_fault_c (state_of from.now) result fault.old fault.new }
    ensures state { (state : ReceiveState) → state_of from.now ≡ Ok (Some state) → result ≡ ok → into.new ≡ state_c state }
    ensures bits { (state : ReceiveState) → state_of from.now ≡ Ok (Some state) → result ≡ ok
        → take (length state.groups) bis_sync.new ≡ bits_of state.groups }
    ensures room { (state : ReceiveState) → state_of from.now ≡ Ok (Some state) → result ≡ no_room
        → length bis_sync.old < length state.groups }
    ensures none { state_of from.now ≡ Ok None → result ≡ empty }
    ensures some { (state : ReceiveState) → state_of from.now ≡ Ok (Some state) → result ≢ empty }
    ensures same { result ≢ ok → (into.new ≡ into.old) × (bis_sync.new ≡ bis_sync.old) }
    ensures either { result ≢ ok → result ≢ layout → result ≢ empty → result ≢ no_room → result ≡ memory }
{
    let state = match decode_state(alloc, from) {
        Ok(Some(state)) => state,
        Ok(None) => return EMPTY,
        Err(StateFault::Memory) => return MEMORY,
        Err(found) => {
            *fault = state_fault_for_c(found);
            return LAYOUT;
        }
    };
    if !put_bits(state.groups.as_slice(), bis_sync) {
        return ROOM;
    }
    *into = state_for_c(&state);
    OK
}
