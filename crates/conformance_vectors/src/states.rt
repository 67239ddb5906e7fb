//! Receive states: worked examples, and each fault of the decoder.
use bcast_base::Octets;
use receive_state::{
    Encryption, GroupState, GroupStates, ReceiveState, StateFault, decode_state, encode_state,
};
use std::alloc::Global;

// A source of 11:22:33:44:55:66, SID 3 and Broadcast_ID 0x123456 to which the server isn't synchronised, with one subgroup.
const STATE: [u8; 20] = [
    0, 0, 0x66, 0x55, 0x44, 0x33, 0x22, 0x11, 3, 0x56, 0x34, 0x12, 0, 0, 1, 0, 0, 0, 0, 0,
];

// The same source, synchronised, with two subgroups of which the second has metadata.
const TWO_GROUPS: [u8; 29] = [
    0, 0, 0x66, 0x55, 0x44, 0x33, 0x22, 0x11, 3, 0x56, 0x34, 0x12, 2, 0, 2, 1, 0, 0, 0, 0, 2, 0, 0,
    0, 4, 3, 2, 4, 0,
];

fn encodes(alloc: Global, state: &ReceiveState, octets: &[u8]) -> bool {
    if !state.fits() {
        return false;
    }
    match encode_state(alloc, Some(state)) {
        Ok(encoded) => encoded.as_slice() == octets,
        Err(_) => false,
    }
}

fn is_written_as_read(alloc: Global, octets: &[u8]) -> bool {
    match &decode_state(alloc, octets) {
        Ok(Some(state)) => encodes(alloc, state, octets),
        _ => false,
    }
}

#[test]
fn states_are_written_as_they_were_read(rt: HostRuntime) {
    assert!(rt; is_written_as_read(rt.alloc(), &STATE));
    assert!(rt; is_written_as_read(rt.alloc(), &TWO_GROUPS));
}

fn is_not_synchronised(state: &ReceiveState) -> bool {
    state.source_id == 0
        && state.address_type == 0
        && state.sid == 3
        && state.pa_sync_state == 0
        && matches!(&state.encryption, Encryption::None)
        && state.groups.count() == 1
        && state.groups.item(0).bis_sync_state == 0
}

fn tells_its_fields(alloc: Global, octets: &[u8]) -> bool {
    match &decode_state(alloc, octets) {
        Ok(Some(state)) => is_not_synchronised(state),
        _ => false,
    }
}

#[test]
fn a_state_tells_its_fields(rt: HostRuntime) {
    assert!(rt; tells_its_fields(rt.alloc(), &STATE));
}

// The same state, cut to as many octets as the place in this list and one more, is short from there on.
const CUTS: [usize; 19] = [
    1, 2, 2, 2, 2, 2, 2, 8, 9, 9, 9, 12, 13, 14, 15, 15, 15, 15, 19,
];

fn has_fault(alloc: Global, octets: &[u8], wanted: StateFault) -> bool {
    match &decode_state(alloc, octets) {
        Ok(_) => false,
        Err(fault) => *fault == wanted,
    }
}

#[test]
fn a_state_that_is_cut_is_short_at_the_field_that_is_cut(rt: HostRuntime) {
    for i in 0..CUTS.len() {
        assert!(rt;
            has_fault(
                rt.alloc(),
                &STATE[..i + 1],
                StateFault::Short { place: CUTS[i] }
            )
        );
    }
}

// Each change of an octet brings a fault that comes before those of the earlier changes.
static CHANGES: [(usize, u8, StateFault); 4] = [
    (20, 0, StateFault::Trailing { place: 20 }),
    (18, 0x80, StateFault::Rfu { place: 15 }),
    (13, 4, StateFault::Rfu { place: 13 }),
    (1, 2, StateFault::Rfu { place: 1 }),
];

#[test]
fn a_reserved_value_comes_before_octets_that_are_left(rt: HostRuntime) {
    let mut octets = [0; 21];
    octets[..20].copy_from_slice(&STATE);
    for (place, octet, fault) in &CHANGES {
        if *place < octets.len() {
            octets[*place] = *octet;
        }
        assert!(rt; has_fault(rt.alloc(), &octets, *fault));
    }
}

const METADATA: [u8; 4] = [3, 2, 4, 0];

fn is_pushed(alloc: Global) -> bool {
    let mut groups = GroupStates::new(alloc);
    let Ok(metadata) = Octets::copy(alloc, &METADATA) else {
        return false;
    };
    let group = GroupState {
        bis_sync_state: 1,
        metadata,
    };
    match groups.push(group) {
        Ok(()) => groups.item(0).bis_sync_state == 1,
        Err(_) => false,
    }
}

#[test]
fn a_subgroup_is_pushed(rt: HostRuntime) {
    assert!(rt; is_pushed(rt.alloc()));
}
