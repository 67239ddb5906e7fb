//! Operations: worked examples, and those of BlueZ 5.82 (unit/test-bass.c).
use bass_operations::{OpFault, Operation, Wish, Wishes, decode_operation, encode_operation};
use bcast_base::Octets;
use std::alloc::Global;

// An Add Source for 11:22:33:44:55:66, SID 3 and Broadcast_ID 0x123456, PA_Sync 2, an unknown interval and no preference.
const ADD: [u8; 21] = [
    2, 0, 0x66, 0x55, 0x44, 0x33, 0x22, 0x11, 3, 0x56, 0x34, 0x12, 2, 0xff, 0xff, 1, 0xff, 0xff,
    0xff, 0xff, 0,
];

// A Modify Source of source 7 with two subgroups, of which the second has metadata.
const MODIFY: [u8; 20] = [
    3, 7, 2, 0xff, 0xff, 2, 1, 0, 0, 0, 0, 2, 0, 0, 0, 4, 3, 2, 4, 0,
];

// A Set Broadcast_Code of BlueZ.
const CODE: [u8; 18] = [
    4, 1, 0x69, 0x3c, 0x45, 0x72, 0x68, 0x55, 0x26, 0x61, 0x34, 0x65, 0x59, 0x70, 0x73, 0x27, 0x54,
    0x55,
];

fn is_written_as_read(alloc: Global, octets: &[u8]) -> bool {
    let Ok(op) = &decode_operation(alloc, octets) else {
        return false;
    };
    match encode_operation(alloc, op) {
        Ok(encoded) => encoded.as_slice() == octets,
        Err(_) => false,
    }
}

static WRITTEN: [&[u8]; 4] = [&ADD, &MODIFY, &CODE, &[5, 5]];

#[test]
fn operations_are_written_as_they_were_read(rt: HostRuntime) {
    for octets in &WRITTEN {
        assert!(rt; is_written_as_read(rt.alloc(), octets));
    }
}

fn adds_without_preference(alloc: Global, octets: &[u8]) -> bool {
    match &decode_operation(alloc, octets) {
        Ok(Operation::Add(add)) => {
            add.address_type == 0
                && add.sid == 3
                && add.pa_sync == 2
                && add.pa_interval == 0xffff
                && add.wishes.count() == 1
                && add.wishes.item(0).bis_sync == 0xffff_ffff
        }
        _ => false,
    }
}

#[test]
fn an_add_source_tells_its_fields(rt: HostRuntime) {
    assert!(rt; adds_without_preference(rt.alloc(), &ADD));
}

// Writes that are refused, those with octets more than their fields among them, and the first fault of each.
static REFUSED: [(&[u8], OpFault); 13] = [
    (&[], OpFault::Empty),
    (&[6], OpFault::Opcode),
    (&[0xff], OpFault::Opcode),
    (&[2], OpFault::Length),
    (&[5, 2, 0xff], OpFault::Length),
    (
        &[
            2, 0, 0x66, 0x55, 0x44, 0x33, 0x22, 0x11, 3, 0x56, 0x34, 0x12, 3, 0xff, 0xff, 1, 0xff,
            0xff, 0xff, 0xff, 0,
        ],
        OpFault::Rfu { place: 12 },
    ),
    (&[0, 0x6d, 0xfe], OpFault::Length),
    (&[1, 0xc2, 0xa2], OpFault::Length),
    (
        &[
            2, 0, 0xf2, 0x69, 0x8b, 0xe8, 0x07, 0xc0, 0, 0x34, 0x12, 0, 2, 0x10, 0x27, 1, 0, 0, 0,
            0, 0, 0, 0,
        ],
        OpFault::Length,
    ),
    (
        &[3, 0, 2, 0x10, 0x27, 1, 0, 0, 0, 0, 0, 0x15, 0],
        OpFault::Length,
    ),
    (
        &[
            4, 0, 0xb8, 0x03, 0xea, 0xc6, 0xaf, 0xbb, 0x65, 0xa2, 0x5a, 0x41, 0xf1, 0x53, 0x05,
            0x68, 2, 1, 0, 0,
        ],
        OpFault::Length,
    ),
    (&[5, 0, 0x8f, 0x13], OpFault::Length),
    (
        &[3, 7, 2, 0xff, 0xff, 2, 5, 0, 0, 0, 0, 6, 0, 0, 0, 0],
        OpFault::BisTwice { bis: 3 },
    ),
];

fn has_fault(alloc: Global, octets: &[u8], wanted: OpFault) -> bool {
    match &decode_operation(alloc, octets) {
        Ok(_) => false,
        Err(fault) => *fault == wanted,
    }
}

#[test]
fn refused_writes_tell_the_first_fault(rt: HostRuntime) {
    for (octets, fault) in &REFUSED {
        assert!(rt; has_fault(rt.alloc(), octets, *fault));
    }
}

fn is_pushed(alloc: Global) -> bool {
    let mut wishes = Wishes::new(alloc);
    let Ok(metadata) = Octets::copy(alloc, &METADATA) else {
        return false;
    };
    let wish = Wish {
        bis_sync: 1,
        metadata,
    };
    match wishes.push(wish) {
        Ok(()) => wishes.item(0).metadata.as_slice() == METADATA.as_slice(),
        Err(_) => false,
    }
}

const METADATA: [u8; 4] = [3, 2, 4, 0];

#[test]
fn a_wish_is_pushed(rt: HostRuntime) {
    assert!(rt; is_pushed(rt.alloc()));
}
