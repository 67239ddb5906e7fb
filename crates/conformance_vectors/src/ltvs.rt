//! LTV lists: a configuration of the test programs, and the calls that take memory.
use ltv_codec::{Config, LtvBad, LtvFault, Ltvs, check_ltvs, decode_ltvs, encode_ltvs};
use std::alloc::Global;

// A codec configuration of 16_2_1 (BlueZ, test programs of the audio profiles): 16 kHz, 10 ms, front left, 40 octets.
const CONFIG: [u8; 16] = [2, 1, 3, 2, 2, 1, 5, 3, 1, 0, 0, 0, 3, 4, 40, 0];

const FREQUENCY: [u8; 3] = [2, 1, 8];

fn encodes(alloc: Global, list: &Ltvs, octets: &[u8]) -> bool {
    match encode_ltvs(alloc, list) {
        Ok(encoded) => encoded.as_slice() == octets,
        Err(_) => false,
    }
}

fn is_written_as_read(alloc: Global, octets: &[u8]) -> bool {
    match decode_ltvs(alloc, octets) {
        Ok(list) => encodes(alloc, &list, octets),
        Err(_) => false,
    }
}

fn is_pushed(alloc: Global) -> bool {
    let mut list = Ltvs::new(alloc);
    match list.push(2, &[2, 0]) {
        Ok(()) => encodes(alloc, &list, &[3, 2, 2, 0]),
        Err(_) => false,
    }
}

#[test]
fn a_list_is_written_as_it_was_read_or_pushed(rt: HostRuntime) {
    assert!(rt; is_written_as_read(rt.alloc(), &CONFIG));
    assert!(rt; is_written_as_read(rt.alloc(), &[]));
    assert!(rt; is_pushed(rt.alloc()));
}

// The values of a high list over those of a low one.
fn values_of(high: &[u8], low: &[u8]) -> Option<Config> {
    let Ok(()) = check_ltvs(high) else {
        return None;
    };
    let Ok(()) = check_ltvs(low) else {
        return None;
    };
    Some(Config::of(high, low))
}

const VALUES: Config = Config {
    frequency: Some(8),
    duration: Some(1),
    allocation: Some(1),
    frame_octets: Some(40),
    blocks: None,
};

#[test]
fn a_configuration_is_that_of_the_test_programs(rt: HostRuntime) {
    assert!(rt; values_of(&FREQUENCY, &CONFIG) == Some(VALUES));
}

fn has_fault(alloc: Global, octets: &[u8], bad: LtvBad) -> bool {
    match decode_ltvs(alloc, octets) {
        Ok(_) => false,
        Err(fault) => fault == LtvFault::Bad(bad),
    }
}

#[test]
fn the_first_bad_length_octet_is_told(rt: HostRuntime) {
    let short = LtvBad::Short { place: 3 };
    assert!(rt; has_fault(rt.alloc(), &[2, 1, 8, 2, 2], short));
    assert!(rt; has_fault(rt.alloc(), &[0], LtvBad::ZeroLength { place: 0 }));
}
