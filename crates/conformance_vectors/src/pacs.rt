//! Sink PAC values: worked ones, and one of a public test program (BlueZ 5.82, unit tests of the Basic Audio Profile).
use bcast_base::Octets;
use ltv_codec::{Caps, check_ltvs};
use pacs_records::{PacRecord, Records, decode_pacs, encode_pacs};
use std::alloc::Global;

const LC3: [u8; 5] = [6, 0, 0, 0, 0];

// 8 to 48 kHz, 7.5 and 10 ms, one or two channels, 30 to 240 octets of a frame (BlueZ).
const SINK_PAC: [u8; 24] = [
    0x01, 0x06, 0x00, 0x00, 0x00, 0x00, 0x10, 0x03, 0x01, 0xff, 0x00, 0x02, 0x02, 0x03, 0x02, 0x03,
    0x03, 0x05, 0x04, 0x1e, 0x00, 0xf0, 0x00, 0x00,
];

// A record of LC3 with 16 kHz, 7.5 and 10 ms, 30 to 155 octets of a frame, and one of a vendor's codec with metadata.
const TWO_RECORDS: [u8; 33] = [
    2, 6, 0, 0, 0, 0, 13, 3, 1, 4, 0, 2, 2, 3, 5, 4, 30, 0, 155, 0, 0, 0xff, 1, 0, 2, 0, 1, 0x77,
    4, 3, 2, 4, 0,
];

fn is_written_as_read(alloc: Global, octets: &[u8]) -> bool {
    let Ok(records) = decode_pacs(alloc, octets) else {
        return false;
    };
    match encode_pacs(alloc, &records) {
        Ok(encoded) => encoded.as_slice() == octets,
        Err(_) => false,
    }
}

static WRITTEN: [&[u8]; 3] = [&SINK_PAC, &TWO_RECORDS, &[0]];

#[test]
fn values_are_written_as_they_were_read(rt: HostRuntime) {
    for octets in &WRITTEN {
        assert!(rt; is_written_as_read(rt.alloc(), octets));
    }
}

// The capabilities of the only record of a value.
fn caps_of(alloc: Global, octets: &[u8]) -> Option<Caps> {
    let Ok(records) = decode_pacs(alloc, octets) else {
        return None;
    };
    if records.count() != 1 {
        return None;
    }
    let entry = records.item(0);
    let caps = entry.caps.as_slice();
    match check_ltvs(caps) {
        Ok(()) if entry.codec == LC3 => Some(Caps::of(caps)),
        _ => None,
    }
}

const SINK_CAPS: Caps = Caps {
    frequencies: Some(0xff),
    durations: Some(3),
    counts: Some(3),
    least: Some(30),
    greatest: Some(240),
    frames: None,
};

#[test]
fn a_sink_pac_has_its_capabilities(rt: HostRuntime) {
    assert!(rt; caps_of(rt.alloc(), &SINK_PAC) == Some(SINK_CAPS));
}

// How many records there are where two empty ones are pushed.
fn pushed(alloc: Global) -> Option<usize> {
    let mut records = Records::new(alloc);
    for _ in 0..2 {
        let entry = PacRecord {
            codec: LC3,
            caps: Octets::new(alloc),
            metadata: Octets::new(alloc),
        };
        let Ok(()) = check_ltvs(&[]) else {
            return None;
        };
        let Ok(()) = records.push(entry) else {
            return None;
        };
    }
    Some(records.count())
}

#[test]
fn records_are_pushed(rt: HostRuntime) {
    assert!(rt; pushed(rt.alloc()) == Some(2));
}
