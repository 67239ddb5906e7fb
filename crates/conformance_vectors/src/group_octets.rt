//! A BIGInfo and its octets: of a group that is announced, the same encrypted, and each field at its greatest.
use big_info::{BigInfo, Cipher, decode_big_info, encode_big_info};

// The BIGInfo of a group of one stream that is announced with an offset of 3,000 µs.
const ANNOUNCED: [u8; 33] = [
    0x64, 0x00, 0x04, 0x08, 0x21, 0x00, 0x00, 0x00, 0x00, 0x00, 0x10, 0x04, 0x00, 0x00, 0x00, 0x00,
    0x00, 0x10, 0x27, 0x40, 0x00, 0x00, 0x00, 0xff, 0xff, 0xff, 0xff, 0x3f, 0x00, 0x00, 0x00, 0x00,
    0x00,
];

// The same of an encrypted group.
const ENCRYPTED: [u8; 57] = [
    0x64, 0x00, 0x04, 0x08, 0x21, 0x00, 0x00, 0x00, 0x00, 0x00, 0x10, 0x04, 0x00, 0x00, 0x00, 0x00,
    0x00, 0x10, 0x27, 0x40, 0x00, 0x00, 0x00, 0xff, 0xff, 0xff, 0xff, 0x3f, 0x00, 0x00, 0x00, 0x00,
    0x00, 0x01, 0x02, 0x03, 0x04, 0x05, 0x06, 0x07, 0x08, 0x11, 0x11, 0x11, 0x11, 0x11, 0x11, 0x11,
    0x11, 0x11, 0x11, 0x11, 0x11, 0x11, 0x11, 0x11, 0x11,
];

// Each field at its greatest.
const GREATEST: BigInfo = BigInfo {
    big_offset: 16383,
    big_offset_units: 1,
    iso_interval: 4095,
    num_bis: 31,
    nse: 31,
    bn: 7,
    sub_interval: 1048575,
    pto: 15,
    bis_spacing: 1048575,
    irc: 15,
    max_pdu: 255,
    seed_access_address: 4294967295,
    sdu_interval: 1048575,
    max_sdu: 4095,
    base_crc_init: 65535,
    chm: 137438953471,
    phy: 7,
    bis_payload_count: 549755813887,
    framing: 1,
    cipher: None,
};

// Each field at its greatest fills all bits but those for future use.
const FILLED: [u8; 33] = [
    0xff, 0xff, 0xff, 0xff, 0xff, 0xff, 0xff, 0xff, 0xff, 0xff, 0xff, 0xff, 0x00, 0xff, 0xff, 0xff,
    0xff, 0xff, 0xff, 0xff, 0xff, 0xff, 0xff, 0xff, 0xff, 0xff, 0xff, 0xff, 0xff, 0xff, 0xff, 0xff,
    0xff,
];

// One stream of a unit of 4 octets every 10 ms on LE 2M, an offset of 3,000 µs, and all channels.
const PLAIN: BigInfo = BigInfo {
    big_offset: 100,
    big_offset_units: 0,
    iso_interval: 8,
    num_bis: 1,
    nse: 1,
    bn: 1,
    sub_interval: 0,
    pto: 0,
    bis_spacing: 0,
    irc: 1,
    max_pdu: 4,
    seed_access_address: 0,
    sdu_interval: 10000,
    max_sdu: 4,
    base_crc_init: 0,
    chm: 137438953471,
    phy: 1,
    bis_payload_count: 0,
    framing: 0,
    cipher: None,
};

const LOCKED: BigInfo = BigInfo {
    cipher: Some(Cipher {
        giv: [1, 2, 3, 4, 5, 6, 7, 8],
        gskd: [0x11; 16],
    }),
    ..PLAIN
};

fn encodes(info: &BigInfo, octets: &[u8]) -> bool {
    let mut into = [0; 57];
    if !info.fits() {
        return false;
    }
    let len = encode_big_info(info, &mut into);
    &into[..len] == octets
}

// Whether octets are read as an info that has this encoding.
fn reads(from: &[u8], octets: &[u8]) -> bool {
    match decode_big_info(from) {
        Ok(info) => encodes(&info, octets),
        Err(_) => false,
    }
}

static SPELLED: [(&BigInfo, &[u8]); 3] = [
    (&PLAIN, &ANNOUNCED),
    (&LOCKED, &ENCRYPTED),
    (&GREATEST, &FILLED),
];

#[test]
fn each_info_has_its_octets(rt: HostRuntime) {
    for (info, octets) in &SPELLED {
        assert!(rt; encodes(info, octets));
        assert!(rt; reads(octets, octets));
    }
    assert!(rt; reads(&[0xff; 33], &FILLED));
}
