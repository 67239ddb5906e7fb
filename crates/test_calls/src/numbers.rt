//! The numbers of the groups of the tests.
use big_info::BigInfo;

/// One unit of 4 octets every 10 ms on LE 2M, sent once.
pub const SINGLE: BigInfo = BigInfo {
    big_offset: 0,
    big_offset_units: 0,
    iso_interval: 8,
    num_bis: 1,
    nse: 1,
    bn: 1,
    sub_interval: 0,
    pto: 0,
    bis_spacing: 0,
    irc: 1,
    max_pdu: 4,
    seed_access_address: 0,
    sdu_interval: 10000,
    max_sdu: 4,
    base_crc_init: 0,
    chm: 0,
    phy: 1,
    bis_payload_count: 0,
    framing: 0,
    cipher: None,
};
