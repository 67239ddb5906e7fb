//! What sources announce before their first event: of one stream, of two streams of LC3, and of an encrypted group.
use announcement_train::Train;
use base_grammar::decode_base;
use big_info::{BigInfo, Cipher};
use std::alloc::Global;

// One stream of a unit every 10 ms in PDUs of at most 4 octets on LE 2M.
const ONE_STREAM: BigInfo = BigInfo {
    big_offset: 0,
    big_offset_units: 0,
    iso_interval: 8,
    num_bis: 1,
    nse: 1,
    bn: 1,
    sub_interval: 0,
    pto: 0,
    bis_spacing: 0,
    irc: 1,
    max_pdu: 4,
    seed_access_address: 0,
    sdu_interval: 10000,
    max_sdu: 4,
    base_crc_init: 0,
    chm: 0,
    phy: 1,
    bis_payload_count: 0,
    framing: 0,
    cipher: None,
};

const TWO_STREAMS: BigInfo = BigInfo {
    num_bis: 2,
    nse: 3,
    sub_interval: 600,
    bis_spacing: 1800,
    irc: 2,
    pto: 1,
    max_pdu: 100,
    max_sdu: 100,
    ..ONE_STREAM
};

const ENCRYPTED: BigInfo = BigInfo {
    cipher: Some(Cipher {
        giv: [1, 2, 3, 4, 5, 6, 7, 8],
        gskd: [0x11; 16],
    }),
    ..ONE_STREAM
};

// The extended advertising of the Broadcast_ID 0x123456.
const EXT: [u8; 7] = [0x06, 0x16, 0x52, 0x18, 0x56, 0x34, 0x12];

// A BASE and the numbers of a group, and what is announced of them: the periodic advertising and the additional controller data.
struct Announced {
    base: &'static [u8],
    info: BigInfo,
    adv: &'static [u8],
    acad: &'static [u8],
}

static ANNOUNCED: [Announced; 3] = [
    Announced {
        base: &[0x40, 0x9c, 0, 1, 1, 0xff, 1, 0, 2, 0, 0, 0, 1, 0],
        info: ONE_STREAM,
        adv: &[
            0x11, 0x16, 0x51, 0x18, 0x40, 0x9c, 0, 1, 1, 0xff, 1, 0, 2, 0, 0, 0, 1, 0,
        ],
        acad: &[
            0x22, 0x2c, 0x64, 0, 0x04, 0x08, 0x21, 0, 0, 0, 0, 0, 0x10, 0x04, 0, 0, 0, 0, 0, 0x10,
            0x27, 0x40, 0, 0, 0, 0xff, 0xff, 0xff, 0xff, 0x3f, 0, 0, 0, 0, 0,
        ],
    },
    Announced {
        base: &[
            0x40, 0x9c, 0, 1, 2, 6, 0, 0, 0, 0, 10, 2, 1, 8, 2, 2, 1, 3, 4, 100, 0, 4, 3, 2, 4, 0,
            1, 6, 5, 3, 1, 0, 0, 0, 2, 6, 5, 3, 2, 0, 0, 0,
        ],
        info: TWO_STREAMS,
        adv: &[
            0x2d, 0x16, 0x51, 0x18, 0x40, 0x9c, 0, 1, 2, 6, 0, 0, 0, 0, 10, 2, 1, 8, 2, 2, 1, 3, 4,
            100, 0, 4, 3, 2, 4, 0, 1, 6, 5, 3, 1, 0, 0, 0, 2, 6, 5, 3, 2, 0, 0, 0,
        ],
        acad: &[
            0x22, 0x2c, 0x64, 0, 0x04, 0x10, 0x23, 0x58, 0x02, 0x10, 0x08, 0x07, 0x20, 0x64, 0, 0,
            0, 0, 0, 0x10, 0x27, 0x40, 0x06, 0, 0, 0xff, 0xff, 0xff, 0xff, 0x3f, 0, 0, 0, 0, 0,
        ],
    },
    Announced {
        base: &[0x40, 0x9c, 0, 1, 1, 6, 0, 0, 0, 0, 0, 0, 1, 0],
        info: ENCRYPTED,
        adv: &[
            0x11, 0x16, 0x51, 0x18, 0x40, 0x9c, 0, 1, 1, 6, 0, 0, 0, 0, 0, 0, 1, 0,
        ],
        acad: &[
            0x3a, 0x2c, 0x64, 0, 0x04, 0x08, 0x21, 0, 0, 0, 0, 0, 0x10, 0x04, 0, 0, 0, 0, 0, 0x10,
            0x27, 0x40, 0, 0, 0, 0xff, 0xff, 0xff, 0xff, 0x3f, 0, 0, 0, 0, 0, 1, 2, 3, 4, 5, 6, 7,
            8, 0x11, 0x11, 0x11, 0x11, 0x11, 0x11, 0x11, 0x11, 0x11, 0x11, 0x11, 0x11, 0x11, 0x11,
            0x11, 0x11,
        ],
    },
];

// Whether that is the train for event 0, whose anchor is at 20 ms.
fn is_announced(alloc: Global, of: &Announced) -> bool {
    if !of.info.fits() {
        return false;
    }
    let Ok(base) = decode_base(alloc, of.base) else {
        return false;
    };
    match Train::of_event(alloc, [0x56, 0x34, 0x12], &base, &of.info, 0, 20_000) {
        Ok(train) => {
            train.time == 17_000
                && train.ext.as_slice() == EXT.as_slice()
                && train.adv.as_slice() == of.adv
                && train.acad.as_slice() == of.acad
        }
        Err(_) => false,
    }
}

#[test]
fn sources_announce_their_first_event(rt: HostRuntime) {
    for of in &ANNOUNCED {
        assert!(rt; is_announced(rt.alloc(), of));
    }
}
