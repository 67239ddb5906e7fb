//! BASEs of one stream with its location and contexts.
use crate::bluez::{Meaning, Vector};
use ltv_codec::Config;

pub(super) static LOCATED: [Vector; 4] = [
    // base_lc3_16_2_1
    Vector {
        octets: &[
            0x40, 0x9c, 0, 1, 1, 6, 0, 0, 0, 0, 0x10, 2, 1, 3, 2, 2, 1, 5, 3, 1, 0, 0, 0, 3, 4,
            0x28, 0, 4, 3, 2, 2, 0, 1, 0,
        ],
        means: Meaning {
            delay: 40000,
            streams: 1,
            config: Config {
                frequency: Some(3),
                duration: Some(1),
                allocation: Some(1),
                frame_octets: Some(40),
                blocks: None,
            },
            contexts: Some(2),
        },
    },
    // base_lc3_48_2_g
    Vector {
        octets: &[
            0x10, 0x27, 0, 1, 1, 6, 0, 0, 0, 0, 0xa, 2, 1, 8, 2, 2, 1, 3, 4, 0x64, 0, 4, 3, 2, 2,
            0, 1, 6, 5, 3, 1, 0, 0, 0,
        ],
        means: Meaning {
            delay: 10000,
            streams: 1,
            config: Config {
                frequency: Some(8),
                duration: Some(1),
                allocation: Some(1),
                frame_octets: Some(100),
                blocks: None,
            },
            contexts: Some(2),
        },
    },
    // base_lc3_48_3_g and base_lc3_48_4_g
    Vector {
        octets: &[
            0x10, 0x27, 0, 1, 1, 6, 0, 0, 0, 0, 0xa, 2, 1, 8, 2, 2, 0, 3, 4, 0x5a, 0, 4, 3, 2, 2,
            0, 1, 6, 5, 3, 1, 0, 0, 0,
        ],
        means: Meaning {
            delay: 10000,
            streams: 1,
            config: Config {
                frequency: Some(8),
                duration: Some(0),
                allocation: Some(1),
                frame_octets: Some(90),
                blocks: None,
            },
            contexts: Some(2),
        },
    },
    // base_lc3_ac_14
    Vector {
        octets: &[
            0x28, 0, 0, 1, 1, 6, 0, 0, 0, 0, 0x10, 2, 1, 3, 2, 2, 1, 5, 3, 1, 0, 0, 0, 3, 4, 0x28,
            0, 4, 3, 2, 2, 0, 1, 6, 5, 3, 3, 0, 0, 0,
        ],
        means: Meaning {
            delay: 40,
            streams: 1,
            config: Config {
                frequency: Some(3),
                duration: Some(1),
                allocation: Some(3),
                frame_octets: Some(40),
                blocks: None,
            },
            contexts: Some(2),
        },
    },
];
