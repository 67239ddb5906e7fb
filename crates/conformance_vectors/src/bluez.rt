//! BASEs and what they mean: facts of the public test programs of BlueZ 5.82, by the names that they have there. A
//! configuration that is not of LC3 has no values.
mod located;
mod pairs;

use crate::base::encodes;
use base_grammar::{Base, decode_base};
use bcast_base::Bis;
use located::LOCATED;
use ltv_codec::Config;
use pairs::PAIRS;
use std::alloc::Global;

// What holds for BIS 1 of the only subgroup, and how many streams it has.
#[derive(Clone, Copy)]
pub struct Meaning {
    pub delay: u32,
    pub streams: usize,
    pub config: Config,
    pub contexts: Option<u16>,
}

pub struct Vector {
    pub octets: &'static [u8],
    pub means: Meaning,
}

// A BASE of one stream and one of two, and the frequency, the duration and the octets of a frame of both.
pub struct Pair {
    pub one: &'static [u8],
    pub two: &'static [u8],
    pub values: (Option<u8>, Option<u8>, Option<u16>),
}

// What a BASE of so many streams with the values of a pair means.
fn plain(streams: usize, pair: &Pair) -> Meaning {
    let (frequency, duration, frame_octets) = pair.values;
    Meaning {
        delay: 40000,
        streams,
        config: Config {
            frequency,
            duration,
            allocation: None,
            frame_octets,
            blocks: None,
        },
        contexts: None,
    }
}

// Whether the BASE has one subgroup, in which BIS 1 has this meaning.
fn has_meaning(base: &Base, means: &Meaning) -> bool {
    let Some(bis) = Bis::new(1) else {
        return false;
    };
    match base.effective(bis) {
        Some(values) => {
            base.count() == 1
                && base.delay() == means.delay
                && base.subgroup(0).entries.count() == means.streams
                && values.config == means.config
                && values.contexts == means.contexts
        }
        None => false,
    }
}

// Whether octets are read as a BASE of this meaning, and written again.
fn holds(alloc: Global, octets: &[u8], means: &Meaning) -> bool {
    match decode_base(alloc, octets) {
        Ok(base) => has_meaning(&base, means) && encodes(alloc, &base, octets),
        Err(_) => false,
    }
}

#[test]
fn bases_mean_what_the_test_programs_say(rt: HostRuntime) {
    for vector in &LOCATED {
        assert!(rt; holds(rt.alloc(), vector.octets, &vector.means));
    }
    for pair in &PAIRS {
        assert!(rt;
            holds(rt.alloc(), pair.one, &plain(1, pair))
                && holds(rt.alloc(), pair.two, &plain(2, pair))
        );
    }
}
