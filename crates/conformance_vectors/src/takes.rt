//! Which streams a sink takes: rows of the match.
use base_grammar::decode_base;
use bcast_base::Bis;
use pacs_records::{Capability, NotTaken, decode_pacs, takes};
use std::alloc::Global;

// One record of LC3: 16 kHz, 7.5 and 10 ms, 30 to 155 octets of a frame, no metadata.
const RECORD: [u8; 21] = [
    1, 6, 0, 0, 0, 0, 13, 3, 1, 4, 0, 2, 2, 3, 5, 4, 30, 0, 155, 0, 0,
];

// One record of a vendor's codec.
const VENDOR_RECORD: [u8; 8] = [1, 0xff, 1, 0, 2, 0, 0, 0];

// A stream of LC3 whose level 2 is 16 kHz, 10 ms, 40 octets of a frame.
const LEVEL_2: [u8; 24] = [
    0x40, 0x9c, 0, 1, 1, 6, 0, 0, 0, 0, 10, 2, 1, 3, 2, 2, 1, 3, 4, 40, 0, 0, 1, 0,
];

// The same with 48 kHz at level 3.
const LEVEL_3: [u8; 27] = [
    0x40, 0x9c, 0, 1, 1, 6, 0, 0, 0, 0, 10, 2, 1, 3, 2, 2, 1, 3, 4, 40, 0, 0, 1, 3, 2, 1, 8,
];

// A stream of LC3 with no configuration.
const BARE: [u8; 14] = [0x40, 0x9c, 0, 1, 1, 6, 0, 0, 0, 0, 0, 0, 1, 0];

// A stream of the vendor's codec.
const VENDOR: [u8; 14] = [0x40, 0x9c, 0, 1, 1, 0xff, 1, 0, 2, 0, 0, 0, 1, 0];

// A PAC value, the locations and the contexts of a sink, a BASE, and what the sink answers to its stream 1.
struct Row {
    pacs: &'static [u8],
    locations: u32,
    contexts: u16,
    base: &'static [u8],
    answer: Result<(), NotTaken>,
}

static ROWS: [Row; 4] = [
    Row {
        pacs: &RECORD,
        locations: 0,
        contexts: 0xffff,
        base: &LEVEL_2,
        answer: Ok(()),
    },
    Row {
        pacs: &RECORD,
        locations: 0,
        contexts: 0xffff,
        base: &LEVEL_3,
        answer: Err(NotTaken::Frequency),
    },
    Row {
        pacs: &[0],
        locations: 0,
        contexts: 0xffff,
        base: &BARE,
        answer: Err(NotTaken::Codec),
    },
    Row {
        pacs: &VENDOR_RECORD,
        locations: 1,
        contexts: 0,
        base: &VENDOR,
        answer: Ok(()),
    },
];

fn holds(alloc: Global, row: &Row) -> bool {
    let Ok(entries) = decode_pacs(alloc, row.pacs) else {
        return false;
    };
    let Ok(base) = decode_base(alloc, row.base) else {
        return false;
    };
    let cap = Capability {
        entries,
        locations: row.locations,
        contexts: row.contexts,
    };
    match Bis::new(1) {
        Some(bis) if base.effective(bis).is_some() => takes(&cap, &base, bis) == row.answer,
        _ => false,
    }
}

#[test]
fn each_row_of_the_match_holds(rt: HostRuntime) {
    for row in &ROWS {
        assert!(rt; holds(rt.alloc(), row));
    }
}
