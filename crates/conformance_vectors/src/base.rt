//! BASEs: worked examples, and the place of each fault of the decoder.
ghost use Rattle.std.specs.Prelude.{◌≡◌, []};

use base_grammar::{Base, BaseDraft, BaseFault, decode_base, encode_base};
use bcast_base::Bis;
use ltv_codec::{LtvBad, check_ltvs};
use std::alloc::Global;

const LC3: [u8; 5] = [6, 0, 0, 0, 0];

const VENDOR: [u8; 5] = [0xff, 1, 0, 2, 0];

// 48 kHz, 10 ms and 100 octets; media; front left.
const CONFIG: [u8; 10] = [2, 1, 8, 2, 2, 1, 3, 4, 100, 0];

const METADATA: [u8; 4] = [3, 2, 4, 0];

const ALLOCATION: [u8; 6] = [5, 3, 1, 0, 0, 0];

// The BASE that these make, with a delay of 40000 µs.
const BASE: [u8; 34] = [
    0x40, 0x9c, 0, 1, 1, 6, 0, 0, 0, 0, 10, 2, 1, 8, 2, 2, 1, 3, 4, 100, 0, 4, 3, 2, 4, 0, 1, 6, 5,
    3, 1, 0, 0, 0,
];

// The same subgroup, and one of a vendor's codec with the streams 2 and 3.
const TWO_SUBGROUPS: [u8; 49] = [
    0x40, 0x9c, 0, 2, 1, 6, 0, 0, 0, 0, 10, 2, 1, 8, 2, 2, 1, 3, 4, 100, 0, 4, 3, 2, 4, 0, 1, 6, 5,
    3, 1, 0, 0, 0, 2, 0xff, 1, 0, 2, 0, 2, 0xab, 0xcd, 0, 2, 0, 3, 1, 0x77,
];

// Whether an empty draft takes these subgroups.
fn takes_subgroups(draft: &mut BaseDraft, first: Bis, second: Bis, third: Bis) -> bool
    requires { draft.old.subgroups ≡ [] }
{
    let Ok(()) = check_ltvs(&CONFIG) else {
        return false;
    };
    let Ok(()) = check_ltvs(&METADATA) else {
        return false;
    };
    let Ok(()) = check_ltvs(&ALLOCATION) else {
        return false;
    };
    let Ok(()) = draft.subgroup(LC3, &CONFIG) else {
        return false;
    };
    let Ok(()) = draft.metadata(&METADATA) else {
        return false;
    };
    let Ok(()) = draft.bis(first, &ALLOCATION) else {
        return false;
    };
    let Ok(()) = draft.subgroup(VENDOR, &[0xab, 0xcd]) else {
        return false;
    };
    let Ok(()) = draft.bis(second, &[]) else {
        return false;
    };
    draft.bis(third, &[0x77]).is_ok()
}

pub(crate) fn encodes(alloc: Global, base: &Base, octets: &[u8]) -> bool {
    match encode_base(alloc, base) {
        Ok(encoded) => encoded.as_slice() == octets,
        Err(_) => false,
    }
}

// Whether a draft of these subgroups makes these octets.
fn is_drafted(alloc: Global, octets: &[u8]) -> bool {
    let (Some(first), Some(second), Some(third)) = (Bis::new(1), Bis::new(2), Bis::new(3)) else {
        return false;
    };
    let mut draft = BaseDraft::new(alloc, 40000);
    if !takes_subgroups(&mut draft, first, second, third) {
        return false;
    }
    match draft.finish() {
        Ok(base) => encodes(alloc, &base, octets),
        Err(_) => false,
    }
}

#[test]
fn a_draft_may_have_two_subgroups(rt: HostRuntime) {
    assert!(rt; is_drafted(rt.alloc(), &TWO_SUBGROUPS));
}

fn is_written_as_read(alloc: Global, octets: &[u8]) -> bool {
    match decode_base(alloc, octets) {
        Ok(base) => encodes(alloc, &base, octets),
        Err(_) => false,
    }
}

#[test]
fn bases_are_written_as_they_were_read(rt: HostRuntime) {
    assert!(rt; is_written_as_read(rt.alloc(), &BASE));
    assert!(rt; is_written_as_read(rt.alloc(), &TWO_SUBGROUPS));
}

// The same BASE, cut to as many octets as the place in this list, is short from there on.
const CUTS: [usize; 34] = [
    0, 0, 0, 3, 4, 5, 5, 5, 5, 5, 10, 11, 11, 11, 11, 11, 11, 11, 11, 11, 11, 21, 22, 22, 22, 22,
    26, 27, 28, 28, 28, 28, 28, 28,
];

fn has_fault(alloc: Global, octets: &[u8], wanted: BaseFault) -> bool {
    match decode_base(alloc, octets) {
        Ok(_) => false,
        Err(fault) => fault == wanted,
    }
}

#[test]
fn a_cut_base_is_short_from_its_cut(rt: HostRuntime) {
    for n in 0..BASE.len() {
        assert!(rt; has_fault(rt.alloc(), &BASE[..n], BaseFault::Short { place: CUTS[n] }));
    }
}

// A place of the BASE, an octet there, and the fault that it brings.
static CHANGES: [(usize, u8, BaseFault); 5] = [
    (3, 0, BaseFault::NoSubgroup),
    (4, 0, BaseFault::NoBis { place: 4 }),
    (
        11,
        0,
        BaseFault::Ltv {
            place: 11,
            fault: LtvBad::ZeroLength { place: 0 },
        },
    ),
    (26, 0, BaseFault::BadIndex { place: 26 }),
    (26, 0x20, BaseFault::BadIndex { place: 26 }),
];

#[test]
fn a_field_that_breaks_its_row_is_told(rt: HostRuntime) {
    for (place, octet, fault) in &CHANGES {
        let mut octets = BASE;
        if *place < octets.len() {
            octets[*place] = *octet;
        }
        assert!(rt; has_fault(rt.alloc(), &octets, *fault));
    }
}

#[test]
fn what_follows_a_base_is_told(rt: HostRuntime) {
    let mut octets = [0u8; 36];
    octets[..34].copy_from_slice(&BASE);
    let trailing = BaseFault::Trailing { place: 34 };
    assert!(rt; has_fault(rt.alloc(), &octets[..35], trailing));
    octets[4] = 2;
    octets[34] = 1;
    let twice = BaseFault::IndexTwice { place: 34 };
    assert!(rt; has_fault(rt.alloc(), &octets, twice));
    assert!(rt; has_fault(rt.alloc(), &[0; 253], BaseFault::TooLong));
}
