use crate::numbers::SINGLE;
use crate::taken::Taken;
use bcast_base::Bis;
use big_info::{BigInfo, check_group};
use isoal_base::Heard;
use isoal_framed::FramedIn;
use std::alloc::Global;

/// Units of at most 8 octets every 10.884 ms, in a PDU of at most 10 octets an event.
pub(crate) const SEGMENTS: BigInfo = BigInfo {
    max_pdu: 10,
    sdu_interval: 10884,
    max_sdu: 8,
    framing: 1,
    ..SINGLE
};

/// The start of a unit of 7 octets.
pub(crate) const START: [u8; 12] = [
    0x02, 0x0a, 0x00, 0x08, 0x88, 0x13, 0x00, 0xd0, 0xd1, 0xd2, 0xd3, 0xd4,
];

/// A receiver of stream 1 of a framed group, from event 0 on; `None` where the group or memory is wanting.
pub(crate) fn framed_in(alloc: Global, info: &BigInfo) -> Option<FramedIn> {
    if !info.fits() || info.framing != 1 {
        return None;
    }
    let Ok(group) = check_group(info) else {
        return None;
    };
    let Some(bis) = Bis::new(1) else {
        return None;
    };
    FramedIn::new(alloc, &group, bis, 0, 20000, 40000).ok()
}

/// Whether the octets of the start are held from the close of event 0 on, and nothing is handed.
fn holds_the_start(receiver: &mut FramedIn, taken: &mut Taken) -> bool {
    receiver.hear(0, &START) == Heard::Kept
        && receiver.held() == 0
        && receiver.open_event() == 0
        && receiver.close(taken).is_ok()
        && receiver.held() == 5
        && taken.units.len() == 0
}

/// Whether the close of event 1, of which nothing was heard, hands the unit as lost.
fn loses_its_unit(receiver: &mut FramedIn, taken: &mut Taken) -> bool {
    receiver.open_event() == 1
        && receiver.close(taken).is_ok()
        && receiver.held() == 0
        && receiver.open_event() == 2
        && taken.units.len() == 1
        && taken.has(0, 75968, None)
}

#[test]
fn what_is_held_is_lost_after_a_gap(rt: HostRuntime) {
    let mut receiver = framed_in(rt.alloc(), &SEGMENTS).expect(&rt, "a receiver");
    let mut taken = Taken::new(rt.alloc());
    assert!(rt;
        holds_the_start(&mut receiver, &mut taken) && loses_its_unit(&mut receiver, &mut taken)
    );
}
