use crate::numbers::FRAGMENTS;
use crate::taken::Taken;
use bcast_base::Bis;
use big_info::{BigInfo, check_group};
use isoal_base::Heard;
use isoal_unframed::UnframedIn;
use std::alloc::Global;

/// A receiver of stream 1 of an unframed group, from event 0 on; `None` where the group or memory is wanting.
pub(crate) fn unframed_in(alloc: Global, info: &BigInfo) -> Option<UnframedIn> {
    if !info.fits() || info.framing != 0 {
        return None;
    }
    let Ok(group) = check_group(info) else {
        return None;
    };
    let Some(bis) = Bis::new(1) else {
        return None;
    };
    UnframedIn::new(alloc, &group, bis, 0, 20000, 40000).ok()
}

/// Whether of three PDUs the padding and the first fragment are kept, and the same place isn't taken twice.
fn holds_a_fragment(receiver: &mut UnframedIn) -> bool {
    receiver.hear(1, &[0, 0]) == Heard::Kept
        && receiver.held() == 0
        && receiver.hear(0, &[1, 4, 1, 2, 3, 4]) == Heard::Kept
        && receiver.hear(0, &[1, 4, 5, 6, 7, 8]) == Heard::Repeat
        && receiver.held() == 4
}

/// Whether the close of event 0 hands that fragment as a unit.
fn hands_it(receiver: &mut UnframedIn, taken: &mut Taken) -> bool {
    receiver.open_event() == 0
        && receiver.close(taken).is_ok()
        && receiver.held() == 0
        && receiver.open_event() == 1
        && taken.units.len() == 1
        && taken.has(0, 60460, Some(&[1, 2, 3, 4]))
}

#[test]
fn what_is_held_is_handed_at_the_close(rt: HostRuntime) {
    let mut receiver = unframed_in(rt.alloc(), &FRAGMENTS).expect(&rt, "a receiver");
    let mut taken = Taken::new(rt.alloc());
    assert!(rt; holds_a_fragment(&mut receiver) && hands_it(&mut receiver, &mut taken));
}
