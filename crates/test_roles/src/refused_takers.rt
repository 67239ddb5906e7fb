//! A taker that refused a unit isn't called again by the same close: of several units that wait one after the other is refused. The event
//! is closed nevertheless, that of a sink for each of its streams.
use crate::framed_receivers::framed_in;
use crate::numbers::SINGLE;
use crate::receivers::unframed_in;
use crate::refusing::Refusing;
use bcast_base::{Bis, BisSet};
use big_info::{BigInfo, check_group};
use group_sink::GroupSink;
use isoal_base::{Heard, Hearing};
use isoal_framed::FramedIn;
use isoal_unframed::UnframedIn;
use sync_reference::BigSync;
use unit_outlets::TakerFault;

/// Two streams of units of 4 octets every 10 ms, three an event, each in one PDU on LE 2M.
const THREE_UNITS: BigInfo = BigInfo {
    iso_interval: 24,
    num_bis: 2,
    nse: 3,
    bn: 3,
    sub_interval: 400,
    bis_spacing: 1200,
    ..SINGLE
};

/// Framed units of at most 4 octets in a PDU of at most 20 octets an event.
const SEGMENTS: BigInfo = BigInfo {
    framing: 1,
    max_pdu: 20,
    ..SINGLE
};

/// A unit of one octet in one fragment.
const FRAGMENT: [u8; 3] = [0x00, 0x01, 0xaa];

/// Three starts of one octet: the second isn't complete, so that its unit is lost.
const STARTS: [u8; 20] = [
    0x02, 0x12, 0x02, 0x04, 0x10, 0x27, 0x00, 0xaa, 0x00, 0x04, 0x10, 0x27, 0x00, 0xbb, 0x02, 0x04,
    0x10, 0x27, 0x00, 0xcc,
];

/// The answer of a close of an unframed receiver, which hands three units, the second as lost.
fn close_unframed(
    receiver: &mut UnframedIn,
    taker: &mut Refusing,
) -> Option<Result<(), TakerFault>> {
    let event = receiver.open_event();
    if event > 100 {
        return None;
    }
    let _ = receiver.hear(3 * event, &FRAGMENT);
    let _ = receiver.hear(3 * event + 2, &FRAGMENT);
    if receiver.open_event() > 100 {
        return None;
    }
    Some(receiver.close(taker))
}

/// The answer of a close of a framed receiver, which hands three units, the second as lost.
fn close_framed(receiver: &mut FramedIn, taker: &mut Refusing) -> Option<Result<(), TakerFault>> {
    let event = receiver.open_event();
    let _ = receiver.hear(event, &STARTS);
    if receiver.open_event() > 100 {
        return None;
    }
    Some(receiver.close(taker))
}

/// Whether a sink is put on this group, of which it takes these streams.
fn tunes(sink: &mut GroupSink, info: &BigInfo, which: BisSet) -> bool {
    if !info.fits() {
        return false;
    }
    let Ok(group) = check_group(info) else {
        return false;
    };
    let big_sync = BigSync {
        group,
        which,
        first: 0,
        anchor: 20000,
        delay: 40000,
    };
    sink.tune(&big_sync).is_ok()
}

/// The answer of a tick of a sink, which hands three units of each of two streams, all but two as lost.
fn tick(
    sink: &mut GroupSink,
    streams: &[Bis; 2],
    event: u64,
    taker: &mut Refusing,
) -> Option<Result<(), TakerFault>> {
    if event > 100 {
        return None;
    }
    let _ = sink.hear(event, streams[0], 0, &FRAGMENT);
    let _ = sink.hear(event, streams[1], 2, &FRAGMENT);
    Some(sink.tick(event, taker))
}

/// Whether each of three calls, refused for this fault, is the last one of its close.
fn ends_unframed(receiver: &mut UnframedIn, taker: &mut Refusing, fault: TakerFault) -> bool {
    'calls: for call in 1..4usize {
        taker.refuse(call, fault);
        let answer = close_unframed(receiver, taker);
        if !taker.refused_last(answer) {
            return false;
        }
    }
    true
}

/// Whether a close makes three calls, and each one that is refused ends its own, whatever the fault.
fn ends_each_unframed(receiver: &mut UnframedIn, taker: &mut Refusing) -> bool {
    let all = close_unframed(receiver, taker);
    taker.took(all, 3)
        && ends_unframed(receiver, taker, TakerFault::Failed)
        && ends_unframed(receiver, taker, TakerFault::Memory)
}

/// Whether each of three calls, refused for this fault, is the last one of its close.
fn ends_framed(receiver: &mut FramedIn, taker: &mut Refusing, fault: TakerFault) -> bool {
    'calls: for call in 1..4usize {
        taker.refuse(call, fault);
        let answer = close_framed(receiver, taker);
        if !taker.refused_last(answer) {
            return false;
        }
    }
    true
}

/// The same of a framed receiver.
fn ends_each_framed(receiver: &mut FramedIn, taker: &mut Refusing) -> bool {
    let all = close_framed(receiver, taker);
    taker.took(all, 3)
        && ends_framed(receiver, taker, TakerFault::Failed)
        && ends_framed(receiver, taker, TakerFault::Memory)
}

/// Whether an event is closed for both streams.
fn is_over(sink: &mut GroupSink, streams: &[Bis; 2], event: u64) -> bool {
    if event > 100 {
        return false;
    }
    sink.hear(event, streams[0], 0, &FRAGMENT) == Hearing::Heard(Heard::Late)
        && sink.hear(event, streams[1], 0, &FRAGMENT) == Hearing::Heard(Heard::Late)
}

/// Whether each of six calls, refused for this fault, is the last one of its tick, which closes its event, from this event on.
fn ends_tick(
    sink: &mut GroupSink,
    streams: &[Bis; 2],
    event: u64,
    taker: &mut Refusing,
    fault: TakerFault,
) -> bool {
    'calls: for call in 1..7usize {
        taker.refuse(call, fault);
        let over = event.saturating_add(call as u64);
        let answer = tick(sink, streams, over, taker);
        if !taker.refused_last(answer) || !is_over(sink, streams, over) {
            return false;
        }
    }
    true
}

/// The same of the ticks of a sink on one stream of framed units and two of others.
fn ends_each_tick(sink: &mut GroupSink, taker: &mut Refusing) -> bool {
    let (Some(first), Some(second)) = (Bis::new(1), Bis::new(2)) else {
        return false;
    };
    let one = BisSet::new().with(first);
    if !tunes(sink, &SEGMENTS, one) || !tunes(sink, &THREE_UNITS, one.with(second)) {
        return false;
    }
    let streams = [first, second];
    let all = tick(sink, &streams, 0, taker);
    taker.took(all, 6)
        && ends_tick(sink, &streams, 0, taker, TakerFault::Failed)
        && ends_tick(sink, &streams, 6, taker, TakerFault::Memory)
}

#[test]
fn a_close_of_fragments_ends_with_the_call_that_was_refused(rt: HostRuntime) {
    let mut receiver = unframed_in(rt.alloc(), &THREE_UNITS).expect(&rt, "a receiver");
    let mut taker = Refusing::new(rt.alloc());
    assert!(rt; ends_each_unframed(&mut receiver, &mut taker));
}

#[test]
fn a_close_of_segments_ends_with_the_call_that_was_refused(rt: HostRuntime) {
    let mut receiver = framed_in(rt.alloc(), &SEGMENTS).expect(&rt, "a receiver");
    let mut taker = Refusing::new(rt.alloc());
    assert!(rt; ends_each_framed(&mut receiver, &mut taker));
}

#[test]
fn a_tick_of_two_streams_ends_with_the_call_that_was_refused(rt: HostRuntime) {
    let mut sink = GroupSink::new(rt.alloc());
    let mut taker = Refusing::new(rt.alloc());
    assert!(rt; ends_each_tick(&mut sink, &mut taker));
}
