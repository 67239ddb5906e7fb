//! The window of a receiver: H + 1 events in a ring, from the open one on.
ghost use Rattle.std.specs.Prelude.{◌≡◌, ◌≤◌, ◌<◌, ◌+◌, ◌-◌, ◌*◌, ◌^◌, length, take, drop, vec_len, Some};
ghost use Rattle.big_info.specs.Schedule.{per_event_of};
ghost use Rattle.unit_outlets.specs.Handed.{Caused, HandsOver};
ghost use Rattle.isoal_base.specs.Hearing.{placing, kept_by};
ghost use Rattle.isoal_base.specs.Stays.{window_of};
ghost use Rattle.isoal_unframed.specs.State.Cells.{part_of, turned};
ghost use Rattle.isoal_unframed.specs.State.Opening.{IsOpen};
ghost use Rattle.isoal_unframed.specs.State.Rings.{kept_of};
ghost use Rattle.isoal_unframed.specs.State.Streams.{stay_of, place_of};
ghost use Rattle.isoal_unframed.specs.State.Windows.{owed_of, held_in_event};

use crate::parts::Part;
use crate::ring::Ring;
use crate::stream::{OpenEvent, Stream};
use isoal_base::Heard;
use unit_outlets::{TakerFault, UnitTaker};

/// Keeps a part, an end or a fragment, under its payload number.
pub(crate) fn keep(
    stream: &Stream,
    current: OpenEvent,
    ring: &mut Ring,
    number: u64,
    part: Part<'_>,
) -> Heard
    requires room { vec_len ring.old.cells ≡ window_of stream.now.group.info }
    requires is_open { IsOpen stream.now.group.info current }
    requires part { length part.octets.now ≤ ring.old.max_pdu }
    ensures places { vec_len ring.new.cells ≡ vec_len ring.old.cells }
    ensures max_pdu { ring.new.max_pdu ≡ ring.old.max_pdu }
    ensures answer { result ≡ placing stream.now.group.info current.event
        (turned (place_of stream.now.group.info current.event) (kept_of ring.old)) number }
    ensures step { turned (place_of stream.now.group.info current.event) (kept_of ring.new)
        ≡ kept_by result (turned (place_of stream.now.group.info current.event) (kept_of ring.old))
        (number - current.event * stream.now.group.info.bn) (Some (part_of part.entry.is_end part.entry.octets.now)) }
{
    if number < current.number {
        return Heard::Late;
    }
    let index = number - current.number;
    if index >= stream.window() as u64 {
        return Heard::Beyond;
    }
    let place = stream.place_at(current, index as usize);
    if !ring.is_empty(place) {
        return Heard::Repeat;
    }
    ring.put(place, part.is_end, part.octets);
    Heard::Kept
}

/// What a part would be answered under this payload number.
#[inline(always)]
pub(crate) fn answer_at(stream: &Stream, current: OpenEvent, ring: &Ring, number: u64) -> Heard
    requires room { vec_len ring.now.cells ≡ window_of stream.now.group.info }
    requires is_open { IsOpen stream.now.group.info current }
    ensures { result ≡ placing stream.now.group.info current.event
        (turned (place_of stream.now.group.info current.event) (kept_of ring.now)) number }
{
    if number < current.number {
        return Heard::Late;
    }
    let index = number - current.number;
    if index >= stream.window() as u64 {
        return Heard::Beyond;
    }
    let place = stream.place_at(current, index as usize);
    if !ring.is_empty(place) {
        return Heard::Repeat;
    }
    Heard::Kept
}

/// Hands the units of an event, in the order of its slots.
pub(crate) fn hand_event<T: UnitTaker>(
    stream: &Stream,
    current: OpenEvent,
    ring: &mut Ring,
    taker: &mut T,
) -> Result<(), TakerFault>
    requires room { vec_len ring.old.cells ≡ window_of stream.now.group.info }
    requires is_open { IsOpen stream.now.group.info current }
    requires first { stream.now.first ≤ current.event }
    requires event { current.event < 2 ^ 39 }
    ensures places { vec_len ring.new.cells ≡ vec_len ring.old.cells }
    ensures max_pdu { ring.new.max_pdu ≡ ring.old.max_pdu }
    ensures prefix { take (place_of stream.now.group.info current.event) (kept_of ring.new)
        ≡ take (place_of stream.now.group.info current.event) (kept_of ring.old) }
    ensures behind { drop (place_of stream.now.group.info current.event + stream.now.group.info.bn) (kept_of ring.new)
        ≡ drop (place_of stream.now.group.info current.event + stream.now.group.info.bn) (kept_of ring.old) }
    ensures hands { HandsOver
        (owed_of (stay_of stream.now) current.event (drop (place_of stream.now.group.info current.event) (kept_of ring.old)))
        (T.calls taker.old) (T.calls taker.new) result }
    ensures cause { Caused (T.counts taker.old) (T.counts taker.new) result }
{
    let places = stream.places();
    let mut first = current.place;
    'slots: for slot in 0..stream.slots() {
        let time = stream.time(current.event, slot);
        ring.hand_slot(stream, first, time, taker)?;
        first += places;
    }
    Ok(())
}

/// How many octets are held of the units of an event.
pub(crate) fn held(stream: &Stream, current: OpenEvent, ring: &Ring) -> usize
    requires is_open { IsOpen stream.now.group.info current }
    requires room { vec_len ring.now.cells ≡ window_of stream.now.group.info }
    ensures held { result ≡ held_in_event (stay_of stream.now) (drop (place_of stream.now.group.info current.event) (kept_of ring.now)) }
    ensures bound { result ≤ per_event_of stream.now.group.info * stream.now.group.info.max_sdu }
{
    let max_sdu = usize::from(stream.group.info.max_sdu);
    let places = stream.places();
    let mut first = current.place;
    let mut sum = 0usize;
    'slots: for _ in 0..stream.slots() {
        sum += ring.held(first, places, max_sdu);
        first += places;
    }
    sum
}
