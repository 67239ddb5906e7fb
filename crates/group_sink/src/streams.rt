//! What a sink does with the receiver of a stream.
ghost use Rattle.std.specs.Prelude.{◌≡◌, ◌≤◌, ◌<◌, ◌^◌, Some, slice_get};
ghost use Rattle.unit_outlets.specs.Handed.{Caused, HandsOver};
ghost use Rattle.group_sink.specs.State.Steps.{all_heard_at, answer_at, hear_at, heard_at, owed_by, tick_at};

use crate::numbers::Numbers;
use crate::receiver::Receiver;
use crate::refuser::Refuser;
use isoal_base::Hearing;
use radio_schedule::StreamEvent;
use unit_outlets::{TakerFault, UnitTaker};

/// Hears a PDU under its payload number, where it has one and a receiver stands at the place.
pub(crate) fn hear_in(
    streams: &mut Vec<Receiver>,
    place: usize,
    number: Option<u64>,
    pdu: &[u8],
) -> Hearing
    ensures answer { result ≡ answer_at number pdu.now (slice_get streams.old.items place) }
    ensures step { streams.new.items ≡ heard_at number pdu.now place (slice_get streams.old.items place) streams.old.items }
{
    match streams.get_mut(place) {
        None => Hearing::NotTaken,
        Some(receiver) => hear_under(receiver, number, pdu),
    }
}

/// Hears a PDU under its payload number, where it has one.
fn hear_under(receiver: &mut Receiver, number: Option<u64>, pdu: &[u8]) -> Hearing
    ensures answer { result ≡ answer_at number pdu.now (Some receiver.old) }
    ensures step { receiver.new ≡ hear_at number pdu.now receiver.old }
{
    match number {
        None => Hearing::NoNumber,
        Some(number) => Hearing::Heard(receiver.hear(number, pdu)),
    }
}

/// Hears what the subevents of an event bring, where a receiver stands at the place.
#[inline(always)]
pub(crate) fn hear_event_in<E: StreamEvent>(
    streams: &mut Vec<Receiver>,
    place: usize,
    numbers: &Numbers,
    event: u64,
    sent: &E,
)
    requires { event ≤ 2 ^ 39 }
    ensures { streams.new.items
        ≡ all_heard_at numbers.now.group.info event (E.pdus sent.now) place (slice_get streams.old.items place) streams.old.items }
{
    match streams.get_mut(place) {
        None => {}
        Some(receiver) => receiver.hear_event(numbers, event, sent),
    }
}

/// What would be answered to a PDU under its payload number, where it has one and a receiver stands at the place.
pub(crate) fn answer_in(
    streams: &Vec<Receiver>,
    place: usize,
    number: Option<u64>,
    pdu: &[u8],
) -> Hearing
    ensures { result ≡ answer_at number pdu.now (slice_get streams.now.items place) }
{
    match streams.get(place) {
        None => Hearing::NotTaken,
        Some(receiver) => match number {
            None => Hearing::NoNumber,
            Some(number) => Hearing::Heard(receiver.would_answer(number, pdu)),
        },
    }
}

/// Closes the open event where it is at most this event, and hands its units.
pub(crate) fn close_by<T: UnitTaker>(
    receiver: &mut Receiver,
    event: u64,
    taker: &mut T,
) -> Result<(), TakerFault>
    requires { event < 2 ^ 39 }
    ensures step { receiver.new ≡ tick_at event receiver.old }
    ensures hands { HandsOver (owed_by event receiver.old) (T.calls taker.old) (T.calls taker.new) result }
    ensures cause { Caused (T.counts taker.old) (T.counts taker.new) result }
{
    if receiver.open_event() <= event {
        receiver.close(taker)
    } else {
        Ok(())
    }
}

/// Closes the open event where it is at most this event, and drops its units.
pub(crate) fn skip_by(receiver: &mut Receiver, event: u64)
    requires { event < 2 ^ 39 }
    ensures { receiver.new ≡ tick_at event receiver.old }
{
    let _refused = close_by(receiver, event, &mut Refuser);
}
