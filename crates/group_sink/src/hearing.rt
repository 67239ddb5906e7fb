//! What a receiver makes of what the subevents of an event bring.
ghost use Rattle.std.specs.Prelude.{◌≡◌, ◌<◌, ◌≤◌, ◌^◌, length, slice_index_or, None};
ghost use Rattle.group_sink.specs.State.Steps.{hear_all, hear_where};
ghost use Rattle.group_sink.specs.declared.receiver.Receiver.TheVariants.{Unframed, Framed};

use crate::numbers::Numbers;
use isoal_framed::FramedIn;
use isoal_unframed::UnframedIn;
use radio_schedule::StreamEvent;

/// Hears what the subevents of an event of an unframed stream bring.
pub(crate) fn hear_unframed<E: StreamEvent>(
    unframed: &mut UnframedIn,
    numbers: &Numbers,
    event: u64,
    sent: &E,
)
    requires { event ≤ 2 ^ 39 }
    ensures { Unframed unframed.new ≡ hear_all numbers.now.group.info event (E.pdus sent.now) (Unframed unframed.old) }
{
    let first = numbers.first(event);
    'subevents: for subevent in 0..sent.count() {
        let number = numbers.behind(first, subevent);
        hear_unframed_pdu(unframed, number, subevent, sent);
    }
}

/// Hears what a subevent of this payload number brings. Where the number isn't awaited, the PDU isn't looked at.
#[inline(always)]
fn hear_unframed_pdu<E: StreamEvent>(
    unframed: &mut UnframedIn,
    number: Option<u64>,
    subevent: u8,
    sent: &E,
)
    requires { subevent < length (E.pdus sent.now) }
    ensures { Unframed unframed.new ≡ hear_where number (slice_index_or (E.pdus sent.now) subevent None) (Unframed unframed.old) }
{
    let Some(number) = number else {
        return;
    };
    if !unframed.awaits(number) {
        return;
    }
    if let Some(pdu) = sent.pdu(subevent) {
        let _ = unframed.hear(number, pdu);
    }
}

/// Hears what the subevents of an event of a framed stream bring.
pub(crate) fn hear_framed<E: StreamEvent>(
    framed: &mut FramedIn,
    numbers: &Numbers,
    event: u64,
    sent: &E,
)
    requires { event ≤ 2 ^ 39 }
    ensures { Framed framed.new ≡ hear_all numbers.now.group.info event (E.pdus sent.now) (Framed framed.old) }
{
    let first = numbers.first(event);
    'subevents: for subevent in 0..sent.count() {
        let number = numbers.behind(first, subevent);
        hear_framed_pdu(framed, number, subevent, sent);
    }
}

/// Hears what a subevent of this payload number brings. Where the number isn't awaited, the PDU isn't looked at.
#[inline(always)]
fn hear_framed_pdu<E: StreamEvent>(
    framed: &mut FramedIn,
    number: Option<u64>,
    subevent: u8,
    sent: &E,
)
    requires { subevent < length (E.pdus sent.now) }
    ensures { Framed framed.new ≡ hear_where number (slice_index_or (E.pdus sent.now) subevent None) (Framed framed.old) }
{
    let Some(number) = number else {
        return;
    };
    if !framed.awaits(number) {
        return;
    }
    if let Some(pdu) = sent.pdu(subevent) {
        let _ = framed.hear(number, pdu);
    }
}
