ghost use Rattle.std.specs.Prelude.{◌≡◌, ◌≤◌, ◌-◌, ◌*◌, ◌^◌, length, is_some, true};
ghost use Rattle.isoal_base.specs.Hearing.{placing, kept_by, read_as};
ghost use Rattle.isoal_base.specs.Stays.{window_of};
ghost use Rattle.isoal_framed.specs.Tokens.{segmented};
ghost use Rattle.isoal_framed.specs.State.Places.{kept_of};

use crate::place::Places;
use crate::stream::Stream;
use isoal_base::Heard;

/// What a framed PDU would be answered under this payload number.
#[inline(always)]
pub(crate) fn answer_at(stream: &Stream, event: u64, places: &Places, number: u64) -> Heard
    requires room { length places.now.ring.items ≡ window_of stream.now.group.info }
    requires event { event ≤ 2 ^ 39 }
    ensures { result ≡ placing stream.now.group.info event (kept_of places.now) number }
{
    let first = event * u64::from(stream.group.info.bn);
    if number < first {
        return Heard::Late;
    }
    if number >= first + places.count() as u64 {
        return Heard::Beyond;
    }
    if !places.is_empty((number - first) as usize) {
        return Heard::Repeat;
    }
    Heard::Kept
}

/// Keeps a framed PDU under its payload number, if it is of the window and none of that number is kept.
pub(crate) fn keep(
    stream: &Stream,
    event: u64,
    places: &mut Places,
    number: u64,
    pdu: &[u8],
) -> Heard
    requires room { length places.old.ring.items ≡ window_of stream.now.group.info }
    requires event { event ≤ 2 ^ 39 }
    requires pdu { length pdu.now ≤ 253 }
    requires framed { is_some (read_as segmented places.old.max_pdu pdu.now) ≡ true }
    ensures places { length places.new.ring.items ≡ length places.old.ring.items }
    ensures max_pdu { places.new.max_pdu ≡ places.old.max_pdu }
    ensures answer { result ≡ placing stream.now.group.info event (kept_of places.old) number }
    ensures step { kept_of places.new ≡ kept_by result (kept_of places.old) (number - event * stream.now.group.info.bn)
        (read_as segmented places.old.max_pdu pdu.now) }
{
    let first = event * u64::from(stream.group.info.bn);
    if number < first {
        return Heard::Late;
    }
    if number >= first + places.count() as u64 {
        return Heard::Beyond;
    }
    let index = (number - first) as usize;
    if !places.is_empty(index) {
        return Heard::Repeat;
    }
    places.put(index, pdu);
    Heard::Kept
}
