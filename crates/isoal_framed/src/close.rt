//! The tokens of an event, number by number.
ghost use Rattle.std.specs.Prelude.{◌≡◌, ◌≤◌, ◌<◌, ◌+◌, ◌^◌, ◌++◌, length, nat_lt, is_some, map, take, drop, replicate, vec_len, None};
ghost use Rattle.std.specs.List.{flat_map};
ghost use Rattle.isoal_base.specs.Hearing.{read_as};
ghost use Rattle.isoal_framed.specs.Tokens.{segmented, token_of, tokens_of};
ghost use Rattle.isoal_framed.specs.State.Buffers.{run_in};
ghost use Rattle.isoal_framed.specs.State.Joining.{hands, run_after};
ghost use Rattle.isoal_framed.specs.State.Places.{kept_of};
ghost use Rattle.isoal_framed.specs.State.Streams.{stay_of};
ghost use Rattle.isoal_framed.specs.State.Windows.{HandsOn, CausedOn};

use crate::store::Store;
use crate::stream::Stream;
use crate::undecided::UndecidedRun;
use iso_pdu::Segments;
use unit_outlets::{TakerFault, UnitTaker};

/// Takes the tokens of the first `count` places, which are numbers of this event, and puts these places, empty, at the
/// end of the window.
pub(crate) fn take_places<T: UnitTaker>(
    stream: &Stream,
    event: u64,
    count: u8,
    store: &mut Store,
    taker: &mut T,
) -> Result<(), TakerFault>
    requires first { stream.now.first ≤ event }
    requires event { event < 2 ^ 39 }
    requires max_pdu { store.old.places.max_pdu ≡ stream.now.group.info.max_pdu }
    requires count { count ≤ length store.old.places.ring.items }
    ensures places { length store.new.places.ring.items ≡ length store.old.places.ring.items }
    ensures max_pdu { store.new.places.max_pdu ≡ store.old.places.max_pdu }
    ensures room { vec_len store.new.undecided.octets ≡ vec_len store.old.undecided.octets }
    ensures kept { kept_of store.new.places ≡ drop count (kept_of store.old.places) ++ replicate count None }
    ensures run { run_in store.new.undecided
        ≡ run_after (vec_len store.old.undecided.octets) (run_in store.old.undecided)
        (flat_map (tokens_of (stay_of stream.now) event) (take count (kept_of store.old.places))) }
    ensures hands { HandsOn (hands (vec_len store.old.undecided.octets) stream.now.bis (run_in store.old.undecided)
        (flat_map (tokens_of (stay_of stream.now) event) (take count (kept_of store.old.places))))
        (Ok tt) (T.calls taker.old) (T.calls taker.new) result }
    ensures cause { CausedOn (Ok tt) (T.counts taker.old) (T.counts taker.new) result }
{
    let mut handed = Ok(());
    'places: for index in 0..count {
        handed = take_pdu(
            stream,
            event,
            store.places.at(usize::from(index)),
            &mut store.undecided,
            handed,
            taker,
        );
        store.places.clear(usize::from(index));
    }
    store.places.turn(count);
    handed
}

/// Takes the tokens of a number: the segments of what is kept of it, or that nothing is.
fn take_pdu<T: UnitTaker>(
    stream: &Stream,
    event: u64,
    pdu: &[u8],
    undecided: &mut UndecidedRun,
    so_far: Result<(), TakerFault>,
    taker: &mut T,
) -> Result<(), TakerFault>
    requires first { stream.now.first ≤ event }
    requires event { event < 2 ^ 39 }
    requires read { is_some (read_as segmented stream.now.group.info.max_pdu pdu.now) ≡ nat_lt 0 (length pdu.now) }
    ensures room { vec_len undecided.new.octets ≡ vec_len undecided.old.octets }
    ensures run { run_in undecided.new ≡ run_after (vec_len undecided.old.octets) (run_in undecided.old)
        (tokens_of (stay_of stream.now) event (read_as segmented stream.now.group.info.max_pdu pdu.now)) }
    ensures hands { HandsOn (hands (vec_len undecided.old.octets) stream.now.bis (run_in undecided.old)
        (tokens_of (stay_of stream.now) event (read_as segmented stream.now.group.info.max_pdu pdu.now)))
        so_far (T.calls taker.old) (T.calls taker.new) result }
    ensures cause { CausedOn so_far (T.counts taker.old) (T.counts taker.new) result }
{
    if pdu.is_empty() {
        return undecided.miss(stream.bis, so_far, taker);
    }
    let segments = Segments::of_read(pdu);
    take_segments(stream, event, segments, undecided, so_far, taker)
}

/// Takes segments, one behind the other.
fn take_segments<T: UnitTaker>(
    stream: &Stream,
    event: u64,
    segments: Segments<'_>,
    undecided: &mut UndecidedRun,
    so_far: Result<(), TakerFault>,
    taker: &mut T,
) -> Result<(), TakerFault>
    requires first { stream.now.first ≤ event }
    requires event { event < 2 ^ 39 }
    ensures room { vec_len undecided.new.octets ≡ vec_len undecided.old.octets }
    ensures run { run_in undecided.new ≡ run_after (vec_len undecided.old.octets) (run_in undecided.old)
        (map (token_of (stay_of stream.now) event) segments.entry) }
    ensures hands { HandsOn (hands (vec_len undecided.old.octets) stream.now.bis (run_in undecided.old)
        (map (token_of (stay_of stream.now) event) segments.entry))
        so_far (T.calls taker.old) (T.calls taker.new) result }
    ensures cause { CausedOn so_far (T.counts taker.old) (T.counts taker.new) result }
{
    let mut handed = so_far;
    'segments: for segment in segments {
        handed = undecided.take(stream, event, segment, handed, taker);
    }
    handed
}
