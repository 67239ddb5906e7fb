//! What holds of every sink.
ghost use Rattle.std.specs.Prelude.{◌≡◌, ◌+◌, ◌≤◌, ◌↔◌, ℕ, List, [], Some};
ghost use Rattle.std.specs.List.{Contains};
ghost use Rattle.std.specs.List.Sorted.{IsStrictlyIncreasing};
ghost use Rattle.bcast_base.specs.Bis.{Has};
ghost use Rattle.isoal_base.specs.Stays.{opened};
ghost use Rattle.isoal_unframed.specs.Histories.{handed};
ghost use Rattle.isoal_framed.specs.Histories.{decided};
ghost use Rattle.group_sink.specs.Calls.{Call, place};
ghost use Rattle.sync_reference.specs.BigSync.{BigSync};
ghost use Rattle.group_sink.specs.Handing.{handed_since, of_stream};
ghost use Rattle.group_sink.specs.Streams.{closes, stay_on, stream_calls, streams_of};

/// The streams of a set are its indices from 1 to 31, rising.
pub fn streams_rise()
    ensures members { (set bis : ℕ) → Contains (streams_of set) bis ↔ ((1 ≤ bis) × (bis ≤ 31) × Has set bis) }
    ensures rising { (set : ℕ) → IsStrictlyIncreasing (streams_of set) }
{}

/// All streams of a group have the same open event: the first one and the number of ticks that closed one.
pub fn one_event_is_open()
    ensures { (big_sync : BigSync) (calls : List Call) (bis : ℕ)
        → opened (stay_on big_sync bis) (stream_calls (stay_on big_sync bis) calls) ≡ big_sync.first + closes big_sync calls }
{}

/// Since a sink was synchronized to its BIG, its ticks handed of each stream that it takes what the closes of the stream's stay
/// hand, in order: of an unframed stream the units of its closed events, of a framed one those that its closed events
/// decide. Of any other stream they handed nothing.
pub fn each_stream_hands_its_units()
    ensures unframed { (big_sync : BigSync) (calls : List Call) (bis : ℕ) → big_sync.info.framing ≡ 0 → place calls ≡ Some big_sync
        → Contains (streams_of big_sync.which) bis
        → of_stream bis (handed_since calls) ≡ handed (stay_on big_sync bis) (stream_calls (stay_on big_sync bis) calls) }
    ensures framed { (big_sync : BigSync) (calls : List Call) (bis : ℕ) → big_sync.info.framing ≡ 1 → place calls ≡ Some big_sync
        → Contains (streams_of big_sync.which) bis
        → of_stream bis (handed_since calls) ≡ decided (stay_on big_sync bis) (stream_calls (stay_on big_sync bis) calls) }
    ensures others { (big_sync : BigSync) (calls : List Call) (bis : ℕ) → place calls ≡ Some big_sync
        → ¬ Contains (streams_of big_sync.which) bis → of_stream bis (handed_since calls) ≡ [] }
{}
