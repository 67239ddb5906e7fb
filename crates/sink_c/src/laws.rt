//! What C has of a sink is what the sources of its groups gave.
ghost use Rattle.std.specs.Prelude.{◌≡◌, ◌≤◌, ◌++◌, ℕ, List, Some, length};
ghost use Rattle.std.specs.List.{Contains};
ghost use Rattle.big_info.specs.Bounds.{Bounds};
ghost use Rattle.delegator_history.specs.Trains.{Setup};
ghost use Rattle.delegator_machine.specs.Calls.{Call};
ghost use Rattle.delegator_machine.specs.Groups.{group_calls};
ghost use Rattle.group_sink.specs.Calls.{place};
ghost use Rattle.group_sink.specs.Handing.{handed_since, of_stream};
ghost use Rattle.group_sink.specs.Streams.{stay_on, stream_calls, streams_of};
ghost use Rattle.isoal_unframed.specs.Struck as plain;
ghost use Rattle.isoal_framed.specs.Struck as segments;
ghost use Rattle.sync_reference.specs.BigSync.{BigSync};
ghost use Rattle.unit_outlets.specs.Handed.{Handed};
ghost use Rattle.sink_c.specs.Sinks.{all_handed};

use group_sink::each_stream_hands_its_units;
use isoal_framed::framed_units_are_struck;
use isoal_unframed::units_are_struck;

/// All that the ticks handed up ends with what they handed since the sink was synchronized to the BIG that it is on. Of each stream that it
/// takes this is what the law of its stay names, where each PDU that is heard is the source's own at its number: of an unframed one the
/// unit of each slot of each closed event, valid where all its numbers are heard, else lost, at its time; of a framed one the unit of each
/// start.
pub fn units_are_those_of_their_source()
    ensures ends { (setup : Setup) (calls : List Call)
        → (earlier : List Handed) × (all_handed setup calls ≡ earlier ++ handed_since (group_calls setup calls)) }
    ensures unframed { (setup : Setup) (calls : List Call) (big_sync : BigSync) (bis : ℕ) (slots : plain.Slots)
        → place (group_calls setup calls) ≡ Some big_sync → Contains (streams_of big_sync.which) bis → big_sync.info.framing ≡ 0
        → Bounds big_sync.info
        → ((event slot : ℕ) (unit : List ℕ) → slots event slot ≡ Some unit → length unit ≤ big_sync.info.max_sdu)
        → plain.FromSource (stay_on big_sync bis) slots (stream_calls (stay_on big_sync bis) (group_calls setup calls))
        → plain.Struck (stay_on big_sync bis) slots (stream_calls (stay_on big_sync bis) (group_calls setup calls))
        (of_stream bis (handed_since (group_calls setup calls))) }
    ensures framed { (setup : Setup) (calls : List Call) (big_sync : BigSync) (bis : ℕ) (units : List segments.Sent) (laid : ℕ)
        → place (group_calls setup calls) ≡ Some big_sync → Contains (streams_of big_sync.which) bis → big_sync.info.framing ≡ 1
        → 1 ≤ big_sync.info.bn
        → segments.InOrder 0 laid units
        → segments.closed_end (stay_on big_sync bis) (stream_calls (stay_on big_sync bis) (group_calls setup calls)) ≤ laid
        → segments.Fit big_sync.info.max_sdu units
        → segments.FromSource (stay_on big_sync bis) units (stream_calls (stay_on big_sync bis) (group_calls setup calls))
        → of_stream bis (handed_since (group_calls setup calls))
        ≡ segments.struck (stay_on big_sync bis) units (stream_calls (stay_on big_sync bis) (group_calls setup calls)) }
{
    each_stream_hands_its_units();
    units_are_struck();
    framed_units_are_struck();
}
