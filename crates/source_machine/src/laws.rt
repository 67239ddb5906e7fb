//! What holds of every source's calls and of what its streams send.
ghost use Rattle.std.specs.Prelude.{◌≡◌, ◌≤◌, ◌<◌, ◌-◌, ◌++◌, ℕ, List, Some, length, map, slice_get};
ghost use Rattle.big_info.specs.Schedule.{per_event_of};
ghost use Rattle.big_info.specs.declared.group.Group.{Group};
ghost use Rattle.iso_pdu.specs.Encoding.{pdu};
ghost use Rattle.isoal_base.specs.Air.{Air};
ghost use Rattle.isoal_framed.specs.Calls.{Timed, accepted};
ghost use Rattle.isoal_framed.specs.Sends.{Sends as TimedSends};
ghost use Rattle.isoal_framed.specs.Struck.{Sent};
ghost use Rattle.isoal_unframed.specs.Air.{laid_u};
ghost use Rattle.radio_schedule.specs.PayloadNumber.{payload_number};
ghost use Rattle.source_machine.specs.Airs.{AreAirs, airs_of, content_at, pdu_of, place_of, slots_of};
ghost use Rattle.source_machine.specs.Calls.{Call, Setup, framed_calls, given, next_of, stream_calls};
ghost use Rattle.source_machine.specs.Setups.{IsChecked};

use isoal_framed::a_framed_air_sends_units;
use isoal_unframed::each_number_is_laid;

/// The calls of a source fix the airs of its streams, of either framing.
pub fn one_air()
    ensures checked { (group : Group) (setup : Setup) → setup.info ≡ group.info → IsChecked setup.info }
    ensures same { (setup : Setup) (calls : List Call) (airs others : List Air) → IsChecked setup.info
        → AreAirs setup calls airs → AreAirs setup calls others → airs ≡ others }
    ensures some { (setup : Setup) (calls : List Call) → IsChecked setup.info → AreAirs setup calls (airs_of setup calls) }
    ensures only { (setup : Setup) (calls : List Call) (airs : List Air) → IsChecked setup.info → AreAirs setup calls airs
        → airs ≡ airs_of setup calls }
{}

/// In an unframed group each subevent of an event that was performed carries the PDU that division gives at its payload number:
/// `laid` where numbers count from the first event on, and `counted` where they are those of the payload counter.
pub fn air_is_by_division()
    ensures laid { (group : Group) (setup : Setup) (calls : List Call) (airs : List Air) (event bis subevent : ℕ)
        → setup.info ≡ group.info → setup.info.framing ≡ 0 → AreAirs setup calls airs → setup.first ≤ event → event < next_of setup calls
        → 1 ≤ bis → bis ≤ group.info.num_bis → subevent < group.info.nse
        → pdu_of setup airs event bis subevent
        ≡ Some (laid_u setup.info (stream_calls setup.info bis calls) (payload_number setup.info (event - setup.first) subevent)) }
    ensures counted { (group : Group) (setup : Setup) (calls : List Call) (airs : List Air) (event bis subevent : ℕ)
        → setup.info ≡ group.info → setup.info.framing ≡ 0 → AreAirs setup calls airs → setup.first ≤ event → event < next_of setup calls
        → 1 ≤ bis → bis ≤ group.info.num_bis → subevent < group.info.nse
        → pdu_of setup airs event bis subevent
        ≡ Some (pdu (content_at setup calls bis (payload_number setup.info event subevent))) }
{
    each_number_is_laid();
}

/// What an event that was performed sent stays, whatever calls follow.
pub fn what_was_sent_stays()
    ensures { (group : Group) (setup : Setup) (later calls : List Call) (airs others : List Air) (event bis subevent : ℕ)
        → setup.info ≡ group.info → AreAirs setup calls airs → AreAirs setup (later ++ calls) others → setup.first ≤ event
        → event < next_of setup calls
        → 1 ≤ bis → bis ≤ group.info.num_bis → subevent < group.info.nse
        → pdu_of setup others event bis subevent ≡ pdu_of setup airs event bis subevent }
{}

/// In an unframed group the unit of a slot is one that was given to the stream, and the units take the slots in the order of
/// acceptance, each at most one: a later slot has a later unit. The air of a stream of a framed group sends some of the units
/// that were given to it, in order, each carried by numbers one behind the other.
pub fn units_keep_their_order()
    ensures given { (setup : Setup) (calls : List Call) (bis event slot : ℕ) (unit : List ℕ)
        → slots_of setup calls bis event slot ≡ Some unit
        → slice_get (given bis calls) (place_of setup calls bis event slot) ≡ Some unit }
    ensures order { (setup : Setup) (calls : List Call) (bis event slot later behind : ℕ) (unit other : List ℕ)
        → setup.first ≤ event → event < later → slot < per_event_of setup.info
        → slots_of setup calls bis event slot ≡ Some unit → slots_of setup calls bis later behind ≡ Some other
        → place_of setup calls bis event slot < place_of setup calls bis later behind }
    ensures within { (setup : Setup) (calls : List Call) (bis event slot behind : ℕ) → slot < behind
        → place_of setup calls bis event slot < place_of setup calls bis event behind }
    ensures timed { (setup : Setup) (calls : List Call) (bis : ℕ)
        → map (λ (unit : Timed). unit.octets) (accepted (framed_calls setup bis calls)) ≡ given bis calls }
    ensures framed { (group : Group) (setup : Setup) (calls : List Call) (airs : List Air) (bis : ℕ) → setup.info ≡ group.info
        → setup.info.framing ≡ 1
        → AreAirs setup calls airs → 1 ≤ bis → bis ≤ setup.info.num_bis
        → ((i : ℕ) (unit : List ℕ) → slice_get (given bis calls) i ≡ Some unit → length unit ≤ setup.info.max_sdu)
        → (air : Air) × (slice_get airs (bis - 1) ≡ Some air) × (units : List Sent)
        × TimedSends setup.info (framed_calls setup bis calls) air units }
{
    a_framed_air_sends_units();
}
