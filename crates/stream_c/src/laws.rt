//! What C has of a stream is what its source gave.
ghost use Rattle.std.specs.Prelude.{◌≡◌, ◌≤◌, ◌∷◌, ◌++◌, ℕ, List, Some, length};
ghost use Rattle.big_info.specs.Bounds.{Bounds};
ghost use Rattle.group_sink.specs.Handing.{units_at_close};
ghost use Rattle.isoal_base.specs.Stays.{Call, Stay, close};
ghost use Rattle.isoal_unframed.specs.Struck as plain;
ghost use Rattle.isoal_framed.specs.Struck as segments;
ghost use Rattle.stream_c.specs.Streams.{all_handed};

use isoal_framed::{a_close_gains_units, framed_units_are_struck};
use isoal_unframed::units_are_struck;

/// A close adds its units to all that the closes handed up.
pub fn closes_add_up()
    ensures adds { (stay : Stay) (calls : List Call)
        → all_handed stay (close ∷ calls) ≡ all_handed stay calls ++ units_at_close stay calls }
{
    a_close_gains_units();
}

/// All that the closes handed up is what the law of the stay names, where each PDU that is heard is the source's own at its number: of an
/// unframed stream the unit of each slot of each closed event, valid where all its numbers are heard, else lost, at its time; of a framed
/// one the unit of each start.
pub fn units_are_those_of_the_source()
    ensures unframed { (stay : Stay) (calls : List Call) (slots : plain.Slots) → stay.info.framing ≡ 0 → Bounds stay.info
        → ((event slot : ℕ) (unit : List ℕ) → slots event slot ≡ Some unit → length unit ≤ stay.info.max_sdu)
        → plain.FromSource stay slots calls → plain.Struck stay slots calls (all_handed stay calls) }
    ensures framed { (stay : Stay) (calls : List Call) (units : List segments.Sent) (laid : ℕ) → stay.info.framing ≡ 1 → 1 ≤ stay.info.bn
        → segments.InOrder 0 laid units → segments.closed_end stay calls ≤ laid → segments.Fit stay.info.max_sdu units
        → segments.FromSource stay units calls → all_handed stay calls ≡ segments.struck stay units calls }
{
    units_are_struck();
    framed_units_are_struck();
}
