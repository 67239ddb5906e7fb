//! What holds of the units of unframed streams, whoever assembles them.
ghost use Rattle.std.specs.Prelude.{◌≡◌, ◌↔◌, ◌≤◌, ℕ, length, List, Option, Some, None};
ghost use Rattle.big_info.specs.Bounds.{Bounds};
ghost use Rattle.iso_pdu.specs.Layout.{Content};
ghost use Rattle.isoal_base.specs.Stays.{Stay, Call};
ghost use Rattle.isoal_unframed.specs.Histories.{handed};
ghost use Rattle.isoal_unframed.specs.Struck.{Slots, FromSource, Struck};
ghost use Rattle.isoal_unframed.specs.Units.{IsHeld, IsUnit, held_in, unit_of};

/// A slot's unit from left to right is the unit whose fragments and end the slot keeps, and there is none where the slot
/// keeps no unit.
pub fn unit_is_assembled()
    ensures some { (max_sdu : ℕ) (slot : List (Option Content)) (octets : List ℕ)
        → (unit_of max_sdu slot ≡ Some octets) ↔ IsUnit max_sdu slot octets }
    ensures none { (max_sdu : ℕ) (slot : List (Option Content))
        → (unit_of max_sdu slot ≡ None) ↔ ((octets : List ℕ) → ¬ IsUnit max_sdu slot octets) }
{}

/// What is held of a slot, from left to right, are the octets of the longest prefix of its numbers that are kept, with an
/// end at most in the last place and at most `max_sdu` octets.
pub fn longest_prefix_is_held()
    ensures { (max_sdu : ℕ) (slot : List (Option Content)) (octets : ℕ) → (octets ≡ held_in max_sdu slot) ↔ IsHeld max_sdu slot octets }
{}

/// The units law of one stay: where each PDU that is heard is the source's own at its number, what the closes hand is
/// one entry for each slot of each closed event, in order: the slot's unit, valid, where the slot has one and all numbers
/// that carry it are heard, else lost.
pub fn units_are_struck()
    ensures { (stay : Stay) (slots : Slots) (calls : List Call) → Bounds stay.info → stay.info.framing ≡ 0
        → ((event slot : ℕ) (unit : List ℕ) → slots event slot ≡ Some unit → length unit ≤ stay.info.max_sdu)
        → FromSource stay slots calls → Struck stay slots calls (handed stay calls) }
{}
