//! What holds of every relay and of what passes over it.
ghost use Rattle.std.specs.Prelude.{◌≡◌, ◌≢◌, ◌++◌, ℕ, List};
ghost use Rattle.bcast_base.specs.declared.unit.Unit.{Unit as AudioUnit};
ghost use Rattle.relay_role.specs.Passing.{taken_on, undropped};
ghost use Rattle.source_machine.specs.Airs.{Airs};
ghost use Rattle.relay_role.specs.Relayed.{Second, after_offers, dropped_from, passed};

/// Of the units that are offered exactly those pass that aren't told as dropped, in order and with their times and octets.
/// The stream that they go to takes these behind what it took before, and no other stream takes any.
pub fn what_is_not_dropped_passes()
    ensures passed { (airs : Airs) (to : ℕ) (units : List AudioUnit) (second : Second)
        → passed airs to units second ≡ undropped 0 (dropped_from airs to 0 units second) units }
    ensures taken { (airs : Airs) (to : ℕ) (units : List AudioUnit) (second : Second)
        → taken_on to (after_offers airs to units second) ≡ taken_on to second ++ passed airs to units second }
    ensures others { (airs : Airs) (to stream : ℕ) (units : List AudioUnit) (second : Second) → stream ≢ to
        → taken_on stream (after_offers airs to units second) ≡ taken_on stream second }
{}
