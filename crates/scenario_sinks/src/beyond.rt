//! Whether a set of streams has one that a group hasn't.
ghost use Rattle.std.specs.Prelude.{◌≡◌, ◌+◌, ◌<◌};
ghost use Rattle.scenario_history.specs.Refusals.{has_beyond};
ghost use Rattle.scenario_sinks.specs.State.Beyond.{beyond_at};

use bcast_base::{Bis, BisSet};

/// Whether the index after this place, from 0, is in the set and above those of the group.
fn is_beyond_at(num_bis: u8, which: BisSet, place: u8) -> bool
    requires { place < 31 }
    ensures { result ≡ beyond_at num_bis which (place + 1) }
{
    match Bis::new(place + 1) {
        Some(bis) => which.has(bis) && place + 1 > num_bis,
        None => false,
    }
}

/// Whether the set has an index above those of the group.
pub(crate) fn is_beyond(num_bis: u8, which: BisSet) -> bool
    ensures { result ≡ has_beyond num_bis which }
{
    'places: for place in 0..31u8 {
        if is_beyond_at(num_bis, which, place) {
            return true;
        }
    }
    false
}
