//! Units that are handed one behind the other, up to the taker's first fault.
ghost use Rattle.std.specs.Prelude.{[], ◌∷◌};
ghost use Rattle.unit_outlets.specs.Handed.{valid as a_valid, lost as a_lost};
ghost use Rattle.isoal_framed.specs.State.Windows.{HandsOn, CausedOn};

use bcast_base::Bis;
use unit_outlets::{TakerFault, UnitTaker};

/// Hands a unit that is valid, unless the taker has refused one before.
pub(crate) fn valid<T: UnitTaker>(
    so_far: Result<(), TakerFault>,
    taker: &mut T,
    bis: Bis,
    time: u64,
    octets: &[u8],
) -> Result<(), TakerFault>
    ensures hands { HandsOn (a_valid bis time octets.now ∷ []) so_far (T.calls taker.old) (T.calls taker.new) result }
    ensures cause { CausedOn so_far (T.counts taker.old) (T.counts taker.new) result }
{
    match so_far {
        Ok(()) => taker.valid(bis, time, octets),
        Err(fault) => Err(fault),
    }
}

/// Tells that a unit is lost, unless the taker has refused one before.
#[inline(never)]
pub(crate) fn lost<T: UnitTaker>(
    so_far: Result<(), TakerFault>,
    taker: &mut T,
    bis: Bis,
    time: u64,
) -> Result<(), TakerFault>
    ensures hands { HandsOn (a_lost bis time ∷ []) so_far (T.calls taker.old) (T.calls taker.new) result }
    ensures cause { CausedOn so_far (T.counts taker.old) (T.counts taker.new) result }
{
    match so_far {
        Ok(()) => taker.lost(bis, time),
        Err(fault) => Err(fault),
    }
}
