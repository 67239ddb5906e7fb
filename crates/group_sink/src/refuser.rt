ghost use Rattle.std.specs.Prelude.{◌-◌, ◌^◌, []};

use bcast_base::Bis;
use unit_outlets::{TakerFault, UnitTaker};

/// A taker that refuses every unit. Its count of faults stands at its last value.
#[derive(Drop)]
pub(crate) struct Refuser;

impl UnitTaker for Refuser {
    ghost calls = { λ _. [] };

    ghost counts = { λ _. record { faults = 2 ^ 64 - 1; wants = 0 } };

    fn valid(&mut self, _bis: Bis, _time: u64, _octets: &[u8]) -> Result<(), TakerFault> {
        Err(TakerFault::Failed)
    }

    fn lost(&mut self, _bis: Bis, _time: u64) -> Result<(), TakerFault> {
        Err(TakerFault::Failed)
    }
}
