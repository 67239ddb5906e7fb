ghost use Rattle.std.specs.Prelude.{◌≡◌};
ghost use Rattle.isoal_base.specs.declared.laid.PutFault.TheVariants.{Memory as NoMemory};

use bcast_base::{EventPdus, Memory, Times};
use std::alloc::AllocFailed;

/// Why a sender refused a unit.
#[derive(Clone, Copy, Debug, PartialEq, Eq)]
pub enum PutFault {
    /// The unit has more than Max_SDU octets.
    TooLong,
    /// The time is not above that of the last unit, or is past the next anchor.
    TimeOrder,
    /// 16 units wait.
    Backlog,
    /// Memory ran out.
    Memory,
}

impl From<Memory> for PutFault {
    ghost from_gives = { λ _ fault. fault ≡ NoMemory };

    fn from(_memory: Memory) -> PutFault {
        PutFault::Memory
    }
}

impl<T: Drop> From<AllocFailed<T>> for PutFault {
    ghost from_gives = { λ _ fault. fault ≡ NoMemory };

    fn from(_memory: AllocFailed<T>) -> PutFault {
        PutFault::Memory
    }
}

/// An event of a stream that was laid.
#[derive(Drop)]
pub struct EventLaid {
    /// The BN PDUs of the event, by rising payload number.
    pub pdus: EventPdus,
    /// The times in µs of the units that were left out of the event because their turn came too late.
    pub stale: Times,
}
