ghost use Rattle.std.specs.Prelude.{◌≡◌};
ghost use Rattle.pacs_records.specs.declared.fault.PacFault.TheVariants as faults;
ghost use Rattle.pacs_records.specs.declared.fault.PushFault.TheVariants as pushes;

use bcast_base::Memory;
use ltv_codec::LtvBad;

/// Why octets are no Sink PAC value, or were not decoded. A place counts octets from 0.
#[derive(Clone, Copy, Debug, PartialEq, Eq)]
pub enum PacFault {
    /// There are more than 512 octets. It is tested first.
    TooLong,
    /// The field that begins at this place is not whole.
    Short { place: usize },
    /// The list that begins at this place is no LTV list, for the fault at its own place in the list.
    Ltv { place: usize, fault: LtvBad },
    /// The octets go on behind the last record, at this place.
    Trailing { place: usize },
    /// They are a value, but there is no memory for it.
    Memory,
}

impl From<Memory> for PacFault {
    ghost from_gives = { λ _ fault. fault ≡ faults.Memory };

    fn from(_e: Memory) -> PacFault {
        PacFault::Memory
    }
}

/// Why a record was not put into a list.
#[derive(Clone, Copy, Debug, PartialEq, Eq)]
pub enum PushFault {
    /// The value would have more than 512 octets.
    TooLong,
    /// The value has room for the record, but there is no memory for it.
    Memory,
}

impl From<Memory> for PushFault {
    ghost from_gives = { λ _ fault. fault ≡ pushes.Memory };

    fn from(_e: Memory) -> PushFault {
        PushFault::Memory
    }
}
