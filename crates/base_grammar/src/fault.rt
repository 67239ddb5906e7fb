ghost use Rattle.std.specs.Prelude.{◌≡◌};
ghost use Rattle.base_grammar.specs.declared.fault.BaseFault.TheVariants as base_faults;
ghost use Rattle.base_grammar.specs.declared.fault.DraftFault.TheVariants as draft_faults;

use ltv_codec::LtvBad;
use std::alloc::AllocFailed;

/// Why octets are no BASE: the first fault from the left. A place is that of an octet, from 0.
#[derive(Clone, Copy, Debug, PartialEq, Eq)]
pub enum BaseFault {
    /// The field that begins there is not whole.
    Short { place: usize },
    /// Num_Subgroups is 0.
    NoSubgroup,
    /// The Num_BIS there is 0.
    NoBis { place: usize },
    /// The BIS_index there is not from 1 to 31.
    BadIndex { place: usize },
    /// The BIS_index there stands before.
    IndexTwice { place: usize },
    /// The octets that begin there are no LTV list. The fault's own place is one in these octets.
    Ltv { place: usize, fault: LtvBad },
    /// Octets follow the BASE, from there on.
    Trailing { place: usize },
    /// There are more than 252 octets.
    TooLong,
    /// They are a BASE, but there is no memory for it.
    Memory,
}

impl From<bcast_base::Memory> for BaseFault {
    ghost from_gives = { λ _ fault. fault ≡ base_faults.Memory };

    fn from(_e: bcast_base::Memory) -> BaseFault {
        BaseFault::Memory
    }
}

impl<T: Drop> From<AllocFailed<T>> for BaseFault {
    ghost from_gives = { λ _ fault. fault ≡ base_faults.Memory };

    fn from(_e: AllocFailed<T>) -> BaseFault {
        BaseFault::Memory
    }
}

/// Why a draft refuses a step. It stays as it was.
#[derive(Clone, Copy, Debug, PartialEq, Eq)]
pub enum DraftFault {
    /// There is no subgroup yet.
    NoSubgroup,
    /// The last subgroup has no entry yet.
    NoBis,
    /// The index has an entry already.
    IndexTwice,
    /// The BASE would have more than 252 octets.
    TooLong,
    Memory,
}

impl From<bcast_base::Memory> for DraftFault {
    ghost from_gives = { λ _ fault. fault ≡ draft_faults.Memory };

    fn from(_e: bcast_base::Memory) -> DraftFault {
        DraftFault::Memory
    }
}

impl<T: Drop> From<AllocFailed<T>> for DraftFault {
    ghost from_gives = { λ _ fault. fault ≡ draft_faults.Memory };

    fn from(_e: AllocFailed<T>) -> DraftFault {
        DraftFault::Memory
    }
}
