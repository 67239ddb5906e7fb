ghost use Rattle.std.specs.Prelude.{◌≡◌, Some};
ghost use Rattle.unit_outlets.specs.declared.fault.OutletFault.TheVariants.{Memory};
ghost use Rattle.unit_outlets.specs.Texts.{outlet_text, taker_text};

use std::error::Error;
use std::fmt;

/// Why a taker refused a unit.
#[derive(Clone, Copy, Debug, PartialEq, Eq)]
pub enum TakerFault {
    /// A counted fault.
    Failed,
    /// A counted want of memory.
    Memory,
}

impl fmt::Display for TakerFault {
    ghost output = { λ fault. Some (taker_text fault) };

    fn fmt<W: fmt::Write>(&self, f: &mut fmt::Formatter<W>) -> fmt::Result {
        match self {
            TakerFault::Failed => write!(f, "the taker failed"),
            TakerFault::Memory => write!(f, "no memory"),
        }
    }
}

impl Error for TakerFault {}

/// Why a box refused a unit.
#[derive(Clone, Copy, Debug, PartialEq, Eq)]
pub enum OutletFault {
    /// A counted fault.
    Failed,
    Memory,
}

impl fmt::Display for OutletFault {
    ghost output = { λ fault. Some (outlet_text fault) };

    fn fmt<W: fmt::Write>(&self, f: &mut fmt::Formatter<W>) -> fmt::Result {
        match self {
            OutletFault::Failed => write!(f, "the box failed"),
            OutletFault::Memory => write!(f, "no memory"),
        }
    }
}

impl Error for OutletFault {}

impl From<bcast_base::Memory> for OutletFault {
    ghost from_gives = { λ _ e. e ≡ Memory };

    fn from(_e: bcast_base::Memory) -> OutletFault {
        OutletFault::Memory
    }
}
