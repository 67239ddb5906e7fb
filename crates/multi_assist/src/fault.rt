ghost use Rattle.std.specs.Prelude.{◌≡◌};
ghost use Rattle.multi_assist.specs.declared.fault.LinkFault.TheVariants.{Memory as NoMemory};

use bcast_base::Memory;

/// Why no assistant joined a link, in the order of test.
#[derive(Clone, Copy, Debug, PartialEq, Eq)]
pub enum LinkFault {
    /// One is on it.
    LinkTwice,
    Memory,
}

impl From<Memory> for LinkFault {
    ghost from_gives = { λ _ fault. fault ≡ NoMemory };

    fn from(_memory: Memory) -> LinkFault {
        LinkFault::Memory
    }
}
