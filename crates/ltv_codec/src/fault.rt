ghost use Rattle.std.specs.Prelude.{◌≡◌};
ghost use Rattle.ltv_codec.specs.declared.fault.LtvFault.TheVariants as faults;

/// Why octets are no LTV list. A place is that of the first bad length octet, from 0.
#[derive(Clone, Copy, Debug, PartialEq, Eq)]
pub enum LtvBad {
    /// The length is 0.
    ZeroLength { place: usize },
    /// The structure passes the end.
    Short { place: usize },
}

/// Why octets were not decoded.
#[derive(Clone, Copy, Debug, PartialEq, Eq)]
pub enum LtvFault {
    /// They are no LTV list.
    Bad(LtvBad),
    /// They are one, but there is no memory for it.
    Memory,
}

impl From<LtvBad> for LtvFault {
    ghost from_gives = { λ bad fault. fault ≡ faults.Bad bad };

    fn from(bad: LtvBad) -> LtvFault {
        LtvFault::Bad(bad)
    }
}

impl From<bcast_base::Memory> for LtvFault {
    ghost from_gives = { λ _ fault. fault ≡ faults.Memory };

    fn from(_e: bcast_base::Memory) -> LtvFault {
        LtvFault::Memory
    }
}
