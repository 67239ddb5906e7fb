ghost use Rattle.std.specs.Prelude.{◌≡◌};
ghost use Rattle.receive_state.specs.declared.fault.StateFault.TheVariants as faults;

/// Why octets were not decoded, in the order of test. A place counts octets from 0.
#[derive(Clone, Copy, Debug, PartialEq, Eq)]
pub enum StateFault {
    /// The field at this place passes the end.
    Short { place: usize },
    /// The first field with a value that is reserved for future use.
    Rfu { place: usize },
    /// The first octet behind all fields.
    Trailing { place: usize },
    Memory,
}

impl From<bcast_base::Memory> for StateFault {
    ghost from_gives = { λ _ fault. fault ≡ faults.Memory };

    fn from(_e: bcast_base::Memory) -> StateFault {
        StateFault::Memory
    }
}
