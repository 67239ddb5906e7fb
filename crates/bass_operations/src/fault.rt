ghost use Rattle.std.specs.Prelude.{◌≡◌};
ghost use Rattle.bass_operations.specs.declared.fault.OpFault.TheVariants as faults;

/// Why octets were not decoded, in the order of test.
#[derive(Clone, Copy, Debug, PartialEq, Eq)]
pub enum OpFault {
    /// There is no octet.
    Empty,
    /// The first octet is no opcode.
    Opcode,
    /// The octets are fewer or more than the fields.
    Length,
    /// A field has a value that is reserved for future use; `place` is that of the first one, from 0.
    Rfu { place: usize },
    /// A stream stands in the BIS_Sync of two subgroups; `bis` is the lowest such index, from 1.
    BisTwice { bis: u8 },
    Memory,
}

impl From<bcast_base::Memory> for OpFault {
    ghost from_gives = { λ _ fault. fault ≡ faults.Memory };

    fn from(_e: bcast_base::Memory) -> OpFault {
        OpFault::Memory
    }
}
