ghost use Rattle.std.specs.Prelude.{◌≡◌};
ghost use Rattle.iso_pdu.specs.Faults.{number_of};

/// Why octets are no PDU. A place is that of a segment's header, in octets from 0, in the payload.
#[derive(Clone, Copy, Debug, PartialEq, Eq)]
pub enum PduFault {
    /// Fewer than 2 octets.
    Short,
    /// Length differs from the octets that follow.
    LengthDiffers,
    /// Length is above the greatest payload.
    TooLong,
    /// A segment's header has one octet only, or its Length passes the end.
    SegmentShort { place: usize },
    /// A start's Length leaves no room for the time offset.
    SegmentNoOffset { place: usize },
}

impl PduFault {
    /// The number of the fault, from 1 to 5.
    pub fn number(self) -> u8
        ensures { result ≡ number_of self }
    {
        match self {
            PduFault::Short => 1,
            PduFault::LengthDiffers => 2,
            PduFault::TooLong => 3,
            PduFault::SegmentShort { .. } => 4,
            PduFault::SegmentNoOffset { .. } => 5,
        }
    }
}
