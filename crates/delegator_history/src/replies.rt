/// Why a write to the control point is refused, in the order of test.
#[derive(Clone, Copy, Debug, PartialEq, Eq)]
pub enum Cause {
    /// There is no octet.
    Empty,
    /// The first octet is no opcode.
    Opcode,
    /// The octets are fewer or more than the fields.
    Length,
    /// A field has a value that is reserved for future use.
    Rfu,
    /// A stream stands in the BIS_Sync of two subgroups.
    BisTwice,
    /// No slot has the Source_ID.
    SourceUnknown,
    /// This server has no use for a Broadcast_Code.
    NoDecrypt,
    /// A slot has a source of this address type, SID and Broadcast_ID.
    Known,
    /// No slot is empty.
    NoRoom,
    /// The value of the slot would have more than 512 octets.
    ValueTooLong,
    /// The source that is to be removed is still synchronised to.
    StillSynced,
}

/// The answer to a write to the control point.
#[derive(Clone, Copy, Debug, PartialEq, Eq)]
pub enum Reply {
    Accepted,
    /// The error code of the write: 0x80, 0x81 or 0xFC.
    Refused { code: u8, cause: Cause },
}
