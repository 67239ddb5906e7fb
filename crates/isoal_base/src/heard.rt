use iso_pdu::PduFault;

/// What a receiver made of a PDU that it heard.
#[derive(Clone, Copy, Debug, PartialEq, Eq)]
pub enum Heard {
    /// The octets are no PDU.
    Malformed(PduFault),
    /// The PDU is not of the group's framing.
    WrongKind,
    /// The payload number is below those of the open event.
    Late,
    /// The payload number is above those of the window.
    Beyond,
    /// A PDU of this payload number is kept already.
    Repeat,
    /// The PDU is kept.
    Kept,
}
