use crate::heard::Heard;

/// What a sink made of a PDU that was handed to it.
#[derive(Clone, Copy, Debug, PartialEq, Eq)]
pub enum Hearing {
    /// The sink is on no group.
    NotOnGroup,
    /// The sink doesn't take the stream.
    NotTaken,
    /// The subevent carries no payload.
    NoNumber,
    /// What the receiver of the stream made of it.
    Heard(Heard),
}
