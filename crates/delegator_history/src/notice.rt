use bcast_base::Octets;

/// A notification of a Broadcast Receive State (Broadcast Audio Scan Service 1.0, section 3.2).
#[derive(Drop)]
pub struct Notice {
    /// The slot, from 0.
    pub slot: u8,
    pub value: Octets,
}
