/// What the end of a group answers.
#[derive(Clone, Copy)]
pub struct Terminated {
    /// The event that was open until then.
    pub closed: Option<u64>,
    /// The PDU that ends the group (Core 5.2, volume 6 part B, section 2.6.3).
    pub pdu: [u8; 6],
}
