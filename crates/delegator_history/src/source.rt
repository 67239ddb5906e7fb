/// What an accepted Add Source says of its source, with fields as in `AddSource`, and the Source_ID that it got.
#[derive(Clone, Copy, Debug, PartialEq, Eq)]
pub struct Source {
    pub source_id: u8,
    pub address_type: u8,
    pub address: [u8; 6],
    pub sid: u8,
    pub broadcast_id: [u8; 3],
}
