use crate::wishes::Wishes;

/// Add Source: the sink is to look for this source and its streams.
#[derive(Drop)]
pub struct AddSource {
    /// 0 is public or resolved, 1 is random.
    pub address_type: u8,
    pub address: [u8; 6],
    /// The advertising set, 0 to 15.
    pub sid: u8,
    pub broadcast_id: [u8; 3],
    /// 0 is no, 1 is yes with PAST, 2 is yes without.
    pub pa_sync: u8,
    /// In units of 1.25 ms; 0xFFFF is unknown.
    pub pa_interval: u16,
    pub wishes: Wishes,
}

/// Modify Source: the sink is to want other streams of a source that it has. The fields are as in `AddSource`.
#[derive(Drop)]
pub struct ModifySource {
    pub source_id: u8,
    pub pa_sync: u8,
    pub pa_interval: u16,
    pub wishes: Wishes,
}

/// What a client writes to the Broadcast Audio Scan Control Point (Broadcast Audio Scan Service 1.0, section 3.1.1).
#[derive(Drop)]
pub enum Operation {
    ScanStopped,
    ScanStarted,
    Add(AddSource),
    Modify(ModifySource),
    /// Set Broadcast_Code.
    Code { source_id: u8, code: [u8; 16] },
    Remove { source_id: u8 },
}
