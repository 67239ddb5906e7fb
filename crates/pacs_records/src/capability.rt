use crate::records::Records;

/// What a sink can take (Published Audio Capabilities Service 1.0): records, locations (section 3.2), available contexts (section 3.5).
#[derive(Drop)]
pub struct Capability {
    pub entries: Records,
    /// Sink Audio Locations; 0 where it has none.
    pub locations: u32,
    pub contexts: u16,
}
