use bcast_base::Octets;

/// A PAC record (Published Audio Capabilities Service 1.0, section 3.1). The capabilities of LC3 and the metadata are LTV lists; those of
/// other codecs are carried unread. Each has at most 255 octets where the record stands in a value.
#[derive(Drop)]
pub struct PacRecord {
    pub codec: [u8; 5],
    pub caps: Octets,
    pub metadata: Octets,
}
