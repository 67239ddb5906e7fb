/// The source that a line means.
#[derive(Clone, Copy)]
pub struct Origin {
    /// 0 or 1.
    pub number: u8,
    /// 0 public, 1 random.
    pub address_type: u8,
    /// Its advertising set.
    pub sid: u8,
}
