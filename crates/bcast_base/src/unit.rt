use crate::octets::Octets;

/// An audio unit with its time in µs.
#[derive(Drop)]
pub struct Unit {
    pub time: u64,
    pub octets: Octets,
}
