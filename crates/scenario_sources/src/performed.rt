use source_machine::StaleList;

/// What an event that was performed answers.
#[derive(Drop)]
pub struct Performed {
    /// The event that was open until then.
    pub closed: Option<u64>,
    /// The units that the streams left out, by rising index and in order.
    pub stale: StaleList,
}
