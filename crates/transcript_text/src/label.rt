/// How a scenario names a link: what the lines of the link begin with.
#[derive(Clone, Copy)]
pub enum Label {
    /// The lines of link 0 of a sink, which name the sink alone.
    Plain { sink: u8 },
    /// The lines that name a link of a sink.
    OnLink { sink: u8, link: u8 },
}
