use bcast_base::Bis;

/// What a relay hands on, and where to.
#[derive(Clone, Copy, Debug, PartialEq, Eq)]
pub struct Route {
    /// The stream of the sink whose valid units are handed on.
    pub bis: Bis,
    /// The stream of source 1 that they go to.
    pub to: Bis,
}
