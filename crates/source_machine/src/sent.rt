use bcast_base::{Bis, EventPdus, Items};

/// A unit that was left out because its turn came too late.
#[derive(Clone, Copy, Debug, PartialEq, Eq)]
pub struct Stale {
    pub bis: Bis,
    /// The time in µs that the unit was given with.
    pub time: u64,
}

/// The units that an event left out, by rising index and in order.
pub type StaleList = Items<Stale>;

/// An event that was performed.
#[derive(Drop)]
pub struct Sent {
    pub event: u64,
    /// The PDUs of the event: that of stream b and subevent n, from 0, stands at place (b - 1) × NSE + n.
    pub pdus: EventPdus,
    pub stale: StaleList,
}
