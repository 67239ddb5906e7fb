//! The sinks of a scenario: each with its box, the source that it is of, what it hears, and what it hands up.
#![tactic(auto)]

mod beyond;
mod close;
mod entry;
mod gathered;
mod hand;
mod lines;
mod relays;
mod route;
mod sink;
mod sinks;
mod sums;

pub use gathered::HandedUnit;
pub use relays::Relays;
pub use route::Route;
pub use sinks::Sinks;
