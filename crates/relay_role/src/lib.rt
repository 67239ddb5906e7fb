//! A relay: it copies the valid units of one stream as they are handed to a taker, and gives them to a stream of another
//! source.
#![tactic(auto)]

mod dropped;
mod flush;
mod laws;
mod relay;
mod taker;

pub use dropped::{DropName, Dropped, DroppedUnit};
pub use laws::what_is_not_dropped_passes;
pub use relay::Relay;
pub use taker::RelayTaker;
