//! What takes the units that a receiver hands up, and the boxes in which they are counted and kept.
#![tactic(auto)]

mod failing_tally;
mod fault;
mod last_units;
mod outlet;
mod sums;
mod taker;
mod tally;

pub use failing_tally::FailingTally;
pub use fault::{OutletFault, TakerFault};
pub use last_units::LastUnits;
pub use outlet::{Outlet, take_at};
pub use taker::UnitTaker;
pub use tally::Tally;
