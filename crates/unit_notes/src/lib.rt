//! Notes of the units of a scenario: of each its source and its event, which payload numbers were not heard, the sum that its time is and
//! whether it comes in time, and the counts of each stream at a sink. No contract says what they say; tests do.
#![tactic(auto)]

mod asking;
mod closing;
mod early;
mod fate;
mod ledger;
mod marks;
mod moment;
mod pdus;
mod schedule;
mod telling;
mod unit_row;
mod units;

pub use units::Units;
