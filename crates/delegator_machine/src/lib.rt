//! A Scan Delegator: its control half, which says what it is on, and the receivers of the group that it is on.
#![tactic(auto, using(crate::proofs::Bits::bits_stand))]

mod delegator;
mod laws;
mod numbers;
mod settings;
mod train;

pub use delegator::Delegator;
pub use laws::{bits_stand_where_the_sink_is, the_sink_is_where_its_steps_put_it};
