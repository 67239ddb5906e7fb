//! What a Scan Delegator chooses: the slot and the Source_ID, the streams of a group, and what a train brings.
#![tactic(auto)]

mod big_sync;
mod choosing;
mod outcome;
mod refusals;
mod search;
mod slot;
mod taken_bits;

pub use big_sync::big_sync_at;
pub use choosing::{Chosen, choose};
pub use outcome::TrainOutcome;
pub use refusals::{cause_of, refused};
pub use search::{Sought, find_slot, unused_id};
pub use slot::Slot;
pub use taken_bits::TakenBits;
