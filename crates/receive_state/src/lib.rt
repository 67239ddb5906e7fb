//! Broadcast receive states, as a server tells them and a client reads them.
#![tactic(auto)]

mod fault;
mod fields;
mod groups;
mod laws;
mod reading;
mod state;
mod writing;

pub use fault::StateFault;
pub use laws::{fault_is_cause, fits_is_encoded, read_is_state};
pub use reading::{decode_state, decode_state_over};
pub use state::{Encryption, GroupState, GroupStates, ReceiveState};
pub use writing::{begin_state, encode_state};
