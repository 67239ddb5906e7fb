//! What a scenario means: its lines up to the first refusal, its steps looked back at, and its transcript.
#![tactic(auto)]

mod box_laws;
mod run_laws;

pub use box_laws::boxes_take_their_units;
pub use run_laws::an_accepted_history_goes_first;
