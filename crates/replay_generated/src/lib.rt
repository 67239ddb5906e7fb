//! The run of a generated scenario, of which only the summary is written.
#![tactic(auto)]

mod coming;
mod generated;
mod outcome;
mod running;

pub use generated::run_generated;
pub use outcome::Outcome;
