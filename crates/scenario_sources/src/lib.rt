//! The sources of a scenario: what each is described by, where it stands between its start and its stop, and what is on
//! its air. Lines mean the source that was chosen last.
#![tactic(auto)]

mod announcing;
mod basing;
mod describing;
mod identity;
mod performed;
mod phase;
mod place;
mod sending;
mod sources;
mod starting;
mod terminated;

pub use performed::Performed;
pub use place::Place;
pub use source_machine::Identity;
pub use sources::Sources;
pub use terminated::Terminated;
