//! Notes that say why a line of a scenario brought what it brought. No contract says what they say; tests do.
#![tactic(auto)]

mod answers;
mod notes;
mod rows;

pub use notes::Notes;
