//! The words of the command line, and what they ask for.
#![tactic(auto)]

mod command;
mod mode;

pub use mode::{Mode, Words, mode_of};
