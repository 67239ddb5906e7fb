//! A box as its pointer, for handles that C keeps.
#![tactic(auto)]

mod loose;

pub use loose::Loose;
