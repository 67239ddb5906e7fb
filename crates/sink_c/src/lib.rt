//! What a program in C calls of a Broadcast Sink that is a Scan Delegator.
#![tactic(auto)]

mod handle;
mod laws;
mod machine;
mod settings;
mod sink;
mod streams;
mod tune;
mod units;

pub use laws::units_are_those_of_their_source;
