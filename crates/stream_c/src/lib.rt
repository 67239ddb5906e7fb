//! What a program in C calls of the receiver of one stream, where another stack has the link layer.
#![tactic(auto)]

mod handle;
mod laws;
mod machine;
mod receiver;
mod stream;

pub use laws::{closes_add_up, units_are_those_of_the_source};
