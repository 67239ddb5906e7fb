//! What a program in C calls of a Broadcast Source.
#![tactic(auto)]

mod announce;
mod handle;
mod machine;
mod new;
mod source;
