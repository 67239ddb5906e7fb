//! What a program in C calls of a Broadcast Assistant on a link.
#![tactic(auto)]

mod handle;
mod laws;
mod link;
mod machine;
mod wishes;
mod writes;
