//! What a program in C calls of the layouts.
#![tactic(auto)]

mod base;
mod checks;
mod info;
mod parts;
mod state;
