//! A step of a scenario: what a line does to the sources, to the sinks and to their boxes, and what it prints.
#![tactic(auto)]

mod air_steps;
mod close_steps;
mod heard_event;
mod line_steps;
mod machine;
mod operations;
mod questions;
mod relay_steps;
mod sink_steps;
mod source_steps;
mod stale;
mod step;
mod version;

pub use machine::Machine;
