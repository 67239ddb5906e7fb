//! Tests of the public calls of the crates of bytes, schedules and lines that no scenario shows: each call that takes memory succeeds once
//! where there is enough, and faults of the outside come as they were made.
#![tactic(auto)]

#[cfg(test)]
mod air;
#[cfg(test)]
mod boxes;
#[cfg(test)]
mod generator;
#[cfg(test)]
mod lines;
pub mod numbers;
#[cfg(test)]
mod octets;
#[cfg(test)]
mod octets_in_and_out;
