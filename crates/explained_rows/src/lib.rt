//! The rows of an explanation: those of a transcript behind two blanks, and among them rows that tell lines of its scenario, and others.
#![tactic(auto)]

mod place;
mod rows;

pub use place::Place;
pub use rows::ExplainedRows;
