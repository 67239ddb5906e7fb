//! The migration of a text: it is read whole, and written in version 2 of the scenario language.
#![tactic(auto)]

mod migration;
mod piece;
mod text;

pub use migration::{Migration, run_migration};
