//! A scenario in TOML as the text of the lines that it stands for.
#![tactic(auto)]

mod document;
mod fault;
mod fields;
mod parts;
mod rows;
mod sinks;
mod tables;
mod words;

pub use document::lines_of;
pub use fault::TomlFault;
