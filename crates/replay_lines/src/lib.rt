//! The run of a scenario line by line, as a source gives it or as a document in TOML stands for it.
#![tactic(auto)]

mod cause;
mod ending;
mod lines;
mod listener;
mod mode;
mod text;

pub use cause::Cause;
pub use ending::Ending;
pub use listener::Listener;
pub use mode::{run_toml, want_of_memory_before_a_document};
pub use text::{run_heard, run_text, want_of_memory_at_once};
