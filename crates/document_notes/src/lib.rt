//! Notes that say why a document is no scenario. No contract says what they say; tests do.
#![tactic(auto)]

mod check;
mod forms;
mod kinds;
mod place;
mod syntax;

pub use check::put_no_form;
pub use syntax::put_no_toml;
