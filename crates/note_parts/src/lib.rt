//! What the notes of `explain` are put together from: words behind the mark of a note, a text of the input as it is shown, and the numbers
//! of a group.
#![tactic(auto)]

mod note;
mod numbers;
mod showing;

pub use note::put_note;
pub use numbers::{NONE, Numbers, numbers_of, quotient};
pub use showing::shown;
