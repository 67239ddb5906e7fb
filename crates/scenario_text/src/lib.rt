//! The lines of a scenario: their table, what each line says, which steps have a line, and a text of version 1 as one of version 2.
#![tactic(auto)]

mod fitting;
mod laws;
mod limits;
mod line;
mod migration;
mod step;
mod taker;

pub use laws::{a_line_says_one_step, an_operation_has_so_many_octets};
pub use limits::{BEFORE_ADD, BEFORE_MODIFY, MOST_OF_OPERATION};
pub use migration::changed_digit;
pub use step::Step;
pub use taker::LineTaker;
