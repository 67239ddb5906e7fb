//! The lines of a scenario: the step that each says, or the first word that doesn't fit its place; the line of each step; and the
//! scenario of a seed and a number of events.
#![tactic(auto)]

mod first_lines;
mod later_lines;
mod laws;
mod made_lines;
mod made_text;
mod names;
mod numbers;
mod reading;
mod sink_lines;
mod source_lines;
mod streams;
mod values;
mod wishes;
mod writing;

pub use laws::a_step_has_a_line_where_it_fits;
pub use made_lines::Lines;
pub use made_text::generate;
pub use names::named_of_sink;
pub use numbers::two_octets;
pub use reading::{read_line, read_line_in, read_line_over};
pub use scenario_words::LineFault;
pub use writing::write_line;
