//! Notes that say why a line of a scenario is refused. No contract says what they say; tests do.
#![tactic(auto)]

mod forms;
mod group;
mod misfits;
mod phases;
mod refusals;
mod subevents;
mod words;

pub use group::put_fault;
pub use misfits::put_misfit;
pub use phases::{ABSENT, Source, order_of};
pub use refusals::row_of;
pub use subevents::put_subevent;
pub use words::word_at;
