//! The history of a sink of a scenario and of its assistants, what its lines print, and why they are refused; no code.
#![tactic(auto)]

mod laws;
mod link_laws;

pub use laws::{worked_rows, worked_trains, worked_writes};
pub use link_laws::{
    a_drain_leaves_nothing, a_read_gives_the_state, a_step_notifies_each_link, agreement_law,
    links_law, states_are_read_back,
};
