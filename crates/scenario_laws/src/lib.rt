//! The laws of a scenario: one transcript; what each sink hands up is its source's, relayed units among them; what its assistants know
//! is its state; what version 2 makes of a text of version 1; and that a sink is isolated from what it isn't of.
#![tactic(auto)]

mod hearing_laws;
mod history_laws;
mod isolation_laws;
mod link_laws;
mod moment_laws;
mod relay_laws;
mod relayed_unit_laws;
mod version_laws;

pub use hearing_laws::{
    all_hearing_law, hearing_law, hearing_more_keeps_units, hearings_are_worked,
};
pub use history_laws::{
    beginnings_are_worked, one_transcript, order_law, some_airs_meet, steps_keep_order, units_law,
};
pub use isolation_laws::{a_scenario_is_left, isolation_law};
pub use link_laws::{agreement_law, links_law};
pub use moment_laws::{in_time_law, moment_law, moments_are_worked};
pub use relay_laws::{relay_lines_law, relayed_units_are_worked, relayed_units_law};
pub use relayed_unit_laws::{
    nothing_happens_without_relays, relay_law, relayed_units_are_permitted,
    relayed_units_leave_all_else, units_are_dropped_by_name, what_is_not_dropped_is_accepted,
};
pub use version_laws::migration_law;
