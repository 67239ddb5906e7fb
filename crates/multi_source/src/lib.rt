//! Sources with the air that each is heard through: one of a scenario, and two side by side.
#![tactic(auto)]

mod broadcast;
mod field;

pub use broadcast::Broadcast;
pub use field::{Field, FieldFault};
